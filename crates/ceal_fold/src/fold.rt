// Folding of a whole program.

ghost use Rattle.std.specs.Prelude.{◌≡◌, ℕ, true, List, IfOk};
ghost use Rattle.ceal_base.specs.Block.{Block};
ghost use Rattle.ceal_base.specs.declared.word.Word.{Word};
ghost use Rattle.ceal_code.specs.Fresh.{fresh};
ghost use Rattle.ceal_code.specs.Valid.{valid, is_tree};
ghost use Rattle.ceal_fold.specs.Folding.{folded, folded_unit, folded_units};
ghost use Rattle.ceal_fold.specs.Traces.{SameTraces, SameReplays};
ghost use Rattle.ceal_fold.specs.Trees.{are_trees};

use crate::replace::replace_all;
use crate::unused::tick_all;
use ceal_base::no_memory::NoMemory;
use ceal_base::typed::StructInfo;
use ceal_code::code::Code;
use ceal_code::unit::Unit;
use std::alloc::Global;

fn fold_unit(alloc: Global, structs: &[StructInfo], unit: &Unit) -> Result<Unit, NoMemory>
    requires tree { is_tree unit.now.body ≡ true }
    ensures value { IfOk result (λ u. u ≡ folded_unit structs.now unit.now) }
{
    let params = Vec::from_slice(alloc, unit.params())?;
    let body = replace_all(alloc, structs, unit.body())?;
    let body = tick_all(alloc, body)?;
    Ok(Unit::new(unit.function, params, body))
}

/// As `fold_unit`, of a unit that is not needed any more.
fn refold_unit(alloc: Global, structs: &[StructInfo], unit: Unit) -> Result<Unit, NoMemory>
    requires tree { is_tree unit.body ≡ true }
    ensures value { IfOk result (λ u. u ≡ folded_unit structs.now unit) }
{
    let folded = fold_unit(alloc, structs, &unit);
    drop(unit);
    folded
}

/// The units, each of which is free before the next is folded.
#[tactic(auto, using(crate::proofs::UnitSteps::unit_steps))]
fn fold_units(
    alloc: Global,
    structs: &[StructInfo],
    units: &mut Vec<Unit>,
) -> Result<Vec<Unit>, NoMemory>
    requires trees { are_trees units.old.items ≡ true }
    ensures value { IfOk result (λ v. v.items ≡ folded_units structs.now units.old.items) }
{
    let mut folded = Vec::with_capacity(alloc, units.len())?;
    units.reverse();
    while let Some(unit) = units.pop() {
        let after = refold_unit(alloc, structs, unit)?;
        folded.push(after)?;
    }
    Ok(folded)
}

fn fold_code(alloc: Global, code: Code) -> Result<Code, NoMemory>
    requires trees { are_trees code.units ≡ true }
    ensures exact { IfOk result (λ c. c ≡ folded code) }
{
    let (structs, functions, mut units, kinds) = code.into_parts();
    let folded = fold_units(alloc, structs.items(), &mut units)?;
    drop(units);
    Ok(Code::new(structs, functions, folded, kinds))
}

/// Replaces copies and operators on constants in each unit from the root down, and then makes each move that nothing
/// later uses a step that does nothing. Initialisers stay, and so do the indices of a body. So a run takes the same
/// steps, and a trace of the one code is a trace of the other. It takes time in proportion to the size of the code
/// times the logarithm of the variables. At each `If` of which one part assigns while the other is still to come, it
/// also takes the time to copy what is known of the variables that are assigned before it in its unit (the definition
/// is our own).
pub fn fold(alloc: Global, code: Code) -> Result<Code, NoMemory>
    requires valid { valid code ≡ true }
    ensures exact { IfOk result (λ c. c ≡ folded code) }
    ensures valid { IfOk result (λ c. valid c ≡ true) }
    ensures same_run { IfOk result (λ c. (f : ℕ) (args : List Word) (inputs : List Block) (fuel : ℕ)
        → fresh c f args inputs fuel ≡ fresh code f args inputs fuel) }
    ensures same_traces { IfOk result (λ c. SameTraces c code) }
    ensures replays { IfOk result (λ c. SameReplays c code) }
{
    let after = fold_code(alloc, code)?;
    Ok(after)
}
