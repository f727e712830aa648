// The units of a graph.

ghost use Rattle.std.specs.Prelude.{◌≡◌, ◌<◌, ◌++◌, ◌∷◌, [], length, slice_get, slice_index_or, if◌then◌else◌, Some};
ghost use Rattle.std.specs.Prelude.{IfOk, OnOk};
ghost use Rattle.ceal_norm.specs.Entries.{is_entry};
ghost use Rattle.ceal_norm.specs.Units.{core_numbers, is_done, owner, unit_code, units_before, variables};

use crate::body::body_of;
use crate::number::{number, one_more};
use crate::plan::Plan;
use ceal_base::no_memory::NoMemory;
use ceal_code::expr::VarId;
use ceal_code::unit::Unit;
use ceal_flow::block::GraphBlock;
use ceal_flow::function::GraphFunction;
use std::alloc::Global;

fn vars_of(alloc: Global, vs: &[u32]) -> Result<Vec<VarId>, NoMemory>
    ensures { IfOk result (λ ps. ps.items ≡ variables vs.now) }
{
    let mut out = Vec::with_capacity(alloc, vs.len())?;
    for v in vs {
        out.push(VarId(*v))?;
    }
    Ok(out)
}

/// The unit of an entry, which is a block of the function of this number.
fn unit_of_entry(alloc: Global, plan: &Plan<'_>, function: u32, b: u32) -> Result<Unit, NoMemory>
    requires there { b < length plan.now.graph.blocks }
    requires owner { function ≡ owner plan.now.graph b }
    ensures { IfOk result (λ unit. unit ≡ unit_code plan.now b) }
{
    let vs = plan.variables(alloc, b)?;
    let params = vars_of(alloc, vs.as_slice())?;
    let body = body_of(alloc, plan, b)?;
    Ok(Unit::new(function, params, body))
}

/// The numbers of the core functions.
#[tactic(auto, using(crate::proofs::Equations::UnitSteps::core_steps))]
fn cores(alloc: Global, functions: &[GraphFunction]) -> Result<Vec<u32>, NoMemory>
    ensures { IfOk result (λ ns. ns.items ≡ core_numbers 0 functions.now) }
{
    let mut out = Vec::new(alloc);
    let mut functions = functions;
    let mut at = 0;
    while let Some((function, more)) = functions.split_first() {
        if let GraphFunction::Core { .. } = function {
            out.push(number(at)?)?;
        }
        at += 1;
        functions = more;
    }
    Ok(out)
}

fn ends(block: &GraphBlock) -> bool
    ensures { result ≡ is_done block.now }
{
    match block {
        GraphBlock::Done => true,
        GraphBlock::Test { .. } => false,
        GraphBlock::Act { .. } => false,
        GraphBlock::Unreached => false,
    }
}

fn core_at(cores: &[u32], n: u32) -> u32
    ensures { result ≡ slice_index_or cores.now n 0 }
{
    cores.get(n as usize).copied().unwrap_or(0)
}

/// Adds the unit of a block that is an entry.
fn put_unit(
    alloc: Global,
    plan: &Plan<'_>,
    units: &mut Vec<Unit>,
    function: u32,
    b: u32,
) -> Result<(), NoMemory>
    requires there { b < length plan.now.graph.blocks }
    requires owner { function ≡ owner plan.now.graph b }
    ensures { OnOk result
        (units.new.items ≡
        (if is_entry plan.now.graph b then units.old.items
        ++ unit_code plan.now b ∷ [] else units.old.items)) }
{
    if plan.is_entry(b) {
        units.push(unit_of_entry(alloc, plan, function, b)?)?;
    }
    Ok(())
}

/// All units, by the numbers of their entries.
#[tactic(auto, using(crate::proofs::Equations::UnitSteps::unit_steps))]
pub fn units_of(alloc: Global, plan: &Plan<'_>) -> Result<Vec<Unit>, NoMemory>
    ensures value { IfOk result
        (λ units. units.items ≡ units_before plan.now (length plan.now.graph.blocks)) }
{
    let cores = cores(alloc, plan.functions())?;
    let count = plan.blocks().len();
    let mut units = Vec::new(alloc);
    let mut ended = 0;
    for i in 0..count {
        let b = number(i)?;
        let function = core_at(cores.as_slice(), ended);
        put_unit(alloc, plan, &mut units, function, b)?;
        ended = one_more(ended, ends(plan.block(b)))?;
    }
    Ok(units)
}
