// The first trace of a call, and the repair of a trace.

ghost use Rattle.std.specs.Prelude.{◌≡◌, ◌+◌, ◌<◌, ◌^◌, ℕ, true, List, IfOk};
ghost use Rattle.ceal_base.specs.Block.{Block};
ghost use Rattle.ceal_base.specs.Trace.{Trace, flat};
ghost use Rattle.ceal_base.specs.declared.word.Word.{Word as WordOf};
ghost use Rattle.ceal_code.specs.Fitting.{Fits};
ghost use Rattle.ceal_code.specs.Fresh.{fresh};
ghost use Rattle.ceal_code.specs.Valid.{valid};
ghost use Rattle.ceal_adjust.specs.Answers.{IsAnswer};
ghost use Rattle.ceal_theory.specs.Computed.{adjusted, first_of};
ghost use Rattle.ceal_theory.specs.Laws.{Edited};

use crate::complete::complete;
use crate::frame::Mode;
use crate::old::Old;
use crate::repair::Repair;
use ceal_base::forest::Forest;
use ceal_base::memory::Inputs;
use ceal_base::no_memory::NoMemory;
use ceal_base::word::Word;
use ceal_code::code::Code;
use ceal_code::stack::Stack;
use ceal_code::trace_memory::TraceMemory;
use std::alloc::Global;

/// What a repair comes to.
#[derive(Drop)]
pub enum Adjusted {
    /// the flat items of the trace, and how many steps were re-executed
    Done { forest: Forest, work: u32 },
    /// a run from scratch needs more steps than the fuel allows
    OutOfFuel,
}

/// The first trace of a call of a core function: it is run with nothing left over, and its blocks have the numbers
/// from 0 on. It is out of fuel exactly when the run from scratch needs more steps than the fuel allows.
pub fn first_forest(
    alloc: Global,
    code: &Code,
    function: u32,
    args: &[Word],
    inputs: &Inputs,
    fuel: u32,
) -> Result<Adjusted, NoMemory>
    requires valid { valid code.now ≡ true }
    requires fits { Fits code.now inputs.now function args.now }
    ensures answer { IfOk result
        (λ a. IsAnswer (first_of code.now inputs.now fuel function args.now)
        (fresh code.now function args.now inputs.now fuel) a) }
{
    let memory = TraceMemory::new(alloc, code, inputs);
    let old = Old::new(alloc, &[])?;
    let stack = Stack::call(alloc, code, function, args)?;
    let repair = Repair::new(memory, old, 0, Mode::Running, stack);
    let answer = complete(alloc, repair, fuel)?;
    Ok(answer)
}

/// The repair of a trace on other inputs: change propagation, by one walk over the old items. One pass before it makes
/// the tables by which what is taken is found, and one learns the plain words; a look-up by a table is a binary search
/// among the old items with that key. The forest is the flat form of a trace of a call of this code, on inputs that the
/// given ones extend with any bases; new blocks have the numbers from `next` on. It is out of fuel exactly when a run
/// from scratch on the given inputs needs more steps than the fuel allows, although only a part is re-executed.
pub fn adjust(
    alloc: Global,
    code: &Code,
    forest: &Forest,
    inputs: &Inputs,
    next: u32,
    fuel: u32,
) -> Result<Adjusted, NoMemory>
    requires valid { valid code.now ≡ true }
    requires trace { (old : List Block) × (f : ℕ) × (args : List WordOf) × (l : Trace)
        × (forest.now ≡ flat l) × Edited code.now old inputs.now f args l next }
    requires room { next + fuel < 2 ^ 32 }
    ensures answer { IfOk result
        (λ a. (old : List Block) (f : ℕ) (args : List WordOf) (l : Trace) → forest.now ≡ flat l
        → Edited code.now old inputs.now f args l next
        → IsAnswer (adjusted code.now inputs.now next fuel l)
        (fresh code.now f args inputs.now fuel) a) }
{
    let mut memory = TraceMemory::new(alloc, code, inputs);
    memory.learn_items(forest.items())?;
    let old = Old::new(alloc, forest.items())?;
    let repair = Repair::new(memory, old, next, Mode::Fixing, Stack::empty(alloc));
    let answer = complete(alloc, repair, fuel)?;
    Ok(answer)
}
