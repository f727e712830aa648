// Repair in slices, with edits between them.

ghost use Rattle.std.specs.Prelude.{◌≡◌, ◌+◌, ◌<◌, ◌≤◌, ◌^◌, ◌↔◌, ℕ, Some, List, IsTrue, IfOk};
ghost use Rattle.ceal_base.specs.Block.{Block};
ghost use Rattle.ceal_base.specs.Trace.{Trace, flat};
ghost use Rattle.ceal_base.specs.declared.word.Word.{Word as AnyWord};
ghost use Rattle.ceal_code.specs.Fitting.{Fits};
ghost use Rattle.ceal_code.specs.Replay.{IsHonest};
ghost use Rattle.ceal_theory.specs.Laws.{Edited};
ghost use Rattle.ceal_theory.specs.Repair.{own};
ghost use Rattle.ceal_theory.specs.Slices.{Repair as AnyRepair, RepairHolds, beginning};
ghost use Rattle.ceal_adjust.specs.Slicing.{StandsFor, HoldsFor, Comes, IsConcluded, IfGiven};

use crate::known::{Known, known_below};
use crate::stale::first_stale;
use crate::turn::{Turned, memory_of, turn};
use ceal_base::forest::Forest;
use ceal_base::memory::Inputs;
use ceal_base::no_memory::NoMemory;
use ceal_code::code::Code;
use ceal_code::trace_memory::TraceMemory;
use std::alloc::Global;

/// A repair in progress: the flat items as they are, the core blocks that were known since it began, the number of the
/// next new block, and how many steps were re-executed.
#[derive(Drop)]
pub struct Repair {
    pub forest: Forest,
    pub known: Known,
    pub next: u32,
    pub spent: u32,
}

/// What a slice comes to.
#[derive(Drop)]
pub enum Sliced {
    /// reads are still stale: the repair is in progress
    More(Repair),
    /// no read is stale
    Done(Repair),
    /// more steps were re-executed than the fuel allows
    Spent,
}

/// The repair of a trace that has not begun. The forest is the flat form of a trace of a call of this code, on inputs
/// that the given ones extend with any bases; new blocks will have the numbers from `next` on.
pub fn begin_repair(
    alloc: Global,
    code: &Code,
    forest: &Forest,
    inputs: &Inputs,
    next: u32,
) -> Result<Repair, NoMemory>
    requires trace { (old : List Block) × (f : ℕ) × (args : List AnyWord) × (l : Trace)
        × (forest.now ≡ flat l) × Edited code.now old inputs.now f args l next }
    ensures begins { IfOk result (λ repair. (l : Trace) → forest.now ≡ flat l →
        StandsFor repair (beginning code.now inputs.now l next)) }
    ensures holds { IfOk result (λ repair. (old : List Block) (f : ℕ) (args : List AnyWord)
        (l : Trace) → forest.now ≡ flat l → Edited code.now old inputs.now f args l next
        → HoldsFor code.now inputs.now f args repair) }
{
    let mut memory = TraceMemory::new(alloc, code, inputs);
    memory.learn_items(forest.items())?;
    let known = known_below(alloc, &memory, next)?;
    Ok(Repair {
        forest: forest.copy()?,
        known,
        next,
        spent: 0,
    })
}

/// Whether no read is stale.
fn is_honest(alloc: Global, code: &Code, repair: &Repair, inputs: &Inputs) -> Result<bool, NoMemory>
    ensures { IfOk result (λ honest. (r : AnyRepair) (f : ℕ) (args : List AnyWord)
        → Fits code.now inputs.now f args → StandsFor repair.now r
        → RepairHolds code.now own inputs.now f args r
        → IsTrue honest ↔ IsHonest code.now inputs.now r.items) }
{
    let mut memory = memory_of(alloc, code, repair, inputs)?;
    match first_stale(&mut memory, repair.forest.items())? {
        None => Ok(true),
        Some(_stale) => Ok(false),
    }
}

/// What is left when no more reads should be re-executed.
fn concluded(
    alloc: Global,
    code: &Code,
    repair: Repair,
    inputs: &Inputs,
) -> Result<Sliced, NoMemory>
    ensures { IfOk result (λ s. (r : AnyRepair) (f : ℕ) (args : List AnyWord)
        → Fits code.now inputs.now f args → StandsFor repair r
        → RepairHolds code.now own inputs.now f args r
        → IsConcluded code.now inputs.now r repair s) }
{
    if is_honest(alloc, code, &repair, inputs)? {
        Ok(Sliced::Done(repair))
    } else {
        Ok(Sliced::More(repair))
    }
}

/// Whether the given number of reads was re-executed.
fn is_last(reads: Option<u32>, turns: u64) -> bool
    ensures { IsTrue result ↔ (reads ≡ Some turns) }
{
    match reads {
        None => false,
        Some(reads) => u64::from(reads) == turns,
    }
}

/// A slice: at most `reads` reads are re-executed outside each other, each with all that is stale inside it, or all
/// where no number is given. Each turn walks the trace from its beginning, so it is for small traces and for
/// comparison.
pub fn slice_repair(
    alloc: Global,
    code: &Code,
    repair: Repair,
    inputs: &Inputs,
    reads: Option<u32>,
    fuel: u32,
) -> Result<Sliced, NoMemory>
    requires holds { (f : ℕ) × (args : List AnyWord) × HoldsFor code.now inputs.now f args repair }
    requires few { repair.spent ≤ fuel }
    requires room { repair.next + fuel < 2 ^ 32 + repair.spent }
    ensures slice { IfOk result (λ s. (r : AnyRepair) (f : ℕ) (args : List AnyWord)
        → Fits code.now inputs.now f args → StandsFor repair r
        → RepairHolds code.now own inputs.now f args r → Comes code.now inputs.now reads fuel r s) }
    ensures holds { IfOk result (λ s. (f : ℕ) (args : List AnyWord)
        → HoldsFor code.now inputs.now f args repair
        → IfGiven s (λ q. HoldsFor code.now inputs.now f args q)) }
{
    let mut repair = repair;
    for turns in 0..u64::MAX {
        if is_last(reads, turns) {
            return concluded(alloc, code, repair, inputs);
        }
        match turn(alloc, code, &repair, inputs, fuel)? {
            Turned::Honest => return Ok(Sliced::Done(repair)),
            Turned::Over => return Ok(Sliced::Spent),
            Turned::Went(next) => repair = next,
        }
    }
    Err(NoMemory)
}
