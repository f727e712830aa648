// The bound of the work of a run that is completed.

ghost use Rattle.std.specs.Prelude.{◌≡◌, ◌<◌, ◌^◌, IfOk, IfSome};
ghost use Rattle.ceal_base.specs.Trace.{steps_in};
ghost use Rattle.ceal_code.specs.Fitting.{Fits};
ghost use Rattle.ceal_session.specs.Costs.{HasItems, IsCost};
ghost use Rattle.ceal_session.specs.Journal.{Between, measure_of};
ghost use Rattle.ceal_session.specs.SessionState.{IsMeasured, bound_from};
ghost use Rattle.ceal_theory.specs.Computed.{first_of};

use crate::journal::{Bounding, Edit, undo};
use ceal_adjust::adjust::{Adjusted, first_forest};
use ceal_base::forest::Forest;
use ceal_base::memory::Inputs;
use ceal_base::no_memory::NoMemory;
use ceal_base::word::Word;
use ceal_cost::aligned::aligned_cost;
use ceal_engine::engine::Engine;
use std::alloc::Global;

/// The items of the first trace of a call; none where the run has more steps than the fuel allows.
fn first_items(
    alloc: Global,
    engine: &Engine,
    function: u32,
    args: &[Word],
    inputs: &Inputs,
) -> Result<Option<Forest>, NoMemory>
    requires fits { Fits engine.now.code inputs.now function args.now }
    ensures first { IfOk result
        (λ forest. HasItems engine.now.fuel
        (first_of engine.now.code inputs.now engine.now.fuel function args.now) forest) }
{
    // for the proof: it is an engine, by the clause `whole`
    let _phase = engine.phase();
    let first = first_forest(alloc, engine.code(), function, args, inputs, engine.fuel())?;
    match first {
        Adjusted::Done { forest, work: _ } => Ok(Some(forest)),
        Adjusted::OutOfFuel => Ok(None),
    }
}

/// The cost of the one beside the other, where both are there.
fn cost(alloc: Global, old: &Option<Forest>, new: &Option<Forest>) -> Result<u32, NoMemory>
    requires old { IfSome old.now (λ items. steps_in items < 2 ^ 32) }
    requires new { IfSome new.now (λ items. steps_in items < 2 ^ 32) }
    ensures { IfOk result (λ n. IsCost old.now new.now n) }
{
    match (old, new) {
        (Some(old), Some(new)) => aligned_cost(alloc, old, new),
        _ => Ok(0),
    }
}

/// The cost of the first trace on the present inputs beside the first trace on the inputs as they were before the
/// edits.
fn cost_since(alloc: Global, engine: &Engine, edits: &[Edit]) -> Result<u32, NoMemory>
    requires measured { IsMeasured engine.now engine.now.inputs (Between edits.now) }
    ensures { IfOk result
        (λ n. n ≡ bound_from engine.now engine.now.inputs (Between edits.now)) }
{
    // for the proof: it is an engine, by the clause `whole`
    let _phase = engine.phase();
    let mut before = engine.inputs()?;
    undo(&mut before, edits);
    match engine.call() {
        None => Ok(0),
        Some((function, args)) => {
            let old = first_items(alloc, engine, function, args, &before)?;
            let new = first_items(alloc, engine, function, args, engine.input_blocks())?;
            cost(alloc, &old, &new)
        }
    }
}

/// The bound of the last run, where nothing was edited since.
pub fn bound_of(alloc: Global, engine: &Engine, bounding: &Bounding) -> Result<u32, NoMemory>
    requires measured { IsMeasured engine.now engine.now.inputs (measure_of bounding.now) }
    ensures { IfOk result
        (λ n. n ≡ bound_from engine.now engine.now.inputs (measure_of bounding.now)) }
{
    match bounding {
        Bounding::Number(number) => Ok(*number),
        Bounding::Edits(edits) => cost_since(alloc, engine, edits.as_slice()),
    }
}
