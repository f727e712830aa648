// An engine's calls, where memory may be refused: what was refused is asked again, as in `refused`, and the run is then
// that of the interpreter from nothing. The numbers of steps and core blocks were worked out by hand.

ghost use Rattle.std.specs.Prelude.{◌≡◌, IfSome};
ghost use Rattle.ceal_compile.specs.Compiled.{IsCompiled};
ghost use Rattle.ceal_engine.specs.declared.phase.Phase.TheVariants.{Finished};

use crate::asserts::{equal, holds};
use ceal_base::kind::Shape;
use ceal_base::memory::{BlockWords, Memory};
use ceal_base::no_memory::NoMemory;
use ceal_base::recorded::Record;
use ceal_base::typed::Typed;
use ceal_base::word::{BlockId, Place, Word};
use ceal_compile::compile::compile;
use ceal_compile::program::Program;
use ceal_engine::engine::Engine;
use ceal_engine::phase::{Phase, Progress};
use ceal_engine::run_error::RunError;
use ceal_mean::run::{Outcome, interpret};
use ceal_record::record::record;
use ceal_samples::inputs::{at, input};
use ceal_samples::programs::MAP;
use std::alloc::Global;
use std::process::Abort;
use std::test::Fail;

/// Adds an input, also where memory is refused once: then nothing has changed.
fn add<R: Abort>(rt: &R, engine: &mut Engine, shape: Shape, words: &[Word]) {
    holds(rt, engine.takes_input(shape, words));
    let count = engine.input_blocks().items().len();
    if engine.add_input(shape, words).is_err() {
        equal(rt, engine.input_blocks().items().len(), count);
        holds(rt, engine.takes_input(shape, words));
        holds(rt, engine.add_input(shape, words).is_ok());
    }
}

/// Edits a modifiable, also where memory is refused once: then the phase is as it was.
fn edit<R: Abort>(rt: &R, engine: &mut Engine, place: Place, word: Word) {
    holds(rt, engine.takes_edit(place, word));
    let phase = engine.phase();
    if engine.edit(place, word).is_err() {
        holds(rt, engine.phase() == phase);
        holds(rt, engine.takes_edit(place, word));
        holds(rt, engine.edit(place, word).is_ok());
    }
}

/// After running out of memory the run is dropped, and `propagate` runs the call again.
fn recovers<R: Abort>(rt: &R, engine: &mut Engine, answer: Result<(), RunError>) {
    match answer {
        Ok(()) => {}
        Err(RunError::OutOfFuel) => panic!(rt; "it is out of fuel"),
        Err(RunError::Memory) => {
            holds(rt, engine.phase() == Phase::Dropped);
            holds(rt, engine.propagate().is_ok());
        }
    }
}

/// Slices of one read until the run is up to date, also where memory is refused once: then the run is dropped, and the
/// next slice runs the call again.
fn by_slices<R: Abort>(rt: &R, engine: &mut Engine) {
    for _slice in 0..4 {
        holds(rt, engine.phase() != Phase::New);
        match engine.slice(1) {
            Ok(Progress::Done) => return,
            Ok(Progress::More) => holds(rt, engine.phase() == Phase::Partial),
            Err(RunError::OutOfFuel) => panic!(rt; "it is out of fuel"),
            Err(RunError::Memory) => holds(rt, engine.phase() == Phase::Dropped),
        }
    }
    panic!(rt; "reads are still stale")
}

/// The run has `steps` steps and `blocks` core blocks.
fn has<R: Abort>(rt: &R, engine: &Engine, steps: u32, blocks: u32) {
    holds(rt, engine.phase() == Phase::Finished);
    equal(rt, (engine.steps(), engine.live_blocks()), (steps, blocks));
}

/// The program MAP; None where there was no memory for it.
pub(crate) fn program(alloc: Global) -> Option<Program>
    ensures compiled { IfSome result IsCompiled }
{
    if MAP.len() > 4_194_304 {
        return None;
    }
    match compile(alloc, MAP) {
        Ok(program) => Some(program),
        Err(_) => None,
    }
}

/// The program without its code, and an engine over its code; None where there was no memory for them.
fn engine(alloc: Global) -> Option<(Typed, Engine)> {
    let Program { typed, code } = program(alloc)?;
    match Engine::new(alloc, code, 100) {
        Ok(engine) => Some((typed, engine)),
        Err(NoMemory) => {
            drop(typed);
            None
        }
    }
}

/// The result of the program when it is interpreted from nothing on the inputs of the engine.
fn interpreted(alloc: Global, program: &Typed, engine: &Engine) -> Result<Outcome, NoMemory> {
    let args = [at(3), at(4)];
    interpret(alloc, program, 1, &args, engine.input_blocks(), 100)
}

/// The record of the run, by which its core blocks are in the order of their allocations.
fn recorded(alloc: Global, engine: &Engine) -> Result<Record, NoMemory>
    requires { engine.now.phase ≡ Finished }
{
    let forest = engine.forest()?;
    let args = [at(3), at(4)];
    let inputs = engine.input_blocks();
    let record = record(alloc, engine.code(), inputs, 1, &args, forest.items());
    drop(forest);
    record
}

/// Whether both are the same blocks.
fn are_same(found: &[BlockWords], wanted: &[BlockWords]) -> bool {
    let Some((a, found)) = found.split_first() else {
        return wanted.is_empty();
    };
    let Some((b, wanted)) = wanted.split_first() else {
        return false;
    };
    a.shape == b.shape && a.items() == b.items() && are_same(found, wanted)
}

/// The run has these inputs and core blocks at its end.
fn leaves<R: Abort>(rt: &R, alloc: Global, engine: &Engine, memory: &Memory)
    requires { engine.now.phase ≡ Finished }
{
    let record = match recorded(alloc, engine) {
        Ok(record) => record,
        Err(NoMemory) => recorded(alloc, engine).expect(rt, "memory"),
    };
    holds(rt, are_same(record.memory.items(), memory.items()));
    holds(
        rt,
        are_same(record.memory.inputs.items(), memory.inputs.items()),
    );
    drop(record);
}

/// The run has the steps, the core blocks and the memory of one from nothing.
fn is_as_anew<R: Abort>(rt: &R, alloc: Global, program: &Typed, engine: &Engine) {
    holds(rt, engine.phase() == Phase::Finished);
    let outcome = match interpreted(alloc, program, engine) {
        Ok(outcome) => outcome,
        Err(NoMemory) => interpreted(alloc, program, engine).expect(rt, "memory"),
    };
    match &outcome {
        Outcome::OutOfFuel => panic!(rt; "it is out of fuel"),
        Outcome::Done {
            memory,
            steps,
            blocks,
        } => {
            equal(
                rt,
                (engine.steps(), engine.live_blocks()),
                (*steps, *blocks),
            );
            leaves(rt, alloc, engine, memory);
        }
    }
    drop(outcome);
}

/// The list 1, 2, 3, a modifiable that points to it, and one for its image.
fn fill<R: Abort>(rt: &R, engine: &mut Engine) {
    add(rt, engine, Shape::Struct(0), &[Word::Num(3), Word::Null]);
    add(rt, engine, Shape::Struct(0), &[Word::Num(2), input(0)]);
    add(rt, engine, Shape::Struct(0), &[Word::Num(1), input(1)]);
    add(rt, engine, Shape::ModPtr(0), &[input(2)]);
    add(rt, engine, Shape::ModPtr(0), &[Word::Null]);
}

/// A new cell before the list.
fn put_before<R: Abort>(rt: &R, engine: &mut Engine) {
    add(rt, engine, Shape::Struct(0), &[Word::Num(0), input(2)]);
    let place = Place {
        block: BlockId::Input(3),
        field: 0,
    };
    edit(rt, engine, place, input(5));
}

/// A list and its image, made again where memory was refused.
fn first_call<R: Abort>(rt: &R, alloc: Global, program: &Typed, engine: &mut Engine) {
    fill(rt, engine);
    let args = [at(3), at(4)];
    holds(rt, engine.takes_call(1, &args));
    let answer = engine.run(1, &args);
    recovers(rt, engine, answer);
    has(rt, engine, 18, 3);
    is_as_anew(rt, alloc, program, engine);
}

/// The same with a new cell before it, in slices.
fn slices<R: Abort>(rt: &R, alloc: Global, program: &Typed, engine: &mut Engine) {
    first_call(rt, alloc, program, engine);
    put_before(rt, engine);
    by_slices(rt, engine);
    has(rt, engine, 23, 4);
    is_as_anew(rt, alloc, program, engine);
}

/// The calls of a list with a new cell before it, each made again where memory was refused.
fn calls<R: Abort>(rt: &R, alloc: Global, program: &Typed, engine: &mut Engine) {
    first_call(rt, alloc, program, engine);
    put_before(rt, engine);
    holds(rt, engine.phase() != Phase::New);
    let answer = engine.propagate();
    recovers(rt, engine, answer);
    has(rt, engine, 23, 4);
    is_as_anew(rt, alloc, program, engine);
}

#[test]
fn a_call_may_be_made_again(rt: HostRuntime) -> Result<(), Fail> {
    let alloc = rt.alloc();
    let Some((program, mut engine)) = engine(alloc) else {
        return Ok(());
    };
    calls(&rt, alloc, &program, &mut engine);
    drop(engine);
    drop(program);
    Ok(())
}

#[test]
fn a_slice_may_be_made_again(rt: HostRuntime) -> Result<(), Fail> {
    let alloc = rt.alloc();
    let Some((program, mut engine)) = engine(alloc) else {
        return Ok(());
    };
    slices(&rt, alloc, &program, &mut engine);
    drop(engine);
    drop(program);
    Ok(())
}
