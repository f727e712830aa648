// An engine beside the plain program of the definitions: both re-execute as many steps.

ghost use Rattle.std.specs.Prelude.{◌<◌};

use crate::drive::{become_inputs, propagate, run};
use crate::edits::repaired;
use ceal_adjust::adjust::Adjusted;
use ceal_base::memory::Inputs;
use ceal_base::no_memory::NoMemory;
use ceal_base::word::Word;
use ceal_code::code::Code;
use ceal_engine::engine::Engine;
use ceal_engine::phase::Phase;
use ceal_samples::inputs::{at, input, list};
use ceal_samples::programs::{MAP, compiled};
use std::alloc::Global;
use std::process::Abort;
use std::test::Fail;

/// The work of an engine that is up to date.
fn work_of(engine: &Engine) -> Result<u32, Fail> {
    if engine.phase() != Phase::Finished {
        return Err(Fail::from("it has no finished run"));
    }
    Ok(engine.work())
}

/// An engine without inputs.
fn engine(alloc: Global, source: &[u8], fuel: u32) -> Result<Engine, Fail> {
    if fuel < 1 || fuel > 4_194_304 {
        return Err(Fail::from("no such fuel"));
    }
    let program = compiled(alloc, source)?;
    Ok(Engine::new(alloc, program.code, fuel)?)
}

/// The work of an engine for this edit of its inputs after a run.
fn edited_work(
    engine: &mut Engine,
    function: u32,
    args: &[Word],
    edit: (&Inputs, &Inputs),
) -> Result<u32, Fail> {
    become_inputs(engine, edit.0)?;
    run(engine, function, args)?;
    become_inputs(engine, edit.1)?;
    propagate(engine)?;
    work_of(engine)
}

/// Whether an engine has the work of this repair after the same edit of the same inputs. One that is out of fuel has
/// none.
fn agrees(
    engine: &mut Engine,
    function: u32,
    args: &[Word],
    edit: (&Inputs, &Inputs),
    repair: &Adjusted,
) -> Result<bool, Fail> {
    match repair {
        Adjusted::OutOfFuel => Ok(true),
        Adjusted::Done { work, .. } => Ok(edited_work(engine, function, args, edit)? == *work),
    }
}

/// The same of a separate engine, for a source text and the most steps of a run.
pub(crate) fn beside(
    alloc: Global,
    program: (&[u8], u32),
    call: (u32, &[Word]),
    edit: (&Inputs, &Inputs),
    repair: &Adjusted,
) -> Result<bool, Fail> {
    let mut engine = engine(alloc, program.0, program.1)?;
    let told = agrees(&mut engine, call.0, call.1, edit, repair);
    drop(engine);
    told
}

/// Numbers without order, each made from the one before it.
#[derive(Drop)]
struct Draws {
    state: u32,
}

impl Draws {
    /// A number below a bound.
    fn below(&mut self, bound: u32) -> u32
        requires { 0 < bound }
        ensures below { result < bound }
    {
        self.state = self
            .state
            .wrapping_mul(1_664_525)
            .wrapping_add(1_013_904_223);
        (self.state >> 16) % bound
    }
}

/// How many cells the list has.
const CELLS: u32 = 12;

/// Another word for a field of an input.
#[derive(Clone, Copy)]
struct Edit {
    input: u32,
    field: u32,
    word: Word,
}

impl Edit {
    fn apply(self, inputs: &mut Inputs) {
        inputs.set(self.input, self.field, self.word);
    }
}

/// The cell of this number, from 1 on, or none after the last one.
fn cell(number: u32) -> Word
    requires { number < 100 }
{
    if number <= CELLS {
        input(number + 1)
    } else {
        Word::Null
    }
}

/// Another pointer in one of the inputs: the list begins at another cell, or a cell has another one after it as its
/// tail, or there is none.
fn drawn(draws: &mut Draws) -> Edit {
    let from = draws.below(CELLS);
    let word = cell(from + 1 + draws.below(3));
    if from == 0 {
        Edit {
            input: 0,
            field: 0,
            word,
        }
    } else {
        Edit {
            input: from + 1,
            field: 1,
            word,
        }
    }
}

/// The work of a repair, if there is one.
fn work_in(stories: &Option<(Adjusted, Adjusted)>) -> Option<u32> {
    match stories {
        Some((_, Adjusted::Done { work, .. })) => Some(*work),
        _ => None,
    }
}

/// The work of the repair of a first trace of MAP after an edit, if there is one.
fn repair_work(
    alloc: Global,
    code: &Code,
    before: &Inputs,
    after: &Inputs,
) -> Result<Option<u32>, NoMemory> {
    let stories = repaired(alloc, code, 1, &[at(0), at(1)], before, after, 1000)?;
    let work = work_in(&stories);
    drop(stories);
    Ok(work)
}

/// The work of an engine after these become its inputs.
fn next_work(engine: &mut Engine, after: &Inputs) -> Result<u32, Fail> {
    become_inputs(engine, after)?;
    propagate(engine)?;
    work_of(engine)
}

/// Whether an engine has the work of the repair where the inputs become these.
fn has_its_work(
    alloc: Global,
    code: &Code,
    engine: &mut Engine,
    before: &Inputs,
    after: &Inputs,
) -> Result<bool, Fail> {
    let work = next_work(engine, after)?;
    let wanted = repair_work(alloc, code, before, after)?;
    Ok(wanted == Some(work))
}

/// One edit more, which the inputs then have. Whether the engine has the work of the repair.
fn goes_on(
    alloc: Global,
    code: &Code,
    engine: &mut Engine,
    inputs: &mut Inputs,
    edit: Edit,
) -> Result<bool, Fail> {
    let mut after = inputs.copy()?;
    edit.apply(&mut after);
    let told = has_its_work(alloc, code, engine, inputs, &after);
    drop(after);
    edit.apply(inputs);
    told
}

/// The given number of edits, one after another.
fn edits_follow<R: Abort>(
    rt: &R,
    alloc: Global,
    code: &Code,
    engine: &mut Engine,
    inputs: &mut Inputs,
) -> Result<(), Fail> {
    let mut draws = Draws { state: 1 };
    become_inputs(engine, inputs)?;
    run(engine, 1, &[at(0), at(1)])?;
    for _edit in 0..300 {
        let edit = drawn(&mut draws);
        assert!(rt; goes_on(alloc, code, engine, inputs, edit)?);
    }
    Ok(())
}

/// The engine, over the list of twelve cells.
fn with_engine<R: Abort>(
    rt: &R,
    alloc: Global,
    code: &Code,
    inputs: &mut Inputs,
) -> Result<(), Fail> {
    let mut engine = engine(alloc, MAP, 1000)?;
    let told = edits_follow(rt, alloc, code, &mut engine, inputs);
    drop(engine);
    told
}

/// The same with the code of MAP.
fn with_code<R: Abort>(rt: &R, alloc: Global, inputs: &mut Inputs) -> Result<(), Fail> {
    let program = compiled(alloc, MAP)?;
    let told = with_engine(rt, alloc, &program.code, inputs);
    drop(program);
    told
}

#[test]
fn three_hundred_edits_have_the_work_of_the_definitions(rt: HostRuntime) -> Result<(), Fail> {
    let alloc = rt.alloc();
    let mut inputs = list(alloc, &[1, 2, 3, 4, 5, 6, 7, 8, 9, 10, 11, 12])?;
    let told = with_code(&rt, alloc, &mut inputs);
    drop(inputs);
    told
}
