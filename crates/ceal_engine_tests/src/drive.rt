// An engine that is driven by calls which are asked whether they may be made.

use ceal_base::kind::Shape;
use ceal_base::memory::{BlockWords, Inputs};
use ceal_base::word::{BlockId, Place, Word};
use ceal_engine::engine::Engine;
use ceal_engine::phase::{Phase, Progress};
use ceal_engine::run_error::RunError;
use std::test::Fail;

/// How a run failed.
fn failed(error: RunError) -> Fail {
    match error {
        RunError::Memory => Fail::from("there was no memory"),
        RunError::OutOfFuel => Fail::from("it is out of fuel"),
    }
}

pub(crate) fn add(engine: &mut Engine, shape: Shape, words: &[Word]) -> Result<(), Fail> {
    if !engine.takes_input(shape, words) {
        return Err(Fail::from("it takes no such input"));
    }
    engine.add_input(shape, words)?;
    Ok(())
}

pub(crate) fn edit(engine: &mut Engine, place: Place, word: Word) -> Result<(), Fail> {
    if !engine.takes_edit(place, word) {
        return Err(Fail::from("it takes no such edit"));
    }
    engine.edit(place, word)?;
    Ok(())
}

pub(crate) fn run(engine: &mut Engine, function: u32, args: &[Word]) -> Result<(), Fail> {
    if !engine.takes_call(function, args) {
        return Err(Fail::from("it takes no such call"));
    }
    engine.run(function, args).map_err(failed)
}

pub(crate) fn propagate(engine: &mut Engine) -> Result<(), Fail> {
    if engine.phase() == Phase::New {
        return Err(Fail::from("nothing was called"));
    }
    engine.propagate().map_err(failed)
}

/// A slice of `reads` reads.
pub(crate) fn slice(engine: &mut Engine, reads: u32) -> Result<Progress, Fail> {
    if engine.phase() == Phase::New || reads < 1 {
        return Err(Fail::from("it takes no slice"));
    }
    engine.slice(reads).map_err(failed)
}

pub(crate) fn mark(engine: &mut Engine) -> Result<(), Fail> {
    if engine.phase() != Phase::Finished {
        return Err(Fail::from("it is not finished"));
    }
    engine.mark()?;
    Ok(())
}

/// The modifiables that hold something else at the end than when they were marked.
pub(crate) fn changed(engine: &Engine) -> Result<Vec<Place>, Fail> {
    if engine.phase() != Phase::Finished || !engine.is_marked() {
        return Err(Fail::from("it is not marked"));
    }
    Ok(engine.changed()?)
}

/// The inputs with no pointer to a block: what is added first, since a pointer may lead to a later input.
fn bare(inputs: &Inputs) -> Result<Inputs, Fail> {
    let mut bare = inputs.copy()?;
    let mut n = 0;
    for block in inputs.items() {
        let mut field = 0;
        for word in block.items() {
            if let Word::Block(_) = word {
                bare.set(n, field, Word::Null);
            }
            field = next(field)?;
        }
        n = next(n)?;
    }
    Ok(bare)
}

/// Adds those of these inputs that are not there yet, with no pointer to a block.
fn add_bare(engine: &mut Engine, inputs: &Inputs) -> Result<(), Fail> {
    let bare = bare(inputs)?;
    let there = engine.input_blocks().items().len();
    for block in bare.items().iter().skip(there) {
        add(engine, block.shape, block.items())?;
    }
    Ok(())
}

/// The word of an input.
fn word_at(engine: &Engine, place: Place) -> Option<Word> {
    match place.block {
        BlockId::Core(_) => None,
        BlockId::Input(n) => {
            let block = engine.input_blocks().items().get(n as usize)?;
            block.items().get(place.field as usize).copied()
        }
    }
}

/// Edits the fields of an input that differ.
fn edit_input(engine: &mut Engine, n: u32, block: &BlockWords) -> Result<(), Fail> {
    let mut field = 0;
    for word in block.items() {
        let place = Place {
            block: BlockId::Input(n),
            field,
        };
        if word_at(engine, place) != Some(*word) {
            edit(engine, place, *word)?;
        }
        field = next(field)?;
    }
    Ok(())
}

/// The next number.
fn next(n: u32) -> Result<u32, Fail> {
    match n.checked_add(1) {
        None => Err(Fail::from("there are too many")),
        Some(m) => Ok(m),
    }
}

/// Makes these the inputs: those that are not there yet are added, and what differs is edited.
pub(crate) fn become_inputs(engine: &mut Engine, inputs: &Inputs) -> Result<(), Fail> {
    add_bare(engine, inputs)?;
    let mut n = 0;
    for block in inputs.items() {
        edit_input(engine, n, block)?;
        n = next(n)?;
    }
    Ok(())
}
