// A job that the words of the command line ask for, and what it comes to.

ghost use Rattle.std.specs.Prelude.{IfSome};
ghost use Rattle.ceal_embedding.specs.Sizes.{IsSize};

use crate::jobs::{self, Job, job_of};
use crate::trouble::Trouble;
use crate::turns;
use ceal_engine::engine::Engine;
use ceal_engine::phase::Phase;
use ceal_session::session::Session;
use std::alloc::Global;

/// What the words ask for.
#[derive(Clone, Copy, PartialEq, Eq)]
pub enum Task {
    /// a job by an engine
    Engine(Job),
    /// turns of a session
    Session,
}

/// A number that is a size.
pub fn size(word: &str) -> Option<u32>
    ensures { IfSome result IsSize }
{
    match word.parse::<u32>() {
        Ok(size) if 3 <= size && size <= 100_000 => Some(size),
        _ => None,
    }
}

/// The task of a word.
pub fn task_of(word: &str) -> Option<Task> {
    if word == "session" {
        return Some(Task::Session);
    }
    Some(Task::Engine(job_of(word)?))
}

/// Carries out the edits of a job, one after another.
pub fn edit_all(engine: &mut Engine, job: Job, size: u32, edits: u32) -> Result<(), Trouble>
    requires size { IsSize size }
{
    for number in 0..edits {
        jobs::edit(engine, job, size, number)?;
    }
    Ok(())
}

/// Takes turns with a session, one after another: a cell is taken out of the list, and is put back.
pub fn turn_all(alloc: Global, session: &mut Session, size: u32, turns: u32) -> Result<(), Trouble>
    requires size { IsSize size }
{
    for number in 0..turns {
        let cell = 2 + jobs::spread(number / 2, size - 2);
        turns::turn(alloc, session, cell, cell - 2 + number % 2)?;
    }
    Ok(())
}

/// How many contents a finished engine has looked at.
pub fn looked(engine: &Engine) -> u64 {
    if engine.phase() != Phase::Finished {
        return 0;
    }
    engine.mods().looked()
}
