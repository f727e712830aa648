// How the call of a session first runs, and what the journal and the reply are after a run or a repair.

ghost use Rattle.std.specs.Prelude.{◌≡◌, false, Some, None, Ok as OkOf};
ghost use Rattle.ceal_code.specs.Fitting.{Fits};
ghost use Rattle.ceal_engine.specs.declared.phase.Came.TheVariants.{Anew};
ghost use Rattle.ceal_engine.specs.declared.phase.Phase.TheVariants.{New, Finished};
ghost use Rattle.ceal_session.specs.Outcomes.{EngineAfterCall, is_more};
ghost use Rattle.ceal_session.specs.Outcomes.{journal_after_outcome, reply_after};
ghost use Rattle.ceal_session.specs.Steps.{run_reply};

use crate::journal::Journal;
use crate::reply::Reply;
use ceal_base::call::Call;
use ceal_base::no_memory::NoMemory;
use ceal_engine::engine::Engine;
use ceal_engine::phase::Came;
use ceal_engine::run_error::RunError;

/// The first run.
pub fn first_run(engine: &mut Engine, call: &Call) -> Result<Came, RunError>
    requires new { engine.old.phase ≡ New }
    requires fits { Fits engine.old.code engine.old.inputs call.now.function call.now.args }
    ensures brings { EngineAfterCall engine.old call.now None result engine.new }
{
    // for the proof: it is an engine, by the clause `whole`
    let _phase = engine.phase();
    engine.run(call.function, call.args.items())?;
    Ok(Came::Anew)
}

/// Whether a repair is in progress.
pub fn goes_on(came: &Result<Came, RunError>) -> bool
    ensures { result ≡ is_more came.now }
{
    match came {
        Ok(Came::More) => true,
        Ok(Came::Done) => false,
        Ok(Came::Anew) => false,
        Err(_) => false,
    }
}

/// The bound of a run that is a first one is its steps.
pub fn settle(journal: &mut Journal, engine: &Engine, came: &Result<Came, RunError>)
    requires { came.now ≡ OkOf Anew → engine.now.phase ≡ Finished }
    ensures { journal.new ≡ journal_after_outcome engine.now.steps journal.old came.now }
{
    match came {
        Ok(Came::More) => {}
        Ok(Came::Done) => journal.complete(),
        Ok(Came::Anew) => journal.settle(engine.steps()),
        Err(_) => journal.settle(0),
    }
}

/// The reply to a line that ran within the fuel: to a part of a repair where it gives a number of reads.
fn reply_of(reads: Option<u32>, came: Came) -> Reply
    ensures { result ≡ run_reply reads (is_more (OkOf came)) false }
{
    match (reads, came) {
        (None, _) => Reply::Ok,
        (Some(_), Came::More) => Reply::More,
        (Some(_), Came::Done) => Reply::Done,
        (Some(_), Came::Anew) => Reply::Done,
    }
}

/// The reply to a line that runs, by its outcome.
pub fn reply_to(reads: Option<u32>, outcome: Result<Came, RunError>) -> Result<Reply, NoMemory>
    ensures { result ≡ reply_after reads outcome }
{
    match outcome {
        Ok(came) => Ok(reply_of(reads, came)),
        Err(RunError::OutOfFuel) => Ok(Reply::OutOfFuel),
        Err(RunError::Memory) => Err(NoMemory),
    }
}
