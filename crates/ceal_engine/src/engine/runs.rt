// Runs, and change propagation.

ghost use Rattle.std.specs.Prelude.{◌≡◌, ◌≢◌, ◌≤◌, true, None, Some, Ok as OkOf, IfOk, IsSome, OnOk};
ghost use Rattle.ceal_code.specs.Fitting.{Fits};
ghost use Rattle.ceal_engine.specs.Advance.{AdvanceOutcome, IsAdvancedBy, IsAdvancedToEnd};
ghost use Rattle.ceal_engine.specs.Calls.{Advances, IsRunAnew, called};
ghost use Rattle.ceal_engine.specs.Engine.{fresh_of, has_run, IsPresent, IfOutOfFuel};
ghost use Rattle.ceal_engine.specs.Runs.{IsFirstOf};
ghost use Rattle.ceal_engine.specs.declared.phase.Phase.TheVariants.{New, Finished, Partial, Dropped};

use super::Engine;
use crate::phase::{Came, Phase, Progress};
use crate::run::{Run, Stage};
use crate::run_error::RunError;
use ceal_base::word::Word;
use ceal_repair::advance::{Progress as Repaired, advance};
use ceal_repair::first::first;
use ceal_repair::running::{Outcome, Running};

impl Engine {
    /// The first trace of the call, as a run.
    fn first(&self) -> Result<Running, RunError>
        requires called { IsSome self.now.call }
        ensures ok { IfOk result (λ run.
            IsFirstOf self.now.code self.now.fuel self.now.inputs self.now.call run) }
        ensures out { IfOutOfFuel result (fresh_of self.now ≡ None) }
    {
        match self.call.function() {
            None => unreachable!(),
            Some(function) => {
                let args = self.call.args();
                let outcome = first(
                    self.alloc,
                    &self.code,
                    function,
                    args,
                    &self.inputs,
                    self.fuel,
                    &self.seed,
                )?;
                match outcome {
                    Outcome::OutOfFuel => Err(RunError::OutOfFuel),
                    Outcome::Done(run) => Ok(run),
                }
            }
        }
    }

    /// Runs the call from nothing.
    fn start(&mut self) -> Result<(), RunError>
        requires dropped { self.old.phase ≡ Dropped }
        requires called { IsSome self.old.call }
        ensures keeps { Advances self.old self.new result }
        ensures anew { OnOk result (IsRunAnew self.new) }
    {
        let run = self.first()?;
        self.run.keep(run, Stage::Finished);
        Ok(())
    }

    /// Runs the core function of this number, as `advance` runs the call of an engine that has no run. OutOfFuel comes
    /// exactly when the run from scratch takes more steps than the fuel. After an error the phase is Dropped, and the
    /// call is kept for `propagate`.
    pub fn run(&mut self, function: u32, args: &[Word]) -> Result<(), RunError>
        requires new { self.old.phase ≡ New }
        requires fits { Fits self.old.code self.old.inputs function args.now }
        ensures advances { IsAdvancedToEnd (called self.old function args.now) self.new result }
        ensures phase { OnOk result (self.new.phase ≡ Finished) }
        ensures present { OnOk result (IsPresent self.new) }
    {
        self.call.set(function, args);
        self.run.give_up();
        self.propagate()
    }

    /// Brings the run up to date after edits, by change propagation (Acar, *Self-Adjusting Computation*, 2005): it is
    /// `advance` of all stale reads. OutOfFuel comes exactly when the run from scratch takes more steps than the fuel,
    /// although only a part is re-executed. After an error the phase is Dropped, and another `propagate` runs the call
    /// again.
    pub fn propagate(&mut self) -> Result<(), RunError>
        requires called { self.old.phase ≡ New → ⊥ }
        ensures advances { IsAdvancedToEnd self.old self.new result }
        ensures phase { OnOk result (self.new.phase ≡ Finished) }
        ensures present { OnOk result (IsPresent self.new) }
    {
        self.advance(None)?;
        Ok(())
    }

    /// Repairs at most `reads` stale reads, each with everything inside it, as `advance` does. Done: the run is up to
    /// date. More: reads are still stale, and another `slice` or `propagate` continues, also after edits. After an
    /// error the phase is Dropped.
    pub fn slice(&mut self, reads: u32) -> Result<Progress, RunError>
        requires called { self.old.phase ≡ New → ⊥ }
        requires some { 1 ≤ reads }
        ensures advances { IsAdvancedBy self.old self.new reads result }
    {
        let came = self.advance(Some(reads))?;
        Ok(came.progress())
    }

    /// Brings the run of the call nearer to the present inputs. It continues the repair that is in progress, or begins
    /// that of a run: `reads` stale reads, each with everything inside it, or all of them if `reads` is None. Where
    /// there is no run the call is run. Where no read is stale it takes no memory. Where the steps of a repair that
    /// began in an earlier call exceed the fuel, the call is run again; where those of one that begins here do, a run
    /// from scratch is out of fuel, too. After an error the phase is Dropped.
    pub fn advance(&mut self, reads: Option<u32>) -> Result<Came, RunError>
        requires called { self.old.phase ≡ New → ⊥ }
        requires some { reads ≢ Some 0 }
        ensures keeps { Advances self.old self.new result }
        ensures outcome { AdvanceOutcome self.old self.new reads result }
        ensures sure { self.old.phase ≡ Finished → result ≡ OkOf Came.Done }
        ensures still { self.old.phase ≡ Finished → self.new ≡ record self.old { work = 0 } }
    {
        match self.run.phase() {
            Phase::New => unreachable!(),
            Phase::Finished => {
                self.tell(0);
                Ok(Came::Done)
            }
            Phase::Pending | Phase::Partial => self.repair(reads),
            Phase::Dropped => {
                self.start()?;
                Ok(Came::Anew)
            }
        }
    }

    /// Continues the repair that is in progress, or begins that of a run.
    fn repair(&mut self, reads: Option<u32>) -> Result<Came, RunError>
        requires run { has_run self.old.phase ≡ true }
        requires some { reads ≢ Some 0 }
        ensures keeps { Advances self.old self.new result }
        ensures outcome { AdvanceOutcome self.old self.new reads result }
    {
        let before = self.run.phase();
        let room = &mut self.room;
        match &mut self.run {
            Run::New => unreachable!(),
            Run::Kept(run, stage) => {
                stage.open(run);
                match advance(room, &self.code, &self.inputs, reads, self.fuel, run) {
                    Ok(Repaired::More) => {
                        *stage = Stage::Partial;
                        Ok(Came::More)
                    }
                    Ok(Repaired::Done) => {
                        *stage = Stage::Finished;
                        Ok(Came::Done)
                    }
                    Ok(Repaired::Spent) => {
                        self.run.give_up();
                        self.start_over(before)?;
                        Ok(Came::Anew)
                    }
                    Ok(Repaired::OutOfFuel) => {
                        self.run.give_up();
                        Err(RunError::OutOfFuel)
                    }
                    Err(error) => {
                        self.run.give_up();
                        Err(RunError::from(error))
                    }
                }
            }
            Run::Dropped => unreachable!(),
        }
    }

    /// More steps were spent on a repair than the fuel allows, and the run was given up. Where the repair had begun in
    /// an earlier call, the call is run from nothing. Otherwise a run from scratch needs more steps, too.
    fn start_over(&mut self, began: Phase) -> Result<(), RunError>
        requires dropped { self.old.phase ≡ Dropped }
        requires called { IsSome self.old.call }
        requires out { (began ≡ Partial → ⊥) → fresh_of self.old ≡ None }
        ensures keeps { Advances self.old self.new result }
        ensures began { OnOk result (began ≡ Partial) }
        ensures anew { OnOk result (IsRunAnew self.new) }
    {
        if began != Phase::Partial {
            return Err(RunError::OutOfFuel);
        }
        self.start()
    }
}
