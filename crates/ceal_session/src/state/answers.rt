// What a state says of its last run.

ghost use Rattle.std.specs.Prelude.{◌≡◌, ◌<◌, ◌↔◌, true, Some, None, length, is_some, IfOk, IsTrue, MatchOption};
ghost use Rattle.ceal_session.specs.Questions.{IsReady, IsCellOf, steps_in, blocks_in, content_text};
ghost use Rattle.ceal_session.specs.SessionState.{IsTied, situation};
ghost use Rattle.ceal_session.specs.RunRecord.{IsRecorded};
ghost use Rattle.ceal_session.specs.Runs.{present_run};
ghost use Rattle.ceal_session.specs.Steps.{has_no_run};
ghost use Rattle.ceal_session.specs.Texts.{value_text, TellsOf};
ghost use Rattle.ceal_session.specs.State.{numbers_in};
ghost use Rattle.ceal_session.specs.Values.{number_of_word, number_after};
ghost use Rattle.ceal_session.specs.declared.reply.Query.TheVariants.{Show};

use super::State;
use crate::bound::bound_of;
use crate::refusal::Refusal;
use crate::view::graph;
use ceal_base::no_memory::NoMemory;
use ceal_base::recorded::Record;
use ceal_base::text::Text;
use ceal_base::word::{Place, Word};
use ceal_code::laws::progress_law;
use ceal_record::record::record;
use ceal_show::laws::{fitting_is_whole, same_text};
use std::alloc::Global;

/// A word as a number: a pointer is of the wrong kind.
fn word_number(word: Word) -> Result<i64, Refusal>
    ensures { result ≡ number_of_word word }
{
    match word {
        Word::Num(number) => Ok(number),
        Word::Null => Err(Refusal::C4),
        Word::Block(_) => Err(Refusal::C4),
        Word::At(_) => Err(Refusal::C4),
    }
}

impl State {
    /// What a modifiable of an input has at the end of the run.
    pub fn content(&self, place: Place) -> Word
        requires ready { IsReady self.now.state }
        requires cell { IsCellOf self.now.state place }
        ensures { content_text self.now.state place (present_run self.now.state)
            ≡ Some (value_text self.now.state result) }
    {
        // for the proof: it is an engine, by the clause `whole`
        let _phase = self.engine.phase();
        self.engine.value(place)
    }

    /// The number that a modifiable of an input holds at the end of the run.
    pub fn number(&self, place: Place) -> Result<i64, Refusal>
        requires ready { IsReady self.now.state }
        requires cell { IsCellOf self.now.state place }
        ensures { result ≡ number_after place (present_run self.now.state) }
    {
        // for the proof: it is an engine, by the clause `whole`
        let _phase = self.engine.phase();
        word_number(self.engine.value(place))
    }

    /// How many core blocks the run made.
    pub fn blocks(&self) -> u32
        requires { IsReady self.now.state }
        ensures { blocks_in (present_run self.now.state) ≡ Some result }
    {
        // for the proof: it is an engine, by the clause `whole`
        let _phase = self.engine.phase();
        self.engine.live_blocks()
    }

    /// How many steps the run took.
    pub fn steps(&self) -> u32
        requires { IsReady self.now.state }
        ensures { steps_in (present_run self.now.state) ≡ Some result }
    {
        // for the proof: it is an engine, by the clause `whole`
        let _phase = self.engine.phase();
        self.engine.steps()
    }

    /// The work of the run.
    pub fn work(&self) -> u32
        requires { IsReady self.now.state }
        ensures work { result ≡ (numbers_in (situation self.now)).work }
        ensures run { is_some (present_run self.now.state) ≡ true }
    {
        // for the proof: it is an engine, by the clause `whole`
        let _phase = self.engine.phase();
        self.engine.work()
    }

    /// A bound of that work, which is made only of first traces.
    pub fn bound(&self, alloc: Global) -> Result<u32, NoMemory>
        requires { IsReady self.now.state }
        ensures bound { IfOk result (λ n. n ≡ (situation self.now).bound) }
        ensures run { is_some (present_run self.now.state) ≡ true }
    {
        // for the proof: it is an engine, by the clause `whole`
        let _phase = self.engine.phase();
        bound_of(alloc, &self.engine, self.journal.bounding())
    }

    /// Keeps the bound until the next run or repair is completed, so that it is made once.
    pub fn keep_bound(&mut self, bound: u32)
        requires bound { bound ≡ (situation self.old).bound }
        ensures kept { situation self.new ≡ situation self.old }
        ensures engine { self.new.engine ≡ self.old.engine }
    {
        self.journal.keep(bound);
    }

    /// Whether there is a run that ended within the fuel, and nothing is pending. Its contract also tells what ties the
    /// state to the engine.
    pub fn is_ready(&self) -> bool
        ensures ready { IsTrue result ↔ IsReady self.now.state }
        ensures tied { IsTied self.now }
    {
        // for the proof: it is an engine, by the clause `whole`
        let _phase = self.engine.phase();
        !self.has_no_run() && !self.is_pending()
    }

    /// The record of the run. There is none where there is no run, the last one was out of fuel, or an edit or a repair
    /// is pending.
    pub fn recorded(&self, alloc: Global) -> Result<Option<Record>, NoMemory>
        ensures { IfOk result
            (λ found. MatchOption found (¬ IsReady self.now.state)
            (λ r. IsRecorded (situation self.now) r)) }
    {
        // for the proof: it is an engine, by the clause `whole`
        let _phase = self.engine.phase();
        if !self.is_ready() {
            return Ok(None);
        }
        let forest = self.engine.forest()?;
        match self.engine.call() {
            None => unreachable!(),
            Some((function, args)) => {
                let code = self.engine.code();
                let inputs = self.engine.input_blocks();
                let record = record(alloc, code, inputs, function, args, forest.items())?;
                Ok(Some(record))
            }
        }
    }

    /// The graph from an input at the end of the run.
    pub fn graph(&self, alloc: Global, input: u32) -> Result<Text, NoMemory>
        requires ready { IsReady self.now.state }
        requires there { input < length self.now.state.inputs }
        ensures { IfOk result
            (λ text. TellsOf self.now.state (numbers_in (situation self.now)) (Show input)
            (present_run self.now.state) text) }
    {
        // for the proof: a run keeps its memory whole, and the text says nothing of the numbers of core blocks
        progress_law();
        fitting_is_whole();
        same_text();
        // for the proof: it is an engine, by the clause `whole`
        let _phase = self.engine.phase();
        graph(alloc, &self.engine, &self.names, input)
    }
}
