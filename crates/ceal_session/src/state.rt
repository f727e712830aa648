// The state between two lines.

ghost use Rattle.std.specs.Prelude.{◌≡◌, ◌≢◌, ◌<◌, true, false, Some, None, Ok as OkOf, length, is_some, bytes_eq};
ghost use Rattle.std.specs.Prelude.{IfOk, IfSome, OnOk, OnErr};
ghost use Rattle.std.specs.List.{list_any};
ghost use Rattle.ceal_base.specs.Fitting.{block_fits, kind_at};
ghost use Rattle.ceal_compile.specs.Compiled.{IsCompiled};
ghost use Rattle.ceal_engine.specs.Cost.{CostOfCall};
ghost use Rattle.ceal_script.specs.Spelling.{IsName};
ghost use Rattle.ceal_session.specs.Questions.{IsCellOf};
ghost use Rattle.ceal_base.specs.declared.call.Call.{Call as CallOf};
ghost use Rattle.ceal_session.specs.Outcomes.{SituationAfterOutcome};
ghost use Rattle.ceal_session.specs.Marks.{KeepsMarks};
ghost use Rattle.ceal_session.specs.AfterLine.{IsAllowed, situation_at_start, KeepsRuns, RunsOrKeeps};
ghost use Rattle.ceal_session.specs.AfterLine.{IsAfterNoMemoryOf};
ghost use Rattle.ceal_session.specs.SessionState.{situation, held_of, SessionInvariant};
ghost use Rattle.ceal_session.specs.InputNames.{AreSpelled};
ghost use Rattle.ceal_session.specs.Runs.{memory_of};
ghost use Rattle.ceal_session.specs.Senses.{input_named, struct_named, function_named};
ghost use Rattle.ceal_session.specs.Steps.{IsFirst, with_input, with_base, block_of, fits_cell, has_no_run, runs};
ghost use Rattle.ceal_session.specs.Steps.{call_again};
ghost use Rattle.ceal_session.specs.Consistency.{HasTrace};
ghost use Rattle.ceal_theory.specs.Pasts.{goes};

use crate::advance::{first_run, goes_on, reply_to, settle};
use crate::journal::{Journal, base_of};
use crate::reply::Reply;
use ceal_base::call::Call;
use ceal_base::kind::Shape;
use ceal_base::memory::Inputs;
use ceal_base::no_memory::NoMemory;
use ceal_base::text::Text;
use ceal_base::typed::{StructInfo, TypedFunction};
use ceal_base::word::{Place, Word};
use ceal_compile::program::Program;
use ceal_engine::engine::Engine;
use ceal_engine::phase::{Came, Phase};
use ceal_engine::run_error::RunError;
use ceal_memo::seed::Seed as MemoSeed;
use ceal_record::record::record;
use ceal_types::names::Names;
use ceal_types::numbers::Numbered;
use ceal_types::seed::Seed;
use std::alloc::Global;
use std::marker::Model;

mod answers;
mod marks;

/// A program, the names of the inputs by number, an engine that has the inputs and the run, and the edits.
#[derive(Drop)]
pub struct State {
    program: Numbered,
    names: Names,
    engine: Engine,
    journal: Journal,
    /// whether an edit came after the last run or propagate, or a repair is in progress; the engine's phase does not
    /// tell it of an edit where there is no run
    pending: bool,
}

impl Model for State {
    ghost use Rattle.ceal_base.specs.contracts.typed.TypedStmt as statement;
    ghost use Rattle.ceal_code.specs.contracts.expr.CodeExpr as expr;
    ghost use Rattle.ceal_code.specs.contracts.function.InitStmt as initialising;
    ghost use Rattle.ceal_session.specs.SessionState.{Held, held_of, SessionInvariant};
    ghost use Rattle.std.specs.Coded.{codes};

    ghost Value = { Held };

    ghost coded = { Prim.hlevel
        (codes, statement.the_row.coded, expr.the_row.coded, initialising.the_row.coded) };

    ghost view = { λ s. held_of s.program s.names s.engine s.journal s.pending };

    ghost invariant = { λ s. SessionInvariant s.program s.names s.engine s.journal s.pending };
}

/// What the memo tables of an engine begin with, beside names that begin with a seed.
pub fn memo_seed(seed: &Seed) -> MemoSeed {
    MemoSeed::of(seed.number(0), seed.number(1))
}

impl State {
    /// A state without inputs and without a run.
    pub fn new(alloc: Global, program: Program, fuel: u32, seed: Seed) -> Result<State, NoMemory>
        requires compiled { IsCompiled program }
        requires fuel { IsAllowed fuel }
        ensures { IfOk result (λ state. situation state ≡ situation_at_start program fuel) }
    {
        let Program { typed, code } = program;
        let program = match Numbered::new(alloc, typed) {
            Ok(program) => program,
            Err(NoMemory) => {
                drop(code);
                return Err(NoMemory);
            }
        };
        let engine = Engine::seeded(alloc, code, fuel, memo_seed(&seed))?;
        // for the proof: it is an engine, by the clause `whole`
        let _phase = engine.phase();
        Ok(State {
            program,
            names: Names::seeded(alloc, seed),
            engine,
            journal: Journal::new(alloc),
            pending: false,
        })
    }

    /// A state with a finished run, which has this journal.
    pub fn finished(program: Numbered, names: Names, engine: Engine, journal: Journal) -> State
        requires holds { SessionInvariant program names engine journal false }
        ensures { result ≡ held_of program names engine journal false }
    {
        State {
            program,
            names,
            engine,
            journal,
            pending: false,
        }
    }

    /// How many steps a run may take.
    pub fn fuel(&self) -> u32
        ensures { result ≡ self.now.state.fuel }
    {
        self.engine.fuel()
    }

    /// The structs of the program.
    pub fn structs(&self) -> &[StructInfo]
        ensures { result.now ≡ self.now.state.program.structs }
    {
        self.program.structs()
    }

    /// The functions of the program.
    pub fn functions(&self) -> &[TypedFunction]
        ensures { result.now ≡ self.now.state.program.functions }
    {
        self.program.functions()
    }

    /// The number of the struct of a name.
    pub fn struct_number(&self, name: &Text) -> Option<u32>
        ensures { result ≡ struct_named self.now.state name.now }
    {
        self.program.struct_number(name)
    }

    /// The number of the function of a name.
    pub fn function_number(&self, name: &Text) -> Option<u32>
        ensures { result ≡ function_named self.now.state name.now }
    {
        self.program.function_number(name)
    }

    /// The inputs, with their present bases.
    pub fn inputs(&self) -> &Inputs
        ensures { result.now ≡ self.now.state.inputs }
    {
        self.engine.input_blocks()
    }

    /// There is one for each input.
    pub fn names(&self) -> &Names
        ensures names { result.now ≡ self.now.state.names }
        ensures counted { length self.now.state.names ≡ length self.now.state.inputs }
        ensures spelled { AreSpelled self.now.state.names }
    {
        &self.names
    }

    /// Its contract tells what is true of the trace of each state.
    pub fn traced(&self)
        ensures { HasTrace (situation self.now) }
    {
        // for the proof: it is an engine, by the clause `whole`
        let _phase = self.engine.phase();
    }

    /// The number of the input of a name.
    pub fn input(&self, name: &Text) -> Option<u32>
        ensures number { result ≡ input_named self.now.state name.now }
        ensures there { IfSome result (λ n. n < length self.now.state.inputs) }
    {
        self.names.number(name)
    }

    /// Whether a `run` was accepted.
    pub fn has_call(&self) -> bool
        ensures { result ≡ is_some self.now.state.call }
    {
        match self.engine.phase() {
            Phase::New => false,
            Phase::Finished => true,
            Phase::Pending => true,
            Phase::Partial => true,
            Phase::Dropped => true,
        }
    }

    /// Whether there is no run, or the last one was out of fuel.
    pub fn has_no_run(&self) -> bool
        ensures { result ≡ has_no_run self.now.state }
    {
        match self.engine.phase() {
            Phase::New => true,
            Phase::Finished => false,
            Phase::Pending => false,
            Phase::Partial => false,
            Phase::Dropped => true,
        }
    }

    /// Whether an edit waits for a propagate.
    pub fn is_pending(&self) -> bool
        ensures { result ≡ self.now.state.pending }
    {
        self.pending
    }

    /// One more input, of a new name, and of words that fit.
    pub fn add_input(&mut self, name: &Text, shape: Shape, words: &[Word]) -> Result<(), NoMemory>
        requires named { IsName name.now }
        requires new { list_any (bytes_eq name.now) self.old.state.names ≡ false }
        requires fits { block_fits self.old.state.program.structs (memory_of self.old.state)
            (block_of shape words.now) ≡ true }
        ensures ok { OnOk result
            (self.new.state ≡ with_input self.old.state name.now (block_of shape words.now)) }
        ensures trace { OnOk result (KeepsRuns (situation self.old) (situation self.new)) }
        ensures cost { OnOk result (CostOfCall self.old.engine self.new.engine) }
        ensures marked { self.new.engine.marked ≡ self.old.engine.marked }
        ensures err { OnErr result (self.new ≡ self.old) }
    {
        let count = self.names.len();
        if count >= 4_294_967_295 {
            return Err(NoMemory);
        }
        self.names.add_new(name)?;
        match self.engine.add_input(shape, words) {
            Ok(_) => Ok(()),
            Err(NoMemory) => {
                self.names.truncate(count);
                Err(NoMemory)
            }
        }
    }

    /// Another base for a modifiable of an input, which fits it.
    pub fn set_base(&mut self, place: Place, word: Word) -> Result<(), NoMemory>
        requires cell { IsCellOf self.old.state place }
        requires fits { fits_cell self.old.state
            (kind_at self.old.state.program.structs (memory_of self.old.state) place) word ≡ true }
        ensures ok { OnOk result (self.new.state ≡ with_base self.old.state place word) }
        ensures trace { OnOk result (KeepsRuns (situation self.old) (situation self.new)) }
        ensures cost { OnOk result (CostOfCall self.old.engine self.new.engine) }
        ensures marked { self.new.engine.marked ≡ self.old.engine.marked }
        ensures err { OnErr result (self.new ≡ self.old) }
    {
        let count = self.journal.len();
        let base = base_of(self.engine.input_blocks(), place);
        self.journal.push(place, base)?;
        match self.engine.edit(place, word) {
            Ok(()) => {
                self.pending = true;
                Ok(())
            }
            Err(NoMemory) => {
                self.journal.truncate(count);
                Err(NoMemory)
            }
        }
    }

    /// The first run, and its outcome.
    fn start(&mut self, call: &Call) -> Result<Came, RunError>
        requires { IsFirst self.old.state call.now }
        ensures outcome { SituationAfterOutcome (situation self.old) call.now None result
            (situation self.new) }
        ensures cost { CostOfCall self.old.engine self.new.engine }
        ensures marks { KeepsMarks self.old.engine self.new.engine }
    {
        // for the proof: it is an engine before and after, by the clause `whole`
        let _before = self.engine.phase();
        let came = first_run(&mut self.engine, call);
        let _after = self.engine.phase();
        settle(&mut self.journal, &self.engine, &came);
        self.pending = goes_on(&came);
        came
    }

    /// The accepted call on the present inputs, whose repair re-executes `reads` stale reads, or all of them; and the
    /// outcome.
    fn advance(&mut self, reads: Option<u32>) -> Result<Came, RunError>
        requires called { is_some self.old.state.call ≡ true }
        requires some { reads ≢ Some 0 }
        ensures outcome { (call : CallOf) → self.old.state.call ≡ Some call
            → SituationAfterOutcome (situation self.old) call reads result (situation self.new) }
        ensures cost { CostOfCall self.old.engine self.new.engine }
        ensures marks { KeepsMarks self.old.engine self.new.engine }
    {
        // for the proof: it is an engine before and after, by the clause `whole`
        let _before = self.engine.phase();
        let came = self.engine.advance(reads);
        let _after = self.engine.phase();
        settle(&mut self.journal, &self.engine, &came);
        self.pending = goes_on(&came);
        came
    }

    /// The first run.
    pub fn run(&mut self, call: &Call) -> Result<Reply, NoMemory>
        requires { IsFirst self.old.state call.now }
        ensures ok { IfOk result
            (λ reply. record { reply = reply; state = self.new.state }
            ≡ runs self.old.state None (goes (situation self.new).past) (OkOf call.now)) }
        ensures trace { OnOk result
            (RunsOrKeeps (situation self.old) (OkOf call.now) None (situation self.new)) }
        ensures cost { OnOk result (CostOfCall self.old.engine self.new.engine) }
        ensures marks { KeepsMarks self.old.engine self.new.engine }
        ensures err { OnErr result
            (IsAfterNoMemoryOf (situation self.old) (OkOf call.now) (situation self.new)) }
    {
        let outcome = self.start(call);
        reply_to(None, outcome)
    }

    /// The run of the accepted call on the present inputs, or a part of its repair: at most `reads` stale reads are
    /// re-executed, each with all that is inside it.
    pub fn propagate(&mut self, reads: Option<u32>) -> Result<Reply, NoMemory>
        requires called { is_some self.old.state.call ≡ true }
        requires some { reads ≢ Some 0 }
        ensures ok { IfOk result
            (λ reply. record { reply = reply; state = self.new.state }
            ≡ runs self.old.state reads (goes (situation self.new).past)
            (call_again self.old.state.call)) }
        ensures trace { OnOk result
            (RunsOrKeeps (situation self.old) (call_again self.old.state.call) reads
            (situation self.new)) }
        ensures cost { OnOk result (CostOfCall self.old.engine self.new.engine) }
        ensures marks { KeepsMarks self.old.engine self.new.engine }
        ensures err { OnErr result
            (IsAfterNoMemoryOf (situation self.old) (call_again self.old.state.call)
            (situation self.new)) }
    {
        let outcome = self.advance(reads);
        reply_to(reads, outcome)
    }
}
