// A session.

ghost use Rattle.std.specs.Fmt.{signed_decimal};
ghost use Rattle.std.specs.Prelude.{◌≡◌, ◌<◌, ◌++◌, ◌↔◌, Bool, Option, None, length, codes, IfOk, OnOk, OnErr, IfSome};
ghost use Rattle.std.specs.Prelude.{IsErrOf};
ghost use Rattle.std.specs.Prelude.{IsTrue, MatchOption};
ghost use Rattle.ceal_base.specs.declared.word.Word.TheVariants.{Num};
ghost use Rattle.ceal_compile.specs.Compiled.{IsCompiled};
ghost use Rattle.ceal_engine.specs.Cost.{CostOfCall};
ghost use Rattle.ceal_script.specs.declared.command.Command.{Command as CommandOf};
ghost use Rattle.ceal_session.specs.LineReply.{HasReply};
ghost use Rattle.ceal_session.specs.Marks.{AreChanged, HoldsNumbers, IsMarked, KeepsMarks, places_of};
ghost use Rattle.ceal_session.specs.Questions.{CanTell, IsReady};
ghost use Rattle.ceal_session.specs.AfterLine.{IsAllowed, situation_at_start, KeepsRuns, IsAfterLine, Bounds};
ghost use Rattle.ceal_session.specs.AfterLine.{IsAfterNoMemory};
ghost use Rattle.ceal_session.specs.Consistency.{IsIn, IsInSome};
ghost use Rattle.ceal_session.specs.Laws.{AnswersIn};
ghost use Rattle.ceal_session.specs.SessionState.{IsTied, situation};
ghost use Rattle.ceal_session.specs.InputNames.{AreSpelled};
ghost use Rattle.ceal_session.specs.RunRecord.{IsRecorded};
ghost use Rattle.ceal_session.specs.Replies.{Answers, Reads};
ghost use Rattle.ceal_session.specs.SessionSave.{SaveHolds, IsResumed, IsSaved};
ghost use Rattle.ceal_session.specs.Steps.{IsQuiet, refuses, reply_to_query, step_of_set};
ghost use Rattle.ceal_session.specs.Texts.{IsText};
ghost use Rattle.ceal_session.specs.State.{Situation as SituationOf, numbers_in};
ghost use Rattle.ceal_session.specs.Values.{handle_of_command, sense_of_handle, Gives, IfRefused};
ghost use Rattle.ceal_session.specs.Values.{number_of_sense, number_of_command};
ghost use Rattle.ceal_session.specs.declared.reply.Query.{Query as QueryOf};
ghost use Rattle.ceal_session.specs.declared.reply.Reply.TheVariants.{Refused};
ghost use Rattle.ceal_session.specs.declared.sense.Sense.TheVariants.{Word as IsWord};
ghost use Rattle.ceal_theory.specs.Pasts.{goes};

use crate::answer::Answer;
use crate::commands::reply_to;
use crate::handle::Handle;
use crate::laws::{kept_edit, kept_line, some_reply};
use crate::marks::{changed, mark};
use crate::refusal::{Refusal, text as refusal_line};
use crate::reply::Reply;
use crate::restore::restored;
use crate::saving::saved;
use crate::state::State;
use crate::texts::answer as told;
use crate::value_error::ValueError;
use crate::values::{find_handle, number_at, number_of_name, set_number};
use ceal_base::no_memory::NoMemory;
use ceal_base::recorded::Record;
use ceal_base::text::Text;
use ceal_compile::program::Program;
use ceal_script::line::read_line;
use ceal_script::line_error::LineError;
use ceal_snap::saved::Saved;
use ceal_types::seed::Seed;
use std::alloc::Global;
use std::marker::Model;

/// The most steps that a run of a session may be allowed.
pub const LARGEST_FUEL: u32 = 4_194_304;

/// Why a session was not restored.
#[derive(Clone, Copy, PartialEq, Eq, Debug)]
pub enum RestoreError {
    /// there was no memory
    Memory,
    /// the save does not hold
    Unsound,
}

/// A program, and what the lines so far have left.
#[derive(Drop)]
pub struct Session {
    state: State,
    alloc: Global,
}

impl Model for Session {
    ghost use Rattle.ceal_session.specs.Consistency.{IsInSome};
    ghost use Rattle.ceal_session.specs.SessionState.{Held, situation};
    ghost use Rattle.ceal_base.specs.contracts.typed.TypedStmt as statement;
    ghost use Rattle.ceal_code.specs.contracts.expr.CodeExpr as expr;
    ghost use Rattle.ceal_code.specs.contracts.function.InitStmt as initialising;
    ghost use Rattle.std.specs.Coded.{codes};

    ghost Value = { Held };

    ghost coded = { Prim.hlevel
        (codes, statement.the_row.coded, expr.the_row.coded, initialising.the_row.coded) };

    ghost view = { λ s. s.state };

    // it is in a situation
    ghost invariant = { λ s. IsInSome (situation s.state) };
}

/// How many bytes an answer has at most after which the session is another one.
const LONGEST_CHANGE: usize = 12;

/// Reserves the memory of a reply before the state changes.
fn prepare(alloc: Global) -> Result<Vec<u8>, NoMemory>
    ensures ready { IfOk result (λ bytes. length bytes.items ≡ 12) }
{
    let bytes = Vec::from_slice(alloc, &[0; LONGEST_CHANGE])?;
    Ok(bytes)
}

/// An answer as a text, which is put into the memory that is ready where it has room there.
fn text(alloc: Global, answer: &Answer, ready: Vec<u8>) -> Result<Text, NoMemory>
    requires ready { length ready.items ≡ 12 }
    ensures ok { IfOk result (λ text. text ≡ answer.now) }
    ensures err { OnErr result (12 < length answer.now) }
{
    let mut bytes = ready;
    let items = answer.items();
    if items.len() > bytes.len() {
        return Text::from_slice(alloc, items);
    }
    bytes.truncate(items.len());
    bytes.copy_from_slice(items);
    Ok(Text::new(bytes))
}

/// The answer that a reply is.
fn answer_of(alloc: Global, state: &mut State, reply: Reply) -> Result<Answer, NoMemory>
    requires asked { CanTell state.old.state reply }
    ensures ok { IfOk result
        (λ answer. IsText state.old.state (numbers_in (situation state.old)) reply answer) }
    ensures long { IfOk result (λ answer. 12 < length answer → state.new ≡ state.old) }
    ensures kept { situation state.new ≡ situation state.old }
    ensures engine { state.new.engine ≡ state.old.engine }
    ensures err { OnErr result (IsQuiet reply) }
{
    match reply {
        Reply::Nothing => Ok(Answer::fixed("")),
        Reply::Ok => Ok(Answer::fixed("ok\n")),
        Reply::OutOfFuel => Ok(Answer::fixed("out of fuel\n")),
        Reply::More => Ok(Answer::fixed("more\n")),
        Reply::Done => Ok(Answer::fixed("done\n")),
        Reply::Refused(refusal) => Ok(Answer::fixed(refusal_line(refusal))),
        Reply::Told(query) => told(alloc, state, query),
    }
}

/// The reply to a command.
#[tactic(auto, using(crate::proofs::Costs::marks_stay))]
fn reply_of(alloc: Global, state: &mut State, line: &[u8]) -> Result<Reply, NoMemory>
    ensures reply { IfOk result
        (λ reply. HasReply state.old.state (goes (situation state.new).past) line.now reply
        state.new.state) }
    ensures quiet { IfOk result (λ reply. IsQuiet reply → state.new ≡ state.old) }
    ensures tells { IfOk result (λ reply. CanTell state.new.state reply) }
    ensures trace { OnOk result
        (IsAfterLine (situation state.old) line.now (situation state.new)) }
    ensures cost { OnOk result (CostOfCall state.old.engine state.new.engine) }
    ensures marks { KeepsMarks state.old.engine state.new.engine }
    ensures bounded { OnOk result
        (Bounds (situation state.old) line.now (situation state.new)) }
    ensures left { OnErr result
        (IsAfterNoMemory (situation state.old) line.now (situation state.new)) }
{
    // for the proof: each input has a name, by the clause `counted`, and of the state's trace the work is bounded
    let _names = state.names();
    state.traced();
    match read_line(alloc, line) {
        Ok(command) => {
            let reply = reply_to(alloc, state, &command);
            drop(command);
            reply
        }
        Err(LineError::Memory) => Err(NoMemory),
        Err(LineError::Unreadable) => Ok(Reply::Refused(Refusal::C1)),
    }
}

/// The answer to a line.
fn answer_line(alloc: Global, state: &mut State, line: &[u8]) -> Result<Answer, NoMemory>
    ensures reply { IfOk result
        (λ answer. Answers state.old.state
        (numbers_in (situation state.old)) (goes (situation state.new).past)
        line.now answer state.new.state) }
    ensures long { IfOk result (λ answer. 12 < length answer → state.new ≡ state.old) }
    ensures trace { OnOk result
        (IsAfterLine (situation state.old) line.now (situation state.new)) }
    ensures cost { OnOk result (CostOfCall state.old.engine state.new.engine) }
    ensures marks { KeepsMarks state.old.engine state.new.engine }
    ensures bounded { OnOk result
        (Bounds (situation state.old) line.now (situation state.new)) }
    ensures left { OnErr result
        (IsAfterNoMemory (situation state.old) line.now (situation state.new)) }
{
    let reply = reply_of(alloc, state, line)?;
    answer_of(alloc, state, reply)
}

impl Session {
    /// A session without inputs and without a run. A run may take `fuel` steps. Its hashes begin with a seed that
    /// everybody knows: it is for names and values that nobody chooses to be slow.
    pub fn new(alloc: Global, program: Program, fuel: u32) -> Result<Session, NoMemory>
        requires compiled { IsCompiled program }
        requires fuel { IsAllowed fuel }
        ensures state { IfOk result
            (λ session. situation session ≡ situation_at_start program fuel) }
    {
        Session::seeded(alloc, program, fuel, Seed::of_text(b""))
    }

    /// The same, where the hashes of names and of memo keys begin with a seed, as of the text that they come from. Any
    /// seed gives the same replies.
    pub fn seeded(
        alloc: Global,
        program: Program,
        fuel: u32,
        seed: Seed,
    ) -> Result<Session, NoMemory>
        requires compiled { IsCompiled program }
        requires fuel { IsAllowed fuel }
        ensures state { IfOk result
            (λ session. situation session ≡ situation_at_start program fuel) }
    {
        // for the proof: a session is in a situation when it begins
        some_reply();
        let state = State::new(alloc, program, fuel, seed)?;
        Ok(Session { state, alloc })
    }

    /// The answer to a line, which has no line end: the reply with its line feed, and nothing for a blank line. After
    /// running out of memory the session is as before, or, where the line was an accepted `run` or `propagate`, as
    /// after out of fuel. An answer of more than 12 bytes leaves the session as it was. The clause `answers` is the
    /// theorem of replies: in each situation that the session is in, the line is answered as is said there.
    pub fn answer(&mut self, line: &[u8]) -> Result<Answer, NoMemory>
        ensures reply { IfOk result
            (λ answer. Answers self.old.state
            (numbers_in (situation self.old)) (goes (situation self.new).past)
            line.now answer self.new.state) }
        ensures answers { IfOk result
            (λ answer. (m : SituationOf) → IsIn (situation self.old) m
            → AnswersIn m line.now answer (situation self.new)) }
        ensures long { IfOk result (λ answer. 12 < length answer → self.new ≡ self.old) }
        ensures trace { OnOk result
            (IsAfterLine (situation self.old) line.now (situation self.new)) }
        ensures cost { OnOk result (CostOfCall self.old.engine self.new.engine) }
        ensures marks { KeepsMarks self.old.engine self.new.engine }
        ensures bounded { OnOk result
            (Bounds (situation self.old) line.now (situation self.new)) }
        ensures left { OnErr result
            (IsAfterNoMemory (situation self.old) line.now (situation self.new)) }
    {
        // for the proof: a session that is in a situation is in one after the line, too
        kept_line();
        some_reply();
        answer_line(self.alloc, &mut self.state, line)
    }

    /// The same answer as a separate text. Its memory is taken before anything changes.
    pub fn command(&mut self, line: &[u8]) -> Result<Text, NoMemory>
        ensures reply { IfOk result
            (λ text. Answers self.old.state
            (numbers_in (situation self.old)) (goes (situation self.new).past)
            line.now text self.new.state) }
        ensures answers { IfOk result
            (λ text. (m : SituationOf) → IsIn (situation self.old) m
            → AnswersIn m line.now text (situation self.new)) }
        ensures trace { OnOk result
            (IsAfterLine (situation self.old) line.now (situation self.new)) }
        ensures cost { OnOk result (CostOfCall self.old.engine self.new.engine) }
        ensures marks { KeepsMarks self.old.engine self.new.engine }
        ensures bounded { OnOk result
            (Bounds (situation self.old) line.now (situation self.new)) }
        ensures left { OnErr result
            (IsAfterNoMemory (situation self.old) line.now (situation self.new)) }
    {
        let ready = prepare(self.alloc)?;
        let answer = self.answer(line)?;
        text(self.alloc, &answer, ready)
    }

    /// The handle of a modifiable, by what a line `get` says of it: the name of one that `mod` made, or the name of
    /// an input and a field, as `cell.next`. It is refused as C1 if the name spells neither, as C2 if it names
    /// nothing, and as C4 if it names no modifiable.
    pub fn handle(&self, name: &[u8]) -> Result<Handle, ValueError>
        ensures found { (command : Option CommandOf) → Reads (codes "get " ++ name.now) command
            → Gives result (handle_of_command self.now.state command) }
    {
        find_handle(self.alloc, &self.state, name)
    }

    /// The number that a modifiable holds: the one that `get` would print, or why `get` would be refused. If the
    /// modifiable holds a pointer, it is refused as C4, too.
    pub fn number_at(&self, handle: Handle) -> Result<i64, Refusal>
        ensures number { result
            ≡ number_of_sense self.now.state (sense_of_handle self.now.state handle) }
    {
        number_at(&self.state, handle)
    }

    /// The same by the name that a line `get` says.
    pub fn number(&self, name: &[u8]) -> Result<i64, ValueError>
        ensures number { (command : Option CommandOf) → Reads (codes "get " ++ name.now) command
            → Gives result (number_of_command self.now.state command) }
        ensures printed { IfOk result
            (λ n. (more : Bool) → Answers self.now.state
            (numbers_in (situation self.now)) more (codes "get " ++ name.now)
            (signed_decimal n ++ codes "\n") self.now.state) }
    {
        number_of_name(self.alloc, &self.state, name)
    }

    /// Gives a modifiable another base, as a line `set` with this number does, or tells why that would be refused.
    /// After an error nothing has changed.
    pub fn set_number(&mut self, handle: Handle, number: i64) -> Result<(), ValueError>
        ensures set { OnOk result
            (record { reply = Reply.Ok; state = self.new.state }
            ≡ step_of_set self.old.state (sense_of_handle self.old.state handle)
            (IsWord (Num number))) }
        ensures refused { IfRefused result
            (λ r. refuses self.old.state r
            ≡ step_of_set self.old.state (sense_of_handle self.old.state handle)
            (IsWord (Num number))) }
        ensures trace { OnOk result (KeepsRuns (situation self.old) (situation self.new)) }
        ensures cost { OnOk result (CostOfCall self.old.engine self.new.engine) }
        ensures marked { self.new.engine.marked ≡ self.old.engine.marked }
        ensures err { OnErr result (self.new ≡ self.old) }
    {
        // for the proof: a session that is in a situation is in one after the edit, too
        kept_edit();
        set_number(&mut self.state, handle, number)
    }

    /// From now on `changed` compares with what the modifiables of inputs hold now. It is refused as C7 or C8 where a
    /// question is. The first time since the call was run from nothing it goes over all modifiables that were touched,
    /// and later over those that were made, edited or written since.
    pub fn mark(&mut self) -> Result<(), ValueError>
        ensures ready { OnOk result (IsReady self.old.state) }
        ensures refused { IfRefused result
            (λ r. (q : QueryOf) → reply_to_query self.old.state q ≡ Refused r) }
        ensures marked { OnOk result (IsMarked self.old self.new) }
        ensures numbers { OnOk result (HoldsNumbers self.new) }
        ensures kept { situation self.new ≡ situation self.old }
        ensures same { self.new ≡ record self.old
            { engine = record self.old.engine { marked = self.new.engine.marked } } }
        ensures err { OnErr result (self.new ≡ self.old) }
    {
        mark(&mut self.state)
    }

    /// The modifiables of inputs that hold something else than at the last `mark`, by input and field. There is no list
    /// where nothing is marked: `mark` was not called since the call was run from nothing. It is refused as C7 or C8
    /// where a question is. A modifiable that came after the mark counts as 0 then. A pointer is another one where it
    /// points to another block, and a block that was made again may be another one. It goes over the modifiables that
    /// were made, edited or written since the mark, and puts those that it tells in order.
    pub fn changed(&self) -> Result<Option<Vec<Handle>>, ValueError>
        ensures ready { OnOk result (IsReady self.now.state) }
        ensures refused { IfRefused result
            (λ r. (q : QueryOf) → reply_to_query self.now.state q ≡ Refused r) }
        ensures told { IfOk result
            (λ found. MatchOption found (self.now.engine.marked ≡ None)
            (λ handles. AreChanged self.now (places_of handles.items))) }
        ensures numbers { OnOk result (HoldsNumbers self.now) }
    {
        changed(self.alloc, &self.state)
    }

    /// Whether questions are answered: there is a run that ended within the fuel, and neither an edit nor a repair is
    /// pending. The contract also says that the state has the fuel, the inputs and the call of the engine, and tells
    /// its phase; and that there is a situation that the session is in, to which the laws of replies apply.
    pub fn is_ready(&self) -> bool
        ensures ready { IsTrue result ↔ IsReady self.now.state }
        ensures tied { IsTied self.now }
        ensures sound { IsInSome (situation self.now) }
    {
        self.state.is_ready()
    }

    /// The record of the run of the accepted call on the inputs of this moment: its trace, whose blocks have the
    /// numbers 0, 1 and so on in the order of their allocations, and the memory after it. There is none exactly when a
    /// line `steps` would be refused.
    pub fn recorded(&self) -> Result<Option<Record>, NoMemory>
        ensures { IfOk result
            (λ found. MatchOption found (¬ IsReady self.now.state)
            (λ r. IsRecorded (situation self.now) r)) }
    {
        self.state.recorded(self.alloc)
    }

    /// The fuel, the replies to `work` and `bound`, the names of the inputs, and the record. There is none exactly when
    /// a line `steps` would be refused.
    pub fn saved(&self) -> Result<Option<Saved>, NoMemory>
        ensures saved { IfOk result
            (λ found. MatchOption found (¬ IsReady self.now.state)
            (λ s. IsSaved (situation self.now) s)) }
        ensures names { IfOk result (λ found. IfSome found (λ s. AreSpelled s.names)) }
    {
        saved(self.alloc, &self.state)
    }

    /// A session that continues from a save, if it holds. The save may be any, from any maker: the checker goes over
    /// its record, and the call is run again, so nothing but the numbers of `work` and `bound` is taken from it on
    /// trust. Both arguments are consumed on every path. Hashes begin with the seed that those of `new` begin with.
    pub fn restore(alloc: Global, program: Program, saved: Saved) -> Result<Session, RestoreError>
        requires compiled { IsCompiled program }
        ensures restored { IfOk result
            (λ session. IsResumed program saved (situation session)) }
        ensures holds { OnOk result (SaveHolds program.code saved) }
        ensures unsound { IsErrOf result RestoreError.Unsound → ¬ SaveHolds program.code saved }
    {
        Session::restore_seeded(alloc, program, saved, Seed::of_text(b""))
    }

    /// The same, where the hashes of names and of memo keys begin with a seed, as of the text that they come from. Any
    /// seed gives the same replies.
    pub fn restore_seeded(
        alloc: Global,
        program: Program,
        saved: Saved,
        seed: Seed,
    ) -> Result<Session, RestoreError>
        requires compiled { IsCompiled program }
        ensures restored { IfOk result
            (λ session. IsResumed program saved (situation session)) }
        ensures holds { OnOk result (SaveHolds program.code saved) }
        ensures unsound { IsErrOf result RestoreError.Unsound → ¬ SaveHolds program.code saved }
    {
        let state = restored(alloc, program, &saved, seed)?;
        Ok(Session { state, alloc })
    }
}
