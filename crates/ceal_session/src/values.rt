// Values without text: handles of modifiables, and the numbers that they hold.

ghost use Rattle.std.specs.Prelude.{◌≡◌, ◌++◌, Bool, Some, Option, codes, IfOk, OnOk, OnErr};
ghost use Rattle.std.specs.Fmt.{signed_decimal};
ghost use Rattle.ceal_base.specs.Fitting.{kind_at};
ghost use Rattle.ceal_base.specs.declared.word.Word.TheVariants.{Num};
ghost use Rattle.ceal_code.specs.Value.{is_cell};
ghost use Rattle.ceal_engine.specs.Cost.{CostOfCall};
ghost use Rattle.ceal_script.specs.declared.command.Command.{Command as CommandOf};
ghost use Rattle.ceal_session.specs.AfterLine.{KeepsRuns};
ghost use Rattle.ceal_session.specs.SessionState.{situation};
ghost use Rattle.ceal_session.specs.Replies.{Answers, Reads};
ghost use Rattle.ceal_session.specs.Runs.{memory_of};
ghost use Rattle.ceal_session.specs.State.{numbers_in};
ghost use Rattle.ceal_session.specs.Steps.{refuses, step_of_set};
ghost use Rattle.ceal_session.specs.Values.{handle_of_sense, handle_of_command, sense_of_handle, Gives, IfRefused};
ghost use Rattle.ceal_session.specs.Values.{number_of_sense, number_of_command};
ghost use Rattle.ceal_session.specs.declared.sense.Sense.TheVariants.{Word as IsWord};

use crate::handle::Handle;
use crate::refusal::Refusal;
use crate::reply::Reply;
use crate::sense::Sense;
use crate::senses::place_sense;
use crate::state::State;
use crate::steps::fits_place;
use crate::value_error::ValueError;
use ceal_base::fitting::place_kind;
use ceal_base::kind::FieldKind;
use ceal_base::no_memory::NoMemory;
use ceal_base::text::Text;
use ceal_base::word::{Place, Word};
use ceal_script::command::Command;
use ceal_script::line::{command_or_none, read_line};
use ceal_script::line_error::LineError;
use std::alloc::Global;

/// Whether a kind is that of a modifiable.
fn is_modifiable(kind: Option<FieldKind>) -> bool
    ensures { result ≡ is_cell kind }
{
    match kind {
        None => false,
        Some(FieldKind::Plain(_)) => false,
        Some(FieldKind::CellInt) => true,
        Some(FieldKind::CellPtr(_)) => true,
    }
}

/// Whether there is a modifiable of an input at this place.
fn has_modifiable(state: &State, place: Place) -> bool
    ensures { result
        ≡ is_cell (kind_at state.now.state.program.structs (memory_of state.now.state) place) }
{
    is_modifiable(place_kind(state.structs(), state.inputs(), place))
}

/// The handle of the modifiable that a place of a line stands for.
fn handle_of(sense: Sense) -> Result<Handle, Refusal>
    ensures { result ≡ handle_of_sense sense }
{
    match sense {
        Sense::Word(Word::At(place)) => Ok(Handle { place }),
        Sense::Unknown => Err(Refusal::C2),
        _ => Err(Refusal::C4),
    }
}

/// The handle of the modifiable that a line `get` asks for.
fn asked_handle(state: &State, command: &Command) -> Result<Handle, ValueError>
    ensures { Gives result (handle_of_command state.now.state (Some command.now)) }
{
    match command {
        Command::Get { place } => {
            let sense = place_sense(state, place)?;
            let handle = handle_of(sense)?;
            Ok(handle)
        }
        _ => Err(ValueError::Refused(Refusal::C1)),
    }
}

/// The line `get NAME`.
fn get_line(alloc: Global, name: &[u8]) -> Result<Text, NoMemory>
    ensures { IfOk result (λ line. line ≡ codes "get " ++ name.now) }
{
    let mut line = Text::from_slice(alloc, b"get ")?;
    line.append(name)?;
    Ok(line)
}

/// The handle of the modifiable that a line asks for.
fn line_handle(alloc: Global, state: &State, line: &[u8]) -> Result<Handle, ValueError>
    ensures { (command : Option CommandOf) → Reads line.now command
        → Gives result (handle_of_command state.now.state command) }
{
    match read_line(alloc, line) {
        Ok(command) => {
            let handle = asked_handle(state, &command);
            drop(command);
            handle
        }
        Err(LineError::Memory) => Err(ValueError::Memory),
        Err(LineError::Unreadable) => Err(ValueError::Refused(Refusal::C1)),
    }
}

/// The handle of the modifiable for which `get NAME` asks.
pub fn find_handle(alloc: Global, state: &State, name: &[u8]) -> Result<Handle, ValueError>
    ensures { (command : Option CommandOf) → Reads (codes "get " ++ name.now) command
        → Gives result (handle_of_command state.now.state command) }
{
    let line = get_line(alloc, name)?;
    let handle = line_handle(alloc, state, line.items());
    drop(line);
    handle
}

/// The number that a modifiable holds, as `get` would tell it.
pub fn number_at(state: &State, handle: Handle) -> Result<i64, Refusal>
    ensures { result
        ≡ number_of_sense state.now.state (sense_of_handle state.now.state handle) }
{
    if !has_modifiable(state, handle.place) {
        return Err(Refusal::C4);
    }
    if state.has_no_run() {
        return Err(Refusal::C7);
    }
    if state.is_pending() {
        return Err(Refusal::C8);
    }
    state.number(handle.place)
}

/// A number or a refusal, as an answer for which memory may run out.
fn answer_of(found: Result<i64, Refusal>) -> Result<i64, ValueError>
    ensures { Gives result found }
{
    let number = found?;
    Ok(number)
}

/// The number for which `get NAME` asks.
fn find_number(alloc: Global, state: &State, name: &[u8]) -> Result<i64, ValueError>
    ensures { (command : Option CommandOf) → Reads (codes "get " ++ name.now) command
        → Gives result (number_of_command state.now.state command) }
{
    match find_handle(alloc, state, name) {
        Ok(handle) => answer_of(number_at(state, handle)),
        Err(error) => Err(error),
    }
}

/// The same; and a line `get NAME` is answered by it.
pub fn number_of_name(alloc: Global, state: &State, name: &[u8]) -> Result<i64, ValueError>
    ensures number { (command : Option CommandOf) → Reads (codes "get " ++ name.now) command
        → Gives result (number_of_command state.now.state command) }
    ensures printed { IfOk result
        (λ n. (more : Bool) → Answers state.now.state
        (numbers_in (situation state.now)) more (codes "get " ++ name.now)
        (signed_decimal n ++ codes "\n") state.now.state) }
{
    // for the proof: the line is a command's, or no command's
    command_or_none();
    find_number(alloc, state, name)
}

/// `set` with a number, by a handle.
pub fn set_number(state: &mut State, handle: Handle, number: i64) -> Result<(), ValueError>
    ensures set { OnOk result
        (record { reply = Reply.Ok; state = state.new.state }
        ≡ step_of_set state.old.state (sense_of_handle state.old.state handle)
        (IsWord (Num number))) }
    ensures refused { IfRefused result
        (λ r. refuses state.old.state r
        ≡ step_of_set state.old.state (sense_of_handle state.old.state handle)
        (IsWord (Num number))) }
    ensures trace { OnOk result (KeepsRuns (situation state.old) (situation state.new)) }
    ensures cost { OnOk result (CostOfCall state.old.engine state.new.engine) }
    ensures marked { state.new.engine.marked ≡ state.old.engine.marked }
    ensures err { OnErr result (state.new ≡ state.old) }
{
    if !has_modifiable(state, handle.place) {
        return Err(ValueError::Refused(Refusal::C4));
    }
    if !fits_place(state, handle.place, Word::Num(number)) {
        return Err(ValueError::Refused(Refusal::C4));
    }
    state.set_base(handle.place, Word::Num(number))?;
    Ok(())
}
