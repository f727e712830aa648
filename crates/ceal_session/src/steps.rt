// What a command that asks for no run is answered, and the state after it.

ghost use Rattle.std.specs.Prelude.{◌≡◌, Some, false, slice_get, IfOk, OnOk, OnErr, bytes_eq};
ghost use Rattle.std.specs.List.{list_any};
ghost use Rattle.ceal_base.specs.Fitting.{kind_at};
ghost use Rattle.ceal_engine.specs.Cost.{CostOfCall};
ghost use Rattle.ceal_script.specs.Spelling.{IsName};
ghost use Rattle.ceal_session.specs.Questions.{IsCellOf, IsCellSense};
ghost use Rattle.ceal_session.specs.AfterLine.{KeepsRuns};
ghost use Rattle.ceal_session.specs.SessionState.{situation};
ghost use Rattle.ceal_session.specs.Runs.{memory_of};
ghost use Rattle.ceal_session.specs.Senses.{function_named};
ghost use Rattle.ceal_session.specs.Steps.{IsQuiet, step_of_input, step_of_shape, step_of_words};
ghost use Rattle.ceal_session.specs.Steps.{step_of_set as set_of, step_of_base as based};
ghost use Rattle.ceal_session.specs.Steps.{fits_function, call_of_words, call_of_function, call_of_run as called_of};
ghost use Rattle.ceal_session.specs.Steps.{reply_to_query};
ghost use Rattle.ceal_session.specs.Steps.{has_no_run, reply_to_get, reply_to_show as shown_of, fits_cell};

use crate::refusal::Refusal;
use crate::reply::{Query, Reply};
use crate::sense::Sense;
use crate::senses::{has_unknown, is_unknown, words};
use crate::state::State;
use ceal_base::call::Call;
use ceal_base::fitting::{field_fits, new_block_fits, place_kind, words_fit};
use ceal_base::kind::{FieldKind, Shape};
use ceal_base::no_memory::NoMemory;
use ceal_base::text::Text;
use ceal_base::typed::TypedFunction;
use ceal_base::word::{Place, Word};
use ceal_base::words::Words;
use std::alloc::Global;

/// An input of these words, where they fit.
fn make_if(state: &mut State, name: &Text, shape: Shape, words: &[Word]) -> Result<Reply, NoMemory>
    requires named { IsName name.now }
    requires new { list_any (bytes_eq name.now) state.old.state.names ≡ false }
    ensures ok { IfOk result
        (λ reply. record { reply = reply; state = state.new.state }
        ≡ step_of_words state.old.state name.now shape (Some words.now)) }
    ensures quiet { IfOk result (λ reply. IsQuiet reply → state.new ≡ state.old) }
    ensures trace { OnOk result (KeepsRuns (situation state.old) (situation state.new)) }
    ensures cost { OnOk result (CostOfCall state.old.engine state.new.engine) }
    ensures marked { state.new.engine.marked ≡ state.old.engine.marked }
    ensures err { OnErr result (state.new ≡ state.old) }
{
    if !new_block_fits(state.structs(), state.inputs(), shape, words) {
        return Ok(Reply::Refused(Refusal::C4));
    }
    state.add_input(name, shape, words)?;
    Ok(Reply::Ok)
}

fn make_with(
    alloc: Global,
    state: &mut State,
    name: &Text,
    shape: Shape,
    senses: &[Sense],
) -> Result<Reply, NoMemory>
    requires named { IsName name.now }
    ensures ok { IfOk result
        (λ reply. record { reply = reply; state = state.new.state }
        ≡ step_of_input state.old.state name.now shape senses.now) }
    ensures quiet { IfOk result (λ reply. IsQuiet reply → state.new ≡ state.old) }
    ensures trace { OnOk result (KeepsRuns (situation state.old) (situation state.new)) }
    ensures cost { OnOk result (CostOfCall state.old.engine state.new.engine) }
    ensures marked { state.new.engine.marked ≡ state.old.engine.marked }
    ensures err { OnErr result (state.new ≡ state.old) }
{
    let unknown = has_unknown(senses);
    if unknown {
        return Ok(Reply::Refused(Refusal::C2));
    }
    if state.names().has(name) {
        return Ok(Reply::Refused(Refusal::C3));
    }
    match words(alloc, senses)? {
        None => Ok(Reply::Refused(Refusal::C4)),
        Some(words) => make_if(state, name, shape, words.items()),
    }
}

/// `mod` and `new`: one more input, unless it is refused.
pub fn make(
    alloc: Global,
    state: &mut State,
    name: &Text,
    shape: Option<Shape>,
    senses: &[Sense],
) -> Result<Reply, NoMemory>
    requires named { IsName name.now }
    ensures ok { IfOk result
        (λ reply. record { reply = reply; state = state.new.state }
        ≡ step_of_shape state.old.state name.now shape senses.now) }
    ensures quiet { IfOk result (λ reply. IsQuiet reply → state.new ≡ state.old) }
    ensures trace { OnOk result (KeepsRuns (situation state.old) (situation state.new)) }
    ensures cost { OnOk result (CostOfCall state.old.engine state.new.engine) }
    ensures marked { state.new.engine.marked ≡ state.old.engine.marked }
    ensures err { OnErr result (state.new ≡ state.old) }
{
    match shape {
        None => Ok(Reply::Refused(Refusal::C2)),
        Some(shape) => make_with(alloc, state, name, shape, senses),
    }
}

/// Whether a word fits the modifiable of this type.
fn fits(state: &State, kind: Option<FieldKind>, word: Word) -> bool
    ensures { result ≡ fits_cell state.now.state kind word }
{
    match kind {
        None => false,
        Some(kind) => field_fits(state.structs(), state.inputs(), kind, word),
    }
}

/// Whether a word fits the modifiable at a place.
pub fn fits_place(state: &State, place: Place, word: Word) -> bool
    ensures { result ≡ fits_cell state.now.state
        (kind_at state.now.state.program.structs (memory_of state.now.state) place) word }
{
    fits(
        state,
        place_kind(state.structs(), state.inputs(), place),
        word,
    )
}

/// Another base for a modifiable, where the word fits it.
fn set_base(state: &mut State, place: Place, word: Word) -> Result<Reply, NoMemory>
    requires { IsCellOf state.old.state place }
    ensures step { IfOk result
        (λ reply. record { reply = reply; state = state.new.state }
        ≡ based state.old.state place word) }
    ensures quiet { IfOk result (λ reply. IsQuiet reply → state.new ≡ state.old) }
    ensures trace { OnOk result (KeepsRuns (situation state.old) (situation state.new)) }
    ensures cost { OnOk result (CostOfCall state.old.engine state.new.engine) }
    ensures marked { state.new.engine.marked ≡ state.old.engine.marked }
    ensures err { OnErr result (state.new ≡ state.old) }
{
    if !fits_place(state, place, word) {
        return Ok(Reply::Refused(Refusal::C4));
    }
    state.set_base(place, word)?;
    Ok(Reply::Ok)
}

/// `set`: another base, unless it is refused.
#[tactic(auto, using(crate::proofs::Costs::no_cost))]
pub fn set(state: &mut State, place: Sense, value: Sense) -> Result<Reply, NoMemory>
    requires { IsCellSense state.old.state place }
    ensures step { IfOk result
        (λ reply. record { reply = reply; state = state.new.state }
        ≡ set_of state.old.state place value) }
    ensures quiet { IfOk result (λ reply. IsQuiet reply → state.new ≡ state.old) }
    ensures trace { OnOk result (KeepsRuns (situation state.old) (situation state.new)) }
    ensures cost { OnOk result (CostOfCall state.old.engine state.new.engine) }
    ensures marked { state.new.engine.marked ≡ state.old.engine.marked }
    ensures err { OnErr result (state.new ≡ state.old) }
{
    if is_unknown(place) || is_unknown(value) {
        return Ok(Reply::Refused(Refusal::C2));
    }
    match (place, value) {
        (Sense::Word(Word::At(place)), Sense::Word(word)) => set_base(state, place, word),
        _ => Ok(Reply::Refused(Refusal::C4)),
    }
}

/// Whether this is a core function, and the words fit its parameters.
fn fits_call(state: &State, function: &TypedFunction, words: &[Word]) -> bool
    ensures { result ≡ fits_function state.now.state function.now words.now }
{
    if function.initialiser.is_some() {
        return false;
    }
    let kinds = function.kinds.items();
    let count = (function.params as usize).min(kinds.len());
    words_fit(state.structs(), state.inputs(), &kinds[..count], words)
}

fn call_with(
    state: &State,
    number: u32,
    function: &TypedFunction,
    words: Option<Words>,
) -> Result<Call, Refusal>
    ensures { result ≡ call_of_words state.now.state number function.now words }
{
    let Some(args) = words else {
        return Err(Refusal::C5);
    };
    if !fits_call(state, function, args.items()) {
        return Err(Refusal::C5);
    }
    if state.has_call() {
        return Err(Refusal::C6);
    }
    Ok(Call {
        function: number,
        args,
    })
}

fn call_function(
    alloc: Global,
    state: &State,
    number: u32,
    senses: &[Sense],
) -> Result<Result<Call, Refusal>, NoMemory>
    ensures { IfOk result
        (λ call. call
        ≡ call_of_function state.now.state number
        (slice_get state.now.state.program.functions number) senses.now) }
{
    let Some(function) = state.functions().get(number as usize) else {
        return Ok(Err(Refusal::C2));
    };
    if has_unknown(senses) {
        return Ok(Err(Refusal::C2));
    }
    let words = words(alloc, senses)?;
    Ok(call_with(state, number, function, words))
}

/// The call of a `run` line, or why it is refused.
pub fn call(
    alloc: Global,
    state: &State,
    function: &Text,
    senses: &[Sense],
) -> Result<Result<Call, Refusal>, NoMemory>
    ensures { IfOk result
        (λ call. call
        ≡ called_of state.now.state (function_named state.now.state function.now) senses.now) }
{
    match state.function_number(function) {
        None => Ok(Err(Refusal::C2)),
        Some(number) => call_function(alloc, state, number, senses),
    }
}

/// A question, where there is a run that was not out of fuel and no edit came after it.
pub fn ask(state: &State, query: Query) -> Reply
    ensures { result ≡ reply_to_query state.now.state query }
{
    if state.has_no_run() {
        return Reply::Refused(Refusal::C7);
    }
    if state.is_pending() {
        return Reply::Refused(Refusal::C8);
    }
    Reply::Told(query)
}

/// `get`
pub fn get(state: &State, place: Sense) -> Reply
    ensures { result ≡ reply_to_get state.now.state place }
{
    match place {
        Sense::Word(Word::At(place)) => ask(state, Query::Get(place)),
        Sense::Unknown => Reply::Refused(Refusal::C2),
        _ => Reply::Refused(Refusal::C4),
    }
}

/// `show`
pub fn show(state: &State, input: Option<u32>) -> Reply
    ensures { result ≡ shown_of state.now.state input }
{
    match input {
        None => Reply::Refused(Refusal::C2),
        Some(input) => ask(state, Query::Show(input)),
    }
}
