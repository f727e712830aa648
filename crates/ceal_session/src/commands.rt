// What a command is answered, and the state after it.

ghost use Rattle.std.specs.Prelude.{◌≡◌, ◌≢◌, [], ◌∷◌, Some, None, IfOk, OnOk, OnErr, map};
ghost use Rattle.ceal_engine.specs.Cost.{CostOfCall};
ghost use Rattle.ceal_script.specs.Spelling.{IsName};
ghost use Rattle.ceal_session.specs.Questions.{HasReads};
ghost use Rattle.ceal_session.specs.Marks.{KeepsMarks};
ghost use Rattle.ceal_session.specs.AfterLine.{KeepsRuns, RunsOrKeeps, IsAfterNoMemoryOf};
ghost use Rattle.ceal_session.specs.SessionState.{situation};
ghost use Rattle.ceal_session.specs.InputNames.{IsNamed};
ghost use Rattle.ceal_session.specs.Senses.{mod_shape as shape_of_mod, struct_shape as shape_of_struct, struct_named};
ghost use Rattle.ceal_session.specs.Senses.{function_named, value_sense as sense_of_value};
ghost use Rattle.ceal_session.specs.Steps.{IsQuiet, IsFirst, runs, call_of_run, call_again, call_of, reads_of};
ghost use Rattle.ceal_session.specs.Steps.{step_of_shape, step_of_command};
ghost use Rattle.ceal_theory.specs.Pasts.{goes};

use crate::refusal::Refusal;
use crate::reply::{Query, Reply};
use crate::senses::{mod_shape, place_sense, struct_shape, value_sense, value_senses};
use crate::state::State;
use crate::steps::{ask, call, get, make, set, show};
use ceal_base::call::Call;
use ceal_base::kind::Shape;
use ceal_base::no_memory::NoMemory;
use ceal_base::text::Text;
use ceal_script::command::{Command, KindWord, PlaceWord, ValueWord};
use std::alloc::Global;

/// `mod`
fn make_modifiable(
    alloc: Global,
    state: &mut State,
    name: &Text,
    kind: &KindWord,
    value: &ValueWord,
) -> Result<Reply, NoMemory>
    requires named { IsName name.now }
    ensures ok { IfOk result
        (λ reply. record { reply = reply; state = state.new.state }
        ≡ step_of_shape state.old.state name.now (shape_of_mod state.old.state kind.now)
        (sense_of_value state.old.state value.now ∷ [])) }
    ensures quiet { IfOk result (λ reply. IsQuiet reply → state.new ≡ state.old) }
    ensures trace { OnOk result (KeepsRuns (situation state.old) (situation state.new)) }
    ensures cost { OnOk result (CostOfCall state.old.engine state.new.engine) }
    ensures marked { state.new.engine.marked ≡ state.old.engine.marked }
    ensures err { OnErr result (state.new ≡ state.old) }
{
    let shape = mod_shape(state, kind);
    let sense = value_sense(state, value)?;
    make(alloc, state, name, shape, &[sense])
}

/// `new`
fn make_block(
    alloc: Global,
    state: &mut State,
    name: &Text,
    shape: &Text,
    values: &[ValueWord],
) -> Result<Reply, NoMemory>
    requires named { IsName name.now }
    ensures ok { IfOk result
        (λ reply. record { reply = reply; state = state.new.state }
        ≡ step_of_shape state.old.state name.now
        (shape_of_struct (struct_named state.old.state shape.now))
        (map (sense_of_value state.old.state) values.now)) }
    ensures quiet { IfOk result (λ reply. IsQuiet reply → state.new ≡ state.old) }
    ensures trace { OnOk result (KeepsRuns (situation state.old) (situation state.new)) }
    ensures cost { OnOk result (CostOfCall state.old.engine state.new.engine) }
    ensures marked { state.new.engine.marked ≡ state.old.engine.marked }
    ensures err { OnErr result (state.new ≡ state.old) }
{
    let shape = struct_shape(state, shape);
    match values {
        [one] => {
            let one = value_sense(state, one)?;
            make(alloc, state, name, shape, &[one])
        }
        [one, two] => {
            let one = value_sense(state, one)?;
            let two = value_sense(state, two)?;
            make(alloc, state, name, shape, &[one, two])
        }
        _ => {
            let senses = value_senses(alloc, state, values)?;
            make(alloc, state, name, shape, senses.as_slice())
        }
    }
}

/// The run of a call that no run came before, unless it is refused.
#[tactic(auto, using(crate::proofs::Costs::marks_stay))]
fn start(state: &mut State, call: Result<Call, Refusal>) -> Result<Reply, NoMemory>
    requires { IfOk call (λ call. IsFirst state.old.state call) }
    ensures ok { IfOk result
        (λ reply. record { reply = reply; state = state.new.state }
        ≡ runs state.old.state None (goes (situation state.new).past) call) }
    ensures quiet { IfOk result (λ reply. IsQuiet reply → state.new ≡ state.old) }
    ensures trace { OnOk result
        (RunsOrKeeps (situation state.old) call None (situation state.new)) }
    ensures cost { OnOk result (CostOfCall state.old.engine state.new.engine) }
    ensures marks { KeepsMarks state.old.engine state.new.engine }
    ensures err { OnErr result
        (IsAfterNoMemoryOf (situation state.old) call (situation state.new)) }
{
    match call {
        Ok(call) => state.run(&call),
        Err(refusal) => Ok(Reply::Refused(refusal)),
    }
}

/// `run`
#[tactic(auto, using(crate::proofs::Costs::marks_stay))]
fn start_first(
    alloc: Global,
    state: &mut State,
    function: &Text,
    args: &[ValueWord],
) -> Result<Reply, NoMemory>
    ensures ok { IfOk result
        (λ reply. record { reply = reply; state = state.new.state }
        ≡ runs state.old.state None (goes (situation state.new).past)
        (call_of_run state.old.state (function_named state.old.state function.now)
        (map (sense_of_value state.old.state) args.now))) }
    ensures quiet { IfOk result (λ reply. IsQuiet reply → state.new ≡ state.old) }
    ensures trace { OnOk result
        (RunsOrKeeps (situation state.old)
        (call_of_run state.old.state (function_named state.old.state function.now)
        (map (sense_of_value state.old.state) args.now)) None (situation state.new)) }
    ensures cost { OnOk result (CostOfCall state.old.engine state.new.engine) }
    ensures marks { KeepsMarks state.old.engine state.new.engine }
    ensures err { OnErr result
        (IsAfterNoMemoryOf (situation state.old)
        (call_of_run state.old.state (function_named state.old.state function.now)
        (map (sense_of_value state.old.state) args.now)) (situation state.new)) }
{
    let senses = value_senses(alloc, state, args)?;
    let call = call(alloc, state, function, senses.as_slice())?;
    start(state, call)
}

/// `propagate`, and `propagate READS`
#[tactic(auto, using(crate::proofs::Costs::marks_stay))]
fn start_again(state: &mut State, reads: Option<u32>) -> Result<Reply, NoMemory>
    requires { reads ≢ Some 0 }
    ensures ok { IfOk result
        (λ reply. record { reply = reply; state = state.new.state }
        ≡ runs state.old.state reads (goes (situation state.new).past)
        (call_again state.old.state.call)) }
    ensures quiet { IfOk result (λ reply. IsQuiet reply → state.new ≡ state.old) }
    ensures trace { OnOk result
        (RunsOrKeeps (situation state.old) (call_again state.old.state.call) reads
        (situation state.new)) }
    ensures cost { OnOk result (CostOfCall state.old.engine state.new.engine) }
    ensures marks { KeepsMarks state.old.engine state.new.engine }
    ensures err { OnErr result
        (IsAfterNoMemoryOf (situation state.old) (call_again state.old.state.call)
        (situation state.new)) }
{
    if !state.has_call() {
        return Ok(Reply::Refused(Refusal::C7));
    }
    state.propagate(reads)
}

/// The reply to a command. Where there is no memory, the state is as before, or as after a run that was out of fuel.
#[tactic(auto, using(crate::proofs::Costs::marks_stay))]
pub fn reply_to(alloc: Global, state: &mut State, command: &Command) -> Result<Reply, NoMemory>
    requires some { HasReads command.now }
    requires named { IsNamed command.now }
    ensures ok { IfOk result
        (λ reply. record { reply = reply; state = state.new.state }
        ≡ step_of_command state.old.state (goes (situation state.new).past) command.now) }
    ensures quiet { IfOk result (λ reply. IsQuiet reply → state.new ≡ state.old) }
    ensures trace { OnOk result
        (RunsOrKeeps (situation state.old) (call_of state.old.state command.now)
        (reads_of command.now)
        (situation state.new)) }
    ensures cost { OnOk result (CostOfCall state.old.engine state.new.engine) }
    ensures marks { KeepsMarks state.old.engine state.new.engine }
    ensures err { OnErr result
        (IsAfterNoMemoryOf (situation state.old) (call_of state.old.state command.now)
        (situation state.new)) }
{
    match command {
        Command::Blank => Ok(Reply::Nothing),
        Command::Mod { name, kind, value } => { make_modifiable(alloc, state, name, kind, value) }
        Command::New {
            name,
            shape,
            values,
        } => make_block(alloc, state, name, shape, values.items()),
        Command::Set { place, value } => {
            set(
                state,
                place_sense(state, place)?,
                value_sense(state, value)?,
            )
        }
        Command::Run { function, args } => { start_first(alloc, state, function, args.items()) }
        Command::Propagate => start_again(state, None),
        Command::Slice { reads } => start_again(state, Some(*reads)),
        Command::Get { place } => Ok(get(state, place_sense(state, place)?)),
        Command::Show { name } => Ok(show(state, state.input(name))),
        Command::Blocks => Ok(ask(state, Query::Blocks)),
        Command::Steps => Ok(ask(state, Query::Steps)),
        Command::Work => Ok(ask(state, Query::Work)),
        Command::Bound => Ok(ask(state, Query::Bound)),
    }
}
