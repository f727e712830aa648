// The answers to questions.

ghost use Rattle.std.specs.Prelude.{◌≡◌, ◌≤◌, ◌<◌, ◌++◌, length, IfOk, codes};
ghost use Rattle.std.specs.Fmt.{decimal};
ghost use Rattle.ceal_session.specs.Questions.{IsReady, IsFor};
ghost use Rattle.ceal_session.specs.SessionState.{situation};
ghost use Rattle.ceal_session.specs.Runs.{present_run};
ghost use Rattle.ceal_session.specs.Texts.{block_text, value_text, TellsOf};
ghost use Rattle.ceal_session.specs.State.{numbers_in};

use crate::answer::Answer;
use crate::reply::Query;
use crate::state::State;
use ceal_base::no_memory::NoMemory;
use ceal_base::word::{BlockId, Word};
use itoa::Buffer;
use std::alloc::Global;

/// A line with the name of a block.
fn block_line(alloc: Global, state: &State, block: BlockId) -> Result<Answer, NoMemory>
    ensures { IfOk result (λ answer. answer ≡ block_text state.now.state block ++ codes "\n") }
{
    match block {
        BlockId::Core(_) => Ok(Answer::fixed("#1\n")),
        BlockId::Input(input) => match state.names().at(input) {
            None => Ok(Answer::fixed("\n")),
            Some(name) => Answer::line(alloc, name.items()),
        },
    }
}

fn number_line(alloc: Global, number: u32) -> Result<Answer, NoMemory>
    ensures line { IfOk result (λ answer. answer ≡ decimal number ++ codes "\n") }
    ensures short { IfOk result (λ answer. length answer ≤ 12) }
{
    let mut digits = Buffer::new();
    Answer::line(alloc, digits.format(number).as_bytes())
}

/// A line with the text of a value.
fn word_line(alloc: Global, state: &State, word: Word) -> Result<Answer, NoMemory>
    ensures { IfOk result (λ answer. answer ≡ value_text state.now.state word ++ codes "\n") }
{
    match word {
        Word::Num(n) => {
            let mut digits = Buffer::new();
            Answer::line(alloc, digits.format(n).as_bytes())
        }
        Word::Null => Ok(Answer::fixed("null\n")),
        Word::Block(block) => block_line(alloc, state, block),
        Word::At(place) => block_line(alloc, state, place.block),
    }
}

/// The graph from an input.
fn graph(alloc: Global, state: &State, input: u32) -> Result<Answer, NoMemory>
    requires ready { IsReady state.now.state }
    requires there { IsFor state.now.state (Query.Show input) }
    ensures { IfOk result
        (λ answer. TellsOf state.now.state (numbers_in (situation state.now)) (Query.Show input)
        (present_run state.now.state) answer) }
{
    let text = state.graph(alloc, input)?;
    Ok(Answer::owned(text))
}

/// The bound, which the state then keeps.
fn bound_line(alloc: Global, state: &mut State) -> Result<Answer, NoMemory>
    requires { IsReady state.old.state }
    ensures told { IfOk result
        (λ answer. TellsOf state.old.state (numbers_in (situation state.old)) Query.Bound
        (present_run state.old.state) answer) }
    ensures short { IfOk result (λ answer. length answer ≤ 12) }
    ensures kept { situation state.new ≡ situation state.old }
    ensures engine { state.new.engine ≡ state.old.engine }
{
    let bound = state.bound(alloc)?;
    state.keep_bound(bound);
    number_line(alloc, bound)
}

/// The answer to a question.
pub fn answer(alloc: Global, state: &mut State, query: Query) -> Result<Answer, NoMemory>
    requires ready { IsReady state.old.state }
    requires there { IsFor state.old.state query }
    ensures told { IfOk result
        (λ answer. TellsOf state.old.state (numbers_in (situation state.old)) query
        (present_run state.old.state) answer) }
    ensures long { IfOk result (λ answer. 12 < length answer → state.new ≡ state.old) }
    ensures kept { situation state.new ≡ situation state.old }
    ensures engine { state.new.engine ≡ state.old.engine }
{
    match query {
        Query::Get(place) => word_line(alloc, state, state.content(place)),
        Query::Show(input) => graph(alloc, state, input),
        Query::Blocks => number_line(alloc, state.blocks()),
        Query::Steps => number_line(alloc, state.steps()),
        Query::Work => number_line(alloc, state.work()),
        Query::Bound => bound_line(alloc, state),
    }
}
