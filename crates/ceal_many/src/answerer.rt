// What answers the lines of one session, and what makes one.

ghost use Rattle.std.specs.Prelude.{IfOk, OnErr};
ghost use Rattle.ceal_many.specs.Standing.{Answering, Leaving, IsReady, IsAnswered, IsLeft};

use ceal_base::no_memory::NoMemory;
use ceal_base::text::Text;

/// What answers the lines of one session.
pub trait Answerer: Drop {
    /// What a session begins with. It is only for contracts: nothing makes a value of it.
    type Beginning;

    /// The states, of which only contracts speak.
    ghost State: { Type 0 };

    /// The state of a session that has answered no line.
    ghost opening: { Self.Beginning → State };

    /// It stands for this state.
    ghost stands: { Self → State → Type 0 };

    /// What `command` asks of the state.
    ghost needs: { State → Type 0 };

    /// The state answers this line by this text, and this is its next state.
    ghost answers: { Answering State };

    /// What may be left of the state where there was no memory to answer this line.
    ghost leaves: { Leaving State };

    /// The reply to a line, which has no line end. Each line of the reply ends with a line feed.
    fn command(&mut self, line: &[u8]) -> Result<Text, NoMemory>
        requires ready { IsReady stands needs self.old }
        ensures reply { IfOk result
            (λ text. IsAnswered stands answers self.old line.now text self.new) }
        ensures left { OnErr result (IsLeft stands leaves self.old line.now self.new) };
}

/// What makes sessions, all in one opening state.
pub trait Maker: Drop {
    /// A session.
    type Made: Answerer;

    /// What each session begins with.
    ghost beginning: { Self → Self.Made.Beginning };

    /// A session that has answered no line.
    fn make(&self) -> Result<Self::Made, NoMemory>
        ensures opens { IfOk result
            (λ made. Self.Made.stands made (Self.Made.opening (beginning self.now))) };
}
