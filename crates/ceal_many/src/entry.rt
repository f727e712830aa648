// A session among others, with its name.

ghost use Rattle.std.specs.Prelude.{◌≡◌, IfOk, OnErr};
ghost use Rattle.ceal_many.specs.Replies.{Writes, LeavesOne};
ghost use Rattle.ceal_many.specs.Standing.{IsReady, IsAnswered, IsLeft};

use crate::answerer::Answerer;
use crate::prefix::prefixed;
use ceal_base::no_memory::NoMemory;
use ceal_base::text::Text;
use std::alloc::Global;

/// A session with its name.
#[derive(Drop)]
pub struct Entry<A> {
    pub name: Text,
    pub answerer: A,
}

/// The reply of a session to a line, as it is written.
pub fn answer<A: Answerer>(
    alloc: Global,
    entry: &mut Entry<A>,
    line: &[u8],
) -> Result<Text, NoMemory>
    requires { IsReady A.stands A.needs entry.old.answerer }
    ensures reply { IfOk result (λ text. IsAnswered A.stands (Writes A.answers entry.old.name)
        entry.old.answerer line.now text entry.new.answerer) }
    ensures left { OnErr result (IsLeft A.stands (LeavesOne A.answers A.leaves)
        entry.old.answerer line.now entry.new.answerer) }
    ensures name { entry.new.name ≡ entry.old.name }
{
    let reply = entry.answerer.command(line)?;
    prefixed(alloc, entry.name.items(), reply.items())
}
