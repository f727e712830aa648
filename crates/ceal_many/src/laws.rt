// The laws of replies, each the contract of a function that does nothing.

ghost use Rattle.ceal_many.specs.Laws.{OwnRepliesLaw, RefusedLaw, NamesLaw, OneReplyLaw, AloneLaw, KeptLaw};
ghost use Rattle.ceal_many.specs.Laws.{SomeReplyLaw};

use crate::answerer::Answerer;

/// A law: the replies to the lines for one of the first 64 names are those that its session by itself gives to these
/// lines. The lines for any other name are refused.
pub fn own_replies<A: Answerer>()
    ensures own { OwnRepliesLaw A.answers }
    ensures refused { RefusedLaw A.answers }
    ensures names { NamesLaw A.answers }
{}

/// A law: where a session has one reply to a line at most, many sessions have, and the replies to one name's lines
/// depend only on these lines.
pub fn one_reply<A: Answerer>()
    ensures reply { OneReplyLaw A.answers }
    ensures alone { AloneLaw A.answers }
{}

/// A law: where a session has a reply to each line, many sessions have one to each line of a script. A condition that
/// each reply of a session keeps is kept by theirs.
pub fn some_reply<A: Answerer>()
    ensures kept { KeptLaw A.needs A.answers }
    ensures script { SomeReplyLaw A.needs A.answers }
{}
