// The laws of what is said, each the contract of a function that does nothing but call the laws on which it rests.

ghost use Rattle.ceal_serve.specs.Laws.{BeginningLaw, OneSaidLaw, PlacedLaw, ServedLaw, TurnedAwayLaw};

/// What is said for a text is what `ceal run` writes for it: the replies to its script, or the line of its first fault.
pub fn as_run()
    ensures served { ServedLaw }
    ensures refused { TurnedAwayLaw }
    ensures placed { PlacedLaw }
{
    ceal_lex::split::one_split();
    ceal_types::laws::first_fault_law();
    ceal_types::laws::resolved_law();
}

/// A text has one text at most that is said for it, and what was said so far begins it, however the text continues: it
/// depends neither on the pieces in which the text came nor on what hashes begin with.
pub fn one_said()
    ensures one { OneSaidLaw }
    ensures beginning { BeginningLaw }
{
    as_run();
    ceal_cli::laws::one_output();
}
