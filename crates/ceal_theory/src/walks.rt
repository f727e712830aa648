// Laws of the walk over items, of counts, and of what is known on the way, each the contract of a function that does
// nothing.

ghost use Rattle.ceal_theory.specs.Counts.{BlocksLaw, CountLaw};
ghost use Rattle.ceal_theory.specs.KeptSteps.{KeptStepsLaw};
ghost use Rattle.ceal_theory.specs.Known.{KnownLaw};
ghost use Rattle.ceal_theory.specs.KnownContent.{KnownContentLaw};
ghost use Rattle.ceal_theory.specs.MoreInputs.{MoreInputsLaw};
ghost use Rattle.ceal_theory.specs.Walk.{ContentLaw, HonestFixLaw, PrefixLaw, StaleLaw, WalkLaw};

/// A trace is honest where its flat reads agree with the walk of the store.
pub fn walk_law()
    ensures law { WalkLaw }
{}

/// The content of one place along items.
pub fn content_law()
    ensures law { ContentLaw }
{}

/// Items agree with the store, or have a first read that does not.
pub fn stale_law()
    ensures law { StaleLaw }
{}

/// An honest stretch is left as it is.
pub fn honest_fix_law()
    ensures law { HonestFixLaw }
{}

/// What is before the first stale read stays.
pub fn prefix_law()
    ensures law { PrefixLaw }
{}

/// A trace has at most as many blocks, writes and reads together as steps.
pub fn count_law()
    ensures law { CountLaw }
{}

/// A repair makes at most as many blocks as it has work.
pub fn blocks_law()
    ensures law { BlocksLaw }
{}

/// Kept and new steps together are those of the new trace.
pub fn kept_steps_law()
    ensures law { KeptStepsLaw }
{}

/// What a machine of repair knows.
pub fn known_law()
    ensures law { KnownLaw }
{}

/// The content of a known place is that of the last write, and else its base.
pub fn known_content_law()
    ensures law { KnownContentLaw }
{}

/// A trace of a call is one on more inputs.
pub fn more_inputs_law()
    ensures law { MoreInputsLaw }
{}
