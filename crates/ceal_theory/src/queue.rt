// Laws of the queue of an unfinished repair, each the contract of a function that does nothing.

ghost use Rattle.ceal_theory.specs.Cover.{NodeChangesLaw, FirstQueuedLaw, PopLaw, FrontLaw, ChangeLaw, CoverLaw};
ghost use Rattle.ceal_theory.specs.Cover.{ReplaceLaw};
ghost use Rattle.ceal_theory.specs.SliceLaws.{KeepLaw};

/// The first queued read, if it is stale, is the first stale one; where nothing is queued all is honest.
pub fn first_queued_law()
    ensures law { FirstQueuedLaw }
{}

/// A queued read that is honest hands on to the next one of its place.
pub fn pop_law()
    ensures law { PopLaw }
{}

/// Honest nodes may be in front of covered ones.
pub fn front_law()
    ensures law { FrontLaw }
{}

/// A change at one place keeps the cover, where the first read of the place after it is queued.
pub fn change_law()
    ensures law { ChangeLaw }
{}

/// The store and who waits may change at any places whose first read is queued.
pub fn cover_law()
    ensures law { CoverLaw }
{}

/// New honest nodes in place of old ones keep the cover, where what is after them is told.
pub fn replace_law()
    ensures law { ReplaceLaw }
{}

/// A turn keeps the cover, from the start of the old repair to that of the new one.
pub fn keep_law()
    ensures law { KeepLaw }
{}

/// What an engine does to its nodes keeps the cover.
pub fn node_changes_law()
    ensures law { NodeChangesLaw }
{}
