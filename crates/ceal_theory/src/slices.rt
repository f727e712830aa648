// Laws of repairs in slices, each the contract of a function that does nothing.

ghost use Rattle.ceal_theory.specs.Listed.{ListedLaw};
ghost use Rattle.ceal_theory.specs.Progress.{UnrepairedLaw, ProgressLaw, SlicesEndLaw};
ghost use Rattle.ceal_theory.specs.SliceLaws.{StartLaw, OtherNamesLaw, NamedBeginningLaw, BeginLaw, MoreLaw, SliceLaw};
ghost use Rattle.ceal_theory.specs.SliceLaws.{DoneLaw, IsDoneLaw, WholeLaw, StaysLaw, BegunLaw, BegunAdjustedLaw};
ghost use Rattle.ceal_theory.specs.SliceLaws.{SlicesLaw, FollowLaw, SplitLaw, BasesLaw, TurnLaw, ReadyLaw, TurnsLaw};
ghost use Rattle.ceal_theory.specs.SliceLaws.{TurnsOverLaw, RenamedSliceLaw, RenamedSoundLaw, HistoryLaw};

/// A repair that begins from a trace of the call holds.
pub fn begin_law()
    ensures law { BeginLaw }
{}

/// A repair holds on inputs that extend its own, whatever their bases.
pub fn more_law()
    ensures law { MoreLaw }
{}

/// The result of a slice holds again, with new blocks of new names, and what was revoked stays so.
pub fn slice_law()
    ensures law { SliceLaw }
{}

/// A repair whose items are honest has a trace of the call, which determines the run from scratch.
pub fn done_law()
    ensures law { DoneLaw }
{}

/// Whether a repair is done, as a function.
pub fn is_done_law()
    ensures law { IsDoneLaw }
{}

/// Without a number of reads a slice is done.
pub fn whole_law()
    ensures law { WholeLaw }
{}

/// A slice of what is done leaves it.
pub fn stays_law()
    ensures law { StaysLaw }
{}

/// From the beginning and without a number of reads a slice is the repair of the trace, with any names.
pub fn begun_law()
    ensures law { BegunLaw }
{}

/// And so it is as a function, with the numbers from one above the blocks on.
pub fn begun_adjusted_law()
    ensures law { BegunAdjustedLaw }
{}

/// Slices as a function are slices by the rules.
pub fn slices_law()
    ensures law { SlicesLaw }
{}

/// Two slices on the same inputs are one.
pub fn follow_law()
    ensures law { FollowLaw }
{}

/// A slice is its first part and then a further slice.
pub fn split_law()
    ensures law { SplitLaw }
{}

/// The reads from the first stale one on are reads of the trace, and there are none exactly when it is honest.
pub fn unrepaired_law()
    ensures law { UnrepairedLaw }
{}

/// A slice of k reads that does not end the repair leaves fewer reads from the first stale one on, by k at least.
pub fn progress_law()
    ensures law { ProgressLaw }
{}

/// So slices of k reads end the repair: n of them that do not have n times k of those reads at most.
pub fn slices_end_law()
    ensures law { SlicesEndLaw }
{}

/// The defaults of known blocks before their allocation do not matter.
pub fn bases_law()
    ensures law { BasesLaw }
{}

/// One turn: the first stale read is re-executed by itself, and all else stays.
pub fn turn_law()
    ensures law { TurnLaw }
{}

/// What is known at the first stale read.
pub fn ready_law()
    ensures law { ReadyLaw }
{}

/// Turns one after another, each a slice of one read, are a slice.
pub fn turns_law()
    ensures law { TurnsLaw }
{}

/// Where the items after some turns have no slice within n steps, the items before them have none either.
pub fn turns_over_law()
    ensures law { TurnsOverLaw }
{}

/// A slice of a renamed repair is the slice renamed, each with its own names for new blocks.
pub fn renamed_slice_law()
    ensures law { RenamedSliceLaw }
{}

/// A repair that stands for one that holds, holds.
pub fn renamed_sound_law()
    ensures law { RenamedSoundLaw }
{}

/// After any edits and slices the repair holds, and whenever its items are honest they are a trace of the call.
pub fn history_law()
    ensures law { HistoryLaw }
{}

/// What begins from one trace with two ways to name new blocks is one, each block for itself.
pub fn named_beginning_law()
    ensures law { NamedBeginningLaw }
{}

/// At places of known blocks the store after an honest front is the last write in it, or else the base.
pub fn listed_law()
    ensures law { ListedLaw }
{}

/// A repair holds with other names, where no known block has one that is still to come.
pub fn other_names_law()
    ensures law { OtherNamesLaw }
{}

/// The store in which a slice begins says whether the items are honest, as the bases do.
pub fn start_law()
    ensures law { StartLaw }
{}
