// The laws of repair, each the contract of a function that does nothing.

ghost use Rattle.ceal_theory.specs.Laws.{EndLaw, FirstLaw, FunctionLaw, RenamedLaw, RenamedRepairLaw, RepairLaw};
ghost use Rattle.ceal_theory.specs.Laws.{UnchangedLaw, UniqueLaw};

/// What a repair gives is a trace of the call on the new inputs: it replays and is honest, its blocks are distinct, and
/// those that the old trace has not have numbers from the next one on. (Change propagation is consistent, as Acar and
/// others proved of it for other languages.)
pub fn repair_law()
    ensures law { RepairLaw }
{}

/// A call has one honest trace on given inputs, up to the numbers of core blocks, and one memory.
pub fn unique_law()
    ensures law { UniqueLaw }
{}

/// A trace whose core blocks are renamed one to one replays, and is honest where the other is.
pub fn renamed_law()
    ensures law { RenamedLaw }
{}

/// The repair of a renamed trace is there exactly when that of the trace is there, and is that one renamed, with the
/// same work.
pub fn renamed_repair_law()
    ensures law { RenamedRepairLaw }
{}

/// A repair is there where the run from scratch ends, with no more work than the run has steps; kept and new steps
/// together are the run's.
pub fn end_law()
    ensures law { EndLaw }
{}

/// A trace that is honest already is left as it is, with no work.
pub fn unchanged_law()
    ensures law { UnchangedLaw }
{}

/// The first trace is that of the run from scratch, in steps, blocks and memory, and is none where the run has no end.
pub fn first_law()
    ensures law { FirstLaw }
{}

/// The repair as a function is the repair by the rules.
pub fn function_law()
    ensures law { FunctionLaw }
{}
