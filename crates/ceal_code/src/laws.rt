// Laws of trace code, each the contract of a function that does nothing.

ghost use Rattle.ceal_code.specs.After.{StoreLaw, InputsLaw as Inputs_after_law};
ghost use Rattle.ceal_code.specs.Laws.{StepLaw, BlockLaw, OverLaw, AlikeLaw, TraceLaw, PathLaw, ProgressLaw, EndedLaw};
ghost use Rattle.ceal_code.specs.Laws.{StateLaw, InputsLaw};

/// A step of trace code depends on the plain words of the blocks that its stack can reach, and on nothing else
/// (our own).
pub fn step_law()
    ensures law { StepLaw }
{}

/// What a new block holds depends on the plain words of the blocks that its key can reach, and on nothing else
/// (our own).
pub fn block_law()
    ensures law { BlockLaw }
{}

/// A stack over another one takes its own steps, and then those of the other (our own).
pub fn over_law()
    ensures law { OverLaw }
{}

/// A step, and what a new block holds, do not depend on the numbers of core blocks (our own).
pub fn alike_law()
    ensures law { AlikeLaw }
{}

/// A trace that replays a call and is honest determines the steps, the blocks and the memory of the call's run from
/// scratch (our own).
pub fn trace_law()
    ensures law { TraceLaw }
{}

/// Each command of a unit of valid code lies on a path from the unit's first command, and is right for the variables
/// that have a word on that path (our own).
pub fn path_law()
    ensures law { PathLaw }
{}

/// Valid code is never stuck: in each state of a run from fitting arguments and inputs the memory fits, all that the
/// commands of its units name is there, and there is a next state or the run is at its end (our own).
pub fn progress_law()
    ensures law { ProgressLaw }
{}

/// An honest walk over the items of a trace ends at the store that the items lead to, and the input blocks after a
/// trace that replays a call are those of the memory after it (our own).
pub fn after_law()
    ensures store { StoreLaw }
    ensures inputs { Inputs_after_law }
{}

/// After any number of steps a run from scratch is at a state that they reach; it ends at one that no step follows.
pub fn ended_law()
    ensures law { EndedLaw }
    ensures states { StateLaw }
{}

/// A run makes no input.
pub fn inputs_law()
    ensures law { InputsLaw }
{}
