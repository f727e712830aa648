// Laws of the verdicts, each the contract of a function that does nothing.

ghost use Rattle.ceal_traceck.specs.Laws.{SoundLaw, OneVerdictLaw, SomeVerdictLaw};

/// A yes says that the run from scratch of the recorded call is there, with the steps that the items have, and that the
/// recorded memory is its memory, up to the numbers of core blocks. Nothing is asked of who made the record.
pub fn sound_law()
    ensures law { SoundLaw }
{}

/// Of a record one verdict is right at most, so that each comes exactly when it is the first thing that is wrong.
pub fn one_verdict_law()
    ensures law { OneVerdictLaw }
{}

/// Of each record one verdict is right.
pub fn some_verdict_law()
    ensures law { SomeVerdictLaw }
{}
