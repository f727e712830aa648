// A law of usage, the contract of a function that does nothing.

ghost use Rattle.ceal_usage.specs.Laws.{KeptLaw};

/// A program has no fault of usage exactly when it keeps the rules.
pub fn kept_law()
    ensures law { KeptLaw }
{}
