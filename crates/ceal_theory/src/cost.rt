// The law of the cost of a repair, the contract of a function that does nothing.

ghost use Rattle.ceal_theory.specs.Cost.{CostLaw};

/// The work of a repair is at most the cost of the first traces side by side.
pub fn cost_law()
    ensures law { CostLaw }
{}
