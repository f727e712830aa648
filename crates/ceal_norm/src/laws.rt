// The laws of units, each the contract of a function that does nothing.

ghost use Rattle.ceal_norm.specs.Laws.{ClosedLaw, ForwardLaw, RunLaw, ValidLaw};

/// A jump leads to a block that is there.
pub fn closed_law()
    ensures law { ClosedLaw }
{}

/// A jump that leads to no entry leads forwards: so the paths inside a unit end.
pub fn forward_law()
    ensures law { ForwardLaw }
{}

/// The code of a program that is well typed and keeps the rules of usage is valid: so nothing in it is out of range,
/// and no run of it is stuck.
pub fn valid_law()
    ensures law { ValidLaw }
{}

/// It runs as the graph does, of which it is the code.
pub fn run_law()
    ensures law { RunLaw }
{}
