// The laws of graphs, each the contract of a function that does nothing.

ghost use Rattle.ceal_flow.specs.Laws.{ActLaw, KeptLaw, OneLaw, RunLaw, SomeLaw};

/// A block is left out exactly when no path leads to it from the first block of a function.
pub fn kept_law()
    ensures law { KeptLaw }
{}

/// The statement of a block is no `if`, no `while` and no jump: no `return`, `break` or `continue`.
pub fn act_law()
    ensures law { ActLaw }
{}

/// The graph of a program that keeps the rules of usage runs as the program does.
pub fn run_law()
    ensures law { RunLaw }
{}

/// There is one list of the live variables of a graph's blocks.
pub fn one_law()
    ensures law { OneLaw }
{}

/// There is one for each graph.
pub fn some_law()
    ensures law { SomeLaw }
{}
