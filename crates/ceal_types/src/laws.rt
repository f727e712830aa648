// Laws of names and types, each the contract of a function that does nothing.

ghost use Rattle.ceal_types.specs.Laws.{TypedLaw, ResolvedLaw, CompleteLaw, FirstFaultLaw, NoFaultLaw};

/// The program of a tree is well typed, where the tree's lists of fields and of parameters are short.
pub fn typed_law()
    ensures law { TypedLaw }
{}

/// In the program of a tree each name has the number of what it stands for.
pub fn resolved_law()
    ensures law { ResolvedLaw }
{}

/// Nothing well typed is refused: a well typed program with which a tree agrees is the program of the tree.
pub fn complete_law()
    ensures law { CompleteLaw }
{}

/// The fault that is answered is the first of all faults of the tree, in the order of the rules of names and types.
pub fn first_fault_law()
    ensures law { FirstFaultLaw }
{}

/// A tree has a program exactly when it has no faults.
pub fn no_fault_law()
    ensures law { NoFaultLaw }
{}
