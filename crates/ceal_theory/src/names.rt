// Laws of the numbers that new blocks get, each the contract of a function that does nothing.

ghost use Rattle.ceal_theory.specs.Chosen.{ChosenLaw};
ghost use Rattle.ceal_theory.specs.Named.{HandedLaw, NamedFirstLaw, NamedLaw, RenamingLaw};
ghost use Rattle.ceal_theory.specs.Segments.{RenamedItemsLaw};

/// The repair where the new blocks have given numbers is the repair with these in place of its numbers.
pub fn named_law()
    ensures law { NamedLaw }
{}

/// The first trace where the blocks have given numbers is the first trace with these in place of its numbers.
pub fn named_first_law()
    ensures law { NamedFirstLaw }
{}

/// Numbers that a heap has handed out so far are the first names of a repair.
pub fn handed_law()
    ensures law { HandedLaw }
{}

/// A repair, one move at a time, where the numbers of new blocks are chosen as it goes.
pub fn chosen_law()
    ensures law { ChosenLaw }
{}

/// A trace renamed by a function.
pub fn renaming_law()
    ensures law { RenamingLaw }
{}

/// To rename flat items is to rename their trace.
pub fn renamed_items_law()
    ensures law { RenamedItemsLaw }
{}
