// Laws of saves, each the contract of a function that does nothing.

ghost use Rattle.ceal_snap.specs.Answers.{OneSaveLaw, SaveOrNoneLaw, ReadBackLaw};
ghost use Rattle.ceal_snap.specs.Marks.{NoMarkLaw};

/// A law: bytes are one save at most.
pub fn one_save_law()
    ensures law { OneSaveLaw }
{}

/// A law: bytes are a save, or none.
pub fn save_or_none()
    ensures law { SaveOrNoneLaw }
{}

/// A law: what is written of a save is read as that save. `save_text` writes it (`save`), and of a save `read_save`
/// gives it, if there is memory.
pub fn read_back_law()
    ensures law { ReadBackLaw }
{}

/// A law: no byte of a save is a percent sign, so that no line of it is a mark `%%`.
pub fn no_mark_law()
    ensures law { NoMarkLaw }
{}
