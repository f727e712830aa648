// The laws of folding, each the contract of a function that does nothing.

ghost use Rattle.ceal_fold.specs.Laws.{RunLaw, ValidLaw};

/// The folding of valid code is valid.
pub fn valid_law()
    ensures law { ValidLaw }
{}

/// Every run of it ends with the same memory as that of the code, in as many steps and with as many blocks, or is as
/// long.
pub fn run_law()
    ensures law { RunLaw }
{}
