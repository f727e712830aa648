// A law of numbers, the contract of a function that does nothing.

ghost use Rattle.ceal_script.specs.Laws.{DigitsLaw};

/// What digits spell in a script is what the library's `parse` reads in them.
pub fn digits_law()
    ensures law { DigitsLaw }
{}
