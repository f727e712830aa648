// The value of decimal digits.

ghost use Rattle.std.specs.Prelude.{◌≡◌, ◌<◌, ◌≤◌, pos, MatchOption};
ghost use Rattle.ceal_base.specs.Digits.{number_of};
ghost use Rattle.ceal_lex.specs.Spelling.{LARGEST};

use ceal_base::digits;

/// The number that decimal digits spell, unless it is too large for an `i64`.
pub fn number(digits: &[u8]) -> Option<i64>
    ensures { MatchOption result (LARGEST < number_of digits.now)
        (λ n. (n ≡ pos (number_of digits.now)) × (number_of digits.now ≤ LARGEST)) }
{
    let number = digits::number(digits, i64::MAX as u64)?;
    Some(number as i64)
}
