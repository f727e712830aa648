// Decimal digits.

ghost use Rattle.std.specs.Prelude.{◌≡◌, ◌<◌, ◌≤◌, ◌+◌, ◌*◌, MatchOption};
ghost use Rattle.ceal_base.specs.Digits as digits_of;
ghost use Rattle.ceal_base.specs.Digits.{number_of};

/// Whether a byte is a decimal digit.
pub fn is_digit(byte: u8) -> bool
    ensures value { result ≡ digits_of.is_digit byte }
{
    matches!(byte, b'0'..=b'9')
}

/// The number with a digit after it, unless it is larger than this.
fn with_digit(number: u64, digit: u64, most: u64) -> Option<u64>
    ensures { MatchOption result (most < 10 * number + digit)
        (λ n. (n ≡ 10 * number + digit) × (n ≤ most)) }
{
    let next = number.checked_mul(10)?.checked_add(digit)?;
    if most < next {
        return None;
    }
    Some(next)
}

/// The number that decimal digits spell, unless it is larger than this.
pub fn number(digits: &[u8], most: u64) -> Option<u64>
    ensures value { MatchOption result (most < number_of digits.now)
        (λ n. (n ≡ number_of digits.now) × (n ≤ most)) }
{
    let mut number = 0;
    for byte in digits {
        let digit = u64::from(byte.saturating_sub(b'0'));
        number = with_digit(number, digit, most)?;
    }
    Some(number)
}
