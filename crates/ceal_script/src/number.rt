// Numbers of the range of an `int`.

ghost use Rattle.std.specs.Prelude.{◌≡◌, ◌<◌, ◌≤◌, ◌^◌, pos, neg_ℤ, Decides, MatchOption};
ghost use Rattle.std.specs.List.{list_all};
ghost use Rattle.ceal_base.specs.Digits as decimal;
ghost use Rattle.ceal_base.specs.Digits.{number_of};
ghost use Rattle.ceal_script.specs.Answers.{Finds};
ghost use Rattle.ceal_script.specs.Spelling as spelling;
ghost use Rattle.ceal_script.specs.Spelling.{IsIndex, SpellsPositive, SpellsNegative, SpellsNumber, SpellsReads};

use ceal_base::digits;
use ceal_base::digits::is_digit;

/// The largest distance of a number from 0.
const LARGEST: u64 = 1 << 63;

/// How many elements a row has at most.
const LONGEST_ROW: u64 = 255;

/// How many reads a part of a repair re-executes at most.
const MOST_READS: u64 = 1_000_000;

fn all_digits(bytes: &[u8]) -> bool
    ensures { result ≡ list_all decimal.is_digit bytes.now }
{
    bytes.iter().all(|byte| is_digit(*byte))
}

/// Whether the bytes are digits, at least one.
fn are_digits(bytes: &[u8]) -> bool
    ensures { result ≡ spelling.are_digits bytes.now }
{
    match bytes {
        [first, rest @ ..] => is_digit(*first) && all_digits(rest),
        [] => false,
    }
}

/// Whether a row may have an element of the number that digits spell.
fn fits_row(digits: &[u8]) -> bool
    ensures { Decides result (number_of digits.now < 255) }
{
    digits::number(digits, LONGEST_ROW - 1).is_some()
}

/// Whether a word is the number of an element of a row, without a zero in front.
pub fn is_index(word: &[u8]) -> bool
    ensures { Decides result (IsIndex word.now) }
{
    match word {
        [b'0', _, ..] => false,
        _ => are_digits(word) && fits_row(word),
    }
}

/// The number of reads that a word spells: one to seven digits, of a number from 1 to 1,000,000.
pub fn reads(word: &[u8]) -> Option<u32>
    ensures { Finds result (SpellsReads word.now) }
{
    if word.len() > 7 || !are_digits(word) {
        return None;
    }
    let value = digits::number(word, MOST_READS)?;
    if value == 0 {
        return None;
    }
    Some(value as u32)
}

/// The number of digits.
fn positive(word: &[u8]) -> Option<i64>
    ensures { Finds result (SpellsPositive word.now) }
{
    if !are_digits(word) {
        return None;
    }
    let value = digits::number(word, LARGEST - 1)?;
    Some(value as i64)
}

/// The number of digits after a `-`.
fn negative(digits: &[u8]) -> Option<i64>
    ensures { Finds result (SpellsNegative digits.now) }
{
    if !are_digits(digits) {
        return None;
    }
    let value = digits::number(digits, LARGEST)?;
    Some(opposite(value))
}

fn opposite(value: u64) -> i64
    requires { value ≤ 2 ^ 63 }
    ensures { result ≡ neg_ℤ (pos value) }
{
    if value == 0 {
        return 0;
    }
    -1 - (value - 1) as i64
}

/// The number that a word spells, if it spells one.
pub fn number(word: &[u8]) -> Option<i64>
    ensures { Finds result (SpellsNumber word.now) }
{
    match word {
        [b'-', digits @ ..] => negative(digits),
        _ => positive(word),
    }
}
