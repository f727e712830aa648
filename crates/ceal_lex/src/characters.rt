// Bytes by their class.

ghost use Rattle.std.specs.Prelude.{◌≡◌, not, position};
ghost use Rattle.std.specs.List.{prefix_len};
ghost use Rattle.ceal_base.specs.Digits as digits;
ghost use Rattle.ceal_lex.specs.Characters as characters;

use ceal_base::digits::is_digit;

/// Whether a byte is white space: a space, a tab, a CR or an LF.
pub fn is_space(byte: u8) -> bool
    ensures { result ≡ characters.is_space byte }
{
    matches!(byte, b' ' | b'\t' | b'\r' | b'\n')
}

/// Whether a byte is a letter or `_`.
pub fn is_letter(byte: u8) -> bool
    ensures { result ≡ characters.is_letter byte }
{
    matches!(byte, b'A'..=b'Z' | b'a'..=b'z' | b'_')
}

/// Whether a byte may be in a word after its first.
pub fn is_word_byte(byte: u8) -> bool
    ensures { result ≡ characters.is_word_byte byte }
{
    is_letter(byte) || is_digit(byte)
}

/// The place of the first byte that may not be in a word.
fn word_end(bytes: &[u8]) -> Option<usize>
    ensures { result ≡ position (λ b. not (characters.is_word_byte b)) bytes.now }
{
    bytes.iter().position(|byte| !is_word_byte(*byte))
}

/// The place of the first byte that is no digit.
fn digits_end(bytes: &[u8]) -> Option<usize>
    ensures { result ≡ position (λ b. not (digits.is_digit b)) bytes.now }
{
    bytes.iter().position(|byte| !is_digit(*byte))
}

/// The number of bytes at the front that may be in a word.
pub fn word_length(bytes: &[u8]) -> usize
    ensures { result ≡ prefix_len characters.is_word_byte bytes.now }
{
    word_end(bytes).unwrap_or(bytes.len())
}

/// How many bytes at the front are digits.
pub fn digits_length(bytes: &[u8]) -> usize
    ensures { result ≡ prefix_len digits.is_digit bytes.now }
{
    digits_end(bytes).unwrap_or(bytes.len())
}
