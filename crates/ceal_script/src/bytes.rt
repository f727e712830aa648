// Bytes by their class.

ghost use Rattle.std.specs.Prelude.{◌≡◌};
ghost use Rattle.ceal_script.specs.Characters as characters;

use ceal_base::digits::is_digit;

/// Whether a byte is a space or a tab.
pub fn is_gap(byte: u8) -> bool
    ensures { result ≡ characters.is_gap byte }
{
    matches!(byte, b' ' | b'\t')
}

/// Whether a byte is a letter or `_`.
pub fn is_letter(byte: u8) -> bool
    ensures { result ≡ characters.is_letter byte }
{
    matches!(byte, b'A'..=b'Z' | b'a'..=b'z' | b'_')
}

/// Whether a byte may be in a name after its first.
pub fn is_name_byte(byte: u8) -> bool
    ensures { result ≡ characters.is_name_byte byte }
{
    is_letter(byte) || is_digit(byte)
}
