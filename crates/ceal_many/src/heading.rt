// What a line says.

ghost use Rattle.std.specs.Prelude.{◌≡◌, MatchOption};
ghost use Rattle.ceal_many.specs.Lines as lines;
ghost use Rattle.ceal_many.specs.Lines.{Unreadable, For};

use ceal_script::{gap_length, is_comment, is_name, word_length};

/// Whether a line says nothing.
pub fn is_blank(line: &[u8]) -> bool
    ensures { result ≡ lines.is_blank line.now }
{
    let text = &line[gap_length(line)..];
    text.is_empty() || is_comment(text)
}

/// What follows the first space or tab, if there is one.
fn after_word(text: &[u8]) -> &[u8]
    ensures { result.now ≡ lines.text_after_word text.now }
{
    let length = word_length(text);
    if length < text.len() {
        &text[length + 1..]
    } else {
        &[]
    }
}

/// A name, and the line after it.
fn named(text: &[u8]) -> Option<(&[u8], &[u8])>
    ensures { MatchOption result (lines.named text.now ≡ Unreadable)
        (λ found. lines.named text.now ≡ For found.0.now found.1.now) }
{
    let name = &text[..word_length(text)];
    if is_name(name) {
        Some((name, after_word(text)))
    } else {
        None
    }
}

/// The name of the session that a line is for, and its line.
pub fn addressed(line: &[u8]) -> Option<(&[u8], &[u8])>
    ensures { MatchOption result (lines.addressed line.now ≡ Unreadable)
        (λ found. lines.addressed line.now ≡ For found.0.now found.1.now) }
{
    match line {
        [b'@', text @ ..] => named(text),
        _ => None,
    }
}
