// Names, places, values and types, each of which is one word.

ghost use Rattle.std.specs.Prelude.{◌≡◌, ◌==◌, Decides, bytes_eq, position};
ghost use Rattle.std.specs.List.{list_all, AllZip};
ghost use Rattle.ceal_script.specs.Answers.{Reads};
ghost use Rattle.ceal_script.specs.Characters as characters;
ghost use Rattle.ceal_script.specs.Spelling as spelling;
ghost use Rattle.ceal_script.specs.Spelling.{DOT, OPENING_BRACKET, IsElement, IsField, IsIdentifier, IsName};
ghost use Rattle.ceal_script.specs.Spelling.{SpellsKind, SpellsPlace, SpellsValue, IsTextOf};
ghost use Rattle.ceal_script.specs.Words.{texts};

use crate::bytes::{is_letter, is_name_byte};
use crate::command::{KindWord, PlaceWord, ValueWord, ValueWords};
use crate::line_error::LineError;
use crate::number::{is_index, number};
use ceal_base::items::Items;
use ceal_base::text::Text;
use std::alloc::Global;

/// Whether a word is this one.
fn is(word: &[u8], text: &str) -> bool
    ensures { result ≡ bytes_eq word.now text.now }
{
    word == text.as_bytes()
}

fn are_name_bytes(bytes: &[u8]) -> bool
    ensures { result ≡ list_all characters.is_name_byte bytes.now }
{
    bytes.iter().all(|byte| is_name_byte(*byte))
}

fn is_identifier(word: &[u8]) -> bool
    ensures { result ≡ spelling.is_identifier word.now }
{
    match word {
        [first, rest @ ..] => is_letter(*first) && are_name_bytes(rest),
        [] => false,
    }
}

/// Whether a word is a name of an input: an identifier that is not `null`.
pub fn is_name(word: &[u8]) -> bool
    ensures { result ≡ spelling.is_name word.now }
{
    is_identifier(word) && !is(word, "null")
}

/// The name of a struct or a function.
pub fn identifier(alloc: Global, word: &[u8]) -> Result<Text, LineError>
    ensures { Reads result (IsTextOf IsIdentifier word.now) }
{
    if !is_identifier(word) {
        return Err(LineError::Unreadable);
    }
    let text = Text::from_slice(alloc, word)?;
    Ok(text)
}

/// The name of an input.
pub fn name(alloc: Global, word: &[u8]) -> Result<Text, LineError>
    ensures { Reads result (IsTextOf IsName word.now) }
{
    if !is_name(word) {
        return Err(LineError::Unreadable);
    }
    let text = Text::from_slice(alloc, word)?;
    Ok(text)
}

/// The place of the first `[`.
fn opening_bracket(word: &[u8]) -> Option<usize>
    ensures { result ≡ position (λ b. b == OPENING_BRACKET) word.now }
{
    word.iter().position(|byte| *byte == b'[')
}

/// Whether a word is a row's name with the number of an element in brackets.
fn is_element(word: &[u8]) -> bool
    ensures { Decides result (IsElement word.now) }
{
    let Some(at) = opening_bracket(word) else {
        return false;
    };
    match word[at + 1..].strip_suffix(b"]") {
        Some(index) => is_identifier(&word[..at]) && is_index(index),
        None => false,
    }
}

fn is_field(word: &[u8]) -> bool
    ensures { Decides result (IsField word.now) }
{
    is_identifier(word) || is_element(word)
}

/// The name of a field, or that of an element of a row.
fn field(alloc: Global, word: &[u8]) -> Result<Text, LineError>
    ensures { Reads result (IsTextOf IsField word.now) }
{
    if !is_field(word) {
        return Err(LineError::Unreadable);
    }
    let text = Text::from_slice(alloc, word)?;
    Ok(text)
}

/// What a modifiable holds.
pub fn kind(alloc: Global, word: &[u8]) -> Result<KindWord, LineError>
    ensures { Reads result (SpellsKind word.now) }
{
    if is(word, "int") {
        return Ok(KindWord::Int);
    }
    let name = identifier(alloc, word)?;
    Ok(KindWord::Named(name))
}

/// The place of the first dot.
fn dot(word: &[u8]) -> Option<usize>
    ensures { result ≡ position (λ b. b == DOT) word.now }
{
    word.iter().position(|byte| *byte == b'.')
}

/// A name, or a name and a field.
pub fn place(alloc: Global, word: &[u8]) -> Result<PlaceWord, LineError>
    ensures { Reads result (SpellsPlace word.now) }
{
    match dot(word) {
        None => {
            let name = name(alloc, word)?;
            Ok(PlaceWord { name, field: None })
        }
        Some(at) => {
            let name = name(alloc, &word[..at])?;
            let field = field(alloc, &word[at + 1..])?;
            Ok(PlaceWord {
                name,
                field: Some(field),
            })
        }
    }
}

/// A number, `null` or a place.
pub fn value(alloc: Global, word: &[u8]) -> Result<ValueWord, LineError>
    ensures { Reads result (SpellsValue word.now) }
{
    if is(word, "null") {
        return Ok(ValueWord::Null);
    }
    match number(word) {
        Some(number) => Ok(ValueWord::Num(number)),
        None => {
            let place = place(alloc, word)?;
            Ok(ValueWord::At(place))
        }
    }
}

/// The values that words are.
pub fn values(alloc: Global, words: &[&[u8]]) -> Result<ValueWords, LineError>
    ensures { Reads result (AllZip SpellsValue (texts words.now)) }
{
    let mut values = Items::empty(alloc);
    for word in words {
        let value = value(alloc, word)?;
        values.push(value)?;
    }
    Ok(values)
}
