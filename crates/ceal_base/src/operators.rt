// The operators of the language, which are total. Numbers have 64 bits and wrap, as C's unsigned arithmetic does.

ghost use Rattle.std.specs.Prelude.{◌≡◌};
ghost use Rattle.ceal_base.specs.Operators.{number_of, truth, unary_value, binary_value, element, picked_element};

use crate::word::{Place, Word};

/// An operator on one word. Both take a word that is no number as 0.
#[derive(Clone, Copy, PartialEq, Eq, Debug)]
pub enum Unary {
    /// `-`
    Neg,
    /// `!`
    Not,
}

/// An operator on two words. Every one but `Same`, `Differ` and `Pick` takes a word that is no number as 0.
#[derive(Clone, Copy, PartialEq, Eq, Debug)]
pub enum Binary {
    Add,
    Sub,
    Mul,
    /// truncates towards zero; `x / 0` is 0
    Div,
    /// has the dividend's sign; `x % 0` is `x`
    Rem,
    Less,
    LessEq,
    More,
    MoreEq,
    /// `==`
    Same,
    /// `!=`
    Differ,
    And,
    Or,
    /// the element of a row of this many modifiables, by the place of its first one and an index; null for an index
    /// below 0 or past the row
    Pick(u32),
}

/// The number in a word, and 0 of any other word.
pub fn number(word: Word) -> i64
    ensures value { result ≡ number_of word }
{
    match word {
        Word::Num(n) => n,
        _ => 0,
    }
}

fn truth_word(holds: bool) -> Word
    ensures value { result ≡ truth holds }
{
    if holds { Word::Num(1) } else { Word::Num(0) }
}

/// The value of an operator with one operand.
pub fn apply_unary(op: Unary, a: Word) -> Word
    ensures value { result ≡ unary_value op a }
{
    match op {
        Unary::Neg => Word::Num(number(a).wrapping_neg()),
        Unary::Not => truth_word(number(a) == 0),
    }
}

/// The place of a row's element: `index` modifiables after the first one.
fn row_element(row: u32, first: Place, index: i64) -> Word
    ensures value { result ≡ element row first index }
{
    if index < 0 || index >= row as i64 {
        return Word::Null;
    }
    match first.field.checked_add(index as u32) {
        Some(field) => Word::At(Place {
            block: first.block,
            field,
        }),
        None => Word::Null,
    }
}

fn picked_word(row: u32, first: Word, index: Word) -> Word
    ensures value { result ≡ picked_element row first index }
{
    match (first, index) {
        (Word::At(first), Word::Num(index)) => row_element(row, first, index),
        _ => Word::Null,
    }
}

/// The value of an operator with two operands. Numbers wrap at 64 bits.
pub fn apply_binary(op: Binary, a: Word, b: Word) -> Word
    ensures value { result ≡ binary_value op a b }
{
    let x = number(a);
    let y = number(b);
    match op {
        Binary::Add => Word::Num(x.wrapping_add(y)),
        Binary::Sub => Word::Num(x.wrapping_sub(y)),
        Binary::Mul => Word::Num(x.wrapping_mul(y)),
        Binary::Div => Word::Num(if y == 0 { 0 } else { x.wrapping_div(y) }),
        Binary::Rem => Word::Num(if y == 0 { x } else { x.wrapping_rem(y) }),
        Binary::Less => truth_word(x < y),
        Binary::LessEq => truth_word(x <= y),
        Binary::More => truth_word(x > y),
        Binary::MoreEq => truth_word(x >= y),
        Binary::Same => truth_word(a == b),
        Binary::Differ => truth_word(a != b),
        Binary::And => truth_word(x != 0 && y != 0),
        Binary::Or => truth_word(x != 0 || y != 0),
        Binary::Pick(row) => picked_word(row, a, b),
    }
}
