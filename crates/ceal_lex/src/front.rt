// What is at the front of bytes.

ghost use Rattle.std.specs.Prelude.{◌<◌, length, IfOk};
ghost use Rattle.ceal_base.specs.Digits as decimal;
ghost use Rattle.ceal_lex.specs.Characters as class;
ghost use Rattle.ceal_lex.specs.Pieces.{BeginsComment};
ghost use Rattle.ceal_lex.specs.Front.{BeginsWith, is_other, IsFront, IsTaken};

use crate::characters::{digits_length, is_letter, is_space, word_length};
use crate::comments::{comment_length, line_length};
use crate::number::number;
use crate::signs::longest_sign;
use crate::token::TokenKind;
use crate::words::reserved;
use ceal_base::digits::is_digit;
use ceal_base::fault::FaultCode;
use ceal_base::no_memory::NoMemory;
use ceal_base::text::Text;
use std::alloc::Global;

/// What is at the front, and how many bytes it takes: white space or a comment, a token, or a fault.
#[derive(Drop)]
pub enum Front {
    Blank(usize),
    Found(TokenKind, usize),
    Broken(FaultCode, usize),
}

/// What is at the front of bytes that are not empty.
pub fn read_front(alloc: Global, bytes: &[u8]) -> Result<Front, NoMemory>
    requires { 0 < length bytes.now }
    ensures front { IfOk result (λ front. IsFront front bytes.now) }
    ensures taken { IfOk result (λ front. IsTaken front bytes.now) }
{
    let first = bytes[0];
    if is_space(first) {
        Ok(Front::Blank(1))
    } else if is_letter(first) {
        word(alloc, bytes)
    } else if is_digit(first) {
        Ok(digits(bytes))
    } else {
        Ok(comment_or_sign(bytes))
    }
}

/// A reserved word or a name.
fn word(alloc: Global, bytes: &[u8]) -> Result<Front, NoMemory>
    requires { BeginsWith class.is_letter bytes.now }
    ensures { IfOk result (λ front. IsFront front bytes.now) }
{
    let length = word_length(bytes);
    let text = &bytes[..length];
    match reserved(text) {
        Some(word) => Ok(Front::Found(TokenKind::Reserved(word), length)),
        None => {
            let name = Text::from_slice(alloc, text)?;
            Ok(Front::Found(TokenKind::Name(name), length))
        }
    }
}

/// A number.
fn digits(bytes: &[u8]) -> Front
    requires { BeginsWith decimal.is_digit bytes.now }
    ensures { IsFront result bytes.now }
{
    let length = digits_length(bytes);
    match number(&bytes[..length]) {
        Some(value) => Front::Found(TokenKind::Number(value), length),
        None => Front::Broken(FaultCode::S2, length),
    }
}

/// A comment or a sign.
fn comment_or_sign(bytes: &[u8]) -> Front
    requires { BeginsWith is_other bytes.now }
    ensures { IsFront result bytes.now }
{
    match bytes {
        [b'/', b'/', text @ ..] => Front::Blank(2 + line_length(text)),
        [b'/', b'*', text @ ..] => match comment_length(text) {
            Some(inside) => Front::Blank(4 + inside),
            None => Front::Broken(FaultCode::S1, 1),
        },
        _ => sign(bytes),
    }
}

/// A sign.
fn sign(bytes: &[u8]) -> Front
    requires other { BeginsWith is_other bytes.now }
    requires no_comment { BeginsComment bytes.now → ⊥ }
    ensures { IsFront result bytes.now }
{
    match longest_sign(bytes) {
        Some((sign, length)) => Front::Found(TokenKind::Sign(sign), length),
        None => Front::Broken(FaultCode::S1, 1),
    }
}
