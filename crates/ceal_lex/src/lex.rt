// The bytes of a source part into tokens.

ghost use Rattle.std.specs.Prelude.{◌≡◌, ◌⊎◌, ◌+◌, ◌<◌, ◌^◌, [], length, List, ℕ, Bool, IfOk, Ok, Err};
ghost use Rattle.ceal_base.specs.declared.fault.Fault.{Fault as FaultRecord};
ghost use Rattle.ceal_lex.specs.declared.token.Token.{Token as TokenRecord};
ghost use Rattle.ceal_base.specs.Answers.{Gives, IfFault};
ghost use Rattle.ceal_lex.specs.Parts.{IsSplit, source_of};
ghost use Rattle.ceal_lex.specs.Reading.{Reads};
ghost use Rattle.ceal_lex.specs.Tokens.{AreTokens, IsEnded, InOrder};
ghost use Rattle.ceal_lex.specs.Faults.{IsFirstFault};

use crate::front::{Front, read_front};
use crate::parts::Split;
use crate::token::{Token, TokenKind, Tokens};
use ceal_base::fault::{Fault, FrontError, Span};
use ceal_base::items::Items;
use ceal_base::no_memory::NoMemory;
use std::alloc::Global;

/// The span of `length` bytes from byte `at` on.
fn span(at: usize, length: usize) -> Span
    requires { at + length < 2 ^ 32 }
    ensures { result ≡ record { from = at; to = at + length } }
{
    Span {
        from: at as u32,
        to: (at + length) as u32,
    }
}

/// The tokens of a source but the last, or its first fault.
fn read(alloc: Global, source: &[u8]) -> Result<Tokens, FrontError>
    requires { length source.now < 2 ^ 32 }
    ensures found { IfOk result (λ tokens. Reads source.now [] tokens) }
    ensures fault { IfFault result (λ fault. IsFirstFault source.now fault) }
{
    let mut tokens = Items::empty(alloc);
    let mut at = 0;
    while at < source.len() {
        match read_front(alloc, &source[at..])? {
            Front::Blank(length) => {
                at += length;
            }
            Front::Found(kind, length) => {
                let span = span(at, length);
                tokens.push(Token { kind, span })?;
                at += length;
            }
            Front::Broken(code, length) => {
                let span = span(at, length);
                return Err(FrontError::Fault(Fault { code, span }));
            }
        }
    }
    Ok(tokens)
}

/// The tokens of a source, or its first fault.
fn read_all(alloc: Global, source: &[u8], marked: bool) -> Result<Tokens, FrontError>
    requires { length source.now < 2 ^ 32 }
    ensures found { IfOk result (λ tokens. AreTokens source.now marked tokens) }
    ensures fault { IfFault result (λ fault. IsFirstFault source.now fault) }
{
    let mut tokens = read(alloc, source)?;
    let kind = if marked {
        TokenKind::End
    } else {
        TokenKind::Cut
    };
    let span = span(source.len(), 0);
    tokens.push(Token { kind, span })?;
    Ok(tokens)
}

/// The tokens of the source part, or the first of the faults S1 and S2 in it. S1 is at a byte that begins no
/// token, or at the `/` of a comment that is not closed in the source part: its span is that byte. S2 is at a
/// number above 9223372036854775807: its span is that of the digits.
pub fn lex(alloc: Global, input: &[u8], part: &Split) -> Result<Tokens, FrontError>
    requires { IsSplit input.now part.now }
    ensures found { IfOk result
        (λ tokens. AreTokens (source_of input.now part.now) part.now.marked tokens) }
    ensures all { (tokens : List TokenRecord)
        → AreTokens (source_of input.now part.now) part.now.marked tokens
        → Gives result (Ok tokens) }
    ensures fault { IfFault result (λ fault. IsFirstFault (source_of input.now part.now) fault) }
    ensures only { (fault : FaultRecord) → IsFirstFault (source_of input.now part.now) fault
        → Gives result (Err fault) }
    ensures ended { IfOk result (λ tokens. IsEnded tokens) }
    ensures order { IfOk result (λ tokens. InOrder 0 part.now.source.to tokens) }
{
    read_all(alloc, &input[..part.source.to as usize], part.marked)
}

/// A source has one list of tokens at most, or one first fault, and not both.
pub fn one_reading()
    ensures list { (source : List ℕ) (marked : Bool) (ts us : List TokenRecord)
        → AreTokens source marked ts → AreTokens source marked us → ts ≡ us }
    ensures fault { (source : List ℕ) (f g : FaultRecord) → IsFirstFault source f
        → IsFirstFault source g → f ≡ g }
    ensures not_both { (source : List ℕ) (marked : Bool) (ts : List TokenRecord) (f : FaultRecord)
        → AreTokens source marked ts → IsFirstFault source f → ⊥ }
{}

/// A source has a list of tokens, or a first fault.
pub fn either()
    ensures law { (source : List ℕ) (marked : Bool)
        → ((ts : List TokenRecord) × AreTokens source marked ts)
        ⊎ ((f : FaultRecord) × IsFirstFault source f) }
{}
