// What a token is, and which operator a sign is.

ghost use Rattle.std.specs.Prelude.{◌≡◌, ◌<◌, ◌^◌, IfSome};
ghost use Rattle.ceal_grammar.specs.Machine.{same_sign as same_signs, same_word as same_words, is_sign as is_sign_kind};
ghost use Rattle.ceal_grammar.specs.Machine.{is_word as is_word_kind, operator_of, length_of, ident_of};

use ceal_base::operators::Binary;
use ceal_base::syntax::Ident;
use ceal_lex::token::{Reserved, Sign, Token, TokenKind};
use std::mem;

/// Whether two signs are one.
pub fn same_sign(a: Sign, b: Sign) -> bool
    ensures value { result ≡ same_signs a b }
{
    a == b
}

/// Whether two reserved words are one.
pub fn same_word(a: Reserved, b: Reserved) -> bool
    ensures value { result ≡ same_words a b }
{
    a == b
}

/// Whether a token is this sign.
pub fn is_sign(token: &Token, sign: Sign) -> bool
    ensures value { result ≡ is_sign_kind sign token.now.kind }
{
    match token.kind {
        TokenKind::Sign(found) => same_sign(found, sign),
        _ => false,
    }
}

/// Whether a token is this reserved word.
pub fn is_word(token: &Token, word: Reserved) -> bool
    ensures value { result ≡ is_word_kind word token.now.kind }
{
    match token.kind {
        TokenKind::Reserved(found) => same_word(found, word),
        _ => false,
    }
}

/// The operator on two operands that the sign is.
pub fn operator(sign: Sign) -> Option<Binary>
    ensures value { result ≡ operator_of sign }
{
    match sign {
        Sign::Plus => Some(Binary::Add),
        Sign::Minus => Some(Binary::Sub),
        Sign::Star => Some(Binary::Mul),
        Sign::Slash => Some(Binary::Div),
        Sign::Percent => Some(Binary::Rem),
        Sign::Less => Some(Binary::Less),
        Sign::LessEquals => Some(Binary::LessEq),
        Sign::Greater => Some(Binary::More),
        Sign::GreaterEquals => Some(Binary::MoreEq),
        Sign::EqualsEquals => Some(Binary::Same),
        Sign::BangEquals => Some(Binary::Differ),
        Sign::AndAnd => Some(Binary::And),
        Sign::BarBar => Some(Binary::Or),
        _ => None,
    }
}

/// The length of a row that the token is: a number above 0.
pub fn length(token: &Token) -> Option<u64>
    ensures value { result ≡ length_of token.now.kind }
    ensures small { IfSome result (λ n. n < 2 ^ 63) }
{
    match token.kind {
        TokenKind::Number(value) if value > 0 => Some(value as u64),
        _ => None,
    }
}

/// The name that the token is, with the text, which is taken out of the token.
pub fn name(token: &mut Token) -> Option<Ident>
    ensures value { result ≡ ident_of token.old.span token.old.kind }
{
    let span = token.span;
    match mem::replace(&mut token.kind, TokenKind::Cut) {
        TokenKind::Name(text) => Some(Ident { text, span }),
        other => {
            drop(other);
            None
        }
    }
}
