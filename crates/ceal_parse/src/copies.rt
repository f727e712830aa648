// Copies of tokens, each equal to what it copies.

ghost use Rattle.std.specs.Prelude.{◌≡◌, IfOk};

use ceal_base::items::Items;
use ceal_base::no_memory::NoMemory;
use ceal_lex::token::{Token, TokenKind, Tokens};
use std::alloc::Global;

fn copied_kind(kind: &TokenKind) -> Result<TokenKind, NoMemory>
    ensures equal { IfOk result (λ copy. copy ≡ kind.now) }
{
    match kind {
        TokenKind::Name(name) => {
            let name = name.copy()?;
            Ok(TokenKind::Name(name))
        }
        TokenKind::Number(number) => Ok(TokenKind::Number(*number)),
        TokenKind::Reserved(word) => Ok(TokenKind::Reserved(*word)),
        TokenKind::Sign(sign) => Ok(TokenKind::Sign(*sign)),
        TokenKind::End => Ok(TokenKind::End),
        TokenKind::Cut => Ok(TokenKind::Cut),
    }
}

/// Equal tokens.
pub fn copied_tokens(alloc: Global, tokens: &[Token]) -> Result<Tokens, NoMemory>
    ensures equal { IfOk result (λ copy. copy ≡ tokens.now) }
{
    let mut copies = Vec::with_capacity(alloc, tokens.len())?;
    for token in tokens {
        let kind = copied_kind(&token.kind)?;
        copies.push(Token {
            kind,
            span: token.span,
        })?;
    }
    Ok(Items::new(copies))
}
