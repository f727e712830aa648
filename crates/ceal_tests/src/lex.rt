// Where worked inputs are split, and which tokens they have.

ghost use Rattle.std.specs.Prelude.{◌<◌, ◌^◌, length};

use crate::asserts::{equal, holds};
use ceal_base::fault::Span;
use ceal_base::text::Text;
use ceal_lex::lex::lex;
use ceal_lex::split::split;
use ceal_lex::token::{Reserved, Sign, Token, TokenKind, Tokens};
use std::alloc::Global;
use std::process::Abort;

/// The source of an input is so long, and where there is a mark, the script begins here.
fn splits<R: Abort>(rt: &R, input: &[u8], source: u32, script: Option<u32>)
    requires { length input.now < 2 ^ 32 }
{
    let part = split(input);
    let end = input.len() as u32;
    let wanted = Span {
        from: 0,
        to: source,
    };
    equal(rt, part.source, wanted);
    equal(rt, part.marked, script.is_some());
    let from = script.unwrap_or(end);
    equal(rt, part.script, Span { from, to: end });
}

fn splits_at_a_mark<R: Abort>(rt: &R) {
    splits(rt, b"%%", 0, Some(2));
    splits(rt, b"%%\n", 0, Some(3));
    splits(rt, b"%%\r", 0, Some(3));
    splits(rt, b"%%\r\n", 0, Some(4));
    splits(rt, b"a\n%%\r\nb\n%%\n", 2, Some(6));
    splits(rt, b"/*\n%%\n*/\n%%", 3, Some(6));
}

fn finds_no_mark<R: Abort>(rt: &R) {
    splits(rt, b"", 0, None);
    splits(rt, b"a\r%%\n", 5, None);
    splits(rt, b"a%%\n", 4, None);
    splits(rt, b" %%\n", 4, None);
    splits(rt, b"%%%\n", 4, None);
    splits(rt, b"%% \n", 4, None);
    splits(rt, b"%%\r\r\n", 5, None);
    splits(rt, b"%\n%", 3, None);
}

#[test]
fn splits_at_the_first_mark(rt: HostRuntime) {
    splits_at_a_mark(&rt);
    finds_no_mark(&rt);
}

/// The tokens of an input.
fn tokens_of<R: Abort>(rt: &R, alloc: Global, input: &[u8]) -> Tokens
    requires { length input.now < 2 ^ 32 }
{
    lex(alloc, input, &split(input)).expect(rt, "tokens")
}

/// There is such a token, and it is of this kind.
fn has_kind<R: Abort>(rt: &R, token: Option<&Token>, kind: TokenKind) {
    let same = match token {
        Some(token) => token.kind == kind,
        None => false,
    };
    drop(kind);
    holds(rt, same);
}

const SIGNS_AND_WORDS: &[u8] =
    b"->&&||==!=<=>=<>+-*/ %!&=(){},; struct int mod ceal init self read write alloc modref if else while return null break continue";

const SIGNS: [Sign; 23] = [
    Sign::Arrow,
    Sign::AndAnd,
    Sign::BarBar,
    Sign::EqualsEquals,
    Sign::BangEquals,
    Sign::LessEquals,
    Sign::GreaterEquals,
    Sign::Less,
    Sign::Greater,
    Sign::Plus,
    Sign::Minus,
    Sign::Star,
    Sign::Slash,
    Sign::Percent,
    Sign::Bang,
    Sign::Ampersand,
    Sign::Equals,
    Sign::LeftParenthesis,
    Sign::RightParenthesis,
    Sign::LeftBrace,
    Sign::RightBrace,
    Sign::Comma,
    Sign::Semicolon,
];

const WORDS: [Reserved; 17] = [
    Reserved::Struct,
    Reserved::Int,
    Reserved::Mod,
    Reserved::Ceal,
    Reserved::Init,
    Reserved::Own,
    Reserved::Read,
    Reserved::Write,
    Reserved::Alloc,
    Reserved::Modref,
    Reserved::If,
    Reserved::Else,
    Reserved::While,
    Reserved::Return,
    Reserved::Null,
    Reserved::Break,
    Reserved::Continue,
];

/// The first tokens are these signs. The tokens after them are what is left.
fn after_signs<'a, R: Abort>(rt: &R, tokens: &'a [Token], signs: &[Sign]) -> &'a [Token] {
    let mut rest = tokens;
    for sign in signs {
        has_kind(rt, rest.first(), TokenKind::Sign(*sign));
        rest = behind_first(rest);
    }
    rest
}

/// The first tokens are these words. The tokens after them are what is left.
fn after_words<'a, R: Abort>(rt: &R, tokens: &'a [Token], words: &[Reserved]) -> &'a [Token] {
    let mut rest = tokens;
    for word in words {
        has_kind(rt, rest.first(), TokenKind::Reserved(*word));
        rest = behind_first(rest);
    }
    rest
}

fn behind_first(tokens: &[Token]) -> &[Token] {
    match tokens.split_first() {
        Some((_, rest)) => rest,
        None => tokens,
    }
}

#[test]
fn reads_each_sign_and_word(rt: HostRuntime) {
    let tokens = tokens_of(&rt, rt.alloc(), SIGNS_AND_WORDS);
    let rest = after_signs(&rt, tokens.items(), &SIGNS);
    let rest = after_words(&rt, rest, &WORDS);
    has_kind(&rt, rest.first(), TokenKind::Cut);
    equal(&rt, rest.len(), 1);
    drop(tokens);
}

/// There is such a token, of this kind and from one place to another.
fn is_token<R: Abort>(rt: &R, token: Option<&Token>, kind: TokenKind, from: u32, to: u32) {
    has_kind(rt, token, kind);
    equal(rt, token.map(|token| token.span), Some(Span { from, to }));
}

fn is_name<R: Abort>(rt: &R, token: Option<&Token>, name: Text, from: u32, to: u32) {
    is_token(rt, token, TokenKind::Name(name), from, to);
}

fn text<R: Abort>(rt: &R, alloc: Global, bytes: &[u8]) -> Text {
    Text::from_slice(alloc, bytes).expect(rt, "memory")
}

fn are_the_tokens<R: Abort>(rt: &R, alloc: Global, tokens: &[Token]) {
    equal(rt, tokens.len(), 7);
    is_name(rt, tokens.get(0), text(rt, alloc, b"if_1"), 4, 8);
    let largest = TokenKind::Number(9223372036854775807);
    is_token(rt, tokens.get(1), largest, 12, 31);
    is_token(rt, tokens.get(2), TokenKind::Number(7), 36, 39);
    is_name(rt, tokens.get(3), text(rt, alloc, b"a"), 39, 40);
    let sign = TokenKind::Sign(Sign::GreaterEquals);
    is_token(rt, tokens.get(4), sign, 46, 48);
    is_token(rt, tokens.get(5), TokenKind::Sign(Sign::Equals), 48, 49);
    is_token(rt, tokens.get(6), TokenKind::End, 53, 53);
}

#[test]
fn reads_names_numbers_and_comments(rt: HostRuntime) {
    let input = b"//\r\nif_1/**/9223372036854775807/***/007a\t/*/*/>==//x\n%%";
    let tokens = tokens_of(&rt, rt.alloc(), input);
    are_the_tokens(&rt, rt.alloc(), tokens.items());
    drop(tokens);
}
