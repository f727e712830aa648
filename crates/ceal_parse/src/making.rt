// What a variable is given. A `take_..` takes one token.

ghost use Rattle.std.specs.Prelude.{◌≡◌, ◌<◌, ◌^◌, true, IfOk};
ghost use Rattle.ceal_grammar.specs.Machine.{value_statement, call_statement, at_modref, at_making, at_value, state_in};
ghost use Rattle.ceal_grammar.specs.declared.state.Inside.{Inside};
ghost use Rattle.ceal_parse.specs.Reading.{is_name, turn_state};

use crate::expression::take_whole;
use crate::marks::{is_sign, is_word, name, same_word};
use crate::turn::{Turn, stand};
use ceal_base::fault::Span;
use ceal_base::no_memory::NoMemory;
use ceal_base::syntax::{Exprs, Ident, Stmt, Value};
use ceal_grammar::state::{Callee, Making, Mode, Receiver, Target};
use ceal_lex::token::{Reserved, Sign, Token, TokenKind};
use std::alloc::Global;

/// The statement that gives the value.
pub fn give(target: Target, value: Value) -> Stmt
    ensures value { result ≡ value_statement target value }
{
    match target {
        Target::Declare(at, form, name) => Stmt::Declare(at, form, name, value),
        Target::Assign(name) => Stmt::Assign(name, value),
    }
}

/// The statement that has these arguments.
pub fn call(callee: Callee, arguments: Exprs) -> Stmt
    ensures value { result ≡ call_statement callee arguments }
{
    match callee {
        Callee::Call(name) => Stmt::Call(name, arguments),
        Callee::Alloc(target, at, shape, name) => {
            give(target, Value::Alloc(at, shape, name, arguments))
        }
    }
}

fn take_shape(target: Target, at: Span, token: &mut Token) -> Option<Mode>
    ensures value { result ≡ at_making (Making.Alloc target at) token.old.span token.old.kind }
{
    match name(token) {
        Some(shape) => Some(Mode::Making(Making::Shape(target, at, shape))),
        None => {
            drop(target);
            None
        }
    }
}

fn take_initialiser(target: Target, at: Span, shape: Ident, token: &mut Token) -> Option<Mode>
    ensures value { result
        ≡ at_making (Making.Shape target at shape) token.old.span token.old.kind }
{
    match name(token) {
        Some(name) => Some(Mode::Calls(Callee::Alloc(target, at, shape, name))),
        None => {
            drop(target);
            drop(shape);
            None
        }
    }
}

fn modref_int(target: Target, at: Span, word: Reserved) -> Option<Mode>
    ensures value { result ≡ at_modref target at at (TokenKind.Reserved word) }
{
    if same_word(word, Reserved::Int) {
        let statement = give(target, Value::ModrefInt(at));
        Some(Mode::Making(Making::Typed(statement)))
    } else {
        drop(target);
        None
    }
}

fn modref_shape(target: Target, at: Span, token: &mut Token) -> Option<Mode>
    requires named { is_name token.old.kind ≡ true }
    ensures value { result ≡ at_modref target at token.old.span token.old.kind }
{
    match name(token) {
        Some(shape) => {
            let statement = give(target, Value::Modref(at, shape));
            Some(Mode::Making(Making::Typed(statement)))
        }
        None => {
            drop(target);
            None
        }
    }
}

#[inline(never)]
fn take_modref(target: Target, at: Span, token: &mut Token) -> Option<Mode>
    ensures value { result ≡ at_modref target at token.old.span token.old.kind }
{
    match &token.kind {
        TokenKind::Name(_) => modref_shape(target, at, token),
        TokenKind::Reserved(word) => modref_int(target, at, *word),
        _ => {
            drop(target);
            None
        }
    }
}

fn take_opening(statement: Stmt, token: &Token) -> Option<Mode>
    ensures value { result ≡ at_making (Making.Typed statement) token.now.span token.now.kind }
{
    if is_sign(token, Sign::LeftParenthesis) {
        Some(Mode::Making(Making::Opened(statement)))
    } else {
        drop(statement);
        None
    }
}

fn take_closing(statement: Stmt, token: &Token) -> Option<Mode>
    ensures value { result ≡ at_making (Making.Opened statement) token.now.span token.now.kind }
{
    if is_sign(token, Sign::RightParenthesis) {
        Some(Mode::Ends(statement))
    } else {
        drop(statement);
        None
    }
}

/// An `alloc` or a `modref`.
#[inline(never)]
pub fn take_making(making: Making, token: &mut Token) -> Option<Mode>
    ensures value { result ≡ at_making making token.old.span token.old.kind }
{
    match making {
        Making::Alloc(target, at) => take_shape(target, at, token),
        Making::Shape(target, at, shape) => take_initialiser(target, at, shape, token),
        Making::Modref(target, at) => take_modref(target, at, token),
        Making::Typed(statement) => take_opening(statement, token),
        Making::Opened(statement) => take_closing(statement, token),
    }
}

/// What the target is given.
#[inline(never)]
pub fn take_value(
    alloc: Global,
    nesting: u32,
    mode: &mut Mode,
    target: Target,
    token: &mut Token,
) -> Result<Turn, NoMemory>
    requires shallow { nesting < 2 ^ 31 }
    ensures value { IfOk result (λ turn. (i : Inside) → turn_state i mode.new turn
        ≡ state_in i (at_value nesting target token.old.span token.old.kind)) }
{
    let at = token.span;
    if is_word(token, Reserved::Read) {
        Ok(stand(mode, Mode::Before(Receiver::Read(target, at))))
    } else if is_word(token, Reserved::Alloc) {
        Ok(stand(mode, Mode::Making(Making::Alloc(target, at))))
    } else if is_word(token, Reserved::Modref) {
        Ok(stand(mode, Mode::Making(Making::Modref(target, at))))
    } else {
        let turn = take_whole(alloc, nesting, mode, Receiver::Value(target), token)?;
        Ok(turn)
    }
}
