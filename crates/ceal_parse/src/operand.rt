// The tokens of an operand, and those after `->`.

ghost use Rattle.std.specs.Prelude.{◌≡◌, ◌<◌, ◌^◌, Some, None, false, true, IfOk};
ghost use Rattle.ceal_grammar.specs.Machine.{wants, at_prim, at_operand, at_access};
ghost use Rattle.ceal_grammar.specs.declared.state.Frame.TheVariants.{Address};
ghost use Rattle.ceal_parse.specs.Reading.{is_name};

use crate::marks::{is_sign, name, same_sign, same_word};
use crate::piece::{access, operate, single};
use crate::turn::put;
use ceal_base::fault::Span;
use ceal_base::no_memory::NoMemory;
use ceal_base::operators::Unary;
use ceal_base::syntax::ExprForm;
use ceal_grammar::state::{Frame, Mode, Piece, Place, Whole};
use ceal_lex::token::{Reserved, Sign, Token, TokenKind};
use std::alloc::Global;

fn take_prim_word(place: &mut Place, at: Span, word: Reserved) -> bool
    ensures value { (w : Whole)
        → wants result (Mode.Within w place.new) ≡ at_prim w at (TokenKind.Reserved word) }
{
    if same_word(word, Reserved::Own) {
        put(place, Place::Have(single(at, ExprForm::Own)));
        true
    } else if same_word(word, Reserved::Null) {
        put(place, Place::Have(single(at, ExprForm::Null)));
        true
    } else {
        false
    }
}

fn take_prim_sign(
    whole: &mut Whole,
    place: &mut Place,
    at: Span,
    sign: Sign,
) -> Result<bool, NoMemory>
    requires shallow { whole.old.nesting < 2 ^ 31 }
    ensures value { IfOk result
        (λ on. wants on (Mode.Within whole.new place.new)
        ≡ at_prim whole.old at (TokenKind.Sign sign)) }
{
    if same_sign(sign, Sign::LeftParenthesis) {
        whole.frames.push(Frame::Open(at, whole.nesting))?;
        whole.nesting += 1;
        put(place, Place::Want);
        Ok(true)
    } else {
        Ok(false)
    }
}

/// A variable.
fn take_variable(place: &mut Place, token: &mut Token) -> bool
    requires named { is_name token.old.kind ≡ true }
    ensures value { (w : Whole)
        → wants result (Mode.Within w place.new) ≡ at_prim w token.old.span token.old.kind }
{
    let at = token.span;
    match name(token) {
        Some(variable) => {
            put(place, Place::Have(single(at, ExprForm::Var(variable))));
            true
        }
        None => false,
    }
}

/// An operand without a sign before it.
pub fn take_prim(whole: &mut Whole, place: &mut Place, token: &mut Token) -> Result<bool, NoMemory>
    requires shallow { whole.old.nesting < 2 ^ 31 }
    ensures value { IfOk result
        (λ on. wants on (Mode.Within whole.new place.new)
        ≡ at_prim whole.old token.old.span token.old.kind) }
{
    let at = token.span;
    match &token.kind {
        TokenKind::Name(_) => Ok(take_variable(place, token)),
        TokenKind::Number(value) => {
            put(place, Place::Have(single(at, ExprForm::Num(*value))));
            Ok(true)
        }
        TokenKind::Reserved(word) => Ok(take_prim_word(place, at, *word)),
        TokenKind::Sign(sign) => {
            let on = take_prim_sign(whole, place, at, *sign)?;
            Ok(on)
        }
        _ => Ok(false),
    }
}

/// An operand.
pub fn take_operand(
    whole: &mut Whole,
    place: &mut Place,
    token: &mut Token,
) -> Result<bool, NoMemory>
    requires shallow { whole.old.nesting < 2 ^ 31 }
    requires few { whole.old.operators < 2 ^ 31 }
    ensures value { IfOk result
        (λ on. wants on (Mode.Within whole.new place.new)
        ≡ at_operand whole.old token.old.span token.old.kind) }
{
    let at = token.span;
    if is_sign(token, Sign::Minus) {
        operate(whole, place, Frame::Prefix(Unary::Neg, at), Place::Want)?;
        Ok(true)
    } else if is_sign(token, Sign::Bang) {
        operate(whole, place, Frame::Prefix(Unary::Not, at), Place::Want)?;
        Ok(true)
    } else if is_sign(token, Sign::Ampersand) {
        operate(whole, place, Frame::Address(at), Place::Post)?;
        Ok(true)
    } else {
        let on = take_prim(whole, place, token)?;
        Ok(on)
    }
}

/// The name of a field of the piece.
pub fn take_access(
    alloc: Global,
    place: &mut Place,
    piece: Piece,
    token: &mut Token,
) -> Result<bool, NoMemory>
    ensures value { IfOk result
        (λ on. (w : Whole)
        → wants on (Mode.Within w place.new) ≡ at_access w piece token.old.span token.old.kind) }
{
    match name(token) {
        Some(field) => {
            let piece = access(alloc, piece, field)?;
            put(place, Place::Have(piece));
            Ok(true)
        }
        None => {
            drop(piece);
            Ok(false)
        }
    }
}
