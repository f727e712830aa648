// Whole expressions. A `take_..` takes one token: it moves the place within the expression, or answers that no program
// continues this way.

ghost use Rattle.std.specs.Prelude.{◌≡◌, ◌∷◌, ◌<◌, ◌^◌, Some, None, false, true, IsTrue, IfOk, IfSome, MatchOption};
ghost use Rattle.std.specs.Prelude.{if◌then◌else◌};
ghost use Rattle.ceal_grammar.specs.Machine.{element_of, new_whole, reduction, same_sign as same_signs, wants, within};
ghost use Rattle.ceal_grammar.specs.Machine.{operator_of, closes, at_operand, at_sign_after, at_index, at_after};
ghost use Rattle.ceal_grammar.specs.Machine.{at_element, at_place, state_in};
ghost use Rattle.ceal_grammar.specs.declared.state.Frame.TheVariants.{Address};
ghost use Rattle.ceal_grammar.specs.declared.state.Inside.{Inside};
ghost use Rattle.ceal_grammar.specs.declared.state.Piece.{Piece as PieceOf};
ghost use Rattle.ceal_parse.specs.Reading.{part_state, turn_state};

use crate::marks::{operator, same_sign};
use crate::operand::{take_access, take_operand, take_prim};
use crate::piece::{element, operate, reduce};
use crate::turn::{Part, Turn, going as turn_of, put, settle};
use ceal_base::fault::Span;
use ceal_base::no_memory::NoMemory;
use ceal_base::syntax::Expr;
use ceal_grammar::levels::binary_level;
use ceal_grammar::stack::Stack;
use ceal_grammar::state::{Frame, Mode, Piece, Place, Receiver, Whole};
use ceal_lex::token::{Sign, Token, TokenKind};
use std::alloc::Global;
use std::mem;

/// The sign after an index.
fn close_index(
    alloc: Global,
    place: &mut Place,
    sign: Sign,
    row: (Span, Expr),
    index: Piece,
) -> Result<Part, NoMemory>
    ensures value { IfOk result (λ part. (i : Inside) (w : Whole) → part_state i w place.new part
        ≡ wants (same_signs sign Sign.RightBracket)
        (within i w (Place.Element (element_of row.0 row.1 index)))) }
{
    let piece = element(alloc, row.0, row.1, index)?;
    put(place, Place::Element(piece));
    if same_sign(sign, Sign::RightBracket) {
        Ok(Part::On)
    } else {
        Ok(Part::Refused)
    }
}

/// A sign after the piece that no operator waits for: a `)` or `]` within the whole expression, or its end.
fn close(
    alloc: Global,
    whole: &mut Whole,
    place: &mut Place,
    sign: Sign,
    piece: Piece,
) -> Result<Part, NoMemory>
    ensures value { IfOk result
        (λ part. (i : Inside)
        → part_state i whole.new place.new part ≡ closes i whole.old sign piece whole.old.frames) }
{
    match whole.frames.pop() {
        None => {
            put(place, Place::Have(piece));
            Ok(Part::Ended(sign))
        }
        Some(Frame::Index(at, row, nesting)) => {
            whole.nesting = nesting;
            let part = close_index(alloc, place, sign, (at, row), piece)?;
            Ok(part)
        }
        Some(Frame::Open(at, nesting)) => {
            let expr = piece.expr;
            put(place, Place::Have(Piece { from: at, expr }));
            whole.nesting = nesting;
            if same_sign(sign, Sign::RightParenthesis) {
                Ok(Part::On)
            } else {
                Ok(Part::Refused)
            }
        }
        Some(frame) => {
            drop(frame);
            drop(piece);
            Ok(Part::Refused)
        }
    }
}

/// A sign, and its place.
#[derive(Clone, Copy)]
struct SignAt {
    at: Span,
    sign: Sign,
}

/// A sign after the piece, other than an arrow and the `[` of an index.
fn take_sign(
    alloc: Global,
    whole: &mut Whole,
    place: &mut Place,
    piece: Piece,
    found: SignAt,
) -> Result<Part, NoMemory>
    requires few { whole.old.operators < 2 ^ 31 }
    ensures value { IfOk result (λ part. (i : Inside) → part_state i whole.new place.new part
        ≡ at_sign_after i whole.old piece found.at found.sign (operator_of found.sign)) }
{
    match operator(found.sign) {
        Some(operator) => {
            let left = reduce(alloc, binary_level(operator), piece, &mut whole.frames)?;
            operate(
                whole,
                place,
                Frame::Left(left, operator, found.at),
                Place::Want,
            )?;
            Ok(Part::On)
        }
        None => {
            let piece = reduce(alloc, 0, piece, &mut whole.frames)?;
            let part = close(alloc, whole, place, found.sign, piece)?;
            Ok(part)
        }
    }
}

/// The place of the `&` that waits for the operand at once, taken off the stack. Another frame is let go.
fn take_address(frames: &mut Stack<Frame>) -> Option<Span>
    ensures value { MatchOption result ((p : PieceOf) (i : Inside) (w : Whole)
        → at_index i w p frames.old ≡ None)
        (λ at. frames.old ≡ Address at ∷ frames.new) }
{
    let top = frames.pop();
    let at = match &top {
        Some(Frame::Address(at)) => Some(*at),
        _ => None,
    };
    drop(top);
    at
}

/// The `[` of an index, which is only after the operand of an `&`.
fn take_index(whole: &mut Whole, place: &mut Place, piece: Piece) -> Result<Part, NoMemory>
    requires shallow { whole.old.nesting < 2 ^ 31 }
    requires few { whole.old.operators < 2 ^ 31 }
    ensures value { IfOk result
        (λ part. (i : Inside)
        → part_state i whole.new place.new part ≡ at_index i whole.old piece whole.old.frames) }
{
    match take_address(&mut whole.frames) {
        Some(at) => {
            put(place, Place::Want);
            whole
                .frames
                .push(Frame::Index(at, piece.expr, whole.nesting))?;
            whole.nesting += 1;
            whole.operators += 1;
            Ok(Part::On)
        }
        None => {
            drop(piece);
            Ok(Part::Refused)
        }
    }
}

/// A token after an operand with an index.
fn take_element(
    alloc: Global,
    whole: &mut Whole,
    place: &mut Place,
    piece: Piece,
    token: &Token,
) -> Result<Part, NoMemory>
    requires few { whole.old.operators < 2 ^ 31 }
    ensures value { IfOk result (λ part. (i : Inside) → part_state i whole.new place.new part
        ≡ at_element i whole.old piece token.now.span token.now.kind) }
{
    match token.kind {
        TokenKind::Sign(sign) => {
            let at = token.span;
            let part = take_sign(alloc, whole, place, piece, SignAt { at, sign })?;
            Ok(part)
        }
        _ => {
            drop(piece);
            Ok(Part::Refused)
        }
    }
}

fn take_after(
    alloc: Global,
    whole: &mut Whole,
    place: &mut Place,
    piece: Piece,
    token: &Token,
) -> Result<Part, NoMemory>
    requires shallow { whole.old.nesting < 2 ^ 31 }
    requires few { whole.old.operators < 2 ^ 31 }
    ensures value { IfOk result (λ part. (i : Inside) → part_state i whole.new place.new part
        ≡ at_after i whole.old piece token.now.span token.now.kind) }
{
    match token.kind {
        TokenKind::Sign(sign) => {
            if same_sign(sign, Sign::Arrow) {
                whole.operators += 1;
                put(place, Place::Access(piece));
                Ok(Part::On)
            } else if same_sign(sign, Sign::LeftBracket) {
                let part = take_index(whole, place, piece)?;
                Ok(part)
            } else {
                let at = token.span;
                let part = take_sign(alloc, whole, place, piece, SignAt { at, sign })?;
                Ok(part)
            }
        }
        _ => {
            drop(piece);
            Ok(Part::Refused)
        }
    }
}

/// The expression continues, or no program continues this way.
fn going(on: bool) -> Part
    ensures value { result ≡ (if on then Part.On else Part.Refused) }
{
    if on { Part::On } else { Part::Refused }
}

/// Whether the sign is one with which no expression continues, where nothing waits in it.
#[tactic(auto, unfolding(ceal_grammar::specs::Machine::same_sign))]
fn is_last(sign: Sign) -> bool
    ensures arrow { IsTrue result → same_signs sign Sign.Arrow ≡ false }
    ensures index { IsTrue result → same_signs sign Sign.LeftBracket ≡ false }
    ensures operator { IsTrue result → operator_of sign ≡ None }
{
    match sign {
        Sign::Comma => true,
        Sign::Semicolon => true,
        Sign::RightParenthesis => true,
        _ => false,
    }
}

/// The sign, if it ends a whole expression in which nothing waits after an operand.
#[tactic(auto, unfolding(ceal_grammar::specs::Machine::reduction))]
fn last_sign(whole: &Whole, place: &Place, token: &Token) -> Option<Sign>
    ensures value { IfSome result (λ sign. (i : Inside)
        → part_state i whole.now place.now (Part.Ended sign)
        ≡ at_place i whole.now place.now token.now.span token.now.kind) }
{
    match (place, &token.kind) {
        (Place::Have(_), TokenKind::Sign(sign)) => {
            if whole.frames.is_empty() && is_last(*sign) {
                Some(*sign)
            } else {
                None
            }
        }
        _ => None,
    }
}

/// A token within a whole expression, or after it.
pub fn take_place(
    alloc: Global,
    whole: &mut Whole,
    place: &mut Place,
    token: &mut Token,
) -> Result<Part, NoMemory>
    requires shallow { whole.old.nesting < 2 ^ 31 }
    requires few { whole.old.operators < 2 ^ 31 }
    ensures value { IfOk result (λ part. (i : Inside) → part_state i whole.new place.new part
        ≡ at_place i whole.old place.old token.old.span token.old.kind) }
{
    match last_sign(whole, place, token) {
        Some(sign) => Ok(Part::Ended(sign)),
        None => {
            let part = move_place(alloc, whole, place, token)?;
            Ok(part)
        }
    }
}

/// A token within a whole expression, or after it, whatever it is.
fn move_place(
    alloc: Global,
    whole: &mut Whole,
    place: &mut Place,
    token: &mut Token,
) -> Result<Part, NoMemory>
    requires shallow { whole.old.nesting < 2 ^ 31 }
    requires few { whole.old.operators < 2 ^ 31 }
    ensures value { IfOk result (λ part. (i : Inside) → part_state i whole.new place.new part
        ≡ at_place i whole.old place.old token.old.span token.old.kind) }
{
    match mem::replace(place, Place::Want) {
        Place::Want => {
            let on = take_operand(whole, place, token)?;
            Ok(going(on))
        }
        Place::Post => {
            let on = take_prim(whole, place, token)?;
            Ok(going(on))
        }
        Place::Have(piece) => {
            let part = take_after(alloc, whole, place, piece, token)?;
            Ok(part)
        }
        Place::Element(piece) => {
            let part = take_element(alloc, whole, place, piece, token)?;
            Ok(part)
        }
        Place::Access(piece) => {
            let on = take_access(alloc, place, piece, token)?;
            Ok(going(on))
        }
    }
}

/// A whole expression of which nothing was read.
pub fn begin(alloc: Global, nesting: u32, receiver: Receiver) -> Whole
    ensures value { result ≡ new_whole nesting receiver }
{
    Whole {
        nesting,
        operators: 0,
        frames: Stack::new(alloc),
        receiver,
    }
}

/// The first operand of a whole expression.
pub fn take_whole(
    alloc: Global,
    nesting: u32,
    mode: &mut Mode,
    receiver: Receiver,
    token: &mut Token,
) -> Result<Turn, NoMemory>
    requires shallow { nesting < 2 ^ 31 }
    ensures value { IfOk result (λ turn. (i : Inside) → turn_state i mode.new turn
        ≡ state_in i (at_operand (new_whole nesting receiver) token.old.span token.old.kind)) }
{
    settle(
        mode,
        Mode::Within(begin(alloc, nesting, receiver), Place::Want),
    );
    match mode {
        Mode::Within(whole, place) => {
            let on = take_operand(whole, place, token)?;
            Ok(turn_of(on))
        }
        _ => unreachable!(),
    }
}
