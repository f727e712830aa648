// Pieces of expressions, and how operators join them. Operators wait on a stack until one of a lower level comes
// (operator precedence; Floyd, JACM 1963).

ghost use Rattle.std.specs.Prelude.{◌≡◌, ◌∷◌, ◌<◌, ◌^◌, Some, None, IfOk};
ghost use Rattle.ceal_grammar.specs.Machine.{single as single_piece, prefix_piece, address_piece, element_of};
ghost use Rattle.ceal_grammar.specs.Machine.{infix_piece, arrow_piece};
ghost use Rattle.ceal_grammar.specs.Machine.{with_operator, reduction};
ghost use Rattle.ceal_grammar.specs.declared.state.Frame.TheVariants.{Address};

use crate::marks::operator;
use crate::turn::{boxed, put};
use ceal_base::boxed::Boxed;
use ceal_base::fault::Span;
use ceal_base::no_memory::NoMemory;
use ceal_base::operators::{Binary, Unary};
use ceal_base::syntax::{Expr, ExprForm, Ident};
use ceal_grammar::levels::binary_level;
use ceal_grammar::stack::Stack;
use ceal_grammar::state::{Frame, Piece, Place, Whole};
use std::alloc::Global;

/// An expression that begins at its token.
pub fn single(at: Span, form: ExprForm) -> Piece
    ensures value { result ≡ single_piece at form }
{
    Piece {
        from: at,
        expr: Expr { span: at, form },
    }
}

fn prefix(alloc: Global, operator: Unary, at: Span, piece: Piece) -> Result<Piece, NoMemory>
    ensures value { IfOk result (λ p. p ≡ prefix_piece operator at piece) }
{
    let operand = Boxed::new(alloc, piece.expr)?;
    Ok(single(at, ExprForm::Unary(operator, operand)))
}

fn address(alloc: Global, at: Span, piece: Piece) -> Result<Piece, NoMemory>
    ensures value { IfOk result (λ p. p ≡ address_piece at piece) }
{
    let operand = Boxed::new(alloc, piece.expr)?;
    Ok(single(at, ExprForm::Address(operand)))
}

fn join(
    alloc: Global,
    left: Piece,
    operator: Binary,
    at: Span,
    right: Piece,
) -> Result<Piece, NoMemory>
    ensures value { IfOk result (λ p. p ≡ infix_piece left operator at right) }
{
    let (first, second) = boxed(alloc, left.expr, right.expr)?;
    Ok(single(left.from, ExprForm::Binary(operator, at, first, second)))
}

/// The element of the row, by the index.
pub fn element(alloc: Global, at: Span, row: Expr, index: Piece) -> Result<Piece, NoMemory>
    ensures value { IfOk result (λ p. p ≡ element_of at row index) }
{
    let (first, second) = boxed(alloc, row, index.expr)?;
    Ok(single(at, ExprForm::Pick(first, second)))
}

/// A field of what the expression points to.
pub fn access(alloc: Global, piece: Piece, field: Ident) -> Result<Piece, NoMemory>
    ensures value { IfOk result (λ p. p ≡ arrow_piece piece field) }
{
    let operand = Boxed::new(alloc, piece.expr)?;
    Ok(single(piece.from, ExprForm::Field(operand, field)))
}

/// Puts back an operator that does not take the piece.
fn put_back(frames: &mut Stack<Frame>, frame: Frame, piece: Piece) -> Result<Piece, NoMemory>
    ensures value { IfOk result (λ p. (p ≡ piece) × (frames.new ≡ frame ∷ frames.old)) }
{
    match frames.push(frame) {
        Ok(()) => Ok(piece),
        Err(NoMemory) => {
            drop(piece);
            Err(NoMemory)
        }
    }
}

/// The piece once each operator of this level and above that waits for it has taken it.
#[tactic(auto, unfolding(ceal_grammar::specs::Machine::reduction))]
pub fn reduce(
    alloc: Global,
    lowest: u8,
    piece: Piece,
    frames: &mut Stack<Frame>,
) -> Result<Piece, NoMemory>
    ensures value { IfOk result
        (λ p. reduction lowest piece frames.old ≡ record { piece = p; frames = frames.new }) }
{
    match frames.pop() {
        None => Ok(piece),
        Some(Frame::Open(at, nesting)) => {
            let piece = put_back(frames, Frame::Open(at, nesting), piece)?;
            Ok(piece)
        }
        Some(Frame::Index(at, row, nesting)) => {
            let piece = put_back(frames, Frame::Index(at, row, nesting), piece)?;
            Ok(piece)
        }
        Some(Frame::Prefix(operator, at)) => {
            let whole = prefix(alloc, operator, at, piece)?;
            let all = reduce(alloc, lowest, whole, frames)?;
            Ok(all)
        }
        Some(Frame::Address(at)) => {
            let whole = address(alloc, at, piece)?;
            let all = reduce(alloc, lowest, whole, frames)?;
            Ok(all)
        }
        Some(Frame::Left(left, operator, at)) => {
            if lowest <= binary_level(operator) {
                let whole = join(alloc, left, operator, at, piece)?;
                let all = reduce(alloc, lowest, whole, frames)?;
                Ok(all)
            } else {
                let piece = put_back(frames, Frame::Left(left, operator, at), piece)?;
                Ok(piece)
            }
        }
    }
}

/// An operator waits for an operand at this place.
pub fn operate(
    whole: &mut Whole,
    place: &mut Place,
    frame: Frame,
    next: Place,
) -> Result<(), NoMemory>
    requires few { whole.old.operators < 2 ^ 31 }
    ensures value { IfOk result (λ _. whole.new ≡ with_operator whole.old frame whole.old.frames) }
    ensures place { IfOk result (λ _. place.new ≡ next) }
{
    put(place, next);
    whole.frames.push(frame)?;
    whole.operators += 1;
    Ok(())
}
