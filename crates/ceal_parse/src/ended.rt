// The end of a whole expression: what was read for it continues after the sign that ends it.

ghost use Rattle.std.specs.Prelude.{◌≡◌, ◌∷◌, ◌++◌, ◌<◌, [], true, IfOk};
ghost use Rattle.ceal_grammar.specs.Machine.{same_sign as same_signs, wants, state_in, value_statement, new_whole};
ghost use Rattle.ceal_grammar.specs.Machine.{ends_at};
ghost use Rattle.ceal_grammar.specs.Machine.{at_argument, at_expression_end};
ghost use Rattle.ceal_parse.specs.Reading.{is_plain, mode_ended, turn_state};

use crate::expression::begin;
use crate::making::{call, give};
use crate::marks::{name, same_sign};
use crate::statement::take_end;
use crate::turn::{Turn, leave, put, stand};
use ceal_base::fault::Span;
use ceal_base::no_memory::NoMemory;
use ceal_base::syntax::{Expr, Exprs, Ident, Stmt, Value};
use ceal_grammar::stack::Stack;
use ceal_grammar::state::{Callee, Inside, Mode, Owner, Place, Receiver, Target, Whole};
use ceal_lex::token::Sign;
use std::alloc::Global;
use std::mem;

/// The sign is this one, and the reading continues at the place.
fn wanted(mode: &mut Mode, found: Sign, sign: Sign, next: Mode) -> Turn
    ensures value { (i : Inside) → turn_state i mode.new result
        ≡ state_in i (wants (same_signs found sign) next) }
{
    if same_sign(found, sign) {
        stand(mode, next)
    } else {
        drop(next);
        Turn::Refused
    }
}

/// A whole expression begins again, for the same.
fn begin_again(alloc: Global, whole: &mut Whole)
    ensures value { whole.new ≡ new_whole whole.old.nesting whole.old.receiver }
{
    put(&mut whole.frames, Stack::new(alloc));
    whole.operators = 0;
}

/// What the next whole expression is for, once the one at a `,` has ended.
#[tactic(auto, unfolding(ceal_grammar::specs::Machine::same_sign))]
fn next_operand(alloc: Global, whole: &mut Whole, expr: Expr) -> Result<Turn, NoMemory>
    ensures value { IfOk result (λ turn. (i : Inside)
        → turn_state i (Mode.Within whole.new Place.Want) turn
        ≡ at_expression_end i whole.old.nesting whole.old.receiver expr Sign.Comma) }
{
    match &mut whole.receiver {
        Receiver::Argument(_, arguments) => {
            arguments.push(expr)?;
            begin_again(alloc, whole);
            Ok(Turn::On)
        }
        Receiver::Write(at) => {
            let at = *at;
            put(&mut whole.receiver, Receiver::Store(at, expr));
            begin_again(alloc, whole);
            Ok(Turn::On)
        }
        _ => {
            drop(expr);
            Ok(Turn::Refused)
        }
    }
}

/// The whole expression that was read has ended at a `,`.
fn end_at_comma(alloc: Global, mode: &mut Mode) -> Result<Turn, NoMemory>
    ensures value { IfOk result (λ turn. (i : Inside) → turn_state i mode.new turn
        ≡ mode_ended i mode.old Sign.Comma) }
{
    match mode {
        Mode::Within(whole, place) => match mem::replace(place, Place::Want) {
            Place::Have(piece) => {
                let turn = next_operand(alloc, whole, piece.expr)?;
                Ok(turn)
            }
            other => {
                drop(other);
                Ok(Turn::Refused)
            }
        },
        _ => Ok(Turn::Refused),
    }
}

/// The sign after an argument, which is the last of these.
fn take_argument(
    alloc: Global,
    nesting: u32,
    mode: &mut Mode,
    call_of: (Callee, Exprs),
    sign: Sign,
) -> Turn
    ensures value { (i : Inside) → turn_state i mode.new result
        ≡ state_in i (at_argument nesting call_of.0 call_of.1 sign) }
{
    let (callee, arguments) = call_of;
    if same_sign(sign, Sign::Comma) {
        let whole = begin(alloc, nesting, Receiver::Argument(callee, arguments));
        stand(mode, Mode::Within(whole, Place::Want))
    } else {
        wanted(
            mode,
            sign,
            Sign::RightParenthesis,
            Mode::Ends(call(callee, arguments)),
        )
    }
}

/// The value of a variable has ended.
#[inline(never)]
fn end_value(
    alloc: Global,
    inside: &mut Inside,
    mode: &mut Mode,
    given_to: (Target, Expr),
    sign: Sign,
) -> Result<Turn, NoMemory>
    ensures value { IfOk result (λ turn. turn_state inside.new mode.new turn
        ≡ ends_at inside.old (value_statement given_to.0 (Value.Plain given_to.1)) sign) }
{
    let (target, expr) = given_to;
    let statement = give(target, Value::Plain(expr));
    let turn = take_end(alloc, inside, mode, statement, sign)?;
    Ok(turn)
}

/// The modifiable that a `read` names has ended.
#[inline(never)]
fn end_read(mode: &mut Mode, target: Target, at: Span, expr: Expr, sign: Sign) -> Turn
    ensures value { (i : Inside) → turn_state i mode.new result
        ≡ state_in i (wants (same_signs sign Sign.RightParenthesis)
        (Mode.Ends (value_statement target (Value.Read at expr)))) }
{
    let statement = give(target, Value::Read(at, expr));
    wanted(mode, sign, Sign::RightParenthesis, Mode::Ends(statement))
}

/// The value of a field has ended.
#[inline(never)]
fn end_set(
    alloc: Global,
    inside: &mut Inside,
    mode: &mut Mode,
    field: (Expr, Ident, Expr),
    sign: Sign,
) -> Result<Turn, NoMemory>
    ensures value { IfOk result (λ turn. turn_state inside.new mode.new turn
        ≡ ends_at inside.old (Stmt.SetField field.0.span field.0 field.1 field.2) sign) }
{
    let (path, name, expr) = field;
    let statement = Stmt::SetField(path.span, path, name, expr);
    let turn = take_end(alloc, inside, mode, statement, sign)?;
    Ok(turn)
}

/// The second operand of a `write` has ended.
#[inline(never)]
fn end_store(mode: &mut Mode, at: Span, target: Expr, expr: Expr, sign: Sign) -> Turn
    ensures value { (i : Inside) → turn_state i mode.new result
        ≡ state_in i (wants (same_signs sign Sign.RightParenthesis)
        (Mode.Ends (Stmt.Write at target expr))) }
{
    let statement = Stmt::Write(at, target, expr);
    wanted(mode, sign, Sign::RightParenthesis, Mode::Ends(statement))
}

/// The argument, at the sign after it.
#[inline(never)]
fn end_argument(
    alloc: Global,
    nesting: u32,
    mode: &mut Mode,
    call_of: (Callee, Exprs, Expr),
    sign: Sign,
) -> Result<Turn, NoMemory>
    ensures value { IfOk result (λ turn. (i : Inside) → turn_state i mode.new turn
        ≡ state_in i (at_argument nesting call_of.0 (call_of.1 ++ call_of.2 ∷ []) sign)) }
{
    let (callee, arguments, expr) = call_of;
    let mut arguments = arguments;
    match arguments.push(expr) {
        Ok(()) => Ok(take_argument(alloc, nesting, mode, (callee, arguments), sign)),
        Err(NoMemory) => {
            drop(callee);
            Err(NoMemory)
        }
    }
}

/// The expression of something that has no other part, at the sign after it.
fn receive_first(
    alloc: Global,
    nesting: u32,
    mode: &mut Mode,
    receiver: &Receiver,
    ended: (Expr, Sign),
) -> Turn
    requires plain { is_plain receiver.now ≡ true }
    ensures value { (i : Inside) → turn_state i mode.new result
        ≡ at_expression_end i nesting receiver.now ended.0 ended.1 }
{
    let (expr, sign) = ended;
    match receiver {
        Receiver::Write(at) => {
            let whole = begin(alloc, nesting, Receiver::Store(*at, expr));
            wanted(mode, sign, Sign::Comma, Mode::Within(whole, Place::Want))
        }
        Receiver::If(at) => {
            let next = Mode::Opens(Owner::Then(*at, expr));
            wanted(mode, sign, Sign::RightParenthesis, next)
        }
        Receiver::While(at) => {
            let next = Mode::Opens(Owner::While(*at, expr));
            wanted(mode, sign, Sign::RightParenthesis, next)
        }
        _ => unreachable!(),
    }
}

/// The state of the reading after a whole expression, at the sign after it.
fn receive(
    alloc: Global,
    inside: &mut Inside,
    mode: &mut Mode,
    receiver: (u32, Receiver),
    ended: (Expr, Sign),
) -> Result<Turn, NoMemory>
    ensures value { IfOk result (λ turn. turn_state inside.new mode.new turn
        ≡ at_expression_end inside.old receiver.0 receiver.1 ended.0 ended.1) }
{
    let (expr, sign) = ended;
    let (nesting, receiver) = receiver;
    match receiver {
        Receiver::Value(target) => {
            let turn = end_value(alloc, inside, mode, (target, expr), sign)?;
            Ok(turn)
        }
        Receiver::Read(target, at) => Ok(end_read(mode, target, at, expr, sign)),
        Receiver::Argument(callee, arguments) => {
            let turn = end_argument(alloc, nesting, mode, (callee, arguments, expr), sign)?;
            Ok(turn)
        }
        Receiver::Set(path, name) => {
            let turn = end_set(alloc, inside, mode, (path, name, expr), sign)?;
            Ok(turn)
        }
        Receiver::Store(at, target) => Ok(end_store(mode, at, target, expr, sign)),
        plain => {
            let turn = receive_first(alloc, nesting, mode, &plain, (expr, sign));
            drop(plain);
            Ok(turn)
        }
    }
}

/// The whole expression that was read has ended at the sign.
fn end_whole(
    alloc: Global,
    inside: &mut Inside,
    mode: &mut Mode,
    sign: Sign,
) -> Result<Turn, NoMemory>
    ensures value { IfOk result
        (λ turn. turn_state inside.new mode.new turn ≡ mode_ended inside.old mode.old sign) }
{
    match mode {
        Mode::Within(whole, place) => match mem::replace(place, Place::Want) {
            Place::Have(piece) => {
                let nesting = whole.nesting;
                let receiver = mem::replace(&mut whole.receiver, Receiver::If(piece.from));
                put(&mut whole.frames, Stack::new(alloc));
                leave(mode);
                let turn = receive(alloc, inside, mode, (nesting, receiver), (piece.expr, sign))?;
                Ok(turn)
            }
            other => {
                drop(other);
                Ok(Turn::Refused)
            }
        },
        _ => Ok(Turn::Refused),
    }
}

/// The whole expression that was read has ended at the sign.
pub fn end_at(
    alloc: Global,
    inside: &mut Inside,
    mode: &mut Mode,
    sign: Sign,
) -> Result<Turn, NoMemory>
    ensures value { IfOk result
        (λ turn. turn_state inside.new mode.new turn ≡ mode_ended inside.old mode.old sign) }
{
    match sign {
        Sign::Comma => {
            let turn = end_at_comma(alloc, mode)?;
            Ok(turn)
        }
        _ => {
            let turn = end_whole(alloc, inside, mode, sign)?;
            Ok(turn)
        }
    }
}
