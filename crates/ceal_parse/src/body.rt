// Bodies of functions. A `take_..` takes one token: it moves the reading, or answers that no program continues this
// way.

ghost use Rattle.std.specs.Prelude.{◌≡◌, ◌<◌, ◌≤◌, Some, true, IfOk};
ghost use Rattle.ceal_grammar.specs.Machine.{at_owned, state_in, new_whole, at_mode, mode_nesting, operators_in};
ghost use Rattle.ceal_parse.specs.Reading.{has_parts, is_aside, is_begun, is_later, turn_state};

use crate::block::{
    take_behind, take_body, take_branch, take_closed, take_ends, take_opens, take_otherwise,
};
use crate::ended::end_at;
use crate::expression::{begin, take_place};
use crate::making::{call, take_making, take_value};
use crate::marks::name;
use crate::statement::{
    Reached, take_before, take_calls, take_declared, take_first, take_named, take_owned, take_path,
    take_reached, take_typing,
};
use crate::turn::{Part, Turn, leave, no_expr, no_name, stand};
use ceal_base::fault::Span;
use ceal_base::no_memory::NoMemory;
use ceal_base::syntax::{Stmt, TypeForm, Value};
use ceal_grammar::state::{Callee, Inside, Making, Mode, Owner, Receiver, Target, TypePart};
use ceal_lex::token::Token;
use std::alloc::Global;
use std::mem;

/// The reading continues at this place of the body, if there is one.
fn go_on(mode: &mut Mode, next: Option<Mode>) -> Turn
    ensures value { (i : Inside) → turn_state i mode.new result ≡ state_in i next }
{
    match next {
        Some(next) => stand(mode, next),
        None => Turn::Refused,
    }
}

/// The token after `self` at the beginning of a statement. It is rare, and the place that it makes is not cleared for
/// each token of a body.
#[inline(never)]
fn take_own(mode: &mut Mode, at: Span, token: &Token) -> Turn
    ensures value { (i : Inside)
        → turn_state i mode.new result ≡ state_in i (at_owned at token.now.kind) }
{
    go_on(mode, take_owned(at, token))
}

/// A token within a path, an `alloc`, a `modref` or a call.
#[inline(never)]
fn take_aside(
    alloc: Global,
    inside: &mut Inside,
    mode: &mut Mode,
    token: &mut Token,
) -> Result<Turn, NoMemory>
    requires shallow { mode_nesting mode.old inside.old.nesting ≤ 64 }
    requires few { operators_in mode.old ≤ 255 }
    requires aside { is_aside mode.old ≡ true }
    ensures value { IfOk result
        (λ turn. turn_state inside.new mode.new turn
        ≡ at_mode inside.old mode.old token.old.span token.old.kind) }
{
    let nesting = inside.nesting;
    let at = token.span;
    match mode {
        Mode::Path(path, arrows) => {
            let arrows = *arrows;
            let path = mem::replace(path, no_expr(at));
            leave(mode);
            Ok(go_on(mode, take_path(path, arrows, token)))
        }
        Mode::Reached(path, name, arrows) => {
            let arrows = *arrows;
            let path = mem::replace(path, no_expr(at));
            let name = mem::replace(name, no_name(alloc, at));
            leave(mode);
            let reached = Reached { path, name, arrows };
            let next = take_reached(alloc, nesting, reached, token)?;
            Ok(go_on(mode, next))
        }
        Mode::Making(making) => {
            let making = mem::replace(making, Making::Typed(Stmt::Return(at)));
            leave(mode);
            Ok(go_on(mode, take_making(making, token)))
        }
        Mode::Calls(callee) => {
            let callee = mem::replace(callee, Callee::Call(no_name(alloc, at)));
            leave(mode);
            Ok(go_on(mode, take_calls(callee, token)))
        }
        Mode::First(callee) => {
            let callee = mem::replace(callee, Callee::Call(no_name(alloc, at)));
            leave(mode);
            let turn = take_first(alloc, nesting, mode, callee, token)?;
            Ok(turn)
        }
        _ => unreachable!(),
    }
}

/// A token before a block or after one, or a rarer one.
#[inline(never)]
fn take_block(
    alloc: Global,
    inside: &mut Inside,
    mode: &mut Mode,
    token: &mut Token,
) -> Result<Turn, NoMemory>
    requires shallow { mode_nesting mode.old inside.old.nesting ≤ 64 }
    requires few { operators_in mode.old ≤ 255 }
    requires later { is_later mode.old ≡ true }
    ensures value { IfOk result
        (λ turn. turn_state inside.new mode.new turn
        ≡ at_mode inside.old mode.old token.old.span token.old.kind) }
{
    let at = token.span;
    match mode {
        Mode::Opens(owner) => {
            let owner = mem::replace(owner, Owner::While(at, no_expr(at)));
            leave(mode);
            let turn = take_opens(alloc, inside, mode, owner, token)?;
            Ok(turn)
        }
        Mode::Ended(statement) => {
            let statement = mem::replace(statement, Stmt::Return(at));
            leave(mode);
            let turn = take_behind(alloc, inside, mode, statement, token)?;
            Ok(turn)
        }
        Mode::Closed(span, test, first) => {
            let branch = take_branch(alloc, *span, test, first);
            leave(mode);
            let turn = take_closed(alloc, inside, mode, branch, token)?;
            Ok(turn)
        }
        Mode::Otherwise(span, test, first) => {
            let branch = take_branch(alloc, *span, test, first);
            leave(mode);
            let turn = take_otherwise(alloc, inside, mode, branch, token)?;
            Ok(turn)
        }
        _ => {
            let turn = take_aside(alloc, inside, mode, token)?;
            Ok(turn)
        }
    }
}

/// A token of a declaration, of an assignment or after a name, or a rarer one.
#[inline(never)]
fn take_begun(
    alloc: Global,
    inside: &mut Inside,
    mode: &mut Mode,
    token: &mut Token,
) -> Result<Turn, NoMemory>
    requires shallow { mode_nesting mode.old inside.old.nesting ≤ 64 }
    requires few { operators_in mode.old ≤ 255 }
    requires begun { is_begun mode.old ≡ true }
    ensures value { IfOk result
        (λ turn. turn_state inside.new mode.new turn
        ≡ at_mode inside.old mode.old token.old.span token.old.kind) }
{
    let at = token.span;
    match mode {
        Mode::Value(target) => {
            let target = mem::replace(target, Target::Assign(no_name(alloc, at)));
            leave(mode);
            let turn = take_value(alloc, inside.nesting, mode, target, token)?;
            Ok(turn)
        }
        Mode::Named(name) => {
            let name = mem::replace(name, no_name(alloc, at));
            leave(mode);
            Ok(take_named(mode, name, token))
        }
        Mode::Typing(begin, part) => {
            let begin = *begin;
            let part = mem::replace(part, TypePart::Struct);
            leave(mode);
            Ok(take_typing(mode, begin, part, token))
        }
        Mode::Declared(begin, form, name) => {
            let begin = *begin;
            let form = mem::replace(form, TypeForm::Int);
            let name = mem::replace(name, no_name(alloc, at));
            leave(mode);
            Ok(take_declared(mode, begin, form, name, token))
        }
        _ => {
            let turn = take_block(alloc, inside, mode, token)?;
            Ok(turn)
        }
    }
}

/// A token within a statement of which parts were read, and within no whole expression. What was read is taken out of
/// the place, each part for itself, and a little function has few places to clear: most tokens end a statement or begin
/// what is in parentheses, so they come first.
#[inline(never)]
fn take_part(
    alloc: Global,
    inside: &mut Inside,
    mode: &mut Mode,
    token: &mut Token,
) -> Result<Turn, NoMemory>
    requires shallow { mode_nesting mode.old inside.old.nesting ≤ 64 }
    requires few { operators_in mode.old ≤ 255 }
    requires parts { has_parts mode.old ≡ true }
    ensures value { IfOk result
        (λ turn. turn_state inside.new mode.new turn
        ≡ at_mode inside.old mode.old token.old.span token.old.kind) }
{
    let at = token.span;
    match mode {
        Mode::Ends(statement) => {
            let statement = mem::replace(statement, Stmt::Return(at));
            leave(mode);
            let turn = take_ends(alloc, inside, mode, statement, token)?;
            Ok(turn)
        }
        Mode::Before(receiver) => {
            let receiver = mem::replace(receiver, Receiver::If(at));
            leave(mode);
            Ok(take_before(alloc, inside.nesting, mode, receiver, token))
        }
        _ => {
            let turn = take_begun(alloc, inside, mode, token)?;
            Ok(turn)
        }
    }
}

/// A token within a body.
pub fn take_mode(
    alloc: Global,
    inside: &mut Inside,
    mode: &mut Mode,
    token: &mut Token,
) -> Result<Turn, NoMemory>
    requires shallow { mode_nesting mode.old inside.old.nesting ≤ 64 }
    requires few { operators_in mode.old ≤ 255 }
    ensures value { IfOk result
        (λ turn. turn_state inside.new mode.new turn
        ≡ at_mode inside.old mode.old token.old.span token.old.kind) }
{
    match mode {
        Mode::Within(whole, place) => match take_place(alloc, whole, place, token)? {
            Part::Refused => Ok(Turn::Refused),
            Part::On => Ok(Turn::On),
            Part::Ended(sign) => {
                let turn = end_at(alloc, inside, mode, sign)?;
                Ok(turn)
            }
        },
        Mode::Body => {
            let turn = take_body(alloc, inside, mode, token)?;
            Ok(turn)
        }
        Mode::Owned(at) => {
            let at = *at;
            Ok(take_own(mode, at, token))
        }
        _ => {
            let turn = take_part(alloc, inside, mode, token)?;
            Ok(turn)
        }
    }
}
