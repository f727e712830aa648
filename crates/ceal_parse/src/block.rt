// Blocks: where one opens, what follows a statement in it, and where it closes.

ghost use Rattle.std.specs.Prelude.{◌≡◌, ◌∷◌, ◌<◌, ◌^◌, [], Some, true, IfOk};
ghost use Rattle.ceal_grammar.specs.Machine.{with_statement, mode_after_block, block_closed, chained_in, at_body};
ghost use Rattle.ceal_grammar.specs.Machine.{at_ends};
ghost use Rattle.ceal_grammar.specs.Machine.{at_opens, at_closed, at_otherwise};
ghost use Rattle.ceal_parse.specs.Reading.{is_name, turn_state};

use crate::head::no_head;
use crate::marks::{is_sign, is_word, name, same_sign};
use crate::statement::{end_statement, open_block, take_word};
use crate::turn::{Turn, begin_statement, no_expr, put, stand};
use ceal_base::fault::Span;
use ceal_base::items::Items;
use ceal_base::no_memory::NoMemory;
use ceal_base::syntax::{Entry, Expr, FunctionDecl, Stmt, Stmts};
use ceal_grammar::state::{Chained, Inside, Mode, Opened, Owner, Receiver, State};
use ceal_lex::token::{Reserved, Sign, Token, TokenKind};
use std::alloc::Global;
use std::mem;

fn owner_mode(owner: Owner, body: Stmts) -> Mode
    ensures value { result ≡ mode_after_block owner body }
{
    match owner {
        Owner::While(at, test) => Mode::Ended(Stmt::While(at, test, body)),
        Owner::Then(at, test) => Mode::Closed(at, test, body),
        Owner::Else(at, test, first) => Mode::Ended(Stmt::If(at, test, first, body)),
    }
}

/// Puts the function, whose body ends at `}`, after the entries before it.
#[inline(never)]
fn close_function(alloc: Global, inside: &mut Inside, at: Span) -> Result<(), NoMemory>
    ensures value { IfOk result
        (λ _. State.Top inside.new.entries
        ≡ block_closed inside.old.entries inside.old.head inside.old.done [] at) }
{
    let head = mem::replace(&mut inside.head, no_head(alloc, at));
    let body = mem::replace(&mut inside.done, Items::empty(alloc));
    inside.entries.push(Entry::Function(FunctionDecl {
        initialiser: head.initialiser,
        name: head.name,
        params: head.params,
        body,
        close: at,
    }))?;
    Ok(())
}

/// Goes back into what the block stood in, and gives the statements of the block.
fn leave_block(inside: &mut Inside, outer: Opened) -> Mode
    ensures value { State.In inside.new result
        ≡ block_closed inside.old.entries inside.old.head inside.old.done
        (outer ∷ inside.old.opened) (record { from = 0; to = 0 }) }
{
    let body = mem::replace(&mut inside.done, outer.before);
    put(&mut inside.chain, outer.chain);
    inside.base = outer.base;
    inside.nesting = outer.nesting;
    owner_mode(outer.owner, body)
}

/// The block that ends at `}`, or the function.
#[inline(never)]
fn close_block(
    alloc: Global,
    inside: &mut Inside,
    mode: &mut Mode,
    at: Span,
) -> Result<Turn, NoMemory>
    ensures value { IfOk result (λ turn. turn_state inside.new mode.new turn
        ≡ Some (block_closed inside.old.entries inside.old.head inside.old.done
        inside.old.opened at)) }
{
    match inside.opened.pop() {
        None => {
            close_function(alloc, inside, at)?;
            Ok(Turn::Closed)
        }
        Some(outer) => { Ok(stand(mode, leave_block(inside, outer))) }
    }
}

/// The name that a statement begins with.
fn take_subject(mode: &mut Mode, token: &mut Token) -> Turn
    requires named { is_name token.old.kind ≡ true }
    ensures value { (i : Inside) → turn_state i mode.new result
        ≡ at_body i token.old.span token.old.kind }
{
    match name(token) {
        Some(name) => stand(mode, Mode::Named(name)),
        None => Turn::Refused,
    }
}

/// The beginning of a statement, or the end of a block.
pub fn take_body(
    alloc: Global,
    inside: &mut Inside,
    mode: &mut Mode,
    token: &mut Token,
) -> Result<Turn, NoMemory>
    ensures value { IfOk result
        (λ turn. turn_state inside.new mode.new turn
        ≡ at_body inside.old token.old.span token.old.kind) }
{
    let at = token.span;
    match &token.kind {
        TokenKind::Name(_) => Ok(take_subject(mode, token)),
        TokenKind::Reserved(word) => Ok(take_word(mode, at, *word)),
        TokenKind::Sign(sign) => {
            if same_sign(*sign, Sign::RightBrace) {
                let turn = close_block(alloc, inside, mode, at)?;
                Ok(turn)
            } else {
                Ok(Turn::Refused)
            }
        }
        _ => Ok(Turn::Refused),
    }
}

/// Takes the token after a block that has ended.
#[inline(never)]
pub fn take_ends(
    alloc: Global,
    inside: &mut Inside,
    mode: &mut Mode,
    statement: Stmt,
    token: &Token,
) -> Result<Turn, NoMemory>
    ensures value { IfOk result (λ turn. turn_state inside.new mode.new turn
        ≡ at_ends inside.old statement token.now.kind) }
{
    if is_sign(token, Sign::Semicolon) {
        end_statement(alloc, inside, statement)?;
        Ok(begin_statement(mode))
    } else {
        drop(statement);
        Ok(Turn::Refused)
    }
}

/// The token after a statement that ends by itself.
#[inline(never)]
pub fn take_behind(
    alloc: Global,
    inside: &mut Inside,
    mode: &mut Mode,
    statement: Stmt,
    token: &mut Token,
) -> Result<Turn, NoMemory>
    ensures value { IfOk result (λ turn. turn_state inside.new mode.new turn
        ≡ at_body (with_statement inside.old statement) token.old.span token.old.kind) }
{
    end_statement(alloc, inside, statement)?;
    let turn = take_body(alloc, inside, mode, token)?;
    Ok(turn)
}

/// Takes the brace that opens a block.
#[inline(never)]
pub fn take_opens(
    alloc: Global,
    inside: &mut Inside,
    mode: &mut Mode,
    owner: Owner,
    token: &Token,
) -> Result<Turn, NoMemory>
    requires shallow { inside.old.nesting < 2 ^ 31 }
    ensures value { IfOk result (λ turn. turn_state inside.new mode.new turn
        ≡ at_opens inside.old owner token.now.kind) }
{
    if is_sign(token, Sign::LeftBrace) {
        open_block(alloc, inside, owner)?;
        Ok(begin_statement(mode))
    } else {
        drop(owner);
        Ok(Turn::Refused)
    }
}

/// The `if` whose first block was read, taken out of its place.
pub fn take_branch(alloc: Global, span: Span, test: &mut Expr, first: &mut Stmts) -> Chained
    ensures value { result ≡ record { span = span; test = test.old; first = first.old } }
{
    Chained {
        span,
        test: mem::replace(test, no_expr(span)),
        first: mem::replace(first, Items::empty(alloc)),
    }
}

/// The token after the first block of an `if`.
#[inline(never)]
pub fn take_closed(
    alloc: Global,
    inside: &mut Inside,
    mode: &mut Mode,
    branch: Chained,
    token: &mut Token,
) -> Result<Turn, NoMemory>
    ensures value { IfOk result (λ turn. turn_state inside.new mode.new turn
        ≡ at_closed inside.old branch.span branch.test branch.first token.old.span token.old.kind) }
{
    if is_word(token, Reserved::Else) {
        let next = Mode::Otherwise(branch.span, branch.test, branch.first);
        Ok(stand(mode, next))
    } else {
        let statement = Stmt::If(branch.span, branch.test, branch.first, Items::empty(alloc));
        let turn = take_behind(alloc, inside, mode, statement, token)?;
        Ok(turn)
    }
}

/// The `if` waits for the one that is its else part, and which `at` begins.
fn chain(inside: &mut Inside, mode: &mut Mode, branch: Chained, at: Span) -> Result<Turn, NoMemory>
    requires shallow { inside.old.nesting < 2 ^ 31 }
    ensures value { IfOk result (λ turn. turn_state inside.new mode.new turn
        ≡ Some (State.In (chained_in inside.old branch) (Mode.Before (Receiver.If at)))) }
{
    inside.chain.push(branch)?;
    inside.nesting += 1;
    Ok(stand(mode, Mode::Before(Receiver::If(at))))
}

/// The token after `else`.
#[inline(never)]
pub fn take_otherwise(
    alloc: Global,
    inside: &mut Inside,
    mode: &mut Mode,
    branch: Chained,
    token: &Token,
) -> Result<Turn, NoMemory>
    requires shallow { inside.old.nesting < 2 ^ 31 }
    ensures value { IfOk result (λ turn. turn_state inside.new mode.new turn
        ≡ at_otherwise inside.old branch.span branch.test branch.first token.now.span
        token.now.kind) }
{
    if is_word(token, Reserved::If) {
        let turn = chain(inside, mode, branch, token.span)?;
        Ok(turn)
    } else {
        let owner = Owner::Else(branch.span, branch.test, branch.first);
        let turn = take_opens(alloc, inside, mode, owner, token)?;
        Ok(turn)
    }
}
