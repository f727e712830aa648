// Statements. A `take_..` takes one token, and answers where the reading is after it, or None where no program
// continues this way.

ghost use Rattle.std.specs.Prelude.{◌≡◌, ◌∷◌, ◌<◌, ◌^◌, [], IfOk};
ghost use Rattle.ceal_base.specs.declared.syntax.Stmt.TheViews.{If};
ghost use Rattle.ceal_grammar.specs.Machine.{state_in, new_whole, at_operand, type_begin, chain_statement};
ghost use Rattle.ceal_grammar.specs.Machine.{with_statement, ends_at};
ghost use Rattle.ceal_grammar.specs.Machine.{opened_by, at_word, at_statement, at_typing, at_declared, at_owned};
ghost use Rattle.ceal_grammar.specs.Machine.{at_path, at_calls, at_before, at_named, at_reached, at_first, path_of};
ghost use Rattle.ceal_grammar.specs.Machine.{field_of};
ghost use Rattle.ceal_parse.specs.Reading.{turn_state};

use crate::expression::{begin, take_whole};
use crate::making::call;
use crate::marks::{is_sign, name, same_sign, same_word};
use crate::turn::{Turn, begin_statement, stand};
use crate::typing::{begin_type, take_type};
use ceal_base::boxed::Boxed;
use ceal_base::fault::Span;
use ceal_base::items::Items;
use ceal_base::no_memory::NoMemory;
use ceal_base::syntax::{Expr, ExprForm, Ident, Stmt, Stmts, TypeForm};
use ceal_grammar::stack::Stack;
use ceal_grammar::state::{
    Callee, Chained, Inside, Mode, Opened, Owner, Place, Receiver, State, Target, TypePart, Typing,
};
use ceal_lex::token::{Reserved, Sign, Token};
use std::alloc::Global;
use std::mem;

/// The `if` whose else part is the statement.
fn otherwise(alloc: Global, outer: Chained, statement: Stmt) -> Result<Stmt, NoMemory>
    ensures value { IfOk result (λ st. st ≡ If outer.span outer.test outer.first (statement ∷ [])) }
{
    let mut other = Items::empty(alloc);
    match other.push(statement) {
        Ok(()) => Ok(Stmt::If(outer.span, outer.test, outer.first, other)),
        Err(NoMemory) => {
            drop(outer);
            Err(NoMemory)
        }
    }
}

/// The statement once each `if` that it is the else part of has ended with it.
#[tactic(auto, unfolding(ceal_grammar::specs::Machine::chain_statement))]
fn wrap(alloc: Global, chain: &mut Stack<Chained>, statement: Stmt) -> Result<Stmt, NoMemory>
    ensures value { IfOk result
        (λ st. (st ≡ chain_statement chain.old statement) × (chain.new ≡ [])) }
{
    match chain.pop() {
        None => Ok(statement),
        Some(outer) => {
            let whole = otherwise(alloc, outer, statement)?;
            let all = wrap(alloc, chain, whole)?;
            Ok(all)
        }
    }
}

/// Puts the statement after those of its block, with each `if` that ends with it.
#[inline(never)]
fn end_chain(alloc: Global, inside: &mut Inside, statement: Stmt) -> Result<(), NoMemory>
    ensures value { IfOk result (λ _. inside.new ≡ with_statement inside.old statement) }
{
    let whole = wrap(alloc, &mut inside.chain, statement)?;
    inside.done.push(whole)?;
    inside.nesting = inside.base;
    Ok(())
}

/// Puts the statement, which has ended, after those of its block.
#[tactic(auto, unfolding(ceal_grammar::specs::Machine::chain_statement))]
pub fn end_statement(alloc: Global, inside: &mut Inside, statement: Stmt) -> Result<(), NoMemory>
    ensures value { IfOk result (λ _. inside.new ≡ with_statement inside.old statement) }
{
    if inside.chain.is_empty() {
        inside.done.push(statement)?;
        inside.nesting = inside.base;
        Ok(())
    } else {
        end_chain(alloc, inside, statement)?;
        Ok(())
    }
}

/// The statement at a sign that may be its semicolon.
pub fn take_end(
    alloc: Global,
    inside: &mut Inside,
    mode: &mut Mode,
    statement: Stmt,
    sign: Sign,
) -> Result<Turn, NoMemory>
    ensures value { IfOk result
        (λ turn. turn_state inside.new mode.new turn ≡ ends_at inside.old statement sign) }
{
    if same_sign(sign, Sign::Semicolon) {
        end_statement(alloc, inside, statement)?;
        Ok(begin_statement(mode))
    } else {
        drop(statement);
        Ok(Turn::Refused)
    }
}

/// No statements of a block that opens. There is room for one at first, since many blocks have no more.
fn no_statements(alloc: Global) -> Result<Stmts, NoMemory>
    ensures nothing { IfOk result (λ statements. statements ≡ []) }
{
    let statements = Vec::with_capacity(alloc, 1)?;
    Ok(Items::new(statements))
}

/// Opens a block.
#[inline(never)]
pub fn open_block(alloc: Global, inside: &mut Inside, owner: Owner) -> Result<(), NoMemory>
    requires shallow { inside.old.nesting < 2 ^ 31 }
    ensures value { IfOk result (λ _. State.In inside.new Mode.Body ≡ opened_by inside.old owner) }
{
    let statements = no_statements(alloc)?;
    let before = mem::replace(&mut inside.done, statements);
    let chain = mem::replace(&mut inside.chain, Stack::new(alloc));
    inside.opened.push(Opened {
        before,
        chain,
        owner,
        base: inside.base,
        nesting: inside.nesting,
    })?;
    inside.nesting += 1;
    inside.base = inside.nesting;
    Ok(())
}

fn take_statement(mode: &mut Mode, at: Span, word: Reserved) -> Turn
    ensures value { (i : Inside) → turn_state i mode.new result
        ≡ state_in i (at_statement at word) }
{
    if same_word(word, Reserved::If) {
        stand(mode, Mode::Before(Receiver::If(at)))
    } else if same_word(word, Reserved::While) {
        stand(mode, Mode::Before(Receiver::While(at)))
    } else if same_word(word, Reserved::Return) {
        stand(mode, Mode::Ends(Stmt::Return(at)))
    } else if same_word(word, Reserved::Break) {
        stand(mode, Mode::Ends(Stmt::Break(at)))
    } else if same_word(word, Reserved::Continue) {
        stand(mode, Mode::Ends(Stmt::Continue(at)))
    } else if same_word(word, Reserved::Write) {
        stand(mode, Mode::Before(Receiver::Write(at)))
    } else if same_word(word, Reserved::Own) {
        stand(mode, Mode::Owned(at))
    } else {
        Turn::Refused
    }
}

/// A reserved word at the beginning of a statement.
pub fn take_word(mode: &mut Mode, at: Span, word: Reserved) -> Turn
    ensures value { (i : Inside) → turn_state i mode.new result
        ≡ state_in i (at_word at word (type_begin word)) }
{
    match begin_type(word) {
        Some(part) => stand(mode, Mode::Typing(at, part)),
        None => take_statement(mode, at, word),
    }
}

/// Takes a token within the type of a declaration.
#[inline(never)]
pub fn take_typing(mode: &mut Mode, at: Span, part: TypePart, token: &mut Token) -> Turn
    ensures value { (i : Inside) → turn_state i mode.new result
        ≡ state_in i (at_typing at part token.old.span token.old.kind) }
{
    match take_type(false, part, token) {
        Some(Typing::More(part)) => stand(mode, Mode::Typing(at, part)),
        Some(Typing::Named(form, name)) => stand(mode, Mode::Declared(at, form, name)),
        None => Turn::Refused,
    }
}

/// Takes the token after a declared name.
#[inline(never)]
pub fn take_declared(mode: &mut Mode, at: Span, form: TypeForm, name: Ident, token: &Token) -> Turn
    ensures value { (i : Inside) → turn_state i mode.new result
        ≡ state_in i (at_declared at form name token.now.kind) }
{
    if is_sign(token, Sign::Equals) {
        stand(mode, Mode::Value(Target::Declare(at, form, name)))
    } else {
        drop(form);
        drop(name);
        Turn::Refused
    }
}

/// The path that is only this name.
fn path(name: Ident) -> Expr
    ensures value { result ≡ path_of name }
{
    Expr {
        span: name.span,
        form: ExprForm::Var(name),
    }
}

/// The path and one more field.
fn field(alloc: Global, path: Expr, name: Ident) -> Result<Expr, NoMemory>
    ensures value { IfOk result (λ e. e ≡ field_of path name) }
{
    let span = path.span;
    let operand = Boxed::new(alloc, path)?;
    Ok(Expr {
        span,
        form: ExprForm::Field(operand, name),
    })
}

/// A name at the beginning of a statement was read.
#[inline(never)]
pub fn take_named(mode: &mut Mode, name: Ident, token: &Token) -> Turn
    ensures value { (i : Inside) → turn_state i mode.new result
        ≡ state_in i (at_named name token.now.kind) }
{
    if is_sign(token, Sign::Equals) {
        stand(mode, Mode::Value(Target::Assign(name)))
    } else if is_sign(token, Sign::LeftParenthesis) {
        stand(mode, Mode::First(Callee::Call(name)))
    } else if is_sign(token, Sign::Arrow) {
        stand(mode, Mode::Path(path(name), 1))
    } else {
        drop(name);
        Turn::Refused
    }
}

/// `self` at the beginning of a statement was read.
#[inline(never)]
pub fn take_owned(at: Span, token: &Token) -> Option<Mode>
    ensures value { result ≡ at_owned at token.now.kind }
{
    if is_sign(token, Sign::Arrow) {
        let path = Expr {
            span: at,
            form: ExprForm::Own,
        };
        Some(Mode::Path(path, 1))
    } else {
        None
    }
}

/// Takes a token of a path on the left of an assignment.
#[inline(never)]
pub fn take_path(path: Expr, arrows: u32, token: &mut Token) -> Option<Mode>
    ensures value { result ≡ at_path path arrows token.old.span token.old.kind }
{
    match name(token) {
        Some(name) => Some(Mode::Reached(path, name, arrows)),
        None => {
            drop(path);
            None
        }
    }
}

/// A field that a path has reached: what is before its arrow, its name, and the arrows so far.
#[derive(Drop)]
pub struct Reached {
    pub path: Expr,
    pub name: Ident,
    pub arrows: u32,
}

/// Takes the token after the field that a path has reached.
#[inline(never)]
pub fn take_reached(
    alloc: Global,
    nesting: u32,
    reached: Reached,
    token: &Token,
) -> Result<Option<Mode>, NoMemory>
    requires few { reached.arrows < 2 ^ 31 }
    ensures value { IfOk result
        (λ mode. mode
        ≡ at_reached nesting reached.path reached.name reached.arrows token.now.kind) }
{
    let Reached { path, name, arrows } = reached;
    if is_sign(token, Sign::Arrow) {
        let path = field(alloc, path, name)?;
        Ok(Some(Mode::Path(path, arrows + 1)))
    } else if is_sign(token, Sign::Equals) {
        let whole = begin(alloc, nesting, Receiver::Set(path, name));
        Ok(Some(Mode::Within(whole, Place::Want)))
    } else {
        drop(path);
        drop(name);
        Ok(None)
    }
}

/// Takes the token after the name of what is called.
#[inline(never)]
pub fn take_calls(callee: Callee, token: &Token) -> Option<Mode>
    ensures value { result ≡ at_calls callee token.now.kind }
{
    if is_sign(token, Sign::LeftParenthesis) {
        Some(Mode::First(callee))
    } else {
        drop(callee);
        None
    }
}

/// The first operand of the first argument.
fn first_argument(
    alloc: Global,
    nesting: u32,
    mode: &mut Mode,
    callee: Callee,
    token: &mut Token,
) -> Result<Turn, NoMemory>
    requires shallow { nesting < 2 ^ 31 }
    ensures value { IfOk result (λ turn. (i : Inside) → turn_state i mode.new turn
        ≡ state_in i
        (at_operand (new_whole nesting (Receiver.Argument callee []))
        token.old.span token.old.kind)) }
{
    let receiver = Receiver::Argument(callee, Items::empty(alloc));
    let turn = take_whole(alloc, nesting, mode, receiver, token)?;
    Ok(turn)
}

/// The first argument, or `)`.
#[inline(never)]
pub fn take_first(
    alloc: Global,
    nesting: u32,
    mode: &mut Mode,
    callee: Callee,
    token: &mut Token,
) -> Result<Turn, NoMemory>
    requires shallow { nesting < 2 ^ 30 }
    ensures value { IfOk result (λ turn. (i : Inside) → turn_state i mode.new turn
        ≡ state_in i (at_first nesting callee token.old.span token.old.kind)) }
{
    if is_sign(token, Sign::RightParenthesis) {
        Ok(stand(mode, Mode::Ends(call(callee, Items::empty(alloc)))))
    } else {
        let turn = first_argument(alloc, nesting + 1, mode, callee, token)?;
        Ok(turn)
    }
}

/// Takes the first token of a statement.
#[inline(never)]
pub fn take_before(
    alloc: Global,
    nesting: u32,
    mode: &mut Mode,
    receiver: Receiver,
    token: &Token,
) -> Turn
    requires shallow { nesting < 2 ^ 31 }
    ensures value { (i : Inside) → turn_state i mode.new result
        ≡ state_in i (at_before nesting receiver token.now.kind) }
{
    if is_sign(token, Sign::LeftParenthesis) {
        let whole = begin(alloc, nesting + 1, receiver);
        stand(mode, Mode::Within(whole, Place::Want))
    } else {
        drop(receiver);
        Turn::Refused
    }
}
