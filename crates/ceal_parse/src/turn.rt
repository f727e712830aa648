// What the parser answers of a token, and how values change places.

ghost use Rattle.std.specs.Prelude.{◌≡◌, [], IfOk, if◌then◌else◌};

use ceal_base::boxed::Boxed;
use ceal_base::fault::Span;
use ceal_base::no_memory::NoMemory;
use ceal_base::syntax::{Expr, ExprForm, Ident};
use ceal_base::text::Text;
use ceal_grammar::state::Mode;
use ceal_lex::token::Sign;
use std::alloc::Global;
use std::mem;

/// A token within a whole expression.
#[derive(Clone, Copy)]
pub enum Part {
    /// no program continues this way
    Refused,
    /// the expression continues
    On,
    /// the expression has ended with the operand that was read, and this sign is after it
    Ended(Sign),
}

/// A token within a body.
#[derive(Clone, Copy)]
pub enum Turn {
    /// no program continues this way
    Refused,
    /// the body continues
    On,
    /// the function has ended, and is after the entries before it
    Closed,
}

/// Puts the value at the place, and drops the one that stood there.
pub fn put<T: Drop>(place: &mut T, value: T)
    ensures value { place.new ≡ value }
{
    *place = value;
}

#[cold]
#[inline(never)]
fn let_go(mode: Mode) {
    drop(mode);
}

/// Leaves a place whose parts were all taken out of it. Nothing is lost when it is forgotten, and a drop would go
/// through all that a place can hold.
pub fn leave(mode: &mut Mode)
    ensures value { mode.new ≡ Mode.Body }
{
    mem::forget(mem::replace(mode, Mode::Body));
}

/// Puts the next place in place of the beginning of a statement, which holds nothing. Only the drop of another place
/// goes through all that a place can hold.
pub fn settle(mode: &mut Mode, next: Mode)
    ensures value { mode.new ≡ next }
{
    match mode {
        Mode::Body => match mem::replace(mode, next) {
            Mode::Body => {}
            old => let_go(old),
        },
        _ => let_go(mem::replace(mode, next)),
    }
}

/// No name, which is left where one was taken away.
pub fn no_name(alloc: Global, at: Span) -> Ident
    ensures nothing { result ≡ record { text = []; span = at } }
{
    Ident {
        text: Text::empty(alloc),
        span: at,
    }
}

/// An expression that holds nothing, which is left where another was taken away.
pub(crate) fn no_expr(at: Span) -> Expr {
    Expr {
        span: at,
        form: ExprForm::Own,
    }
}

/// The body continues at this place.
pub fn stand(mode: &mut Mode, next: Mode) -> Turn
    ensures place { mode.new ≡ next }
    ensures on { result ≡ Turn.On }
{
    settle(mode, next);
    Turn::On
}

/// The body continues at the beginning of a statement.
pub fn begin_statement(mode: &mut Mode) -> Turn
    ensures place { mode.new ≡ Mode.Body }
    ensures on { result ≡ Turn.On }
{
    settle(mode, Mode::Body);
    Turn::On
}

/// The body continues, or no program continues this way.
pub fn going(on: bool) -> Turn
    ensures value { result ≡ (if on then Turn.On else Turn.Refused) }
{
    if on { Turn::On } else { Turn::Refused }
}

/// Both values on the heap.
pub fn boxed<T: Drop>(alloc: Global, first: T, second: T) -> Result<(Boxed<T>, Boxed<T>), NoMemory>
    ensures first { IfOk result (λ both. both.0 ≡ first) }
    ensures second { IfOk result (λ both. both.1 ≡ second) }
{
    let first = Boxed::new(alloc, first)?;
    let second = Boxed::new(alloc, second)?;
    Ok((first, second))
}
