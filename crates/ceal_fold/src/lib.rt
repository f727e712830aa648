//! Folding of trace code: inside each unit, copies and operators on constants are replaced, and a move that nothing
//! uses becomes a step that does nothing. These are constant folding, copy propagation and dead code elimination (Aho,
//! Lam, Sethi and Ullman, *Compilers*, 2006, section 9.1), with each step kept, so that counts of steps do not change.
//!
//! `fold` equals the definition in `specs/Folding`, and changes neither the validity of code nor its runs, nor the
//! traces that its units yield or that replay a call.
#![tactic(auto)]

mod copies;
mod expr;
pub mod fold;
mod known;
pub mod laws;
mod page;
mod replace;
mod shared;
mod unused;
mod uses;
mod vars;
