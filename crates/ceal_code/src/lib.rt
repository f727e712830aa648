//! Trace code: commands in units, which a change-propagating runtime runs and re-executes, as it does the closures of
//! CEAL's compiled code (Hammer, Acar and Chen, PLDI 2009).
//!
//! `specs/` says what code means: the value of an expression, one step of a run, the run from scratch, the trace that a
//! run leaves, when a trace replays a call and is honest, and when code is valid. `validate` says exactly when code is
//! valid, and `listing` is its text.
//!
//! The code runs, too, over anything that has plain words (`plain_words`): `evaluate` gives the values of expressions,
//! `initialise` what an allocation makes, and `step` the next step of a `stack`. `trace_memory` is the memory that a
//! trace leaves, item by item.
#![tactic(auto)]

mod binding;
mod branches;
mod check;
pub mod code;
pub mod command;
mod contents;
pub mod evaluate;
pub mod expr;
pub mod function;
pub mod initialise;
mod initialiser;
pub mod laws;
pub mod listing;
mod paths;
pub mod plain_words;
mod settle;
pub mod stack;
pub mod step;
mod text;
pub mod trace_memory;
mod tree;
mod typing;
pub mod unit;
pub mod validate;
pub mod waits;
