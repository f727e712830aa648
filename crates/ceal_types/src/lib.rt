//! Names and types: the tree of a source text becomes the program's tree with names resolved, or its first fault.
//!
//! `specs/` gives the typed tree of each form by one rule, with the fault that comes when the rule does not hold:
//! `Heads` for structs and the heads of functions, `Expressions`, `Statements`, and `Checked` for the whole. The walk
//! is part of the language: twice through the entries, heads and then bodies, and in text order within them. `check`
//! answers what `checked` says, and a program that it answers is well typed (`WellTyped` in ceal_base).
//!
//! Names are looked up in maps in the order in which they came (`table`), whose hashes begin with a seed made of those
//! names (`seed`), so that a program of many thousand names, whatever they are, takes about linear time. Functions
//! recurse as deep as expressions and blocks are nested, and not along statements or entries.
#![tactic(auto)]

pub mod check;
mod expressions;
mod heads;
mod kinds;
pub mod laws;
mod members;
pub mod names;
pub mod numbers;
mod program;
pub mod seed;
mod statements;
mod table;
mod values;
