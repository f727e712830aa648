//! The theory of repair: change propagation as a definition, and the laws that make its result that of a run from
//! scratch. It runs nothing; each law is the contract of a function that does nothing. Memoised change propagation is
//! that of Acar and others (Acar, *Self-Adjusting Computation*, 2005); to say it as a relation of traces and to prove
//! it consistent is that of Acar, Blume and Donham (2007).
//!
//! - `laws`: what a repair gives is a trace of the call, honest on the new inputs; there is one; a repair ends where
//!   the run from scratch ends. `specs/Take`, `Repair`, `Adjust` have the rules, `Computed` the same as a function.
//! - `names`: the numbers of new blocks are a parameter of the rules; with any of them the repair is the same one,
//!   renamed.
//! - `machine`: the repair, one move at a time, with its own stack (`Moves`), and over the flat list of old items.
//! - `walks`: the store along flat items, counts of items and of kept steps, and what is known on the way.
//! - `slices`: repairs in slices with edits between them, and turns, each a slice of one read.
//! - `carried`: such a repair with other numbers for its core blocks, as an engine has it from slice to slice.
//! - `queue`: which reads of an unfinished repair a queue must hold, and what keeps that.
//! - `courses`: inside a turn, what an engine does to its nodes is what the machine does in its moves.
//! - `cost`: a bound of the work by two first traces side by side.
#![tactic(auto)]

pub mod carried;
pub mod cost;
pub mod courses;
pub mod laws;
pub mod machine;
pub mod names;
pub mod queue;
pub mod slices;
pub mod walks;
