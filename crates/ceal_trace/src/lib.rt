//! The trace of a run: its nodes in the order of time, each with the steps up to the next one.
//!
//! A node is an allocation, a write, a read or the end of a read; the first one is the root. Contracts see a trace as
//! the list of its nodes with their stamps and steps, and beside it how many may be inserted without taking memory.
//! Read as items, each node followed by its steps, that list is the flat forest of the run.
//!
//! `node` is what a node holds, `trace` the list and its calls, `laws` what that list has to do with the forest.
//! Inside, `table` finds the node of a stamp by its number, and `slot` is what it keeps of a stamp. The nodes are in
//! `shelf`, which is two slabs: of small parts, and of second parts (`held`); `new_node` is what is put in.
#![tactic(auto)]

mod held;
pub mod laws;
mod new_node;
pub mod node;
mod shelf;
mod slot;
mod table;
pub mod trace;
