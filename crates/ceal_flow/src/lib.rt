//! The graph of a program: one block for each statement of its core functions, and jumps between them.
//!
//! The definitions are in `specs/`: the blocks of a statement by cases on its form (`Blocks`), the graph of a
//! program and the place of each block (`Lowering`), the run of a graph from nothing (`Fresh`), paths (`Paths`) and
//! live variables (`Live`). `lower` gives the graph, which runs as the program does. The other laws of graphs are in
//! `laws`.
#![tactic(auto)]

mod bits;
pub mod block;
mod exits;
pub mod function;
pub mod graph;
pub mod laws;
pub mod limit;
pub mod live_set;
pub mod live_sets;
pub mod lower;
mod size;
mod statements;
