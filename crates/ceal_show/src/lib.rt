//! The text of the memory that a block reaches.
//!
//! `graph_text` writes a line for each block, breadth first. `specs/` says it without a search: a path is a list of
//! field numbers, a block's path is the least that leads to it, and the blocks are in the order of their paths. Core
//! blocks are numbered in that order, so that the text says nothing of their numbers inside. The form of the text is
//! this project's own.
#![tactic(auto)]

pub mod graph;
pub mod laws;
mod lines;
mod met;
mod reach;
pub mod view;
