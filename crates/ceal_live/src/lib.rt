//! Liveness: which variables each block of a graph may still need.
//!
//! `live` equals the definition by paths in `ceal_flow` (`AreLiveSets`). It begins with the variables that each block
//! uses and goes round the blocks until nothing changes. What is live at a block is what it uses, and what is live
//! where it jumps to and it does not assign (the iterative solution of data flow equations; Kildall, POPL 1973).
#![tactic(auto)]

pub mod live;
mod round;
mod uses;
