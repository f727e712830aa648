//! From the bytes of an input to the program of its source part and to its trace code, or to its first fault.
//!
//! `compile` goes through the phases: characters and tokens, the grammar, names and types, the rules of usage, the
//! limit on blocks; then graph, live variables, units and their folding. `specs/Source` says what an input comes to, by
//! the definitions of the phases, and `specs/Compiled` what the code is; `fault_line` tells a fault by its line and
//! column.
#![tactic(auto)]

pub mod compile;
pub mod fault_line;
pub mod laws;
mod position;
pub mod program;
