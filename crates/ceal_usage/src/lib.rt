//! The rules of usage: fields are written only by initialisers, only on `self`, and an initialiser does nothing else;
//! `break` and `continue` are in loops.
//!
//! `specs/Faults.antt` lists the faults of a program in the order of the walk; `check_usage` answers the first. There
//! are none exactly when the program keeps the rules of usage (`KeepsUsage` in ceal_base).
#![tactic(auto)]

mod bodies;
pub mod check;
pub mod laws;
mod mention;
