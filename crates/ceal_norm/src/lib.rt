//! From the graph of a program to trace code.
//!
//! This is the normalisation of CEAL (Hammer, Acar and Chen, PLDI 2009), by which what follows a read is a unit; which
//! other blocks begin one is our own. Each entry of the graph (`specs/Entries`) heads a tree of blocks, which becomes a
//! unit (`specs/Units`). A unit's parameters are exactly the variables that are live at its entry. `normalise` makes
//! the code; `laws` says that it is valid and runs as the graph does.
#![tactic(auto)]

mod body;
mod commands;
mod entries;
mod expressions;
mod functions;
mod initialiser;
pub mod laws;
pub mod normalise;
mod number;
mod plan;
mod units;
