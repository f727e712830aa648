//! The lists of the modifiables: for each place a base, its writes and its reads by stamp.
//!
//! What a place holds at a stamp is the value of the latest write before it, else the base. Contracts see the cells of
//! the places that were touched, and how often a value was looked up. The order belongs to the caller: each call that
//! speaks of time is handed it, and what is kept follows it.
//!
//! `mods` has the calls over the cells of all places, `cell` the lists of one place, and `writes` the stamps of its
//! writes. Their `values` only the proofs know: who asks for one hands in a `written`, as a trace is, that tells them.
//! `laws` says along which orders the cells still follow, and which stamps there are after a change. Inside, the cells
//! are in one vector, which `entries` changes, and an `index` leads from a place to its cell, by rows of `slots`.
//! `marks` has what the places held when they were marked and the slots of cells that may hold something else since,
//! and `ends` the loops over them.
#![tactic(auto)]

mod cell;
mod ends;
mod entries;
mod index;
pub mod laws;
mod marks;
pub mod mods;
mod slots;
mod values;
mod writes;
pub mod written;
