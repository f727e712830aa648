//! The queue of stale reads: a set of stamps, from which the earliest one before a limit is taken out.
//!
//! Contracts see the stamps as a list from the earliest to the latest, and beside it how many more can be put in
//! without taking memory. The order belongs to the caller: each call is handed it, and what is kept follows it.
//!
//! `stale` is the queue with its calls, over a stamp `ahead` of a list of `stamps`; `laws` says along which orders it
//! still follows.
#![tactic(auto)]

mod ahead;
pub mod laws;
pub mod stale;
mod stamps;
