//! The record of a run: its inputs, its call, its trace with the core blocks numbered in the order of their
//! allocations, and the memory after it.
//!
//! `record` makes it from any trace of a call, whatever the numbers of its blocks. `specs/Recorded` says what it is; by
//! the laws of `laws` a trace has one record, and a trace that is renamed has the same.
#![tactic(auto)]

pub mod laws;
mod memory;
mod numbers;
pub mod record;
