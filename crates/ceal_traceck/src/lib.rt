//! The checker of recorded traces: whether a trace on record is one of a call of the code, honest on the recorded
//! inputs, and left the recorded memory. It trusts nothing of the record and shares nothing with the engine that made
//! it but the meaning of trace code.
//!
//! `check` has the check, which goes through the items four times: for the blocks that they mention (`names`), for the
//! steps of the code (`replay`), for the contents that reads record (`honesty`), and for the memory (`memory`). A yes
//! is about the run from scratch by the law of `laws`.
#![tactic(auto)]

mod call;
pub mod check;
mod honesty;
pub mod laws;
mod memory;
mod names;
mod replay;
pub mod verdict;
