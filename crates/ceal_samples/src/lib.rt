//! What the crates of tests share: `programs` with what the compiler makes of them, their input blocks (`inputs`),
//! whether a call may be run (`calls`), and a trace as text (`told`). It has no tests, and only tests use it.
#![tactic(auto)]

pub mod calls;
pub mod inputs;
pub mod programs;
pub mod told;
