//! The plain meaning of the language, and an interpreter that computes it.
//!
//! The definitions are in `specs/`: the value of an expression (`Value`), the block that an initialiser makes
//! (`Init`), what each statement does to a memory and a list of frames (`Exec`), and the run of a function from
//! nothing but its inputs (`Fresh`). They are total: a program that is not well typed has a meaning too.
//! `interpret` equals `fresh`, and the laws of `fresh` are in `laws`.
#![tactic(auto)]

mod activation;
pub mod eval;
pub mod init;
pub mod laws;
mod machine;
pub mod run;
mod todo;
