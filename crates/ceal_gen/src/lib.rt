//! Workloads: large inputs that a number stands for.
//!
//! A workload is a program, the mark `%%` and a script that makes a list or a tree of the size asked for, runs the
//! program on it and edits it. Its numbers are drawn by a linear congruence from a seed, so that the same words give
//! the same text. `specs/` has the draws and the text by lines.
#![tactic(auto)]

mod draws;
pub mod kind;
mod list;
mod names;
pub mod programs;
pub mod text;
mod tree;
