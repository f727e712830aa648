//! A text of a tree, which reads back as the same tree apart from spans.
//!
//! `print` has the call and what it promises (`specs/Print`). `text` adds single tokens, `expressions`, `statements`
//! and `entries` add the parts of a program, each above the one before; `specs/PrintWords` says which tokens those are.
#![tactic(auto)]

mod entries;
mod expressions;
pub mod print;
mod statements;
mod text;
