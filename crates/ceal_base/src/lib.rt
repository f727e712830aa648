//! What every part of the compiler and of the runtime speaks of: values and memory, the trees of a program,
//! the forest of a trace, faults, and the operators of the language.
//!
//! Contracts see a type that holds a list as that list, or as the record of its parts. The definitions are in
//! `specs/`: the operators as equations, memory and its blocks, a trace as tree data with its flat list, and
//! memories that are one up to the numbers of their core blocks.
#![tactic(auto)]

pub mod access;
pub mod boxed;
pub mod call;
pub mod copies;
pub mod count;
pub mod digits;
pub mod fault;
pub mod fitting;
pub mod forest;
pub mod hashing;
pub mod items;
pub mod kind;
pub mod laws;
pub mod memory;
pub mod no_memory;
pub mod operators;
pub mod recorded;
pub mod shapes;
pub mod syntax;
pub mod text;
pub mod typed;
pub mod word;
pub mod words;
