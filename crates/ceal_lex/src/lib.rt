//! The parts of an input, and the tokens of its source part.
//!
//! `split` finds the line `%%` between the source part and the script. `lex` reads the source part as white space,
//! comments and tokens, or finds the first fault in it. The definitions are in `specs/`: which bytes spell which token,
//! which pieces a source is made of, and which faults there are where none continues. The form of an input and of its
//! tokens is this project's own.
#![tactic(auto)]

mod characters;
mod comments;
mod front;
pub mod lex;
mod number;
pub mod parts;
mod signs;
pub mod split;
pub mod token;
mod words;
