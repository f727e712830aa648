//! The tree of a program's tokens, or the first fault in them.
//!
//! `parse` and `parse_owned` answer the tree of the tokens of a program that keeps the limits, and else the first of
//! the faults S3 to S6. What these are is said in `ceal_grammar`, with the machine whose states the parser has. The
//! parser is one value: it takes a token at a time and writes through borrows, so that what was read stays where it is
//! (`specs/Reading` says how its answers leave the machine). `turn` has those answers. `typing`, `expression` (over
//! `piece` and `operand`), `making`, `statement`, `body` (over `ended` and `block`), `structs` and `head` take a token
//! within a part of a program, `limits` counts, and `marks` says what a token is.
#![tactic(auto)]

mod block;
mod body;
mod copies;
mod ended;
mod expression;
mod head;
mod limits;
mod making;
mod marks;
mod operand;
pub mod parse;
mod parser;
mod piece;
mod statement;
mod structs;
mod turn;
mod typing;
