//! The store of core blocks over raw words: what is live, what was revoked and can still be read, and which numbers
//! can be given out again.
//!
//! Contracts see the state of each number, with shape, words and slot of the blocks that are live or revoked, and
//! the region of raw words, whose slots are exactly those of these blocks.
//!
//! `heap` has the calls. `table` keeps the state of each number (`number`), those that were revoked, and those that are
//! free (`stack`); `pieces` keeps the words of blocks in slots, two cells a word (`cells`), but for the zeros and nulls
//! at their end (`parts`).
#![tactic(auto)]

mod cells;
pub mod heap;
mod number;
mod parts;
mod pieces;
mod stack;
mod table;
