//! Raw words: a region of memory with size classes, from which slots of 1 to 65,536 words are taken and given back.
//!
//! Each size class has one chunk of memory, cut into pieces of its length. A free piece holds the number of the
//! next free piece in its own first word. Contracts see a finite map from slots to their words, and for each length
//! how many slots of it can still be taken.
#![tactic(auto)]

mod block;
mod chunk;
mod lengths;
mod marks;
mod pool;
pub mod region;
pub mod slot;
