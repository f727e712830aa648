// A trace that is handed on, with the call that it is of and the memory that it left.

use crate::forest::Forest;
use crate::memory::{Inputs, Memory};
use crate::words::Words;

/// A trace on record: the inputs with their bases, the call of a core function by its number, the flat items of the
/// trace, and the memory after it. The core blocks of the memory are in the order of their allocations, and its words
/// name them by the numbers that the trace gives them.
#[derive(Drop)]
pub struct Record {
    pub inputs: Inputs,
    pub function: u32,
    pub args: Words,
    pub forest: Forest,
    pub memory: Memory,
}
