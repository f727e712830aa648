// A call of a core function.

use crate::words::Words;

/// A call of a core function: its number, and its arguments.
#[derive(Drop)]
pub struct Call {
    pub function: u32,
    pub args: Words,
}
