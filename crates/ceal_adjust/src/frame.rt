// What a repair does now, and what follows.

use ceal_base::forest::Item;
use ceal_code::stack::Stack;

/// What is done now: old items are walked, or units run, with a number of levels of old items left over.
#[derive(Clone, Copy)]
pub enum Mode {
    Fixing,
    Running,
}

/// What follows the end of a read.
#[derive(Drop)]
pub enum Frame {
    /// the old items after it are walked
    Fix,
    /// the read was taken: units run, with what is left over after it
    Mend { below: Stack, levels: usize },
    /// the read was not taken: units run, with what the read's unit leaves over
    Run { below: Stack },
}

/// The machine has ended, or it continues: it has taken a step or not, and it writes an item or not.
#[derive(Drop)]
pub enum Turn {
    Ended,
    Went { stepped: bool, item: Option<Item> },
}
