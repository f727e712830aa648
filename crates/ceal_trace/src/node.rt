// What a trace holds at a stamp.

use ceal_base::forest::{Key, UnitId};
use ceal_base::word::{BlockId, Place, Word};
use ceal_base::words::Words;
use ceal_order::stamp::Stamp;

/// A node of a trace (the nodes of a dynamic dependence graph: Acar, *Self-Adjusting Computation*, 2005).
#[derive(Drop)]
pub enum Node {
    /// the first node
    Root,
    Alloc {
        block: BlockId,
        key: Key,
    },
    Write {
        place: Place,
        value: Word,
    },
    /// a read with its closure: the unit that continues, the variable that takes the value, and the arguments
    Read {
        place: Place,
        value: Word,
        unit: UnitId,
        var: u32,
        args: Words,
    },
    /// the end of all that runs because of a read
    End {
        read: Stamp,
    },
}

/// A node of a trace, seen where it is.
#[derive(Clone, Copy)]
pub enum Seen<'a> {
    Root,
    Alloc {
        block: BlockId,
        key: &'a Key,
    },
    Write {
        place: Place,
        value: Word,
    },
    Read {
        place: Place,
        value: Word,
        unit: UnitId,
        var: u32,
        args: &'a Words,
    },
    End {
        read: Stamp,
    },
}

/// A read of a trace, seen where it is.
#[derive(Clone, Copy)]
pub struct SeenRead<'a> {
    pub place: Place,
    pub value: Word,
    pub unit: UnitId,
    pub var: u32,
    pub args: &'a Words,
}

/// What a removed node held, and its steps.
#[derive(Drop)]
pub struct Gone {
    pub node: Node,
    pub steps: u32,
}
