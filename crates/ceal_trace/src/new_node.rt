// The parts of a node that is put in.

ghost use Rattle.std.specs.Prelude.{◌≡◌};
ghost use Rattle.ceal_trace.specs.declared.node.Node.{Node};
ghost use Rattle.ceal_trace.specs.declared.node.Node.TheVariants as node;
ghost use Rattle.ceal_trace.specs.Shelves.{Split};
ghost use Rattle.slab.specs.Slab.{HasRoomFor};

use crate::held::{Apart, Held, closure};
use ceal_base::forest::{Key, UnitId};
use ceal_base::word::{BlockId, Place, Word};
use ceal_base::words::Words;
use ceal_order::packed::{Halves, Packed};
use ceal_order::stamp::Stamp;
use slab::Slab;

/// A node that is put in, as its parts. Each kind has a separate type, so that its parts go to where they stay, and no
/// whole node is made on the way.
pub trait NewNode {
    /// the node that these are the parts of
    ghost node: { Self → Node };

    /// Puts apart what is not in the small part, and gives the small part.
    fn split(self, apart: &mut Slab<Apart>) -> Held
        requires room { HasRoomFor apart.old 1 }
        ensures { Split apart.old apart.new (node self) result };
}

#[derive(Drop)]
pub struct NewRoot;

impl NewNode for NewRoot {
    ghost node = { λ _. node.Root };

    #[inline]
    fn split(self, _apart: &mut Slab<Apart>) -> Held {
        Held::Root
    }
}

pub struct NewAlloc {
    pub block: BlockId,
    pub key: Key,
}

impl NewNode for NewAlloc {
    ghost node = { λ n. node.Alloc n.block n.key };

    #[inline]
    fn split(self, apart: &mut Slab<Apart>) -> Held {
        let NewAlloc { block, key } = self;
        let at = apart.insert_reserved(Apart::Key(key));
        Held::Alloc {
            block,
            apart: Halves::of(at as u64),
        }
    }
}

pub struct NewWrite {
    pub place: Place,
    pub value: Word,
}

impl NewNode for NewWrite {
    ghost node = { λ n. node.Write n.place n.value };

    #[inline]
    fn split(self, _apart: &mut Slab<Apart>) -> Held {
        let NewWrite { place, value } = self;
        Held::Write {
            place,
            value: Packed::of(value),
        }
    }
}

pub struct NewRead {
    pub place: Place,
    pub value: Word,
    pub unit: UnitId,
    pub var: u32,
    pub args: Words,
}

impl NewNode for NewRead {
    ghost node = { λ n. node.Read n.place n.value n.unit n.var n.args };

    #[inline]
    fn split(self, apart: &mut Slab<Apart>) -> Held {
        let NewRead {
            place,
            value,
            unit,
            var,
            args,
        } = self;
        let at = apart.insert_reserved(closure(place, unit, args));
        Held::Read {
            value: Packed::of(value),
            var,
            apart: Halves::of(at as u64),
        }
    }
}

#[derive(Drop)]
pub struct NewEnd {
    pub read: Stamp,
}

impl NewNode for NewEnd {
    ghost node = { λ n. node.End n.read };

    #[inline]
    fn split(self, _apart: &mut Slab<Apart>) -> Held {
        Held::End { read: self.read }
    }
}
