// A node in two parts: a small one, and what few nodes have.

ghost use Rattle.std.specs.Prelude.{◌≡◌, Some, IsSome};
ghost use Rattle.ceal_trace.specs.Nodes.{seen, ended_by};
ghost use Rattle.ceal_trace.specs.Shelves.{whole, or_root, closure_of, Joined, held_valued};

use crate::node::{Node, Seen};
use ceal_base::forest::{Key, UnitId};
use ceal_base::word::{BlockId, Place};
use ceal_base::words::Words;
use ceal_order::packed::{Halves, Packed};
use ceal_order::stamp::Stamp;
use slab::Slab;

/// A node but for its key or its closure, the second part, which has a key in another slab. All of it is in numbers of
/// 32 bits, so that the slab's tag takes no more than that.
#[derive(Drop)]
pub enum Held {
    Root,
    Alloc {
        block: BlockId,
        apart: Halves,
    },
    Write {
        place: Place,
        value: Packed,
    },
    Read {
        value: Packed,
        var: u32,
        apart: Halves,
    },
    End {
        read: Stamp,
    },
}

/// The second part: the key of an allocation, or the closure of a read but for its variable. A closure is one of two
/// variants, for a place in an input and for one in a core block, so that its place takes eight bytes.
#[derive(Drop)]
pub enum Apart {
    Key(Key),
    OfInput {
        block: u32,
        field: u32,
        unit: UnitId,
        args: Words,
    },
    OfCore {
        block: u32,
        field: u32,
        unit: UnitId,
        args: Words,
    },
}

/// Joins a node, and takes its second part out.
pub fn join(apart: &mut Slab<Apart>, held: Held) -> Node
    requires { IsSome (whole apart.old held) }
    ensures { Joined apart.old apart.new held result }
{
    match held {
        Held::Root => Node::Root,
        Held::Alloc { block, apart: at } => match apart.remove(at.number() as usize) {
            Apart::Key(key) => Node::Alloc { block, key },
            Apart::OfInput { .. } => unreachable!(),
            Apart::OfCore { .. } => unreachable!(),
        },
        Held::Write { place, value } => Node::Write {
            place,
            value: value.word(),
        },
        Held::Read {
            value,
            var,
            apart: at,
        } => match apart.remove(at.number() as usize) {
            Apart::OfInput {
                block,
                field,
                unit,
                args,
            } => Node::Read {
                place: place_in(BlockId::Input(block), field),
                value: value.word(),
                unit,
                var,
                args,
            },
            Apart::OfCore {
                block,
                field,
                unit,
                args,
            } => Node::Read {
                place: place_in(BlockId::Core(block), field),
                value: value.word(),
                unit,
                var,
                args,
            },
            Apart::Key(_key) => unreachable!(),
        },
        Held::End { read } => Node::End { read },
    }
}

/// Drops the second part of a node in place, and returns the read that the node ends.
#[inline]
pub fn release(apart: &mut Slab<Apart>, held: Held) -> Option<Stamp>
    requires { IsSome (whole apart.old held) }
    ensures released { Joined apart.old apart.new held (or_root (whole apart.old held)) }
    ensures ended { result ≡ ended_by (or_root (whole apart.old held)) }
{
    match held {
        Held::Root => None,
        Held::Alloc { apart: at, .. } => {
            drop(apart.remove(at.number() as usize));
            None
        }
        Held::Write { .. } => None,
        Held::Read { apart: at, .. } => {
            drop(apart.remove(at.number() as usize));
            None
        }
        Held::End { read } => Some(read),
    }
}

/// A node, seen where it is. The function is always inlined, so that a part that nobody asks for is not unpacked.
#[inline(always)]
pub fn look<'a>(apart: &'a Slab<Apart>, held: &'a Held) -> Seen<'a>
    requires { IsSome (whole apart.now held.now) }
    ensures { whole apart.now held.now ≡ Some (seen result) }
{
    match held {
        Held::Root => Seen::Root,
        Held::Alloc { block, apart: at } => match &apart[at.number() as usize] {
            Apart::Key(key) => Seen::Alloc { block: *block, key },
            Apart::OfInput { .. } => unreachable!(),
            Apart::OfCore { .. } => unreachable!(),
        },
        Held::Write { place, value } => Seen::Write {
            place: *place,
            value: value.word(),
        },
        Held::Read {
            value,
            var,
            apart: at,
        } => match &apart[at.number() as usize] {
            Apart::OfInput {
                block,
                field,
                unit,
                args,
            } => Seen::Read {
                place: place_in(BlockId::Input(*block), *field),
                value: value.word(),
                unit: *unit,
                var: *var,
                args,
            },
            Apart::OfCore {
                block,
                field,
                unit,
                args,
            } => Seen::Read {
                place: place_in(BlockId::Core(*block), *field),
                value: value.word(),
                unit: *unit,
                var: *var,
                args,
            },
            Apart::Key(_key) => unreachable!(),
        },
        Held::End { read } => Seen::End { read: *read },
    }
}

// A field of a block.
#[inline]
fn place_in(block: BlockId, field: u32) -> Place
    ensures { result ≡ record { block = block; field = field } }
{
    Place { block, field }
}

/// Gives a read another value.
pub fn give_value(held: &mut Held, value: Packed)
    ensures { held.new ≡ held_valued value held.old }
{
    if let Held::Read { value: kept, .. } = held {
        *kept = value;
    }
}

/// The closure of a read but for its variable, as a second part.
#[inline]
pub fn closure(place: Place, unit: UnitId, args: Words) -> Apart
    ensures { result ≡ closure_of place unit args }
{
    match place.block {
        BlockId::Input(block) => Apart::OfInput {
            block,
            field: place.field,
            unit,
            args,
        },
        BlockId::Core(block) => Apart::OfCore {
            block,
            field: place.field,
            unit,
            args,
        },
    }
}
