// The lists of one place.

ghost use Rattle.std.specs.Prelude.{◌≡◌, ℕ, [], IsTrue, IfSome, IfNone, IfOk};
ghost use Rattle.ceal_order.specs.Stamps.{is_in};
ghost use Rattle.ceal_mods.specs.Writes.{AreTold};
ghost use Rattle.ceal_mods.specs.Cell.{untouched, latest_value, with_write, with_read, Rises, Sees, IsAffected};

use crate::writes::Writes;
use crate::written::Written;
use ceal_base::no_memory::NoMemory;
use ceal_base::word::Word;
use ceal_order::order::Order;
use ceal_order::rising::Rising;
use ceal_order::stamp::Stamp;
use std::alloc::Global;

/// A modifiable: what it holds before any write, its writes, and its reads.
#[derive(Drop)]
pub struct Cell {
    pub base: Word,
    pub writes: Writes,
    pub reads: Rising,
}

impl Cell {
    /// A modifiable with only a base.
    pub fn new(alloc: Global, base: Word) -> Cell
        ensures { result ≡ record { base = base; writes = []; reads = [] } }
    {
        Cell {
            base,
            writes: Writes::new(alloc),
            reads: Rising::new(alloc),
        }
    }

    /// A modifiable that is written once.
    pub fn written(
        alloc: Global,
        order: &Order,
        stamp: Stamp,
        value: Word,
    ) -> Result<Cell, NoMemory>
        requires here { IsTrue (is_in stamp.0 order.now.stamps) }
        ensures cell { IfOk result (λ c. c ≡ with_write order.now.stamps stamp.0 value untouched) }
        ensures rises { IfOk result (Rises order.now.stamps) }
    {
        let mut writes = Writes::new(alloc);
        writes.add(order, stamp, value)?;
        Ok(Cell {
            base: Word::Num(0),
            writes,
            reads: Rising::new(alloc),
        })
    }

    /// A modifiable that is read once.
    pub fn read(alloc: Global, order: &Order, stamp: Stamp) -> Result<Cell, NoMemory>
        requires here { IsTrue (is_in stamp.0 order.now.stamps) }
        ensures cell { IfOk result (λ c. c ≡ with_read order.now.stamps stamp.0 untouched) }
        ensures rises { IfOk result (Rises order.now.stamps) }
    {
        let mut reads = Rising::new(alloc);
        reads.insert(order, stamp)?;
        Ok(Cell {
            base: Word::Num(0),
            writes: Writes::new(alloc),
            reads,
        })
    }

    /// What it holds at the end.
    pub fn end<W: Written>(&self, written: &W) -> Word
        requires values { AreTold (W.tells written.now) self.now.writes }
        ensures { result ≡ latest_value self.now }
    {
        self.writes.last(written, self.base)
    }

    /// The earliest read after a stamp that no write parts from it.
    pub fn affected(&self, order: &Order, after: Stamp) -> Option<Stamp>
        requires here { IsTrue (is_in after.0 order.now.stamps) }
        requires rises { Rises order.now.stamps self.now }
        ensures some { IfSome result (λ read. IsAffected order.now.stamps self.now after.0 read.0) }
        ensures here { IfSome result (λ read. IsTrue (is_in read.0 order.now.stamps)) }
        ensures none { IfNone result ((read : ℕ) → ¬ Sees order.now.stamps self.now after.0 read) }
    {
        if self.reads.is_empty() {
            return None;
        }
        let read = self.reads.first_after(order, after)?;
        match self.writes.first_after(order, after) {
            None => Some(read),
            Some(write) => {
                if order.before(write, read) {
                    None
                } else {
                    Some(read)
                }
            }
        }
    }
}
