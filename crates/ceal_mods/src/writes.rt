// The writes of a place: a list of stamps, whose values only the proofs know.

ghost use Rattle.std.specs.Prelude.{◌≡◌, [], false, OnOk, OnErr, IsTrue, IfSome, IfNone};
ghost use Rattle.ceal_order.specs.Stamps.{is_in};
ghost use Rattle.ceal_order.specs.Rising.{IsRising, IsFirstAfter, NoneAfter};
ghost use Rattle.ceal_mods.specs.Writes.{stamps_of, last_of, those_before, with_one, without_one, AreTold};

use crate::values::Values;
use crate::written::Written;
use ceal_base::no_memory::NoMemory;
use ceal_base::word::Word;
use ceal_order::order::Order;
use ceal_order::rising::Rising;
use ceal_order::stamp::Stamp;
use std::alloc::Global;
use std::marker::Model;

/// Writes, whose stamps rise along the order that each call is handed. Contracts see each with its value, which the
/// caller tells where it is asked for.
#[derive(Drop)]
pub struct Writes {
    stamps: Rising,
    values: Values,
}

impl Model for Writes {
    ghost use Rattle.std.specs.Prelude.{◌≡◌, List, length};
    ghost use Rattle.ceal_mods.specs.Writes.{Write, written};

    ghost Value = { List Write };

    ghost view = { λ w. written w.stamps w.values.list };

    ghost invariant = { λ w. length w.stamps ≡ length w.values.list };
}

impl Writes {
    /// No writes.
    pub fn new(alloc: Global) -> Writes
        ensures { result ≡ [] }
    {
        Writes {
            stamps: Rising::new(alloc),
            values: Values::new(),
        }
    }

    /// The value of the latest write before a stamp, the base where there is none.
    #[inline]
    pub fn before<W: Written>(&self, order: &Order, written: &W, stamp: Stamp, base: Word) -> Word
        requires here { IsTrue (is_in stamp.0 order.now.stamps) }
        requires rising { IsRising order.now.stamps (stamps_of self.now) }
        requires values { AreTold (W.tells written.now) self.now }
        ensures { result ≡ last_of base (those_before order.now.stamps stamp.0 self.now) }
    {
        match self.stamps.last_before(order, stamp) {
            None => base,
            Some(write) => written.written_at(write),
        }
    }

    /// The value of the latest write, the base where there is none.
    #[inline(always)]
    pub fn last<W: Written>(&self, written: &W, base: Word) -> Word
        requires values { AreTold (W.tells written.now) self.now }
        ensures { result ≡ last_of base self.now }
    {
        match self.stamps.last() {
            None => base,
            Some(write) => written.written_at(write),
        }
    }

    /// The nearest write after a stamp.
    pub fn first_after(&self, order: &Order, stamp: Stamp) -> Option<Stamp>
        requires here { IsTrue (is_in stamp.0 order.now.stamps) }
        requires rising { IsRising order.now.stamps (stamps_of self.now) }
        ensures some { IfSome result
            (λ next. IsFirstAfter order.now.stamps (stamps_of self.now) stamp.0 next.0) }
        ensures here { IfSome result (λ next. IsTrue (is_in next.0 order.now.stamps)) }
        ensures none { IfNone result (NoneAfter order.now.stamps (stamps_of self.now) stamp.0) }
    {
        self.stamps.first_after(order, stamp)
    }

    /// Puts in a write at a stamp that has none. Its value is not kept: the caller tells it later, by its stamp.
    #[inline(always)]
    pub fn add(&mut self, order: &Order, stamp: Stamp, value: Word) -> Result<(), NoMemory>
        requires here { IsTrue (is_in stamp.0 order.now.stamps) }
        requires rising { IsRising order.now.stamps (stamps_of self.old) }
        requires absent { is_in stamp.0 (stamps_of self.old) ≡ false }
        ensures ok { OnOk result (self.new ≡ with_one order.now.stamps stamp.0 value self.old) }
        ensures err { OnErr result (self.new ≡ self.old) }
        ensures rising { IsRising order.now.stamps (stamps_of self.new) }
    {
        let at = self.stamps.insert(order, stamp)?;
        self.values.insert(at, &value);
        Ok(())
    }

    /// Takes out the write at a stamp that has one.
    pub fn remove(&mut self, order: &Order, stamp: Stamp)
        requires here { IsTrue (is_in stamp.0 order.now.stamps) }
        requires rising { IsRising order.now.stamps (stamps_of self.old) }
        requires there { IsTrue (is_in stamp.0 (stamps_of self.old)) }
        ensures writes { self.new ≡ without_one stamp.0 self.old }
        ensures rising { IsRising order.now.stamps (stamps_of self.new) }
    {
        let at = self.stamps.remove(order, stamp);
        self.values.remove(at);
    }
}
