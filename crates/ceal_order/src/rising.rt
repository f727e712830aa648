// Rising stamps.

ghost use Rattle.std.specs.Prelude.{◌≡◌, ◌↔◌, ◌<◌, ◌≤◌, [], ◌∷◌, Some, false, length, insert, remove, IfOk};
ghost use Rattle.std.specs.Prelude.{OnOk, OnErr, IsTrue, IfSome, IfNone, take};
ghost use Rattle.ceal_order.specs.Stamps.{is_in, place, without};
ghost use Rattle.ceal_order.specs.Rising.{numbers, count_before, last_stamp, IsRising, IsFirstAfter, NoneAfter};

use crate::order::Order;
use crate::short_list::ShortList;
use crate::stamp::Stamp;
use ceal_base::no_memory::NoMemory;
use std::alloc::Global;
use std::marker::Model;

/// Stamps, which contracts see as the list of their numbers. Each call that is handed an order needs that they rise
/// along it, and leaves them so.
#[derive(Drop)]
pub struct Rising {
    stamps: ShortList<Stamp>,
}

impl Model for Rising {
    ghost use Rattle.std.specs.Prelude.{List, ℕ};
    ghost use Rattle.ceal_order.specs.Rising.{numbers};

    ghost Value = { List ℕ };

    ghost view = { λ r. numbers r.stamps };
}

impl Rising {
    /// No stamps.
    pub fn new(alloc: Global) -> Rising
        ensures { result ≡ [] }
    {
        Rising {
            stamps: ShortList::new(alloc),
        }
    }

    /// One stamp.
    pub fn one(alloc: Global, stamp: Stamp) -> Rising
        ensures { result ≡ stamp.0 ∷ [] }
    {
        Rising {
            stamps: ShortList::one(alloc, stamp),
        }
    }

    /// Whether there are none.
    #[inline]
    pub fn is_empty(&self) -> bool
        ensures { IsTrue result ↔ (self.now ≡ []) }
    {
        self.stamps.len() == 0
    }

    /// The number of stamps before one.
    #[inline]
    pub fn count_before(&self, order: &Order, stamp: Stamp) -> usize
        requires here { IsTrue (is_in stamp.0 order.now.stamps) }
        requires rising { IsRising order.now.stamps self.now }
        ensures count { result ≡ count_before order.now.stamps stamp.0 self.now }
        ensures within { result ≤ length self.now }
    {
        searched(order, &self.stamps, stamp)
    }

    /// The last stamp, None where there is none.
    #[inline]
    pub fn last(&self) -> Option<Stamp>
        ensures some { IfSome result (λ last. last_stamp self.now ≡ Some last.0) }
        ensures none { IfNone result (self.now ≡ []) }
    {
        let count = self.stamps.len();
        if count == 0 {
            return None;
        }
        Some(self.stamps.get(count - 1))
    }

    /// The last of the stamps before one, None where there is none.
    #[inline]
    pub fn last_before(&self, order: &Order, stamp: Stamp) -> Option<Stamp>
        requires here { IsTrue (is_in stamp.0 order.now.stamps) }
        requires rising { IsRising order.now.stamps self.now }
        ensures some { IfSome result (λ last.
            last_stamp (take (count_before order.now.stamps stamp.0 self.now) self.now)
            ≡ Some last.0) }
        ensures none { IfNone result (count_before order.now.stamps stamp.0 self.now ≡ 0) }
    {
        let count = searched(order, &self.stamps, stamp);
        if count == 0 {
            return None;
        }
        Some(self.stamps.get(count - 1))
    }

    /// The nearest one after a stamp, None where there is none.
    #[inline]
    pub fn first_after(&self, order: &Order, stamp: Stamp) -> Option<Stamp>
        requires here { IsTrue (is_in stamp.0 order.now.stamps) }
        requires rising { IsRising order.now.stamps self.now }
        ensures some { IfSome result
            (λ next. IsFirstAfter order.now.stamps self.now stamp.0 next.0) }
        ensures here { IfSome result (λ next. IsTrue (is_in next.0 order.now.stamps)) }
        ensures none { IfNone result (NoneAfter order.now.stamps self.now stamp.0) }
    {
        self.stamps.first_after(order, stamp)
    }

    /// Puts in a stamp that is not there, after those before it, and says how many those are.
    #[inline(always)]
    pub fn insert(&mut self, order: &Order, stamp: Stamp) -> Result<usize, NoMemory>
        requires here { IsTrue (is_in stamp.0 order.now.stamps) }
        requires rising { IsRising order.now.stamps self.old }
        requires absent { is_in stamp.0 self.old ≡ false }
        ensures at { IfOk result (λ at. at ≡ count_before order.now.stamps stamp.0 self.old) }
        ensures within { IfOk result (λ at. at ≤ length self.old) }
        ensures ok { OnOk result
            (self.new ≡ insert self.old (count_before order.now.stamps stamp.0 self.old) stamp.0) }
        ensures err { OnErr result (self.new ≡ self.old) }
        ensures rising { IsRising order.now.stamps self.new }
    {
        let at = searched(order, &self.stamps, stamp);
        self.stamps.insert(at, stamp)?;
        Ok(at)
    }

    /// Takes out a stamp that is there, and says how many are before it.
    #[inline]
    pub fn remove(&mut self, order: &Order, stamp: Stamp) -> usize
        requires here { IsTrue (is_in stamp.0 order.now.stamps) }
        requires rising { IsRising order.now.stamps self.old }
        requires there { IsTrue (is_in stamp.0 self.old) }
        ensures at { result ≡ place stamp.0 self.old }
        ensures within { result < length self.old }
        ensures stamps { self.new ≡ without stamp.0 self.old }
        ensures rising { IsRising order.now.stamps self.new }
    {
        let at = searched(order, &self.stamps, stamp);
        self.stamps.remove(at);
        at
    }

    /// Takes a stamp out, where it is there, without an order: all stamps are looked at.
    pub fn take_out(&mut self, stamp: Stamp)
        ensures { self.new ≡ without stamp.0 self.old }
    {
        if let Some(at) = index_of(&self.stamps, stamp) {
            self.stamps.remove(at);
        }
    }

    /// Takes a stamp out, where it is there, along an order.
    #[inline]
    pub fn take_out_along(&mut self, order: &Order, stamp: Stamp)
        requires here { IsTrue (is_in stamp.0 order.now.stamps) }
        requires rising { IsRising order.now.stamps self.old }
        ensures { self.new ≡ without stamp.0 self.old }
    {
        let at = searched(order, &self.stamps, stamp);
        if at == self.stamps.len() {
            return;
        }
        if self.stamps.get(at) == stamp {
            self.stamps.remove(at);
        }
    }
}

// The number of stamps before one, found by halves.
#[inline]
fn searched(order: &Order, stamps: &ShortList<Stamp>, stamp: Stamp) -> usize
    requires here { IsTrue (is_in stamp.0 order.now.stamps) }
    requires rising { IsRising order.now.stamps (numbers stamps.now) }
    ensures count { result ≡ count_before order.now.stamps stamp.0 (numbers stamps.now) }
    ensures within { result ≤ length stamps.now }
{
    stamps.count_before(order, stamp)
}

// The first place of a stamp.
fn index_of(stamps: &ShortList<Stamp>, stamp: Stamp) -> Option<usize>
    ensures some { IfSome result
        (λ at. (at < length stamps.now)
        × (remove (numbers stamps.now) at ≡ without stamp.0 (numbers stamps.now))) }
    ensures none { IfNone result (without stamp.0 (numbers stamps.now) ≡ numbers stamps.now) }
{
    for at in 0..stamps.len() {
        if stamps.get(at) == stamp {
            return Some(at);
        }
    }
    None
}
