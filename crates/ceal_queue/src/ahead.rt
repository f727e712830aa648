// Stamps, of which the earliest may be ahead of the others.

ghost use Rattle.std.specs.Prelude.{◌≡◌, ◌<◌, ◌≤◌, ◌^◌, ℕ, Some, [], false, length, insert, remove, option_map};
ghost use Rattle.std.specs.Prelude.{IfSome, IfOk, IfErr, OnOk, IsTrue};
ghost use Rattle.ceal_order.specs.Stamps.{is_in, head_of, place};
ghost use Rattle.ceal_order.specs.Rising.{numbers, count_before, IsRising};

use crate::stamps::Stamps;
use ceal_base::no_memory::NoMemory;
use ceal_order::order::Order;
use ceal_order::stamp::Stamp;
use std::alloc::Global;
use std::marker::Model;

/// A list of stamps. Contracts see `items`, and `capacity`, how many the list may have without a call that can fail.
///
/// One that goes in before all others is ahead of them, so that it is put in and taken out at little cost: what is
/// queued while a read is re-executed is mostly the next one that is taken out.
#[derive(Drop)]
pub struct Ahead {
    first: Option<Stamp>,
    rest: Stamps,
}

impl Model for Ahead {
    ghost use Rattle.ceal_queue.specs.Roomy.{Roomy, headed};

    ghost Value = { Roomy };

    ghost view = { λ a.
        record { items = headed a.first a.rest.items; capacity = a.rest.capacity } };
}

impl Ahead {
    /// No stamps.
    pub fn new(alloc: Global) -> Ahead
        ensures items { result.items ≡ [] }
    {
        Ahead {
            first: None,
            rest: Stamps::new(alloc),
        }
    }

    /// How many stamps there are.
    pub fn len(&self) -> usize
        requires { length self.now.items < 2 ^ 32 }
        ensures { result ≡ length self.now.items }
    {
        match self.first {
            None => self.rest.len(),
            Some(_first) => self.rest.len() + 1,
        }
    }

    /// Makes room for a list of this length, and for the next ones.
    pub fn make_room(&mut self, len: usize) -> Result<(), NoMemory>
        ensures items { self.new.items ≡ self.old.items }
        ensures raises { self.old.capacity ≤ self.new.capacity }
        ensures room { OnOk result (len ≤ self.new.capacity) }
    {
        self.rest.make_room(len)
    }

    /// Makes room for the next ones.
    #[inline]
    pub fn make_next_room(&mut self) -> Result<(), NoMemory>
        ensures { self.new ≡ self.old }
    {
        self.rest.make_next_room()
    }

    /// The first one.
    #[inline]
    pub fn first(&self) -> Option<Stamp>
        ensures first { option_map (λ s. s.0) result ≡ head_of (numbers self.now.items) }
        ensures some { IfSome result (λ s. 0 < length self.now.items) }
    {
        match self.first {
            None => self.rest.first(),
            Some(first) => Some(first),
        }
    }

    /// Where a stamp is among rising ones; where it is not there, the number of those before it.
    #[inline]
    pub fn search(&self, order: &Order, stamp: Stamp) -> Result<usize, usize>
        requires here { IsTrue (is_in stamp.0 order.now.stamps) }
        requires rising { IsRising order.now.stamps (numbers self.now.items) }
        requires few { length self.now.items < 2 ^ 32 }
        ensures there { IfOk result (λ at. IsTrue (is_in stamp.0 (numbers self.now.items))) }
        ensures place { IfOk result (λ at. at ≡ place stamp.0 (numbers self.now.items)) }
        ensures inside { IfOk result (λ at. at < length self.now.items) }
        ensures absent { IfErr result (λ at. is_in stamp.0 (numbers self.now.items) ≡ false) }
        ensures before { IfErr result
            (λ at. at ≡ count_before order.now.stamps stamp.0 (numbers self.now.items)) }
        ensures within { IfErr result (λ at. at ≤ length self.now.items) }
    {
        match self.first() {
            None => Err(0),
            Some(first) => {
                if order.before(stamp, first) {
                    return Err(0);
                }
                self.search_late(order, stamp)
            }
        }
    }

    // The same where the stamp is not before the first one. It is called seldom, and is a separate function, so that
    // the usual path is short.
    #[inline(never)]
    fn search_late(&self, order: &Order, stamp: Stamp) -> Result<usize, usize>
        requires here { IsTrue (is_in stamp.0 order.now.stamps) }
        requires rising { IsRising order.now.stamps (numbers self.now.items) }
        requires few { length self.now.items < 2 ^ 32 }
        requires late { (first : ℕ) → head_of (numbers self.now.items) ≡ Some first
            → ¬ (place stamp.0 order.now.stamps < place first order.now.stamps) }
        ensures there { IfOk result (λ at. IsTrue (is_in stamp.0 (numbers self.now.items))) }
        ensures place { IfOk result (λ at. at ≡ place stamp.0 (numbers self.now.items)) }
        ensures inside { IfOk result (λ at. at < length self.now.items) }
        ensures absent { IfErr result (λ at. is_in stamp.0 (numbers self.now.items) ≡ false) }
        ensures before { IfErr result
            (λ at. at ≡ count_before order.now.stamps stamp.0 (numbers self.now.items)) }
        ensures within { IfErr result (λ at. at ≤ length self.now.items) }
    {
        match self.first {
            None => self.rest.search(order, stamp),
            Some(first) => {
                if first == stamp {
                    return Ok(0);
                }
                match self.rest.search(order, stamp) {
                    Ok(at) => Ok(at + 1),
                    Err(at) => Err(at + 1),
                }
            }
        }
    }

    /// Puts a stamp in at an index. No memory is taken.
    #[inline]
    pub fn insert(&mut self, index: usize, stamp: Stamp)
        requires within { index ≤ length self.old.items }
        requires room { length self.old.items < self.old.capacity }
        ensures items { self.new.items ≡ insert self.old.items index stamp }
        ensures raises { self.old.capacity ≤ self.new.capacity }
    {
        match self.first {
            None => {
                if index == 0 {
                    self.first = Some(stamp);
                } else {
                    self.rest.insert(index, stamp);
                }
            }
            Some(first) => {
                if index == 0 {
                    self.rest.insert(0, first);
                    self.first = Some(stamp);
                } else {
                    self.rest.insert(index - 1, stamp);
                }
            }
        }
    }

    /// Takes the stamp at an index out.
    #[inline]
    pub fn remove(&mut self, index: usize)
        requires { index < length self.old.items }
        ensures items { self.new.items ≡ remove self.old.items index }
        ensures capacity { self.new.capacity ≡ self.old.capacity }
    {
        match self.first {
            None => self.rest.remove(index),
            Some(_first) => {
                if index == 0 {
                    self.first = None;
                } else {
                    self.rest.remove(index - 1);
                }
            }
        }
    }
}
