// The queue of stale reads.

ghost use Rattle.std.specs.Prelude.{◌≡◌, ◌↔◌, ◌+◌, ◌<◌, ℕ, List, [], true, false, max, length, IfSome, IfNone, IfOk};
ghost use Rattle.std.specs.Prelude.{OnOk, OnErr, IsTrue};
ghost use Rattle.std.specs.Option.{ForSome};
ghost use Rattle.ceal_order.specs.Stamps.{is_in};
ghost use Rattle.ceal_queue.specs.Queue.{Follows, IsWith, IsWithout, IsBefore, IsEarliest};

use crate::ahead::Ahead;
use ceal_base::no_memory::NoMemory;
use ceal_order::order::Order;
use ceal_order::stamp::Stamp;
use std::alloc::Global;
use std::marker::Model;

/// A set of stamps. Contracts see `stamps`, from the earliest to the latest, and `spare`, how many more can be put in
/// without taking memory. Each call that is handed an order needs that the queue follows it, and leaves it so.
#[derive(Drop)]
pub struct Stale {
    stamps: Ahead,
    spare: u32,
}

impl Model for Stale {
    ghost use Rattle.std.specs.Prelude.{length};
    ghost use Rattle.ceal_order.specs.Rising.{numbers};
    ghost use Rattle.ceal_queue.specs.Queue.{Waiting, Fits};

    ghost Value = { Waiting };

    ghost view = { λ a. record { stamps = numbers a.stamps.items; spare = a.spare } };

    ghost invariant = { λ a. Fits (length a.stamps.items) a.spare a.stamps.capacity };
}

impl Stale {
    /// A queue of no stamps.
    pub fn new(alloc: Global) -> Result<Stale, NoMemory>
        ensures stamps { IfOk result (λ queue. queue.stamps ≡ []) }
        ensures spare { IfOk result (λ queue. queue.spare ≡ 0) }
        ensures follows { IfOk result (λ queue. (order : List ℕ) → Follows order queue) }
    {
        Ok(Stale {
            stamps: Ahead::new(alloc),
            spare: 0,
        })
    }

    /// Makes room for `n` more stamps. `NoMemory` also comes when there would be 2^32 stamps or more, the room counted.
    #[inline]
    pub fn reserve(&mut self, n: u32) -> Result<(), NoMemory>
        ensures stamps { self.new.stamps ≡ self.old.stamps }
        ensures room { OnOk result (self.new.spare ≡ max self.old.spare n) }
        ensures err { OnErr result (self.new ≡ self.old) }
        ensures follows { (order : List ℕ) → Follows order self.old → Follows order self.new }
    {
        if n <= self.spare {
            self.stamps.make_next_room()?;
            return Ok(());
        }
        self.widen(n)
    }

    // Makes room where there is too little, which is seldom so.
    #[inline(never)]
    fn widen(&mut self, n: u32) -> Result<(), NoMemory>
        ensures stamps { self.new.stamps ≡ self.old.stamps }
        ensures room { OnOk result (self.new.spare ≡ max self.old.spare n) }
        ensures err { OnErr result (self.new ≡ self.old) }
        ensures follows { (order : List ℕ) → Follows order self.old → Follows order self.new }
    {
        let spare = n.max(self.spare);
        let count = self.stamps.len();
        if spare as usize > u32::MAX as usize - count {
            return Err(NoMemory);
        }
        self.stamps.make_room(count + spare as usize)?;
        self.spare = spare;
        Ok(())
    }

    /// Puts a stamp in. One that is there already changes nothing, and needs no room.
    pub fn push(&mut self, order: &Order, stamp: Stamp)
        requires here { IsTrue (is_in stamp.0 order.now.stamps) }
        requires follows { Follows order.now.stamps self.old }
        requires room { is_in stamp.0 self.old.stamps ≡ false → 0 < self.old.spare }
        ensures with { IsWith stamp.0 self.old.stamps self.new.stamps }
        ensures more { is_in stamp.0 self.old.stamps ≡ false
            → length self.new.stamps ≡ length self.old.stamps + 1 }
        ensures known { is_in stamp.0 self.old.stamps ≡ true → self.new ≡ self.old }
        ensures spare { is_in stamp.0 self.old.stamps ≡ false
            → self.new.spare + 1 ≡ self.old.spare }
        ensures follows { Follows order.now.stamps self.new }
    {
        if let Err(at) = self.stamps.search(order, stamp) {
            self.stamps.insert(at, stamp);
            self.spare -= 1;
        }
    }

    /// The earliest stamp, which stays.
    pub fn first(&self) -> Option<Stamp>
        ensures first { IfSome result (λ s. (order : List ℕ) → Follows order self.now
            → IsEarliest order self.now.stamps s.0) }
        ensures none { IfNone result ((s : ℕ) → is_in s self.now.stamps ≡ false) }
    {
        self.stamps.first()
    }

    /// Takes out the earliest stamp before the limit, or the earliest of all where there is no limit. None where there
    /// is none. The room of what is taken out can be used again.
    pub fn pop_before(&mut self, order: &Order, limit: Option<Stamp>) -> Option<Stamp>
        requires limit { ForSome limit (λ l. IsTrue (is_in l.0 order.now.stamps)) }
        requires follows { Follows order.now.stamps self.old }
        ensures earliest { IfSome result (λ s. IsEarliest order.now.stamps self.old.stamps s.0) }
        ensures before { IfSome result (λ s. IsBefore order.now.stamps limit s.0) }
        ensures here { IfSome result (λ s. IsTrue (is_in s.0 order.now.stamps)) }
        ensures without { IfSome result (λ s. IsWithout s.0 self.old.stamps self.new.stamps) }
        ensures fewer { IfSome result (λ s.
            length self.new.stamps + 1 ≡ length self.old.stamps) }
        ensures spare { IfSome result (λ s. self.new.spare ≡ self.old.spare + 1) }
        ensures none { IfNone result
            ((s : ℕ) → is_in s self.old.stamps ≡ true → ¬ IsBefore order.now.stamps limit s) }
        ensures unchanged { IfNone result (self.new ≡ self.old) }
        ensures follows { Follows order.now.stamps self.new }
    {
        let first = self.stamps.first()?;
        if !is_before(order, first, limit) {
            return None;
        }
        self.stamps.remove(0);
        self.spare += 1;
        Some(first)
    }

    /// Takes a stamp out. One that is not there changes nothing.
    pub fn remove(&mut self, order: &Order, stamp: Stamp)
        requires here { IsTrue (is_in stamp.0 order.now.stamps) }
        requires follows { Follows order.now.stamps self.old }
        ensures without { IsWithout stamp.0 self.old.stamps self.new.stamps }
        ensures fewer { is_in stamp.0 self.old.stamps ≡ true
            → length self.new.stamps + 1 ≡ length self.old.stamps }
        ensures spare { is_in stamp.0 self.old.stamps ≡ true → self.new.spare ≡ self.old.spare + 1 }
        ensures absent { is_in stamp.0 self.old.stamps ≡ false → self.new ≡ self.old }
        ensures follows { Follows order.now.stamps self.new }
    {
        if let Ok(at) = self.stamps.search(order, stamp) {
            self.stamps.remove(at);
            self.spare += 1;
        }
    }
}

// Whether a stamp is before the limit.
fn is_before(order: &Order, stamp: Stamp, limit: Option<Stamp>) -> bool
    requires here { IsTrue (is_in stamp.0 order.now.stamps) }
    requires limit { ForSome limit (λ l. IsTrue (is_in l.0 order.now.stamps)) }
    ensures { IsTrue result ↔ IsBefore order.now.stamps limit stamp.0 }
{
    match limit {
        None => true,
        Some(limit) => order.before(stamp, limit),
    }
}
