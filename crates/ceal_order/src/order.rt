// Stamps in an order.

ghost use Rattle.std.specs.Prelude.{◌≡◌, ◌≢◌, ◌+◌, ◌<◌, ◌≤◌, ◌↔◌, [], ◌∷◌, length, max, false, Some, None, IfSome};
ghost use Rattle.std.specs.Prelude.{IfNone, IfOk, OnOk, OnErr, IsTrue};
ghost use Rattle.ceal_order.specs.Stamps.{is_in, head_of, IsOrder, place, successor, with_after, without, OneMore};
ghost use Rattle.ceal_order.specs.Stamps.{room_beyond};

use crate::labels::fresh_label;
use crate::link::{FIRST, Link, NO_LINK, add_spares, label_at, next_at, splice, unlink};
use crate::stamp::Stamp;
use ceal_base::no_memory::NoMemory;
use std::alloc::Global;
use std::marker::Model;

/// For how many insertions room is made at most beyond those that are asked for, so that it is made some at a time.
pub const ROOM_BEYOND: u32 = 63;

/// Distinct stamps in an order, and room for more. Contracts see `stamps`, the list of their numbers, and `spare`,
/// how many may be inserted without taking memory.
#[derive(Drop)]
pub struct Order {
    links: Vec<Link>,
    free: u32,
    spare: u32,
}

impl Model for Order {
    ghost use Rattle.ceal_order.specs.Stamps.{Listing};
    ghost use Rattle.ceal_order.specs.Links.{stamps_of, spares_of, Sound};

    ghost Value = { Listing };

    ghost view = { λ a. record { stamps = stamps_of a.links.items; spare = a.spare } };

    ghost invariant = { λ a.
        Sound a.links.items a.free a.spare (stamps_of a.links.items)
        (spares_of a.links.items a.free) };
}

impl Order {
    /// An order of one stamp, which stays its first.
    pub fn new(alloc: Global) -> Result<Order, NoMemory>
        ensures stamps { IfOk result (λ order. order.stamps ≡ 0 ∷ []) }
        ensures spare { IfOk result (λ order. order.spare ≡ 0) }
        ensures whole { IfOk result IsOrder }
    {
        let mut links = Vec::new(alloc);
        links.push(Link {
            label: 0,
            prev: NO_LINK,
            next: NO_LINK,
        })?;
        Ok(Order {
            links,
            free: NO_LINK,
            spare: 0,
        })
    }

    /// The first stamp. Its contract also tells what is true of every order.
    pub fn first(&self) -> Stamp
        ensures first { head_of self.now.stamps ≡ Some result.0 }
        ensures first_in { IsTrue (is_in result.0 self.now.stamps) }
        ensures at_start { place result.0 self.now.stamps ≡ 0 }
        ensures whole { IsOrder self.now }
    {
        // for the proof: the invariant, which speaks of this field
        let _links = &self.links;
        Stamp(FIRST)
    }

    /// Whether `n` stamps may be inserted without taking memory.
    pub fn has_room(&self, n: u32) -> bool
        ensures room { IsTrue result ↔ (n ≤ self.now.spare) }
    {
        n <= self.spare
    }

    /// Makes room for `n` insertions without taking memory, and for some more. `NoMemory` also comes when there would
    /// be 2^32 - 1 stamps or more, the spare ones counted.
    ///
    /// How many more is not told, but for a bound. Were it told, the numbers of the next stamps would follow, since
    /// each lies below the number of stamps and spare places.
    pub fn reserve(&mut self, n: u32) -> Result<(), NoMemory>
        ensures stamps { self.new.stamps ≡ self.old.stamps }
        ensures room { OnOk result (n ≤ self.new.spare) }
        ensures few { OnOk result (self.new.spare ≤ max self.old.spare (n + room_beyond)) }
        ensures kept { self.old.spare ≤ self.new.spare }
        ensures err { OnErr result (self.new ≡ self.old) }
        ensures whole { IsOrder self.new }
    {
        if n <= self.spare {
            return Ok(());
        }
        let more = n.saturating_sub(self.spare).saturating_add(ROOM_BEYOND);
        if more as usize > NO_LINK as usize - self.links.len() {
            return Err(NoMemory);
        }
        self.free = add_spares(&mut self.links, self.free, more as usize)?;
        self.spare += more;
        Ok(())
    }

    /// Puts a new stamp directly after one that is there. The others keep their order.
    #[inline(always)]
    pub fn insert_after(&mut self, stamp: Stamp) -> Stamp
        requires here { IsTrue (is_in stamp.0 self.old.stamps) }
        requires room { 0 < self.old.spare }
        ensures new { is_in result.0 self.old.stamps ≡ false }
        ensures below { result.0 < length self.new.stamps + self.new.spare }
        ensures stamps { self.new.stamps ≡ with_after stamp.0 result.0 self.old.stamps }
        ensures spare { self.new.spare + 1 ≡ self.old.spare }
        ensures others { OneMore result.0 self.old.stamps self.new.stamps }
        ensures after { place result.0 self.new.stamps ≡ place stamp.0 self.new.stamps + 1 }
        ensures whole { IsOrder self.new }
    {
        let at = stamp.0;
        let label = fresh_label(&mut self.links, at);
        let new = self.free;
        self.free = next_at(&self.links, new);
        splice(&mut self.links, at, new, label);
        self.spare -= 1;
        Stamp(new)
    }

    /// Takes a stamp out that is not the first. The others keep their order.
    pub fn delete(&mut self, stamp: Stamp)
        requires here { IsTrue (is_in stamp.0 self.old.stamps) }
        requires not_first { head_of self.old.stamps ≢ Some stamp.0 }
        ensures stamps { self.new.stamps ≡ without stamp.0 self.old.stamps }
        ensures spare { self.new.spare ≡ self.old.spare + 1 }
        ensures others { OneMore stamp.0 self.new.stamps self.old.stamps }
        ensures whole { IsOrder self.new }
    {
        let free = self.free;
        unlink(&mut self.links, stamp.0, free);
        self.free = stamp.0;
        self.spare += 1;
    }

    /// Whether one stamp is before another.
    pub fn before(&self, a: Stamp, b: Stamp) -> bool
        requires a_in { IsTrue (is_in a.0 self.now.stamps) }
        requires b_in { IsTrue (is_in b.0 self.now.stamps) }
        ensures one_place { place a.0 self.now.stamps ≡ place b.0 self.now.stamps → a.0 ≡ b.0 }
        ensures before { IsTrue result ↔ (place a.0 self.now.stamps < place b.0 self.now.stamps) }
    {
        label_at(&self.links, a.0) < label_at(&self.links, b.0)
    }

    /// The stamp after this one, None for the last.
    pub fn next(&self, stamp: Stamp) -> Option<Stamp>
        requires { IsTrue (is_in stamp.0 self.now.stamps) }
        ensures next { IfSome result (λ next. successor stamp.0 self.now.stamps ≡ Some next.0) }
        ensures next_in { IfSome result (λ next. IsTrue (is_in next.0 self.now.stamps)) }
        ensures after { IfSome result (λ next.
            place next.0 self.now.stamps ≡ place stamp.0 self.now.stamps + 1) }
        ensures inside { IfSome result
            (λ next. place next.0 self.now.stamps < length self.now.stamps) }
        ensures last { IfNone result (successor stamp.0 self.now.stamps ≡ None) }
        ensures at_end { IfNone result
            (place stamp.0 self.now.stamps + 1 ≡ length self.now.stamps) }
    {
        let next = next_at(&self.links, stamp.0);
        if next == NO_LINK {
            None
        } else {
            Some(Stamp(next))
        }
    }
}
