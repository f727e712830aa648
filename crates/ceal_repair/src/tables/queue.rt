// The queue of stale reads: which reads it has, and which of them comes first.

ghost use Rattle.std.specs.Prelude.{◌≡◌, ◌<◌, ◌≤◌, ◌+◌, ◌↔◌, ◌≢◌, ℕ, [], length, Some, None, true, false, IfSome};
ghost use Rattle.std.specs.Prelude.{IfNone, IsTrue};
ghost use Rattle.std.specs.Option.{ForSome};
ghost use Rattle.ceal_base.specs.declared.word.Place.{Place as PlaceOf};
ghost use Rattle.ceal_base.specs.declared.word.Word.{Word as WordOf};
ghost use Rattle.ceal_mods.specs.Mods.{cell_of, cell_slot, Follows as Mods_follow};
ghost use Rattle.ceal_order.specs.Stamps.{is_in};
ghost use Rattle.ceal_queue.specs.Queue.{IsBefore, IsWithout, Follows as Queue_follows};
ghost use Rattle.ceal_repair.specs.Covered.{and_one};
ghost use Rattle.ceal_repair.specs.Kept.{InStep, Kept, ChainedBy, QueuedAfter, QueuedFrom, Records, IsStale};
ghost use Rattle.ceal_repair.specs.Kept.{IsHonestRecord, IsAwake, contents_at};
ghost use Rattle.ceal_repair.specs.Looks.{looks_owed, touched_owed, CountsOn, NoneDiffers, OneDiffers, KeepsMarks};
ghost use Rattle.ceal_repair.specs.Looks.{LooksAtQueued};
ghost use Rattle.ceal_repair.specs.Woken.{KeepsQueued, QueuesReadsOf, QueuesAfter};
ghost use Rattle.ceal_trace.specs.Nodes.{stamps_in, has_node, node_at, is_read, with_value};
ghost use Rattle.ceal_trace.specs.declared.node.Node.TheVariants.{Write};

use super::Tables;
use crate::recorded::{is_same, recorded};
use crate::written_in::WrittenIn;
use ceal_base::word::Place;
use ceal_order::stamp::Stamp;

impl Tables {
    /// Looks at a read before which none is queued: it has the content of its moment then, and is not queued. Says
    /// whether it had another one.
    pub fn look(&mut self, read: Stamp) -> bool
        requires kept { Kept self.old }
        requires here { IsTrue (is_read (node_at read.0 self.old.trace.nodes)) }
        requires first { QueuedFrom read.0 self.old }
        ensures stale { IsTrue result → IsStale read.0 self.old }
        ensures honest { result ≡ false → IsHonestRecord read.0 self.old }
        ensures nodes { IsTrue result
            → (p : PlaceOf) × (v : WordOf) × Records p v (node_at read.0 self.old.trace.nodes)
            × (self.new.trace.nodes
            ≡ with_value read.0 (contents_at read.0 self.old p) self.old.trace.nodes) }
        ensures same { result ≡ false → self.new.trace ≡ self.old.trace }
        ensures cells { self.new.mods.cells ≡ self.old.mods.cells }
        ensures memo { self.new.memo ≡ self.old.memo }
        ensures behind { QueuedAfter read.0 self.new }
        ensures looks { looks_owed self.new ≤ looks_owed self.old + 1 }
        ensures idle { result ≡ false → looks_owed self.new ≤ looks_owed self.old }
        ensures differs { IsTrue result → OneDiffers self.old self.new }
        ensures none_differs { result ≡ false → NoneDiffers self.old self.new }
        ensures touched { touched_owed self.new ≤ touched_owed self.old + 1 }
        ensures counts { CountsOn self.old self.new }
        ensures marks { KeepsMarks self.old self.new }
        ensures kept { Kept self.new }
    {
        if self.unqueue(read) {
            self.settle(read)
        } else {
            false
        }
    }

    /// Pops queued reads in the order of time, up to the first one that is stale, which has the content of its moment
    /// then. With a limit, up to that. The stale one hands on to the next one of its place. No memory is taken.
    pub fn first_stale(&mut self, until: Option<Stamp>) -> Option<Stamp>
        requires kept { Kept self.old }
        requires until { ForSome until (λ u. IsTrue (has_node u.0 self.old.trace.nodes)) }
        ensures stale { IfSome result (λ s. IsStale s.0 self.old) }
        ensures nodes { IfSome result
            (λ s. (p : PlaceOf) × (v : WordOf) × Records p v (node_at s.0 self.old.trace.nodes)
            × (self.new.trace.nodes
            ≡ with_value s.0 (contents_at s.0 self.old p) self.old.trace.nodes)) }
        ensures behind { IfSome result (λ s. QueuedAfter s.0 self.new) }
        ensures limit { IfSome result (λ s. IsBefore (stamps_in self.old.trace.nodes) until s.0) }
        ensures none { IfNone result (self.new.trace ≡ self.old.trace) }
        ensures left { IfNone result ((s : ℕ) → is_in s self.new.stale.stamps ≡ true
            → ¬ IsBefore (stamps_in self.old.trace.nodes) until s) }
        ensures looks { looks_owed self.new ≤ looks_owed self.old + 1 }
        ensures idle { IfNone result (looks_owed self.new ≤ looks_owed self.old) }
        ensures differs { IfSome result (λ s. OneDiffers self.old self.new) }
        ensures none_differs { IfNone result (NoneDiffers self.old self.new) }
        ensures queued { IfNone result (LooksAtQueued self.old self.new) }
        ensures touched { touched_owed self.new ≤ touched_owed self.old + 1 }
        ensures counts { CountsOn self.old self.new }
        ensures marks { KeepsMarks self.old self.new }
        ensures cells { self.new.mods.cells ≡ self.old.mods.cells }
        ensures memo { self.new.memo ≡ self.old.memo }
        ensures kept { Kept self.new }
    {
        for _looked in 0..u64::MAX {
            let read = self.stale.pop_before(self.trace.order(), until)?;
            if self.settle(read) {
                return Some(read);
            }
        }
        None
    }

    /// Whether a read is stale. Queued reads before the first stale one are honest, and are taken out; the stale one
    /// stays queued, with the value that it has. No memory is taken.
    pub fn has_stale(&mut self) -> bool
        requires kept { Kept self.old }
        ensures stale { IsTrue result → (s : ℕ) × IsStale s self.old }
        ensures honest { result ≡ false → (s : ℕ) → IsHonestRecord s self.new }
        ensures none { result ≡ false → self.new.stale.stamps ≡ [] }
        ensures looks { looks_owed self.new ≤ looks_owed self.old + 1 }
        ensures idle { result ≡ false → looks_owed self.new ≤ looks_owed self.old }
        ensures differed { NoneDiffers self.old self.new }
        ensures counts { CountsOn self.old self.new }
        ensures marks { KeepsMarks self.old self.new }
        ensures trace { self.new.trace ≡ self.old.trace }
        ensures cells { self.new.mods.cells ≡ self.old.mods.cells }
        ensures memo { self.new.memo ≡ self.old.memo }
        ensures kept { Kept self.new }
    {
        for _looked in 0..u64::MAX {
            match self.stale.first() {
                None => return false,
                Some(read) => {
                    if self.differs(read) {
                        return true;
                    }
                    self.dismiss(read);
                }
            }
        }
        false
    }

    /// Whether a read does not have the content of its moment.
    #[inline]
    pub fn differs(&mut self, read: Stamp) -> bool
        requires kept { Kept self.old }
        requires here { IsTrue (is_read (node_at read.0 self.old.trace.nodes)) }
        ensures stale { IsTrue result → IsStale read.0 self.old }
        ensures honest { result ≡ false → IsHonestRecord read.0 self.old }
        ensures trace { self.new.trace ≡ self.old.trace }
        ensures cells { self.new.mods.cells ≡ self.old.mods.cells }
        ensures memo { self.new.memo ≡ self.old.memo }
        ensures queue { self.new.stale ≡ self.old.stale }
        ensures looks { looks_owed self.new ≤ looks_owed self.old + 1 }
        ensures differed { NoneDiffers self.old self.new }
        ensures counts { CountsOn self.old self.new }
        ensures marks { KeepsMarks self.old self.new }
        ensures kept { Kept self.new }
    {
        let (place, value) = recorded(&self.trace, read);
        let written = WrittenIn { trace: &self.trace };
        let now = self
            .mods
            .value_at(self.trace.order(), &written, place, read);
        !is_same(value, now)
    }

    /// Takes a read out of the queue that has the content of its moment and has none queued before it.
    pub fn dismiss(&mut self, read: Stamp)
        requires kept { Kept self.old }
        requires here { IsTrue (is_read (node_at read.0 self.old.trace.nodes)) }
        requires first { QueuedFrom read.0 self.old }
        requires honest { IsHonestRecord read.0 self.old }
        ensures trace { self.new.trace ≡ self.old.trace }
        ensures mods { self.new.mods ≡ self.old.mods }
        ensures memo { self.new.memo ≡ self.old.memo }
        ensures behind { QueuedAfter read.0 self.new }
        ensures fewer { IsTrue (is_in read.0 self.old.stale.stamps)
            → length self.new.stale.stamps + 1 ≡ length self.old.stale.stamps }
        ensures kept { Kept self.new }
    {
        let _was = self.unqueue(read);
    }

    /// Queues the read that a change of a place after a node affects; there is room for it.
    pub fn wake(&mut self, place: Place, after: Stamp)
        requires here { IsTrue (has_node after.0 self.old.trace.nodes) }
        requires mods { Mods_follow (stamps_in self.old.trace.nodes) self.old.mods }
        requires stale { Queue_follows (stamps_in self.old.trace.nodes) self.old.stale }
        requires room { 0 < self.old.stale.spare }
        ensures trace { self.new.trace ≡ self.old.trace }
        ensures mods { self.new.mods ≡ self.old.mods }
        ensures memo { self.new.memo ≡ self.old.memo }
        ensures stale { Queue_follows (stamps_in self.new.trace.nodes) self.new.stale }
        ensures more { KeepsQueued self.old self.new }
        ensures only { QueuesReadsOf place self.old self.new }
        ensures ahead { QueuesAfter after.0 self.old self.new }
        ensures one { length self.new.stale.stamps ≤ length self.old.stale.stamps + 1 }
        ensures woken { IsAwake (stamps_in self.old.trace.nodes)
            (cell_of self.old.mods place) after.0 self.new.stale.stamps }
    {
        let at = self.mods.slot(place);
        self.wake_in(at, place, after);
    }

    /// The same, of a place whose cell is at a slot.
    #[inline]
    pub fn wake_in(&mut self, slot: u32, place: Place, after: Stamp)
        requires slot { slot ≡ cell_slot self.old.mods place }
        requires here { IsTrue (has_node after.0 self.old.trace.nodes) }
        requires mods { Mods_follow (stamps_in self.old.trace.nodes) self.old.mods }
        requires stale { Queue_follows (stamps_in self.old.trace.nodes) self.old.stale }
        requires room { 0 < self.old.stale.spare }
        ensures trace { self.new.trace ≡ self.old.trace }
        ensures mods { self.new.mods ≡ self.old.mods }
        ensures memo { self.new.memo ≡ self.old.memo }
        ensures stale { Queue_follows (stamps_in self.new.trace.nodes) self.new.stale }
        ensures more { KeepsQueued self.old self.new }
        ensures only { QueuesReadsOf place self.old self.new }
        ensures ahead { QueuesAfter after.0 self.old self.new }
        ensures one { length self.new.stale.stamps ≤ length self.old.stale.stamps + 1 }
        ensures woken { IsAwake (stamps_in self.old.trace.nodes)
            (cell_of self.old.mods place) after.0 self.new.stale.stamps }
    {
        if let Some(read) = self
            .mods
            .affected_in(self.trace.order(), slot, place, after)
        {
            self.stale.push(self.trace.order(), read);
        }
    }

    /// Whether a place holds without a write what it holds with it.
    #[inline]
    pub fn is_needless(&mut self, write: Stamp, place: Place) -> bool
        requires kept { Kept self.old }
        requires here { (v : WordOf)
            × (node_at write.0 self.old.trace.nodes ≡ Some (Write place v)) }
        ensures same { IsTrue result
            → node_at write.0 self.old.trace.nodes
            ≡ Some (Write place (contents_at write.0 self.old place)) }
        ensures trace { self.new.trace ≡ self.old.trace }
        ensures cells { self.new.mods.cells ≡ self.old.mods.cells }
        ensures queue { self.new.stale ≡ self.old.stale }
        ensures looks { looks_owed self.new ≤ looks_owed self.old + 1 }
        ensures differed { NoneDiffers self.old self.new }
        ensures counts { CountsOn self.old self.new }
        ensures marks { KeepsMarks self.old self.new }
        ensures memo { self.new.memo ≡ self.old.memo }
        ensures kept { Kept self.new }
    {
        let value = self.trace.written_at(write);
        let written = WrittenIn { trace: &self.trace };
        let held = self
            .mods
            .value_at(self.trace.order(), &written, place, write);
        is_same(value, held)
    }

    /// Queues the read that a change of a place, whose cell is at a slot, after a node affects, unless nothing has
    /// changed.
    #[inline]
    pub fn wake_unless(&mut self, same: bool, slot: u32, place: Place, after: Stamp)
        requires slot { slot ≡ cell_slot self.old.mods place }
        requires here { IsTrue (has_node after.0 self.old.trace.nodes) }
        requires mods { Mods_follow (stamps_in self.old.trace.nodes) self.old.mods }
        requires stale { Queue_follows (stamps_in self.old.trace.nodes) self.old.stale }
        requires room { 0 < self.old.stale.spare }
        ensures trace { self.new.trace ≡ self.old.trace }
        ensures mods { self.new.mods ≡ self.old.mods }
        ensures memo { self.new.memo ≡ self.old.memo }
        ensures stale { Queue_follows (stamps_in self.new.trace.nodes) self.new.stale }
        ensures more { KeepsQueued self.old self.new }
        ensures only { QueuesReadsOf place self.old self.new }
        ensures ahead { QueuesAfter after.0 self.old self.new }
        ensures one { length self.new.stale.stamps ≤ length self.old.stale.stamps + 1 }
        ensures woken { same ≡ false
            → IsAwake (stamps_in self.old.trace.nodes)
            (cell_of self.old.mods place) after.0 self.new.stale.stamps }
    {
        if !same {
            self.wake_in(slot, place, after);
        }
    }

    /// Takes a node out of the queue that has none before it, and says whether it was there.
    #[inline]
    pub fn unqueue(&mut self, read: Stamp) -> bool
        requires here { IsTrue (has_node read.0 self.old.trace.nodes) }
        requires stale { Queue_follows (stamps_in self.old.trace.nodes) self.old.stale }
        requires first { QueuedFrom read.0 self.old }
        ensures was { IsTrue result ↔ IsTrue (is_in read.0 self.old.stale.stamps) }
        ensures without { IsWithout read.0 self.old.stale.stamps self.new.stale.stamps }
        ensures room { IsTrue result → 0 < self.new.stale.spare }
        ensures fewer { IsTrue result
            → length self.new.stale.stamps + 1 ≡ length self.old.stale.stamps }
        ensures absent { result ≡ false → self.new.stale ≡ self.old.stale }
        ensures trace { self.new.trace ≡ self.old.trace }
        ensures mods { self.new.mods ≡ self.old.mods }
        ensures memo { self.new.memo ≡ self.old.memo }
        ensures stale { Queue_follows (stamps_in self.new.trace.nodes) self.new.stale }
    {
        let next = self.trace.order().next(read);
        self.stale.pop_before(self.trace.order(), next).is_some()
    }

    /// Takes a read out of the queue that has none before it; where it was there, the next one of its place goes in.
    #[inline]
    pub fn hand_on(&mut self, read: Stamp, place: Place)
        requires here { IsTrue (has_node read.0 self.old.trace.nodes) }
        requires mods { Mods_follow (stamps_in self.old.trace.nodes) self.old.mods }
        requires stale { Queue_follows (stamps_in self.old.trace.nodes) self.old.stale }
        requires first { QueuedFrom read.0 self.old }
        ensures trace { self.new.trace ≡ self.old.trace }
        ensures mods { self.new.mods ≡ self.old.mods }
        ensures memo { self.new.memo ≡ self.old.memo }
        ensures stale { Queue_follows (stamps_in self.new.trace.nodes) self.new.stale }
        ensures gone { is_in read.0 self.new.stale.stamps ≡ false }
        ensures more { (s : ℕ) → s ≢ read.0 → IsTrue (is_in s self.old.stale.stamps)
            → IsTrue (is_in s self.new.stale.stamps) }
        ensures only { QueuesReadsOf place self.old self.new }
        ensures ahead { QueuedAfter read.0 self.new }
        ensures most { length self.new.stale.stamps ≤ length self.old.stale.stamps }
        ensures woken { IsTrue (is_in read.0 self.old.stale.stamps)
            → IsAwake (stamps_in self.old.trace.nodes)
            (cell_of self.old.mods place) read.0 self.new.stale.stamps }
    {
        if self.unqueue(read) {
            self.wake(place, read);
        }
    }

    /// A read that was popped gets the content of its moment. Says whether it had another one, and hands on to the next
    /// one of its place then. Where it had that, what was recorded last of the place is as before, and the next one has
    /// nothing to fear.
    pub fn settle(&mut self, popped: Stamp) -> bool
        requires step { InStep self.old }
        requires chained { ChainedBy (and_one popped.0 self.old.stale.stamps) self.old }
        requires out { is_in popped.0 self.old.stale.stamps ≡ false }
        requires first { QueuedFrom popped.0 self.old }
        requires here { IsTrue (is_read (node_at popped.0 self.old.trace.nodes)) }
        requires room { 0 < self.old.stale.spare }
        ensures stale { IsTrue result → IsStale popped.0 self.old }
        ensures honest { result ≡ false → IsHonestRecord popped.0 self.old }
        ensures nodes { IsTrue result
            → (p : PlaceOf) × (v : WordOf) × Records p v (node_at popped.0 self.old.trace.nodes)
            × (self.new.trace.nodes
            ≡ with_value popped.0 (contents_at popped.0 self.old p) self.old.trace.nodes) }
        ensures same { result ≡ false → self.new.trace ≡ self.old.trace }
        ensures queue { result ≡ false → self.new.stale ≡ self.old.stale }
        ensures cells { self.new.mods.cells ≡ self.old.mods.cells }
        ensures memo { self.new.memo ≡ self.old.memo }
        ensures behind { QueuedAfter popped.0 self.new }
        ensures looks { looks_owed self.new ≤ looks_owed self.old + 3 }
        ensures idle { result ≡ false → looks_owed self.new ≤ looks_owed self.old + 1 }
        ensures differs { IsTrue result → OneDiffers self.old self.new }
        ensures none_differs { result ≡ false → NoneDiffers self.old self.new }
        ensures touched { touched_owed self.new ≤ touched_owed self.old + 1 }
        ensures counts { CountsOn self.old self.new }
        ensures marks { KeepsMarks self.old self.new }
        ensures kept { Kept self.new }
    {
        let (place, value) = recorded(&self.trace, popped);
        let at = self.mods.slot(place);
        let written = WrittenIn { trace: &self.trace };
        let now = self
            .mods
            .value_in(self.trace.order(), &written, at, place, popped);
        if is_same(value, now) {
            return false;
        }
        self.mods.count_differed();
        self.wake_in(at, place, popped);
        self.trace.set_value(popped, now);
        true
    }
}
