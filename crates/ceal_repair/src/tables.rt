// The tables of a trace, kept in step with its nodes.

ghost use Rattle.std.specs.Prelude.{◌≡◌, ◌⊎◌, ◌<◌, ◌≤◌, ◌+◌, ℕ, [], ◌∷◌, Some, None, false, length, IfOk, OnOk, OnErr};
ghost use Rattle.std.specs.Prelude.{IsTrue, pos};
ghost use Rattle.ceal_base.specs.declared.word.Place.{Place as PlaceOf};
ghost use Rattle.ceal_base.specs.declared.word.Word.TheVariants.{Num};
ghost use Rattle.ceal_code.specs.Replay.{stored};
ghost use Rattle.ceal_memo.specs.Keys.{OfRead, OfAlloc};
ghost use Rattle.ceal_memo.specs.Memo.{IsOf};
ghost use Rattle.ceal_mods.specs.Mods.{cell_of, cell_slot, HasCell, IsUntouched};
ghost use Rattle.ceal_order.specs.Stamps.{is_in};
ghost use Rattle.ceal_repair.specs.Covered.{contents_after};
ghost use Rattle.ceal_repair.specs.Kept.{Kept, QueuedAfter, base_in};
ghost use Rattle.ceal_repair.specs.Lists.{up_to, between};
ghost use Rattle.ceal_repair.specs.Looks.{looks_owed, touched_owed, CountsOn, LooksNever, NoneDiffers, KeepsMarks};
ghost use Rattle.ceal_repair.specs.Room.{EntersPlace, EntersNone, UsesLists};
ghost use Rattle.ceal_trace.specs.Nodes.{has_node, node_at, position, is_read, end_in, with_entry_after, with_steps};
ghost use Rattle.ceal_trace.specs.Nodes.{new_entry, Inserted};
ghost use Rattle.ceal_trace.specs.declared.node.Node.TheVariants.{Root, Alloc, Write, Read, End};

use crate::written_in::WrittenIn;
use ceal_base::forest::Key;
use ceal_base::no_memory::NoMemory;
use ceal_base::word::{BlockId, Place, Word};
use ceal_base::words::Words;
use ceal_memo::key::ReadKey;
use ceal_memo::laws::follows_still as memo_follows;
use ceal_memo::memo::{Hashed, Memo};
use ceal_memo::seed::Seed;
use ceal_mods::laws::follows_still as mods_follow;
use ceal_mods::mods::Mods;
use ceal_order::stamp::Stamp;
use ceal_queue::laws::follows_still as queue_follows;
use ceal_queue::stale::Stale;
use ceal_trace::trace::Trace;
use std::alloc::Global;

mod cut;
mod find;
mod mark;
mod queue;

/// The nodes of a trace, the lists of its modifiables, the queue of its stale reads, and the memo of its reads and
/// allocations.
#[derive(Drop)]
pub struct Tables {
    pub trace: Trace,
    pub mods: Mods,
    pub stale: Stale,
    pub memo: Memo,
}

/// A read that was put in, and what it read.
#[derive(Clone, Copy)]
pub struct Begun {
    pub read: Stamp,
    pub value: Word,
}

impl Tables {
    /// The tables of a trace of only the root. Any seed is right.
    pub fn new(alloc: Global, seed: &Seed) -> Result<Tables, NoMemory>
        ensures nodes { IfOk result (λ t. t.trace.nodes ≡ new_entry 0 Root ∷ []) }
        ensures bases { IfOk result (λ t. IsUntouched t.mods) }
        ensures queue { IfOk result (λ t. t.stale.stamps ≡ []) }
        ensures looks { IfOk result LooksNever }
        ensures unmarked { IfOk result (λ t. t.mods.marked ≡ None) }
        ensures kept { IfOk result Kept }
        ensures seed { IfOk result (λ t. t.memo.seed ≡ seed.now.words) }
    {
        Ok(Tables {
            trace: Trace::new(alloc)?,
            mods: Mods::new(alloc)?,
            stale: Stale::new(alloc)?,
            memo: Memo::seeded(alloc, *seed)?,
        })
    }

    /// Sets what a place holds before any write, and queues the read that this affects. A place that was never touched
    /// holds 0, so it gets no cell for a 0. A refusal has changed nothing but the room of the queue.
    #[inline(always)]
    pub fn edit(&mut self, place: Place, value: Word) -> Result<(), NoMemory>
        requires kept { Kept self.old }
        ensures trace { self.new.trace ≡ self.old.trace }
        ensures memo { self.new.memo ≡ self.old.memo }
        ensures base { OnOk result
            ((p : PlaceOf)
            → base_in self.new.mods p ≡ stored (base_in self.old.mods) place value p) }
        ensures bare { value ≡ Num (pos 0) → ¬ HasCell self.old.mods place
            → self.new.mods ≡ self.old.mods }
        ensures cells { OnOk result
            (EntersNone self.old self.new ⊎ EntersPlace place self.old self.new) }
        ensures err { OnErr result (self.new.mods ≡ self.old.mods) }
        ensures queue_err { OnErr result (self.new.stale.stamps ≡ self.old.stale.stamps) }
        ensures only { (s : ℕ) → IsTrue (is_in s self.new.stale.stamps)
            → is_in s self.old.stale.stamps ≡ false
            → IsTrue (is_in s (cell_of self.old.mods place).reads) }
        ensures queued { length self.new.stale.stamps ≤ length self.old.stale.stamps + 1 }
        ensures looked { self.new.mods.looked ≡ self.old.mods.looked }
        ensures differed { NoneDiffers self.old self.new }
        ensures marks { KeepsMarks self.old self.new }
        ensures kept { Kept self.new }
    {
        if holds_anyway(&self.mods, place, value) {
            return Ok(());
        }
        let root = self.trace.root();
        let begun = self.mods.begin(place, value)?;
        if begun {
            return Ok(());
        }
        self.stale.reserve(1)?;
        self.mods.set_base(place, value)?;
        self.wake(place, root);
        Ok(())
    }

    /// Puts an allocation directly after a node. Its key comes as the memo enters it, too.
    pub fn put_alloc(
        &mut self,
        after: Stamp,
        block: BlockId,
        key: Key,
        hashed: Hashed,
    ) -> Result<Stamp, NoMemory>
        requires kept { Kept self.old }
        requires here { IsTrue (has_node after.0 self.old.trace.nodes) }
        requires hashed { IsOf self.old.memo (OfAlloc key) hashed }
        ensures nodes { IfOk result (λ s.
            self.new.trace.nodes
            ≡ with_entry_after after.0 (new_entry s.0 (Alloc block key)) self.old.trace.nodes) }
        ensures inserted { IfOk result
            (λ s. Inserted after.0 s.0
            (Alloc block key) self.old.trace.nodes self.new.trace.nodes) }
        ensures mods { OnOk result (self.new.mods ≡ self.old.mods) }
        ensures queue { OnOk result (self.new.stale ≡ self.old.stale) }
        ensures behind { IfOk result
            (λ s. QueuedAfter after.0 self.old → QueuedAfter s.0 self.new) }
        ensures touched { OnOk result (touched_owed self.new ≤ touched_owed self.old + 2) }
        ensures counts { OnOk result (CountsOn self.old self.new) }
        ensures lists { OnOk result (UsesLists self.old self.new) }
        ensures kept { OnOk result (Kept self.new) }
    {
        mods_follow();
        queue_follows();
        memo_follows();
        self.trace.reserve(1)?;
        let alloc = self.trace.insert_alloc(after, block, key);
        self.memo.add(self.trace.order(), hashed, alloc)?;
        Ok(alloc)
    }

    /// Puts a write directly after a node, and queues the read that this affects.
    pub fn put_write(&mut self, after: Stamp, place: Place, value: Word) -> Result<Stamp, NoMemory>
        requires kept { Kept self.old }
        requires here { IsTrue (has_node after.0 self.old.trace.nodes) }
        ensures nodes { IfOk result (λ s.
            self.new.trace.nodes
            ≡ with_entry_after after.0 (new_entry s.0 (Write place value)) self.old.trace.nodes) }
        ensures inserted { IfOk result
            (λ s. Inserted after.0 s.0
            (Write place value) self.old.trace.nodes self.new.trace.nodes) }
        ensures looks { OnOk result (looks_owed self.new ≤ looks_owed self.old + 2) }
        ensures differed { OnOk result (NoneDiffers self.old self.new) }
        ensures touched { OnOk result (touched_owed self.new ≤ touched_owed self.old + 2) }
        ensures counts { OnOk result (CountsOn self.old self.new) }
        ensures marks { OnOk result (KeepsMarks self.old self.new) }
        ensures cells { OnOk result (EntersPlace place self.old self.new) }
        ensures memo { OnOk result (self.new.memo ≡ self.old.memo) }
        ensures bases { OnOk result
            ((p : PlaceOf) → base_in self.new.mods p ≡ base_in self.old.mods p) }
        ensures behind { IfOk result
            (λ s. QueuedAfter after.0 self.old → QueuedAfter s.0 self.new) }
        ensures kept { OnOk result (Kept self.new) }
    {
        mods_follow();
        queue_follows();
        memo_follows();
        self.trace.reserve(1)?;
        self.stale.reserve(1)?;
        let added = self.trace.insert_write(after, place, value);
        let at = self
            .mods
            .add_write(self.trace.order(), place, added, value)?;
        self.wake_in(at, place, added);
        Ok(added)
    }

    /// What a place, whose cell is at a slot, holds directly after a node.
    pub fn value_behind(&mut self, slot: u32, place: Place, after: Stamp) -> Word
        requires slot { slot ≡ cell_slot self.old.mods place }
        requires kept { Kept self.old }
        requires here { IsTrue (has_node after.0 self.old.trace.nodes) }
        ensures value { result
            ≡ contents_after (base_in self.old.mods) (up_to after.0 self.old.trace.nodes) place }
        ensures looks { looks_owed self.new ≤ looks_owed self.old + 1 }
        ensures differed { NoneDiffers self.old self.new }
        ensures counts { CountsOn self.old self.new }
        ensures marks { KeepsMarks self.old self.new }
        ensures trace { self.new.trace ≡ self.old.trace }
        ensures cells { self.new.mods.cells ≡ self.old.mods.cells }
        ensures queue { self.new.stale ≡ self.old.stale }
        ensures memo { self.new.memo ≡ self.old.memo }
        ensures kept { Kept self.new }
    {
        match self.trace.order().next(after) {
            None => {
                let written = WrittenIn { trace: &self.trace };
                self.mods.last_in(&written, slot, place)
            }
            Some(next) => {
                let written = WrittenIn { trace: &self.trace };
                self.mods
                    .value_in(self.trace.order(), &written, slot, place, next)
            }
        }
    }

    /// Puts a read directly after a node up to which none is queued, with what its place holds there. It has no end
    /// yet. Its key comes as the memo enters it, too.
    pub fn begin_read(
        &mut self,
        alloc: Global,
        after: Stamp,
        key: &ReadKey<'_>,
        hashed: Hashed,
    ) -> Result<Begun, NoMemory>
        requires kept { Kept self.old }
        requires here { IsTrue (has_node after.0 self.old.trace.nodes) }
        requires hashed { IsOf self.old.memo (OfRead key.now) hashed }
        requires late { QueuedAfter after.0 self.old }
        ensures value { IfOk result (λ b.
            b.value ≡ contents_after (base_in self.old.mods)
            (up_to after.0 self.old.trace.nodes) key.now.place) }
        ensures nodes { IfOk result (λ b. self.new.trace.nodes
            ≡ with_entry_after after.0
            (new_entry b.read.0 (Read key.now.place b.value key.now.unit key.now.var key.now.args))
            self.old.trace.nodes) }
        ensures inserted { IfOk result (λ b.
            Inserted after.0 b.read.0
            (Read key.now.place b.value key.now.unit key.now.var key.now.args) self.old.trace.nodes
            self.new.trace.nodes) }
        ensures open { IfOk result (λ b. end_in b.read.0 self.new.trace.nodes ≡ None) }
        ensures looks { OnOk result (looks_owed self.new ≤ looks_owed self.old + 1) }
        ensures differed { OnOk result (NoneDiffers self.old self.new) }
        ensures touched { OnOk result (touched_owed self.new ≤ touched_owed self.old + 2) }
        ensures counts { OnOk result (CountsOn self.old self.new) }
        ensures marks { OnOk result (KeepsMarks self.old self.new) }
        ensures cells { OnOk result (EntersPlace key.now.place self.old self.new) }
        ensures lists { OnOk result (UsesLists self.old self.new) }
        ensures bases { OnOk result
            ((p : PlaceOf) → base_in self.new.mods p ≡ base_in self.old.mods p) }
        ensures queue { OnOk result (self.new.stale ≡ self.old.stale) }
        ensures behind { IfOk result
            (λ b. QueuedAfter after.0 self.old → QueuedAfter b.read.0 self.new) }
        ensures kept { OnOk result (Kept self.new) }
    {
        mods_follow();
        queue_follows();
        memo_follows();
        self.trace.reserve(1)?;
        let args = Words::from_slice(alloc, key.args)?;
        let place = key.place;
        let at = self.mods.slot(place);
        let value = self.value_behind(at, place, after);
        let read = self
            .trace
            .begin_read(after, place, value, key.unit, key.var, args);
        self.mods.add_read_in(self.trace.order(), at, place, read)?;
        self.memo.add(self.trace.order(), hashed, read)?;
        Ok(Begun { read, value })
    }

    /// Puts the end of a read that has none directly after a node that is not before the read.
    pub fn finish_read(&mut self, read: Stamp, after: Stamp) -> Result<Stamp, NoMemory>
        requires kept { Kept self.old }
        requires read { IsTrue (is_read (node_at read.0 self.old.trace.nodes)) }
        requires unfinished { end_in read.0 self.old.trace.nodes ≡ None }
        requires here { IsTrue (has_node after.0 self.old.trace.nodes) }
        requires order { position read.0 self.old.trace.nodes
            ≤ position after.0 self.old.trace.nodes }
        ensures nodes { IfOk result (λ s.
            self.new.trace.nodes
            ≡ with_entry_after after.0 (new_entry s.0 (End read)) self.old.trace.nodes) }
        ensures inserted { IfOk result
            (λ s. Inserted after.0 s.0 (End read) self.old.trace.nodes self.new.trace.nodes) }
        ensures finished { IfOk result (λ s. end_in read.0 self.new.trace.nodes ≡ Some s.0) }
        ensures mods { OnOk result (self.new.mods ≡ self.old.mods) }
        ensures queue { OnOk result (self.new.stale ≡ self.old.stale) }
        ensures behind { IfOk result
            (λ s. QueuedAfter after.0 self.old → QueuedAfter s.0 self.new) }
        ensures touched { OnOk result (touched_owed self.new ≤ touched_owed self.old + 2) }
        ensures counts { OnOk result (CountsOn self.old self.new) }
        ensures memo { OnOk result (self.new.memo ≡ self.old.memo) }
        ensures kept { OnOk result (Kept self.new) }
    {
        mods_follow();
        queue_follows();
        memo_follows();
        self.trace.reserve(1)?;
        Ok(self.trace.finish_read(read, after))
    }

    /// Sets the steps between a node and the next one.
    pub fn set_steps(&mut self, node: Stamp, steps: u32)
        requires kept { Kept self.old }
        requires here { IsTrue (has_node node.0 self.old.trace.nodes) }
        ensures nodes { self.new.trace.nodes ≡ with_steps node.0 steps self.old.trace.nodes }
        ensures mods { self.new.mods ≡ self.old.mods }
        ensures queue { self.new.stale ≡ self.old.stale }
        ensures memo { self.new.memo ≡ self.old.memo }
        ensures touched { touched_owed self.new ≤ touched_owed self.old + 1 }
        ensures counts { CountsOn self.old self.new }
        ensures kept { Kept self.new }
    {
        self.trace.set_steps(node, steps);
    }
}

// Whether a place is to hold 0 that was never touched: it holds 0 then.
#[inline(always)]
fn holds_anyway(mods: &Mods, place: Place, value: Word) -> bool
    ensures yes { IsTrue result → (value ≡ Num (pos 0)) × (¬ HasCell mods.now place) }
    ensures no { result ≡ false → value ≡ Num (pos 0) → HasCell mods.now place }
{
    value == Word::Num(0) && !mods.has_cell(place)
}
