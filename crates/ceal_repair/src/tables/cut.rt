// Nodes are taken out.

ghost use Rattle.std.specs.Prelude.{◌≡◌, ◌<◌, ◌≤◌, ◌+◌, ℕ, Some, None, OnOk, IsTrue, IsSome};
ghost use Rattle.ceal_base.specs.declared.forest.Key.{Key as KeyOfAlloc};
ghost use Rattle.ceal_base.specs.declared.word.BlockId.{BlockId as Block};
ghost use Rattle.ceal_base.specs.declared.word.Place.{Place as PlaceOf};
ghost use Rattle.ceal_base.specs.declared.word.Word.{Word as WordOf};
ghost use Rattle.ceal_repair.specs.Kept.{Kept, QueuedAfter, QueuedFrom, base_in};
ghost use Rattle.ceal_repair.specs.Looks.{looks_owed, touched_owed, CountsOn, NoneDiffers, KeepsMarks};
ghost use Rattle.ceal_repair.specs.Room.{EntersNone, KeepsLists};
ghost use Rattle.ceal_trace.specs.Nodes.{node_at, position, is_read, end_in, without_entry};
ghost use Rattle.ceal_trace.specs.declared.node.Node.TheVariants.{Alloc, Write};

use super::Tables;
use crate::recorded::recorded;
use ceal_base::no_memory::NoMemory;
use ceal_base::word::Place;
use ceal_order::stamp::Stamp;

impl Tables {
    /// Takes an allocation out.
    pub fn cut_alloc(&mut self, alloc: Stamp)
        requires kept { Kept self.old }
        requires here { (b : Block) × (key : KeyOfAlloc)
            × (node_at alloc.0 self.old.trace.nodes ≡ Some (Alloc b key)) }
        ensures nodes { self.new.trace.nodes ≡ without_entry alloc.0 self.old.trace.nodes }
        ensures mods { self.new.mods ≡ self.old.mods }
        ensures queue { self.new.stale ≡ self.old.stale }
        ensures touched { touched_owed self.new ≤ touched_owed self.old }
        ensures counts { CountsOn self.old self.new }
        ensures lists { KeepsLists self.old self.new }
        ensures kept { Kept self.new }
    {
        self.memo.remove(self.trace.order(), alloc);
        self.trace.discard(alloc);
    }

    /// Takes out a write before which none is queued, and queues the read that this affects. Where the place holds the
    /// same without it, none is.
    pub fn cut_write(&mut self, write: Stamp, place: Place) -> Result<(), NoMemory>
        requires kept { Kept self.old }
        requires here { (v : WordOf)
            × (node_at write.0 self.old.trace.nodes ≡ Some (Write place v)) }
        requires first { QueuedFrom write.0 self.old }
        ensures nodes { OnOk result
            (self.new.trace.nodes ≡ without_entry write.0 self.old.trace.nodes) }
        ensures bases { OnOk result
            ((p : PlaceOf) → base_in self.new.mods p ≡ base_in self.old.mods p) }
        ensures behind { OnOk result
            ((s : ℕ) → position s self.old.trace.nodes < position write.0 self.old.trace.nodes
            → QueuedAfter s self.old → QueuedAfter s self.new) }
        ensures looks { OnOk result (looks_owed self.new ≤ looks_owed self.old + 3) }
        ensures differed { OnOk result (NoneDiffers self.old self.new) }
        ensures touched { OnOk result (touched_owed self.new ≤ touched_owed self.old) }
        ensures counts { OnOk result (CountsOn self.old self.new) }
        ensures marks { OnOk result (KeepsMarks self.old self.new) }
        ensures cells { OnOk result (EntersNone self.old self.new) }
        ensures memo { OnOk result (self.new.memo ≡ self.old.memo) }
        ensures kept { OnOk result (Kept self.new) }
    {
        self.stale.reserve(1)?;
        let needless = self.is_needless(write, place);
        let at = self.mods.remove_write(self.trace.order(), place, write);
        self.wake_unless(needless, at, place, write);
        self.trace.discard(write);
        Ok(())
    }

    /// Takes out a read before which none is queued, and its end. Where it was queued, it hands on to the next one.
    pub fn cut_read(&mut self, read: Stamp)
        requires kept { Kept self.old }
        requires here { IsTrue (is_read (node_at read.0 self.old.trace.nodes)) }
        requires finished { IsSome (end_in read.0 self.old.trace.nodes) }
        requires first { QueuedFrom read.0 self.old }
        ensures nodes { (end : ℕ) × (end_in read.0 self.old.trace.nodes ≡ Some end)
            × (self.new.trace.nodes
            ≡ without_entry end (without_entry read.0 self.old.trace.nodes)) }
        ensures bases { (p : PlaceOf) → base_in self.new.mods p ≡ base_in self.old.mods p }
        ensures behind { (s : ℕ)
            → position s self.old.trace.nodes < position read.0 self.old.trace.nodes
            → QueuedAfter s self.new }
        ensures looks { looks_owed self.new ≤ looks_owed self.old }
        ensures differed { NoneDiffers self.old self.new }
        ensures touched { touched_owed self.new ≤ touched_owed self.old }
        ensures counts { CountsOn self.old self.new }
        ensures marks { KeepsMarks self.old self.new }
        ensures cells { EntersNone self.old self.new }
        ensures lists { KeepsLists self.old self.new }
        ensures kept { Kept self.new }
    {
        let end = match self.trace.end_of(read) {
            None => unreachable!(),
            Some(end) => end,
        };
        let (place, _value) = recorded(&self.trace, read);
        self.hand_on(read, place);
        self.mods.remove_read(self.trace.order(), place, read);
        self.memo.remove(self.trace.order(), read);
        self.trace.discard(read);
        self.trace.discard(end);
    }
}
