// The words of blocks, in the slots of a region.

ghost use Rattle.std.specs.Prelude.{◌≡◌, ◌+◌, ◌*◌, ◌<◌, ◌≤◌, Some, None, length, slice_get, slice_set, IsSome, IfOk};
ghost use Rattle.std.specs.Prelude.{OnErr};
ghost use Rattle.ceal_words.specs.Region.{words_of, KeepsOthers, KeepsAll, IsEmpty};
ghost use Rattle.ceal_heap.specs.Cells.{read_at, cells_at, cell_count};
ghost use Rattle.ceal_heap.specs.Heap.{words_held};

use crate::cells::Cells;
use crate::number::Held;
use ceal_base::no_memory::NoMemory;
use ceal_base::word::Word;
use ceal_words::region::Region;
use ceal_words::slot::Slot;
use std::alloc::Global;
use std::marker::Model;

/// A region whose slots have words of the language in them.
#[derive(Drop)]
pub struct Pieces {
    region: Region,
}

impl Model for Pieces {
    ghost use Rattle.std.specs.Prelude.{List};
    ghost use Rattle.ceal_words.specs.SizeClass.{SizeClass};

    ghost Value = { List SizeClass };

    ghost view = { λ p. p.region };
}

impl Pieces {
    /// No pieces.
    pub fn new(alloc: Global) -> Result<Pieces, NoMemory>
        ensures { IfOk result (λ p. IsEmpty p) }
    {
        let region = Region::new(alloc)?;
        Ok(Pieces { region })
    }

    /// Takes a slot and writes the words into it.
    pub fn put(&mut self, words: &[Word]) -> Result<Slot, NoMemory>
        requires few { length words.now ≤ 255 }
        ensures was_new { IfOk result (λ slot. words_of self.old slot ≡ None) }
        ensures cells { IfOk result (λ s. cells_at self.new s ≡ cell_count (length words.now)) }
        ensures words { IfOk result (λ slot. read_at self.new slot ≡ words.now) }
        ensures others { IfOk result (λ slot. KeepsOthers slot self.old self.new) }
        ensures err { OnErr result (KeepsAll self.old self.new) }
    {
        let len = cell_count(words.len() as u32);
        self.region.reserve(len, 1)?;
        let slot = self.region.take(len);
        self.write_all(&slot, words);
        Ok(slot)
    }

    fn write_all(&mut self, slot: &Slot, words: &[Word])
        requires few { length words.now ≤ 255 }
        requires cells { cells_at self.old slot.now ≡ cell_count (length words.now) }
        ensures cells { cells_at self.new slot.now ≡ cell_count (length words.now) }
        ensures words { read_at self.new slot.now ≡ words.now }
        ensures others { KeepsOthers slot.now self.old self.new }
    {
        for index in 0..words.len() {
            self.write(slot, index as u32, words[index]);
        }
    }

    fn write(&mut self, slot: &Slot, index: u32, word: Word)
        requires few { index < 255 }
        requires cells { 2 * index + 1 < cells_at self.old slot.now }
        ensures cells { cells_at self.new slot.now ≡ cells_at self.old slot.now }
        ensures words { read_at self.new slot.now
            ≡ slice_set (read_at self.old slot.now) index word }
        ensures others { KeepsOthers slot.now self.old self.new }
    {
        let cells = Cells::of(word);
        self.region.set(slot, 2 * index, cells.sort);
        self.region.set(slot, 2 * index + 1, cells.cell);
    }

    /// A word of a slot.
    pub fn word(&self, slot: &Slot, index: u32) -> Word
        requires few { index < 255 }
        requires cells { 2 * index + 1 < cells_at self.now slot.now }
        ensures { slice_get (read_at self.now slot.now) index ≡ Some result }
    {
        let sort = self.region.get(slot, 2 * index);
        let cell = self.region.get(slot, 2 * index + 1);
        Cells { sort, cell }.word()
    }

    /// A word of what is kept of a block, and None past its words.
    pub fn find(&self, held: &Held, index: u32) -> Option<Word>
        requires cells { cells_at self.now held.now.slot ≡ cell_count held.now.parts.kept }
        ensures { result ≡ slice_get (words_held self.now held.now) index }
    {
        let parts = held.parts;
        let count = parts.count();
        if index < count {
            Some(self.word(&held.slot, index))
        } else {
            parts.filled(index - count)
        }
    }

    /// Gives a slot back.
    pub fn give(&mut self, slot: Slot)
        requires { IsSome (words_of self.old slot) }
        ensures out { words_of self.new slot ≡ None }
        ensures others { KeepsOthers slot self.old self.new }
    {
        self.region.give(slot);
    }
}

// How many cells the words take.
fn cell_count(words: u32) -> u32
    requires { words ≤ 255 }
    ensures value { result ≡ cell_count words }
    ensures some { 1 ≤ result }
    ensures few { result ≤ 65536 }
{
    if words == 0 { 1 } else { 2 * words }
}
