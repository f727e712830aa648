// The heap.

ghost use Rattle.std.specs.Prelude.{◌≡◌, ◌+◌, ◌≤◌, false, None, length, IsSome, IfSome, IfOk, OnOk, OnErr, IsTrue};
ghost use Rattle.ceal_code.specs.PlainWords.{block_shape, block_word};
ghost use Rattle.ceal_heap.specs.Heap.{standing, block_of, plain_of, word_at, live_count, revoked_count, revoked, next};
ghost use Rattle.ceal_heap.specs.Heap.{number_of, IsLive, IsMade, IsFree, KeepsBlocks, ReleasesRevoked, ReleasesAlike};
ghost use Rattle.ceal_heap.specs.Heap.{IsUnchanged, HasSlots, IsNew};

use crate::number::Held;
use crate::parts::Parts;
use crate::pieces::Pieces;
use crate::table::Table;
use ceal_base::kind::Shape;
use ceal_base::no_memory::NoMemory;
use ceal_base::word::{BlockId, Word};
use std::alloc::Global;
use std::marker::Model;

/// The core blocks, each with its shape and its words. A live block that is revoked can be read until the revoked
/// blocks are released; its number is given out again only then, to a block of any shape. So there are never more
/// numbers than there were live and revoked blocks at a time. All memory is taken by `make`.
#[derive(Drop)]
pub struct Heap {
    table: Table,
    pieces: Pieces,
}

impl Model for Heap {
    ghost use Rattle.ceal_heap.specs.Table.{held_at};
    ghost use Rattle.ceal_heap.specs.Heap.{Contents, IsKept};

    ghost Value = { Contents };

    ghost view = { λ h. record { numbers = h.table.numbers; region = h.pieces } };

    ghost invariant = { λ h. IsKept (held_at h.table.numbers) h.pieces };
}

/// A block that was made, and the shape of the block that had its number before, if there was one.
#[derive(Clone, Copy)]
pub struct NewBlock {
    pub block: BlockId,
    pub before: Option<Shape>,
}

impl Heap {
    /// No block was made.
    pub fn new(alloc: Global) -> Result<Heap, NoMemory>
        ensures new { IfOk result (λ heap. IsNew heap) }
        ensures slots { IfOk result (λ heap. HasSlots heap) }
    {
        let pieces = Pieces::new(alloc)?;
        let table = Table::new(alloc);
        Ok(Heap { table, pieces })
    }

    /// Makes a block of at most 255 words. It gets the number of a released block, or else the next number. `NoMemory`
    /// also comes when 2^32 - 1 numbers were given out and none is free.
    pub fn make(&mut self, shape: Shape, words: &[Word]) -> Result<NewBlock, NoMemory>
        requires few { length words.now ≤ 255 }
        ensures new { IfOk result (λ made. block_of self.old made.block ≡ None) }
        ensures free { IfOk result (λ made. IsFree self.old made.block made.before) }
        ensures made { IfOk result (λ made. IsMade self.new made.block shape words.now) }
        ensures others { IfOk result (λ made. KeepsBlocks made.block self.old self.new) }
        ensures count { OnOk result (live_count self.new ≡ live_count self.old + 1) }
        ensures err { OnErr result (IsUnchanged self.old self.new) }
        ensures slots { HasSlots self.new }
    {
        self.table.prepare()?;
        let parts = Parts::of(words);
        let slot = self.pieces.put(&words[..parts.kept as usize])?;
        let held = Held { slot, parts };
        let given = self.table.give_out(shape, held);
        Ok(NewBlock {
            block: BlockId::Core(given.number),
            before: given.before,
        })
    }

    /// A word of a live or revoked block. Past its words it is the number 0.
    pub fn field(&self, block: BlockId, index: u32) -> Word
        requires known { IsSome (block_of self.now block) }
        ensures word { IfSome (plain_of self.now block) (λ b. result ≡ word_at b.words index) }
    {
        let held = self.table.held(number_of(block));
        match self.pieces.find(held, index) {
            None => Word::Num(0),
            Some(word) => word,
        }
    }

    /// The shape of a live or revoked block.
    pub fn shape(&self, block: BlockId) -> Shape
        requires known { IsSome (block_of self.now block) }
        ensures shape { IfSome (plain_of self.now block) (λ b. result ≡ b.shape) }
    {
        self.table.shape(number_of(block))
    }

    /// The shape of a block that can be read, and None of any other.
    pub fn find_shape(&self, block: BlockId) -> Option<Shape>
        ensures shape { result ≡ block_shape (plain_of self.now block) }
    {
        match block {
            BlockId::Input(_) => None,
            BlockId::Core(number) => {
                // for the proof: the block is there, where something is kept of it
                let _held = self.table.find(number)?;
                Some(self.table.shape(number))
            }
        }
    }

    /// A word of a block that can be read, and None of any other and past its words.
    pub fn find_word(&self, block: BlockId, index: u32) -> Option<Word>
        ensures word { result ≡ block_word (plain_of self.now block) index }
    {
        match block {
            BlockId::Input(_) => None,
            BlockId::Core(number) => {
                let held = self.table.find(number)?;
                self.pieces.find(held, index)
            }
        }
    }

    /// Revokes a live block. It can still be read.
    pub fn revoke(&mut self, block: BlockId)
        requires live { IsLive self.old block }
        ensures revoked { standing self.new block ≡ revoked (standing self.old block) }
        ensures others { KeepsBlocks block self.old self.new }
        ensures region { self.new.region ≡ self.old.region }
        ensures count { live_count self.new + 1 ≡ live_count self.old }
        ensures slots { HasSlots self.new }
    {
        self.table.revoke(number_of(block));
    }

    /// Takes all revoked blocks away. Their slots go back, and their numbers can be given out again.
    pub fn release_revoked(&mut self)
        ensures released { ReleasesRevoked self.old self.new }
        ensures count { live_count self.new ≡ live_count self.old }
        ensures slots { HasSlots self.new }
    {
        while self.release_one() {}
    }

    // Takes one revoked block away, if there is one.
    fn release_one(&mut self) -> bool
        ensures alike { ReleasesAlike self.old self.new }
        ensures fewer { IsTrue result → revoked_count self.new + 1 ≡ revoked_count self.old }
        ensures none { result ≡ false → ReleasesRevoked self.new self.new }
        ensures count { live_count self.new ≡ live_count self.old }
        ensures slots { HasSlots self.new }
    {
        match self.table.release_one() {
            None => false,
            Some(held) => {
                self.pieces.give(held.into_slot());
                true
            }
        }
    }

    /// The number that is given out next where none is released: how many numbers were given out.
    pub fn next(&self) -> u32
        ensures { result ≡ next self.now }
    {
        self.table.made()
    }

    /// How many blocks are live.
    pub fn live_count(&self) -> u32
        ensures { result ≡ live_count self.now }
    {
        self.table.live()
    }
}

// The number of a block.
fn number_of(block: BlockId) -> u32
    ensures { result ≡ number_of block }
{
    match block {
        BlockId::Input(number) => number,
        BlockId::Core(number) => number,
    }
}
