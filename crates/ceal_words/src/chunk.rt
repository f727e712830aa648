// The memory of one size class.

ghost use Rattle.std.specs.Prelude.{◌≡◌, ◌-◌, ◌<◌, ◌≤◌, ℕ, List, ◌++◌, Some, length, map, take, drop, replicate};
ghost use Rattle.std.specs.Prelude.{slice_index, slice_set, IfOk, OnOk};

use crate::block::{Block, Deed};
use ceal_base::no_memory::NoMemory;
use std::alloc::Global;
use std::marker::Model;

// A block has fewer than 2 ^ 63 bytes.
const MOST_WORDS: usize = 0x0fff_ffff_ffff_ffff;

/// A row of words, which contracts see as their list, in memory that may have room for more. What comes after the words
/// was never written to, so it takes no place yet.
pub(crate) struct Chunk {
    block: Block,
    deed: Deed<Global>,
    count: usize,
    room: usize,
    alloc: Global,
}

impl Model for Chunk {
    ghost use Rattle.std.specs.Prelude.{◌≡◌, ℕ, List};
    ghost use Rattle.ceal_words.specs.Written.{held, IsWritten};

    ghost Value = { List ℕ };

    ghost view = { λ c. held c.block.words };

    ghost invariant = { λ c. IsWritten c.block.words c.count c.room × (c.deed.at ≡ c.block.at)
        × (c.deed.count ≡ c.room) × (c.deed.heap ≡ c.alloc) };
}

impl Drop for Chunk {
    fn drop(self) {
        let Chunk {
            block,
            deed,
            count: _,
            room,
            alloc,
        } = self;
        block.free(deed, &alloc, room);
    }
}

impl Chunk {
    /// `count` words that are 0.
    pub(crate) fn zeros(alloc: Global, count: usize) -> Result<Chunk, NoMemory>
        ensures { IfOk result (λ c. c ≡ replicate count 0) }
    {
        if MOST_WORDS < count {
            return Err(NoMemory);
        }
        match Block::new(&alloc, count) {
            None => Err(NoMemory),
            Some((mut block, deed)) => {
                clear(&mut block, 0, count);
                Ok(Chunk {
                    block,
                    deed,
                    count,
                    room: count,
                    alloc,
                })
            }
        }
    }

    // The same words and zeros after them, `len` in all, in new memory, which has twice the room.
    fn longer(&self, len: usize) -> Result<Chunk, NoMemory>
        requires { length self.now ≤ len }
        ensures { IfOk result (λ c. c ≡ self.now ++ replicate (len - length self.now) 0) }
    {
        let room = len.max(self.room.saturating_mul(2));
        if MOST_WORDS < room {
            return Err(NoMemory);
        }
        let alloc = self.alloc;
        match Block::new(&alloc, room) {
            None => Err(NoMemory),
            Some((mut block, deed)) => {
                copy(self, &mut block);
                clear(&mut block, self.count, len);
                Ok(Chunk {
                    block,
                    deed,
                    count: len,
                    room,
                    alloc,
                })
            }
        }
    }

    /// Makes the row `len` words long, if it is shorter. Where there was no memory, all is as before.
    pub(crate) fn reserve(&mut self, len: usize) -> Result<(), NoMemory>
        ensures kept { (more : List ℕ) × (self.new ≡ self.old ++ more) }
        ensures ok { OnOk result (len ≤ length self.new) }
    {
        if len <= self.count {
            return Ok(());
        }
        if len <= self.room {
            clear(&mut self.block, self.count, len);
            self.count = len;
            return Ok(());
        }
        let larger = self.longer(len)?;
        *self = larger;
        Ok(())
    }

    pub(crate) fn len(&self) -> usize
        ensures { result ≡ length self.now }
    {
        self.count
    }

    pub(crate) fn get(&self, at: usize) -> u64
        requires { at < length self.now }
        ensures { result ≡ slice_index self.now at }
    {
        self.block.read(at)
    }

    pub(crate) fn set(&mut self, at: usize, value: u64)
        requires { at < length self.old }
        ensures { self.new ≡ slice_set self.old at value }
    {
        self.block.write(at, value);
    }
}

// Writes 0 into the cells from one index up to another.
fn clear(block: &mut Block, from: usize, to: usize)
    requires rises { from ≤ to }
    requires within { to ≤ length block.old.words }
    ensures words { block.new.words
        ≡ take from block.old.words ++ replicate (to - from) (Some 0) ++ drop to block.old.words }
    ensures at { block.new.at ≡ block.old.at }
{
    for index in from..to {
        block.write(index, 0);
    }
}

// Writes the words of a chunk into the first cells.
fn copy(chunk: &Chunk, block: &mut Block)
    requires { length chunk.now ≤ length block.old.words }
    ensures words { block.new.words
        ≡ map Some chunk.now ++ drop (length chunk.now) block.old.words }
    ensures at { block.new.at ≡ block.old.at }
{
    let count = chunk.len();
    for at in 0..count {
        block.write(at, chunk.get(at));
    }
}
