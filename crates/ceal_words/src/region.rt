// The region: a size class for each power of two.

ghost use Rattle.std.specs.Prelude.{◌≡◌, ◌<◌, ◌≤◌, ◌+◌, ◌-◌, max, Some, None, replicate, IsSome, IfOk, OnOk, OnErr};
ghost use Rattle.ceal_words.specs.SizeClass.{changed};
ghost use Rattle.ceal_words.specs.Region.{words_of, word_of, slot_len, spare, KeepsOthers, KeepsAll, KeepsOtherSpares};
ghost use Rattle.ceal_words.specs.Region.{KeepsSpares, IsEmpty};

use crate::lengths::{CLASSES, size_class};
use crate::pool::Pool;
use crate::slot::Slot;
use ceal_base::no_memory::NoMemory;
use std::alloc::Global;
use std::marker::Model;

/// Memory for slots of 1 to 65,536 words. It owns its memory; dropping the region frees all slots.
///
/// Segregated free lists by powers of two, as in Knuth, "The Art of Computer Programming", volume 1, section 2.5.
#[derive(Drop)]
pub struct Region {
    pools: Vec<Pool>,
}

impl Model for Region {
    ghost use Rattle.std.specs.Prelude.{List};
    ghost use Rattle.ceal_words.specs.SizeClass.{SizeClass};

    ghost Value = { List SizeClass };

    ghost use Rattle.ceal_words.specs.Region.{IsInOrder};

    ghost view = { λ r. r.pools.items };

    ghost invariant = { λ r. IsInOrder 17 r.pools.items };
}

impl Region {
    /// A region of no pieces.
    pub fn new(alloc: Global) -> Result<Region, NoMemory>
        ensures { IfOk result (λ r. IsEmpty r) }
    {
        let mut pools = Vec::new(alloc);
        for exponent in 0..CLASSES {
            let pool = Pool::new(alloc, 1 << exponent)?;
            pools.push(pool)?;
        }
        Ok(Region { pools })
    }

    /// Makes sure that `n` slots of this length can be taken, and makes no more than it takes. Where there was no
    /// memory, all is as before.
    pub fn reserve(&mut self, len: u32, n: u32) -> Result<(), NoMemory>
        requires length { (1 ≤ len) × (len ≤ 65536) }
        ensures ok { OnOk result (n ≤ spare self.new len) }
        ensures err { OnErr result (self.new ≡ self.old) }
        ensures words { KeepsAll self.old self.new }
        ensures raises { spare self.old len ≤ spare self.new len }
        ensures few { spare self.new len ≤ max (spare self.old len) n }
        ensures others { KeepsOtherSpares len self.old self.new }
    {
        let pool = &mut self.pools[size_class(len) as usize];
        pool.reserve(n)
    }

    /// Takes a slot, whose words are 0.
    pub fn take(&mut self, len: u32) -> Slot
        requires length { (1 ≤ len) × (len ≤ 65536) }
        requires some { 1 ≤ spare self.old len }
        ensures len { slot_len result ≡ len }
        ensures was_new { words_of self.old result ≡ None }
        ensures zeros { words_of self.new result ≡ Some (replicate len 0) }
        ensures words { KeepsOthers result self.old self.new }
        ensures lowers { spare self.new len ≡ spare self.old len - 1 }
        ensures others { KeepsOtherSpares len self.old self.new }
    {
        let chunk = size_class(len);
        let pool = &mut self.pools[chunk as usize];
        let at = pool.take(len);
        Slot { chunk, at, len }
    }

    /// Gives a slot back.
    pub fn give(&mut self, slot: Slot)
        requires { IsSome (words_of self.old slot) }
        ensures out { words_of self.new slot ≡ None }
        ensures words { KeepsOthers slot self.old self.new }
        ensures raises { spare self.new (slot_len slot) ≡ spare self.old (slot_len slot) + 1 }
        ensures others { KeepsOtherSpares (slot_len slot) self.old self.new }
    {
        let pool = &mut self.pools[slot.chunk as usize];
        pool.give(slot.at);
    }

    /// A word of a slot.
    pub fn get(&self, slot: &Slot, index: u32) -> u64
        requires { IsSome (word_of self.now slot.now index) }
        ensures { word_of self.now slot.now index ≡ Some result }
    {
        let pool = &self.pools[slot.chunk as usize];
        pool.get(slot.at, index)
    }

    /// Sets a word of a slot.
    pub fn set(&mut self, slot: &Slot, index: u32, value: u64)
        requires { IsSome (word_of self.old slot.now index) }
        ensures word { words_of self.new slot.now
            ≡ changed (words_of self.old slot.now) index value }
        ensures words { KeepsOthers slot.now self.old self.new }
        ensures spare { KeepsSpares self.old self.new }
    {
        let pool = &mut self.pools[slot.chunk as usize];
        pool.set(slot.at, index, value);
    }
}
