// Sets of variables.

ghost use Rattle.std.specs.Prelude.{◌≡◌, ◌<◌, ◌≤◌, ◌==◌, ◌^◌, ◌||◌, ◌&&◌, not, true, false, ℕ, [], length, IfOk, OnOk};
ghost use Rattle.std.specs.Prelude.{OnErr};
ghost use Rattle.ceal_flow.specs.Sets.{is_in, is_that, IsAscending};

use crate::bits::{Chunk, add, copied, has, numbers, put, skip};
use ceal_base::no_memory::NoMemory;
use std::alloc::Global;
use std::marker::Model;

/// A set of variables of one function, which contracts see as the ascending list of their numbers. It has chunks of 64
/// bits, and none where there is no variable: a small set takes little memory, and joining two sets takes one step a
/// chunk.
#[derive(Drop)]
pub struct LiveSet {
    alloc: Global,
    chunks: Vec<Chunk>,
}

impl Model for LiveSet {
    ghost use Rattle.std.specs.Prelude.{List, ℕ};
    ghost use Rattle.ceal_flow.specs.Bits.{members, AreOrdered};

    ghost Value = { List ℕ };

    ghost view = { λ s. members s.chunks.items };

    ghost invariant = { λ s. AreOrdered s.chunks.items };
}

impl LiveSet {
    /// The set of no variables.
    pub fn empty(alloc: Global) -> LiveSet
        ensures value { result ≡ [] }
    {
        LiveSet {
            alloc,
            chunks: Vec::new(alloc),
        }
    }

    /// Whether a variable is in the set.
    pub fn contains(&self, v: u32) -> bool
        ensures value { result ≡ is_in v self.now }
    {
        has(self.chunks.as_slice(), v)
    }

    /// Puts a variable into the set, once; without memory the set stays as it is.
    pub fn insert(&mut self, v: u32) -> Result<(), NoMemory>
        ensures ok { OnOk result ((w : ℕ) → is_in w self.new ≡ (v == w || is_in w self.old)) }
        ensures err { OnErr result (self.new ≡ self.old) }
        ensures ascending { IsAscending self.new }
        ensures few { length self.new ≤ 2 ^ 32 }
    {
        let at = v / 64;
        let index = skip(self.chunks.as_slice(), 0, at);
        put(&mut self.chunks, index, at, 1 << (v % 64))?;
        Ok(())
    }

    /// Adds the variables of the other set but one, and says whether any was added.
    pub fn join(&mut self, other: &LiveSet, except: Option<u32>) -> Result<bool, NoMemory>
        ensures ok { OnOk result
            ((w : ℕ)
            → is_in w self.new
            ≡ (is_in w self.old || (is_in w other.now && not (is_that except w)))) }
        ensures err { OnErr result (self.new ≡ self.old) }
        ensures same { IfOk result (λ changed. changed ≡ false → self.new ≡ self.old) }
        ensures more { IfOk result (λ changed. changed ≡ true → length self.old < length self.new) }
        ensures ascending { IsAscending self.new }
        ensures few { length self.new ≤ 2 ^ 32 }
    {
        let mut grown = copied(self.alloc, self.chunks.as_slice(), other.chunks.len())?;
        let changed = add(&mut grown, other.chunks.as_slice(), except)?;
        self.chunks = grown;
        Ok(changed)
    }

    /// The variables, ascending.
    pub fn variables(&self, alloc: Global) -> Result<Vec<u32>, NoMemory>
        ensures value { IfOk result (λ vs. vs.items ≡ self.now) }
        ensures ascending { IsAscending self.now }
    {
        numbers(alloc, self.chunks.as_slice())
    }
}
