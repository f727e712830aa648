// The live variables of all blocks of a graph.

ghost use Rattle.std.specs.Prelude.{◌≡◌, ◌∷◌, [], ◌++◌, OnOk, OnErr};
ghost use Rattle.ceal_flow.specs.Sets.{is_in, set_at};

use crate::live_set::LiveSet;
use ceal_base::no_memory::NoMemory;
use std::marker::Model;

/// A set of variables for each block, by the block's number.
#[derive(Drop)]
pub struct LiveSets {
    sets: Vec<LiveSet>,
}

impl Model for LiveSets {
    ghost use Rattle.std.specs.Prelude.{List, ℕ};

    ghost Value = { List (List ℕ) };

    ghost view = { λ s. s.sets.items };
}

impl LiveSets {
    /// These sets, one for each block.
    pub fn new(sets: Vec<LiveSet>) -> LiveSets
        ensures value { result ≡ sets.items }
    {
        LiveSets { sets }
    }

    /// Puts the set of the next block at the end.
    pub fn push(&mut self, item: LiveSet) -> Result<(), NoMemory>
        ensures ok { OnOk result (self.new ≡ self.old ++ item ∷ []) }
        ensures err { OnErr result (self.new ≡ self.old) }
    {
        self.sets.push(item)?;
        Ok(())
    }

    /// The sets, in the order of the blocks.
    pub fn items(&self) -> &[LiveSet]
        ensures value { result.now ≡ self.now }
    {
        self.sets.as_slice()
    }

    /// Whether the variable is in the set of the block; in none where there is no such block.
    pub fn is_live(&self, block: u32, v: u32) -> bool
        ensures value { result ≡ is_in v (set_at self.now block) }
    {
        match self.sets.get(block as usize) {
            Some(set) => set.contains(v),
            None => false,
        }
    }
}
