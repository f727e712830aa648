// Sets of variables.

ghost use Rattle.std.specs.Prelude.{◌≡◌, ◌==◌, ◌||◌, ◌&&◌, ℕ, not, [], IfOk};
ghost use Rattle.ceal_fold.specs.States.{has};

use ceal_base::no_memory::NoMemory;
use ceal_code::expr::VarId;
use std::alloc::Global;
use std::collections::BTreeSet;
use std::marker::Model;

/// A set of variables.
#[derive(Drop)]
pub struct Vars {
    set: BTreeSet<u32>,
}

impl Model for Vars {
    ghost use Rattle.std.specs.Prelude.{ℕ, List};

    ghost Value = { List ℕ };

    ghost view = { λ v. v.set.keys };
}

impl Vars {
    /// No variables.
    pub fn new(alloc: Global) -> Vars
        ensures { result ≡ [] }
    {
        Vars {
            set: BTreeSet::new(alloc),
        }
    }

    /// Whether a variable is among them.
    #[tactic(auto, unfolding(crate::specs::States::has))]
    pub fn has(&self, v: VarId) -> bool
        ensures { result ≡ has self.now v.0 }
    {
        self.set.contains(&v.0)
    }

    /// Puts a variable among them.
    pub fn put(&mut self, v: VarId) -> Result<(), NoMemory>
        ensures value { IfOk result (λ _. (u : ℕ) → has self.new u ≡ (has self.old u || v.0 == u)) }
    {
        self.set.insert(v.0)?;
        Ok(())
    }

    /// Takes a variable out, if it is there.
    pub fn take_out(&mut self, v: VarId)
        ensures value { (u : ℕ) → has self.new u ≡ (not (v.0 == u) && has self.old u) }
    {
        self.set.remove(&v.0);
    }

    fn add(&mut self, other: Vars) -> Result<(), NoMemory>
        ensures value { IfOk result
            (λ _. (u : ℕ) → has self.new u ≡ (has self.old u || has other u)) }
    {
        let mut rest = other;
        while let Some(v) = rest.set.pop_first() {
            self.set.insert(v)?;
        }
        Ok(())
    }

    /// The variables of both. It takes the smaller set's one by one.
    #[tactic(auto, using(crate::proofs::VarSteps::join_steps))]
    pub fn joined(self, other: Vars) -> Result<Vars, NoMemory>
        ensures value { IfOk result (λ all. (u : ℕ) → has all u ≡ (has self u || has other u)) }
    {
        if self.set.len() < other.set.len() {
            let mut all = other;
            all.add(self)?;
            return Ok(all);
        }
        let mut all = self;
        all.add(other)?;
        Ok(all)
    }
}
