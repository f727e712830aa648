// A set of names.

ghost use Rattle.std.specs.Prelude.{◌≡◌, ◌++◌, ◌∷◌, [], false, length, take, OnOk, OnErr, position, slice_get};
ghost use Rattle.std.specs.List.{list_any};
ghost use Rattle.std.specs.Option.{option_map};
ghost use Rattle.std.specs.Str.{bytes_eq};
ghost use Rattle.ceal_types.specs.Tables.{with_name};

use crate::seed::{Fed, Seed};
use crate::table::Table;
use ceal_base::no_memory::NoMemory;
use ceal_base::text::Text;
use std::alloc::Global;
use std::marker::Model;

/// Names in the order in which they were added, each of them once.
#[derive(Drop)]
pub struct Names {
    table: Table<()>,
}

impl Model for Names {
    ghost use Rattle.std.specs.Prelude.{List, ℕ};
    ghost use Rattle.std.specs.Map.{keys_of};

    ghost Value = { List (List ℕ) };

    ghost view = { λ n. keys_of n.table };
}

impl Names {
    /// No names, under a seed that everybody knows.
    pub fn new(alloc: Global) -> Names
        ensures empty { result ≡ [] }
    {
        Names::seeded(alloc, Fed::new().seed())
    }

    /// No names, whose hashes will begin with this.
    pub fn seeded(alloc: Global, seed: Seed) -> Names
        ensures empty { result ≡ [] }
    {
        Names {
            table: Table::new(alloc, seed),
        }
    }

    /// Adds a name, if it is not there.
    #[tactic(auto, using(crate::proofs::NameNumbers::NumberOfName::name_steps))]
    pub fn add(&mut self, name: &Text) -> Result<(), NoMemory>
        ensures ok { OnOk result (self.new ≡ with_name self.old name.now) }
        ensures err { OnErr result (self.new ≡ self.old) }
    {
        if self.has(name) {
            return Ok(());
        }
        self.add_new(name)
    }

    /// Adds a name that is not there.
    #[tactic(auto, using(crate::proofs::NameNumbers::NumberOfName::name_steps))]
    pub fn add_new(&mut self, name: &Text) -> Result<(), NoMemory>
        requires new { list_any (bytes_eq name.now) self.old ≡ false }
        ensures ok { OnOk result (self.new ≡ self.old ++ name.now ∷ []) }
        ensures err { OnErr result (self.new ≡ self.old) }
    {
        let name = name.copy()?;
        self.table.add(name, ())?;
        Ok(())
    }

    /// The number of a name: its place, from 0.
    pub fn number(&self, name: &Text) -> Option<u32>
        ensures number { result ≡ position (bytes_eq name.now) self.now }
    {
        self.table.number(name)
    }

    /// How many names there are.
    pub fn len(&self) -> usize
        ensures count { result ≡ length self.now }
    {
        self.table.len()
    }

    /// Leaves the first `len` names.
    #[tactic(auto, using(crate::proofs::NameNumbers::NumberOfName::name_steps))]
    pub fn truncate(&mut self, len: usize)
        ensures kept { self.new ≡ take len self.old }
    {
        self.table.truncate(len);
    }

    /// Whether a name is there.
    #[tactic(auto, using(crate::proofs::NameNumbers::NumberOfName::name_steps))]
    pub fn has(&self, name: &Text) -> bool
        ensures there { result ≡ list_any (bytes_eq name.now) self.now }
    {
        self.table.number(name).is_some()
    }

    /// The name of this number.
    pub fn at(&self, number: u32) -> Option<&Text>
        ensures name { option_map (λ n. n.now) result ≡ slice_get self.now number }
    {
        let number = number as usize;
        if number < self.table.len() {
            Some(self.table.entry(number).0)
        } else {
            None
        }
    }
}
