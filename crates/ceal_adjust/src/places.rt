// Where the old items with a mark are.

ghost use Rattle.std.specs.Prelude.{◌≡◌, ◌∷◌, [], ◌++◌, false, if◌then◌else◌, OnOk};
ghost use Rattle.ceal_adjust.specs.Places.{listed};
ghost use Rattle.ceal_adjust.specs.Marks.{same_mark};
ghost use Rattle.ceal_adjust.specs.declared.mark.Mark.{Mark as AnyMark};

use crate::mark::Mark;
use ceal_base::items::Items;
use ceal_base::no_memory::NoMemory;
use std::alloc::Global;
use std::collections::HashMap;

/// The places of items by their marks, those of one mark in their order.
#[derive(Drop)]
pub struct Places {
    table: HashMap<Mark, Items<usize>>,
}

impl Places {
    /// A table with no place in it.
    #[tactic(auto, unfolding(crate::specs::Places::listed))]
    pub fn new(alloc: Global) -> Places
        ensures nothing { (m : AnyMark) → listed result m ≡ [] }
    {
        Places {
            table: HashMap::new(alloc),
        }
    }

    /// Takes the places with a mark out.
    #[tactic(auto, unfolding(crate::specs::Places::listed, crate::specs::Marks::same_mark))]
    fn take(&mut self, alloc: Global, mark: &Mark) -> Items<usize>
        ensures taken { result ≡ listed self.old mark.now }
        ensures others { (m : AnyMark) → same_mark mark.now m ≡ false
            → listed self.new m ≡ listed self.old m }
    {
        match self.table.remove(mark) {
            Some(places) => places,
            None => Items::empty(alloc),
        }
    }

    /// With one place more.
    #[tactic(auto, unfolding(crate::specs::Places::listed))]
    pub fn add(&mut self, alloc: Global, mark: Mark, at: usize) -> Result<(), NoMemory>
        ensures added { OnOk result
            ((m : AnyMark)
            → listed self.new m
            ≡ (if same_mark mark m then listed self.old m ++ at ∷ [] else listed self.old m)) }
    {
        let mut places = self.take(alloc, &mark);
        places.push(at)?;
        self.table.insert(mark, places)?;
        Ok(())
    }

    /// The places with a mark.
    #[tactic(auto, unfolding(crate::specs::Places::listed))]
    pub fn of(&self, mark: &Mark) -> &[usize]
        ensures value { result.now ≡ listed self.now mark.now }
    {
        match self.table.get(mark) {
            None => &[],
            Some(places) => places.items(),
        }
    }
}
