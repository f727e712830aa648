// A page of what several paths know.

ghost use Rattle.std.specs.Prelude.{◌≡◌, ◌==◌, ℕ, [], Some, if◌then◌else◌, IfOk, OnOk};
ghost use Rattle.std.specs.BTreeMap.{is_at};
ghost use Rattle.std.specs.Map.{lookup};
ghost use Rattle.std.specs.Ordering.{nat_cmp};
ghost use Rattle.ceal_fold.specs.States.{in_page};

use crate::known::Assigned;
use ceal_base::no_memory::NoMemory;
use std::alloc::{AllocError, Global};
use std::collections::BTreeMap;
use std::marker::Model;
use std::rc::Rc;

/// The last assignments of the variables of one page, which several paths have until one of them assigns one of these.
#[derive(Drop)]
pub struct Page {
    map: Rc<BTreeMap<u32, Assigned>>,
}

impl Model for Page {
    ghost use Rattle.std.specs.Prelude.{ℕ, List};
    ghost use Rattle.ceal_fold.specs.declared.known.Assigned.{Assigned};

    ghost Value = { List (ℕ × Assigned) };

    ghost view = { λ p. p.map.value.entries };
}

impl Page {
    pub fn new(alloc: Global) -> Result<Page, NoMemory>
        ensures value { IfOk result (λ page. page ≡ []) }
    {
        let map = Rc::new(alloc, BTreeMap::new(alloc))?;
        Ok(Page { map })
    }

    /// Puts an entry. Where another path has the page too, this one gets a copy of it first.
    fn insert(&mut self, v: u32, last: Assigned) -> Result<(), NoMemory>
        ensures value { OnOk result ((u : ℕ) → lookup (is_at (nat_cmp u)) self.new
            ≡ (if is_at (nat_cmp v) u then Some last else lookup (is_at (nat_cmp u)) self.old)) }
    {
        let map = Rc::make_mut(&mut self.map)?;
        map.insert(v, last)?;
        Ok(())
    }

    /// Puts the last assignment of a variable.
    #[tactic(auto, using(crate::proofs::PageSteps::page_steps))]
    pub fn put(&mut self, v: u32, last: Assigned) -> Result<(), NoMemory>
        ensures value { OnOk result ((u : ℕ) → in_page self.new u
            ≡ (if u == v then Some last else in_page self.old u)) }
    {
        self.insert(v, last)?;
        Ok(())
    }

    #[tactic(auto, unfolding(crate::specs::States::in_page))]
    pub fn last(&self, v: u32) -> Option<Assigned>
        ensures value { result ≡ in_page self.now v }
    {
        self.map.as_ref().get(&v).copied()
    }
}

/// The same page for one path more. It takes the same time whatever is in it.
impl Clone for Page {
    ghost is_clone = { λ page copy. copy ≡ page };

    fn clone(&self) -> Result<Page, AllocError> {
        let map = self.map.clone()?;
        Ok(Page { map })
    }
}
