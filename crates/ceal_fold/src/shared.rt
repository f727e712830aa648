// What several paths know, in pages.

ghost use Rattle.std.specs.Prelude.{◌≡◌, ◌==◌, ℕ, [], None, Some, if◌then◌else◌, IfOk, OnOk};
ghost use Rattle.std.specs.BTreeMap.{is_at};
ghost use Rattle.std.specs.Map.{lookup};
ghost use Rattle.std.specs.Ordering.{nat_cmp};
ghost use Rattle.ceal_fold.specs.States.{page_of, in_page, in_maybe, last_of};

use crate::known::Assigned;
use crate::page::Page;
use ceal_base::no_memory::NoMemory;
use std::alloc::Global;
use std::collections::BTreeMap;
use std::marker::Model;
use std::rc::Rc;

/// The last assignment of each variable, which several paths have until one of them assigns. That one then gets its own
/// list of pages and its own copy of one page, and shares the others with the rest.
#[derive(Drop)]
pub struct Shared {
    pages: Rc<BTreeMap<u32, Page>>,
}

impl Model for Shared {
    ghost use Rattle.std.specs.Prelude.{ℕ, List};
    ghost use Rattle.ceal_fold.specs.declared.known.Assigned.{Assigned};

    ghost Value = { List (ℕ × List (ℕ × Assigned)) };

    ghost view = { λ s. s.pages.value.entries };
}

/// The page of a variable: 256 that follow one another have one.
#[tactic(auto, unfolding(crate::specs::States::page_of))]
fn page_number(v: u32) -> u32
    ensures value { result ≡ page_of v }
{
    v / 256
}

/// Takes a page out.
fn take_page(pages: &mut BTreeMap<u32, Page>, number: u32) -> Option<Page>
    ensures page { result ≡ lookup (is_at (nat_cmp number)) pages.old.entries }
    ensures left { (n : ℕ) → lookup (is_at (nat_cmp n)) pages.new.entries
        ≡ (if is_at (nat_cmp number) n then None
        else lookup (is_at (nat_cmp n)) pages.old.entries) }
{
    pages.remove(&number)
}

/// Puts a page in.
fn put_page(pages: &mut BTreeMap<u32, Page>, number: u32, page: Page) -> Result<(), NoMemory>
    ensures value { OnOk result ((n : ℕ) → lookup (is_at (nat_cmp n)) pages.new.entries
        ≡ (if is_at (nat_cmp number) n then Some page
        else lookup (is_at (nat_cmp n)) pages.old.entries)) }
{
    pages.insert(number, page)?;
    Ok(())
}

/// The page with the last assignment of a variable; a new one, where there is none.
#[tactic(auto, using(crate::proofs::PageSteps::turn_steps))]
fn turned(alloc: Global, page: Option<Page>, v: u32, last: Assigned) -> Result<Page, NoMemory>
    ensures value { IfOk result (λ turned. (u : ℕ) → in_page turned u
        ≡ (if u == v then Some last else in_maybe page u)) }
{
    match page {
        Some(page) => {
            let mut page = page;
            page.put(v, last)?;
            Ok(page)
        }
        None => {
            let mut page = Page::new(alloc)?;
            page.put(v, last)?;
            Ok(page)
        }
    }
}

/// Puts the last assignment of a variable into its page.
fn put_in(
    alloc: Global,
    pages: &mut BTreeMap<u32, Page>,
    v: u32,
    last: Assigned,
) -> Result<(), NoMemory>
    ensures value { OnOk result ((u : ℕ) → last_of pages.new.entries u
        ≡ (if u == v then Some last else last_of pages.old.entries u)) }
{
    let number = page_number(v);
    let page = take_page(pages, number);
    let page = turned(alloc, page, v, last)?;
    put_page(pages, number, page)?;
    Ok(())
}

impl Shared {
    /// A map that nobody else has.
    pub fn new(alloc: Global) -> Result<Shared, NoMemory>
        ensures value { IfOk result (λ shared. shared ≡ []) }
    {
        let pages = Rc::new(alloc, BTreeMap::new(alloc))?;
        Ok(Shared { pages })
    }

    /// The same for one path more. It takes the same time whatever is known.
    pub fn share(&self) -> Result<Shared, NoMemory>
        ensures equal { IfOk result (λ shared. shared ≡ self.now) }
    {
        let pages = self.pages.clone()?;
        Ok(Shared { pages })
    }

    /// Puts the last assignment of a variable.
    pub fn put(&mut self, alloc: Global, v: u32, last: Assigned) -> Result<(), NoMemory>
        ensures value { OnOk result ((u : ℕ) → last_of self.new u
            ≡ (if u == v then Some last else last_of self.old u)) }
    {
        let pages = Rc::make_mut(&mut self.pages)?;
        put_in(alloc, pages, v, last)?;
        Ok(())
    }

    /// What was assigned to a variable last, where that is known.
    #[tactic(auto, unfolding(crate::specs::States::last_of, crate::specs::States::page_of))]
    pub fn last(&self, v: u32) -> Option<Assigned>
        ensures value { result ≡ last_of self.now v }
    {
        match self.pages.as_ref().get(&page_number(v)) {
            None => None,
            Some(page) => page.last(v),
        }
    }
}
