// Where a stamp has its entry.

ghost use Rattle.std.specs.Prelude.{◌≡◌, ◌<◌, ◌≤◌, ◌^◌, ℕ, [], length, OnOk};
ghost use Rattle.ceal_memo.specs.declared.home.Home.TheVariants.{Nowhere, In};
ghost use Rattle.ceal_memo.specs.Homes.{home_in, home_of, HomeChange};

use ceal_base::no_memory::NoMemory;
use ceal_order::room::make_room;
use ceal_order::stamp::Stamp;
use std::alloc::Global;
use std::marker::Model;

// Stands for no list: there are fewer lists than this.
const NO_LIST: u32 = u32::MAX;

// How many homes are added beyond those that are asked for.
const HOMES_BEYOND: usize = 63;

/// In which list a stamp has its entry, by the number of the list.
#[derive(Clone, Copy)]
pub enum Home {
    Nowhere,
    In(u32),
}

/// The homes of the stamps, by their numbers: of each the number of its list. A stamp after the end has none.
#[derive(Drop)]
pub struct Homes {
    lists: Vec<u32>,
}

impl Model for Homes {
    ghost use Rattle.std.specs.Prelude.{List, ℕ};

    ghost Value = { List ℕ };

    ghost view = { λ h. h.lists.items };
}

impl Homes {
    /// No stamp has a home.
    pub fn new(alloc: Global) -> Homes
        ensures { result ≡ [] }
    {
        Homes {
            lists: Vec::new(alloc),
        }
    }

    /// Makes room for the home of a stamp, and for some beyond, so that homes are added a few at a time.
    pub fn make_room(&mut self, stamp: Stamp) -> Result<(), NoMemory>
        ensures room { OnOk result (stamp.0 < length self.new) }
        ensures same { (t : ℕ) → home_of self.new t ≡ home_of self.old t }
    {
        let count = stamp.0 as usize + 1;
        if self.lists.len() < count {
            self.widen(count)?;
        }
        Ok(())
    }

    // Adds homes after the end. It is called seldom, and is a separate function, so that the usual path is short.
    #[inline(never)]
    fn widen(&mut self, count: usize) -> Result<(), NoMemory>
        requires less { length self.old < count }
        requires low { count ≤ 2 ^ 32 }
        ensures room { OnOk result (count ≤ length self.new) }
        ensures same { (t : ℕ) → home_of self.new t ≡ home_of self.old t }
    {
        let homes = count + HOMES_BEYOND;
        let more = homes.saturating_sub(self.lists.len());
        make_room(&mut self.lists, more)?;
        self.lists.resize(homes, NO_LIST)?;
        Ok(())
    }

    /// Gives a stamp a list for its home; there is room for it.
    pub fn settle(&mut self, stamp: Stamp, list: u32)
        requires room { stamp.0 < length self.old }
        requires list { list < 4294967295 }
        ensures { HomeChange stamp.0 (In list) self.old self.new }
    {
        self.lists[stamp.0 as usize] = list;
    }

    /// Takes the home of a stamp away, and says which it was.
    pub fn take(&mut self, stamp: Stamp) -> Home
        ensures home { result ≡ home_of self.old stamp.0 }
        ensures gone { HomeChange stamp.0 Nowhere self.old self.new }
    {
        let Some(place) = self.lists.get(stamp.0 as usize) else {
            return Home::Nowhere;
        };
        let list = *place;
        self.lists[stamp.0 as usize] = NO_LIST;
        home_in(list)
    }
}

// The home that a number stands for.
fn home_in(list: u32) -> Home
    ensures { result ≡ home_in list }
{
    if list == NO_LIST {
        Home::Nowhere
    } else {
        Home::In(list)
    }
}
