// The stamps of entries by the hashes of their keys.

ghost use Rattle.std.specs.Prelude.{◌≡◌, ◌≢◌, ◌<◌, ℕ, List, [], true, length, IfSome, IfNone, IfOk, OnOk, OnErr};
ghost use Rattle.std.specs.Prelude.{IsTrue};
ghost use Rattle.ceal_order.specs.Stamps.{is_in, place, without};
ghost use Rattle.ceal_order.specs.Rising.{IsRising};
ghost use Rattle.ceal_memo.specs.declared.home.Home.TheVariants.{In};
ghost use Rattle.ceal_memo.specs.Lists.{with_stamp, IsFirstOf, NoneOf};
ghost use Rattle.ceal_memo.specs.Numbers.{list_at, IsWithout, UsesEmpty};
ghost use Rattle.ceal_memo.specs.Table.{entries_of, Follows, HasNone, OneEntry, EntriesChange};

use crate::home::{Home, Homes};
use crate::lists::Lists;
use crate::sought::{Sought, first_with_key};
use ceal_base::no_memory::NoMemory;
use ceal_order::order::Order;
use ceal_order::stamp::Stamp;
use std::alloc::Global;
use std::marker::Model;

/// Entries by the hashes of their keys. Contracts see, for each hash, the list of the stamps of the entries under it.
/// Each call that is handed an order needs that the table follows it, and leaves it so.
#[derive(Drop)]
pub struct Table {
    lists: Lists,
    homes: Homes,
}

impl Model for Table {
    ghost use Rattle.ceal_memo.specs.Table.{ByHash};
    ghost use Rattle.ceal_memo.specs.Homes.{IsKept};

    ghost Value = { ByHash };

    ghost view = { λ m. record { lists = m.lists } };

    ghost invariant = { λ m. IsKept (record { lists = m.lists }) m.homes };
}

impl Table {
    /// A table without entries.
    pub fn new(alloc: Global) -> Table
        ensures stamps { (hash : ℕ) → entries_of result hash ≡ [] }
        ensures none { (s : ℕ) → HasNone s result }
        ensures follows { (order : List ℕ) → Follows order result }
        ensures lists { result.lists ≡ [] }
    {
        Table {
            lists: Lists::new(alloc),
            homes: Homes::new(alloc),
        }
    }

    /// A law: each stamp has one entry at most.
    pub fn one_entry(&self)
        ensures law { OneEntry self.now }
    {
        // for the proof: the invariant, which speaks of this field
        let _homes = &self.homes;
    }

    /// Enters a stamp that has no entry under a hash.
    #[inline(always)]
    pub fn add(&mut self, order: &Order, hash: u32, stamp: Stamp) -> Result<(), NoMemory>
        requires here { IsTrue (is_in stamp.0 order.now.stamps) }
        requires follows { Follows order.now.stamps self.old }
        requires absent { HasNone stamp.0 self.old }
        ensures ok { OnOk result
            (EntriesChange hash
            (with_stamp order.now.stamps stamp.0 (entries_of self.old hash)) self.old self.new) }
        ensures err { OnErr result (self.new ≡ self.old) }
        ensures others { (s : ℕ) → s ≢ stamp.0 → HasNone s self.old → HasNone s self.new }
        ensures room { OnOk result (UsesEmpty self.old.lists self.new.lists) }
        ensures follows { Follows order.now.stamps self.new }
    {
        self.homes.make_room(stamp)?;
        let number = self.lists.put(order, hash, stamp)?;
        self.homes.settle(stamp, number);
        Ok(())
    }

    /// Takes the entry of a stamp out. A stamp without an entry changes nothing.
    pub fn remove(&mut self, order: &Order, stamp: Stamp)
        requires here { IsTrue (is_in stamp.0 order.now.stamps) }
        requires follows { Follows order.now.stamps self.old }
        ensures stamps { (hash : ℕ)
            → entries_of self.new hash ≡ without stamp.0 (entries_of self.old hash) }
        ensures gone { HasNone stamp.0 self.new }
        ensures absent { HasNone stamp.0 self.old → self.new ≡ self.old }
        ensures others { (s : ℕ) → HasNone s self.old → HasNone s self.new }
        ensures room { length self.new.lists ≡ length self.old.lists }
        ensures follows { (order : List ℕ) → Follows order self.old → Follows order self.new }
    {
        let home = self.homes.take(stamp);
        forget(&mut self.lists, order, home, stamp);
    }

    /// The earliest entry under a hash with a key after one stamp and before another.
    pub fn first_between<S: Sought>(
        &self,
        order: &Order,
        hash: u32,
        sought: &S,
        after: Stamp,
        until: Stamp,
    ) -> Option<Stamp>
        requires after { IsTrue (is_in after.0 order.now.stamps) }
        requires until { IsTrue (is_in until.0 order.now.stamps) }
        requires follows { Follows order.now.stamps self.now }
        requires known { (s : ℕ) → is_in s (entries_of self.now hash) ≡ true
            → S.knows sought.now s }
        ensures first { IfSome result (λ s. IsFirstOf order.now.stamps
            (entries_of self.now hash) (S.is sought.now) after.0 s.0) }
        ensures before { IfSome result
            (λ s. place s.0 order.now.stamps < place until.0 order.now.stamps) }
        ensures here { IfSome result (λ s. IsTrue (is_in s.0 order.now.stamps)) }
        ensures none { IfNone result (NoneOf order.now.stamps
            (entries_of self.now hash) (S.is sought.now) after.0 until.0) }
    {
        let list = self.lists.get(hash)?;
        first_with_key(list, order, sought, after, until)
    }
}

// Takes a stamp out of the list that is its home.
fn forget(lists: &mut Lists, order: &Order, home: Home, stamp: Stamp)
    requires here { IsTrue (is_in stamp.0 order.now.stamps) }
    requires home { (n : ℕ) → is_in stamp.0 (list_at lists.old n) ≡ true → home ≡ In n }
    requires rising { (n : ℕ) → IsRising order.now.stamps (list_at lists.old n) }
    ensures { IsWithout stamp.0 lists.old lists.new }
{
    match home {
        Home::Nowhere => (),
        Home::In(number) => lists.take(order, number, stamp),
    }
}
