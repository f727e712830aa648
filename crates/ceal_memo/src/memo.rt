// The memo table.

ghost use Rattle.std.specs.Prelude.{◌≡◌, ◌≢◌, ◌<◌, ℕ, List, [], Option, length, IfSome, IfNone, IfOk, OnOk, OnErr};
ghost use Rattle.std.specs.Prelude.{IsTrue};
ghost use Rattle.ceal_order.specs.Stamps.{is_in, place};
ghost use Rattle.ceal_memo.specs.Keys.{EntryKey, OfRead, OfAlloc};
ghost use Rattle.ceal_memo.specs.Memo.{no_entries, with_key, without_key, IsFirstWith, NoneWith, Holds, IsOf, Follows};
ghost use Rattle.ceal_memo.specs.Memo.{HasNone};
ghost use Rattle.ceal_memo.specs.Numbers.{UsesEmpty};

use crate::digest::{hash_of_alloc, hash_of_read};
use crate::key::ReadKey;
use crate::keys::{Keys, SoughtAlloc, SoughtRead};
use crate::seed::Seed;
use crate::table::Table;
use ceal_base::forest::Key;
use ceal_base::no_memory::NoMemory;
use ceal_order::order::Order;
use ceal_order::stamp::Stamp;
use std::alloc::Global;
use std::marker::Model;

/// Entries of recorded reads and of allocations by their keys: a stamp has one at most. The keys themselves are only
/// with who tells them (`Keys`). Each call that is handed an order needs that the memo follows it, and leaves it so.
#[derive(Drop)]
pub struct Memo {
    table: Table,
    seed: Seed,
}

/// A key as a memo enters it, worked out once.
#[derive(Clone, Copy, PartialEq)]
pub struct Hashed {
    hash: u32,
}

impl Model for Memo {
    ghost use Rattle.ceal_memo.specs.Memo.{Contents};

    ghost Value = { Contents };

    ghost view = { λ m. record { table = m.table; seed = m.seed.words } };
}

impl Memo {
    /// A memo without entries. Any seed is right; which keys share a hash depends only on the seed.
    pub fn seeded(alloc: Global, seed: Seed) -> Result<Memo, NoMemory>
        ensures holds { IfOk result (λ memo. Holds memo no_entries) }
        ensures follows { IfOk result (λ memo. (order : List ℕ) → Follows order memo) }
        ensures seed { IfOk result (λ memo. memo.seed ≡ seed.words) }
        ensures lists { IfOk result (λ memo. memo.table.lists ≡ []) }
    {
        Ok(Memo {
            table: Table::new(alloc),
            seed,
        })
    }

    /// A read's key, as it is entered.
    #[inline(always)]
    pub fn of_read(&self, key: &ReadKey<'_>) -> Hashed
        ensures { IsOf self.now (OfRead key.now) result }
    {
        Hashed {
            hash: hash_of_read(self.seed.words(), key),
        }
    }

    /// An allocation's key, as it is entered.
    #[inline(always)]
    pub fn of_alloc(&self, key: &Key) -> Hashed
        ensures { IsOf self.now (OfAlloc key.now) result }
    {
        Hashed {
            hash: hash_of_alloc(self.seed.words(), key),
        }
    }

    /// Enters a key at a stamp that has no entry.
    #[inline(always)]
    pub fn add(&mut self, order: &Order, hashed: Hashed, stamp: Stamp) -> Result<(), NoMemory>
        requires here { IsTrue (is_in stamp.0 order.now.stamps) }
        requires follows { Follows order.now.stamps self.old }
        requires absent { HasNone stamp.0 self.old }
        ensures ok { OnOk result ((key : EntryKey) (entries : ℕ → Option EntryKey)
            → IsOf self.old key hashed → Holds self.old entries
            → Holds self.new (with_key stamp.0 key entries)) }
        ensures room { OnOk result (UsesEmpty self.old.table.lists self.new.table.lists) }
        ensures err { OnErr result (self.new ≡ self.old) }
        ensures follows { Follows order.now.stamps self.new }
        ensures seed { self.new.seed ≡ self.old.seed }
    {
        self.table.add(order, hashed.hash, stamp)?;
        Ok(())
    }

    /// Enters a read at a stamp that has no entry.
    pub fn add_read(
        &mut self,
        order: &Order,
        key: &ReadKey<'_>,
        stamp: Stamp,
    ) -> Result<(), NoMemory>
        requires here { IsTrue (is_in stamp.0 order.now.stamps) }
        requires follows { Follows order.now.stamps self.old }
        requires absent { HasNone stamp.0 self.old }
        ensures ok { OnOk result ((entries : ℕ → Option EntryKey) → Holds self.old entries
            → Holds self.new (with_key stamp.0 (OfRead key.now) entries)) }
        ensures room { OnOk result (UsesEmpty self.old.table.lists self.new.table.lists) }
        ensures err { OnErr result (self.new ≡ self.old) }
        ensures follows { Follows order.now.stamps self.new }
        ensures seed { self.new.seed ≡ self.old.seed }
    {
        let hashed = self.of_read(key);
        self.add(order, hashed, stamp)?;
        Ok(())
    }

    /// Enters an allocation at a stamp that has no entry.
    pub fn add_alloc(&mut self, order: &Order, key: &Key, stamp: Stamp) -> Result<(), NoMemory>
        requires here { IsTrue (is_in stamp.0 order.now.stamps) }
        requires follows { Follows order.now.stamps self.old }
        requires absent { HasNone stamp.0 self.old }
        ensures ok { OnOk result ((entries : ℕ → Option EntryKey) → Holds self.old entries
            → Holds self.new (with_key stamp.0 (OfAlloc key.now) entries)) }
        ensures room { OnOk result (UsesEmpty self.old.table.lists self.new.table.lists) }
        ensures err { OnErr result (self.new ≡ self.old) }
        ensures follows { Follows order.now.stamps self.new }
        ensures seed { self.new.seed ≡ self.old.seed }
    {
        let hashed = self.of_alloc(key);
        self.add(order, hashed, stamp)?;
        Ok(())
    }

    /// Takes the entry of a stamp out. A stamp without an entry changes nothing.
    pub fn remove(&mut self, order: &Order, stamp: Stamp)
        requires here { IsTrue (is_in stamp.0 order.now.stamps) }
        requires follows { Follows order.now.stamps self.old }
        ensures holds { (entries : ℕ → Option EntryKey) → Holds self.old entries
            → Holds self.new (without_key stamp.0 entries) }
        ensures gone { HasNone stamp.0 self.new }
        ensures absent { HasNone stamp.0 self.old → self.new ≡ self.old }
        ensures room { length self.new.table.lists ≡ length self.old.table.lists }
        ensures follows { (order : List ℕ) → Follows order self.old → Follows order self.new }
        ensures seed { self.new.seed ≡ self.old.seed }
    {
        self.table.remove(order, stamp);
    }

    /// The earliest read with a key after one stamp and before another.
    pub fn first_read<K: Keys>(
        &self,
        order: &Order,
        keys: &K,
        key: &ReadKey<'_>,
        after: Stamp,
        until: Stamp,
    ) -> Option<Stamp>
        requires after { IsTrue (is_in after.0 order.now.stamps) }
        requires until { IsTrue (is_in until.0 order.now.stamps) }
        requires follows { Follows order.now.stamps self.now }
        requires keys { Holds self.now (K.entries keys.now) }
        ensures first { IfSome result (λ s. IsFirstWith
            order.now.stamps (K.entries keys.now) (OfRead key.now) after.0 s.0) }
        ensures before { IfSome result
            (λ s. place s.0 order.now.stamps < place until.0 order.now.stamps) }
        ensures here { IfSome result (λ s. IsTrue (is_in s.0 order.now.stamps)) }
        ensures none { IfNone result (NoneWith
            order.now.stamps (K.entries keys.now) (OfRead key.now) after.0 until.0) }
    {
        let hashed = self.of_read(key);
        let sought = SoughtRead { keys, key };
        self.first_of_read(order, &sought, hashed, after, until)
    }

    /// The earliest allocation with a key after one stamp and before another.
    pub fn first_alloc<K: Keys>(
        &self,
        order: &Order,
        keys: &K,
        key: &Key,
        after: Stamp,
        until: Stamp,
    ) -> Option<Stamp>
        requires after { IsTrue (is_in after.0 order.now.stamps) }
        requires until { IsTrue (is_in until.0 order.now.stamps) }
        requires follows { Follows order.now.stamps self.now }
        requires keys { Holds self.now (K.entries keys.now) }
        ensures first { IfSome result (λ s. IsFirstWith
            order.now.stamps (K.entries keys.now) (OfAlloc key.now) after.0 s.0) }
        ensures before { IfSome result
            (λ s. place s.0 order.now.stamps < place until.0 order.now.stamps) }
        ensures here { IfSome result (λ s. IsTrue (is_in s.0 order.now.stamps)) }
        ensures none { IfNone result (NoneWith
            order.now.stamps (K.entries keys.now) (OfAlloc key.now) after.0 until.0) }
    {
        let hashed = self.of_alloc(key);
        let sought = SoughtAlloc { keys, key };
        self.first_of_alloc(order, &sought, hashed, after, until)
    }

    /// As `first_read`, with a key that was worked out before, for this memo or one of the same seed.
    pub fn first_of_read<K: Keys>(
        &self,
        order: &Order,
        sought: &SoughtRead<'_, K>,
        hashed: Hashed,
        after: Stamp,
        until: Stamp,
    ) -> Option<Stamp>
        requires after { IsTrue (is_in after.0 order.now.stamps) }
        requires until { IsTrue (is_in until.0 order.now.stamps) }
        requires follows { Follows order.now.stamps self.now }
        requires keys { Holds self.now (K.entries sought.now.keys.now) }
        requires hashed { IsOf self.now (OfRead sought.now.key.now) hashed }
        ensures first { IfSome result (λ s. IsFirstWith order.now.stamps
            (K.entries sought.now.keys.now) (OfRead sought.now.key.now) after.0 s.0) }
        ensures before { IfSome result
            (λ s. place s.0 order.now.stamps < place until.0 order.now.stamps) }
        ensures here { IfSome result (λ s. IsTrue (is_in s.0 order.now.stamps)) }
        ensures none { IfNone result (NoneWith order.now.stamps
            (K.entries sought.now.keys.now) (OfRead sought.now.key.now) after.0 until.0) }
    {
        self.table
            .first_between(order, hashed.hash, sought, after, until)
    }

    /// As `first_alloc`, with a key that was worked out before, for this memo or one of the same seed.
    pub fn first_of_alloc<K: Keys>(
        &self,
        order: &Order,
        sought: &SoughtAlloc<'_, K>,
        hashed: Hashed,
        after: Stamp,
        until: Stamp,
    ) -> Option<Stamp>
        requires after { IsTrue (is_in after.0 order.now.stamps) }
        requires until { IsTrue (is_in until.0 order.now.stamps) }
        requires follows { Follows order.now.stamps self.now }
        requires keys { Holds self.now (K.entries sought.now.keys.now) }
        requires hashed { IsOf self.now (OfAlloc sought.now.key.now) hashed }
        ensures first { IfSome result (λ s. IsFirstWith order.now.stamps
            (K.entries sought.now.keys.now) (OfAlloc sought.now.key.now) after.0 s.0) }
        ensures before { IfSome result
            (λ s. place s.0 order.now.stamps < place until.0 order.now.stamps) }
        ensures here { IfSome result (λ s. IsTrue (is_in s.0 order.now.stamps)) }
        ensures none { IfNone result (NoneWith order.now.stamps
            (K.entries sought.now.keys.now) (OfAlloc sought.now.key.now) after.0 until.0) }
    {
        self.table
            .first_between(order, hashed.hash, sought, after, until)
    }
}
