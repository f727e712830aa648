// Lists of stamps by hash, each of which rises along the order.

ghost use Rattle.std.specs.Prelude.{◌≡◌, ◌≢◌, ◌<◌, ◌≤◌, ◌↔◌, ◌++◌, ◌∷◌, ℕ, List, [], true, false, length, set, IfSome};
ghost use Rattle.std.specs.Prelude.{IfNone, IfOk, OnOk, OnErr, IsTrue};
ghost use Rattle.ceal_order.specs.Stamps.{is_in, without};
ghost use Rattle.ceal_order.specs.Rising.{IsRising};
ghost use Rattle.ceal_memo.specs.Lists.{stamps_at, with_stamp};
ghost use Rattle.ceal_memo.specs.Numbers.{list_at, hashes_in, OneList, IsEntered, UsesEmpty};
ghost use Rattle.ceal_memo.specs.Chains.{group_at, next_at, lists_of, with_list, with_one, stamped, no_group};
ghost use Rattle.ceal_memo.specs.Chains.{Chained, IsLinked, IsEmptyAt, HasSpares};

use crate::chains::{Group, chain, chain_first, find, make_buckets, unchain};
use ceal_base::no_memory::NoMemory;
use ceal_order::order::Order;
use ceal_order::rising::Rising;
use ceal_order::room::make_room;
use ceal_order::stamp::Stamp;
use std::alloc::Global;
use std::marker::Model;

// There are fewer lists than this.
const MOST_LISTS: usize = 4294967295;

// The number of no group.
const NO_GROUP: u32 = u32::MAX;

/// A list of stamps for each hash. A list has a number, which stays its own as long as it has stamps; the number of a
/// list that has become empty goes to the next new hash. The empty lists are linked one after another.
#[derive(Drop)]
pub struct Lists {
    heads: Vec<u32>,
    groups: Vec<Group>,
    free: u32,
}

impl Model for Lists {
    ghost use Rattle.std.specs.Prelude.{List, ℕ};
    ghost use Rattle.ceal_memo.specs.Chains.{lists_of, IsWhole};

    ghost Value = { List (ℕ × List ℕ) };

    ghost view = { λ l. lists_of l.groups.items };

    ghost invariant = { λ l. IsWhole l.heads.items l.groups.items l.free };
}

impl Lists {
    /// No lists.
    pub fn new(alloc: Global) -> Lists
        ensures { result ≡ [] }
    {
        Lists {
            heads: Vec::new(alloc),
            groups: Vec::new(alloc),
            free: NO_GROUP,
        }
    }

    /// Puts a stamp into the list of a hash, and gives the number of that list.
    #[inline(always)]
    pub fn put(&mut self, order: &Order, hash: u32, stamp: Stamp) -> Result<u32, NoMemory>
        requires here { IsTrue (is_in stamp.0 order.now.stamps) }
        requires rising { IsRising order.now.stamps (stamps_at self.old hash) }
        requires absent { is_in stamp.0 (stamps_at self.old hash) ≡ false }
        requires unique { OneList self.old }
        ensures few { IfOk result (λ n. n < 4294967295) }
        ensures ok { IfOk result (λ n. IsEntered self.old self.new hash n
            (with_stamp order.now.stamps stamp.0 (stamps_at self.old hash))) }
        ensures room { OnOk result (UsesEmpty self.old self.new) }
        ensures err { OnErr result (self.new ≡ self.old) }
    {
        match find(&self.heads, &self.groups, hash) {
            Some(number) => {
                insert_at(&mut self.groups, number, order, stamp)?;
                Ok(number)
            }
            None => {
                let free = &mut self.free;
                let number = enter(&mut self.heads, &mut self.groups, free, hash, stamp)?;
                Ok(number)
            }
        }
    }

    /// Takes a stamp out of the list with a number.
    pub fn take(&mut self, order: &Order, number: u32, stamp: Stamp)
        requires here { IsTrue (is_in stamp.0 order.now.stamps) }
        requires rising { IsRising order.now.stamps (list_at self.old number) }
        ensures hashes { hashes_in self.new ≡ hashes_in self.old }
        ensures here { list_at self.new number ≡ without stamp.0 (list_at self.old number) }
        ensures others { (n : ℕ) → n ≢ number → list_at self.new n ≡ list_at self.old n }
    {
        if is_empty_at(&self.groups, number) {
            return;
        }
        if take_at(&mut self.groups, number, order, stamp) {
            let_go(&mut self.heads, &mut self.groups, self.free, number);
            self.free = number;
        }
    }

    /// The list of a hash.
    pub fn get(&self, hash: u32) -> Option<&Rising>
        requires unique { OneList self.now }
        ensures some { IfSome result (λ list. list.now ≡ stamps_at self.now hash) }
        ensures none { IfNone result (stamps_at self.now hash ≡ []) }
    {
        match find(&self.heads, &self.groups, hash) {
            Some(number) => Some(&self.groups[number as usize].list),
            None => None,
        }
    }
}

// Puts a stamp into the list with a number.
fn insert_at(groups: &mut [Group], number: u32, order: &Order, stamp: Stamp) -> Result<(), NoMemory>
    requires there { number < length groups.old }
    requires here { IsTrue (is_in stamp.0 order.now.stamps) }
    requires rising { IsRising order.now.stamps (group_at groups.old number).list }
    requires absent { is_in stamp.0 (group_at groups.old number).list ≡ false }
    ensures ok { OnOk result (groups.new ≡ with_list groups.old number
        (with_stamp order.now.stamps stamp.0 (group_at groups.old number).list)) }
    ensures err { OnErr result (groups.new ≡ groups.old) }
{
    let group = &mut groups[number as usize];
    group.list.insert(order, stamp)?;
    Ok(())
}

// Whether a list has no stamps, or is not there.
fn is_empty_at(groups: &[Group], number: u32) -> bool
    ensures { IsTrue result ↔ (stamped groups.now number ≡ false) }
{
    match groups.get(number as usize) {
        Some(group) => group.list.is_empty(),
        None => true,
    }
}

// Takes a stamp out of the list with a number, and says whether that is empty now.
fn take_at(groups: &mut [Group], number: u32, order: &Order, stamp: Stamp) -> bool
    requires there { number < length groups.old }
    requires here { IsTrue (is_in stamp.0 order.now.stamps) }
    requires rising { IsRising order.now.stamps (group_at groups.old number).list }
    ensures list { groups.new
        ≡ with_list groups.old number (without stamp.0 (group_at groups.old number).list) }
    ensures empty { IsTrue result ↔ (stamped groups.new number ≡ false) }
{
    let group = &mut groups[number as usize];
    group.list.take_out_along(order, stamp);
    group.list.is_empty()
}

// The group that was emptied last, if there is one.
fn spare(free: u32) -> Option<u32>
    ensures some { IfSome result (λ n. n ≡ free) }
    ensures few { IfSome result (λ n. n ≢ no_group) }
    ensures none { IfNone result (free ≡ no_group) }
{
    if free == NO_GROUP { None } else { Some(free) }
}

// Takes a group that has become empty out of its bucket. The one that was emptied before it is told in the place of its
// link.
fn let_go(heads: &mut [u32], groups: &mut [Group], free: u32, number: u32)
    requires number { number < length groups.old }
    requires enough { length groups.old ≤ length heads.old }
    requires empty { stamped groups.old number ≡ false }
    requires chained { Chained (length groups.old) (with_one number (stamped groups.old))
        heads.old groups.old }
    ensures lists { lists_of groups.new ≡ lists_of groups.old }
    ensures linked { IsLinked heads.new groups.new }
    ensures next { (n : ℕ) → n ≢ number → IsEmptyAt groups.old n
        → next_at groups.new n ≡ next_at groups.old n }
    ensures own { next_at groups.new number ≡ free }
{
    unchain(heads, groups, number);
    let group = &mut groups[number as usize];
    group.next = free;
}

// Gives a hash that has no list one with a stamp: the group that was emptied last, or one more.
#[inline(always)]
fn enter(
    heads: &mut Vec<u32>,
    groups: &mut Vec<Group>,
    free: &mut u32,
    hash: u32,
    stamp: Stamp,
) -> Result<u32, NoMemory>
    requires linked { IsLinked heads.old.items groups.old.items }
    requires spares { HasSpares groups.old.items free.old }
    requires absent { stamps_at (lists_of groups.old.items) hash ≡ [] }
    requires unique { OneList (lists_of groups.old.items) }
    ensures few { IfOk result (λ n. n < 4294967295) }
    ensures ok { IfOk result (λ n. IsEntered (lists_of groups.old.items)
        (lists_of groups.new.items) hash n (stamp.0 ∷ [])) }
    ensures room { OnOk result (UsesEmpty (lists_of groups.old.items) (lists_of groups.new.items)) }
    ensures err { OnErr result (lists_of groups.new.items ≡ lists_of groups.old.items) }
    ensures linked { IsLinked heads.new.items groups.new.items }
    ensures spares { HasSpares groups.new.items free.new }
{
    match spare(*free) {
        Some(number) => {
            let list = Rising::one(*groups.allocator(), stamp);
            *free = refill(heads, groups, number, hash, list);
            Ok(number)
        }
        None => {
            let number = add(heads, groups, hash, stamp)?;
            Ok(number)
        }
    }
}

// Fills an empty group again: it gives the one that was emptied before it.
fn refill(heads: &mut [u32], groups: &mut [Group], number: u32, hash: u32, list: Rising) -> u32
    requires number { number < length groups.old }
    requires few { number < 4294967295 }
    requires empty { stamped groups.old number ≡ false }
    requires linked { IsLinked heads.old groups.old }
    requires spares { HasSpares groups.old number }
    requires stamps { list ≢ [] }
    ensures lists { lists_of groups.new ≡ set (lists_of groups.old) number (hash, list) }
    ensures linked { IsLinked heads.new groups.new }
    ensures spares { HasSpares groups.new result }
{
    let group = &mut groups[number as usize];
    let free = group.next;
    group.hash = hash;
    chain(heads, groups, number);
    let group = &mut groups[number as usize];
    group.list = list;
    free
}

// Adds a group.
#[inline(always)]
fn add(
    heads: &mut Vec<u32>,
    groups: &mut Vec<Group>,
    hash: u32,
    stamp: Stamp,
) -> Result<u32, NoMemory>
    requires linked { IsLinked heads.old.items groups.old.items }
    ensures few { IfOk result (λ n. n < 4294967295) }
    ensures last { IfOk result (λ n. n ≡ length groups.old.items) }
    ensures ok { OnOk result (lists_of groups.new.items
        ≡ lists_of groups.old.items ++ (hash, stamp.0 ∷ []) ∷ []) }
    ensures err { OnErr result (lists_of groups.new.items ≡ lists_of groups.old.items) }
    ensures linked { IsLinked heads.new.items groups.new.items }
    ensures spares { (free : ℕ)
        → HasSpares groups.old.items free → HasSpares groups.new.items free }
{
    let number = groups.len();
    if number >= MOST_LISTS {
        return Err(NoMemory);
    }
    make_buckets(heads, groups)?;
    make_room(groups, 1)?;
    let list = Rising::one(*groups.allocator(), stamp);
    groups.push_reserved(Group {
        hash,
        next: 0,
        list,
    });
    chain_first(heads, groups, number as u32);
    Ok(number as u32)
}
