// The old items, with tables by which they are found.

ghost use Rattle.std.specs.Prelude.{◌≡◌, ◌∷◌, [], ◌++◌, ◌+◌, ◌<◌, ◌≤◌, ◌^◌, ⊤, Some, None, length, drop, slice_get};
ghost use Rattle.std.specs.Prelude.{get_or, MatchOption, if◌then◌else◌, IfOk, OnOk};
ghost use Rattle.ceal_theory.specs.Levels.{skipped};
ghost use Rattle.ceal_adjust.specs.Marks.{depth, depths, has, mark_of, places};
ghost use Rattle.ceal_adjust.specs.Places.{listed};
ghost use Rattle.ceal_adjust.specs.Spots.{Free, Next, Ends, Absent, Found};
ghost use Rattle.ceal_adjust.specs.declared.mark.Mark.{Mark as AnyMark};
ghost use Rattle.ceal_adjust.specs.declared.mark.Mark.TheVariants.{Closed};

use crate::mark::{Mark, levels_after, mark_for};
use crate::places::Places;
use ceal_base::forest::Item;
use ceal_base::no_memory::NoMemory;
use std::alloc::Global;
use std::marker::Model;

/// The old items, which contracts see as their list. One pass over them makes the tables; then a look-up by a mark
/// takes a binary search among the places with that mark.
#[derive(Drop)]
pub struct Old<'a> {
    items: &'a [Item],
    nesting: Vec<usize>,
    table: Places,
}

impl<'a> Model for Old<'a> {
    ghost use Rattle.std.specs.Prelude.{◌≡◌, List, length};
    ghost use Rattle.ceal_base.specs.declared.forest.Item.{Item};
    ghost use Rattle.ceal_adjust.specs.Marks.{depths, places};
    ghost use Rattle.ceal_adjust.specs.Places.{listed};
    ghost use Rattle.ceal_adjust.specs.declared.mark.Mark.{Mark as AnyMark};

    ghost Value = { List Item };

    ghost view = { λ o. o.items.now };

    ghost invariant = { λ o. (o.nesting.items ≡ depths o.items.now (length o.items.now))
        × ((m : AnyMark) → listed o.table m ≡ places o.items.now m (length o.items.now)) };
}

/// An item that is found: its place, and how many levels are left over there.
#[derive(Clone, Copy)]
pub struct Spot {
    pub at: usize,
    pub levels: usize,
}

/// How many reads are open before each item, and the places of the items by their marks, in one pass. It begins with as
/// many reads open as there are items, so that no End is without one.
fn tables_of(alloc: Global, items: &[Item]) -> Result<(Vec<usize>, Places), NoMemory>
    ensures depths { IfOk result (λ t. t.0.items ≡ depths items.now (length items.now)) }
    ensures places { IfOk result
        (λ t. (m : AnyMark) → listed t.1 m ≡ places items.now m (length items.now)) }
{
    let mut nesting = Vec::new(alloc);
    let mut table = Places::new(alloc);
    let mut depth = items.len();
    let mut at = 0;
    for item in items {
        nesting.push(depth)?;
        add(alloc, &mut table, item, depth, at)?;
        depth = levels_after(item, depth)?;
        at += 1;
    }
    Ok((nesting, table))
}

/// With the place of an item, if it has a mark.
fn add(
    alloc: Global,
    all: &mut Places,
    item: &Item,
    depth: usize,
    at: usize,
) -> Result<(), NoMemory>
    ensures { OnOk result
        ((m : AnyMark)
        → listed all.new m
        ≡ (if has (mark_of item.now depth) m then listed all.old m
        ++ at ∷ [] else listed all.old m)) }
{
    if let Some(mark) = mark_for(item, depth)? {
        all.add(alloc, mark, at)?;
    }
    Ok(())
}

fn place_at(places: &[usize], i: usize) -> Option<usize>
    ensures { result ≡ slice_get places.now i }
{
    match places.get(i) {
        None => None,
        Some(at) => Some(*at),
    }
}

/// The levels that are left over at a place, from those at an earlier one and from both depths.
fn levels_there(levels: usize, more: usize, less: usize) -> Result<usize, NoMemory>
    requires { less < levels + more }
    ensures { IfOk result (λ n. n + less ≡ levels + more) }
{
    match levels.checked_add(more) {
        None => Err(NoMemory),
        Some(sum) => Ok(sum - less),
    }
}

impl<'a> Old<'a> {
    /// The old items, and the tables that find a key and an end among them.
    pub fn new(alloc: Global, items: &'a [Item]) -> Result<Old<'a>, NoMemory>
        ensures value { IfOk result (λ o. o ≡ items.now) }
    {
        let (nesting, table) = tables_of(alloc, items)?;
        Ok(Old {
            items,
            nesting,
            table,
        })
    }

    /// The item at a place; the items from there on are it and those from the next place on.
    pub fn item(&self, at: usize) -> Option<&'a Item>
        ensures value { MatchOption result (drop at self.now ≡ [])
            (λ i. drop at self.now ≡ i.now ∷ drop (at + 1) self.now) }
        ensures small { MatchOption result ⊤ (λ i. at < 2 ^ 63) }
    {
        self.items.get(at)
    }

    /// The first place from this one on that has the mark.
    fn next(&self, mark: &Mark, from: usize) -> Option<usize>
        ensures next { MatchOption result (Free self.now mark.now from (length self.now))
            (λ at. Next self.now mark.now from at) }
    {
        let places = self.table.of(mark);
        match places.binary_search(&from) {
            Ok(_) => Some(from),
            Err(i) => place_at(places, i),
        }
    }

    fn depth(&self, at: usize) -> usize
        requires { at < length self.now }
        ensures { result ≡ depth self.now at }
    {
        self.nesting[at]
    }

    /// The End from this place on that leads back to this depth.
    fn next_end(&self, outside: usize, from: usize) -> Option<usize>
        ensures next { MatchOption result (Free self.now (Closed outside) from (length self.now))
            (λ at. Next self.now (Closed outside) from at) }
    {
        let mark = Mark::Closed(outside);
        self.next(&mark, from)
    }

    /// The place after the End that closes the last of the levels, or the end of the items, where there is none.
    fn end(&self, from: usize, levels: usize) -> usize
        requires { from ≤ length self.now }
        ensures { Ends self.now from levels result }
    {
        if levels == 0 || from == self.items.len() {
            return from;
        }
        let Some(outside) = self.depth(from).checked_sub(levels) else {
            return self.items.len();
        };
        match self.next_end(outside, from) {
            None => self.items.len(),
            Some(at) => at + 1,
        }
    }

    /// Where the items after the levels begin.
    pub fn skip(&self, from: usize, levels: usize) -> usize
        ensures rest { drop result self.now ≡ skipped levels (drop from self.now) }
    {
        if from > self.items.len() {
            return from;
        }
        self.end(from, levels)
    }

    /// The first item with the mark in the levels from a place on.
    pub fn find(&self, mark: &Mark, from: usize, levels: usize) -> Result<Option<Spot>, NoMemory>
        ensures found { IfOk result
            (λ o. MatchOption o (Absent self.now mark.now from levels)
            (λ s. Found self.now mark.now from levels s.at s.levels)) }
        ensures small { IfOk result (λ o. MatchOption o ⊤ (λ s. s.at + 1 < 2 ^ 64)) }
    {
        if from > self.items.len() {
            return Ok(None);
        }
        let end = self.end(from, levels);
        match self.next(mark, from) {
            None => Ok(None),
            Some(at) => {
                if at >= end {
                    return Ok(None);
                }
                let levels = levels_there(levels, self.depth(at), self.depth(from))?;
                Ok(Some(Spot { at, levels }))
            }
        }
    }
}
