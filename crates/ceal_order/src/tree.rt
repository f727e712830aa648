// Items in a tree of chunks, from left to right. Each fork has a chunk of items and counts the items of itself and of
// its trees, so that an item is found by its index on one way down. The two trees under a fork differ by one in height
// at most, so that the tree is as deep as twice the logarithm of the number of its chunks at most (`depth_law`),
// wherever items came and went (Adelson-Velsky and Landis, 1962). Trees are joined round a fork (Blelloch, Ferizovic
// and Sun, *Just join for parallel ordered sets*, 2016). Each recursion is into a tree under a fork, with the depth as
// its measure; where trees are joined, with their difference in depth.

ghost use Rattle.std.specs.Prelude.{◌≡◌, ◌<◌, ◌≤◌, ◌+◌, ◌^◌, ◌++◌, min, max, [], length, slice_index_or, IfOk};
ghost use Rattle.ceal_order.specs.Tree.{items_of, items_under, IsCounted, Counts};
ghost use Rattle.ceal_order.specs.Tree.{forks_of, forks_under, depth_of, depth_under, AreNear, IsChunk};
ghost use Rattle.ceal_order.specs.Tree.{IsBalanced, Balances, first_or};

use ceal_base::no_memory::NoMemory;
use std::alloc::Global;
use std::mem;

// A chunk has no more items than this in a tree.
pub const CHUNK_ITEMS: usize = 64;

// A full chunk keeps this number of items where it is halved.
pub const HALF_CHUNK: usize = 32;

#[cycle(tree)]
#[derive(Drop)]
pub enum Tree<T> {
    Empty,
    Fork(Box<Fork<T>>),
}

#[cycle(tree)]
#[derive(Drop)]
pub struct Fork<T> {
    pub items: Vec<T>,
    pub count: usize,
    pub height: u8,
    pub earlier: Tree<T>,
    pub later: Tree<T>,
}

/// A law: a balanced tree is as deep as twice the logarithm of one more than its forks, at most; and since it has no
/// more forks than items, so it is of one more than its items.
pub fn depth_law<T: Copy>(tree: &Tree<T>)
    requires { IsBalanced tree.now }
    ensures depth { 2 ^ depth_of tree.now ≤ (1 + forks_of tree.now) ^ 2 }
    ensures forks { forks_of tree.now ≤ length (items_of tree.now) }
    ensures way { 2 ^ depth_of tree.now ≤ (1 + length (items_of tree.now)) ^ 2 }
{}

// The largest number of forks one under another.
fn height<T: Copy>(tree: &Tree<T>) -> u8
    requires { IsBalanced tree.now }
    ensures { result ≡ depth_of tree.now }
{
    match tree {
        Tree::Empty => 0,
        Tree::Fork(fork) => fork.height,
    }
}

/// How many items there are.
pub fn count<T: Copy>(tree: &Tree<T>) -> usize
    requires { IsCounted tree.now }
    ensures { result ≡ min (length (items_of tree.now)) 18446744073709551615 }
{
    match tree {
        Tree::Empty => 0,
        Tree::Fork(fork) => fork.count,
    }
}

/// The item at an index.
pub fn item_at<T: Copy>(tree: &Tree<T>, index: usize) -> T
    requires counted { IsCounted tree.now }
    requires few { length (items_of tree.now) ≤ 18446744073709551615 }
    requires within { index < length (items_of tree.now) }
    ensures { (other : T) → slice_index_or (items_of tree.now) index other ≡ result }
{
    match tree {
        Tree::Empty => unreachable!(),
        Tree::Fork(fork) => {
            let before = count(&fork.earlier);
            if index < before {
                return item_at(&fork.earlier, index);
            }
            let here = fork.items.len();
            if index - before < here {
                return fork.items[index - before];
            }
            item_at(&fork.later, index - before - here)
        }
    }
}

/// A fork of no items, with room for as many as a chunk has.
pub fn leaf<T: Copy>(alloc: Global) -> Result<Box<Fork<T>>, NoMemory>
    ensures { IfOk result (λ fork. fork.value.items.items ≡ []) }
{
    let items = Vec::with_capacity(alloc, CHUNK_ITEMS)?;
    Ok(Box::new(
        alloc,
        Fork {
            items,
            count: 0,
            height: 0,
            earlier: Tree::Empty,
            later: Tree::Empty,
        },
    )?)
}

/// A fork over these two trees, in place of its former ones, with its height and its count.
pub fn forked<T: Copy>(earlier: Tree<T>, mut fork: Box<Fork<T>>, later: Tree<T>) -> Box<Fork<T>>
    requires earlier { IsCounted earlier }
    requires later { IsCounted later }
    requires chunk { IsChunk fork.value.items.items }
    requires earlier_balanced { IsBalanced earlier }
    requires later_balanced { IsBalanced later }
    requires near { AreNear (depth_of earlier) (depth_of later) }
    requires few { forks_of earlier + forks_of later < 18446744073709551616 }
    ensures items { items_under result.value
        ≡ items_of earlier ++ fork.value.items.items ++ items_of later }
    ensures counted { Counts result.value }
    ensures balanced { Balances result.value }
    ensures depth { depth_under result.value ≡ 1 + max (depth_of earlier) (depth_of later) }
    ensures forks { forks_under result.value ≡ 1 + forks_of earlier + forks_of later }
{
    let under = height(&earlier).max(height(&later));
    fork.height = under.saturating_add(1);
    fork.count = count(&earlier)
        .saturating_add(fork.items.len())
        .saturating_add(count(&later));
    fork.earlier = earlier;
    fork.later = later;
    fork
}

// One rotation to the left, where the later tree is higher by two: its fork comes on top.
fn later_on_top<T: Copy>(
    first: Tree<T>,
    mut fork: Box<Fork<T>>,
    mut top: Box<Fork<T>>,
) -> Box<Fork<T>>
    requires first { IsCounted first }
    requires top { Counts top.value }
    requires chunk { IsChunk fork.value.items.items }
    requires first_balanced { IsBalanced first }
    requires top_balanced { Balances top.value }
    requires higher { depth_under top.value ≡ 2 + depth_of first }
    requires leaning { depth_of top.value.earlier ≤ depth_of top.value.later }
    requires few { forks_of first + forks_under top.value < 18446744073709551616 }
    ensures items { items_under result.value
        ≡ items_of first ++ fork.value.items.items ++ items_under top.value }
    ensures counted { Counts result.value }
    ensures balanced { Balances result.value }
    ensures low { depth_under result.value ≤ 1 + depth_under top.value }
    ensures high { depth_under top.value ≤ depth_under result.value }
    ensures forks { forks_under result.value ≡ 1 + forks_of first + forks_under top.value }
{
    let between = mem::replace(&mut top.earlier, Tree::Empty);
    let last = mem::replace(&mut top.later, Tree::Empty);
    forked(Tree::Fork(forked(first, fork, between)), top, last)
}

// Two rotations, where the later tree is higher by two and leans to the earlier side: the fork between comes on top.
fn later_between_on_top<T: Copy>(
    first: Tree<T>,
    mut fork: Box<Fork<T>>,
    mut top: Box<Fork<T>>,
) -> Box<Fork<T>>
    requires first { IsCounted first }
    requires top { Counts top.value }
    requires chunk { IsChunk fork.value.items.items }
    requires first_balanced { IsBalanced first }
    requires top_balanced { Balances top.value }
    requires higher { depth_under top.value ≡ 2 + depth_of first }
    requires leaning { depth_of top.value.later < depth_of top.value.earlier }
    requires few { forks_of first + forks_under top.value < 18446744073709551616 }
    ensures items { items_under result.value
        ≡ items_of first ++ fork.value.items.items ++ items_under top.value }
    ensures counted { Counts result.value }
    ensures balanced { Balances result.value }
    ensures low { depth_under result.value ≤ 1 + depth_under top.value }
    ensures high { depth_under top.value ≤ depth_under result.value }
    ensures forks { forks_under result.value ≡ 1 + forks_of first + forks_under top.value }
{
    let last = mem::replace(&mut top.later, Tree::Empty);
    match mem::replace(&mut top.earlier, Tree::Empty) {
        Tree::Empty => unreachable!(),
        Tree::Fork(mut middle) => {
            let before = mem::replace(&mut middle.earlier, Tree::Empty);
            let behind = mem::replace(&mut middle.later, Tree::Empty);
            let second = Tree::Fork(forked(behind, top, last));
            forked(Tree::Fork(forked(first, fork, before)), middle, second)
        }
    }
}

// One rotation to the right, where the earlier tree is higher by two: its fork comes on top.
fn earlier_on_top<T: Copy>(
    mut fork: Box<Fork<T>>,
    mut top: Box<Fork<T>>,
    last: Tree<T>,
) -> Box<Fork<T>>
    requires top { Counts top.value }
    requires last { IsCounted last }
    requires chunk { IsChunk fork.value.items.items }
    requires top_balanced { Balances top.value }
    requires last_balanced { IsBalanced last }
    requires higher { depth_under top.value ≡ 2 + depth_of last }
    requires leaning { depth_of top.value.later ≤ depth_of top.value.earlier }
    requires few { forks_under top.value + forks_of last < 18446744073709551616 }
    ensures items { items_under result.value
        ≡ items_under top.value ++ fork.value.items.items ++ items_of last }
    ensures counted { Counts result.value }
    ensures balanced { Balances result.value }
    ensures low { depth_under result.value ≤ 1 + depth_under top.value }
    ensures high { depth_under top.value ≤ depth_under result.value }
    ensures forks { forks_under result.value ≡ 1 + forks_under top.value + forks_of last }
{
    let first = mem::replace(&mut top.earlier, Tree::Empty);
    let between = mem::replace(&mut top.later, Tree::Empty);
    forked(first, top, Tree::Fork(forked(between, fork, last)))
}

// Two rotations, where the earlier tree is higher by two and leans to the later side: the fork between comes on top.
fn earlier_between_on_top<T: Copy>(
    mut fork: Box<Fork<T>>,
    mut top: Box<Fork<T>>,
    last: Tree<T>,
) -> Box<Fork<T>>
    requires top { Counts top.value }
    requires last { IsCounted last }
    requires chunk { IsChunk fork.value.items.items }
    requires top_balanced { Balances top.value }
    requires last_balanced { IsBalanced last }
    requires higher { depth_under top.value ≡ 2 + depth_of last }
    requires leaning { depth_of top.value.earlier < depth_of top.value.later }
    requires few { forks_under top.value + forks_of last < 18446744073709551616 }
    ensures items { items_under result.value
        ≡ items_under top.value ++ fork.value.items.items ++ items_of last }
    ensures counted { Counts result.value }
    ensures balanced { Balances result.value }
    ensures low { depth_under result.value ≤ 1 + depth_under top.value }
    ensures high { depth_under top.value ≤ depth_under result.value }
    ensures forks { forks_under result.value ≡ 1 + forks_under top.value + forks_of last }
{
    let first = mem::replace(&mut top.earlier, Tree::Empty);
    match mem::replace(&mut top.later, Tree::Empty) {
        Tree::Empty => unreachable!(),
        Tree::Fork(mut middle) => {
            let before = mem::replace(&mut middle.earlier, Tree::Empty);
            let behind = mem::replace(&mut middle.later, Tree::Empty);
            let second = Tree::Fork(forked(behind, fork, last));
            forked(Tree::Fork(forked(first, top, before)), middle, second)
        }
    }
}

// A fork over two trees, of which the later one may be higher by two than the earlier one: they are brought to differ
// by one at most.
fn with_later<T: Copy>(earlier: Tree<T>, fork: Box<Fork<T>>, later: Tree<T>) -> Box<Fork<T>>
    requires earlier { IsCounted earlier }
    requires later { IsCounted later }
    requires chunk { IsChunk fork.value.items.items }
    requires earlier_balanced { IsBalanced earlier }
    requires later_balanced { IsBalanced later }
    requires low { depth_of later ≤ 2 + depth_of earlier }
    requires high { depth_of earlier ≤ 1 + depth_of later }
    requires few { forks_of earlier + forks_of later < 18446744073709551616 }
    ensures items { items_under result.value
        ≡ items_of earlier ++ fork.value.items.items ++ items_of later }
    ensures counted { Counts result.value }
    ensures balanced { Balances result.value }
    ensures low { depth_under result.value ≤ 1 + max (depth_of earlier) (depth_of later) }
    ensures over_earlier { 1 + depth_of earlier ≤ depth_under result.value }
    ensures over_later { depth_of later ≤ 1 + depth_of earlier
        → 1 + depth_of later ≤ depth_under result.value }
    ensures high { depth_of later ≤ depth_under result.value }
    ensures forks { forks_under result.value ≡ 1 + forks_of earlier + forks_of later }
{
    if height(&later) <= height(&earlier).saturating_add(1) {
        return forked(earlier, fork, later);
    }
    match later {
        Tree::Empty => unreachable!(),
        Tree::Fork(top) => {
            if height(&top.earlier) <= height(&top.later) {
                later_on_top(earlier, fork, top)
            } else {
                later_between_on_top(earlier, fork, top)
            }
        }
    }
}

// The same where the earlier one may be higher by two than the later one.
fn with_earlier<T: Copy>(earlier: Tree<T>, fork: Box<Fork<T>>, later: Tree<T>) -> Box<Fork<T>>
    requires earlier { IsCounted earlier }
    requires later { IsCounted later }
    requires chunk { IsChunk fork.value.items.items }
    requires earlier_balanced { IsBalanced earlier }
    requires later_balanced { IsBalanced later }
    requires low { depth_of earlier ≤ 2 + depth_of later }
    requires high { depth_of later ≤ 1 + depth_of earlier }
    requires few { forks_of earlier + forks_of later < 18446744073709551616 }
    ensures items { items_under result.value
        ≡ items_of earlier ++ fork.value.items.items ++ items_of later }
    ensures counted { Counts result.value }
    ensures balanced { Balances result.value }
    ensures low { depth_under result.value ≤ 1 + max (depth_of earlier) (depth_of later) }
    ensures over_later { 1 + depth_of later ≤ depth_under result.value }
    ensures over_earlier { depth_of earlier ≤ 1 + depth_of later
        → 1 + depth_of earlier ≤ depth_under result.value }
    ensures high { depth_of earlier ≤ depth_under result.value }
    ensures forks { forks_under result.value ≡ 1 + forks_of earlier + forks_of later }
{
    if height(&earlier) <= height(&later).saturating_add(1) {
        return forked(earlier, fork, later);
    }
    match earlier {
        Tree::Empty => unreachable!(),
        Tree::Fork(top) => {
            if height(&top.later) <= height(&top.earlier) {
                earlier_on_top(fork, top, later)
            } else {
                earlier_between_on_top(fork, top, later)
            }
        }
    }
}

/// One tree of two and a fork between them. It is higher than the higher one by one at most.
pub fn joined<T: Copy>(earlier: Tree<T>, fork: Box<Fork<T>>, later: Tree<T>) -> Tree<T>
    requires earlier { IsCounted earlier }
    requires later { IsCounted later }
    requires chunk { IsChunk fork.value.items.items }
    requires earlier_balanced { IsBalanced earlier }
    requires later_balanced { IsBalanced later }
    requires few { forks_of earlier + forks_of later < 18446744073709551616 }
    ensures items { items_of result ≡ items_of earlier ++ fork.value.items.items ++ items_of later }
    ensures counted { IsCounted result }
    ensures balanced { IsBalanced result }
    ensures low { depth_of result ≤ 1 + max (depth_of earlier) (depth_of later) }
    ensures high { max (depth_of earlier) (depth_of later) ≤ depth_of result }
    ensures near { AreNear (depth_of earlier) (depth_of later)
        → depth_of result ≡ 1 + max (depth_of earlier) (depth_of later) }
    ensures forks { forks_of result ≡ 1 + forks_of earlier + forks_of later }
{
    let before = height(&earlier);
    let behind = height(&later);
    if before > behind.saturating_add(1) {
        match earlier {
            Tree::Empty => unreachable!(),
            Tree::Fork(mut top) => {
                let first = mem::replace(&mut top.earlier, Tree::Empty);
                let between = mem::replace(&mut top.later, Tree::Empty);
                let last = joined(between, fork, later);
                Tree::Fork(with_later(first, top, last))
            }
        }
    } else if behind > before.saturating_add(1) {
        match later {
            Tree::Empty => unreachable!(),
            Tree::Fork(mut top) => {
                let between = mem::replace(&mut top.earlier, Tree::Empty);
                let last = mem::replace(&mut top.later, Tree::Empty);
                let first = joined(earlier, fork, between);
                Tree::Fork(with_earlier(first, top, last))
            }
        }
    } else {
        Tree::Fork(forked(earlier, fork, later))
    }
}

/// One tree of the items of both, which differ by one in depth at most.
pub fn merged<T: Copy>(earlier: Tree<T>, later: Tree<T>) -> Tree<T>
    requires earlier { IsCounted earlier }
    requires later { IsCounted later }
    requires earlier_balanced { IsBalanced earlier }
    requires later_balanced { IsBalanced later }
    requires near { AreNear (depth_of earlier) (depth_of later) }
    requires few { forks_of earlier + forks_of later < 18446744073709551616 }
    ensures items { items_of result ≡ items_of earlier ++ items_of later }
    ensures counted { IsCounted result }
    ensures balanced { IsBalanced result }
    ensures low { depth_of result ≤ 1 + max (depth_of earlier) (depth_of later) }
    ensures high { max (depth_of earlier) (depth_of later) ≤ depth_of result }
    ensures forks { forks_of result ≡ forks_of earlier + forks_of later }
{
    match later {
        Tree::Empty => earlier,
        Tree::Fork(fork) => {
            let (first, rest) = taken_first(fork);
            joined(earlier, first, rest)
        }
    }
}

/// The fork of the first chunk, and a tree of the others, which is less deep by one at most.
pub fn taken_first<T: Copy>(mut fork: Box<Fork<T>>) -> (Box<Fork<T>>, Tree<T>)
    requires counted { Counts fork.value }
    requires balanced { Balances fork.value }
    requires few { forks_under fork.value ≤ 18446744073709551616 }
    ensures items { result.0.value.items.items ++ items_of result.1
        ≡ items_under fork.value }
    ensures counted { IsCounted result.1 }
    ensures chunk { IsChunk result.0.value.items.items }
    ensures first { length result.0.value.items.items
        ≡ first_or (length fork.value.items.items) fork.value.earlier }
    ensures balanced { IsBalanced result.1 }
    ensures low { depth_of result.1 ≤ depth_under fork.value }
    ensures high { depth_under fork.value ≤ 1 + depth_of result.1 }
    ensures forks { 1 + forks_of result.1 ≡ forks_under fork.value }
{
    let later = mem::replace(&mut fork.later, Tree::Empty);
    match mem::replace(&mut fork.earlier, Tree::Empty) {
        Tree::Empty => (fork, later),
        Tree::Fork(earlier) => {
            let (first, rest) = taken_first(earlier);
            (first, joined(rest, fork, later))
        }
    }
}
