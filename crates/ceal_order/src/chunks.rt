// Items put into a tree of chunks, and taken out of it.

ghost use Rattle.std.specs.Prelude.{◌≡◌, ◌<◌, ◌≤◌, ◌+◌, ◌++◌, max, min, [], length, insert, remove, IfOk, OnOk, OnErr};
ghost use Rattle.std.specs.Prelude.{vec_len, vec_capacity};
ghost use Rattle.ceal_order.specs.Tree.{items_of, forks_of, depth_of, AreNear, IsCounted, IsChunk};
ghost use Rattle.ceal_order.specs.Tree.{IsBalanced, GrowsByOne, first_or};

use crate::tree::{
    CHUNK_ITEMS, Fork, HALF_CHUNK, Tree, count, forked, joined, merged, taken_first,
};
use ceal_base::no_memory::NoMemory;
use std::mem;

// A chunk that has fewer items takes those of the next one, where both fit.
const FEW_ITEMS: usize = 16;

// A fork whose two trees were taken out of it.
#[derive(Drop)]
struct Opened<T> {
    earlier: Tree<T>,
    fork: Box<Fork<T>>,
    later: Tree<T>,
}

/// The tree with one more item at an index, for which a spare fork may be used. Where there is no room for it, the
/// items are as before.
pub fn with_item<T: Copy>(
    spares: &mut Vec<Box<Fork<T>>>,
    tree: Tree<T>,
    index: usize,
    item: T,
) -> (Tree<T>, Result<(), NoMemory>)
    requires counted { IsCounted tree }
    requires balanced { IsBalanced tree }
    requires few { length (items_of tree) ≤ 18446744073709551615 }
    requires within { index < length (items_of tree) }
    ensures ok { OnOk result.1 (items_of result.0 ≡ insert (items_of tree) index item) }
    ensures err { OnErr result.1 (items_of result.0 ≡ items_of tree) }
    ensures counted { IsCounted result.0 }
    ensures balanced { IsBalanced result.0 }
    ensures low { depth_of result.0 ≤ 1 + depth_of tree }
    ensures high { depth_of tree ≤ depth_of result.0 }
    ensures forks { forks_of result.0 ≤ 1 + forks_of tree }
    ensures kept { forks_of result.0 + vec_len spares.new ≡ forks_of tree + vec_len spares.old }
    ensures capacity { vec_capacity spares.new ≡ vec_capacity spares.old }
{
    match tree {
        Tree::Empty => unreachable!(),
        Tree::Fork(mut fork) => {
            let earlier = mem::replace(&mut fork.earlier, Tree::Empty);
            let later = mem::replace(&mut fork.later, Tree::Empty);
            let before = count(&earlier);
            if index < before {
                let (earlier, done) = with_item(spares, earlier, index, item);
                return (joined(earlier, fork, later), done);
            }
            let here = fork.items.len();
            if index - before < here {
                let opened = Opened {
                    earlier,
                    fork,
                    later,
                };
                return with_item_here(spares, opened, index - before, item);
            }
            let (later, done) = with_item(spares, later, index - before - here, item);
            (joined(earlier, fork, later), done)
        }
    }
}

// The same at an index of the chunk of a fork that is opened. A full chunk is halved.
fn with_item_here<T: Copy>(
    spares: &mut Vec<Box<Fork<T>>>,
    opened: Opened<T>,
    index: usize,
    item: T,
) -> (Tree<T>, Result<(), NoMemory>)
    requires earlier { IsCounted opened.earlier }
    requires later { IsCounted opened.later }
    requires chunk { IsChunk opened.fork.value.items.items }
    requires earlier_balanced { IsBalanced opened.earlier }
    requires later_balanced { IsBalanced opened.later }
    requires near { AreNear (depth_of opened.earlier) (depth_of opened.later) }
    requires few { forks_of opened.earlier + forks_of opened.later < 18446744073709551615 }
    requires within { index < length opened.fork.value.items.items }
    ensures ok { OnOk result.1 (items_of result.0
        ≡ items_of opened.earlier ++ insert opened.fork.value.items.items index item
        ++ items_of opened.later) }
    ensures err { OnErr result.1 (items_of result.0
        ≡ items_of opened.earlier ++ opened.fork.value.items.items ++ items_of opened.later) }
    ensures counted { IsCounted result.0 }
    ensures balanced { IsBalanced result.0 }
    ensures low { depth_of result.0 ≤ 2 + max (depth_of opened.earlier) (depth_of opened.later) }
    ensures high { 1 + max (depth_of opened.earlier) (depth_of opened.later) ≤ depth_of result.0 }
    ensures forks { forks_of result.0 ≤ 2 + forks_of opened.earlier + forks_of opened.later }
    ensures kept { forks_of result.0 + vec_len spares.new
        ≡ 1 + forks_of opened.earlier + forks_of opened.later + vec_len spares.old }
    ensures capacity { vec_capacity spares.new ≡ vec_capacity spares.old }
{
    let earlier = opened.earlier;
    let mut fork = opened.fork;
    let later = opened.later;
    if fork.items.len() < CHUNK_ITEMS {
        let done = put(&mut fork.items, index, item);
        return (Tree::Fork(forked(earlier, fork, later)), done);
    }
    match second_half(spares, &mut fork.items) {
        Err(error) => (Tree::Fork(forked(earlier, fork, later)), Err(error)),
        Ok(mut second) => {
            let done = put_in_one(&mut fork.items, &mut second.items, index, item);
            let later = joined(Tree::Empty, second, later);
            (joined(earlier, fork, later), done)
        }
    }
}

/// Puts an item into a chunk.
pub fn put<T: Copy>(items: &mut Vec<T>, index: usize, item: T) -> Result<(), NoMemory>
    requires { index ≤ length items.old.items }
    ensures ok { OnOk result (items.new.items ≡ insert items.old.items index item) }
    ensures err { OnErr result (items.new.items ≡ items.old.items) }
{
    match items.insert(index, item) {
        Ok(()) => Ok(()),
        Err(_refused) => Err(NoMemory),
    }
}

/// Puts an item into one of two chunks.
pub fn put_in_one<T: Copy>(
    first: &mut Vec<T>,
    second: &mut Vec<T>,
    index: usize,
    item: T,
) -> Result<(), NoMemory>
    requires { index ≤ length (first.old.items ++ second.old.items) }
    ensures ok { OnOk result (first.new.items ++ second.new.items
        ≡ insert (first.old.items ++ second.old.items) index item) }
    ensures err { OnErr result (first.new.items ++ second.new.items
        ≡ first.old.items ++ second.old.items) }
    ensures first { GrowsByOne first.old.items first.new.items }
    ensures past { length first.old.items ≤ index → first.new.items ≡ first.old.items }
    ensures second { GrowsByOne second.old.items second.new.items }
{
    let here = first.len();
    if index < here {
        put(first, index, item)?;
        return Ok(());
    }
    put(second, index - here, item)?;
    Ok(())
}

// Takes the second half of a chunk into a spare fork.
fn second_half<T: Copy>(
    spares: &mut Vec<Box<Fork<T>>>,
    items: &mut Vec<T>,
) -> Result<Box<Fork<T>>, NoMemory>
    requires { 32 ≤ length items.old.items }
    ensures ok { IfOk result
        (λ second. items.new.items ++ second.value.items.items ≡ items.old.items) }
    ensures half { OnOk result (length items.new.items ≡ 32) }
    ensures err { OnErr result (items.new.items ≡ items.old.items) }
    ensures taken { OnOk result (vec_len spares.new + 1 ≡ vec_len spares.old) }
    ensures kept { OnErr result (vec_len spares.new ≡ vec_len spares.old) }
    ensures capacity { vec_capacity spares.new ≡ vec_capacity spares.old }
{
    let mut second = taken_spare(spares)?;
    match second.items.extend_from_slice(&items[HALF_CHUNK..]) {
        Ok(()) => {
            items.truncate(HALF_CHUNK);
            Ok(second)
        }
        Err(_refused) => {
            spares.push_reserved(second);
            Err(NoMemory)
        }
    }
}

// A spare fork, where there is one. It has no items.
fn taken_spare<T: Copy>(spares: &mut Vec<Box<Fork<T>>>) -> Result<Box<Fork<T>>, NoMemory>
    ensures items { IfOk result (λ fork. fork.value.items.items ≡ []) }
    ensures taken { OnOk result (vec_len spares.new + 1 ≡ vec_len spares.old) }
    ensures kept { OnErr result (vec_len spares.new ≡ vec_len spares.old) }
    ensures capacity { vec_capacity spares.new ≡ vec_capacity spares.old }
{
    match spares.pop() {
        None => Err(NoMemory),
        Some(mut fork) => {
            fork.items.clear();
            Ok(fork)
        }
    }
}

/// Takes the items of a full chunk into a spare fork, the first half where one more comes among them, and all where it
/// comes after them. The others stay.
pub fn front_part<T: Copy>(
    spares: &mut Vec<Box<Fork<T>>>,
    items: &mut Vec<T>,
    index: usize,
) -> Result<Box<Fork<T>>, NoMemory>
    requires { 32 ≤ length items.old.items }
    ensures ok { IfOk result
        (λ front. front.value.items.items ++ items.new.items ≡ items.old.items) }
    ensures half { IfOk result
        (λ front. (index < 64 → length front.value.items.items ≡ 32)
        × (64 ≤ index → front.value.items.items ≡ items.old.items)) }
    ensures err { OnErr result (items.new.items ≡ items.old.items) }
    ensures taken { OnOk result (vec_len spares.new + 1 ≡ vec_len spares.old) }
    ensures kept { OnErr result (vec_len spares.new ≡ vec_len spares.old) }
    ensures capacity { vec_capacity spares.new ≡ vec_capacity spares.old }
{
    let mut front = if index < CHUNK_ITEMS {
        second_half(spares, items)?
    } else {
        taken_spare(spares)?
    };
    mem::swap(&mut front.items, items);
    Ok(front)
}

/// The tree without the item at an index, and whether that was in the first chunk. A chunk that has become empty goes.
/// One of few items takes in the next one, where the item was in one of the two: so this is tried twice at most. A fork
/// whose chunk goes is spare from then on, for which there is room.
pub fn without_item<T: Copy>(
    spares: &mut Vec<Box<Fork<T>>>,
    tree: Tree<T>,
    index: usize,
) -> (Tree<T>, bool)
    requires counted { IsCounted tree }
    requires balanced { IsBalanced tree }
    requires few { length (items_of tree) ≤ 18446744073709551615 }
    requires within { index < length (items_of tree) }
    requires room { forks_of tree + vec_len spares.old ≤ vec_capacity spares.old }
    ensures items { items_of result.0 ≡ remove (items_of tree) index }
    ensures counted { IsCounted result.0 }
    ensures balanced { IsBalanced result.0 }
    ensures low { depth_of result.0 ≤ depth_of tree }
    ensures high { depth_of tree ≤ 1 + depth_of result.0 }
    ensures forks { forks_of result.0 ≤ forks_of tree }
    ensures kept { forks_of result.0 + vec_len spares.new ≡ forks_of tree + vec_len spares.old }
    ensures capacity { vec_capacity spares.new ≡ vec_capacity spares.old }
{
    match tree {
        Tree::Empty => unreachable!(),
        Tree::Fork(mut fork) => {
            let earlier = mem::replace(&mut fork.earlier, Tree::Empty);
            let later = mem::replace(&mut fork.later, Tree::Empty);
            let before = count(&earlier);
            if index < before {
                let (earlier, in_first) = without_item(spares, earlier, index);
                return (joined(earlier, fork, later), in_first);
            }
            let here = fork.items.len();
            if index - before < here {
                if here == 1 {
                    spares.push_reserved(fork);
                    return (merged(earlier, later), before == 0);
                }
                fork.items.remove(index - before);
                return (filled(spares, earlier, fork, later), before == 0);
            }
            let (later, in_next) = without_item(spares, later, index - before - here);
            if in_next {
                return (filled(spares, earlier, fork, later), false);
            }
            (joined(earlier, fork, later), false)
        }
    }
}

// One tree of two and a fork between them, whose chunk takes in the next one where it has few items and both fit. The
// later tree is higher by one at most.
fn filled<T: Copy>(
    spares: &mut Vec<Box<Fork<T>>>,
    earlier: Tree<T>,
    fork: Box<Fork<T>>,
    later: Tree<T>,
) -> Tree<T>
    requires earlier { IsCounted earlier }
    requires later { IsCounted later }
    requires chunk { IsChunk fork.value.items.items }
    requires earlier_balanced { IsBalanced earlier }
    requires later_balanced { IsBalanced later }
    requires near { depth_of later ≤ 1 + depth_of earlier }
    requires few { forks_of earlier + forks_of later < 18446744073709551616 }
    requires room { forks_of later + vec_len spares.old ≤ vec_capacity spares.old }
    ensures items { items_of result ≡ items_of earlier ++ fork.value.items.items ++ items_of later }
    ensures counted { IsCounted result }
    ensures balanced { IsBalanced result }
    ensures low { depth_of result ≤ 1 + max (depth_of earlier) (depth_of later) }
    ensures high { max (depth_of earlier) (depth_of later) ≤ depth_of result }
    ensures over { 1 + min (depth_of earlier) (depth_of later) ≤ depth_of result }
    ensures forks { forks_of result ≤ 1 + forks_of earlier + forks_of later }
    ensures kept { forks_of result + vec_len spares.new
        ≡ 1 + forks_of earlier + forks_of later + vec_len spares.old }
    ensures capacity { vec_capacity spares.new ≡ vec_capacity spares.old }
{
    let here = fork.items.len();
    let most = fork.items.capacity().min(CHUNK_ITEMS);
    if here < FEW_ITEMS && here + first_len(&later, CHUNK_ITEMS) <= most {
        with_next(spares, earlier, fork, later)
    } else {
        joined(earlier, fork, later)
    }
}

// How many items the first chunk has, and this number where there is no chunk.
fn first_len<T: Copy>(tree: &Tree<T>, otherwise: usize) -> usize
    requires few { otherwise ≤ 64 }
    requires balanced { IsBalanced tree.now }
    ensures first { result ≡ first_or otherwise tree.now }
    ensures few { result ≤ 64 }
{
    match tree {
        Tree::Empty => otherwise,
        Tree::Fork(fork) => first_len(&fork.earlier, fork.items.len()),
    }
}

// The same, where the chunk takes in the next one, for which it has room. The fork of that one is spare then.
fn with_next<T: Copy>(
    spares: &mut Vec<Box<Fork<T>>>,
    earlier: Tree<T>,
    mut fork: Box<Fork<T>>,
    later: Tree<T>,
) -> Tree<T>
    requires earlier { IsCounted earlier }
    requires later { IsCounted later }
    requires chunk { IsChunk fork.value.items.items }
    requires earlier_balanced { IsBalanced earlier }
    requires later_balanced { IsBalanced later }
    requires near { depth_of later ≤ 1 + depth_of earlier }
    requires few { forks_of earlier + forks_of later < 18446744073709551616 }
    requires both { length fork.value.items.items + first_or 64 later ≤ 64 }
    requires room { length fork.value.items.items + first_or 64 later
        ≤ vec_capacity fork.value.items }
    requires spare_room { forks_of later + vec_len spares.old ≤ vec_capacity spares.old }
    ensures items { items_of result ≡ items_of earlier ++ fork.value.items.items ++ items_of later }
    ensures counted { IsCounted result }
    ensures balanced { IsBalanced result }
    ensures low { depth_of result ≤ 1 + max (depth_of earlier) (depth_of later) }
    ensures high { max (depth_of earlier) (depth_of later) ≤ depth_of result }
    ensures over { 1 + min (depth_of earlier) (depth_of later) ≤ depth_of result }
    ensures forks { forks_of result ≤ 1 + forks_of earlier + forks_of later }
    ensures kept { forks_of result + vec_len spares.new
        ≡ 1 + forks_of earlier + forks_of later + vec_len spares.old }
    ensures capacity { vec_capacity spares.new ≡ vec_capacity spares.old }
{
    match later {
        Tree::Empty => unreachable!(),
        Tree::Fork(top) => {
            let (mut next, rest) = taken_first(top);
            match fork.items.append(&mut next.items) {
                Ok(()) => {
                    spares.push_reserved(next);
                    joined(earlier, fork, rest)
                }
                Err(_refused) => unreachable!(),
            }
        }
    }
}
