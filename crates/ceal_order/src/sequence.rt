// Items in a sequence.

ghost use Rattle.std.specs.Prelude.{◌≡◌, ◌<◌, ◌≤◌, ◌++◌, [], length, insert, remove, slice_index_or, IfSome, IfNone};
ghost use Rattle.std.specs.Prelude.{◌+◌, vec_len, vec_capacity, OnOk, OnErr, IsTrue};
ghost use Rattle.ceal_order.specs.Stamps.{is_in};
ghost use Rattle.ceal_order.specs.Rising.{numbers, count_before, IsRising, IsFirstAfter, NoneAfter};
ghost use Rattle.ceal_order.specs.Tree.{items_of, forks_of, IsCounted, IsBalanced};

use crate::chunks::{front_part, put, put_in_one, with_item, without_item};
use crate::order::Order;
use crate::room::make_room;
use crate::search::{before_in_chunk, before_in_tree};
use crate::stamp::Stamp;
use crate::tree::{CHUNK_ITEMS, Fork, HALF_CHUNK, Tree, count, item_at, joined, leaf};
use ceal_base::no_memory::NoMemory;
use std::alloc::Global;
use std::marker::Model;
use std::mem;

// There are no more items than this.
const MOST_ITEMS: usize = 4294967295;

/// A list of items. The last ones are in a separate chunk, and those before them in chunks in a balanced tree, so that
/// each search and change goes to as many chunks as the logarithm of their number, wherever it is, and one at the end
/// mostly to few.
///
/// Memory is taken by `make_room`, `make_ample_room` and `make_room_for`, which keep spare forks for the insertions
/// that follow. A fork is in the tree or spare: none is given back before the list is, so forks do not get fewer.
#[derive(Drop)]
pub struct Sequence<T> {
    front: Tree<T>,
    last: Vec<T>,
    spares: Vec<Box<Fork<T>>>,
    // how many forks there are, in the tree and spare
    forks: usize,
}

impl<T> Model for Sequence<T> {
    ghost use Rattle.std.specs.Prelude.{List, ◌++◌, ◌≤◌, length, vec_len, vec_capacity};
    ghost use Rattle.std.specs.Coded.{coded_list};
    ghost use Rattle.ceal_order.specs.Tree.{items_of, Fits};

    ghost Value = { List T };

    ghost coded = { coded_list T.code };

    ghost view = { λ s. items_of s.front ++ s.last.items };

    ghost invariant = { λ s.
        Fits s.front s.last.items (vec_len s.spares) s.forks (vec_capacity s.spares) };
}

impl<T: Copy> Sequence<T> {
    /// No items.
    pub fn new(alloc: Global) -> Sequence<T>
        ensures { result ≡ [] }
    {
        Sequence {
            front: Tree::Empty,
            last: Vec::new(alloc),
            spares: Vec::new(alloc),
            forks: 0,
        }
    }

    /// How many items there are.
    pub fn len(&self) -> usize
        ensures { result ≡ length self.now }
    {
        count(&self.front) + self.last.len()
    }

    /// The item at an index.
    #[inline(never)]
    pub fn get(&self, index: usize) -> T
        requires { index < length self.now }
        ensures { (other : T) → slice_index_or self.now index other ≡ result }
    {
        let before = count(&self.front);
        if index < before {
            item_at(&self.front, index)
        } else {
            self.last[index - before]
        }
    }

    /// Puts an item in at an index.
    #[inline(never)]
    pub fn insert(&mut self, index: usize, item: T) -> Result<(), NoMemory>
        requires { index ≤ length self.old }
        ensures ok { OnOk result (self.new ≡ insert self.old index item) }
        ensures err { OnErr result (self.new ≡ self.old) }
    {
        self.make_room()?;
        self.insert_in_room(index, item)?;
        Ok(())
    }

    /// Takes what memory the next insertion may need.
    pub fn make_room(&mut self) -> Result<(), NoMemory>
        ensures { self.new ≡ self.old }
    {
        if self.last.len() == self.last.capacity() {
            self.last.reserve(1)?;
        }
        self.make_spare()?;
        Ok(())
    }

    // Makes a spare fork, where the next insertion may need one and there is none.
    fn make_spare(&mut self) -> Result<(), NoMemory>
        ensures { self.new ≡ self.old }
    {
        if self.spares.len() > 0 {
            return Ok(());
        }
        if self.last.len() < CHUNK_ITEMS && count(&self.front) == 0 {
            return Ok(());
        }
        self.add_spare()?;
        Ok(())
    }

    // Makes one more spare fork.
    fn add_spare(&mut self) -> Result<(), NoMemory>
        ensures { self.new ≡ self.old }
    {
        let fork = leaf(*self.last.allocator())?;
        let in_tree = self.forks - self.spares.len();
        make_room(&mut self.spares, in_tree + 1)?;
        self.spares.push_reserved(fork);
        self.forks += 1;
        Ok(())
    }

    /// Takes what memory the next insertion may need, and where there are many items, some for those after it: after a
    /// few such calls each chunk may be halved once without taking memory.
    #[inline]
    pub fn make_ample_room(&mut self) -> Result<(), NoMemory>
        ensures { self.new ≡ self.old }
    {
        let len = self.last.len();
        if len < HALF_CHUNK && len < self.last.capacity() && count(&self.front) == 0 {
            return Ok(());
        }
        self.take_ample_room()
    }

    // Takes it where the list is not short or its last chunk is full, which is seldom so.
    #[inline(never)]
    fn take_ample_room(&mut self) -> Result<(), NoMemory>
        ensures { self.new ≡ self.old }
    {
        self.make_room()?;
        let chunks = self.len() / HALF_CHUNK;
        if self.spares.len() < chunks {
            self.add_spare()?;
        }
        if self.spares.len() < chunks {
            self.add_spare()?;
        }
        Ok(())
    }

    /// Takes what memory a list of this length needs that has no items yet and gets each of them after the others, and
    /// what it needs to halve each of its chunks once.
    pub fn make_room_for(&mut self, len: usize) -> Result<(), NoMemory>
        ensures { self.new ≡ self.old }
    {
        self.last.reserve(CHUNK_ITEMS)?;
        self.make_spares(len / HALF_CHUNK + 1)
    }

    // Makes spare forks, up to this number of them.
    fn make_spares(&mut self, wanted: usize) -> Result<(), NoMemory>
        ensures { self.new ≡ self.old }
    {
        for _made in self.spares.len()..wanted {
            self.add_spare()?;
        }
        Ok(())
    }

    /// Puts an item in at an index, without taking memory. `NoMemory` where there is no room.
    pub fn insert_in_room(&mut self, index: usize, item: T) -> Result<(), NoMemory>
        requires { index ≤ length self.old }
        ensures ok { OnOk result (self.new ≡ insert self.old index item) }
        ensures err { OnErr result (self.new ≡ self.old) }
    {
        if self.len() >= MOST_ITEMS {
            return Err(NoMemory);
        }
        let before = count(&self.front);
        if index < before {
            let front = mem::replace(&mut self.front, Tree::Empty);
            let (front, done) = with_item(&mut self.spares, front, index, item);
            self.front = front;
            return done;
        }
        put_last(
            &mut self.front,
            &mut self.last,
            &mut self.spares,
            index - before,
            item,
        )?;
        Ok(())
    }

    /// Takes the item at an index out.
    #[inline(never)]
    pub fn remove(&mut self, index: usize)
        requires { index < length self.old }
        ensures { self.new ≡ remove self.old index }
    {
        let before = count(&self.front);
        if index < before {
            let front = mem::replace(&mut self.front, Tree::Empty);
            let (front, _in_first) = without_item(&mut self.spares, front, index);
            self.front = front;
        } else {
            self.last.remove(index - before);
        }
    }

    /// Takes all items out, the last ones first. Their forks are spare then.
    pub fn clear(&mut self)
        ensures { self.new ≡ [] }
    {
        let mut left = self.len();
        while left > 0 {
            left -= 1;
            self.remove(left);
        }
    }
}

impl Sequence<Stamp> {
    /// The number of stamps before one.
    #[inline(never)]
    pub fn count_before(&self, order: &Order, stamp: Stamp) -> usize
        requires here { IsTrue (is_in stamp.0 order.now.stamps) }
        requires rising { IsRising order.now.stamps (numbers self.now) }
        ensures { result ≡ count_before order.now.stamps stamp.0 (numbers self.now) }
    {
        let last = before_in_chunk(order, &self.last, stamp);
        if last > 0 {
            return count(&self.front) + last;
        }
        before_in_tree(order, &self.front, stamp)
    }

    /// The nearest one after a stamp, None where there is none.
    #[inline(never)]
    pub fn first_after(&self, order: &Order, stamp: Stamp) -> Option<Stamp>
        requires here { IsTrue (is_in stamp.0 order.now.stamps) }
        requires rising { IsRising order.now.stamps (numbers self.now) }
        ensures some { IfSome result
            (λ next. IsFirstAfter order.now.stamps (numbers self.now) stamp.0 next.0) }
        ensures here { IfSome result (λ next. IsTrue (is_in next.0 order.now.stamps)) }
        ensures none { IfNone result (NoneAfter order.now.stamps (numbers self.now) stamp.0) }
    {
        let at = self.count_before(order, stamp);
        let len = self.len();
        if at == len {
            return None;
        }
        let here = self.get(at);
        if order.before(stamp, here) {
            return Some(here);
        }
        let next = at + 1;
        if next == len {
            return None;
        }
        Some(self.get(next))
    }
}

// Puts an item into the last chunk, where that has room for it.
fn put_last<T: Copy>(
    front: &mut Tree<T>,
    last: &mut Vec<T>,
    spares: &mut Vec<Box<Fork<T>>>,
    index: usize,
    item: T,
) -> Result<(), NoMemory>
    requires counted { IsCounted front.old }
    requires balanced { IsBalanced front.old }
    requires few { length (items_of front.old) ≤ 4294967295 }
    requires last_fits { length last.old.items ≤ 64 }
    requires within { index ≤ length last.old.items }
    ensures ok { OnOk result (items_of front.new ++ last.new.items
        ≡ items_of front.old ++ insert last.old.items index item) }
    ensures err { OnErr result
        (items_of front.new ++ last.new.items ≡ items_of front.old ++ last.old.items) }
    ensures counted { IsCounted front.new }
    ensures balanced { IsBalanced front.new }
    ensures last_fits { length last.new.items ≤ 64 }
    ensures kept { forks_of front.new + vec_len spares.new
        ≡ forks_of front.old + vec_len spares.old }
    ensures capacity { vec_capacity spares.new ≡ vec_capacity spares.old }
{
    let here = last.len();
    if here >= CHUNK_ITEMS {
        put_full(front, last, spares, index, item)?;
        return Ok(());
    }
    if here == last.capacity() {
        return Err(NoMemory);
    }
    put(last, index, item)?;
    Ok(())
}

// The same where the last chunk is full: it goes into the tree, or the first half of it.
fn put_full<T: Copy>(
    front: &mut Tree<T>,
    last: &mut Vec<T>,
    spares: &mut Vec<Box<Fork<T>>>,
    index: usize,
    item: T,
) -> Result<(), NoMemory>
    requires counted { IsCounted front.old }
    requires balanced { IsBalanced front.old }
    requires few { length (items_of front.old) ≤ 4294967295 }
    requires full { length last.old.items ≡ 64 }
    requires within { index ≤ length last.old.items }
    ensures ok { OnOk result (items_of front.new ++ last.new.items
        ≡ items_of front.old ++ insert last.old.items index item) }
    ensures err { OnErr result
        (items_of front.new ++ last.new.items ≡ items_of front.old ++ last.old.items) }
    ensures counted { IsCounted front.new }
    ensures balanced { IsBalanced front.new }
    ensures last_fits { length last.new.items ≤ 64 }
    ensures kept { forks_of front.new + vec_len spares.new
        ≡ forks_of front.old + vec_len spares.old }
    ensures capacity { vec_capacity spares.new ≡ vec_capacity spares.old }
{
    let mut fork = front_part(spares, last, index)?;
    let done = put_in_one(&mut fork.items, last, index, item);
    let tree = mem::replace(front, Tree::Empty);
    *front = joined(tree, fork, Tree::Empty);
    done
}
