// Items of which there are mostly two at most.

ghost use Rattle.std.specs.Prelude.{◌≡◌, ◌<◌, ◌≤◌, [], ◌∷◌, length, insert, remove, slice_index_or, IfOk, IfSome};
ghost use Rattle.std.specs.Prelude.{IfNone, OnOk, OnErr, IsTrue};
ghost use Rattle.ceal_order.specs.Stamps.{is_in};
ghost use Rattle.ceal_order.specs.Rising.{numbers, count_before, IsRising, IsFirstAfter, NoneAfter};
ghost use Rattle.ceal_order.specs.ShortList.{listed};

use crate::order::Order;
use crate::sequence::Sequence;
use crate::stamp::Stamp;
use ceal_base::no_memory::NoMemory;
use std::alloc::Global;
use std::marker::Model;

/// A list of items, of which there are mostly two at most. Those are in the list itself and take no further memory;
/// from the third on they are in a sequence, and stay there until none is left.
#[derive(Drop)]
pub struct ShortList<T> {
    form: Form<T>,
    alloc: Global,
}

#[derive(Drop)]
enum Form<T> {
    Empty,
    One(T),
    Two(T, T),
    Many(Box<Sequence<T>>),
}

impl<T> Model for ShortList<T> {
    ghost use Rattle.std.specs.Prelude.{List};
    ghost use Rattle.std.specs.Coded.{coded_list};
    ghost use Rattle.ceal_order.specs.ShortList.{listed};

    ghost Value = { List T };

    ghost coded = { coded_list T.code };

    ghost view = { λ s. listed s.form };
}

impl<T: Copy> ShortList<T> {
    /// No items.
    pub fn new(alloc: Global) -> ShortList<T>
        ensures { result ≡ [] }
    {
        ShortList {
            form: Form::Empty,
            alloc,
        }
    }

    /// One item.
    pub fn one(alloc: Global, item: T) -> ShortList<T>
        ensures { result ≡ item ∷ [] }
    {
        ShortList {
            form: Form::One(item),
            alloc,
        }
    }

    /// How many items there are.
    #[inline]
    pub fn len(&self) -> usize
        ensures { result ≡ length self.now }
    {
        match &self.form {
            Form::Empty => 0,
            Form::One(_item) => 1,
            Form::Two(_first, _second) => 2,
            Form::Many(items) => items.len(),
        }
    }

    /// The item at an index.
    #[inline]
    pub fn get(&self, index: usize) -> T
        requires { index < length self.now }
        ensures { (other : T) → slice_index_or self.now index other ≡ result }
    {
        match &self.form {
            Form::Empty => unreachable!(),
            Form::One(item) => *item,
            Form::Two(first, second) => { if index == 0 { *first } else { *second } }
            Form::Many(items) => items.get(index),
        }
    }

    /// Puts an item in at an index.
    #[inline]
    pub fn insert(&mut self, index: usize, item: T) -> Result<(), NoMemory>
        requires { index ≤ length self.old }
        ensures ok { OnOk result (self.new ≡ insert self.old index item) }
        ensures err { OnErr result (self.new ≡ self.old) }
    {
        match &mut self.form {
            Form::Many(items) => items.insert(index, item),
            Form::Empty => {
                self.form = Form::One(item);
                Ok(())
            }
            Form::One(first) => {
                self.form = two(*first, index, item);
                Ok(())
            }
            Form::Two(first, second) => {
                let items = three(self.alloc, *first, *second, index, item)?;
                self.form = Form::Many(items);
                Ok(())
            }
        }
    }

    /// Takes the item at an index out.
    #[inline]
    pub fn remove(&mut self, index: usize)
        requires { index < length self.old }
        ensures { self.new ≡ remove self.old index }
    {
        match &mut self.form {
            Form::Empty => unreachable!(),
            Form::One(_item) => self.form = Form::Empty,
            Form::Two(first, second) => {
                let rest = if index == 0 { *second } else { *first };
                self.form = Form::One(rest);
            }
            Form::Many(items) => {
                items.remove(index);
                self.let_go_if_empty();
            }
        }
    }

    // Gives back the memory of a sequence that has become empty.
    fn let_go_if_empty(&mut self)
        ensures { self.new ≡ self.old }
    {
        if self.len() == 0 {
            self.form = Form::Empty;
        }
    }
}

impl ShortList<Stamp> {
    /// The number of stamps before one.
    #[inline]
    pub fn count_before(&self, order: &Order, stamp: Stamp) -> usize
        requires here { IsTrue (is_in stamp.0 order.now.stamps) }
        requires rising { IsRising order.now.stamps (numbers self.now) }
        ensures count { result ≡ count_before order.now.stamps stamp.0 (numbers self.now) }
        ensures within { result ≤ length self.now }
    {
        match &self.form {
            Form::Empty => 0,
            Form::One(only) => usize::from(order.before(*only, stamp)),
            Form::Two(first, second) => count_of_two(order, *first, *second, stamp),
            Form::Many(items) => items.count_before(order, stamp),
        }
    }

    /// The nearest one after a stamp, None where there is none.
    #[inline]
    pub fn first_after(&self, order: &Order, stamp: Stamp) -> Option<Stamp>
        requires here { IsTrue (is_in stamp.0 order.now.stamps) }
        requires rising { IsRising order.now.stamps (numbers self.now) }
        ensures some { IfSome result
            (λ next. IsFirstAfter order.now.stamps (numbers self.now) stamp.0 next.0) }
        ensures here { IfSome result (λ next. IsTrue (is_in next.0 order.now.stamps)) }
        ensures none { IfNone result (NoneAfter order.now.stamps (numbers self.now) stamp.0) }
    {
        match &self.form {
            Form::Empty => None,
            Form::One(only) => {
                if order.before(stamp, *only) {
                    Some(*only)
                } else {
                    None
                }
            }
            Form::Two(first, second) => first_of_two(order, *first, *second, stamp),
            Form::Many(items) => items.first_after(order, stamp),
        }
    }
}

// How many of two stamps are before another.
#[inline]
fn count_of_two(order: &Order, first: Stamp, second: Stamp, stamp: Stamp) -> usize
    requires here { IsTrue (is_in stamp.0 order.now.stamps) }
    requires rising { IsRising order.now.stamps (first.0 ∷ second.0 ∷ []) }
    ensures count { result ≡ count_before order.now.stamps stamp.0 (first.0 ∷ second.0 ∷ []) }
    ensures within { result ≤ 2 }
{
    if order.before(second, stamp) {
        return 2;
    }
    usize::from(order.before(first, stamp))
}

// The first of two stamps that is after another.
#[inline]
fn first_of_two(order: &Order, first: Stamp, second: Stamp, stamp: Stamp) -> Option<Stamp>
    requires here { IsTrue (is_in stamp.0 order.now.stamps) }
    requires rising { IsRising order.now.stamps (first.0 ∷ second.0 ∷ []) }
    ensures some { IfSome result
        (λ next. IsFirstAfter order.now.stamps (first.0 ∷ second.0 ∷ []) stamp.0 next.0) }
    ensures here { IfSome result (λ next. IsTrue (is_in next.0 order.now.stamps)) }
    ensures none { IfNone result
        (NoneAfter order.now.stamps (first.0 ∷ second.0 ∷ []) stamp.0) }
{
    if order.before(stamp, first) {
        return Some(first);
    }
    if order.before(stamp, second) {
        return Some(second);
    }
    None
}

// An item, and another one before it or after it.
fn two<T: Copy>(first: T, index: usize, item: T) -> Form<T>
    requires { index ≤ 1 }
    ensures { listed result ≡ insert (first ∷ []) index item }
{
    if index == 0 {
        Form::Two(item, first)
    } else {
        Form::Two(first, item)
    }
}

// Two items, and a third one among them.
#[inline(never)]
fn three<T: Copy>(
    alloc: Global,
    first: T,
    second: T,
    index: usize,
    item: T,
) -> Result<Box<Sequence<T>>, NoMemory>
    requires { index ≤ 2 }
    ensures { IfOk result (λ items. items.value ≡ insert (first ∷ second ∷ []) index item) }
{
    let mut items = Sequence::new(alloc);
    items.insert(0, first)?;
    items.insert(1, second)?;
    items.insert(index, item)?;
    Ok(Box::new(alloc, items)?)
}
