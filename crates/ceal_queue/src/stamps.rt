// Stamps in a list that has room for more.

ghost use Rattle.std.specs.Prelude.{◌≡◌, ◌<◌, ◌≤◌, ◌++◌, [], false, length, insert, remove, slice_index_or, option_map};
ghost use Rattle.std.specs.Prelude.{vec_capacity, IfSome, IfOk, IfErr, OnOk, IsTrue};
ghost use Rattle.ceal_order.specs.Stamps.{is_in, head_of, place};
ghost use Rattle.ceal_order.specs.Rising.{numbers, count_before, IsRising};
ghost use Rattle.ceal_order.specs.declared.stamp.Stamp.{Stamp as StampOf};
ghost use Rattle.ceal_queue.specs.Roomy.{InOne};

use ceal_base::no_memory::NoMemory;
use ceal_order::order::Order;
use ceal_order::search::before_in_chunk;
use ceal_order::sequence::Sequence;
use ceal_order::stamp::Stamp;
use std::alloc::Global;
use std::marker::Model;

/// A list of stamps. Contracts see `items`, and `capacity`, how many the list may have without a call that can fail.
///
/// They are in a sequence, whose calls take few steps wherever a stamp is. Where that has no room for one more, all of
/// them move to a plain list in which there is room for each, and stay there until room is made again.
#[derive(Drop)]
pub struct Stamps {
    sequence: Sequence<Stamp>,
    plain: Vec<Stamp>,
}

impl Model for Stamps {
    ghost use Rattle.std.specs.Prelude.{◌++◌};
    ghost use Rattle.std.specs.Vec.{vec_capacity};
    ghost use Rattle.ceal_queue.specs.Roomy.{Roomy, InOne};

    ghost Value = { Roomy };

    ghost view = { λ a.
        record { items = a.sequence ++ a.plain.items; capacity = vec_capacity a.plain } };

    ghost invariant = { λ a. InOne a.sequence a.plain.items };
}

impl Stamps {
    /// No stamps.
    pub fn new(alloc: Global) -> Stamps
        ensures items { result.items ≡ [] }
    {
        Stamps {
            sequence: Sequence::new(alloc),
            plain: Vec::new(alloc),
        }
    }

    /// How many stamps there are.
    pub fn len(&self) -> usize
        ensures { result ≡ length self.now.items }
    {
        self.sequence.len() + self.plain.len()
    }

    /// Makes room for a list of this length, and for the next ones in the sequence.
    pub fn make_room(&mut self, len: usize) -> Result<(), NoMemory>
        ensures items { self.new.items ≡ self.old.items }
        ensures raises { self.old.capacity ≤ self.new.capacity }
        ensures room { OnOk result (len ≤ self.new.capacity) }
    {
        self.make_next_room()?;
        self.plain.reserve(len)?;
        Ok(())
    }

    /// Makes room for the next ones in the sequence. Stamps in the plain list move back.
    #[inline]
    pub fn make_next_room(&mut self) -> Result<(), NoMemory>
        ensures { self.new ≡ self.old }
    {
        if !self.plain.is_empty() {
            move_back(&mut self.sequence, &mut self.plain)?;
        }
        self.sequence.make_ample_room()
    }

    /// The stamp at an index, the earliest first.
    pub fn get(&self, index: usize) -> Stamp
        requires { index < length self.now.items }
        ensures { (other : StampOf) → slice_index_or self.now.items index other ≡ result }
    {
        if self.plain.is_empty() {
            self.sequence.get(index)
        } else {
            self.plain[index]
        }
    }

    /// The first one.
    pub fn first(&self) -> Option<Stamp>
        ensures first { option_map (λ s. s.0) result ≡ head_of (numbers self.now.items) }
        ensures some { IfSome result (λ s. 0 < length self.now.items) }
    {
        if self.len() == 0 {
            None
        } else {
            Some(self.get(0))
        }
    }

    /// Where a stamp is among rising ones; where it is not there, the number of those before it.
    #[inline(never)]
    pub fn search(&self, order: &Order, stamp: Stamp) -> Result<usize, usize>
        requires here { IsTrue (is_in stamp.0 order.now.stamps) }
        requires rising { IsRising order.now.stamps (numbers self.now.items) }
        ensures there { IfOk result (λ at. IsTrue (is_in stamp.0 (numbers self.now.items))) }
        ensures place { IfOk result (λ at. at ≡ place stamp.0 (numbers self.now.items)) }
        ensures inside { IfOk result (λ at. at < length self.now.items) }
        ensures absent { IfErr result (λ at. is_in stamp.0 (numbers self.now.items) ≡ false) }
        ensures before { IfErr result
            (λ at. at ≡ count_before order.now.stamps stamp.0 (numbers self.now.items)) }
        ensures within { IfErr result (λ at. at ≤ length self.now.items) }
    {
        let at = self.count_before(order, stamp);
        if at == self.len() {
            return Err(at);
        }
        if self.get(at) == stamp {
            Ok(at)
        } else {
            Err(at)
        }
    }

    // The number of stamps before one.
    fn count_before(&self, order: &Order, stamp: Stamp) -> usize
        requires here { IsTrue (is_in stamp.0 order.now.stamps) }
        requires rising { IsRising order.now.stamps (numbers self.now.items) }
        ensures count { result ≡ count_before order.now.stamps stamp.0 (numbers self.now.items) }
        ensures within { result ≤ length self.now.items }
    {
        if self.plain.is_empty() {
            self.sequence.count_before(order, stamp)
        } else {
            before_in_chunk(order, &self.plain, stamp)
        }
    }

    /// Puts a stamp in at an index. No memory is taken.
    #[inline(never)]
    pub fn insert(&mut self, index: usize, stamp: Stamp)
        requires within { index ≤ length self.old.items }
        requires room { length self.old.items < self.old.capacity }
        ensures items { self.new.items ≡ insert self.old.items index stamp }
        ensures raises { self.old.capacity ≤ self.new.capacity }
    {
        if self.plain.is_empty() {
            match self.sequence.insert_in_room(index, stamp) {
                Ok(()) => return,
                Err(_full) => move_all(&mut self.sequence, &mut self.plain),
            }
        }
        let _ = self.plain.insert(index, stamp);
    }

    /// Takes the stamp at an index out.
    #[inline(never)]
    pub fn remove(&mut self, index: usize)
        requires { index < length self.old.items }
        ensures items { self.new.items ≡ remove self.old.items index }
        ensures capacity { self.new.capacity ≡ self.old.capacity }
    {
        if self.plain.is_empty() {
            self.sequence.remove(index);
        } else {
            self.plain.remove(index);
        }
    }
}

// Moves all stamps of a sequence to an empty plain list, where there is room for them.
#[inline(never)]
fn move_all(sequence: &mut Sequence<Stamp>, plain: &mut Vec<Stamp>)
    requires empty { plain.old.items ≡ [] }
    requires room { length sequence.old ≤ vec_capacity plain.old }
    ensures moved { plain.new.items ≡ sequence.old }
    ensures none { sequence.new ≡ [] }
    ensures raises { vec_capacity plain.old ≤ vec_capacity plain.new }
{
    for at in 0..sequence.len() {
        let _ = plain.push(sequence.get(at));
    }
    sequence.clear();
}

// Moves all stamps of a plain list back to an empty sequence, for which memory is taken. They are seldom there.
#[inline(never)]
fn move_back(sequence: &mut Sequence<Stamp>, plain: &mut Vec<Stamp>) -> Result<(), NoMemory>
    requires empty { sequence.old ≡ [] }
    ensures items { sequence.new ++ plain.new.items ≡ plain.old.items }
    ensures one { InOne sequence.new plain.new.items }
    ensures capacity { vec_capacity plain.new ≡ vec_capacity plain.old }
{
    sequence.make_room_for(plain.len())?;
    if fill(sequence, plain) {
        plain.clear();
    } else {
        sequence.clear();
    }
    Ok(())
}

// Puts all stamps of a list into an empty sequence, one after another, and says whether there was room for them.
fn fill(sequence: &mut Sequence<Stamp>, stamps: &[Stamp]) -> bool
    requires empty { sequence.old ≡ [] }
    ensures { IsTrue result → sequence.new ≡ stamps.now }
{
    for at in 0..stamps.len() {
        if sequence.insert_in_room(at, stamps[at]).is_err() {
            return false;
        }
    }
    true
}
