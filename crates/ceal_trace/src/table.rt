// The nodes of a trace by the numbers of their stamps.

ghost use Rattle.std.specs.Prelude.{◌≡◌, ◌<◌, ◌≤◌, ◌+◌, ℕ, length, [], Some, None, IfSome, IfNone, OnOk, IsTrue, true};
ghost use Rattle.ceal_trace.specs.declared.node.Node.{Node as NodeOf};
ghost use Rattle.ceal_trace.specs.Nodes.{ends, ended_by, seen};
ghost use Rattle.ceal_trace.specs.Slots.{Reopened};
ghost use Rattle.ceal_trace.specs.Keeping.{node_of, steps_of, end_of, noted, held_at, PutAt, TakenFrom, Wider};
ghost use Rattle.ceal_trace.specs.Keeping.{ValueSet, StepsSet, EndSet};

use crate::new_node::NewNode;
use crate::node::{Gone, Node, Seen};
use crate::shelf::Shelf;
use crate::slot::{NO_STAMP, Slot, lengthen, put_key, set_end, set_steps, slot_at, take_key};
use ceal_base::no_memory::NoMemory;
use ceal_base::word::Word;
use ceal_order::stamp::Stamp;
use std::alloc::Global;
use std::marker::Model;

/// A slot for each stamp and each spare place of the order, by its number, and a few more; and the nodes. Contracts
/// see a row for each slot, with the node in it.
#[derive(Drop)]
pub struct Table {
    slots: Vec<Slot>,
    shelf: Shelf,
}

impl Model for Table {
    ghost use Rattle.ceal_trace.specs.Rows.{Table};
    ghost use Rattle.ceal_trace.specs.Slots.{table, IsTable};

    ghost Value = { Table };

    ghost view = { λ a. table a.slots.items a.shelf };

    ghost invariant = { λ a. IsTable a.slots.items a.shelf };
}

impl Table {
    /// A table of no nodes.
    pub fn new(alloc: Global) -> Table
        ensures rows { result.rows ≡ [] }
        ensures nodes { result.count ≡ 0 }
    {
        Table {
            slots: Vec::new(alloc),
            shelf: Shelf::new(alloc),
        }
    }

    // Whether there is room for `more` more nodes.
    fn has_room(&self, more: u32) -> bool
        ensures { IsTrue result → self.now.count + more ≤ length self.now.rows }
    {
        more as usize <= self.slots.len() - self.shelf.len()
    }

    /// Makes room for `more` more nodes.
    pub fn reserve(&mut self, more: u32) -> Result<(), NoMemory>
        ensures rows { OnOk result (self.new.count + more ≤ length self.new.rows) }
        ensures kept { Wider self.old self.new }
    {
        if self.has_room(more) {
            return Ok(());
        }
        let count = match self.shelf.len().checked_add(more as usize) {
            Some(count) => count,
            None => return Err(NoMemory),
        };
        self.shelf.reserve(count)?;
        lengthen(&mut self.slots, count)
    }

    /// Puts a node without steps at a stamp that has none.
    #[inline]
    pub fn put<N: NewNode>(&mut self, at: Stamp, node: N)
        requires row { at.0 < length self.old.rows }
        requires few { self.old.count < length self.old.rows }
        ensures { PutAt at.0 (N.node node) self.old self.new }
    {
        let key = self.shelf.put(node);
        put_key(&mut self.slots, at.0, key);
    }

    /// Takes the node at a stamp out.
    pub fn take(&mut self, at: Stamp) -> Gone
        requires some { IsTrue (held_at self.old at.0) }
        requires read { (read : ℕ) → ends read (node_of self.old at.0) ≡ true
            → read < length self.old.rows }
        ensures node { TakenFrom at.0 result.node self.old self.new }
        ensures steps { result.steps ≡ steps_of self.old at.0 }
    {
        let slot = take_key(&mut self.slots, at.0);
        let node = self.shelf.take(slot.key);
        reopen(&mut self.slots, ended_by(&node));
        Gone {
            node,
            steps: slot.steps,
        }
    }

    /// Lets the node at a stamp go, and tells its steps.
    pub fn release(&mut self, at: Stamp) -> u32
        requires some { IsTrue (held_at self.old at.0) }
        requires read { (read : ℕ) → ends read (node_of self.old at.0) ≡ true
            → read < length self.old.rows }
        ensures node { TakenFrom at.0 (node_of self.old at.0) self.old self.new }
        ensures steps { result ≡ steps_of self.old at.0 }
    {
        let slot = take_key(&mut self.slots, at.0);
        let ended = self.shelf.release(slot.key);
        reopen(&mut self.slots, ended);
        slot.steps
    }

    /// The node at a stamp.
    #[inline(always)]
    pub fn node(&self, at: Stamp) -> Seen<'_>
        requires { IsTrue (held_at self.now at.0) }
        ensures { seen result ≡ node_of self.now at.0 }
    {
        let slot = slot_at(&self.slots, at.0);
        self.shelf.node(slot.key)
    }

    /// Gives a read another value.
    pub fn set_value(&mut self, read: Stamp, value: Word)
        requires { IsTrue (held_at self.old read.0) }
        ensures { ValueSet read.0 value self.old self.new }
    {
        let slot = slot_at(&self.slots, read.0);
        self.shelf.set_value(slot.key, value);
    }

    /// The steps that are counted at a stamp.
    pub fn steps(&self, at: Stamp) -> u32
        requires { at.0 < length self.now.rows }
        ensures { result ≡ steps_of self.now at.0 }
    {
        slot_at(&self.slots, at.0).steps
    }

    /// Changes the steps that are counted at a stamp.
    pub fn set_steps(&mut self, at: Stamp, steps: u32)
        requires { at.0 < length self.old.rows }
        ensures { StepsSet at.0 steps self.old self.new }
    {
        set_steps(&mut self.slots, at.0, steps);
    }

    /// The end of a read, None where it is not finished.
    pub fn end(&self, read: Stamp) -> Option<Stamp>
        requires { read.0 < length self.now.rows }
        ensures some { IfSome result (λ end. noted (end_of self.now read.0) ≡ Some end.0) }
        ensures none { IfNone result (noted (end_of self.now read.0) ≡ None) }
    {
        let end = slot_at(&self.slots, read.0).end;
        if end == NO_STAMP {
            None
        } else {
            Some(Stamp(end))
        }
    }

    /// Tells where a read ends.
    pub fn set_end(&mut self, read: Stamp, end: Stamp)
        requires { read.0 < length self.old.rows }
        ensures { EndSet read.0 end.0 self.old self.new }
    {
        set_end(&mut self.slots, read.0, end.0);
    }
}

// The read that a node ends.
fn ended_by(node: &Node) -> Option<Stamp>
    ensures { result ≡ ended_by node.now }
{
    match node {
        Node::End { read } => Some(*read),
        Node::Root => None,
        Node::Alloc { .. } => None,
        Node::Write { .. } => None,
        Node::Read { .. } => None,
    }
}

// The read that a node ended is not finished any more.
fn reopen(slots: &mut Vec<Slot>, ended: Option<Stamp>)
    requires { IfSome ended (λ read. read.0 < length slots.old.items) }
    ensures { (node : NodeOf) → ended ≡ ended_by node
        → Reopened slots.old.items slots.new.items node }
{
    if let Some(read) = ended {
        set_end(slots, read.0, NO_STAMP);
    }
}
