// The nodes of a trace, each under a key.

ghost use Rattle.std.specs.Prelude.{◌≡◌, ◌<◌, ◌≤◌, ℕ, Some, None, IsSome, OnOk};
ghost use Rattle.ceal_trace.specs.Nodes.{seen, ended_by, valued};
ghost use Rattle.ceal_trace.specs.Shelves.{IsFit, at, or_root, count_of, SameShelf, AlsoAt, NoMoreAt, ValuedAt};
ghost use Rattle.ceal_trace.specs.Shelves.{HeldValued};
ghost use Rattle.slab.specs.Slab.{ContainsKey};

use crate::held::{Apart, Held, give_value, join, look, release};
use crate::new_node::NewNode;
use crate::node::{Node, Seen};
use ceal_base::no_memory::NoMemory;
use ceal_base::word::Word;
use ceal_order::packed::Packed;
use ceal_order::room::ample;
use ceal_order::stamp::Stamp;
use slab::Slab;
use std::alloc::Global;

/// Stands for no key.
pub const NO_KEY: usize = usize::MAX;

/// Nodes under keys that are given out when they are put in: their small parts in a slab, and their second parts in
/// another one. The two fit together (`IsFit`), which `Table` keeps.
#[derive(Drop)]
pub struct Shelf {
    held: Slab<Held>,
    apart: Slab<Apart>,
}

impl Shelf {
    /// A shelf with nothing on it.
    pub fn new(alloc: Global) -> Shelf
        ensures empty { (key : ℕ) → at result key ≡ None }
        ensures count { count_of result ≡ 0 }
        ensures fit { IsFit result.held result.apart }
    {
        Shelf {
            held: Slab::new(alloc),
            apart: Slab::new(alloc),
        }
    }

    /// How many nodes there are.
    pub fn len(&self) -> usize
        ensures { result ≡ count_of self.now }
    {
        self.held.len()
    }

    /// Makes room for `count` nodes in all.
    pub fn reserve(&mut self, count: usize) -> Result<(), NoMemory>
        ensures same { SameShelf self.old self.new }
        ensures held { OnOk result (count ≤ self.new.held.capacity) }
        ensures apart { OnOk result (count ≤ self.new.apart.capacity) }
    {
        if count > self.held.capacity() {
            let more = count.saturating_sub(self.held.len());
            self.held.reserve(ample(self.held.len(), more))?;
        }
        if count > self.apart.capacity() {
            let more = count.saturating_sub(self.apart.len());
            self.apart.reserve(ample(self.held.len(), more))?;
        }
        Ok(())
    }

    /// Puts a node in, and gives its key.
    #[inline]
    pub fn put<N: NewNode>(&mut self, node: N) -> usize
        requires fit { IsFit self.old.held self.old.apart }
        requires held { count_of self.old < self.old.held.capacity }
        requires apart { count_of self.old < self.old.apart.capacity }
        ensures { AlsoAt result (N.node node) self.old self.new }
    {
        let held = node.split(&mut self.apart);
        let key = self.held.insert_reserved(held);
        // for the proof: the key is below the capacity, which is within the range of lengths
        let _room = self.held.capacity();
        key
    }

    /// Takes the node at a key out.
    pub fn take(&mut self, key: usize) -> Node
        requires fit { IsFit self.old.held self.old.apart }
        requires there { IsSome (at self.old key) }
        ensures { NoMoreAt key result self.old self.new }
    {
        let held = self.held.remove(key);
        join(&mut self.apart, held)
    }

    /// Lets the node at a key go, and tells the read that it ends.
    #[inline]
    pub fn release(&mut self, key: usize) -> Option<Stamp>
        requires fit { IsFit self.old.held self.old.apart }
        requires there { IsSome (at self.old key) }
        ensures gone { NoMoreAt key (or_root (at self.old key)) self.old self.new }
        ensures ended { result ≡ ended_by (or_root (at self.old key)) }
    {
        let held = self.held.remove(key);
        release(&mut self.apart, held)
    }

    /// The node at a key.
    #[inline(always)]
    pub fn node(&self, key: usize) -> Seen<'_>
        requires { IsSome (at self.now key) }
        ensures { at self.now key ≡ Some (seen result) }
    {
        look(&self.apart, &self.held[key])
    }

    /// Gives the read at a key another value.
    pub fn set_value(&mut self, key: usize, value: Word)
        requires fit { IsFit self.old.held self.old.apart }
        requires there { IsSome (at self.old key) }
        ensures { ValuedAt key value self.old self.new }
    {
        value_at(&mut self.held, key, value);
    }
}

// Gives the read at a key another value.
fn value_at(held: &mut Slab<Held>, key: usize, value: Word)
    requires { ContainsKey held.old key }
    ensures { HeldValued key value held.old held.new }
{
    give_value(&mut held[key], Packed::of(value));
}
