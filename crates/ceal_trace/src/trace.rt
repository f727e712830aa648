// The nodes of a trace in the order of time.

ghost use Rattle.std.specs.Prelude.{◌≡◌, ◌≢◌, ◌+◌, ◌<◌, ◌≤◌, max, ℕ, [], ◌∷◌, false, Some, None, IfSome, IfNone, IfOk};
ghost use Rattle.std.specs.Prelude.{OnOk, OnErr, IsTrue, option_map};
ghost use Rattle.ceal_base.specs.Trace.{steps_in};
ghost use Rattle.ceal_order.specs.Stamps.{head_of, room_beyond};
ghost use Rattle.ceal_base.specs.declared.forest.Key.{Key as KeyOf};
ghost use Rattle.ceal_base.specs.declared.word.BlockId.{BlockId as BlockOf};
ghost use Rattle.ceal_base.specs.declared.word.Place.{Place as PlaceOf};
ghost use Rattle.ceal_base.specs.declared.word.Word.{Word as WordOf};
ghost use Rattle.ceal_trace.specs.declared.node.Node.{Node as NodeOf};
ghost use Rattle.ceal_trace.specs.declared.node.Node.TheVariants.{Root, Alloc, Write, Read, End};
ghost use Rattle.ceal_trace.specs.Nodes.{order_of, stamps_in, has_node, position, new_entry, node_at, steps_at};
ghost use Rattle.ceal_trace.specs.Nodes.{steps_sum, is_read, ends, end_in, with_entry_after, without_entry, valued};
ghost use Rattle.ceal_trace.specs.Nodes.{with_value, with_steps, IsTrace, NoLooseEnd, LooseEndOf, OneMoreNode};
ghost use Rattle.ceal_trace.specs.Nodes.{Inserted, SameBut, TouchesOne, is_plain, seen, seen_read};
ghost use Rattle.ceal_trace.specs.Items.{forest_of};

use crate::new_node::{NewAlloc, NewEnd, NewNode, NewRead, NewRoot, NewWrite};
use crate::node::{Gone, Seen, SeenRead};
use crate::table::Table;
use ceal_base::forest::{Key, UnitId};
use ceal_base::no_memory::NoMemory;
use ceal_base::word::{BlockId, Place, Word};
use ceal_base::words::Words;
use ceal_order::order::{Order, ROOM_BEYOND};
use ceal_order::stamp::Stamp;
use std::alloc::Global;
use std::marker::Model;

/// The nodes of a run in the order of time, and room for more. Contracts see `nodes`, the list of the nodes with their
/// stamps and steps, `spare`, how many may be inserted without taking memory, and `touched`, how often a node was put
/// in, taken out or changed. Every call that does so counts it, and no other.
///
/// Each stamp that is given must be a node's. A read and its end go together: where a finished read is removed
/// before its end, no other finished read is removed and nothing is inserted until the end is removed too. Its stamp is
/// asked by `end_of` beforehand.
#[derive(Drop)]
pub struct Trace {
    order: Order,
    table: Table,
    steps: u64,
    touched: u64,
}

impl Model for Trace {
    ghost use Rattle.ceal_trace.specs.Nodes.{Timeline};

    ghost Value = { Timeline };

    ghost use Rattle.ceal_trace.specs.Keeping.{touched_timeline, Sound};

    ghost view = { λ a. touched_timeline a.touched a.order a.table };

    ghost invariant = { λ a. Sound a.order a.table a.steps };
}

impl Trace {
    /// A trace of only the root.
    pub fn new(alloc: Global) -> Result<Trace, NoMemory>
        ensures nodes { IfOk result (λ trace. trace.nodes ≡ new_entry 0 Root ∷ []) }
        ensures spare { IfOk result (λ trace. trace.spare ≡ 0) }
        ensures untouched { IfOk result (λ trace. trace.touched ≡ 0) }
        ensures whole { IfOk result IsTrace }
        ensures closed { IfOk result (λ trace. NoLooseEnd trace.nodes) }
    {
        let order = Order::new(alloc)?;
        let root = order.first();
        let mut table = Table::new(alloc);
        table.reserve(1)?;
        table.put(root, NewRoot);
        Ok(Trace {
            order,
            table,
            steps: 0,
            touched: 0,
        })
    }

    /// The root. Its contract also tells what is true of every trace.
    pub fn root(&self) -> Stamp
        ensures first { head_of (stamps_in self.now.nodes) ≡ Some result.0 }
        ensures there { IsTrue (has_node result.0 self.now.nodes) }
        ensures at_start { position result.0 self.now.nodes ≡ 0 }
        ensures node { node_at result.0 self.now.nodes ≡ Some Root }
        ensures whole { IsTrace self.now }
    {
        self.order.first()
    }

    /// The order of the nodes' stamps.
    pub fn order(&self) -> &Order
        ensures { result.now ≡ order_of self.now }
    {
        &self.order
    }

    /// Makes room for `nodes` insertions, which then take no memory. `NoMemory` also comes when there would be 2^32 - 1
    /// nodes or more, the spare ones counted.
    ///
    /// For how many more insertions there is room then is told as a bound only, as of the order, since the numbers of
    /// the next stamps would follow from it.
    #[inline]
    pub fn reserve(&mut self, nodes: u32) -> Result<(), NoMemory>
        ensures nodes { self.new.nodes ≡ self.old.nodes }
        ensures room { OnOk result (nodes ≤ self.new.spare) }
        ensures few { OnOk result (self.new.spare ≤ max self.old.spare (nodes + room_beyond)) }
        ensures kept { self.old.spare ≤ self.new.spare }
        ensures untouched { self.new.touched ≡ self.old.touched }
        ensures err { OnErr result (self.new ≡ self.old) }
        ensures whole { IsTrace self.new }
    {
        if self.order.has_room(nodes) {
            return Ok(());
        }
        self.widen(nodes)
    }

    // Makes room where there is none. It is called seldom, and is a separate function, so that the usual path is short.
    #[inline(never)]
    fn widen(&mut self, nodes: u32) -> Result<(), NoMemory>
        ensures nodes { self.new.nodes ≡ self.old.nodes }
        ensures room { OnOk result (nodes ≤ self.new.spare) }
        ensures few { OnOk result (self.new.spare ≤ max self.old.spare (nodes + room_beyond)) }
        ensures kept { self.old.spare ≤ self.new.spare }
        ensures untouched { self.new.touched ≡ self.old.touched }
        ensures err { OnErr result (self.new ≡ self.old) }
        ensures whole { IsTrace self.new }
    {
        let room = nodes.saturating_add(ROOM_BEYOND);
        self.table.reserve(room)?;
        self.order.reserve(nodes)
    }

    /// Puts an allocation directly after a node.
    pub fn insert_alloc(&mut self, after: Stamp, block: BlockId, key: Key) -> Stamp
        requires here { IsTrue (has_node after.0 self.old.nodes) }
        requires room { 0 < self.old.spare }
        requires closed { NoLooseEnd self.old.nodes }
        ensures nodes { self.new.nodes
            ≡ with_entry_after after.0 (new_entry result.0 (Alloc block key)) self.old.nodes }
        ensures inserted { Inserted after.0 result.0
            (Alloc block key) self.old.nodes self.new.nodes }
        ensures spare { self.new.spare + 1 ≡ self.old.spare }
        ensures touches { TouchesOne self.old self.new }
        ensures ends { (read : ℕ) → end_in read self.new.nodes ≡ end_in read self.old.nodes }
        ensures closed { NoLooseEnd self.new.nodes }
        ensures whole { IsTrace self.new }
    {
        self.insert(after, NewAlloc { block, key })
    }

    /// Puts a write directly after a node.
    pub fn insert_write(&mut self, after: Stamp, place: Place, value: Word) -> Stamp
        requires here { IsTrue (has_node after.0 self.old.nodes) }
        requires room { 0 < self.old.spare }
        requires closed { NoLooseEnd self.old.nodes }
        ensures nodes { self.new.nodes
            ≡ with_entry_after after.0 (new_entry result.0 (Write place value)) self.old.nodes }
        ensures inserted { Inserted after.0 result.0
            (Write place value) self.old.nodes self.new.nodes }
        ensures spare { self.new.spare + 1 ≡ self.old.spare }
        ensures touches { TouchesOne self.old self.new }
        ensures ends { (read : ℕ) → end_in read self.new.nodes ≡ end_in read self.old.nodes }
        ensures closed { NoLooseEnd self.new.nodes }
        ensures whole { IsTrace self.new }
    {
        self.insert(after, NewWrite { place, value })
    }

    /// Puts a read directly after a node. It is not finished.
    pub fn begin_read(
        &mut self,
        after: Stamp,
        place: Place,
        value: Word,
        unit: UnitId,
        var: u32,
        args: Words,
    ) -> Stamp
        requires here { IsTrue (has_node after.0 self.old.nodes) }
        requires room { 0 < self.old.spare }
        requires closed { NoLooseEnd self.old.nodes }
        ensures nodes { self.new.nodes
            ≡ with_entry_after after.0
            (new_entry result.0 (Read place value unit var args)) self.old.nodes }
        ensures inserted { Inserted after.0 result.0
            (Read place value unit var args) self.old.nodes self.new.nodes }
        ensures spare { self.new.spare + 1 ≡ self.old.spare }
        ensures touches { TouchesOne self.old self.new }
        ensures open { end_in result.0 self.new.nodes ≡ None }
        ensures ends { (read : ℕ) → end_in read self.new.nodes ≡ end_in read self.old.nodes }
        ensures closed { NoLooseEnd self.new.nodes }
        ensures whole { IsTrace self.new }
    {
        let read = NewRead {
            place,
            value,
            unit,
            var,
            args,
        };
        self.insert(after, read)
    }

    // Puts a node that is no end directly after another.
    #[inline]
    fn insert<N: NewNode>(&mut self, after: Stamp, node: N) -> Stamp
        requires here { IsTrue (has_node after.0 self.old.nodes) }
        requires room { 0 < self.old.spare }
        requires closed { NoLooseEnd self.old.nodes }
        requires plain { IsTrue (is_plain (N.node node)) }
        ensures nodes { self.new.nodes
            ≡ with_entry_after after.0 (new_entry result.0 (N.node node)) self.old.nodes }
        ensures inserted { Inserted after.0 result.0 (N.node node) self.old.nodes self.new.nodes }
        ensures spare { self.new.spare + 1 ≡ self.old.spare }
        ensures touches { TouchesOne self.old self.new }
        ensures open { end_in result.0 self.new.nodes ≡ None }
        ensures ends { (read : ℕ) → end_in read self.new.nodes ≡ end_in read self.old.nodes }
        ensures closed { NoLooseEnd self.new.nodes }
        ensures whole { IsTrace self.new }
    {
        let new = self.order.insert_after(after);
        self.table.put(new, node);
        self.touched = self.touched.saturating_add(1);
        new
    }

    /// Puts the end of a read that is not finished directly after a node that does not lie before the read.
    pub fn finish_read(&mut self, read: Stamp, after: Stamp) -> Stamp
        requires read { IsTrue (is_read (node_at read.0 self.old.nodes)) }
        requires unfinished { end_in read.0 self.old.nodes ≡ None }
        requires here { IsTrue (has_node after.0 self.old.nodes) }
        requires behind { position read.0 self.old.nodes ≤ position after.0 self.old.nodes }
        requires room { 0 < self.old.spare }
        requires closed { NoLooseEnd self.old.nodes }
        ensures nodes { self.new.nodes
            ≡ with_entry_after after.0 (new_entry result.0 (End read)) self.old.nodes }
        ensures inserted { Inserted after.0 result.0 (End read) self.old.nodes self.new.nodes }
        ensures spare { self.new.spare + 1 ≡ self.old.spare }
        ensures touches { TouchesOne self.old self.new }
        ensures finished { end_in read.0 self.new.nodes ≡ Some result.0 }
        ensures ends { (other : ℕ) → other ≢ read.0
            → end_in other self.new.nodes ≡ end_in other self.old.nodes }
        ensures closed { NoLooseEnd self.new.nodes }
        ensures whole { IsTrace self.new }
    {
        let end = self.order.insert_after(after);
        self.table.put(end, NewEnd { read });
        self.table.set_end(read, end);
        self.touched = self.touched.saturating_add(1);
        end
    }

    /// Gives a read another value.
    pub fn set_value(&mut self, read: Stamp, value: Word)
        requires read { IsTrue (is_read (node_at read.0 self.old.nodes)) }
        ensures nodes { self.new.nodes ≡ with_value read.0 value self.old.nodes }
        ensures changed { node_at read.0 self.new.nodes
            ≡ option_map (valued value) (node_at read.0 self.old.nodes) }
        ensures steps { steps_at read.0 self.new.nodes ≡ steps_at read.0 self.old.nodes }
        ensures others { SameBut read.0 self.old.nodes self.new.nodes }
        ensures sum { steps_sum self.new.nodes ≡ steps_sum self.old.nodes }
        ensures spare { self.new.spare ≡ self.old.spare }
        ensures touches { TouchesOne self.old self.new }
        ensures closed { NoLooseEnd self.old.nodes → NoLooseEnd self.new.nodes }
        ensures whole { IsTrace self.new }
    {
        self.table.set_value(read, value);
        self.touched = self.touched.saturating_add(1);
    }

    /// Sets the steps between a node and the next one.
    pub fn set_steps(&mut self, node: Stamp, steps: u32)
        requires here { IsTrue (has_node node.0 self.old.nodes) }
        ensures nodes { self.new.nodes ≡ with_steps node.0 steps self.old.nodes }
        ensures changed { steps_at node.0 self.new.nodes ≡ steps }
        ensures node { node_at node.0 self.new.nodes ≡ node_at node.0 self.old.nodes }
        ensures others { SameBut node.0 self.old.nodes self.new.nodes }
        ensures sum { steps_sum self.new.nodes + steps_at node.0 self.old.nodes
            ≡ steps_sum self.old.nodes + steps }
        ensures spare { self.new.spare ≡ self.old.spare }
        ensures touches { TouchesOne self.old self.new }
        ensures closed { NoLooseEnd self.old.nodes → NoLooseEnd self.new.nodes }
        ensures whole { IsTrace self.new }
    {
        let old = self.table.steps(node);
        self.table.set_steps(node, steps);
        self.steps = self.steps - u64::from(old) + u64::from(steps);
        self.touched = self.touched.saturating_add(1);
    }

    /// The node at a stamp.
    #[inline(always)]
    pub fn node(&self, stamp: Stamp) -> Seen<'_>
        requires here { IsTrue (has_node stamp.0 self.now.nodes) }
        ensures node { node_at stamp.0 self.now.nodes ≡ Some (seen result) }
    {
        self.table.node(stamp)
    }

    /// A read, with no other case to match.
    #[inline]
    pub fn read_at(&self, read: Stamp) -> SeenRead<'_>
        requires read { IsTrue (is_read (node_at read.0 self.now.nodes)) }
        ensures read { node_at read.0 self.now.nodes ≡ Some (seen_read result) }
    {
        match self.node(read) {
            Seen::Read {
                place,
                value,
                unit,
                var,
                args,
            } => SeenRead {
                place,
                value,
                unit,
                var,
                args,
            },
            Seen::Root => unreachable!(),
            Seen::Alloc { .. } => unreachable!(),
            Seen::Write { .. } => unreachable!(),
            Seen::End { .. } => unreachable!(),
        }
    }

    /// The value of a write.
    #[inline]
    pub fn written_at(&self, write: Stamp) -> Word
        requires write { (place : PlaceOf) × (value : WordOf)
            × (node_at write.0 self.now.nodes ≡ Some (Write place value)) }
        ensures value { (place : PlaceOf)
            × (node_at write.0 self.now.nodes ≡ Some (Write place result)) }
    {
        match self.node(write) {
            Seen::Write { value, .. } => value,
            Seen::Root => unreachable!(),
            Seen::Alloc { .. } => unreachable!(),
            Seen::Read { .. } => unreachable!(),
            Seen::End { .. } => unreachable!(),
        }
    }

    /// The block of an allocation.
    #[inline]
    pub fn block_at(&self, alloc: Stamp) -> BlockId
        requires alloc { (block : BlockOf) × (key : KeyOf)
            × (node_at alloc.0 self.now.nodes ≡ Some (Alloc block key)) }
        ensures block { (key : KeyOf)
            × (node_at alloc.0 self.now.nodes ≡ Some (Alloc result key)) }
    {
        match self.node(alloc) {
            Seen::Alloc { block, .. } => block,
            Seen::Root => unreachable!(),
            Seen::Write { .. } => unreachable!(),
            Seen::Read { .. } => unreachable!(),
            Seen::End { .. } => unreachable!(),
        }
    }

    /// The end of a read, None where it is not finished.
    pub fn end_of(&self, read: Stamp) -> Option<Stamp>
        requires read { IsTrue (is_read (node_at read.0 self.now.nodes)) }
        ensures finished { IfSome result (λ end. end_in read.0 self.now.nodes ≡ Some end.0) }
        ensures there { IfSome result (λ end. IsTrue (has_node end.0 self.now.nodes)) }
        ensures behind { IfSome result
            (λ end. position read.0 self.now.nodes < position end.0 self.now.nodes) }
        ensures open { IfNone result (end_in read.0 self.now.nodes ≡ None) }
    {
        self.table.end(read)
    }

    /// Takes a node out that is not the root, and gives back what it held.
    pub fn remove(&mut self, stamp: Stamp) -> Gone
        requires here { IsTrue (has_node stamp.0 self.old.nodes) }
        requires not_root { head_of (stamps_in self.old.nodes) ≢ Some stamp.0 }
        ensures nodes { self.new.nodes ≡ without_entry stamp.0 self.old.nodes }
        ensures node { node_at stamp.0 self.old.nodes ≡ Some result.node }
        ensures steps { result.steps ≡ steps_at stamp.0 self.old.nodes }
        ensures others { OneMoreNode stamp.0 self.new.nodes self.old.nodes }
        ensures spare { self.new.spare ≡ self.old.spare + 1 }
        ensures touches { TouchesOne self.old self.new }
        ensures opened { (read : ℕ) → IsTrue (ends read result.node)
            → end_in read self.new.nodes ≡ None }
        ensures ends { (read : ℕ) → ends read result.node ≡ false
            → end_in read self.new.nodes ≡ end_in read self.old.nodes }
        ensures loose { NoLooseEnd self.old.nodes → LooseEndOf stamp.0 self.new.nodes }
        ensures closed { NoLooseEnd self.old.nodes → end_in stamp.0 self.old.nodes ≡ None
            → NoLooseEnd self.new.nodes }
        ensures still { (read : ℕ) → LooseEndOf read self.old.nodes → ends read result.node ≡ false
            → end_in stamp.0 self.old.nodes ≡ None
            → LooseEndOf read self.new.nodes }
        ensures mended { (read : ℕ) → LooseEndOf read self.old.nodes
            → IsTrue (ends read result.node) → NoLooseEnd self.new.nodes }
        ensures whole { IsTrace self.new }
    {
        let gone = self.table.take(stamp);
        self.order.delete(stamp);
        self.steps -= u64::from(gone.steps);
        self.touched = self.touched.saturating_add(1);
        gone
    }

    /// Takes out a node that is not the root, and drops it in place.
    pub fn discard(&mut self, stamp: Stamp)
        requires here { IsTrue (has_node stamp.0 self.old.nodes) }
        requires not_root { head_of (stamps_in self.old.nodes) ≢ Some stamp.0 }
        ensures nodes { self.new.nodes ≡ without_entry stamp.0 self.old.nodes }
        ensures others { OneMoreNode stamp.0 self.new.nodes self.old.nodes }
        ensures spare { self.new.spare ≡ self.old.spare + 1 }
        ensures touches { TouchesOne self.old self.new }
        ensures opened { (node : NodeOf) (read : ℕ) → node_at stamp.0 self.old.nodes ≡ Some node
            → IsTrue (ends read node) → end_in read self.new.nodes ≡ None }
        ensures ends { (node : NodeOf) (read : ℕ) → node_at stamp.0 self.old.nodes ≡ Some node
            → ends read node ≡ false
            → end_in read self.new.nodes ≡ end_in read self.old.nodes }
        ensures loose { NoLooseEnd self.old.nodes → LooseEndOf stamp.0 self.new.nodes }
        ensures closed { NoLooseEnd self.old.nodes → end_in stamp.0 self.old.nodes ≡ None
            → NoLooseEnd self.new.nodes }
        ensures still { (node : NodeOf) (read : ℕ) → node_at stamp.0 self.old.nodes ≡ Some node
            → LooseEndOf read self.old.nodes → ends read node ≡ false
            → end_in stamp.0 self.old.nodes ≡ None
            → LooseEndOf read self.new.nodes }
        ensures mended { (node : NodeOf) (read : ℕ) → node_at stamp.0 self.old.nodes ≡ Some node
            → LooseEndOf read self.old.nodes
            → IsTrue (ends read node) → NoLooseEnd self.new.nodes }
        ensures whole { IsTrace self.new }
    {
        let steps = self.table.release(stamp);
        self.order.delete(stamp);
        self.steps -= u64::from(steps);
        self.touched = self.touched.saturating_add(1);
    }

    /// How often a node was put in, taken out or changed, at most 2^64 - 1.
    pub fn touched(&self) -> u64
        ensures { result ≡ self.now.touched }
    {
        self.touched
    }

    /// The steps between a node and the next one.
    pub fn steps_at(&self, node: Stamp) -> u32
        requires here { IsTrue (has_node node.0 self.now.nodes) }
        ensures { result ≡ steps_at node.0 self.now.nodes }
    {
        self.table.steps(node)
    }

    /// The steps of the whole run.
    pub fn steps(&self) -> u64
        ensures sum { result ≡ steps_sum self.now.nodes }
        ensures items { result ≡ steps_in (forest_of self.now.nodes) }
    {
        self.steps
    }
}
