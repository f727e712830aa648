// Nodes that are left over are revoked.

ghost use Rattle.std.specs.Prelude.{◌≡◌, ◌≢◌, ◌≤◌, ℕ, List, [], Some, true, false, OnOk, IsSome, IfSome, IfNone};
ghost use Rattle.ceal_base.specs.Block.{Block};
ghost use Rattle.ceal_base.specs.declared.word.Place.{Place as PlaceOf};
ghost use Rattle.ceal_code.specs.Program.{Code as CodeOf};
ghost use Rattle.ceal_order.specs.Stamps.{is_in, successor};
ghost use Rattle.ceal_repair.specs.Blocks.{HasBlocks, KeepsReadable};
ghost use Rattle.ceal_repair.specs.Distance.{CutsAfter};
ghost use Rattle.ceal_repair.specs.Entries.{CutTo, IsNoneOr, IsUntil, Lies, Revokes, starts, first_in, first_stamp};
ghost use Rattle.ceal_repair.specs.Kept.{Kept, base_in};
ghost use Rattle.ceal_repair.specs.Lists.{nodes_after};
ghost use Rattle.ceal_repair.specs.Looks.{due, touched_owed, CountsOn, NoneDiffers, KeepsMarks};
ghost use Rattle.ceal_theory.specs.Groves.{Grove, Bare, cut};
ghost use Rattle.ceal_trace.specs.Nodes.{Entry, stamps_in, has_node, node_at, is_plain};
ghost use Rattle.ceal_trace.specs.declared.node.Node.{Node as NodeOf};

use crate::running::Running;
use ceal_base::no_memory::NoMemory;
use ceal_base::word::{BlockId, Place};
use ceal_order::stamp::Stamp;
use ceal_trace::node::Seen;
use ceal_trace::trace::Trace;

/// What has to be done to revoke a node.
enum Cut {
    Alloc(BlockId),
    Write(Place),
    Read,
}

/// What is done to revoke a node, which is neither the root nor an end.
fn cut_of(trace: &Trace, node: Stamp) -> Cut
    requires here { has_node node.0 trace.now.nodes ≡ true }
    requires plain { (n : NodeOf) → node_at node.0 trace.now.nodes ≡ Some n → is_plain n ≡ true }
    ensures { Revokes result (node_at node.0 trace.now.nodes) }
{
    match trace.node(node) {
        Seen::Alloc { block, .. } => Cut::Alloc(block),
        Seen::Write { place, .. } => Cut::Write(place),
        Seen::Read { .. } => Cut::Read,
        Seen::Root => unreachable!(),
        Seen::End { .. } => unreachable!(),
    }
}

impl Running {
    /// Revokes the first node that is left over after a cursor, a read with its end. The block of an allocation can
    /// still be read.
    fn cut(&mut self, cursor: Stamp, node: Stamp) -> Result<(), NoMemory>
        requires kept { Kept self.old.tables }
        requires has { (code : CodeOf) × (inputs : List Block)
            × HasBlocks code inputs self.old.heap self.old.tables }
        requires lies { (front : List Entry) × (left : Grove) × (tail : List Entry)
            × Lies cursor.0 front left tail self.old.tables × (first_stamp left ≡ Some node.0) }
        ensures lies { OnOk result ((front : List Entry) (left : Grove) (tail : List Entry)
            → Lies cursor.0 front left tail self.old.tables → first_stamp left ≡ Some node.0
            → Lies cursor.0 front (cut left) tail self.new.tables) }
        ensures bases { OnOk result
            ((p : PlaceOf) → base_in self.new.tables.mods p ≡ base_in self.old.tables.mods p) }
        ensures blocks { OnOk result (KeepsReadable self.old.heap self.new.heap) }
        ensures has { OnOk result ((code : CodeOf) (inputs : List Block)
            → HasBlocks code inputs self.old.heap self.old.tables
            → HasBlocks code inputs self.new.heap self.new.tables) }
        ensures spent { self.new.spent ≡ self.old.spent }
        ensures looks { OnOk result (due self.new.tables ≤ due self.old.tables) }
        ensures differed { OnOk result (NoneDiffers self.old.tables self.new.tables) }
        ensures touched { OnOk result
            (touched_owed self.new.tables ≤ touched_owed self.old.tables) }
        ensures counts { OnOk result (CountsOn self.old.tables self.new.tables) }
        ensures marks { OnOk result (KeepsMarks self.old.tables self.new.tables) }
        ensures kept { OnOk result (Kept self.new.tables) }
    {
        match cut_of(&self.tables.trace, node) {
            Cut::Alloc(block) => {
                self.tables.cut_alloc(node);
                self.heap.revoke(block);
                Ok(())
            }
            Cut::Write(place) => {
                self.tables.cut_write(node, place)?;
                Ok(())
            }
            Cut::Read => {
                self.tables.cut_read(node);
                Ok(())
            }
        }
    }

    /// Revokes the nodes that are left over after a cursor up to one of them, which is then the first; or all of them,
    /// up to the node after them. A read goes with its end, and what is inside it stays. No trace that fits into memory
    /// has 2^64 nodes.
    pub fn cut_until(&mut self, cursor: Stamp, until: Stamp) -> Result<(), NoMemory>
        requires kept { Kept self.old.tables }
        requires has { (code : CodeOf) × (inputs : List Block)
            × HasBlocks code inputs self.old.heap self.old.tables }
        requires lies { (front : List Entry) × (left : Grove) × (tail : List Entry)
            × Lies cursor.0 front left tail self.old.tables
            × IsUntil until.0 left tail }
        ensures there { OnOk result ((front : List Entry) (left : Grove) (tail : List Entry)
            → Lies cursor.0 front left tail self.old.tables
            → is_in until.0 (starts left) ≡ true
            → (rest : Grove) × CutTo until.0 left rest
            × Lies cursor.0 front rest tail self.new.tables) }
        ensures all { OnOk result ((front : List Entry) (left : Grove) (tail : List Entry)
            → Lies cursor.0 front left tail self.old.tables → first_in tail ≡ Some until.0
            → Lies cursor.0 front Bare tail self.new.tables) }
        ensures bases { OnOk result
            ((p : PlaceOf) → base_in self.new.tables.mods p ≡ base_in self.old.tables.mods p) }
        ensures blocks { OnOk result (KeepsReadable self.old.heap self.new.heap) }
        ensures has { OnOk result ((code : CodeOf) (inputs : List Block)
            → HasBlocks code inputs self.old.heap self.old.tables
            → HasBlocks code inputs self.new.heap self.new.tables) }
        ensures spent { self.new.spent ≡ self.old.spent }
        ensures looks { OnOk result (due self.new.tables ≤ due self.old.tables) }
        ensures differed { OnOk result (NoneDiffers self.old.tables self.new.tables) }
        ensures touched { OnOk result
            (touched_owed self.new.tables ≤ touched_owed self.old.tables) }
        ensures counts { OnOk result (CountsOn self.old.tables self.new.tables) }
        ensures cuts { OnOk result (CutsAfter cursor.0
            self.old.tables.trace.nodes self.new.tables.trace.nodes) }
        ensures first { OnOk result
            (first_in (nodes_after cursor.0 self.new.tables.trace.nodes) ≡ Some until.0) }
        ensures marks { OnOk result (KeepsMarks self.old.tables self.new.tables) }
        ensures kept { OnOk result (Kept self.new.tables) }
    {
        for _revoked in 0..u64::MAX {
            match self.next_before(cursor, until) {
                None => return Ok(()),
                Some(node) => self.cut(cursor, node)?,
            }
        }
        Err(NoMemory)
    }

    /// The node after a cursor, None where it is this one or where there is none.
    fn next_before(&self, cursor: Stamp, until: Stamp) -> Option<Stamp>
        requires here { has_node cursor.0 self.now.tables.trace.nodes ≡ true }
        ensures some { IfSome result (λ s. s.0 ≢ until.0) }
        ensures next { IfSome result
            (λ s. successor cursor.0 (stamps_in self.now.tables.trace.nodes) ≡ Some s.0) }
        ensures none { IfNone result (IsNoneOr until.0
            (successor cursor.0 (stamps_in self.now.tables.trace.nodes))) }
    {
        match self.tables.trace.order().next(cursor) {
            None => None,
            Some(node) => { if node == until { None } else { Some(node) } }
        }
    }
}
