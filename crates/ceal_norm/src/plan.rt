// A graph with what is needed to make its units.

ghost use Rattle.std.specs.Prelude.{◌≡◌, ◌<◌, ℕ, Some, length, slice_get, IfOk};
ghost use Rattle.ceal_flow.specs.Sets.{set_at};
ghost use Rattle.ceal_norm.specs.Body.{onward};
ghost use Rattle.ceal_norm.specs.Entries.{is_entry};
ghost use Rattle.ceal_norm.specs.Laws.{IsGraph};
ghost use Rattle.ceal_norm.specs.Table.{entry_at as table_entry, JumpsBelow, BeginsBelow};
ghost use Rattle.ceal_norm.specs.Units.{unit_of, entry_set, block_code, tree};

use crate::entries::{Entry, entry_table};
use ceal_base::forest::UnitId;
use ceal_base::no_memory::NoMemory;
use ceal_flow::block::GraphBlock;
use ceal_flow::function::GraphFunction;
use ceal_flow::graph::Graph;
use ceal_flow::live_sets::LiveSets;
use std::alloc::Global;
use std::marker::Model;

fn block_at(blocks: &[GraphBlock], b: u32) -> &GraphBlock
    requires { b < length blocks.now }
    ensures { slice_get blocks.now b ≡ Some result.now }
{
    &blocks[b as usize]
}

fn function_at(functions: &[GraphFunction], f: usize) -> &GraphFunction
    requires { f < length functions.now }
    ensures { slice_get functions.now f ≡ Some result.now }
{
    &functions[f]
}

fn entry_at(entries: &[Entry], b: u32) -> Entry
    requires { b < length entries.now }
    ensures { slice_get entries.now b ≡ Some result }
{
    entries[b as usize]
}

/// A graph, the variables that are live at its blocks, and its entries. Contracts see the first two.
#[derive(Drop)]
pub struct Plan<'a> {
    graph: &'a Graph,
    live: &'a LiveSets,
    entries: Vec<Entry>,
}

impl<'a> Model for Plan<'a> {
    ghost use Rattle.std.specs.Coded.{codes};
    ghost use Rattle.ceal_base.specs.contracts.typed.TypedExpr as expr;
    ghost use Rattle.ceal_base.specs.contracts.typed.TypedStmt as stmt;
    ghost use Rattle.ceal_norm.specs.Table.{Planned};
    ghost use Rattle.ceal_norm.specs.Units.{Source};

    ghost Value = { Source };

    ghost coded = { Prim.hlevel (codes, expr.the_row.coded, stmt.the_row.coded) };

    ghost view = { λ p. record { graph = p.graph.now; live = p.live.now } };

    ghost invariant = { λ p. Planned p.graph.now p.entries.items };
}

impl<'a> Plan<'a> {
    /// Which blocks of a graph begin a unit.
    pub fn new(alloc: Global, graph: &'a Graph, live: &'a LiveSets) -> Result<Plan<'a>, NoMemory>
        requires graph { IsGraph graph.now }
        ensures value { IfOk result (λ p. p ≡ record { graph = graph.now; live = live.now }) }
    {
        let entries = entry_table(alloc, graph)?;
        Ok(Plan {
            graph,
            live,
            entries,
        })
    }

    /// The functions of the graph.
    pub fn functions(&self) -> &[GraphFunction]
        ensures value { result.now ≡ self.now.graph.functions }
    {
        self.graph.functions()
    }

    /// A function, which begins at a block that is there.
    pub fn function(&self, f: usize) -> &GraphFunction
        requires there { f < length self.now.graph.functions }
        ensures value { slice_get self.now.graph.functions f ≡ Some result.now }
        ensures begins { BeginsBelow (length self.now.graph.blocks) result.now }
    {
        function_at(self.graph.functions(), f)
    }

    /// The blocks of the graph.
    pub fn blocks(&self) -> &[GraphBlock]
        ensures value { result.now ≡ self.now.graph.blocks }
    {
        self.graph.blocks()
    }

    /// A block, which jumps to blocks that are there; its tree begins with it.
    pub fn block(&self, b: u32) -> &GraphBlock
        requires there { b < length self.now.graph.blocks }
        ensures value { slice_get self.now.graph.blocks b ≡ Some result.now }
        ensures jumps { JumpsBelow (length self.now.graph.blocks) result.now }
        ensures tree { (i : ℕ)
            → tree self.now (length self.now.graph.blocks) b i
            ≡ block_code self.now (onward self.now) i (Some result.now) }
    {
        block_at(self.graph.blocks(), b)
    }

    fn entry(&self, b: u32) -> Entry
        requires there { b < length self.now.graph.blocks }
        ensures value { result ≡ table_entry self.now.graph b }
    {
        entry_at(self.entries.as_slice(), b)
    }

    /// Whether a unit begins at a block.
    pub fn is_entry(&self, b: u32) -> bool
        requires there { b < length self.now.graph.blocks }
        ensures value { result ≡ is_entry self.now.graph b }
    {
        self.entry(b).is_entry
    }

    /// The unit of an entry.
    pub fn unit(&self, b: u32) -> UnitId
        requires there { b < length self.now.graph.blocks }
        ensures value { result ≡ unit_of self.now b }
    {
        UnitId(self.entry(b).unit)
    }

    /// The variables that are live at a block, ascending.
    pub fn variables(&self, alloc: Global, b: u32) -> Result<Vec<u32>, NoMemory>
        ensures value { IfOk result (λ vs. vs.items ≡ set_at self.now.live b) }
    {
        match self.live.items().get(b as usize) {
            Some(set) => set.variables(alloc),
            None => Ok(Vec::new(alloc)),
        }
    }

    /// The variables that are live where a call of the function begins.
    pub fn entry_variables(&self, alloc: Global, f: u32) -> Result<Vec<u32>, NoMemory>
        ensures value { IfOk result
            (λ vs. vs.items ≡ entry_set self.now (slice_get self.now.graph.functions f)) }
    {
        match self.graph.functions().get(f as usize) {
            Some(GraphFunction::Core { first, .. }) => self.variables(alloc, *first),
            Some(GraphFunction::Init { .. }) => Ok(Vec::new(alloc)),
            None => Ok(Vec::new(alloc)),
        }
    }
}
