// A whole program as a graph.

ghost use Rattle.std.specs.Prelude.{◌≡◌, ◌∷◌, [], ◌++◌, OnOk, OnErr};

use crate::block::GraphBlock;
use crate::function::GraphFunction;
use ceal_base::no_memory::NoMemory;
use ceal_base::typed::Structs;
use std::marker::Model;

/// Functions in text order, and blocks that are numbered over all core functions: the statements of each in text order,
/// nested ones included, and then its `Done`.
#[derive(Drop)]
pub struct Graph {
    pub structs: Structs,
    functions: Vec<GraphFunction>,
    blocks: Vec<GraphBlock>,
}

impl Model for Graph {
    ghost use Rattle.std.specs.Coded.{codes};
    ghost use Rattle.ceal_base.specs.contracts.typed.TypedExpr as expr;
    ghost use Rattle.ceal_base.specs.contracts.typed.TypedStmt as stmt;
    ghost use Rattle.ceal_flow.specs.Program.{Graph as Parts};

    ghost Value = { Parts };

    ghost coded = { Prim.hlevel (codes, expr.the_row.coded, stmt.the_row.coded) };

    ghost view = { λ g.
        record { structs = g.structs; functions = g.functions.items; blocks = g.blocks.items } };
}

impl Graph {
    /// The graph of these structs, functions and blocks.
    pub fn new(structs: Structs, functions: Vec<GraphFunction>, blocks: Vec<GraphBlock>) -> Graph
        ensures value { result
            ≡ record { structs = structs; functions = functions.items; blocks = blocks.items } }
    {
        Graph {
            structs,
            functions,
            blocks,
        }
    }

    /// Puts a function at the end, whose number is the next one.
    pub fn push_functions(&mut self, item: GraphFunction) -> Result<(), NoMemory>
        ensures ok { OnOk result
            (self.new ≡ record self.old { functions = self.old.functions ++ item ∷ [] }) }
        ensures err { OnErr result (self.new ≡ self.old) }
    {
        self.functions.push(item)?;
        Ok(())
    }

    /// The functions, in the order of their numbers.
    pub fn functions(&self) -> &[GraphFunction]
        ensures value { result.now ≡ self.now.functions }
    {
        self.functions.as_slice()
    }

    /// Puts a block at the end, whose number is the next one.
    pub fn push_blocks(&mut self, item: GraphBlock) -> Result<(), NoMemory>
        ensures ok { OnOk result
            (self.new ≡ record self.old { blocks = self.old.blocks ++ item ∷ [] }) }
        ensures err { OnErr result (self.new ≡ self.old) }
    {
        self.blocks.push(item)?;
        Ok(())
    }

    /// The blocks, in the order of their numbers.
    pub fn blocks(&self) -> &[GraphBlock]
        ensures value { result.now ≡ self.now.blocks }
    {
        self.blocks.as_slice()
    }
}
