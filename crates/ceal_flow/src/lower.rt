// A program into its graph.

ghost use Rattle.std.specs.Prelude.{◌≡◌, ◌≤◌, ◌+◌, ◌++◌, Ok as OkOf, Err as ErrOf, length, IsOk, IfOk, OnOk, IfErr};
ghost use Rattle.ceal_base.specs.Answers.{Gives};
ghost use Rattle.ceal_base.specs.Usage.{KeepsUsage};
ghost use Rattle.ceal_flow.specs.Blocks.{sizes};
ghost use Rattle.ceal_flow.specs.Laws.{RunsAs};
ghost use Rattle.ceal_flow.specs.Lowering.{BLOCKS, function_size, function_sizes, core_at, function_at, core_blocks};
ghost use Rattle.ceal_flow.specs.Lowering.{blocks_at, functions_from, blocks_from, graph_of, lowered};

use crate::block::GraphBlock;
use crate::exits::Exits;
use crate::function::GraphFunction;
use crate::graph::Graph;
use crate::limit::{BLOCK_LIMIT, count_functions};
use crate::size::{entry_of, sizes_of};
use crate::statements::{next_number, put_stmts};
use ceal_base::copies::{copied_function, copied_structs};
use ceal_base::fault::{Fault, FaultCode, FrontError};
use ceal_base::no_memory::NoMemory;
use ceal_base::typed::{Typed, TypedFunction};
use std::alloc::Global;

/// Adds the blocks of a core function, and gives the function.
fn put_core(
    alloc: Global,
    blocks: &mut Vec<GraphBlock>,
    function: &TypedFunction,
) -> Result<GraphFunction, NoMemory>
    requires room { length blocks.old.items + sizes function.now.body + 1 ≤ BLOCK_LIMIT }
    ensures blocks { OnOk result
        (blocks.new.items ≡ blocks.old.items
        ++ core_blocks function.now.body (length blocks.old.items)) }
    ensures function { IfOk result (λ f. f ≡ core_at function.now (length blocks.old.items)) }
{
    let body = function.body.items();
    let at = next_number(blocks);
    let done = at + sizes_of(body);
    let exits = Exits::no_loop(done);
    let first = entry_of(body, at, done, exits);
    put_stmts(alloc, blocks, body, done, exits)?;
    blocks.push(GraphBlock::Done)?;
    let name = function.name.text.copy()?;
    let kinds = function.kinds.copy()?;
    Ok(GraphFunction::Core {
        name,
        first,
        params: function.params,
        kinds,
    })
}

/// Adds the blocks of a function, and gives the function.
fn put_function(
    alloc: Global,
    blocks: &mut Vec<GraphBlock>,
    function: &TypedFunction,
) -> Result<GraphFunction, NoMemory>
    requires room { length blocks.old.items + function_size function.now ≤ BLOCK_LIMIT }
    ensures blocks { OnOk result
        (blocks.new.items ≡ blocks.old.items ++ blocks_at function.now (length blocks.old.items)) }
    ensures function { IfOk result (λ f. f ≡ function_at function.now (length blocks.old.items)) }
{
    match function.initialiser {
        None => {
            let core = put_core(alloc, blocks, function)?;
            Ok(core)
        }
        Some(_) => {
            let function = copied_function(alloc, function)?;
            Ok(GraphFunction::Init { function })
        }
    }
}

/// Adds the blocks of functions, and gives the functions.
fn put_functions(
    alloc: Global,
    blocks: &mut Vec<GraphBlock>,
    functions: &[TypedFunction],
) -> Result<Vec<GraphFunction>, NoMemory>
    requires room { length blocks.old.items + function_sizes functions.now ≤ BLOCK_LIMIT }
    ensures blocks { OnOk result
        (blocks.new.items ≡ blocks.old.items
        ++ blocks_from (length blocks.old.items) functions.now) }
    ensures functions { IfOk result
        (λ fs. fs.items ≡ functions_from (length blocks.old.items) functions.now) }
{
    let mut put = Vec::new(alloc);
    for function in functions {
        put.push(put_function(alloc, blocks, function)?)?;
    }
    Ok(put)
}

/// The graph of a program that keeps the limit. It recurses as deep as statements and expressions are nested.
pub fn graph(alloc: Global, program: &Typed) -> Result<Graph, NoMemory>
    requires limit { function_sizes program.now.functions ≤ BLOCKS }
    ensures value { IfOk result (λ g. g ≡ graph_of program.now) }
    ensures few { IfOk result (λ g. length g.blocks ≤ BLOCKS) }
    ensures same_run { KeepsUsage program.now → IfOk result (λ g. RunsAs g program.now) }
{
    let mut blocks = Vec::new(alloc);
    let functions = put_functions(alloc, &mut blocks, program.functions.items())?;
    let structs = copied_structs(alloc, program.structs.items())?;
    Ok(Graph::new(structs, functions, blocks))
}

/// Whether the graph of a program keeps the limit, without making it; or L1 at the first block past the limit, as
/// `lower` tells it.
pub fn check_limit(program: &Typed) -> Result<(), Fault>
    ensures within { IsOk result → lowered program.now ≡ OkOf (graph_of program.now) }
    ensures few { IsOk result → function_sizes program.now.functions ≤ BLOCKS }
    ensures past { IfErr result (λ fault. lowered program.now ≡ ErrOf fault) }
{
    match count_functions(program.functions.items()) {
        Ok(_) => Ok(()),
        Err(span) => Err(Fault {
            code: FaultCode::L1,
            span,
        }),
    }
}

/// The graph of a program; or L1 at the first block past the limit, which is a statement's first token, or the closing
/// brace of a function whose end it is.
pub fn lower(alloc: Global, program: &Typed) -> Result<Graph, FrontError>
    ensures first { Gives result (lowered program.now) }
    ensures few { IfOk result (λ g. length g.blocks ≤ BLOCKS) }
    ensures same_run { KeepsUsage program.now → IfOk result (λ g. RunsAs g program.now) }
{
    match check_limit(program) {
        Ok(()) => match graph(alloc, program) {
            Ok(graph) => Ok(graph),
            Err(NoMemory) => Err(FrontError::Memory),
        },
        Err(fault) => Err(FrontError::Fault(fault)),
    }
}
