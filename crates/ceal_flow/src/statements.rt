// The blocks of statements. The functions recurse as deep as statements are nested.

ghost use Rattle.std.specs.Prelude.{◌≡◌, ◌≤◌, ◌+◌, ◌∷◌, [], ◌++◌, true, length, replicate, IfOk, OnOk};
ghost use Rattle.ceal_flow.specs.Blocks.{size, sizes, may_continue, all_may_continue, blocks_of, all_blocks};
ghost use Rattle.ceal_flow.specs.declared.block.GraphBlock.TheVariants.{Test, Act, Unreached};

use crate::block::GraphBlock;
use crate::exits::Exits;
use crate::limit::BLOCK_LIMIT;
use crate::size::{entry_of, size_of, sizes_of};
use ceal_base::copies::{copied_expr, copied_stmt};
use ceal_base::no_memory::NoMemory;
use ceal_base::typed::{TypedExpr, TypedStmt};
use std::alloc::Global;

/// The number of the next block.
pub fn next_number(blocks: &Vec<GraphBlock>) -> u32
    requires { length blocks.now.items ≤ BLOCK_LIMIT }
    ensures value { result ≡ length blocks.now.items }
{
    blocks.len() as u32
}

/// The block of a statement that has one; some path continues after it.
fn put_act(
    alloc: Global,
    blocks: &mut Vec<GraphBlock>,
    s: &TypedStmt,
    next: u32,
) -> Result<bool, NoMemory>
    ensures blocks { OnOk result (blocks.new.items ≡ blocks.old.items ++ Act s.now next ∷ []) }
    ensures on { IfOk result (λ on. on ≡ true) }
{
    let stmt = copied_stmt(alloc, s)?;
    blocks.push(GraphBlock::Act { stmt, next })?;
    Ok(true)
}

fn put_test(
    alloc: Global,
    blocks: &mut Vec<GraphBlock>,
    test: &TypedExpr,
    yes: u32,
    no: u32,
) -> Result<(), NoMemory>
    ensures { OnOk result (blocks.new.items ≡ blocks.old.items ++ Test test.now yes no ∷ []) }
{
    let test = copied_expr(alloc, test)?;
    blocks.push(GraphBlock::Test { test, yes, no })?;
    Ok(())
}

/// Leaves out `count` blocks.
fn leave_out(blocks: &mut Vec<GraphBlock>, count: u32) -> Result<(), NoMemory>
    ensures { OnOk result (blocks.new.items ≡ blocks.old.items ++ replicate count Unreached) }
{
    for _ in 0..count {
        blocks.push(GraphBlock::Unreached)?;
    }
    Ok(())
}

/// Adds the blocks of a statement, which is followed by a jump to `after`, and says whether some path continues after
/// it.
#[cycle(put)]
#[tactic(auto, using(crate::proofs::BlockSteps::put_steps))]
fn put_stmt(
    alloc: Global,
    blocks: &mut Vec<GraphBlock>,
    s: &TypedStmt,
    after: u32,
    exits: Exits,
) -> Result<bool, NoMemory>
    requires room { length blocks.old.items + size s.now ≤ BLOCK_LIMIT }
    ensures blocks { OnOk result
        (blocks.new.items ≡ blocks.old.items
        ++ blocks_of s.now (length blocks.old.items) after exits) }
    ensures on { IfOk result (λ on. on ≡ may_continue s.now) }
{
    match s {
        TypedStmt::If(_, test, first, second) => {
            let first_at = next_number(blocks) + 1;
            let second_at = first_at + sizes_of(first.items());
            let yes = entry_of(first.items(), first_at, after, exits);
            let no = entry_of(second.items(), second_at, after, exits);
            put_test(alloc, blocks, test, yes, no)?;
            let first_on = put_stmts(alloc, blocks, first.items(), after, exits)?;
            let second_on = put_stmts(alloc, blocks, second.items(), after, exits)?;
            Ok(first_on | second_on)
        }
        TypedStmt::While(_, test, body) => {
            let at = next_number(blocks);
            let inside = exits.in_loop(at, after);
            let yes = entry_of(body.items(), at + 1, at, inside);
            put_test(alloc, blocks, test, yes, after)?;
            put_stmts(alloc, blocks, body.items(), at, inside)?;
            Ok(true)
        }
        TypedStmt::Return(_) => Ok(false),
        TypedStmt::Break(_) => Ok(false),
        TypedStmt::Continue(_) => Ok(false),
        TypedStmt::Declare(..) => put_act(alloc, blocks, s, after),
        TypedStmt::Assign(..) => put_act(alloc, blocks, s, after),
        TypedStmt::SetField(..) => put_act(alloc, blocks, s, after),
        TypedStmt::Write(..) => put_act(alloc, blocks, s, after),
        TypedStmt::Call(..) => put_act(alloc, blocks, s, after),
    }
}

/// Adds the blocks of statements, which are followed by a jump to `after`, and says whether some path continues after
/// them. What no path leads to is left out.
#[cycle(put)]
#[tactic(auto, using(crate::proofs::BlockSteps::put_steps))]
pub fn put_stmts(
    alloc: Global,
    blocks: &mut Vec<GraphBlock>,
    stmts: &[TypedStmt],
    after: u32,
    exits: Exits,
) -> Result<bool, NoMemory>
    requires room { length blocks.old.items + sizes stmts.now ≤ BLOCK_LIMIT }
    ensures blocks { OnOk result
        (blocks.new.items ≡ blocks.old.items
        ++ all_blocks stmts.now (length blocks.old.items) after exits) }
    ensures on { IfOk result (λ on. on ≡ all_may_continue stmts.now) }
{
    for (i, s) in stmts.iter().enumerate() {
        let rest = &stmts[i + 1..];
        let behind = next_number(blocks) + size_of(s);
        let next = entry_of(rest, behind, after, exits);
        if !put_stmt(alloc, blocks, s, next, exits)? {
            leave_out(blocks, sizes_of(rest))?;
            return Ok(false);
        }
    }
    Ok(true)
}
