// The body of a unit, by an explicit stack of the blocks whose code is still to come.

ghost use Rattle.std.specs.Prelude.{◌≡◌, ◌<◌, ◌+◌, ◌++◌, ◌∷◌, Some, length, reverse, IfOk, OnOk};
ghost use Rattle.ceal_flow.specs.declared.block.GraphBlock.TheVariants.{Test};
ghost use Rattle.ceal_norm.specs.Body.{onward, with_second, with_second_at, with_second_here, whole_body, next_pending};
ghost use Rattle.ceal_norm.specs.Body.{parts, AllBelow};
ghost use Rattle.ceal_norm.specs.Table.{JumpsBelow};
ghost use Rattle.ceal_norm.specs.Units.{stmt_code, block_code, tree};
ghost use Rattle.ceal_code.specs.declared.command.Cmd.TheVariants as Cmd;

use crate::commands::{command_of, tail};
use crate::entries::ends_unit;
use crate::expressions::expr_of;
use crate::number::number;
use crate::plan::Plan;
use ceal_base::count::one_more;
use ceal_base::no_memory::NoMemory;
use ceal_base::typed::{TypedExpr, TypedStmt};
use ceal_code::command::Cmd;
use ceal_flow::block::GraphBlock;
use std::alloc::Global;

/// A block whose code is still to come. Where it is the second part of an `if`, `test` is the index of that.
#[derive(Clone, Copy)]
pub struct Pending {
    pub block: u32,
    pub test: Option<u32>,
}

/// A body while it is written: the commands so far, and the blocks whose code is still to come, the next one last.
#[derive(Drop)]
struct Writing {
    alloc: Global,
    body: Vec<Cmd>,
    pending: Vec<Pending>,
}

/// Puts the block that follows, if the path continues.
fn put_following(pending: &mut Vec<Pending>, on: bool, next: u32) -> Result<(), NoMemory>
    ensures { OnOk result
        (reverse pending.new.items ≡ next_pending on next ++ reverse pending.old.items) }
{
    if on {
        pending.push(Pending {
            block: next,
            test: None,
        })?;
    }
    Ok(())
}

/// Adds the command of a statement, and puts what follows it.
#[tactic(auto, using(crate::proofs::Equations::BodySteps::act_steps))]
fn put_act(plan: &Plan<'_>, out: &mut Writing, s: &TypedStmt, next: u32) -> Result<(), NoMemory>
    requires there { next < length plan.now.graph.blocks }
    requires below { AllBelow (length plan.now.graph.blocks) (reverse out.old.pending.items) }
    ensures same { OnOk result
        (whole_body plan.now out.new.body.items (reverse out.new.pending.items)
        ≡ whole_body plan.now
        (out.old.body.items
        ++ stmt_code plan.now (onward plan.now) next (length out.old.body.items) s.now)
        (reverse out.old.pending.items)) }
    ensures below { OnOk result
        (AllBelow (length plan.now.graph.blocks) (reverse out.new.pending.items)) }
    ensures longer { OnOk result (length out.new.body.items ≡ length out.old.body.items + 1) }
{
    let command = command_of(out.alloc, plan, next, s)?;
    out.body.push(command)?;
    put_following(&mut out.pending, !ends_unit(s), next)?;
    Ok(())
}

/// Puts both parts of an `if` that is at an index.
#[tactic(auto, using(crate::proofs::Equations::BodySteps::push_steps))]
fn put_parts(pending: &mut Vec<Pending>, at: u32, first: u32, second: u32) -> Result<(), NoMemory>
    ensures { OnOk result
        (reverse pending.new.items ≡ parts at first second ++ reverse pending.old.items) }
{
    pending.push(Pending {
        block: second,
        test: Some(at),
    })?;
    pending.push(Pending {
        block: first,
        test: None,
    })?;
    Ok(())
}

/// Adds an `if`, and puts its two parts, of which the second has its index only when it begins.
#[tactic(auto, using(crate::proofs::Equations::BodySteps::test_steps))]
fn put_test(
    plan: &Plan<'_>,
    out: &mut Writing,
    test: &TypedExpr,
    first: u32,
    second: u32,
) -> Result<(), NoMemory>
    requires there { (first < length plan.now.graph.blocks)
        × (second < length plan.now.graph.blocks) }
    requires below { AllBelow (length plan.now.graph.blocks) (reverse out.old.pending.items) }
    ensures same { OnOk result
        (whole_body plan.now out.new.body.items (reverse out.new.pending.items)
        ≡ whole_body plan.now
        (out.old.body.items
        ++ block_code plan.now (onward plan.now) (length out.old.body.items)
        (Some (Test test.now first second)))
        (reverse out.old.pending.items)) }
    ensures below { OnOk result
        (AllBelow (length plan.now.graph.blocks) (reverse out.new.pending.items)) }
    ensures longer { OnOk result (length out.new.body.items ≡ length out.old.body.items + 1) }
{
    let test = expr_of(out.alloc, test)?;
    let at = number(out.body.len())?;
    let yes = one_more(at)?;
    out.body.push(Cmd::If { test, yes, no: 0 })?;
    put_parts(&mut out.pending, at, first, second)?;
    Ok(())
}

/// Adds the command of a block, and puts what follows it.
fn put_block(plan: &Plan<'_>, out: &mut Writing, block: &GraphBlock) -> Result<(), NoMemory>
    requires jumps { JumpsBelow (length plan.now.graph.blocks) block.now }
    requires below { AllBelow (length plan.now.graph.blocks) (reverse out.old.pending.items) }
    ensures same { OnOk result
        (whole_body plan.now out.new.body.items (reverse out.new.pending.items)
        ≡ whole_body plan.now
        (out.old.body.items
        ++ block_code plan.now (onward plan.now) (length out.old.body.items) (Some block.now))
        (reverse out.old.pending.items)) }
    ensures below { OnOk result
        (AllBelow (length plan.now.graph.blocks) (reverse out.new.pending.items)) }
    ensures longer { OnOk result (length out.new.body.items ≡ length out.old.body.items + 1) }
{
    match block {
        GraphBlock::Test { test, yes, no } => {
            put_test(plan, out, test, *yes, *no)?;
            Ok(())
        }
        GraphBlock::Act { stmt, next } => {
            put_act(plan, out, stmt, *next)?;
            Ok(())
        }
        GraphBlock::Done => {
            out.body.push(Cmd::Done)?;
            Ok(())
        }
        GraphBlock::Unreached => {
            out.body.push(Cmd::Done)?;
            Ok(())
        }
    }
}

/// Adds the first command of the tree of a block, and puts what follows it.
fn put_tree(plan: &Plan<'_>, out: &mut Writing, b: u32) -> Result<(), NoMemory>
    requires there { b < length plan.now.graph.blocks }
    requires below { AllBelow (length plan.now.graph.blocks) (reverse out.old.pending.items) }
    ensures same { OnOk result
        (whole_body plan.now out.new.body.items (reverse out.new.pending.items)
        ≡ whole_body plan.now
        (out.old.body.items
        ++ tree plan.now (length plan.now.graph.blocks) b (length out.old.body.items))
        (reverse out.old.pending.items)) }
    ensures below { OnOk result
        (AllBelow (length plan.now.graph.blocks) (reverse out.new.pending.items)) }
    ensures longer { OnOk result (length out.new.body.items ≡ length out.old.body.items + 1) }
{
    put_block(plan, out, plan.block(b))?;
    Ok(())
}

/// Adds the first command of what is where a jump leads to a block, and puts what follows it.
#[tactic(auto, using(crate::proofs::Equations::BodySteps::jump_steps))]
fn put_jump(plan: &Plan<'_>, out: &mut Writing, b: u32) -> Result<(), NoMemory>
    requires there { b < length plan.now.graph.blocks }
    requires below { AllBelow (length plan.now.graph.blocks) (reverse out.old.pending.items) }
    ensures same { OnOk result
        (whole_body plan.now out.new.body.items (reverse out.new.pending.items)
        ≡ whole_body plan.now (out.old.body.items ++ onward plan.now b (length out.old.body.items))
        (reverse out.old.pending.items)) }
    ensures below { OnOk result
        (AllBelow (length plan.now.graph.blocks) (reverse out.new.pending.items)) }
    ensures longer { OnOk result (length out.new.body.items ≡ length out.old.body.items + 1) }
{
    if plan.is_entry(b) {
        let command = tail(out.alloc, plan, b)?;
        out.body.push(command)?;
        Ok(())
    } else {
        put_tree(plan, out, b)?;
        Ok(())
    }
}

fn set_second(command: &mut Cmd, i: u32)
    ensures { command.new ≡ with_second command.old i }
{
    if let Cmd::If { no, .. } = command {
        *no = i;
    }
}

fn patch(body: &mut Vec<Cmd>, at: u32, i: u32)
    ensures { body.new.items ≡ with_second_at body.old.items at i }
{
    let at = at as usize;
    if at < body.len() {
        set_second(&mut body[at], i);
    }
}

/// Gives the `if` whose second part begins here its index.
fn begin(body: &mut Vec<Cmd>, test: Option<u32>) -> Result<(), NoMemory>
    ensures same { OnOk result (body.new.items ≡ with_second_here body.old.items test) }
{
    if let Some(at) = test {
        let i = number(body.len())?;
        patch(body, at, i);
    }
    Ok(())
}

#[tactic(auto, using(crate::proofs::Equations::BodySteps::pending_steps))]
fn put_pending(plan: &Plan<'_>, out: &mut Writing, next: Pending) -> Result<(), NoMemory>
    requires below { AllBelow (length plan.now.graph.blocks)
        (next ∷ reverse out.old.pending.items) }
    ensures same { OnOk result
        (whole_body plan.now out.new.body.items (reverse out.new.pending.items)
        ≡ whole_body plan.now out.old.body.items (next ∷ reverse out.old.pending.items)) }
    ensures below { OnOk result
        (AllBelow (length plan.now.graph.blocks) (reverse out.new.pending.items)) }
    ensures longer { OnOk result (length out.new.body.items ≡ length out.old.body.items + 1) }
{
    begin(&mut out.body, next.test)?;
    put_jump(plan, out, next.block)?;
    Ok(())
}

/// The body of the unit that begins at a block.
pub fn body_of(alloc: Global, plan: &Plan<'_>, b: u32) -> Result<Vec<Cmd>, NoMemory>
    requires there { b < length plan.now.graph.blocks }
    ensures value { IfOk result
        (λ body. body.items ≡ tree plan.now (length plan.now.graph.blocks) b 0) }
{
    let body = Vec::new(alloc);
    let pending = Vec::new(alloc);
    let mut out = Writing {
        alloc,
        body,
        pending,
    };
    put_tree(plan, &mut out, b)?;
    while let Some(next) = out.pending.pop() {
        put_pending(plan, &mut out, next)?;
    }
    Ok(out.body)
}
