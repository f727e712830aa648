// The variables that blocks use.

ghost use Rattle.std.specs.Prelude.{◌≡◌, ◌≤◌, ◌^◌, ◌++◌, ℕ, length, IfOk, OnOk};
ghost use Rattle.ceal_flow.specs.Live.{mentions, all_mentions, value_mentions, stmt_uses, uses};
ghost use Rattle.ceal_flow.specs.Sets.{is_in, IsAscending};
ghost use Rattle.ceal_live.specs.Rounds.{Begun};

use ceal_base::no_memory::NoMemory;
use ceal_base::typed::{TypedExpr, TypedForm, TypedStmt, TypedValue};
use ceal_flow::block::GraphBlock;
use ceal_flow::live_set::LiveSet;
use std::alloc::Global;

/// Adds the variables that an expression mentions. It recurses as deep as the expression is.
#[tactic(auto, using(crate::proofs::UseSteps::mention_steps))]
fn put_mentions(used: &mut Vec<u32>, e: &TypedExpr) -> Result<(), NoMemory>
    ensures { OnOk result (used.new.items ≡ used.old.items ++ mentions e.now) }
{
    match &e.form {
        TypedForm::Num(_) => Ok(()),
        TypedForm::Null => Ok(()),
        TypedForm::Var(n) => {
            used.push(*n)?;
            Ok(())
        }
        TypedForm::Own => Ok(()),
        TypedForm::Unary(_, a) => put_mentions(used, a.get()),
        TypedForm::Binary(_, _, a, b) => {
            put_mentions(used, a.get())?;
            put_mentions(used, b.get())?;
            Ok(())
        }
        TypedForm::Field(a, _, _) => put_mentions(used, a.get()),
        TypedForm::Address(a, _, _) => put_mentions(used, a.get()),
    }
}

#[tactic(auto, using(crate::proofs::UseSteps::all_steps))]
fn put_all_mentions(used: &mut Vec<u32>, es: &[TypedExpr]) -> Result<(), NoMemory>
    ensures { OnOk result (used.new.items ≡ used.old.items ++ all_mentions es.now) }
{
    for e in es {
        put_mentions(used, e)?;
    }
    Ok(())
}

#[tactic(auto, using(crate::proofs::UseSteps::joins))]
fn put_both_mentions(used: &mut Vec<u32>, a: &TypedExpr, b: &TypedExpr) -> Result<(), NoMemory>
    ensures { OnOk result (used.new.items ≡ used.old.items ++ (mentions a.now ++ mentions b.now)) }
{
    put_mentions(used, a)?;
    put_mentions(used, b)?;
    Ok(())
}

#[tactic(auto, using(crate::proofs::UseSteps::joins))]
fn put_value_mentions(used: &mut Vec<u32>, value: &TypedValue) -> Result<(), NoMemory>
    ensures { OnOk result (used.new.items ≡ used.old.items ++ value_mentions value.now) }
{
    match value {
        TypedValue::Plain(e) => put_mentions(used, e),
        TypedValue::Read(_, e) => put_mentions(used, e),
        TypedValue::Alloc { args, .. } => put_all_mentions(used, args.items()),
        TypedValue::ModrefInt(_) => Ok(()),
        TypedValue::Modref(_, _) => Ok(()),
    }
}

#[tactic(auto, using(crate::proofs::UseSteps::stmt_steps))]
fn put_stmt_uses(used: &mut Vec<u32>, s: &TypedStmt) -> Result<(), NoMemory>
    ensures { OnOk result (used.new.items ≡ used.old.items ++ stmt_uses s.now) }
{
    match s {
        TypedStmt::Declare(_, _, _, value) => put_value_mentions(used, value),
        TypedStmt::Assign(_, _, value) => put_value_mentions(used, value),
        TypedStmt::SetField(_, left, _, _, e) => put_both_mentions(used, left, e),
        TypedStmt::Write(_, place, e) => put_both_mentions(used, place, e),
        TypedStmt::Call(_, _, args) => put_all_mentions(used, args.items()),
        TypedStmt::If(_, test, _, _) => put_mentions(used, test),
        TypedStmt::While(_, test, _) => put_mentions(used, test),
        TypedStmt::Return(_) => Ok(()),
        TypedStmt::Break(_) => Ok(()),
        TypedStmt::Continue(_) => Ok(()),
    }
}

#[tactic(auto, using(crate::proofs::UseSteps::joins))]
fn put_uses(used: &mut Vec<u32>, block: &GraphBlock) -> Result<(), NoMemory>
    ensures { OnOk result (used.new.items ≡ used.old.items ++ uses block.now) }
{
    match block {
        GraphBlock::Done => Ok(()),
        GraphBlock::Test { test, .. } => put_mentions(used, test),
        GraphBlock::Act { stmt, .. } => put_stmt_uses(used, stmt),
        GraphBlock::Unreached => Ok(()),
    }
}

/// The set of these variables.
fn set_of(alloc: Global, used: &[u32]) -> Result<LiveSet, NoMemory>
    ensures all { IfOk result (λ set. (v : ℕ) → is_in v set ≡ is_in v used.now) }
    ensures ascending { IfOk result (λ set. IsAscending set) }
    ensures few { IfOk result (λ set. length set ≤ 2 ^ 32) }
{
    let mut set = LiveSet::empty(alloc);
    for v in used {
        set.insert(*v)?;
    }
    Ok(set)
}

/// The variables that each block uses.
pub fn used_sets(alloc: Global, blocks: &[GraphBlock]) -> Result<Vec<LiveSet>, NoMemory>
    ensures begun { IfOk result (λ sets. Begun blocks.now sets.items) }
{
    let mut sets = Vec::new(alloc);
    let mut used = Vec::new(alloc);
    for block in blocks {
        used.clear();
        put_uses(&mut used, block)?;
        sets.push(set_of(alloc, used.as_slice())?)?;
    }
    Ok(sets)
}
