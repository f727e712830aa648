// The entries of a graph: the blocks at which a unit begins.

ghost use Rattle.std.specs.Prelude.{◌≡◌, ◌<◌, ◌==◌, ◌||◌, ◌&&◌, ◌+◌, ◌++◌, [], ◌∷◌, ℕ, false, length, nat_le};
ghost use Rattle.std.specs.Prelude.{replicate, if◌then◌else◌, IfOk, OnOk};
ghost use Rattle.ceal_flow.specs.Laws.{firsts};
ghost use Rattle.ceal_flow.specs.Paths.{jumps};
ghost use Rattle.ceal_flow.specs.Sets.{is_in};
ghost use Rattle.ceal_norm.specs.Entries.{is_read, has_closure, continuations, all_continuations};
ghost use Rattle.ceal_norm.specs.Entries.{all_jumps, count, is_entry};
ghost use Rattle.ceal_norm.specs.Table.{is_marked, table};

use crate::number::one_more;
use ceal_base::no_memory::NoMemory;
use ceal_base::typed::{TypedStmt, TypedValue};
use ceal_flow::block::GraphBlock;
use ceal_flow::function::GraphFunction;
use ceal_flow::graph::Graph;
use std::alloc::Global;

/// What is looked up of a block: whether it is an entry, and the number of entries before it.
#[derive(Clone, Copy)]
pub struct Entry {
    pub is_entry: bool,
    pub unit: u32,
}

fn gives_read(value: &TypedValue) -> bool
    ensures { result ≡ is_read value.now }
{
    match value {
        TypedValue::Plain(_) => false,
        TypedValue::Read(..) => true,
        TypedValue::Alloc { .. } => false,
        TypedValue::ModrefInt(_) => false,
        TypedValue::Modref(..) => false,
    }
}

/// Whether what comes after the statement is a closure.
pub fn ends_unit(s: &TypedStmt) -> bool
    ensures value { result ≡ has_closure s.now }
{
    match s {
        TypedStmt::Declare(_, _, _, value) => gives_read(value),
        TypedStmt::Assign(_, _, value) => gives_read(value),
        TypedStmt::SetField(..) => false,
        TypedStmt::Write(..) => false,
        TypedStmt::Call(..) => true,
        TypedStmt::If(..) => false,
        TypedStmt::While(..) => false,
        TypedStmt::Return(..) => false,
        TypedStmt::Break(..) => false,
        TypedStmt::Continue(..) => false,
    }
}

fn first_blocks(alloc: Global, functions: &[GraphFunction]) -> Result<Vec<u32>, NoMemory>
    ensures { IfOk result (λ bs. bs.items ≡ firsts functions.now) }
{
    let mut out = Vec::new(alloc);
    let mut functions = functions;
    while let Some((function, more)) = functions.split_first() {
        if let GraphFunction::Core { first, .. } = function {
            out.push(*first)?;
        }
        functions = more;
    }
    Ok(out)
}

fn put_continuations(out: &mut Vec<u32>, block: &GraphBlock) -> Result<(), NoMemory>
    ensures { OnOk result (out.new.items ≡ out.old.items ++ continuations block.now) }
{
    if let GraphBlock::Act { stmt, next } = block {
        if ends_unit(stmt) {
            out.push(*next)?;
        }
    }
    Ok(())
}

#[tactic(auto, using(crate::proofs::Equations::EntrySteps::continuation_steps))]
fn continuations_of(alloc: Global, blocks: &[GraphBlock]) -> Result<Vec<u32>, NoMemory>
    ensures { IfOk result (λ bs. bs.items ≡ all_continuations blocks.now) }
{
    let mut out = Vec::new(alloc);
    let mut blocks = blocks;
    while let Some((block, more)) = blocks.split_first() {
        put_continuations(&mut out, block)?;
        blocks = more;
    }
    Ok(out)
}

fn put_jumps(out: &mut Vec<u32>, block: &GraphBlock) -> Result<(), NoMemory>
    ensures { OnOk result (out.new.items ≡ out.old.items ++ jumps block.now) }
{
    match block {
        GraphBlock::Test { yes, no, .. } => {
            out.push(*yes)?;
            out.push(*no)?;
            Ok(())
        }
        GraphBlock::Act { next, .. } => {
            out.push(*next)?;
            Ok(())
        }
        GraphBlock::Done => Ok(()),
        GraphBlock::Unreached => Ok(()),
    }
}

#[tactic(auto, using(crate::proofs::Equations::EntrySteps::jump_steps))]
fn targets(alloc: Global, blocks: &[GraphBlock]) -> Result<Vec<u32>, NoMemory>
    ensures { IfOk result (λ bs. bs.items ≡ all_jumps blocks.now) }
{
    let mut out = Vec::new(alloc);
    let mut blocks = blocks;
    while let Some((block, more)) = blocks.split_first() {
        put_jumps(&mut out, block)?;
        blocks = more;
    }
    Ok(out)
}

fn no_marks(alloc: Global, n: usize) -> Result<Vec<bool>, NoMemory>
    ensures { IfOk result (λ marks. marks.items ≡ replicate n false) }
{
    let mut marks = Vec::new(alloc);
    for i in 0..n {
        marks.push(false)?;
    }
    Ok(marks)
}

fn has_mark(marks: &[bool], b: u32) -> bool
    ensures { result ≡ is_marked marks.now b }
{
    marks.get(b as usize).copied().unwrap_or(false)
}

fn mark(marks: &mut Vec<bool>, b: u32)
    ensures length { length marks.new.items ≡ length marks.old.items }
    ensures marked { (c : ℕ) → c < length marks.old.items
        → is_marked marks.new.items c ≡ (b == c || is_marked marks.old.items c) }
{
    let b = b as usize;
    if b < marks.len() {
        marks[b] = true;
    }
}

fn mark_all(marks: &mut Vec<bool>, bs: &[u32])
    ensures length { length marks.new.items ≡ length marks.old.items }
    ensures marked { (c : ℕ) → c < length marks.old.items
        → is_marked marks.new.items c ≡ (is_in c bs.now || is_marked marks.old.items c) }
{
    for b in bs {
        mark(marks, *b);
    }
}

/// Marks a number in the second list where it is marked in the first, and else in the first.
fn mark_again(once: &mut Vec<bool>, marks: &mut Vec<bool>, b: u32)
    ensures length { length once.new.items ≡ length once.old.items }
    ensures length_two { length marks.new.items ≡ length marks.old.items }
    ensures once { (c : ℕ) → c < length once.old.items
        → is_marked once.new.items c ≡ (b == c || is_marked once.old.items c) }
    ensures marks { (c : ℕ) → c < length marks.old.items
        → is_marked marks.new.items c
        ≡ ((b == c && is_marked once.old.items b) || is_marked marks.old.items c) }
{
    if has_mark(once.as_slice(), b) {
        mark(marks, b);
    } else {
        mark(once, b);
    }
}

/// Marks the numbers that occur twice among these.
fn mark_repeated(once: &mut Vec<bool>, marks: &mut Vec<bool>, bs: &[u32])
    requires none { once.old.items ≡ replicate (length marks.old.items) false }
    ensures length { length marks.new.items ≡ length marks.old.items }
    ensures marked { (c : ℕ) → c < length marks.old.items
        → is_marked marks.new.items c ≡ (nat_le 2 (count c bs.now) || is_marked marks.old.items c) }
{
    for b in bs {
        mark_again(once, marks, *b);
    }
}

/// Marks the entries.
fn marked_entries(alloc: Global, graph: &Graph) -> Result<Vec<bool>, NoMemory>
    ensures length { IfOk result (λ marks. length marks.items ≡ length graph.now.blocks) }
    ensures marked { IfOk result
        (λ marks. (b : ℕ) → b < length graph.now.blocks
        → is_marked marks.items b ≡ is_entry graph.now b) }
{
    let blocks = graph.blocks();
    let mut once = no_marks(alloc, blocks.len())?;
    let mut marks = no_marks(alloc, blocks.len())?;
    let firsts = first_blocks(alloc, graph.functions())?;
    mark_all(&mut marks, firsts.as_slice());
    let continuations = continuations_of(alloc, blocks)?;
    mark_all(&mut marks, continuations.as_slice());
    let targets = targets(alloc, blocks)?;
    mark_repeated(&mut once, &mut marks, targets.as_slice());
    Ok(marks)
}

/// The table of the entries of a graph.
#[tactic(auto, using(crate::proofs::Equations::EntrySteps::table_steps))]
pub fn entry_table(alloc: Global, graph: &Graph) -> Result<Vec<Entry>, NoMemory>
    ensures value { IfOk result
        (λ entries. entries.items ≡ table graph.now (length graph.now.blocks)) }
{
    let marks = marked_entries(alloc, graph)?;
    let mut entries = Vec::new(alloc);
    let mut unit = 0;
    for b in 0..marks.len() {
        let is_entry = marks[b];
        entries.push(Entry { is_entry, unit })?;
        unit = one_more(unit, is_entry)?;
    }
    Ok(entries)
}
