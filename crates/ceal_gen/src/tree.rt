// The workload over a tree of operators.

ghost use Rattle.std.specs.Prelude.{◌≡◌, ◌<◌, ◌^◌, ◌++◌, IfOk};
ghost use Rattle.ceal_gen.specs.Draws.{state_after};
ghost use Rattle.ceal_gen.specs.TreeText.{node_count, leaf_line, operator_line, node_line, node_lines, tree_run};
ghost use Rattle.ceal_gen.specs.TreeText.{change_leaf, replace_left, tree_text};

use crate::draws::Draws;
use crate::names::put_node_name;
use crate::programs::eval_program;
use ceal_base::no_memory::NoMemory;
use ceal_base::text::Text;
use std::alloc::Global;

fn put_leaf(out: &mut Text, node: u64, value: u32) -> Result<(), NoMemory>
    ensures { IfOk result (λ _. out.new ≡ out.old ++ leaf_line node value) }
{
    out.append_str("new ")?;
    put_node_name(out, node)?;
    out.append_str(" node 0 ")?;
    out.append_number(value as usize)?;
    out.append_str(" null null\n")?;
    Ok(())
}

fn put_operator(out: &mut Text, node: u64, operator: u32) -> Result<(), NoMemory>
    requires { node < 2 ^ 32 }
    ensures { IfOk result (λ _. out.new ≡ out.old ++ operator_line node operator) }
{
    out.append_str("new ")?;
    put_node_name(out, node)?;
    out.append_str(" node ")?;
    out.append_number(operator as usize)?;
    out.append_str(" 0 ")?;
    put_node_name(out, 2 * node)?;
    out.append_str(" ")?;
    put_node_name(out, 2 * node + 1)?;
    out.append_str("\n")?;
    Ok(())
}

// Adds a node by its draw.
fn put_node(out: &mut Text, size: u32, node: u64, draw: u32) -> Result<(), NoMemory>
    ensures { IfOk result (λ _. out.new ≡ out.old ++ node_line size node draw) }
{
    if u64::from(size) < node {
        put_leaf(out, node, draw % 1000)
    } else {
        put_operator(out, node, 1 + draw % 3)
    }
}

// Adds the nodes from the last to the first.
fn put_nodes(out: &mut Text, size: u32, seed: u32) -> Result<(), NoMemory>
    ensures { IfOk result (λ _. out.new ≡ out.old ++ node_lines seed size (node_count size)) }
{
    let mut draws = Draws::from_seed(seed);
    let count = 2 * u64::from(size) + 1;
    for behind in 0..count {
        put_node(out, size, count - behind, draws.draw())?;
    }
    Ok(())
}

// Adds the first run.
#[tactic(auto, unfolding(crate::specs::TreeText::tree_run))]
fn put_run(out: &mut Text) -> Result<(), NoMemory>
    ensures { IfOk result (λ _. out.new ≡ out.old ++ tree_run) }
{
    out.append_str("mod r node n1\nmod o int 0\nrun eval r o\nget o\nsteps\nblocks\n")
}

// Adds the edit that gives the last leaf another value.
fn put_change(out: &mut Text, last: u64) -> Result<(), NoMemory>
    ensures { IfOk result (λ _. out.new ≡ out.old ++ change_leaf last) }
{
    out.append_str("set ")?;
    put_node_name(out, last)?;
    out.append_str(".leaf 7\npropagate\nget o\nwork\n")?;
    Ok(())
}

// Adds the edit that puts a leaf in place of the root's left part.
#[tactic(auto, unfolding(crate::specs::TreeText::replace_left))]
fn put_replace(out: &mut Text) -> Result<(), NoMemory>
    ensures { IfOk result (λ _. out.new ≡ out.old ++ replace_left) }
{
    out.append_str(
        "new y node 0 5 null null\nset n1.left y\npropagate\nget o\nwork\nsteps\nblocks\n",
    )
}

/// The text of the workload over a tree.
pub fn tree(alloc: Global, seed: u32, size: u32) -> Result<Text, NoMemory>
    ensures { IfOk result (λ text. text ≡ tree_text seed size) }
{
    let mut out = Text::empty(alloc);
    out.append_str(eval_program())?;
    out.append_str("%%\n")?;
    put_nodes(&mut out, size, seed)?;
    put_run(&mut out)?;
    put_change(&mut out, 2 * u64::from(size) + 1)?;
    put_replace(&mut out)?;
    Ok(out)
}
