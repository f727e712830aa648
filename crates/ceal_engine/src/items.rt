// The flat items of nodes.

ghost use Rattle.std.specs.Prelude.{◌≡◌, ◌++◌, IfOk, OnOk};
ghost use Rattle.ceal_trace.specs.Items.{forest_of, item_of, ticks};
ghost use Rattle.ceal_trace.specs.Nodes.{seen};

use ceal_base::forest::{Forest, Item};
use ceal_base::no_memory::NoMemory;
use ceal_trace::node::Seen;
use ceal_trace::trace::Trace;
use std::alloc::Global;

/// Adds the item of a node; the root has none.
fn push_node(items: &mut Vec<Item>, node: Seen<'_>) -> Result<(), NoMemory>
    ensures { OnOk result (items.new.items ≡ items.old.items ++ item_of (seen node.entry)) }
{
    match node {
        Seen::Root => Ok(()),
        Seen::Alloc { block, key } => {
            let key = key.copy()?;
            items.push(Item::Alloc { block, key })?;
            Ok(())
        }
        Seen::Write { place, value } => {
            items.push(Item::Write { place, value })?;
            Ok(())
        }
        Seen::Read {
            place,
            value,
            unit,
            var,
            args,
        } => {
            let args = args.copy()?;
            items.push(Item::Read {
                place,
                value,
                unit,
                var,
                args,
            })?;
            Ok(())
        }
        Seen::End { .. } => {
            items.push(Item::End)?;
            Ok(())
        }
    }
}

/// Adds `steps` steps.
fn push_steps(items: &mut Vec<Item>, steps: u32) -> Result<(), NoMemory>
    ensures { OnOk result (items.new.items ≡ items.old.items ++ ticks steps) }
{
    for _step in 0..steps {
        items.push(Item::Step)?;
    }
    Ok(())
}

/// The flat items of the nodes of a trace. No trace has 2^32 - 1 nodes.
pub fn flat_items(alloc: Global, trace: &Trace) -> Result<Forest, NoMemory>
    ensures { IfOk result (λ forest. forest ≡ forest_of trace.now.nodes) }
{
    let mut items = Vec::new(alloc);
    let mut next = Some(trace.root());
    for _node in 0..u32::MAX {
        match next {
            None => return Ok(Forest::new(items)),
            Some(stamp) => {
                push_node(&mut items, trace.node(stamp))?;
                push_steps(&mut items, trace.steps_at(stamp))?;
                next = trace.order().next(stamp);
            }
        }
    }
    Err(NoMemory)
}
