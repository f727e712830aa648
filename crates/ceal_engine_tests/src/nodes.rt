// A call is run over nodes, from nothing. The answers were worked out by hand from the rules of the language.

ghost use Rattle.std.specs.Prelude.{◌≡◌, true};
ghost use Rattle.ceal_code.specs.Valid.{valid};

use crate::asserts::{equal, holds};
use crate::wanted::MAPPED;
use ceal_base::forest::Item;
use ceal_base::memory::Inputs;
use ceal_base::no_memory::NoMemory;
use ceal_code::code::Code;
use ceal_memo::seed::Seed;
use ceal_repair::first::first;
use ceal_repair::running::{Outcome, Running};
use ceal_samples::calls::fits;
use ceal_samples::inputs::{at, list};
use ceal_samples::programs::{MAP, compiled};
use ceal_samples::told::told_with_work;
use ceal_trace::node::Seen;
use ceal_trace::trace::Trace;
use std::alloc::Global;
use std::process::Abort;
use std::test::Fail;

/// A node as an item; the root is none.
fn item_of(node: Seen<'_>) -> Result<Option<Item>, NoMemory> {
    match node {
        Seen::Root => Ok(None),
        Seen::Alloc { block, key } => {
            let key = key.copy()?;
            Ok(Some(Item::Alloc { block, key }))
        }
        Seen::Write { place, value } => Ok(Some(Item::Write { place, value })),
        Seen::Read {
            place,
            value,
            unit,
            var,
            args,
        } => {
            let args = args.copy()?;
            Ok(Some(Item::Read {
                place,
                value,
                unit,
                var,
                args,
            }))
        }
        Seen::End { .. } => Ok(Some(Item::End)),
    }
}

fn add_node(items: &mut Vec<Item>, node: Seen<'_>, steps: u32) -> Result<(), NoMemory> {
    if let Some(item) = item_of(node)? {
        items.push(item)?;
    }
    for _step in 0..steps {
        items.push(Item::Step)?;
    }
    Ok(())
}

/// The items of the nodes of a trace.
fn items_of(alloc: Global, trace: &Trace) -> Result<Vec<Item>, NoMemory> {
    let mut items = Vec::new(alloc);
    let mut at = trace.root();
    add_node(&mut items, trace.node(at), trace.steps_at(at))?;
    while let Some(next) = trace.order().next(at) {
        add_node(&mut items, trace.node(next), trace.steps_at(next))?;
        at = next;
    }
    Ok(items)
}

/// MAP over these inputs.
fn run_of(alloc: Global, code: &Code, inputs: &Inputs, fuel: u32) -> Result<Outcome, Fail>
    requires valid { valid code.now ≡ true }
{
    let args = [at(0), at(1)];
    if inputs.items().len() > 100 {
        return Err(Fail::from("too many inputs"));
    }
    if !fits(code, 1, &args, inputs) {
        return Err(Fail::from("the call does not fit"));
    }
    let seed = Seed::of(1, 2);
    Ok(first(alloc, code, 1, &args, inputs, fuel, &seed)?)
}

/// MAP over the list 1, 2, 3.
fn mapped(alloc: Global, fuel: u32) -> Result<Outcome, Fail> {
    let inputs = list(alloc, &[1, 2, 3])?;
    let program = compiled(alloc, MAP)?;
    let outcome = run_of(alloc, &program.code, &inputs, fuel);
    drop(program);
    drop(inputs);
    outcome
}

/// The nodes, the work and the number of blocks of the run.
fn is_mapped<R: Abort>(rt: &R, alloc: Global, run: &Running) -> Result<(), Fail> {
    equal(rt, run.heap.live_count(), 3);
    let items = items_of(alloc, &run.tables.trace)?;
    let text = told_with_work(alloc, items.as_slice(), run.spent);
    drop(items);
    let text = text?;
    equal(rt, text.as_str(), MAPPED);
    Ok(())
}

#[test]
fn a_run_from_nothing_leaves_its_nodes(rt: HostRuntime) -> Result<(), Fail> {
    let outcome = mapped(rt.alloc(), 18)?;
    let told = match &outcome {
        Outcome::Done(run) => is_mapped(&rt, rt.alloc(), run),
        Outcome::OutOfFuel => Err(Fail::from("it is out of fuel")),
    };
    drop(outcome);
    told
}

#[test]
fn a_run_from_nothing_is_out_of_fuel(rt: HostRuntime) -> Result<(), Fail> {
    let outcome = mapped(rt.alloc(), 17)?;
    let is_out = matches!(&outcome, Outcome::OutOfFuel);
    drop(outcome);
    holds(&rt, is_out);
    Ok(())
}
