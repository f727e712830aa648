// Small programs, with the blocks that the language's description gives for them.

use crate::asserts::{equal, holds, same_items};
use ceal_base::typed::Typed;
use ceal_flow::block::GraphBlock;
use ceal_flow::live_set::LiveSet;
use ceal_flow::live_sets::LiveSets;
use ceal_flow::lower::lower;
use ceal_samples::programs::compiled;
use std::alloc::Global;
use std::process::Abort;
use std::test::Fail;

/// A block, only by its jumps.
#[derive(Clone, Copy, PartialEq)]
enum Jumps {
    Done,
    Test(u32, u32),
    Act(u32),
    Unreached,
}

fn jumps_of(block: &GraphBlock) -> Jumps {
    match block {
        GraphBlock::Done => Jumps::Done,
        GraphBlock::Test { yes, no, .. } => Jumps::Test(*yes, *no),
        GraphBlock::Act { next, .. } => Jumps::Act(*next),
        GraphBlock::Unreached => Jumps::Unreached,
    }
}

fn all_jumps<R: Abort>(rt: &R, alloc: Global, blocks: &[GraphBlock]) -> Vec<Jumps> {
    let mut found = Vec::new(alloc);
    for block in blocks {
        found.push(jumps_of(block)).expect(rt, "memory");
    }
    found
}

/// The jumps of the blocks of a program.
fn lowered_jumps<R: Abort>(rt: &R, alloc: Global, program: &Typed) -> Vec<Jumps> {
    let graph = lower(alloc, program).expect(rt, "a graph");
    let jumps = all_jumps(rt, alloc, graph.blocks());
    drop(graph);
    jumps
}

/// The blocks of a program have these jumps.
fn has_jumps<R: Abort>(rt: &R, alloc: Global, program: &Typed, wanted: &[Jumps]) {
    let found = lowered_jumps(rt, alloc, program);
    holds(rt, found.as_slice() == wanted);
    drop(found);
}

const LOOP: &[u8] = b"
ceal f(mod int *m, int x, int y) {
  y = x;
  while (x) {
    if (x) { return; }
    write(m, y);
    x = y;
  }
  write(m, x);
}
%%
";

const RETURNS: &[u8] = b"
ceal f(mod int *m, int x) {
  if (x) { return; } else { return; }
  write(m, x);
}
%%
";

const JUMPS_OF_LOOP: [Jumps; 7] = [
    Jumps::Act(1),
    Jumps::Test(2, 5),
    Jumps::Test(6, 3),
    Jumps::Act(4),
    Jumps::Act(1),
    Jumps::Act(6),
    Jumps::Done,
];

const JUMPS_OF_RETURNS: [Jumps; 3] = [Jumps::Test(2, 2), Jumps::Unreached, Jumps::Done];

#[test]
fn jumps_of_loops_and_returns(rt: HostRuntime) -> Result<(), Fail> {
    let program = compiled(rt.alloc(), LOOP)?;
    has_jumps(&rt, rt.alloc(), &program.typed, &JUMPS_OF_LOOP);
    drop(program);
    Ok(())
}

#[test]
fn what_no_path_leads_to_is_left_out(rt: HostRuntime) -> Result<(), Fail> {
    let program = compiled(rt.alloc(), RETURNS)?;
    has_jumps(&rt, rt.alloc(), &program.typed, &JUMPS_OF_RETURNS);
    drop(program);
    Ok(())
}

/// The set of these variables.
fn set_of<R: Abort>(rt: &R, alloc: Global, variables: &[u32]) -> LiveSet {
    let mut set = LiveSet::empty(alloc);
    for v in variables {
        set.insert(*v).expect(rt, "memory");
    }
    set
}

/// A set takes in another one but for 3, and only once.
fn takes_in<R: Abort>(rt: &R, set: &mut LiveSet, other: &LiveSet) {
    equal(rt, set.join(other, Some(3)), Ok(true));
    equal(rt, set.join(other, Some(3)), Ok(false));
}

/// Two sets, of which the second takes in the first.
fn joined<R: Abort>(rt: &R, alloc: Global) -> LiveSet {
    let first = set_of(rt, alloc, &[70, 3]);
    holds(rt, first.contains(3));
    let mut second = set_of(rt, alloc, &[64]);
    takes_in(rt, &mut second, &first);
    drop(first);
    second
}

fn has_variables<R: Abort>(rt: &R, alloc: Global, set: &LiveSet, wanted: &[u32]) {
    let variables = set.variables(alloc).expect(rt, "memory");
    same_items(rt, variables.as_slice(), wanted);
    drop(variables);
}

fn answers_what_is_live<R: Abort>(rt: &R, sets: &LiveSets) {
    holds(rt, sets.is_live(0, 70));
    holds(rt, !sets.is_live(0, 3));
    holds(rt, !sets.is_live(1, 70));
}

#[test]
fn sets_grow(rt: HostRuntime) {
    let set = joined(&rt, rt.alloc());
    has_variables(&rt, rt.alloc(), &set, &[64, 70]);
    let mut sets = LiveSets::new(Vec::new(rt.alloc()));
    sets.push(set).expect(&rt, "memory");
    answers_what_is_live(&rt, &sets);
    drop(sets);
}
