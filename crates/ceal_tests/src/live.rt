// A small program, with the live variables that the language's description gives for it.

use crate::asserts::same_items;
use ceal_base::typed::Typed;
use ceal_flow::live_set::LiveSet;
use ceal_flow::live_sets::LiveSets;
use ceal_flow::lower::lower;
use ceal_live::live::live;
use ceal_samples::programs::compiled;
use std::alloc::Global;
use std::process::Abort;
use std::test::Fail;

const LOOP: &[u8] = b"
ceal f(mod int *o, int n) {
  int x = 1;
  while (n) { write(o, x); n = n - 1; }
  x = n;
}
%%
";

fn push_each<R: Abort>(rt: &R, all: &mut Vec<u32>, variables: &[u32]) {
    for v in variables {
        all.push(*v).expect(rt, "memory");
    }
}

/// Adds the variables of a set, and then 9.
fn push_set<R: Abort>(rt: &R, alloc: Global, all: &mut Vec<u32>, set: &LiveSet) {
    let variables = set.variables(alloc).expect(rt, "memory");
    push_each(rt, all, variables.as_slice());
    drop(variables);
    all.push(9).expect(rt, "memory");
}

/// The variables of all sets, each list after the one before.
fn all_of<R: Abort>(rt: &R, alloc: Global, sets: &[LiveSet]) -> Vec<u32> {
    let mut all = Vec::new(alloc);
    for set in sets {
        push_set(rt, alloc, &mut all, set);
    }
    all
}

/// The sets of live variables of a program's blocks.
fn sets_of<R: Abort>(rt: &R, alloc: Global, program: &Typed) -> LiveSets {
    let graph = lower(alloc, program).expect(rt, "a graph");
    let sets = live(alloc, &graph).expect(rt, "memory");
    drop(graph);
    sets
}

/// The live variables of a program's blocks are these, one block after another; each list ends by 9.
fn are_live<R: Abort>(rt: &R, alloc: Global, program: &Typed, wanted: &[u32]) {
    let sets = sets_of(rt, alloc, program);
    let all = all_of(rt, alloc, sets.items());
    drop(sets);
    same_items(rt, all.as_slice(), wanted);
    drop(all);
}

const LIVE_IN_LOOP: [u32; 18] = [0, 1, 9, 0, 1, 2, 9, 0, 1, 2, 9, 0, 1, 2, 9, 1, 9, 9];

#[test]
fn a_variable_is_live_round_a_loop(rt: HostRuntime) -> Result<(), Fail> {
    let program = compiled(rt.alloc(), LOOP)?;
    are_live(&rt, rt.alloc(), &program.typed, &LIVE_IN_LOOP);
    drop(program);
    Ok(())
}
