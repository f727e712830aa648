// The live variables of a graph.

ghost use Rattle.std.specs.Prelude.{◌≡◌, IfOk};
ghost use Rattle.ceal_flow.specs.Live.{AreLiveSets};

use crate::round::go_round;
use crate::uses::used_sets;
use ceal_base::no_memory::NoMemory;
use ceal_flow::graph::Graph;
use ceal_flow::live_sets::LiveSets;
use std::alloc::Global;

/// For each block the variables that are live there (Kildall, POPL 1973). A round goes from the last block to the
/// first, so that a graph without loops takes two rounds, and each loop inside another at most one more.
pub fn live(alloc: Global, graph: &Graph) -> Result<LiveSets, NoMemory>
    ensures exact { IfOk result (λ sets. AreLiveSets graph.now.blocks sets) }
{
    let blocks = graph.blocks();
    let mut sets = used_sets(alloc, blocks)?;
    while go_round(alloc, &mut sets, blocks)? {}
    Ok(LiveSets::new(sets))
}
