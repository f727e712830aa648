// From a graph to its code.

ghost use Rattle.std.specs.Prelude.{◌≡◌, true, IfOk};
ghost use Rattle.ceal_base.specs.Usage.{KeepsUsage};
ghost use Rattle.ceal_base.specs.WellTyped.{WellTyped};
ghost use Rattle.ceal_base.specs.declared.typed.Typed.{Typed as Program};
ghost use Rattle.ceal_code.specs.Valid.{valid as is_valid};
ghost use Rattle.ceal_flow.specs.Live.{AreLiveSets};
ghost use Rattle.ceal_flow.specs.Lowering.{graph_of};
ghost use Rattle.ceal_norm.specs.Laws.{IsGraph, RunsAs};
ghost use Rattle.ceal_norm.specs.Units.{Source, code_of};

use crate::functions::{all_kinds, functions_of};
use crate::laws::{run_law, valid_law};
use crate::plan::Plan;
use crate::units::units_of;
use ceal_base::copies::copied_structs;
use ceal_base::no_memory::NoMemory;
use ceal_code::code::Code;
use ceal_flow::graph::Graph;
use ceal_flow::live_sets::LiveSets;
use std::alloc::Global;

/// The code of a program's graph and of its live variables: a unit for each entry. It takes as many steps as the graph
/// has blocks, but for the parameters that units have.
pub fn normalise(alloc: Global, graph: &Graph, live: &LiveSets) -> Result<Code, NoMemory>
    requires graph { IsGraph graph.now }
    requires live { AreLiveSets graph.now.blocks live.now }
    ensures exact { IfOk result
        (λ code. code ≡ code_of (record { graph = graph.now; live = live.now })) }
    ensures valid { (p : Program) → graph.now ≡ graph_of p → WellTyped p → KeepsUsage p
        → IfOk result (λ code. is_valid code ≡ true) }
    ensures same_run { (p : Program) → graph.now ≡ graph_of p → WellTyped p → KeepsUsage p
        → IfOk result (λ code. RunsAs code p) }
{
    let plan = Plan::new(alloc, graph, live)?;
    let functions = functions_of(alloc, &plan)?;
    let units = units_of(alloc, &plan)?;
    let kinds = all_kinds(alloc, graph.functions())?;
    let structs = copied_structs(alloc, graph.structs.items())?;
    // for the proof: the code is valid, and runs as the graph does
    valid_law();
    run_law();
    Ok(Code::new(structs, functions, units, kinds))
}
