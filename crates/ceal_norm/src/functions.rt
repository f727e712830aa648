// The functions of a graph as those of trace code.

ghost use Rattle.std.specs.Prelude.{◌≡◌, ◌<◌, length, map, take, unwrap_or, IfOk};
ghost use Rattle.ceal_code.specs.declared.function.FunctionCode.TheVariants as FunctionCode;
ghost use Rattle.ceal_norm.specs.Expressions.{all_init_code};
ghost use Rattle.ceal_norm.specs.Table.{BeginsBelow};
ghost use Rattle.ceal_norm.specs.Units.{function_code, kinds_code};

use crate::initialiser::inits_of;
use crate::plan::Plan;
use ceal_base::kind::{Kind, Kinds};
use ceal_base::no_memory::NoMemory;
use ceal_base::typed::TypedFunction;
use ceal_code::function::FunctionCode;
use ceal_flow::function::GraphFunction;
use std::alloc::Global;

/// The first `n` kinds, or all where there are fewer.
fn first_kinds(alloc: Global, kinds: &[Kind], n: u32) -> Result<Kinds, NoMemory>
    ensures { IfOk result (λ ks. ks ≡ take n kinds.now) }
{
    let n = n as usize;
    let end = if n < kinds.len() { n } else { kinds.len() };
    let items = Vec::from_slice(alloc, &kinds[..end])?;
    Ok(Kinds::new(items))
}

fn init_of(alloc: Global, f: &TypedFunction) -> Result<FunctionCode, NoMemory>
    ensures { IfOk result
        (λ c. c
        ≡ FunctionCode.Init f.now.name.text (unwrap_or f.now.initialiser 0)
        (take f.now.params f.now.kinds) (all_init_code f.now.body)) }
{
    let name = f.name.text.copy()?;
    let params = first_kinds(alloc, f.kinds.items(), f.params)?;
    let body = inits_of(alloc, f.body.items())?;
    Ok(FunctionCode::Init {
        name,
        shape: f.initialiser.unwrap_or(0),
        params,
        body,
    })
}

fn function_of(alloc: Global, plan: &Plan<'_>, f: &GraphFunction) -> Result<FunctionCode, NoMemory>
    requires begins { BeginsBelow (length plan.now.graph.blocks) f.now }
    ensures { IfOk result (λ c. c ≡ function_code plan.now f.now) }
{
    match f {
        GraphFunction::Core {
            name,
            first,
            params,
            kinds,
        } => {
            let name = name.copy()?;
            let params = first_kinds(alloc, kinds.items(), *params)?;
            Ok(FunctionCode::Core {
                name,
                entry: plan.unit(*first),
                params,
            })
        }
        GraphFunction::Init { function } => {
            let code = init_of(alloc, function)?;
            Ok(code)
        }
    }
}

/// All functions in their order.
pub fn functions_of(alloc: Global, plan: &Plan<'_>) -> Result<Vec<FunctionCode>, NoMemory>
    ensures value { IfOk result
        (λ fs. fs.items ≡ map (function_code plan.now) plan.now.graph.functions) }
{
    let count = plan.functions().len();
    let mut out = Vec::new(alloc);
    for f in 0..count {
        out.push(function_of(alloc, plan, plan.function(f))?)?;
    }
    Ok(out)
}

fn kinds_of(alloc: Global, f: &GraphFunction) -> Result<Kinds, NoMemory>
    ensures { IfOk result (λ ks. ks ≡ kinds_code f.now) }
{
    match f {
        GraphFunction::Core { kinds, .. } => kinds.copy(),
        GraphFunction::Init { .. } => Ok(Kinds::new(Vec::new(alloc))),
    }
}

/// The kinds of each function's variables.
pub fn all_kinds(alloc: Global, functions: &[GraphFunction]) -> Result<Vec<Kinds>, NoMemory>
    ensures value { IfOk result (λ ks. ks.items ≡ map kinds_code functions.now) }
{
    let mut out = Vec::new(alloc);
    for f in functions {
        out.push(kinds_of(alloc, f)?)?;
    }
    Ok(out)
}
