// The bodies of initialisers. The functions recurse as deep as statements are nested.

ghost use Rattle.std.specs.Prelude.{◌≡◌, ◌++◌, IfOk, OnOk};
ghost use Rattle.ceal_norm.specs.Expressions.{init_code, all_init_code};

use crate::expressions::expr_of;
use ceal_base::items::Items;
use ceal_base::no_memory::NoMemory;
use ceal_base::typed::TypedStmt;
use ceal_code::function::{InitStmt, InitStmts};
use std::alloc::Global;

/// Adds a statement; what no initialiser has is left out.
#[cycle(init)]
#[tactic(auto, using(crate::proofs::Equations::InitialiserSteps::init_steps))]
fn put_init(alloc: Global, out: &mut Vec<InitStmt>, s: &TypedStmt) -> Result<(), NoMemory>
    ensures { OnOk result (out.new.items ≡ out.old.items ++ init_code s.now) }
{
    match s {
        TypedStmt::SetField(_, _, _, field, e) => {
            let value = expr_of(alloc, e)?;
            out.push(InitStmt::Set {
                field: *field,
                value,
            })?;
            Ok(())
        }
        TypedStmt::If(_, test, first, second) => {
            let test = expr_of(alloc, test)?;
            let yes = inits_of(alloc, first.items())?;
            let no = inits_of(alloc, second.items())?;
            out.push(InitStmt::If { test, yes, no })?;
            Ok(())
        }
        TypedStmt::Declare(..) => Ok(()),
        TypedStmt::Assign(..) => Ok(()),
        TypedStmt::Write(..) => Ok(()),
        TypedStmt::Call(..) => Ok(()),
        TypedStmt::While(..) => Ok(()),
        TypedStmt::Return(..) => Ok(()),
        TypedStmt::Break(..) => Ok(()),
        TypedStmt::Continue(..) => Ok(()),
    }
}

/// The statements of an initialiser.
#[cycle(init)]
#[tactic(auto, using(crate::proofs::Equations::InitialiserSteps::init_steps))]
pub fn inits_of(alloc: Global, stmts: &[TypedStmt]) -> Result<InitStmts, NoMemory>
    ensures value { IfOk result (λ cs. cs ≡ all_init_code stmts.now) }
{
    let mut out = Vec::new(alloc);
    for s in stmts {
        put_init(alloc, &mut out, s)?;
    }
    Ok(Items::new(out))
}
