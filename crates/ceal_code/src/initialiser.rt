// What is asked of the statements of an initialiser.

ghost use Rattle.std.specs.Prelude.{◌≡◌, ◌&&◌, true, false, length};
ghost use Rattle.ceal_code.specs.Valid.{set_ok, stmt_ok, stmts_ok};

use crate::function::InitStmt;
use crate::typing::{ExprType, is_fit, kind_of_field, type_of_expr};
use ceal_base::kind::{FieldKind, Kind};
use ceal_base::typed::StructInfo;

fn is_set_ok(kind: Option<FieldKind>, t: Option<ExprType>) -> bool
    ensures { result ≡ set_ok kind t }
{
    match kind {
        Some(FieldKind::Plain(kind)) => is_fit(kind, t),
        Some(FieldKind::CellInt) => false,
        Some(FieldKind::CellPtr(_)) => false,
        None => false,
    }
}

/// Whether a statement may be in an initialiser of blocks of the struct, whose parameters have these kinds; `known` has
/// true for each of them.
#[cycle(stmts)]
#[tactic(auto, using(crate::proofs::Equations::StmtSteps::stmt_steps))]
fn is_stmt_ok(
    structs: &[StructInfo],
    kinds: &[Kind],
    known: &[bool],
    s: u32,
    stmt: &InitStmt,
) -> bool
    ensures { result ≡ stmt_ok structs.now kinds.now known.now s stmt.now }
{
    match stmt {
        InitStmt::Set { field, value } => is_set_ok(
            kind_of_field(structs, s, *field),
            type_of_expr(structs, kinds, known, value),
        ),
        InitStmt::If { test, yes, no } => {
            if is_fit(Kind::Int, type_of_expr(structs, kinds, known, test)) {
                if are_stmts_ok(structs, kinds, known, s, yes.items()) {
                    are_stmts_ok(structs, kinds, known, s, no.items())
                } else {
                    false
                }
            } else {
                false
            }
        }
    }
}

/// Whether each statement of an initialiser is valid.
#[cycle(stmts)]
#[tactic(auto, using(crate::proofs::Equations::StmtSteps::stmts_steps))]
pub fn are_stmts_ok(
    structs: &[StructInfo],
    kinds: &[Kind],
    known: &[bool],
    s: u32,
    stmts: &[InitStmt],
) -> bool
    ensures { result ≡ stmts_ok structs.now kinds.now known.now s stmts.now }
{
    for stmt in stmts {
        if !is_stmt_ok(structs, kinds, known, s, stmt) {
            return false;
        }
    }
    true
}
