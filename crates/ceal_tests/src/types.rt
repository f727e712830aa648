// The names and types of a small program.

use crate::asserts::{equal, same_items};
use ceal_base::kind::{FieldKind, Kind};
use ceal_base::typed::{StructInfo, Typed, TypedFunction};
use ceal_samples::programs::{checked, compiled};
use std::process::Abort;
use std::test::Fail;

const SCOPES: &[u8] = b"
struct cell { mod struct cell t; };
ceal f(mod int *a) { if (null == null) { int x = read(a); } int x = read(a); return; }
%%
";

fn is_the_cell<R: Abort>(rt: &R, cell: &StructInfo) {
    equal(rt, cell.fields.items().len(), 1);
    let kind = cell.fields.items().first().map(|field| field.kind);
    equal(rt, kind, Some(FieldKind::CellPtr(0)));
}

fn is_the_function<R: Abort>(rt: &R, f: &TypedFunction) {
    equal(rt, f.params, 1);
    same_items(rt, f.kinds.items(), &[Kind::ModInt, Kind::Int, Kind::Int]);
}

fn is_resolved<R: Abort>(rt: &R, typed: &Typed) {
    match (typed.structs.items(), typed.functions.items()) {
        ([cell], [f]) => {
            is_the_cell(rt, cell);
            is_the_function(rt, f);
        }
        _ => panic!(rt; "other structs or functions"),
    }
}

#[test]
fn a_program_with_its_names_resolved(rt: HostRuntime) -> Result<(), Fail> {
    let program = compiled(rt.alloc(), SCOPES)?;
    is_resolved(&rt, &program.typed);
    drop(program);
    Ok(())
}

#[test]
fn a_source_that_is_checked_without_its_code(rt: HostRuntime) -> Result<(), Fail> {
    let program = checked(rt.alloc(), SCOPES)?;
    is_resolved(&rt, &program);
    drop(program);
    Ok(())
}
