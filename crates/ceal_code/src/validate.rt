// Whether code is valid.

ghost use Rattle.std.specs.Prelude.{◌≡◌, ◌<◌, ◌≤◌, ◌&&◌, ◌+◌, ◌^◌, ℕ, Bool, List, true, false, length, replicate};
ghost use Rattle.std.specs.Prelude.{slice_get, IfOk};
ghost use Rattle.ceal_code.specs.Valid.{kind_ok, kinds_ok, field_ok, fields_ok, same_field, row_goes_on, row_whole};
ghost use Rattle.ceal_code.specs.Valid.{rows_ok, structs_ok, is_prefix, below, is_core, unit_ok, units_ok, entry_ok};
ghost use Rattle.ceal_code.specs.Valid.{is_empty, function_ok, functions_ok, valid};

use crate::code::Code;
use crate::evaluate::is_modifiable;
use crate::expr::VarId;
use crate::function::FunctionCode;
use crate::initialiser::are_stmts_ok;
use crate::paths::are_paths_ok;
use crate::tree::{do_all_go_forward, is_body_tree};
use crate::typing::is_same_kind;
use crate::unit::Unit;
use ceal_base::forest::UnitId;
use ceal_base::kind::{FieldKind, Kind, Kinds};
use ceal_base::no_memory::NoMemory;
use ceal_base::typed::{FieldInfo, StructInfo};
use std::alloc::Global;

fn is_kind_ok(structs: &[StructInfo], kind: Kind) -> bool
    ensures { result ≡ kind_ok structs.now kind }
{
    match kind {
        Kind::Int => true,
        Kind::Ptr(s) => (s as usize) < structs.len(),
        Kind::ModInt => true,
        Kind::ModPtr(s) => (s as usize) < structs.len(),
    }
}

#[tactic(auto, using(crate::proofs::Equations::ListSteps::kinds_steps))]
fn are_kinds_ok(structs: &[StructInfo], kinds: &[Kind]) -> bool
    ensures { result ≡ kinds_ok structs.now kinds.now }
{
    let mut kinds = kinds;
    while let Some((kind, more)) = kinds.split_first() {
        if !is_kind_ok(structs, *kind) {
            return false;
        }
        kinds = more;
    }
    true
}

fn is_field_ok(structs: &[StructInfo], kind: FieldKind) -> bool
    ensures { result ≡ field_ok structs.now kind }
{
    match kind {
        FieldKind::Plain(kind) => is_kind_ok(structs, kind),
        FieldKind::CellInt => true,
        FieldKind::CellPtr(s) => (s as usize) < structs.len(),
    }
}

fn is_same_field(a: FieldKind, b: FieldKind) -> bool
    ensures { result ≡ same_field a b }
{
    match (a, b) {
        (FieldKind::Plain(a), FieldKind::Plain(b)) => is_same_kind(a, b),
        (FieldKind::CellInt, FieldKind::CellInt) => true,
        (FieldKind::CellPtr(a), FieldKind::CellPtr(b)) => a == b,
        (FieldKind::Plain(_), FieldKind::CellInt) => false,
        (FieldKind::Plain(_), FieldKind::CellPtr(_)) => false,
        (FieldKind::CellInt, FieldKind::Plain(_)) => false,
        (FieldKind::CellInt, FieldKind::CellPtr(_)) => false,
        (FieldKind::CellPtr(_), FieldKind::Plain(_)) => false,
        (FieldKind::CellPtr(_), FieldKind::CellInt) => false,
    }
}

#[tactic(auto, using(crate::proofs::Equations::ListSteps::fields_steps))]
fn are_fields_ok(structs: &[StructInfo], fields: &[FieldInfo]) -> bool
    ensures { result ≡ fields_ok structs.now fields.now }
{
    let mut fields = fields;
    while let Some((field, more)) = fields.split_first() {
        if !is_field_ok(structs, field.kind) {
            return false;
        }
        fields = more;
    }
    true
}

/// Whether the next `n` fields are of this kind, and no row begins at one of them.
#[tactic(auto, using(crate::proofs::Equations::ListSteps::going_steps))]
fn does_row_go_on(n: u32, kind: FieldKind, rest: &[FieldInfo]) -> bool
    ensures { result ≡ row_goes_on n kind rest.now }
{
    let mut n = n;
    let mut rest = rest;
    while n > 0 {
        match rest.split_first() {
            None => return false,
            Some((field, more)) => {
                if !is_same_field(kind, field.kind) || field.row != 0 {
                    return false;
                }
                n -= 1;
                rest = more;
            }
        }
    }
    true
}

fn is_row_whole(row: u32, kind: FieldKind, rest: &[FieldInfo]) -> bool
    ensures { result ≡ row_whole row kind rest.now }
{
    if row == 0 {
        return true;
    }
    is_modifiable(Some(kind)) && does_row_go_on(row - 1, kind, rest)
}

#[tactic(auto, using(crate::proofs::Equations::ListSteps::rows_steps))]
fn are_rows_ok(fields: &[FieldInfo]) -> bool
    ensures { result ≡ rows_ok fields.now }
{
    let mut fields = fields;
    while let Some((field, more)) = fields.split_first() {
        if !is_row_whole(field.row, field.kind, more) {
            return false;
        }
        fields = more;
    }
    true
}

#[tactic(auto, using(crate::proofs::Equations::ListSteps::structs_steps))]
fn are_structs_ok(structs: &[StructInfo], rest: &[StructInfo]) -> bool
    ensures { result ≡ structs_ok structs.now rest.now }
{
    let mut rest = rest;
    while let Some((info, more)) = rest.split_first() {
        let fields = info.fields.items();
        if fields.len() > 255 {
            return false;
        }
        if !are_fields_ok(structs, fields) {
            return false;
        }
        if !are_rows_ok(fields) {
            return false;
        }
        rest = more;
    }
    true
}

#[tactic(auto, using(crate::proofs::Equations::ListSteps::prefix_steps))]
fn is_prefix_of(params: &[Kind], kinds: &[Kind]) -> bool
    ensures { result ≡ is_prefix params.now kinds.now }
{
    let mut params = params;
    let mut kinds = kinds;
    while let Some((p, more)) = params.split_first() {
        match kinds.split_first() {
            None => return false,
            Some((kind, rest)) => {
                if !is_same_kind(*p, *kind) {
                    return false;
                }
                params = more;
                kinds = rest;
            }
        }
    }
    true
}

#[tactic(auto, using(crate::proofs::Equations::ListSteps::below_steps))]
fn are_below(n: usize, params: &[VarId]) -> bool
    ensures { result ≡ below n params.now }
{
    let mut params = params;
    while let Some((p, more)) = params.split_first() {
        if p.0 as usize >= n {
            return false;
        }
        params = more;
    }
    true
}

fn is_core_function(code: &Code, f: u32) -> bool
    ensures { result ≡ is_core (slice_get code.now.functions f) }
{
    match code.functions().get(f as usize) {
        Some(FunctionCode::Core { .. }) => true,
        Some(FunctionCode::Init { .. }) => false,
        None => false,
    }
}

#[tactic(auto, unfolding(crate::specs::Valid::unit_ok))]
fn is_unit_ok(alloc: Global, code: &Code, unit: &Unit) -> Result<bool, NoMemory>
    ensures exact { IfOk result (λ ok. ok ≡ unit_ok code.now unit.now) }
{
    let f = unit.function;
    if !is_core_function(code, f) {
        return Ok(false);
    }
    if !are_below(code.kinds_of(f).len(), unit.params()) {
        return Ok(false);
    }
    if !do_all_go_forward(unit.body()) {
        return Ok(false);
    }
    if !is_body_tree(alloc, unit.body())? {
        return Ok(false);
    }
    let ok = are_paths_ok(alloc, code, f, unit.params(), unit.body())?;
    Ok(ok)
}

#[tactic(auto, using(crate::proofs::Equations::ListSteps::units_steps))]
fn are_units_ok(alloc: Global, code: &Code, units: &[Unit]) -> Result<bool, NoMemory>
    ensures exact { IfOk result (λ ok. ok ≡ units_ok code.now units.now) }
{
    let mut units = units;
    while let Some((unit, more)) = units.split_first() {
        if !is_unit_ok(alloc, code, unit)? {
            return Ok(false);
        }
        units = more;
    }
    Ok(true)
}

fn is_entry_ok(code: &Code, f: usize, params: usize, entry: UnitId) -> bool
    ensures { result ≡ entry_ok f params (slice_get code.now.units entry.0) }
{
    match code.units().get(entry.0 as usize) {
        None => false,
        Some(unit) => unit.function as usize == f && are_below(params, unit.params()),
    }
}

fn all_flags(alloc: Global, n: usize) -> Result<Vec<bool>, NoMemory>
    ensures { IfOk result (λ v. v.items ≡ replicate n true) }
{
    let mut flags = Vec::new(alloc);
    for i in 0..n {
        flags.push(true)?;
    }
    Ok(flags)
}

fn has_none(kinds: &[Kind]) -> bool
    ensures { result ≡ is_empty kinds.now }
{
    match kinds {
        [] => true,
        [_, ..] => false,
    }
}

fn is_function_ok(
    alloc: Global,
    code: &Code,
    f: usize,
    function: &FunctionCode,
    kinds: &[Kind],
) -> Result<bool, NoMemory>
    ensures exact { IfOk result (λ ok. ok ≡ function_ok code.now f function.now kinds.now) }
{
    let structs = code.structs.items();
    match function {
        FunctionCode::Core { entry, params, .. } => {
            let params = params.items();
            if !is_prefix_of(params, kinds) {
                return Ok(false);
            }
            if !are_kinds_ok(structs, kinds) {
                return Ok(false);
            }
            let ok = is_entry_ok(code, f, params.len(), *entry);
            Ok(ok)
        }
        FunctionCode::Init {
            shape,
            params,
            body,
            ..
        } => {
            let params = params.items();
            if !has_none(kinds) {
                return Ok(false);
            }
            if !are_kinds_ok(structs, params) {
                return Ok(false);
            }
            if *shape as usize >= structs.len() {
                return Ok(false);
            }
            let known = all_flags(alloc, params.len())?;
            let ok = are_stmts_ok(structs, params, &known, *shape, body.items());
            Ok(ok)
        }
    }
}

/// Whether each function is right, and has one item of kinds.
#[tactic(auto, using(crate::proofs::Equations::ListSteps::functions_steps))]
fn are_functions_ok(
    alloc: Global,
    code: &Code,
    functions: &[FunctionCode],
    kinds: &[Kinds],
) -> Result<bool, NoMemory>
    ensures exact { IfOk result (λ ok. ok ≡ functions_ok code.now 0 functions.now kinds.now) }
{
    let mut functions = functions;
    let mut kinds = kinds;
    let mut f = 0;
    while let Some((function, more)) = functions.split_first() {
        match kinds.split_first() {
            None => return Ok(false),
            Some((own, rest)) => {
                if !is_function_ok(alloc, code, f, function, own.items())? {
                    return Ok(false);
                }
                f += 1;
                functions = more;
                kinds = rest;
            }
        }
    }
    Ok(kinds.is_empty())
}

/// Whether code is valid: every number in it is in range, a variable is used only where it has a word, expressions have
/// the types that are asked for, and no unit moves on to another without a step. The body of each unit is a tree that
/// is gone through forwards, so that each command lies on a path from the first.
#[tactic(auto, unfolding(crate::specs::Valid::valid))]
pub fn validate(alloc: Global, code: &Code) -> Result<bool, NoMemory>
    ensures exact { IfOk result (λ ok. ok ≡ valid code.now) }
{
    let structs = code.structs.items();
    if !are_structs_ok(structs, structs) {
        return Ok(false);
    }
    if !are_functions_ok(alloc, code, code.functions(), code.all_kinds())? {
        return Ok(false);
    }
    let ok = are_units_ok(alloc, code, code.units())?;
    Ok(ok)
}
