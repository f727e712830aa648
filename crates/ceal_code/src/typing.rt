// The types of expressions of trace code.

ghost use Rattle.std.specs.Prelude.{◌≡◌, slice_get, unwrap_or, false};
ghost use Rattle.ceal_base.specs.Kinds.{same_kind, is_pointer};
ghost use Rattle.ceal_base.specs.declared.kind.Shape.TheVariants.{Struct};
ghost use Rattle.ceal_base.specs.Shapes.{row_at};
ghost use Rattle.ceal_code.specs.Valid.{is_place, fits, fits_maybe, one_type, int_if, element_type, binary_type};
ghost use Rattle.ceal_code.specs.Valid.{is_row_of, starts_row, left_suits, variable_type, points_to, plain_type};
ghost use Rattle.ceal_code.specs.Valid.{cell_type, type_of};
ghost use Rattle.ceal_code.specs.Value.{field_kind};

use crate::expr::{CodeExpr, VarId};
use ceal_base::kind::{FieldKind, Kind};
use ceal_base::operators::Binary;
use ceal_base::typed::StructInfo;

/// The type of an expression.
#[derive(Clone, Copy)]
pub enum ExprType {
    /// only this one
    Of(Kind),
    /// every pointer type: that of null
    AnyPointer,
    /// every type of a pointer to a modifiable: that of an element of null
    AnyPlace,
}

/// Whether two kinds are one.
pub fn is_same_kind(a: Kind, b: Kind) -> bool
    ensures { result ≡ same_kind a b }
{
    a == b
}

fn is_pointer_kind(kind: Kind) -> bool
    ensures { result ≡ is_pointer kind }
{
    match kind {
        Kind::Int => false,
        Kind::Ptr(_) => true,
        Kind::ModInt => true,
        Kind::ModPtr(_) => true,
    }
}

fn is_place_kind(kind: Kind) -> bool
    ensures { result ≡ is_place kind }
{
    match kind {
        Kind::Int => false,
        Kind::Ptr(_) => false,
        Kind::ModInt => true,
        Kind::ModPtr(_) => true,
    }
}

/// Whether an expression of this type may be used where the kind is asked for; an ill typed expression has no type.
pub fn is_fit(kind: Kind, t: Option<ExprType>) -> bool
    ensures { result ≡ fits kind t }
{
    match t {
        None => false,
        Some(ExprType::AnyPointer) => is_pointer_kind(kind),
        Some(ExprType::AnyPlace) => is_place_kind(kind),
        Some(ExprType::Of(other)) => is_same_kind(kind, other),
    }
}

/// The same where the kind may be missing; then nothing fits.
pub fn is_fit_maybe(kind: Option<Kind>, t: Option<ExprType>) -> bool
    ensures { result ≡ fits_maybe kind t }
{
    match kind {
        None => false,
        Some(kind) => is_fit(kind, t),
    }
}

fn is_one_type(s: Option<ExprType>, t: Option<ExprType>) -> bool
    ensures { result ≡ one_type s t }
{
    match s {
        None => false,
        Some(ExprType::AnyPointer) => match t {
            None => false,
            Some(ExprType::Of(kind)) => is_pointer_kind(kind),
            Some(ExprType::AnyPointer) => true,
            Some(ExprType::AnyPlace) => true,
        },
        Some(ExprType::AnyPlace) => match t {
            None => false,
            Some(ExprType::Of(kind)) => is_place_kind(kind),
            Some(ExprType::AnyPointer) => true,
            Some(ExprType::AnyPlace) => true,
        },
        Some(ExprType::Of(kind)) => is_fit(kind, t),
    }
}

fn int_where(holds: bool) -> Option<ExprType>
    ensures { result ≡ int_if holds }
{
    if holds {
        Some(ExprType::Of(Kind::Int))
    } else {
        None
    }
}

fn type_of_element(t: Option<ExprType>) -> Option<ExprType>
    ensures { result ≡ element_type t }
{
    match t {
        None => None,
        Some(ExprType::AnyPointer) => Some(ExprType::AnyPlace),
        Some(ExprType::AnyPlace) => Some(ExprType::AnyPlace),
        Some(ExprType::Of(kind)) => Some(ExprType::Of(kind)),
    }
}

fn type_of_binary(op: Binary, s: Option<ExprType>, t: Option<ExprType>) -> Option<ExprType>
    ensures { result ≡ binary_type op s t }
{
    match op {
        Binary::Same => int_where(is_one_type(s, t)),
        Binary::Differ => int_where(is_one_type(s, t)),
        Binary::Add => int_where(is_fit(Kind::Int, s) && is_fit(Kind::Int, t)),
        Binary::Sub => int_where(is_fit(Kind::Int, s) && is_fit(Kind::Int, t)),
        Binary::Mul => int_where(is_fit(Kind::Int, s) && is_fit(Kind::Int, t)),
        Binary::Div => int_where(is_fit(Kind::Int, s) && is_fit(Kind::Int, t)),
        Binary::Rem => int_where(is_fit(Kind::Int, s) && is_fit(Kind::Int, t)),
        Binary::Less => int_where(is_fit(Kind::Int, s) && is_fit(Kind::Int, t)),
        Binary::LessEq => int_where(is_fit(Kind::Int, s) && is_fit(Kind::Int, t)),
        Binary::More => int_where(is_fit(Kind::Int, s) && is_fit(Kind::Int, t)),
        Binary::MoreEq => int_where(is_fit(Kind::Int, s) && is_fit(Kind::Int, t)),
        Binary::And => int_where(is_fit(Kind::Int, s) && is_fit(Kind::Int, t)),
        Binary::Or => int_where(is_fit(Kind::Int, s) && is_fit(Kind::Int, t)),
        Binary::Pick(_) => {
            if is_fit(Kind::Int, t) {
                type_of_element(s)
            } else {
                None
            }
        }
    }
}

/// The length of the row that begins at a field, where there is such a field; 0 where none begins.
fn row_of_field(structs: &[StructInfo], s: u32, field: u32) -> Option<u32>
    ensures { result ≡ row_at structs.now s field }
{
    match structs.get(s as usize) {
        None => None,
        Some(info) => match info.fields.items().get(field as usize) {
            None => None,
            Some(field) => Some(field.row),
        },
    }
}

fn is_row(row: u32, found: Option<u32>) -> bool
    ensures { result ≡ is_row_of row found }
{
    match found {
        None => false,
        Some(n) => row > 0 && n == row,
    }
}

/// Whether the expression is null, or the address of the first modifiable of a row of this length.
#[tactic(auto, using(crate::proofs::Equations::TypeSteps::row_steps))]
fn does_start_row(structs: &[StructInfo], row: u32, e: &CodeExpr) -> bool
    ensures { result ≡ starts_row structs.now row e.now }
{
    match e {
        CodeExpr::Num(_) => false,
        CodeExpr::Null => true,
        CodeExpr::Var(_) => false,
        CodeExpr::Unary(_, _) => false,
        CodeExpr::Binary(_, _, _) => false,
        CodeExpr::Field(_, _, _) => false,
        CodeExpr::Address(_, s, field) => is_row(row, row_of_field(structs, *s, *field)),
    }
}

/// Whether the left operand has the form that the operator asks.
fn does_left_suit(structs: &[StructInfo], op: Binary, a: &CodeExpr) -> bool
    ensures { result ≡ left_suits structs.now op a.now }
{
    match op {
        Binary::Add => true,
        Binary::Sub => true,
        Binary::Mul => true,
        Binary::Div => true,
        Binary::Rem => true,
        Binary::Less => true,
        Binary::LessEq => true,
        Binary::More => true,
        Binary::MoreEq => true,
        Binary::Same => true,
        Binary::Differ => true,
        Binary::And => true,
        Binary::Or => true,
        Binary::Pick(row) => does_start_row(structs, row, a),
    }
}

/// The kind of the variable of this number, where there is one.
pub fn kind_at(kinds: &[Kind], v: VarId) -> Option<Kind>
    ensures { result ≡ slice_get kinds.now v.0 }
{
    kinds.get(v.0 as usize).copied()
}

fn is_known(known: &[bool], v: VarId) -> bool
    ensures { result ≡ unwrap_or (slice_get known.now v.0) false }
{
    known.get(v.0 as usize).copied().unwrap_or(false)
}

fn type_of_variable(kind: Option<Kind>, known: bool) -> Option<ExprType>
    ensures { result ≡ variable_type kind known }
{
    match kind {
        None => None,
        Some(kind) => {
            if known {
                Some(ExprType::Of(kind))
            } else {
                None
            }
        }
    }
}

fn is_pointer_to(s: u32, t: Option<ExprType>) -> bool
    ensures { result ≡ points_to s t }
{
    match t {
        None => false,
        Some(ExprType::AnyPointer) => false,
        Some(ExprType::AnyPlace) => false,
        Some(ExprType::Of(kind)) => is_same_kind(Kind::Ptr(s), kind),
    }
}

/// The kind of a field of a struct, where there is one.
pub fn kind_of_field(structs: &[StructInfo], s: u32, field: u32) -> Option<FieldKind>
    ensures { result ≡ field_kind structs.now (Struct s) field }
{
    match structs.get(s as usize) {
        None => None,
        Some(info) => match info.fields.items().get(field as usize) {
            None => None,
            Some(field) => Some(field.kind),
        },
    }
}

fn type_of_plain(kind: Option<FieldKind>) -> Option<ExprType>
    ensures { result ≡ plain_type kind }
{
    match kind {
        Some(FieldKind::Plain(kind)) => Some(ExprType::Of(kind)),
        Some(FieldKind::CellInt) => None,
        Some(FieldKind::CellPtr(_)) => None,
        None => None,
    }
}

fn type_of_cell(kind: Option<FieldKind>) -> Option<ExprType>
    ensures { result ≡ cell_type kind }
{
    match kind {
        Some(FieldKind::Plain(_)) => None,
        Some(FieldKind::CellInt) => Some(ExprType::Of(Kind::ModInt)),
        Some(FieldKind::CellPtr(s)) => Some(ExprType::Of(Kind::ModPtr(s))),
        None => None,
    }
}

/// The type of an expression, where variables have these kinds and those that are known have a word.
#[tactic(auto, using(crate::proofs::Equations::TypeSteps::type_steps))]
pub fn type_of_expr(
    structs: &[StructInfo],
    kinds: &[Kind],
    known: &[bool],
    e: &CodeExpr,
) -> Option<ExprType>
    ensures { result ≡ type_of structs.now kinds.now known.now e.now }
{
    match e {
        CodeExpr::Num(_) => Some(ExprType::Of(Kind::Int)),
        CodeExpr::Null => Some(ExprType::AnyPointer),
        CodeExpr::Var(v) => type_of_variable(kind_at(kinds, *v), is_known(known, *v)),
        CodeExpr::Unary(_, a) => int_where(is_fit(
            Kind::Int,
            type_of_expr(structs, kinds, known, a.get()),
        )),
        CodeExpr::Binary(op, a, b) => {
            if !does_left_suit(structs, *op, a.get()) {
                return None;
            }
            let s = type_of_expr(structs, kinds, known, a.get());
            let t = type_of_expr(structs, kinds, known, b.get());
            type_of_binary(*op, s, t)
        }
        CodeExpr::Field(a, s, field) => {
            if is_pointer_to(*s, type_of_expr(structs, kinds, known, a.get())) {
                type_of_plain(kind_of_field(structs, *s, *field))
            } else {
                None
            }
        }
        CodeExpr::Address(a, s, field) => {
            if is_pointer_to(*s, type_of_expr(structs, kinds, known, a.get())) {
                type_of_cell(kind_of_field(structs, *s, *field))
            } else {
                None
            }
        }
    }
}
