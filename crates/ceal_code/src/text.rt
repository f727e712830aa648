// Pieces of the text of code.

ghost use Rattle.std.specs.Prelude.{◌≡◌, ◌++◌, ◌∷◌, [], codes, length, slice_get, IfOk};
ghost use Rattle.ceal_code.specs.Listing.{field_name, name_of_struct, name_of_function, unary_sign, binary_sign};
ghost use Rattle.ceal_code.specs.Listing.{is_pick, without_index, var_text, unit_text, expr_text, more_exprs};
ghost use Rattle.ceal_code.specs.Listing.{exprs_inside, exprs_text, more_vars, vars_inside, vars_text, shape_text};
ghost use Rattle.ceal_code.specs.Listing.{indent};

use crate::code::Code;
use crate::expr::{CodeExpr, VarId};
use crate::function::FunctionCode;
use ceal_base::forest::UnitId;
use ceal_base::kind::Shape;
use ceal_base::no_memory::NoMemory;
use ceal_base::operators::{Binary, Unary};
use ceal_base::text::Text;
use ceal_base::typed::StructInfo;
use std::alloc::Global;

/// Appends a variable as listings spell it.
pub fn put_var(out: &mut Text, v: VarId) -> Result<(), NoMemory>
    ensures { IfOk result (λ _. out.new ≡ out.old ++ var_text v) }
{
    out.append_str("v")?;
    out.append_number(v.0 as usize)
}

/// Appends a unit's number as listings spell it.
pub fn put_unit(out: &mut Text, u: UnitId) -> Result<(), NoMemory>
    ensures { IfOk result (λ _. out.new ≡ out.old ++ unit_text u) }
{
    out.append_str("u")?;
    out.append_number(u.0 as usize)
}

/// Adds the name of a field of a struct.
pub fn put_field(out: &mut Text, structs: &[StructInfo], s: u32, field: u32) -> Result<(), NoMemory>
    ensures { IfOk result (λ _. out.new ≡ out.old ++ field_name structs.now s field) }
{
    match structs.get(s as usize) {
        None => Ok(()),
        Some(info) => match info.fields.items().get(field as usize) {
            None => Ok(()),
            Some(field) => out.append(field.name.items()),
        },
    }
}

fn put_struct(out: &mut Text, structs: &[StructInfo], s: u32) -> Result<(), NoMemory>
    ensures { IfOk result
        (λ _. out.new ≡ out.old ++ name_of_struct (slice_get structs.now s)) }
{
    match structs.get(s as usize) {
        None => Ok(()),
        Some(info) => out.append(info.name.items()),
    }
}

/// Adds the name of the function of this number.
pub fn put_function(out: &mut Text, code: &Code, f: u32) -> Result<(), NoMemory>
    ensures { IfOk result
        (λ _. out.new ≡ out.old ++ name_of_function (slice_get code.now.functions f)) }
{
    match code.functions().get(f as usize) {
        None => Ok(()),
        Some(FunctionCode::Core { name, .. }) => out.append(name.items()),
        Some(FunctionCode::Init { name, .. }) => out.append(name.items()),
    }
}

fn put_unary(out: &mut Text, op: Unary) -> Result<(), NoMemory>
    ensures { IfOk result (λ _. out.new ≡ out.old ++ unary_sign op) }
{
    match op {
        Unary::Neg => out.append_str("-"),
        Unary::Not => out.append_str("!"),
    }
}

fn put_binary(out: &mut Text, op: Binary) -> Result<(), NoMemory>
    ensures { IfOk result (λ _. out.new ≡ out.old ++ binary_sign op) }
{
    match op {
        Binary::Add => out.append_str(" + "),
        Binary::Sub => out.append_str(" - "),
        Binary::Mul => out.append_str(" * "),
        Binary::Div => out.append_str(" / "),
        Binary::Rem => out.append_str(" % "),
        Binary::Less => out.append_str(" < "),
        Binary::LessEq => out.append_str(" <= "),
        Binary::More => out.append_str(" > "),
        Binary::MoreEq => out.append_str(" >= "),
        Binary::Same => out.append_str(" == "),
        Binary::Differ => out.append_str(" != "),
        Binary::And => out.append_str(" && "),
        Binary::Or => out.append_str(" || "),
        Binary::Pick(_) => out.append_str("["),
    }
}

fn is_pick_sign(op: Binary) -> bool
    ensures { result ≡ is_pick op }
{
    match op {
        Binary::Add => false,
        Binary::Sub => false,
        Binary::Mul => false,
        Binary::Div => false,
        Binary::Rem => false,
        Binary::Less => false,
        Binary::LessEq => false,
        Binary::More => false,
        Binary::MoreEq => false,
        Binary::Same => false,
        Binary::Differ => false,
        Binary::And => false,
        Binary::Or => false,
        Binary::Pick(_) => true,
    }
}

/// The text of the address of a row's first modifiable without its index.
fn row_text(text: &[u8]) -> &[u8]
    ensures { result.now ≡ without_index text.now }
{
    match text.strip_suffix(b"[0]") {
        None => text,
        Some(row) => row,
    }
}

/// Adds an expression.
#[tactic(auto, using(crate::proofs::Equations::TextSteps::expr_steps))]
pub fn put_expr(
    alloc: Global,
    out: &mut Text,
    structs: &[StructInfo],
    e: &CodeExpr,
) -> Result<(), NoMemory>
    ensures { IfOk result (λ _. out.new ≡ out.old ++ expr_text structs.now e.now) }
{
    match e {
        CodeExpr::Num(n) => out.append_signed(*n),
        CodeExpr::Null => out.append_str("null"),
        CodeExpr::Var(v) => put_var(out, *v),
        CodeExpr::Unary(op, a) => {
            out.append_str("(")?;
            put_unary(out, *op)?;
            put_expr(alloc, out, structs, a.get())?;
            out.append_str(")")?;
            Ok(())
        }
        CodeExpr::Binary(op, a, b) if is_pick_sign(*op) => {
            let mut row = Text::empty(alloc);
            put_expr(alloc, &mut row, structs, a.get())?;
            out.append(row_text(row.items()))?;
            put_binary(out, *op)?;
            put_expr(alloc, out, structs, b.get())?;
            out.append_str("]")?;
            Ok(())
        }
        CodeExpr::Binary(op, a, b) => {
            out.append_str("(")?;
            put_expr(alloc, out, structs, a.get())?;
            put_binary(out, *op)?;
            put_expr(alloc, out, structs, b.get())?;
            out.append_str(")")?;
            Ok(())
        }
        CodeExpr::Field(a, s, field) => {
            put_expr(alloc, out, structs, a.get())?;
            out.append_str("->")?;
            put_field(out, structs, *s, *field)?;
            Ok(())
        }
        CodeExpr::Address(a, s, field) => {
            out.append_str("&")?;
            put_expr(alloc, out, structs, a.get())?;
            out.append_str("->")?;
            put_field(out, structs, *s, *field)?;
            Ok(())
        }
    }
}

#[tactic(auto, using(crate::proofs::Equations::TextSteps::exprs_steps))]
fn put_more_exprs(
    alloc: Global,
    out: &mut Text,
    structs: &[StructInfo],
    es: &[CodeExpr],
) -> Result<(), NoMemory>
    ensures { IfOk result (λ _. out.new ≡ out.old ++ more_exprs structs.now es.now) }
{
    let mut es = es;
    while let Some((e, more)) = es.split_first() {
        out.append_str(", ")?;
        put_expr(alloc, out, structs, e)?;
        es = more;
    }
    Ok(())
}

/// Adds expressions in parentheses.
pub fn put_exprs(
    alloc: Global,
    out: &mut Text,
    structs: &[StructInfo],
    es: &[CodeExpr],
) -> Result<(), NoMemory>
    ensures { IfOk result (λ _. out.new ≡ out.old ++ exprs_text structs.now es.now) }
{
    out.append_str("(")?;
    match es {
        [] => {
            out.append_str(")")?;
            Ok(())
        }
        [e, more @ ..] => {
            put_expr(alloc, out, structs, e)?;
            put_more_exprs(alloc, out, structs, more)?;
            out.append_str(")")?;
            Ok(())
        }
    }
}

#[tactic(auto, using(crate::proofs::Equations::TextSteps::vars_steps))]
fn put_more_vars(out: &mut Text, vs: &[VarId]) -> Result<(), NoMemory>
    ensures { IfOk result (λ _. out.new ≡ out.old ++ more_vars vs.now) }
{
    let mut vs = vs;
    while let Some((v, more)) = vs.split_first() {
        out.append_str(", ")?;
        put_var(out, *v)?;
        vs = more;
    }
    Ok(())
}

/// Adds parameters in parentheses.
pub fn put_vars(out: &mut Text, vs: &[VarId]) -> Result<(), NoMemory>
    ensures { IfOk result (λ _. out.new ≡ out.old ++ vars_text vs.now) }
{
    out.append_str("(")?;
    match vs {
        [] => {
            out.append_str(")")?;
            Ok(())
        }
        [first, more @ ..] => {
            put_var(out, *first)?;
            put_more_vars(out, more)?;
            out.append_str(")")?;
            Ok(())
        }
    }
}

/// Adds what a modifiable made by itself holds.
pub fn put_shape(out: &mut Text, structs: &[StructInfo], shape: Shape) -> Result<(), NoMemory>
    ensures { IfOk result (λ _. out.new ≡ out.old ++ shape_text structs.now shape) }
{
    match shape {
        Shape::ModInt => out.append_str("int"),
        Shape::ModPtr(s) => put_struct(out, structs, s),
        Shape::Struct(s) => put_struct(out, structs, s),
    }
}

/// Adds two spaces for each level.
#[tactic(auto, using(crate::proofs::Equations::TextSteps::indent_steps))]
pub fn put_indent(out: &mut Text, depth: usize) -> Result<(), NoMemory>
    ensures { IfOk result (λ _. out.new ≡ out.old ++ indent depth) }
{
    for i in 0..depth {
        out.append_str("  ")?;
    }
    Ok(())
}
