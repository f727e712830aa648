// Copies of the trees of a program, each equal to what it copies. The recursion is as deep as the tree.

ghost use Rattle.std.specs.Prelude.{◌≡◌, Ok, IfOk};

use crate::boxed::Boxed;
use crate::items::Items;
use crate::no_memory::NoMemory;
use crate::syntax::Ident;
use crate::typed::{
    FieldInfo, StructInfo, TypedExpr, TypedForm, TypedFunction, TypedStmt, TypedValue,
};
use std::alloc::Global;

/// Two copies, if there was memory for both. No value is let go in the callers.
fn both<A: Drop, B: Drop>(
    first: Result<A, NoMemory>,
    second: Result<B, NoMemory>,
) -> Result<(A, B), NoMemory>
    ensures first { IfOk result (λ pair. first ≡ Ok pair.0) }
    ensures second { IfOk result (λ pair. second ≡ Ok pair.1) }
{
    match first {
        Err(error) => {
            drop(second);
            Err(error)
        }
        Ok(first) => match second {
            Err(error) => {
                drop(first);
                Err(error)
            }
            Ok(second) => Ok((first, second)),
        },
    }
}

/// An equal expression.
#[cycle(copied)]
pub fn copied_expr(alloc: Global, e: &TypedExpr) -> Result<TypedExpr, NoMemory>
    ensures equal { IfOk result (λ copy. copy ≡ e.now) }
{
    match &e.form {
        TypedForm::Num(n) => Ok(with_form(e, TypedForm::Num(*n))),
        TypedForm::Null => Ok(with_form(e, TypedForm::Null)),
        TypedForm::Var(n) => Ok(with_form(e, TypedForm::Var(*n))),
        TypedForm::Own => Ok(with_form(e, TypedForm::Own)),
        TypedForm::Unary(op, a) => {
            let a = boxed_copy(alloc, a.get())?;
            Ok(with_form(e, TypedForm::Unary(*op, a)))
        }
        TypedForm::Binary(op, at, a, b) => {
            let a = boxed_copy(alloc, a.get())?;
            let b = boxed_copy(alloc, b.get())?;
            Ok(with_form(e, TypedForm::Binary(*op, *at, a, b)))
        }
        TypedForm::Field(a, shape, field) => {
            let a = boxed_copy(alloc, a.get())?;
            Ok(with_form(e, TypedForm::Field(a, *shape, *field)))
        }
        TypedForm::Address(a, shape, field) => {
            let a = boxed_copy(alloc, a.get())?;
            Ok(with_form(e, TypedForm::Address(a, *shape, *field)))
        }
    }
}

#[cycle(copied)]
fn boxed_copy(alloc: Global, e: &TypedExpr) -> Result<Boxed<TypedExpr>, NoMemory>
    ensures equal { IfOk result (λ copy. copy ≡ e.now) }
{
    let copy = copied_expr(alloc, e)?;
    Boxed::new(alloc, copy)
}

fn with_form(e: &TypedExpr, form: TypedForm) -> TypedExpr
    ensures value { result ≡ record { span = e.now.span; kind = e.now.kind; form = form } }
{
    TypedExpr {
        span: e.span,
        kind: e.kind,
        form,
    }
}

/// Equal expressions.
pub fn copied_exprs(alloc: Global, es: &[TypedExpr]) -> Result<Items<TypedExpr>, NoMemory>
    ensures equal { IfOk result (λ copy. copy ≡ es.now) }
{
    let mut copies = Vec::new(alloc);
    for e in es {
        copies.push(copied_expr(alloc, e)?)?;
    }
    Ok(Items::new(copies))
}

fn copied_value(alloc: Global, value: &TypedValue) -> Result<TypedValue, NoMemory>
    ensures equal { IfOk result (λ copy. copy ≡ value.now) }
{
    match value {
        TypedValue::Plain(e) => {
            let e = copied_expr(alloc, e)?;
            Ok(TypedValue::Plain(e))
        }
        TypedValue::Read(at, e) => {
            let e = copied_expr(alloc, e)?;
            Ok(TypedValue::Read(*at, e))
        }
        TypedValue::Alloc {
            span,
            shape,
            function,
            name,
            args,
        } => {
            let args = copied_exprs(alloc, args.items())?;
            Ok(TypedValue::Alloc {
                span: *span,
                shape: *shape,
                function: *function,
                name: *name,
                args,
            })
        }
        TypedValue::ModrefInt(at) => Ok(TypedValue::ModrefInt(*at)),
        TypedValue::Modref(at, shape) => Ok(TypedValue::Modref(*at, *shape)),
    }
}

/// An equal statement.
#[cycle(copied_stmts)]
pub fn copied_stmt(alloc: Global, s: &TypedStmt) -> Result<TypedStmt, NoMemory>
    ensures equal { IfOk result (λ copy. copy ≡ s.now) }
{
    match s {
        TypedStmt::Declare(at, n, kind, value) => {
            let value = copied_value(alloc, value)?;
            Ok(TypedStmt::Declare(*at, *n, *kind, value))
        }
        TypedStmt::Assign(at, n, value) => {
            let value = copied_value(alloc, value)?;
            Ok(TypedStmt::Assign(*at, *n, value))
        }
        TypedStmt::SetField(at, left, shape, field, right) => {
            let (left, right) = both(copied_expr(alloc, left), copied_expr(alloc, right))?;
            Ok(TypedStmt::SetField(*at, left, *shape, *field, right))
        }
        TypedStmt::Write(at, place, value) => {
            let (place, value) = both(copied_expr(alloc, place), copied_expr(alloc, value))?;
            Ok(TypedStmt::Write(*at, place, value))
        }
        TypedStmt::Call(at, n, args) => {
            let args = copied_exprs(alloc, args.items())?;
            Ok(TypedStmt::Call(*at, *n, args))
        }
        TypedStmt::If(at, test, first, second) => {
            let first = copied_stmts(alloc, first.items());
            let second = copied_stmts(alloc, second.items());
            let (test, parts) = both(copied_expr(alloc, test), both(first, second))?;
            let (first, second) = parts;
            Ok(TypedStmt::If(*at, test, first, second))
        }
        TypedStmt::While(at, test, body) => {
            let body = copied_stmts(alloc, body.items());
            let (test, body) = both(copied_expr(alloc, test), body)?;
            Ok(TypedStmt::While(*at, test, body))
        }
        TypedStmt::Return(at) => Ok(TypedStmt::Return(*at)),
        TypedStmt::Break(at) => Ok(TypedStmt::Break(*at)),
        TypedStmt::Continue(at) => Ok(TypedStmt::Continue(*at)),
    }
}

/// Equal statements.
#[cycle(copied_stmts)]
pub fn copied_stmts(alloc: Global, stmts: &[TypedStmt]) -> Result<Items<TypedStmt>, NoMemory>
    ensures equal { IfOk result (λ copy. copy ≡ stmts.now) }
{
    let mut copies = Vec::new(alloc);
    for s in stmts {
        copies.push(copied_stmt(alloc, s)?)?;
    }
    Ok(Items::new(copies))
}

/// An equal name.
pub fn copied_ident(name: &Ident) -> Result<Ident, NoMemory>
    ensures equal { IfOk result (λ copy. copy ≡ name.now) }
{
    let text = name.text.copy()?;
    Ok(Ident {
        text,
        span: name.span,
    })
}

/// An equal function.
pub fn copied_function(alloc: Global, function: &TypedFunction) -> Result<TypedFunction, NoMemory>
    ensures equal { IfOk result (λ copy. copy ≡ function.now) }
{
    let name = copied_ident(&function.name)?;
    let kinds = function.kinds.copy()?;
    let body = copied_stmts(alloc, function.body.items())?;
    Ok(TypedFunction {
        initialiser: function.initialiser,
        name,
        params: function.params,
        kinds,
        body,
        close: function.close,
    })
}

/// Equal structs.
pub fn copied_structs(alloc: Global, structs: &[StructInfo]) -> Result<Items<StructInfo>, NoMemory>
    ensures equal { IfOk result (λ copy. copy ≡ structs.now) }
{
    let mut copies = Vec::new(alloc);
    for info in structs {
        let name = info.name.copy()?;
        let fields = copied_fields(alloc, info.fields.items())?;
        copies.push(StructInfo { name, fields })?;
    }
    Ok(Items::new(copies))
}

fn copied_fields(alloc: Global, fields: &[FieldInfo]) -> Result<Items<FieldInfo>, NoMemory>
    ensures equal { IfOk result (λ copy. copy ≡ fields.now) }
{
    let mut copies = Vec::new(alloc);
    for field in fields {
        let name = field.name.copy()?;
        copies.push(FieldInfo {
            name,
            kind: field.kind,
            row: field.row,
        })?;
    }
    Ok(Items::new(copies))
}
