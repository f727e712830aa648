// The types of expressions.

ghost use Rattle.std.specs.Prelude.{◌≡◌, Option, IfOk};
ghost use Rattle.std.specs.Map.{lookup};
ghost use Rattle.std.specs.Str.{bytes_eq};
ghost use Rattle.ceal_base.specs.Answers.{Gives};
ghost use Rattle.ceal_types.specs.Expressions.{expression, variable_at, own_at, unary_at, unary_of, binary_at};
ghost use Rattle.ceal_types.specs.Expressions.{comparison, int_operation, no_pick, typed_expr, typed_exprs, condition};

use crate::kinds::{comparable, suits};
use crate::members::{both, fault, type_address, type_field, type_pick};
use crate::program::{Access, Site, Variable};
use crate::table::Table;
use ceal_base::boxed::Boxed;
use ceal_base::fault::{FaultCode, FrontError, Span};
use ceal_base::items::Items;
use ceal_base::kind::Kind;
use ceal_base::no_memory::NoMemory;
use ceal_base::operators::{Binary, Unary};
use ceal_base::syntax::{Expr, ExprForm, Ident};
use ceal_base::typed::{TypedExpr, TypedExprs, TypedForm};
use std::alloc::Global;

fn expression(span: Span, kind: Option<Kind>, form: TypedForm) -> TypedExpr
    ensures { result ≡ expression span kind form }
{
    TypedExpr { span, kind, form }
}

fn type_variable(scope: &Table<Variable>, at: Span, name: &Ident) -> Result<TypedExpr, FrontError>
    ensures { Gives result (variable_at at name.now (lookup (bytes_eq name.now.text) scope.now)) }
{
    match scope.get(&name.text) {
        Some(v) => Ok(expression(at, Some(v.kind), TypedForm::Var(v.number))),
        None => Err(fault(FaultCode::N1, name.span)),
    }
}

fn type_own(at: Span, own: Option<u32>) -> Result<TypedExpr, FrontError>
    ensures { Gives result (own_at at own) }
{
    match own {
        Some(s) => Ok(expression(at, Some(Kind::Ptr(s)), TypedForm::Own)),
        None => Err(fault(FaultCode::N1, at)),
    }
}

fn unary(alloc: Global, at: Span, op: Unary, a: TypedExpr) -> Result<TypedExpr, NoMemory>
    ensures { IfOk result (λ e. e ≡ unary_of at op a) }
{
    let a = Boxed::new(alloc, a)?;
    Ok(expression(at, Some(Kind::Int), TypedForm::Unary(op, a)))
}

fn type_unary(alloc: Global, at: Span, op: Unary, a: TypedExpr) -> Result<TypedExpr, FrontError>
    ensures { Gives result (unary_at at op a) }
{
    if suits(Kind::Int, a.kind) {
        let e = unary(alloc, at, op, a)?;
        Ok(e)
    } else {
        let wrong = a.span;
        drop(a);
        Err(fault(FaultCode::T1, wrong))
    }
}

fn type_compared(
    at: Span,
    op: Binary,
    sign: Span,
    a: Boxed<TypedExpr>,
    b: Boxed<TypedExpr>,
) -> Result<TypedExpr, FrontError>
    ensures { Gives result (comparison at op sign a b) }
{
    if comparable(a.get().kind, b.get().kind) {
        Ok(expression(at, Some(Kind::Int), TypedForm::Binary(op, sign, a, b)))
    } else {
        drop(a);
        drop(b);
        Err(fault(FaultCode::T1, sign))
    }
}

fn type_computed(
    at: Span,
    op: Binary,
    sign: Span,
    a: Boxed<TypedExpr>,
    b: Boxed<TypedExpr>,
) -> Result<TypedExpr, FrontError>
    ensures { Gives result (int_operation at op sign a b) }
{
    if !suits(Kind::Int, a.get().kind) {
        let wrong = a.get().span;
        drop(a);
        drop(b);
        return Err(fault(FaultCode::T1, wrong));
    }
    if !suits(Kind::Int, b.get().kind) {
        let wrong = b.get().span;
        drop(a);
        drop(b);
        return Err(fault(FaultCode::T1, wrong));
    }
    Ok(expression(at, Some(Kind::Int), TypedForm::Binary(op, sign, a, b)))
}

/// A binary operator: where its expression begins, and the place of its sign.
#[derive(Clone, Copy)]
struct Operator {
    at: Span,
    op: Binary,
    sign: Span,
}

/// A binary operator after its operands, which are on the heap already, so that they are not moved from call to call.
fn type_operands(
    at: Span,
    op: Binary,
    sign: Span,
    a: Boxed<TypedExpr>,
    b: Boxed<TypedExpr>,
) -> Result<TypedExpr, FrontError>
    ensures { Gives result (binary_at at op sign a b) }
{
    match op {
        Binary::Same => type_compared(at, op, sign, a, b),
        Binary::Differ => type_compared(at, op, sign, a, b),
        Binary::Add => type_computed(at, op, sign, a, b),
        Binary::Sub => type_computed(at, op, sign, a, b),
        Binary::Mul => type_computed(at, op, sign, a, b),
        Binary::Div => type_computed(at, op, sign, a, b),
        Binary::Rem => type_computed(at, op, sign, a, b),
        Binary::Less => type_computed(at, op, sign, a, b),
        Binary::LessEq => type_computed(at, op, sign, a, b),
        Binary::More => type_computed(at, op, sign, a, b),
        Binary::MoreEq => type_computed(at, op, sign, a, b),
        Binary::And => type_computed(at, op, sign, a, b),
        Binary::Or => type_computed(at, op, sign, a, b),
        Binary::Pick(_) => no_row(a, b),
    }
}

fn type_binary(
    alloc: Global,
    operator: Operator,
    a: TypedExpr,
    b: TypedExpr,
) -> Result<TypedExpr, FrontError>
    ensures { Gives result (binary_at operator.at operator.op operator.sign a b) }
{
    let (a, b) = both(alloc, a, b)?;
    type_operands(operator.at, operator.op, operator.sign, a, b)
}

/// An index after what is no field access.
fn no_row(a: Boxed<TypedExpr>, index: Boxed<TypedExpr>) -> Result<TypedExpr, FrontError>
    ensures { Gives result (no_pick a index) }
{
    let at = a.get().span;
    drop(a);
    drop(index);
    Err(fault(FaultCode::T3, at))
}

/// An index after what is no field access, as both are typed.
fn no_element(a: TypedExpr, index: TypedExpr) -> Result<TypedExpr, FrontError>
    ensures { Gives result (no_pick a index) }
{
    let at = a.span;
    drop(a);
    drop(index);
    Err(fault(FaultCode::T3, at))
}

fn access<'a>(site: &Site<'_, '_>, at: Span, name: &'a Ident) -> Access<'a>
    ensures at { result.at ≡ at }
    ensures name { result.name.now ≡ name.now }
{
    Access {
        alloc: site.alloc,
        at,
        name,
    }
}

/// The type of an expression, in its place. It recurses as deep as the expression.
#[tactic(auto, using(crate::proofs::ExpressionSteps::expression_steps))]
pub fn type_expr(site: &Site<'_, '_>, e: &Expr) -> Result<TypedExpr, FrontError>
    ensures value { Gives result
        (typed_expr site.now.program.now site.now.own site.now.variables.now e.now) }
{
    match &e.form {
        ExprForm::Num(n) => Ok(expression(e.span, Some(Kind::Int), TypedForm::Num(*n))),
        ExprForm::Null => Ok(expression(e.span, None, TypedForm::Null)),
        ExprForm::Var(name) => type_variable(site.variables, e.span, name),
        ExprForm::Own => type_own(e.span, site.own),
        ExprForm::Unary(op, a) => {
            let a = type_expr(site, a.get())?;
            type_unary(site.alloc, e.span, *op, a)
        }
        ExprForm::Binary(op, sign, a, b) => {
            let a = type_expr(site, a.get())?;
            let b = type_expr(site, b.get())?;
            let operator = Operator {
                at: e.span,
                op: *op,
                sign: *sign,
            };
            type_binary(site.alloc, operator, a, b)
        }
        ExprForm::Field(a, name) => {
            let a = type_expr(site, a.get())?;
            type_field(&access(site, e.span, name), &site.program.structs, a)
        }
        ExprForm::Address(operand) => match &operand.get().form {
            ExprForm::Field(a, name) => {
                let a = type_expr(site, a.get())?;
                type_address(&access(site, e.span, name), &site.program.structs, a)
            }
            _ => {
                let a = type_expr(site, operand.get())?;
                Err(fault(FaultCode::T3, a.span))
            }
        },
        ExprForm::Pick(operand, index) => match &operand.get().form {
            ExprForm::Field(a, name) => {
                let a = type_expr(site, a.get())?;
                let index = type_expr(site, index.get())?;
                type_pick(&access(site, e.span, name), &site.program.structs, a, index)
            }
            _ => {
                let a = type_expr(site, operand.get())?;
                let index = type_expr(site, index.get())?;
                no_element(a, index)
            }
        },
    }
}
