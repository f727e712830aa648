// What a variable is given.

ghost use Rattle.std.specs.Prelude.{◌≡◌, [], Ok, length, IfOk};
ghost use Rattle.ceal_base.specs.Answers.{Gives};
ghost use Rattle.ceal_types.specs.Expressions.{typed_exprs, condition};
ghost use Rattle.ceal_types.specs.Statements as spec;

use crate::expressions::type_expr;
use crate::heads::struct_number;
use crate::kinds::{held, same_kind, suits};
use crate::members::fault;
use crate::program::{Head, Site};
use ceal_base::fault::{FaultCode, FrontError, Span};
use ceal_base::items::Items;
use ceal_base::kind::Kind;
use ceal_base::no_memory::NoMemory;
use ceal_base::syntax::{Expr, Ident, Value};
use ceal_base::typed::{TypedExpr, TypedExprs, TypedValue};
use std::alloc::Global;

/// A list without items, with room for this many.
pub fn with_room<T>(alloc: Global, count: usize) -> Result<Items<T>, NoMemory>
    ensures empty { IfOk result (λ list. list ≡ []) }
{
    let items = Vec::with_capacity(alloc, count)?;
    Ok(Items::new(items))
}

/// Expressions from left to right.
pub fn type_exprs(site: &Site<'_, '_>, es: &[Expr]) -> Result<TypedExprs, FrontError>
    ensures value { Gives result
        (typed_exprs site.now.program.now site.now.own site.now.variables.now es.now) }
{
    let mut typed = with_room(site.alloc, es.len())?;
    for e in es {
        let e = type_expr(site, e)?;
        typed.push(e)?;
    }
    Ok(typed)
}

/// A condition.
pub fn type_condition(site: &Site<'_, '_>, e: &Expr) -> Result<TypedExpr, FrontError>
    ensures value { Gives result
        (condition site.now.program.now site.now.own site.now.variables.now e.now) }
{
    let e = type_expr(site, e)?;
    if suits(Kind::Int, e.kind) {
        Ok(e)
    } else {
        Err(fault(FaultCode::T1, e.span))
    }
}

fn check_arguments(kinds: &[Kind], es: &[TypedExpr]) -> Result<(), FrontError>
    ensures { Gives result (spec.arguments_suit kinds.now es.now) }
{
    let mut rest = kinds;
    for e in es {
        let Some((kind, more)) = rest.split_first() else {
            return Ok(());
        };
        if !suits(*kind, e.kind) {
            return Err(fault(FaultCode::T1, e.span));
        }
        rest = more;
    }
    Ok(())
}

/// The arguments of a call.
pub fn check_call(name: &Ident, head: &Head, es: &[TypedExpr]) -> Result<(), FrontError>
    ensures value { Gives result (spec.call_suits name.now head.now es.now) }
{
    if head.own.is_some() {
        return Ok(());
    }
    let kinds = head.parameters.kinds.items();
    if es.len() == kinds.len() {
        check_arguments(kinds, es)
    } else {
        Err(fault(FaultCode::T2, name.span))
    }
}

fn check_alloc(
    structure: &Ident,
    name: &Ident,
    shape: u32,
    head: &Head,
    es: &[TypedExpr],
) -> Result<(), FrontError>
    ensures { Gives result (spec.alloc_suits structure.now name.now shape head.now es.now) }
{
    let Some(own) = head.own else {
        return Ok(());
    };
    let kinds = head.parameters.kinds.items();
    if es.len() != kinds.len() {
        return Err(fault(FaultCode::T2, name.span));
    }
    if own != shape {
        return Err(fault(FaultCode::T1, structure.span));
    }
    check_arguments(kinds, es)
}

fn asked_for(
    asked: Kind,
    given: Kind,
    at: Span,
    value: TypedValue,
) -> Result<TypedValue, FrontError>
    ensures { Gives result (spec.asked_for asked given at value) }
{
    if same_kind(asked, given) {
        Ok(value)
    } else {
        Err(fault(FaultCode::T1, at))
    }
}

fn plain_value(asked: Kind, e: TypedExpr) -> Result<TypedValue, FrontError>
    ensures { Gives result (spec.plain_value asked e) }
{
    if suits(asked, e.kind) {
        Ok(TypedValue::Plain(e))
    } else {
        Err(fault(FaultCode::T1, e.span))
    }
}

fn read_value(asked: Kind, at: Span, e: TypedExpr) -> Result<TypedValue, FrontError>
    ensures { Gives result (spec.read_value asked at e) }
{
    match held(e.kind) {
        Some(kind) => asked_for(asked, kind, at, TypedValue::Read(at, e)),
        None => Err(fault(FaultCode::T3, e.span)),
    }
}

/// A value for a variable of the type that is asked.
#[tactic(auto, unfolding(crate::specs::Statements::typed_value))]
pub fn type_value(site: &Site<'_, '_>, asked: Kind, value: &Value) -> Result<TypedValue, FrontError>
    ensures value { Gives result
        (spec.typed_value site.now.program.now site.now.own site.now.variables.now
        asked value.now) }
{
    match value {
        Value::Plain(e) => {
            let e = type_expr(site, e)?;
            plain_value(asked, e)
        }
        Value::Read(at, e) => {
            let e = type_expr(site, e)?;
            read_value(asked, *at, e)
        }
        Value::Alloc(at, structure, name, args) => {
            let shape = struct_number(&site.program.names, structure)?;
            let Some((function, head)) = site.program.functions.find(&name.text) else {
                return Err(fault(FaultCode::N1, name.span));
            };
            let args = type_exprs(site, args.items())?;
            check_alloc(structure, name, shape, head, args.items())?;
            let typed = TypedValue::Alloc {
                span: *at,
                shape,
                function,
                name: name.span,
                args,
            };
            asked_for(asked, Kind::Ptr(shape), *at, typed)
        }
        Value::ModrefInt(at) => { asked_for(asked, Kind::ModInt, *at, TypedValue::ModrefInt(*at)) }
        Value::Modref(at, structure) => {
            let shape = struct_number(&site.program.names, structure)?;
            asked_for(
                asked,
                Kind::ModPtr(shape),
                *at,
                TypedValue::Modref(*at, shape),
            )
        }
    }
}
