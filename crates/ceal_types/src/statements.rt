// The types of statements, and which variables are in scope where.

ghost use Rattle.std.specs.Prelude.{◌≡◌, Option, length, IfOk};
ghost use Rattle.std.specs.Map.{lookup};
ghost use Rattle.std.specs.Str.{bytes_eq};
ghost use Rattle.ceal_base.specs.Answers.{Gives};
ghost use Rattle.ceal_types.specs.Statements.{block, inner_block, typed_stmts, typed_stmt};
ghost use Rattle.ceal_types.specs.Statements.{step as step_of};
ghost use Rattle.ceal_types.specs.Statements as spec;
ghost use Rattle.ceal_types.specs.States.{Makes};
ghost use Rattle.ceal_types.specs.Tables.{find};

use crate::expressions::type_expr;
use crate::heads::{add_variable, kind_of};
use crate::kinds::{held, suits};
use crate::members::{fault, find_member};
use crate::program::{Body, Site, Variables};
use crate::values::{check_call, type_condition, type_exprs, type_value, with_room};
use ceal_base::fault::{FaultCode, FrontError, Span};
use ceal_base::kind::{FieldKind, Kind};
use ceal_base::syntax::{Expr, Ident, Stmt, TypeForm, Value};
use ceal_base::typed::{TypedExpr, TypedStmt, TypedStmts};

/// A declaration whose type is known.
#[derive(Clone, Copy)]
struct Declaration<'a> {
    at: Span,
    name: &'a Ident,
    kind: Kind,
    value: &'a Value,
}

/// A declaration: the variable is in scope after its value.
fn type_declared(
    body: &Body<'_>,
    variables: &mut Variables,
    declared: &Declaration<'_>,
) -> Result<TypedStmt, FrontError>
    ensures { Makes step_of result variables.new
        (spec.declare body.now.program.now body.now.own declared.now.at declared.now.name.now
        declared.now.value.now variables.old declared.now.kind) }
{
    let name = declared.name;
    let kind = declared.kind;
    if variables.scope.has(&name.text) {
        return Err(fault(FaultCode::N2, name.span));
    }
    let value = type_value(&body.site(&variables.scope), kind, declared.value)?;
    let number = add_variable(variables, &name.text, kind)?;
    Ok(TypedStmt::Declare(declared.at, number, kind, value))
}

fn type_assigned(site: &Site<'_, '_>, name: &Ident, value: &Value) -> Result<TypedStmt, FrontError>
    ensures { Gives result
        (spec.assign_if_found site.now.program.now site.now.own name.now value.now
        site.now.variables.now (lookup (bytes_eq name.now.text) site.now.variables.now)) }
{
    match site.variables.get(&name.text) {
        Some(variable) => {
            let value = type_value(site, variable.kind, value)?;
            Ok(TypedStmt::Assign(name.span, variable.number, value))
        }
        None => Err(fault(FaultCode::N1, name.span)),
    }
}

/// The type of a field that may be assigned, a plain one.
fn plain_kind(name: &Ident, kind: FieldKind) -> Result<Kind, FrontError>
    ensures { Gives result (spec.plain_kind name.now kind) }
{
    match kind {
        FieldKind::Plain(kind) => Ok(kind),
        FieldKind::CellInt => Err(fault(FaultCode::T1, name.span)),
        FieldKind::CellPtr(_) => Err(fault(FaultCode::T1, name.span)),
    }
}

fn type_set(
    site: &Site<'_, '_>,
    at: Span,
    left: &Expr,
    name: &Ident,
    e: &Expr,
) -> Result<TypedStmt, FrontError>
    ensures { Gives result
        (spec.set_field site.now.program.now site.now.own site.now.variables.now
        at left.now name.now e.now) }
{
    let left = type_expr(site, left)?;
    let member = find_member(&site.program.structs, name, &left)?;
    let kind = plain_kind(name, member.kind)?;
    let e = type_expr(site, e)?;
    if suits(kind, e.kind) {
        Ok(TypedStmt::SetField(at, left, member.shape, member.field, e))
    } else {
        let wrong = e.span;
        drop(left);
        drop(e);
        Err(fault(FaultCode::T1, wrong))
    }
}

fn type_written(at: Span, place: TypedExpr, e: TypedExpr) -> Result<TypedStmt, FrontError>
    ensures { Gives result (spec.write_of at place e) }
{
    match held(place.kind) {
        Some(kind) => {
            if suits(kind, e.kind) {
                Ok(TypedStmt::Write(at, place, e))
            } else {
                let wrong = e.span;
                drop(place);
                drop(e);
                Err(fault(FaultCode::T1, wrong))
            }
        }
        None => {
            let wrong = place.span;
            drop(place);
            drop(e);
            Err(fault(FaultCode::T3, wrong))
        }
    }
}

fn type_write(
    site: &Site<'_, '_>,
    at: Span,
    place: &Expr,
    e: &Expr,
) -> Result<TypedStmt, FrontError>
    ensures { Gives result
        (spec.write site.now.program.now site.now.own site.now.variables.now at place.now e.now) }
{
    let place = type_expr(site, place)?;
    let e = type_expr(site, e)?;
    type_written(at, place, e)
}

fn type_called(site: &Site<'_, '_>, name: &Ident, args: &[Expr]) -> Result<TypedStmt, FrontError>
    ensures { Gives result
        (spec.call_if_found site.now.program.now site.now.own site.now.variables.now
        name.now args.now (find site.now.program.now.functions name.now.text)) }
{
    match site.program.functions.find(&name.text) {
        Some((function, head)) => {
            let args = type_exprs(site, args)?;
            check_call(name, head, args.items())?;
            Ok(TypedStmt::Call(name.span, function, args))
        }
        None => Err(fault(FaultCode::N1, name.span)),
    }
}

/// The statements of a block. What it declares leaves the scope at its end. It recurses as deep as blocks are nested.
#[cycle(stmts)]
#[tactic(auto, using(crate::proofs::StatementSteps::statement_steps))]
pub fn type_block(
    body: &Body<'_>,
    variables: &mut Variables,
    stmts: &[Stmt],
) -> Result<TypedStmts, FrontError>
    ensures value { Makes block result variables.new
        (inner_block (typed_stmts body.now.program.now body.now.own stmts.now) variables.old) }
{
    let outer = variables.scope.len();
    let mut typed = with_room(body.alloc, stmts.len())?;
    for s in stmts {
        let s = type_stmt(body, variables, s)?;
        typed.push(s)?;
    }
    variables.scope.truncate(outer);
    Ok(typed)
}

#[cycle(stmts)]
#[tactic(auto, using(crate::proofs::StatementSteps::statement_steps))]
fn type_stmt(body: &Body<'_>, variables: &mut Variables, s: &Stmt) -> Result<TypedStmt, FrontError>
    ensures value { Makes step_of result variables.new
        (typed_stmt body.now.program.now body.now.own s.now variables.old) }
{
    match s {
        Stmt::Declare(at, form, name, value) => {
            let kind = kind_of(&body.program.names, form)?;
            let declared = Declaration {
                at: *at,
                name,
                kind,
                value,
            };
            type_declared(body, variables, &declared)
        }
        Stmt::Assign(name, value) => { type_assigned(&body.site(&variables.scope), name, value) }
        Stmt::SetField(at, left, name, e) => {
            type_set(&body.site(&variables.scope), *at, left, name, e)
        }
        Stmt::Write(at, place, e) => { type_write(&body.site(&variables.scope), *at, place, e) }
        Stmt::Call(name, args) => { type_called(&body.site(&variables.scope), name, args.items()) }
        Stmt::If(at, test, first, second) => {
            let test = type_condition(&body.site(&variables.scope), test)?;
            let first = type_block(body, variables, first.items())?;
            let second = type_block(body, variables, second.items())?;
            Ok(TypedStmt::If(*at, test, first, second))
        }
        Stmt::While(at, test, stmts) => {
            let test = type_condition(&body.site(&variables.scope), test)?;
            let stmts = type_block(body, variables, stmts.items())?;
            Ok(TypedStmt::While(*at, test, stmts))
        }
        Stmt::Return(at) => Ok(TypedStmt::Return(*at)),
        Stmt::Break(at) => Ok(TypedStmt::Break(*at)),
        Stmt::Continue(at) => Ok(TypedStmt::Continue(*at)),
    }
}
