// The commands of statements and of jumps.

ghost use Rattle.std.specs.Prelude.{◌≡◌, ◌<◌, length, slice_get, IfOk};
ghost use Rattle.ceal_norm.specs.Body.{value_command, stmt_command, tail_command};
ghost use Rattle.ceal_norm.specs.Expressions.{variable, expr_code};
ghost use Rattle.ceal_norm.specs.Units.{unit_of, args_of, closure_args, call_args, entry_set};
ghost use Rattle.ceal_code.specs.declared.command.Cmd.TheVariants as Cmd;

use crate::expressions::{call_args_of, expr_of, exprs_of, other_args_of, own_args_of};
use crate::plan::Plan;
use ceal_base::kind::Shape;
use ceal_base::no_memory::NoMemory;
use ceal_base::typed::{TypedExpr, TypedStmt, TypedValue};
use ceal_code::command::Cmd;
use ceal_code::expr::VarId;
use std::alloc::Global;

fn read_command(
    alloc: Global,
    plan: &Plan<'_>,
    next: u32,
    n: u32,
    place: &TypedExpr,
) -> Result<Cmd, NoMemory>
    requires there { next < length plan.now.graph.blocks }
    ensures { IfOk result
        (λ c. c
        ≡ Cmd.Read (variable n) (expr_code place.now) (unit_of plan.now next)
        (closure_args plan.now n next)) }
{
    let place = expr_of(alloc, place)?;
    let vs = plan.variables(alloc, next)?;
    let args = other_args_of(alloc, n, vs.as_slice())?;
    let unit = plan.unit(next);
    Ok(Cmd::Read {
        var: VarId(n),
        place,
        unit,
        args,
    })
}

fn command_of_value(
    alloc: Global,
    plan: &Plan<'_>,
    next: u32,
    n: u32,
    value: &TypedValue,
) -> Result<Cmd, NoMemory>
    requires there { next < length plan.now.graph.blocks }
    ensures { IfOk result (λ c. c ≡ value_command plan.now next n value.now) }
{
    match value {
        TypedValue::Plain(e) => {
            let value = expr_of(alloc, e)?;
            Ok(Cmd::Move {
                var: VarId(n),
                value,
            })
        }
        TypedValue::Read(_, e) => {
            let command = read_command(alloc, plan, next, n, e)?;
            Ok(command)
        }
        TypedValue::Alloc { function, args, .. } => {
            let args = exprs_of(alloc, args.items())?;
            Ok(Cmd::Alloc {
                var: VarId(n),
                function: *function,
                args,
            })
        }
        TypedValue::ModrefInt(_) => Ok(Cmd::Modref {
            var: VarId(n),
            shape: Shape::ModInt,
        }),
        TypedValue::Modref(_, shape) => Ok(Cmd::Modref {
            var: VarId(n),
            shape: Shape::ModPtr(*shape),
        }),
    }
}

fn write_command(alloc: Global, place: &TypedExpr, value: &TypedExpr) -> Result<Cmd, NoMemory>
    ensures { IfOk result (λ c. c ≡ Cmd.Write (expr_code place.now) (expr_code value.now)) }
{
    let place = expr_of(alloc, place)?;
    let value = expr_of(alloc, value)?;
    Ok(Cmd::Write { place, value })
}

fn call_command(
    alloc: Global,
    plan: &Plan<'_>,
    next: u32,
    function: u32,
    args: &[TypedExpr],
) -> Result<Cmd, NoMemory>
    requires there { next < length plan.now.graph.blocks }
    ensures { IfOk result
        (λ c. c ≡ Cmd.Call function
        (call_args args.now (entry_set plan.now (slice_get plan.now.graph.functions function)))
        (unit_of plan.now next) (args_of plan.now next)) }
{
    let vs = plan.entry_variables(alloc, function)?;
    let args = call_args_of(alloc, args, vs.as_slice())?;
    let live = plan.variables(alloc, next)?;
    let rest = own_args_of(alloc, live.as_slice())?;
    let after = plan.unit(next);
    Ok(Cmd::Call {
        function,
        args,
        unit: after,
        rest,
    })
}

/// The command of a statement, from which a jump leads to `next`.
pub fn command_of(alloc: Global, plan: &Plan<'_>, next: u32, s: &TypedStmt) -> Result<Cmd, NoMemory>
    requires there { next < length plan.now.graph.blocks }
    ensures { IfOk result (λ c. c ≡ stmt_command plan.now next s.now) }
{
    match s {
        TypedStmt::Declare(_, n, _, value) => command_of_value(alloc, plan, next, *n, value),
        TypedStmt::Assign(_, n, value) => command_of_value(alloc, plan, next, *n, value),
        TypedStmt::Write(_, place, value) => write_command(alloc, place, value),
        TypedStmt::Call(_, f, args) => call_command(alloc, plan, next, *f, args.items()),
        TypedStmt::SetField(..) => Ok(Cmd::Tick),
        TypedStmt::If(..) => Ok(Cmd::Tick),
        TypedStmt::While(..) => Ok(Cmd::Tick),
        TypedStmt::Return(..) => Ok(Cmd::Tick),
        TypedStmt::Break(..) => Ok(Cmd::Tick),
        TypedStmt::Continue(..) => Ok(Cmd::Tick),
    }
}

/// A tail call of the unit of an entry.
pub fn tail(alloc: Global, plan: &Plan<'_>, b: u32) -> Result<Cmd, NoMemory>
    requires there { b < length plan.now.graph.blocks }
    ensures { IfOk result (λ c. c ≡ tail_command plan.now b) }
{
    let vs = plan.variables(alloc, b)?;
    let args = own_args_of(alloc, vs.as_slice())?;
    Ok(Cmd::Tail {
        unit: plan.unit(b),
        args,
    })
}
