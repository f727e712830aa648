// The statements of core functions and of initialisers. The functions recurse as deep as statements are nested.

ghost use Rattle.std.specs.Prelude.{◌≡◌, slice_get};
ghost use Rattle.ceal_base.specs.Faults.{one, faults_of_each};
ghost use Rattle.ceal_usage.specs.Verdict.{verdict};
ghost use Rattle.std.specs.Prelude.{[], if◌then◌else◌, true};
ghost use Rattle.ceal_base.specs.declared.fault.FaultCode.TheVariants.{U4, U5};
ghost use Rattle.ceal_usage.specs.Faults.{is_core, is_initialiser, value_faults, loop_faults, core_faults};
ghost use Rattle.ceal_usage.specs.Faults.{target_faults, init_faults};

use crate::mention::{check_mentions, fault};
use ceal_base::fault::{Fault, FaultCode, Span};
use ceal_base::typed::{TypedExpr, TypedForm, TypedFunction, TypedStmt, TypedValue};

fn names_core(functions: &[TypedFunction], number: u32) -> bool
    ensures { result ≡ is_core (slice_get functions.now number) }
{
    match functions.get(number as usize) {
        Some(found) => found.initialiser.is_none(),
        None => false,
    }
}

fn names_initialiser(functions: &[TypedFunction], number: u32) -> bool
    ensures { result ≡ is_initialiser (slice_get functions.now number) }
{
    match functions.get(number as usize) {
        Some(found) => found.initialiser.is_some(),
        None => false,
    }
}

fn check_alloc(functions: &[TypedFunction], number: u32, name: Span) -> Result<(), Fault>
    ensures { result
        ≡ verdict (if is_initialiser (slice_get functions.now number) then [] else one U5 name) }
{
    if names_initialiser(functions, number) {
        Ok(())
    } else {
        fault(FaultCode::U5, name)
    }
}

fn check_call(functions: &[TypedFunction], number: u32, name: Span) -> Result<(), Fault>
    ensures { result
        ≡ verdict (if is_core (slice_get functions.now number) then [] else one U4 name) }
{
    if names_core(functions, number) {
        Ok(())
    } else {
        fault(FaultCode::U4, name)
    }
}

fn check_value(functions: &[TypedFunction], value: &TypedValue) -> Result<(), Fault>
    ensures { result ≡ verdict (value_faults functions.now value.now) }
{
    match value {
        TypedValue::Plain(_) => Ok(()),
        TypedValue::Read(_, _) => Ok(()),
        TypedValue::Alloc { function, name, .. } => check_alloc(functions, *function, *name),
        TypedValue::ModrefInt(_) => Ok(()),
        TypedValue::Modref(_, _) => Ok(()),
    }
}

fn check_loop(looped: bool, at: Span) -> Result<(), Fault>
    ensures { result ≡ verdict (loop_faults looped at) }
{
    if looped {
        Ok(())
    } else {
        fault(FaultCode::U6, at)
    }
}

/// U1, U4, U5 or U6 at the first statement of a core function that breaks a rule, `looped` saying whether the
/// statements are in a loop.
#[cycle(core)]
#[tactic(auto, using(crate::proofs::UsageSteps::core_steps))]
pub fn check_core_body(
    functions: &[TypedFunction],
    looped: bool,
    stmts: &[TypedStmt],
) -> Result<(), Fault>
    ensures first { result ≡ verdict (faults_of_each (core_faults functions.now looped) stmts.now) }
{
    for s in stmts {
        check_core_stmt(functions, looped, s)?;
    }
    Ok(())
}

#[cycle(core)]
#[tactic(auto, using(crate::proofs::UsageSteps::core_steps))]
fn check_core_stmt(functions: &[TypedFunction], looped: bool, s: &TypedStmt) -> Result<(), Fault>
    ensures first { result ≡ verdict (core_faults functions.now looped s.now) }
{
    match s {
        TypedStmt::Declare(_, _, _, value) => check_value(functions, value),
        TypedStmt::Assign(_, _, value) => check_value(functions, value),
        TypedStmt::SetField(at, ..) => fault(FaultCode::U1, *at),
        TypedStmt::Write(..) => Ok(()),
        TypedStmt::Call(at, number, _) => check_call(functions, *number, *at),
        TypedStmt::If(_, _, first, second) => {
            check_core_body(functions, looped, first.items())?;
            check_core_body(functions, looped, second.items())
        }
        TypedStmt::While(_, _, body) => check_core_body(functions, true, body.items()),
        TypedStmt::Return(_) => Ok(()),
        TypedStmt::Break(at) => check_loop(looped, *at),
        TypedStmt::Continue(at) => check_loop(looped, *at),
    }
}

fn check_target(at: Span, left: &TypedExpr) -> Result<(), Fault>
    ensures { result ≡ verdict (target_faults at left.now) }
{
    match &left.form {
        TypedForm::Own => Ok(()),
        _ => fault(FaultCode::U1, at),
    }
}

/// U1, U2 or U3 at the first place in an initialiser that breaks a rule.
#[cycle(init)]
#[tactic(auto, using(crate::proofs::UsageSteps::init_steps))]
pub fn check_init_body(stmts: &[TypedStmt]) -> Result<(), Fault>
    ensures first { result ≡ verdict (faults_of_each init_faults stmts.now) }
{
    for s in stmts {
        check_init_stmt(s)?;
    }
    Ok(())
}

#[cycle(init)]
#[tactic(auto, using(crate::proofs::UsageSteps::init_steps))]
fn check_init_stmt(s: &TypedStmt) -> Result<(), Fault>
    ensures first { result ≡ verdict (init_faults s.now) }
{
    match s {
        TypedStmt::SetField(at, left, _, _, e) => {
            check_target(*at, left)?;
            check_mentions(e)
        }
        TypedStmt::If(_, test, first, second) => {
            check_mentions(test)?;
            check_init_body(first.items())?;
            check_init_body(second.items())
        }
        TypedStmt::Declare(at, ..) => fault(FaultCode::U2, *at),
        TypedStmt::Assign(at, ..) => fault(FaultCode::U2, *at),
        TypedStmt::Write(at, ..) => fault(FaultCode::U2, *at),
        TypedStmt::Call(at, ..) => fault(FaultCode::U2, *at),
        TypedStmt::While(at, ..) => fault(FaultCode::U2, *at),
        TypedStmt::Return(at) => fault(FaultCode::U2, *at),
        TypedStmt::Break(at) => fault(FaultCode::U2, *at),
        TypedStmt::Continue(at) => fault(FaultCode::U2, *at),
    }
}
