// Expressions of a program as those of trace code. The functions recurse as deep as expressions are nested.

ghost use Rattle.std.specs.Prelude.{◌≡◌, ◌==◌, [], ◌∷◌, ◌++◌, if◌then◌else◌, map, slice_get, IfOk, OnOk};
ghost use Rattle.ceal_norm.specs.Expressions.{expr_code};
ghost use Rattle.ceal_norm.specs.Units.{own_args, arg_at, call_args, without};

use ceal_base::boxed::Boxed;
use ceal_base::items::Items;
use ceal_base::no_memory::NoMemory;
use ceal_base::typed::{TypedExpr, TypedForm};
use ceal_code::expr::{CodeExpr, CodeExprs, VarId};
use std::alloc::Global;

/// The expression, without its kind and its places.
#[cycle(expr)]
#[tactic(auto, using(crate::proofs::Equations::ExpressionSteps::expr_steps))]
pub fn expr_of(alloc: Global, e: &TypedExpr) -> Result<CodeExpr, NoMemory>
    ensures value { IfOk result (λ c. c ≡ expr_code e.now) }
{
    match &e.form {
        TypedForm::Num(n) => Ok(CodeExpr::Num(*n)),
        TypedForm::Null => Ok(CodeExpr::Null),
        TypedForm::Var(n) => Ok(CodeExpr::Var(VarId(*n))),
        TypedForm::Own => Ok(CodeExpr::Null),
        TypedForm::Unary(op, a) => {
            let a = operand_of(alloc, a.get())?;
            Ok(CodeExpr::Unary(*op, a))
        }
        TypedForm::Binary(op, _, a, b) => {
            let a = operand_of(alloc, a.get())?;
            let b = operand_of(alloc, b.get())?;
            Ok(CodeExpr::Binary(*op, a, b))
        }
        TypedForm::Field(a, shape, field) => {
            let a = operand_of(alloc, a.get())?;
            Ok(CodeExpr::Field(a, *shape, *field))
        }
        TypedForm::Address(a, shape, field) => {
            let a = operand_of(alloc, a.get())?;
            Ok(CodeExpr::Address(a, *shape, *field))
        }
    }
}

#[cycle(expr)]
fn operand_of(alloc: Global, e: &TypedExpr) -> Result<Boxed<CodeExpr>, NoMemory>
    ensures value { IfOk result (λ c. c ≡ expr_code e.now) }
{
    let e = expr_of(alloc, e)?;
    Boxed::new(alloc, e)
}

/// The expressions in their order.
pub fn exprs_of(alloc: Global, es: &[TypedExpr]) -> Result<CodeExprs, NoMemory>
    ensures value { IfOk result (λ cs. cs ≡ map expr_code es.now) }
{
    let mut out = Vec::new(alloc);
    for e in es {
        out.push(expr_of(alloc, e)?)?;
    }
    Ok(Items::new(out))
}

/// The variables themselves.
pub fn own_args_of(alloc: Global, vs: &[u32]) -> Result<CodeExprs, NoMemory>
    ensures value { IfOk result (λ cs. cs ≡ own_args vs.now) }
{
    let mut out = Vec::with_capacity(alloc, vs.len())?;
    for v in vs {
        out.push(CodeExpr::Var(VarId(*v)))?;
    }
    Ok(Items::new(out))
}

fn put_other(out: &mut Vec<CodeExpr>, but: u32, v: u32) -> Result<(), NoMemory>
    ensures { OnOk result
        (out.new.items ≡ out.old.items ++ own_args (if v == but then [] else v ∷ [])) }
{
    if v != but {
        out.push(CodeExpr::Var(VarId(v)))?;
    }
    Ok(())
}

/// The variables themselves but one.
#[tactic(auto, using(crate::proofs::Equations::ExpressionSteps::others_steps))]
pub fn other_args_of(alloc: Global, but: u32, vs: &[u32]) -> Result<CodeExprs, NoMemory>
    ensures value { IfOk result (λ cs. cs ≡ own_args (without but vs.now)) }
{
    let mut out = Vec::with_capacity(alloc, vs.len())?;
    let mut vs = vs;
    while let Some((v, more)) = vs.split_first() {
        put_other(&mut out, but, *v)?;
        vs = more;
    }
    Ok(Items::new(out))
}

fn arg_of(alloc: Global, es: &[TypedExpr], v: u32) -> Result<CodeExpr, NoMemory>
    ensures { IfOk result (λ c. c ≡ arg_at (slice_get es.now v)) }
{
    match es.get(v as usize) {
        None => Ok(CodeExpr::Null),
        Some(e) => expr_of(alloc, e),
    }
}

/// Of the arguments of a call those of these numbers.
pub fn call_args_of(alloc: Global, es: &[TypedExpr], vs: &[u32]) -> Result<CodeExprs, NoMemory>
    ensures value { IfOk result (λ cs. cs ≡ call_args es.now vs.now) }
{
    let mut out = Vec::with_capacity(alloc, vs.len())?;
    for v in vs {
        out.push(arg_of(alloc, es, *v)?)?;
    }
    Ok(Items::new(out))
}
