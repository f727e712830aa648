// Expressions with copies replaced and operators on constants applied.

ghost use Rattle.std.specs.Prelude.{◌≡◌, Some, IfOk};
ghost use Rattle.ceal_base.specs.declared.kind.Shape.TheVariants.{Struct};
ghost use Rattle.ceal_code.specs.Value.{field_kind, field_default};
ghost use Rattle.ceal_fold.specs.Folding.{use_of, constant, constant_expr, is_null, unary_folded, binary_folded};
ghost use Rattle.ceal_fold.specs.Folding.{field_folded, address_folded, folded_expr, folded_exprs, folded_command};
ghost use Rattle.ceal_fold.specs.States.{copy_at};

use crate::copies::Copied;
use crate::known::Known;
use ceal_base::boxed::Boxed;
use ceal_base::items::Items;
use ceal_base::kind::{FieldKind, Kind};
use ceal_base::no_memory::NoMemory;
use ceal_base::operators::{Binary, Unary, apply_binary, apply_unary};
use ceal_base::typed::StructInfo;
use ceal_base::word::Word;
use ceal_code::command::Cmd;
use ceal_code::expr::{CodeExpr, CodeExprs, VarId};
use std::alloc::Global;

fn used_as(v: VarId, copy: Option<Copied>) -> CodeExpr
    ensures value { result ≡ use_of v copy }
{
    match copy {
        None => CodeExpr::Var(v),
        Some(Copied::Num(n)) => CodeExpr::Num(n),
        Some(Copied::Null) => CodeExpr::Null,
        Some(Copied::Var(w)) => CodeExpr::Var(w),
    }
}

fn constant_of(e: &CodeExpr) -> Option<Word>
    ensures value { result ≡ constant e.now }
{
    match e {
        CodeExpr::Num(n) => Some(Word::Num(*n)),
        CodeExpr::Null => Some(Word::Null),
        CodeExpr::Var(_) => None,
        CodeExpr::Unary(_, _) => None,
        CodeExpr::Binary(_, _, _) => None,
        CodeExpr::Field(_, _, _) => None,
        CodeExpr::Address(_, _, _) => None,
    }
}

fn expr_of(word: Word) -> CodeExpr
    ensures value { result ≡ constant_expr word }
{
    match word {
        Word::Num(n) => CodeExpr::Num(n),
        Word::Null => CodeExpr::Null,
        Word::Block(_) => CodeExpr::Null,
        Word::At(_) => CodeExpr::Null,
    }
}

fn is_null_expr(e: &CodeExpr) -> bool
    ensures value { result ≡ is_null e.now }
{
    match e {
        CodeExpr::Num(_) => false,
        CodeExpr::Null => true,
        CodeExpr::Var(_) => false,
        CodeExpr::Unary(_, _) => false,
        CodeExpr::Binary(_, _, _) => false,
        CodeExpr::Field(_, _, _) => false,
        CodeExpr::Address(_, _, _) => false,
    }
}

fn kind_of_field(structs: &[StructInfo], s: u32, field: u32) -> Option<FieldKind>
    ensures value { result ≡ field_kind structs.now (Struct s) field }
{
    match structs.get(s as usize) {
        None => None,
        Some(info) => match info.fields.items().get(field as usize) {
            None => None,
            Some(field) => Some(field.kind),
        },
    }
}

fn default_at(kind: Option<FieldKind>) -> Word
    ensures value { result ≡ field_default kind }
{
    match kind {
        None => Word::Null,
        Some(FieldKind::Plain(Kind::Int)) => Word::Num(0),
        Some(FieldKind::Plain(Kind::Ptr(_))) => Word::Null,
        Some(FieldKind::Plain(Kind::ModInt)) => Word::Null,
        Some(FieldKind::Plain(Kind::ModPtr(_))) => Word::Null,
        Some(FieldKind::CellInt) => Word::Num(0),
        Some(FieldKind::CellPtr(_)) => Word::Null,
    }
}

fn unary(alloc: Global, op: Unary, a: CodeExpr) -> Result<CodeExpr, NoMemory>
    ensures value { IfOk result (λ e. e ≡ unary_folded op a (constant a)) }
{
    match constant_of(&a) {
        None => {
            let a = Boxed::new(alloc, a)?;
            Ok(CodeExpr::Unary(op, a))
        }
        Some(x) => Ok(expr_of(apply_unary(op, x))),
    }
}

fn kept_binary(alloc: Global, op: Binary, a: CodeExpr, b: CodeExpr) -> Result<CodeExpr, NoMemory>
    ensures value { IfOk result (λ e. e ≡ binary_folded op a b None None) }
{
    let a = Boxed::new(alloc, a)?;
    let b = Boxed::new(alloc, b)?;
    Ok(CodeExpr::Binary(op, a, b))
}

fn binary(alloc: Global, op: Binary, a: CodeExpr, b: CodeExpr) -> Result<CodeExpr, NoMemory>
    ensures value { IfOk result (λ e. e ≡ binary_folded op a b (constant a) (constant b)) }
{
    match constant_of(&a) {
        None => {
            let e = kept_binary(alloc, op, a, b)?;
            Ok(e)
        }
        Some(x) => match constant_of(&b) {
            None => {
                let e = kept_binary(alloc, op, a, b)?;
                Ok(e)
            }
            Some(y) => Ok(expr_of(apply_binary(op, x, y))),
        },
    }
}

fn field(
    alloc: Global,
    structs: &[StructInfo],
    a: CodeExpr,
    s: u32,
    field: u32,
) -> Result<CodeExpr, NoMemory>
    ensures value { IfOk result (λ e. e ≡ field_folded structs.now a s field) }
{
    if is_null_expr(&a) {
        return Ok(expr_of(default_at(kind_of_field(structs, s, field))));
    }
    let a = Boxed::new(alloc, a)?;
    Ok(CodeExpr::Field(a, s, field))
}

fn address(alloc: Global, a: CodeExpr, s: u32, field: u32) -> Result<CodeExpr, NoMemory>
    ensures value { IfOk result (λ e. e ≡ address_folded a s field) }
{
    if is_null_expr(&a) {
        return Ok(CodeExpr::Null);
    }
    let a = Boxed::new(alloc, a)?;
    Ok(CodeExpr::Address(a, s, field))
}

/// The recursion is as deep as the expression is.
#[tactic(auto, using(crate::proofs::ExprSteps::fold_steps))]
pub fn fold_expr(
    alloc: Global,
    structs: &[StructInfo],
    known: &Known,
    e: &CodeExpr,
) -> Result<CodeExpr, NoMemory>
    ensures value { IfOk result (λ f. f ≡ folded_expr structs.now (copy_at known.now) e.now) }
{
    match e {
        CodeExpr::Num(n) => Ok(CodeExpr::Num(*n)),
        CodeExpr::Null => Ok(CodeExpr::Null),
        CodeExpr::Var(v) => Ok(used_as(*v, known.copy_of(*v))),
        CodeExpr::Unary(op, a) => {
            let a = fold_expr(alloc, structs, known, a.get())?;
            let e = unary(alloc, *op, a)?;
            Ok(e)
        }
        CodeExpr::Binary(op, a, b) => {
            let a = fold_expr(alloc, structs, known, a.get())?;
            let b = fold_expr(alloc, structs, known, b.get())?;
            let e = binary(alloc, *op, a, b)?;
            Ok(e)
        }
        CodeExpr::Field(a, s, f) => {
            let a = fold_expr(alloc, structs, known, a.get())?;
            let e = field(alloc, structs, a, *s, *f)?;
            Ok(e)
        }
        CodeExpr::Address(a, s, f) => {
            let a = fold_expr(alloc, structs, known, a.get())?;
            let e = address(alloc, a, *s, *f)?;
            Ok(e)
        }
    }
}

#[tactic(auto, using(crate::proofs::ExprSteps::list_steps))]
fn fold_exprs(
    alloc: Global,
    structs: &[StructInfo],
    known: &Known,
    es: &[CodeExpr],
) -> Result<CodeExprs, NoMemory>
    ensures value { IfOk result
        (λ list. list ≡ folded_exprs structs.now (copy_at known.now) es.now) }
{
    let mut list = Vec::with_capacity(alloc, es.len())?;
    let mut rest = es;
    while let Some((e, more)) = rest.split_first() {
        let e = fold_expr(alloc, structs, known, e)?;
        list.push(e)?;
        rest = more;
    }
    Ok(Items::new(list))
}

fn fold_two(
    alloc: Global,
    structs: &[StructInfo],
    known: &Known,
    a: &CodeExpr,
    b: &CodeExpr,
) -> Result<(CodeExpr, CodeExpr), NoMemory>
    ensures value { IfOk result
        (λ both. both ≡ (
          folded_expr structs.now (copy_at known.now) a.now,
          folded_expr structs.now (copy_at known.now) b.now,
        )) }
{
    let a = fold_expr(alloc, structs, known, a)?;
    match fold_expr(alloc, structs, known, b) {
        Ok(b) => Ok((a, b)),
        Err(error) => {
            drop(a);
            Err(error)
        }
    }
}

fn fold_call(
    alloc: Global,
    structs: &[StructInfo],
    known: &Known,
    args: &[CodeExpr],
    rest: &[CodeExpr],
) -> Result<(CodeExprs, CodeExprs), NoMemory>
    ensures value { IfOk result
        (λ both. both ≡ (
          folded_exprs structs.now (copy_at known.now) args.now,
          folded_exprs structs.now (copy_at known.now) rest.now,
        )) }
{
    let args = fold_exprs(alloc, structs, known, args)?;
    let rest = fold_exprs(alloc, structs, known, rest)?;
    Ok((args, rest))
}

fn fold_read(
    alloc: Global,
    structs: &[StructInfo],
    known: &Known,
    place: &CodeExpr,
    args: &[CodeExpr],
) -> Result<(CodeExpr, CodeExprs), NoMemory>
    ensures value { IfOk result
        (λ both. both ≡ (
          folded_expr structs.now (copy_at known.now) place.now,
          folded_exprs structs.now (copy_at known.now) args.now,
        )) }
{
    let args = fold_exprs(alloc, structs, known, args)?;
    let place = fold_expr(alloc, structs, known, place)?;
    Ok((place, args))
}

/// A command with its expressions folded.
pub fn fold_command(
    alloc: Global,
    structs: &[StructInfo],
    known: &Known,
    command: &Cmd,
) -> Result<Cmd, NoMemory>
    ensures value { IfOk result
        (λ c. c ≡ folded_command structs.now (copy_at known.now) command.now) }
{
    match command {
        Cmd::Move { var, value } => {
            let value = fold_expr(alloc, structs, known, value)?;
            Ok(Cmd::Move { var: *var, value })
        }
        Cmd::Tick => Ok(Cmd::Tick),
        Cmd::Alloc {
            var,
            function,
            args,
        } => {
            let args = fold_exprs(alloc, structs, known, args.items())?;
            Ok(Cmd::Alloc {
                var: *var,
                function: *function,
                args,
            })
        }
        Cmd::Modref { var, shape } => Ok(Cmd::Modref {
            var: *var,
            shape: *shape,
        }),
        Cmd::Write { place, value } => {
            let (place, value) = fold_two(alloc, structs, known, place, value)?;
            Ok(Cmd::Write { place, value })
        }
        Cmd::If { test, yes, no } => {
            let test = fold_expr(alloc, structs, known, test)?;
            Ok(Cmd::If {
                test,
                yes: *yes,
                no: *no,
            })
        }
        Cmd::Done => Ok(Cmd::Done),
        Cmd::Tail { unit, args } => {
            let args = fold_exprs(alloc, structs, known, args.items())?;
            Ok(Cmd::Tail { unit: *unit, args })
        }
        Cmd::Read {
            var,
            place,
            unit,
            args,
        } => {
            let (place, args) = fold_read(alloc, structs, known, place, args.items())?;
            Ok(Cmd::Read {
                var: *var,
                place,
                unit: *unit,
                args,
            })
        }
        Cmd::Call {
            function,
            args,
            unit,
            rest,
        } => {
            let (args, rest) = fold_call(alloc, structs, known, args.items(), rest.items())?;
            Ok(Cmd::Call {
                function: *function,
                args,
                unit: *unit,
                rest,
            })
        }
    }
}
