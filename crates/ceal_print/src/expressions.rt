// Expressions, types and values of a text.

ghost use Rattle.std.specs.Prelude.{◌≡◌, ◌++◌, ◌∷◌, [], codes, IfOk};
ghost use Rattle.ceal_lex.specs.declared.token.TokenKind.TheVariants.{Name};
ghost use Rattle.ceal_print.specs.PrintWords.{texts, expr_kinds, form_level, raised, more_kinds, argument_kinds};
ghost use Rattle.ceal_print.specs.PrintWords.{type_kinds, size_kinds, value_kinds};

use crate::text::{put_binary, put_length, put_name, put_named, put_number, put_unary};
use ceal_base::no_memory::NoMemory;
use ceal_base::syntax::{Expr, ExprForm, Ident, TypeForm, Value};
use ceal_base::text::Text;
use ceal_grammar::levels::binary_level;

/// The level of an expression, parentheses left out.
fn level(e: &Expr) -> u8
    ensures { result ≡ form_level e.now.form }
{
    match &e.form {
        ExprForm::Num(_) => 9,
        ExprForm::Null => 9,
        ExprForm::Var(_) => 9,
        ExprForm::Own => 9,
        ExprForm::Unary(_, _) => 7,
        ExprForm::Binary(op, _, _, _) => binary_level(*op),
        ExprForm::Field(_, _) => 8,
        ExprForm::Address(_) => 7,
        ExprForm::Pick(_, _) => 7,
    }
}

/// Adds an expression.
#[cycle(expr)]
#[tactic(auto, using(crate::proofs::PrintSteps::expr_steps))]
pub fn put_expr(out: &mut Text, e: &Expr) -> Result<(), NoMemory>
    ensures { IfOk result (λ _. out.new ≡ out.old ++ texts (expr_kinds e.now)) }
{
    match &e.form {
        ExprForm::Num(n) => put_number(out, *n),
        ExprForm::Null => out.append_str("null "),
        ExprForm::Var(x) => put_name(out, x),
        ExprForm::Own => out.append_str("self "),
        ExprForm::Unary(op, a) => {
            put_unary(out, *op)?;
            put_operand(out, 7, a.get())?;
            Ok(())
        }
        ExprForm::Binary(op, _, a, b) => {
            let level = binary_level(*op);
            put_operand(out, level, a.get())?;
            put_binary(out, *op)?;
            put_operand(out, level + 1, b.get())?;
            Ok(())
        }
        ExprForm::Field(a, x) => {
            put_operand(out, 8, a.get())?;
            put_named(out, "-> ", x)?;
            Ok(())
        }
        ExprForm::Address(a) => {
            out.append_str("& ")?;
            put_operand(out, 8, a.get())?;
            Ok(())
        }
        ExprForm::Pick(row, index) => {
            out.append_str("& ")?;
            put_operand(out, 8, row.get())?;
            put_within(out, "[ ", index.get(), "] ")?;
            Ok(())
        }
    }
}

/// Adds an operand, in parentheses where its level is below the one that is asked.
#[cycle(expr)]
#[tactic(auto, using(crate::proofs::PrintSteps::expr_steps))]
fn put_operand(out: &mut Text, asked: u8, e: &Expr) -> Result<(), NoMemory>
    ensures { IfOk result
        (λ _. out.new
        ≡ out.old ++ texts (raised asked (form_level e.now.form) (expr_kinds e.now))) }
{
    if asked <= level(e) {
        put_expr(out, e)
    } else {
        put_within(out, "( ", e, ") ")?;
        Ok(())
    }
}

/// Adds an expression between two texts.
#[cycle(expr)]
#[tactic(auto, using(crate::proofs::PrintSteps::expr_steps))]
pub fn put_within(out: &mut Text, before: &str, e: &Expr, after: &str) -> Result<(), NoMemory>
    ensures { IfOk result
        (λ _. out.new ≡ out.old ++ before.now ++ texts (expr_kinds e.now) ++ after.now) }
{
    out.append_str(before)?;
    put_expr(out, e)?;
    out.append_str(after)?;
    Ok(())
}

#[tactic(auto, using(crate::proofs::PrintSteps::list_steps))]
fn put_more(out: &mut Text, es: &[Expr]) -> Result<(), NoMemory>
    ensures { IfOk result (λ _. out.new ≡ out.old ++ texts (more_kinds es.now)) }
{
    let mut es = es;
    while let Some((e, more)) = es.split_first() {
        out.append_str(", ")?;
        put_expr(out, e)?;
        es = more;
    }
    Ok(())
}

/// Adds arguments.
#[tactic(auto, using(crate::proofs::PrintSteps::list_steps))]
pub fn put_arguments(out: &mut Text, es: &[Expr]) -> Result<(), NoMemory>
    ensures { IfOk result (λ _. out.new ≡ out.old ++ texts (argument_kinds es.now)) }
{
    match es.split_first() {
        None => Ok(()),
        Some((e, more)) => {
            put_expr(out, e)?;
            put_more(out, more)?;
            Ok(())
        }
    }
}

/// Adds a name with arguments, and what ends them.
#[tactic(auto, using(crate::proofs::PrintSteps::list_steps))]
pub fn put_applied(out: &mut Text, x: &Ident, es: &[Expr], end: &str) -> Result<(), NoMemory>
    ensures { IfOk result
        (λ _. out.new ≡ out.old ++ texts (Name x.now.text ∷ []) ++ codes "( "
        ++ texts (argument_kinds es.now) ++ end.now) }
{
    put_name(out, x)?;
    out.append_str("( ")?;
    put_arguments(out, es)?;
    out.append_str(end)?;
    Ok(())
}

/// Adds a type, without the length of a row.
#[tactic(auto, using(crate::proofs::PrintSteps::type_steps))]
pub fn put_type(out: &mut Text, form: &TypeForm) -> Result<(), NoMemory>
    ensures { IfOk result (λ _. out.new ≡ out.old ++ texts (type_kinds form.now)) }
{
    match form {
        TypeForm::Int => out.append_str("int "),
        TypeForm::Ptr(x) => {
            put_named(out, "struct ", x)?;
            out.append_str("* ")?;
            Ok(())
        }
        TypeForm::ModInt => out.append_str("mod int * "),
        TypeForm::ModPtr(x) => {
            put_named(out, "mod struct ", x)?;
            out.append_str("* ")?;
            Ok(())
        }
        TypeForm::CellInt => out.append_str("mod int "),
        TypeForm::CellPtr(x) => put_named(out, "mod struct ", x),
        TypeForm::CellRow(_) => out.append_str("mod int "),
        TypeForm::CellPtrRow(x, _) => put_named(out, "mod struct ", x),
    }
}

/// Adds the length of a row, where the type is that of one.
#[tactic(auto, using(crate::proofs::PrintSteps::size_steps))]
pub fn put_size(out: &mut Text, form: &TypeForm) -> Result<(), NoMemory>
    ensures { IfOk result (λ _. out.new ≡ out.old ++ texts (size_kinds form.now)) }
{
    match form {
        TypeForm::CellRow(length) => put_length(out, *length),
        TypeForm::CellPtrRow(_, length) => put_length(out, *length),
        _ => Ok(()),
    }
}

/// Adds what a variable is given.
#[tactic(auto, using(crate::proofs::PrintSteps::value_steps))]
pub fn put_value(out: &mut Text, value: &Value) -> Result<(), NoMemory>
    ensures { IfOk result (λ _. out.new ≡ out.old ++ texts (value_kinds value.now)) }
{
    match value {
        Value::Plain(e) => put_expr(out, e),
        Value::Read(_, e) => put_within(out, "read ( ", e, ") "),
        Value::Alloc(_, shape, function, args) => {
            put_named(out, "alloc ", shape)?;
            put_applied(out, function, args.items(), ") ")?;
            Ok(())
        }
        Value::ModrefInt(_) => out.append_str("modref int ( ) "),
        Value::Modref(_, shape) => {
            put_named(out, "modref ", shape)?;
            out.append_str("( ) ")?;
            Ok(())
        }
    }
}
