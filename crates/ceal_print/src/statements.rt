// Statements of a text.

ghost use Rattle.std.specs.Prelude.{◌≡◌, ◌++◌, ◌∷◌, [], codes, if◌then◌else◌, IfOk};
ghost use Rattle.ceal_lex.specs.declared.token.TokenKind.TheVariants.{Name};
ghost use Rattle.ceal_print.specs.PrintWords.{texts, value_kinds, is_branch, is_chain, braced, stmt_kinds, stmts_kinds};
ghost use Rattle.ceal_print.specs.PrintWords.{second_kinds};

use crate::expressions::{put_applied, put_expr, put_type, put_value, put_within};
use crate::text::{put_name, put_named};
use ceal_base::no_memory::NoMemory;
use ceal_base::syntax::{Ident, Stmt, Value};
use ceal_base::text::Text;

/// Adds a variable, what it is given, and the end of the statement.
#[tactic(auto, using(crate::proofs::PrintSteps::stmt_steps))]
fn put_given(out: &mut Text, x: &Ident, value: &Value) -> Result<(), NoMemory>
    ensures { IfOk result
        (λ _. out.new ≡ out.old ++ texts (Name x.now.text ∷ []) ++ codes "= "
        ++ texts (value_kinds value.now) ++ codes ";\n") }
{
    put_name(out, x)?;
    out.append_str("= ")?;
    put_value(out, value)?;
    out.append_str(";\n")?;
    Ok(())
}

/// Adds a statement.
#[cycle(lines)]
#[tactic(auto, using(crate::proofs::PrintSteps::stmt_steps))]
fn put_stmt(out: &mut Text, s: &Stmt) -> Result<(), NoMemory>
    ensures { IfOk result (λ _. out.new ≡ out.old ++ texts (stmt_kinds s.now)) }
{
    match s {
        Stmt::Declare(_, form, x, value) => {
            put_type(out, form)?;
            put_given(out, x, value)?;
            Ok(())
        }
        Stmt::Assign(x, value) => put_given(out, x, value),
        Stmt::SetField(_, left, field, right) => {
            put_expr(out, left)?;
            put_named(out, "-> ", field)?;
            put_within(out, "= ", right, ";\n")?;
            Ok(())
        }
        Stmt::Write(_, place, value) => {
            put_within(out, "write ( ", place, ", ")?;
            put_expr(out, value)?;
            out.append_str(") ;\n")?;
            Ok(())
        }
        Stmt::Call(x, args) => put_applied(out, x, args.items(), ") ;\n"),
        Stmt::If(_, test, first, second) => {
            put_within(out, "if ( ", test, ") ")?;
            put_block(out, first.items())?;
            put_second(out, second.items())?;
            Ok(())
        }
        Stmt::While(_, test, body) => {
            put_within(out, "while ( ", test, ") ")?;
            put_block(out, body.items())?;
            Ok(())
        }
        Stmt::Return(_) => out.append_str("return ;\n"),
        Stmt::Break(_) => out.append_str("break ;\n"),
        Stmt::Continue(_) => out.append_str("continue ;\n"),
    }
}

#[cycle(lines)]
#[tactic(auto, using(crate::proofs::PrintSteps::stmts_steps))]
fn put_stmts(out: &mut Text, stmts: &[Stmt]) -> Result<(), NoMemory>
    ensures { IfOk result (λ _. out.new ≡ out.old ++ texts (stmts_kinds stmts.now)) }
{
    for s in stmts {
        put_stmt(out, s)?;
    }
    Ok(())
}

/// Adds statements in braces.
#[cycle(lines)]
#[tactic(auto, using(crate::proofs::PrintSteps::block_steps))]
pub fn put_block(out: &mut Text, stmts: &[Stmt]) -> Result<(), NoMemory>
    ensures { IfOk result
        (λ _. out.new ≡ out.old ++ texts (braced (stmts_kinds stmts.now))) }
{
    out.append_str("{\n")?;
    put_stmts(out, stmts)?;
    out.append_str("}\n")?;
    Ok(())
}

/// Adds an else part, where there are statements in it.
#[cycle(lines)]
#[tactic(auto, using(crate::proofs::PrintSteps::block_steps))]
fn put_second(out: &mut Text, stmts: &[Stmt]) -> Result<(), NoMemory>
    ensures { IfOk result (λ _. out.new ≡ out.old ++ texts (second_kinds stmts.now)) }
{
    match stmts {
        [] => Ok(()),
        [_, ..] => {
            out.append_str("else ")?;
            put_chained(out, stmts)?;
            Ok(())
        }
    }
}

#[cycle(lines)]
#[tactic(auto, using(crate::proofs::PrintSteps::block_steps))]
fn put_chained(out: &mut Text, stmts: &[Stmt]) -> Result<(), NoMemory>
    ensures { IfOk result
        (λ _. out.new
        ≡ out.old
        ++ texts
        (if is_chain stmts.now then stmts_kinds stmts.now else braced (stmts_kinds stmts.now))) }
{
    if is_one_branch(stmts) {
        put_stmts(out, stmts)
    } else {
        put_block(out, stmts)
    }
}

/// Whether the statements are one `if`.
fn is_one_branch(stmts: &[Stmt]) -> bool
    ensures { result ≡ is_chain stmts.now }
{
    match stmts {
        [s] => is_if(s),
        _ => false,
    }
}

fn is_if(s: &Stmt) -> bool
    ensures { result ≡ is_branch s.now }
{
    matches!(s, Stmt::If(_, _, _, _))
}
