// Tokens of a text.

ghost use Rattle.std.specs.Prelude.{◌≡◌, ◌++◌, ◌∷◌, [], codes, IfOk};
ghost use Rattle.ceal_base.specs.declared.operators.Binary.{Binary as BinaryOp};
ghost use Rattle.ceal_lex.specs.declared.token.TokenKind.TheVariants.{Name, Number, Sign};
ghost use Rattle.ceal_print.specs.PrintWords.{texts, row_length_kinds};
ghost use Rattle.ceal_grammar.specs.Spelled.{sign_of, prefix_sign};

use ceal_base::no_memory::NoMemory;
use ceal_base::operators::{Binary, Unary};
use ceal_base::syntax::Ident;
use ceal_base::text::Text;

/// Adds a name.
#[tactic(auto, using(crate::proofs::PrintSteps::kind_steps))]
pub fn put_name(out: &mut Text, name: &Ident) -> Result<(), NoMemory>
    ensures { IfOk result (λ _. out.new ≡ out.old ++ texts (Name name.now.text ∷ [])) }
{
    out.append(name.text.items())?;
    out.append_str(" ")?;
    Ok(())
}

/// Adds a word and a name.
#[tactic(auto, using(crate::proofs::PrintSteps::kind_steps))]
pub fn put_named(out: &mut Text, word: &str, name: &Ident) -> Result<(), NoMemory>
    ensures { IfOk result
        (λ _. out.new ≡ out.old ++ word.now ++ texts (Name name.now.text ∷ [])) }
{
    out.append_str(word)?;
    put_name(out, name)?;
    Ok(())
}

/// Adds a number in decimal.
#[tactic(auto, using(crate::proofs::PrintSteps::kind_steps))]
pub fn put_number(out: &mut Text, n: i64) -> Result<(), NoMemory>
    ensures { IfOk result (λ _. out.new ≡ out.old ++ texts (Number n ∷ [])) }
{
    out.append_signed(n)?;
    out.append_str(" ")?;
    Ok(())
}

/// Adds the length of a row.
#[tactic(auto, using(crate::proofs::PrintSteps::kind_steps))]
pub fn put_length(out: &mut Text, length: u32) -> Result<(), NoMemory>
    ensures { IfOk result (λ _. out.new ≡ out.old ++ texts (row_length_kinds length)) }
{
    out.append_str("[ ")?;
    put_number(out, i64::from(length))?;
    out.append_str("] ")?;
    Ok(())
}

/// Adds the sign of an operator with one operand.
#[tactic(auto, using(crate::proofs::PrintSteps::sign_steps))]
pub fn put_unary(out: &mut Text, op: Unary) -> Result<(), NoMemory>
    ensures { IfOk result
        (λ _. out.new ≡ out.old ++ texts (Sign (prefix_sign op) ∷ [])) }
{
    match op {
        Unary::Neg => out.append_str("- "),
        Unary::Not => out.append_str("! "),
    }
}

/// Adds the sign of an operator with two operands.
#[tactic(auto, using(crate::proofs::PrintSteps::sign_steps))]
pub fn put_binary(out: &mut Text, op: Binary) -> Result<(), NoMemory>
    ensures { IfOk result (λ _. out.new ≡ out.old ++ texts (Sign (sign_of op) ∷ [])) }
{
    match op {
        Binary::Add => out.append_str("+ "),
        Binary::Sub => out.append_str("- "),
        Binary::Mul => out.append_str("* "),
        Binary::Div => out.append_str("/ "),
        Binary::Rem => out.append_str("% "),
        Binary::Less => out.append_str("< "),
        Binary::LessEq => out.append_str("<= "),
        Binary::More => out.append_str("> "),
        Binary::MoreEq => out.append_str(">= "),
        Binary::Same => out.append_str("== "),
        Binary::Differ => out.append_str("!= "),
        Binary::And => out.append_str("&& "),
        Binary::Or => out.append_str("|| "),
        Binary::Pick(_) => out.append_str("[ "),
    }
}
