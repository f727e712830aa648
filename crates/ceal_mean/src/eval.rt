// The values of expressions.

ghost use Rattle.std.specs.Prelude.{◌≡◌, slice_get, unwrap_or};
ghost use Rattle.ceal_base.specs.Shapes.{default_of_kind, default_of};
ghost use Rattle.ceal_mean.specs.Value.{variable_of, value_of, values_of};

use ceal_base::access::{address, field};
use ceal_base::kind::Kind;
use ceal_base::memory::Memory;
use ceal_base::operators::{apply_binary, apply_unary};
use ceal_base::typed::{TypedExpr, TypedForm};
use ceal_base::word::Word;

fn default_word(kind: Option<Kind>) -> Word
    ensures { result ≡ default_of kind }
{
    match kind {
        Some(Kind::Int) => Word::Num(0),
        _ => Word::Null,
    }
}

fn variable(env: &[Word], n: u32) -> Word
    ensures { result ≡ variable_of env.now n }
{
    env.get(n as usize).copied().unwrap_or(Word::Null)
}

/// The value of an expression, `env` having the words of the variables. It recurses as deep as the expression is.
#[tactic(auto, using(crate::proofs::ValueSteps::value_steps))]
pub fn eval(env: &[Word], memory: &Memory, e: &TypedExpr) -> Word
    ensures value { result ≡ value_of env.now memory.now e.now }
{
    match &e.form {
        TypedForm::Num(n) => Word::Num(*n),
        TypedForm::Null => Word::Null,
        TypedForm::Var(n) => variable(env, *n),
        TypedForm::Own => Word::Null,
        TypedForm::Unary(op, a) => apply_unary(*op, eval(env, memory, a.get())),
        TypedForm::Binary(op, _, a, b) => {
            let left = eval(env, memory, a.get());
            let right = eval(env, memory, b.get());
            apply_binary(*op, left, right)
        }
        TypedForm::Field(a, shape, n) => {
            let base = eval(env, memory, a.get());
            field(memory, *shape, base, *n, default_word(e.kind))
        }
        TypedForm::Address(a, shape, n) => {
            let base = eval(env, memory, a.get());
            address(memory, *shape, base, *n)
        }
    }
}
