// Where `self` is mentioned.

ghost use Rattle.std.specs.Prelude.{◌≡◌, Err};
ghost use Rattle.ceal_base.specs.Faults.{faults_of_each};
ghost use Rattle.ceal_usage.specs.Verdict.{verdict};
ghost use Rattle.ceal_usage.specs.Faults.{mentions, value_mentions};

use ceal_base::fault::{Fault, FaultCode, Span};
use ceal_base::typed::{TypedExpr, TypedForm};

/// The fault of this code at this place.
pub fn fault(code: FaultCode, span: Span) -> Result<(), Fault>
    ensures value { result ≡ Err (record { code = code; span = span }) }
{
    Err(Fault { code, span })
}

/// U3 at the first `self` in the expression. It recurses as deep as the expression.
#[tactic(auto, using(crate::proofs::UsageSteps::mention_steps))]
pub fn check_mentions(e: &TypedExpr) -> Result<(), Fault>
    ensures first { result ≡ verdict (mentions e.now) }
{
    match &e.form {
        TypedForm::Num(_) => Ok(()),
        TypedForm::Null => Ok(()),
        TypedForm::Var(_) => Ok(()),
        TypedForm::Own => fault(FaultCode::U3, e.span),
        TypedForm::Unary(_, a) => check_mentions(a.get()),
        TypedForm::Binary(_, _, a, b) => {
            check_mentions(a.get())?;
            check_mentions(b.get())
        }
        TypedForm::Field(a, _, _) => check_mentions(a.get()),
        TypedForm::Address(a, _, _) => check_mentions(a.get()),
    }
}
