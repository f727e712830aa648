// What a variable is a copy of.

ghost use Rattle.std.specs.Prelude.{◌≡◌};
ghost use Rattle.ceal_fold.specs.Folding.{copy_by, copy_without};

use ceal_code::expr::{CodeExpr, VarId};

/// What a variable is a copy of: a constant or another variable.
#[derive(Clone, Copy, PartialEq, Eq, Debug)]
pub enum Copied {
    Num(i64),
    Null,
    Var(VarId),
}

/// What the variable is a copy of after a move of the expression to it.
pub fn copy_by_move(v: VarId, e: &CodeExpr) -> Option<Copied>
    ensures value { result ≡ copy_by v.0 e.now }
{
    match e {
        CodeExpr::Num(n) => Some(Copied::Num(*n)),
        CodeExpr::Null => Some(Copied::Null),
        CodeExpr::Var(w) => {
            if w.0 == v.0 {
                None
            } else {
                Some(Copied::Var(*w))
            }
        }
        CodeExpr::Unary(_, _) => None,
        CodeExpr::Binary(_, _, _) => None,
        CodeExpr::Field(_, _, _) => None,
        CodeExpr::Address(_, _, _) => None,
    }
}
