// Expressions of trace code. They are pure and total.

use ceal_base::boxed::Boxed;
use ceal_base::items::Items;
use ceal_base::operators::{Binary, Unary};

/// The number of a variable in its function, parameters first; in an initialiser only the parameters have one,
/// and `self` has none.
#[derive(Clone, Copy, PartialEq, Eq, Debug)]
pub struct VarId(pub u32);

/// An expression.
#[derive(Drop)]
pub enum CodeExpr {
    Num(i64),
    Null,
    Var(VarId),
    Unary(Unary, Boxed<CodeExpr>),
    Binary(Binary, Boxed<CodeExpr>, Boxed<CodeExpr>),
    /// a plain field: what points to the block, the struct's number, the field's number
    Field(Boxed<CodeExpr>, u32, u32),
    /// the place of an embedded modifiable, with the same parts
    Address(Boxed<CodeExpr>, u32, u32),
}

/// Expressions in their order.
pub type CodeExprs = Items<CodeExpr>;
