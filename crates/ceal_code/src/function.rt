// The functions of trace code.

use crate::expr::CodeExpr;
use ceal_base::forest::UnitId;
use ceal_base::items::Items;
use ceal_base::kind::Kinds;
use ceal_base::text::Text;

/// A statement of an initialiser.
#[derive(Drop)]
pub enum InitStmt {
    /// gives a value to a field of the new block
    Set {
        field: u32,
        value: CodeExpr,
    },
    If {
        test: CodeExpr,
        yes: Items<InitStmt>,
        no: Items<InitStmt>,
    },
}

/// Statements in their order.
pub type InitStmts = Items<InitStmt>;

/// A function. `params` are the kinds of its parameters, `self` not among them.
#[derive(Drop)]
pub enum FunctionCode {
    /// `entry` is the unit in which a call begins
    Core {
        name: Text,
        entry: UnitId,
        params: Kinds,
    },
    /// `shape` is the number of the struct whose blocks it makes
    Init {
        name: Text,
        shape: u32,
        params: Kinds,
        body: InitStmts,
    },
}
