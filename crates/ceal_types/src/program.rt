// What the walk knows of a program, and of its place in it.

ghost use Rattle.std.specs.Prelude.{◌≡◌};

use crate::names::Names;
use crate::table::Table;
use ceal_base::fault::Span;
use ceal_base::kind::{FieldKind, Kind, Kinds};
use ceal_base::syntax::Ident;
use std::alloc::Global;

/// A variable in scope: its number in its function, and its type.
#[derive(Clone, Copy)]
pub struct Variable {
    pub number: u32,
    pub kind: Kind,
}

/// The variables of a function so far: those in scope, in the order of their declarations, and the types of all.
#[derive(Drop)]
pub struct Variables {
    pub scope: Table<Variable>,
    pub kinds: Kinds,
}

/// A function's head: the struct of `self`, only of an initialiser, and the parameters.
#[derive(Drop)]
pub struct Head {
    pub own: Option<u32>,
    pub parameters: Variables,
}

/// A field of a struct: its type, and the length of the row that begins at it, 0 where none does.
#[derive(Clone, Copy)]
pub struct Field {
    pub kind: FieldKind,
    pub row: u32,
}

/// The heads of a program's entries: the names of all structs, and the structs and functions so far.
#[derive(Drop)]
pub struct Program {
    pub names: Names,
    pub structs: Table<Table<Field>>,
    pub functions: Table<Head>,
}

/// A field: the numbers of its struct and of itself in that struct, its type, and the length of the row that begins at
/// it, 0 where none does.
#[derive(Clone, Copy)]
pub struct Member {
    pub shape: u32,
    pub field: u32,
    pub kind: FieldKind,
    pub row: u32,
}

/// The function whose body is gone through: the heads of its program, and the struct of `self`, only of an initialiser.
#[derive(Clone, Copy)]
pub struct Body<'p> {
    pub alloc: Global,
    pub program: &'p Program,
    pub own: Option<u32>,
}

/// Where an expression is: in a body, where these variables are in scope.
#[derive(Clone, Copy)]
pub struct Site<'p, 's> {
    pub alloc: Global,
    pub program: &'p Program,
    pub own: Option<u32>,
    pub variables: &'s Table<Variable>,
}

impl<'p> Body<'p> {
    /// The place in this body where these variables are in scope.
    pub fn site<'s>(&self, variables: &'s Table<Variable>) -> Site<'p, 's>
        ensures program { result.program.now ≡ self.now.program.now }
        ensures own { result.own ≡ self.now.own }
        ensures variables { result.variables.now ≡ variables.now }
    {
        Site {
            alloc: self.alloc,
            program: self.program,
            own: self.own,
            variables,
        }
    }
}

/// A field that is named after an arrow: where the expression begins, and the name.
#[derive(Clone, Copy)]
pub struct Access<'a> {
    pub alloc: Global,
    pub at: Span,
    pub name: &'a Ident,
}
