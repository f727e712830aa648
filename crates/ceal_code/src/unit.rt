// Units of trace code: closures without free variables.

ghost use Rattle.std.specs.Prelude.{◌≡◌, ◌∷◌, [], ◌++◌, OnOk, OnErr};

use crate::command::Cmd;
use crate::expr::VarId;
use ceal_base::no_memory::NoMemory;
use std::marker::Model;

/// A tree of commands that is entered at index 0 with a word for each parameter.
#[derive(Drop)]
pub struct Unit {
    /// the number of the core function that the unit is of
    pub function: u32,
    params: Vec<VarId>,
    body: Vec<Cmd>,
}

impl Model for Unit {
    ghost use Rattle.std.specs.Coded.{codes};
    ghost use Rattle.ceal_code.specs.Program.{Unit as Parts};
    ghost use Rattle.ceal_code.specs.contracts.expr.CodeExpr as expr;

    ghost Value = { Parts };

    ghost coded = { Prim.hlevel (codes, expr.the_row.coded) };

    ghost view = { λ u.
        record { function = u.function; params = u.params.items; body = u.body.items } };
}

impl Unit {
    /// A unit of a function, with its parameters and its commands.
    pub fn new(function: u32, params: Vec<VarId>, body: Vec<Cmd>) -> Unit
        ensures value { result
            ≡ record { function = function; params = params.items; body = body.items } }
    {
        Unit {
            function,
            params,
            body,
        }
    }

    /// Puts a parameter at the end.
    pub fn push_params(&mut self, item: VarId) -> Result<(), NoMemory>
        ensures ok { OnOk result
            (self.new ≡ record self.old { params = self.old.params ++ item ∷ [] }) }
        ensures err { OnErr result (self.new ≡ self.old) }
    {
        self.params.push(item)?;
        Ok(())
    }

    /// The parameters, in the order in which arguments come.
    pub fn params(&self) -> &[VarId]
        ensures value { result.now ≡ self.now.params }
    {
        self.params.as_slice()
    }

    /// Puts a command at the end.
    pub fn push_body(&mut self, item: Cmd) -> Result<(), NoMemory>
        ensures ok { OnOk result
            (self.new ≡ record self.old { body = self.old.body ++ item ∷ [] }) }
        ensures err { OnErr result (self.new ≡ self.old) }
    {
        self.body.push(item)?;
        Ok(())
    }

    /// The commands, of which the first is run first.
    pub fn body(&self) -> &[Cmd]
        ensures value { result.now ≡ self.now.body }
    {
        self.body.as_slice()
    }
}
