// A whole program as trace code.

ghost use Rattle.std.specs.Prelude.{◌≡◌, ◌<◌, ◌^◌, ◌∷◌, [], ◌++◌, ⊤, length, slice_get, unwrap_or, MatchOption, Some};
ghost use Rattle.std.specs.Prelude.{OnOk, OnErr};
ghost use Rattle.std.specs.Option.{option_map};
ghost use Rattle.ceal_code.specs.Step.{unit_at, command_at, entry_of, kinds_of};
ghost use Rattle.ceal_code.specs.declared.command.Cmd.TheVariants.{Done};

use crate::command::Cmd;
use crate::expr::VarId;
use crate::function::FunctionCode;
use crate::unit::Unit;
use ceal_base::kind::{Kind, Kinds};
use ceal_base::no_memory::NoMemory;
use ceal_base::typed::Structs;
use std::marker::Model;

/// Functions in text order, and units that are numbered over them all.
#[derive(Drop)]
pub struct Code {
    pub structs: Structs,
    functions: Vec<FunctionCode>,
    units: Vec<Unit>,
    kinds: Vec<Kinds>,
}

impl Model for Code {
    ghost use Rattle.std.specs.Coded.{codes};
    ghost use Rattle.ceal_code.specs.Program.{Code as Parts};
    ghost use Rattle.ceal_code.specs.contracts.expr.CodeExpr as expr;
    ghost use Rattle.ceal_code.specs.contracts.function.InitStmt as stmt;

    ghost Value = { Parts };

    ghost coded = { Prim.hlevel (codes, expr.the_row.coded, stmt.the_row.coded) };

    ghost view = { λ c. record {
      structs = c.structs;
      functions = c.functions.items;
      units = c.units.items;
      kinds = c.kinds.items;
    } };
}

impl Code {
    /// `kinds` has an item for each function: of a core function the kinds of its variables, parameters first.
    pub fn new(
        structs: Structs,
        functions: Vec<FunctionCode>,
        units: Vec<Unit>,
        kinds: Vec<Kinds>,
    ) -> Code
        ensures value { result
            ≡ record {
              structs = structs;
              functions = functions.items;
              units = units.items;
              kinds = kinds.items;
            } }
    {
        Code {
            structs,
            functions,
            units,
            kinds,
        }
    }

    /// The structs, the functions, the units and the kinds.
    pub fn into_parts(self) -> (Structs, Vec<FunctionCode>, Vec<Unit>, Vec<Kinds>)
        ensures structs { result.0 ≡ self.structs }
        ensures functions { result.1.items ≡ self.functions }
        ensures units { result.2.items ≡ self.units }
        ensures kinds { result.3.items ≡ self.kinds }
    {
        let Code {
            structs,
            functions,
            units,
            kinds,
        } = self;
        (structs, functions, units, kinds)
    }

    /// Puts a core function at the end, whose number is the next one.
    pub fn push_functions(&mut self, item: FunctionCode) -> Result<(), NoMemory>
        ensures ok { OnOk result
            (self.new ≡ record self.old { functions = self.old.functions ++ item ∷ [] }) }
        ensures err { OnErr result (self.new ≡ self.old) }
    {
        self.functions.push(item)?;
        Ok(())
    }

    /// The functions, in the order of their numbers.
    pub fn functions(&self) -> &[FunctionCode]
        ensures value { result.now ≡ self.now.functions }
    {
        self.functions.as_slice()
    }

    /// Puts a unit at the end, whose number is the next one.
    pub fn push_units(&mut self, item: Unit) -> Result<(), NoMemory>
        ensures ok { OnOk result
            (self.new ≡ record self.old { units = self.old.units ++ item ∷ [] }) }
        ensures err { OnErr result (self.new ≡ self.old) }
    {
        self.units.push(item)?;
        Ok(())
    }

    /// The units, in the order of their numbers.
    pub fn units(&self) -> &[Unit]
        ensures value { result.now ≡ self.now.units }
    {
        self.units.as_slice()
    }

    /// Puts the kinds of the next function's variables at the end.
    pub fn push_kinds(&mut self, item: Kinds) -> Result<(), NoMemory>
        ensures ok { OnOk result
            (self.new ≡ record self.old { kinds = self.old.kinds ++ item ∷ [] }) }
        ensures err { OnErr result (self.new ≡ self.old) }
    {
        self.kinds.push(item)?;
        Ok(())
    }

    /// The kinds of the variables of the function of this number.
    pub fn kinds(&self, function: u32) -> &[Kind]
        requires there { function < length self.now.kinds }
        ensures value { slice_get self.now.kinds function ≡ Some result.now }
    {
        self.kinds[function as usize].items()
    }

    /// The same, and no kinds for a number without a function.
    pub fn kinds_of(&self, function: u32) -> &[Kind]
        ensures value { result.now ≡ kinds_of self.now function }
    {
        match self.kinds.get(function as usize) {
            None => &[],
            Some(kinds) => kinds.items(),
        }
    }

    /// The kinds of the variables of every function.
    pub fn all_kinds(&self) -> &[Kinds]
        ensures value { result.now ≡ self.now.kinds }
    {
        self.kinds.as_slice()
    }

    /// The number of the function that a unit is of; a number without a unit is that of function 0.
    pub fn function_of(&self, unit: usize) -> u32
        ensures value { result ≡ (unit_at self.now unit).function }
    {
        match self.units.get(unit) {
            None => 0,
            Some(found) => found.function,
        }
    }

    /// The parameters of a unit; a number without a unit has none.
    pub fn params_of(&self, unit: usize) -> &[VarId]
        ensures value { result.now ≡ (unit_at self.now unit).params }
    {
        match self.units.get(unit) {
            None => &[],
            Some(found) => found.params(),
        }
    }

    /// The command at an index of a unit's body; past its end, and in no unit, there is none.
    pub fn command(&self, unit: usize, index: usize) -> Option<&Cmd>
        ensures value { unwrap_or (option_map (λ c. c.now) result) Done
            ≡ command_at self.now unit index }
        ensures small { MatchOption result ⊤ (λ c. index < 2 ^ 63) }
    {
        match self.units.get(unit) {
            None => None,
            Some(found) => found.body().get(index),
        }
    }

    /// The unit in which a call of the function begins; `units.len()`, where there is no unit, if it is no core
    /// function.
    pub fn entry_of(&self, function: u32) -> usize
        ensures value { result ≡ entry_of self.now function }
    {
        match self.functions.get(function as usize) {
            None => self.units.len(),
            Some(found) => match found {
                FunctionCode::Core { entry, .. } => entry.0 as usize,
                FunctionCode::Init { .. } => self.units.len(),
            },
        }
    }
}
