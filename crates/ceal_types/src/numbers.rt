// The numbers of a program's structs and functions by their names.

ghost use Rattle.std.specs.Prelude.{◌≡◌, IfOk, OnOk, bytes_eq};
ghost use Rattle.std.specs.Map.{lookup};
ghost use Rattle.ceal_types.specs.Numbers.{struct_numbered, function_numbered, IsNumbering, or_second, number_if};
ghost use Rattle.ceal_types.specs.Tables.{Name};

use crate::seed::{Fed, Seed};
use crate::table::Table;
use ceal_base::no_memory::NoMemory;
use ceal_base::text::Text;
use ceal_base::typed::{StructInfo, Typed, TypedFunction};
use std::alloc::Global;
use std::marker::Model;

/// A program that finds its structs and functions by their names.
#[derive(Drop)]
pub struct Numbered {
    program: Typed,
    structs: Table<u32>,
    functions: Table<u32>,
}

impl Model for Numbered {
    ghost use Rattle.ceal_base.specs.contracts.typed.TypedStmt as statement;
    ghost use Rattle.ceal_base.specs.declared.typed.Typed.{Typed};
    ghost use Rattle.ceal_types.specs.Numbers.{struct_numbered, function_numbered, IsNumbering};
    ghost use Rattle.std.specs.Coded.{codes};

    ghost Value = { Typed };

    ghost coded = { Prim.hlevel (codes, statement.the_row.coded) };

    ghost view = { λ n. n.program };

    ghost invariant = { λ n. IsNumbering n.structs (struct_numbered n.program.structs)
        × IsNumbering n.functions (function_numbered n.program.functions) };
}

/// Gives the name this number, if it has none.
fn put_first(table: &mut Table<u32>, name: &Text, number: usize) -> Result<(), NoMemory>
    ensures { OnOk result ((n : Name) → lookup (bytes_eq n) table.new
        ≡ or_second (lookup (bytes_eq n) table.old) (number_if (bytes_eq name.now n) number)) }
{
    if table.has(name) {
        return Ok(());
    }
    if number >= 4_294_967_296 {
        return Err(NoMemory);
    }
    let name = name.copy()?;
    table.add(name, number as u32)?;
    Ok(())
}

fn struct_seed(structs: &[StructInfo]) -> Seed {
    let mut fed = Fed::new();
    for structure in structs {
        fed.add(&structure.name);
    }
    fed.seed()
}

fn function_seed(functions: &[TypedFunction]) -> Seed {
    let mut fed = Fed::new();
    for function in functions {
        fed.add(&function.name.text);
    }
    fed.seed()
}

fn struct_numbers(alloc: Global, structs: &[StructInfo]) -> Result<Table<u32>, NoMemory>
    ensures { IfOk result (λ table. IsNumbering table (struct_numbered structs.now)) }
{
    let mut table = Table::new(alloc, struct_seed(structs));
    for i in 0..structs.len() {
        put_first(&mut table, &structs[i].name, i)?;
    }
    Ok(table)
}

fn function_numbers(alloc: Global, functions: &[TypedFunction]) -> Result<Table<u32>, NoMemory>
    ensures { IfOk result (λ table. IsNumbering table (function_numbered functions.now)) }
{
    let mut table = Table::new(alloc, function_seed(functions));
    for i in 0..functions.len() {
        put_first(&mut table, &functions[i].name.text, i)?;
    }
    Ok(table)
}

impl Numbered {
    /// A program with tables of the names of its structs and functions.
    pub fn new(alloc: Global, program: Typed) -> Result<Numbered, NoMemory>
        ensures program { IfOk result (λ numbered. numbered ≡ program) }
    {
        let structs = struct_numbers(alloc, program.structs.items())?;
        let functions = function_numbers(alloc, program.functions.items())?;
        Ok(Numbered {
            program,
            structs,
            functions,
        })
    }

    /// The structs, in the order of their numbers.
    pub fn structs(&self) -> &[StructInfo]
        ensures structs { result.now ≡ self.now.structs }
    {
        self.program.structs.items()
    }

    /// The functions, in the order of their numbers.
    pub fn functions(&self) -> &[TypedFunction]
        ensures functions { result.now ≡ self.now.functions }
    {
        self.program.functions.items()
    }

    /// The number of the struct of this name.
    pub fn struct_number(&self, name: &Text) -> Option<u32>
        ensures number { result ≡ struct_numbered self.now.structs name.now }
    {
        self.structs.get(name).copied()
    }

    /// The number of the function of this name.
    pub fn function_number(&self, name: &Text) -> Option<u32>
        ensures number { result ≡ function_numbered self.now.functions name.now }
    {
        self.functions.get(name).copied()
    }
}
