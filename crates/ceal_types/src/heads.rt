// The heads of entries.

ghost use Rattle.std.specs.Prelude.{◌≡◌, ◌∷◌, [], ℕ, Ok, length, false, IfOk, OnOk};
ghost use Rattle.ceal_base.specs.Answers.{Gives};
ghost use Rattle.ceal_types.specs.States.{Leaves};
ghost use Rattle.ceal_types.specs.Tables.{has};
ghost use Rattle.ceal_types.specs.Walk.{in_turn};
ghost use Rattle.ceal_types.specs.Heads as spec;

use crate::members::{element_name, fault};
use crate::names::Names;
use crate::program::{Field, Head, Program, Variable, Variables};
use crate::seed::Seed;
use crate::table::Table;
use ceal_base::fault::{FaultCode, FrontError};
use ceal_base::kind::{FieldKind, Kind, Kinds};
use ceal_base::no_memory::NoMemory;
use ceal_base::syntax::{Entry, FieldDecl, FunctionDecl, Ident, StructDecl, TypeForm};
use ceal_base::text::Text;
use std::alloc::Global;

/// The number of the struct of this name.
pub fn struct_number(names: &Names, name: &Ident) -> Result<u32, FrontError>
    ensures value { Gives result (spec.struct_number names.now name.now) }
{
    match names.number(&name.text) {
        Some(number) => Ok(number),
        None => Err(fault(FaultCode::N1, name.span)),
    }
}

/// The type of a variable.
pub fn kind_of(names: &Names, form: &TypeForm) -> Result<Kind, FrontError>
    ensures value { Gives result (spec.kind_of names.now form.now) }
{
    match form {
        TypeForm::Int => Ok(Kind::Int),
        TypeForm::Ptr(name) => Ok(Kind::Ptr(struct_number(names, name)?)),
        TypeForm::ModInt => Ok(Kind::ModInt),
        TypeForm::ModPtr(name) => Ok(Kind::ModPtr(struct_number(names, name)?)),
        TypeForm::CellInt => Ok(Kind::ModInt),
        TypeForm::CellPtr(name) => Ok(Kind::ModPtr(struct_number(names, name)?)),
        TypeForm::CellRow(_) => Ok(Kind::ModInt),
        TypeForm::CellPtrRow(name, _) => Ok(Kind::ModPtr(struct_number(names, name)?)),
    }
}

fn field_kind_of(names: &Names, form: &TypeForm) -> Result<FieldKind, FrontError>
    ensures { Gives result (spec.field_kind_of names.now form.now) }
{
    match form {
        TypeForm::Int => Ok(FieldKind::Plain(Kind::Int)),
        TypeForm::Ptr(name) => Ok(FieldKind::Plain(Kind::Ptr(struct_number(names, name)?))),
        TypeForm::ModInt => Ok(FieldKind::Plain(Kind::ModInt)),
        TypeForm::ModPtr(name) => Ok(FieldKind::Plain(Kind::ModPtr(struct_number(names, name)?))),
        TypeForm::CellInt => Ok(FieldKind::CellInt),
        TypeForm::CellPtr(name) => Ok(FieldKind::CellPtr(struct_number(names, name)?)),
        TypeForm::CellRow(_) => Ok(FieldKind::CellInt),
        TypeForm::CellPtrRow(name, _) => Ok(FieldKind::CellPtr(struct_number(names, name)?)),
    }
}

/// The length of the row that a field of this type is.
fn row_of(form: &TypeForm) -> Option<u32>
    ensures { result ≡ spec.row_of form.now }
{
    match form {
        TypeForm::Int => None,
        TypeForm::Ptr(_) => None,
        TypeForm::ModInt => None,
        TypeForm::ModPtr(_) => None,
        TypeForm::CellInt => None,
        TypeForm::CellPtr(_) => None,
        TypeForm::CellRow(row) => Some(*row),
        TypeForm::CellPtrRow(_, row) => Some(*row),
    }
}

/// Whether a field or a row has this name.
fn is_taken(fields: &Table<Field>, name: &Text) -> Result<bool, NoMemory>
    ensures { IfOk result (λ taken. taken ≡ spec.has_member fields.now name.now) }
{
    if fields.has(name) {
        return Ok(true);
    }
    let first = element_name(name, 0)?;
    Ok(fields.has(&first))
}

fn row_at(row: u32, index: u32) -> u32
    ensures { result ≡ spec.row_at row index }
{
    if index == 0 { row } else { 0 }
}

/// Adds an element of a row.
fn add_element(
    fields: &mut Table<Field>,
    name: &Ident,
    kind: FieldKind,
    row: u32,
    index: u32,
) -> Result<(), FrontError>
    ensures { Leaves result fields.new (spec.with_element name.now kind row index fields.old) }
{
    let element = element_name(&name.text, index as usize)?;
    if fields.has(&element) {
        return Err(fault(FaultCode::N2, name.span));
    }
    let row = row_at(row, index);
    fields.add(element, Field { kind, row })?;
    Ok(())
}

fn add_row(
    fields: &mut Table<Field>,
    name: &Ident,
    kind: FieldKind,
    row: u32,
) -> Result<(), FrontError>
    ensures { Leaves result fields.new (spec.with_elements name.now kind row row fields.old) }
{
    for index in 0..row {
        add_element(fields, name, kind, row, index)?;
    }
    Ok(())
}

fn new_field(
    fields: &mut Table<Field>,
    name: &Ident,
    row: Option<u32>,
    kind: FieldKind,
) -> Result<(), FrontError>
    ensures { Leaves result fields.new (spec.new_field name.now row fields.old kind) }
{
    if is_taken(fields, &name.text)? {
        return Err(fault(FaultCode::N2, name.span));
    }
    match row {
        None => {
            let name = name.text.copy()?;
            fields.add(name, Field { kind, row: 0 })?;
            Ok(())
        }
        Some(row) => add_row(fields, name, kind, row),
    }
}

#[tactic(auto, unfolding(crate::specs::Heads::with_field))]
fn add_field(names: &Names, fields: &mut Table<Field>, field: &FieldDecl) -> Result<(), FrontError>
    ensures { Leaves result fields.new (spec.with_field names.now field.now fields.old) }
{
    let kind = field_kind_of(names, &field.form)?;
    new_field(fields, &field.name, row_of(&field.form), kind)
}

fn fields_of(alloc: Global, names: &Names, fields: &[FieldDecl]) -> Result<Table<Field>, FrontError>
    ensures { Gives result (in_turn (spec.with_field names.now) fields.now []) }
{
    let mut table = Table::new(alloc, Seed::of_fields(fields));
    for field in fields {
        add_field(names, &mut table, field)?;
    }
    Ok(table)
}

/// Brings a new variable into scope, and gives its number. There may be fewer than 2^32 variables.
pub fn add_variable(variables: &mut Variables, name: &Text, kind: Kind) -> Result<u32, NoMemory>
    requires { has variables.old.scope name.now ≡ false }
    ensures state { OnOk result (variables.new ≡ spec.with_variable variables.old name.now kind) }
    ensures number { IfOk result (λ n. n ≡ length variables.old.kinds) }
{
    let count = variables.kinds.items().len();
    if count > 4294967295 {
        return Err(NoMemory);
    }
    let number = count as u32;
    let name = name.copy()?;
    variables.scope.add(name, Variable { number, kind })?;
    variables.kinds.push(kind)?;
    Ok(number)
}

fn new_parameter(variables: &mut Variables, name: &Ident, kind: Kind) -> Result<(), FrontError>
    ensures { Leaves result variables.new (spec.new_parameter name.now variables.old kind) }
{
    if variables.scope.has(&name.text) {
        return Err(fault(FaultCode::N2, name.span));
    }
    add_variable(variables, &name.text, kind)?;
    Ok(())
}

#[tactic(auto, unfolding(crate::specs::Heads::with_parameter))]
fn add_parameter(
    names: &Names,
    variables: &mut Variables,
    parameter: &FieldDecl,
) -> Result<(), FrontError>
    ensures { Leaves result variables.new
        (spec.with_parameter names.now parameter.now variables.old) }
{
    let kind = kind_of(names, &parameter.form)?;
    new_parameter(variables, &parameter.name, kind)
}

fn parameters_of(
    alloc: Global,
    seed: Seed,
    names: &Names,
    parameters: &[FieldDecl],
) -> Result<Variables, FrontError>
    ensures { Gives result
        (in_turn (spec.with_parameter names.now) parameters.now spec.no_variables) }
{
    let mut variables = Variables {
        scope: Table::new(alloc, seed),
        kinds: Kinds::new(Vec::new(alloc)),
    };
    for parameter in parameters {
        add_parameter(names, &mut variables, parameter)?;
    }
    Ok(variables)
}

fn own_of(names: &Names, initialiser: &Option<Ident>) -> Result<Option<u32>, FrontError>
    ensures { Gives result (spec.own_of names.now initialiser.now) }
{
    match initialiser {
        None => Ok(None),
        Some(name) => Ok(Some(struct_number(names, name)?)),
    }
}

/// A function's head.
#[tactic(auto, unfolding(crate::specs::Heads::head_of))]
pub fn head_of(alloc: Global, names: &Names, function: &FunctionDecl) -> Result<Head, FrontError>
    ensures value { Gives result (spec.head_of names.now function.now) }
{
    let own = own_of(names, &function.initialiser)?;
    let seed = Seed::of_function(function);
    let parameters = parameters_of(alloc, seed, names, function.params.items())?;
    Ok(Head { own, parameters })
}

#[tactic(auto, unfolding(crate::specs::Heads::with_entry))]
fn add_struct(
    alloc: Global,
    program: &mut Program,
    structure: &StructDecl,
) -> Result<(), FrontError>
    ensures { Leaves result program.new (spec.with_entry (Entry.Struct structure.now) program.old) }
{
    let name = &structure.name;
    if program.structs.has(&name.text) {
        return Err(fault(FaultCode::N2, name.span));
    }
    let text = name.text.copy()?;
    let fields = fields_of(alloc, &program.names, structure.fields.items())?;
    program.structs.add(text, fields)?;
    Ok(())
}

#[tactic(auto, unfolding(crate::specs::Heads::with_entry))]
fn add_function(
    alloc: Global,
    program: &mut Program,
    function: &FunctionDecl,
) -> Result<(), FrontError>
    ensures { Leaves result program.new
        (spec.with_entry (Entry.Function function.now) program.old) }
{
    let name = &function.name;
    if program.functions.has(&name.text) {
        return Err(fault(FaultCode::N2, name.span));
    }
    let text = name.text.copy()?;
    let head = head_of(alloc, &program.names, function)?;
    program.functions.add(text, head)?;
    Ok(())
}

fn add_entry(alloc: Global, program: &mut Program, entry: &Entry) -> Result<(), FrontError>
    ensures { Leaves result program.new (spec.with_entry entry.now program.old) }
{
    match entry {
        Entry::Struct(structure) => add_struct(alloc, program, structure),
        Entry::Function(function) => add_function(alloc, program, function),
    }
}

fn add_name(names: &mut Names, entry: &Entry) -> Result<(), NoMemory>
    ensures { OnOk result (names.new ≡ spec.with_struct_name entry.now names.old) }
{
    match entry {
        Entry::Struct(structure) => names.add(&structure.name.text),
        Entry::Function(_) => Ok(()),
    }
}

fn struct_names(alloc: Global, seed: Seed, entries: &[Entry]) -> Result<Names, NoMemory>
    ensures { IfOk result (λ names. names ≡ spec.struct_names entries.now []) }
{
    let mut names = Names::seeded(alloc, seed);
    for entry in entries {
        add_name(&mut names, entry)?;
    }
    Ok(names)
}

/// The heads of all entries, or the first fault in them.
#[tactic(auto, unfolding(crate::specs::Heads::heads))]
pub fn heads(alloc: Global, entries: &[Entry]) -> Result<Program, FrontError>
    ensures value { Gives result (spec.heads entries.now) }
{
    let seed = Seed::of_entries(entries);
    let mut program = Program {
        names: struct_names(alloc, seed, entries)?,
        structs: Table::new(alloc, seed),
        functions: Table::new(alloc, seed),
    };
    for entry in entries {
        add_entry(alloc, &mut program, entry)?;
    }
    Ok(program)
}
