// The check of a whole program.

ghost use Rattle.std.specs.Prelude.{◌≡◌, [], Ok, length, map, IfOk};
ghost use Rattle.ceal_base.specs.Answers.{Gives};
ghost use Rattle.ceal_base.specs.WellTyped.{WellTyped};
ghost use Rattle.ceal_types.specs.Limits.{HasShortLists};
ghost use Rattle.ceal_types.specs.Checked.{checked, field_info, struct_info, typed_function, with_body};
ghost use Rattle.ceal_types.specs.States.{Leaves};
ghost use Rattle.ceal_types.specs.Walk.{in_turn};

use crate::heads::{head_of, heads};
use crate::program::{Body, Field, Program};
use crate::statements::type_block;
use crate::table::Table;
use ceal_base::fault::FrontError;
use ceal_base::items::Items;
use ceal_base::no_memory::NoMemory;
use ceal_base::syntax::{Entry, FunctionDecl, Ident, Tree};
use ceal_base::typed::{FieldInfo, StructInfo, Typed, TypedFunction};
use std::alloc::Global;

/// A number of variables, as there may be fewer than 2^32.
fn count(n: usize) -> Result<u32, NoMemory>
    ensures { IfOk result (λ c. c ≡ n) }
{
    if n > 4294967295 {
        return Err(NoMemory);
    }
    Ok(n as u32)
}

fn copied_name(name: &Ident) -> Result<Ident, NoMemory>
    ensures { IfOk result (λ n. n ≡ name.now) }
{
    let text = name.text.copy()?;
    Ok(Ident {
        text,
        span: name.span,
    })
}

/// A function: its head, and then its body.
#[tactic(auto, unfolding(crate::specs::Checked::typed_function))]
fn type_function(
    alloc: Global,
    program: &Program,
    function: &FunctionDecl,
) -> Result<TypedFunction, FrontError>
    ensures { Gives result (typed_function program.now function.now) }
{
    let head = head_of(alloc, &program.names, function)?;
    let own = head.own;
    let mut variables = head.parameters;
    let params = count(variables.kinds.items().len())?;
    let body = Body {
        alloc,
        program,
        own,
    };
    let stmts = type_block(&body, &mut variables, function.body.items())?;
    Ok(TypedFunction {
        initialiser: own,
        name: copied_name(&function.name)?,
        params,
        kinds: variables.kinds,
        body: stmts,
        close: function.close,
    })
}

#[tactic(auto, unfolding(crate::specs::Checked::with_body))]
fn add_body(
    alloc: Global,
    program: &Program,
    functions: &mut Items<TypedFunction>,
    entry: &Entry,
) -> Result<(), FrontError>
    ensures { Leaves result functions.new (with_body program.now entry.now functions.old) }
{
    match entry {
        Entry::Struct(_) => Ok(()),
        Entry::Function(function) => {
            let function = type_function(alloc, program, function)?;
            functions.push(function)?;
            Ok(())
        }
    }
}

/// As `add_body`, of an entry that is not needed any more.
fn take_body(
    alloc: Global,
    program: &Program,
    functions: &mut Items<TypedFunction>,
    entry: Entry,
) -> Result<(), FrontError>
    ensures { Leaves result functions.new (with_body program.now entry functions.old) }
{
    let added = add_body(alloc, program, functions, &entry);
    drop(entry);
    added
}

/// The bodies of all entries. Each entry is free before the next is typed, and none is left.
fn type_bodies(
    alloc: Global,
    program: &Program,
    entries: &mut Vec<Entry>,
) -> Result<Items<TypedFunction>, FrontError>
    ensures { Gives result (in_turn (with_body program.now) entries.old.items []) }
{
    let mut functions = Items::empty(alloc);
    entries.reverse();
    while let Some(entry) = entries.pop() {
        take_body(alloc, program, &mut functions, entry)?;
    }
    Ok(functions)
}

/// The fields of a struct, taken out of their table from the last to the first: no name is copied, and each field's
/// place in the table is free before the next.
fn field_infos(alloc: Global, mut fields: Table<Field>) -> Result<Items<FieldInfo>, NoMemory>
    ensures { IfOk result (λ infos. infos ≡ map field_info fields) }
{
    let mut infos = Vec::new(alloc);
    while let Some((name, field)) = fields.pop() {
        infos.push(FieldInfo {
            name,
            kind: field.kind,
            row: field.row,
        })?;
    }
    infos.reverse();
    Ok(Items::new(infos))
}

/// The structs, taken out of their table in the same way.
fn struct_infos(
    alloc: Global,
    mut structs: Table<Table<Field>>,
) -> Result<Items<StructInfo>, NoMemory>
    ensures { IfOk result (λ infos. infos ≡ map struct_info structs) }
{
    let mut infos = Vec::new(alloc);
    while let Some((name, fields)) = structs.pop() {
        let fields = field_infos(alloc, fields)?;
        infos.push(StructInfo { name, fields })?;
    }
    infos.reverse();
    Ok(Items::new(infos))
}

/// The program of these entries, which it takes out as it types their bodies.
#[tactic(auto, unfolding(crate::specs::Checked::checked))]
fn check_entries(alloc: Global, entries: &mut Vec<Entry>) -> Result<Typed, FrontError>
    ensures value { Gives result (checked (record { entries = entries.old.items })) }
{
    let program = heads(alloc, entries.as_slice())?;
    let functions = type_bodies(alloc, &program, entries)?;
    let structs = struct_infos(alloc, program.structs)?;
    Ok(Typed { structs, functions })
}

/// The program's tree with names resolved, or the first of the faults N1, N2 and T1 to T5 in the order of the walk: the
/// heads of all entries, and then the bodies of the functions. The tree is not needed any more: each entry is free once
/// its body is typed, so the program takes the tree's place in memory and does not come beside it.
pub fn check(alloc: Global, tree: Tree) -> Result<Typed, FrontError>
    ensures value { Gives result (checked tree) }
    ensures well_typed { HasShortLists tree → IfOk result WellTyped }
{
    let mut entries = tree.entries.into_vec();
    let checked = check_entries(alloc, &mut entries);
    drop(entries);
    checked
}
