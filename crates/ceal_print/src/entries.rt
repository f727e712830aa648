// Structs and functions of a text.

ghost use Rattle.std.specs.Prelude.{◌≡◌, ◌++◌, ◌∷◌, [], codes, IfOk};
ghost use Rattle.ceal_print.specs.PrintWords.{texts, field_kinds, other_kinds, parameter_kinds, member_kinds};
ghost use Rattle.ceal_print.specs.PrintWords.{head_kinds, entry_kinds, entries_kinds};

use crate::expressions::{put_size, put_type};
use crate::statements::put_block;
use crate::text::{put_name, put_named};
use ceal_base::no_memory::NoMemory;
use ceal_base::syntax::{Entry, FieldDecl, FunctionDecl, Ident};
use ceal_base::text::Text;

/// Adds a field or a parameter.
#[tactic(auto, using(crate::proofs::PrintSteps::field_steps))]
fn put_field(out: &mut Text, field: &FieldDecl) -> Result<(), NoMemory>
    ensures { IfOk result (λ _. out.new ≡ out.old ++ texts (field_kinds field.now)) }
{
    put_type(out, &field.form)?;
    put_name(out, &field.name)?;
    Ok(())
}

#[tactic(auto, using(crate::proofs::PrintSteps::other_steps))]
fn put_others(out: &mut Text, fields: &[FieldDecl]) -> Result<(), NoMemory>
    ensures { IfOk result (λ _. out.new ≡ out.old ++ texts (other_kinds fields.now)) }
{
    let mut fields = fields;
    while let Some((field, more)) = fields.split_first() {
        out.append_str(", ")?;
        put_field(out, field)?;
        fields = more;
    }
    Ok(())
}

#[tactic(auto, using(crate::proofs::PrintSteps::other_steps))]
fn put_parameters(out: &mut Text, fields: &[FieldDecl]) -> Result<(), NoMemory>
    ensures { IfOk result
        (λ _. out.new ≡ out.old ++ texts (parameter_kinds fields.now)) }
{
    match fields.split_first() {
        None => Ok(()),
        Some((field, more)) => {
            put_field(out, field)?;
            put_others(out, more)?;
            Ok(())
        }
    }
}

#[tactic(auto, using(crate::proofs::PrintSteps::member_steps))]
fn put_members(out: &mut Text, fields: &[FieldDecl]) -> Result<(), NoMemory>
    ensures { IfOk result (λ _. out.new ≡ out.old ++ texts (member_kinds fields.now)) }
{
    let mut fields = fields;
    while let Some((field, more)) = fields.split_first() {
        put_field(out, field)?;
        put_size(out, &field.form)?;
        out.append_str(";\n")?;
        fields = more;
    }
    Ok(())
}

/// Adds the head of a function up to its last parameter.
#[tactic(auto, using(crate::proofs::PrintSteps::entry_steps))]
fn put_head(
    out: &mut Text,
    initialiser: &Option<Ident>,
    name: &Ident,
    params: &[FieldDecl],
) -> Result<(), NoMemory>
    ensures { IfOk result
        (λ _. out.new
        ≡ out.old ++ texts (head_kinds initialiser.now name.now params.now)) }
{
    match initialiser {
        None => {
            put_named(out, "ceal ", name)?;
            out.append_str("( ")?;
            put_parameters(out, params)?;
            Ok(())
        }
        Some(shape) => {
            put_named(out, "init ", name)?;
            put_named(out, "( struct ", shape)?;
            out.append_str("* self ")?;
            put_others(out, params)?;
            Ok(())
        }
    }
}

/// Adds a struct or a function.
#[tactic(auto, using(crate::proofs::PrintSteps::entry_steps))]
fn put_entry(out: &mut Text, entry: &Entry) -> Result<(), NoMemory>
    ensures { IfOk result (λ _. out.new ≡ out.old ++ texts (entry_kinds entry.now)) }
{
    match entry {
        Entry::Struct(shape) => {
            put_named(out, "struct ", &shape.name)?;
            out.append_str("{\n")?;
            put_members(out, shape.fields.items())?;
            out.append_str("}\n;\n")?;
            Ok(())
        }
        Entry::Function(function) => {
            put_head(
                out,
                &function.initialiser,
                &function.name,
                function.params.items(),
            )?;
            out.append_str(") ")?;
            put_block(out, function.body.items())?;
            Ok(())
        }
    }
}

/// Adds entries.
#[tactic(auto, using(crate::proofs::PrintSteps::entry_steps))]
pub fn put_entries(out: &mut Text, entries: &[Entry]) -> Result<(), NoMemory>
    ensures { IfOk result
        (λ _. out.new ≡ out.old ++ texts (entries_kinds entries.now)) }
{
    let mut entries = entries;
    while let Some((entry, more)) = entries.split_first() {
        put_entry(out, entry)?;
        entries = more;
    }
    Ok(())
}
