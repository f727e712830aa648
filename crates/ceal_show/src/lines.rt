// The line of a block.

ghost use Rattle.std.specs.Prelude.{◌≡◌, ◌++◌, ℕ, Some, IsSome, IsTrue, IfOk, slice_get};
ghost use Rattle.ceal_show.specs.Graph.{Scene, struct_name, kind_text, field_name, field_in, label_text, suffix_text};
ghost use Rattle.ceal_show.specs.Graph.{word_text, field_word_text, fields_text, block_text, lines_text};
ghost use Rattle.ceal_show.specs.Paths.{is_in};
ghost use Rattle.ceal_show.specs.Search.{AreAmong, AreClosed};
ghost use Rattle.ceal_show.specs.Shown.{IsThere, IsWhole, shape_at, words_at, target};

use crate::met::Met;
use crate::reach::field_count;
use crate::view::View;
use ceal_base::kind::Shape;
use ceal_base::no_memory::NoMemory;
use ceal_base::text::Text;
use ceal_base::typed::StructInfo;
use ceal_base::word::{BlockId, Place, Word};

/// Adds the name of a struct.
fn put_struct(out: &mut Text, structs: &[StructInfo], s: u32) -> Result<(), NoMemory>
    ensures { IfOk result (λ _. out.new ≡ out.old ++ struct_name structs.now s) }
{
    match structs.get(s as usize) {
        None => Ok(()),
        Some(info) => out.append(info.name.items()),
    }
}

/// Adds the kind of a block.
fn put_kind(out: &mut Text, structs: &[StructInfo], shape: Shape) -> Result<(), NoMemory>
    ensures { IfOk result (λ _. out.new ≡ out.old ++ kind_text structs.now shape) }
{
    match shape {
        Shape::Struct(s) => put_struct(out, structs, s),
        Shape::ModInt => out.append_str("mod int"),
        Shape::ModPtr(s) => {
            out.append_str("mod ")?;
            put_struct(out, structs, s)
        }
    }
}

/// Adds the name of a struct's field.
fn put_struct_field(
    out: &mut Text,
    structs: &[StructInfo],
    s: u32,
    field: u32,
) -> Result<(), NoMemory>
    ensures { IfOk result
        (λ _. out.new ≡ out.old ++ field_in (slice_get structs.now s) field) }
{
    match structs.get(s as usize) {
        None => Ok(()),
        Some(info) => match info.fields.items().get(field as usize) {
            None => Ok(()),
            Some(found) => out.append(found.name.items()),
        },
    }
}

/// Adds the name of a block's field.
fn put_field(
    out: &mut Text,
    structs: &[StructInfo],
    shape: Shape,
    field: u32,
) -> Result<(), NoMemory>
    ensures { IfOk result
        (λ _. out.new ≡ out.old ++ field_name structs.now shape field) }
{
    match shape {
        Shape::Struct(s) => put_struct_field(out, structs, s, field),
        Shape::ModInt => out.append_str("value"),
        Shape::ModPtr(_) => out.append_str("value"),
    }
}

/// Adds what a pointer to a modifiable has after the label.
fn put_suffix(
    out: &mut Text,
    structs: &[StructInfo],
    shape: Shape,
    field: u32,
) -> Result<(), NoMemory>
    ensures { IfOk result
        (λ _. out.new ≡ out.old ++ suffix_text structs.now (Some shape) field) }
{
    match shape {
        Shape::Struct(s) => {
            out.append_str(".")?;
            put_struct_field(out, structs, s, field)
        }
        Shape::ModInt => Ok(()),
        Shape::ModPtr(_) => Ok(()),
    }
}

/// Adds the label of a block.
fn put_label<V: View>(out: &mut Text, view: &V, met: &Met, block: BlockId) -> Result<(), NoMemory>
    requires there { IsSome (V.memory view.now block) }
    requires met { IsTrue (is_in block met.now) }
    ensures { IfOk result
        (λ _. out.new ≡ out.old ++ label_text (V.name view.now) met.now block) }
{
    match block {
        BlockId::Input(input) => out.append(view.label(input).items()),
        BlockId::Core(_) => {
            out.append_str("#")?;
            out.append_number(met.number(block))
        }
    }
}

/// Adds a pointer to a modifiable.
fn put_place<V: View>(out: &mut Text, view: &V, met: &Met, place: Place) -> Result<(), NoMemory>
    requires there { IsSome (V.memory view.now place.block) }
    requires met { IsTrue (is_in place.block met.now) }
    ensures { IfOk result
        (λ _. out.new ≡ out.old ++ (label_text (V.name view.now) met.now place.block
        ++ suffix_text (V.declared view.now)
        (shape_at (V.memory view.now) place.block) place.field)) }
{
    put_label(out, view, met, place.block)?;
    let shape = view.shape(place.block);
    put_suffix(out, view.structs().items(), shape, place.field)
}

/// Adds a word.
fn put_word<V: View>(out: &mut Text, view: &V, met: &Met, word: Word) -> Result<(), NoMemory>
    requires there { IsThere (V.memory view.now) (target word) }
    requires met { AreAmong met.now (target word) }
    ensures { IfOk result (λ _. out.new ≡ out.old
        ++ word_text
        (record {
          structs = V.declared view.now;
          memory = V.memory view.now;
          name = V.name view.now;
          blocks = met.now;
        }) word) }
{
    match word {
        Word::Num(n) => out.append_signed(n),
        Word::Null => out.append_str("null"),
        Word::Block(block) => put_label(out, view, met, block),
        Word::At(place) => put_place(out, view, met, place),
    }
}

/// A field of the blocks of a shape.
#[derive(Clone, Copy)]
struct FieldOf {
    shape: Shape,
    field: u32,
}

/// Adds a space, a field's name, `=` and its word.
fn put_field_word<V: View>(
    out: &mut Text,
    view: &V,
    met: &Met,
    at: FieldOf,
    word: Word,
) -> Result<(), NoMemory>
    requires there { IsThere (V.memory view.now) (target word) }
    requires met { AreAmong met.now (target word) }
    ensures { IfOk result (λ _. out.new ≡ out.old
        ++ field_word_text
        (record {
          structs = V.declared view.now;
          memory = V.memory view.now;
          name = V.name view.now;
          blocks = met.now;
        }) at.shape at.field word) }
{
    out.append_str(" ")?;
    put_field(out, view.structs().items(), at.shape, at.field)?;
    out.append_str("=")?;
    put_word(out, view, met, word)
}

/// Adds the fields of a block.
fn put_fields<V: View>(
    out: &mut Text,
    view: &V,
    met: &Met,
    block: BlockId,
    shape: Shape,
) -> Result<(), NoMemory>
    requires whole { IsWhole (V.declared view.now) (V.memory view.now) }
    requires closed { AreClosed (V.memory view.now) met.now }
    requires met { IsTrue (is_in block met.now) }
    requires shape { shape_at (V.memory view.now) block ≡ Some shape }
    ensures { IfOk result (λ _. out.new ≡ out.old
        ++ fields_text
        (record {
          structs = V.declared view.now;
          memory = V.memory view.now;
          name = V.name view.now;
          blocks = met.now;
        })
        shape 0 (words_at (V.memory view.now) block)) }
{
    let count = field_count(view.structs().items(), shape)?;
    for field in 0..count {
        let word = view.word(block, field);
        put_field_word(out, view, met, FieldOf { shape, field }, word)?;
    }
    Ok(())
}

/// Adds the line of a block.
fn put_block<V: View>(out: &mut Text, view: &V, met: &Met, block: BlockId) -> Result<(), NoMemory>
    requires whole { IsWhole (V.declared view.now) (V.memory view.now) }
    requires closed { AreClosed (V.memory view.now) met.now }
    requires met { IsTrue (is_in block met.now) }
    requires there { IsSome (V.memory view.now block) }
    ensures { IfOk result (λ _. out.new ≡ out.old
        ++ block_text
        (record {
          structs = V.declared view.now;
          memory = V.memory view.now;
          name = V.name view.now;
          blocks = met.now;
        })
        block (shape_at (V.memory view.now) block)) }
{
    let shape = view.shape(block);
    put_label(out, view, met, block)?;
    out.append_str(" ")?;
    put_kind(out, view.structs().items(), shape)?;
    put_fields(out, view, met, block, shape)?;
    out.append_str("\n")
}

/// Adds the lines of all blocks that are met.
pub fn put_lines<V: View>(out: &mut Text, view: &V, met: &Met) -> Result<(), NoMemory>
    requires whole { IsWhole (V.declared view.now) (V.memory view.now) }
    requires closed { AreClosed (V.memory view.now) met.now }
    ensures { IfOk result (λ _. out.new ≡ out.old
        ++ lines_text
        (record {
          structs = V.declared view.now;
          memory = V.memory view.now;
          name = V.name view.now;
          blocks = met.now;
        }) met.now) }
{
    for block in met.blocks() {
        put_block(out, view, met, *block)?;
    }
    Ok(())
}
