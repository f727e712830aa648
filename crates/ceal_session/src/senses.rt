// What the names, places and values of a line stand for.

ghost use Rattle.std.specs.Prelude.{◌≡◌, map, IfOk, slice_get};
ghost use Rattle.std.specs.List.{list_any};
ghost use Rattle.ceal_session.specs.Senses.{modifiable as modifiable_sense, shape_at, fields_of, block_sense};
ghost use Rattle.ceal_session.specs.Senses.{kind_sense, field_sense, member_sense, part_sense, input_sense};
ghost use Rattle.ceal_session.specs.Senses.{found_sense, place_sense as sense_of_place, value_sense as sense_of_value};
ghost use Rattle.ceal_session.specs.Senses.{is_unknown as is_unknown_sense, words_of as words_of_senses};
ghost use Rattle.ceal_session.specs.Senses.{mod_shape as shape_of_mod, pointer_shape as shape_of_pointer, struct_named};
ghost use Rattle.ceal_session.specs.Senses.{struct_shape as shape_of_struct, field_named};

use crate::numbers::field_number;
use crate::sense::Sense;
use crate::state::State;
use ceal_base::kind::{FieldKind, Shape};
use ceal_base::no_memory::NoMemory;
use ceal_base::text::Text;
use ceal_base::typed::FieldInfo;
use ceal_base::word::{BlockId, Place, Word};
use ceal_base::words::Words;
use ceal_script::command::{KindWord, PlaceWord, ValueWord};
use std::alloc::Global;

/// The modifiable in a field of an input.
fn modifiable(input: u32, field: u32) -> Sense
    ensures { result ≡ modifiable_sense input field }
{
    Sense::Word(Word::At(Place {
        block: BlockId::Input(input),
        field,
    }))
}

/// A name by itself.
fn whole_sense(input: u32, shape: Option<Shape>) -> Sense
    ensures { result ≡ block_sense input shape }
{
    match shape {
        None => Sense::Unknown,
        Some(Shape::Struct(_)) => Sense::Word(Word::Block(BlockId::Input(input))),
        Some(Shape::ModInt) => modifiable(input, 0),
        Some(Shape::ModPtr(_)) => modifiable(input, 0),
    }
}

fn cell_sense(input: u32, field: u32, kind: FieldKind) -> Sense
    ensures { result ≡ kind_sense input field kind }
{
    match kind {
        FieldKind::Plain(_) => Sense::Plain,
        FieldKind::CellInt => modifiable(input, field),
        FieldKind::CellPtr(_) => modifiable(input, field),
    }
}

/// A field of an input, by its name among the fields.
fn named_sense(input: u32, fields: &[FieldInfo], name: &Text) -> Result<Sense, NoMemory>
    ensures { IfOk result
        (λ sense. sense ≡ member_sense input fields.now (field_named fields.now name.now)) }
{
    match field_number(fields, name)? {
        None => Ok(Sense::Unknown),
        Some(number) => match fields.get(number as usize) {
            None => Ok(Sense::Unknown),
            Some(field) => Ok(cell_sense(input, number, field.kind)),
        },
    }
}

/// The fields of a struct.
fn fields(state: &State, number: u32) -> &[FieldInfo]
    ensures { result.now ≡ fields_of (slice_get state.now.state.program.structs number) }
{
    match state.structs().get(number as usize) {
        None => &[],
        Some(info) => info.fields.items(),
    }
}

/// A name and a field.
fn part(state: &State, input: u32, name: &Text, shape: Option<Shape>) -> Result<Sense, NoMemory>
    ensures { IfOk result (λ sense. sense ≡ part_sense state.now.state input name.now shape) }
{
    match shape {
        None => Ok(Sense::Unknown),
        Some(Shape::Struct(number)) => named_sense(input, fields(state, number), name),
        Some(Shape::ModInt) => Ok(Sense::Unknown),
        Some(Shape::ModPtr(_)) => Ok(Sense::Unknown),
    }
}

fn shape_of(state: &State, input: u32) -> Option<Shape>
    ensures { result ≡ shape_at state.now.state input }
{
    match state.inputs().items().get(input as usize) {
        None => None,
        Some(block) => Some(block.shape),
    }
}

fn sense_in(state: &State, input: u32, field: &Option<Text>) -> Result<Sense, NoMemory>
    ensures { IfOk result (λ sense. sense ≡ input_sense state.now.state input field.now) }
{
    let shape = shape_of(state, input);
    match field {
        None => Ok(whole_sense(input, shape)),
        Some(name) => part(state, input, name, shape),
    }
}

/// What a place stands for.
pub fn place_sense(state: &State, place: &PlaceWord) -> Result<Sense, NoMemory>
    ensures { IfOk result (λ sense. sense ≡ sense_of_place state.now.state place.now) }
{
    match state.input(&place.name) {
        None => Ok(Sense::Unknown),
        Some(input) => sense_in(state, input, &place.field),
    }
}

/// What a value stands for.
pub fn value_sense(state: &State, value: &ValueWord) -> Result<Sense, NoMemory>
    ensures { IfOk result (λ sense. sense ≡ sense_of_value state.now.state value.now) }
{
    match value {
        ValueWord::Num(n) => Ok(Sense::Word(Word::Num(*n))),
        ValueWord::Null => Ok(Sense::Word(Word::Null)),
        ValueWord::At(place) => place_sense(state, place),
    }
}

/// What values stand for.
pub fn value_senses(
    alloc: Global,
    state: &State,
    values: &[ValueWord],
) -> Result<Vec<Sense>, NoMemory>
    ensures { IfOk result
        (λ senses. senses.items ≡ map (sense_of_value state.now.state) values.now) }
{
    let mut senses = Vec::new(alloc);
    for value in values {
        let sense = value_sense(state, value)?;
        senses.push(sense)?;
    }
    Ok(senses)
}

/// Whether a name in a value or a place names nothing.
pub fn is_unknown(sense: Sense) -> bool
    ensures { result ≡ is_unknown_sense sense }
{
    match sense {
        Sense::Unknown => true,
        Sense::Plain => false,
        Sense::Word(_) => false,
    }
}

/// Whether one of them names nothing.
pub fn has_unknown(senses: &[Sense]) -> bool
    ensures { result ≡ list_any is_unknown_sense senses.now }
{
    senses.iter().any(|sense| is_unknown(*sense))
}

/// The words that they stand for, where each stands for one.
pub fn words(alloc: Global, senses: &[Sense]) -> Result<Option<Words>, NoMemory>
    ensures { IfOk result (λ words. words ≡ words_of_senses senses.now) }
{
    let mut words = Words::empty(alloc);
    for sense in senses {
        match *sense {
            Sense::Word(word) => words.push(word)?,
            Sense::Unknown => return Ok(None),
            Sense::Plain => return Ok(None),
        }
    }
    Ok(Some(words))
}

/// The shape of a block with one modifiable that holds a pointer to the struct.
fn pointer_shape(number: Option<u32>) -> Option<Shape>
    ensures { result ≡ shape_of_pointer number }
{
    match number {
        None => None,
        Some(number) => Some(Shape::ModPtr(number)),
    }
}

fn named_shape(state: &State, name: &Text) -> Option<Shape>
    ensures { result ≡ shape_of_pointer (struct_named state.now.state name.now) }
{
    pointer_shape(state.struct_number(name))
}

/// The shape of a block made by `mod`.
pub fn mod_shape(state: &State, kind: &KindWord) -> Option<Shape>
    ensures { result ≡ shape_of_mod state.now.state kind.now }
{
    match kind {
        KindWord::Int => Some(Shape::ModInt),
        KindWord::Named(name) => named_shape(state, name),
    }
}

/// The shape of a block made by `new`.
pub fn struct_shape(state: &State, name: &Text) -> Option<Shape>
    ensures { result ≡ shape_of_struct (struct_named state.now.state name.now) }
{
    match state.struct_number(name) {
        None => None,
        Some(number) => Some(Shape::Struct(number)),
    }
}
