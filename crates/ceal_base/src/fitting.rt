// Whether words fit the kinds of variables and fields, among the inputs.

ghost use Rattle.std.specs.Prelude.{◌≡◌, [], ◌∷◌, map, slice_get, is_some};
ghost use Rattle.std.specs.Option.{option_map};
ghost use Rattle.ceal_base.specs.Access.{pointed};
ghost use Rattle.ceal_base.specs.Block.{alone, block_at};
ghost use Rattle.ceal_base.specs.Fitting.{kind_at, is_int_cell, is_pointer_cell, fits_kind, fits_field};
ghost use Rattle.ceal_base.specs.Fitting.{words_fit as words_fit_kinds, fields_fit as words_fit_fields, block_fits};
ghost use Rattle.ceal_base.specs.declared.word.Word.TheVariants.{Block as BlockWord};
ghost use Rattle.ceal_base.specs.Shapes.{kind_of_field};

use crate::kind::{FieldKind, Kind, Shape};
use crate::memory::{BlockWords, Inputs};
use crate::shapes::field_kind;
use crate::typed::{FieldInfo, StructInfo};
use crate::word::{BlockId, Place, Word};

/// The block of a number, where it is an input.
fn block(inputs: &Inputs, id: BlockId) -> Option<&BlockWords>
    ensures { option_map (λ b. b.now) result ≡ block_at (alone inputs.now) id }
{
    match id {
        BlockId::Input(n) => inputs.items().get(n as usize),
        BlockId::Core(_) => None,
    }
}

/// The type of the field at a place.
pub fn place_kind(structs: &[StructInfo], inputs: &Inputs, place: Place) -> Option<FieldKind>
    ensures value { result ≡ kind_at structs.now (alone inputs.now) place }
{
    let block = block(inputs, place.block)?;
    field_kind(structs, block.shape, place.field)
}

/// Whether the block is one of the struct.
fn points_to(inputs: &Inputs, number: u32, id: BlockId) -> bool
    ensures { result ≡ is_some (pointed (alone inputs.now) number (BlockWord id)) }
{
    match block(inputs, id) {
        None => false,
        Some(block) => block.shape.is_of_struct(number),
    }
}

fn is_int(kind: Option<FieldKind>) -> bool
    ensures { result ≡ is_int_cell kind }
{
    match kind {
        Some(FieldKind::CellInt) => true,
        Some(FieldKind::Plain(_)) => false,
        Some(FieldKind::CellPtr(_)) => false,
        None => false,
    }
}

fn is_pointer(number: u32, kind: Option<FieldKind>) -> bool
    ensures { result ≡ is_pointer_cell number kind }
{
    match kind {
        Some(FieldKind::CellPtr(n)) => number == n,
        Some(FieldKind::Plain(_)) => false,
        Some(FieldKind::CellInt) => false,
        None => false,
    }
}

/// Whether a word fits a type.
pub fn word_fits(structs: &[StructInfo], inputs: &Inputs, kind: Kind, word: Word) -> bool
    ensures value { result ≡ fits_kind structs.now (alone inputs.now) kind word }
{
    match (kind, word) {
        (Kind::Int, Word::Num(_)) => true,
        (Kind::Ptr(_), Word::Null) => true,
        (Kind::Ptr(number), Word::Block(id)) => points_to(inputs, number, id),
        (Kind::ModInt, Word::Null) => true,
        (Kind::ModInt, Word::At(place)) => is_int(place_kind(structs, inputs, place)),
        (Kind::ModPtr(_), Word::Null) => true,
        (Kind::ModPtr(number), Word::At(place)) => {
            is_pointer(number, place_kind(structs, inputs, place))
        }
        _ => false,
    }
}

/// Whether a word fits a field; an embedded modifiable takes what fits the type that it holds.
pub fn field_fits(structs: &[StructInfo], inputs: &Inputs, kind: FieldKind, word: Word) -> bool
    ensures value { result ≡ fits_field structs.now (alone inputs.now) kind word }
{
    match kind {
        FieldKind::Plain(kind) => word_fits(structs, inputs, kind, word),
        FieldKind::CellInt => word_fits(structs, inputs, Kind::Int, word),
        FieldKind::CellPtr(number) => word_fits(structs, inputs, Kind::Ptr(number), word),
    }
}

/// Whether there is one word for each type, which fits it.
pub fn words_fit(structs: &[StructInfo], inputs: &Inputs, kinds: &[Kind], words: &[Word]) -> bool
    ensures value { result ≡ words_fit_kinds structs.now (alone inputs.now) kinds.now words.now }
{
    if kinds.len() != words.len() {
        return false;
    }
    for at in 0..words.len() {
        if !word_fits(structs, inputs, kinds[at], words[at]) {
            return false;
        }
    }
    true
}

/// Whether there is one word for each field, which fits it.
fn fields_fit(structs: &[StructInfo], inputs: &Inputs, fields: &[FieldInfo], words: &[Word]) -> bool
    ensures { result
        ≡ words_fit_fields structs.now (alone inputs.now) (map kind_of_field fields.now) words.now }
{
    if fields.len() != words.len() {
        return false;
    }
    for at in 0..words.len() {
        if !field_fits(structs, inputs, fields[at].kind, words[at]) {
            return false;
        }
    }
    true
}

/// Whether the words are one that fits the modifiable.
fn cell_fits(structs: &[StructInfo], inputs: &Inputs, kind: FieldKind, words: &[Word]) -> bool
    ensures { result ≡ words_fit_fields structs.now (alone inputs.now) (kind ∷ []) words.now }
{
    match words {
        [word] => field_fits(structs, inputs, kind, *word),
        _ => false,
    }
}

/// Whether a new block of this shape may have these words.
pub fn new_block_fits(structs: &[StructInfo], inputs: &Inputs, shape: Shape, words: &[Word]) -> bool
    ensures value { result ≡ block_fits structs.now (alone inputs.now)
        (record { shape = shape; words = words.now }) }
{
    match shape {
        Shape::Struct(number) => match structs.get(number as usize) {
            None => words.is_empty(),
            Some(info) => fields_fit(structs, inputs, info.fields.items(), words),
        },
        Shape::ModInt => cell_fits(structs, inputs, FieldKind::CellInt, words),
        Shape::ModPtr(number) => cell_fits(structs, inputs, FieldKind::CellPtr(number), words),
    }
}
