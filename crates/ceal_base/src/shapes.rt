// What a block of a shape has.

ghost use Rattle.std.specs.Prelude.{◌≡◌, ◌∷◌, [], map, slice_get, IfOk};
ghost use Rattle.ceal_base.specs.Access.{is_struct};
ghost use Rattle.ceal_base.specs.Shapes.{default_of_field, kind_of_field, field_kinds, kinds_of_shape};
ghost use Rattle.ceal_base.specs.Shapes.{default_block as default_block_of};

use crate::kind::{FieldKind, Shape};
use crate::memory::BlockWords;
use crate::no_memory::NoMemory;
use crate::typed::{FieldInfo, StructInfo};
use crate::word::Word;
use std::alloc::Global;

impl Shape {
    /// Whether it is the shape of the struct of this number.
    pub fn is_of_struct(self, number: u32) -> bool
        ensures value { result ≡ is_struct number self }
    {
        match self {
            Shape::Struct(n) => number == n,
            Shape::ModInt => false,
            Shape::ModPtr(_) => false,
        }
    }
}

/// The type of a field of a block of this shape, where there is such a struct and such a field.
pub fn field_kind(structs: &[StructInfo], shape: Shape, field: u32) -> Option<FieldKind>
    ensures value { result ≡ slice_get (kinds_of_shape structs.now shape) field }
{
    match shape {
        Shape::Struct(number) => {
            let info = structs.get(number as usize)?;
            let field = info.fields.items().get(field as usize)?;
            Some(field.kind)
        }
        Shape::ModInt if field == 0 => Some(FieldKind::CellInt),
        Shape::ModInt => None,
        Shape::ModPtr(number) if field == 0 => Some(FieldKind::CellPtr(number)),
        Shape::ModPtr(_) => None,
    }
}

fn default_words(alloc: Global, fields: &[FieldInfo]) -> Result<Vec<Word>, NoMemory>
    ensures { IfOk result
        (λ words. words.items ≡ map default_of_field (map kind_of_field fields.now)) }
{
    let mut words = Vec::new(alloc);
    for f in fields {
        words.push(f.kind.default_word())?;
    }
    Ok(words)
}

fn default_of_struct(
    alloc: Global,
    structs: &[StructInfo],
    number: u32,
) -> Result<Vec<Word>, NoMemory>
    ensures { IfOk result
        (λ words. words.items ≡ map default_of_field (field_kinds (slice_get structs.now number))) }
{
    match structs.get(number as usize) {
        None => Ok(Vec::new(alloc)),
        Some(info) => default_words(alloc, info.fields.items()),
    }
}

fn one_word(alloc: Global, word: Word) -> Result<Vec<Word>, NoMemory>
    ensures { IfOk result (λ words. words.items ≡ word ∷ []) }
{
    let mut words = Vec::new(alloc);
    words.push(word)?;
    Ok(words)
}

/// A new block of this shape, each field at its default; a number without a struct has no fields.
pub fn default_block(
    alloc: Global,
    structs: &[StructInfo],
    shape: Shape,
) -> Result<BlockWords, NoMemory>
    ensures value { IfOk result (λ block. block ≡ default_block_of structs.now shape) }
{
    let words = match shape {
        Shape::Struct(number) => default_of_struct(alloc, structs, number)?,
        Shape::ModInt => one_word(alloc, Word::Num(0))?,
        Shape::ModPtr(_) => one_word(alloc, Word::Null)?,
    };
    Ok(BlockWords::new(shape, words))
}
