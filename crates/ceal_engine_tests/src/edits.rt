// Whether inputs were edited, and the first trace of a call with its repair.

ghost use Rattle.std.specs.Prelude.{◌≡◌, true, map, IsTrue, ◌∷◌, []};
ghost use Rattle.ceal_base.specs.Fitting.{inputs_fit};
ghost use Rattle.ceal_base.specs.Shapes.{kinds_of_shape, kind_of_field};
ghost use Rattle.ceal_code.specs.Replay.{plain_words, plain_block};
ghost use Rattle.ceal_theory.specs.Adjust.{Extended};

use ceal_adjust::adjust::{Adjusted, adjust, first_forest};
use ceal_base::kind::{FieldKind, Shape};
use ceal_base::memory::{BlockWords, Inputs};
use ceal_base::no_memory::NoMemory;
use ceal_base::typed::{FieldInfo, StructInfo};
use ceal_base::word::Word;
use ceal_code::code::Code;
use ceal_code::validate::validate;
use ceal_samples::calls::{do_inputs_fit, fits};
use ceal_theory::laws::first_law;
use std::alloc::Global;

/// Whether the words of plain fields are the same, and there are as many words.
fn are_plain_same(fields: &[FieldInfo], old: &[Word], new: &[Word]) -> bool
    ensures { IsTrue result
        → plain_words (map kind_of_field fields.now) new.now
        ≡ plain_words (map kind_of_field fields.now) old.now }
{
    let Some((field, fields)) = fields.split_first() else {
        return old.is_empty() && new.is_empty();
    };
    let Some((a, old)) = old.split_first() else {
        return false;
    };
    let Some((b, new)) = new.split_first() else {
        return false;
    };
    is_plain_same(field.kind, *a, *b) && are_plain_same(fields, old, new)
}

fn is_plain_same(kind: FieldKind, old: Word, new: Word) -> bool
    ensures { IsTrue result
        → plain_words (kind ∷ []) (new ∷ []) ≡ plain_words (kind ∷ []) (old ∷ []) }
{
    match kind {
        FieldKind::Plain(_) => old == new,
        FieldKind::CellInt => true,
        FieldKind::CellPtr(_) => true,
    }
}

fn is_cell_same(kind: FieldKind, old: &[Word], new: &[Word]) -> bool
    ensures { IsTrue result → plain_words (kind ∷ []) new.now ≡ plain_words (kind ∷ []) old.now }
{
    match (old, new) {
        ([a], [b]) => is_plain_same(kind, *a, *b),
        _ => false,
    }
}

fn are_words_edited(structs: &[StructInfo], shape: Shape, old: &[Word], new: &[Word]) -> bool
    ensures { IsTrue result
        → plain_words (kinds_of_shape structs.now shape) new.now
        ≡ plain_words (kinds_of_shape structs.now shape) old.now }
{
    match shape {
        Shape::Struct(number) => match structs.get(number as usize) {
            None => false,
            Some(info) => are_plain_same(info.fields.items(), old, new),
        },
        Shape::ModInt => is_cell_same(FieldKind::CellInt, old, new),
        Shape::ModPtr(number) => is_cell_same(FieldKind::CellPtr(number), old, new),
    }
}

/// Whether the block differs only in contents of modifiables.
fn is_edited(structs: &[StructInfo], old: &BlockWords, new: &BlockWords) -> bool
    ensures { IsTrue result → plain_block structs.now new.now ≡ plain_block structs.now old.now }
{
    old.shape == new.shape && are_words_edited(structs, old.shape, old.items(), new.items())
}

/// Whether the new inputs are the old ones with other contents of modifiables, and maybe more inputs.
fn extends(code: &Code, old: &[BlockWords], new: &[BlockWords]) -> bool
    ensures { IsTrue result → Extended code.now old.now new.now }
{
    let Some((a, old)) = old.split_first() else {
        return true;
    };
    let Some((b, new)) = new.split_first() else {
        return false;
    };
    is_edited(code.structs.items(), a, b) && extends(code, old, new)
}

/// Whether the new inputs are an edit of the old ones.
pub(crate) fn is_edit(code: &Code, before: &Inputs, after: &Inputs) -> bool
    ensures fit { IsTrue result → inputs_fit code.now.structs after.now ≡ true }
    ensures extended { IsTrue result → Extended code.now before.now after.now }
{
    do_inputs_fit(code, after) && extends(code, before.items(), after.items())
}

/// The first forest of a call, and its repair after an edit. None where the code is not valid, the call may not be run,
/// the edit changes more than contents, or the first run is out of fuel.
pub(crate) fn repaired(
    alloc: Global,
    code: &Code,
    function: u32,
    args: &[Word],
    before: &Inputs,
    after: &Inputs,
    fuel: u32,
) -> Result<Option<(Adjusted, Adjusted)>, NoMemory> {
    if !validate(alloc, code)? {
        return Ok(None);
    }
    if !fits(code, function, args, before) {
        return Ok(None);
    }
    if !is_edit(code, before, after) {
        return Ok(None);
    }
    first_law();
    let first = first_forest(alloc, code, function, args, before, fuel)?;
    let Adjusted::Done { forest, work } = first else {
        return Ok(None);
    };
    if work.checked_add(fuel).is_none() {
        return Ok(None);
    }
    let second = adjust(alloc, code, &forest, after, work, fuel)?;
    Ok(Some((Adjusted::Done { forest, work }, second)))
}
