// A new input of a run.

ghost use Rattle.std.specs.Prelude.{◌≡◌, ℕ, [], pos, None, true, false, OnOk};
ghost use Rattle.ceal_base.specs.Operators.{same_block};
ghost use Rattle.ceal_base.specs.declared.word.BlockId.TheVariants.{Input};
ghost use Rattle.ceal_base.specs.declared.word.Place.{Place as PlaceOf};
ghost use Rattle.ceal_base.specs.declared.word.Word.TheVariants.{Num};
ghost use Rattle.ceal_code.specs.Replay.{stored};
ghost use Rattle.ceal_code.specs.Value.{field_kind as kind_of};
ghost use Rattle.ceal_mods.specs.Mods.{HasCell, cell_of};
ghost use Rattle.ceal_repair.specs.Kept.{Kept, base_in};
ghost use Rattle.ceal_repair.specs.Looks.{LooksAtNothing, NoneDiffers, KeepsMarks};
ghost use Rattle.ceal_repair.specs.Words.{base_of, IsTouched, NO_FIELD};

use crate::bases::word_or_default;
use crate::tables::Tables;
use ceal_base::kind::Shape;
use ceal_base::no_memory::NoMemory;
use ceal_base::shapes::field_kind;
use ceal_base::typed::StructInfo;
use ceal_base::word::{BlockId, Place, Word};
use ceal_code::evaluate::is_modifiable;

/// Touches a place that holds 0 before any write: it does so still.
fn touch(tables: &mut Tables, place: Place) -> Result<(), NoMemory>
    requires kept { Kept tables.old }
    requires bare { base_in tables.old.mods place ≡ Num (pos 0) }
    ensures trace { tables.new.trace ≡ tables.old.trace }
    ensures cells { (p : PlaceOf) → cell_of tables.new.mods p ≡ cell_of tables.old.mods p }
    ensures looks { LooksAtNothing tables.old tables.new }
    ensures marks { KeepsMarks tables.old tables.new }
    ensures touched { OnOk result (HasCell tables.new.mods place) }
    ensures others { (p : PlaceOf) → HasCell tables.old.mods p → HasCell tables.new.mods p }
    ensures kept { Kept tables.new }
{
    tables.mods.set_base(place, Word::Num(0))
}

/// Touches the places of the modifiables of an input that is to come. Its places hold 0 before any write, and do so
/// still.
pub fn touch_input(
    tables: &mut Tables,
    structs: &[StructInfo],
    input: u32,
    shape: Shape,
) -> Result<(), NoMemory>
    requires kept { Kept tables.old }
    requires bare { (field : ℕ) → base_in tables.old.mods
        (record { block = Input input; field = field }) ≡ Num (pos 0) }
    ensures trace { tables.new.trace ≡ tables.old.trace }
    ensures cells { (p : PlaceOf) → cell_of tables.new.mods p ≡ cell_of tables.old.mods p }
    ensures looks { LooksAtNothing tables.old tables.new }
    ensures marks { KeepsMarks tables.old tables.new }
    ensures touched { OnOk result (IsTouched structs.now input shape tables.new.mods) }
    ensures few { OnOk result (kind_of structs.now shape NO_FIELD ≡ None) }
    ensures kept { Kept tables.new }
{
    for field in 0..u32::MAX {
        match field_kind(structs, shape, field) {
            None => return Ok(()),
            Some(kind) => {
                if is_modifiable(Some(kind)) {
                    let block = BlockId::Input(input);
                    touch(tables, Place { block, field })?;
                }
            }
        }
    }
    Err(NoMemory)
}

/// Sets what a place holds before any write that was touched and is not read. It takes no memory.
fn set_unread(tables: &mut Tables, place: Place, value: Word)
    requires kept { Kept tables.old }
    requires touched { HasCell tables.old.mods place }
    requires unread { (cell_of tables.old.mods place).reads ≡ [] }
    ensures trace { tables.new.trace ≡ tables.old.trace }
    ensures memo { tables.new.memo ≡ tables.old.memo }
    ensures queue { tables.new.stale ≡ tables.old.stale }
    ensures looked { tables.new.mods.looked ≡ tables.old.mods.looked }
    ensures differed { NoneDiffers tables.old tables.new }
    ensures marks { KeepsMarks tables.old tables.new }
    ensures base { (p : PlaceOf)
        → base_in tables.new.mods p ≡ stored (base_in tables.old.mods) place value p }
    ensures others { (p : PlaceOf) → HasCell tables.old.mods p → HasCell tables.new.mods p }
    ensures kept { Kept tables.new }
{
    match tables.mods.set_base(place, value) {
        Ok(()) => {}
        Err(_) => unreachable!(),
    }
}

/// Sets the bases of an input whose places were touched and are not read. It takes no memory.
pub fn set_input(
    tables: &mut Tables,
    structs: &[StructInfo],
    input: u32,
    shape: Shape,
    words: &[Word],
)
    requires kept { Kept tables.old }
    requires touched { IsTouched structs.now input shape tables.old.mods }
    requires few { kind_of structs.now shape NO_FIELD ≡ None }
    requires unread { (field : ℕ) → (cell_of tables.old.mods
        (record { block = Input input; field = field })).reads ≡ [] }
    ensures trace { tables.new.trace ≡ tables.old.trace }
    ensures here { (p : PlaceOf) → same_block p.block (Input input) ≡ true
        → base_in tables.new.mods p
        ≡ base_of structs.now shape words.now p.field (base_in tables.old.mods p) }
    ensures others { (p : PlaceOf) → same_block p.block (Input input) ≡ false
        → base_in tables.new.mods p ≡ base_in tables.old.mods p }
    ensures looks { LooksAtNothing tables.old tables.new }
    ensures marks { KeepsMarks tables.old tables.new }
    ensures kept { Kept tables.new }
{
    for field in 0..u32::MAX {
        match field_kind(structs, shape, field) {
            None => return,
            Some(kind) => {
                if is_modifiable(Some(kind)) {
                    let value = word_or_default(words, field, kind);
                    let block = BlockId::Input(input);
                    set_unread(tables, Place { block, field }, value);
                }
            }
        }
    }
}
