// What modifiables hold before any write.

ghost use Rattle.std.specs.Prelude.{◌≡◌, ◌<◌, ◌≤◌, ◌^◌, ℕ, false, true, length, if◌then◌else◌, IfOk, OnOk, Some, []};
ghost use Rattle.std.specs.Prelude.{slice_get, unwrap_or};
ghost use Rattle.ceal_base.specs.Operators.{same_block};
ghost use Rattle.ceal_base.specs.Shapes.{default_of_field};
ghost use Rattle.ceal_base.specs.declared.word.BlockId.TheVariants.{Input};
ghost use Rattle.ceal_base.specs.declared.word.Place.{Place as PlaceOf};
ghost use Rattle.ceal_base.specs.declared.word.Word.{Word as WordOf};
ghost use Rattle.ceal_mods.specs.Mods.{IsUntouched, cell_of};
ghost use Rattle.ceal_order.specs.Stamps.{is_in};
ghost use Rattle.ceal_code.specs.Replay.{content_in};
ghost use Rattle.ceal_repair.specs.Words.{base_of, base_cleared};
ghost use Rattle.ceal_repair.specs.Kept.{Kept, base_in};
ghost use Rattle.ceal_repair.specs.Looks.{NoneDiffers, KeepsMarks};

use crate::tables::Tables;
use ceal_base::kind::{FieldKind, Shape};
use ceal_base::memory::Inputs;
use ceal_base::no_memory::NoMemory;
use ceal_base::shapes::field_kind;
use ceal_base::typed::StructInfo;
use ceal_base::word::{BlockId, Place, Word};
use ceal_code::evaluate::is_modifiable;

/// The word of a field, or the default of its kind where there is none.
pub fn word_or_default(words: &[Word], field: u32, kind: FieldKind) -> Word
    ensures { result ≡ unwrap_or (slice_get words.now field) (default_of_field kind) }
{
    match words.get(field as usize) {
        None => kind.default_word(),
        Some(word) => *word,
    }
}

/// Sets what the modifiables of a block hold before any write: their words, or their defaults where the block has none.
/// The block has this shape. Reads of its places may be queued, no others.
pub fn set_bases(
    tables: &mut Tables,
    structs: &[StructInfo],
    id: BlockId,
    shape: Shape,
    words: &[Word],
) -> Result<(), NoMemory>
    requires kept { Kept tables.old }
    ensures trace { tables.new.trace ≡ tables.old.trace }
    ensures memo { tables.new.memo ≡ tables.old.memo }
    ensures looked { tables.new.mods.looked ≡ tables.old.mods.looked }
    ensures differed { NoneDiffers tables.old tables.new }
    ensures marks { KeepsMarks tables.old tables.new }
    ensures here { OnOk result ((p : PlaceOf) → same_block p.block id ≡ true
        → base_in tables.new.mods p
        ≡ base_of structs.now shape words.now p.field (base_in tables.old.mods p)) }
    ensures others { (p : PlaceOf) → same_block p.block id ≡ false
        → base_in tables.new.mods p ≡ base_in tables.old.mods p }
    ensures only { (s : ℕ) → is_in s tables.new.stale.stamps ≡ true
        → is_in s tables.old.stale.stamps ≡ false
        → (p : PlaceOf) × (same_block p.block id ≡ true)
        × (is_in s (cell_of tables.old.mods p).reads ≡ true) }
    ensures kept { Kept tables.new }
{
    for field in 0..u32::MAX {
        match field_kind(structs, shape, field) {
            None => return Ok(()),
            Some(kind) => {
                if is_modifiable(Some(kind)) {
                    let value = word_or_default(words, field, kind);
                    tables.edit(Place { block: id, field }, value)?;
                }
            }
        }
    }
    Err(NoMemory)
}

/// Sets back to 0 what the modifiables of a block of this shape hold before any write. Reads of its places may be
/// queued, no others.
fn clear_bases(
    tables: &mut Tables,
    structs: &[StructInfo],
    id: BlockId,
    before: Shape,
) -> Result<(), NoMemory>
    requires kept { Kept tables.old }
    ensures trace { tables.new.trace ≡ tables.old.trace }
    ensures memo { tables.new.memo ≡ tables.old.memo }
    ensures looked { tables.new.mods.looked ≡ tables.old.mods.looked }
    ensures differed { NoneDiffers tables.old tables.new }
    ensures marks { KeepsMarks tables.old tables.new }
    ensures here { OnOk result ((p : PlaceOf) → same_block p.block id ≡ true
        → base_in tables.new.mods p
        ≡ base_cleared structs.now (Some before) p.field (base_in tables.old.mods p)) }
    ensures others { (p : PlaceOf) → same_block p.block id ≡ false
        → base_in tables.new.mods p ≡ base_in tables.old.mods p }
    ensures only { (s : ℕ) → is_in s tables.new.stale.stamps ≡ true
        → is_in s tables.old.stale.stamps ≡ false
        → (p : PlaceOf) × (same_block p.block id ≡ true)
        × (is_in s (cell_of tables.old.mods p).reads ≡ true) }
    ensures kept { Kept tables.new }
{
    for field in 0..u32::MAX {
        match field_kind(structs, before, field) {
            None => return Ok(()),
            Some(kind) => {
                if is_modifiable(Some(kind)) {
                    tables.edit(Place { block: id, field }, Word::Num(0))?;
                }
            }
        }
    }
    Err(NoMemory)
}

// Sets them back for a new block whose number another one had before. A modifiable of the new block gets its default
// anyway.
fn clear_others(
    tables: &mut Tables,
    structs: &[StructInfo],
    id: BlockId,
    before: Option<Shape>,
    shape: Shape,
) -> Result<(), NoMemory>
    requires kept { Kept tables.old }
    ensures trace { tables.new.trace ≡ tables.old.trace }
    ensures memo { tables.new.memo ≡ tables.old.memo }
    ensures looked { tables.new.mods.looked ≡ tables.old.mods.looked }
    ensures differed { NoneDiffers tables.old tables.new }
    ensures marks { KeepsMarks tables.old tables.new }
    ensures here { OnOk result ((p : PlaceOf) → same_block p.block id ≡ true
        → base_of structs.now shape [] p.field (base_in tables.new.mods p)
        ≡ base_of structs.now shape [] p.field
        (base_cleared structs.now before p.field (base_in tables.old.mods p))) }
    ensures others { (p : PlaceOf) → same_block p.block id ≡ false
        → base_in tables.new.mods p ≡ base_in tables.old.mods p }
    ensures only { (s : ℕ) → is_in s tables.new.stale.stamps ≡ true
        → is_in s tables.old.stale.stamps ≡ false
        → (p : PlaceOf) × (same_block p.block id ≡ true)
        × (is_in s (cell_of tables.old.mods p).reads ≡ true) }
    ensures kept { Kept tables.new }
{
    match before {
        None => Ok(()),
        Some(before) if before == shape => Ok(()),
        Some(before) => clear_bases(tables, structs, id, before),
    }
}

/// Sets what the modifiables of a new block hold before any write: their defaults. Those of the block that had its
/// number before are set back to 0. Reads of its places may be queued, no others.
pub fn renew_bases(
    tables: &mut Tables,
    structs: &[StructInfo],
    id: BlockId,
    before: Option<Shape>,
    shape: Shape,
) -> Result<(), NoMemory>
    requires kept { Kept tables.old }
    ensures trace { tables.new.trace ≡ tables.old.trace }
    ensures memo { tables.new.memo ≡ tables.old.memo }
    ensures looked { tables.new.mods.looked ≡ tables.old.mods.looked }
    ensures differed { NoneDiffers tables.old tables.new }
    ensures marks { KeepsMarks tables.old tables.new }
    ensures here { OnOk result ((p : PlaceOf) → same_block p.block id ≡ true
        → base_in tables.new.mods p ≡ base_of structs.now shape [] p.field
        (base_cleared structs.now before p.field (base_in tables.old.mods p))) }
    ensures others { (p : PlaceOf) → same_block p.block id ≡ false
        → base_in tables.new.mods p ≡ base_in tables.old.mods p }
    ensures only { (s : ℕ) → is_in s tables.new.stale.stamps ≡ true
        → is_in s tables.old.stale.stamps ≡ false
        → (p : PlaceOf) × (same_block p.block id ≡ true)
        × (is_in s (cell_of tables.old.mods p).reads ≡ true) }
    ensures kept { Kept tables.new }
{
    clear_others(tables, structs, id, before, shape)?;
    set_bases(tables, structs, id, shape, &[])
}

/// Sets the bases of inputs, where nothing was set yet.
pub fn set_inputs(
    tables: &mut Tables,
    structs: &[StructInfo],
    inputs: &Inputs,
) -> Result<(), NoMemory>
    requires kept { Kept tables.old }
    requires untouched { IsUntouched tables.old.mods }
    requires few { length inputs.now < 2 ^ 32 }
    ensures trace { tables.new.trace ≡ tables.old.trace }
    ensures inputs { OnOk result ((i field : ℕ) → i < length inputs.now
        → base_in tables.new.mods (record { block = Input i; field = field })
        ≡ content_in structs.now (slice_get inputs.now i) field) }
    ensures others { (p : PlaceOf)
        → ((i : ℕ) → i < length inputs.now → same_block p.block (Input i) ≡ false)
        → base_in tables.new.mods p ≡ base_in tables.old.mods p }
    ensures looked { tables.new.mods.looked ≡ tables.old.mods.looked }
    ensures differed { NoneDiffers tables.old tables.new }
    ensures marks { KeepsMarks tables.old tables.new }
    ensures kept { Kept tables.new }
{
    let count = inputs.items().len() as u32;
    for n in 0..count {
        let block = &inputs.items()[n as usize];
        set_bases(
            tables,
            structs,
            BlockId::Input(n),
            block.shape,
            block.items(),
        )?;
    }
    Ok(())
}
