// What may be asked of a block: a test for each premise of `shape`, `field` and `value`.

ghost use Rattle.std.specs.Prelude.{◌≡◌, ◌↔◌, true, IsTrue, IsSome};
ghost use Rattle.std.specs.Option.{option_map};
ghost use Rattle.ceal_base.specs.Fitting.{kind_in};
ghost use Rattle.ceal_code.specs.Value.{is_cell};
ghost use Rattle.ceal_engine.specs.Engine.{block_in, is_plain, Shows};
ghost use Rattle.ceal_engine.specs.declared.phase.Phase.TheVariants.{Finished};

use super::Engine;
use crate::phase::Phase;
use crate::reading::shape;
use ceal_base::kind::{FieldKind, Shape};
use ceal_base::shapes::field_kind;
use ceal_base::word::{BlockId, Place};

/// Whether a kind is that of a plain field.
fn is_plain_kind(kind: Option<FieldKind>) -> bool
    ensures { result ≡ is_plain kind }
{
    match kind {
        Some(FieldKind::Plain(_)) => true,
        Some(FieldKind::CellInt) => false,
        Some(FieldKind::CellPtr(_)) => false,
        None => false,
    }
}

/// Whether a kind is that of a modifiable.
fn is_modifiable_kind(kind: Option<FieldKind>) -> bool
    ensures { result ≡ is_cell kind }
{
    match kind {
        Some(FieldKind::CellInt) => true,
        Some(FieldKind::CellPtr(_)) => true,
        Some(FieldKind::Plain(_)) => false,
        None => false,
    }
}

impl Engine {
    /// Whether the block may be looked at: an input always, a core block once the run is finished.
    fn shows(&self, block: BlockId) -> bool
        ensures { IsTrue result ↔ Shows self.now block }
    {
        match block {
            BlockId::Input(_) => true,
            BlockId::Core(_) => self.run.phase() == Phase::Finished,
        }
    }

    /// The shape of a block that may be looked at, where there is such a block.
    pub fn find_shape(&self, block: BlockId) -> Option<Shape>
        ensures shows { IsSome result → Shows self.now block }
        ensures value { Shows self.now block
            → result ≡ option_map (λ b. b.shape) (block_in self.now block) }
    {
        if !self.shows(block) {
            return None;
        }
        shape(&self.run, &self.inputs, block)
    }

    /// The kind of a field of a block that may be looked at, where there is such a field.
    pub fn find_kind(&self, block: BlockId, index: u32) -> Option<FieldKind>
        ensures shows { IsSome result → Shows self.now block }
        ensures value { Shows self.now block
            → result ≡ kind_in self.now.code.structs (block_in self.now block) index }
    {
        let shape = self.find_shape(block)?;
        field_kind(self.code.structs.items(), shape, index)
    }

    /// Whether `field` may be called: the block may be looked at, and has a plain field of this index.
    pub fn has_field(&self, block: BlockId, index: u32) -> bool
        ensures shows { IsTrue result → Shows self.now block }
        ensures there { IsTrue result
            → is_plain (kind_in self.now.code.structs (block_in self.now block) index) ≡ true }
        ensures only { Shows self.now block
            → is_plain (kind_in self.now.code.structs (block_in self.now block) index) ≡ true
            → IsTrue result }
    {
        is_plain_kind(self.find_kind(block, index))
    }

    /// Whether `value` may be called: the run is finished, and the place is a modifiable, of an input or of a core
    /// block.
    pub fn has_value(&self, place: Place) -> bool
        ensures finished { IsTrue result → self.now.phase ≡ Finished }
        ensures there { IsTrue result → is_cell
            (kind_in self.now.code.structs (block_in self.now place.block) place.field) ≡ true }
        ensures only { self.now.phase ≡ Finished → is_cell
            (kind_in self.now.code.structs (block_in self.now place.block) place.field) ≡ true
            → IsTrue result }
    {
        self.run.phase() == Phase::Finished
            && is_modifiable_kind(self.find_kind(place.block, place.field))
    }
}
