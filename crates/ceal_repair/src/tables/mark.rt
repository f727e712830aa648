// What the places hold at the end, and that it is marked.

ghost use Rattle.std.specs.Prelude.{◌≡◌, ◌≢◌, IsSome, IfOk, OnOk, OnErr};
ghost use Rattle.ceal_base.specs.declared.word.Place.{Place as PlaceOf};
ghost use Rattle.ceal_mods.specs.Cell.{latest_value};
ghost use Rattle.ceal_mods.specs.Marks.{times};
ghost use Rattle.ceal_mods.specs.Mods.{cell_of, held_at_mark};
ghost use Rattle.ceal_repair.specs.Kept.{Kept};
ghost use Rattle.ceal_repair.specs.Looks.{LooksAtNothing};

use super::Tables;
use crate::written_in::WrittenIn;
use ceal_base::no_memory::NoMemory;
use ceal_base::word::{Place, Word};

impl Tables {
    /// Marks what the places hold at the end now: what differs from it later is told by `changed`.
    pub fn mark(&mut self) -> Result<(), NoMemory>
        requires kept { Kept self.old }
        ensures trace { self.new.trace ≡ self.old.trace }
        ensures cells { self.new.mods.cells ≡ self.old.mods.cells }
        ensures memo { self.new.memo ≡ self.old.memo }
        ensures looks { LooksAtNothing self.old self.new }
        ensures marked { OnOk result (IsSome self.new.mods.marked) }
        ensures held { OnOk result ((p : PlaceOf)
            → held_at_mark self.new.mods p ≡ latest_value (cell_of self.new.mods p)) }
        ensures err { OnErr result (self.new ≡ self.old) }
        ensures kept { Kept self.new }
    {
        let written = WrittenIn { trace: &self.trace };
        self.mods.mark(&written)
    }

    /// The places that hold something else at the end than when they were marked, each once; one that had not been
    /// touched by then held 0.
    pub fn changed(&self) -> Result<Vec<Place>, NoMemory>
        requires kept { Kept self.now }
        requires marked { IsSome self.now.mods.marked }
        ensures told { IfOk result (λ places. (p : PlaceOf)
            → latest_value (cell_of self.now.mods p) ≢ held_at_mark self.now.mods p
            → times p places.items ≡ 1) }
        ensures only { IfOk result (λ places. (p : PlaceOf)
            → latest_value (cell_of self.now.mods p) ≡ held_at_mark self.now.mods p
            → times p places.items ≡ 0) }
    {
        let written = WrittenIn { trace: &self.trace };
        self.mods.changed(&written)
    }

    /// What a place holds at the end.
    pub fn last_value(&self, place: Place) -> Word
        requires kept { Kept self.now }
        ensures { result ≡ latest_value (cell_of self.now.mods place) }
    {
        let written = WrittenIn { trace: &self.trace };
        self.mods.last_value(&written, place)
    }
}
