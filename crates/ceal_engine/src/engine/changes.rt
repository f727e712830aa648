// Which places hold something else at the end than before.

ghost use Rattle.std.specs.Prelude.{◌≡◌, ◌≢◌, ◌≤◌, ℕ, pos, false, is_some, None, length};
ghost use Rattle.std.specs.Prelude.{IfOk, IfSome, IsSome, OnOk, OnErr};
ghost use Rattle.ceal_base.specs.declared.word.BlockId.TheVariants.{Core, Input};
ghost use Rattle.ceal_base.specs.declared.word.Place.{Place as PlaceOf};
ghost use Rattle.ceal_base.specs.declared.word.Word.TheVariants.{Num};
ghost use Rattle.ceal_engine.specs.Engine.{core};
ghost use Rattle.ceal_engine.specs.Marks.{IsModifiable, held_at_end, held_at_mark, is_modifiable};
ghost use Rattle.ceal_engine.specs.declared.phase.Phase.TheVariants.{Finished};
ghost use Rattle.ceal_heap.specs.Heap.{standing};
ghost use Rattle.ceal_mods.specs.Marks.{times};
ghost use Rattle.ceal_repair.specs.Words.{default_by_standing};

use super::Engine;
use ceal_base::no_memory::NoMemory;
use ceal_base::word::Place;

impl Engine {
    /// From now on `changed` compares what the places hold at the end of a run with what they hold now. The first time
    /// since the call was run from nothing it goes through all places that were touched, and later through those that
    /// were made, edited or written since. A place whose block is not there has what it holds before any write.
    pub fn mark(&mut self) -> Result<(), NoMemory>
        requires { self.old.phase ≡ Finished }
        ensures same { self.new ≡ record self.old { marked = self.new.marked } }
        ensures marked { OnOk result (IsSome self.new.marked) }
        ensures held { OnOk result ((p : PlaceOf) → IsModifiable self.old p
            → held_at_mark self.new p ≡ held_at_end self.old p) }
        ensures no_input { OnOk result ((i field : ℕ) → length self.old.inputs ≤ i
            → held_at_mark self.new (record { block = Input i; field = field }) ≡ Num (pos 0)) }
        ensures no_core { OnOk result (IfSome self.old.heap (λ heap. (n field : ℕ)
            → core self.old.memory n ≡ None
            → held_at_mark self.new (record { block = Core n; field = field })
            ≡ default_by_standing self.old.code.structs (standing heap (Core n)) field)) }
        ensures err { OnErr result (self.new ≡ self.old) }
    {
        self.run.mark()
    }

    /// Whether `changed` may be called in Finished: `mark` was called since the call was run from nothing.
    pub fn is_marked(&self) -> bool
        ensures { result ≡ is_some self.now.marked }
    {
        self.run.is_marked()
    }

    /// The modifiables of inputs and of core blocks that hold something else at the end of the run than when `mark` was
    /// called last, each once. A place is compared with what was there then, also where its block has the number of
    /// one that was revoked since; a place that no block had had then counts as 0. It goes through the places that were
    /// made, edited or written since.
    pub fn changed(&self) -> Result<Vec<Place>, NoMemory>
        requires finished { self.now.phase ≡ Finished }
        requires marked { IsSome self.now.marked }
        ensures told { IfOk result (λ places. (p : PlaceOf) → IsModifiable self.now p
            → held_at_end self.now p ≢ held_at_mark self.now p → times p places.items ≡ 1) }
        ensures only { IfOk result (λ places. (p : PlaceOf) → IsModifiable self.now p
            → held_at_end self.now p ≡ held_at_mark self.now p → times p places.items ≡ 0) }
        ensures modifiables { IfOk result (λ places. (p : PlaceOf)
            → is_modifiable self.now p ≡ false → times p places.items ≡ 0) }
    {
        let told = self.run.finished().tables.changed()?;
        let mut places = Vec::new(self.alloc);
        for place in told.as_slice() {
            if self.has_value(*place) {
                places.push(*place)?;
            }
        }
        Ok(places)
    }
}
