// The modifiables of inputs are marked, and those that have changed since are told.

ghost use Rattle.std.specs.List.{filter};
ghost use Rattle.std.specs.Prelude.{◌≡◌, None, IfOk, OnOk, OnErr, IsPermutation, IsSorted, MatchOption};
ghost use Rattle.ceal_base.specs.contracts.word.PlaceOrd.TheImpl.{ghosts as order};
ghost use Rattle.ceal_session.specs.Marks.{AreChanged, HoldsNumbers, IsMarked, is_of_input as of_input, places_of};
ghost use Rattle.ceal_session.specs.Questions.{IsReady};
ghost use Rattle.ceal_session.specs.SessionState.{situation};

use super::State;
use crate::handle::Handle;
use ceal_base::no_memory::NoMemory;
use ceal_base::word::{BlockId, Place};
use std::alloc::Global;

/// Whether a place is that of a field of an input.
fn is_of_input(place: Place) -> bool
    ensures { result ≡ of_input place }
{
    match place.block {
        BlockId::Input(_) => true,
        BlockId::Core(_) => false,
    }
}

/// The places of inputs among these, by input and field.
fn in_order(alloc: Global, places: &[Place]) -> Result<Vec<Place>, NoMemory>
    ensures same { IfOk result (λ found. IsPermutation (filter of_input places.now) found.items) }
    ensures sorted { IfOk result (λ found. IsSorted order.cmp found.items) }
{
    let mut found = Vec::new(alloc);
    for place in places {
        if is_of_input(*place) {
            found.push(*place)?;
        }
    }
    found.sort()?;
    Ok(found)
}

/// The handles of places.
fn handles(alloc: Global, places: &[Place]) -> Result<Vec<Handle>, NoMemory>
    ensures { IfOk result (λ found. places_of found.items ≡ places.now) }
{
    let mut found = Vec::new(alloc);
    for place in places {
        found.push(Handle { place: *place })?;
    }
    Ok(found)
}

impl State {
    /// Marks the modifiables with what they hold at the end of the run.
    pub fn mark(&mut self) -> Result<(), NoMemory>
        requires { IsReady self.old.state }
        ensures marked { OnOk result (IsMarked self.old self.new) }
        ensures numbers { HoldsNumbers self.new }
        ensures kept { situation self.new ≡ situation self.old }
        ensures same { self.new ≡ record self.old
            { engine = record self.old.engine { marked = self.new.engine.marked } } }
        ensures err { OnErr result (self.new ≡ self.old) }
    {
        // for the proof: it is an engine, by the clause `whole`
        let _phase = self.engine.phase();
        self.engine.mark()
    }

    /// The modifiables of inputs that hold something else at the end of the run than they are marked with; none where
    /// nothing is marked.
    pub fn changed(&self, alloc: Global) -> Result<Option<Vec<Handle>>, NoMemory>
        requires { IsReady self.now.state }
        ensures told { IfOk result
            (λ found. MatchOption found (self.now.engine.marked ≡ None)
            (λ handles. AreChanged self.now (places_of handles.items))) }
        ensures numbers { OnOk result (HoldsNumbers self.now) }
    {
        // for the proof: it is an engine, by the clause `whole`
        let _phase = self.engine.phase();
        if !self.engine.is_marked() {
            return Ok(None);
        }
        let told = self.engine.changed()?;
        let places = in_order(alloc, told.as_slice())?;
        let handles = handles(alloc, places.as_slice())?;
        Ok(Some(handles))
    }
}
