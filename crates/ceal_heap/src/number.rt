// What is kept of each number.

ghost use Rattle.std.specs.Prelude.{◌≡◌, option_copied};
ghost use Rattle.ceal_heap.specs.Table.{held_in, revoked_state};
ghost use Rattle.ceal_heap.specs.declared.number.State.TheVariants.{Live, Released};

use crate::parts::Parts;
use ceal_base::kind::Shape;
use ceal_words::slot::Slot;
use std::mem;

/// A block that can be read: the slot of the words that are kept, how many those are, and how many zeros and nulls come
/// after them.
#[derive(Drop)]
pub struct Held {
    pub slot: Slot,
    pub parts: Parts,
}

impl Held {
    /// The slot of the region.
    pub fn into_slot(self) -> Slot
        ensures { result ≡ self.slot }
    {
        self.slot
    }
}

/// The state of a number.
#[derive(Drop)]
pub enum State {
    Live(Held),
    Revoked(Held),
    Released,
}

/// A number that was given out, with the shape of its block, or of its last one where it is free.
#[derive(Drop)]
pub struct Number {
    pub shape: Shape,
    pub state: State,
}

impl Number {
    /// The live block is revoked.
    pub fn revoke(&mut self)
        ensures shape { self.new.shape ≡ self.old.shape }
        ensures state { self.new.state ≡ revoked_state self.old.state }
    {
        let state = mem::replace(&mut self.state, State::Released);
        self.state = state.revoked();
    }

    /// The block is taken away, and the number is free.
    pub fn release(&mut self) -> Option<Held>
        ensures held { result ≡ held_in self.old.state }
        ensures shape { self.new.shape ≡ self.old.shape }
        ensures state { self.new.state ≡ Released }
    {
        let state = mem::replace(&mut self.state, State::Released);
        state.into_held()
    }

    /// What is kept of the block.
    pub fn held(&self) -> Option<&Held>
        ensures { option_copied result ≡ held_in self.now.state }
    {
        self.state.held()
    }

    /// The number is given to a block of this shape.
    pub fn give(&mut self, shape: Shape, held: Held)
        ensures shape { self.new.shape ≡ shape }
        ensures state { self.new.state ≡ Live held }
    {
        self.shape = shape;
        self.state = State::Live(held);
    }
}

impl State {
    fn revoked(self) -> State
        ensures { result ≡ revoked_state self }
    {
        match self {
            State::Live(held) => State::Revoked(held),
            State::Revoked(held) => State::Revoked(held),
            State::Released => State::Released,
        }
    }

    fn into_held(self) -> Option<Held>
        ensures { result ≡ held_in self }
    {
        match self {
            State::Live(held) => Some(held),
            State::Revoked(held) => Some(held),
            State::Released => None,
        }
    }

    fn held(&self) -> Option<&Held>
        ensures { option_copied result ≡ held_in self.now }
    {
        match self {
            State::Live(held) => Some(held),
            State::Revoked(held) => Some(held),
            State::Released => None,
        }
    }
}
