// The table of numbers.

ghost use Rattle.std.specs.Prelude.{◌≡◌, ◌+◌, ◌-◌, ◌<◌, ◌≤◌, ◌↔◌, ◌∷◌, [], ◌++◌, Some, length, option_copied};
ghost use Rattle.std.specs.Prelude.{option_map, slice_get, IsSome, IsTrue, IfSome, IfNone, OnOk, vec_len, vec_capacity};
ghost use Rattle.ceal_heap.specs.Table.{held_at, IsReady, HasRoom, IsLiveAt, Revokes, GivesOut, Releases, NoneRevoked};
ghost use Rattle.ceal_heap.specs.Table.{tally, is_live};

use crate::number::{Held, Number, State};
use crate::stack::Stack;
use ceal_base::kind::Shape;
use ceal_base::no_memory::NoMemory;
use std::alloc::Global;
use std::marker::Model;

/// The state of each number that was given out, which numbers were revoked, which are free, and how many are live. Room
/// for a number in every state is made when it is given out for the first time.
#[derive(Drop)]
pub struct Table {
    numbers: Vec<Number>,
    limbo: Stack,
    free: Stack,
    live: u32,
}

/// A number that was given out, and the shape of the block that had it before, if there was one.
#[derive(Clone, Copy)]
pub struct GivenOut {
    pub number: u32,
    pub before: Option<Shape>,
}

impl Model for Table {
    ghost use Rattle.std.specs.Vec.{vec_capacity};
    ghost use Rattle.ceal_heap.specs.Table.{Ledger, IsSound};

    ghost Value = { Ledger };

    ghost view = { λ t. record {
      numbers = t.numbers.items;
      room = vec_capacity t.numbers;
      limbo = t.limbo;
      free = t.free;
      live = t.live;
    } };

    ghost invariant = { λ t. IsSound (record {
      numbers = t.numbers.items;
      room = vec_capacity t.numbers;
      limbo = t.limbo;
      free = t.free;
      live = t.live;
    }) };
}

impl Table {
    /// No number was given out.
    pub fn new(alloc: Global) -> Table
        ensures { result.numbers ≡ [] }
    {
        Table {
            numbers: Vec::new(alloc),
            limbo: Stack::new(alloc),
            free: Stack::new(alloc),
            live: 0,
        }
    }

    /// How many numbers are live.
    pub fn live(&self) -> u32
        ensures { result ≡ tally is_live self.now.numbers }
    {
        self.live
    }

    /// How many numbers were given out.
    pub fn made(&self) -> u32
        ensures { result ≡ length self.now.numbers }
    {
        self.numbers.len() as u32
    }

    /// What is kept of a block.
    pub fn held(&self, number: u32) -> &Held
        requires { IsSome (held_at self.now.numbers number) }
        ensures { held_at self.now.numbers number ≡ Some result.now }
    {
        match self.numbers[number as usize].held() {
            Some(held) => held,
            None => unreachable!(),
        }
    }

    /// What is kept of a block, if it can be read.
    pub fn find(&self, number: u32) -> Option<&Held>
        ensures { option_copied result ≡ held_at self.now.numbers number }
    {
        self.numbers.get(number as usize)?.held()
    }

    /// The shape of the blocks of a number.
    pub fn shape(&self, number: u32) -> Shape
        requires { IsSome (held_at self.now.numbers number) }
        ensures { IfSome (slice_get self.now.numbers number) (λ n. result ≡ n.shape) }
    {
        self.numbers[number as usize].shape
    }

    fn has_free(&self) -> bool
        ensures { IsTrue result ↔ (0 < length self.now.free.items) }
    {
        !self.free.is_empty()
    }

    /// Makes sure that a number can be given out, without changing any.
    pub fn prepare(&mut self) -> Result<(), NoMemory>
        ensures numbers { self.new.numbers ≡ self.old.numbers }
        ensures ready { OnOk result (IsReady self.new) }
    {
        if self.has_free() {
            return Ok(());
        }
        self.make_room()
    }

    // Makes room for one more number, where none is free. The last of all numbers is not given out.
    fn make_room(&mut self) -> Result<(), NoMemory>
        requires none { self.old.free.items ≡ [] }
        ensures numbers { self.new.numbers ≡ self.old.numbers }
        ensures room { OnOk result (HasRoom self.new) }
    {
        let count = self.numbers.len();
        if count >= u32::MAX as usize {
            return Err(NoMemory);
        }
        self.numbers.reserve(1)?;
        self.limbo.reserve(count + 1)?;
        self.free.reserve(count + 1)
    }

    /// Gives a number to a block: a free one, or else one more.
    pub fn give_out(&mut self, shape: Shape, held: Held) -> GivenOut
        requires { IsReady self.old }
        ensures { GivesOut self.old.numbers self.new.numbers shape held
            result.number result.before }
    {
        if self.has_free() {
            self.reuse(shape, held)
        } else {
            self.add(shape, held)
        }
    }

    fn reuse(&mut self, shape: Shape, held: Held) -> GivenOut
        requires { 0 < length self.old.free.items }
        ensures { GivesOut self.old.numbers self.new.numbers shape held
            result.number result.before }
    {
        match self.free.pop() {
            None => unreachable!(),
            Some(number) => {
                let entry = &mut self.numbers[number as usize];
                let before = entry.shape;
                entry.give(shape, held);
                self.live += 1;
                GivenOut {
                    number,
                    before: Some(before),
                }
            }
        }
    }

    fn add(&mut self, shape: Shape, held: Held) -> GivenOut
        requires { HasRoom self.old }
        ensures { GivesOut self.old.numbers self.new.numbers shape held
            result.number result.before }
    {
        let number = self.numbers.len() as u32;
        let state = State::Live(held);
        append(&mut self.numbers, Number { shape, state });
        self.live += 1;
        GivenOut {
            number,
            before: None,
        }
    }

    /// Revokes a live block.
    pub fn revoke(&mut self, number: u32)
        requires { IsLiveAt self.old.numbers number }
        ensures { Revokes self.old.numbers self.new.numbers number }
    {
        self.limbo.push(number);
        self.numbers[number as usize].revoke();
        self.live -= 1;
    }

    /// Takes a revoked block away, if there is one.
    pub fn release_one(&mut self) -> Option<Held>
        ensures some { IfSome result (λ held. Releases self.old.numbers self.new.numbers held) }
        ensures none { IfNone result (NoneRevoked self.old.numbers) }
        ensures unchanged { IfNone result (self.new.numbers ≡ self.old.numbers) }
    {
        let number = self.limbo.pop()?;
        let held = self.numbers[number as usize].release();
        self.free.push(number);
        held
    }
}

// Puts a number at the end, where there is room.
fn append(numbers: &mut Vec<Number>, number: Number)
    requires { vec_len numbers.old < vec_capacity numbers.old }
    ensures { numbers.new.items ≡ numbers.old.items ++ number ∷ [] }
{
    let _ = numbers.push(number);
}
