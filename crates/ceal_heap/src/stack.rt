// Numbers in a stack, with room for more of them.

ghost use Rattle.std.specs.Prelude.{◌≡◌, ◌∷◌, [], ◌++◌, ◌<◌, ◌≤◌, ◌==◌, length, option_to_list, IfNone, OnOk};

use ceal_base::no_memory::NoMemory;
use std::alloc::Global;
use std::marker::Model;

/// A stack. Contracts see its numbers, the last one on top, and how many it holds without taking memory.
#[derive(Drop)]
pub struct Stack {
    items: Vec<u32>,
}

impl Model for Stack {
    ghost use Rattle.std.specs.Vec.{vec_capacity};
    ghost use Rattle.ceal_heap.specs.Stack.{Pile};

    ghost Value = { Pile };

    ghost view = { λ s. record { items = s.items.items; room = vec_capacity s.items } };
}

impl Stack {
    /// A stack of none.
    pub fn new(alloc: Global) -> Stack
        ensures { result.items ≡ [] }
    {
        Stack {
            items: Vec::new(alloc),
        }
    }

    /// Makes room for `count` numbers in all.
    pub fn reserve(&mut self, count: usize) -> Result<(), NoMemory>
        ensures items { self.new.items ≡ self.old.items }
        ensures raises { self.old.room ≤ self.new.room }
        ensures room { OnOk result (count ≤ self.new.room) }
    {
        self.items.reserve(count.saturating_sub(self.items.len()))?;
        Ok(())
    }

    /// Puts a number on top.
    pub fn push(&mut self, number: u32)
        requires room { length self.old.items < self.old.room }
        ensures items { self.new.items ≡ self.old.items ++ number ∷ [] }
        ensures raises { self.old.room ≤ self.new.room }
    {
        let _ = self.items.push(number);
    }

    /// Takes the number on top.
    pub fn pop(&mut self) -> Option<u32>
        ensures items { self.old.items ≡ self.new.items ++ option_to_list result }
        ensures none { IfNone result (self.old.items ≡ []) }
        ensures room { self.new.room ≡ self.old.room }
    {
        self.items.pop()
    }

    /// Whether the stack has no items.
    pub fn is_empty(&self) -> bool
        ensures { result ≡ (length self.now.items == 0) }
    {
        self.items.is_empty()
    }
}
