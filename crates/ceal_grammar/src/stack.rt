// A list whose first item is the last pushed.

ghost use Rattle.std.specs.Prelude.{◌≡◌, ◌↔◌, IsTrue, [], ◌∷◌, ◌++◌, reverse, IfOk, OnOk, OnErr, MatchOption};

use ceal_base::no_memory::NoMemory;
use std::alloc::Global;
use std::marker::Model;

/// A `Vec` that contracts see as the list of its items, the last pushed first.
#[derive(Drop)]
pub struct Stack<T> {
    items: Vec<T>,
}

impl<T> Model for Stack<T> {
    ghost use Rattle.std.specs.Prelude.{List, reverse};
    ghost use Rattle.std.specs.Coded.{coded_list};

    ghost Value = { List T };

    ghost coded = { coded_list T.code };

    ghost view = { λ s. reverse s.items.items };
}

impl<T> Stack<T> {
    /// An empty stack.
    pub fn new(alloc: Global) -> Stack<T>
        ensures value { result ≡ [] }
    {
        Stack {
            items: Vec::new(alloc),
        }
    }

    /// Puts an item on top; without memory the stack stays as it is.
    #[tactic(auto, using(crate::proofs::Stacks::reverse_push))]
    pub fn push(&mut self, item: T) -> Result<(), NoMemory>
    where
        T: Drop,
        ensures ok { OnOk result (self.new ≡ item ∷ self.old) }
        ensures err { OnErr result (self.new ≡ self.old) }
    {
        self.items.push(item)?;
        Ok(())
    }

    /// Takes the item on top, if there is one.
    #[tactic(auto, using(crate::proofs::Stacks::reverse_push))]
    pub fn pop(&mut self) -> Option<T>
        ensures value { MatchOption result ((self.old ≡ []) × (self.new ≡ []))
            (λ x. self.old ≡ x ∷ self.new) }
    {
        self.items.pop()
    }
}

impl<T> Stack<T> {
    /// The items, the first pushed first.
    pub fn items(&self) -> &[T]
        ensures value { reverse result.now ≡ self.now }
    {
        self.items.as_slice()
    }
}

impl<T> Stack<T> {
    /// Whether the stack has no items.
    #[tactic(auto, using(crate::proofs::Stacks::empties))]
    pub fn is_empty(&self) -> bool
        ensures value { IsTrue result ↔ (self.now ≡ []) }
    {
        self.items.is_empty()
    }
}
