// A list that may occur inside the type of its own items.

ghost use Rattle.std.specs.Prelude.{◌≡◌, ◌∷◌, [], ◌++◌, OnOk, OnErr};

use crate::no_memory::NoMemory;
use std::alloc::Global;
use std::marker::Model;

/// A vector that contracts see as the list of its items, so that a tree made of it can equal another tree.
/// A type may hold `Items` of itself.
#[derive(Debug, Drop)]
pub struct Items<T> {
    items: Vec<T>,
}

impl<T> Model for Items<T> {
    ghost use Rattle.std.specs.Prelude.{List};
    ghost use Rattle.std.specs.Coded.{coded_list};

    ghost Value = { List T };

    ghost coded = { coded_list T.code };

    ghost view = { λ list. list.items.items };
}

impl<T> Items<T> {
    /// The list of these items.
    pub fn new(items: Vec<T>) -> Items<T>
        ensures value { result ≡ items.items }
    {
        Items { items }
    }

    /// A list without items.
    pub fn empty(alloc: Global) -> Items<T>
        ensures value { result ≡ [] }
    {
        Items {
            items: Vec::new(alloc),
        }
    }

    /// The items, as the vector that they are kept in.
    pub fn into_vec(self) -> Vec<T>
        ensures value { result.items ≡ self }
    {
        let Items { items } = self;
        items
    }

    /// The items, in their order.
    pub fn items(&self) -> &[T]
        ensures value { result.now ≡ self.now }
    {
        self.items.as_slice()
    }
}

impl<T: Drop> Items<T> {
    /// Puts an item at the end; without memory the list stays as it is.
    pub fn push(&mut self, item: T) -> Result<(), NoMemory>
        ensures ok { OnOk result (self.new ≡ self.old ++ item ∷ []) }
        ensures err { OnErr result (self.new ≡ self.old) }
    {
        self.items.push(item)?;
        Ok(())
    }
}
