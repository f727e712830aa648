// The items of a trace, flat: the items up to the `End` that closes a `Read` are inside it.

ghost use Rattle.std.specs.Prelude.{◌≡◌, ◌∷◌, [], ◌++◌, ◌↔◌, IsTrue, IfOk, OnOk, OnErr};

use crate::no_memory::NoMemory;
use crate::word::{BlockId, Place, Word};
use crate::words::Words;
use std::alloc::Global;
use std::marker::Model;

/// The number of a unit of trace code.
#[derive(Clone, Copy, PartialEq, Eq, Hash, Debug)]
pub struct UnitId(pub u32);

/// What an allocation is found again by: its initialiser and the values of its arguments, or, of a modifiable
/// made by itself, the type that it holds.
#[derive(PartialEq, Eq, Hash, Drop)]
pub enum Key {
    Init { function: u32, args: Words },
    ModInt,
    ModPtr(u32),
}

impl Key {
    /// Whether both are the same key.
    pub fn same_as(&self, other: &Key) -> bool
        ensures same { IsTrue result ↔ (self.now ≡ other.now) }
    {
        self == other
    }

    /// A key with the same arguments.
    pub fn copy(&self) -> Result<Key, NoMemory>
        ensures equal { IfOk result (λ k. k ≡ self.now) }
    {
        match self {
            Key::Init { function, args } => {
                let args = args.copy()?;
                Ok(Key::Init {
                    function: *function,
                    args,
                })
            }
            Key::ModInt => Ok(Key::ModInt),
            Key::ModPtr(shape) => Ok(Key::ModPtr(*shape)),
        }
    }
}

/// An item of a trace, in the order of time (Acar, *Self-Adjusting Computation*, 2005; the flat form is our own).
#[derive(Drop)]
pub enum Item {
    /// one step of the run
    Step,
    Alloc {
        block: BlockId,
        key: Key,
    },
    Write {
        place: Place,
        value: Word,
    },
    /// a read with its closure: the unit that continues, the variable that takes the value, and the arguments;
    /// the items up to the `End` that closes it are inside it
    Read {
        place: Place,
        value: Word,
        unit: UnitId,
        var: u32,
        args: Words,
    },
    End,
}

impl Item {
    /// An equal item.
    pub fn copy(&self) -> Result<Item, NoMemory>
        ensures equal { IfOk result (λ i. i ≡ self.now) }
    {
        match self {
            Item::Step => Ok(Item::Step),
            Item::Alloc { block, key } => {
                let key = key.copy()?;
                Ok(Item::Alloc { block: *block, key })
            }
            Item::Write { place, value } => Ok(Item::Write {
                place: *place,
                value: *value,
            }),
            Item::Read {
                place,
                value,
                unit,
                var,
                args,
            } => {
                let args = args.copy()?;
                Ok(Item::Read {
                    place: *place,
                    value: *value,
                    unit: *unit,
                    var: *var,
                    args,
                })
            }
            Item::End => Ok(Item::End),
        }
    }
}

/// Items, which contracts see as their list.
#[derive(Drop)]
pub struct Forest {
    items: Vec<Item>,
}

impl Model for Forest {
    ghost use Rattle.std.specs.Prelude.{List};
    ghost use Rattle.ceal_base.specs.declared.forest.Item.{Item};

    ghost Value = { List Item };

    ghost view = { λ f. f.items.items };
}

impl Forest {
    /// The forest of these items, in their order.
    pub fn new(items: Vec<Item>) -> Forest
        ensures value { result ≡ items.items }
    {
        Forest { items }
    }

    /// Puts an item at the end; without memory the forest stays as it is.
    pub fn push(&mut self, item: Item) -> Result<(), NoMemory>
        ensures ok { OnOk result (self.new ≡ self.old ++ item ∷ []) }
        ensures err { OnErr result (self.new ≡ self.old) }
    {
        self.items.push(item)?;
        Ok(())
    }

    /// The items, in the order of the run.
    pub fn items(&self) -> &[Item]
        ensures value { result.now ≡ self.now }
    {
        self.items.as_slice()
    }

    /// An equal forest.
    pub fn copy(&self) -> Result<Forest, NoMemory>
        ensures equal { IfOk result (λ f. f ≡ self.now) }
    {
        let alloc = *self.items.allocator();
        let items = copied_items(alloc, self.items())?;
        Ok(Forest { items })
    }
}

fn copied_items(alloc: Global, items: &[Item]) -> Result<Vec<Item>, NoMemory>
    ensures equal { IfOk result (λ v. v.items ≡ items.now) }
{
    let mut copied = Vec::new(alloc);
    for item in items {
        let item = item.copy()?;
        copied.push(item)?;
    }
    Ok(copied)
}
