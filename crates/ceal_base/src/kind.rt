// The types of variables, of fields and of blocks.

ghost use Rattle.std.specs.Prelude.{◌≡◌, ◌∷◌, [], ◌++◌, IfOk, OnOk, OnErr};
ghost use Rattle.ceal_base.specs.Shapes.{default_of_kind, default_of_field};

use crate::no_memory::NoMemory;
use crate::word::Word;
use std::alloc::Global;
use std::marker::Model;

/// The type of a variable or of a plain field. A number is that of a struct, in text order from 0.
#[derive(Clone, Copy, PartialEq, Eq, Debug)]
pub enum Kind {
    /// `int`
    Int,
    /// `struct S *`
    Ptr(u32),
    /// `mod int *`
    ModInt,
    /// `mod struct S *`
    ModPtr(u32),
}

impl Kind {
    /// What a variable or a plain field of this type starts as: 0 or null.
    pub fn default_word(self) -> Word
        ensures value { result ≡ default_of_kind self }
    {
        match self {
            Kind::Int => Word::Num(0),
            Kind::Ptr(_) => Word::Null,
            Kind::ModInt => Word::Null,
            Kind::ModPtr(_) => Word::Null,
        }
    }
}

/// The type of a field: a plain one, or an embedded modifiable that holds an `int` or a `struct S *`.
#[derive(Clone, Copy, PartialEq, Eq, Debug)]
pub enum FieldKind {
    Plain(Kind),
    CellInt,
    CellPtr(u32),
}

impl FieldKind {
    /// What a field of this type starts as; of an embedded modifiable it is what the modifiable holds.
    pub fn default_word(self) -> Word
        ensures value { result ≡ default_of_field self }
    {
        match self {
            FieldKind::Plain(kind) => kind.default_word(),
            FieldKind::CellInt => Word::Num(0),
            FieldKind::CellPtr(_) => Word::Null,
        }
    }
}

/// The shape of a block: that of a struct, or one modifiable.
#[derive(Clone, Copy, PartialEq, Eq, Debug)]
pub enum Shape {
    Struct(u32),
    ModInt,
    ModPtr(u32),
}

/// Kinds, which contracts see as their list.
#[derive(Debug, Drop)]
pub struct Kinds {
    items: Vec<Kind>,
}

impl Model for Kinds {
    ghost use Rattle.std.specs.Prelude.{List};
    ghost use Rattle.ceal_base.specs.declared.kind.Kind.{Kind};

    ghost Value = { List Kind };

    ghost view = { λ k. k.items.items };
}

impl Kinds {
    /// The list of these kinds.
    pub fn new(items: Vec<Kind>) -> Kinds
        ensures value { result ≡ items.items }
    {
        Kinds { items }
    }

    /// Puts a kind at the end; without memory the list stays as it is.
    pub fn push(&mut self, item: Kind) -> Result<(), NoMemory>
        ensures ok { OnOk result (self.new ≡ self.old ++ item ∷ []) }
        ensures err { OnErr result (self.new ≡ self.old) }
    {
        self.items.push(item)?;
        Ok(())
    }

    /// The kinds, in their order.
    pub fn items(&self) -> &[Kind]
        ensures value { result.now ≡ self.now }
    {
        self.items.as_slice()
    }

    /// An equal list.
    pub fn copy(&self) -> Result<Kinds, NoMemory>
        ensures equal { IfOk result (λ k. k ≡ self.now) }
    {
        let items = self.items.clone()?;
        Ok(Kinds { items })
    }
}
