// The values of the language, which are words.

ghost use Rattle.std.specs.Prelude.{◌≡◌, ◌+◌, ◌*◌, ◌<◌, ◌^◌, ◌↔◌, IsTrue};
ghost use Rattle.std.specs.Hash as fed;
ghost use Rattle.std.proofs.Common.{rules};
ghost use Rattle.std.specs.Cmp.Rules.{hashing};
ghost use Rattle.ceal_base.specs.Hashing.{number_of, place_number, word_digest};

use std::hash::{Hash, Hasher};

/// A block of memory: the n-th input block, or the n-th core block in the order of allocation.
#[derive(Clone, Copy, PartialEq, Eq, PartialOrd, Ord, Debug)]
pub enum BlockId {
    /// made by the script
    Input(u32),
    /// made by the core
    Core(u32),
}

/// A field of a block. A pointer to a modifiable is a place.
#[derive(Clone, Copy, PartialEq, Eq, PartialOrd, Ord, Debug)]
pub struct Place {
    pub block: BlockId,
    pub field: u32,
}

/// A value: a number, null, a pointer to a block, or a pointer to a modifiable.
#[derive(Clone, Copy, PartialEq, Eq, Debug, Default)]
pub enum Word {
    Num(i64),
    #[default]
    Null,
    Block(BlockId),
    At(Place),
}

impl Word {
    /// Whether both are the same word; pointers are the same where they name one block, or one place.
    pub fn same_as(self, other: Word) -> bool
        ensures same { IsTrue result ↔ (self ≡ other) }
    {
        self == other
    }
}

impl BlockId {
    /// The number for hashes. Those of core blocks begin in the middle, so that they are others than those of inputs.
    fn number(self) -> u32
        ensures number { result ≡ number_of self }
    {
        match self {
            BlockId::Input(number) => number,
            BlockId::Core(number) => number.wrapping_add(2_147_483_648),
        }
    }
}

impl Place {
    /// The block's number for hashes and the field's, in one number.
    pub fn number(self) -> u64
        ensures number { result ≡ place_number self }
    {
        self.block.number() as u64 * 4_294_967_296 + self.field as u64
    }
}

impl Word {
    /// The word as one number. Two words may have the same.
    pub(crate) fn digest(self) -> u64
        ensures digest { result ≡ word_digest self }
    {
        match self {
            Word::Num(number) => number.cast_unsigned(),
            Word::Null => 18_446_744_073_709_551_615,
            Word::Block(block) => block.number() as u64 + 4_611_686_018_427_387_904,
            Word::At(place) => place.number(),
        }
    }
}

// Each of the three is hashed by one write, since the keys of memo tables are made of many.

impl Hash for BlockId {
    ghost hash_input = { λ b. fed.u32 (number_of b) };

    ghost respects_eq = { Prim.search (hashing, rules) };

    fn hash<H: Hasher>(&self, state: &mut H) {
        state.write_u32(self.number());
    }
}

impl Hash for Place {
    ghost hash_input = { λ p. fed.u64 (place_number p) };

    ghost respects_eq = { Prim.search (hashing, rules) };

    fn hash<H: Hasher>(&self, state: &mut H) {
        state.write_u64(self.number());
    }
}

impl Hash for Word {
    ghost hash_input = { λ w. fed.u64 (word_digest w) };

    ghost respects_eq = { Prim.search (hashing, rules) };

    fn hash<H: Hasher>(&self, state: &mut H) {
        state.write_u64(self.digest());
    }
}
