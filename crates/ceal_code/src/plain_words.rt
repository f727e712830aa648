// Where the plain words of blocks are read.

ghost use Rattle.std.specs.Prelude.{◌≡◌, Option};
ghost use Rattle.std.specs.Option.{option_map};
ghost use Rattle.ceal_base.specs.Block.{Block, alone, block_at};
ghost use Rattle.ceal_code.specs.PlainWords.{block_shape, block_word};
ghost use Rattle.ceal_code.specs.Value.{Plain};

use ceal_base::kind::Shape;
use ceal_base::memory::{BlockWords, Inputs, Memory};
use ceal_base::word::{BlockId, Word};

/// What has the plain words of blocks: a memory, a table of blocks, or a heap. No call takes memory. The words of a
/// block are read one by one, so that they may lie anywhere; those of modifiables are not looked at.
pub trait PlainWords {
    /// the shape and the words of each block that is there
    ghost plain: { Self → Plain };

    /// The shape of a block.
    fn shape(&self, block: BlockId) -> Option<Shape>
        ensures { result ≡ block_shape (plain self.now block) };

    /// The word of a block's field.
    fn word(&self, block: BlockId, field: u32) -> Option<Word>
        ensures { result ≡ block_word (plain self.now block) field };
}

/// The block of this number in a memory.
fn memory_block(memory: &Memory, block: BlockId) -> Option<&BlockWords>
    ensures { option_map (λ b. b.now) result ≡ block_at memory.now block }
{
    match block {
        BlockId::Input(n) => memory.inputs.items().get(n as usize),
        BlockId::Core(n) => memory.items().get(n as usize),
    }
}

impl PlainWords for Memory {
    ghost plain = { block_at };

    fn shape(&self, block: BlockId) -> Option<Shape> {
        let found = memory_block(self, block)?;
        Some(found.shape)
    }

    fn word(&self, block: BlockId, field: u32) -> Option<Word> {
        let found = memory_block(self, block)?;
        found.items().get(field as usize).copied()
    }
}

/// The input block of this number.
fn input_block(inputs: &Inputs, block: BlockId) -> Option<&BlockWords>
    ensures { option_map (λ b. b.now) result ≡ block_at (alone inputs.now) block }
{
    match block {
        BlockId::Input(n) => inputs.items().get(n as usize),
        BlockId::Core(_) => None,
    }
}

impl PlainWords for Inputs {
    ghost plain = { λ inputs. block_at (alone inputs) };

    fn shape(&self, block: BlockId) -> Option<Shape> {
        let found = input_block(self, block)?;
        Some(found.shape)
    }

    fn word(&self, block: BlockId, field: u32) -> Option<Word> {
        let found = input_block(self, block)?;
        found.items().get(field as usize).copied()
    }
}
