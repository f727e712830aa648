// Blocks and the memory that they make.

ghost use Rattle.std.specs.Prelude.{◌≡◌, ◌∷◌, [], ◌++◌, slice_set, IfOk, OnOk, OnErr};
ghost use Rattle.ceal_base.specs.Block.{with_word, written_at};

use crate::kind::Shape;
use crate::no_memory::NoMemory;
use crate::word::{BlockId, Place, Word};
use std::alloc::Global;
use std::marker::Model;

/// A block: one word per field, contents of modifiables included.
#[derive(Drop)]
pub struct BlockWords {
    pub shape: Shape,
    words: Vec<Word>,
}

impl Model for BlockWords {
    ghost use Rattle.ceal_base.specs.Block.{Block};

    ghost Value = { Block };

    ghost view = { λ b. record { shape = b.shape; words = b.words.items } };
}

impl BlockWords {
    /// A block of a shape, with a word for each field.
    pub fn new(shape: Shape, words: Vec<Word>) -> BlockWords
        ensures value { result ≡ record { shape = shape; words = words.items } }
    {
        BlockWords { shape, words }
    }

    /// Puts a word at the end; without memory the block stays as it is.
    pub fn push(&mut self, item: Word) -> Result<(), NoMemory>
        ensures ok { OnOk result
            (self.new ≡ record self.old { words = self.old.words ++ item ∷ [] }) }
        ensures err { OnErr result (self.new ≡ self.old) }
    {
        self.words.push(item)?;
        Ok(())
    }

    /// The words, a field each.
    pub fn items(&self) -> &[Word]
        ensures value { result.now ≡ self.now.words }
    {
        self.words.as_slice()
    }

    /// Sets the word of a field, if there is that field.
    pub fn set(&mut self, field: u32, word: Word)
        ensures value { self.new ≡ record self.old { words = slice_set self.old.words field word } }
    {
        set_item(&mut self.words, field as usize, word);
    }

    /// An equal block.
    pub fn copy(&self) -> Result<BlockWords, NoMemory>
        ensures equal { IfOk result (λ b. b ≡ self.now) }
    {
        let words = self.words.clone()?;
        Ok(BlockWords {
            shape: self.shape,
            words,
        })
    }
}

/// The input blocks, which contracts see as their list.
#[derive(Drop)]
pub struct Inputs {
    blocks: Vec<BlockWords>,
}

impl Model for Inputs {
    ghost use Rattle.std.specs.Prelude.{List};
    ghost use Rattle.ceal_base.specs.Block.{Block};

    ghost Value = { List Block };

    ghost view = { λ i. i.blocks.items };
}

impl Inputs {
    /// These input blocks, in the order of their numbers.
    pub fn new(blocks: Vec<BlockWords>) -> Inputs
        ensures value { result ≡ blocks.items }
    {
        Inputs { blocks }
    }

    /// Puts a block at the end; without memory nothing changes.
    pub fn push(&mut self, item: BlockWords) -> Result<(), NoMemory>
        ensures ok { OnOk result (self.new ≡ self.old ++ item ∷ []) }
        ensures err { OnErr result (self.new ≡ self.old) }
    {
        self.blocks.push(item)?;
        Ok(())
    }

    /// The blocks, in the order of their numbers.
    pub fn items(&self) -> &[BlockWords]
        ensures value { result.now ≡ self.now }
    {
        self.blocks.as_slice()
    }

    /// Sets the word of a block's field, if there is that field.
    pub fn set(&mut self, at: u32, field: u32, word: Word)
        ensures value { self.new ≡ with_word self.old at field word }
    {
        set_word(&mut self.blocks, at as usize, field, word);
    }

    /// Equal inputs.
    pub fn copy(&self) -> Result<Inputs, NoMemory>
        ensures equal { IfOk result (λ i. i ≡ self.now) }
    {
        let alloc = *self.blocks.allocator();
        let blocks = copied_blocks(alloc, self.items())?;
        Ok(Inputs { blocks })
    }
}

/// The input blocks, and the core blocks in the order of their allocation.
#[derive(Drop)]
pub struct Memory {
    pub inputs: Inputs,
    made: Vec<BlockWords>,
}

impl Model for Memory {
    ghost use Rattle.ceal_base.specs.Block.{Blocks};

    ghost Value = { Blocks };

    ghost view = { λ m. record { inputs = m.inputs; made = m.made.items } };
}

impl Memory {
    /// The memory of these inputs and of the core blocks made so far.
    pub fn new(inputs: Inputs, made: Vec<BlockWords>) -> Memory
        ensures value { result ≡ record { inputs = inputs; made = made.items } }
    {
        Memory { inputs, made }
    }

    /// Puts a block at the end; without memory nothing changes.
    pub fn push(&mut self, item: BlockWords) -> Result<(), NoMemory>
        ensures ok { OnOk result
            (self.new ≡ record self.old { made = self.old.made ++ item ∷ [] }) }
        ensures err { OnErr result (self.new ≡ self.old) }
    {
        self.made.push(item)?;
        Ok(())
    }

    /// The blocks, in the order of their numbers.
    pub fn items(&self) -> &[BlockWords]
        ensures value { result.now ≡ self.now.made }
    {
        self.made.as_slice()
    }

    /// Sets the word of a place, if it is in the memory.
    pub fn set(&mut self, place: Place, word: Word)
        ensures value { self.new ≡ written_at self.old place.block place.field word }
    {
        match place.block {
            BlockId::Input(n) => self.inputs.set(n, place.field, word),
            BlockId::Core(n) => set_word(&mut self.made, n as usize, place.field, word),
        }
    }

    /// An equal memory.
    pub fn copy(&self) -> Result<Memory, NoMemory>
        ensures equal { IfOk result (λ m. m ≡ self.now) }
    {
        let alloc = *self.made.allocator();
        let inputs = self.inputs.copy()?;
        let made = copied_blocks(alloc, self.items())?;
        Ok(Memory { inputs, made })
    }
}

fn set_item(words: &mut Vec<Word>, at: usize, word: Word)
    ensures value { words.new.items ≡ slice_set words.old.items at word }
{
    if at < words.len() {
        words[at] = word;
    }
}

fn set_word(blocks: &mut Vec<BlockWords>, at: usize, field: u32, word: Word)
    ensures value { blocks.new.items ≡ with_word blocks.old.items at field word }
{
    if at < blocks.len() {
        let block = &mut blocks[at];
        block.set(field, word);
    }
}

fn copied_blocks(alloc: Global, blocks: &[BlockWords]) -> Result<Vec<BlockWords>, NoMemory>
    ensures equal { IfOk result (λ v. v.items ≡ blocks.now) }
{
    let mut copied = Vec::new(alloc);
    for block in blocks {
        let block = block.copy()?;
        copied.push(block)?;
    }
    Ok(copied)
}
