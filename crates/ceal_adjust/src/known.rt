// Core blocks that a repair knows, with their plain words.

ghost use Rattle.std.specs.Prelude.{◌≡◌, ◌<◌, ◌≤◌, ◌∷◌, [], ◌++◌, ℕ, Some, None, IfOk, OnOk, OnErr};
ghost use Rattle.ceal_base.specs.Block.{Block};
ghost use Rattle.ceal_base.specs.declared.word.BlockId.TheVariants.{Core};
ghost use Rattle.ceal_code.specs.Tables.{code_in, plain_in, store_in};
ghost use Rattle.ceal_adjust.specs.KnownBlocks.{nothing, knowing, with_word, defaulting, IsKnown, blocks_below};

use ceal_base::kind::Shape;
use ceal_base::memory::BlockWords;
use ceal_base::no_memory::NoMemory;
use ceal_base::word::{BlockId, Word};
use ceal_code::plain_words::PlainWords;
use ceal_code::trace_memory::TraceMemory;
use std::alloc::Global;
use std::marker::Model;

/// A core block with its number and its plain words: those of modifiables are defaults.
#[derive(Drop)]
pub struct KnownBlock {
    pub number: u32,
    pub shape: Shape,
    words: Vec<Word>,
}

impl Model for KnownBlock {
    ghost use Rattle.ceal_adjust.specs.KnownBlocks.{Numbered};

    ghost Value = { Numbered };

    ghost view = { λ k.
        record { number = k.number; block = record { shape = k.shape; words = k.words.items } } };
}

impl KnownBlock {
    /// A block with these plain words.
    pub fn new(number: u32, shape: Shape, words: Vec<Word>) -> KnownBlock
        ensures value { result
            ≡ record { number = number; block = record { shape = shape; words = words.items } } }
    {
        KnownBlock {
            number,
            shape,
            words,
        }
    }

    /// One word more.
    pub fn push(&mut self, word: Word) -> Result<(), NoMemory>
        ensures ok { OnOk result (self.new ≡ with_word self.old word) }
        ensures err { OnErr result (self.new ≡ self.old) }
    {
        self.words.push(word)?;
        Ok(())
    }

    /// The words.
    pub fn items(&self) -> &[Word]
        ensures value { result.now ≡ self.now.block.words }
    {
        self.words.as_slice()
    }

    /// The block by itself.
    fn block(&self) -> Result<BlockWords, NoMemory>
        ensures { IfOk result (λ b. b ≡ self.now.block) }
    {
        let words = self.words.clone()?;
        Ok(BlockWords::new(self.shape, words))
    }
}

/// Core blocks that are known, which contracts see as their list.
#[derive(Drop)]
pub struct Known {
    blocks: Vec<KnownBlock>,
}

impl Model for Known {
    ghost use Rattle.std.specs.Prelude.{List};
    ghost use Rattle.ceal_adjust.specs.KnownBlocks.{Numbered};

    ghost Value = { List Numbered };

    ghost view = { λ k. k.blocks.items };
}

impl Known {
    /// The known blocks of this list.
    pub fn new(blocks: Vec<KnownBlock>) -> Known
        ensures value { result ≡ blocks.items }
    {
        Known { blocks }
    }

    /// One block more.
    pub fn push(&mut self, block: KnownBlock) -> Result<(), NoMemory>
        ensures ok { OnOk result (self.new ≡ self.old ++ block ∷ []) }
        ensures err { OnErr result (self.new ≡ self.old) }
    {
        self.blocks.push(block)?;
        Ok(())
    }

    /// The blocks, in their order.
    pub fn items(&self) -> &[KnownBlock]
        ensures value { result.now ≡ self.now }
    {
        self.blocks.as_slice()
    }
}

/// Makes a memory know these blocks, their modifiables at their defaults.
#[tactic(auto, using(crate::proofs::Knowing::knowing_steps))]
pub fn learn_known(memory: &mut TraceMemory<'_>, known: &[KnownBlock]) -> Result<(), NoMemory>
    ensures code { OnOk result (code_in memory.new ≡ code_in memory.old) }
    ensures plain { OnOk result (plain_in memory.new ≡ knowing (plain_in memory.old) known.now) }
    ensures store { OnOk result
        (store_in memory.new ≡ defaulting (code_in memory.old) (store_in memory.old) known.now) }
{
    let mut known = known;
    while let Some((first, more)) = known.split_first() {
        memory.know(BlockId::Core(first.number), first.block()?)?;
        known = more;
    }
    Ok(())
}

/// The plain words of a block. No block has 2^32 - 1 fields.
fn plain_words(alloc: Global, memory: &TraceMemory<'_>, id: BlockId) -> Result<Vec<Word>, NoMemory>
    ensures { IfOk result (λ words. (b : Block) →
        plain_in memory.now id ≡ Some b → words.items ≡ b.words) }
{
    let mut words = Vec::new(alloc);
    for field in 0..u32::MAX {
        match memory.word(id, field) {
            None => return Ok(words),
            Some(word) => words.push(word)?,
        }
    }
    Err(NoMemory)
}

/// The core block of a number, if it is known.
fn known_block(
    alloc: Global,
    memory: &TraceMemory<'_>,
    number: u32,
) -> Result<Option<KnownBlock>, NoMemory>
    ensures { IfOk result (λ found. IsKnown number (plain_in memory.now (Core number)) found) }
{
    let id = BlockId::Core(number);
    match memory.shape(id) {
        None => Ok(None),
        Some(shape) => {
            let words = plain_words(alloc, memory, id)?;
            Ok(Some(KnownBlock::new(number, shape, words)))
        }
    }
}

/// The known core blocks with numbers below `next`, each once and in their order.
pub fn known_below(alloc: Global, memory: &TraceMemory<'_>, next: u32) -> Result<Known, NoMemory>
    ensures value { IfOk result (λ known. known ≡ blocks_below next (plain_in memory.now)) }
    ensures below { IfOk result (λ known. (b : ℕ) → b < next →
        knowing nothing known (Core b) ≡ plain_in memory.now (Core b)) }
    ensures others { IfOk result (λ known. (b : ℕ) → next ≤ b →
        knowing nothing known (Core b) ≡ None) }
{
    let mut known = Known::new(Vec::new(alloc));
    for number in 0..next {
        if let Some(block) = known_block(alloc, memory, number)? {
            known.push(block)?;
        }
    }
    Ok(known)
}
