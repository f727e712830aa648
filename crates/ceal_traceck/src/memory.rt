// Whether a memory is the one after items.

ghost use Rattle.std.specs.Prelude.{◌≡◌, ◌∷◌, ◌+◌, ◌<◌, ◌↔◌, ℕ, Some, List, length, slice_get, IsTrue, IfNone, IfSome};
ghost use Rattle.std.specs.Prelude.{IfOk};
ghost use Rattle.ceal_base.specs.Block.{Block};
ghost use Rattle.ceal_base.specs.declared.forest.Item.{Item as AnyItem};
ghost use Rattle.ceal_base.specs.declared.word.BlockId.TheVariants.{Input as InputBlock};
ghost use Rattle.ceal_code.specs.PlainWords.{block_shape, block_word};
ghost use Rattle.ceal_code.specs.Tables.{plain_in, memory_in};
ghost use Rattle.ceal_traceck.specs.Items.{AreMade};

use ceal_base::count::one_more;
use ceal_base::forest::Item;
use ceal_base::kind::Shape;
use ceal_base::memory::{BlockWords, Memory};
use ceal_base::no_memory::NoMemory;
use ceal_base::word::{BlockId, Word};
use ceal_code::plain_words::PlainWords;
use ceal_code::trace_memory::TraceMemory;

fn is_word(found: Option<Word>, word: Word) -> bool
    ensures { IsTrue result ↔ (found ≡ Some word) }
{
    match found {
        None => false,
        Some(other) => other == word,
    }
}

/// Whether the block has these words.
fn has_words(memory: &TraceMemory<'_>, id: BlockId, words: &[Word]) -> Result<bool, NoMemory>
    ensures { IfOk result (λ same. IsTrue same ↔ ((f : ℕ) →
        block_word (memory_in memory.now id) f ≡ slice_get words.now f)) }
{
    let mut rest = words;
    let mut field = 0;
    while let Some((word, more)) = rest.split_first() {
        if !is_word(memory.word_after(id, field), *word) {
            return Ok(false);
        }
        rest = more;
        field = one_more(field)?;
    }
    Ok(memory.word_after(id, field).is_none())
}

fn is_shape(found: Option<Shape>, shape: Shape) -> bool
    ensures { IsTrue result ↔ (found ≡ Some shape) }
{
    match found {
        None => false,
        Some(other) => other == shape,
    }
}

fn recorded_shape(block: &BlockWords) -> Shape
    ensures { result ≡ block.now.shape }
{
    block.shape
}

/// Whether the memory has this block of that number.
fn is_block(memory: &TraceMemory<'_>, id: BlockId, block: &BlockWords) -> Result<bool, NoMemory>
    ensures { IfOk result (λ same. IsTrue same ↔ (memory_in memory.now id ≡ Some block.now)) }
{
    if !is_shape(memory.shape(id), recorded_shape(block)) {
        return Ok(false);
    }
    has_words(memory, id, block.items())
}

/// Whether the memory has these blocks as its first inputs.
fn are_inputs(memory: &TraceMemory<'_>, blocks: &[BlockWords]) -> Result<bool, NoMemory>
    ensures { IfOk result (λ same. IsTrue same ↔ ((i : ℕ) → i < length blocks.now →
        memory_in memory.now (InputBlock i) ≡ slice_get blocks.now i)) }
{
    let mut blocks = blocks;
    let mut number = 0;
    while let Some((block, more)) = blocks.split_first() {
        if !is_block(memory, BlockId::Input(number), block)? {
            return Ok(false);
        }
        blocks = more;
        number = one_more(number)?;
    }
    Ok(true)
}

/// The blocks after the one that the memory has of this number, if that is the first of them.
fn blocks_after<'b>(
    memory: &TraceMemory<'_>,
    id: BlockId,
    blocks: &'b [BlockWords],
) -> Result<Option<&'b [BlockWords]>, NoMemory>
    ensures none { IfOk result (λ found. IfNone found ((b : Block) (bs : List Block) →
        blocks.now ≡ b ∷ bs → memory_in memory.now id ≡ Some b → ⊥)) }
    ensures some { IfOk result (λ found. IfSome found (λ more. (b : Block) ×
        (blocks.now ≡ b ∷ more.now) × (memory_in memory.now id ≡ Some b))) }
{
    match blocks.split_first() {
        None => Ok(None),
        Some((block, more)) => {
            if is_block(memory, id, block)? {
                Ok(Some(more))
            } else {
                Ok(None)
            }
        }
    }
}

/// The blocks that are left when an item allocates the first of them, if it allocates any; nothing, if it allocates
/// another one.
fn left_over<'b>(
    memory: &TraceMemory<'_>,
    item: &Item,
    blocks: &'b [BlockWords],
) -> Result<Option<&'b [BlockWords]>, NoMemory>
    ensures none { IfOk result (λ found. IfNone found ((is : List AnyItem) →
        AreMade (memory_in memory.now) (item.now ∷ is) blocks.now → ⊥)) }
    ensures some { IfOk result (λ found. IfSome found (λ more. (is : List AnyItem) →
        AreMade (memory_in memory.now) (item.now ∷ is) blocks.now
        ↔ AreMade (memory_in memory.now) is more.now)) }
{
    match item {
        Item::Alloc { block, .. } => blocks_after(memory, *block, blocks),
        Item::Step => Ok(Some(blocks)),
        Item::Write { .. } => Ok(Some(blocks)),
        Item::Read { .. } => Ok(Some(blocks)),
        Item::End => Ok(Some(blocks)),
    }
}

/// Whether the memory has these blocks of the numbers that the items allocate, in their order.
fn are_made(
    memory: &TraceMemory<'_>,
    items: &[Item],
    blocks: &[BlockWords],
) -> Result<bool, NoMemory>
    ensures { IfOk result
        (λ same. IsTrue same ↔ AreMade (memory_in memory.now) items.now blocks.now) }
{
    let mut items = items;
    let mut blocks = blocks;
    while let Some((item, more)) = items.split_first() {
        match left_over(memory, item, blocks)? {
            None => return Ok(false),
            Some(others) => blocks = others,
        }
        items = more;
    }
    Ok(blocks.is_empty())
}

/// Whether the recorded memory is the one after the items: it has as many inputs, each is that of the memory, and its
/// core blocks are those that the items allocate, in their order.
pub fn is_remembered(
    memory: &TraceMemory<'_>,
    inputs: usize,
    items: &[Item],
    recorded: &Memory,
) -> Result<bool, NoMemory>
    ensures answer { IfOk result (λ same. IsTrue same ↔
        ((length recorded.now.inputs ≡ inputs)
        × ((i : ℕ) → i < length recorded.now.inputs →
        memory_in memory.now (InputBlock i) ≡ slice_get recorded.now.inputs i)
        × AreMade (memory_in memory.now) items.now recorded.now.made)) }
{
    let blocks = recorded.inputs.items();
    if blocks.len() != inputs {
        return Ok(false);
    }
    if !are_inputs(memory, blocks)? {
        return Ok(false);
    }
    are_made(memory, items, recorded.items())
}
