// The memory after a trace, as a record has it.

ghost use Rattle.std.specs.Prelude.{◌≡◌, ◌+◌, ◌++◌, ◌∷◌, [], ℕ, Some, List, map, length, slice_get, IfOk, OnOk};
ghost use Rattle.ceal_base.specs.Block.{Block};
ghost use Rattle.ceal_base.specs.Trace.{Trace, flat, blocks_of};
ghost use Rattle.ceal_base.specs.declared.word.BlockId.TheVariants.{Input};
ghost use Rattle.ceal_base.specs.declared.word.Word.{Word as AnyWord};
ghost use Rattle.ceal_code.specs.After.{memory_after as block_left};
ghost use Rattle.ceal_code.specs.Replay.{Replays, inputs_after as inputs_left};
ghost use Rattle.ceal_code.specs.Tables.{memory_in};
ghost use Rattle.ceal_record.specs.Recorded.{left_by};
ghost use Rattle.ceal_traceck.specs.Items.{allocated, AreMade};

use ceal_base::count::one_more;
use ceal_base::forest::Item;
use ceal_base::kind::Shape;
use ceal_base::memory::{BlockWords, Inputs, Memory};
use ceal_base::no_memory::NoMemory;
use ceal_base::word::{BlockId, Word};
use ceal_code::code::Code;
use ceal_code::plain_words::PlainWords;
use ceal_code::trace_memory::TraceMemory;
use std::alloc::Global;

/// The words of a block, each modifiable with its content. No block has 2^32 - 1 fields.
fn words_after(alloc: Global, memory: &TraceMemory<'_>, id: BlockId) -> Result<Vec<Word>, NoMemory>
    ensures { IfOk result (λ words. (b : Block) →
        memory_in memory.now id ≡ Some b → words.items ≡ b.words) }
{
    let mut words = Vec::new(alloc);
    for field in 0..u32::MAX {
        match memory.word_after(id, field) {
            None => return Ok(words),
            Some(word) => words.push(word)?,
        }
    }
    Err(NoMemory)
}

/// The block of a number, each modifiable with its content.
fn block_after(
    alloc: Global,
    memory: &TraceMemory<'_>,
    id: BlockId,
) -> Result<Option<BlockWords>, NoMemory>
    ensures { IfOk result (λ block. block ≡ memory_in memory.now id) }
{
    match memory.shape(id) {
        None => Ok(None),
        Some(shape) => {
            let words = words_after(alloc, memory, id)?;
            Ok(Some(BlockWords::new(shape, words)))
        }
    }
}

/// Puts a block of the memory after the others. Each block that a trace allocates is there.
fn put_block(
    alloc: Global,
    memory: &TraceMemory<'_>,
    id: BlockId,
    made: &mut Vec<BlockWords>,
) -> Result<(), NoMemory>
    ensures { OnOk result
        (map Some made.new.items ≡ map Some made.old.items ++ memory_in memory.now id ∷ []) }
{
    match block_after(alloc, memory, id)? {
        None => Err(NoMemory),
        Some(block) => {
            made.push(block)?;
            Ok(())
        }
    }
}

/// Puts the block of the item after the others, if it is an allocation.
fn put_made(
    alloc: Global,
    memory: &TraceMemory<'_>,
    item: &Item,
    made: &mut Vec<BlockWords>,
) -> Result<(), NoMemory>
    ensures { OnOk result (map Some made.new.items
        ≡ map Some made.old.items ++ map (memory_in memory.now) (allocated (item.now ∷ []))) }
{
    match item {
        Item::Alloc { block, .. } => put_block(alloc, memory, *block, made),
        Item::Step => Ok(()),
        Item::Write { .. } => Ok(()),
        Item::Read { .. } => Ok(()),
        Item::End => Ok(()),
    }
}

/// The blocks that the items allocate, in their order.
fn made_after(
    alloc: Global,
    memory: &TraceMemory<'_>,
    items: &[Item],
) -> Result<Vec<BlockWords>, NoMemory>
    ensures { IfOk result (λ made. AreMade (memory_in memory.now) items.now made.items) }
{
    let mut made = Vec::new(alloc);
    let mut items = items;
    while let Some((item, more)) = items.split_first() {
        put_made(alloc, memory, item, &mut made)?;
        items = more;
    }
    Ok(made)
}

/// The input of this number and this shape, each modifiable with its content.
fn input_after(
    alloc: Global,
    memory: &TraceMemory<'_>,
    n: u32,
    shape: Shape,
) -> Result<BlockWords, NoMemory>
    ensures { IfOk result (λ after. (b : Block) → memory_in memory.now (Input n) ≡ Some b →
        b.shape ≡ shape → after ≡ b) }
{
    let words = words_after(alloc, memory, BlockId::Input(n))?;
    Ok(BlockWords::new(shape, words))
}

/// The input blocks.
fn inputs_after(
    alloc: Global,
    memory: &TraceMemory<'_>,
    inputs: &[BlockWords],
) -> Result<Vec<BlockWords>, NoMemory>
    ensures count { IfOk result (λ v. length v.items ≡ length inputs.now) }
    ensures each { IfOk result (λ v. (n : ℕ) (old b : Block) → slice_get inputs.now n ≡ Some old →
        memory_in memory.now (Input n) ≡ Some b → b.shape ≡ old.shape →
        slice_get v.items n ≡ Some b) }
{
    let mut blocks = Vec::with_capacity(alloc, inputs.len())?;
    let mut number = 0;
    for old in inputs {
        let block = input_after(alloc, memory, number, old.shape)?;
        blocks.push(block)?;
        number = one_more(number)?;
    }
    Ok(blocks)
}

/// The memory after a trace of a call: the inputs, and the core blocks in the order of their allocations.
pub fn memory_after(
    alloc: Global,
    code: &Code,
    inputs: &Inputs,
    items: &[Item],
) -> Result<Memory, NoMemory>
    ensures inputs { IfOk result
        (λ m. (l : Trace) (f : ℕ) (args : List AnyWord) → items.now ≡ flat l
        → Replays code.now inputs.now f args l
        → m.inputs ≡ inputs_left code.now (left_by code.now inputs.now l) 0 inputs.now) }
    ensures made { IfOk result (λ m. (l : Trace) → items.now ≡ flat l →
        map Some m.made ≡ map (block_left code.now inputs.now l) (blocks_of l)) }
{
    let memory = TraceMemory::after(alloc, code, inputs, items)?;
    let made = made_after(alloc, &memory, items)?;
    let inputs = inputs_after(alloc, &memory, inputs.items())?;
    Ok(Memory::new(Inputs::new(inputs), made))
}
