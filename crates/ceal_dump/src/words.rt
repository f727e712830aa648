// Reads the words of a dump.

ghost use Rattle.std.specs.Prelude.{◌≡◌, IfOk, OnOk};
ghost use Rattle.ceal_dump.specs.Reading as reading;
ghost use Rattle.ceal_dump.specs.Reading.{block_of, block_at, place_at, pointer_at, word_at, words_at};

use crate::reader::Reader;
use ceal_base::no_memory::NoMemory;
use ceal_base::word::{BlockId, Place, Word};
use ceal_base::words::Words;
use std::alloc::Global;

fn block_with(byte: u8, n: u32) -> BlockId
    ensures { result ≡ block_of byte n }
{
    if byte == b'i' {
        BlockId::Input(n)
    } else {
        BlockId::Core(n)
    }
}

/// `iN` or `cN`.
#[tactic(auto, unfolding(crate::specs::Reading::block_at))]
pub fn block(reader: &mut Reader<'_>) -> BlockId
    ensures value { result ≡ (block_at reader.old).0 }
    ensures rest { reader.new ≡ (block_at reader.old).1 }
{
    let byte = reader.first();
    reader.skip(1);
    let n = reader.small();
    block_with(byte, n)
}

/// A block, a dot and a field.
#[tactic(auto, unfolding(crate::specs::Reading::place_at))]
pub fn place(reader: &mut Reader<'_>) -> Place
    ensures value { result ≡ (place_at reader.old).0 }
    ensures rest { reader.new ≡ (place_at reader.old).1 }
{
    let block = block(reader);
    reader.skip(1);
    let field = reader.small();
    Place { block, field }
}

/// A block or a place.
#[tactic(auto, unfolding(crate::specs::Reading::pointer_at, crate::specs::Reading::place_at))]
fn pointer(reader: &mut Reader<'_>) -> Word
    ensures value { result ≡ (pointer_at reader.old).0 }
    ensures rest { reader.new ≡ (pointer_at reader.old).1 }
{
    let block = block(reader);
    if reader.first() == b'.' {
        reader.skip(1);
        let field = reader.small();
        return Word::At(Place { block, field });
    }
    Word::Block(block)
}

fn is_pointer(byte: u8) -> bool
    ensures { result ≡ reading.is_pointer byte }
{
    byte == b'i' || byte == b'c'
}

/// A number, `null`, a block or a place.
#[tactic(auto, unfolding(crate::specs::Reading::word_at))]
pub fn word(reader: &mut Reader<'_>) -> Word
    ensures value { result ≡ (word_at reader.old).0 }
    ensures rest { reader.new ≡ (word_at reader.old).1 }
{
    let byte = reader.first();
    if byte == b'n' {
        reader.skip(4);
        return Word::Null;
    }
    if is_pointer(byte) {
        return pointer(reader);
    }
    Word::Num(reader.int())
}

/// Words with a space before each.
pub fn words(alloc: Global, reader: &mut Reader<'_>) -> Result<Vec<Word>, NoMemory>
    ensures value { IfOk result (λ words. words.items ≡ (words_at reader.old).0) }
    ensures rest { OnOk result (reader.new ≡ (words_at reader.old).1) }
{
    let mut words = Vec::new(alloc);
    while reader.first() == b' ' {
        reader.skip(1);
        words.push(word(reader))?;
    }
    Ok(words)
}

/// The same, as arguments.
pub fn args(alloc: Global, reader: &mut Reader<'_>) -> Result<Words, NoMemory>
    ensures value { IfOk result (λ args. args ≡ (words_at reader.old).0) }
    ensures rest { OnOk result (reader.new ≡ (words_at reader.old).1) }
{
    let words = words(alloc, reader)?;
    let args = Words::from_slice(alloc, words.as_slice())?;
    Ok(args)
}
