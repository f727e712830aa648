// How a program reaches into memory. What is not there reads as its default and takes no write.

ghost use Rattle.std.specs.Prelude.{◌≡◌, ◌==◌, Option, Some, None};
ghost use Rattle.std.specs.Option.{option_map};
ghost use Rattle.ceal_base.specs.Block.{block_at};
ghost use Rattle.ceal_base.specs.Access.{pointed, of_struct, word_in, field_of, address_of, content_of};
ghost use Rattle.ceal_base.specs.Access.{memory_after_write, holds};

use crate::memory::{BlockWords, Memory};
use crate::operators::number;
use crate::word::{BlockId, Place, Word};

/// A condition: a number is true where it is not 0, and no other word is.
pub fn is_true(word: Word) -> bool
    ensures value { result ≡ holds word }
{
    number(word) != 0
}

/// The block of this number.
fn block(memory: &Memory, id: BlockId) -> Option<&BlockWords>
    ensures { option_map (λ b. b.now) result ≡ block_at memory.now id }
{
    match id {
        BlockId::Input(n) => memory.inputs.items().get(n as usize),
        BlockId::Core(n) => memory.items().get(n as usize),
    }
}

/// The block of the struct that the word points to.
fn pointed_block(memory: &Memory, number: u32, word: Word) -> Option<&BlockWords>
    ensures { option_map (λ b. b.now) result ≡ pointed memory.now number word }
{
    let Word::Block(id) = word else {
        return None;
    };
    let found = block(memory, id)?;
    if found.shape.is_of_struct(number) {
        Some(found)
    } else {
        None
    }
}

fn word_of(block: &BlockWords, field: u32, default: Word) -> Word
    ensures { result ≡ word_in (Some block.now) field default }
{
    block
        .items()
        .get(field as usize)
        .copied()
        .unwrap_or(default)
}

/// The word of a field of the block of the struct `number` that `word` points to, or the default.
pub fn field(memory: &Memory, number: u32, word: Word, field: u32, default: Word) -> Word
    ensures value { result ≡ field_of memory.now number word field default }
{
    match pointed_block(memory, number, word) {
        Some(block) => word_of(block, field, default),
        None => default,
    }
}

/// The place of that field, and null where there is no such block.
pub fn address(memory: &Memory, number: u32, word: Word, field: u32) -> Word
    ensures value { result ≡ address_of memory.now number word field }
{
    match (pointed_block(memory, number, word), word) {
        (Some(_), Word::Block(block)) => Word::At(Place { block, field }),
        _ => Word::Null,
    }
}

/// The content of a modifiable, and the default through null.
pub fn content(memory: &Memory, word: Word, default: Word) -> Word
    ensures value { result ≡ content_of memory.now word default }
{
    let Word::At(place) = word else {
        return default;
    };
    match block(memory, place.block) {
        Some(block) => word_of(block, place.field, default),
        None => default,
    }
}

/// Gives a modifiable another content; through null it does nothing.
pub fn write(memory: &mut Memory, at: Word, word: Word)
    ensures state { memory.new ≡ memory_after_write memory.old at word }
{
    if let Word::At(place) = at {
        memory.set(place, word);
    }
}
