// Reads the blocks of a dump.

ghost use Rattle.std.specs.Prelude.{◌≡◌, IfOk, OnOk};
ghost use Rattle.ceal_dump.specs.Reading.{shape_at, line_at, blocks_from};

use crate::reader::Reader;
use crate::words::words;
use ceal_base::kind::Shape;
use ceal_base::memory::BlockWords;
use ceal_base::no_memory::NoMemory;
use std::alloc::Global;

/// `sN`, `i` or `pN`.
#[tactic(auto, unfolding(crate::specs::Reading::shape_at))]
fn shape(reader: &mut Reader<'_>) -> Shape
    ensures value { result ≡ (shape_at reader.old).0 }
    ensures rest { reader.new ≡ (shape_at reader.old).1 }
{
    let byte = reader.first();
    reader.skip(1);
    if byte == b's' {
        return Shape::Struct(reader.small());
    }
    if byte == b'p' {
        return Shape::ModPtr(reader.small());
    }
    Shape::ModInt
}

/// The line of a block: its shape and its words.
#[tactic(auto, unfolding(crate::specs::Reading::line_at))]
fn line(alloc: Global, reader: &mut Reader<'_>) -> Result<BlockWords, NoMemory>
    ensures value { IfOk result (λ block. block ≡ (line_at reader.old).0) }
    ensures rest { OnOk result (reader.new ≡ (line_at reader.old).1) }
{
    let shape = shape(reader);
    let words = words(alloc, reader)?;
    reader.skip(1);
    Ok(BlockWords::new(shape, words))
}

/// The lines of `count` blocks, where the bytes do not end before.
pub fn blocks(
    alloc: Global,
    reader: &mut Reader<'_>,
    count: u32,
) -> Result<Vec<BlockWords>, NoMemory>
    ensures value { IfOk result (λ blocks. blocks.items ≡ (blocks_from count reader.old).0) }
    ensures rest { OnOk result (reader.new ≡ (blocks_from count reader.old).1) }
{
    let mut blocks = Vec::new(alloc);
    let mut left = count;
    while left > 0 && !reader.is_empty() {
        left -= 1;
        let block = line(alloc, reader)?;
        blocks.push(block)?;
    }
    Ok(blocks)
}
