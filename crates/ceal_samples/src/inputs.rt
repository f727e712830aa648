// Words and input blocks.

ghost use Rattle.std.specs.Prelude.{◌≡◌, ◌++◌, ◌∷◌, [], OnOk, OnErr};

use ceal_base::kind::Shape;
use ceal_base::memory::{BlockWords, Inputs};
use ceal_base::no_memory::NoMemory;
use ceal_base::word::{BlockId, Place, Word};
use std::alloc::Global;

/// A pointer to an input.
pub fn input(n: u32) -> Word
    ensures value { result ≡ Word.Block (BlockId.Input n) }
{
    Word::Block(BlockId::Input(n))
}

/// A pointer to a modifiable.
pub fn place(block: BlockId, field: u32) -> Word
    ensures value { result ≡ Word.At (record { block = block; field = field }) }
{
    Word::At(Place { block, field })
}

/// A pointer to the modifiable of an input that is one modifiable.
pub fn at(n: u32) -> Word
    ensures value { result ≡ Word.At (record { block = BlockId.Input n; field = 0 }) }
{
    place(BlockId::Input(n), 0)
}

/// Adds an input block.
pub fn add(alloc: Global, inputs: &mut Inputs, shape: Shape, words: &[Word]) -> Result<(), NoMemory>
    ensures ok { OnOk result (inputs.new
        ≡ inputs.old ++ record { shape = shape; words = words.now } ∷ []) }
    ensures err { OnErr result (inputs.new ≡ inputs.old) }
{
    inputs.push(BlockWords::new(shape, Vec::from_slice(alloc, words)?))
}

/// A modifiable for each number.
pub fn numbers(alloc: Global, list: &[i64]) -> Result<Inputs, NoMemory> {
    let mut inputs = Inputs::new(Vec::new(alloc));
    for n in list {
        add(alloc, &mut inputs, Shape::ModInt, &[Word::Num(*n)])?;
    }
    Ok(inputs)
}

/// A modifiable that points to the list, one for its image, and the cells of the list, each with the next one as its
/// tail.
pub fn list(alloc: Global, heads: &[i64]) -> Result<Inputs, NoMemory> {
    let mut inputs = Inputs::new(Vec::new(alloc));
    add(alloc, &mut inputs, Shape::ModPtr(0), &[input(2)])?;
    add(alloc, &mut inputs, Shape::ModPtr(0), &[Word::Null])?;
    for n in 0..heads.len() {
        let tail = if n + 1 < heads.len() && n < 1000 {
            input(n as u32 + 3)
        } else {
            Word::Null
        };
        let words = [Word::Num(heads[n]), tail];
        add(alloc, &mut inputs, Shape::Struct(0), &words)?;
    }
    Ok(inputs)
}

/// The nodes of `9 / null + 6 * (17 % 5 - 4)`, a modifiable that points to the root, and one for the value.
pub fn operators(alloc: Global) -> Result<Inputs, NoMemory> {
    let mut inputs = Inputs::new(Vec::new(alloc));
    for (op, leaf, left, right) in [
        (0, 9, Word::Null, Word::Null),
        (4, 0, input(0), Word::Null),
        (0, 6, Word::Null, Word::Null),
        (0, 17, Word::Null, Word::Null),
        (0, 5, Word::Null, Word::Null),
        (5, 0, input(3), input(4)),
        (0, 4, Word::Null, Word::Null),
        (2, 0, input(5), input(6)),
        (3, 0, input(2), input(7)),
        (1, 0, input(1), input(8)),
    ] {
        let words = [Word::Num(op), Word::Num(leaf), left, right];
        add(alloc, &mut inputs, Shape::Struct(0), &words)?;
    }
    add(alloc, &mut inputs, Shape::ModPtr(0), &[input(9)])?;
    add(alloc, &mut inputs, Shape::ModInt, &[Word::Num(0)])?;
    Ok(inputs)
}
