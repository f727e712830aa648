// The inputs of the jobs.

ghost use Rattle.ceal_embedding.specs.Sizes.{IsSize};

use crate::calls::add;
use crate::trouble::Trouble;
use ceal_base::kind::Shape;
use ceal_base::word::{BlockId, Word};
use ceal_engine::engine::Engine;

/// The leaves of a tree, which are the first inputs.
pub fn add_leaves(engine: &mut Engine, size: u32) -> Result<(), Trouble> {
    for number in 0..size {
        let leaf = Word::Num(2 * number as i64 + 1);
        add(
            engine,
            Shape::Struct(0),
            &[Word::Num(0), leaf, Word::Null, Word::Null],
        )?;
    }
    Ok(())
}

/// The nodes above the leaves, each of the first two that have none. The last one is the root.
pub fn add_nodes(engine: &mut Engine, size: u32) -> Result<(), Trouble>
    requires size { IsSize size }
{
    for number in 0..size - 1 {
        let operator = Word::Num((1 + number % 3) as i64);
        let left = Word::Block(BlockId::Input(2 * number));
        let right = Word::Block(BlockId::Input(2 * number + 1));
        add(
            engine,
            Shape::Struct(0),
            &[operator, Word::Num(0), left, right],
        )?;
    }
    Ok(())
}

/// The cells of a list, of which the last one comes first.
pub fn add_cells(engine: &mut Engine, size: u32) -> Result<(), Trouble> {
    for number in 0..size {
        let tail = match number.checked_sub(1) {
            Some(next) => Word::Block(BlockId::Input(next)),
            None => Word::Null,
        };
        add(engine, Shape::Struct(0), &[Word::Num(number as i64), tail])?;
    }
    Ok(())
}
