// A list that the program made, walked from its first cell to its last one. Each call of the engine comes after the
// test of what it requires.

ghost use Rattle.std.specs.Prelude.{◌≡◌, ◌≤◌, ℤ, List, Some, length, IfOk, IfErr, IfSome, IsOk, IsSome};
ghost use Rattle.ceal_embedding.specs.Lists.{held as held_in, number_in, is_cell as is_cell_in, tail_of};
ghost use Rattle.ceal_embedding.specs.Lists.{IsList, IsListFrom, sum_of as total};
ghost use Rattle.ceal_engine.specs.Engine.{block_in};
ghost use Rattle.ceal_engine.specs.declared.phase.Phase.TheVariants.{Finished};

use crate::trouble::Trouble;
use ceal_base::kind::Shape;
use ceal_base::word::{BlockId, Place, Word};
use ceal_engine::engine::Engine;
use ceal_engine::phase::Phase;

/// The shape of a cell, which is the first struct, and its fields.
const CELL: Shape = Shape::Struct(0);

const NUMBER: u32 = 0;

const TAIL: u32 = 1;

// What a modifiable holds, if the place is one.
fn held(engine: &Engine, place: Place) -> Option<Word>
    requires finished { engine.now.phase ≡ Finished }
    ensures { result ≡ held_in engine.now place }
{
    if engine.has_value(place) {
        Some(engine.value(place))
    } else {
        None
    }
}

// Whether there is a cell of this name.
fn is_cell(engine: &Engine, block: BlockId) -> bool
    requires finished { engine.now.phase ≡ Finished }
    ensures { result ≡ is_cell_in (block_in engine.now block) }
{
    engine.find_shape(block).is_some() && engine.shape(block) == CELL
}

// The number of a cell.
fn number(engine: &Engine, cell: BlockId) -> Option<i64>
    requires finished { engine.now.phase ≡ Finished }
    ensures { result ≡ number_in engine.now cell }
{
    if !is_cell(engine, cell) || !engine.has_field(cell, NUMBER) {
        return None;
    }
    match engine.field(cell, NUMBER) {
        Word::Num(number) => Some(number),
        _ => None,
    }
}

// The number of a cell, and what its tail holds.
fn cell(engine: &Engine, cell: BlockId) -> Option<(i64, Word)>
    requires finished { engine.now.phase ≡ Finished }
    ensures number { IfSome result (λ found. number_in engine.now cell ≡ Some found.0) }
    ensures tail { IfSome result (λ found. held_in engine.now (tail_of cell) ≡ Some found.1) }
    ensures sure { IsSome (number_in engine.now cell) → IsSome (held_in engine.now (tail_of cell))
        → IsSome result }
{
    let number = number(engine, cell)?;
    let tail = held(
        engine,
        Place {
            block: cell,
            field: TAIL,
        },
    )?;
    Some((number, tail))
}

/// The sum of the numbers of a list, which may be a cycle: there is a limit to its cells.
pub fn sum(engine: &Engine, list: Place, most: u32) -> Result<i64, Trouble>
    ensures sum { IfOk result (λ sum. (numbers : List ℤ) ×
        IsList engine.now list numbers × (sum ≡ total numbers)) }
    ensures refused { IfErr result (λ trouble. trouble ≡ Trouble.Refused) }
    ensures sure { (numbers : List ℤ) → engine.now.phase ≡ Finished
        → IsList engine.now list numbers → length numbers ≤ most → IsOk result }
{
    if engine.phase() != Phase::Finished {
        return Err(Trouble::Refused);
    }
    let Some(first) = held(engine, list) else {
        return Err(Trouble::Refused);
    };
    sum_of(engine, first, most)
}

// The sum of the numbers from a cell on.
fn sum_of(engine: &Engine, first: Word, most: u32) -> Result<i64, Trouble>
    requires finished { engine.now.phase ≡ Finished }
    ensures sum { IfOk result (λ sum. (numbers : List ℤ) ×
        IsListFrom engine.now first numbers × (sum ≡ total numbers)) }
    ensures refused { IfErr result (λ trouble. trouble ≡ Trouble.Refused) }
    ensures sure { (numbers : List ℤ) → IsListFrom engine.now first numbers
        → length numbers ≤ most → IsOk result }
{
    let mut word = first;
    let mut left = most;
    let mut sum = 0i64;
    while let Word::Block(block) = word {
        if left == 0 {
            return Err(Trouble::Refused);
        }
        let Some((number, tail)) = cell(engine, block) else {
            return Err(Trouble::Refused);
        };
        sum = sum.wrapping_add(number);
        word = tail;
        left -= 1;
    }
    match word {
        Word::Null => Ok(sum),
        _ => Err(Trouble::Refused),
    }
}
