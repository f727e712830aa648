// What old items are found by.

ghost use Rattle.std.specs.Prelude.{◌≡◌, ◌+◌, pred, IfOk};
ghost use Rattle.ceal_theory.specs.Levels.{after_item};
ghost use Rattle.ceal_adjust.specs.Marks.{mark_of};

use ceal_base::forest::{Item, Key, UnitId};
use ceal_base::no_memory::NoMemory;
use ceal_base::word::Place;
use ceal_base::words::Words;

/// What an old item is found by: all parts of a key, or the depth that an End leads back to.
#[derive(PartialEq, Eq, Hash, Drop)]
pub enum Mark {
    /// an allocation with this key
    Made(Key),
    /// a read of this place with this unit, variable and arguments
    Taken {
        place: Place,
        unit: UnitId,
        var: u32,
        args: Words,
    },
    /// an End, with the number of reads that are open after it
    Closed(usize),
}

/// The mark of an item, where `depth` reads are open before it.
pub fn mark_for(item: &Item, depth: usize) -> Result<Option<Mark>, NoMemory>
    ensures { IfOk result (λ m. m ≡ mark_of item.now depth) }
{
    match item {
        Item::Step => Ok(None),
        Item::Alloc { key, .. } => {
            let key = key.copy()?;
            Ok(Some(Mark::Made(key)))
        }
        Item::Write { .. } => Ok(None),
        Item::Read {
            place,
            unit,
            var,
            args,
            ..
        } => {
            let args = args.copy()?;
            Ok(Some(Mark::Taken {
                place: *place,
                unit: *unit,
                var: *var,
                args,
            }))
        }
        Item::End => Ok(Some(Mark::Closed(one_less(depth)))),
    }
}

/// No forest that fits into memory has 2^32 levels, so the next number is there.
fn one_more(levels: usize) -> Result<usize, NoMemory>
    ensures { IfOk result (λ n. n ≡ levels + 1) }
{
    match levels.checked_add(1) {
        None => Err(NoMemory),
        Some(n) => Ok(n),
    }
}

fn one_less(levels: usize) -> usize
    ensures { result ≡ pred levels }
{
    levels.saturating_sub(1)
}

/// How many levels are open after an item, where `levels` are open before it.
pub fn levels_after(item: &Item, levels: usize) -> Result<usize, NoMemory>
    ensures { IfOk result (λ n. n ≡ after_item item.now levels) }
{
    match item {
        Item::Step => Ok(levels),
        Item::Alloc { .. } => Ok(levels),
        Item::Write { .. } => Ok(levels),
        Item::Read { .. } => one_more(levels),
        Item::End => Ok(one_less(levels)),
    }
}
