// What is found in the old items that are left over.

ghost use Rattle.std.specs.Prelude.{◌≡◌, ◌+◌, ◌<◌, ◌^◌, ⊤, Some, None, drop, MatchOption, IfOk};
ghost use Rattle.ceal_theory.specs.Levels.{block_of_key, find_alloc, same_read, value_of_read};
ghost use Rattle.ceal_adjust.specs.Closures.{mark_of_read, find_closure};
ghost use Rattle.ceal_adjust.specs.Spots.{Absent, Found};
ghost use Rattle.ceal_theory.specs.Take.{same_key, same_words};
ghost use Rattle.ceal_adjust.specs.declared.mark.Mark.TheVariants.{Made};

use crate::mark::Mark;
use crate::old::{Old, Spot};
use ceal_base::forest::{Item, Key, UnitId};
use ceal_base::no_memory::NoMemory;
use ceal_base::word::{BlockId, Place, Word};
use ceal_base::words::Words;
use ceal_code::stack::Closure;

/// An allocation: its block, the place after it, and how many levels are left over there.
#[derive(Clone, Copy)]
pub struct FoundBlock {
    pub block: BlockId,
    pub rest: usize,
    pub levels: usize,
}

/// A read: its value, the place after it, and how many levels around the first one there are left over.
#[derive(Clone, Copy)]
pub struct FoundValue {
    pub value: Word,
    pub rest: usize,
    pub levels: usize,
}

/// What allocations are found by.
fn is_key(k: &Key, key: &Key) -> bool
    ensures { result ≡ same_key k.now key.now }
{
    k.same_as(key)
}

fn are_words(words: &Words, args: &Words) -> bool
    ensures { result ≡ same_words words.now args.now }
{
    words.same_as(args)
}

/// Whether a read of this place is one of the closure; its value is not compared.
fn is_read(place: Place, unit: UnitId, var: u32, words: &Words, closure: &Closure) -> bool
    ensures { result ≡ same_read place unit var words.now
        closure.now.place closure.now.unit closure.now.var closure.now.args }
{
    place == closure.place
        && unit.0 == closure.unit.0
        && var == closure.var
        && are_words(words, &closure.args)
}

fn allocated(item: &Item, key: &Key) -> Option<BlockId>
    ensures { result ≡ block_of_key item.now key.now }
{
    match item {
        Item::Alloc { block, key: k } => { if is_key(k, key) { Some(*block) } else { None } }
        Item::Step => None,
        Item::Write { .. } => None,
        Item::Read { .. } => None,
        Item::End => None,
    }
}

fn seek_block(old: &Old, rest: usize, levels: usize, key: &Key) -> Result<Option<Spot>, NoMemory>
    ensures found { IfOk result
        (λ o. MatchOption o (Absent old.now (Made key.now) rest levels)
        (λ s. Found old.now (Made key.now) rest levels s.at s.levels)) }
    ensures small { IfOk result (λ o. MatchOption o ⊤ (λ s. s.at + 1 < 2 ^ 64)) }
{
    let mark = Mark::Made(key.copy()?);
    let spot = old.find(&mark, rest, levels)?;
    Ok(spot)
}

/// The earliest allocation with this key in the levels from a place on.
pub fn find_block(
    old: &Old,
    rest: usize,
    levels: usize,
    key: &Key,
) -> Result<Option<FoundBlock>, NoMemory>
    ensures value { IfOk result
        (λ found. MatchOption found (find_alloc key.now levels (drop rest old.now) ≡ None)
        (λ f. find_alloc key.now levels (drop rest old.now)
        ≡ Some (record { block = f.block; rest = drop f.rest old.now; levels = f.levels }))) }
{
    let Some(spot) = seek_block(old, rest, levels, key)? else {
        return Ok(None);
    };
    let Some(item) = old.item(spot.at) else {
        return Ok(None);
    };
    match allocated(item, key) {
        None => Ok(None),
        Some(block) => Ok(Some(FoundBlock {
            block,
            rest: spot.at + 1,
            levels: spot.levels,
        })),
    }
}

fn was_read(item: &Item, closure: &Closure) -> Option<Word>
    ensures { result ≡ value_of_read item.now
        closure.now.place closure.now.unit closure.now.var closure.now.args }
{
    match item {
        Item::Read {
            place,
            value,
            unit,
            var,
            args,
        } => {
            if is_read(*place, *unit, *var, args, closure) {
                Some(*value)
            } else {
                None
            }
        }
        Item::Step => None,
        Item::Alloc { .. } => None,
        Item::Write { .. } => None,
        Item::End => None,
    }
}

fn seek_value(
    old: &Old,
    rest: usize,
    levels: usize,
    closure: &Closure,
) -> Result<Option<Spot>, NoMemory>
    ensures found { IfOk result
        (λ o. MatchOption o (Absent old.now (mark_of_read closure.now) rest levels)
        (λ s. Found old.now (mark_of_read closure.now) rest levels s.at s.levels)) }
    ensures small { IfOk result (λ o. MatchOption o ⊤ (λ s. s.at + 1 < 2 ^ 64)) }
{
    let mark = Mark::Taken {
        place: closure.place,
        unit: closure.unit,
        var: closure.var,
        args: closure.args.copy()?,
    };
    old.find(&mark, rest, levels)
}

/// The earliest read of the closure in the levels from a place on.
pub fn find_value(
    old: &Old,
    rest: usize,
    levels: usize,
    closure: &Closure,
) -> Result<Option<FoundValue>, NoMemory>
    ensures value { IfOk result (λ found. MatchOption found
        (find_closure closure.now levels (drop rest old.now) ≡ None)
        (λ f. find_closure closure.now levels (drop rest old.now)
        ≡ Some (record { value = f.value; rest = drop f.rest old.now; levels = f.levels }))) }
{
    let Some(spot) = seek_value(old, rest, levels, closure)? else {
        return Ok(None);
    };
    let Some(item) = old.item(spot.at) else {
        return Ok(None);
    };
    match was_read(item, closure) {
        None => Ok(None),
        Some(value) => Ok(Some(FoundValue {
            value,
            rest: spot.at + 1,
            levels: spot.levels,
        })),
    }
}
