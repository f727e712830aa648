// Reads the items of a dump.

ghost use Rattle.std.specs.Prelude.{◌≡◌, IfOk, OnOk};
ghost use Rattle.ceal_dump.specs.Reading.{key_at, alloc_at, write_at, read_at, item_at, items_from};

use crate::reader::Reader;
use crate::words::{args, block, place, word};
use ceal_base::forest::{Item, Key, UnitId};
use ceal_base::no_memory::NoMemory;
use std::alloc::Global;

/// `fN` with its words, `i` or `pN`.
#[tactic(auto, unfolding(crate::specs::Reading::key_at))]
fn key(alloc: Global, reader: &mut Reader<'_>) -> Result<Key, NoMemory>
    ensures value { IfOk result (λ key. key ≡ (key_at reader.old).0) }
    ensures rest { OnOk result (reader.new ≡ (key_at reader.old).1) }
{
    let byte = reader.first();
    reader.skip(1);
    if byte == b'f' {
        let function = reader.small();
        let args = args(alloc, reader)?;
        return Ok(Key::Init { function, args });
    }
    if byte == b'p' {
        return Ok(Key::ModPtr(reader.small()));
    }
    Ok(Key::ModInt)
}

/// What follows `a `.
#[tactic(auto, unfolding(crate::specs::Reading::alloc_at))]
fn allocation(alloc: Global, reader: &mut Reader<'_>) -> Result<Item, NoMemory>
    ensures value { IfOk result (λ item. item ≡ (alloc_at reader.old).0) }
    ensures rest { OnOk result (reader.new ≡ (alloc_at reader.old).1) }
{
    let block = block(reader);
    reader.skip(1);
    let key = key(alloc, reader)?;
    reader.skip(1);
    Ok(Item::Alloc { block, key })
}

/// What follows `w `.
#[tactic(auto, unfolding(crate::specs::Reading::write_at))]
fn write(reader: &mut Reader<'_>) -> Item
    ensures value { result ≡ (write_at reader.old).0 }
    ensures rest { reader.new ≡ (write_at reader.old).1 }
{
    let place = place(reader);
    reader.skip(1);
    let value = word(reader);
    reader.skip(1);
    Item::Write { place, value }
}

/// What follows `r `.
#[tactic(auto, unfolding(crate::specs::Reading::read_at))]
fn read(alloc: Global, reader: &mut Reader<'_>) -> Result<Item, NoMemory>
    ensures value { IfOk result (λ item. item ≡ (read_at reader.old).0) }
    ensures rest { OnOk result (reader.new ≡ (read_at reader.old).1) }
{
    let place = place(reader);
    reader.skip(1);
    let value = word(reader);
    reader.skip(2);
    let unit = UnitId(reader.small());
    reader.skip(2);
    let var = reader.small();
    let args = args(alloc, reader)?;
    reader.skip(1);
    Ok(Item::Read {
        place,
        value,
        unit,
        var,
        args,
    })
}

/// The line of an item.
#[tactic(auto, unfolding(crate::specs::Reading::item_at))]
fn item(alloc: Global, reader: &mut Reader<'_>) -> Result<Item, NoMemory>
    ensures value { IfOk result (λ item. item ≡ (item_at reader.old).0) }
    ensures rest { OnOk result (reader.new ≡ (item_at reader.old).1) }
{
    let byte = reader.first();
    reader.skip(2);
    if byte == b's' {
        return Ok(Item::Step);
    }
    if byte == b'a' {
        return allocation(alloc, reader);
    }
    if byte == b'w' {
        return Ok(write(reader));
    }
    if byte == b'r' {
        return read(alloc, reader);
    }
    Ok(Item::End)
}

/// The lines of `count` items, where the bytes do not end before.
pub fn items(alloc: Global, reader: &mut Reader<'_>, count: u32) -> Result<Vec<Item>, NoMemory>
    ensures value { IfOk result (λ items. items.items ≡ (items_from count reader.old).0) }
    ensures rest { OnOk result (reader.new ≡ (items_from count reader.old).1) }
{
    let mut items = Vec::new(alloc);
    let mut left = count;
    while left > 0 && !reader.is_empty() {
        left -= 1;
        let item = item(alloc, reader)?;
        items.push(item)?;
    }
    Ok(items)
}
