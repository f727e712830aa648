// A record read from its dump text.

ghost use Rattle.std.specs.Prelude.{◌≡◌, ◌↔◌, IsTrue, IfOk, OnOk};
ghost use Rattle.ceal_dump.specs.Answers.{IsRead};
ghost use Rattle.ceal_dump.specs.DumpText.{dump_text, HasDump};
ghost use Rattle.ceal_dump.specs.Reading.{inputs_at, trace_at, memory_at, record_at};

use crate::blocks::blocks;
use crate::has_dump::has_dump;
use crate::items::items;
use crate::reader::Reader;
use crate::words::args;
use crate::write::record_text;
use ceal_base::forest::Forest;
use ceal_base::memory::{Inputs, Memory};
use ceal_base::no_memory::NoMemory;
use ceal_base::recorded::Record;
use std::alloc::Global;

/// Why no record was read.
#[derive(Clone, Copy, PartialEq, Eq, Debug)]
pub enum DumpError {
    /// there was no memory
    Memory,
    /// the bytes are the dump of no record
    Unreadable,
}

/// The input blocks, and how many they are before them.
#[tactic(auto, unfolding(crate::specs::Reading::inputs_at))]
fn inputs(alloc: Global, reader: &mut Reader<'_>) -> Result<Inputs, NoMemory>
    ensures value { IfOk result (λ inputs. inputs ≡ (inputs_at reader.old).0) }
    ensures rest { OnOk result (reader.new ≡ (inputs_at reader.old).1) }
{
    let count = reader.small();
    reader.skip(1);
    let blocks = blocks(alloc, reader, count)?;
    Ok(Inputs::new(blocks))
}

/// The items, and how many they are before them.
#[tactic(auto, unfolding(crate::specs::Reading::trace_at))]
fn forest(alloc: Global, reader: &mut Reader<'_>) -> Result<Forest, NoMemory>
    ensures value { IfOk result (λ forest. forest ≡ (trace_at reader.old).0) }
    ensures rest { OnOk result (reader.new ≡ (trace_at reader.old).1) }
{
    let count = reader.small();
    reader.skip(1);
    let items = items(alloc, reader, count)?;
    Ok(Forest::new(items))
}

/// The blocks of the memory, and how many they are before them.
#[tactic(auto, unfolding(crate::specs::Reading::memory_at))]
fn memory(alloc: Global, reader: &mut Reader<'_>) -> Result<Memory, NoMemory>
    ensures value { IfOk result (λ memory. memory ≡ memory_at reader.old) }
{
    let inputs = reader.small();
    reader.skip(1);
    let made = reader.small();
    reader.skip(1);
    let inputs = blocks(alloc, reader, inputs)?;
    let made = blocks(alloc, reader, made)?;
    Ok(Memory::new(Inputs::new(inputs), made))
}

/// The record that the bytes are read as, whatever they are.
#[tactic(auto, unfolding(crate::specs::Reading::record_at))]
fn read_record(alloc: Global, bytes: &[u8]) -> Result<Record, NoMemory>
    ensures { IfOk result (λ r. r ≡ record_at bytes.now) }
{
    let mut reader = Reader::new(bytes);
    reader.skip(20);
    let inputs = inputs(alloc, &mut reader)?;
    reader.skip(4);
    let function = reader.small();
    let args = args(alloc, &mut reader)?;
    reader.skip(7);
    let forest = forest(alloc, &mut reader)?;
    reader.skip(7);
    let memory = memory(alloc, &mut reader)?;
    Ok(Record {
        inputs,
        function,
        args,
        forest,
        memory,
    })
}

/// Whether the record has a dump, and the bytes are its text.
fn is_dump(alloc: Global, kept: &Record, bytes: &[u8]) -> Result<bool, NoMemory>
    ensures { IfOk result
        (λ told. IsTrue told ↔ (HasDump kept.now × (bytes.now ≡ dump_text kept.now))) }
{
    if !has_dump(kept) {
        return Ok(false);
    }
    let text = record_text(alloc, kept)?;
    Ok(text.items() == bytes)
}

/// The record whose dump text the bytes are. They are unreadable exactly when they are that of no record.
pub fn read_dump(alloc: Global, bytes: &[u8]) -> Result<Record, DumpError>
    ensures read { IsRead bytes.now result }
{
    let Ok(kept) = read_record(alloc, bytes) else {
        return Err(DumpError::Memory);
    };
    match is_dump(alloc, &kept, bytes) {
        Ok(true) => Ok(kept),
        Ok(false) => {
            drop(kept);
            Err(DumpError::Unreadable)
        }
        Err(_) => {
            drop(kept);
            Err(DumpError::Memory)
        }
    }
}
