// The dump text of a record, written.

ghost use Rattle.std.specs.Prelude.{◌≡◌, ◌++◌, IfOk, OnOk};
ghost use Rattle.ceal_dump.specs.DumpText as dump;
ghost use Rattle.ceal_dump.specs.DumpText.{inputs_text, call_text, trace_text, memory_text, HasDump, Small, SmallWords};
ghost use Rattle.ceal_dump.specs.DumpText.{SmallBlocks, SmallItems, InRange, IsDump};

use crate::text::{put_blocks, put_items, put_words};
use ceal_base::forest::Item;
use ceal_base::memory::{BlockWords, Memory};
use ceal_base::no_memory::NoMemory;
use ceal_base::recorded::Record;
use ceal_base::text::Text;
use ceal_base::word::Word;
use std::alloc::Global;

fn put_inputs(out: &mut Text, blocks: &[BlockWords]) -> Result<(), NoMemory>
    ensures text { OnOk result (out.new ≡ out.old ++ inputs_text blocks.now) }
    ensures range { OnOk result (SmallBlocks blocks.now) }
{
    out.append(b"ceal-trace 1\ninputs ")?;
    out.append_number(blocks.len())?;
    out.append(b"\n")?;
    put_blocks(out, blocks)
}

fn put_call(out: &mut Text, function: u32, args: &[Word]) -> Result<(), NoMemory>
    ensures text { OnOk result (out.new ≡ out.old ++ call_text function args.now) }
    ensures range { OnOk result (Small function × SmallWords args.now) }
{
    out.append(b"run ")?;
    out.append_number(function as usize)?;
    put_words(out, args)?;
    out.append(b"\n")
}

fn put_trace(out: &mut Text, items: &[Item]) -> Result<(), NoMemory>
    ensures text { OnOk result (out.new ≡ out.old ++ trace_text items.now) }
    ensures range { OnOk result (SmallItems items.now) }
{
    out.append(b"trace ")?;
    out.append_number(items.len())?;
    out.append(b"\n")?;
    put_items(out, items)
}

fn put_memory(out: &mut Text, memory: &Memory) -> Result<(), NoMemory>
    ensures text { OnOk result
        (out.new ≡ out.old ++ memory_text memory.now.inputs memory.now.made) }
    ensures range { OnOk result (SmallBlocks memory.now.inputs × SmallBlocks memory.now.made) }
{
    let inputs = memory.inputs.items();
    let made = memory.items();
    out.append(b"memory ")?;
    out.append_number(inputs.len())?;
    out.append(b" ")?;
    out.append_number(made.len())?;
    out.append(b"\n")?;
    put_blocks(out, inputs)?;
    put_blocks(out, made)
}

/// Puts the text of a record at the end.
#[tactic(auto, unfolding(crate::specs::DumpText::dump_text))]
fn put_record(out: &mut Text, kept: &Record) -> Result<(), NoMemory>
    ensures text { OnOk result (out.new ≡ out.old ++ dump.dump_text kept.now) }
    ensures range { OnOk result (InRange kept.now) }
{
    put_inputs(out, kept.inputs.items())?;
    put_call(out, kept.function, kept.args.items())?;
    put_trace(out, kept.forest.items())?;
    put_memory(out, &kept.memory)?;
    out.append(b"end\n")
}

/// The text of a record, also of one that has no dump.
pub(crate) fn record_text(alloc: Global, kept: &Record) -> Result<Text, NoMemory>
    ensures text { IfOk result (λ text. text ≡ dump.dump_text kept.now) }
    ensures range { IfOk result (λ text. InRange kept.now) }
{
    let mut out = Text::empty(alloc);
    put_record(&mut out, kept)?;
    Ok(out)
}

/// The dump text of a record that has a dump; it is the dump of that record.
pub fn dump_text(alloc: Global, kept: &Record) -> Result<Text, NoMemory>
    requires has { HasDump kept.now }
    ensures text { IfOk result (λ text. text ≡ dump.dump_text kept.now) }
    ensures dump { IfOk result (λ text. IsDump text kept.now) }
{
    record_text(alloc, kept)
}
