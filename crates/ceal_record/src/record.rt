// The record of a trace.

ghost use Rattle.std.specs.Prelude.{◌≡◌, IfOk};
ghost use Rattle.ceal_base.specs.Trace.{Trace, flat};
ghost use Rattle.ceal_record.specs.Recorded.{IsRecordOf, IsTraceOf};

use crate::memory::memory_after;
use crate::numbers::Numbers;
use ceal_base::forest::Item;
use ceal_base::memory::Inputs;
use ceal_base::no_memory::NoMemory;
use ceal_base::recorded::Record;
use ceal_base::word::Word;
use ceal_base::words::Words;
use ceal_code::code::Code;
use ceal_theory::names::{renamed_items_law, renaming_law};
use std::alloc::Global;

/// The record of a call on these inputs that left these items: its core blocks have the numbers 0, 1 and so on, in the
/// order of their allocations.
pub fn record(
    alloc: Global,
    code: &Code,
    inputs: &Inputs,
    function: u32,
    args: &[Word],
    items: &[Item],
) -> Result<Record, NoMemory>
    ensures { IfOk result (λ r. (l : Trace) → items.now ≡ flat l →
        IsTraceOf code.now inputs.now (record { function = function; args = args.now }) l →
        IsRecordOf code.now inputs.now (record { function = function; args = args.now }) l r) }
{
    // for the proof: a trace with other numbers of its core blocks replays the same call
    renaming_law();
    renamed_items_law();
    let forest = Numbers::new(alloc, items)?.forest(items)?;
    let memory = memory_after(alloc, code, inputs, forest.items())?;
    let args = Words::from_slice(alloc, args)?;
    Ok(Record {
        inputs: inputs.copy()?,
        function,
        args,
        forest,
        memory,
    })
}
