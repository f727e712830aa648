// The check of a record.

ghost use Rattle.std.specs.Prelude.{◌≡◌, true, IfOk};
ghost use Rattle.ceal_code.specs.Valid.{valid};
ghost use Rattle.ceal_traceck.specs.Verdicts.{CallFits, Means};

use crate::call::call_fits;
use crate::honesty::store_honest;
use crate::memory::is_remembered;
use crate::names::learn_named;
use crate::replay::are_replayed;
use crate::verdict::Verdict;
use ceal_base::no_memory::NoMemory;
use ceal_base::recorded::Record;
use ceal_code::code::Code;
use ceal_code::trace_memory::TraceMemory;
use std::alloc::Global;

/// What is wrong with a record whose call fits, if anything is.
fn check_items(alloc: Global, code: &Code, kept: &Record) -> Result<Verdict, NoMemory>
    requires { CallFits code.now kept.now }
    ensures { IfOk result (λ v. Means code.now kept.now v) }
{
    let items = kept.forest.items();
    let mut memory = TraceMemory::new(alloc, code, &kept.inputs);
    if !learn_named(&mut memory, items)? {
        return Ok(Verdict::NotReplay);
    }
    if !are_replayed(alloc, &memory, kept.function, kept.args.items(), items)? {
        return Ok(Verdict::NotReplay);
    }
    if !store_honest(&mut memory, items)? {
        return Ok(Verdict::NotHonest);
    }
    if is_remembered(&memory, kept.inputs.items().len(), items, &kept.memory)? {
        Ok(Verdict::Yes)
    } else {
        Ok(Verdict::MemoryDiffers)
    }
}

/// Checks a record against valid code. It goes through the items a fixed number of times, and keeps a table of the
/// blocks that they allocate; the record may be any, from any maker. A yes says how the run from scratch of the
/// recorded call ends (`laws::sound_law`). The check of a trace by its replay is that of self-adjusting computation's
/// consistency (Acar, *Self-Adjusting Computation*, 2005); a checker of records apart from their maker is our own.
pub fn check_trace(alloc: Global, code: &Code, kept: &Record) -> Result<Verdict, NoMemory>
    requires valid { valid code.now ≡ true }
    ensures verdict { IfOk result (λ v. Means code.now kept.now v) }
{
    if call_fits(code, kept) {
        check_items(alloc, code, kept)
    } else {
        Ok(Verdict::NoFit)
    }
}
