// Whether a record has a dump.

ghost use Rattle.std.specs.Prelude.{◌≡◌, ◌<◌, ◌^◌, ◌↔◌, IsTrue};
ghost use Rattle.ceal_dump.specs.DumpText as dump;
ghost use Rattle.ceal_dump.specs.DumpText.{closed, all_core, HasDump, HasRoom};

use ceal_base::forest::Item;
use ceal_base::recorded::Record;
use ceal_base::word::BlockId;

fn is_core(block: BlockId) -> bool
    ensures { result ≡ dump.is_core block }
{
    match block {
        BlockId::Core(_) => true,
        BlockId::Input(_) => false,
    }
}

/// Whether each allocation is of a core block.
#[tactic(auto, using(crate::proofs::Steps::core_steps))]
fn are_all_core(items: &[Item]) -> bool
    ensures { result ≡ all_core items.now }
{
    let mut items = items;
    while let Some((item, more)) = items.split_first() {
        if let Item::Alloc { block, .. } = item {
            if !is_core(*block) {
                return false;
            }
        }
        items = more;
    }
    true
}

/// Whether each read has its end, and there is no other end.
#[tactic(auto, using(crate::proofs::Steps::closed_steps))]
fn are_closed(items: &[Item]) -> bool
    ensures { result ≡ closed 0 items.now }
{
    let mut items = items;
    let mut open: usize = 0;
    while let Some((item, more)) = items.split_first() {
        match item {
            Item::Read { .. } => open += 1,
            Item::End => {
                if open == 0 {
                    return false;
                }
                open -= 1;
            }
            Item::Step => {}
            Item::Alloc { .. } => {}
            Item::Write { .. } => {}
        }
        items = more;
    }
    open == 0
}

fn is_count(n: usize) -> bool
    ensures { IsTrue result ↔ (n < 2 ^ 32) }
{
    n < 1 << 32
}

/// Whether the counts of the record have room in 32 bits.
pub fn has_room(kept: &Record) -> bool
    ensures value { IsTrue result ↔ HasRoom kept.now }
{
    is_count(kept.inputs.items().len())
        && is_count(kept.forest.items().len())
        && is_count(kept.memory.inputs.items().len())
        && is_count(kept.memory.items().len())
}

/// Whether the record has a dump: its counts have room in 32 bits, each allocation is of a core block, and each read
/// has its end.
pub fn has_dump(kept: &Record) -> bool
    ensures value { IsTrue result ↔ HasDump kept.now }
{
    is_count(kept.inputs.items().len())
        && is_count(kept.forest.items().len())
        && is_count(kept.memory.inputs.items().len())
        && is_count(kept.memory.items().len())
        && are_all_core(kept.forest.items())
        && are_closed(kept.forest.items())
}
