// Whether each read records the content that its place has.

ghost use Rattle.std.specs.Prelude.{◌≡◌, true, IfOk, OnOk};
ghost use Rattle.ceal_code.specs.Tables.{code_in, plain_in, store_in, store_flat};
ghost use Rattle.ceal_traceck.specs.Items as items;
ghost use Rattle.ceal_traceck.specs.Items.{all_honest};

use ceal_base::forest::Item;
use ceal_base::no_memory::NoMemory;
use ceal_code::trace_memory::TraceMemory;
use std::slice;

/// Whether the item, if it is a read, records the content of its place.
fn records(memory: &TraceMemory<'_>, item: &Item) -> bool
    ensures { result ≡ items.records (store_in memory.now) item.now }
{
    match item {
        Item::Step => true,
        Item::Alloc { .. } => true,
        Item::Write { .. } => true,
        Item::Read { place, value, .. } => memory.value(*place) == *value,
        Item::End => true,
    }
}

/// Changes the store as the items do, unless a read records another content than its place has at that moment.
#[tactic(auto, using(crate::proofs::ItemSteps::honest_steps))]
pub fn store_honest(memory: &mut TraceMemory<'_>, items: &[Item]) -> Result<bool, NoMemory>
    ensures answer { IfOk result
        (λ honest. honest ≡ all_honest (code_in memory.old) (store_in memory.old) items.now) }
    ensures code { OnOk result (code_in memory.new ≡ code_in memory.old) }
    ensures plain { OnOk result (plain_in memory.new ≡ plain_in memory.old) }
    ensures store { IfOk result (λ honest. honest ≡ true →
        store_in memory.new ≡ store_flat (code_in memory.old) (store_in memory.old) items.now) }
{
    let mut items = items;
    while let Some((item, more)) = items.split_first() {
        if !records(memory, item) {
            return Ok(false);
        }
        memory.store_items(slice::from_ref(item))?;
        items = more;
    }
    Ok(true)
}
