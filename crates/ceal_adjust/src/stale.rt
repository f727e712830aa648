// The first read of a trace whose value is not the content of its place any more.

ghost use Rattle.std.specs.Prelude.{◌≡◌, ⊤, MatchOption, IfOk, OnOk};
ghost use Rattle.ceal_base.specs.declared.word.Word.{Word as AnyWord};
ghost use Rattle.ceal_base.specs.declared.forest.Item.TheVariants.{Read as ReadItem};
ghost use Rattle.ceal_code.specs.Tables.{code_in, plain_in, store_in};
ghost use Rattle.ceal_theory.specs.Walk.{store_after, AgreesAll, Agrees};
ghost use Rattle.ceal_adjust.specs.Slicing.{IsStale};

use ceal_base::forest::Item;
use ceal_base::no_memory::NoMemory;
use ceal_base::word::Word;
use ceal_code::stack::Closure;
use ceal_code::trace_memory::TraceMemory;
use std::slice;

/// A stale read: its closure, the content of its place, and the items before and after it.
#[derive(Drop)]
pub struct Stale<'a> {
    pub front: &'a [Item],
    pub closure: Closure,
    pub content: Word,
    pub after: &'a [Item],
}

/// The closure of the item, if it is a read whose value is not the content of its place.
fn stale_closure(memory: &TraceMemory<'_>, item: &Item) -> Result<Option<Closure>, NoMemory>
    ensures { IfOk result (λ o. MatchOption o (Agrees (store_in memory.now) item.now)
        (λ c. (value : AnyWord) × (item.now ≡ ReadItem c.place value c.unit c.var c.args)
        × (store_in memory.now c.place ≡ value → ⊥))) }
{
    match item {
        Item::Read {
            place,
            value,
            unit,
            var,
            args,
        } => {
            if memory.value(*place) == *value {
                return Ok(None);
            }
            Ok(Some(Closure {
                place: *place,
                unit: *unit,
                var: *var,
                args: args.copy()?,
            }))
        }
        Item::Step => Ok(None),
        Item::Alloc { .. } => Ok(None),
        Item::Write { .. } => Ok(None),
        Item::End => Ok(None),
    }
}

/// The first stale read, if there is one; the memory is then as the items before it leave it.
pub fn first_stale<'a>(
    memory: &mut TraceMemory<'_>,
    items: &'a [Item],
) -> Result<Option<Stale<'a>>, NoMemory>
    ensures code { OnOk result (code_in memory.new ≡ code_in memory.old) }
    ensures plain { OnOk result (plain_in memory.new ≡ plain_in memory.old) }
    ensures stale { IfOk result (λ o. MatchOption o
        (AgreesAll (code_in memory.old) (store_in memory.old) items.now)
        (λ x. IsStale (code_in memory.old) (store_in memory.old) items.now x)) }
    ensures store { IfOk result (λ o. MatchOption o ⊤ (λ x. store_in memory.new
        ≡ store_after (code_in memory.old) (store_in memory.old) x.front.now)) }
{
    let mut at = 0;
    for item in items {
        if let Some(closure) = stale_closure(memory, item)? {
            let content = memory.value(closure.place);
            return Ok(Some(Stale {
                front: &items[..at],
                closure,
                content,
                after: &items[at + 1..],
            }));
        }
        memory.store_items(slice::from_ref(item))?;
        at += 1;
    }
    Ok(None)
}
