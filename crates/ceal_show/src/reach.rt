// The blocks that the root reaches, breadth first.

ghost use Rattle.std.specs.Prelude.{◌≡◌, IsSome, IfOk, length};
ghost use Rattle.ceal_base.specs.Shapes.{kinds_of_shape};
ghost use Rattle.ceal_show.specs.Paths.{AreReached};
ghost use Rattle.ceal_show.specs.Search.{with_target as target_met, with_targets as targets_met, AreClosed};
ghost use Rattle.ceal_show.specs.Shown.{IsWhole, words_at, target as target_block};

use crate::met::Met;
use crate::view::View;
use ceal_base::kind::Shape;
use ceal_base::no_memory::NoMemory;
use ceal_base::typed::StructInfo;
use ceal_base::word::{BlockId, Word};
use std::alloc::Global;

/// The number of fields of a shape. More than a `u32` can count are too many for any memory.
pub fn field_count(structs: &[StructInfo], shape: Shape) -> Result<u32, NoMemory>
    ensures { IfOk result (λ count. count ≡ length (kinds_of_shape structs.now shape)) }
{
    match shape {
        Shape::ModInt | Shape::ModPtr(_) => Ok(1),
        Shape::Struct(s) => match structs.get(s as usize) {
            None => Ok(0),
            Some(found) => match u32::try_from(found.fields.items().len()) {
                Ok(count) => Ok(count),
                Err(_) => Err(NoMemory),
            },
        },
    }
}

/// The block that a word points to, or that has the modifiable to which it points.
fn target(word: Word) -> Option<BlockId>
    ensures { result ≡ target_block word }
{
    match word {
        Word::Num(_) | Word::Null => None,
        Word::Block(block) => Some(block),
        Word::At(place) => Some(place.block),
    }
}

/// With the block to which a word leads.
fn with_target(met: Met, word: Word) -> Result<Met, NoMemory>
    ensures { IfOk result (λ next. next ≡ target_met met (target_block word)) }
{
    match target(word) {
        Some(block) => met.with(block),
        None => Ok(met),
    }
}

/// With the blocks to which the fields of a block lead.
fn with_targets<V: View>(view: &V, met: Met, block: BlockId) -> Result<Met, NoMemory>
    requires whole { IsWhole (V.declared view.now) (V.memory view.now) }
    requires there { IsSome (V.memory view.now block) }
    ensures { IfOk result (λ next. next ≡ targets_met met (words_at (V.memory view.now) block)) }
{
    let count = field_count(view.structs().items(), view.shape(block))?;
    let mut met = met;
    for field in 0..count {
        met = with_target(met, view.word(block, field))?;
    }
    Ok(met)
}

/// The blocks that the root reaches, in the order of their paths.
pub fn reach<V: View>(alloc: Global, view: &V, root: BlockId) -> Result<Met, NoMemory>
    requires whole { IsWhole (V.declared view.now) (V.memory view.now) }
    requires there { IsSome (V.memory view.now root) }
    ensures reached { IfOk result (λ met. AreReached (V.memory view.now) root met) }
    ensures closed { IfOk result (λ met. AreClosed (V.memory view.now) met) }
{
    let mut met = Met::new(alloc).with(root)?;
    let mut at = 0;
    while at < met.len() {
        let block = met.block(at);
        met = with_targets(view, met, block)?;
        at += 1;
    }
    Ok(met)
}
