// Whether items mention only known blocks, and allocate each block once.

ghost use Rattle.std.specs.Prelude.{◌≡◌, true, is_some, IfOk, OnOk};
ghost use Rattle.ceal_code.specs.Tables.{code_in, plain_in, store_in, plain_flat};
ghost use Rattle.ceal_traceck.specs.Items as items;
ghost use Rattle.ceal_traceck.specs.Items.{all_named};

use ceal_base::forest::{Item, Key};
use ceal_base::no_memory::NoMemory;
use ceal_base::word::{BlockId, Word};
use ceal_code::plain_words::PlainWords;
use ceal_code::trace_memory::TraceMemory;
use std::slice;

fn is_known(memory: &TraceMemory<'_>, block: BlockId) -> bool
    ensures { result ≡ is_some (plain_in memory.now block) }
{
    memory.shape(block).is_some()
}

fn word_known(memory: &TraceMemory<'_>, word: Word) -> bool
    ensures { result ≡ items.word_known (plain_in memory.now) word }
{
    match word {
        Word::Num(_) => true,
        Word::Null => true,
        Word::Block(block) => is_known(memory, block),
        Word::At(place) => is_known(memory, place.block),
    }
}

fn words_known(memory: &TraceMemory<'_>, words: &[Word]) -> bool
    ensures { result ≡ items.words_known (plain_in memory.now) words.now }
{
    let mut words = words;
    while let Some((word, more)) = words.split_first() {
        if !word_known(memory, *word) {
            return false;
        }
        words = more;
    }
    true
}

fn key_known(memory: &TraceMemory<'_>, key: &Key) -> bool
    ensures { result ≡ items.key_known (plain_in memory.now) key.now }
{
    match key {
        Key::Init { args, .. } => words_known(memory, args.items()),
        Key::ModInt => true,
        Key::ModPtr(_) => true,
    }
}

fn is_new(memory: &TraceMemory<'_>, block: BlockId) -> bool
    ensures { result ≡ items.is_new (plain_in memory.now) block }
{
    match block {
        BlockId::Core(_) => !is_known(memory, block),
        BlockId::Input(_) => false,
    }
}

/// Whether the item mentions only known blocks, and allocates a new one, if any.
fn names_known(memory: &TraceMemory<'_>, item: &Item) -> bool
    ensures { result ≡ items.names_known (plain_in memory.now) item.now }
{
    match item {
        Item::Step => true,
        Item::Alloc { block, key } => key_known(memory, key) && is_new(memory, *block),
        Item::Write { place, value } => {
            is_known(memory, place.block) && word_known(memory, *value)
        }
        Item::Read {
            place,
            value,
            args,
            ..
        } => {
            is_known(memory, place.block)
                && word_known(memory, *value)
                && words_known(memory, args.items())
        }
        Item::End => true,
    }
}

/// Learns the blocks that the items allocate, unless one mentions a block before it is allocated, or allocates one that
/// is known already.
#[tactic(auto, using(crate::proofs::ItemSteps::named_steps))]
pub fn learn_named(memory: &mut TraceMemory<'_>, items: &[Item]) -> Result<bool, NoMemory>
    ensures answer { IfOk result
        (λ named. named ≡ all_named (code_in memory.old) (plain_in memory.old) items.now) }
    ensures code { OnOk result (code_in memory.new ≡ code_in memory.old) }
    ensures plain { IfOk result (λ named. named ≡ true →
        plain_in memory.new ≡ plain_flat (code_in memory.old) (plain_in memory.old) items.now) }
    ensures store { OnOk result (store_in memory.new ≡ store_in memory.old) }
{
    let mut items = items;
    while let Some((item, more)) = items.split_first() {
        if !names_known(memory, item) {
            return Ok(false);
        }
        memory.learn_items(slice::from_ref(item))?;
        items = more;
    }
    Ok(true)
}
