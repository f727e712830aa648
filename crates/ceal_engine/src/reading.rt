// What is read of a run.

ghost use Rattle.std.specs.Prelude.{◌≡◌, slice_get, unwrap_or, IfSome};
ghost use Rattle.ceal_code.specs.PlainWords.{block_shape, block_word};
ghost use Rattle.ceal_engine.specs.Keeping.{running_in};
ghost use Rattle.ceal_engine.specs.Reading.{content_at, known_block};
ghost use Rattle.ceal_repair.specs.Kept.{Kept};

use crate::run::Run;
use ceal_base::kind::Shape;
use ceal_base::memory::Inputs;
use ceal_base::word::{BlockId, Place, Word};

/// The word of an input's field.
fn input_word(inputs: &Inputs, n: u32, field: u32) -> Option<Word>
    ensures { result ≡ block_word (slice_get inputs.now n) field }
{
    match inputs.items().get(n as usize) {
        None => None,
        Some(block) => block.items().get(field as usize).copied(),
    }
}

/// The shape of an input.
fn input_shape(inputs: &Inputs, n: u32) -> Option<Shape>
    ensures { result ≡ block_shape (slice_get inputs.now n) }
{
    match inputs.items().get(n as usize) {
        None => None,
        Some(block) => Some(block.shape),
    }
}

/// The word of a field of an input, with its base, or of a core block of the run, with the default of a modifiable.
fn word(run: &Run, inputs: &Inputs, block: BlockId, field: u32) -> Option<Word>
    ensures { result ≡ block_word (known_block (running_in run.now) inputs.now block) field }
{
    match block {
        BlockId::Input(n) => input_word(inputs, n, field),
        BlockId::Core(_) => match run {
            Run::New => None,
            Run::Kept(run, _) => run.heap.find_word(block, field),
            Run::Dropped => None,
        },
    }
}

/// The shape of an input or of a core block of the run.
pub fn shape(run: &Run, inputs: &Inputs, block: BlockId) -> Option<Shape>
    ensures { result ≡ block_shape (known_block (running_in run.now) inputs.now block) }
{
    match block {
        BlockId::Input(n) => input_shape(inputs, n),
        BlockId::Core(_) => match run {
            Run::New => None,
            Run::Kept(run, _) => run.heap.find_shape(block),
            Run::Dropped => None,
        },
    }
}

/// The word of a plain field of an input or of a core block of the run.
pub fn plain_word(run: &Run, inputs: &Inputs, block: BlockId, field: u32) -> Word
    ensures { result ≡ unwrap_or
        (block_word (known_block (running_in run.now) inputs.now block) field) Word.Null }
{
    word(run, inputs, block, field).unwrap_or(Word::Null)
}

/// The content of a modifiable at the end of the run.
pub fn content(run: &Run, inputs: &Inputs, place: Place) -> Word
    requires kept { IfSome (running_in run.now) (λ r. Kept r.tables) }
    ensures { result ≡ content_at (running_in run.now) inputs.now place }
{
    match word(run, inputs, place.block, place.field) {
        None => Word::Null,
        Some(word) => match run {
            Run::New => word,
            Run::Kept(run, _) => run.tables.last_value(place),
            Run::Dropped => word,
        },
    }
}
