// The plain words of a run.

ghost use Rattle.std.specs.Prelude.{◌≡◌, Option, slice_get};
ghost use Rattle.std.specs.Option.{option_map};
ghost use Rattle.ceal_base.specs.Shapes.{kinds_of_shape};
ghost use Rattle.ceal_code.specs.PlainWords.{block_shape, block_word};
ghost use Rattle.ceal_code.specs.Replay.{input_plain};
ghost use Rattle.ceal_code.specs.Tables.{plain_field_word};
ghost use Rattle.ceal_repair.specs.Words.{words_of};

use ceal_base::kind::{FieldKind, Shape};
use ceal_base::memory::{BlockWords, Inputs};
use ceal_base::shapes::field_kind;
use ceal_base::word::{BlockId, Word};
use ceal_code::code::Code;
use ceal_code::plain_words::PlainWords;
use ceal_heap::heap::Heap;

/// The plain words of the inputs and of the core blocks of a heap, live and revoked. They are read where they lie.
#[derive(Drop)]
pub struct RunWords<'a> {
    pub code: &'a Code,
    pub inputs: &'a Inputs,
    pub heap: &'a Heap,
}

/// The plain word of a field: a default in place of the content of a modifiable.
fn plain_word(kind: Option<FieldKind>, word: Word) -> Word
    ensures { result ≡ plain_field_word kind word }
{
    match kind {
        None => word,
        Some(FieldKind::Plain(_)) => word,
        Some(FieldKind::CellInt) => Word::Num(0),
        Some(FieldKind::CellPtr(_)) => Word::Null,
    }
}

/// The plain word of a block's field.
fn plain_word_in(code: &Code, block: &BlockWords, field: u32) -> Option<Word>
    ensures { result ≡ option_map
        (plain_field_word (slice_get (kinds_of_shape code.now.structs block.now.shape) field))
        (slice_get block.now.words field) }
{
    match block.items().get(field as usize) {
        None => None,
        Some(word) => {
            let kind = field_kind(code.structs.items(), block.shape, field);
            Some(plain_word(kind, *word))
        }
    }
}

fn input_at(inputs: &Inputs, n: u32) -> Option<&BlockWords>
    ensures { option_map (λ b. b.now) result ≡ slice_get inputs.now n }
{
    inputs.items().get(n as usize)
}

/// The shape of an input.
#[tactic(auto, unfolding(ceal_code::specs::Replay::input_plain))]
fn input_shape(code: &Code, inputs: &Inputs, block: BlockId) -> Option<Shape>
    ensures { result ≡ block_shape (input_plain code.now inputs.now block) }
{
    match block {
        BlockId::Core(_) => None,
        BlockId::Input(n) => match inputs.items().get(n as usize) {
            None => None,
            Some(found) => Some(found.shape),
        },
    }
}

/// The plain word of an input's field.
#[tactic(auto, using(ceal_code::proofs::Equations::TableSteps::input_steps), unfolding(ceal_code::specs::Replay::input_plain))]
fn input_word(code: &Code, inputs: &Inputs, block: BlockId, field: u32) -> Option<Word>
    ensures { result ≡ block_word (input_plain code.now inputs.now block) field }
{
    match block {
        BlockId::Core(_) => None,
        BlockId::Input(n) => match input_at(inputs, n) {
            None => None,
            Some(found) => plain_word_in(code, found, field),
        },
    }
}

impl<'a> PlainWords for RunWords<'a> {
    ghost plain = { λ words. words_of words.code.now words.inputs.now words.heap.now };

    #[tactic(auto, unfolding(crate::specs::Words::words_of, ceal_theory::specs::Slices::with_inputs))]
    fn shape(&self, block: BlockId) -> Option<Shape> {
        match block {
            BlockId::Input(_) => input_shape(self.code, self.inputs, block),
            BlockId::Core(_) => self.heap.find_shape(block),
        }
    }

    #[tactic(auto, unfolding(crate::specs::Words::words_of, ceal_theory::specs::Slices::with_inputs))]
    fn word(&self, block: BlockId, field: u32) -> Option<Word> {
        match block {
            BlockId::Input(_) => input_word(self.code, self.inputs, block, field),
            BlockId::Core(_) => self.heap.find_word(block, field),
        }
    }
}
