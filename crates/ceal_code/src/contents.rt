// The contents of modifiables.

ghost use Rattle.std.specs.Prelude.{◌≡◌, ◌==◌, ◌-◌, ◌++◌, ◌+◌, length, replicate, Option, Some, get_or, if◌then◌else◌};
ghost use Rattle.std.specs.Prelude.{OnOk};
ghost use Rattle.ceal_base.specs.declared.word.Place.{Place as Cell};
ghost use Rattle.ceal_code.specs.Program.{Code as Parts};
ghost use Rattle.ceal_code.specs.Replay.{Store, bases, cell_default, content_in};
ghost use Rattle.ceal_code.specs.Tables.{unwritten, word_in};

use crate::code::Code;
use crate::evaluate::is_modifiable;
use ceal_base::kind::{FieldKind, Shape};
use ceal_base::memory::{BlockWords, Inputs};
use ceal_base::no_memory::NoMemory;
use ceal_base::shapes::field_kind;
use ceal_base::typed::StructInfo;
use ceal_base::word::{BlockId, Place, Word};
use std::alloc::Global;

/// The contents of one block: the fields that were written, and the shape, if the block was made since the beginning.
#[derive(Drop)]
pub struct Fields {
    shape: Option<Shape>,
    words: Vec<Option<Word>>,
}

/// What a place starts as; where there is no modifiable it is 0.
fn cell_default_word(kind: Option<FieldKind>) -> Word
    ensures { result ≡ cell_default kind }
{
    match kind {
        None => Word::Num(0),
        Some(FieldKind::Plain(_)) => Word::Num(0),
        Some(FieldKind::CellInt) => Word::Num(0),
        Some(FieldKind::CellPtr(_)) => Word::Null,
    }
}

fn block_content(structs: &[StructInfo], block: &BlockWords, field: u32) -> Word
    ensures { result ≡ content_in structs.now (Some block.now) field }
{
    let kind = field_kind(structs, block.shape, field);
    if is_modifiable(kind) {
        match block.items().get(field as usize) {
            None => cell_default_word(kind),
            Some(word) => *word,
        }
    } else {
        Word::Num(0)
    }
}

/// The base of a place.
#[tactic(auto, unfolding(crate::specs::Replay::bases))]
pub fn base(code: &Code, inputs: &Inputs, place: Place) -> Word
    ensures base { result ≡ bases code.now inputs.now place }
{
    match place.block {
        BlockId::Core(_) => Word::Num(0),
        BlockId::Input(n) => match inputs.items().get(n as usize) {
            None => Word::Num(0),
            Some(block) => block_content(code.structs.items(), block, place.field),
        },
    }
}

/// Adds places without a word up to this length.
fn fill_words(words: &mut Vec<Option<Word>>, count: usize) -> Result<(), NoMemory>
    ensures { OnOk result
        (words.new.items ≡ words.old.items
        ++ replicate (count - length words.old.items) Option.None) }
{
    if words.len() < count {
        words.resize(count, None)?;
    }
    Ok(())
}

fn written_word(words: &[Option<Word>], field: u32) -> Option<Word>
    ensures { result ≡ get_or words.now field Option.None }
{
    match words.get(field as usize) {
        None => None,
        Some(word) => *word,
    }
}

impl Fields {
    /// None was written; the shape is that of a block that was made.
    pub fn new(alloc: Global, shape: Option<Shape>) -> Fields
        ensures word { (code : Parts) (s : Store) (p : Cell) →
            word_in code s (Some result) p ≡ unwritten code s shape p }
    {
        Fields {
            shape,
            words: Vec::new(alloc),
        }
    }

    /// Gives a field another content.
    pub fn set(&mut self, field: u32, value: Word) -> Result<(), NoMemory>
        ensures word { OnOk result ((code : Parts) (s : Store) (p : Cell) →
            word_in code s (Some self.new) p
            ≡ (if p.field == field then value else word_in code s (Some self.old) p)) }
    {
        let at = field as usize;
        fill_words(&mut self.words, at + 1)?;
        self.words[at] = Some(value);
        Ok(())
    }

    /// The content of a field, where these inputs have the bases.
    pub fn word(&self, code: &Code, inputs: &Inputs, place: Place) -> Word
        ensures word { result ≡ word_in code.now (bases code.now inputs.now) (Some self.now) place }
    {
        match written_word(self.words.as_slice(), place.field) {
            Some(word) => word,
            None => match self.shape {
                Some(shape) => {
                    cell_default_word(field_kind(code.structs.items(), shape, place.field))
                }
                None => base(code, inputs, place),
            },
        }
    }
}
