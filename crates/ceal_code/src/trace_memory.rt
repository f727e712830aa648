// The memory that a trace leaves, item by item.

ghost use Rattle.std.specs.Prelude.{◌≡◌, ◌==◌, false, Some, slice_get, unwrap_or, if◌then◌else◌, IfOk, OnOk};
ghost use Rattle.std.specs.BTreeMap.{get};
ghost use Rattle.std.specs.Option.{option_map};
ghost use Rattle.std.specs.Ordering.{is_eq};
ghost use Rattle.ceal_base.specs.Shapes.{kinds_of_shape};
ghost use Rattle.ceal_base.specs.contracts.word.BlockIdOrd.TheImpl.{ghosts};
ghost use Rattle.ceal_base.specs.Trace.{Trace, flat};
ghost use Rattle.ceal_base.specs.declared.word.BlockId.{BlockId as Number};
ghost use Rattle.ceal_base.specs.declared.word.Place.{Place as Cell};
ghost use Rattle.ceal_code.specs.After.{store_after, memory_after};
ghost use Rattle.ceal_code.specs.Init.{made};
ghost use Rattle.ceal_code.specs.PlainWords.{block_shape, block_word};
ghost use Rattle.ceal_code.specs.Program.{Code as Parts};
ghost use Rattle.ceal_code.specs.Replay.{Store, learnt, input_plain, plain_of, bases, cleared, stored};
ghost use Rattle.ceal_code.specs.Tables.{code_in, inputs_in, plain_in, store_in, word_in, memory_in, plain_item};
ghost use Rattle.ceal_code.specs.Tables.{plain_flat, store_item, store_flat, defaulted, plain_field_word};

use crate::code::Code;
use crate::contents::{Fields, base};
use crate::evaluate::is_modifiable;
use crate::initialise::{made_shape, make_block};
use crate::plain_words::PlainWords;
use ceal_base::forest::{Item, Key};
use ceal_base::kind::{FieldKind, Shape};
use ceal_base::memory::{BlockWords, Inputs};
use ceal_base::no_memory::NoMemory;
use ceal_base::shapes::field_kind;
use ceal_base::word::{BlockId, Place, Word};
use std::alloc::Global;
use std::collections::BTreeMap;

/// The memory of a trace that is walked: the plain words of the inputs and of the blocks that are known, and the
/// contents of modifiables, over the bases of the inputs. The words of the inputs are read where they lie.
#[derive(Drop)]
pub struct TraceMemory<'a> {
    alloc: Global,
    code: &'a Code,
    inputs: &'a Inputs,
    made: BTreeMap<BlockId, BlockWords>,
    contents: BTreeMap<BlockId, Fields>,
}

/// The plain word of a field: a default in place of the content of a modifiable.
fn plain_word(kind: Option<FieldKind>, word: Word) -> Word
    ensures { result ≡ plain_field_word kind word }
{
    match kind {
        None => word,
        Some(FieldKind::Plain(_)) => word,
        Some(FieldKind::CellInt) => Word::Num(0),
        Some(FieldKind::CellPtr(_)) => Word::Null,
    }
}

/// The shape of an input.
#[tactic(auto, unfolding(crate::specs::Replay::input_plain))]
fn input_shape(code: &Code, inputs: &Inputs, block: BlockId) -> Option<Shape>
    ensures { result ≡ block_shape (input_plain code.now inputs.now block) }
{
    match block {
        BlockId::Core(_) => None,
        BlockId::Input(n) => match inputs.items().get(n as usize) {
            None => None,
            Some(found) => Some(found.shape),
        },
    }
}

/// The plain word of a block's field.
fn plain_word_in(code: &Code, block: &BlockWords, field: u32) -> Option<Word>
    ensures { result ≡ option_map
        (plain_field_word (slice_get (kinds_of_shape code.now.structs block.now.shape) field))
        (slice_get block.now.words field) }
{
    match block.items().get(field as usize) {
        None => None,
        Some(word) => {
            let kind = field_kind(code.structs.items(), block.shape, field);
            Some(plain_word(kind, *word))
        }
    }
}

fn input_at(inputs: &Inputs, n: u32) -> Option<&BlockWords>
    ensures { option_map (λ b. b.now) result ≡ slice_get inputs.now n }
{
    inputs.items().get(n as usize)
}

/// The plain word of an input's field.
#[tactic(auto, using(crate::proofs::Equations::TableSteps::input_steps), unfolding(crate::specs::Replay::input_plain))]
fn input_word(code: &Code, inputs: &Inputs, block: BlockId, field: u32) -> Option<Word>
    ensures { result ≡ block_word (input_plain code.now inputs.now block) field }
{
    match block {
        BlockId::Core(_) => None,
        BlockId::Input(n) => match input_at(inputs, n) {
            None => None,
            Some(found) => plain_word_in(code, found, field),
        },
    }
}

/// Gives a place another content; of a block of which nothing was written the fields are those given.
fn put_word(
    contents: &mut BTreeMap<BlockId, Fields>,
    unwritten: Fields,
    place: Place,
    value: Word,
) -> Result<(), NoMemory>
    ensures here { OnOk result ((code : Parts) (s : Store) (p : Cell) →
        word_in code s (get ghosts.cmp contents.new place.block) p
        ≡ (if p.field == place.field then value
        else word_in code s
        (Some (unwrap_or (get ghosts.cmp contents.old place.block) unwritten)) p)) }
    ensures others { OnOk result ((b : Number) → is_eq (ghosts.cmp place.block b) ≡ false →
        get ghosts.cmp contents.new b ≡ get ghosts.cmp contents.old b) }
{
    let fields = contents.entry(place.block)?.or_insert(unwritten);
    fields.set(place.field, value)?;
    Ok(())
}

impl<'a> PlainWords for TraceMemory<'a> {
    ghost use Rattle.ceal_code.specs.Tables.{plain_in};

    ghost plain = { plain_in };

    #[tactic(auto, unfolding(crate::specs::Tables::plain_in))]
    fn shape(&self, block: BlockId) -> Option<Shape> {
        match self.made.get(&block) {
            Some(found) => Some(found.shape),
            None => input_shape(self.code, self.inputs, block),
        }
    }

    #[tactic(auto, unfolding(crate::specs::Tables::plain_in))]
    fn word(&self, block: BlockId, field: u32) -> Option<Word> {
        match self.made.get(&block) {
            Some(found) => found.items().get(field as usize).copied(),
            None => input_word(self.code, self.inputs, block, field),
        }
    }
}

impl<'a> TraceMemory<'a> {
    /// The memory of the beginning: the inputs with their bases.
    pub fn new(alloc: Global, code: &'a Code, inputs: &'a Inputs) -> TraceMemory<'a>
        ensures code { code_in result ≡ code.now }
        ensures inputs { inputs_in result ≡ inputs.now }
        ensures plain { plain_in result ≡ input_plain code.now inputs.now }
        ensures store { store_in result ≡ bases code.now inputs.now }
    {
        TraceMemory {
            alloc,
            code,
            inputs,
            made: BTreeMap::new(alloc),
            contents: BTreeMap::new(alloc),
        }
    }

    /// The code whose structs give the shapes.
    pub fn code(&self) -> &'a Code
        ensures value { result.now ≡ code_in self.now }
    {
        self.code
    }

    /// The content of a place.
    #[tactic(auto, unfolding(crate::specs::Tables::store_in))]
    pub fn value(&self, place: Place) -> Word
        ensures value { result ≡ store_in self.now place }
    {
        match self.contents.get(&place.block) {
            None => base(self.code, self.inputs, place),
            Some(fields) => fields.word(self.code, self.inputs, place),
        }
    }

    /// The word of a block's field, with the content of a modifiable.
    #[tactic(auto, using(crate::proofs::Equations::TableSteps::after_steps))]
    pub fn word_after(&self, block: BlockId, field: u32) -> Option<Word>
        ensures value { result ≡ block_word (memory_in self.now block) field }
    {
        let code = self.code;
        match self.shape(block) {
            None => None,
            Some(shape) => match self.word(block, field) {
                None => None,
                Some(word) => {
                    if is_modifiable(field_kind(code.structs.items(), shape, field)) {
                        Some(self.value(Place { block, field }))
                    } else {
                        Some(word)
                    }
                }
            },
        }
    }

    /// Gives a place another content.
    pub fn put(&mut self, place: Place, value: Word) -> Result<(), NoMemory>
        ensures code { OnOk result (code_in self.new ≡ code_in self.old) }
        ensures plain { OnOk result (plain_in self.new ≡ plain_in self.old) }
        ensures store { OnOk result (store_in self.new ≡ stored (store_in self.old) place value) }
    {
        let unwritten = Fields::new(self.alloc, None);
        put_word(&mut self.contents, unwritten, place, value)?;
        Ok(())
    }

    /// Puts the modifiables of the block that is made for a key at their defaults.
    pub fn clear(&mut self, id: BlockId, key: &Key) -> Result<(), NoMemory>
        ensures code { OnOk result (code_in self.new ≡ code_in self.old) }
        ensures plain { OnOk result (plain_in self.new ≡ plain_in self.old) }
        ensures store { OnOk result
            (store_in self.new ≡ cleared (code_in self.old) (store_in self.old) id key.now) }
    {
        let shape = made_shape(self.code, key);
        self.contents
            .insert(id, Fields::new(self.alloc, Some(shape)))?;
        Ok(())
    }

    /// Learns the plain words of the block that is made for a key.
    pub fn learn(&mut self, id: BlockId, key: &Key) -> Result<(), NoMemory>
        ensures code { OnOk result (code_in self.new ≡ code_in self.old) }
        ensures plain { OnOk result (plain_in self.new
            ≡ learnt (plain_in self.old) id (made (code_in self.old) (plain_in self.old) key.now)) }
        ensures store { OnOk result (store_in self.new ≡ store_in self.old) }
    {
        let block = make_block(self.alloc, self.code, self, key)?;
        self.made.insert(id, block)?;
        Ok(())
    }

    /// Knows a block with these plain words, its modifiables at their defaults.
    pub fn know(&mut self, id: BlockId, block: BlockWords) -> Result<(), NoMemory>
        ensures code { OnOk result (code_in self.new ≡ code_in self.old) }
        ensures plain { OnOk result (plain_in self.new ≡ learnt (plain_in self.old) id block) }
        ensures store { OnOk result
            (store_in self.new ≡ defaulted (code_in self.old) (store_in self.old) id block) }
    {
        let shape = block.shape;
        self.made.insert(id, block)?;
        self.contents
            .insert(id, Fields::new(self.alloc, Some(shape)))?;
        Ok(())
    }

    /// Learns the block of the item, if it is an allocation.
    fn learn_item(&mut self, item: &Item) -> Result<(), NoMemory>
        ensures code { OnOk result (code_in self.new ≡ code_in self.old) }
        ensures plain { OnOk result
            (plain_in self.new ≡ plain_item (code_in self.old) (plain_in self.old) item.now) }
        ensures store { OnOk result (store_in self.new ≡ store_in self.old) }
    {
        match item {
            Item::Alloc { block, key } => self.learn(*block, key),
            Item::Step => Ok(()),
            Item::Write { .. } => Ok(()),
            Item::Read { .. } => Ok(()),
            Item::End => Ok(()),
        }
    }

    /// Changes the store as the item does.
    fn store_item(&mut self, item: &Item) -> Result<(), NoMemory>
        ensures code { OnOk result (code_in self.new ≡ code_in self.old) }
        ensures plain { OnOk result (plain_in self.new ≡ plain_in self.old) }
        ensures store { OnOk result
            (store_in self.new ≡ store_item (code_in self.old) (store_in self.old) item.now) }
    {
        match item {
            Item::Alloc { block, key } => self.clear(*block, key),
            Item::Step => Ok(()),
            Item::Write { place, value } => self.put(*place, *value),
            Item::Read { .. } => Ok(()),
            Item::End => Ok(()),
        }
    }

    /// Learns the blocks that the items allocate, in order.
    #[tactic(auto, using(crate::proofs::Equations::TableSteps::plain_steps))]
    pub fn learn_items(&mut self, items: &[Item]) -> Result<(), NoMemory>
        ensures code { OnOk result (code_in self.new ≡ code_in self.old) }
        ensures plain { OnOk result
            (plain_in self.new ≡ plain_flat (code_in self.old) (plain_in self.old) items.now) }
        ensures store { OnOk result (store_in self.new ≡ store_in self.old) }
    {
        let mut items = items;
        while let Some((item, more)) = items.split_first() {
            self.learn_item(item)?;
            items = more;
        }
        Ok(())
    }

    /// Changes the store as the items do, in order.
    #[tactic(auto, using(crate::proofs::Equations::TableSteps::store_steps))]
    pub fn store_items(&mut self, items: &[Item]) -> Result<(), NoMemory>
        ensures code { OnOk result (code_in self.new ≡ code_in self.old) }
        ensures plain { OnOk result (plain_in self.new ≡ plain_in self.old) }
        ensures store { OnOk result
            (store_in self.new ≡ store_flat (code_in self.old) (store_in self.old) items.now) }
    {
        let mut items = items;
        while let Some((item, more)) = items.split_first() {
            self.store_item(item)?;
            items = more;
        }
        Ok(())
    }

    /// The memory after a trace on these inputs, from its flat items.
    pub fn after(
        alloc: Global,
        code: &'a Code,
        inputs: &'a Inputs,
        items: &[Item],
    ) -> Result<TraceMemory<'a>, NoMemory>
        ensures code { IfOk result (λ m. code_in m ≡ code.now) }
        ensures plain { IfOk result (λ m. (l : Trace) → items.now ≡ flat l →
            plain_in m ≡ plain_of code.now inputs.now l) }
        ensures store { IfOk result (λ m. (l : Trace) → items.now ≡ flat l →
            store_in m ≡ store_after code.now (bases code.now inputs.now) l) }
        ensures memory { IfOk result (λ m. (l : Trace) → items.now ≡ flat l → (b : Number) →
            memory_in m b ≡ memory_after code.now inputs.now l b) }
    {
        let mut memory = TraceMemory::new(alloc, code, inputs);
        memory.learn_items(items)?;
        memory.store_items(items)?;
        Ok(memory)
    }
}
