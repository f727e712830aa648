// Numbers of core blocks in the order of their allocations.

ghost use Rattle.std.specs.Prelude.{◌≡◌, ◌∷◌, [], ◌++◌, ◌+◌, ℕ, List, IfOk, OnOk};
ghost use Rattle.ceal_code.specs.Replay.{core_numbers};
ghost use Rattle.ceal_record.specs.Numbers.{number_of, Counts};
ghost use Rattle.ceal_theory.specs.Named.{id_by, key_by, place_by, word_by, words_by};
ghost use Rattle.ceal_theory.specs.Segments.{item_by, items_by};
ghost use Rattle.ceal_traceck.specs.Items.{allocated};

use ceal_base::count::one_more;
use ceal_base::forest::{Forest, Item, Key};
use ceal_base::no_memory::NoMemory;
use ceal_base::word::{BlockId, Place, Word};
use ceal_base::words::Words;
use std::alloc::Global;
use std::collections::BTreeMap;

/// The numbers that core blocks are given, in their order: 0, 1 and so on.
#[derive(Drop)]
pub struct Numbers {
    pub alloc: Global,
    pub given: BTreeMap<BlockId, u32>,
    pub count: u32,
}

impl Numbers {
    /// Counts a block. One that was counted before keeps its number.
    fn add(&mut self, block: u32) -> Result<(), NoMemory>
        ensures { OnOk result ((bs : List ℕ) → Counts self.old bs →
            Counts self.new (bs ++ block ∷ [])) }
    {
        let id = BlockId::Core(block);
        let count = one_more(self.count)?;
        if self.given.get(&id).is_some() {
            self.count = count;
            return Ok(());
        }
        self.given.insert(id, self.count)?;
        self.count = count;
        Ok(())
    }

    /// Counts the block of the item, if it is an allocation.
    fn add_item(&mut self, item: &Item) -> Result<(), NoMemory>
        ensures { OnOk result ((bs : List ℕ) → Counts self.old bs →
            Counts self.new (bs ++ core_numbers (allocated (item.now ∷ [])))) }
    {
        match item {
            Item::Alloc { block, .. } => match block {
                BlockId::Core(n) => self.add(*n),
                BlockId::Input(_) => Ok(()),
            },
            Item::Step => Ok(()),
            Item::Write { .. } => Ok(()),
            Item::Read { .. } => Ok(()),
            Item::End => Ok(()),
        }
    }

    /// The numbers of the blocks that the items allocate.
    pub fn new(alloc: Global, items: &[Item]) -> Result<Numbers, NoMemory>
        ensures { IfOk result (λ t. Counts t (core_numbers (allocated items.now))) }
    {
        let mut numbers = Numbers {
            alloc,
            given: BTreeMap::new(alloc),
            count: 0,
        };
        let mut items = items;
        while let Some((item, more)) = items.split_first() {
            numbers.add_item(item)?;
            items = more;
        }
        Ok(numbers)
    }

    #[tactic(auto, unfolding(crate::specs::Numbers::number_of))]
    fn number(&self, b: u32) -> u32
        ensures { result ≡ number_of self.now b }
    {
        match self.given.get(&BlockId::Core(b)) {
            Some(number) => *number,
            None => self.count,
        }
    }

    fn block(&self, block: BlockId) -> BlockId
        ensures { result ≡ id_by (number_of self.now) block }
    {
        match block {
            BlockId::Input(n) => BlockId::Input(n),
            BlockId::Core(n) => BlockId::Core(self.number(n)),
        }
    }

    fn place(&self, place: Place) -> Place
        ensures { result ≡ place_by (number_of self.now) place }
    {
        Place {
            block: self.block(place.block),
            field: place.field,
        }
    }

    fn word(&self, word: Word) -> Word
        ensures { result ≡ word_by (number_of self.now) word }
    {
        match word {
            Word::Num(n) => Word::Num(n),
            Word::Null => Word::Null,
            Word::Block(block) => Word::Block(self.block(block)),
            Word::At(place) => Word::At(self.place(place)),
        }
    }

    fn words(&self, words: &Words) -> Result<Words, NoMemory>
        ensures { IfOk result (λ ws. ws ≡ words_by (number_of self.now) words.now) }
    {
        let mut named = Words::empty(self.alloc);
        let mut words = words.items();
        while let Some((word, more)) = words.split_first() {
            named.push(self.word(*word))?;
            words = more;
        }
        Ok(named)
    }

    fn key(&self, key: &Key) -> Result<Key, NoMemory>
        ensures { IfOk result (λ k. k ≡ key_by (number_of self.now) key.now) }
    {
        match key {
            Key::Init { function, args } => {
                let args = self.words(args)?;
                Ok(Key::Init {
                    function: *function,
                    args,
                })
            }
            Key::ModInt => Ok(Key::ModInt),
            Key::ModPtr(shape) => Ok(Key::ModPtr(*shape)),
        }
    }

    fn item(&self, item: &Item) -> Result<Item, NoMemory>
        ensures { IfOk result (λ i. i ≡ item_by (number_of self.now) item.now) }
    {
        match item {
            Item::Step => Ok(Item::Step),
            Item::Alloc { block, key } => {
                let key = self.key(key)?;
                Ok(Item::Alloc {
                    block: self.block(*block),
                    key,
                })
            }
            Item::Write { place, value } => Ok(Item::Write {
                place: self.place(*place),
                value: self.word(*value),
            }),
            Item::Read {
                place,
                value,
                unit,
                var,
                args,
            } => {
                let args = self.words(args)?;
                Ok(Item::Read {
                    place: self.place(*place),
                    value: self.word(*value),
                    unit: *unit,
                    var: *var,
                    args,
                })
            }
            Item::End => Ok(Item::End),
        }
    }

    /// The items with these numbers in place of those of their blocks.
    pub fn forest(&self, items: &[Item]) -> Result<Forest, NoMemory>
        ensures { IfOk result (λ forest. forest ≡ items_by (number_of self.now) items.now) }
    {
        let mut named = Vec::with_capacity(self.alloc, items.len())?;
        let mut items = items;
        while let Some((item, more)) = items.split_first() {
            named.push(self.item(item)?)?;
            items = more;
        }
        Ok(Forest::new(named))
    }
}
