// What a run keeps.

ghost use Rattle.std.specs.Prelude.{◌≡◌, ◌⊎◌, ℕ, ◌<◌, ◌^◌, ◌∷◌, [], Some, None, true, false, length, IfOk, OnOk};
ghost use Rattle.ceal_base.specs.Block.{Block};
ghost use Rattle.ceal_base.specs.declared.word.BlockId.TheVariants.{Core};
ghost use Rattle.ceal_base.specs.declared.word.Place.{Place as PlaceOf};
ghost use Rattle.ceal_code.specs.Init.{made};
ghost use Rattle.ceal_code.specs.Replay.{shape_of};
ghost use Rattle.ceal_heap.specs.Heap.{IsLive, IsNew, KeepsBlocks, block_of, plain_of, standing};
ghost use Rattle.ceal_order.specs.Stamps.{is_in};
ghost use Rattle.ceal_mods.specs.Mods.{cell_of};
ghost use Rattle.ceal_repair.specs.Blocks.{GivesOne};
ghost use Rattle.ceal_repair.specs.Words.{words_of, HasBases};
ghost use Rattle.ceal_repair.specs.Kept.{Kept, base_in};
ghost use Rattle.ceal_repair.specs.Propagation.{Concludes};
ghost use Rattle.ceal_repair.specs.Looks.{LooksNever, NoneDiffers, KeepsMarks};
ghost use Rattle.ceal_trace.specs.Nodes.{new_entry};
ghost use Rattle.ceal_trace.specs.declared.node.Node.TheVariants.{Root};

use crate::advance::Progress;
use crate::bases::{renew_bases, set_inputs};
use crate::tables::Tables;
use crate::words::RunWords;
use ceal_base::forest::Key;
use ceal_base::memory::{BlockWords, Inputs};
use ceal_base::no_memory::NoMemory;
use ceal_base::word::{BlockId, Word};
use ceal_code::code::Code;
use ceal_code::initialise::{made_shape, make_block};
use ceal_heap::heap::Heap;
use ceal_memo::seed::Seed;
use std::alloc::Global;

/// What a run keeps: the tables of its trace, its core blocks, and how many steps were re-executed for it.
#[derive(Drop)]
pub struct Running {
    pub tables: Tables,
    pub heap: Heap,
    pub spent: u32,
}

/// The result of a run from nothing.
#[derive(Drop)]
pub enum Outcome {
    Done(Running),
    /// a run from scratch needs more steps than the fuel allows
    OutOfFuel,
}

/// The words of a block, if they are at most 255: the heap takes no more. Valid code makes no larger block; one that
/// was larger would be answered as out of memory.
fn few_words(block: &BlockWords) -> Result<&[Word], NoMemory>
    ensures words { IfOk result (λ words. words.now ≡ block.now.words) }
    ensures few { IfOk result (λ words. length words.now < 256) }
{
    let words = block.items();
    if words.len() < 256 {
        Ok(words)
    } else {
        Err(NoMemory)
    }
}

impl Running {
    /// A run that is up to date ends: it may have more steps than the fuel allows. Otherwise its revoked blocks are
    /// released.
    pub fn conclude(&mut self, fuel: u32) -> Progress
        ensures { Concludes result fuel self.old self.new }
    {
        if self.tables.trace.steps() > u64::from(fuel) {
            Progress::OutOfFuel
        } else {
            self.heap.release_revoked();
            Progress::Done
        }
    }

    /// Before the first step: only the root, the inputs with their bases, and no core block.
    pub fn begin(
        alloc: Global,
        code: &Code,
        inputs: &Inputs,
        seed: &Seed,
    ) -> Result<Running, NoMemory>
        requires few { length inputs.now < 2 ^ 32 }
        ensures nodes { IfOk result (λ r. r.tables.trace.nodes ≡ new_entry 0 Root ∷ []) }
        ensures queue { IfOk result (λ r. r.tables.stale.stamps ≡ []) }
        ensures heap { IfOk result (λ r. IsNew r.heap) }
        ensures bases { IfOk result
            (λ r. HasBases code.now.structs inputs.now r.heap r.tables.mods) }
        ensures spent { IfOk result (λ r. r.spent ≡ 0) }
        ensures looks { IfOk result (λ r. LooksNever r.tables) }
        ensures unmarked { IfOk result (λ r. r.tables.mods.marked ≡ None) }
        ensures kept { IfOk result (λ r. Kept r.tables) }
    {
        let mut tables = Tables::new(alloc, seed)?;
        if let Err(error) = set_inputs(&mut tables, code.structs.items(), inputs) {
            drop(tables);
            return Err(error);
        }
        match Heap::new(alloc) {
            Ok(heap) => Ok(Running {
                tables,
                heap,
                spent: 0,
            }),
            Err(error) => {
                drop(tables);
                Err(error)
            }
        }
    }

    /// Makes the block of a key, with what its modifiables hold before any write. Reads of its places may be queued,
    /// no others.
    pub fn make(
        &mut self,
        alloc: Global,
        code: &Code,
        inputs: &Inputs,
        key: &Key,
    ) -> Result<BlockId, NoMemory>
        requires kept { Kept self.old.tables }
        ensures core { IfOk result (λ block. (b : ℕ) × (block ≡ Core b)) }
        ensures new { IfOk result (λ block. block_of self.old.heap block ≡ None) }
        ensures live { IfOk result (λ block. IsLive self.new.heap block) }
        ensures words { IfOk result (λ block. plain_of self.new.heap block
            ≡ Some (made code.now (words_of code.now inputs.now self.old.heap) key.now)) }
        ensures others { IfOk result (λ block. KeepsBlocks block self.old.heap self.new.heap) }
        ensures numbers { OnOk result (GivesOne self.old.heap self.new.heap) }
        ensures bases { OnOk result
            (HasBases code.now.structs inputs.now self.old.heap self.old.tables.mods
            → HasBases code.now.structs inputs.now self.new.heap self.new.tables.mods) }
        ensures kept_bases { IfOk result (λ block. (p : PlaceOf) → (p.block ≡ block → ⊥)
            → base_in self.new.tables.mods p ≡ base_in self.old.tables.mods p) }
        ensures trace { self.new.tables.trace ≡ self.old.tables.trace }
        ensures memo { self.new.tables.memo ≡ self.old.tables.memo }
        ensures spent { self.new.spent ≡ self.old.spent }
        ensures looked { self.new.tables.mods.looked ≡ self.old.tables.mods.looked }
        ensures differed { NoneDiffers self.old.tables self.new.tables }
        ensures marks { KeepsMarks self.old.tables self.new.tables }
        ensures only { IfOk result (λ block. (s : ℕ)
            → is_in s self.new.tables.stale.stamps ≡ true
            → is_in s self.old.tables.stale.stamps ≡ false
            → (p : PlaceOf) × (p.block ≡ block)
            × (is_in s (cell_of self.old.tables.mods p).reads ≡ true)) }
        ensures kept { Kept self.new.tables }
    {
        let block = self.words_for(alloc, code, inputs, key)?;
        let shape = made_shape(code, key);
        let made = self.heap.make(shape, few_words(&block)?)?;
        let structs = code.structs.items();
        renew_bases(&mut self.tables, structs, made.block, made.before, shape)?;
        Ok(made.block)
    }

    /// The words of a new block for a key.
    fn words_for(
        &self,
        alloc: Global,
        code: &Code,
        inputs: &Inputs,
        key: &Key,
    ) -> Result<BlockWords, NoMemory>
        ensures { IfOk result (λ block.
            block ≡ made code.now (words_of code.now inputs.now self.now.heap) key.now) }
    {
        let words = RunWords {
            code,
            inputs,
            heap: &self.heap,
        };
        make_block(alloc, code, &words, key)
    }
}
