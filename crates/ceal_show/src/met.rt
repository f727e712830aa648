// The blocks that a search has met, and the numbers of the core blocks among them.

ghost use Rattle.std.specs.Prelude.{◌≡◌, ◌+◌, ◌<◌, Some, [], length, slice_get, IsTrue, IfOk};
ghost use Rattle.ceal_show.specs.Graph.{core_count as cores_at, cores_before};
ghost use Rattle.ceal_show.specs.Paths.{is_in};
ghost use Rattle.ceal_show.specs.Search.{with_block};

use ceal_base::no_memory::NoMemory;
use ceal_base::word::BlockId;
use std::alloc::Global;
use std::collections::HashMap;
use std::marker::Model;

/// Blocks in the order in which they were met, which contracts see as their list.
#[derive(Drop)]
pub struct Met {
    blocks: Vec<BlockId>,
    // how many core blocks had been met with each block, itself included
    numbers: HashMap<BlockId, usize>,
    cores: usize,
}

impl Model for Met {
    ghost use Rattle.std.specs.Prelude.{List};
    ghost use Rattle.ceal_base.specs.declared.word.BlockId.{BlockId as BlockNumber};
    ghost use Rattle.ceal_show.specs.Table.{IsTable};

    ghost Value = { List BlockNumber };

    ghost view = { λ m. m.blocks.items };

    ghost invariant = { λ m. IsTable m.blocks.items m.numbers m.cores };
}

impl Met {
    /// No block was met.
    pub fn new(alloc: Global) -> Met
        ensures value { result ≡ [] }
    {
        Met {
            blocks: Vec::new(alloc),
            numbers: HashMap::new(alloc),
            cores: 0,
        }
    }

    /// The blocks in order.
    pub fn blocks(&self) -> &[BlockId]
        ensures value { result.now ≡ self.now }
    {
        self.blocks.as_slice()
    }

    /// How many they are.
    pub fn len(&self) -> usize
        ensures value { result ≡ length self.now }
    {
        self.blocks.len()
    }

    /// The block that was met after `at` others.
    pub fn block(&self, at: usize) -> BlockId
        requires { at < length self.now }
        ensures value { slice_get self.now at ≡ Some result }
    {
        self.blocks[at]
    }

    /// With one more block at the end, unless it is there.
    pub fn with(self, block: BlockId) -> Result<Met, NoMemory>
        ensures value { IfOk result (λ next. next ≡ with_block self block) }
    {
        let Met {
            mut blocks,
            mut numbers,
            cores,
        } = self;
        if numbers.contains_key(&block) {
            return Ok(Met {
                blocks,
                numbers,
                cores,
            });
        }
        let cores = cores + core_count(block);
        blocks.push(block)?;
        numbers.insert(block, cores)?;
        Ok(Met {
            blocks,
            numbers,
            cores,
        })
    }

    /// How many core blocks were met up to a block, itself included.
    pub fn number(&self, block: BlockId) -> usize
        requires { IsTrue (is_in block self.now) }
        ensures { result ≡ cores_before block self.now + cores_at block }
    {
        self.numbers.get(&block).copied().unwrap_or(0)
    }
}

fn core_count(block: BlockId) -> usize
    ensures { result ≡ cores_at block }
{
    match block {
        BlockId::Input(_) => 0,
        BlockId::Core(_) => 1,
    }
}
