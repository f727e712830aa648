// A word in two cells.

ghost use Rattle.std.specs.Prelude.{◌≡◌};
ghost use Rattle.ceal_heap.specs.Cells.{word_of};
ghost use Rattle.ceal_base.specs.declared.word.Word.TheVariants.{Block, At};

use ceal_base::word::{BlockId, Place, Word};

// What a word is, which its first cell says.
const NUMBER: u64 = 0;

const NULL: u64 = 1;

const INPUT: u64 = 2;

const CORE: u64 = 3;

const IN_INPUT: u64 = 4;

const IN_CORE: u64 = 5;

// What the upper half of a cell counts.
const HALF: u64 = 0x1_0000_0000;

/// The two cells of a word: what it is, and its number, its block, or its block and field.
#[derive(Clone, Copy)]
pub(crate) struct Cells {
    pub(crate) sort: u64,
    pub(crate) cell: u64,
}

impl Cells {
    /// The cells that a word is written into.
    pub(crate) fn of(word: Word) -> Cells
        ensures { word_of result.sort result.cell ≡ word }
    {
        match word {
            Word::Num(number) => Cells {
                sort: NUMBER,
                cell: number.cast_unsigned(),
            },
            Word::Null => Cells {
                sort: NULL,
                cell: 0,
            },
            Word::Block(block) => Cells::of_block(block),
            Word::At(place) => Cells::of_place(place),
        }
    }

    fn of_block(block: BlockId) -> Cells
        ensures { word_of result.sort result.cell ≡ Block block }
    {
        match block {
            BlockId::Input(number) => Cells {
                sort: INPUT,
                cell: number as u64,
            },
            BlockId::Core(number) => Cells {
                sort: CORE,
                cell: number as u64,
            },
        }
    }

    fn of_place(place: Place) -> Cells
        ensures { word_of result.sort result.cell ≡ At place }
    {
        let field = place.field as u64 * HALF;
        match place.block {
            BlockId::Input(number) => Cells {
                sort: IN_INPUT,
                cell: number as u64 + field,
            },
            BlockId::Core(number) => Cells {
                sort: IN_CORE,
                cell: number as u64 + field,
            },
        }
    }

    /// The word that was written into the cells.
    pub(crate) fn word(self) -> Word
        ensures { result ≡ word_of self.sort self.cell }
    {
        let low = (self.cell % HALF) as u32;
        let high = (self.cell / HALF) as u32;
        match self.sort {
            NUMBER => Word::Num(self.cell.cast_signed()),
            NULL => Word::Null,
            INPUT => Word::Block(BlockId::Input(low)),
            CORE => Word::Block(BlockId::Core(low)),
            IN_INPUT => Word::At(Place {
                block: BlockId::Input(low),
                field: high,
            }),
            _ => Word::At(Place {
                block: BlockId::Core(low),
                field: high,
            }),
        }
    }
}
