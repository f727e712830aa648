// Words and numbers in parts of 32 bits, which may begin at any multiple of four bytes.

ghost use Rattle.std.specs.Prelude.{◌≡◌};
ghost use Rattle.ceal_base.specs.declared.word.Word.TheVariants.{Block, At};
ghost use Rattle.ceal_order.specs.Packed.{number_of, word_of};

use ceal_base::word::{BlockId, Place, Word};

// What the upper half of a number counts.
const HALF: u64 = 0x1_0000_0000;

/// A number of 64 bits in two halves.
#[derive(Clone, Copy)]
pub struct Halves {
    pub low: u32,
    pub high: u32,
}

impl Halves {
    /// A number in two halves.
    pub fn of(number: u64) -> Halves
        ensures { number_of result ≡ number }
    {
        Halves {
            low: (number % HALF) as u32,
            high: (number / HALF) as u32,
        }
    }

    /// The number of these halves.
    pub fn number(self) -> u64
        ensures { result ≡ number_of self }
    {
        self.low as u64 + self.high as u64 * HALF
    }
}

/// A word, in 12 bytes.
#[derive(Clone, Copy)]
pub enum Packed {
    Number(Halves),
    Null,
    Input(u32),
    Core(u32),
    InInput { block: u32, field: u32 },
    InCore { block: u32, field: u32 },
}

impl Packed {
    /// A word, packed.
    #[inline]
    pub fn of(word: Word) -> Packed
        ensures { word_of result ≡ word }
    {
        match word {
            Word::Num(number) => Packed::Number(Halves::of(number.cast_unsigned())),
            Word::Null => Packed::Null,
            Word::Block(block) => Packed::of_block(block),
            Word::At(place) => Packed::of_place(place),
        }
    }

    fn of_block(block: BlockId) -> Packed
        ensures { word_of result ≡ Block block }
    {
        match block {
            BlockId::Input(number) => Packed::Input(number),
            BlockId::Core(number) => Packed::Core(number),
        }
    }

    fn of_place(place: Place) -> Packed
        ensures { word_of result ≡ At place }
    {
        let field = place.field;
        match place.block {
            BlockId::Input(block) => Packed::InInput { block, field },
            BlockId::Core(block) => Packed::InCore { block, field },
        }
    }

    /// The word that was packed. It is always put in line, so that nothing is unpacked where nobody asks for the word.
    #[inline(always)]
    pub fn word(self) -> Word
        ensures { result ≡ word_of self }
    {
        match self {
            Packed::Number(number) => Word::Num(number.number().cast_signed()),
            Packed::Null => Word::Null,
            Packed::Input(number) => Word::Block(BlockId::Input(number)),
            Packed::Core(number) => Word::Block(BlockId::Core(number)),
            Packed::InInput { block, field } => Word::At(Place {
                block: BlockId::Input(block),
                field,
            }),
            Packed::InCore { block, field } => Word::At(Place {
                block: BlockId::Core(block),
                field,
            }),
        }
    }
}
