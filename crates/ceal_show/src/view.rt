// What a graph text is made from.

ghost use Rattle.std.specs.Prelude.{◌≡◌, ℕ, Some, IsSome, List};
ghost use Rattle.ceal_base.specs.declared.typed.StructInfo.{StructInfo};
ghost use Rattle.ceal_base.specs.declared.word.BlockId.TheVariants.{Input};
ghost use Rattle.ceal_show.specs.Shown.{Shown, shape_at, word_at};

use ceal_base::kind::Shape;
use ceal_base::text::Text;
use ceal_base::typed::Structs;
use ceal_base::word::{BlockId, Word};

/// A memory, names for its input blocks, and the structs of the program.
pub trait View {
    /// the blocks by their numbers
    ghost memory: { Self → Shown };

    /// the name of each input
    ghost name: { Self → ℕ → List ℕ };

    /// the structs of the program
    ghost declared: { Self → List StructInfo };

    /// The shape of a block.
    fn shape(&self, block: BlockId) -> Shape
        requires { IsSome (memory self.now block) }
        ensures { shape_at (memory self.now) block ≡ Some result };

    /// The word of a block's field; of an embedded modifiable it is its content.
    fn word(&self, block: BlockId, field: u32) -> Word
        requires { IsSome (word_at (memory self.now) block field) }
        ensures { word_at (memory self.now) block field ≡ Some result };

    /// The name of an input.
    fn label(&self, input: u32) -> &Text
        requires { IsSome (memory self.now (Input input)) }
        ensures { result.now ≡ name self.now input };

    /// The structs of the program, in text order.
    fn structs(&self) -> &Structs
        ensures { result.now ≡ declared self.now };
}
