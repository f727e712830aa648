// Who tells the values of writes.

ghost use Rattle.std.specs.Prelude.{◌≡◌, ℕ, Option, Some, IsSome};
ghost use Rattle.ceal_base.specs.declared.word.Word.{Word};

use ceal_base::word::Word;
use ceal_order::stamp::Stamp;

/// What has the values of writes: the trace of which they are nodes.
pub trait Written {
    /// the value of the write at a stamp, None where there is no write
    ghost tells: { Self → ℕ → Option Word };

    /// The value of a write.
    fn written_at(&self, write: Stamp) -> Word
        requires there { IsSome (tells self.now write.0) }
        ensures { tells self.now write.0 ≡ Some result };
}
