// What a source and a sink of bytes are.

ghost use Rattle.std.specs.Prelude.{◌≡◌, ◌<◌, ◌≤◌, List, Option, ℕ, length, IfOk, OnErr, IsErrOf};
ghost use Rattle.std.specs.Io.{ReadsAtMost, WritesAtMost};
ghost use Rattle.std.specs.Io.KnownBytes.{ReadConsumes, WriteAppends};
ghost use Rattle.ceal_io.specs.Streams.{Rose};
ghost use Rattle.ceal_io.specs.declared.streams.Stopped.TheVariants.{Memory};

use ceal_base::no_memory::NoMemory;
use std::alloc::AllocError;

/// A read failed.
#[derive(Clone, Copy, Debug, PartialEq, Eq)]
pub struct Failed;

/// Bytes that are read piece by piece.
pub trait Source {
    /// The bytes that are not yet read, where they are known.
    ghost left: { Self → Option (List ℕ) };

    /// How many reads have failed.
    ghost faults: { Self → ℕ };

    /// Reads bytes into the front of a slice, and answers how many. Nothing into a slice that is not empty is the
    /// end of the input. A read that failed read nothing.
    fn read(&mut self, into: &mut [u8]) -> Result<usize, Failed>
        ensures bound { ReadsAtMost result into.new }
        ensures bytes { ReadConsumes (left self.old) (left self.new) result into.new }
        ensures cause { OnErr result (Rose (faults self.old) (faults self.new)) }
        ensures later { faults self.old ≤ faults self.new };
}

/// Why a write took nothing: the sink found no memory, or it failed.
#[derive(Clone, Copy, Debug, PartialEq, Eq)]
pub enum Stopped {
    Memory,
    Failed,
}

impl From<AllocError> for Stopped {
    ghost from_gives = { λ _ e. e ≡ Memory };

    fn from(_error: AllocError) -> Stopped {
        Stopped::Memory
    }
}

impl From<NoMemory> for Stopped {
    ghost from_gives = { λ _ e. e ≡ Memory };

    fn from(_error: NoMemory) -> Stopped {
        Stopped::Memory
    }
}

/// Takes bytes piece by piece.
pub trait Sink {
    /// The bytes that were written, where they are known.
    ghost written: { Self → Option (List ℕ) };

    /// How many writes have failed.
    ghost faults: { Self → ℕ };

    /// Whether a write takes memory, of which there may be none.
    ghost takes_memory: { Type 0 };

    /// Writes bytes from the front of a slice, at least one where there is one, and answers how many. A write that
    /// stopped wrote nothing.
    fn write(&mut self, bytes: &[u8]) -> Result<usize, Stopped>
        ensures bound { WritesAtMost result bytes.now }
        ensures some { IfOk result (λ n. 0 < length bytes.now → 0 < n) }
        ensures bytes { WriteAppends (written self.old) (written self.new) result bytes.now }
        ensures cause { IsErrOf result Stopped.Failed → Rose (faults self.old) (faults self.new) }
        ensures memory { IsErrOf result Stopped.Memory → takes_memory }
        ensures later { faults self.old ≤ faults self.new };
}
