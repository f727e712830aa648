// Why a conversation ends early.

ghost use Rattle.std.specs.Prelude.{◌≡◌};
ghost use Rattle.ceal_serve.specs.Troubles.{stopped_trouble};
ghost use Rattle.ceal_serve.specs.declared.trouble.Trouble.TheVariants.{Memory, ReadFault};

use ceal_base::no_memory::NoMemory;
use ceal_io::{Failed, Stopped};
use std::alloc::{AllocError, AllocFailed};

/// Why a conversation ends early.
#[derive(Clone, Copy, Debug, PartialEq, Eq)]
pub enum Trouble {
    /// there was no memory
    Memory,
    /// the source part with its mark, or a line of the script, has too many bytes
    TooLong,
    /// a read failed
    ReadFault,
    /// a write failed
    WriteFault,
}

impl From<AllocError> for Trouble {
    ghost from_gives = { λ _ trouble. trouble ≡ Memory };

    fn from(_error: AllocError) -> Trouble {
        Trouble::Memory
    }
}

impl<T: Drop> From<AllocFailed<T>> for Trouble {
    ghost from_gives = { λ _ trouble. trouble ≡ Memory };

    fn from(_error: AllocFailed<T>) -> Trouble {
        Trouble::Memory
    }
}

impl From<NoMemory> for Trouble {
    ghost from_gives = { λ _ trouble. trouble ≡ Memory };

    fn from(_error: NoMemory) -> Trouble {
        Trouble::Memory
    }
}

impl From<Failed> for Trouble {
    ghost from_gives = { λ _ trouble. trouble ≡ ReadFault };

    fn from(_error: Failed) -> Trouble {
        Trouble::ReadFault
    }
}

impl From<Stopped> for Trouble {
    ghost from_gives = { λ error trouble. trouble ≡ stopped_trouble error };

    fn from(error: Stopped) -> Trouble {
        match error {
            Stopped::Memory => Trouble::Memory,
            Stopped::Failed => Trouble::WriteFault,
        }
    }
}
