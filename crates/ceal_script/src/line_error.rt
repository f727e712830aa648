// Why a line was not read.

ghost use Rattle.std.specs.Prelude.{◌≡◌};
ghost use Rattle.ceal_script.specs.declared.line_error.LineError.TheVariants.{Memory};

use ceal_base::no_memory::NoMemory;
use thiserror::Error;

/// Why a line was not read.
#[derive(Clone, Copy, Debug, PartialEq, Eq, Error)]
pub enum LineError {
    /// there was no memory
    #[error("out of memory")]
    Memory,
    /// the line is no command's
    #[error("unreadable line")]
    Unreadable,
}

impl From<NoMemory> for LineError {
    ghost from_gives = { λ _ e. e ≡ Memory };

    fn from(_error: NoMemory) -> LineError {
        LineError::Memory
    }
}
