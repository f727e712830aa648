// Why an example is given up.

ghost use Rattle.std.specs.Prelude.{◌≡◌};
ghost use Rattle.ceal_embedding.specs.Causes.{front_trouble, run_trouble};
ghost use Rattle.ceal_embedding.specs.declared.trouble.Trouble.TheVariants.{Memory, Output};

use ceal_base::fault::FrontError;
use ceal_base::no_memory::NoMemory;
use ceal_engine::run_error::RunError;
use std::alloc::AllocError;
use std::io;
use thiserror::Error;

/// Why an example is given up. Of all these only running out of memory, and a failing output, can come in these two.
#[derive(Clone, Copy, Debug, PartialEq, Eq, Error)]
pub enum Trouble {
    #[error("out of memory")]
    Memory,
    #[error("the source text is not accepted")]
    Source,
    #[error("a line or a call was refused")]
    Refused,
    #[error("out of fuel")]
    Fuel,
    #[error("the output could not be written")]
    Output,
}

impl From<NoMemory> for Trouble {
    ghost from_gives = { λ _ trouble. trouble ≡ Memory };

    fn from(_error: NoMemory) -> Trouble {
        Trouble::Memory
    }
}

impl From<AllocError> for Trouble {
    ghost from_gives = { λ _ trouble. trouble ≡ Memory };

    fn from(_error: AllocError) -> Trouble {
        Trouble::Memory
    }
}

impl From<FrontError> for Trouble {
    ghost from_gives = { λ error trouble. trouble ≡ front_trouble error };

    fn from(error: FrontError) -> Trouble {
        match error {
            FrontError::Memory => Trouble::Memory,
            FrontError::Fault(_) => Trouble::Source,
        }
    }
}

impl From<RunError> for Trouble {
    ghost from_gives = { λ error trouble. trouble ≡ run_trouble error };

    fn from(error: RunError) -> Trouble {
        match error {
            RunError::Memory => Trouble::Memory,
            RunError::OutOfFuel => Trouble::Fuel,
        }
    }
}

impl From<io::Error> for Trouble {
    ghost from_gives = { λ _ trouble. trouble ≡ Output };

    fn from(_error: io::Error) -> Trouble {
        Trouble::Output
    }
}
