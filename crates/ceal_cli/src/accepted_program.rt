// The program of an input that is accepted.

ghost use Rattle.std.specs.Prelude.{IfOk};
ghost use Rattle.ceal_compile.specs.Compiled.{IsCompiled};
ghost use Rattle.ceal_compile.specs.Source.{IsAccepted, IsProgram};
ghost use Rattle.ceal_lex.specs.Parts.{IsSplit};

use crate::input::Input;
use ceal_base::fault::FrontError;
use ceal_base::no_memory::NoMemory;
use ceal_compile::compile::{compile_part, one_answer};
use ceal_compile::program::Program;
use std::alloc::Global;

/// The program of an input that is accepted.
pub fn program(alloc: Global, input: Input<'_>) -> Result<Program, NoMemory>
    requires split { IsSplit input.bytes.now input.part }
    requires accepted { IsAccepted input.bytes.now }
    ensures program { IfOk result (λ program. IsProgram input.entry.bytes.now program.typed) }
    ensures compiled { IfOk result IsCompiled }
{
    one_answer();
    match compile_part(alloc, input.bytes, &input.part) {
        Ok(program) => Ok(program),
        Err(FrontError::Memory) => Err(NoMemory),
        Err(FrontError::Fault(_)) => unreachable!(),
    }
}
