// What is written of a dump.

ghost use Rattle.std.specs.Prelude.{◌≡◌, true, IfOk};
ghost use Rattle.ceal_code.specs.Valid.{valid};
ghost use Rattle.ceal_compile.specs.Compiled.{IsCompiled};
ghost use Rattle.ceal_compile.specs.Source.{IsProgram};
ghost use Rattle.ceal_lex.specs.Parts.{IsSplit};
ghost use Rattle.ceal_cli.specs.SinkGrowth.{Writes};
ghost use Rattle.ceal_cli.specs.Output.{IsOutput};
ghost use Rattle.ceal_cli.specs.Verdicts.{verdict_text, IsVerdictLine};
ghost use Rattle.ceal_cli.specs.declared.words.Mode.TheVariants.{Verify};

use crate::input::Input;
use crate::lines::script;
use ceal_base::no_memory::NoMemory;
use ceal_code::code::Code;
use ceal_compile::program::Program;
use ceal_dump::read::{DumpError, read_dump};
use ceal_io::{Sink, Stopped, write_all};
use ceal_traceck::check::check_trace;
use ceal_traceck::verdict::Verdict;
use std::alloc::Global;

// The line of a verdict.
fn verdict_line(verdict: Verdict) -> &'static str
    ensures { result.now ≡ verdict_text verdict }
{
    match verdict {
        Verdict::Yes => "yes\n",
        Verdict::NoFit => "no K2: call does not fit\n",
        Verdict::NotReplay => "no K3: not a replay\n",
        Verdict::NotHonest => "no K4: not honest\n",
        Verdict::MemoryDiffers => "no K5: memory differs\n",
    }
}

// What the checker says of bytes that should be a dump.
fn checked(alloc: Global, code: &Code, bytes: &[u8]) -> Result<&'static str, NoMemory>
    requires { valid code.now ≡ true }
    ensures { IfOk result (λ line. IsVerdictLine code.now bytes.now line.now) }
{
    match read_dump(alloc, bytes) {
        Ok(kept) => {
            let verdict = check_trace(alloc, code, &kept);
            drop(kept);
            Ok(verdict_line(verdict?))
        }
        Err(DumpError::Memory) => Err(NoMemory),
        Err(DumpError::Unreadable) => Ok("no K1: unreadable dump\n"),
    }
}

/// Writes what the checker says of the dump after the mark.
pub fn verify<K: Sink>(
    alloc: Global,
    input: Input<'_>,
    program: &Program,
    sink: &mut K,
) -> Result<(), Stopped>
    requires split { IsSplit input.bytes.now input.part }
    requires program { IsProgram input.bytes.now program.now.typed }
    requires compiled { IsCompiled program.now }
    ensures writes { Writes result (K.written sink.old) (K.written sink.new)
        (K.faults sink.old) (K.faults sink.new) (IsOutput Verify input.entry.bytes.now) }
{
    let line = checked(alloc, &program.code, script(input.bytes, &input.part))?;
    write_all(sink, line.as_bytes())
}
