// What is written for a workload.

ghost use Rattle.std.specs.Prelude.{◌<◌, ◌≤◌, ◌^◌, length};
ghost use Rattle.ceal_compile.specs.Compiled.{IsCompiled};
ghost use Rattle.ceal_compile.specs.Source.{IsAccepted, IsProgram};
ghost use Rattle.ceal_lex.specs.Parts.{IsSplit};
ghost use Rattle.ceal_cli.specs.SinkGrowth.{Writes};
ghost use Rattle.ceal_cli.specs.Output.{IsGenerated, IsOutputFromRun};

use crate::accepted_program::program;
use crate::from_run::reply_from_run;
use crate::fuel::DEFAULT_FUEL;
use crate::input::Input;
use crate::laws::{accepted_law, short_law};
use crate::lines::{ScriptLines, script};
use ceal_compile::program::Program;
use ceal_gen::kind::Workload;
use ceal_gen::text::workload;
use ceal_io::{Sink, Stopped};
use ceal_session::laws::{kept_line, some_reply};
use ceal_session::session::Session;
use std::alloc::Global;
use std::mem::forget;

// Writes the replies to the script after the mark from that of the first run on.
fn run<K: Sink>(
    alloc: Global,
    input: Input<'_>,
    program: Program,
    sink: &mut K,
) -> Result<(), Stopped>
    requires split { IsSplit input.bytes.now input.part }
    requires program { IsProgram input.bytes.now program.typed }
    requires compiled { IsCompiled program }
    ensures writes { Writes result (K.written sink.old) (K.written sink.new)
        (K.faults sink.old) (K.faults sink.new) (IsOutputFromRun input.entry.bytes.now) }
{
    // for the proof: a session keeps to its situation, in which each line has a reply
    kept_line();
    some_reply();
    let lines = ScriptLines::new(script(input.bytes, &input.part));
    let mut session = Session::new(alloc, program, DEFAULT_FUEL)?;
    let told = reply_from_run(&mut session, lines, sink);
    // The program ends after this: its memory goes back with the process, and not piece by piece.
    forget(session);
    told
}

// Writes the replies for a text that is accepted.
fn reply_to<K: Sink>(alloc: Global, text: &[u8], sink: &mut K) -> Result<(), Stopped>
    requires small { length text.now < 2 ^ 32 }
    requires accepted { IsAccepted text.now }
    ensures writes { Writes result (K.written sink.old) (K.written sink.new)
        (K.faults sink.old) (K.faults sink.new) (IsOutputFromRun text.now) }
{
    let input = Input::new(text);
    let program = program(alloc, input)?;
    run(alloc, input, program, sink)
}

/// Writes the replies of a workload from that of its `run` line on. Its text is an accepted input.
pub fn generate<K: Sink>(
    alloc: Global,
    kind: Workload,
    seed: u32,
    size: u32,
    sink: &mut K,
) -> Result<(), Stopped>
    requires { size ≤ 2 ^ 24 }
    ensures writes { Writes result (K.written sink.old) (K.written sink.new)
        (K.faults sink.old) (K.faults sink.new) (IsGenerated kind seed size) }
{
    // for the proof: a workload is an accepted input, and shorter than the limit
    accepted_law();
    short_law();
    let text = workload(alloc, kind, seed, size)?;
    reply_to(alloc, text.items(), sink)
}
