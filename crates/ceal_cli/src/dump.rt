// What is written of the run after a script.

ghost use Rattle.std.specs.Prelude.{◌≡◌, true, IfOk, OnOk};
ghost use Rattle.ceal_dump.specs.DumpText.{all_core, closed, IsDump};
ghost use Rattle.ceal_lex.specs.Parts.{IsSplit};
ghost use Rattle.ceal_session.specs.SessionState.{situation};
ghost use Rattle.ceal_cli.specs.SinkGrowth.{Writes};
ghost use Rattle.ceal_cli.specs.ServedLines.{IsDumpAfterLines, IsDumpFrom};
ghost use Rattle.ceal_cli.specs.Lines.{script_lines};
ghost use Rattle.ceal_cli.specs.Members.{Opens};
ghost use Rattle.ceal_cli.specs.Output.{IsOutput};
ghost use Rattle.ceal_cli.specs.ReadBack.{WritesDump};
ghost use Rattle.ceal_cli.specs.declared.words.Mode.TheVariants.{Dump};

use crate::carry::carry_out_all;
use crate::input::Input;
use crate::lines::{ScriptLines, script};
use ceal_base::no_memory::NoMemory;
use ceal_base::recorded::Record;
use ceal_base::text::Text;
use ceal_compile::program::Program;
use ceal_dump::has_dump::has_room;
use ceal_dump::write::dump_text;
use ceal_io::{Sink, Stopped, write_all};
use ceal_record::laws::renamed_law;
use ceal_session::laws::{kept_line, some_reply};
use ceal_session::session::Session;
use ceal_theory::names::renaming_law;
use ceal_types::seed::Seed;
use std::alloc::Global;

// The dump of a record. Where one of its counts has no room in 32 bits, that is out of memory.
fn text_of(alloc: Global, kept: &Record) -> Result<Text, NoMemory>
    requires core { all_core kept.now.forest ≡ true }
    requires ends { closed 0 kept.now.forest ≡ true }
    ensures { IfOk result (λ text. IsDump text kept.now) }
{
    if has_room(kept) {
        dump_text(alloc, kept)
    } else {
        Err(NoMemory)
    }
}

// The dump of the session's run, or the line that there is none.
fn dump_of(alloc: Global, session: &Session) -> Result<Text, NoMemory>
    ensures { IfOk result (λ text. IsDumpFrom (situation session.now) text) }
{
    // for the proof: a trace whose core blocks are renamed replays the same call
    renaming_law();
    match session.recorded()? {
        None => Text::from_slice(alloc, b"no finished run\n"),
        Some(kept) => {
            let text = text_of(alloc, &kept);
            drop(kept);
            text
        }
    }
}

// Carries out a script, and writes the dump after it.
fn write_dump<K: Sink>(
    alloc: Global,
    session: &mut Session,
    script: &[u8],
    sink: &mut K,
) -> Result<(), Stopped>
    ensures writes { Writes result (K.written sink.old) (K.written sink.new)
        (K.faults sink.old) (K.faults sink.new)
        (IsDumpAfterLines (situation session.old) (script_lines script.now)) }
{
    carry_out_all(session, ScriptLines::new(script))?;
    let text = dump_of(alloc, session)?;
    write_all(sink, text.items())
}

/// Writes the dump of the run after the script.
pub fn dump<K: Sink>(
    alloc: Global,
    fuel: u32,
    input: Input<'_>,
    program: Program,
    sink: &mut K,
) -> Result<(), Stopped>
    requires split { IsSplit input.bytes.now input.part }
    requires opens { Opens input.bytes.now program fuel }
    ensures writes { Writes result (K.written sink.old) (K.written sink.new)
        (K.faults sink.old) (K.faults sink.new) (IsOutput (Dump fuel) input.entry.bytes.now) }
    ensures dumped { OnOk result
        (WritesDump (K.written sink.old) (K.written sink.new) fuel input.entry.bytes.now) }
{
    // for the proof: a session keeps to its situation, each line has a reply, and a renamed trace has the same record
    kept_line();
    some_reply();
    renamed_law();
    let mut session = Session::seeded(alloc, program, fuel, Seed::of_text(input.bytes))?;
    let told = write_dump(alloc, &mut session, script(input.bytes, &input.part), sink);
    drop(session);
    told
}
