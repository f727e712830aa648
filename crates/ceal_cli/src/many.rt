// The replies to a script of many sessions.

ghost use Rattle.std.specs.Prelude.{◌≡◌, []};
ghost use Rattle.ceal_lex.specs.Parts.{IsSplit};
ghost use Rattle.ceal_session.specs.Consistency.{IsConsistent};
ghost use Rattle.ceal_cli.specs.Members.{first_situation, AreReady, Answered, Opens};
ghost use Rattle.ceal_cli.specs.SinkGrowth.{Writes};
ghost use Rattle.ceal_cli.specs.ManySessions.{AreTold};
ghost use Rattle.ceal_cli.specs.Output.{IsOutput};
ghost use Rattle.ceal_cli.specs.declared.words.Mode.TheVariants.{Many as ManyMode};

use crate::input::Input;
use crate::lines::{ScriptLines, script};
use crate::members::{Member, Members};
use ceal_compile::program::Program;
use ceal_io::{Sink, Stopped, write_all};
use ceal_many::Many;
use ceal_many::laws::some_reply as some_replies;
use ceal_session::laws::{one_reply, some_reply};
use std::alloc::Global;

// Writes the reply to a line.
fn reply<K: Sink>(many: &mut Many<Members<'_>>, line: &[u8], sink: &mut K) -> Result<(), Stopped>
    requires ready { AreReady many.old.sessions }
    requires sound { IsConsistent (first_situation many.old.maker) }
    ensures writes { Writes result (K.written sink.old) (K.written sink.new)
        (K.faults sink.old) (K.faults sink.new)
        (Answered (first_situation many.old.maker)
        many.old.sessions line.now many.new.sessions) }
    ensures maker { many.new.maker ≡ many.old.maker }
{
    let text = many.command(line)?;
    write_all(sink, text.items())
}

// Writes the reply to each line as soon as it is made.
fn reply_all<K: Sink>(
    many: &mut Many<Members<'_>>,
    lines: ScriptLines<'_>,
    sink: &mut K,
) -> Result<(), Stopped>
    requires none { many.old.sessions ≡ [] }
    requires sound { IsConsistent (first_situation many.old.maker) }
    ensures writes { Writes result (K.written sink.old) (K.written sink.new)
        (K.faults sink.old) (K.faults sink.new)
        (AreTold (first_situation many.old.maker) [] lines.entry) }
{
    // for the proof: each line of many sessions has exactly one reply
    one_reply();
    some_reply();
    some_replies::<Member>();
    let mut lines = lines;
    while let Some(line) = lines.next() {
        reply(many, line, sink)?;
    }
    Ok(())
}

/// Writes the replies to the script after the mark, each by the session that its line names.
pub fn many<K: Sink>(
    alloc: Global,
    fuel: u32,
    input: Input<'_>,
    program: Program,
    sink: &mut K,
) -> Result<(), Stopped>
    requires split { IsSplit input.bytes.now input.part }
    requires opens { Opens input.bytes.now program fuel }
    ensures writes { Writes result (K.written sink.old) (K.written sink.new)
        (K.faults sink.old) (K.faults sink.new) (IsOutput (ManyMode fuel) input.entry.bytes.now) }
{
    // for the proof: in a situation each line has a reply
    some_reply();
    let lines = ScriptLines::new(script(input.bytes, &input.part));
    let mut many = Many::new(alloc, Members::new(alloc, input, program, fuel))?;
    reply_all(&mut many, lines, sink)
}
