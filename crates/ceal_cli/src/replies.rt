// The replies to the lines of a script.

ghost use Rattle.std.specs.Io.KnownBytes.{Keeps};
ghost use Rattle.std.specs.Prelude.{IsErrOf};
ghost use Rattle.ceal_session.specs.SessionState.{situation};
ghost use Rattle.ceal_cli.specs.SinkGrowth.{Grows, Puts};
ghost use Rattle.ceal_cli.specs.ServedLines.{AreServed, BeginServed, BeginsReply, FirstAreServed, IsReply};

use crate::lines::ScriptLines;
use ceal_io::{Sink, Stopped, write_all};
use ceal_session::session::Session;

// Writes the reply to a line.
fn reply<K: Sink>(session: &mut Session, line: &[u8], sink: &mut K) -> Result<(), Stopped>
    ensures writes { Puts result (K.written sink.old) (K.written sink.new)
        (K.faults sink.old) (K.faults sink.new)
        (IsReply (situation session.old) line.now (situation session.new))
        (BeginsReply (situation session.old) line.now) }
    ensures memory { IsErrOf result Stopped.Memory → ¬ K.takes_memory
        → Keeps (K.written sink.old) (K.written sink.new) }
{
    let answer = session.answer(line)?;
    write_all(sink, answer.items())
}

/// Writes the reply to each line as soon as it is made. Where memory runs out for the next one, and not in the sink,
/// those before it have been written whole.
pub fn reply_all<K: Sink>(
    session: &mut Session,
    lines: ScriptLines<'_>,
    sink: &mut K,
) -> Result<(), Stopped>
    ensures writes { Puts result (K.written sink.old) (K.written sink.new)
        (K.faults sink.old) (K.faults sink.new)
        (AreServed (situation session.old) lines.entry)
        (BeginServed (situation session.old) lines.entry) }
    ensures cut { IsErrOf result Stopped.Memory → ¬ K.takes_memory
        → Grows (K.written sink.old) (K.written sink.new)
        (FirstAreServed (situation session.old) lines.entry) }
{
    let mut lines = lines;
    while let Some(line) = lines.next() {
        reply(session, line, sink)?;
    }
    Ok(())
}
