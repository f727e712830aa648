// The replies from that of the first run on.

ghost use Rattle.std.specs.Prelude.{◌↔◌, IsTrue};
ghost use Rattle.ceal_session.specs.SessionState.{situation};
ghost use Rattle.ceal_cli.specs.SinkGrowth.{Puts};
ghost use Rattle.ceal_cli.specs.ServedLines.{AreServedFromRun, BeginServedFromRun};
ghost use Rattle.ceal_cli.specs.Output.{IsRunLine};

use crate::carry::carry_out;
use crate::lines::ScriptLines;
use crate::replies::reply_all;
use ceal_io::{Sink, Stopped};
use ceal_session::session::Session;

// Whether a line begins with `run `.
fn is_run_line(line: &[u8]) -> bool
    ensures { IsTrue result ↔ IsRunLine line.now }
{
    line.starts_with(b"run ")
}

/// Carries out the lines before the first that begins with `run `, and writes the reply to each line from that one on.
pub fn reply_from_run<K: Sink>(
    session: &mut Session,
    lines: ScriptLines<'_>,
    sink: &mut K,
) -> Result<(), Stopped>
    ensures writes { Puts result (K.written sink.old) (K.written sink.new)
        (K.faults sink.old) (K.faults sink.new)
        (AreServedFromRun (situation session.old) lines.entry)
        (BeginServedFromRun (situation session.old) lines.entry) }
{
    let mut lines = lines;
    loop {
        let here = lines.copied();
        let Some(line) = lines.next() else {
            return Ok(());
        };
        if is_run_line(line) {
            return reply_all(session, here, sink);
        }
        carry_out(session, line)?;
    }
}
