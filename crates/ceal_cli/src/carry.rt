// Lines that are carried out, and whose replies are not written.

ghost use Rattle.std.specs.Prelude.{ℕ, List, OnOk, IsErrOf};
ghost use Rattle.ceal_session.specs.SessionState.{situation};
ghost use Rattle.ceal_cli.specs.ServedLines.{Carries, Serves};

use crate::lines::ScriptLines;
use ceal_io::Stopped;
use ceal_session::session::Session;

/// Carries out a line.
pub fn carry_out(session: &mut Session, line: &[u8]) -> Result<(), Stopped>
    ensures answered { OnOk result ((text : List ℕ)
        × Serves (situation session.old) line.now text (situation session.new)) }
    ensures memory { ¬ IsErrOf result Stopped.Failed }
{
    session.answer(line)?;
    Ok(())
}

/// Carries out the lines of a script.
pub fn carry_out_all(session: &mut Session, lines: ScriptLines<'_>) -> Result<(), Stopped>
    ensures all { OnOk result
        (Carries (situation session.old) lines.entry (situation session.new)) }
    ensures memory { ¬ IsErrOf result Stopped.Failed }
{
    let mut lines = lines;
    while let Some(line) = lines.next() {
        carry_out(session, line)?;
    }
    Ok(())
}
