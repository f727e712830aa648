// The same list through a session, to be measured: each turn is a line and its reply. `bench/turns.py` runs it.

use crate::jobs::MAP;
use crate::order::change;
use crate::trouble::Trouble;
use ceal_compile::compile::compile;
use ceal_session::session::Session;
use std::alloc::Global;

/// A session with a finished run over a list of this size. A run may take as many steps as there can be.
pub fn open(alloc: Global, size: u32) -> Result<Session, Trouble> {
    let program = compile(alloc, MAP)?;
    let mut session = Session::new(alloc, program, 4_194_304)?;
    match prepare(alloc, &mut session, size) {
        Ok(()) => Ok(session),
        Err(trouble) => {
            drop(session);
            Err(trouble)
        }
    }
}

/// Makes the inputs, and runs the program on them.
fn prepare(alloc: Global, session: &mut Session, size: u32) -> Result<(), Trouble> {
    change(session, b"new c0 cell 0 null")?;
    for number in 1..size {
        let line = format!(in alloc; "new c{number} cell {number} c{}", number - 1)?;
        change(session, line.as_bytes())?;
    }
    let line = format!(in alloc; "mod list cell c{}", size.saturating_sub(1))?;
    change(session, line.as_bytes())?;
    change(session, b"mod image cell null")?;
    change(session, b"run map list image")
}

/// Two turns: a cell is taken out of the list or put back, and the run is brought up to date.
pub fn turn(alloc: Global, session: &mut Session, cell: u32, next: u32) -> Result<(), Trouble> {
    let line = format!(in alloc; "set c{cell}.tail c{next}")?;
    change(session, line.as_bytes())?;
    change(session, b"propagate")
}
