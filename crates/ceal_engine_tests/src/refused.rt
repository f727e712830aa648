// The lines of a session, where memory may be refused. In the gate none is; `rt try --test --fail-alloc N` refuses the
// Nth allocation of each test, and what was refused is then asked again. The replies were worked out by hand.

use crate::asserts::equal;
use crate::recovered::program;
use ceal_base::no_memory::NoMemory;
use ceal_base::text::Text;
use ceal_session::session::Session;
use std::alloc::Global;
use std::process::Abort;
use std::test::Fail;

/// A session over MAP; None where there was no memory for it.
fn session(alloc: Global) -> Option<Session> {
    let program = program(alloc)?;
    Session::new(alloc, program, 1000).ok()
}

const ALREADY_RUN: &str = "refused C6: already run\n";

/// The reply to a line that is given again. A run that had begun, and for which there was no memory, is brought about
/// by `propagate`.
fn reply_again(session: &mut Session, line: &str, wanted: &str) -> Result<Text, NoMemory> {
    let text = session.command(line.as_bytes())?;
    if text.items() == ALREADY_RUN.as_bytes() && wanted != ALREADY_RUN {
        drop(text);
        session.command(b"propagate")
    } else {
        Ok(text)
    }
}

/// The reply to a line, also where memory is refused once.
fn reply(session: &mut Session, line: &str, wanted: &str) -> Result<Text, NoMemory> {
    match session.command(line.as_bytes()) {
        Ok(text) => Ok(text),
        Err(NoMemory) => reply_again(session, line, wanted),
    }
}

/// Lines with their replies: each kind of line but `work`, which tells that all was run again where memory was refused.
const LINES: [(&str, &str); 19] = [
    ("// a list and its image", ""),
    ("new c3 cell 3 null", "ok\n"),
    ("new c2 cell 2 c3", "ok\n"),
    ("new c1 cell 1 c2", "ok\n"),
    ("mod l cell c1", "ok\n"),
    ("mod o cell null", "ok\n"),
    ("mod n int 5", "ok\n"),
    ("run map l o", "ok\n"),
    ("steps", "18\n"),
    ("blocks", "3\n"),
    ("get o", "#1\n"),
    (
        "show o",
        "o mod cell value=#1\n#1 cell head=10 tail=#2\n#2 cell head=20 tail=#3\n#3 cell head=30 tail=null\nend\n",
    ),
    ("new c0 cell 0 c1", "ok\n"),
    ("set l c0", "ok\n"),
    ("propagate", "ok\n"),
    ("steps", "23\n"),
    ("blocks", "4\n"),
    (
        "show o",
        "o mod cell value=#1\n#1 cell head=0 tail=#2\n#2 cell head=10 tail=#3\n#3 cell head=20 tail=#4\n#4 cell head=30 tail=null\nend\n",
    ),
    ("run map l o", ALREADY_RUN),
];

/// The lines have their replies, one after another.
fn replies<R: Abort>(rt: &R, session: &mut Session) -> Result<(), Fail> {
    for (line, wanted) in LINES {
        let text = reply(session, line, wanted)?;
        equal(rt, text.items(), wanted.as_bytes());
        drop(text);
    }
    Ok(())
}

#[test]
fn a_line_may_be_given_again(rt: HostRuntime) -> Result<(), Fail> {
    let Some(mut session) = session(rt.alloc()) else {
        return Ok(());
    };
    let told = replies(&rt, &mut session);
    drop(session);
    told
}
