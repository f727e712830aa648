// Saved sessions. The save and the replies were worked out by hand from the rules of the language and of the text.

ghost use Rattle.std.specs.Prelude.{IfOk, IfSome};
ghost use Rattle.ceal_compile.specs.Compiled.{IsCompiled};

use crate::asserts::{equal, holds};
use crate::dumps::INCREMENT;
use ceal_base::no_memory::NoMemory;
use ceal_base::text::Text;
use ceal_compile::compile::compile;
use ceal_compile::program::Program;
use ceal_dump::has_dump::has_dump;
use ceal_samples::programs::{INC, MAP};
use ceal_session::session::{RestoreError, Session};
use ceal_snap::are_names;
use ceal_snap::read::{SaveError, read_save};
use ceal_snap::saved::Saved;
use ceal_snap::write::save_text;
use std::alloc::Global;
use std::process::Abort;
use std::test::Fail;

/// The save of the increment of 4, with this fuel and these names.
fn increment(alloc: Global, fuel: &str, names: &str) -> Result<String, NoMemory> {
    let text = format!(in alloc;
        "ceal-save 1\nfuel {fuel}\nwork 2\nbound 2\nnames {names}{INCREMENT}"
    )?;
    Ok(text)
}

/// The program of a source.
fn program(alloc: Global, source: &[u8]) -> Result<Program, Fail>
    ensures compiled { IfOk result IsCompiled }
{
    if source.len() > 4_194_304 {
        return Err(Fail::from("too long a source"));
    }
    let program = compile(alloc, source)?;
    Ok(program)
}

/// The text of a save; None where it has none.
fn text_of(alloc: Global, saved: &Saved) -> Result<Option<Text>, NoMemory> {
    if !are_names(saved.items()) {
        return Ok(None);
    }
    if saved.items().len() >= 1 << 32 {
        return Ok(None);
    }
    if !has_dump(&saved.kept) {
        return Ok(None);
    }
    let text = save_text(alloc, saved)?;
    Ok(Some(text))
}

/// The lines have these replies, one after another.
fn replies<R: Abort>(rt: &R, session: &mut Session, lines: &[(&str, &str)]) -> Result<(), Fail> {
    for (line, wanted) in lines {
        let text = session.command(line.as_bytes())?;
        equal(rt, text.items(), wanted.as_bytes());
        drop(text);
    }
    Ok(())
}

#[test]
fn a_save_is_read_and_written(rt: HostRuntime) -> Result<(), Fail> {
    let alloc = rt.alloc();
    let text = increment(alloc, "1000000", "2\na\nb\n")?;
    match read_save(alloc, text.as_bytes()) {
        Ok(saved) => {
            assert_eq!(rt; (saved.fuel, saved.work, saved.bound), (1_000_000, 2, 2));
            assert_eq!(rt; saved.items().len(), 2);
            let written = save_text(alloc, &saved)?;
            equal(&rt, written.items(), text.as_bytes());
            drop(written);
            drop(saved);
        }
        Err(_) => panic!(rt; "it is unreadable"),
    }
    Ok(())
}

#[test]
fn other_bytes_are_no_save(rt: HostRuntime) -> Result<(), Fail> {
    let alloc = rt.alloc();
    // a leading zero, no name for a number, a name that is none, and a carriage return
    for (fuel, names) in [
        ("08", "2\na\nb\n"),
        ("8", "2\na\n"),
        ("8", "2\na\nnull\n"),
        ("8\r", "2\na\nb\n"),
    ] {
        let text = increment(alloc, fuel, names)?;
        match read_save(alloc, text.as_bytes()) {
            Ok(saved) => {
                drop(saved);
                panic!(rt; "it is read");
            }
            Err(error) => assert_eq!(rt; error, SaveError::Unreadable),
        }
    }
    Ok(())
}

/// The increment of 4 is run. Before that there is nothing to save.
fn run_increment<R: Abort>(rt: &R, session: &mut Session) -> Result<Option<Saved>, Fail> {
    let none = session.saved()?;
    holds(rt, none.is_none());
    drop(none);
    let lines = [
        ("mod a int 4", "ok\n"),
        ("mod b int 0", "ok\n"),
        ("run inc a b", "ok\n"),
    ];
    replies(rt, session, &lines)?;
    let saved = session.saved()?;
    Ok(saved)
}

/// The save of the increment.
fn increment_saved<R: Abort>(rt: &R, alloc: Global) -> Result<Option<Saved>, Fail> {
    let program = program(alloc, INC)?;
    let mut session = Session::new(alloc, program, 1_000_000)?;
    let saved = run_increment(rt, &mut session);
    drop(session);
    saved
}

/// The text of a save, which is there.
fn text_saved<R: Abort>(rt: &R, alloc: Global, saved: Option<Saved>) -> Result<Option<Text>, Fail> {
    match saved {
        None => panic!(rt; "there is no run"),
        Some(saved) => {
            let text = text_of(alloc, &saved);
            drop(saved);
            Ok(text?)
        }
    }
}

#[test]
fn a_session_is_saved(rt: HostRuntime) -> Result<(), Fail> {
    let alloc = rt.alloc();
    let wanted = increment(alloc, "1000000", "2\na\nb\n")?;
    let saved = increment_saved(&rt, alloc)?;
    match text_saved(&rt, alloc, saved)? {
        None => panic!(rt; "it has no text"),
        Some(text) => {
            equal(&rt, text.items(), wanted.as_bytes());
            drop(text);
        }
    }
    Ok(())
}

/// The session over INC that continues from this save.
fn resumed(alloc: Global, text: &str) -> Result<Result<Session, RestoreError>, Fail> {
    let program = program(alloc, INC)?;
    match read_save(alloc, text.as_bytes()) {
        Ok(saved) => Ok(Session::restore(alloc, program, saved)),
        Err(_) => {
            drop(program);
            Err(Fail::from("no save"))
        }
    }
}

#[test]
fn a_session_goes_on_from_a_save(rt: HostRuntime) -> Result<(), Fail> {
    let alloc = rt.alloc();
    let text = increment(alloc, "1000000", "2\na\nb\n")?;
    match resumed(alloc, &text)? {
        Ok(mut session) => {
            let told = replies(
                &rt,
                &mut session,
                &[
                    ("bound", "2\n"),
                    ("get b", "5\n"),
                    ("set a 9", "ok\n"),
                    ("propagate", "ok\n"),
                    ("work", "1\n"),
                    ("get b", "10\n"),
                    ("run inc a b", "refused C6: already run\n"),
                ],
            );
            drop(session);
            told
        }
        Err(_) => panic!(rt; "it does not hold"),
    }
}

#[test]
fn a_save_that_does_not_hold_is_refused(rt: HostRuntime) -> Result<(), Fail> {
    let alloc = rt.alloc();
    // less fuel than steps, more than there may be, one name for two inputs, and one name twice
    for (fuel, names) in [
        ("1", "2\na\nb\n"),
        ("4194305", "2\na\nb\n"),
        ("1000000", "1\na\n"),
        ("1000000", "2\na\na\n"),
    ] {
        let text = increment(alloc, fuel, names)?;
        match resumed(alloc, &text)? {
            Ok(session) => {
                drop(session);
                panic!(rt; "it holds");
            }
            Err(error) => assert_eq!(rt; error, RestoreError::Unsound),
        }
    }
    Ok(())
}

/// A list is mapped.
fn run_list<R: Abort>(rt: &R, session: &mut Session) -> Result<Option<Saved>, Fail> {
    let lines = [
        ("new c3 cell 3 null", "ok\n"),
        ("new c2 cell 2 c3", "ok\n"),
        ("new c1 cell 1 c2", "ok\n"),
        ("mod l cell c1", "ok\n"),
        ("mod o cell null", "ok\n"),
        ("run map l o", "ok\n"),
    ];
    replies(rt, session, &lines)?;
    let saved = session.saved()?;
    Ok(saved)
}

fn list_saved<R: Abort>(rt: &R, alloc: Global) -> Result<Option<Saved>, Fail> {
    let program = program(alloc, MAP)?;
    let mut session = Session::new(alloc, program, 1_000_000)?;
    let saved = run_list(rt, &mut session);
    drop(session);
    saved
}

/// A session over the list that was saved, before and after an update.
fn list_goes_on<R: Abort>(rt: &R, session: &mut Session) -> Result<(), Fail> {
    let lines = [
        ("steps", "18\n"),
        ("blocks", "3\n"),
        ("get o", "#1\n"),
        (
            "show o",
            "o mod cell value=#1\n#1 cell head=10 tail=#2\n#2 cell head=20 tail=#3\n#3 cell head=30 tail=null\nend\n",
        ),
        ("new c0 cell 0 c1", "ok\n"),
        ("set l c0", "ok\n"),
        ("propagate", "ok\n"),
        ("work", "10\n"),
        ("steps", "23\n"),
        ("blocks", "4\n"),
        (
            "show o",
            "o mod cell value=#1\n#1 cell head=0 tail=#2\n#2 cell head=10 tail=#3\n#3 cell head=20 tail=#4\n#4 cell head=30 tail=null\nend\n",
        ),
    ];
    replies(rt, session, &lines)
}

/// The session that continues from the save of a list.
fn list_resumed<R: Abort>(
    rt: &R,
    alloc: Global,
    program: Program,
    saved: Option<Saved>,
) -> Result<(), Fail>
    requires compiled { IsCompiled program }
{
    match saved {
        None => {
            drop(program);
            panic!(rt; "there is no run")
        }
        Some(saved) => match Session::restore(alloc, program, saved) {
            Ok(session) => {
                let mut session = session;
                let told = list_goes_on(rt, &mut session);
                drop(session);
                told
            }
            Err(_) => panic!(rt; "it does not hold"),
        },
    }
}

#[test]
fn a_list_is_saved_and_goes_on(rt: HostRuntime) -> Result<(), Fail> {
    let alloc = rt.alloc();
    let again = program(alloc, MAP)?;
    match list_saved(&rt, alloc) {
        Ok(saved) => list_resumed(&rt, alloc, again, saved),
        Err(fail) => {
            drop(again);
            Err(fail)
        }
    }
}
