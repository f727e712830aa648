// Values of a session without text. The numbers and the refusals were worked out by hand from the rules of scripts.

ghost use Rattle.std.specs.Prelude.{IfOk};
ghost use Rattle.ceal_compile.specs.Compiled.{IsCompiled};

use crate::asserts::equal;
use ceal_base::word::{BlockId, Place};
use ceal_compile::compile::compile;
use ceal_compile::program::Program;
use ceal_samples::programs::{INC, MAP};
use ceal_session::handle::Handle;
use ceal_session::refusal::Refusal;
use ceal_session::session::Session;
use ceal_session::value_error::ValueError;
use std::alloc::Global;
use std::process::Abort;
use std::test::Fail;

/// The program of a source.
fn program(alloc: Global, source: &[u8]) -> Result<Program, Fail>
    ensures compiled { IfOk result IsCompiled }
{
    if source.len() > 4_194_304 {
        return Err(Fail::from("too long a source"));
    }
    let program = compile(alloc, source)?;
    Ok(program)
}

/// Each line is answered `ok`.
fn told<R: Abort>(rt: &R, session: &mut Session, lines: &[&str]) -> Result<(), Fail> {
    for line in lines {
        let text = session.command(line.as_bytes())?;
        equal(rt, text.items(), b"ok\n".as_slice());
        drop(text);
    }
    Ok(())
}

/// The handle of a modifiable that is there.
fn handle<R: Abort>(rt: &R, session: &Session, name: &str) -> Handle {
    session.handle(name.as_bytes()).expect(rt, "a handle")
}

/// The name has no handle, and why.
fn has_none<R: Abort>(rt: &R, session: &Session, name: &str, why: Refusal) {
    let found = session.handle(name.as_bytes());
    equal(rt, found, Err(ValueError::Refused(why)));
}

/// A run, an edit and a propagate, with numbers in place of texts.
fn numbers<R: Abort>(rt: &R, session: &mut Session) -> Result<(), Fail> {
    told(rt, session, &["mod a int 4", "mod b int 0"])?;
    let a = handle(rt, session, "a");
    let b = handle(rt, session, "b");
    equal(rt, session.number_at(a), Err(Refusal::C7));
    told(rt, session, &["run inc a b"])?;
    equal(rt, session.number(b"b"), Ok(5));
    equal(rt, session.number_at(a), Ok(4));
    equal(rt, session.set_number(a, -9), Ok(()));
    equal(rt, session.number_at(b), Err(Refusal::C8));
    told(rt, session, &["propagate"])?;
    equal(rt, session.number_at(b), Ok(-8));
    equal(rt, session.number(b"a"), Ok(-9));
    Ok(())
}

#[test]
fn numbers_are_told_and_set(rt: HostRuntime) -> Result<(), Fail> {
    let alloc = rt.alloc();
    let program = program(alloc, INC)?;
    let mut session = Session::new(alloc, program, 1_000_000)?;
    let told = numbers(&rt, &mut session);
    drop(session);
    told
}

/// These have changed since the mark.
fn have_changed<R: Abort>(rt: &R, session: &Session, wanted: &[Handle]) -> Result<(), Fail> {
    let told = session.changed().expect(rt, "an answer");
    let changed = told.expect(rt, "a mark");
    equal(rt, changed.as_slice(), wanted);
    drop(changed);
    Ok(())
}

/// A mark, an edit, and the edit that takes it back.
fn changes<R: Abort>(rt: &R, session: &mut Session) -> Result<(), Fail> {
    told(rt, session, &["mod a int 4", "mod b int 0", "run inc a b"])?;
    let a = handle(rt, session, "a");
    let b = handle(rt, session, "b");
    equal(rt, session.mark(), Ok(()));
    have_changed(rt, session, &[])?;
    equal(rt, session.set_number(a, 9), Ok(()));
    let pending = Err(ValueError::Refused(Refusal::C8));
    equal(rt, session.mark(), pending);
    told(rt, session, &["propagate"])?;
    have_changed(rt, session, &[a, b])?;
    equal(rt, session.set_number(a, 4), Ok(()));
    told(rt, session, &["propagate"])?;
    have_changed(rt, session, &[])
}

#[test]
fn what_has_changed_is_told(rt: HostRuntime) -> Result<(), Fail> {
    let alloc = rt.alloc();
    let program = program(alloc, INC)?;
    let mut session = Session::new(alloc, program, 1_000_000)?;
    let told = changes(&rt, &mut session);
    drop(session);
    told
}

/// What is no modifiable of a number: a word that is no name, a name that is not there, a block, a plain field, a
/// pointer, and a place of no input.
fn refusals<R: Abort>(rt: &R, session: &mut Session) -> Result<(), Fail> {
    told(
        rt,
        session,
        &[
            "new c cell 3 null",
            "mod l cell c",
            "mod o cell null",
            "run map l o",
        ],
    )?;
    has_none(rt, session, "l l", Refusal::C1);
    has_none(rt, session, "m", Refusal::C2);
    has_none(rt, session, "c", Refusal::C4);
    has_none(rt, session, "c.head", Refusal::C4);
    let tail = handle(rt, session, "c.tail");
    equal(rt, session.number_at(tail), Err(Refusal::C4));
    let refused = Err(ValueError::Refused(Refusal::C4));
    equal(rt, session.set_number(tail, 1), refused);
    let nowhere = Handle {
        place: Place {
            block: BlockId::Core(0),
            field: 0,
        },
    };
    equal(rt, session.number_at(nowhere), Err(Refusal::C4));
    equal(rt, session.set_number(nowhere, 1), refused);
    Ok(())
}

#[test]
fn what_is_no_number_is_refused(rt: HostRuntime) -> Result<(), Fail> {
    let alloc = rt.alloc();
    let program = program(alloc, MAP)?;
    let mut session = Session::new(alloc, program, 1_000_000)?;
    let told = refusals(&rt, &mut session);
    drop(session);
    told
}
