// Saves: a session as a text, and a session that continues from one.

ghost use Rattle.std.specs.Prelude.{◌≡◌, IfOk, IfErr, OnOk};
ghost use Rattle.ceal_compile.specs.Compiled.{IsCompiled};
ghost use Rattle.ceal_session.specs.InputNames.{AreSpelled};
ghost use Rattle.ceal_snap.specs.SaveText.{IsSave};
ghost use Rattle.ceal_c.specs.Saves.{Continues, ContinuesNot, IsSaveOf, Resumes, ResumesNot, SavesNot};
ghost use Rattle.ceal_c.specs.declared.status.Status.TheVariants.{NoMemory as WasNoMemory};

use crate::open::Open;
use crate::opening::program_of;
use crate::status::Status;
use ceal_base::no_memory::NoMemory;
use ceal_base::text::Text;
use ceal_compile::program::Program;
use ceal_dump::has_dump::has_dump;
use ceal_session::session::{RestoreError, Session};
use ceal_snap::read::{SaveError, read_save};
use ceal_snap::saved::Saved;
use ceal_snap::write::save_text;
use ceal_types::seed::Seed;
use std::alloc::Global;

// The text of a save. Where one of its counts has no room in 32 bits, that is out of memory.
fn text_of(alloc: Global, saved: &Saved) -> Result<Text, Status>
    requires { AreSpelled saved.now.names }
    ensures text { IfOk result (λ text. IsSave text saved.now) }
    ensures memory { IfErr result (λ status. status ≡ WasNoMemory) }
{
    if saved.items().len() >= 1 << 32 || !has_dump(&saved.kept) {
        return Err(Status::NoMemory);
    }
    match save_text(alloc, saved) {
        Ok(text) => Ok(text),
        Err(NoMemory) => Err(Status::NoMemory),
    }
}

/// The text of the session's save, or why there is none.
pub fn save_text_of(alloc: Global, session: &Session) -> Result<Text, Status>
    ensures text { IfOk result (λ text. IsSaveOf session.now text) }
    ensures not { IfErr result (λ status. SavesNot session.now status) }
{
    match session.saved() {
        Ok(Some(saved)) => {
            let text = text_of(alloc, &saved);
            drop(saved);
            text
        }
        Ok(None) => Err(Status::NotReady),
        Err(NoMemory) => Err(Status::NoMemory),
    }
}

// A session of the program that continues from the bytes of a save.
fn restored(alloc: Global, program: Program, bytes: &[u8]) -> Result<Session, Status>
    requires { IsCompiled program }
    ensures restored { IfOk result (λ session. Continues program bytes.now session) }
    ensures not { IfErr result (λ status. ContinuesNot program bytes.now status) }
{
    match read_save(alloc, bytes) {
        Ok(saved) => match Session::restore_seeded(alloc, program, saved, Seed::of_text(bytes)) {
            Ok(session) => Ok(session),
            Err(RestoreError::Memory) => Err(Status::NoMemory),
            Err(RestoreError::Unsound) => Err(Status::Unsound),
        },
        Err(SaveError::Memory) => {
            drop(program);
            Err(Status::NoMemory)
        }
        Err(SaveError::Unreadable) => {
            drop(program);
            Err(Status::Unreadable)
        }
    }
}

// A session of the program of a source text that continues from the bytes of a save, or why there is none.
fn resumed(alloc: Global, source: &[u8], bytes: &[u8], room: &mut [u8]) -> Result<Open, Status>
    ensures resumed { IfOk result (λ new. Resumes source.now bytes.now new) }
    ensures quiet { OnOk result (room.new ≡ room.old) }
    ensures not { IfErr result
        (λ status. ResumesNot source.now bytes.now room.old status room.new) }
{
    match program_of(alloc, source, room) {
        Ok(program) => match restored(alloc, program, bytes) {
            Ok(session) => Ok(Open {
                session,
                reply: Text::empty(alloc),
            }),
            Err(status) => Err(status),
        },
        Err(status) => Err(status),
    }
}

/// Opens a session that continues from a save.
pub fn resume_source(
    alloc: Global,
    source: &[u8],
    bytes: &[u8],
    room: &mut [u8],
) -> Result<Box<Open, Global>, Status>
    ensures resumed { IfOk result (λ new. Resumes source.now bytes.now new.value) }
    ensures quiet { OnOk result (room.new ≡ room.old) }
    ensures not { IfErr result
        (λ status. ResumesNot source.now bytes.now room.old status room.new) }
{
    let session = resumed(alloc, source, bytes, room)?;
    match Box::new(alloc, session) {
        Ok(session) => Ok(session),
        Err(failed) => {
            drop(failed);
            Err(Status::NoMemory)
        }
    }
}
