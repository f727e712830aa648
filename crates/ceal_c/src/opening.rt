// Opening a source text.

ghost use Rattle.std.specs.Prelude.{◌≡◌, ℕ, List, IfOk, IfErr, OnOk};
ghost use Rattle.ceal_base.specs.declared.fault.Fault.{Fault as FaultOf};
ghost use Rattle.ceal_base.specs.declared.fault.FrontError.TheVariants.{Fault as IsFaultError};
ghost use Rattle.ceal_compile.specs.Compiled.{IsCompiled};
ghost use Rattle.ceal_compile.specs.Source.{IsFirstFault, IsProgram};
ghost use Rattle.ceal_c.specs.Calls.{Opens, OpensNot};
ghost use Rattle.ceal_c.specs.Saves.{ResumesNot};

use crate::open::Open;
use crate::status::Status;
use crate::texts::fill;
use ceal_base::fault::FrontError;
use ceal_base::no_memory::NoMemory;
use ceal_base::text::Text;
use ceal_compile::compile::compile;
use ceal_compile::fault_line::fault_line;
use ceal_compile::program::Program;
use ceal_session::session::{LARGEST_FUEL, Session};
use ceal_types::seed::Seed;
use std::alloc::Global;

/// The most bytes that a source text has.
const LONGEST: usize = 4_194_304;

// Why a source text was not compiled. The line of a fault goes into the room.
fn refuse(alloc: Global, source: &[u8], error: FrontError, room: &mut [u8]) -> Status
    requires { (f : FaultOf) → error ≡ IsFaultError f → IsFirstFault source.now f }
    ensures opens { (fuel : ℕ) → OpensNot source.now fuel room.old result room.new }
    ensures resumes { (save : List ℕ) → ResumesNot source.now save room.old result room.new }
{
    match error {
        FrontError::Memory => Status::NoMemory,
        FrontError::Fault(fault) => match fault_line(alloc, source, fault) {
            Ok(line) => {
                fill(room, line.items());
                drop(line);
                Status::Fault
            }
            Err(NoMemory) => Status::NoMemory,
        },
    }
}

/// The program of a source text, or why there is none.
pub fn program_of(alloc: Global, source: &[u8], room: &mut [u8]) -> Result<Program, Status>
    ensures found { IfOk result (λ program. IsProgram source.now program.typed) }
    ensures compiled { IfOk result IsCompiled }
    ensures quiet { OnOk result (room.new ≡ room.old) }
    ensures opens { IfErr result
        (λ status. (fuel : ℕ) → OpensNot source.now fuel room.old status room.new) }
    ensures resumes { IfErr result
        (λ status. (save : List ℕ) → ResumesNot source.now save room.old status room.new) }
{
    if source.len() > LONGEST {
        return Err(Status::TooLong);
    }
    match compile(alloc, source) {
        Ok(program) => Ok(program),
        Err(error) => Err(refuse(alloc, source, error, room)),
    }
}

// A session over a source text, or why there is none.
fn session_of(alloc: Global, source: &[u8], fuel: u32, room: &mut [u8]) -> Result<Open, Status>
    ensures opened { IfOk result (λ new. Opens source.now fuel new) }
    ensures quiet { OnOk result (room.new ≡ room.old) }
    ensures not { IfErr result (λ status. OpensNot source.now fuel room.old status room.new) }
{
    if fuel < 1 || fuel > LARGEST_FUEL {
        return Err(Status::BadFuel);
    }
    match program_of(alloc, source, room) {
        Ok(program) => match Session::seeded(alloc, program, fuel, Seed::of_text(source)) {
            Ok(session) => Ok(Open {
                session,
                reply: Text::empty(alloc),
            }),
            Err(NoMemory) => Err(Status::NoMemory),
        },
        Err(status) => Err(status),
    }
}

/// Opens a session over a source text.
pub fn open_source(
    alloc: Global,
    source: &[u8],
    fuel: u32,
    room: &mut [u8],
) -> Result<Box<Open, Global>, Status>
    ensures opened { IfOk result (λ new. Opens source.now fuel new.value) }
    ensures quiet { OnOk result (room.new ≡ room.old) }
    ensures not { IfErr result (λ status. OpensNot source.now fuel room.old status room.new) }
{
    let session = session_of(alloc, source, fuel, room)?;
    match Box::new(alloc, session) {
        Ok(session) => Ok(session),
        Err(failed) => {
            drop(failed);
            Err(Status::NoMemory)
        }
    }
}
