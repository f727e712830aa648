// What `main` of a program begins and ends with.

ghost use Rattle.std.specs.IoError.{error_kind};
ghost use Rattle.std.specs.Prelude.{◌≡◌, ◌≢◌, ◌⊎◌, drop, IfOk, IfErr, IsErr, IsErrOf, IsErrAnd};
ghost use Rattle.std.specs.Vec.Iter.{into_iter_items};
ghost use Rattle.std.specs.declared.io.ErrorKind.{ErrorKind as KindOf};
ghost use Rattle.ceal_cli.specs.Answers.{status_number as number_of, status_text};

use crate::top::{Status, status_line, status_number};
use std::alloc::Global;
use std::env::Args;
use std::io;

// All but the first of the arguments.
fn words_after_name(alloc: Global, args: Args) -> Result<Vec<String>, Status>
    ensures words { IfOk result (λ words. words.items ≡ drop 1 (into_iter_items args)) }
    ensures memory { IfErr result (λ status. status ≡ Status.Memory) }
{
    let mut args = args;
    let _ = args.next();
    match args.collect::<Vec<String>>(alloc) {
        Ok(words) => Ok(words),
        Err(_) => Err(Status::Memory),
    }
}

/// The words after the program's name, which is the first argument. Where they cannot be had, the program ends so: as
/// Memory where there was no memory for them, and as Usage where an argument is no text.
pub fn words_of(alloc: Global, args: io::Result<Args>) -> Result<Vec<String>, Status>
    ensures words { IfOk args
        (λ all. IfOk result (λ words. words.items ≡ drop 1 (into_iter_items all))) }
    ensures failed { IsErr args → IsErr result }
    ensures status { IfErr result (λ status. (status ≡ Status.Usage) ⊎ (status ≡ Status.Memory)) }
    ensures usage { IsErrOf result Status.Usage
        → IsErrAnd args (λ error. error_kind error ≢ KindOf.OutOfMemory) }
    ensures memory { IsErrOf result Status.Memory
        → IfErr args (λ error. error_kind error ≡ KindOf.OutOfMemory) }
{
    match args {
        Ok(all) => words_after_name(alloc, all),
        Err(error) if error.kind() == io::ErrorKind::OutOfMemory => Err(Status::Memory),
        Err(_) => Err(Status::Usage),
    }
}

/// How the process ends: its exit status, and what is said on standard error.
pub fn finish(status: Status) -> (u8, &'static str)
    ensures number { result.0 ≡ number_of status }
    ensures line { result.1.now ≡ status_text status }
{
    (status_number(status), status_line(status))
}
