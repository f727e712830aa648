// Whole reads and writes.

ghost use Rattle.std.specs.Prelude.{◌≡◌, ◌+◌, ◌<◌, ◌≤◌, length, IfSome, IfOk, OnOk, IsErr, IsErrOf, vec_len};
ghost use Rattle.std.specs.Io.KnownBytes.{Appends, Consumes, IsAtEnd};
ghost use Rattle.ceal_io.specs.Streams.{Rose, LosesAtMost, LosesCount, GrowsByPrefix};
ghost use Rattle.ceal_io.specs.declared.whole.ReadError.TheVariants.{Memory};

use crate::streams::{Failed, Sink, Source, Stopped};
use std::alloc::{AllocError, Global};
use thiserror::Error;

/// Why a source was not read whole.
#[derive(Clone, Copy, Debug, PartialEq, Eq, Error)]
pub enum ReadError {
    /// there was no memory
    #[error("out of memory")]
    Memory,
    /// there was more than the limit; `taken` bytes were read
    #[error("the input is too long")]
    TooLong { taken: u64 },
    /// a read failed
    #[error("a read failed")]
    ReadFault,
}

impl From<AllocError> for ReadError {
    ghost from_gives = { λ _ e. e ≡ Memory };

    fn from(_error: AllocError) -> ReadError {
        ReadError::Memory
    }
}

// How many bytes are asked for at once.
const PIECE: usize = 4096;

/// All bytes up to the end of the input, where there are at most `limit`. Where there are more, `limit + 1` bytes are
/// read.
pub fn read_all<S: Source>(
    alloc: Global,
    source: &mut S,
    limit: usize,
) -> Result<Vec<u8>, ReadError>
    requires { limit < 4294967295 }
    ensures all { IfOk result
        (λ bytes. Consumes (S.left source.old) (S.left source.new) bytes.items) }
    ensures end { OnOk result (IsAtEnd (S.left source.new)) }
    ensures within { IfOk result (λ bytes. vec_len bytes ≤ limit) }
    ensures long { IfSome (S.left source.old) (λ input. limit < length input → IsErr result) }
    ensures too_long { (taken : _) → IsErrOf result (ReadError.TooLong taken)
        → (taken ≡ limit + 1) × LosesCount (S.left source.old) (S.left source.new) taken }
    ensures fault { IsErrOf result ReadError.ReadFault
        → Rose (S.faults source.old) (S.faults source.new) }
    ensures early { IsErrOf result ReadError.ReadFault
        → LosesAtMost (S.left source.old) (S.left source.new) limit }
    ensures lost { LosesAtMost (S.left source.old) (S.left source.new) (limit + 1) }
    ensures later { S.faults source.old ≤ S.faults source.new }
{
    let mut bytes = Vec::new(alloc);
    let mut piece = [0u8; PIECE];
    while bytes.len() <= limit {
        let room = (limit + 1 - bytes.len()).min(PIECE);
        match source.read(&mut piece[..room]) {
            Ok(0) => return Ok(bytes),
            Ok(count) => bytes.extend_from_slice(&piece[..count])?,
            Err(Failed) => return Err(ReadError::ReadFault),
        }
    }
    Err(ReadError::TooLong {
        taken: bytes.len() as u64,
    })
}

/// Writes all the bytes. Where a write stops, those before it have been written.
pub fn write_all<K: Sink>(sink: &mut K, bytes: &[u8]) -> Result<(), Stopped>
    ensures all { OnOk result (Appends (K.written sink.old) (K.written sink.new) bytes.now) }
    ensures prefix { GrowsByPrefix (K.written sink.old) (K.written sink.new) bytes.now }
    ensures fault { IsErrOf result Stopped.Failed → Rose (K.faults sink.old) (K.faults sink.new) }
    ensures memory { IsErrOf result Stopped.Memory → K.takes_memory }
    ensures later { K.faults sink.old ≤ K.faults sink.new }
{
    let mut done = 0;
    while done < bytes.len() {
        let count = sink.write(&bytes[done..])?;
        done += count;
    }
    Ok(())
}
