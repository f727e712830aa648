// A source and a sink over a reader and a writer of std. Each call makes one call of std, whose errors are counted,
// an interrupted call's too.

ghost use Rattle.std.specs.Prelude.{◌≡◌, ◌<◌, ◌≤◌, length, IfOk, IfErr, OnErr, IsErrOf, is_err};
ghost use Rattle.std.specs.Io.{ReadsAtMost, WritesAtMost};
ghost use Rattle.std.specs.Io.KnownBytes.{ReadConsumes, WriteAppends};
ghost use Rattle.ceal_io.specs.Streams.{Rose, faults_after};

use crate::streams::{Failed, Sink, Source, Stopped};
use std::io::{Read, Write};
use std::marker::Model;

/// A source over a reader.
#[derive(Drop)]
pub struct StdSource<R: Read> {
    reader: R,
    faults: u64,
}

impl<R: Read> Model for StdSource<R> {
    ghost use Rattle.ceal_io.specs.Streams.{StdStream};

    ghost Value = { StdStream };

    ghost view = { λ s. record { known = R.remaining s.reader; faults = s.faults } };
}

impl<R: Read> StdSource<R> {
    /// A source of what the reader has.
    pub fn new(reader: R) -> StdSource<R>
        ensures { result ≡ record { known = R.remaining reader; faults = 0 } }
    {
        StdSource { reader, faults: 0 }
    }
}

impl<R: Read> Source for StdSource<R> {
    ghost left = { λ s. s.known };

    ghost faults = { λ s. s.faults };

    fn read(&mut self, into: &mut [u8]) -> Result<usize, Failed>
        ensures bound { ReadsAtMost result into.new }
        ensures bytes { ReadConsumes self.old.known self.new.known result into.new }
        ensures cause { OnErr result (Rose self.old.faults self.new.faults) }
        ensures later { self.old.faults ≤ self.new.faults }
        ensures counted { self.new.faults ≡ faults_after self.old (is_err result) }
    {
        match self.reader.read(into) {
            Ok(count) => Ok(count),
            Err(_) => {
                self.faults = self.faults.saturating_add(1);
                Err(Failed)
            }
        }
    }
}

/// A sink over a writer. A write that takes nothing of a slice that is not empty counts as an error.
#[derive(Drop)]
pub struct StdSink<W: Write> {
    writer: W,
    faults: u64,
}

impl<W: Write> Model for StdSink<W> {
    ghost use Rattle.ceal_io.specs.Streams.{StdStream};

    ghost Value = { StdStream };

    ghost view = { λ s. record { known = W.contents s.writer; faults = s.faults } };
}

impl<W: Write> StdSink<W> {
    /// A sink that writes to the writer.
    pub fn new(writer: W) -> StdSink<W>
        ensures { result ≡ record { known = W.contents writer; faults = 0 } }
    {
        StdSink { writer, faults: 0 }
    }
}

impl<W: Write> Sink for StdSink<W> {
    ghost written = { λ s. s.known };

    ghost faults = { λ s. s.faults };

    ghost takes_memory = { ⊥ };

    fn write(&mut self, bytes: &[u8]) -> Result<usize, Stopped>
        ensures bound { WritesAtMost result bytes.now }
        ensures some { IfOk result (λ n. 0 < length bytes.now → 0 < n) }
        ensures bytes { WriteAppends self.old.known self.new.known result bytes.now }
        ensures cause { IsErrOf result Stopped.Failed → Rose self.old.faults self.new.faults }
        ensures later { self.old.faults ≤ self.new.faults }
        ensures counted { self.new.faults ≡ faults_after self.old (is_err result) }
        ensures failed { IfErr result (λ e. e ≡ Stopped.Failed) }
    {
        match self.writer.write(bytes) {
            Ok(count) if count > 0 || bytes.is_empty() => Ok(count),
            _ => {
                self.faults = self.faults.saturating_add(1);
                Err(Stopped::Failed)
            }
        }
    }
}
