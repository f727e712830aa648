// A source and a sink in memory that move one byte at a call.

ghost use Rattle.std.specs.Prelude.{◌≡◌, ◌<◌, min, length, [], Some, Ok, IfOk, IfErr};
ghost use Rattle.std.specs.Io.{ReadsAtMost, WritesAtMost};
ghost use Rattle.std.specs.Io.KnownBytes.{ReadConsumes, WriteAppends};

use crate::memory_sink::{MemSink, SoundSink};
use crate::memory_source::{MemSource, SoundSource};
use crate::streams::{Failed, Sink, Source, Stopped};
use std::alloc::Global;
use std::marker::Model;

/// A source in memory of which each read gives at most one byte. It does not fail.
#[derive(Drop)]
pub struct DripSource {
    source: SoundSource,
}

impl Model for DripSource {
    ghost use Rattle.std.specs.Prelude.{List, ℕ};

    ghost Value = { List ℕ };

    ghost view = { λ s. s.source };
}

impl DripSource {
    /// A source of these bytes.
    pub fn new(bytes: Vec<u8>) -> DripSource
        ensures { result ≡ bytes.items }
    {
        DripSource {
            source: MemSource::sound(bytes),
        }
    }
}

impl Source for DripSource {
    ghost left = { λ s. Some s };

    ghost faults = { λ _. 0 };

    fn read(&mut self, into: &mut [u8]) -> Result<usize, Failed>
        ensures bound { ReadsAtMost result into.new }
        ensures bytes { ReadConsumes (Some self.old) (Some self.new) result into.new }
        ensures drips { result ≡ Ok (min 1 (min (length into.new) (length self.old))) }
    {
        let room = into.len().min(1);
        self.source.read(&mut into[..room])
    }
}

/// A sink in memory of which each write takes one byte. It does not fail.
#[derive(Drop)]
pub struct DripSink {
    sink: SoundSink,
}

impl Model for DripSink {
    ghost use Rattle.std.specs.Prelude.{List, ℕ};

    ghost Value = { List ℕ };

    ghost view = { λ s. s.sink };
}

impl DripSink {
    /// An empty sink.
    pub fn new(alloc: Global) -> DripSink
        ensures { result ≡ [] }
    {
        DripSink {
            sink: MemSink::sound(alloc),
        }
    }

    /// What was written.
    pub fn bytes(&self) -> &[u8]
        ensures { result.now ≡ self.now }
    {
        self.sink.bytes()
    }
}

impl Sink for DripSink {
    ghost written = { λ s. Some s };

    ghost faults = { λ _. 0 };

    ghost takes_memory = { Unit {0} };

    fn write(&mut self, bytes: &[u8]) -> Result<usize, Stopped>
        ensures bound { WritesAtMost result bytes.now }
        ensures some { IfOk result (λ n. 0 < length bytes.now → 0 < n) }
        ensures bytes { WriteAppends (Some self.old) (Some self.new) result bytes.now }
        ensures drips { IfOk result (λ n. n ≡ min 1 (length bytes.now)) }
        ensures sound { IfErr result (λ e. e ≡ Stopped.Memory) }
    {
        let count = bytes.len().min(1);
        self.sink.write(&bytes[..count])
    }
}
