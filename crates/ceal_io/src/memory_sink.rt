// Sinks in memory.

ghost use Rattle.std.specs.Prelude.{◌≡◌, ◌<◌, ◌≤◌, ◌↔◌, length, [], Some, true, IfOk, IfErr, IsErrOf};
ghost use Rattle.std.specs.Io.{WritesAtMost};
ghost use Rattle.std.specs.Io.KnownBytes.{WriteAppends};
ghost use Rattle.ceal_io.specs.Calls.{next_fails, after_call};
ghost use Rattle.ceal_io.specs.Streams.{Rose};

use crate::calls::Calls;
use crate::streams::{Sink, Stopped};
use std::alloc::Global;
use std::marker::Model;

/// A sink in memory, some of whose writes fail.
#[derive(Drop)]
pub struct MemSink {
    sink: SoundSink,
    calls: Calls,
}

impl Model for MemSink {
    ghost use Rattle.ceal_io.specs.Calls.{MemStream};

    ghost Value = { MemStream };

    ghost view = { λ s. record { bytes = s.sink; calls = s.calls } };
}

impl MemSink {
    /// An empty sink. The writes whose numbers, from 1, are listed fail; a number past the end of `u32` counts as
    /// the last.
    pub fn new(alloc: Global, fails: Vec<u32>) -> MemSink
        ensures { result
            ≡ record { bytes = []; calls = record { fails = fails.items; made = 0; faults = 0 } } }
    {
        MemSink {
            sink: MemSink::sound(alloc),
            calls: Calls::new(fails),
        }
    }

    /// An empty sink that does not fail.
    pub fn sound(alloc: Global) -> SoundSink
        ensures { result ≡ [] }
    {
        SoundSink {
            bytes: Vec::new(alloc),
        }
    }

    /// What was written.
    pub fn bytes(&self) -> &[u8]
        ensures { result.now ≡ self.now.bytes }
    {
        self.sink.bytes()
    }
}

impl Sink for MemSink {
    ghost written = { λ s. Some s.bytes };

    ghost faults = { λ s. s.calls.faults };

    ghost takes_memory = { Unit {0} };

    fn write(&mut self, bytes: &[u8]) -> Result<usize, Stopped>
        ensures bound { WritesAtMost result bytes.now }
        ensures some { IfOk result (λ n. 0 < length bytes.now → 0 < n) }
        ensures bytes { WriteAppends (Some self.old.bytes) (Some self.new.bytes) result bytes.now }
        ensures cause { IsErrOf result Stopped.Failed
            → Rose self.old.calls.faults self.new.calls.faults }
        ensures later { self.old.calls.faults ≤ self.new.calls.faults }
        ensures listed { IsErrOf result Stopped.Failed ↔ (next_fails self.old.calls ≡ true) }
        ensures counted { self.new.calls ≡ after_call self.old.calls }
        ensures whole { IfOk result (λ n. n ≡ length bytes.now) }
    {
        if self.calls.next_fails() {
            return Err(Stopped::Failed);
        }
        self.sink.write(bytes)
    }
}

/// A sink in memory that does not fail.
#[derive(Drop)]
pub struct SoundSink {
    bytes: Vec<u8>,
}

impl Model for SoundSink {
    ghost use Rattle.std.specs.Prelude.{List, ℕ};

    ghost Value = { List ℕ };

    ghost view = { λ s. s.bytes.items };
}

impl SoundSink {
    /// What was written.
    pub fn bytes(&self) -> &[u8]
        ensures { result.now ≡ self.now }
    {
        &self.bytes
    }
}

impl Sink for SoundSink {
    ghost written = { λ s. Some s };

    ghost faults = { λ _. 0 };

    ghost takes_memory = { Unit {0} };

    fn write(&mut self, bytes: &[u8]) -> Result<usize, Stopped>
        ensures bound { WritesAtMost result bytes.now }
        ensures some { IfOk result (λ n. 0 < length bytes.now → 0 < n) }
        ensures bytes { WriteAppends (Some self.old) (Some self.new) result bytes.now }
        ensures whole { IfOk result (λ n. n ≡ length bytes.now) }
        ensures sound { IfErr result (λ e. e ≡ Stopped.Memory) }
    {
        self.bytes.extend_from_slice(bytes)?;
        Ok(bytes.len())
    }
}
