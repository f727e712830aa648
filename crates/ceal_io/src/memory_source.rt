// Sources in memory.

ghost use Rattle.std.specs.Prelude.{◌≡◌, ◌≤◌, min, take, drop, length, Some, Ok, IfOk, OnErr, is_err, vec_len};
ghost use Rattle.std.specs.Io.{ReadsAtMost};
ghost use Rattle.std.specs.Io.KnownBytes.{ReadConsumes};
ghost use Rattle.ceal_io.specs.Calls.{next_fails, after_call};
ghost use Rattle.ceal_io.specs.Streams.{Rose};

use crate::calls::Calls;
use crate::streams::{Failed, Source};
use std::marker::Model;

/// A source in memory, some of whose reads fail.
#[derive(Drop)]
pub struct MemSource {
    source: SoundSource,
    calls: Calls,
}

impl Model for MemSource {
    ghost use Rattle.ceal_io.specs.Calls.{MemStream};

    ghost Value = { MemStream };

    ghost view = { λ s. record { bytes = s.source; calls = s.calls } };
}

impl MemSource {
    /// A source of these bytes. The reads whose numbers, from 1, are listed fail; a number past the end of `u32`
    /// counts as the last.
    pub fn new(bytes: Vec<u8>, fails: Vec<u32>) -> MemSource
        ensures { result
            ≡ record {
              bytes = bytes.items;
              calls =
                  record { fails = fails.items; made = 0; faults = 0 };
            } }
    {
        MemSource {
            source: MemSource::sound(bytes),
            calls: Calls::new(fails),
        }
    }

    /// A source of these bytes that does not fail.
    pub fn sound(bytes: Vec<u8>) -> SoundSource
        ensures { result ≡ bytes.items }
    {
        SoundSource { bytes, at: 0 }
    }
}

impl Source for MemSource {
    ghost left = { λ s. Some s.bytes };

    ghost faults = { λ s. s.calls.faults };

    fn read(&mut self, into: &mut [u8]) -> Result<usize, Failed>
        ensures bound { ReadsAtMost result into.new }
        ensures bytes { ReadConsumes (Some self.old.bytes) (Some self.new.bytes) result into.new }
        ensures cause { OnErr result (Rose self.old.calls.faults self.new.calls.faults) }
        ensures later { self.old.calls.faults ≤ self.new.calls.faults }
        ensures listed { is_err result ≡ next_fails self.old.calls }
        ensures counted { self.new.calls ≡ after_call self.old.calls }
        ensures whole { IfOk result (λ n. n ≡ min (length into.new) (length self.old.bytes)) }
    {
        if self.calls.next_fails() {
            return Err(Failed);
        }
        self.source.read(into)
    }
}

/// A source in memory that does not fail.
#[derive(Drop)]
pub struct SoundSource {
    bytes: Vec<u8>,
    at: usize,
}

impl Model for SoundSource {
    ghost use Rattle.std.specs.Prelude.{◌≤◌, drop, vec_len, List, ℕ};

    ghost Value = { List ℕ };

    ghost view = { λ s. drop s.at s.bytes.items };

    ghost invariant = { λ s. s.at ≤ vec_len s.bytes };
}

impl Source for SoundSource {
    ghost left = { λ s. Some s };

    ghost faults = { λ _. 0 };

    fn read(&mut self, into: &mut [u8]) -> Result<usize, Failed>
        ensures bound { ReadsAtMost result into.new }
        ensures bytes { ReadConsumes (Some self.old) (Some self.new) result into.new }
        ensures whole { result ≡ Ok (min (length into.new) (length self.old)) }
    {
        let count = copy_front(&self.bytes[self.at..], into);
        self.at += count;
        Ok(count)
    }
}

// Copies as many bytes as there are and as there is room for, and answers how many.
fn copy_front(from: &[u8], into: &mut [u8]) -> usize
    ensures count { result ≡ min (length into.old) (length from.now) }
    ensures copied { take result into.new ≡ take result from.now }
{
    let count = into.len().min(from.len());
    into[..count].copy_from_slice(&from[..count]);
    count
}
