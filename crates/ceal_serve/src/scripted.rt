// A conversation in memory.

ghost use Rattle.std.specs.Prelude.{◌≡◌, ◌≤◌, ◌<◌, take, length, vec_len};
ghost use Rattle.ceal_serve.specs.Exchange.{IsWithin, at_beginning};

use crate::conversation::Conversation;
use ceal_io::{Failed, Stopped};
use std::alloc::Global;
use std::marker::Model;

/// A conversation in memory: an input that is heard in pieces, and what is said to it, in pieces too. No read and no
/// write fails.
#[derive(Drop)]
pub struct Scripted {
    fuel: u32,
    input: Vec<u8>,
    sizes: Vec<usize>,
    pieces: usize,
    at: usize,
    ended: bool,
    said: Vec<u8>,
}

impl Model for Scripted {
    ghost use Rattle.std.specs.Prelude.{◌≡◌, ◌≤◌, true, take, vec_len};
    ghost use Rattle.ceal_serve.specs.Exchange.{Exchange};

    ghost Value = { Exchange };

    ghost view = { λ s. record {
      fuel = s.fuel;
      input = s.input.items;
      heard = take s.at s.input.items;
      ended = s.ended;
      said = s.said.items;
    } };

    ghost invariant = { λ s. (s.at ≤ vec_len s.input)
        × (s.ended ≡ true → s.at ≡ vec_len s.input) };
}

impl Scripted {
    /// The input will be heard in pieces of these sizes, one for each read, and what is said at once is no longer than
    /// the next of them. A size of 0 counts as 1. After the last one a piece may have any length.
    pub fn new(alloc: Global, fuel: u32, input: Vec<u8>, sizes: Vec<usize>) -> Scripted
        ensures { result ≡ at_beginning fuel input.items }
    {
        Scripted {
            fuel,
            input,
            sizes,
            pieces: 0,
            at: 0,
            ended: false,
            said: Vec::new(alloc),
        }
    }

    /// What was said. What was heard begins the input, and is all of it once the end was heard.
    pub fn into_said(self) -> Vec<u8>
        ensures said { result.items ≡ self.said }
        ensures within { IsWithin self }
    {
        self.said
    }
}

// How many bytes a piece has at most, and at least one.
fn size_at(sizes: &[usize], at: usize) -> usize
    ensures { 0 < result }
{
    match sizes.get(at) {
        Some(size) => (*size).max(1),
        None => usize::MAX,
    }
}

// Copies the first bytes to the front of a slice, as many as there are and there is room for, but no more than `most`.
fn copy_piece(from: &[u8], most: usize, into: &mut [u8]) -> usize
    requires some { 0 < most }
    requires room { 0 < length into.old }
    ensures bound { result ≤ length into.new }
    ensures left { result ≤ length from.now }
    ensures copied { take result into.new ≡ take result from.now }
    ensures over { result ≡ 0 → length from.now ≡ 0 }
{
    let count = most.min(from.len()).min(into.len());
    into[..count].copy_from_slice(&from[..count]);
    count
}

impl Conversation for Scripted {
    ghost use Rattle.std.specs.Prelude.{Some};

    ghost exchange = { λ s. Some s };

    ghost read_faults = { λ _. 0 };

    ghost write_faults = { λ _. 0 };

    fn read(&mut self, into: &mut [u8]) -> Result<usize, Failed> {
        let most = size_at(&self.sizes, self.pieces);
        let count = copy_piece(&self.input[self.at..], most, into);
        if count == 0 {
            self.ended = true;
            return Ok(0);
        }
        self.at += count;
        self.pieces = self.pieces.saturating_add(1);
        Ok(count)
    }

    fn write(&mut self, bytes: &[u8]) -> Result<usize, Stopped> {
        let count = size_at(&self.sizes, self.pieces).min(bytes.len());
        self.said.extend_from_slice(&bytes[..count])?;
        Ok(count)
    }
}
