// The two ends of a conversation.

ghost use Rattle.std.specs.Prelude.{◌≡◌, ◌<◌, ◌≤◌, ℕ, Option, None, length, IfSome, IfOk, OnOk, OnErr, IsErrOf};
ghost use Rattle.std.specs.Prelude.{option_map};
ghost use Rattle.std.specs.Io.{ReadsAtMost, WritesAtMost};
ghost use Rattle.ceal_io.specs.Streams.{Rose};
ghost use Rattle.ceal_serve.specs.Exchange.{Exchange, ReadHears, WriteSays, SaysPrefix, given, saying};
ghost use Rattle.ceal_serve.specs.Turns.{IsTurn, IsWithinReply};

use ceal_io::{Failed, Sink, Source, Stopped};
use std::marker::Model;

/// The two ends of a conversation: what is heard, and what is said.
pub trait Conversation {
    /// What it has come to, where that is known.
    ghost exchange: { Self → Option Exchange };

    /// How many reads have failed.
    ghost read_faults: { Self → ℕ };

    /// How many writes have failed.
    ghost write_faults: { Self → ℕ };

    /// Reads bytes into the front of a slice that has room, and answers how many. Nothing is the end of what there is
    /// to hear. A read that failed heard nothing. More is asked for only where all was said to the lines that were
    /// heard.
    fn read(&mut self, into: &mut [u8]) -> Result<usize, Failed>
        requires turn { IfSome (exchange self.old) IsTurn }
        requires room { 0 < length into.old }
        ensures bound { ReadsAtMost result into.new }
        ensures heard { ReadHears (exchange self.old) (exchange self.new) result into.new }
        ensures cause { OnErr result (Rose (read_faults self.old) (read_faults self.new)) }
        ensures later { read_faults self.old ≤ read_faults self.new }
        ensures writes { write_faults self.new ≡ write_faults self.old };

    /// Writes bytes from the front of a slice, at least one where there is one, and answers how many. A write that
    /// stopped said nothing. The bytes are of one reply, and all was said that comes before it.
    fn write(&mut self, bytes: &[u8]) -> Result<usize, Stopped>
        requires step { IfSome (exchange self.old) (IsWithinReply bytes.now) }
        ensures bound { WritesAtMost result bytes.now }
        ensures some { IfOk result (λ n. 0 < length bytes.now → 0 < n) }
        ensures said { WriteSays (exchange self.old) (exchange self.new) result bytes.now }
        ensures cause { IsErrOf result Stopped.Failed
            → Rose (write_faults self.old) (write_faults self.new) }
        ensures later { write_faults self.old ≤ write_faults self.new }
        ensures reads { read_faults self.new ≡ read_faults self.old };
}

/// A source and a sink. Nothing is known of what they read and write but how many calls have failed.
#[derive(Drop)]
pub struct Streams<S: Source, K: Sink> {
    source: S,
    sink: K,
}

impl<S: Source, K: Sink> Model for Streams<S, K> {
    ghost use Rattle.ceal_serve.specs.Exchange.{FaultCounts};

    ghost Value = { FaultCounts };

    ghost view = { λ s. record { reads = S.faults s.source; writes = K.faults s.sink } };
}

impl<S: Source, K: Sink> Streams<S, K> {
    /// A conversation over both.
    pub fn new(source: S, sink: K) -> Streams<S, K>
        ensures { result ≡ record { reads = S.faults source; writes = K.faults sink } }
    {
        Streams { source, sink }
    }
}

impl<S: Source, K: Sink> Conversation for Streams<S, K> {
    ghost exchange = { λ _. None };

    ghost read_faults = { λ s. s.reads };

    ghost write_faults = { λ s. s.writes };

    fn read(&mut self, into: &mut [u8]) -> Result<usize, Failed> {
        self.source.read(into)
    }

    fn write(&mut self, bytes: &[u8]) -> Result<usize, Stopped> {
        self.sink.write(bytes)
    }
}

/// Says all the bytes, which are of one reply. Where a write stops, those before it have been said.
pub fn say<C: Conversation>(talk: &mut C, bytes: &[u8]) -> Result<(), Stopped>
    requires step { IfSome (C.exchange talk.old) (IsWithinReply bytes.now) }
    ensures all { OnOk result
        (C.exchange talk.new ≡ option_map (saying bytes.now) (C.exchange talk.old)) }
    ensures prefix { SaysPrefix (C.exchange talk.old) (C.exchange talk.new) bytes.now }
    ensures fault { IsErrOf result Stopped.Failed
        → Rose (C.write_faults talk.old) (C.write_faults talk.new) }
    ensures later { C.write_faults talk.old ≤ C.write_faults talk.new }
    ensures reads { C.read_faults talk.new ≡ C.read_faults talk.old }
    ensures given { given (C.exchange talk.new) ≡ given (C.exchange talk.old) }
{
    let mut done = 0;
    while done < bytes.len() {
        let count = talk.write(&bytes[done..])?;
        done += count;
    }
    Ok(())
}
