// The lines of what is heard.

ghost use Rattle.std.specs.Prelude.{◌≡◌, ◌+◌, ◌-◌, ◌<◌, ◌≤◌, ◌==◌, ◌++◌, [], Some, Ok, Err, length, drop, position};
ghost use Rattle.std.specs.Prelude.{vec_len, IfSome, IfOk, IfErr, IsErrOf, MatchOption, OnOk, OnErr};
ghost use Rattle.ceal_serve.specs.Exchange.{given};
ghost use Rattle.ceal_serve.specs.Listening.{IsCaughtUp, Hears, HearsMore, HearsEnd, HearsLine, HearsSome, HasLine};
ghost use Rattle.ceal_serve.specs.Troubles.{IsCounted};
ghost use Rattle.ceal_serve.specs.Turns.{IsLong, IsOneLine, IsTurn};

use crate::conversation::Conversation;
use crate::trouble::Trouble;
use std::alloc::Global;
use std::marker::Model;

/// How many bytes are asked for at once.
const PIECE: usize = 4096;

/// The most bytes that a source part has with its mark, and a line with its line feed.
pub const LIMIT: usize = 4_194_304;

/// What was heard and not yet taken, as contracts see it.
#[derive(Drop)]
pub struct Lines {
    bytes: Vec<u8>,
    from: usize,
}

impl Model for Lines {
    ghost use Rattle.std.specs.Prelude.{◌≤◌, drop, vec_len, List, ℕ};

    ghost Value = { List ℕ };

    ghost view = { λ s. drop s.from s.bytes.items };

    ghost invariant = { λ s. (s.from ≤ vec_len s.bytes) × (vec_len s.bytes ≤ 4198400) };
}

// Removes the first bytes. Where there are none to remove, those of a long line are not moved.
fn remove_front(bytes: &mut Vec<u8>, count: usize)
    requires { count ≤ vec_len bytes.old }
    ensures items { bytes.new.items ≡ drop count bytes.old.items }
    ensures len { vec_len bytes.new ≡ vec_len bytes.old - count }
{
    if count == 0 {
        return;
    }
    let len = bytes.len();
    bytes.as_mut_slice().copy_within(count..len, 0);
    bytes.truncate(len - count);
}

// Where the first line feed is.
fn line_feed(text: &[u8]) -> Option<usize>
    ensures { result ≡ position (λ b. b == 10) text.now }
{
    text.iter().position(|b| *b == b'\n')
}

// Where the first line ends.
fn line_end(text: &[u8]) -> Option<usize>
    ensures { MatchOption result (IsOneLine text.now) (λ at. HasLine text.now at) }
{
    line_feed(text)
}

// The place of a line feed, unless the line that it ends has too many bytes.
fn within(at: usize, limit: usize) -> Result<Option<usize>, Trouble>
    ensures found { at < limit → result ≡ Ok (Some at) }
    ensures too_long { limit ≤ at → result ≡ Err Trouble.TooLong }
{
    if at < limit {
        Ok(Some(at))
    } else {
        Err(Trouble::TooLong)
    }
}

impl Lines {
    /// Nothing was heard.
    pub fn new(alloc: Global) -> Lines
        ensures { result ≡ [] }
    {
        Lines {
            bytes: Vec::new(alloc),
            from: 0,
        }
    }

    /// What was heard and not yet taken.
    pub fn rest(&self) -> &[u8]
        ensures rest { result.now ≡ self.now }
        ensures bound { length result.now ≤ 4198400 }
    {
        &self.bytes[self.from..]
    }

    /// Takes the first bytes.
    pub fn take(&mut self, count: usize)
        requires { count ≤ length self.old }
        ensures { self.new ≡ drop count self.old }
    {
        self.from += count;
    }

    // Keeps what was heard after what is there, and lets go of what was taken.
    fn keep(&mut self, piece: &[u8]) -> Result<(), Trouble>
        requires room { length self.old + length piece.now ≤ 4198400 }
        ensures kept { OnOk result (self.new ≡ self.old ++ piece.now) }
        ensures memory { IfErr result (λ trouble. trouble ≡ Trouble.Memory) }
    {
        remove_front(&mut self.bytes, self.from);
        self.from = 0;
        self.bytes.extend_from_slice(piece)?;
        Ok(())
    }

    // Hears more, and answers where it begins; nothing at the end of what there is to hear.
    fn hear<C: Conversation>(&mut self, talk: &mut C) -> Result<Option<usize>, Trouble>
        requires turn { IfSome (C.exchange talk.old) IsTurn }
        requires room { length self.old ≤ LIMIT }
        ensures heard { IfOk result (λ found. MatchOption found
            (HearsEnd (C.exchange talk.old) (C.exchange talk.new) self.old self.new
            × (self.new ≡ self.old))
            (λ before. HearsMore (C.exchange talk.old) (C.exchange talk.new) self.old self.new
            × (before ≡ length self.old))) }
        ensures lost { OnErr result (HearsSome (C.exchange talk.old) (C.exchange talk.new)) }
        ensures short { ¬ IsErrOf result Trouble.TooLong }
        ensures counted { IsCounted result (C.read_faults talk.old) (C.read_faults talk.new)
            (C.write_faults talk.old) (C.write_faults talk.new) }
        ensures given { given (C.exchange talk.new) ≡ given (C.exchange talk.old) }
    {
        let mut piece = [0u8; PIECE];
        let count = talk.read(&mut piece)?;
        if count == 0 {
            return Ok(None);
        }
        let before = self.rest().len();
        self.keep(&piece[..count])?;
        Ok(Some(before))
    }

    // Where the next line ends, of which what was heard is the beginning.
    fn hear_on<C: Conversation>(
        &mut self,
        talk: &mut C,
        limit: usize,
    ) -> Result<Option<usize>, Trouble>
        requires limit { limit ≤ LIMIT }
        requires one { IsOneLine self.old }
        requires caught_up { IfSome (C.exchange talk.old) (IsCaughtUp self.old) }
        ensures heard { IfOk result (λ found. HearsLine found limit (C.exchange talk.old)
            (C.exchange talk.new) self.old self.new) }
        ensures long { IsErrOf result Trouble.TooLong
            → Hears (C.exchange talk.old) (C.exchange talk.new) self.old self.new
            × IsLong limit self.new }
        ensures lost { OnErr result (HearsSome (C.exchange talk.old) (C.exchange talk.new)) }
        ensures counted { IsCounted result (C.read_faults talk.old) (C.read_faults talk.new)
            (C.write_faults talk.old) (C.write_faults talk.new) }
        ensures given { given (C.exchange talk.new) ≡ given (C.exchange talk.old) }
    {
        while self.rest().len() <= limit {
            let Some(before) = self.hear(talk)? else {
                return Ok(None);
            };
            if let Some(at) = line_end(&self.rest()[before..]) {
                return within(before + at, limit);
            }
        }
        Err(Trouble::TooLong)
    }

    /// Where the next line ends, which has at most `limit` bytes with its line feed, and is heard where it was not. At
    /// the end of what there is to hear there is none, and what is left is the last line.
    pub fn hear_line<C: Conversation>(
        &mut self,
        talk: &mut C,
        limit: usize,
    ) -> Result<Option<usize>, Trouble>
        requires limit { limit ≤ LIMIT }
        requires caught_up { IfSome (C.exchange talk.old) (IsCaughtUp self.old) }
        ensures heard { IfOk result (λ found. HearsLine found limit (C.exchange talk.old)
            (C.exchange talk.new) self.old self.new) }
        ensures long { IsErrOf result Trouble.TooLong
            → Hears (C.exchange talk.old) (C.exchange talk.new) self.old self.new
            × IsLong limit self.new }
        ensures lost { OnErr result (HearsSome (C.exchange talk.old) (C.exchange talk.new)) }
        ensures counted { IsCounted result (C.read_faults talk.old) (C.read_faults talk.new)
            (C.write_faults talk.old) (C.write_faults talk.new) }
        ensures given { given (C.exchange talk.new) ≡ given (C.exchange talk.old) }
    {
        match line_end(self.rest()) {
            Some(at) => within(at, limit),
            None => self.hear_on(talk, limit),
        }
    }
}
