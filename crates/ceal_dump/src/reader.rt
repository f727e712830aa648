// Bytes that are read from the front, and the numbers among them.

ghost use Rattle.std.specs.Prelude.{◌≡◌, ◌==◌, length, drop};
ghost use Rattle.ceal_dump.specs.Reading as reading;
ghost use Rattle.ceal_dump.specs.Reading.{first_byte, number_from, number_at, small, small_at, positive, negative};
ghost use Rattle.ceal_dump.specs.Reading.{int_at};

use ceal_base::digits::is_digit;
use std::marker::Model;

/// From here on a number is not looked at further: with another digit it fits 64 bits, and no number of a dump is so
/// large.
const LARGE: u64 = 1 << 60;

/// Bytes that are read from the front, which contracts see as those that are left.
#[derive(Drop)]
pub struct Reader<'a> {
    rest: &'a [u8],
}

impl<'a> Model for Reader<'a> {
    ghost use Rattle.std.specs.Prelude.{List, ℕ};

    ghost Value = { List ℕ };

    ghost view = { λ r. r.rest.now };
}

/// A number with a digit after it.
fn with_digit(n: u64, byte: u8) -> u64
    ensures { result ≡ reading.with_digit n byte }
{
    if n < LARGE {
        n * 10 + u64::from(byte.saturating_sub(b'0'))
    } else {
        n
    }
}

/// The number of the digits at the front, and what follows them.
fn digits(bytes: &[u8]) -> (u64, &[u8])
    ensures number { result.0 ≡ (number_from 0 bytes.now).0 }
    ensures rest { result.1.now ≡ (number_from 0 bytes.now).1 }
{
    let mut n = 0;
    let mut rest = bytes;
    while let Some((byte, more)) = rest.split_first() {
        if !is_digit(*byte) {
            return (n, rest);
        }
        n = with_digit(n, *byte);
        rest = more;
    }
    (n, rest)
}

fn small_number(n: u64) -> u32
    ensures { result ≡ small n }
{
    if n < 1 << 32 { n as u32 } else { 0 }
}

fn positive_number(n: u64) -> i64
    ensures { result ≡ positive n }
{
    if n < 1 << 63 { n as i64 } else { 0 }
}

fn negative_number(n: u64) -> i64
    ensures { result ≡ negative n }
{
    if n == 0 {
        return 0;
    }
    let m = n - 1;
    if m < 1 << 63 { -1 - m as i64 } else { 0 }
}

fn bytes_after(bytes: &[u8], count: usize) -> &[u8]
    ensures { result.now ≡ drop count bytes.now }
{
    if count < bytes.len() {
        &bytes[count..]
    } else {
        &[]
    }
}

impl<'a> Reader<'a> {
    /// A reader at the first of these bytes.
    pub fn new(bytes: &'a [u8]) -> Reader<'a>
        ensures value { result ≡ bytes.now }
    {
        Reader { rest: bytes }
    }

    /// Whether all bytes were read.
    pub fn is_empty(&self) -> bool
        ensures value { result ≡ (length self.now == 0) }
    {
        self.rest.is_empty()
    }

    /// The bytes that are left.
    pub fn rest(&self) -> &'a [u8]
        ensures value { result.now ≡ self.now }
    {
        self.rest
    }

    /// The byte at the front, and 0 at the end.
    pub fn first(&self) -> u8
        ensures value { result ≡ first_byte self.now }
    {
        match self.rest.split_first() {
            None => 0,
            Some((byte, _)) => *byte,
        }
    }

    /// Goes past the next `count` bytes.
    pub fn skip(&mut self, count: usize)
        ensures rest { self.new ≡ drop count self.old }
    {
        self.rest = bytes_after(self.rest, count);
    }

    #[tactic(auto, unfolding(crate::specs::Reading::number_at))]
    fn number(&mut self) -> u64
        ensures value { result ≡ (number_at self.old).0 }
        ensures rest { self.new ≡ (number_at self.old).1 }
    {
        let (n, rest) = digits(self.rest);
        self.rest = rest;
        n
    }

    /// A number of 32 bits.
    #[tactic(auto, unfolding(crate::specs::Reading::small_at))]
    pub fn small(&mut self) -> u32
        ensures value { result ≡ (small_at self.old).0 }
        ensures rest { self.new ≡ (small_at self.old).1 }
    {
        let n = self.number();
        small_number(n)
    }

    /// A number of the range of an `int`.
    #[tactic(auto, unfolding(crate::specs::Reading::int_at))]
    pub fn int(&mut self) -> i64
        ensures value { result ≡ (int_at self.old).0 }
        ensures rest { self.new ≡ (int_at self.old).1 }
    {
        if self.first() == b'-' {
            self.skip(1);
            let n = self.number();
            return negative_number(n);
        }
        let n = self.number();
        positive_number(n)
    }
}
