// The bytes of an answer.

ghost use Rattle.std.specs.Prelude.{◌≡◌, ◌++◌, IfOk, codes};

use ceal_base::no_memory::NoMemory;
use ceal_base::text::Text;
use smallvec::SmallVec;
use std::alloc::Global;
use std::marker::Model;

/// Where the bytes of an answer are.
#[derive(Drop)]
enum Bytes {
    /// in the program
    Fixed(&'static str),
    /// in the value, where they are few
    Line(SmallVec<u8, 24>),
    Owned(Text),
}

/// An answer to a line, which contracts see as its bytes. A fixed text and a short line take no memory.
#[derive(Drop)]
pub struct Answer {
    bytes: Bytes,
}

impl Model for Answer {
    ghost use Rattle.ceal_session.specs.AnswerBytes.{bytes_of};
    ghost use Rattle.std.specs.Prelude.{List, ℕ};

    ghost Value = { List ℕ };

    ghost view = { λ a. bytes_of a.bytes };
}

impl Answer {
    /// An answer that is known beforehand. It takes no memory.
    pub fn fixed(text: &'static str) -> Answer
        ensures value { result ≡ text.now }
    {
        Answer {
            bytes: Bytes::Fixed(text),
        }
    }

    /// These bytes and a line feed.
    pub fn line(alloc: Global, bytes: &[u8]) -> Result<Answer, NoMemory>
        ensures line { IfOk result (λ answer. answer ≡ bytes.now ++ codes "\n") }
    {
        let mut line = SmallVec::from_slice(alloc, bytes)?;
        line.push(b'\n')?;
        Ok(Answer {
            bytes: Bytes::Line(line),
        })
    }

    /// An answer that was made for this line.
    pub fn owned(text: Text) -> Answer
        ensures value { result ≡ text }
    {
        Answer {
            bytes: Bytes::Owned(text),
        }
    }

    /// The bytes of the answer.
    pub fn items(&self) -> &[u8]
        ensures value { result.now ≡ self.now }
    {
        match &self.bytes {
            Bytes::Fixed(text) => text.as_bytes(),
            Bytes::Line(line) => line.as_slice(),
            Bytes::Owned(text) => text.items(),
        }
    }
}
