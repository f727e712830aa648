// An input that was read.

ghost use Rattle.std.specs.Prelude.{◌≡◌, ◌<◌, ◌^◌, length};
ghost use Rattle.ceal_lex.specs.Parts.{IsSplit};

use ceal_lex::parts::Split;
use ceal_lex::split::split;

/// An input, and its parts.
#[derive(Clone, Copy)]
pub struct Input<'a> {
    pub bytes: &'a [u8],
    pub part: Split,
}

impl<'a> Input<'a> {
    /// All of an input, of which nothing was taken yet.
    pub fn new(bytes: &'a [u8]) -> Input<'a>
        requires small { length bytes.now < 2 ^ 32 }
        ensures bytes { result.bytes.now ≡ bytes.now }
        ensures split { IsSplit bytes.now result.part }
    {
        Input {
            bytes,
            part: split(bytes),
        }
    }
}
