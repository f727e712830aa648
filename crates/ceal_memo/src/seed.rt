// What hashes begin with.

ghost use Rattle.std.specs.Prelude.{◌≡◌, ◌<◌, ℕ, Some, slice_get};
ghost use Rattle.std.specs.Hash.{u64 as bytes_of};
ghost use Rattle.std.specs.Hash.DefaultHasher.{write, finish};
ghost use Rattle.std.specs.List.{fold};
ghost use Rattle.ceal_memo.specs.Seeds.{word_of};

use std::hash::{DefaultHasher, Hasher};

/// How many words a seed has: the parts of a key are multiplied, each by another one, and what comes of them by one
/// more.
pub const WORDS: usize = 65;

/// Words that hashes are made with. Any are right: what is found does not depend on them. Which keys share a hash
/// depends on all of them, so whoever chooses keys without knowing them meets as many of one hash as chance gives.
#[derive(Clone, Copy)]
pub struct Seed {
    pub words: [u64; WORDS],
}

impl Seed {
    /// The words that SipHash makes of two numbers, which it has for its secret. They should come from all that those
    /// may choose whose keys are hashed, in such a way that none of them can choose them.
    pub fn of(first: u64, second: u64) -> Seed
        ensures words { (at : ℕ) → at < 65
            → slice_get result.words at ≡ Some (word_of first second at) }
    {
        let start = fed(fed(DefaultHasher::new(), first), second);
        let mut words = [0; WORDS];
        for at in 0..WORDS {
            words[at] = word_at(start, at as u64);
        }
        Seed { words }
    }

    pub(crate) fn words(&self) -> &[u64]
        ensures { result.now ≡ self.now.words }
    {
        &self.words
    }
}

// A hasher after one more number.
fn fed(hasher: DefaultHasher, number: u64) -> DefaultHasher
    ensures { result ≡ fold write hasher (bytes_of number) }
{
    let mut after = hasher;
    after.write_u64(number);
    after
}

// One word of a seed.
fn word_at(start: DefaultHasher, at: u64) -> u64
    ensures { result ≡ finish (fold write start (bytes_of at)) }
{
    fed(start, at).finish()
}
