// The parts of a block's words.

ghost use Rattle.std.specs.Prelude.{◌≡◌, ◌++◌, ◌-◌, ◌<◌, ◌≤◌, Some, length, replicate, slice_get, take, IsTrue};
ghost use Rattle.ceal_heap.specs.Parts.{filling};

use ceal_base::word::Word;

/// How many of a block's words are kept, the first ones, and how many zeros and then nulls come after them. Most blocks
/// end with modifiables, whose words are defaults.
#[derive(Clone, Copy)]
pub struct Parts {
    pub kept: u8,
    pub zeros: u8,
    pub nulls: u8,
}

impl Parts {
    /// The parts of these words.
    pub fn of(words: &[Word]) -> Parts
        requires few { length words.now ≤ 255 }
        ensures kept { result.kept ≤ length words.now }
        ensures same { take result.kept words.now ++ filling result ≡ words.now }
    {
        let front = without_last(words, Word::Null);
        let kept = without_last(&words[..front], Word::Num(0));
        Parts {
            kept: kept as u8,
            zeros: (front - kept) as u8,
            nulls: (words.len() - front) as u8,
        }
    }

    /// How many words are kept.
    pub fn count(self) -> u32
        ensures value { result ≡ self.kept }
        ensures few { result ≤ 255 }
    {
        u32::from(self.kept)
    }

    /// One of the words after those that are kept.
    pub fn filled(self, index: u32) -> Option<Word>
        ensures { result ≡ slice_get (filling self) index }
    {
        let zeros = u32::from(self.zeros);
        if index < zeros {
            Some(Word::Num(0))
        } else if index - zeros < u32::from(self.nulls) {
            Some(Word::Null)
        } else {
            None
        }
    }
}

// Whether the last of the first `count` words is this one.
fn is_last(words: &[Word], count: usize, word: Word) -> bool
    requires { count ≤ length words.now }
    ensures some { IsTrue result → 0 < count }
    ensures last { IsTrue result → slice_get words.now (count - 1) ≡ Some word }
{
    if count == 0 {
        return false;
    }
    words[count - 1].same_as(word)
}

// How many words there are before those at the end that are all this one.
fn without_last(words: &[Word], word: Word) -> usize
    ensures few { result ≤ length words.now }
    ensures same { take result words.now ++ replicate (length words.now - result) word
        ≡ words.now }
{
    let mut count = words.len();
    while is_last(words, count, word) {
        count -= 1;
    }
    count
}
