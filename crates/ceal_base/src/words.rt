// A list of words, of which a few are in the value itself.

ghost use Rattle.std.specs.Prelude.{◌≡◌, ◌∷◌, [], ◌++◌, ◌↔◌, ◌≤◌, take, IsTrue, IfOk, OnOk, OnErr};
ghost use Rattle.std.specs.Cmp.Lexicographic.{pointwise, lists_per, lists_equiv};
ghost use Rattle.std.specs.Hash as fed;
ghost use Rattle.ceal_base.specs.contracts.word.WordPartialEq.TheImpl.Laws as word_eq;
ghost use Rattle.ceal_base.specs.contracts.word.WordEq.TheImpl.Laws as word_equal;
ghost use Rattle.ceal_base.specs.Hashing.{digest_after};
ghost use Rattle.std.proofs.Common.{rules};
ghost use Rattle.std.proofs.Common.{refl};
ghost use Rattle.std.proofs.lemmas.Slice.Eq.{slice_eq-Decides};
ghost use Rattle.std.specs.Hash.{same_Alike};

use crate::hashing::mixed;
use crate::no_memory::NoMemory;
use crate::word::Word;
use smallvec::SmallVec;
use std::alloc::Global;
use std::hash::{Hash, Hasher};
use std::marker::Model;

/// Words, which contracts see as their list.
#[derive(Drop)]
pub struct Words {
    items: SmallVec<Word, 6>,
}

impl Model for Words {
    ghost use Rattle.std.specs.Prelude.{List};
    ghost use Rattle.ceal_base.specs.declared.word.Word.{Word};

    ghost Value = { List Word };

    ghost view = { λ w. w.items.items };
}

impl Words {
    /// The list of these words. Up to six of them are kept in place.
    pub fn new(items: SmallVec<Word, 6>) -> Words
        ensures value { result ≡ items.items }
    {
        Words { items }
    }

    /// A list of no words.
    pub fn empty(alloc: Global) -> Words
        ensures value { result ≡ [] }
    {
        Words {
            items: SmallVec::new(alloc),
        }
    }

    /// A list with a copy of these words.
    pub fn from_slice(alloc: Global, items: &[Word]) -> Result<Words, NoMemory>
        ensures equal { IfOk result (λ w. w ≡ items.now) }
    {
        match items {
            [] => Ok(Words::empty(alloc)),
            [a] => Ok(Words::one(alloc, *a)),
            [a, b] => Ok(Words::two(alloc, *a, *b)),
            [a, b, c] => Ok(Words::few(alloc, [*a, *b, *c, Word::Null, Word::Null, Word::Null], 3)),
            [a, b, c, d] => Ok(Words::few(alloc, [*a, *b, *c, *d, Word::Null, Word::Null], 4)),
            [a, b, c, d, e] => Ok(Words::few(alloc, [*a, *b, *c, *d, *e, Word::Null], 5)),
            [a, b, c, d, e, f] => Ok(Words::few(alloc, [*a, *b, *c, *d, *e, *f], 6)),
            _ => Words::many(alloc, items),
        }
    }

    // One word, in the value itself.
    fn one(alloc: Global, word: Word) -> Words
        ensures { result ≡ word ∷ [] }
    {
        let null = Word::Null;
        Words::few(alloc, [word, null, null, null, null, null], 1)
    }

    // Two words, in the value itself.
    fn two(alloc: Global, first: Word, second: Word) -> Words
        ensures { result ≡ first ∷ second ∷ [] }
    {
        let null = Word::Null;
        Words::few(alloc, [first, second, null, null, null, null], 2)
    }

    // The first words of six, in the value itself.
    fn few(alloc: Global, words: [Word; 6], count: usize) -> Words
        requires { count ≤ 6 }
        ensures { result ≡ take count words }
    {
        let items = SmallVec::from_buf_and_len(alloc, words, count);
        Words { items }
    }

    fn many(alloc: Global, items: &[Word]) -> Result<Words, NoMemory>
        ensures { IfOk result (λ w. w ≡ items.now) }
    {
        let items = Vec::from_slice(alloc, items)?;
        Ok(Words::from_vec(items))
    }

    /// The words of a vector, whose memory is kept where they are more than a few.
    pub fn from_vec(items: Vec<Word>) -> Words
        ensures value { result ≡ items.items }
    {
        Words {
            items: SmallVec::from_vec(items),
        }
    }

    /// Puts a word at the end; without memory the list stays as it is.
    pub fn push(&mut self, item: Word) -> Result<(), NoMemory>
        ensures ok { OnOk result (self.new ≡ self.old ++ item ∷ []) }
        ensures err { OnErr result (self.new ≡ self.old) }
    {
        self.items.push(item)?;
        Ok(())
    }

    /// The words, in their order.
    pub fn items(&self) -> &[Word]
        ensures value { result.now ≡ self.now }
    {
        self.items.as_slice()
    }

    /// An equal list.
    pub fn copy(&self) -> Result<Words, NoMemory>
        ensures equal { IfOk result (λ w. w ≡ self.now) }
    {
        let alloc = *self.items.allocator();
        Words::from_slice(alloc, self.items())
    }
}

impl Words {
    /// Whether both are the same list.
    pub fn same_as(&self, other: &Words) -> bool
        ensures same { IsTrue result ↔ (self.now ≡ other.now) }
    {
        self.items() == other.items()
    }
}

impl PartialEq for Words {
    ghost eq = { λ v w. pointwise ⟦<Word as PartialEq>⟧.eq v w };

    ghost laws = { lists_per word_eq.laws-law };

    fn eq(&self, other: &Words) -> bool {
        self.items() == other.items()
    }
}

impl Eq for Words {
    ghost laws = { lists_equiv word_equal.laws-law };
}

// Many words as one number, so that a hasher is fed once.
fn digest(words: &[Word]) -> u64
    ensures digest { result ≡ digest_after 0 words.now }
{
    let mut digest = 0;
    for word in words {
        digest = mixed(digest, word.digest());
    }
    digest
}

impl Hash for Words {
    ghost hash_input = { λ v. fed.u64 (digest_after 0 v) };

    ghost respects_eq = { (same_Alike (λ v. fed.u64 (digest_after 0 v))
        (λ v w. slice_eq-Decides (λ a b. Prim.search rules) v w _ refl)).fed };

    fn hash<H: Hasher>(&self, state: &mut H) {
        state.write_u64(digest(self.items()));
    }
}
