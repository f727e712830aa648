// Raw memory, and the right to give it back.

ghost use Rattle.std.specs.Prelude.{◌≡◌, ℕ, ◌*◌, ◌^◌, ◌<◌, List, Option, Some, None, length, replicate, slice_index_or};
ghost use Rattle.std.specs.Prelude.{slice_set, IfSome, IsSome};
ghost use denote.RawPtr.{Ptr};
ghost use Rattle.ceal_words.specs.Memory.{block_owns, block_lends, words_type};

use std::alloc::Allocator;
use std::marker::{Model, PhantomData};

/// Memory for words, of which each is written or not yet.
pub(crate) struct Block {
    at: *mut u64,
    pub(crate) ghost words: { List (Option ℕ) },
}

impl Model for Block {
    ghost also_owns = { λ b. block_owns b.at b.words };

    ghost also_shares = { λ b _ κ. block_lends b.at b.words κ };
}

/// The right to give the memory of `count` words at `at` back. It takes no space.
pub(crate) struct Deed<A: Allocator> {
    marker: PhantomData<A>,
    pub(crate) ghost at: { Ptr },
    pub(crate) ghost count: { ℕ },
    pub(crate) ghost heap: { A },
}

impl<A: Allocator> Model for Deed<A> {
    ghost also_owns = { λ d. A.dealloc_token d.heap (words_type d.count) d.at };
}

impl Block {
    pub(crate) fn new<A: Allocator>(alloc: &A, count: usize) -> Option<(Block, Deed<A>)>
        requires { count * 8 < 2 ^ 63 }
        ensures { IfSome result
            (λ r. (r.0.words ≡ replicate count None) × (r.1.at ≡ r.0.at) × (r.1.count ≡ count)
            × (r.1.heap ≡ alloc.now)) }
    {
        match alloc.allocate(count * 8, 8) {
            Ok(block) => {
                let at = block as *mut u64;
                let marker = PhantomData;
                Some((Block { at }, Deed { marker }))
            }
            Err(_) => None,
        }
    }

    pub(crate) fn free<A: Allocator>(self, deed: Deed<A>, alloc: &A, count: usize)
        requires { (length self.words ≡ count) × (deed.at ≡ self.at) × (deed.count ≡ count)
            × (deed.heap ≡ alloc.now) }
    {
        let Block { at } = self;
        let Deed { marker: _ } = deed;
        unsafe { alloc.deallocate(at as *mut u8, count * 8, 8) }
    }

    pub(crate) fn write(&mut self, index: usize, word: u64)
        requires { index < length self.old.words }
        ensures { (self.new.words ≡ slice_set self.old.words index (Some word))
            × (self.new.at ≡ self.old.at) }
    {
        unsafe { self.at.add(index).write(word) }
    }

    pub(crate) fn read(&self, index: usize) -> u64
        requires { IsSome (slice_index_or self.now.words index None) }
        ensures { slice_index_or self.now.words index None ≡ Some result }
    {
        unsafe { self.at.add(index).read() }
    }
}
