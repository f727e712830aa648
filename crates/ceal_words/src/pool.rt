// One size class: its chunk, its pieces and its free list.

ghost use Rattle.std.specs.Prelude.{◌≡◌, ◌<◌, ◌≤◌, ℕ, ◌+◌, ◌-◌, ◌*◌, ◌^◌, max, List, [], Some, None, length, replicate};
ghost use Rattle.std.specs.Prelude.{slice_get, IsSome, IfSome, IfOk, OnOk, OnErr};
ghost use Rattle.ceal_words.specs.Lengths.{RoundsTo};
ghost use Rattle.ceal_words.specs.Layout.{IsLaidOut, class_of};
ghost use Rattle.ceal_words.specs.SizeClass.{words_at, word_in, taken, given, with_word, grown};

use crate::chunk::Chunk;
use crate::marks::Marks;
use ceal_base::no_memory::NoMemory;
use std::alloc::Global;
use std::marker::Model;

/// A size class: pieces of `size` words each, one after the other in a chunk.
#[derive(Drop)]
pub(crate) struct Pool {
    chunk: Chunk,
    marks: Marks,
    size: u32,
    made: u32,
    head: u64,
    spare: u32,
}

impl Model for Pool {
    ghost use Rattle.ceal_words.specs.SizeClass.{SizeClass};
    ghost use Rattle.ceal_words.specs.Layout.{pieces_from, IsLaidOut};

    ghost Value = { SizeClass };

    ghost view = { λ p.
        record {
          size = p.size;
          pieces = pieces_from p.size 0 p.marks.lens p.chunk;
          spare = p.spare;
        } };

    ghost invariant = { λ p. IsLaidOut p.size p.chunk p.marks.lens p.made p.head p.spare };
}

// The pieces of a chunk: how many words each has, how many were made, and the head of the free list.
#[derive(Clone, Copy)]
struct Pieces {
    size: u32,
    made: u32,
    head: u64,
}

// Makes free pieces after those that were made, in a chunk that has room for them, and says which one is the head of
// the free list then.
fn link_pieces(chunk: &mut Chunk, marks: &mut Marks, pieces: Pieces, more: u32) -> u64
    requires some { 0 < pieces.size }
    requires few { pieces.made + more < 2 ^ 32 }
    requires room { (pieces.made + more) * pieces.size ≤ length chunk.old }
    ensures laid { (spare : ℕ)
        → IsLaidOut pieces.size chunk.old marks.old.lens pieces.made pieces.head spare
        → IsLaidOut pieces.size chunk.new marks.new.lens (pieces.made + more) result
        (spare + more) }
    ensures class { (spare : ℕ)
        → IsLaidOut pieces.size chunk.old marks.old.lens pieces.made pieces.head spare
        → class_of pieces.size chunk.new marks.new.lens (spare + more)
        ≡ grown more (class_of pieces.size chunk.old marks.old.lens spare) }
{
    let mut head = pieces.head;
    for i in 0..more {
        let piece = pieces.made + i;
        chunk.set(piece as usize * pieces.size as usize, head);
        marks.add();
        head = piece as u64;
    }
    head
}

impl Pool {
    pub(crate) fn new(alloc: Global, size: u32) -> Result<Pool, NoMemory>
        requires { 0 < size }
        ensures { IfOk result (λ p. p ≡ record { size = size; pieces = []; spare = 0 }) }
    {
        let chunk = Chunk::zeros(alloc, 1)?;
        Ok(Pool {
            chunk,
            marks: Marks::new(),
            size,
            made: 0,
            head: 0,
            spare: 0,
        })
    }

    /// Makes sure that `n` pieces are free, and makes no more than it takes. Where there was no memory, all is as
    /// before.
    pub(crate) fn reserve(&mut self, n: u32) -> Result<(), NoMemory>
        ensures kept { self.new ≡ grown (self.new.spare - self.old.spare) self.old }
        ensures lowers_none { self.old.spare ≤ self.new.spare }
        ensures few { self.new.spare ≤ max self.old.spare n }
        ensures ok { OnOk result (n ≤ self.new.spare) }
        ensures err { OnErr result (self.new ≡ self.old) }
    {
        let more = n.saturating_sub(self.spare);
        if more > u32::MAX - self.made {
            return Err(NoMemory);
        }
        let made = self.made + more;
        self.chunk.reserve(made as usize * self.size as usize)?;
        let pieces = Pieces {
            size: self.size,
            made: self.made,
            head: self.head,
        };
        self.head = link_pieces(&mut self.chunk, &mut self.marks, pieces, more);
        self.made = made;
        self.spare += more;
        Ok(())
    }

    // Takes the first free piece, with what its words happen to be.
    fn pop(&mut self, len: u32) -> u32
        requires some { 0 < self.old.spare }
        requires length { RoundsTo len self.old.size }
        ensures was_free { slice_get self.old.pieces result ≡ Some None }
        ensures taken { (words : List ℕ) × (length words ≡ len)
            × (self.new ≡ taken result words self.old) }
    {
        let at = self.head as u32;
        let next = self.chunk.get(at as usize * self.size as usize);
        self.head = next;
        self.spare -= 1;
        self.marks.mark(at, len);
        at
    }

    pub(crate) fn take(&mut self, len: u32) -> u32
        requires some { 0 < self.old.spare }
        requires length { RoundsTo len self.old.size }
        ensures was_free { slice_get self.old.pieces result ≡ Some None }
        ensures taken { self.new ≡ taken result (replicate len 0) self.old }
    {
        let at = self.pop(len);
        for index in 0..len {
            self.set(at, index, 0);
        }
        at
    }

    pub(crate) fn give(&mut self, at: u32)
        requires { IsSome (words_at self.old.pieces at) }
        ensures length { IfSome (words_at self.old.pieces at)
            (λ words. RoundsTo (length words) self.old.size) }
        ensures given { self.new ≡ given at self.old }
    {
        self.chunk.set(at as usize * self.size as usize, self.head);
        self.head = at as u64;
        self.spare += 1;
        self.marks.mark(at, 0);
    }

    pub(crate) fn get(&self, at: u32, index: u32) -> u64
        requires { IsSome (word_in (words_at self.now.pieces at) index) }
        ensures { word_in (words_at self.now.pieces at) index ≡ Some result }
    {
        self.chunk
            .get(at as usize * self.size as usize + index as usize)
    }

    pub(crate) fn set(&mut self, at: u32, index: u32, value: u64)
        requires { IsSome (word_in (words_at self.old.pieces at) index) }
        ensures { self.new ≡ with_word at index value self.old }
    {
        self.chunk
            .set(at as usize * self.size as usize + index as usize, value);
    }
}
