// The edits of a session, and what the bound of its last run is made of.

ghost use Rattle.std.specs.Prelude.{◌≡◌, OnOk, OnErr, length, take};
ghost use Rattle.ceal_engine.specs.Engine.{with_base};
ghost use Rattle.ceal_session.specs.Journal.{journal_at_start, with_edit, with_bound, journal_after_completion};
ghost use Rattle.ceal_session.specs.Journal.{journal_of_bound, measure_of};
ghost use Rattle.ceal_session.specs.UndoneEdits.{undone, base_at};

use ceal_base::memory::Inputs;
use ceal_base::no_memory::NoMemory;
use ceal_base::word::{BlockId, Place, Word};
use std::alloc::Global;
use std::marker::Model;
use std::mem;

/// A base that a modifiable of an input had before an edit.
#[derive(Clone, Copy, PartialEq, Eq, Debug)]
pub struct Edit {
    pub place: Place,
    pub base: Word,
}

/// What a bound is made of.
#[derive(Drop)]
pub enum Bounding {
    /// it is this number
    Number(u32),
    /// the edits between the completion before the last one and that one, in their order
    Edits(Vec<Edit>),
}

/// The edits since the last run or propagate that was completed, in their order, and what its bound is made of.
#[derive(Drop)]
pub struct Journal {
    since: Vec<Edit>,
    bounding: Bounding,
}

impl Model for Journal {
    ghost use Rattle.ceal_session.specs.Journal.{JournalState, measure_of};

    ghost Value = { JournalState };

    ghost view = { λ j. record { since = j.since.items; measure = measure_of j.bounding } };
}

/// The word of a field of an input; null where there is none.
pub fn base_of(inputs: &Inputs, place: Place) -> Word
    ensures { result ≡ base_at inputs.now place }
{
    match place.block {
        BlockId::Core(_) => Word::Null,
        BlockId::Input(n) => match inputs.items().get(n as usize) {
            None => Word::Null,
            Some(block) => match block.items().get(place.field as usize) {
                None => Word::Null,
                Some(word) => *word,
            },
        },
    }
}

/// Sets the word of a field of an input.
fn set_base(inputs: &mut Inputs, place: Place, value: Word)
    ensures { inputs.new ≡ with_base inputs.old place value }
{
    match place.block {
        BlockId::Input(n) => inputs.set(n, place.field, value),
        BlockId::Core(_) => {}
    }
}

/// Gives the bases back that the edits took away, the last edit first.
pub fn undo(inputs: &mut Inputs, edits: &[Edit])
    ensures { inputs.new ≡ undone edits.now inputs.old }
{
    let mut rest = edits;
    while let Some((edit, before)) = rest.split_last() {
        set_base(inputs, edit.place, edit.base);
        rest = before;
    }
}

impl Journal {
    /// Nothing was run, and nothing edited.
    pub fn new(alloc: Global) -> Journal
        ensures { result ≡ journal_at_start }
    {
        Journal {
            since: Vec::new(alloc),
            bounding: Bounding::Number(0),
        }
    }

    /// Nothing was edited, and the bound is this number.
    pub fn told(alloc: Global, bound: u32) -> Journal
        ensures { result ≡ journal_of_bound bound }
    {
        Journal {
            since: Vec::new(alloc),
            bounding: Bounding::Number(bound),
        }
    }

    /// How many edits there are.
    pub fn len(&self) -> usize
        ensures { result ≡ length self.now.since }
    {
        self.since.len()
    }

    /// One edit more.
    pub fn push(&mut self, place: Place, base: Word) -> Result<(), NoMemory>
        ensures ok { OnOk result
            (self.new ≡ with_edit self.old (record { place = place; base = base })) }
        ensures err { OnErr result (self.new ≡ self.old) }
    {
        self.since.push(Edit { place, base })?;
        Ok(())
    }

    /// Leaves the first `len` edits.
    pub fn truncate(&mut self, len: usize)
        ensures { self.new ≡ record self.old { since = take len self.old.since } }
    {
        self.since.truncate(len);
    }

    /// A repair is completed: its bound is made of the edits since the completion before it.
    pub fn complete(&mut self)
        ensures { self.new ≡ journal_after_completion self.old }
    {
        let alloc = *self.since.allocator();
        let edits = mem::replace(&mut self.since, Vec::new(alloc));
        drop(mem::replace(&mut self.bounding, Bounding::Edits(edits)));
    }

    /// The bound is this number.
    pub fn settle(&mut self, bound: u32)
        ensures { self.new ≡ journal_of_bound bound }
    {
        self.since.clear();
        drop(mem::replace(&mut self.bounding, Bounding::Number(bound)));
    }

    /// Keeps the bound in place of what it is made of.
    pub fn keep(&mut self, bound: u32)
        ensures { self.new ≡ with_bound self.old bound }
    {
        drop(mem::replace(&mut self.bounding, Bounding::Number(bound)));
    }

    /// The last bound, or the edits that it is computed from.
    pub fn bounding(&self) -> &Bounding
        ensures { measure_of result.now ≡ self.now.measure }
    {
        &self.bounding
    }
}
