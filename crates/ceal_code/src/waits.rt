// Units that wait until the one above them is over.

ghost use Rattle.std.specs.Prelude.{◌≡◌, ◌++◌, ◌-◌, ◌<◌, ◌≤◌, drop, length, max, min, true, IfOk, OnOk};
ghost use Rattle.ceal_code.specs.Init.{arguments};
ghost use Rattle.ceal_code.specs.Piles.{no_units};
ghost use Rattle.ceal_code.specs.Stacks.{waits_in, above_floor, under_floor, Began};
ghost use Rattle.ceal_code.specs.Step.{Empty, Run};

use crate::stack::Activation;
use ceal_base::no_memory::NoMemory;
use ceal_base::word::Word;
use std::alloc::Global;
use std::marker::Model;

/// A unit that waits: the index of its next command, and how many words stand for its variables.
#[derive(Clone, Copy)]
pub struct Waiting {
    pub unit: usize,
    pub index: usize,
    pub count: usize,
}

/// How many units lie below, and how many words they have.
#[derive(Clone, Copy)]
pub struct Floor {
    pub units: usize,
    pub words: usize,
}

/// Units that wait, the next one last, and the words of their variables one after another. Those below the floor are
/// set aside.
#[derive(Drop)]
pub struct Waits {
    units: Vec<Waiting>,
    words: Vec<Word>,
    floor: Floor,
}

impl Model for Waits {
    ghost use Rattle.std.specs.Prelude.{◌≤◌, take, drop, length};
    ghost use Rattle.ceal_code.specs.Piles.{Pile, Piles};

    ghost Value = { Piles };

    ghost view = { λ w. record {
      aside = record {
        units = take w.floor.units w.units.items;
        words = take w.floor.words w.words.items;
      };
      waits = record {
        units = drop w.floor.units w.units.items;
        words = drop w.floor.words w.words.items;
      };
    } };

    ghost invariant = { λ w. (w.floor.units ≤ length w.units.items)
        × (w.floor.words ≤ length w.words.items) };
}

fn less(a: usize, b: usize) -> usize
    ensures { result ≡ a - b }
{
    a.saturating_sub(b)
}

fn smaller(a: usize, b: usize) -> usize
    ensures { result ≡ min a b }
{
    if a < b { a } else { b }
}

fn larger(a: usize, b: usize) -> usize
    ensures { result ≡ max a b }
{
    if a < b { b } else { a }
}

/// The words from an index on.
fn tail(words: &[Word], from: usize) -> &[Word]
    requires { from ≤ length words.now }
    ensures { result.now ≡ drop from words.now }
{
    &words[from..]
}

/// Adds words, which mostly are none.
fn append(words: &mut Vec<Word>, more: &[Word]) -> Result<(), NoMemory>
    ensures appended { OnOk result (words.new.items ≡ words.old.items ++ more.now) }
    ensures longer { length words.old.items ≤ length words.new.items }
{
    if more.is_empty() {
        return Ok(());
    }
    words.extend_from_slice(more)?;
    Ok(())
}

/// Puts words in place of those that there are.
fn refill(env: &mut Vec<Word>, words: &[Word]) -> Result<(), NoMemory>
    ensures { OnOk result (env.new.items ≡ words.now) }
{
    env.clear();
    append(env, words)
}

impl Waits {
    /// With no unit.
    pub fn empty(alloc: Global) -> Waits
        ensures empty { waits_in result ≡ Empty }
    {
        Waits {
            units: Vec::new(alloc),
            words: Vec::new(alloc),
            floor: Floor { units: 0, words: 0 },
        }
    }

    /// A unit waits, over those that do.
    pub(crate) fn push(&mut self, unit: usize, index: usize, env: &[Word]) -> Result<(), NoMemory>
        ensures pushed { OnOk result
            (waits_in self.new ≡ Run unit index (arguments env.now) (waits_in self.old)) }
        ensures aside { OnOk result (self.new.aside ≡ self.old.aside) }
    {
        append(&mut self.words, env)?;
        self.units.push(Waiting {
            unit,
            index,
            count: env.len(),
        })?;
        Ok(())
    }

    /// The next unit waits no more, and this one becomes it; it answers false where none waits.
    pub(crate) fn pop(&mut self, top: &mut Activation) -> Result<bool, NoMemory>
        ensures began { IfOk result (λ more. Began more self.old top.new self.new) }
        ensures fewer { IfOk result (λ more. more ≡ true
            → length self.new.waits.units < length self.old.waits.units) }
        ensures aside { OnOk result (self.new.aside ≡ self.old.aside) }
    {
        if self.units.len() <= self.floor.units {
            return Ok(false);
        }
        let Some(next) = self.units.pop() else {
            return Ok(false);
        };
        let words = self.words.as_slice();
        let from = larger(less(words.len(), next.count), self.floor.words);
        top.unit = next.unit;
        top.index = next.index;
        refill(&mut top.env, tail(words, from))?;
        self.words.truncate(from);
        Ok(true)
    }

    /// No unit waits any more. Those that were set aside stay.
    pub(crate) fn clear(&mut self)
        ensures cleared { waits_in self.new ≡ Empty }
        ensures none { self.new.waits ≡ no_units }
        ensures aside { self.new.aside ≡ self.old.aside }
    {
        self.units.truncate(self.floor.units);
        self.words.truncate(self.floor.words);
    }

    /// The units that wait are set aside. It answers how many were set aside before.
    pub(crate) fn raise(&mut self) -> Floor
        ensures above { above_floor result self.new.aside ≡ waits_in self.old }
        ensures under { under_floor result self.new.aside ≡ self.old.aside }
        ensures none { waits_in self.new ≡ Empty }
    {
        let below = self.floor;
        self.floor = Floor {
            units: self.units.len(),
            words: self.words.len(),
        };
        below
    }

    /// The units that were set aside from there on wait, in place of those that do.
    pub(crate) fn lower(&mut self, below: Floor)
        ensures waits { waits_in self.new ≡ above_floor below self.old.aside }
        ensures aside { self.new.aside ≡ under_floor below self.old.aside }
    {
        self.clear();
        self.floor = Floor {
            units: smaller(below.units, self.floor.units),
            words: smaller(below.words, self.floor.words),
        };
    }

    /// No unit waits, and none is set aside.
    pub(crate) fn reset(&mut self)
        ensures none { waits_in self.new ≡ Empty }
    {
        self.units.clear();
        self.words.clear();
        self.floor = Floor { units: 0, words: 0 };
    }
}
