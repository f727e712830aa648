// A function that runs.

ghost use Rattle.std.specs.Prelude.{◌≡◌, Some, ◌∷◌, ◌++◌, [], ◌-◌, length, map, replicate, slice_set, IfOk, OnOk};
ghost use Rattle.std.specs.Prelude.{MatchOption};
ghost use Rattle.std.specs.Option.{option_to_list};
ghost use Rattle.ceal_base.specs.declared.word.Word.{Word};
ghost use Rattle.ceal_mean.specs.Exec.{first_env, frames_at_entry};
ghost use Rattle.ceal_mean.specs.Frame.{Item, Do, Again};
ghost use Rattle.ceal_mean.specs.Jumps.{ready};
ghost use Rattle.ceal_mean.specs.Todo.{first_of};

use crate::todo::{Part, put_first, put_turn, take_first};
use ceal_base::no_memory::NoMemory;
use ceal_base::typed::{Typed, TypedFunction, TypedStmt};
use ceal_base::word::Word;
use std::alloc::Global;
use std::marker::Model;

/// A function that runs: what it has still to do, in parts, and the words of its variables.
#[derive(Drop)]
pub struct Activation<'a> {
    parts: Vec<Part<'a>>,
    env: Vec<Word>,
}

impl<'a> Model for Activation<'a> {
    ghost use Rattle.ceal_base.specs.contracts.typed.TypedStmt as stmt;
    ghost use Rattle.ceal_mean.specs.Frame.{Frame};
    ghost use Rattle.ceal_mean.specs.Todo.{joined};
    ghost use Rattle.std.specs.Coded.{codes};

    ghost Value = { Frame };

    ghost coded = { Prim.hlevel (codes, stmt.the_row.coded) };

    ghost view = { λ a. record { todo = joined a.parts.items; env = a.env.items } };
}

impl<'a> Activation<'a> {
    /// An activation at the beginning of a body, with a word for each variable.
    #[tactic(auto, using(crate::proofs::TodoLemmas::joined_steps))]
    pub fn new(
        alloc: Global,
        body: &'a [TypedStmt],
        env: Vec<Word>,
    ) -> Result<Activation<'a>, NoMemory>
        ensures value { IfOk result (λ a. a ≡ record { todo = map Do body.now; env = env.items }) }
    {
        let mut parts = Vec::new(alloc);
        put_first(&mut parts, body)?;
        Ok(Activation { parts, env })
    }

    /// The words of the variables, by their numbers.
    pub fn variables(&self) -> &[Word]
        ensures value { result.now ≡ self.now.env }
    {
        self.env.as_slice()
    }

    /// Gives a variable a word.
    pub fn set(&mut self, n: u32, word: Word)
        ensures state { self.new ≡ record self.old { env = slice_set self.old.env n word } }
    {
        set_at(&mut self.env, n as usize, word);
    }

    /// Puts statements before all that it has to do.
    pub fn put_before(&mut self, body: &'a [TypedStmt]) -> Result<(), NoMemory>
        ensures state { OnOk result
            (self.new ≡ record self.old { todo = map Do body.now ++ self.old.todo }) }
    {
        put_first(&mut self.parts, body)
    }

    /// Puts another turn of a `while` before all that it has to do.
    pub fn put_again(&mut self, w: &'a TypedStmt) -> Result<(), NoMemory>
        ensures state { OnOk result
            (self.new ≡ record self.old { todo = Again w.now ∷ self.old.todo }) }
    {
        put_turn(&mut self.parts, w)
    }

    /// Takes the next statement that is a step.
    pub fn take(&mut self) -> Result<Option<&'a TypedStmt>, NoMemory>
        ensures taken { IfOk result
            (λ found. MatchOption found (ready self.old.todo ≡ [])
            (λ s. first_of (ready self.old.todo)
            ≡ Some (record { stmt = s.now; rest = self.new.todo }))) }
        ensures variables { self.new.env ≡ self.old.env }
    {
        take_first(&mut self.parts)
    }
}

fn set_at(words: &mut Vec<Word>, at: usize, word: Word)
    ensures { words.new.items ≡ slice_set words.old.items at word }
{
    if at < words.len() {
        words[at] = word;
    }
}

/// The activation of the function of this number, if there is one.
pub fn enter<'a>(
    alloc: Global,
    program: &'a Typed,
    function: u32,
    args: Vec<Word>,
) -> Result<Option<Activation<'a>>, NoMemory>
    ensures value { IfOk result
        (λ called. frames_at_entry program.now function args.items ≡ option_to_list called) }
{
    match program.functions.items().get(function as usize) {
        Some(found) => {
            let env = first_words(found, args)?;
            let called = Activation::new(alloc, found.body.items(), env)?;
            Ok(Some(called))
        }
        None => Ok(None),
    }
}

fn first_words(function: &TypedFunction, args: Vec<Word>) -> Result<Vec<Word>, NoMemory>
    ensures { IfOk result (λ env. env.items ≡ first_env function.now args.items) }
{
    let mut env = args;
    fill(&mut env, function.kinds.items().len())?;
    Ok(env)
}

/// Adds nulls up to this length.
fn fill(words: &mut Vec<Word>, count: usize) -> Result<(), NoMemory>
    ensures { OnOk result
        (words.new.items ≡ words.old.items
        ++ replicate (count - length words.old.items) Word.Null) }
{
    if words.len() < count {
        words.resize(count, Word::Null)?;
    }
    Ok(())
}
