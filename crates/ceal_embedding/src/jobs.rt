// Jobs to be measured: an engine over inputs of a size, and edits of them. `bench/engine.py` runs them.

ghost use Rattle.std.specs.Prelude.{◌≡◌, ◌<◌, ◌^◌, length, IfOk, OnOk};
ghost use Rattle.ceal_embedding.specs.Sizes.{IsSize};
ghost use Rattle.ceal_engine.specs.Engine.{IsPresent};
ghost use Rattle.ceal_engine.specs.declared.phase.Phase.TheVariants.{Finished};

use crate::calls::{add, call, input, input_field, set, update};
use crate::inputs::{add_cells, add_leaves, add_nodes};
use crate::trouble::Trouble;
use ceal_base::kind::Shape;
use ceal_base::word::{BlockId, Word};
use ceal_compile::compile::compile;
use ceal_engine::engine::Engine;
use std::alloc::Global;

/// What is measured.
#[derive(Clone, Copy, PartialEq, Eq, Debug)]
pub enum Job {
    /// the sum of the leaves of a tree, and one leaf changed
    Tree,
    /// the value of an expression tree, and one leaf changed
    Expression,
    /// each number of a list times ten, and a cell taken out or put back
    Map,
    /// one modifiable that has as many readers as the size says, and its number changed
    Readers,
    /// the same, and an edit to the number that is there
    Same,
    /// the same, and an edit to another number and back before it is looked at
    Back,
    /// the same, and the number written again at a new place before all reads
    Again,
}

/// The job of a word.
pub fn job_of(word: &str) -> Option<Job> {
    match word {
        "tree" => Some(Job::Tree),
        "expression" => Some(Job::Expression),
        "map" => Some(Job::Map),
        "readers" => Some(Job::Readers),
        "same" => Some(Job::Same),
        "back" => Some(Job::Back),
        "again" => Some(Job::Again),
        _ => None,
    }
}

const TREE: &[u8] = b"
struct node { int op; mod int leaf; struct node *left; struct node *right; };

ceal sum(struct node *t, mod int *result) {
  if (t->op == 0) { int v = read(&t->leaf); write(result, v); return; }
  mod int *a = modref int();
  mod int *b = modref int();
  sum(t->left, a);
  sum(t->right, b);
  int x = read(a);
  int y = read(b);
  write(result, x + y);
}
%%
";

const EXPRESSION: &[u8] = b"
struct node { int op; mod int leaf; struct node *left; struct node *right; };

ceal eval(struct node *t, mod int *result) {
  if (t->op == 0) { int v = read(&t->leaf); write(result, v); return; }
  mod int *a = modref int();
  mod int *b = modref int();
  eval(t->left, a);
  eval(t->right, b);
  int x = read(a);
  int y = read(b);
  if (t->op == 1) { write(result, x + y); }
  else if (t->op == 2) { write(result, x - y); }
  else { write(result, x * y); }
}
%%
";

/// A list and its image.
pub const MAP: &[u8] = b"
struct cell { int head; mod struct cell tail; };

ceal map(mod struct cell *from, mod struct cell *to) {
  struct cell *c = read(from);
  if (c == null) { write(to, null); return; }
  struct cell *d = alloc cell make(c);
  write(to, d);
  map(&c->tail, &d->tail);
}

init make(struct cell *self, struct cell *from) { self->head = from->head * 10; }
%%
";

const READERS: &[u8] = b"
ceal all(mod int *from, mod int *asked, int n) {
  once(from, asked);
  each(from, n);
}

ceal once(mod int *from, mod int *asked) {
  int k = read(asked);
  if (k) { write(from, 5); }
}

ceal each(mod int *from, int n) {
  if (n == 0) { return; }
  mod int *to = modref int();
  look(from, to);
  each(from, n - 1);
}

ceal look(mod int *from, mod int *to) {
  int x = read(from);
  write(to, x + 1);
}
%%
";

const FUEL: u32 = 4_194_304;

/// The program of a job. Its first function is the one to call.
fn source(job: Job) -> &'static [u8]
    ensures short { length result.now < 2 ^ 32 }
{
    match job {
        Job::Tree => TREE,
        Job::Expression => EXPRESSION,
        Job::Map => MAP,
        Job::Readers | Job::Same | Job::Back | Job::Again => READERS,
    }
}

/// An engine with a finished run of the job over an input of this size.
pub fn open(alloc: Global, job: Job, size: u32) -> Result<Engine, Trouble>
    requires size { IsSize size }
    ensures present { IfOk result IsPresent }
    ensures finished { IfOk result (λ engine. engine.phase ≡ Finished) }
{
    let program = compile(alloc, source(job))?;
    let mut engine = Engine::new(alloc, program.code, FUEL)?;
    match prepare(&mut engine, job, size) {
        Ok(()) => Ok(engine),
        Err(trouble) => {
            drop(engine);
            Err(trouble)
        }
    }
}

/// Makes the inputs, and runs the program on them.
fn prepare(engine: &mut Engine, job: Job, size: u32) -> Result<(), Trouble>
    requires size { IsSize size }
    ensures present { OnOk result (IsPresent engine.new) }
    ensures finished { OnOk result (engine.new.phase ≡ Finished) }
{
    match job {
        Job::Tree | Job::Expression => run_tree(engine, size),
        Job::Map => run_list(engine, size),
        Job::Readers | Job::Same | Job::Back | Job::Again => run_readers(engine, size),
    }
}

/// Runs the program on the root of a tree and a result.
fn run_tree(engine: &mut Engine, size: u32) -> Result<(), Trouble>
    requires size { IsSize size }
    ensures present { OnOk result (IsPresent engine.new) }
    ensures finished { OnOk result (engine.new.phase ≡ Finished) }
{
    add_leaves(engine, size)?;
    add_nodes(engine, size)?;
    add(engine, Shape::ModInt, &[Word::Num(0)])?;
    let root = BlockId::Input(2 * size - 2);
    call(
        engine,
        0,
        &[Word::Block(root), Word::At(input(2 * size - 1))],
    )
}

/// Runs the program on a list and a result.
fn run_list(engine: &mut Engine, size: u32) -> Result<(), Trouble>
    requires size { IsSize size }
    ensures present { OnOk result (IsPresent engine.new) }
    ensures finished { OnOk result (engine.new.phase ≡ Finished) }
{
    add_cells(engine, size)?;
    add(
        engine,
        Shape::ModPtr(0),
        &[Word::Block(BlockId::Input(size - 1))],
    )?;
    add(engine, Shape::ModPtr(0), &[Word::Null])?;
    call(
        engine,
        0,
        &[Word::At(input(size)), Word::At(input(size + 1))],
    )
}

/// Runs the program on the modifiable that is read, and the one that asks for a write.
fn run_readers(engine: &mut Engine, size: u32) -> Result<(), Trouble>
    ensures present { OnOk result (IsPresent engine.new) }
    ensures finished { OnOk result (engine.new.phase ≡ Finished) }
{
    add(engine, Shape::ModInt, &[Word::Num(5)])?;
    add(engine, Shape::ModInt, &[Word::Num(0)])?;
    let count = Word::Num(size as i64);
    call(engine, 0, &[Word::At(input(0)), Word::At(input(1)), count])
}

/// A place below this number of places; it depends on the other number.
pub fn spread(number: u32, places: u32) -> u32
    requires some { 0 < places }
    ensures below { result < places }
{
    number.wrapping_mul(7919) % places
}

/// The edit of this number, and the update of the run.
pub fn edit(engine: &mut Engine, job: Job, size: u32, number: u32) -> Result<(), Trouble>
    requires size { IsSize size }
    ensures present { OnOk result (IsPresent engine.new) }
    ensures finished { OnOk result (engine.new.phase ≡ Finished) }
{
    match job {
        Job::Tree | Job::Expression => edit_leaf(engine, size, number),
        Job::Map => edit_list(engine, size, number),
        Job::Readers => update(engine, input(0), Word::Num(number as i64)),
        Job::Same => update(engine, input(0), Word::Num(5)),
        Job::Back => {
            set(engine, input(0), Word::Num(6))?;
            update(engine, input(0), Word::Num(5))
        }
        Job::Again => update(engine, input(1), Word::Num((number % 2) as i64)),
    }
}

/// Changes a leaf.
fn edit_leaf(engine: &mut Engine, size: u32, number: u32) -> Result<(), Trouble>
    requires size { IsSize size }
    ensures present { OnOk result (IsPresent engine.new) }
    ensures finished { OnOk result (engine.new.phase ≡ Finished) }
{
    let leaf = input_field(spread(number, size), 1);
    update(engine, leaf, Word::Num(2 * number as i64 + 1))
}

/// Takes a cell out of the list, or puts the one back that was taken out before.
fn edit_list(engine: &mut Engine, size: u32, number: u32) -> Result<(), Trouble>
    requires size { IsSize size }
    ensures present { OnOk result (IsPresent engine.new) }
    ensures finished { OnOk result (engine.new.phase ≡ Finished) }
{
    let cell = 2 + spread(number / 2, size - 2);
    let next = BlockId::Input(cell - 2 + number % 2);
    update(engine, input_field(cell, 1), Word::Block(next))
}
