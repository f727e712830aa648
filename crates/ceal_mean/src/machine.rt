// What each statement does.

ghost use Rattle.std.specs.Prelude.{◌≡◌, ◌<◌, ◌≤◌, ◌+◌, ◌^◌, ⊤, List, Some, None, false, if◌then◌else◌, [], ◌∷◌, ◌++◌};
ghost use Rattle.std.specs.Prelude.{length, map, slice_set, IfOk, OnOk};
ghost use Rattle.std.specs.Option.{option_to_list};
ghost use Rattle.ceal_base.specs.Access.{holds};
ghost use Rattle.ceal_base.specs.Shapes.{default_block};
ghost use Rattle.ceal_base.specs.declared.typed.TypedStmt.{out-TypedStmt};
ghost use Rattle.ceal_mean.specs.Exec.{content_default, new_block, new_modifiable, value_given, frames_at_entry};
ghost use Rattle.ceal_mean.specs.Exec.{effect};
ghost use Rattle.ceal_mean.specs.Frame.{Item, Do, Again, Frame};
ghost use Rattle.ceal_mean.specs.Init.{init_block};
ghost use Rattle.ceal_mean.specs.Value.{value_of, values_of};

use crate::activation::{Activation, enter};
use crate::eval::eval;
use crate::init::init;
use ceal_base::access::{content, is_true, write};
use ceal_base::kind::{Kind, Shape};
use ceal_base::memory::{BlockWords, Memory};
use ceal_base::no_memory::NoMemory;
use ceal_base::typed::{Typed, TypedExpr, TypedStmt, TypedValue};
use ceal_base::word::{BlockId, Place, Word};
use std::alloc::Global;

/// What statements run on: a program, and where new memory comes from.
#[derive(Clone, Copy)]
pub struct Machine<'a> {
    pub alloc: Global,
    pub program: &'a Typed,
}

fn default_content(kind: Option<Kind>) -> Word
    ensures { result ≡ content_default kind }
{
    match kind {
        Some(Kind::ModInt) => Word::Num(0),
        _ => Word::Null,
    }
}

/// Adds a core block, and gives its number.
fn add_block(memory: &mut Memory, block: BlockWords) -> Result<BlockId, NoMemory>
    requires { length memory.old.made < 2 ^ 32 }
    ensures grows { length memory.new.made ≤ length memory.old.made + 1 }
    ensures made { IfOk result
        (λ id. new_block memory.old block ≡ record { memory = memory.new; word = Word.Block id }) }
    ensures place { IfOk result
        (λ id. new_modifiable memory.old block
        ≡ record { memory = memory.new; word = Word.At (record { block = id; field = 0 }) }) }
{
    let at = memory.items().len() as u32;
    memory.push(block)?;
    Ok(BlockId::Core(at))
}

fn make_modifiable(
    alloc: Global,
    memory: &mut Memory,
    shape: Shape,
    default: Word,
) -> Result<Word, NoMemory>
    requires { length memory.old.made < 2 ^ 32 }
    ensures grows { length memory.new.made ≤ length memory.old.made + 1 }
    ensures made { IfOk result
        (λ word. new_modifiable memory.old (record { shape = shape; words = default ∷ [] })
        ≡ record { memory = memory.new; word = word }) }
{
    let mut words = Vec::new(alloc);
    words.push(default)?;
    let block = add_block(memory, BlockWords::new(shape, words))?;
    Ok(Word::At(Place { block, field: 0 }))
}

fn allocate(
    machine: &Machine<'_>,
    memory: &mut Memory,
    env: &[Word],
    function: u32,
    args: &[TypedExpr],
) -> Result<Word, NoMemory>
    requires { length memory.old.made < 2 ^ 32 }
    ensures grows { length memory.new.made ≤ length memory.old.made + 1 }
    ensures made { IfOk result
        (λ word. new_block memory.old
        (init_block machine.now.program.now function
        (values_of env.now memory.old args.now) memory.old)
        ≡ record { memory = memory.new; word = word }) }
{
    let words = values(machine.alloc, memory, env, args)?;
    let block = init(
        machine.alloc,
        machine.program,
        function,
        words.as_slice(),
        memory,
    )?;
    let id = add_block(memory, block)?;
    Ok(Word::Block(id))
}

fn take_value(
    machine: &Machine<'_>,
    memory: &mut Memory,
    env: &[Word],
    value: &TypedValue,
) -> Result<Word, NoMemory>
    requires { length memory.old.made < 2 ^ 32 }
    ensures grows { length memory.new.made ≤ length memory.old.made + 1 }
    ensures taken { IfOk result
        (λ word. value_given machine.now.program.now env.now memory.old value.now
        ≡ record { memory = memory.new; word = word }) }
{
    match value {
        TypedValue::Plain(e) => Ok(eval(env, memory, e)),
        TypedValue::Read(_, e) => Ok(content(
            memory,
            eval(env, memory, e),
            default_content(e.kind),
        )),
        TypedValue::Alloc { function, args, .. } => {
            let word = allocate(machine, memory, env, *function, args.items())?;
            Ok(word)
        }
        TypedValue::ModrefInt(_) => {
            make_modifiable(machine.alloc, memory, Shape::ModInt, Word::Num(0))
        }
        TypedValue::Modref(_, s) => {
            make_modifiable(machine.alloc, memory, Shape::ModPtr(*s), Word::Null)
        }
    }
}

#[tactic(auto, unfolding(crate::specs::Value::values_of))]
fn values(
    alloc: Global,
    memory: &Memory,
    env: &[Word],
    args: &[TypedExpr],
) -> Result<Vec<Word>, NoMemory>
    ensures { IfOk result (λ words. words.items ≡ values_of env.now memory.now args.now) }
{
    let mut words = Vec::new(alloc);
    for arg in args {
        words.push(eval(env, memory, arg))?;
    }
    Ok(words)
}

fn give(
    machine: &Machine<'_>,
    memory: &mut Memory,
    frame: &mut Activation<'_>,
    n: u32,
    value: &TypedValue,
) -> Result<(), NoMemory>
    requires { length memory.old.made < 2 ^ 32 }
    ensures grows { length memory.new.made ≤ length memory.old.made + 1 }
    ensures memory { OnOk result
        ((value_given machine.now.program.now frame.old.env memory.old value.now).memory
        ≡ memory.new) }
    ensures frame { OnOk result
        (frame.new ≡
        record frame.old {
          env = slice_set frame.old.env n
              (value_given machine.now.program.now frame.old.env memory.old value.now).word;
        }) }
{
    let word = take_value(machine, memory, frame.variables(), value)?;
    frame.set(n, word);
    Ok(())
}

fn choose<'a>(
    memory: &Memory,
    frame: &mut Activation<'a>,
    test: &TypedExpr,
    first: &'a [TypedStmt],
    second: &'a [TypedStmt],
) -> Result<(), NoMemory>
    ensures { OnOk result
        (frame.new ≡
        record frame.old {
          todo = map Do
              (if holds (value_of frame.old.env memory.now test.now) then first.now else second.now)
              ++ frame.old.todo;
        }) }
{
    if is_true(eval(frame.variables(), memory, test)) {
        frame.put_before(first)
    } else {
        frame.put_before(second)
    }
}

fn turn<'a>(
    memory: &Memory,
    frame: &mut Activation<'a>,
    test: &TypedExpr,
    body: &'a [TypedStmt],
    s: &'a TypedStmt,
) -> Result<(), NoMemory>
    ensures { OnOk result
        (frame.new ≡
        record frame.old {
          todo =
              (if holds (value_of frame.old.env memory.now test.now) then map Do body.now
              ++ Again s.now ∷ frame.old.todo else frame.old.todo);
        }) }
{
    if is_true(eval(frame.variables(), memory, test)) {
        frame.put_again(s)?;
        frame.put_before(body)
    } else {
        Ok(())
    }
}

fn call<'a>(
    machine: &Machine<'a>,
    memory: &Memory,
    frame: &Activation<'_>,
    function: u32,
    args: &[TypedExpr],
) -> Result<Option<Activation<'a>>, NoMemory>
    ensures { IfOk result
        (λ called. frames_at_entry machine.now.program.now function
        (values_of frame.now.env memory.now args.now)
        ≡ option_to_list called) }
{
    let words = values(machine.alloc, memory, frame.variables(), args)?;
    let called = enter(machine.alloc, machine.program, function, words)?;
    Ok(called)
}

/// Does a statement that was taken from this activation; a call gives the activation that goes before it. A `return`,
/// `break` or `continue` is never taken.
pub fn act<'a>(
    machine: &Machine<'a>,
    memory: &mut Memory,
    frame: &mut Activation<'a>,
    s: &'a TypedStmt,
) -> Result<Option<Activation<'a>>, NoMemory>
    requires room { length memory.old.made < 2 ^ 32 }
    ensures grows { length memory.new.made ≤ length memory.old.made + 1 }
    ensures done { IfOk result
        (λ called. (below : List Frame)
        → effect machine.now.program.now memory.old frame.old.env frame.old.todo below s.now
        (out-TypedStmt s.now)
        ≡ record { memory = memory.new; frames = option_to_list called ++ frame.new ∷ below }) }
{
    match s {
        TypedStmt::Declare(_, n, _, value) => {
            give(machine, memory, frame, *n, value)?;
            Ok(None)
        }
        TypedStmt::Assign(_, n, value) => {
            give(machine, memory, frame, *n, value)?;
            Ok(None)
        }
        TypedStmt::SetField(..) => Ok(None),
        TypedStmt::Write(_, place, value) => {
            let at = eval(frame.variables(), memory, place);
            let word = eval(frame.variables(), memory, value);
            write(memory, at, word);
            Ok(None)
        }
        TypedStmt::Call(_, function, args) => {
            let called = call(machine, memory, frame, *function, args.items())?;
            Ok(called)
        }
        TypedStmt::If(_, test, first, second) => {
            choose(memory, frame, test, first.items(), second.items())?;
            Ok(None)
        }
        TypedStmt::While(_, test, body) => {
            turn(memory, frame, test, body.items(), s)?;
            Ok(None)
        }
        TypedStmt::Return(_) => Ok(None),
        TypedStmt::Break(_) => Ok(None),
        TypedStmt::Continue(_) => Ok(None),
    }
}
