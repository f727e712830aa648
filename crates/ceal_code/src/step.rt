// The next step of a stack.

ghost use Rattle.std.specs.Prelude.{◌≡◌, ◌+◌, ◌<◌, ◌^◌, true, if◌then◌else◌, IfOk, OnOk};
ghost use Rattle.ceal_base.specs.Access.{holds};
ghost use Rattle.ceal_code.specs.Init.{arguments};
ghost use Rattle.ceal_code.specs.Program.{Code as Parts};
ghost use Rattle.ceal_code.specs.Stacks.{waits_in, stack_in, aside_in, act_in, act_on, top_of, key_made, making_in};
ghost use Rattle.ceal_code.specs.Stacks.{reading_in, step_in};
ghost use Rattle.ceal_code.specs.Step.{Run, variable_default, entered, words_after_read, key_of, place_of, writes_at};
ghost use Rattle.ceal_code.specs.Step.{next};
ghost use Rattle.ceal_code.specs.Value.{Plain, set, values};
ghost use Rattle.ceal_base.specs.declared.word.Word.TheVariants.{Num as IsNum};
ghost use Rattle.ceal_code.specs.declared.step.Act.TheVariants.{Makes as IsMakes, Reads as IsReads};

use crate::binding::bind_given;
use crate::code::Code;
use crate::command::Cmd;
use crate::expr::{CodeExprs, VarId};
use crate::plain_words::PlainWords;
use crate::stack::{Activation, Closure, Stack};
use ceal_base::forest::{Key, UnitId};
use ceal_base::kind::Shape;
use ceal_base::no_memory::NoMemory;
use ceal_base::word::{Place, Word};

/// What the next step is; the stack is that after it.
#[derive(Drop)]
pub enum Act {
    /// nothing is left
    Over,
    /// a step that leaves no item but itself in a trace
    Quiet,
    /// a new block for the key; the variable of the unit gets it, and the unit continues over the stack
    Makes {
        key: Key,
        var: u32,
        unit: Activation,
    },
    Writes {
        place: Place,
        value: Word,
    },
    /// the closure continues with the content of its place, and the stack comes after it
    Reads(Closure),
}

/// What makes a block: an initialiser, whose arguments are not evaluated yet, or the shape of a modifiable.
#[derive(Clone, Copy)]
pub enum Maker<'c> {
    Init { function: u32, args: &'c CodeExprs },
    Modref(Shape),
}

/// A block that is made; the variable of the unit that runs gets it.
#[derive(Clone, Copy)]
pub struct Making<'c> {
    pub maker: Maker<'c>,
    pub var: u32,
}

/// A read, whose arguments are not evaluated yet.
#[derive(Clone, Copy)]
pub struct Reading<'c> {
    pub place: Place,
    pub unit: UnitId,
    pub var: u32,
    pub args: &'c CodeExprs,
}

/// What the next step is. Its arguments are evaluated when they are asked for: in the unit that runs, which is still
/// there.
#[derive(Clone, Copy)]
pub enum Step<'c> {
    Over,
    Quiet,
    Makes(Making<'c>),
    Writes { place: Place, value: Word },
    Reads(Reading<'c>),
}

/// What a read through null gives to a variable of the unit's function.
fn null_content(code: &Code, unit: usize, v: u32) -> Word
    ensures { result ≡ variable_default code.now unit v }
{
    match code.kinds_of(code.function_of(unit)).get(v as usize) {
        None => Word::Null,
        Some(kind) => kind.default_word(),
    }
}

fn key_for(shape: Shape) -> Key
    ensures { result ≡ key_of shape }
{
    match shape {
        Shape::ModInt => Key::ModInt,
        Shape::ModPtr(s) => Key::ModPtr(s),
        Shape::Struct(_) => Key::ModInt,
    }
}

fn place_at(at: Word) -> Option<Place>
    ensures { result ≡ place_of at }
{
    match at {
        Word::At(place) => Some(place),
        Word::Num(_) => None,
        Word::Null => None,
        Word::Block(_) => None,
    }
}

/// Where a run continues for the number of a test.
fn target(test: i64, yes: u32, no: u32) -> usize
    ensures { result ≡ (if holds (IsNum test) then yes else no) }
{
    if test == 0 { no as usize } else { yes as usize }
}

/// Gives a variable a word.
fn assign(stack: &mut Stack, v: u32, word: Word) -> Result<(), NoMemory>
    requires index { stack.old.top.index < 2 ^ 63 }
    requires runs { stack.old.runs ≡ true }
    ensures assigned { OnOk result (stack_in stack.new
        ≡ Run stack.old.top.unit (stack.old.top.index + 1)
        (set (arguments stack.old.top.env.items) v word) (waits_in stack.old.waits)) }
    ensures aside { OnOk result (aside_in stack.new ≡ aside_in stack.old) }
{
    stack.top.set(v, word)?;
    stack.jump(stack.top.index + 1);
    Ok(())
}

/// Makes a block.
fn make<'c>(stack: &mut Stack, making: Making<'c>) -> Step<'c>
    requires index { stack.old.top.index < 2 ^ 63 }
    ensures makes { (code : Parts) (x : Plain) → step_in code x result stack.new
        ≡ making_in code x making.entry stack.old.top.unit (stack.old.top.index + 1)
        (arguments stack.old.top.env.items) (waits_in stack.old.waits) }
    ensures aside { aside_in stack.new ≡ aside_in stack.old }
{
    stack.top.index += 1;
    Step::Makes(making)
}

/// Writes at a place, if the word is one.
fn write<'c>(stack: &mut Stack, at: Word, value: Word) -> Step<'c>
    requires index { stack.old.top.index < 2 ^ 63 }
    requires runs { stack.old.runs ≡ true }
    ensures writes { (code : Parts) (x : Plain) → step_in code x result stack.new
        ≡ writes_at (place_of at) value (Run stack.old.top.unit (stack.old.top.index + 1)
        (arguments stack.old.top.env.items) (waits_in stack.old.waits)) }
    ensures aside { aside_in stack.new ≡ aside_in stack.old }
{
    stack.jump(stack.top.index + 1);
    match place_at(at) {
        None => Step::Quiet,
        Some(place) => Step::Writes { place, value },
    }
}

/// A read through null: the unit continues with the default at once.
fn read_null(
    code: &Code,
    stack: &mut Stack,
    unit: usize,
    v: u32,
    args: &[Word],
) -> Result<(), NoMemory>
    ensures entered { OnOk result (stack_in stack.new ≡ entered code.now unit
        (words_after_read code.now unit v args.now (variable_default code.now unit v))
        (waits_in stack.old.waits)) }
    ensures aside { OnOk result (aside_in stack.new ≡ aside_in stack.old) }
{
    let value = null_content(code, unit, v);
    bind_given(&mut stack.top.env, code.params_of(unit), v, value, args)?;
    stack.begin_at(unit);
    Ok(())
}

/// A read by a command through null.
fn read_nothing<P: PlainWords>(
    code: &Code,
    plain: &P,
    stack: &mut Stack,
    unit: UnitId,
    var: VarId,
    args: &CodeExprs,
) -> Result<(), NoMemory>
    ensures entered { OnOk result (stack_in stack.new ≡ entered code.now unit.0
        (words_after_read code.now unit.0 var.0 (values code.now.structs (P.plain plain.now)
        (arguments stack.old.top.env.items) args.now) (variable_default code.now unit.0 var.0))
        (waits_in stack.old.waits)) }
    ensures aside { OnOk result (aside_in stack.new ≡ aside_in stack.old) }
{
    let words = stack.top.values(code, plain, args.items())?;
    let begun = read_null(code, stack, unit.0 as usize, var.0, words.items());
    drop(words);
    begun
}

/// Does a command of the unit that runs.
fn perform<'c, P: PlainWords>(
    code: &Code,
    plain: &P,
    stack: &mut Stack,
    c: &'c Cmd,
) -> Result<Step<'c>, NoMemory>
    requires index { stack.old.top.index < 2 ^ 63 }
    requires runs { stack.old.runs ≡ true }
    ensures acts { IfOk result (λ s. act_on code.now (P.plain plain.now) c.now
        stack.old.top (waits_in stack.old.waits)
        ≡ step_in code.now (P.plain plain.now) s stack.new) }
    ensures aside { OnOk result (aside_in stack.new ≡ aside_in stack.old) }
{
    match c {
        Cmd::Move { var, value } => {
            let word = stack.top.value(code, plain, value);
            assign(stack, var.0, word)?;
            Ok(Step::Quiet)
        }
        Cmd::Tick => {
            stack.jump(stack.top.index + 1);
            Ok(Step::Quiet)
        }
        Cmd::Alloc {
            var,
            function,
            args,
        } => {
            let maker = Maker::Init {
                function: *function,
                args,
            };
            Ok(make(stack, Making { maker, var: var.0 }))
        }
        Cmd::Modref { var, shape } => {
            let maker = Maker::Modref(*shape);
            Ok(make(stack, Making { maker, var: var.0 }))
        }
        Cmd::Write { place, value } => {
            let at = stack.top.value(code, plain, place);
            let word = stack.top.value(code, plain, value);
            Ok(write(stack, at, word))
        }
        Cmd::If { test, yes, no } => {
            let test = stack.top.number(code, plain, test);
            stack.jump(target(test, *yes, *no));
            Ok(Step::Quiet)
        }
        Cmd::Done => Ok(Step::Over),
        Cmd::Tail { .. } => Ok(Step::Over),
        Cmd::Read {
            var,
            place,
            unit,
            args,
        } => match place_at(stack.top.value(code, plain, place)) {
            None => {
                read_nothing(code, plain, stack, *unit, *var, args)?;
                Ok(Step::Quiet)
            }
            Some(place) => Ok(Step::Reads(Reading {
                place,
                unit: *unit,
                var: var.0,
                args,
            })),
        },
        Cmd::Call {
            function,
            args,
            unit,
            rest,
        } => {
            stack.wait(code, plain, unit.0 as usize, rest.items())?;
            stack.go_to(code, plain, code.entry_of(*function), args.items())?;
            Ok(Step::Quiet)
        }
    }
}

impl Stack {
    /// The next step of the stack. The stack is then as it is after that step, except that a block that is made, and a
    /// read, have still to be taken from it. After running out of memory it must not be used any more.
    #[tactic(auto, unfolding(crate::specs::Step::next))]
    pub fn step<'c, P: PlainWords>(
        &mut self,
        code: &'c Code,
        plain: &P,
    ) -> Result<Step<'c>, NoMemory>
        ensures step { IfOk result (λ s. next code.now (P.plain plain.now) (stack_in self.old)
            ≡ step_in code.now (P.plain plain.now) s self.new) }
        ensures aside { OnOk result (aside_in self.new ≡ aside_in self.old) }
    {
        match self.settle(code, plain)? {
            None => Ok(Step::Over),
            Some(c) => perform(code, plain, self, c),
        }
    }

    /// The key of a block that is made in the unit that runs.
    pub fn key<P: PlainWords>(
        &self,
        code: &Code,
        plain: &P,
        maker: Maker<'_>,
    ) -> Result<Key, NoMemory>
        ensures key { IfOk result (λ key. key ≡ key_made code.now (P.plain plain.now) maker.entry
            (arguments (top_of self.now).env.items)) }
    {
        match maker {
            Maker::Init { function, args } => {
                let args = self.top.values(code, plain, args.items())?;
                Ok(Key::Init { function, args })
            }
            Maker::Modref(shape) => Ok(key_for(shape)),
        }
    }

    /// Takes the key of the block that is made, and the unit that it is for; the unit continues over the stack.
    fn made<P: PlainWords>(
        &mut self,
        code: &Code,
        plain: &P,
        making: Making<'_>,
    ) -> Result<(Key, Activation), NoMemory>
        ensures made { IfOk result (λ m.
            making_in code.now (P.plain plain.now) making.entry self.old.top.unit self.old.top.index
            (arguments self.old.top.env.items) (waits_in self.old.waits)
            ≡ act_in (IsMakes m.0 making.entry.var m.1) (stack_in self.new)) }
    {
        let key = self.key(code, plain, making.maker)?;
        Ok((key, self.take_top()))
    }

    /// Takes the closure of a read; the stack comes after it.
    fn closure<P: PlainWords>(
        &mut self,
        code: &Code,
        plain: &P,
        reading: Reading<'_>,
    ) -> Result<Closure, NoMemory>
        ensures closure { IfOk result (λ c.
            reading_in code.now (P.plain plain.now) reading.entry
            (arguments self.old.top.env.items) (waits_in self.old.waits)
            ≡ act_in (IsReads c) (stack_in self.new)) }
    {
        let args = self.top.values(code, plain, reading.args.items())?;
        self.leave();
        Ok(Closure {
            place: reading.place,
            unit: reading.unit,
            var: reading.var,
            args,
        })
    }
}

/// The next step of the stack. After running out of memory the stack must not be used any more.
pub fn advance<P: PlainWords>(code: &Code, plain: &P, stack: &mut Stack) -> Result<Act, NoMemory>
    ensures act { IfOk result (λ a. next code.now (P.plain plain.now) (stack_in stack.old)
        ≡ act_in a (stack_in stack.new)) }
{
    match stack.step(code, plain)? {
        Step::Over => Ok(Act::Over),
        Step::Quiet => Ok(Act::Quiet),
        Step::Makes(making) => {
            let (key, unit) = stack.made(code, plain, making)?;
            Ok(Act::Makes {
                key,
                var: making.var,
                unit,
            })
        }
        Step::Writes { place, value } => Ok(Act::Writes { place, value }),
        Step::Reads(reading) => {
            let closure = stack.closure(code, plain, reading)?;
            Ok(Act::Reads(closure))
        }
    }
}
