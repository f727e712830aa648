// Units still to do, and the words that they begin with.

ghost use Rattle.std.specs.Prelude.{◌≡◌, ◌<◌, length, true, false, IfOk, OnOk};
ghost use Rattle.std.specs.declared.alloc.Global.{Global as Allocator};
ghost use Rattle.ceal_base.specs.Operators.{number_of};
ghost use Rattle.ceal_code.specs.Init.{arguments};
ghost use Rattle.ceal_code.specs.Stacks.{Began, over, waits_in, stack_in, aside_in, above_floor, under_floor, top_of};
ghost use Rattle.ceal_code.specs.Stacks.{below_in, below_count, left_in};
ghost use Rattle.ceal_code.specs.Step.{Empty, Run, entered, started, words_after_read};
ghost use Rattle.ceal_code.specs.Value.{set, expr_value, values};

use crate::binding::{bind, bind_given, bind_values, choose, set_variable};
use crate::code::Code;
use crate::evaluate::Scope;
use crate::expr::CodeExpr;
use crate::plain_words::PlainWords;
use crate::waits::{Floor, Waits};
use ceal_base::forest::UnitId;
use ceal_base::no_memory::NoMemory;
use ceal_base::word::{Place, Word};
use ceal_base::words::Words;
use std::alloc::Global;
use std::mem;

/// The closure of a read: the place that is read, the unit that continues with its content, the variable of the unit
/// that takes the content, and the arguments for the unit's other parameters.
#[derive(Drop)]
pub struct Closure {
    pub place: Place,
    pub unit: UnitId,
    pub var: u32,
    pub args: Words,
}

/// The continuation of a read: the unit that continues with the content of the place, the variable of the unit that
/// takes it, and the words for the unit's other parameters, which stay where they are.
#[derive(Clone, Copy)]
pub struct Continuation<'a> {
    pub unit: UnitId,
    pub var: u32,
    pub args: &'a [Word],
}

/// A unit that runs: the index of its next command, and the words of its variables, null where there is none.
#[derive(Drop)]
pub struct Activation {
    pub unit: usize,
    pub index: usize,
    pub env: Vec<Word>,
}

/// Units still to do. One of them runs, or none; the others wait, over those that are set aside. What has room for the
/// words of a unit keeps it.
#[derive(Drop)]
pub struct Stack {
    pub(crate) runs: bool,
    pub(crate) top: Activation,
    pub(crate) waits: Waits,
    room: Vec<Word>,
}

impl Closure {
    /// How the read continues.
    pub fn continuation(&self) -> Continuation<'_>
        ensures unit { result.unit ≡ self.now.unit }
        ensures var { result.var ≡ self.now.var }
        ensures args { result.args.now ≡ self.now.args }
    {
        Continuation {
            unit: self.unit,
            var: self.var,
            args: self.args.items(),
        }
    }
}

impl Activation {
    /// No unit, which has no words.
    pub(crate) fn none(alloc: Global) -> Activation {
        Activation {
            unit: 0,
            index: 0,
            env: Vec::new(alloc),
        }
    }

    /// What the expressions of the unit are evaluated in.
    fn scope<'a, P: PlainWords>(&'a self, code: &'a Code, plain: &'a P) -> Scope<'a, P>
        ensures structs { result.structs.now ≡ code.now.structs }
        ensures plain { result.plain.now ≡ plain.now }
        ensures env { result.env.now ≡ self.now.env.items }
    {
        Scope {
            structs: code.structs.items(),
            plain,
            env: self.env.as_slice(),
        }
    }

    /// What an expression gives in the unit.
    pub fn value<P: PlainWords>(&self, code: &Code, plain: &P, e: &CodeExpr) -> Word
        ensures value { result ≡ expr_value code.now.structs
            (P.plain plain.now) (arguments self.now.env.items) e.now }
    {
        let scope = self.scope(code, plain);
        scope.value(e)
    }

    /// The number that an expression gives in the unit, and 0 where it gives another word.
    pub(crate) fn number<P: PlainWords>(&self, code: &Code, plain: &P, e: &CodeExpr) -> i64
        ensures number { result ≡ number_of (expr_value code.now.structs
            (P.plain plain.now) (arguments self.now.env.items) e.now) }
    {
        let scope = self.scope(code, plain);
        scope.number(e)
    }

    /// What each of the expressions gives in the unit.
    pub fn values<P: PlainWords>(
        &self,
        code: &Code,
        plain: &P,
        es: &[CodeExpr],
    ) -> Result<Words, NoMemory>
        ensures value { IfOk result (λ words. words ≡ values code.now.structs
            (P.plain plain.now) (arguments self.now.env.items) es.now) }
    {
        let scope = self.scope(code, plain);
        scope.values(*self.env.allocator(), es)
    }

    /// Gives a variable a word.
    pub fn set(&mut self, v: u32, word: Word) -> Result<(), NoMemory>
        ensures unit { self.new.unit ≡ self.old.unit }
        ensures index { self.new.index ≡ self.old.index }
        ensures env { OnOk result
            (arguments self.new.env.items ≡ set (arguments self.old.env.items) v word) }
    {
        set_variable(&mut self.env, v, word)
    }
}

impl Stack {
    /// With no unit.
    #[tactic(auto, unfolding(crate::specs::Stacks::stack_in))]
    pub fn empty(alloc: Global) -> Stack
        ensures empty { stack_in result ≡ Empty }
    {
        Stack {
            runs: false,
            top: Activation::none(alloc),
            waits: Waits::empty(alloc),
            room: Vec::new(alloc),
        }
    }

    /// What more memory for units is taken from: the one allocator that there is.
    pub fn allocator(&self) -> Global
        ensures only { (other : Allocator) → result ≡ other }
    {
        *self.room.allocator()
    }

    /// The unit that runs, if one does, waits from now on.
    #[tactic(auto, unfolding(crate::specs::Stacks::stack_in))]
    fn park(&mut self) -> Result<(), NoMemory>
        ensures waits { OnOk result (waits_in self.new.waits ≡ stack_in self.old) }
        ensures aside { OnOk result (aside_in self.new ≡ aside_in self.old) }
    {
        if self.runs {
            self.waits
                .push(self.top.unit, self.top.index, self.top.env.as_slice())?;
        }
        Ok(())
    }

    /// Puts a unit on the stack, which then runs.
    #[tactic(auto, unfolding(crate::specs::Stacks::stack_in))]
    pub fn push(&mut self, unit: Activation) -> Result<(), NoMemory>
        ensures pushed { OnOk result (stack_in self.new ≡ over unit (stack_in self.old)) }
    {
        self.park()?;
        drop(mem::replace(&mut self.top, unit));
        self.runs = true;
        Ok(())
    }

    /// The unit of this number runs from its beginning, on the words that there are, over the units that wait.
    #[tactic(auto, unfolding(crate::specs::Stacks::stack_in))]
    pub(crate) fn begin_at(&mut self, unit: usize)
        ensures runs { self.new.runs ≡ true }
        ensures unit { self.new.top.unit ≡ unit }
        ensures index { self.new.top.index ≡ 0 }
        ensures waits { self.new.waits ≡ self.old.waits }
        ensures begun { stack_in self.new
            ≡ Run unit 0 (arguments self.old.top.env.items) (waits_in self.old.waits) }
    {
        self.top.unit = unit;
        self.top.index = 0;
        self.runs = true;
    }

    /// Puts the unit of this number on the stack at its beginning, with a word for each of its parameters.
    pub fn enter(&mut self, code: &Code, unit: usize, words: &[Word]) -> Result<(), NoMemory>
        ensures entered { OnOk result
            (stack_in self.new ≡ entered code.now unit words.now (stack_in self.old)) }
        ensures aside { OnOk result (aside_in self.new ≡ aside_in self.old) }
    {
        self.park()?;
        bind(&mut self.top.env, code.params_of(unit), words)?;
        self.begin_at(unit);
        Ok(())
    }

    /// Puts the unit that continues after a read on the stack, with the content that was read.
    pub fn resume(
        &mut self,
        code: &Code,
        next: Continuation<'_>,
        value: Word,
    ) -> Result<(), NoMemory>
        ensures resumed { OnOk result (stack_in self.new ≡ entered code.now next.entry.unit.0
            (words_after_read code.now next.entry.unit.0 next.entry.var next.entry.args.now value)
            (stack_in self.old)) }
        ensures aside { OnOk result (aside_in self.new ≡ aside_in self.old) }
    {
        self.park()?;
        let unit = next.unit.0 as usize;
        let params = code.params_of(unit);
        bind_given(&mut self.top.env, params, next.var, value, next.args)?;
        self.begin_at(unit);
        Ok(())
    }

    /// A call of the function by itself, on words for all its parameters.
    pub fn call(alloc: Global, code: &Code, function: u32, args: &[Word]) -> Result<Stack, NoMemory>
        ensures started { IfOk result
            (λ stack. stack_in stack ≡ started code.now function args.now) }
    {
        let unit = code.entry_of(function);
        let words = choose(alloc, code.params_of(unit), args)?;
        let mut stack = Stack::empty(alloc);
        stack.enter(code, unit, words.as_slice())?;
        Ok(stack)
    }

    /// The unit of this number waits, with what the expressions give in the unit that runs.
    pub(crate) fn wait<P: PlainWords>(
        &mut self,
        code: &Code,
        plain: &P,
        unit: usize,
        es: &[CodeExpr],
    ) -> Result<(), NoMemory>
        ensures top { OnOk result (self.new.top ≡ self.old.top) }
        ensures waits { OnOk result (waits_in self.new.waits ≡ entered code.now unit
            (values code.now.structs (P.plain plain.now)
            (arguments self.old.top.env.items) es.now) (waits_in self.old.waits)) }
        ensures aside { OnOk result (aside_in self.new ≡ aside_in self.old) }
    {
        let scope = self.top.scope(code, plain);
        bind_values(&scope, &mut self.room, code.params_of(unit), es)?;
        self.waits.push(unit, 0, self.room.as_slice())
    }

    /// The unit that runs is left for the one of this number, with what the expressions give in it.
    pub(crate) fn go_to<P: PlainWords>(
        &mut self,
        code: &Code,
        plain: &P,
        unit: usize,
        es: &[CodeExpr],
    ) -> Result<(), NoMemory>
        ensures runs { OnOk result (self.new.runs ≡ true) }
        ensures unit { OnOk result (self.new.top.unit ≡ unit) }
        ensures index { OnOk result (self.new.top.index ≡ 0) }
        ensures waits { OnOk result (self.new.waits ≡ self.old.waits) }
        ensures entered { OnOk result (stack_in self.new ≡ entered code.now unit
            (values code.now.structs (P.plain plain.now)
            (arguments self.old.top.env.items) es.now) (waits_in self.old.waits)) }
    {
        let scope = self.top.scope(code, plain);
        bind_values(&scope, &mut self.room, code.params_of(unit), es)?;
        mem::swap(&mut self.top.env, &mut self.room);
        self.begin_at(unit);
        Ok(())
    }

    /// The unit that runs continues at this index.
    #[tactic(auto, unfolding(crate::specs::Stacks::stack_in))]
    pub(crate) fn jump(&mut self, index: usize)
        requires runs { self.old.runs ≡ true }
        ensures jumped { stack_in self.new ≡ Run self.old.top.unit index
            (arguments self.old.top.env.items) (waits_in self.old.waits) }
        ensures aside { aside_in self.new ≡ aside_in self.old }
    {
        self.top.index = index;
    }

    /// Puts what each of the expressions gives in the unit that runs in place of these words.
    pub fn evaluate<P: PlainWords>(
        &self,
        code: &Code,
        plain: &P,
        es: &[CodeExpr],
        words: &mut Vec<Word>,
    ) -> Result<(), NoMemory>
        ensures values { OnOk result (words.new.items ≡ values code.now.structs
            (P.plain plain.now) (arguments (top_of self.now).env.items) es.now) }
    {
        let scope = self.top.scope(code, plain);
        scope.evaluate(es, words)
    }

    /// The unit that ran continues, with a word for a variable.
    #[tactic(auto, unfolding(crate::specs::Stacks::stack_in))]
    pub fn set(&mut self, var: u32, word: Word) -> Result<(), NoMemory>
        ensures set { OnOk result (stack_in self.new
            ≡ Run (top_of self.old).unit (top_of self.old).index
            (set (arguments (top_of self.old).env.items) var word) (below_in self.old)) }
        ensures aside { OnOk result (aside_in self.new ≡ aside_in self.old) }
    {
        self.top.set(var, word)?;
        self.runs = true;
        Ok(())
    }

    /// The unit that runs is over.
    #[tactic(auto, unfolding(crate::specs::Stacks::stack_in))]
    pub fn leave(&mut self)
        ensures left { stack_in self.new ≡ below_in self.old }
        ensures fewer { left_in self.new ≡ below_count self.old }
        ensures aside { aside_in self.new ≡ aside_in self.old }
    {
        self.runs = false;
    }

    /// Takes the unit that runs off the stack.
    #[tactic(auto, unfolding(crate::specs::Stacks::stack_in))]
    pub(crate) fn take_top(&mut self) -> Activation
        ensures unit { result ≡ self.old.top }
        ensures left { stack_in self.new ≡ waits_in self.old.waits }
    {
        self.runs = false;
        let none = Activation::none(*self.room.allocator());
        mem::replace(&mut self.top, none)
    }

    /// Takes all units off the stack, which keeps its room. Those that were set aside stay so.
    #[tactic(auto, unfolding(crate::specs::Stacks::stack_in))]
    pub fn clear(&mut self)
        ensures cleared { stack_in self.new ≡ Empty }
        ensures aside { aside_in self.new ≡ aside_in self.old }
    {
        self.runs = false;
        self.waits.clear();
    }

    /// Takes all units off the stack, and those that were set aside.
    #[tactic(auto, unfolding(crate::specs::Stacks::stack_in))]
    pub fn reset(&mut self)
        ensures cleared { stack_in self.new ≡ Empty }
    {
        self.runs = false;
        self.waits.reset();
    }

    /// Sets the units aside: others can run now, and these afterwards. It answers the floor that they are on.
    #[tactic(auto, unfolding(crate::specs::Stacks::stack_in))]
    pub fn set_aside(&mut self) -> Result<Floor, NoMemory>
        ensures above { IfOk result
            (λ floor. above_floor floor (aside_in self.new) ≡ stack_in self.old) }
        ensures under { IfOk result
            (λ floor. under_floor floor (aside_in self.new) ≡ aside_in self.old) }
        ensures empty { OnOk result (stack_in self.new ≡ Empty) }
    {
        self.park()?;
        self.runs = false;
        let floor = self.waits.raise();
        Ok(floor)
    }

    /// Puts the units that were set aside on this floor in place of those that there are.
    #[tactic(auto, unfolding(crate::specs::Stacks::stack_in))]
    pub fn bring_back(&mut self, floor: Floor)
        ensures back { stack_in self.new ≡ above_floor floor (aside_in self.old) }
        ensures aside { aside_in self.new ≡ under_floor floor (aside_in self.old) }
    {
        self.waits.lower(floor);
        self.runs = false;
    }

    /// The next of the units that wait runs; it answers false where there is none.
    #[inline(never)]
    fn begin_next(&mut self) -> Result<bool, NoMemory>
        ensures began { IfOk result
            (λ more. Began more self.old.waits self.new.top self.new.waits) }
        ensures runs { IfOk result (λ more. self.new.runs ≡ more) }
        ensures fewer { IfOk result (λ more. more ≡ true
            → length self.new.waits.waits.units < length self.old.waits.waits.units) }
        ensures aside { OnOk result (aside_in self.new ≡ aside_in self.old) }
    {
        let more = self.waits.pop(&mut self.top)?;
        self.runs = more;
        Ok(more)
    }

    /// Some unit runs; it answers false where there is none.
    #[tactic(auto, unfolding(crate::specs::Stacks::stack_in))]
    pub(crate) fn begin(&mut self) -> Result<bool, NoMemory>
        ensures same { OnOk result (stack_in self.new ≡ stack_in self.old) }
        ensures runs { IfOk result (λ more. self.new.runs ≡ more) }
        ensures none { IfOk result (λ more. more ≡ false → stack_in self.old ≡ Empty) }
        ensures fewer { IfOk result
            (λ more. more ≡ true → length self.new.waits.waits.units < left_in self.old) }
        ensures aside { OnOk result (aside_in self.new ≡ aside_in self.old) }
    {
        if self.runs {
            return Ok(true);
        }
        self.begin_next()
    }
}
