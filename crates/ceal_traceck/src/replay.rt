// Whether items are those of a run of the code.

ghost use Rattle.std.specs.Prelude.{◌≡◌, ◌<◌, ◌↔◌, ◌∷◌, [], ℕ, List, ⊤, length, IsTrue, IfNone, IfSome, IfOk, OnOk};
ghost use Rattle.std.specs.Prelude.{MatchOption};
ghost use Rattle.ceal_base.specs.declared.forest.Item.{Item as AnyItem};
ghost use Rattle.ceal_base.specs.declared.forest.Item.TheVariants.{Step as StepItem, Alloc as AllocItem};
ghost use Rattle.ceal_base.specs.declared.forest.Item.TheVariants.{Write as WriteItem, Read as ReadItem};
ghost use Rattle.ceal_base.specs.declared.forest.Item.TheVariants.{End as EndItem};
ghost use Rattle.ceal_base.specs.declared.word.BlockId.TheVariants.{Core as CoreBlock};
ghost use Rattle.ceal_base.specs.declared.word.Word.{Word as AnyWord};
ghost use Rattle.ceal_code.specs.Init.{arguments};
ghost use Rattle.ceal_code.specs.Stacks.{stack_in, act_in};
ghost use Rattle.ceal_code.specs.Step.{Over, Makes, Writes, Reads, next, started};
ghost use Rattle.ceal_code.specs.Tables.{code_in, plain_in};
ghost use Rattle.ceal_traceck.specs.Walk.{Accepts, Goes, IsRight, Turned};

use ceal_base::forest::{Item, Key};
use ceal_base::no_memory::NoMemory;
use ceal_base::word::{BlockId, Place, Word};
use ceal_code::initialise::pointer_to;
use ceal_code::stack::{Activation, Closure, Stack};
use ceal_code::step::{Act, advance};
use ceal_code::trace_memory::TraceMemory;
use std::alloc::Global;
use std::mem;

/// A walk along items beside the steps of the code. The running stack is inside of reads; around each of them another
/// stack waits, the innermost last. Nothing of it uses the host's stack.
#[derive(Drop)]
struct Walk<'a> {
    memory: &'a TraceMemory<'a>,
    items: &'a [Item],
    stack: Stack,
    below: Vec<Stack>,
}

/// What follows a step.
fn after_step(items: &[Item]) -> Option<&[Item]>
    ensures none { IfNone result ((is : List AnyItem) → items.now ≡ StepItem ∷ is → ⊥) }
    ensures some { IfSome result (λ more. items.now ≡ StepItem ∷ more.now) }
{
    match items.split_first() {
        None => None,
        Some((item, more)) => match item {
            Item::Step => Some(more),
            Item::Alloc { .. } => None,
            Item::Write { .. } => None,
            Item::Read { .. } => None,
            Item::End => None,
        },
    }
}

/// What follows the end of a read.
fn after_end(items: &[Item]) -> Option<&[Item]>
    ensures none { IfNone result ((is : List AnyItem) → items.now ≡ EndItem ∷ is → ⊥) }
    ensures some { IfSome result (λ more. items.now ≡ EndItem ∷ more.now) }
{
    match items.split_first() {
        None => None,
        Some((item, more)) => match item {
            Item::End => Some(more),
            Item::Step => None,
            Item::Alloc { .. } => None,
            Item::Write { .. } => None,
            Item::Read { .. } => None,
        },
    }
}

/// The number of the core block that is allocated with this key, and what follows the allocation.
fn after_alloc<'a>(items: &'a [Item], wanted: &Key) -> Option<(u32, &'a [Item])>
    ensures none { IfNone result ((b : ℕ) (is : List AnyItem) →
        items.now ≡ AllocItem (CoreBlock b) wanted.now ∷ is → ⊥) }
    ensures some { IfSome result
        (λ found. items.now ≡ AllocItem (CoreBlock found.0) wanted.now ∷ found.1.now) }
{
    match items.split_first() {
        None => None,
        Some((item, more)) => match item {
            Item::Alloc { block, key } => match *block {
                BlockId::Core(number) => {
                    if key.same_as(wanted) {
                        Some((number, more))
                    } else {
                        None
                    }
                }
                BlockId::Input(_) => None,
            },
            Item::Step => None,
            Item::Write { .. } => None,
            Item::Read { .. } => None,
            Item::End => None,
        },
    }
}

/// What follows this write.
fn after_write(items: &[Item], at: Place, word: Word) -> Option<&[Item]>
    ensures none { IfNone result
        ((is : List AnyItem) → items.now ≡ WriteItem at word ∷ is → ⊥) }
    ensures some { IfSome result (λ more. items.now ≡ WriteItem at word ∷ more.now) }
{
    match items.split_first() {
        None => None,
        Some((item, more)) => match item {
            Item::Write { place, value } => {
                if *place == at && *value == word {
                    Some(more)
                } else {
                    None
                }
            }
            Item::Step => None,
            Item::Alloc { .. } => None,
            Item::Read { .. } => None,
            Item::End => None,
        },
    }
}

/// The content that is read by this closure, and what follows the beginning of the read.
fn after_read<'a>(items: &'a [Item], closure: &Closure) -> Option<(Word, &'a [Item])>
    ensures none { IfNone result ((v : AnyWord) (is : List AnyItem) → items.now ≡ ReadItem
        closure.now.place v closure.now.unit closure.now.var closure.now.args ∷ is → ⊥) }
    ensures some { IfSome result (λ found. items.now ≡ ReadItem
        closure.now.place found.0 closure.now.unit closure.now.var closure.now.args ∷ found.1.now) }
{
    match items.split_first() {
        None => None,
        Some((item, more)) => match item {
            Item::Read {
                place,
                value,
                unit,
                var,
                args,
            } => {
                if *place == closure.place
                    && *unit == closure.unit
                    && *var == closure.var
                    && args.same_as(&closure.args)
                {
                    Some((*value, more))
                } else {
                    None
                }
            }
            Item::Step => None,
            Item::Alloc { .. } => None,
            Item::Write { .. } => None,
            Item::End => None,
        },
    }
}

impl<'a> Walk<'a> {
    /// The running stack is over: the read that it is inside of ends, or there is nothing more.
    fn close(&mut self) -> Option<bool>
        ensures memory { self.new.memory ≡ self.old.memory }
        ensures turn { Turned result (Goes self.old Over) (IsRight self.new) }
        ensures fewer { MatchOption result
            (length self.new.items.now < length self.old.items.now) (λ told. ⊤) }
    {
        match self.below.pop() {
            None => Some(self.items.is_empty()),
            Some(stack) => match after_end(self.items) {
                None => Some(false),
                Some(more) => {
                    self.stack = stack;
                    self.items = more;
                    None
                }
            },
        }
    }

    /// The unit makes a block: the one that the items allocate here with its key.
    fn make(&mut self, key: Key, var: u32, unit: Activation) -> Result<Option<bool>, NoMemory>
        ensures memory { OnOk result (self.new.memory ≡ self.old.memory) }
        ensures turn { IfOk result (λ told. Turned told (Goes self.old
            (Makes key var unit.unit unit.index (arguments unit.env.items)
            (stack_in self.old.stack)))
            (IsRight self.new)) }
        ensures fewer { IfOk result (λ told. MatchOption told
            (length self.new.items.now < length self.old.items.now) (λ told. ⊤)) }
    {
        let Some(more) = after_step(self.items) else {
            return Ok(Some(false));
        };
        let Some((number, more)) = after_alloc(more, &key) else {
            return Ok(Some(false));
        };
        let mut unit = unit;
        unit.set(var, pointer_to(&key, BlockId::Core(number)))?;
        self.stack.push(unit)?;
        self.items = more;
        Ok(None)
    }

    /// The unit writes.
    fn write(&mut self, place: Place, value: Word) -> Option<bool>
        ensures memory { self.new.memory ≡ self.old.memory }
        ensures turn { Turned result (Goes self.old
            (Writes place value (stack_in self.old.stack))) (IsRight self.new) }
        ensures fewer { MatchOption result
            (length self.new.items.now < length self.old.items.now) (λ told. ⊤) }
    {
        let Some(more) = after_step(self.items) else {
            return Some(false);
        };
        let Some(more) = after_write(more, place, value) else {
            return Some(false);
        };
        self.items = more;
        None
    }

    /// The unit reads: the closure runs on the recorded content, and the stack waits.
    fn read(&mut self, closure: Closure) -> Result<Option<bool>, NoMemory>
        ensures memory { OnOk result (self.new.memory ≡ self.old.memory) }
        ensures turn { IfOk result (λ told. Turned told (Goes self.old (Reads
            closure.place closure.unit closure.var closure.args (stack_in self.old.stack)))
            (IsRight self.new)) }
        ensures fewer { IfOk result (λ told. MatchOption told
            (length self.new.items.now < length self.old.items.now) (λ told. ⊤)) }
    {
        let Some(more) = after_step(self.items) else {
            return Ok(Some(false));
        };
        let Some((value, more)) = after_read(more, &closure) else {
            return Ok(Some(false));
        };
        let mut inside = Stack::empty(self.stack.allocator());
        inside.resume(self.memory.code(), closure.continuation(), value)?;
        let outside = mem::replace(&mut self.stack, inside);
        self.below.push(outside)?;
        self.items = more;
        Ok(None)
    }

    /// A step that leaves no item but itself.
    fn step(&mut self) -> Option<bool>
        ensures memory { self.new.memory ≡ self.old.memory }
        ensures turn { Turned result (Goes self.old (act_in Act.Quiet (stack_in self.old.stack)))
            (IsRight self.new) }
        ensures fewer { MatchOption result
            (length self.new.items.now < length self.old.items.now) (λ told. ⊤) }
    {
        let Some(more) = after_step(self.items) else {
            return Some(false);
        };
        self.items = more;
        None
    }

    /// What the running stack does, whose state is that after it.
    fn perform(&mut self, act: Act) -> Result<Option<bool>, NoMemory>
        ensures memory { OnOk result (self.new.memory ≡ self.old.memory) }
        ensures turn { IfOk result (λ told. Turned told
            (Goes self.old (act_in act (stack_in self.old.stack))) (IsRight self.new)) }
        ensures fewer { IfOk result (λ told. MatchOption told
            (length self.new.items.now < length self.old.items.now) (λ told. ⊤)) }
    {
        match act {
            Act::Over => Ok(self.close()),
            Act::Quiet => Ok(self.step()),
            Act::Makes { key, var, unit } => self.make(key, var, unit),
            Act::Writes { place, value } => Ok(self.write(place, value)),
            Act::Reads(closure) => self.read(closure),
        }
    }

    /// One step of the code, or the end of a read: it answers whether the items are right, where that is told now.
    fn turn(&mut self) -> Result<Option<bool>, NoMemory>
        ensures memory { OnOk result (self.new.memory ≡ self.old.memory) }
        ensures turn { IfOk result (λ told. Turned told (IsRight self.old) (IsRight self.new)) }
        ensures fewer { IfOk result (λ told. MatchOption told
            (length self.new.items.now < length self.old.items.now) (λ told. ⊤)) }
    {
        let act = advance(self.memory.code(), self.memory, &mut self.stack)?;
        self.perform(act)
    }

    /// Turns until it is told whether the items are right.
    fn is_right(self) -> Result<bool, NoMemory>
        ensures { IfOk result (λ right. IsTrue right ↔ IsRight self.entry) }
    {
        let mut walk = self;
        loop {
            if let Some(told) = walk.turn()? {
                return Ok(told);
            }
        }
    }
}

/// Whether the items are those of the call, over the plain words of the memory: every step, block, write and read of
/// the run is recorded, and nothing else. Each read is answered by its recorded content.
pub fn are_replayed(
    alloc: Global,
    memory: &TraceMemory<'_>,
    function: u32,
    args: &[Word],
    items: &[Item],
) -> Result<bool, NoMemory>
    ensures answer { IfOk result (λ right. IsTrue right ↔ Accepts (code_in memory.now)
        (plain_in memory.now) (next (code_in memory.now) (plain_in memory.now)
        (started (code_in memory.now) function args.now)) [] items.now) }
{
    let stack = Stack::call(alloc, memory.code(), function, args)?;
    let walk = Walk {
        memory,
        items,
        stack,
        below: Vec::new(alloc),
    };
    walk.is_right()
}
