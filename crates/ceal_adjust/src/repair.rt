// A repair that is under way: the machine of change propagation.

ghost use Rattle.std.specs.Prelude.{◌≡◌, ◌+◌, [], drop, reverse, Option, IfOk, OnOk};
ghost use Rattle.ceal_base.specs.Operators.{same_word};
ghost use Rattle.ceal_base.specs.declared.forest.Item.TheVariants.{Read as ReadItem};
ghost use Rattle.ceal_code.specs.Stacks.{stack_in};
ghost use Rattle.ceal_code.specs.Tables.{code_in, plain_in, store_in};
ghost use Rattle.ceal_theory.specs.Levels.{first, around};
ghost use Rattle.ceal_theory.specs.Repair.{own};
ghost use Rattle.ceal_theory.specs.Moves.{closing_move, mode_inside, next_move};
ghost use Rattle.ceal_adjust.specs.Machines.{code_of, state_in, frames_in, ahead, after, left_over, machine_of};
ghost use Rattle.ceal_adjust.specs.Machines.{machine_in, turn_in};

use crate::frame::{Frame, Mode, Turn};
use crate::old::Old;
use ceal_base::forest::Item;
use ceal_base::no_memory::NoMemory;
use ceal_base::word::Word;
use ceal_code::stack::{Closure, Stack};
use ceal_code::step::advance;
use ceal_code::trace_memory::TraceMemory;
use std::alloc::Global;

mod propagate;
mod rerun;

/// A repair that is under way. It walks the old items once, with a cursor that only moves on. The stack runs in the
/// mode Running by itself, with a number of levels of old items left over to it.
#[derive(Drop)]
pub struct Repair<'a> {
    alloc: Global,
    memory: TraceMemory<'a>,
    items: Old<'a>,
    rest: usize,
    number: u32,
    work: u32,
    mode: Mode,
    stack: Stack,
    levels: usize,
    frames: Vec<Frame>,
}

fn is_same(a: Word, b: Word) -> bool
    ensures { result ≡ same_word a b }
{
    a == b
}

fn wrote(stepped: bool, item: Item) -> Turn
    ensures { result ≡ Turn.Went stepped (Option.Some item) }
{
    Turn::Went {
        stepped,
        item: Some(item),
    }
}

/// The item of a read that finds this content.
pub fn read_item(closure: Closure, value: Word) -> Item
    ensures { result ≡ ReadItem closure.place value closure.unit closure.var closure.args }
{
    let Closure {
        place,
        unit,
        var,
        args,
    } = closure;
    Item::Read {
        place,
        value,
        unit,
        var,
        args,
    }
}

impl<'a> Repair<'a> {
    /// A repair that begins in this mode, with this stack and nothing left over to it; new blocks have the numbers from
    /// `number` on.
    #[tactic(auto, using(crate::proofs::MachineSteps::frame_steps), unfolding(crate::specs::Machines::machine_of))]
    pub fn new(
        memory: TraceMemory<'a>,
        items: Old<'a>,
        number: u32,
        mode: Mode,
        stack: Stack,
    ) -> Repair<'a>
        ensures code { code_of result ≡ code_in memory.entry }
        ensures machine { machine_in result ≡ machine_of mode (record {
          store = store_in memory.entry;
          plain = plain_in memory.entry;
          number = number;
          work = 0;
        })
            stack 0 [] items.entry }
    {
        let alloc = stack.allocator();
        Repair {
            alloc,
            memory,
            items,
            rest: 0,
            number,
            work: 0,
            mode,
            stack,
            levels: 0,
            frames: Vec::new(alloc),
        }
    }

    /// The unit of a read by itself, after the given number of steps, with what is inside the read left over: the items
    /// up to the End that closes it.
    #[tactic(auto, using(crate::proofs::MachineSteps::frame_steps), unfolding(crate::specs::Machines::machine_of))]
    pub fn alone(
        memory: TraceMemory<'a>,
        items: Old<'a>,
        number: u32,
        work: u32,
        stack: Stack,
    ) -> Repair<'a>
        ensures code { code_of result ≡ code_in memory.entry }
        ensures machine { machine_in result ≡ machine_of Mode.Running (record {
          store = store_in memory.entry;
          plain = plain_in memory.entry;
          number = number;
          work = work;
        })
            stack 1 [] items.entry }
    {
        let alloc = stack.allocator();
        Repair {
            alloc,
            memory,
            items,
            rest: 0,
            number,
            work,
            mode: Mode::Running,
            stack,
            levels: 1,
            frames: Vec::new(alloc),
        }
    }

    /// What is known, and the contents of modifiables.
    pub fn memory(&self) -> &TraceMemory<'a>
        ensures value { result.now ≡ self.now.memory }
    {
        &self.memory
    }

    /// The number of the next new block.
    pub fn number(&self) -> u32
        ensures value { result ≡ (state_in self.now).number }
    {
        self.number
    }

    /// How many steps were re-executed.
    pub fn work(&self) -> u32
        ensures value { result ≡ (state_in self.now).work }
    {
        self.work
    }

    /// A part is over; what follows it is left, and what is left over to the part is passed on or revoked.
    #[tactic(auto, using(crate::proofs::MachineSteps::frame_steps), unfolding(crate::specs::Machines::machine_of))]
    fn close(&mut self) -> Turn
        ensures code { code_of self.new ≡ code_of self.old }
        ensures turn { turn_in result (machine_in self.new)
            ≡ closing_move (state_in self.old) (left_over self.old)
            (after self.old self.old.levels) }
        ensures state { state_in self.new ≡ state_in self.old }
    {
        match self.frames.pop() {
            None => return Turn::Ended,
            Some(Frame::Fix) => {
                self.rest = self.items.skip(self.rest, self.levels);
                self.mode = Mode::Fixing;
            }
            Some(Frame::Mend { below, levels }) => {
                self.rest = self.items.skip(self.rest, self.levels);
                self.mode = Mode::Running;
                self.stack = below;
                self.levels = levels;
            }
            Some(Frame::Run { below }) => {
                self.mode = Mode::Running;
                self.stack = below;
            }
        }
        wrote(false, Item::End)
    }

    /// Goes into a read: where the content is the same its old items are walked, else its unit runs.
    #[tactic(auto, using(crate::proofs::MachineSteps::frame_steps), unfolding(crate::specs::Machines::machine_of))]
    fn open(&mut self, closure: &Closure, same: bool, now: Word) -> Result<(), NoMemory>
        ensures code { OnOk result (code_of self.new ≡ code_of self.old) }
        ensures machine { OnOk result (machine_in self.new ≡ record {
          state = state_in self.old;
          mode = mode_inside (code_of self.old) same closure.now.unit closure.now.var
              closure.now.args now (first (ahead self.old));
          frames = frames_in (reverse self.old.frames.items) (around (ahead self.old));
        }) }
    {
        if same {
            self.mode = Mode::Fixing;
            return Ok(());
        }
        let mut stack = Stack::empty(self.alloc);
        stack.resume(self.memory.code(), closure.continuation(), now)?;
        self.mode = Mode::Running;
        self.stack = stack;
        self.levels = 1;
        Ok(())
    }

    /// One turn: it writes a step, moves on in the old items, or ends a read. After running out of memory the repair
    /// must not be used any more.
    #[tactic(auto, unfolding(crate::specs::Machines::machine_of, ceal_theory::specs::Moves::next_move))]
    pub fn turn(&mut self) -> Result<Turn, NoMemory>
        ensures code { OnOk result (code_of self.new ≡ code_of self.old) }
        ensures turn { IfOk result (λ t. next_move (code_of self.old) own (machine_in self.old)
            ≡ turn_in t (machine_in self.new)) }
        ensures still { IfOk result
            (λ t. t ≡ Turn.Ended → state_in self.new ≡ state_in self.old) }
    {
        match self.mode {
            Mode::Fixing => self.propagate(),
            Mode::Running => {
                let act = advance(self.memory.code(), &self.memory, &mut self.stack)?;
                self.perform(act)
            }
        }
    }
}
