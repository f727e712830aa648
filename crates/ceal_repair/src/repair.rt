// A repair that is under way: the machine of change propagation over the nodes of a trace.

ghost use Rattle.std.specs.Prelude.{◌≡◌, ◌≤◌, ◌+◌, ◌∷◌, ◌++◌, [], Some, None, true, false, IfOk, OnOk, reverse};
ghost use Rattle.ceal_code.specs.Stacks.{stack_in, aside_in, top_of, below_in, act_in};
ghost use Rattle.ceal_code.specs.declared.step.Step.TheVariants.{Makes as IsMaking, Reads as IsReading};
ghost use Rattle.ceal_code.specs.declared.step.Act.TheVariants as does;
ghost use Rattle.ceal_repair.specs.Moment.{Start};
ghost use Rattle.ceal_repair.specs.Reads.{closure_in};
ghost use Rattle.ceal_repair.specs.Looks.{CountsOn, Pays, touched_owed};
ghost use Rattle.ceal_repair.specs.Repairs.{code_of, inputs_of, running_of, stack_of, arguments_of, view, next_in};
ghost use Rattle.ceal_repair.specs.Repairs.{step_of, Runs, Acts, IsOver, RunsOrEnds, SameCall, StaysAnew};
ghost use Rattle.ceal_repair.specs.Repairs.{account};
ghost use Rattle.ceal_repair.specs.Kept.{Kept};
ghost use Rattle.ceal_order.specs.Stamps.{head_of};
ghost use Rattle.ceal_trace.specs.Nodes.{has_node, stamps_in, with_steps, steps_at};

use crate::frame::Frame;
use crate::room::Room;
use crate::running::Running;
use crate::words::RunWords;
use ceal_base::count::one_more;
use ceal_base::forest::Key;
use ceal_base::memory::Inputs;
use ceal_base::no_memory::NoMemory;
use ceal_base::word::Word;
use ceal_code::code::Code;
use ceal_code::stack::Stack;
use ceal_code::step::{Making, Reading, Step};
use ceal_order::stamp::Stamp;
use std::alloc::Global;

mod end;
mod pass;
mod put;
mod read;
mod take;
mod turn;
pub mod turns;

/// A repair that is under way, or a run from nothing. A unit runs; the nodes up to the cursor are final, and those
/// after it, up to the limit, are left over to the unit. The cursor only moves on. The arguments are those of the read
/// that is made.
///
/// It holds nothing itself: what the run keeps is changed in place, and the units, the frames and the arguments are in
/// the room of its caller.
#[derive(Drop)]
pub struct Repair<'a> {
    alloc: Global,
    code: &'a Code,
    inputs: &'a Inputs,
    running: &'a mut Running,
    cursor: Stamp,
    stack: &'a mut Stack,
    limit: Option<Stamp>,
    frames: &'a mut Vec<Frame>,
    args: &'a mut Vec<Word>,
}

impl<'a> Repair<'a> {
    /// Before the first act, after the root: the units of the room are still to do, no frame waits, and nothing is
    /// left over.
    pub fn at_root(
        code: &'a Code,
        inputs: &'a Inputs,
        running: &'a mut Running,
        room: &'a mut Room,
    ) -> Repair<'a>
        ensures code { code_of result ≡ code.now }
        ensures inputs { inputs_of result ≡ inputs.now }
        ensures place { result.running.ghost_name ≡ running.entry.ghost_name }
        ensures view { (view result).tables ≡ running.old.tables }
        ensures heap { (view result).heap ≡ running.old.heap }
        ensures spent { (view result).spent ≡ running.old.spent }
        ensures frames { (view result).frames ≡ [] }
        ensures limit { (view result).limit ≡ None }
        ensures stack { stack_in (stack_of result) ≡ stack_in room.old.stack }
        ensures cursor { head_of (stamps_in running.old.tables.trace.nodes)
            ≡ Some (view result).cursor }
    {
        let alloc = room.stack.allocator();
        let cursor = running.tables.trace.root();
        room.frames.clear();
        Repair {
            alloc,
            code,
            inputs,
            running,
            cursor,
            stack: &mut room.stack,
            limit: None,
            frames: &mut room.frames,
            args: &mut room.args,
        }
    }

    /// How many steps were re-executed.
    pub fn spent(&self) -> u32
        ensures { result ≡ (view self.now).spent }
    {
        self.running.spent
    }

    /// What the unit that runs does next; the stack is that after it.
    fn next(&mut self) -> Result<Step<'a>, NoMemory>
        ensures rest { self.new ≡ record self.old { stack = self.new.stack } }
        ensures acts { IfOk result (λ s. next_in self.old (stack_in (stack_of self.old))
            ≡ step_of self.new s) }
        ensures aside { OnOk result
            (aside_in (stack_of self.new) ≡ aside_in (stack_of self.old)) }
    {
        let words = RunWords {
            code: self.code,
            inputs: self.inputs,
            heap: &self.running.heap,
        };
        self.stack.step(self.code, &words)
    }

    /// The key of the block that is made. The unit that makes it stays where it is.
    fn key(&self, making: Making<'_>) -> Result<Key, NoMemory>
        ensures key { IfOk result (λ key. step_of self.now (IsMaking making.entry)
            ≡ act_in (does.Makes key making.entry.var (top_of (stack_of self.now)))
            (below_in (stack_of self.now))) }
    {
        let words = RunWords {
            code: self.code,
            inputs: self.inputs,
            heap: &self.running.heap,
        };
        self.stack.key(self.code, &words, making.maker)
    }

    /// The arguments of a read are evaluated, and the unit that reads is left: the stack comes after the read.
    fn leave_for(&mut self, reading: Reading<'_>) -> Result<(), NoMemory>
        ensures rest { self.new
            ≡ record self.old { stack = self.new.stack; args = self.new.args } }
        ensures closure { OnOk result (step_of self.old (IsReading reading.entry)
            ≡ act_in (does.Reads (closure_in reading.entry (arguments_of self.new)))
            (stack_in (stack_of self.new))) }
        ensures aside { OnOk result
            (aside_in (stack_of self.new) ≡ aside_in (stack_of self.old)) }
    {
        let words = RunWords {
            code: self.code,
            inputs: self.inputs,
            heap: &self.running.heap,
        };
        let es = reading.args.items();
        self.stack.evaluate(self.code, &words, es, self.args)?;
        self.stack.leave();
        Ok(())
    }

    /// One more step was re-executed, after the node at the cursor. A count that has no room in 32 bits is answered as
    /// out of memory.
    fn step(&mut self) -> Result<(), NoMemory>
        requires kept { Kept (running_of self.old).tables }
        requires here { has_node self.old.cursor.0 (running_of self.old).tables.trace.nodes ≡ true }
        ensures rest { self.new ≡ record self.old { running = self.new.running } }
        ensures place { self.new.running.ghost_name ≡ self.old.running.ghost_name }
        ensures heap { (running_of self.new).heap ≡ (running_of self.old).heap }
        ensures spent { OnOk result
            ((running_of self.new).spent ≡ (running_of self.old).spent + 1) }
        ensures nodes { OnOk result ((running_of self.new).tables.trace.nodes
            ≡ with_steps self.old.cursor.0
            (steps_at self.old.cursor.0 (running_of self.old).tables.trace.nodes + 1)
            (running_of self.old).tables.trace.nodes) }
        ensures mods { (running_of self.new).tables.mods ≡ (running_of self.old).tables.mods }
        ensures queue { (running_of self.new).tables.stale ≡ (running_of self.old).tables.stale }
        ensures memo { (running_of self.new).tables.memo ≡ (running_of self.old).tables.memo }
        ensures touched { OnOk result (touched_owed (running_of self.new).tables
            ≤ touched_owed (running_of self.old).tables + 1) }
        ensures counts { OnOk result
            (CountsOn (running_of self.old).tables (running_of self.new).tables) }
        ensures kept { Kept (running_of self.new).tables }
    {
        let running = &mut *self.running;
        let steps = one_more(running.tables.trace.steps_at(self.cursor))?;
        let spent = one_more(running.spent)?;
        running.tables.set_steps(self.cursor, steps);
        running.spent = spent;
        Ok(())
    }

    /// What the running unit does next. It answers false where the unit is over and nothing follows. After running out
    /// of memory the repair must not be used any more.
    #[inline(always)]
    pub fn act(&mut self) -> Result<bool, NoMemory>
        requires runs { (start : Start) × Runs start self.old }
        ensures call { OnOk result (SameCall self.old self.new) }
        ensures pays { OnOk result (Pays (account self.old) (account self.new)) }
        ensures anew { OnOk result (StaysAnew self.old self.new) }
        ensures runs { IfOk result
            (λ more. (start : Start) → Runs start self.old → RunsOrEnds more start self.new) }
        ensures spent { IfOk result
            (λ more. more ≡ false → (view self.new).spent ≡ (view self.old).spent) }
    {
        match self.next()? {
            Step::Over => self.close(),
            Step::Quiet => {
                self.quiet()?;
                Ok(true)
            }
            Step::Makes(making) => {
                let key = self.key(making)?;
                self.make(key, making.var)?;
                Ok(true)
            }
            Step::Writes { place, value } => {
                self.write(place, value)?;
                Ok(true)
            }
            Step::Reads(reading) => {
                self.leave_for(reading)?;
                self.read(reading)?;
                Ok(true)
            }
        }
    }

    /// The unit is over. What follows it is done; it answers false where nothing does.
    fn close(&mut self) -> Result<bool, NoMemory>
        requires over { (start : Start) × Acts start does.Over self.old }
        ensures call { OnOk result (SameCall self.old self.new) }
        ensures pays { OnOk result (Pays (account self.old) (account self.new)) }
        ensures anew { OnOk result (StaysAnew self.old self.new) }
        ensures runs { IfOk result
            (λ more. (start : Start) → Acts start does.Over self.old
            → RunsOrEnds more start self.new) }
        ensures spent { IfOk result
            (λ more. more ≡ false → (view self.new).spent ≡ (view self.old).spent) }
    {
        match self.frames.pop() {
            None => Ok(false),
            Some(Frame::Begun { below, read }) => {
                self.finish(below, read)?;
                Ok(true)
            }
            Some(Frame::Taken { below, limit }) => {
                self.leave(below, limit)?;
                Ok(true)
            }
            Some(Frame::Kept { until }) => {
                self.go_on(until)?;
                Ok(true)
            }
        }
    }
}
