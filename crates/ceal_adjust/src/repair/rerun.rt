// Units that are re-executed, and take what the old items have left over.

ghost use Rattle.std.specs.Prelude.{◌≡◌, ◌+◌, true, drop, Option, IfOk, OnOk};
ghost use Rattle.ceal_base.specs.declared.forest.Item.TheVariants.{Alloc as AllocItem, Read as ReadItem};
ghost use Rattle.ceal_code.specs.Init.{arguments, pointer};
ghost use Rattle.ceal_code.specs.Stacks.{stack_in, act_in};
ghost use Rattle.ceal_code.specs.Step.{Run};
ghost use Rattle.ceal_code.specs.Value.{set};
ghost use Rattle.ceal_theory.specs.Levels.{find_alloc, taken_alloc, taken_read};
ghost use Rattle.ceal_theory.specs.Repair.{own, clears};
ghost use Rattle.ceal_theory.specs.Moves.{alloc_move, read_move, act_move};
ghost use Rattle.ceal_adjust.specs.Closures.{find_closure};
ghost use Rattle.ceal_adjust.specs.Machines.{code_of, state_in, after, left_over, machine_in, turn_in};

use super::{Repair, is_same, read_item, wrote};
use crate::frame::{Frame, Mode, Turn};
use crate::search::{find_block, find_value};
use ceal_base::count::one_more;
use ceal_base::forest::{Item, Key};
use ceal_base::no_memory::NoMemory;
use ceal_base::word::{BlockId, Word};
use ceal_code::initialise::pointer_to;
use ceal_code::stack::{Activation, Closure, Stack};
use ceal_code::step::Act;
use std::mem;

impl<'a> Repair<'a> {
    /// One step more was re-executed.
    fn step(&mut self) -> Result<(), NoMemory>
        ensures work { OnOk result (self.new ≡ record self.old { work = self.old.work + 1 }) }
    {
        self.work = one_more(self.work)?;
        Ok(())
    }

    /// The unit continues with the block of the key for a variable; the block's modifiables are at their defaults.
    fn go_on_with(
        &mut self,
        key: &Key,
        var: u32,
        unit: Activation,
        block: BlockId,
    ) -> Result<(), NoMemory>
        ensures rest { OnOk result
            (self.new ≡ record self.old { memory = self.new.memory; stack = self.new.stack }) }
        ensures code { OnOk result (code_of self.new ≡ code_of self.old) }
        ensures state { OnOk result
            (state_in self.new ≡ clears (code_of self.old) (state_in self.old) block key.now) }
        ensures stack { OnOk result (stack_in self.new.stack ≡ Run unit.unit unit.index
            (set (arguments unit.env.items) var (pointer key.now block))
            (stack_in self.old.stack)) }
    {
        let mut unit = unit;
        self.memory.clear(block, key)?;
        unit.set(var, pointer_to(key, block))?;
        self.stack.push(unit)?;
        Ok(())
    }

    /// The unit continues with a block of the key: one that is left over, or a new one. It answers which.
    #[tactic(auto, using(crate::proofs::MachineSteps::frame_steps), unfolding(crate::specs::Machines::machine_of))]
    fn make_block(&mut self, key: &Key, var: u32, unit: Activation) -> Result<BlockId, NoMemory>
        requires running { self.old.mode ≡ Mode.Running }
        ensures code { OnOk result (code_of self.new ≡ code_of self.old) }
        ensures turn { IfOk result (λ block.
            turn_in (Turn.Went true (Option.Some (AllocItem block key.now))) (machine_in self.new)
            ≡ alloc_move (code_of self.old) own (state_in self.old)
            (after self.old self.old.levels) key.now var unit.unit unit.index
            (arguments unit.env.items) (stack_in self.old.stack) (left_over self.old)
            (taken_alloc
            (find_alloc key.now self.old.levels (drop self.old.rest self.old.items)))) }
    {
        self.step()?;
        match find_block(&self.items, self.rest, self.levels, key)? {
            Some(found) => {
                self.rest = found.rest;
                self.levels = found.levels;
                self.go_on_with(key, var, unit, found.block)?;
                Ok(found.block)
            }
            None => {
                let block = BlockId::Core(self.number);
                self.memory.learn(block, key)?;
                self.number = one_more(self.number)?;
                self.go_on_with(key, var, unit, block)?;
                Ok(block)
            }
        }
    }

    /// The unit makes a block: one that is left over with its key, or a new one.
    fn make(&mut self, key: Key, var: u32, unit: Activation) -> Result<Turn, NoMemory>
        requires running { self.old.mode ≡ Mode.Running }
        ensures code { OnOk result (code_of self.new ≡ code_of self.old) }
        ensures turn { IfOk result
            (λ t. turn_in t (machine_in self.new) ≡ alloc_move (code_of self.old) own
            (state_in self.old) (after self.old self.old.levels) key var unit.unit unit.index
            (arguments unit.env.items) (stack_in self.old.stack) (left_over self.old)
            (taken_alloc (find_alloc key self.old.levels (drop self.old.rest self.old.items)))) }
        ensures goes { IfOk result (λ t. t ≡ Turn.Ended → ⊥) }
    {
        match self.make_block(&key, var, unit) {
            Ok(block) => Ok(wrote(true, Item::Alloc { block, key })),
            Err(error) => {
                drop(key);
                Err(error)
            }
        }
    }

    /// The unit goes into a read: one that is left over is taken with the items inside it, or the unit of the read is
    /// re-executed. It answers the content that is read.
    #[tactic(auto, using(crate::proofs::MachineSteps::frame_steps), unfolding(crate::specs::Machines::machine_of))]
    fn read_in(&mut self, closure: &Closure) -> Result<Word, NoMemory>
        requires running { self.old.mode ≡ Mode.Running }
        ensures code { OnOk result (code_of self.new ≡ code_of self.old) }
        ensures turn { IfOk result (λ now.
            turn_in (Turn.Went true (Option.Some (ReadItem closure.now.place now
            closure.now.unit closure.now.var closure.now.args))) (machine_in self.new)
            ≡ read_move (code_of self.old) (state_in self.old) (after self.old self.old.levels)
            closure.now.place closure.now.unit closure.now.var closure.now.args
            (stack_in self.old.stack) (left_over self.old)
            (taken_read
            (find_closure closure.now self.old.levels (drop self.old.rest self.old.items)))) }
    {
        let now = self.memory.value(closure.place);
        self.step()?;
        let found = find_value(&self.items, self.rest, self.levels, closure)?;
        let below = mem::replace(&mut self.stack, Stack::empty(self.alloc));
        match found {
            Some(found) => {
                self.rest = found.rest;
                let levels = found.levels;
                self.frames.push(Frame::Mend { below, levels })?;
                self.open(closure, is_same(now, found.value), now)?;
                Ok(now)
            }
            None => {
                self.frames.push(Frame::Run { below })?;
                self.stack
                    .resume(self.memory.code(), closure.continuation(), now)?;
                Ok(now)
            }
        }
    }

    /// The unit reads: a read that is left over is taken with the items inside it, or the unit of the read is
    /// re-executed.
    fn read(&mut self, closure: Closure) -> Result<Turn, NoMemory>
        requires running { self.old.mode ≡ Mode.Running }
        ensures code { OnOk result (code_of self.new ≡ code_of self.old) }
        ensures turn { IfOk result
            (λ t. turn_in t (machine_in self.new) ≡ read_move (code_of self.old)
            (state_in self.old) (after self.old self.old.levels)
            closure.place closure.unit closure.var closure.args
            (stack_in self.old.stack) (left_over self.old)
            (taken_read
            (find_closure closure self.old.levels (drop self.old.rest self.old.items)))) }
        ensures goes { IfOk result (λ t. t ≡ Turn.Ended → ⊥) }
    {
        match self.read_in(&closure) {
            Ok(now) => Ok(wrote(true, read_item(closure, now))),
            Err(error) => {
                drop(closure);
                Err(error)
            }
        }
    }

    /// What the running stack does next.
    #[tactic(auto, using(crate::proofs::MachineSteps::frame_steps), unfolding(crate::specs::Machines::machine_of))]
    pub fn perform(&mut self, act: Act) -> Result<Turn, NoMemory>
        requires running { self.old.mode ≡ Mode.Running }
        ensures code { OnOk result (code_of self.new ≡ code_of self.old) }
        ensures turn { IfOk result
            (λ t. turn_in t (machine_in self.new) ≡ act_move (code_of self.old) own
            (state_in self.old) (after self.old self.old.levels) (left_over self.old)
            (act_in act (stack_in self.old.stack))) }
        ensures still { IfOk result
            (λ t. t ≡ Turn.Ended → state_in self.new ≡ state_in self.old) }
    {
        match act {
            Act::Over => Ok(self.close()),
            Act::Quiet => {
                self.step()?;
                Ok(Turn::Went {
                    stepped: true,
                    item: None,
                })
            }
            Act::Makes { key, var, unit } => self.make(key, var, unit),
            Act::Writes { place, value } => {
                self.step()?;
                self.memory.put(place, value)?;
                Ok(wrote(true, Item::Write { place, value }))
            }
            Act::Reads(closure) => self.read(closure),
        }
    }
}
