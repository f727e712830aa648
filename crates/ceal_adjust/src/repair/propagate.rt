// Old items are walked: those that the edit does not reach are kept.

ghost use Rattle.std.specs.Prelude.{◌≡◌, ◌∷◌, drop, reverse, IfOk, OnOk};
ghost use Rattle.ceal_base.specs.Trace.{WasRead};
ghost use Rattle.ceal_theory.specs.Levels.{first, around, levels as levels_of};
ghost use Rattle.ceal_theory.specs.Moves.{fix_move};
ghost use Rattle.ceal_adjust.specs.Machines.{code_of, state_in, frames_in, ahead, machine_in, turn_in};

use super::{Repair, is_same, read_item, wrote};
use crate::frame::{Frame, Mode, Turn};
use ceal_base::forest::Item;
use ceal_base::no_memory::NoMemory;
use ceal_base::word::Word;
use ceal_code::stack::Closure;

impl<'a> Repair<'a> {
    /// An old read is read again; the cursor is inside it.
    fn propagate_read(&mut self, closure: Closure, value: Word) -> Result<Turn, NoMemory>
        ensures code { OnOk result (code_of self.new ≡ code_of self.old) }
        ensures turn { IfOk result (λ t. turn_in t (machine_in self.new)
            ≡ fix_move (code_of self.old) (state_in self.old)
            (frames_in (reverse self.old.frames.items) (around (around (ahead self.old))))
            (WasRead closure.place value closure.unit closure.var closure.args
            (first (ahead self.old)) (first (around (ahead self.old))))) }
        ensures goes { IfOk result (λ t. t ≡ Turn.Ended → ⊥) }
    {
        let now = self.memory.value(closure.place);
        self.frames.push(Frame::Fix)?;
        self.open(&closure, is_same(now, value), now)?;
        Ok(wrote(false, read_item(closure, now)))
    }

    /// An old item is walked; the cursor is after it.
    #[tactic(auto, using(crate::proofs::MachineSteps::frame_steps), unfolding(crate::specs::Machines::machine_of))]
    fn propagate_item(&mut self, item: &Item) -> Result<Turn, NoMemory>
        requires fixing { self.old.mode ≡ Mode.Fixing }
        ensures code { OnOk result (code_of self.new ≡ code_of self.old) }
        ensures turn { IfOk result (λ t. turn_in t (machine_in self.new)
            ≡ fix_move (code_of self.old) (state_in self.old)
            (frames_in (reverse self.old.frames.items)
            (around (levels_of (item.now ∷ drop self.old.rest self.old.items))))
            (first (levels_of (item.now ∷ drop self.old.rest self.old.items)))) }
        ensures still { IfOk result
            (λ t. t ≡ Turn.Ended → state_in self.new ≡ state_in self.old) }
    {
        match item {
            Item::Step => Ok(Turn::Went {
                stepped: true,
                item: None,
            }),
            Item::Alloc { block, key } => {
                self.memory.clear(*block, key)?;
                Ok(wrote(false, item.copy()?))
            }
            Item::Write { place, value } => {
                self.memory.put(*place, *value)?;
                Ok(wrote(false, item.copy()?))
            }
            Item::Read {
                place,
                value,
                unit,
                var,
                args,
            } => {
                let closure = Closure {
                    place: *place,
                    unit: *unit,
                    var: *var,
                    args: args.copy()?,
                };
                self.propagate_read(closure, *value)
            }
            Item::End => {
                self.levels = 0;
                Ok(self.close())
            }
        }
    }

    /// The next old item is walked, or the level of old items is over.
    #[tactic(auto, using(crate::proofs::MachineSteps::frame_steps), unfolding(crate::specs::Machines::machine_of))]
    pub fn propagate(&mut self) -> Result<Turn, NoMemory>
        requires fixing { self.old.mode ≡ Mode.Fixing }
        ensures code { OnOk result (code_of self.new ≡ code_of self.old) }
        ensures turn { IfOk result (λ t. turn_in t (machine_in self.new)
            ≡ fix_move (code_of self.old) (state_in self.old)
            (frames_in (reverse self.old.frames.items) (around (ahead self.old)))
            (first (ahead self.old))) }
        ensures still { IfOk result
            (λ t. t ≡ Turn.Ended → state_in self.new ≡ state_in self.old) }
    {
        match self.items.item(self.rest) {
            None => {
                self.levels = 0;
                Ok(self.close())
            }
            Some(item) => {
                self.rest += 1;
                self.propagate_item(item)
            }
        }
    }
}
