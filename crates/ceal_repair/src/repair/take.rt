// What a unit does that takes nodes which are left over.

ghost use Rattle.std.specs.Prelude.{◌≡◌, Some, OnOk, option_map};
ghost use Rattle.ceal_code.specs.Step.{Stack as StackOf};
ghost use Rattle.ceal_memo.specs.Keys.{OfAlloc};
ghost use Rattle.ceal_memo.specs.Memo.{IsOf};
ghost use Rattle.ceal_order.specs.Stamps.{head_of};
ghost use Rattle.ceal_repair.specs.Moment.{Start};
ghost use Rattle.ceal_repair.specs.Looks.{Pays};
ghost use Rattle.ceal_repair.specs.Repairs.{Runs, RunsAt, ActsMaking, SameCall, left_nodes, running_of, StaysAnew};
ghost use Rattle.ceal_repair.specs.Repairs.{account};
ghost use Rattle.ceal_repair.specs.Lists.{allocates, stamps_where};

use super::Repair;
use ceal_base::forest::Key;
use ceal_base::no_memory::NoMemory;
use ceal_code::initialise::pointer_to;
use ceal_memo::memo::Hashed;
use ceal_order::stamp::Stamp;

impl<'a> Repair<'a> {
    /// The earliest allocation with a key, as the memo enters it, that is left over.
    pub fn find_alloc(&self, key: &Key, hashed: Hashed) -> Option<Stamp>
        requires runs { (start : Start) × (st : StackOf) × RunsAt start st self.now }
        requires hashed { IsOf (running_of self.now).tables.memo (OfAlloc key.now) hashed }
        ensures { option_map (λ s. s.0) result
            ≡ head_of (stamps_where (allocates key.now) (left_nodes self.now)) }
    {
        match self.limit {
            None => None,
            Some(limit) => {
                let tables = &self.running.tables;
                tables.find_alloc(key, hashed, self.cursor, limit)
            },
        }
    }

    /// The block of an allocation that is left over is taken: what is before it is revoked, and its steps are dropped.
    pub fn take_alloc(&mut self, found: Stamp, key: Key, var: u32) -> Result<(), NoMemory>
        requires acts { (start : Start) × ActsMaking start key var self.old }
        requires found { head_of (stamps_where (allocates key) (left_nodes self.old))
            ≡ Some found.0 }
        ensures call { OnOk result (SameCall self.old self.new) }
        ensures pays { OnOk result (Pays (account self.old) (account self.new)) }
        ensures anew { OnOk result (StaysAnew self.old self.new) }
        ensures runs { OnOk result
            ((start : Start) → ActsMaking start key var self.old → Runs start self.new) }
    {
        self.step()?;
        self.running.cut_until(self.cursor, found)?;
        self.running.tables.set_steps(found, 0);
        let block = self.running.tables.trace.block_at(found);
        self.cursor = found;
        self.stack.set(var, pointer_to(&key, block))?;
        Ok(())
    }
}
