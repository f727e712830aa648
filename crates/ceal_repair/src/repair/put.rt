// What a unit does that puts nodes in after the cursor.

ghost use Rattle.std.specs.Prelude.{◌≡◌, ◌∷◌, [], None, OnOk};
ghost use Rattle.ceal_code.specs.declared.step.Act.TheVariants as does;
ghost use Rattle.ceal_repair.specs.Moment.{Start};
ghost use Rattle.ceal_memo.specs.Keys.{OfRead, OfAlloc};
ghost use Rattle.ceal_memo.specs.Memo.{IsOf};
ghost use Rattle.ceal_order.specs.Stamps.{head_of};
ghost use Rattle.ceal_repair.specs.Looks.{Pays, begun};
ghost use Rattle.ceal_repair.specs.Repairs.{arguments_of, Runs, Acts, ActsMaking, EndsRead, SameCall, left_nodes};
ghost use Rattle.ceal_repair.specs.Repairs.{running_of, StaysAnew};
ghost use Rattle.ceal_repair.specs.Repairs.{account};
ghost use Rattle.ceal_repair.specs.Lists.{allocates, recalls, stamps_where};
ghost use Rattle.ceal_repair.specs.Reads.{key_in, closure_in};

use super::Repair;
use crate::frame::Frame;
use ceal_base::forest::Key;
use ceal_base::no_memory::NoMemory;
use ceal_base::word::{Place, Word};
use ceal_code::initialise::pointer_to;
use ceal_code::stack::Continuation;
use ceal_code::step::Reading;
use ceal_code::waits::Floor;
use ceal_memo::key::ReadKey;
use ceal_memo::memo::Hashed;
use ceal_order::stamp::Stamp;

impl<'a> Repair<'a> {
    /// A step that leaves no item but itself.
    pub fn quiet(&mut self) -> Result<(), NoMemory>
        requires acts { (start : Start) × Acts start does.Quiet self.old }
        ensures call { OnOk result (SameCall self.old self.new) }
        ensures pays { OnOk result (Pays (account self.old) (account self.new)) }
        ensures anew { OnOk result (StaysAnew self.old self.new) }
        ensures runs { OnOk result
            ((start : Start) → Acts start does.Quiet self.old → Runs start self.new) }
    {
        self.step()?;
        Ok(())
    }

    /// A write: its node is put after the cursor, and the read that this affects is queued.
    pub fn write(&mut self, place: Place, value: Word) -> Result<(), NoMemory>
        requires acts { (start : Start) × Acts start (does.Writes place value) self.old }
        ensures call { OnOk result (SameCall self.old self.new) }
        ensures pays { OnOk result (Pays (account self.old) (account self.new)) }
        ensures anew { OnOk result (StaysAnew self.old self.new) }
        ensures runs { OnOk result
            ((start : Start) → Acts start (does.Writes place value) self.old
            → Runs start self.new) }
    {
        self.step()?;
        self.cursor = self.running.tables.put_write(self.cursor, place, value)?;
        Ok(())
    }

    /// A block for the key: that of the earliest allocation with the key that is left over, and a new one where there
    /// is none. The variable of the unit gets it.
    pub fn make(&mut self, key: Key, var: u32) -> Result<(), NoMemory>
        requires acts { (start : Start) × ActsMaking start key var self.old }
        ensures call { OnOk result (SameCall self.old self.new) }
        ensures pays { OnOk result (Pays (account self.old) (account self.new)) }
        ensures anew { OnOk result (StaysAnew self.old self.new) }
        ensures runs { OnOk result
            ((start : Start) → ActsMaking start key var self.old → Runs start self.new) }
    {
        let hashed = self.running.tables.memo.of_alloc(&key);
        match self.find_alloc(&key, hashed) {
            None => self.make_new(key, var, hashed)?,
            Some(found) => self.take_alloc(found, key, var)?,
        }
        Ok(())
    }

    /// A new block for the key, which no allocation that is left over has.
    fn make_new(&mut self, key: Key, var: u32, hashed: Hashed) -> Result<(), NoMemory>
        requires acts { (start : Start) × ActsMaking start key var self.old }
        requires absent { head_of (stamps_where (allocates key) (left_nodes self.old)) ≡ None }
        requires hashed { IsOf (running_of self.old).tables.memo (OfAlloc key) hashed }
        ensures call { OnOk result (SameCall self.old self.new) }
        ensures pays { OnOk result (Pays (account self.old) (account self.new)) }
        ensures anew { OnOk result (StaysAnew self.old self.new) }
        ensures runs { OnOk result
            ((start : Start) → ActsMaking start key var self.old → Runs start self.new) }
    {
        self.step()?;
        let block = self.running.make(self.alloc, self.code, self.inputs, &key)?;
        let pointer = pointer_to(&key, block);
        self.cursor = self
            .running
            .tables
            .put_alloc(self.cursor, block, key, hashed)?;
        self.stack.set(var, pointer)?;
        Ok(())
    }

    /// A new read, which no read that is left over is: its unit runs on the content of its place, with what is left
    /// over.
    pub fn begin(&mut self, reading: Reading<'_>, hashed: Hashed) -> Result<(), NoMemory>
        requires acts { (start : Start)
            × Acts start (does.Reads (closure_in reading (arguments_of self.old))) self.old }
        requires absent { head_of (stamps_where
            (recalls (key_in (closure_in reading (arguments_of self.old))))
            (left_nodes self.old)) ≡ None }
        requires hashed { IsOf (running_of self.old).tables.memo
            (OfRead (key_in (closure_in reading (arguments_of self.old)))) hashed }
        ensures call { OnOk result (SameCall self.old self.new) }
        ensures pays { OnOk result (Pays (account self.old) (account self.new)) }
        ensures anew { OnOk result (StaysAnew self.old self.new) }
        ensures runs { OnOk result ((start : Start)
            → Acts start (does.Reads (closure_in reading.entry (arguments_of self.old))) self.old
            → Runs start self.new) }
    {
        self.step()?;
        let args = self.args.as_slice();
        let unit = reading.unit;
        let var = reading.var;
        let key = ReadKey {
            place: reading.place,
            unit,
            var,
            args,
        };
        let running = &mut *self.running;
        let begun = running
            .tables
            .begin_read(self.alloc, self.cursor, &key, hashed)?;
        self.cursor = begun.read;
        let below = self.stack.set_aside()?;
        let next = Continuation { unit, var, args };
        self.stack.resume(self.code, next, begun.value)?;
        self.frames.push(Frame::Begun {
            below,
            read: begun.read,
        })?;
        Ok(())
    }

    /// The unit of a new read is over: its end is put after the cursor, and the units below run with what is left over.
    pub fn finish(&mut self, below: Floor, read: Stamp) -> Result<(), NoMemory>
        requires ends { (start : Start) × EndsRead start below read self.old }
        ensures call { OnOk result (SameCall self.old self.new) }
        ensures pays { OnOk result (Pays (begun (account self.old)) (account self.new)) }
        ensures anew { OnOk result (StaysAnew self.old self.new) }
        ensures runs { OnOk result
            ((start : Start) → EndsRead start below read self.old → Runs start self.new) }
    {
        self.cursor = self.running.tables.finish_read(read, self.cursor)?;
        self.stack.bring_back(below);
        Ok(())
    }
}
