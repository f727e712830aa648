// What a unit does that reads.

ghost use Rattle.std.specs.Prelude.{◌≡◌, ◌++◌, ◌∷◌, [], Some, true, IfOk, OnOk, option_map};
ghost use Rattle.ceal_base.specs.declared.word.Place.{Place as PlaceOf};
ghost use Rattle.ceal_code.specs.Step.{Stack as StackOf};
ghost use Rattle.ceal_code.specs.declared.step.Act.TheVariants as does;
ghost use Rattle.ceal_memo.specs.Keys.{OfRead};
ghost use Rattle.ceal_memo.specs.Memo.{IsOf};
ghost use Rattle.ceal_order.specs.Stamps.{head_of};
ghost use Rattle.ceal_repair.specs.Moment.{Start};
ghost use Rattle.ceal_repair.specs.Reads.{closure_in, key_in, Entered, EndsTaken};
ghost use Rattle.ceal_repair.specs.Looks.{Pays, owing};
ghost use Rattle.ceal_repair.specs.Repairs.{running_of, arguments_of, frames_of, Runs, RunsAt, Acts, SameCall};
ghost use Rattle.ceal_repair.specs.Repairs.{left_nodes, StaysAnew};
ghost use Rattle.ceal_repair.specs.Repairs.{account};
ghost use Rattle.ceal_repair.specs.declared.frame.Frame.TheVariants.{Taken};
ghost use Rattle.ceal_repair.specs.Kept.{Records};
ghost use Rattle.ceal_repair.specs.Lists.{recalls, stamps_where};
ghost use Rattle.ceal_trace.specs.Nodes.{node_at, end_in, is_read};

use super::Repair;
use crate::frame::Frame;
use ceal_base::no_memory::NoMemory;
use ceal_base::word::Word;
use ceal_code::stack::Continuation;
use ceal_code::step::Reading;
use ceal_code::waits::Floor;
use ceal_memo::key::ReadKey;
use ceal_memo::memo::Hashed;
use ceal_order::stamp::Stamp;
use ceal_trace::trace::Trace;

/// The value that a read records.
fn value_at(trace: &Trace, read: Stamp) -> Word
    requires read { is_read (node_at read.0 trace.now.nodes) ≡ true }
    ensures { (p : PlaceOf) × Records p result (node_at read.0 trace.now.nodes) }
{
    trace.read_at(read).value
}

impl<'a> Repair<'a> {
    /// A read: the earliest one of the closure that is left over is taken, and a new one begins where there is none.
    /// Where a taken read has the content of its moment, what is inside it is passed, and else its unit runs.
    pub fn read(&mut self, reading: Reading<'_>) -> Result<(), NoMemory>
        requires acts { (start : Start)
            × Acts start (does.Reads (closure_in reading (arguments_of self.old))) self.old }
        ensures call { OnOk result (SameCall self.old self.new) }
        ensures pays { OnOk result (Pays (account self.old) (account self.new)) }
        ensures anew { OnOk result (StaysAnew self.old self.new) }
        ensures runs { OnOk result ((start : Start)
            → Acts start (does.Reads (closure_in reading.entry (arguments_of self.old))) self.old
            → Runs start self.new) }
    {
        let hashed = self.hashed(reading);
        match self.find_read(reading, hashed) {
            None => self.begin(reading, hashed)?,
            Some(found) => {
                if !self.take_read(found, reading)? {
                    self.pass()?;
                }
            }
        }
        Ok(())
    }

    /// The key of a read, as the memo enters it.
    fn hashed(&self, reading: Reading<'_>) -> Hashed
        ensures { IsOf (running_of self.now).tables.memo
            (OfRead (key_in (closure_in reading.entry (arguments_of self.now)))) result }
    {
        let args = self.args.as_slice();
        let key = ReadKey {
            place: reading.place,
            unit: reading.unit,
            var: reading.var,
            args,
        };
        self.running.tables.memo.of_read(&key)
    }

    /// The earliest read of the closure, as the memo enters it, that is left over.
    fn find_read(&self, reading: Reading<'_>, hashed: Hashed) -> Option<Stamp>
        requires runs { (start : Start) × (st : StackOf) × RunsAt start st self.now }
        requires hashed { IsOf (running_of self.now).tables.memo
            (OfRead (key_in (closure_in reading (arguments_of self.now)))) hashed }
        ensures { option_map (λ s. s.0) result ≡ head_of (stamps_where
            (recalls (key_in (closure_in reading.entry (arguments_of self.now))))
            (left_nodes self.now)) }
    {
        match self.limit {
            None => None,
            Some(limit) => {
                let tables = &self.running.tables;
                let args = self.args.as_slice();
                let key = ReadKey {
                    place: reading.place,
                    unit: reading.unit,
                    var: reading.var,
                    args,
                };
                tables.find_read(&key, hashed, self.cursor, limit)
            }
        }
    }

    /// A read that is left over is taken: what is before it is revoked. Where it does not have the content of its
    /// moment its unit runs, with what is inside it left over. Otherwise it answers false: what is inside it has to be
    /// passed.
    fn take_read(&mut self, found: Stamp, reading: Reading<'_>) -> Result<bool, NoMemory>
        requires acts { (start : Start)
            × Acts start (does.Reads (closure_in reading (arguments_of self.old))) self.old }
        requires found { head_of (stamps_where
            (recalls (key_in (closure_in reading (arguments_of self.old))))
            (left_nodes self.old)) ≡ Some found.0 }
        ensures call { OnOk result (SameCall self.old self.new) }
        ensures pays { OnOk result (Pays (account self.old) (account self.new)) }
        ensures anew { OnOk result (StaysAnew self.old self.new) }
        ensures runs { IfOk result (λ anew. (start : Start)
            → Acts start (does.Reads (closure_in reading.entry (arguments_of self.old))) self.old
            → Entered anew start self.new) }
    {
        self.step()?;
        self.running.cut_until(self.cursor, found)?;
        let limit = match self.limit {
            Some(limit) => limit,
            None => unreachable!(),
        };
        let below = self.stack.set_aside()?;
        if self.running.tables.look(found) {
            self.running.tables.set_steps(found, 0);
            let value = value_at(&self.running.tables.trace, found);
            self.go_inside(found, limit, below)?;
            let args = self.args.as_slice();
            let next = Continuation {
                unit: reading.unit,
                var: reading.var,
                args,
            };
            self.stack.resume(self.code, next, value)?;
            Ok(true)
        } else {
            self.go_inside(found, limit, below)?;
            Ok(false)
        }
    }

    /// The cursor is set to a read that is taken, and the limit to its end. The units below wait, with their limit.
    fn go_inside(&mut self, read: Stamp, limit: Stamp, below: Floor) -> Result<(), NoMemory>
        requires read { is_read (node_at read.0 (running_of self.old).tables.trace.nodes) ≡ true }
        ensures rest { OnOk result (self.new ≡ record self.old {
          cursor = read;
          limit = self.new.limit;
          frames = self.new.frames;
        }) }
        ensures limit { OnOk result (option_map (λ s. s.0) self.new.limit
            ≡ end_in read.0 (running_of self.old).tables.trace.nodes) }
        ensures frames { OnOk result
            (frames_of self.new ≡ frames_of self.old ++ Taken below limit ∷ []) }
    {
        self.limit = self.running.tables.trace.end_of(read);
        self.cursor = read;
        self.frames.push(Frame::Taken { below, limit })?;
        Ok(())
    }

    /// The unit of a read that was taken is over: what is left over is revoked. The units below run with what is after
    /// its end, up to their own limit; the steps on the end are dropped.
    pub fn leave(&mut self, below: Floor, until: Stamp) -> Result<(), NoMemory>
        requires ends { (start : Start) × EndsTaken start below until self.old }
        ensures call { OnOk result (SameCall self.old self.new) }
        ensures pays { OnOk result (Pays (owing (account self.old)) (account self.new)) }
        ensures anew { OnOk result (StaysAnew self.old self.new) }
        ensures runs { OnOk result
            ((start : Start) → EndsTaken start below until self.old → Runs start self.new) }
    {
        let end = match self.limit {
            Some(end) => end,
            None => unreachable!(),
        };
        self.running.cut_until(self.cursor, end)?;
        self.running.tables.set_steps(end, 0);
        self.cursor = end;
        self.limit = Some(until);
        self.stack.bring_back(below);
        Ok(())
    }
}
