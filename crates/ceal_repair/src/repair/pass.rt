// How nodes that are kept are passed.

ghost use Rattle.std.specs.Prelude.{OnOk};
ghost use Rattle.ceal_repair.specs.Moment.{Start};
ghost use Rattle.ceal_repair.specs.Passing.{NoneStale, StaleInside};
ghost use Rattle.ceal_repair.specs.Reads.{EndsKept};
ghost use Rattle.ceal_repair.specs.Looks.{Pays, found};
ghost use Rattle.ceal_repair.specs.Repairs.{Runs, PassesOn, SameCall, StaysAnew, running_of};
ghost use Rattle.ceal_repair.specs.Repairs.{account};

use super::Repair;
use super::turn::unit_at;
use crate::frame::Frame;
use ceal_base::no_memory::NoMemory;
use ceal_order::stamp::Stamp;

impl<'a> Repair<'a> {
    /// Kept nodes inside a taken read are passed, up to the first stale read among them, whose unit runs with what is
    /// inside it left over. Where none is stale all are passed: the units below run, with what is after the end of the
    /// taken read.
    pub fn pass(&mut self) -> Result<(), NoMemory>
        requires passes { (start : Start) × PassesOn start self.old }
        ensures call { OnOk result (SameCall self.old self.new) }
        ensures pays { OnOk result (Pays (account self.old) (account self.new)) }
        ensures anew { OnOk result (StaysAnew self.old self.new) }
        ensures runs { OnOk result
            ((start : Start) → PassesOn start self.old → Runs start self.new) }
    {
        match self.running.tables.first_stale(self.limit) {
            None => {
                self.pass_all();
                Ok(())
            }
            Some(read) => self.repair_inside(read),
        }
    }

    /// No read up to the limit is stale: the kept nodes up to there, which is the end of a taken read, are passed. The
    /// units below run with what is after it, up to their own limit; the steps on the end are dropped.
    fn pass_all(&mut self)
        requires none { (start : Start) × NoneStale start self.old }
        ensures call { SameCall self.old self.new }
        ensures pays { Pays (account self.old) (account self.new) }
        ensures anew { StaysAnew self.old self.new }
        ensures runs { (start : Start) → NoneStale start self.old → Runs start self.new }
    {
        let end = match self.limit {
            Some(end) => end,
            None => unreachable!(),
        };
        match self.frames.pop() {
            Some(Frame::Taken { below, limit }) => {
                self.running.tables.set_steps(end, 0);
                self.cursor = end;
                self.limit = Some(limit);
                self.stack.bring_back(below);
            }
            Some(Frame::Begun { .. }) => unreachable!(),
            Some(Frame::Kept { .. }) => unreachable!(),
            None => unreachable!(),
        }
    }

    /// The kept nodes before a stale read are passed. Its unit runs on the content of its moment, with what is inside
    /// it left over; its steps are dropped. The nodes after its end are passed then.
    fn repair_inside(&mut self, read: Stamp) -> Result<(), NoMemory>
        requires stale { (start : Start) × StaleInside start read self.old }
        ensures call { OnOk result (SameCall self.old self.new) }
        ensures pays { OnOk result (Pays (found read.0 (account self.old)) (account self.new)) }
        ensures anew { OnOk result (StaysAnew self.old self.new) }
        ensures runs { OnOk result
            ((start : Start) → StaleInside start read self.old → Runs start self.new) }
    {
        let until = match self.limit {
            Some(until) => until,
            None => unreachable!(),
        };
        self.running.tables.set_steps(read, 0);
        let trace = &self.running.tables.trace;
        unit_at(self.stack, self.code, trace, read)?;
        self.limit = self.running.tables.trace.end_of(read);
        self.cursor = read;
        self.frames.push(Frame::Kept { until })?;
        Ok(())
    }

    /// The unit of a stale read among kept nodes is over: what is left over to it is revoked, and the nodes after its
    /// end are passed.
    pub fn go_on(&mut self, until: Stamp) -> Result<(), NoMemory>
        requires ends { (start : Start) × EndsKept start until self.old }
        ensures call { OnOk result (SameCall self.old self.new) }
        ensures pays { OnOk result (Pays (account self.old) (account self.new)) }
        ensures anew { OnOk result (StaysAnew self.old self.new) }
        ensures runs { OnOk result
            ((start : Start) → EndsKept start until self.old → Runs start self.new) }
    {
        let end = match self.limit {
            Some(end) => end,
            None => unreachable!(),
        };
        self.running.cut_until(self.cursor, end)?;
        self.cursor = end;
        self.limit = Some(until);
        self.pass()
    }
}
