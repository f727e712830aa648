// The end of a turn of change propagation.

ghost use Rattle.std.specs.Prelude.{◌≡◌, [], ℕ, List, OnOk};
ghost use Rattle.ceal_base.specs.declared.word.Word.{Word};
ghost use Rattle.ceal_repair.specs.Kept.{QueuedAfter};
ghost use Rattle.ceal_repair.specs.Moment.{Start};
ghost use Rattle.ceal_repair.specs.Looks.{Pays};
ghost use Rattle.ceal_repair.specs.Repairs.{code_of, inputs_of, running_of, frames_of, IsOver, SameCall};
ghost use Rattle.ceal_repair.specs.Repairs.{account};
ghost use Rattle.ceal_repair.specs.Turning.{Since, TurnBegan, TurnEnded};
ghost use Rattle.ceal_repair.specs.declared.running.Running.{Running};

use super::Repair;
use ceal_base::no_memory::NoMemory;

impl<'a> Repair<'a> {
    /// The unit of the read that a turn re-executes is over: what is left over to it is revoked. No unit runs then.
    pub fn end_turn(&mut self) -> Result<(), NoMemory>
        requires over { (f : ℕ) × (args : List Word) × (o : Since) × (before : Running)
            × (start : Start)
            × TurnBegan (code_of self.old) (inputs_of self.old) f args o before start
            × IsOver start self.old }
        ensures call { OnOk result (SameCall self.old self.new) }
        ensures pays { OnOk result (Pays (account self.old) (account self.new)) }
        ensures idle { OnOk result (frames_of self.new ≡ []) }
        ensures late { OnOk result (QueuedAfter self.new.cursor.0 (running_of self.new).tables) }
        ensures spent { OnOk result ((running_of self.new).spent ≡ (running_of self.old).spent) }
        ensures ends { OnOk result
            ((f : ℕ) (args : List Word) (o : Since) (before : Running) (start : Start)
            → TurnBegan (code_of self.old) (inputs_of self.old) f args o before start
            → IsOver start self.old
            → TurnEnded (code_of self.old) (inputs_of self.old)
            f args o start (running_of self.new)) }
    {
        let end = match self.limit {
            Some(end) => end,
            None => unreachable!(),
        };
        self.running.cut_until(self.cursor, end)?;
        Ok(())
    }
}
