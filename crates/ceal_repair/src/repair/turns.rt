// Turns of change propagation, one after another.

ghost use Rattle.std.specs.Prelude.{◌≡◌, ◌≢◌, ◌≤◌, [], ℕ, List, true, false, Some, IfOk, IfSome, IsOk, IsTrue, OnOk};
ghost use Rattle.ceal_base.specs.declared.word.Word.{Word};
ghost use Rattle.ceal_code.specs.Replay.{IsHonest};
ghost use Rattle.ceal_repair.specs.Kept.{QueuedAfter};
ghost use Rattle.ceal_repair.specs.Propagation.{HasCome, Propagated, AfterTurn};
ghost use Rattle.ceal_repair.specs.Looks.{Pays, LooksAtQueued, found};
ghost use Rattle.ceal_repair.specs.Repairs.{code_of, inputs_of, running_of, frames_of, SameCall};
ghost use Rattle.ceal_repair.specs.Repairs.{account};
ghost use Rattle.ceal_repair.specs.Turning.{Since, FoundStale};
ghost use Rattle.ceal_repair.specs.declared.advance.Progress.TheVariants.{Spent};
ghost use Rattle.ceal_repair.specs.declared.running.Running.{Running};

use super::Repair;
use crate::advance::Progress;
use crate::complete::complete;
use ceal_base::no_memory::NoMemory;
use ceal_order::stamp::Stamp;

/// Whether the requested number of turns was made.
fn is_last(reads: Option<u32>, turns: u64) -> bool
    ensures last { IsTrue result → reads ≡ Some turns }
    ensures fewer { result ≡ false → reads ≢ Some turns }
{
    match reads {
        None => false,
        Some(reads) => u64::from(reads) == turns,
    }
}

impl<'a> Repair<'a> {
    /// Makes turns until no read is stale, or the requested number of them. Where no read was stale at the beginning no
    /// memory is taken. No run that fits into memory has 2^64 turns; one that had would be answered as out of memory.
    pub fn turns(&mut self, reads: Option<u32>, fuel: u32) -> Result<Progress, NoMemory>
        requires comes { (f : ℕ) × (args : List Word) × (o : Since) × (before : Running)
            × HasCome (code_of self.old) (inputs_of self.old)
            f args o before (running_of self.old) }
        requires idle { frames_of self.old ≡ [] }
        requires some { reads ≢ Some 0 }
        requires late { QueuedAfter self.old.cursor.0 (running_of self.old).tables }
        ensures call { OnOk result (SameCall self.old self.new) }
        ensures pays { OnOk result (Pays (account self.old) (account self.new)) }
        ensures ended { IfOk result
            (λ p. (f : ℕ) (args : List Word) (o : Since) (before : Running)
            → HasCome (code_of self.old) (inputs_of self.old) f args o before (running_of self.old)
            → Propagated p (code_of self.old) (inputs_of self.old)
            f args reads fuel o before (running_of self.new)) }
        ensures within { IfOk result (λ p. p ≢ Spent → (running_of self.old).spent ≤ fuel
            → (running_of self.new).spent ≤ fuel) }
        ensures idle { OnOk result ((f : ℕ) (args : List Word) (o : Since) (before : Running)
            → HasCome (code_of self.old) (inputs_of self.old) f args o before (running_of self.old)
            → IsHonest (code_of self.old) (inputs_of self.old) o.repair.items
            → LooksAtQueued (running_of self.old).tables (running_of self.new).tables) }
        ensures sure { (f : ℕ) (args : List Word) (o : Since) (before : Running)
            → HasCome (code_of self.old) (inputs_of self.old) f args o before (running_of self.old)
            → IsHonest (code_of self.old) (inputs_of self.old) o.repair.items → IsOk result }
    {
        for turn in 0..u64::MAX {
            if is_last(reads, turn) {
                if self.running.tables.has_stale() {
                    return Ok(Progress::More);
                }
                return Ok(self.running.conclude(fuel));
            }
            match self.running.tables.first_stale(None) {
                None => return Ok(self.running.conclude(fuel)),
                Some(read) => {
                    if !self.turn_from(read, fuel)? {
                        return Ok(Progress::Spent);
                    }
                }
            }
        }
        Err(NoMemory)
    }

    /// Makes the turn of a read that was found stale. It answers false where more steps were re-executed than the fuel
    /// allows.
    fn turn_from(&mut self, read: Stamp, fuel: u32) -> Result<bool, NoMemory>
        requires found { (f : ℕ) × (args : List Word) × (o : Since)
            × FoundStale (code_of self.old) (inputs_of self.old)
            f args o read.0 (running_of self.old) }
        requires idle { frames_of self.old ≡ [] }
        ensures call { OnOk result (SameCall self.old self.new) }
        ensures pays { OnOk result (Pays (found read.0 (account self.old)) (account self.new)) }
        ensures idle { IfOk result (λ more. more ≡ true → frames_of self.new ≡ []) }
        ensures within { IfOk result (λ more. more ≡ true → (running_of self.new).spent ≤ fuel) }
        ensures late { IfOk result (λ more. more ≡ true
            → QueuedAfter self.new.cursor.0 (running_of self.new).tables) }
        ensures turn { IfOk result (λ more. (f : ℕ) (args : List Word) (o : Since)
            → (found : FoundStale (code_of self.old) (inputs_of self.old)
            f args o read.0 (running_of self.old))
            → AfterTurn more (code_of self.old) (inputs_of self.old)
            f args fuel o found.before (running_of self.new)) }
    {
        self.begin_turn(read)?;
        if !complete(self, fuel)? {
            return Ok(false);
        }
        self.end_turn()?;
        Ok(true)
    }
}
