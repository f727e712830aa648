// Change propagation, whole or in parts.

ghost use Rattle.std.specs.Prelude.{◌≡◌, ◌≢◌, ◌<◌, ◌^◌, [], ℕ, List, Some, length, IfOk, IsOk, OnOk};
ghost use Rattle.ceal_base.specs.Trace.{Trace};
ghost use Rattle.ceal_base.specs.declared.word.Word.{Word};
ghost use Rattle.ceal_code.specs.Replay.{IsHonest};
ghost use Rattle.ceal_repair.specs.Answers.{IsKeptRun, IsRepaired};
ghost use Rattle.ceal_repair.specs.Departs.{DepartsSo};
ghost use Rattle.ceal_repair.specs.Looks.{Distance, LooksAtQueued, KeepsMarks};
ghost use Rattle.ceal_repair.specs.Propagation.{KeepsFront};
ghost use Rattle.ceal_repair.specs.Slicing.{IsPartRun, IsSliced};
ghost use Rattle.ceal_theory.specs.Slices.{Repair as RepairOf};

use crate::repair::Repair;
use crate::room::Room;
use crate::running::Running;
use ceal_base::memory::Inputs;
use ceal_base::no_memory::NoMemory;
use ceal_code::code::Code;

/// How far a propagation has come.
#[derive(Clone, Copy)]
pub enum Progress {
    /// a read is still stale
    More,
    /// no read is stale
    Done,
    /// more steps were spent than the fuel allows
    Spent,
    /// no read is stale, but the run has more steps than the fuel allows, and so has a run from scratch
    OutOfFuel,
}

/// Change propagation (Acar, *Self-Adjusting Computation*, 2005): brings a run nearer to inputs that have other bases.
/// It re-executes `reads` stale reads in the order of time, each with everything inside it, or all of them if `reads`
/// is None; what the new run of a unit takes of the old one stays. The nodes before the first stale read stay as they
/// are, and where no read is stale it takes no memory. A repair that begins has spent no step; where its steps exceed
/// the fuel, those of a run from scratch do so too. What the run keeps is changed in place: after Spent, OutOfFuel or
/// an error it must not be used any more.
pub fn advance(
    room: &mut Room,
    code: &Code,
    inputs: &Inputs,
    reads: Option<u32>,
    fuel: u32,
    running: &mut Running,
) -> Result<Progress, NoMemory>
    requires part { (f : ℕ) × (args : List Word) × (r : RepairOf)
        × IsPartRun code.now inputs.now f args fuel r running.old }
    requires some { reads ≢ Some 0 }
    requires few { length inputs.now < 2 ^ 32 }
    ensures sliced { IfOk result (λ p. (f : ℕ) (args : List Word) (r : RepairOf)
        → IsPartRun code.now inputs.now f args fuel r running.old
        → IsSliced code.now inputs.now f args reads fuel r running.new p) }
    ensures repaired { IfOk result (λ p. (f : ℕ) (args : List Word) (l : Trace)
        → IsKeptRun code.now inputs.now f args fuel l running.old → running.old.spent ≡ 0
        → IsRepaired code.now inputs.now f args fuel l running.old running.new p) }
    ensures distance { OnOk result (Distance running.old running.new) }
    ensures idle { OnOk result ((f : ℕ) (args : List Word) (r : RepairOf)
        → IsPartRun code.now inputs.now f args fuel r running.old
        → IsHonest code.now inputs.now r.items
        → LooksAtQueued running.old.tables running.new.tables) }
    ensures marks { OnOk result (KeepsMarks running.old.tables running.new.tables) }
    ensures front { IfOk result (λ p. p ≢ Progress.Spent → KeepsFront code.now inputs.now
        running.old.tables.trace.nodes running.new.tables.trace.nodes) }
    ensures departs { IfOk result (λ p. p ≢ Progress.Spent
        → DepartsSo running.old.tables.trace.nodes running.new.tables.trace.nodes) }
    ensures sure { (f : ℕ) (args : List Word) (r : RepairOf)
        → IsPartRun code.now inputs.now f args fuel r running.old
        → IsHonest code.now inputs.now r.items → IsOk result }
{
    let mut repair = Repair::at_root(code, inputs, running, room);
    let progress = repair.turns(reads, fuel)?;
    Ok(progress)
}
