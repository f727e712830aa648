// The units of a repair act until it is over.

ghost use Rattle.std.specs.Prelude.{IfOk, OnOk};
ghost use Rattle.ceal_repair.specs.Moment.{Start};
ghost use Rattle.ceal_repair.specs.Looks.{Pays};
ghost use Rattle.ceal_repair.specs.Repairs.{Runs, EndsWithin, SameCall, StaysAnew, running_of};
ghost use Rattle.ceal_repair.specs.Repairs.{account};

use crate::repair::Repair;
use ceal_base::no_memory::NoMemory;

/// Lets the units of a repair act until it is over, or has run more steps than the fuel allows: then it answers false.
/// No run that fits into memory takes 2^64 acts; one that did would be answered as out of memory.
#[inline(never)]
pub fn complete(repair: &mut Repair<'_>, fuel: u32) -> Result<bool, NoMemory>
    requires runs { (start : Start) × Runs start repair.old }
    ensures call { OnOk result (SameCall repair.old repair.new) }
    ensures pays { OnOk result (Pays (account repair.old) (account repair.new)) }
    ensures anew { OnOk result (StaysAnew repair.old repair.new) }
    ensures done { IfOk result
        (λ done. (start : Start) → Runs start repair.old → EndsWithin done fuel start repair.new) }
{
    for _act in 0..u64::MAX {
        if repair.spent() > fuel {
            return Ok(false);
        }
        if !repair.act()? {
            return Ok(true);
        }
    }
    Err(NoMemory)
}
