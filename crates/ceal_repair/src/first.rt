// The run from nothing.

ghost use Rattle.std.specs.Prelude.{◌≡◌, ◌<◌, ◌^◌, length, IfOk};
ghost use Rattle.ceal_code.specs.Fitting.{Fits};
ghost use Rattle.ceal_repair.specs.Answers.{IsFirst};

use crate::complete::complete;
use crate::repair::Repair;
use crate::room::Room;
use crate::running::{Outcome, Running};
use ceal_base::memory::Inputs;
use ceal_base::no_memory::NoMemory;
use ceal_base::word::Word;
use ceal_code::code::Code;
use ceal_memo::seed::Seed;
use ceal_theory::names::chosen_law;
use ceal_theory::walks::known_law;
use std::alloc::Global;

/// Runs a call of a core function from nothing: its nodes stand for the first trace of the call, its blocks with the
/// numbers that the heap gives them. It is out of fuel exactly when the run from scratch needs more steps than the fuel
/// allows.
pub fn first(
    alloc: Global,
    code: &Code,
    function: u32,
    args: &[Word],
    inputs: &Inputs,
    fuel: u32,
    seed: &Seed,
) -> Result<Outcome, NoMemory>
    requires fits { Fits code.now inputs.now function args.now }
    requires few { length inputs.now < 2 ^ 32 }
    ensures first { IfOk result
        (λ o. IsFirst code.now inputs.now function args.now fuel o) }
{
    // for the proof: numbers may be chosen as a repair goes, and what it reads is known
    chosen_law();
    known_law();
    let mut room = Room::of_call(alloc, code, function, args)?;
    let mut running = Running::begin(alloc, code, inputs, seed)?;
    let mut repair = Repair::at_root(code, inputs, &mut running, &mut room);
    match complete(&mut repair, fuel) {
        Ok(true) => {
            drop(room);
            running.heap.release_revoked();
            Ok(Outcome::Done(running))
        }
        Ok(false) => {
            drop(room);
            drop(running);
            Ok(Outcome::OutOfFuel)
        }
        Err(error) => {
            drop(room);
            drop(running);
            Err(error)
        }
    }
}
