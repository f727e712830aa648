// A repair from its beginning to its answer.

ghost use Rattle.std.specs.Prelude.{◌≡◌, ◌+◌, ◌++◌, ⊤, false, if◌then◌else◌, MatchOption, IsTrue, IfOk, OnOk};
ghost use Rattle.ceal_base.specs.Trace.{steps_in};
ghost use Rattle.ceal_adjust.specs.Answers.{Answered, Exceeds, Keeps, IsBeyond, EndsAt};
ghost use Rattle.ceal_adjust.specs.Machines.{code_of, state_in, item_list, machine_in, written};

use crate::adjust::Adjusted;
use crate::frame::Turn;
use crate::repair::Repair;
use ceal_base::forest::{Forest, Item};
use ceal_base::no_memory::NoMemory;
use std::alloc::Global;

/// Writes a step, if one was taken, and an item, if there is one.
fn write(out: &mut Vec<Item>, stepped: bool, item: Option<Item>) -> Result<(), NoMemory>
    ensures { OnOk result (out.new.items ≡ out.old.items ++ written stepped item) }
{
    if stepped {
        out.push(Item::Step)?;
    }
    if let Some(item) = item {
        out.push(item)?;
    }
    Ok(())
}

fn is_step(item: &Option<Item>) -> bool
    ensures { steps_in (item_list item.now) ≡ (if result then 1 else 0) }
{
    match item {
        None => false,
        Some(item) => match item {
            Item::Step => true,
            Item::Alloc { .. } => false,
            Item::Write { .. } => false,
            Item::Read { .. } => false,
            Item::End => false,
        },
    }
}

/// How many steps are among what is written.
fn steps_among(stepped: bool, item: &Option<Item>) -> u32
    ensures { result ≡ steps_in (written stepped item.now) }
{
    let inside = is_step(item);
    if stepped {
        1 + u32::from(inside)
    } else {
        u32::from(inside)
    }
}

/// What a machine may not exceed.
#[derive(Clone, Copy)]
pub enum Limit {
    /// this number of steps, among all that it writes
    Written(u32),
    /// this number of steps, among those that are re-executed
    Work(u32),
}

/// Whether there are more steps than a limit allows.
fn is_exceeded(limit: Limit, steps: u64, work: u32) -> bool
    ensures more { IsTrue result → Exceeds limit steps work }
    ensures within { result ≡ false → Keeps limit steps work }
{
    match limit {
        Limit::Written(fuel) => u64::from(fuel) < steps,
        Limit::Work(fuel) => fuel < work,
    }
}

/// The sum. No forest that fits into memory has 2^64 steps.
fn sum(steps: u64, more: u32) -> Result<u64, NoMemory>
    ensures { IfOk result (λ n. n ≡ steps + more) }
{
    match steps.checked_add(u64::from(more)) {
        None => Err(NoMemory),
        Some(n) => Ok(n),
    }
}

/// Turns the machine until it has ended, or there are more steps than the limit allows: then it is None. No forest that
/// fits into memory takes 2^64 turns; a repair that did would be answered as out of memory.
pub fn turn_to_end(
    alloc: Global,
    repair: &mut Repair<'_>,
    limit: Limit,
) -> Result<Option<Vec<Item>>, NoMemory>
    ensures beyond { IfOk result (λ o. MatchOption o
        (IsBeyond (code_of repair.old) limit (machine_in repair.old)) (λ out. ⊤)) }
    ensures ended { IfOk result (λ o. MatchOption o ⊤ (λ out. EndsAt (code_of repair.old) limit
        (machine_in repair.old) out.items (state_in repair.new))) }
{
    let mut out = Vec::new(alloc);
    let mut steps: u64 = 0;
    for _turn in 0..u64::MAX {
        if is_exceeded(limit, steps, repair.work()) {
            return Ok(None);
        }
        match repair.turn()? {
            Turn::Ended => return Ok(Some(out)),
            Turn::Went { stepped, item } => {
                steps = sum(steps, steps_among(stepped, &item))?;
                write(&mut out, stepped, item)?;
            }
        }
    }
    Err(NoMemory)
}

/// A repair from its beginning to its end, or until it has written more steps than the fuel allows.
pub fn complete(alloc: Global, repair: Repair<'_>, fuel: u32) -> Result<Adjusted, NoMemory>
    ensures { IfOk result (λ a. Answered (code_of repair.entry) fuel (machine_in repair.entry) a) }
{
    let mut repair = repair;
    match turn_to_end(alloc, &mut repair, Limit::Written(fuel))? {
        None => Ok(Adjusted::OutOfFuel),
        Some(out) => Ok(Adjusted::Done {
            forest: Forest::new(out),
            work: repair.work(),
        }),
    }
}
