// From the leaves of a body up: each move that nothing later uses becomes a step that does nothing.

ghost use Rattle.std.specs.Prelude.{◌≡◌, ◌<◌, ◌≤◌, ◌^◌, ◌||◌, ◌&&◌, not, ℕ, [], true, false, length, replicate};
ghost use Rattle.std.specs.Prelude.{slice_set, IfOk};
ghost use Rattle.ceal_code.specs.Valid.{followers, is_tree};
ghost use Rattle.ceal_fold.specs.Folding.{is_among, command_or_tick, uses, assigns, used_in, used_by, without_unused};
ghost use Rattle.ceal_fold.specs.States.{has, has_at};

use crate::uses::pass_back;
use crate::vars::Vars;
use ceal_base::no_memory::NoMemory;
use ceal_code::command::{Cmd, Followers};
use std::alloc::Global;
use std::mem;

fn no_sets(alloc: Global, n: usize) -> Result<Vec<Vars>, NoMemory>
    ensures { IfOk result (λ v. v.items ≡ replicate n []) }
{
    let mut sets = Vec::with_capacity(alloc, n)?;
    for i in 0..n {
        sets.push(Vars::new(alloc))?;
    }
    Ok(sets)
}

/// Takes the set at an index out, and leaves an empty one there.
#[tactic(auto, using(crate::proofs::UnusedSteps::take_steps), unfolding(crate::specs::States::has_at))]
fn take_set(alloc: Global, sets: &mut Vec<Vars>, at: usize) -> Vars
    ensures set { has result ≡ has_at sets.old.items at }
    ensures left { sets.new.items ≡ slice_set sets.old.items at [] }
{
    if at < sets.len() {
        mem::replace(&mut sets[at], Vars::new(alloc))
    } else {
        Vars::new(alloc)
    }
}

/// Takes out what is used from the followers of a command on.
#[tactic(auto, using(crate::proofs::UnusedSteps::later_steps))]
fn take_later(
    alloc: Global,
    sets: &mut Vec<Vars>,
    command: &Cmd,
    index: usize,
) -> Result<Vars, NoMemory>
    requires room { index < 2 ^ 63 }
    ensures value { IfOk result (λ vars. (u : ℕ) → has vars u
        ≡ used_in (has_at sets.old.items) (followers command.now index) u) }
    ensures length { IfOk result (λ _. length sets.new.items ≡ length sets.old.items) }
    ensures left { IfOk result (λ _. (j u : ℕ) → is_among j (followers command.now index) ≡ false
        → has_at sets.new.items j u ≡ has_at sets.old.items j u) }
{
    match command.followers(index) {
        Followers::Nowhere => Ok(Vars::new(alloc)),
        Followers::One(next) => Ok(take_set(alloc, sets, next)),
        Followers::Two(yes, no) => {
            let first = take_set(alloc, sets, yes);
            let second = take_set(alloc, sets, no);
            let both = first.joined(second)?;
            Ok(both)
        }
    }
}

/// The command, or a tick for a move of a variable that is not among these.
fn tick_unused(command: Cmd, later: &Vars) -> Cmd
    ensures value { result ≡ command_or_tick (has later.now) command }
{
    let is_unused = match &command {
        Cmd::Move { var, .. } => !later.has(*var),
        _ => false,
    };
    if is_unused {
        drop(command);
        Cmd::Tick
    } else {
        command
    }
}

fn put_set(sets: &mut Vec<Vars>, at: usize, set: Vars)
    requires there { at < length sets.old.items }
    ensures { sets.new.items ≡ slice_set sets.old.items at set }
{
    sets[at] = set;
}

/// Goes back over a command: from what is used after it to what is used from its index on.
fn put_back(sets: &mut Vec<Vars>, later: Vars, command: &Cmd, index: usize) -> Result<(), NoMemory>
    requires there { index < length sets.old.items }
    ensures length { IfOk result (λ _. length sets.new.items ≡ length sets.old.items) }
    ensures here { IfOk result (λ _. (u : ℕ) → has_at sets.new.items index u
        ≡ (uses command.now u || (not (assigns command.now u) && has later u))) }
    ensures left { IfOk result (λ _. (j u : ℕ) → (j ≡ index → ⊥)
        → has_at sets.new.items j u ≡ has_at sets.old.items j u) }
{
    let mut vars = later;
    pass_back(&mut vars, command)?;
    put_set(sets, index, vars);
    Ok(())
}

/// The command, ticked by what is used later; what is used from its index on is put there.
fn tick_before(
    sets: &mut Vec<Vars>,
    later: Vars,
    command: Cmd,
    index: usize,
) -> Result<Cmd, NoMemory>
    requires there { index < length sets.old.items }
    ensures command { IfOk result (λ c. c ≡ command_or_tick (has later) command) }
    ensures length { IfOk result (λ _. length sets.new.items ≡ length sets.old.items) }
    ensures here { IfOk result (λ c. (u : ℕ) → has_at sets.new.items index u
        ≡ (uses c u || (not (assigns c u) && has later u))) }
    ensures left { IfOk result (λ _. (j u : ℕ) → (j ≡ index → ⊥)
        → has_at sets.new.items j u ≡ has_at sets.old.items j u) }
{
    let command = tick_unused(command, &later);
    match put_back(sets, later, &command, index) {
        Ok(()) => Ok(command),
        Err(error) => {
            drop(command);
            Err(error)
        }
    }
}

/// The last command of those that are still to be gone over, at its index.
fn tick_at(alloc: Global, sets: &mut Vec<Vars>, command: Cmd, index: usize) -> Result<Cmd, NoMemory>
    requires there { index < length sets.old.items }
    requires room { index < 2 ^ 63 }
    ensures command { IfOk result
        (λ c. c
        ≡ command_or_tick (used_in (has_at sets.old.items) (followers command index)) command) }
    ensures length { IfOk result (λ c. length sets.new.items ≡ length sets.old.items) }
    ensures here { IfOk result
        (λ c. (u : ℕ) → has_at sets.new.items index u ≡ used_by (has_at sets.old.items) c index u) }
    ensures left { IfOk result
        (λ c. (j u : ℕ) → (j ≡ index → ⊥) → is_among j (followers command index) ≡ false
        → has_at sets.new.items j u ≡ has_at sets.old.items j u) }
{
    match take_later(alloc, sets, &command, index) {
        Ok(later) => {
            let command = tick_before(sets, later, command, index)?;
            Ok(command)
        }
        Err(error) => {
            drop(command);
            Err(error)
        }
    }
}

/// The commands of a body, each move that nothing later uses a tick.
#[tactic(auto, using(crate::proofs::UnusedSteps::walk_steps))]
pub fn tick_all(alloc: Global, body: Vec<Cmd>) -> Result<Vec<Cmd>, NoMemory>
    requires tree { is_tree body.items ≡ true }
    ensures value { IfOk result (λ done. done.items ≡ without_unused 0 body.items) }
{
    let mut sets = no_sets(alloc, body.len())?;
    let mut left = body;
    let mut done = Vec::with_capacity(alloc, left.len())?;
    while let Some(command) = left.pop() {
        let command = tick_at(alloc, &mut sets, command, left.len())?;
        done.push(command)?;
    }
    done.reverse();
    Ok(done)
}
