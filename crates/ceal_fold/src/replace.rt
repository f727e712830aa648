// From the root of a body down: each command with its expressions folded.

ghost use Rattle.std.specs.Prelude.{◌≡◌, ◌<◌, ◌+◌, ◌^◌, ℕ, [], length, slice_get, slice_set, replicate, if◌then◌else◌};
ghost use Rattle.std.specs.Prelude.{IfOk};
ghost use Rattle.ceal_code.specs.Valid.{followers};
ghost use Rattle.ceal_fold.specs.Folding.{at_root, copies_after, is_among, folded_command, copies_past};
ghost use Rattle.ceal_fold.specs.Folding.{folded_commands};
ghost use Rattle.ceal_fold.specs.States.{last_of, time, copy_at, state_at, copies_at, Until, AllUntil};

use crate::expr::fold_command;
use crate::known::Known;
use ceal_base::no_memory::NoMemory;
use ceal_base::typed::StructInfo;
use ceal_code::command::{Cmd, Followers};
use std::alloc::Global;
use std::mem;

fn no_states(alloc: Global, n: usize) -> Result<Vec<Known>, NoMemory>
    ensures { IfOk result (λ v. v.items ≡ replicate n []) }
{
    let mut states = Vec::with_capacity(alloc, n)?;
    for i in 0..n {
        states.push(Known::new(alloc))?;
    }
    Ok(states)
}

/// Takes the state at an index out, and leaves an empty one there.
#[tactic(auto, using(crate::proofs::ReplaceSteps::take_steps), unfolding(crate::specs::States::state_at))]
fn take_state(alloc: Global, states: &mut Vec<Known>, at: usize) -> Known
    requires there { at < length states.old.items }
    ensures state { result ≡ state_at states.old.items at }
    ensures left { states.new.items ≡ slice_set states.old.items at [] }
{
    mem::replace(&mut states[at], Known::new(alloc))
}

/// Hands a state to an index, if it is there.
fn hand(states: &mut Vec<Known>, at: usize, state: Known)
    ensures { states.new.items ≡ slice_set states.old.items at state }
{
    if at < states.len() {
        states[at] = state;
    }
}

/// Hands a state to the followers of a command.
#[tactic(auto, using(crate::proofs::ReplaceSteps::hand_steps))]
fn hand_on(
    states: &mut Vec<Known>,
    state: Known,
    command: &Cmd,
    index: usize,
) -> Result<(), NoMemory>
    requires room { index < 2 ^ 63 }
    requires state { Until (index + 1) state }
    requires earlier { AllUntil (index + 1) states.old.items }
    ensures times { IfOk result (λ _. AllUntil (index + 1) states.new.items) }
    ensures length { IfOk result (λ _. length states.new.items ≡ length states.old.items) }
    ensures value { IfOk result
        (λ _. (j : ℕ) → j < length states.old.items → copies_at states.new.items j
        ≡ (if is_among j (followers command.now index) then copy_at state
        else copies_at states.old.items j)) }
{
    match command.followers(index) {
        Followers::Nowhere => Ok(()),
        Followers::One(next) => {
            hand(states, next, state);
            Ok(())
        }
        Followers::Two(yes, no) => {
            let other = state.copy()?;
            hand(states, yes, other);
            hand(states, no, state);
            Ok(())
        }
    }
}

/// Goes over a command, and hands what is known after it to its followers.
fn pass_on(
    states: &mut Vec<Known>,
    known: Known,
    command: &Cmd,
    index: usize,
) -> Result<(), NoMemory>
    requires room { index < 2 ^ 63 }
    requires state { (u : ℕ) → time (last_of known u) < index + 1 }
    requires earlier { AllUntil (index + 1) states.old.items }
    ensures times { IfOk result (λ _. AllUntil (index + 1) states.new.items) }
    ensures length { IfOk result (λ _. length states.new.items ≡ length states.old.items) }
    ensures value { IfOk result
        (λ _. (j : ℕ) → j < length states.old.items → copies_at states.new.items j
        ≡ (if is_among j (followers command.now index)
        then copies_after (copy_at known) command.now else copies_at states.old.items j)) }
{
    let mut known = known;
    known.pass(command, index + 1)?;
    hand_on(states, known, command, index)?;
    Ok(())
}

/// Folds the command at an index, and hands what is known after it to its followers.
fn replace_at(
    alloc: Global,
    structs: &[StructInfo],
    states: &mut Vec<Known>,
    command: &Cmd,
    index: usize,
) -> Result<Cmd, NoMemory>
    requires there { index < length states.old.items }
    requires room { index < 2 ^ 63 }
    requires earlier { AllUntil index states.old.items }
    ensures times { IfOk result (λ c. AllUntil (index + 1) states.new.items) }
    ensures command { IfOk result
        (λ c. c ≡ folded_command structs.now (copies_at states.old.items index) command.now) }
    ensures length { IfOk result (λ c. length states.new.items ≡ length states.old.items) }
    ensures handed { IfOk result (λ c. (j : ℕ) → index < j → j < length states.old.items
        → copies_at states.new.items j ≡ copies_past (copies_at states.old.items) index c j) }
{
    let known = take_state(alloc, states, index);
    let command = fold_command(alloc, structs, &known, command)?;
    match pass_on(states, known, &command, index) {
        Ok(()) => Ok(command),
        Err(error) => {
            drop(command);
            Err(error)
        }
    }
}

/// The commands of a body, each with its expressions folded.
#[tactic(auto, using(crate::proofs::ReplaceSteps::walk_steps))]
pub fn replace_all(
    alloc: Global,
    structs: &[StructInfo],
    body: &[Cmd],
) -> Result<Vec<Cmd>, NoMemory>
    ensures value { IfOk result
        (λ done. done.items ≡ folded_commands structs.now at_root 0 body.now) }
{
    let mut states = no_states(alloc, body.len())?;
    let mut done = Vec::with_capacity(alloc, body.len())?;
    let mut rest = body;
    let mut index = 0;
    while let Some((command, more)) = rest.split_first() {
        let command = replace_at(alloc, structs, &mut states, command, index)?;
        done.push(command)?;
        index += 1;
        rest = more;
    }
    Ok(done)
}
