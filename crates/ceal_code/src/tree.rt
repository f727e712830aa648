// Whether a unit's body goes forward and is a tree.

ghost use Rattle.std.specs.Prelude.{◌≡◌, ◌<◌, ◌^◌, ◌∷◌, ◌&&◌, [], ℕ, Bool, List, true, false, Some, None};
ghost use Rattle.std.specs.Prelude.{if◌then◌else◌, slice_get, unwrap_or, IfOk};
ghost use Rattle.ceal_code.specs.Valid.{goes_forward, all_forward, reached, followers, all_followers, all_true};
ghost use Rattle.ceal_code.specs.Valid.{all_but_first, is_tree};

use crate::command::{Cmd, Followers};
use crate::paths::{no_flags, set_flag};
use ceal_base::no_memory::NoMemory;
use std::alloc::Global;

/// Whether the indices at which an `If` continues are after it.
fn goes_forward(command: &Cmd, index: usize) -> bool
    ensures { result ≡ goes_forward command.now index }
{
    match command {
        Cmd::Move { .. } => true,
        Cmd::Tick => true,
        Cmd::Alloc { .. } => true,
        Cmd::Modref { .. } => true,
        Cmd::Write { .. } => true,
        Cmd::If { yes, no, .. } => index < *yes as usize && index < *no as usize,
        Cmd::Done => true,
        Cmd::Tail { .. } => true,
        Cmd::Read { .. } => true,
        Cmd::Call { .. } => true,
    }
}

/// Whether each `If` of a body goes forward, on a path or not.
#[tactic(auto, using(crate::proofs::Equations::TreeSteps::forward_steps))]
pub fn do_all_go_forward(body: &[Cmd]) -> bool
    ensures { result ≡ all_forward body.now 0 }
{
    let mut rest = body;
    let mut index = 0;
    while let Some((command, more)) = rest.split_first() {
        if !goes_forward(command, index) {
            return false;
        }
        index += 1;
        rest = more;
    }
    true
}

fn is_marked(marks: &[bool], at: usize) -> bool
    ensures { result ≡ unwrap_or (slice_get marks.now at) true }
{
    marks.get(at).copied().unwrap_or(true)
}

/// Marks an index, and says whether it is there and was not marked.
#[tactic(auto, using(crate::proofs::Equations::TreeSteps::mark_steps))]
fn mark(marks: &mut Vec<bool>, at: usize) -> bool
    ensures { reached marks.old.items (at ∷ []) ≡ (if result then Some marks.new.items else None) }
{
    if is_marked(marks, at) {
        return false;
    }
    set_flag(marks, at);
    true
}

/// Marks both, and says whether both were there and not marked.
#[tactic(auto, using(crate::proofs::Equations::TreeSteps::mark_steps))]
fn mark_both(marks: &mut Vec<bool>, first: usize, second: usize) -> bool
    ensures { reached marks.old.items (first ∷ second ∷ [])
        ≡ (if result then Some marks.new.items else None) }
{
    if mark(marks, first) {
        mark(marks, second)
    } else {
        false
    }
}

/// Marks the indices at which a run may continue after a command.
#[tactic(auto, using(crate::proofs::Equations::TreeSteps::mark_steps))]
fn mark_followers(marks: &mut Vec<bool>, command: &Cmd, index: usize) -> bool
    requires room { index < 2 ^ 63 }
    ensures { reached marks.old.items (followers command.now index)
        ≡ (if result then Some marks.new.items else None) }
{
    match command.followers(index) {
        Followers::Nowhere => true,
        Followers::One(next) => mark(marks, next),
        Followers::Two(yes, no) => mark_both(marks, yes, no),
    }
}

#[tactic(auto, using(crate::proofs::Equations::TreeSteps::all_steps))]
fn are_all(flags: &[bool]) -> bool
    ensures { result ≡ all_true flags.now }
{
    let mut flags = flags;
    while let Some((flag, more)) = flags.split_first() {
        if !*flag {
            return false;
        }
        flags = more;
    }
    true
}

fn are_all_but_first(flags: &[bool]) -> bool
    ensures { result ≡ all_but_first (Some flags.now) }
{
    match flags {
        [] => false,
        [first, rest @ ..] => !*first && are_all(rest),
    }
}

/// Marks what is reached from the commands of a body, and says whether each index was there and not marked.
#[tactic(auto, using(crate::proofs::Equations::TreeSteps::walk_steps))]
fn mark_all(marks: &mut Vec<bool>, body: &[Cmd]) -> bool
    ensures { reached marks.old.items (all_followers body.now 0)
        ≡ (if result then Some marks.new.items else None) }
{
    let mut rest = body;
    let mut index = 0;
    while let Some((command, more)) = rest.split_first() {
        if !mark_followers(marks, command, index) {
            return false;
        }
        index += 1;
        rest = more;
    }
    true
}

/// Whether each index but 0 is reached from exactly one command.
#[tactic(auto, using(crate::proofs::Equations::TreeSteps::tree_steps))]
pub fn is_body_tree(alloc: Global, body: &[Cmd]) -> Result<bool, NoMemory>
    ensures exact { IfOk result (λ ok. ok ≡ is_tree body.now) }
{
    let mut marks = no_flags(alloc, body.len())?;
    if mark_all(&mut marks, body) {
        let ok = are_all_but_first(&marks);
        Ok(ok)
    } else {
        Ok(false)
    }
}
