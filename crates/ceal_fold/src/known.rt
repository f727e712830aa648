// What is known of variables at a point of a path.

ghost use Rattle.std.specs.Prelude.{◌≡◌, ◌==◌, ◌<◌, ◌≤◌, ℕ, [], Some, if◌then◌else◌, IfOk};
ghost use Rattle.ceal_fold.specs.Folding.{copies_with, copy_without, copies_after};
ghost use Rattle.ceal_fold.specs.States.{last_of, time, lasting_copy, copy_at};

use crate::copies::{Copied, copy_by_move};
use crate::shared::Shared;
use ceal_base::no_memory::NoMemory;
use ceal_code::command::Cmd;
use ceal_code::expr::VarId;
use std::alloc::Global;
use std::marker::Model;

/// The last assignment of a variable: when it was, and what it made the variable a copy of.
#[derive(Clone, Copy, PartialEq, Eq, Debug)]
pub struct Assigned {
    pub at: usize,
    pub copy: Option<Copied>,
}

/// The last assignment of each variable on a path. Times rise along a path, so a copy is known to be over where its
/// source was assigned after it, and an assignment takes no copy out. Paths that part share what they know until one of
/// them assigns.
#[derive(Drop)]
pub struct Known {
    alloc: Global,
    shared: Option<Shared>,
}

impl Model for Known {
    ghost use Rattle.std.specs.Prelude.{ℕ, List, [], unwrap_or};
    ghost use Rattle.ceal_fold.specs.declared.known.Assigned.{Assigned};

    ghost Value = { List (ℕ × List (ℕ × Assigned)) };

    ghost view = { λ k. unwrap_or k.shared [] };
}

/// Only one assignment.
fn begun(alloc: Global, v: VarId, last: Assigned) -> Result<Shared, NoMemory>
    ensures value { IfOk result (λ shared. (u : ℕ) → last_of shared u
        ≡ (if u == v.0 then Some last else last_of [] u)) }
{
    let mut shared = Shared::new(alloc)?;
    shared.put(alloc, v.0, last)?;
    Ok(shared)
}

impl Known {
    /// Nothing is known of any variable.
    pub fn new(alloc: Global) -> Known
        ensures { result ≡ [] }
    {
        Known {
            alloc,
            shared: None,
        }
    }

    #[tactic(auto, unfolding(crate::specs::States::last_of))]
    fn last(&self, v: VarId) -> Option<Assigned>
        ensures value { result ≡ last_of self.now v.0 }
    {
        match &self.shared {
            None => None,
            Some(shared) => shared.last(v.0),
        }
    }

    fn time_of(&self, v: VarId) -> usize
        ensures value { result ≡ time (last_of self.now v.0) }
    {
        match self.last(v) {
            None => 0,
            Some(a) => a.at,
        }
    }

    fn left_of(&self, a: Assigned) -> Option<Copied>
        ensures value { result ≡ lasting_copy (last_of self.now) a.at a.copy }
    {
        match a.copy {
            None => None,
            Some(Copied::Num(n)) => Some(Copied::Num(n)),
            Some(Copied::Null) => Some(Copied::Null),
            Some(Copied::Var(w)) => {
                if self.time_of(w) < a.at {
                    Some(Copied::Var(w))
                } else {
                    None
                }
            }
        }
    }

    /// What the variable is a copy of.
    #[tactic(auto, unfolding(crate::specs::States::copy_at))]
    pub fn copy_of(&self, v: VarId) -> Option<Copied>
        ensures value { result ≡ copy_at self.now v.0 }
    {
        match self.last(v) {
            None => None,
            Some(a) => self.left_of(a),
        }
    }

    /// The same for one path more. It takes the same time whatever is known.
    pub fn copy(&self) -> Result<Known, NoMemory>
        ensures equal { IfOk result (λ copy. copy ≡ self.now) }
    {
        match &self.shared {
            None => Ok(Known::new(self.alloc)),
            Some(shared) => {
                let shared = shared.share()?;
                Ok(Known {
                    alloc: self.alloc,
                    shared: Some(shared),
                })
            }
        }
    }

    /// Goes over an assignment to a variable, which makes it this copy.
    fn assign(&mut self, v: VarId, at: usize, copy: Option<Copied>) -> Result<(), NoMemory>
        requires earlier { (u : ℕ) → time (last_of self.old u) < at }
        requires other { copy_without v.0 copy ≡ copy }
        ensures value { IfOk result
            (λ _. copy_at self.new ≡ copies_with (copy_at self.old) v.0 copy) }
        ensures times { IfOk result (λ _. (u : ℕ) → time (last_of self.new u) ≤ at) }
    {
        let alloc = self.alloc;
        let last = Assigned { at, copy };
        match &mut self.shared {
            Some(shared) => {
                shared.put(alloc, v.0, last)?;
                Ok(())
            }
            None => {
                self.shared = Some(begun(alloc, v, last)?);
                Ok(())
            }
        }
    }

    /// Goes over a command at a time.
    #[tactic(auto, using(crate::proofs::KnownSteps::pass_steps))]
    pub fn pass(&mut self, command: &Cmd, at: usize) -> Result<(), NoMemory>
        requires earlier { (u : ℕ) → time (last_of self.old u) < at }
        ensures value { IfOk result
            (λ _. copy_at self.new ≡ copies_after (copy_at self.old) command.now) }
        ensures times { IfOk result (λ _. (u : ℕ) → time (last_of self.new u) ≤ at) }
    {
        match command {
            Cmd::Move { var, value } => {
                let copy = copy_by_move(*var, value);
                self.assign(*var, at, copy)?;
                Ok(())
            }
            Cmd::Alloc { var, .. } => {
                self.assign(*var, at, None)?;
                Ok(())
            }
            Cmd::Modref { var, .. } => {
                self.assign(*var, at, None)?;
                Ok(())
            }
            Cmd::Tick => Ok(()),
            Cmd::Write { .. } => Ok(()),
            Cmd::If { .. } => Ok(()),
            Cmd::Done => Ok(()),
            Cmd::Tail { .. } => Ok(()),
            Cmd::Read { .. } => Ok(()),
            Cmd::Call { .. } => Ok(()),
        }
    }
}
