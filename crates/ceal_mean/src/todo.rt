// What a frame has still to do.

ghost use Rattle.std.specs.Prelude.{◌≡◌, ◌≤◌, Some, [], ◌∷◌, ◌++◌, length, map, IfOk, OnOk, MatchOption};
ghost use Rattle.ceal_mean.specs.Frame.{Item, Do, Again};
ghost use Rattle.ceal_mean.specs.Jumps.{next_turn, ready, ready_after_turn};
ghost use Rattle.ceal_mean.specs.Todo.{joined, first_of};

use ceal_base::no_memory::NoMemory;
use ceal_base::typed::TypedStmt;

/// A part of what a frame has to do.
#[derive(Clone, Copy)]
pub enum Part<'a> {
    /// statements of a body
    Body(&'a [TypedStmt]),
    /// a `while`, which is done again
    Turn(&'a TypedStmt),
}

/// Puts statements before all that waits. None take no room, so that a loop may turn for ever.
#[tactic(auto, using(crate::proofs::TodoLemmas::joined_steps))]
pub fn put_first<'a>(parts: &mut Vec<Part<'a>>, body: &'a [TypedStmt]) -> Result<(), NoMemory>
    ensures state { OnOk result
        (joined parts.new.items ≡ map Do body.now ++ joined parts.old.items) }
{
    if body.is_empty() {
        return Ok(());
    }
    parts.push(Part::Body(body))?;
    Ok(())
}

/// Puts another turn of a `while` before all that waits.
#[tactic(auto, using(crate::proofs::TodoLemmas::joined_steps))]
pub fn put_turn<'a>(parts: &mut Vec<Part<'a>>, w: &'a TypedStmt) -> Result<(), NoMemory>
    ensures state { OnOk result (joined parts.new.items ≡ Again w.now ∷ joined parts.old.items) }
{
    parts.push(Part::Turn(w))?;
    Ok(())
}

/// Leaves out what is before the first loop, and takes that loop.
#[tactic(auto, using(crate::proofs::TodoLemmas::joined_steps))]
fn take_turn<'a>(parts: &mut Vec<Part<'a>>) -> Option<&'a TypedStmt>
    ensures taken { MatchOption result (next_turn (joined parts.old.items) ≡ [])
        (λ w. first_of (next_turn (joined parts.old.items))
        ≡ Some (record { stmt = w.now; rest = joined parts.new.items })) }
    ensures behind { ready (joined parts.new.items) ≡ ready_after_turn (joined parts.old.items) }
    ensures fewer { length parts.new.items ≤ length parts.old.items }
{
    while let Some(part) = parts.pop() {
        match part {
            Part::Turn(w) => return Some(w),
            Part::Body(_) => {}
        }
    }
    None
}

/// Takes the first statement that is a step, after all jumps are made that come before it.
#[tactic(auto, using(crate::proofs::TodoLemmas::joined_steps))]
pub fn take_first<'a>(parts: &mut Vec<Part<'a>>) -> Result<Option<&'a TypedStmt>, NoMemory>
    ensures taken { IfOk result
        (λ found. MatchOption found (ready (joined parts.old.items) ≡ [])
        (λ s. first_of (ready (joined parts.old.items))
        ≡ Some (record { stmt = s.now; rest = joined parts.new.items }))) }
{
    while let Some(part) = parts.pop() {
        let body = match part {
            Part::Turn(w) => return Ok(Some(w)),
            Part::Body(body) => body,
        };
        match body.split_first() {
            Some((first, rest)) => match first {
                TypedStmt::Return(_) => return Ok(None),
                TypedStmt::Break(_) => {
                    take_turn(parts);
                }
                TypedStmt::Continue(_) => return Ok(take_turn(parts)),
                _ => {
                    put_first(parts, rest)?;
                    return Ok(Some(first));
                }
            },
            None => {}
        }
    }
    Ok(None)
}
