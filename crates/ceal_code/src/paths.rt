// The paths of a unit's body: an explicit stack of those that have still to be followed.

ghost use Rattle.std.specs.Prelude.{◌≡◌, ◌≤◌, ◌<◌, ◌+◌, ◌-◌, ◌&&◌, ◌∷◌, [], ◌++◌, ℕ, Bool, List, true, false, length};
ghost use Rattle.std.specs.Prelude.{replicate, slice_get, slice_set, IfOk};
ghost use Rattle.ceal_code.specs.Parts.{parts_ok, weight, weights};
ghost use Rattle.ceal_code.specs.Step.{kinds_of};
ghost use Rattle.ceal_code.specs.Valid.{paths_ok, path_ok, onward, with_params};

use crate::check::is_command_ok;
use crate::code::Code;
use crate::command::Cmd;
use crate::expr::VarId;
use ceal_base::no_memory::NoMemory;
use std::alloc::Global;

/// A path that has still to be followed: the index of its first command, which variables are known there, whether a
/// command before it takes a step, and how many commands it may have.
#[derive(Drop)]
pub struct Part {
    pub index: usize,
    pub known: Vec<bool>,
    pub stepped: bool,
    pub left: usize,
}

/// Sets a flag, if it is there.
pub fn set_flag(flags: &mut Vec<bool>, at: usize)
    ensures { flags.new.items ≡ slice_set flags.old.items at true }
{
    if at < flags.len() {
        flags[at] = true;
    }
}

fn learn(known: &mut Vec<bool>, v: VarId)
    ensures { known.new.items ≡ slice_set known.old.items v.0 true }
{
    set_flag(known, v.0 as usize);
}

/// A list of `n` flags that are not set.
pub fn no_flags(alloc: Global, n: usize) -> Result<Vec<bool>, NoMemory>
    ensures { IfOk result (λ v. v.items ≡ replicate n false) }
{
    let mut flags = Vec::new(alloc);
    for i in 0..n {
        flags.push(false)?;
    }
    Ok(flags)
}

/// Which variables are known at the beginning of a unit, of all variables of its function.
#[tactic(auto, using(crate::proofs::Equations::PathSteps::known_steps))]
fn known_params(alloc: Global, n: usize, params: &[VarId]) -> Result<Vec<bool>, NoMemory>
    ensures { IfOk result (λ v. v.items ≡ with_params (replicate n false) params.now) }
{
    let mut known = no_flags(alloc, n)?;
    let mut params = params;
    while let Some((p, more)) = params.split_first() {
        learn(&mut known, *p);
        params = more;
    }
    Ok(known)
}

/// A body whose paths are gone down, with its function and the code that they are a part of.
#[derive(Drop)]
struct Body<'a> {
    code: &'a Code,
    function: u32,
    commands: &'a [Cmd],
}

/// Puts the path that continues at an index.
#[tactic(auto, using(crate::proofs::Equations::PathSteps::part_steps))]
fn put(
    body: &Body<'_>,
    parts: &mut Vec<Part>,
    index: usize,
    known: Vec<bool>,
    left: usize,
) -> Result<(), NoMemory>
    ensures paths { IfOk result (λ _.
        parts_ok body.now.code.now body.now.function body.now.commands.now parts.new.items
        ≡ (paths_ok body.now.code.now body.now.function body.now.commands.now
        left index known.items true
        && parts_ok body.now.code.now body.now.function body.now.commands.now parts.old.items)) }
    ensures heavier { IfOk result
        (λ _. weights parts.new.items ≡ weight left + weights parts.old.items) }
{
    parts.push(Part {
        index,
        known,
        stepped: true,
        left,
    })?;
    Ok(())
}

/// Puts what follows a command.
#[tactic(auto, using(crate::proofs::Equations::PathSteps::part_steps))]
fn go_on(body: &Body<'_>, command: &Cmd, part: Part, parts: &mut Vec<Part>) -> Result<(), NoMemory>
    requires some { 0 < part.left }
    requires there { part.index < length body.now.commands.now }
    ensures paths { IfOk result (λ _.
        parts_ok body.now.code.now body.now.function body.now.commands.now parts.new.items
        ≡ (onward
        (paths_ok body.now.code.now body.now.function body.now.commands.now (part.left - 1))
        command.now part.index
        part.known.items
        && parts_ok body.now.code.now body.now.function body.now.commands.now parts.old.items)) }
    ensures lighter { IfOk result
        (λ _. weights parts.new.items + 1 ≤ weights parts.old.items + weight part.left) }
{
    let Part {
        index,
        mut known,
        left,
        ..
    } = part;
    let left = left - 1;
    match command {
        Cmd::Move { var, .. } => {
            learn(&mut known, *var);
            put(body, parts, index + 1, known, left)
        }
        Cmd::Tick => put(body, parts, index + 1, known, left),
        Cmd::Alloc { var, .. } => {
            learn(&mut known, *var);
            put(body, parts, index + 1, known, left)
        }
        Cmd::Modref { var, .. } => {
            learn(&mut known, *var);
            put(body, parts, index + 1, known, left)
        }
        Cmd::Write { .. } => put(body, parts, index + 1, known, left),
        Cmd::If { yes, no, .. } => {
            let others = known.clone()?;
            put(body, parts, *no as usize, others, left)?;
            put(body, parts, *yes as usize, known, left)
        }
        Cmd::Done => Ok(()),
        Cmd::Tail { .. } => Ok(()),
        Cmd::Read { .. } => Ok(()),
        Cmd::Call { .. } => Ok(()),
    }
}

/// Goes over a command that is there.
#[tactic(auto, using(crate::proofs::Equations::PathSteps::weight_steps))]
fn pass(body: &Body<'_>, part: Part, parts: &mut Vec<Part>) -> Result<bool, NoMemory>
    requires some { 0 < part.left }
    ensures paths { IfOk result (λ ok.
        (ok && parts_ok body.now.code.now body.now.function body.now.commands.now parts.new.items)
        ≡ (path_ok body.now.code.now body.now.function
        (paths_ok body.now.code.now body.now.function body.now.commands.now (part.left - 1))
        (slice_get body.now.commands.now part.index)
        part.index part.known.items part.stepped
        && parts_ok body.now.code.now body.now.function body.now.commands.now parts.old.items)) }
    ensures lighter { IfOk result
        (λ _. weights parts.new.items + 1 ≤ weights parts.old.items + weight part.left) }
{
    match body.commands.get(part.index) {
        None => Ok(false),
        Some(command) => {
            if is_command_ok(body.code, body.function, &part.known, part.stepped, command) {
                go_on(body, command, part, parts)?;
                Ok(true)
            } else {
                Ok(false)
            }
        }
    }
}

/// Goes over the first command of a path, and puts what follows it.
#[tactic(auto, using(crate::proofs::Equations::PathSteps::path_steps))]
fn step(body: &Body<'_>, part: Part, parts: &mut Vec<Part>) -> Result<bool, NoMemory>
    ensures paths { IfOk result (λ ok.
        (ok && parts_ok body.now.code.now body.now.function body.now.commands.now parts.new.items)
        ≡ (paths_ok body.now.code.now body.now.function body.now.commands.now
        part.left part.index part.known.items part.stepped
        && parts_ok body.now.code.now body.now.function body.now.commands.now parts.old.items)) }
    ensures lighter { IfOk result
        (λ _. weights parts.new.items + 1 ≤ weights parts.old.items + weight part.left) }
{
    if part.left == 0 {
        return Ok(false);
    }
    let ok = pass(body, part, parts)?;
    Ok(ok)
}

/// Whether each path of a unit's body is right.
#[tactic(auto, using(crate::proofs::Equations::PathSteps::walk_steps))]
pub fn are_paths_ok(
    alloc: Global,
    code: &Code,
    f: u32,
    params: &[VarId],
    body: &[Cmd],
) -> Result<bool, NoMemory>
    ensures exact { IfOk result (λ ok. ok ≡ paths_ok code.now f body.now (length body.now) 0
        (with_params (replicate (length (kinds_of code.now f)) false) params.now) false) }
{
    let known = known_params(alloc, code.kinds_of(f).len(), params)?;
    let mut parts = Vec::new(alloc);
    parts.push(Part {
        index: 0,
        known,
        stepped: false,
        left: body.len(),
    })?;
    let whole = Body {
        code,
        function: f,
        commands: body,
    };
    while let Some(part) = parts.pop() {
        if !step(&whole, part, &mut parts)? {
            return Ok(false);
        }
    }
    Ok(true)
}
