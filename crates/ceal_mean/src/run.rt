// A run of a program from nothing.

ghost use Rattle.std.specs.Prelude.{◌≡◌, ◌<◌, ◌≤◌, ◌+◌, ◌^◌, ⊤, Some, None, true, false, if◌then◌else◌, [], length};
ghost use Rattle.std.specs.Prelude.{reverse, IfOk, OnOk, MatchOption};
ghost use Rattle.ceal_mean.specs.Exec.{frames_to_run, frames_at_entry};
ghost use Rattle.ceal_mean.specs.Fresh.{fresh, outcome_of, start};
ghost use Rattle.ceal_mean.specs.Steps.{begun, advanced};

use crate::activation::{Activation, enter};
use crate::machine::{Machine, act};
use ceal_base::memory::{Inputs, Memory};
use ceal_base::no_memory::NoMemory;
use ceal_base::typed::{Typed, TypedStmt};
use ceal_base::word::Word;
use std::alloc::Global;

/// What a run comes to.
#[derive(Drop)]
pub enum Outcome {
    /// the memory at its end, how many steps it took, and how many core blocks it made
    Done {
        memory: Memory,
        steps: u32,
        blocks: u32,
    },
    /// it needs more steps than the fuel allows
    OutOfFuel,
}

/// Takes the next statement that is a step, after all frames are gone that are over.
#[tactic(auto, using(crate::proofs::FrameLemmas::frame_steps))]
fn next_of<'a>(frames: &mut Vec<Activation<'a>>) -> Result<Option<&'a TypedStmt>, NoMemory>
    ensures some { IfOk result
        (λ found. MatchOption found (frames_to_run (reverse frames.old.items) ≡ [])
        (λ s. begun (frames_to_run (reverse frames.old.items))
        ≡ Some (record { stmt = s.now; frames = reverse frames.new.items }))) }
    ensures there { IfOk result
        (λ found. MatchOption found (frames.new.items ≡ []) (λ s. 0 < length frames.new.items)) }
{
    while let Some(frame) = frames.pop() {
        let mut frame = frame;
        match frame.take()? {
            None => {}
            Some(s) => {
                frames.push(frame)?;
                return Ok(Some(s));
            }
        }
    }
    Ok(None)
}

/// Does one step, if a frame is left.
#[tactic(auto, using(crate::proofs::FrameLemmas::frame_steps))]
fn step<'a>(
    machine: &Machine<'a>,
    memory: &mut Memory,
    frames: &mut Vec<Activation<'a>>,
) -> Result<bool, NoMemory>
    requires { length memory.old.made < 2 ^ 32 }
    ensures grows { length memory.new.made ≤ length memory.old.made + 1 }
    ensures advanced { IfOk result
        (λ more. advanced machine.now.program.now memory.old
        (frames_to_run (reverse frames.old.items))
        ≡ (if more then Some
        (record { memory = memory.new; frames = reverse frames.new.items }) else None)) }
    ensures over { IfOk result (λ more. more ≡ false → memory.new ≡ memory.old) }
{
    let Some(s) = next_of(frames)? else {
        return Ok(false);
    };
    let Some(frame) = frames.pop() else {
        unreachable!();
    };
    let mut frame = frame;
    match act(machine, memory, &mut frame, s)? {
        None => {
            frames.push(frame)?;
            Ok(true)
        }
        Some(called) => {
            frames.push(frame)?;
            frames.push(called)?;
            Ok(true)
        }
    }
}

fn done(memory: Memory, steps: u32) -> Outcome
    requires { length memory.made ≤ steps }
    ensures { result
        ≡ outcome_of
        (Some (record { memory = memory; steps = steps; blocks = length memory.made })) }
{
    let blocks = memory.items().len() as u32;
    Outcome::Done {
        memory,
        steps,
        blocks,
    }
}

/// The frames with which a function begins.
fn first_frames<'a>(
    alloc: Global,
    program: &'a Typed,
    function: u32,
    args: &[Word],
) -> Result<Vec<Activation<'a>>, NoMemory>
    ensures { IfOk result
        (λ frames. reverse frames.items ≡ frames_at_entry program.now function args.now) }
{
    let mut frames = Vec::new(alloc);
    let words = Vec::from_slice(alloc, args)?;
    if let Some(frame) = enter(alloc, program, function, words)? {
        frames.push(frame)?;
    }
    Ok(frames)
}

/// Runs the core function of this number on these inputs from nothing. A run that needs more than `fuel` steps is
/// out of fuel. Arguments and inputs should fit the function's parameters and the structs; nothing fails where they
/// do not.
pub fn interpret(
    alloc: Global,
    program: &Typed,
    function: u32,
    args: &[Word],
    inputs: &Inputs,
    fuel: u32,
) -> Result<Outcome, NoMemory>
    ensures outcome { IfOk result
        (λ outcome. outcome ≡ outcome_of (fresh program.now function args.now inputs.now fuel)) }
{
    let mut memory = Memory::new(inputs.copy()?, Vec::new(alloc));
    let mut frames = first_frames(alloc, program, function, args)?;
    let machine = Machine { alloc, program };
    for steps in 0..fuel {
        let more = step(&machine, &mut memory, &mut frames)?;
        if !more {
            return Ok(done(memory, steps));
        }
    }
    match next_of(&mut frames)? {
        None => Ok(done(memory, fuel)),
        Some(_) => Ok(Outcome::OutOfFuel),
    }
}
