// Whole programs, with the numbers that the language's description gives for them.

use crate::asserts::equal;
use ceal_base::access::content;
use ceal_base::typed::Typed;
use ceal_base::word::{BlockId, Word};
use ceal_mean::run::{Outcome, interpret};
use ceal_samples::inputs::{at, list, numbers, operators, place};
use ceal_samples::programs::{DEEP, INC, LOOP, MAP, compiled, eval};
use std::alloc::Global;
use std::process::Abort;
use std::test::Fail;

/// The steps and the core blocks of a finished run.
fn counts(outcome: &Outcome) -> Option<(u32, u32)> {
    match outcome {
        Outcome::Done { steps, blocks, .. } => Some((*steps, *blocks)),
        Outcome::OutOfFuel => None,
    }
}

/// The content of a modifiable after a finished run.
fn content_after(outcome: &Outcome, at: Word) -> Option<Word> {
    match outcome {
        Outcome::Done { memory, .. } => Some(content(memory, at, Word::Null)),
        Outcome::OutOfFuel => None,
    }
}

/// A finished run has these steps and core blocks, and leaves this content at a place.
fn ends<R: Abort>(rt: &R, outcome: &Outcome, taken: (u32, u32), at: Word, value: Word) {
    equal(rt, counts(outcome), Some(taken));
    equal(rt, content_after(outcome, at), Some(value));
}

/// Runs the first function on two modifiables with these numbers.
fn of_numbers<R: Abort>(
    rt: &R,
    alloc: Global,
    program: &Typed,
    list: &[i64],
    fuel: u32,
) -> Outcome {
    let inputs = numbers(alloc, list).expect(rt, "memory");
    let outcome = interpret(alloc, program, 0, &[at(0), at(1)], &inputs, fuel);
    drop(inputs);
    outcome.expect(rt, "memory")
}

fn increments<R: Abort>(rt: &R, alloc: Global, program: &Typed) {
    let done = of_numbers(rt, alloc, program, &[4, 0], 2);
    ends(rt, &done, (2, 0), at(1), Word::Num(5));
    drop(done);
    let short = of_numbers(rt, alloc, program, &[4, 0], 1);
    equal(rt, counts(&short), None);
    drop(short);
}

fn counts_down<R: Abort>(rt: &R, alloc: Global, program: &Typed) {
    let done = of_numbers(rt, alloc, program, &[3, 0], 1000);
    ends(rt, &done, (9, 0), at(1), Word::Num(7));
    drop(done);
}

#[test]
fn reads_and_loops_take_their_steps(rt: HostRuntime) -> Result<(), Fail> {
    let program = compiled(rt.alloc(), INC)?;
    increments(&rt, rt.alloc(), &program.typed);
    drop(program);
    let program = compiled(rt.alloc(), LOOP)?;
    counts_down(&rt, rt.alloc(), &program.typed);
    drop(program);
    Ok(())
}

/// Maps the list of 1, 2 and 3.
fn mapped<R: Abort>(rt: &R, alloc: Global, program: &Typed) -> Outcome {
    let inputs = list(alloc, &[1, 2, 3]).expect(rt, "memory");
    let outcome = interpret(alloc, program, 1, &[at(0), at(1)], &inputs, 18);
    drop(inputs);
    outcome.expect(rt, "memory")
}

/// The heads of the image are 10, 20 and 30.
fn has_the_image<R: Abort>(rt: &R, outcome: &Outcome) {
    for n in 0..3 {
        let head = content_after(outcome, place(BlockId::Core(n), 0));
        equal(rt, head, Some(Word::Num(10 * (i64::from(n) + 1))));
    }
}

fn maps<R: Abort>(rt: &R, alloc: Global, program: &Typed) {
    let done = mapped(rt, alloc, program);
    ends(rt, &done, (18, 3), at(1), Word::Block(BlockId::Core(0)));
    has_the_image(rt, &done);
    drop(done);
}

#[test]
fn a_list_of_three_cells_is_mapped(rt: HostRuntime) -> Result<(), Fail> {
    let program = compiled(rt.alloc(), MAP)?;
    maps(&rt, rt.alloc(), &program.typed);
    drop(program);
    Ok(())
}

fn evaluated<R: Abort>(rt: &R, alloc: Global, program: &Typed) -> Outcome {
    let inputs = operators(alloc).expect(rt, "memory");
    let outcome = interpret(alloc, program, 0, &[at(10), at(11)], &inputs, 102);
    drop(inputs);
    outcome.expect(rt, "memory")
}

fn evaluates<R: Abort>(rt: &R, alloc: Global, program: &Typed) {
    let done = evaluated(rt, alloc, program);
    ends(rt, &done, (102, 10), at(11), Word::Num(-12));
    drop(done);
}

#[test]
fn a_tree_of_operators_is_evaluated(rt: HostRuntime) -> Result<(), Fail> {
    let source = eval(rt.alloc())?;
    let program = compiled(rt.alloc(), source.items())?;
    drop(source);
    evaluates(&rt, rt.alloc(), &program.typed);
    drop(program);
    Ok(())
}

fn nested<R: Abort>(rt: &R, alloc: Global, program: &Typed) -> Outcome {
    let inputs = numbers(alloc, &[0]).expect(rt, "memory");
    let args = [Word::Num(333332), at(0)];
    let outcome = interpret(alloc, program, 0, &args, &inputs, 1000000);
    drop(inputs);
    outcome.expect(rt, "memory")
}

fn nests<R: Abort>(rt: &R, alloc: Global, program: &Typed) {
    let done = nested(rt, alloc, program);
    ends(rt, &done, (999998, 0), at(0), Word::Num(333332));
    drop(done);
}

#[test]
fn calls_nest_without_the_host_stack(rt: HostRuntime) -> Result<(), Fail> {
    let program = compiled(rt.alloc(), DEEP)?;
    nests(&rt, rt.alloc(), &program.typed);
    drop(program);
    Ok(())
}
