// Programs are run, their inputs are edited, and the traces are repaired. The expected traces are in `wanted`.

use crate::asserts::{equal, holds};
use crate::edits::repaired;
use crate::side_by_side::beside;
use crate::wanted::{
    BOTH_WRITES, DELETED, EDITED_INCREMENT, EDITED_INSIDE, EQUAL_HEADS, FIRST_BOX, FIRST_WRITE,
    HEADS, INCREMENT, INSERTED, MAPPED, SAME_INCREMENT, SECOND_BOX,
};
use ceal_adjust::adjust::Adjusted;
use ceal_base::kind::Shape;
use ceal_base::memory::Inputs;
use ceal_base::no_memory::NoMemory;
use ceal_base::word::Word;
use ceal_samples::inputs::{add, at, input, list, numbers};
use ceal_samples::programs::{BOX, CONDITIONAL, INC, MAP, MAP_NUMBERS, compiled};
use ceal_samples::told::told_with_work;
use std::alloc::{AllocError, Global};
use std::process::Abort;
use std::test::Fail;

/// The texts of a first trace, and of its repair after an edit.
#[derive(Drop)]
struct Texts {
    first: String,
    second: String,
}

/// The items and the work, or that it is out of fuel.
fn answer(alloc: Global, answer: &Adjusted) -> Result<String, AllocError> {
    match answer {
        Adjusted::Done { forest, work } => told_with_work(alloc, forest.items(), *work),
        Adjusted::OutOfFuel => String::from_str(alloc, "out of fuel\n"),
    }
}

/// The texts of a first trace, and of its repair.
fn answers(alloc: Global, first: &Adjusted, second: &Adjusted) -> Result<Texts, AllocError> {
    let first = answer(alloc, first)?;
    let second = answer(alloc, second)?;
    Ok(Texts { first, second })
}

/// The texts, where an engine has the work of the repair.
fn checked(
    texts: Result<Texts, AllocError>,
    same: Result<bool, Fail>,
) -> Result<Option<Texts>, Fail> {
    if !same? {
        return Err(Fail::from("the engine has another work"));
    }
    Ok(Some(texts?))
}

/// The texts of the first trace of a call, and of its repair after an edit; None where the call may not be run, or
/// the edit is none. An engine that is driven through the same has the same work.
fn story(
    alloc: Global,
    source: &[u8],
    function: u32,
    args: &[Word],
    before: &Inputs,
    after: &Inputs,
    fuel: u32,
) -> Result<Option<Texts>, Fail> {
    let program = compiled(alloc, source)?;
    let repaired = repaired(alloc, &program.code, function, args, before, after, fuel);
    drop(program);
    match repaired? {
        None => Ok(None),
        Some((first, second)) => {
            let call = (function, args);
            let same = beside(alloc, (source, fuel), call, (before, after), &second);
            let story = answers(alloc, &first, &second);
            drop(first);
            drop(second);
            checked(story, same)
        }
    }
}

/// The story has these texts.
fn tells<R: Abort>(rt: &R, story: Option<Texts>, first: &str, second: &str) {
    match &story {
        Some(story) => {
            equal(rt, story.first.as_str(), first);
            equal(rt, story.second.as_str(), second);
        }
        None => panic!(rt; "it may not be run"),
    }
    drop(story);
}

/// The story of INC on 4 and 0, where the first number is edited.
fn of_increment(alloc: Global, edited: i64) -> Result<Option<Texts>, Fail> {
    let before = numbers(alloc, &[4, 0])?;
    let after = numbers(alloc, &[edited, 0])?;
    story(alloc, INC, 0, &[at(0), at(1)], &before, &after, 2)
}

#[test]
fn an_edit_costs_the_steps_after_the_read(rt: HostRuntime) -> Result<(), Fail> {
    let story = of_increment(rt.alloc(), 9)?;
    tells(&rt, story, INCREMENT, EDITED_INCREMENT);
    Ok(())
}

#[test]
fn an_equal_value_costs_nothing(rt: HostRuntime) -> Result<(), Fail> {
    let story = of_increment(rt.alloc(), 4)?;
    tells(&rt, story, INCREMENT, SAME_INCREMENT);
    Ok(())
}

/// The list 1, 2, 3 with another cell before it.
fn with_a_first_cell(alloc: Global) -> Result<Inputs, NoMemory> {
    let mut after = list(alloc, &[1, 2, 3])?;
    add(
        alloc,
        &mut after,
        Shape::Struct(0),
        &[Word::Num(0), input(2)],
    )?;
    after.set(0, 0, input(5));
    Ok(after)
}

/// The story of MAP on the list 1, 2, 3.
fn of_map(alloc: Global, after: &Inputs, fuel: u32) -> Result<Option<Texts>, Fail> {
    let before = list(alloc, &[1, 2, 3])?;
    let story = story(alloc, MAP, 1, &[at(0), at(1)], &before, after, fuel);
    drop(before);
    story
}

/// The story of MAP where the inputs get another cell before the list.
fn of_first_cell(alloc: Global, fuel: u32) -> Result<Option<Texts>, Fail> {
    let after = with_a_first_cell(alloc)?;
    let story = of_map(alloc, &after, fuel);
    drop(after);
    story
}

#[test]
fn a_cell_before_the_others(rt: HostRuntime) -> Result<(), Fail> {
    let story = of_first_cell(rt.alloc(), 23)?;
    tells(&rt, story, MAPPED, INSERTED);
    let story = of_first_cell(rt.alloc(), 22)?;
    tells(&rt, story, MAPPED, "out of fuel\n");
    Ok(())
}

/// The list without its second cell.
fn without_a_cell(alloc: Global) -> Result<Inputs, NoMemory> {
    let mut after = list(alloc, &[1, 2, 3])?;
    after.set(2, 1, input(4));
    Ok(after)
}

#[test]
fn a_cell_in_the_middle_is_left_out(rt: HostRuntime) -> Result<(), Fail> {
    let after = without_a_cell(rt.alloc()).expect(&rt, "memory");
    let story = of_map(rt.alloc(), &after, 100);
    drop(after);
    tells(&rt, story?, MAPPED, DELETED);
    Ok(())
}

/// The list with another cell before it, and one after it.
fn with_a_last_cell(alloc: Global) -> Result<Inputs, NoMemory> {
    let mut after = with_a_first_cell(alloc)?;
    let words = [Word::Num(4), Word::Null];
    add(alloc, &mut after, Shape::Struct(0), &words)?;
    after.set(4, 1, input(6));
    Ok(after)
}

#[test]
fn a_stale_read_inside_a_taken_one(rt: HostRuntime) -> Result<(), Fail> {
    let after = with_a_last_cell(rt.alloc()).expect(&rt, "memory");
    let story = of_map(rt.alloc(), &after, 100);
    drop(after);
    tells(&rt, story?, MAPPED, EDITED_INSIDE);
    Ok(())
}

/// The story of MAP_NUMBERS on the list 7, 7, 8, which loses its first cell.
fn of_numbers(alloc: Global) -> Result<Option<Texts>, Fail> {
    let before = list(alloc, &[7, 7, 8])?;
    let mut after = before.copy()?;
    after.set(0, 0, input(3));
    let story = story(alloc, MAP_NUMBERS, 1, &[at(0), at(1)], &before, &after, 100);
    drop(before);
    drop(after);
    story
}

// The first block with the number is taken, so the second cell's tail is read again, with another argument.
#[test]
fn the_first_of_two_equal_keys_is_taken(rt: HostRuntime) -> Result<(), Fail> {
    let story = of_numbers(rt.alloc())?;
    tells(&rt, story, HEADS, EQUAL_HEADS);
    Ok(())
}

/// The story of CONDITIONAL where the number loses its truth.
fn of_conditional(alloc: Global) -> Result<Option<Texts>, Fail> {
    let before = numbers(alloc, &[1, 0, 0])?;
    let after = numbers(alloc, &[0, 0, 0])?;
    let args = [at(0), at(1), at(2)];
    let story = story(alloc, CONDITIONAL, 1, &args, &before, &after, 100);
    drop(before);
    drop(after);
    story
}

#[test]
fn a_write_that_is_gone_uncovers_an_older_one(rt: HostRuntime) -> Result<(), Fail> {
    let story = of_conditional(rt.alloc())?;
    tells(&rt, story, BOTH_WRITES, FIRST_WRITE);
    Ok(())
}

/// The number to compare with, the modifiable for the box, and that for the number in the box.
fn box_inputs(alloc: Global, n: i64) -> Result<Inputs, NoMemory> {
    let mut inputs = numbers(alloc, &[n])?;
    add(alloc, &mut inputs, Shape::ModPtr(0), &[Word::Null])?;
    add(alloc, &mut inputs, Shape::ModInt, &[Word::Num(0)])?;
    Ok(inputs)
}

/// The story of BOX where the number is 1 and then 2.
fn of_box(alloc: Global) -> Result<Option<Texts>, Fail> {
    let before = box_inputs(alloc, 1)?;
    let after = box_inputs(alloc, 2)?;
    let args = [at(0), at(1), at(2)];
    let story = story(alloc, BOX, 3, &args, &before, &after, 100);
    drop(before);
    drop(after);
    story
}

#[test]
fn a_revoked_number_is_not_given_out_again(rt: HostRuntime) -> Result<(), Fail> {
    let story = of_box(rt.alloc())?;
    tells(&rt, story, FIRST_BOX, SECOND_BOX);
    Ok(())
}

/// Whether MAP has a story on the list 1, 2, 3 where these are the inputs after it.
fn is_told(alloc: Global, after: &Inputs, args: &[Word]) -> Result<bool, Fail> {
    let before = list(alloc, &[1, 2, 3])?;
    let story = story(alloc, MAP, 1, args, &before, after, 100);
    drop(before);
    let story = story?;
    let is_some = story.is_some();
    drop(story);
    Ok(is_some)
}

/// The list with a number in place of the pointer to it.
fn without_a_pointer(alloc: Global) -> Result<Inputs, NoMemory> {
    let mut after = list(alloc, &[1, 2, 3])?;
    after.set(0, 0, Word::Num(0));
    Ok(after)
}

/// Whether MAP has a story on the list 1, 2, 3 where these are the inputs after it, which are let go.
fn is_story(alloc: Global, after: Result<Inputs, NoMemory>, args: &[Word]) -> Result<bool, Fail> {
    let after = after?;
    let told = is_told(alloc, &after, args);
    drop(after);
    told
}

// A plain field is edited, a word is of another type, or an argument is missing.
#[test]
fn calls_that_do_not_fit_are_told(rt: HostRuntime) -> Result<(), Fail> {
    let alloc = rt.alloc();
    let plain = list(alloc, &[1, 2, 4]);
    holds(&rt, !is_story(alloc, plain, &[at(0), at(1)])?);
    let wrong = without_a_pointer(alloc);
    holds(&rt, !is_story(alloc, wrong, &[at(0), at(1)])?);
    let same = list(alloc, &[1, 2, 3]);
    holds(&rt, !is_story(alloc, same, &[at(0)])?);
    Ok(())
}
