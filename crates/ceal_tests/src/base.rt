// The operators at the edges of their range, and copies.

use crate::asserts::{equal, same_items};
use ceal_base::access::content;
use ceal_base::copies::{copied_function, copied_structs};
use ceal_base::forest::{Forest, Item, Key, UnitId};
use ceal_base::items::Items;
use ceal_base::kind::Shape;
use ceal_base::memory::{BlockWords, Inputs, Memory};
use ceal_base::operators::{Binary, Unary, apply_binary, apply_unary};
use ceal_base::text::Text;
use ceal_base::typed::{Typed, TypedFunction};
use ceal_base::word::{BlockId, Place, Word};
use ceal_base::words::Words;
use ceal_mean::run::{Outcome, interpret};
use ceal_samples::inputs::{at, operators};
use ceal_samples::programs::{compiled, eval};
use std::alloc::Global;
use std::process::Abort;
use std::test::Fail;

const LEAST: Word = Word::Num(i64::MIN);

const MOST: Word = Word::Num(i64::MAX);

fn gives<R: Abort>(rt: &R, op: Binary, a: Word, b: Word, value: Word) {
    equal(rt, apply_binary(op, a, b), value);
}

fn divides<R: Abort>(rt: &R) {
    gives(rt, Binary::Div, LEAST, Word::Num(-1), LEAST);
    gives(rt, Binary::Rem, LEAST, Word::Num(-1), Word::Num(0));
    gives(rt, Binary::Div, Word::Num(7), Word::Num(0), Word::Num(0));
    gives(rt, Binary::Rem, Word::Num(7), Word::Num(0), Word::Num(7));
    gives(rt, Binary::Div, Word::Num(-7), Word::Num(4), Word::Num(-1));
    gives(rt, Binary::Rem, Word::Num(-7), Word::Num(4), Word::Num(-3));
}

fn compares<R: Abort>(rt: &R) {
    let block = BlockId::Core(1);
    let cell = Word::At(Place { block, field: 0 });
    gives(rt, Binary::Same, cell, cell, Word::Num(1));
    gives(rt, Binary::Same, cell, Word::Block(block), Word::Num(0));
    gives(rt, Binary::Less, cell, Word::Num(1), Word::Num(1));
}

#[test]
fn operators_at_their_edges(rt: HostRuntime) {
    divides(&rt);
    gives(&rt, Binary::Add, MOST, Word::Num(1), LEAST);
    compares(&rt);
    equal(&rt, apply_unary(Unary::Neg, LEAST), LEAST);
    equal(&rt, apply_unary(Unary::Not, Word::Null), Word::Num(1));
}

/// The digits of 101, put together in several ways.
fn digits<R: Abort>(rt: &R, alloc: Global) -> Text {
    let mut text = Text::from_slice(alloc, b"1").expect(rt, "memory");
    text.append(b"0").expect(rt, "memory");
    text.push(b'1').expect(rt, "memory");
    text
}

#[test]
fn a_text_is_copied(rt: HostRuntime) {
    let text = digits(&rt, rt.alloc());
    let copy = text.copy().expect(&rt, "memory");
    drop(text);
    same_items(&rt, copy.items(), b"101");
    drop(copy);
}

/// A key with the argument 1, copied.
fn key<R: Abort>(rt: &R, alloc: Global) -> Key {
    let mut args = Words::empty(alloc);
    args.push(Word::Num(1)).expect(rt, "memory");
    let key = Key::Init { function: 2, args };
    let copy = key.copy().expect(rt, "memory");
    drop(key);
    copy
}

/// An allocation, copied.
fn allocation<R: Abort>(rt: &R, alloc: Global) -> Item {
    let item = Item::Alloc {
        block: BlockId::Core(0),
        key: key(rt, alloc),
    };
    let copy = item.copy().expect(rt, "memory");
    drop(item);
    copy
}

/// The argument 1, copied.
fn args<R: Abort>(rt: &R, alloc: Global) -> Words {
    let args = Words::from_slice(alloc, &[Word::Num(1)]).expect(rt, "memory");
    let copy = args.copy().expect(rt, "memory");
    drop(args);
    copy
}

/// A read, with its arguments copied.
fn read<R: Abort>(rt: &R, alloc: Global) -> Item {
    let block = BlockId::Input(0);
    Item::Read {
        place: Place { block, field: 0 },
        value: Word::Num(4),
        unit: UnitId(1),
        var: 2,
        args: args(rt, alloc),
    }
}

fn push<R: Abort>(rt: &R, forest: &mut Forest, item: Item) {
    forest.push(item).expect(rt, "memory");
}

/// Puts in an allocation, and a read with its end.
fn fill<R: Abort>(rt: &R, alloc: Global, forest: &mut Forest) {
    push(rt, forest, allocation(rt, alloc));
    push(rt, forest, read(rt, alloc));
    push(rt, forest, Item::End);
}

fn are_the_items<R: Abort>(rt: &R, items: &[Item]) {
    equal(rt, items.len(), 3);
    match items {
        [Item::Alloc { block, .. }, Item::Read { var, .. }, Item::End] => {
            equal(rt, *block, BlockId::Core(0));
            equal(rt, *var, 2);
        }
        _ => panic!(rt; "another forest"),
    }
}

#[test]
fn a_forest_is_copied(rt: HostRuntime) {
    let mut forest = Forest::new(Vec::new(rt.alloc()));
    fill(&rt, rt.alloc(), &mut forest);
    let copy = forest.copy().expect(&rt, "memory");
    drop(forest);
    are_the_items(&rt, copy.items());
    drop(copy);
}

/// A modifiable with 4 in it.
fn block<R: Abort>(rt: &R, alloc: Global) -> BlockWords {
    let mut block = BlockWords::new(Shape::ModInt, Vec::new(alloc));
    block.push(Word::Num(4)).expect(rt, "memory");
    block
}

/// A copy of the modifiable as an input, copied.
fn inputs<R: Abort>(rt: &R, alloc: Global, block: &BlockWords) -> Inputs {
    let mut inputs = Inputs::new(Vec::new(alloc));
    let input = block.copy().expect(rt, "memory");
    inputs.push(input).expect(rt, "memory");
    let copy = inputs.copy().expect(rt, "memory");
    drop(inputs);
    copy
}

/// A memory with a modifiable as its input, and one that it made.
fn memory<R: Abort>(rt: &R, alloc: Global) -> Memory {
    let block = block(rt, alloc);
    let mut memory = Memory::new(inputs(rt, alloc, &block), Vec::new(alloc));
    memory.push(block).expect(rt, "memory");
    let block = BlockId::Core(0);
    memory.set(Place { block, field: 0 }, Word::Num(5));
    memory
}

/// The first word of a block is this.
fn begins<R: Abort>(rt: &R, block: &BlockWords, word: Word) {
    equal(rt, block.items().first().copied(), Some(word));
}

fn has_both_blocks<R: Abort>(rt: &R, memory: &Memory) {
    match (memory.inputs.items(), memory.items()) {
        ([input], [made]) => {
            begins(rt, input, Word::Num(4));
            begins(rt, made, Word::Num(5));
        }
        _ => panic!(rt; "another memory"),
    }
}

#[test]
fn a_memory_is_copied(rt: HostRuntime) {
    let memory = memory(&rt, rt.alloc());
    let copy = memory.copy().expect(&rt, "memory");
    drop(memory);
    has_both_blocks(&rt, &copy);
    drop(copy);
}

/// The functions of a program, copied.
fn copied_functions<R: Abort>(rt: &R, alloc: Global, program: &Typed) -> Items<TypedFunction> {
    let mut functions = Vec::new(alloc);
    for function in program.functions.items() {
        let function = copied_function(alloc, function).expect(rt, "memory");
        functions.push(function).expect(rt, "memory");
    }
    Items::new(functions)
}

/// A program, copied.
fn copied<R: Abort>(rt: &R, alloc: Global, program: &Typed) -> Typed {
    Typed {
        structs: copied_structs(alloc, program.structs.items()).expect(rt, "memory"),
        functions: copied_functions(rt, alloc, program),
    }
}

/// The run of `eval` on its worked inputs.
fn evaluated<R: Abort>(rt: &R, alloc: Global, program: &Typed) -> Outcome {
    let inputs = operators(alloc).expect(rt, "memory");
    let outcome = interpret(alloc, program, 0, &[at(10), at(11)], &inputs, 102);
    drop(inputs);
    outcome.expect(rt, "memory")
}

fn has_the_value<R: Abort>(rt: &R, outcome: &Outcome) {
    match outcome {
        Outcome::Done {
            memory,
            steps,
            blocks,
        } => {
            equal(rt, content(memory, at(11), Word::Null), Word::Num(-12));
            equal(rt, (*steps, *blocks), (102, 10));
        }
        Outcome::OutOfFuel => panic!(rt; "out of fuel"),
    }
}

/// The program evaluates its worked inputs as `eval` does.
fn evaluates<R: Abort>(rt: &R, alloc: Global, program: &Typed) {
    let outcome = evaluated(rt, alloc, program);
    has_the_value(rt, &outcome);
    drop(outcome);
}

#[test]
fn a_program_is_copied(rt: HostRuntime) -> Result<(), Fail> {
    let source = eval(rt.alloc())?;
    let program = compiled(rt.alloc(), source.items())?;
    drop(source);
    let copy = copied(&rt, rt.alloc(), &program.typed);
    drop(program);
    evaluates(&rt, rt.alloc(), &copy);
    drop(copy);
    Ok(())
}
