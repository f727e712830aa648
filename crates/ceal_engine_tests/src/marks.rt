// Which modifiables hold something else at the end than when they were marked. The answers were worked out by hand.

use crate::asserts::{equal, holds};
use crate::drive::{add, changed, edit, mark, propagate, run};
use ceal_base::kind::Shape;
use ceal_base::word::{BlockId, Place, Word};
use ceal_engine::engine::Engine;
use ceal_samples::inputs::{at, input};
use ceal_samples::programs::{MAP, compiled};
use std::alloc::Global;
use std::process::Abort;
use std::test::Fail;

/// The square of a number.
const SQUARE: &[u8] = b"
ceal square(mod int *from, mod int *to) { int x = read(from); write(to, x * x); }
%%
";

/// A field of an input.
fn field(n: u32, field: u32) -> Place {
    Place {
        block: BlockId::Input(n),
        field,
    }
}

/// A field of a core block.
fn made(n: u32, field: u32) -> Place {
    Place {
        block: BlockId::Core(n),
        field,
    }
}

/// An engine for a program, with no inputs.
fn engine(alloc: Global, program: &[u8]) -> Result<Engine, Fail> {
    let program = compiled(alloc, program)?;
    Ok(Engine::new(alloc, program.code, 1000)?)
}

/// These places, and no others, hold something else than when they were marked.
fn has_changed<R: Abort>(rt: &R, engine: &Engine, wanted: &[Place]) -> Result<(), Fail> {
    let places = changed(engine)?;
    let count = places.len();
    let mut all = true;
    for place in wanted {
        all = all && places.contains(place);
    }
    drop(places);
    equal(rt, count, wanted.len());
    holds(rt, all);
    Ok(())
}

/// The input and its square change, then only the input, and then none of them.
fn squares<R: Abort>(rt: &R, engine: &mut Engine) -> Result<(), Fail> {
    add(engine, Shape::ModInt, &[Word::Num(3)])?;
    add(engine, Shape::ModInt, &[Word::Num(0)])?;
    run(engine, 0, &[at(0), at(1)])?;
    holds(rt, !engine.is_marked());
    mark(engine)?;
    has_changed(rt, engine, &[])?;
    edit(engine, field(0, 0), Word::Num(4))?;
    propagate(engine)?;
    has_changed(rt, engine, &[field(0, 0), field(1, 0)])?;
    mark(engine)?;
    has_changed(rt, engine, &[])?;
    edit(engine, field(0, 0), Word::Num(-4))?;
    propagate(engine)?;
    has_changed(rt, engine, &[field(0, 0)])?;
    edit(engine, field(0, 0), Word::Num(4))?;
    propagate(engine)?;
    has_changed(rt, engine, &[])
}

#[test]
fn an_output_that_changed(rt: HostRuntime) -> Result<(), Fail> {
    let mut engine = engine(rt.alloc(), SQUARE)?;
    let told = squares(&rt, &mut engine);
    drop(engine);
    told
}

/// A cell is put before the list 1, 2. Then the two modifiables that point to the lists have changed, and the tails of
/// the new cell and of its image.
fn puts_before<R: Abort>(rt: &R, engine: &mut Engine) -> Result<(), Fail> {
    add(engine, Shape::Struct(0), &[Word::Num(2), Word::Null])?;
    add(engine, Shape::Struct(0), &[Word::Num(1), input(0)])?;
    add(engine, Shape::ModPtr(0), &[input(1)])?;
    add(engine, Shape::ModPtr(0), &[Word::Null])?;
    run(engine, 1, &[at(2), at(3)])?;
    mark(engine)?;
    add(engine, Shape::Struct(0), &[Word::Num(5), input(1)])?;
    edit(engine, field(2, 0), input(4))?;
    propagate(engine)?;
    let wanted = [field(2, 0), field(3, 0), field(4, 1), made(2, 1)];
    has_changed(rt, engine, &wanted)
}

#[test]
fn a_new_block(rt: HostRuntime) -> Result<(), Fail> {
    let mut engine = engine(rt.alloc(), MAP)?;
    let told = puts_before(&rt, &mut engine);
    drop(engine);
    told
}
