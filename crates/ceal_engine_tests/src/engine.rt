// An engine runs MAP, inputs are edited, and the run is brought up to date. The answers were worked out by hand from
// the rules of the language.

ghost use Rattle.std.specs.Prelude.{◌≤◌};

use crate::asserts::{equal, holds};
use crate::drive::{add, edit, propagate, run};
use ceal_base::kind::Shape;
use ceal_base::word::{BlockId, Place, Word};
use ceal_engine::engine::Engine;
use ceal_engine::phase::Phase;
use ceal_samples::inputs::{at, input};
use ceal_samples::programs::{MAP, compiled};
use ceal_samples::told::told;
use std::alloc::Global;
use std::process::Abort;
use std::test::Fail;

/// The work, the steps, the number of core blocks, and the trace are these.
fn is_at<R: Abort>(rt: &R, alloc: Global, engine: &Engine, counts: (u32, u32, u32), trace: &str) {
    holds(rt, engine.phase() == Phase::Finished);
    let found = (engine.work(), engine.steps(), engine.live_blocks());
    equal(rt, found, counts);
    let forest = engine.forest().expect(rt, "memory");
    let text = told(alloc, forest.items()).expect(rt, "memory");
    drop(forest);
    equal(rt, text.as_str(), trace);
    drop(text);
}

/// The list 1, 2, 3 by its cells from the last one on, a modifiable that points to it, and one for its image.
fn fill(engine: &mut Engine) -> Result<(), Fail> {
    add(engine, Shape::Struct(0), &[Word::Num(3), Word::Null])?;
    add(engine, Shape::Struct(0), &[Word::Num(2), input(0)])?;
    add(engine, Shape::Struct(0), &[Word::Num(1), input(1)])?;
    add(engine, Shape::ModPtr(0), &[input(2)])?;
    add(engine, Shape::ModPtr(0), &[Word::Null])
}

/// A field of an input.
fn field(n: u32, field: u32) -> Place {
    Place {
        block: BlockId::Input(n),
        field,
    }
}

/// Puts a cell before the list.
fn put_before(engine: &mut Engine) -> Result<(), Fail> {
    add(engine, Shape::Struct(0), &[Word::Num(5), input(2)])?;
    edit(engine, field(3, 0), input(5))
}

const MAPPED: &str = ".v2 = read(in3.0) u1(&in4.0): in2
..#0 = init 0(in2)
.in4.0 := #0
..v2 = read(in2.1) u1(&#0.1): in1
..#1 = init 0(in1)
.#0.1 := #1
..v2 = read(in1.1) u1(&#1.1): in0
..#2 = init 0(in0)
.#1.1 := #2
..v2 = read(in0.1) u1(&#2.1): null
..#2.1 := null
end
end
end
end
";

const INSERTED: &str = ".v2 = read(in3.0) u1(&in4.0): in5
..#3 = init 0(in5)
.in4.0 := #3
..v2 = read(in5.1) u1(&#3.1): in2
..#0 = init 0(in2)
.#3.1 := #0
..v2 = read(in2.1) u1(&#0.1): in1
..#1 = init 0(in1)
.#0.1 := #1
..v2 = read(in1.1) u1(&#1.1): in0
..#2 = init 0(in0)
.#1.1 := #2
..v2 = read(in0.1) u1(&#2.1): null
..#2.1 := null
end
end
end
end
end
";

/// An engine for MAP, with no inputs.
fn engine(alloc: Global, fuel: u32) -> Result<Engine, Fail> {
    if fuel < 1 || fuel > 4_194_304 {
        return Err(Fail::from("no such fuel"));
    }
    let program = compiled(alloc, MAP)?;
    Ok(Engine::new(alloc, program.code, fuel)?)
}

/// A cell is put before the list, and the run is brought up to date, twice.
fn inserts<R: Abort>(rt: &R, alloc: Global, engine: &mut Engine) -> Result<(), Fail> {
    fill(engine)?;
    run(engine, 1, &[at(3), at(4)])?;
    is_at(rt, alloc, engine, (18, 18, 3), MAPPED);
    put_before(engine)?;
    propagate(engine)?;
    is_at(rt, alloc, engine, (10, 23, 4), INSERTED);
    propagate(engine)?;
    is_at(rt, alloc, engine, (0, 23, 4), INSERTED);
    Ok(())
}

#[test]
fn a_new_block_has_a_free_number(rt: HostRuntime) -> Result<(), Fail> {
    let alloc = rt.alloc();
    let mut engine = engine(alloc, 100)?;
    let told = inserts(&rt, alloc, &mut engine);
    drop(engine);
    told
}

/// The list of the numbers from `count` down to 1, by its cells from the last one on, a modifiable that points to it,
/// and one for its image.
fn fill_long(engine: &mut Engine, count: u32) -> Result<(), Fail>
    requires some { 1 ≤ count }
{
    add(engine, Shape::Struct(0), &[Word::Num(1), Word::Null])?;
    for n in 1..count {
        let words = [Word::Num(n as i64 + 1), input(n - 1)];
        add(engine, Shape::Struct(0), &words)?;
    }
    add(engine, Shape::ModPtr(0), &[input(count - 1)])?;
    add(engine, Shape::ModPtr(0), &[Word::Null])
}

/// Propagation has re-executed `work` steps, and has looked at some contents, but not at more than 100 since `before`.
fn looked_at_few<R: Abort>(rt: &R, engine: &Engine, work: u32, before: u64) {
    holds(rt, engine.phase() == Phase::Finished);
    equal(rt, engine.work(), work);
    let looked = engine.mods().looked();
    holds(rt, looked > before);
    holds(rt, looked - before <= 100);
}

/// The run is finished, with `steps` steps.
fn has_steps<R: Abort>(rt: &R, engine: &Engine, steps: u32) {
    holds(rt, engine.phase() == Phase::Finished);
    equal(rt, engine.steps(), steps);
}

/// How many contents were looked at.
fn looked<R: Abort>(rt: &R, engine: &Engine) -> u64 {
    holds(rt, engine.phase() == Phase::Finished);
    engine.mods().looked()
}

/// A cell is put after the last one of the list, and then one before the first one.
fn extends<R: Abort>(rt: &R, engine: &mut Engine) -> Result<(), Fail> {
    fill_long(engine, 40_000)?;
    run(engine, 1, &[at(40_000), at(40_001)])?;
    has_steps(rt, engine, 200_003);
    let before = looked(rt, engine);
    add(engine, Shape::Struct(0), &[Word::Num(7), Word::Null])?;
    edit(engine, field(0, 1), input(40_002))?;
    propagate(engine)?;
    looked_at_few(rt, engine, 7, before);
    let before = looked(rt, engine);
    add(engine, Shape::Struct(0), &[Word::Num(8), input(39_999)])?;
    edit(engine, field(40_000, 0), input(40_003))?;
    propagate(engine)?;
    looked_at_few(rt, engine, 10, before);
    Ok(())
}

#[test]
fn an_update_looks_at_few_contents(rt: HostRuntime) -> Result<(), Fail> {
    let mut engine = engine(rt.alloc(), 1_000_000)?;
    let told = extends(&rt, &mut engine);
    drop(engine);
    told
}
