// Traces node by node, and their forests.

ghost use Rattle.std.specs.Prelude.{◌≡◌, ◌≤◌, ◌∷◌, []};
ghost use Rattle.ceal_trace.specs.declared.node.Node.TheVariants.{Root};
ghost use Rattle.ceal_trace.specs.Nodes.{new_entry, NoLooseEnd};

use crate::asserts::{equal, holds};
use ceal_base::forest::{Key, UnitId};
use ceal_base::word::{BlockId, Place, Word};
use ceal_base::words::Words;
use ceal_trace::node::{Gone, Node, Seen};
use ceal_trace::trace::Trace;
use std::alloc::Global;
use std::process::Abort;

// An item of a forest, of whose arguments the first one is kept.
#[derive(Clone, Copy, PartialEq)]
pub enum Line {
    Step,
    Alloc(BlockId, Word),
    Write(Place, Word),
    Read(Place, Word, Word),
    End,
}

fn first_of(words: &Words) -> Word {
    words.items().first().copied().unwrap_or(Word::Null)
}

fn line_of(node: Seen<'_>) -> Option<Line> {
    match node {
        Seen::Root => None,
        Seen::Alloc { block, key } => match key {
            Key::Init { args, .. } => Some(Line::Alloc(block, first_of(args))),
            _ => Some(Line::Alloc(block, Word::Null)),
        },
        Seen::Write { place, value } => Some(Line::Write(place, value)),
        Seen::Read {
            place,
            value,
            args,
            ..
        } => Some(Line::Read(place, value, first_of(args))),
        Seen::End { .. } => Some(Line::End),
    }
}

// A removed node, as a trace shows those that it has.
fn seen(node: &Node) -> Seen<'_> {
    match node {
        Node::Root => Seen::Root,
        Node::Alloc { block, key } => Seen::Alloc { block: *block, key },
        Node::Write { place, value } => Seen::Write {
            place: *place,
            value: *value,
        },
        Node::Read {
            place,
            value,
            unit,
            var,
            args,
        } => Seen::Read {
            place: *place,
            value: *value,
            unit: *unit,
            var: *var,
            args,
        },
        Node::End { read } => Seen::End { read: *read },
    }
}

fn add_node<R: Abort>(rt: &R, lines: &mut Vec<Line>, node: Seen<'_>, steps: u32) {
    if let Some(line) = line_of(node) {
        lines.push(line).expect(rt, "memory");
    }
    for step in 0..steps {
        lines.push(Line::Step).expect(rt, "memory");
    }
}

// The forest of a trace.
fn forest<R: Abort>(rt: &R, alloc: Global, trace: &Trace) -> Vec<Line> {
    let mut lines = Vec::new(alloc);
    let mut at = trace.root();
    add_node(rt, &mut lines, trace.node(at), trace.steps_at(at));
    while let Some(next) = trace.order().next(at) {
        add_node(rt, &mut lines, trace.node(next), trace.steps_at(next));
        at = next;
    }
    lines
}

/// The forest of a trace has these lines.
pub fn has_lines<R: Abort>(rt: &R, alloc: Global, trace: &Trace, wanted: &[Line]) {
    let lines = forest(rt, alloc, trace);
    holds(rt, lines.as_slice() == wanted);
    drop(lines);
}

pub fn words<R: Abort>(rt: &R, alloc: Global, word: Word) -> Words {
    Words::from_slice(alloc, &[word]).expect(rt, "memory")
}

// The places of a number and of the number after it.

const NUMBER: Place = Place {
    block: BlockId::Input(0),
    field: 0,
};

const NEXT: Place = Place {
    block: BlockId::Input(1),
    field: 0,
};

const INCREMENTED: [Line; 5] = [
    Line::Step,
    Line::Read(NUMBER, Word::Num(4), Word::At(NEXT)),
    Line::Step,
    Line::Write(NEXT, Word::Num(5)),
    Line::End,
];

fn reads_and_writes<R: Abort>(rt: &R, alloc: Global, trace: &mut Trace)
    requires room { 3 ≤ trace.old.spare }
    requires closed { NoLooseEnd trace.old.nodes }
{
    let root = trace.root();
    trace.set_steps(root, 1);
    let args = words(rt, alloc, Word::At(NEXT));
    let read = trace.begin_read(root, NUMBER, Word::Num(4), UnitId(1), 2, args);
    trace.set_steps(read, 1);
    let write = trace.insert_write(read, NEXT, Word::Num(5));
    holds(rt, trace.end_of(read) == None);
    let end = trace.finish_read(read, write);
    holds(rt, trace.end_of(read) == Some(end));
    equal(rt, trace.steps(), 2);
    has_lines(rt, alloc, trace, &INCREMENTED);
}

#[test]
fn increment(rt: HostRuntime) {
    let alloc = rt.alloc();
    let mut trace = Trace::new(alloc).expect(&rt, "memory");
    trace.reserve(3).expect(&rt, "memory");
    reads_and_writes(&rt, alloc, &mut trace);
    drop(trace);
}

// What was removed had `steps` steps and stands for this line.
fn was<R: Abort>(rt: &R, gone: Gone, steps: u32, line: Line) {
    holds(rt, gone.steps == steps);
    holds(rt, line_of(seen(&gone.node)) == Some(line));
    drop(gone);
}

fn removes_a_read<R: Abort>(rt: &R, alloc: Global, trace: &mut Trace)
    requires nodes { trace.old.nodes ≡ new_entry 0 Root ∷ [] }
    requires room { 2 ≤ trace.old.spare }
    requires closed { NoLooseEnd trace.old.nodes }
{
    let root = trace.root();
    let args = words(rt, alloc, Word::At(NEXT));
    let read = trace.begin_read(root, NUMBER, Word::Num(4), UnitId(1), 2, args);
    trace.set_steps(read, 7);
    let end = trace.finish_read(read, read);
    trace.set_steps(end, 5);
    trace.set_value(read, Word::Num(9));
    equal(rt, trace.steps(), 12);
    let gone = trace.remove(read);
    was(
        rt,
        gone,
        7,
        Line::Read(NUMBER, Word::Num(9), Word::At(NEXT)),
    );
    equal(rt, trace.steps(), 5);
    let gone = trace.remove(end);
    was(rt, gone, 5, Line::End);
    equal(rt, trace.steps(), 0);
    trace.insert_write(root, NEXT, Word::Null);
    has_lines(rt, alloc, trace, &[Line::Write(NEXT, Word::Null)]);
}

#[test]
fn a_read_and_its_end_removed(rt: HostRuntime) {
    let alloc = rt.alloc();
    let mut trace = Trace::new(alloc).expect(&rt, "memory");
    trace.reserve(2).expect(&rt, "memory");
    removes_a_read(&rt, alloc, &mut trace);
    drop(trace);
}
