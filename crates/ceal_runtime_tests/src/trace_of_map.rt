// The trace of the map of a list, node by node.

ghost use Rattle.std.specs.Prelude.{◌≡◌, ◌≤◌, ◌+◌, IsTrue};
ghost use Rattle.ceal_trace.specs.Nodes.{has_node, NoLooseEnd};

use crate::asserts::equal;
use crate::trace::{Line, has_lines, words};
use ceal_base::forest::{Key, UnitId};
use ceal_base::word::{BlockId, Place, Word};
use ceal_order::stamp::Stamp;
use ceal_trace::trace::Trace;
use std::alloc::Global;
use std::process::Abort;

// The list that MAP reads: a modifiable with its first cell, and three cells, of which each holds the next one in field
// 1.

const FIRST: BlockId = BlockId::Input(2);

const SECOND: BlockId = BlockId::Input(1);

const THIRD: BlockId = BlockId::Input(0);

const HEAD: Place = Place {
    block: BlockId::Input(3),
    field: 0,
};

const BEHIND_FIRST: Place = Place {
    block: FIRST,
    field: 1,
};

const BEHIND_SECOND: Place = Place {
    block: SECOND,
    field: 1,
};

const BEHIND_THIRD: Place = Place {
    block: THIRD,
    field: 1,
};

// The list that it makes, which begins at a modifiable too.

const FIRST_MADE: BlockId = BlockId::Core(0);

const SECOND_MADE: BlockId = BlockId::Core(1);

const THIRD_MADE: BlockId = BlockId::Core(2);

const IMAGE: Place = Place {
    block: BlockId::Input(4),
    field: 0,
};

const BEHIND_FIRST_MADE: Place = Place {
    block: FIRST_MADE,
    field: 1,
};

const BEHIND_SECOND_MADE: Place = Place {
    block: SECOND_MADE,
    field: 1,
};

const BEHIND_THIRD_MADE: Place = Place {
    block: THIRD_MADE,
    field: 1,
};

// What a read of the map finds at a place, and the place that it writes to.
#[derive(Clone, Copy)]
struct Found {
    from: Place,
    word: Word,
    to: Place,
}

// A cell that the map reads, and the block that it makes for it.
#[derive(Clone, Copy)]
struct Mapped {
    from: Place,
    cell: BlockId,
    made: BlockId,
    to: Place,
}

// A read of the map with its end, after a node.
fn add_read<R: Abort>(rt: &R, alloc: Global, trace: &mut Trace, after: Stamp, found: Found) -> Stamp
    requires here { IsTrue (has_node after.0 trace.old.nodes) }
    requires room { 2 ≤ trace.old.spare }
    requires closed { NoLooseEnd trace.old.nodes }
    ensures here { IsTrue (has_node result.0 trace.new.nodes) }
    ensures room { trace.new.spare + 2 ≡ trace.old.spare }
    ensures closed { NoLooseEnd trace.new.nodes }
{
    let args = words(rt, alloc, Word::At(found.to));
    let read = trace.begin_read(after, found.from, found.word, UnitId(1), 2, args);
    trace.finish_read(read, read);
    trace.set_steps(read, 2);
    read
}

// What the map of a list puts after a node for one cell: the read of the cell with its end, and inside it the new
// block and the write. The read of the next cell comes after the write.
fn add_cell<R: Abort>(
    rt: &R,
    alloc: Global,
    trace: &mut Trace,
    after: Stamp,
    mapped: Mapped,
) -> Stamp
    requires here { IsTrue (has_node after.0 trace.old.nodes) }
    requires room { 4 ≤ trace.old.spare }
    requires closed { NoLooseEnd trace.old.nodes }
    ensures here { IsTrue (has_node result.0 trace.new.nodes) }
    ensures room { trace.new.spare + 4 ≡ trace.old.spare }
    ensures closed { NoLooseEnd trace.new.nodes }
{
    let found = Found {
        from: mapped.from,
        word: Word::Block(mapped.cell),
        to: mapped.to,
    };
    let read = add_read(rt, alloc, trace, after, found);
    let key = Key::Init {
        function: 0,
        args: words(rt, alloc, Word::Block(mapped.cell)),
    };
    let made = trace.insert_alloc(read, mapped.made, key);
    trace.set_steps(made, 1);
    let write = trace.insert_write(made, mapped.to, Word::Block(mapped.made));
    trace.set_steps(write, 2);
    write
}

// The same for the end of the list.
fn add_last<R: Abort>(rt: &R, alloc: Global, trace: &mut Trace, after: Stamp)
    requires here { IsTrue (has_node after.0 trace.old.nodes) }
    requires room { 3 ≤ trace.old.spare }
    requires closed { NoLooseEnd trace.old.nodes }
{
    let found = Found {
        from: BEHIND_THIRD,
        word: Word::Null,
        to: BEHIND_THIRD_MADE,
    };
    let read = add_read(rt, alloc, trace, after, found);
    trace.insert_write(read, BEHIND_THIRD_MADE, Word::Null);
}

const MAPPED_FIRST: Mapped = Mapped {
    from: HEAD,
    cell: FIRST,
    made: FIRST_MADE,
    to: IMAGE,
};

const MAPPED_SECOND: Mapped = Mapped {
    from: BEHIND_FIRST,
    cell: SECOND,
    made: SECOND_MADE,
    to: BEHIND_FIRST_MADE,
};

const MAPPED_THIRD: Mapped = Mapped {
    from: BEHIND_SECOND,
    cell: THIRD,
    made: THIRD_MADE,
    to: BEHIND_SECOND_MADE,
};

const MAPPED: [Line; 33] = [
    Line::Step,
    Line::Read(HEAD, Word::Block(FIRST), Word::At(IMAGE)),
    Line::Step,
    Line::Step,
    Line::Alloc(FIRST_MADE, Word::Block(FIRST)),
    Line::Step,
    Line::Write(IMAGE, Word::Block(FIRST_MADE)),
    Line::Step,
    Line::Step,
    Line::Read(
        BEHIND_FIRST,
        Word::Block(SECOND),
        Word::At(BEHIND_FIRST_MADE),
    ),
    Line::Step,
    Line::Step,
    Line::Alloc(SECOND_MADE, Word::Block(SECOND)),
    Line::Step,
    Line::Write(BEHIND_FIRST_MADE, Word::Block(SECOND_MADE)),
    Line::Step,
    Line::Step,
    Line::Read(
        BEHIND_SECOND,
        Word::Block(THIRD),
        Word::At(BEHIND_SECOND_MADE),
    ),
    Line::Step,
    Line::Step,
    Line::Alloc(THIRD_MADE, Word::Block(THIRD)),
    Line::Step,
    Line::Write(BEHIND_SECOND_MADE, Word::Block(THIRD_MADE)),
    Line::Step,
    Line::Step,
    Line::Read(BEHIND_THIRD, Word::Null, Word::At(BEHIND_THIRD_MADE)),
    Line::Step,
    Line::Step,
    Line::Write(BEHIND_THIRD_MADE, Word::Null),
    Line::End,
    Line::End,
    Line::End,
    Line::End,
];

fn maps_three_cells<R: Abort>(rt: &R, alloc: Global, trace: &mut Trace)
    requires room { 15 ≤ trace.old.spare }
    requires closed { NoLooseEnd trace.old.nodes }
{
    let root = trace.root();
    trace.set_steps(root, 1);
    let at = add_cell(rt, alloc, trace, root, MAPPED_FIRST);
    let at = add_cell(rt, alloc, trace, at, MAPPED_SECOND);
    let at = add_cell(rt, alloc, trace, at, MAPPED_THIRD);
    add_last(rt, alloc, trace, at);
    equal(rt, trace.steps(), 18);
    has_lines(rt, alloc, trace, &MAPPED);
}

#[test]
fn map_of_three_cells(rt: HostRuntime) {
    let alloc = rt.alloc();
    let mut trace = Trace::new(alloc).expect(&rt, "memory");
    trace.reserve(15).expect(&rt, "memory");
    maps_three_cells(&rt, alloc, &mut trace);
    drop(trace);
}
