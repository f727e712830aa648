// Workloads as text.

use crate::asserts::{equal, holds, same_items};
use ceal_gen::kind::Workload;
use ceal_gen::text::workload;
use std::alloc::Global;
use std::process::Abort;

// A list of one cell, whole.
const LIST_OF_ONE: &str = "struct cell { int head; mod struct cell tail; };
init mk(struct cell *self, struct cell *from) { self->head = from->head * 10; }
ceal map(mod struct cell *from, mod struct cell *to) {
  struct cell *c = read(from);
  if (c != null) {
    struct cell *d = alloc cell mk(c);
    write(to, d);
    map(&c->tail, &d->tail);
  } else {
    write(to, null);
  }
}
%%
new c1 cell 838 null
mod l cell c1
mod o cell null
run map l o
steps
blocks
new y1 cell 758 c1
set l y1
propagate
work
new y2 cell 113 null
set c1.tail y2
propagate
work
set l c1
propagate
work
steps
blocks
";

#[test]
fn a_list_of_one(rt: HostRuntime) {
    let text = workload(rt.alloc(), Workload::List, 1, 1).expect(&rt, "memory");
    same_items(&rt, text.items(), LIST_OF_ONE.as_bytes());
    drop(text);
}

// The script of a tree of one operator.
const TREE_OF_ONE: &str = "}
%%
new n3 node 0 838 null null
new n2 node 0 758 null null
new n1 node 1 0 n2 n3
mod r node n1
mod o int 0
run eval r o
get o
steps
blocks
set n3.leaf 7
propagate
get o
work
new y node 0 5 null null
set n1.left y
propagate
get o
work
steps
blocks
";

#[test]
fn a_tree_of_one(rt: HostRuntime) {
    let text = workload(rt.alloc(), Workload::Tree, 1, 1).expect(&rt, "memory");
    holds(&rt, text.items().ends_with(TREE_OF_ONE.as_bytes()));
    drop(text);
}

// The workload has `length` bytes.
fn has_length<R: Abort>(rt: &R, alloc: Global, kind: Workload, length: usize) {
    let text = workload(alloc, kind, 1, 40_000).expect(rt, "memory");
    equal(rt, text.items().len(), length);
    drop(text);
}

// The largest workloads of the command line: how many bytes they have.
#[test]
fn large_workloads(rt: HostRuntime) {
    has_length(&rt, rt.alloc(), Workload::List, 1_053_793);
    has_length(&rt, rt.alloc(), Workload::Tree, 2_614_076);
}
