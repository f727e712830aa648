// The store of core blocks.

ghost use Rattle.std.specs.Prelude.{◌≡◌, ◌≤◌, None, IsSome, length};
ghost use Rattle.ceal_heap.specs.Heap.{block_of, IsLive, KeepsBlocks};

use crate::asserts::{equal, holds};
use ceal_base::kind::Shape;
use ceal_base::word::{BlockId, Place, Word};
use ceal_heap::heap::Heap;
use std::process::Abort;

const CELL: Shape = Shape::Struct(0);

const NODE: Shape = Shape::Struct(1);

// A cell of these words.
fn make<R: Abort>(rt: &R, heap: &mut Heap, words: &[Word]) -> BlockId
    requires few { length words.now ≤ 255 }
    ensures new { block_of heap.old result ≡ None }
    ensures live { IsLive heap.new result }
    ensures known { IsSome (block_of heap.new result) }
    ensures others { KeepsBlocks result heap.old heap.new }
{
    heap.make(CELL, words).expect(rt, "memory").block
}

// The block holds a word of each kind, of which the last is this.
fn holds_all_kinds<R: Abort>(rt: &R, heap: &Heap, block: BlockId, last: Word)
    requires known { IsSome (block_of heap.now block) }
{
    equal(rt, heap.field(block, 0), Word::Num(-7));
    equal(rt, heap.field(block, 1), Word::Null);
    equal(rt, heap.field(block, 2), Word::Block(BlockId::Input(3)));
    equal(rt, heap.field(block, 3), Word::Block(BlockId::Core(4)));
    equal(rt, heap.field(block, 4), last);
    equal(rt, heap.field(block, 5), Word::Num(0));
}

fn is_a_cell<R: Abort>(rt: &R, heap: &Heap, block: BlockId)
    requires known { IsSome (block_of heap.now block) }
{
    equal(rt, heap.shape(block), CELL);
}

fn makes_all_kinds<R: Abort>(rt: &R, heap: &mut Heap) {
    let last = Word::At(Place {
        block: BlockId::Core(4_294_967_295),
        field: 4_294_967_295,
    });
    let words = [
        Word::Num(-7),
        Word::Null,
        Word::Block(BlockId::Input(3)),
        Word::Block(BlockId::Core(4)),
        last,
    ];
    let block = make(rt, heap, &words);
    equal(rt, block, BlockId::Core(0));
    holds_all_kinds(rt, heap, block, last);
    is_a_cell(rt, heap, block);
}

#[test]
fn a_block_is_read(rt: HostRuntime) {
    let mut heap = Heap::new(rt.alloc()).expect(&rt, "memory");
    makes_all_kinds(&rt, &mut heap);
    drop(heap);
}

// A revoked block is read, and its number is not given out.
fn revokes_the_first<R: Abort>(rt: &R, heap: &mut Heap) {
    let first = make(rt, heap, &[Word::Num(1)]);
    heap.revoke(first);
    equal(rt, heap.live_count(), 0);
    let second = make(rt, heap, &[Word::Num(2)]);
    equal(rt, second, BlockId::Core(1));
    equal(rt, heap.field(first, 0), Word::Num(1));
}

// The number of the first block, a cell, goes to a node.
fn releases_the_first<R: Abort>(rt: &R, heap: &mut Heap) {
    heap.release_revoked();
    equal(rt, heap.live_count(), 1);
    let third = heap.make(NODE, &[]).expect(rt, "memory");
    equal(rt, third.block, BlockId::Core(0));
    holds(rt, third.before == Some(CELL));
    let fourth = make(rt, heap, &[Word::Num(4)]);
    equal(rt, fourth, BlockId::Core(2));
    equal(rt, heap.field(fourth, 0), Word::Num(4));
    equal(rt, heap.live_count(), 3);
}

#[test]
fn a_number_goes_to_any_shape(rt: HostRuntime) {
    let mut heap = Heap::new(rt.alloc()).expect(&rt, "memory");
    revokes_the_first(&rt, &mut heap);
    releases_the_first(&rt, &mut heap);
    drop(heap);
}

// Makes a block that stays, and one that is revoked at once.
fn make_two<R: Abort>(rt: &R, heap: &mut Heap, number: u32) {
    let words = [Word::Num(number as i64), Word::Null];
    make(rt, heap, &words);
    let block = make(rt, heap, &words);
    heap.revoke(block);
}

fn makes_pairs<R: Abort>(rt: &R, heap: &mut Heap) {
    for number in 0..50_000 {
        make_two(rt, heap, number);
    }
    heap.release_revoked();
    equal(rt, heap.live_count(), 50_000);
}

fn is_below(block: BlockId, limit: u32) -> bool {
    match block {
        BlockId::Core(number) => number < limit,
        BlockId::Input(_) => false,
    }
}

fn fills_the_gaps<R: Abort>(rt: &R, heap: &mut Heap) {
    let words = [Word::Null, Word::Null];
    for _ in 0..50_000 {
        let block = make(rt, heap, &words);
        holds(rt, is_below(block, 100_000));
    }
    let block = make(rt, heap, &words);
    equal(rt, block, BlockId::Core(100_000));
    equal(rt, heap.live_count(), 100_001);
}

#[test]
fn a_hundred_thousand_blocks(rt: HostRuntime) {
    let mut heap = Heap::new(rt.alloc()).expect(&rt, "memory");
    makes_pairs(&rt, &mut heap);
    fills_the_gaps(&rt, &mut heap);
    drop(heap);
}

// Makes a block after another one; where it is refused, the heap is as it was.
fn make_second<R: Abort>(rt: &R, heap: &mut Heap, first: BlockId) -> BlockId
    requires { IsSome (block_of heap.old first) }
{
    if let Ok(second) = heap.make(NODE, &[Word::Num(2)]) {
        return second.block;
    }
    equal(rt, heap.live_count(), 1);
    equal(rt, heap.field(first, 0), Word::Num(1));
    heap.make(NODE, &[Word::Num(2)]).expect(rt, "memory").block
}

fn makes_two_blocks<R: Abort>(rt: &R, heap: &mut Heap) {
    let first = make(rt, heap, &[Word::Num(1)]);
    let second = make_second(rt, heap, first);
    equal(rt, second, BlockId::Core(1));
    equal(rt, heap.live_count(), 2);
}

#[test]
fn a_refused_block_changes_nothing(rt: HostRuntime) {
    let mut heap = Heap::new(rt.alloc()).expect(&rt, "memory");
    makes_two_blocks(&rt, &mut heap);
    drop(heap);
}
