// One place, and a few stamps.

ghost use Rattle.std.specs.Prelude.{◌≡◌, ◌<◌, ◌≤◌, ◌+◌, ℕ, List, IsTrue};
ghost use Rattle.ceal_order.specs.Stamps.{is_in};
ghost use Rattle.ceal_mods.specs.Mods.{cell_of, Follows, IsUntouched};
ghost use Rattle.ceal_mods.specs.Writes.{stamps_of, AreTold};
ghost use Rattle.ceal_runtime_tests.specs.Twos.{twos};

use crate::asserts::{equal, holds};
use crate::orders::order_with_room;
use ceal_base::word::{BlockId, Place, Word};
use ceal_mods::laws::follows_still;
use ceal_mods::mods::Mods;
use ceal_mods::written::Written;
use ceal_order::order::Order;
use ceal_order::stamp::Stamp;
use std::process::Abort;

// Tells that each write is one of 2, as it is in these tests.
struct Twos;

impl Written for Twos {
    ghost tells = { λ _. twos };

    fn written_at(&self, _write: Stamp) -> Word {
        Word::Num(2)
    }
}

const COUNTER: Place = Place {
    block: BlockId::Input(0),
    field: 0,
};

#[test]
fn a_base_holds_from_the_start(rt: HostRuntime) {
    let mut mods = Mods::new(rt.alloc()).expect(&rt, "memory");
    mods.set_base(COUNTER, Word::Num(1)).expect(&rt, "memory");
    equal(&rt, mods.last_value(&Twos, COUNTER), Word::Num(1));
    equal(&rt, mods.looked(), 0);
    drop(mods);
}

#[test]
fn a_base_begins_once(rt: HostRuntime) {
    let mut mods = Mods::new(rt.alloc()).expect(&rt, "memory");
    holds(&rt, !mods.has_cell(COUNTER));
    holds(&rt, mods.begin(COUNTER, Word::Num(1)).expect(&rt, "memory"));
    equal(&rt, mods.last_value(&Twos, COUNTER), Word::Num(1));
    holds(&rt, mods.has_cell(COUNTER));
    holds(
        &rt,
        !mods.begin(COUNTER, Word::Num(2)).expect(&rt, "memory"),
    );
    equal(&rt, mods.last_value(&Twos, COUNTER), Word::Num(1));
    drop(mods);
}

const OTHER: Place = Place {
    block: BlockId::Core(0),
    field: 1,
};

#[test]
fn what_has_changed_since_the_mark(rt: HostRuntime) {
    let mut mods = Mods::new(rt.alloc()).expect(&rt, "memory");
    holds(&rt, !mods.is_marked());
    mods.set_base(COUNTER, Word::Num(1)).expect(&rt, "memory");
    mods.mark(&Twos).expect(&rt, "memory");
    holds(&rt, mods.is_marked());
    mods.set_base(COUNTER, Word::Num(2)).expect(&rt, "memory");
    mods.set_base(OTHER, Word::Num(3)).expect(&rt, "memory");
    equal(&rt, mods.changed(&Twos).expect(&rt, "memory").len(), 2);
    mods.set_base(COUNTER, Word::Num(1)).expect(&rt, "memory");
    equal(&rt, mods.changed(&Twos).expect(&rt, "memory").len(), 1);
    mods.mark(&Twos).expect(&rt, "memory");
    equal(&rt, mods.changed(&Twos).expect(&rt, "memory").len(), 0);
    drop(mods);
}

fn writes_at_the_start<R: Abort>(rt: &R, order: &mut Order, mods: &mut Mods)
    requires room { 1 ≤ order.old.spare }
    requires untouched { IsUntouched mods.old }
    requires follows { (stamps : List ℕ) → Follows stamps mods.old }
{
    let first = order.first();
    let second = order.insert_after(first);
    mods.add_write(order, COUNTER, first, Word::Num(2))
        .expect(rt, "memory");
    equal(
        rt,
        mods.value_at(order, &Twos, COUNTER, first),
        Word::Num(0),
    );
    equal(
        rt,
        mods.value_at(order, &Twos, COUNTER, second),
        Word::Num(2),
    );
    equal(rt, mods.looked(), 2);
}

#[test]
fn a_write_holds_behind_its_stamp(rt: HostRuntime) {
    let mut order = order_with_room(&rt, rt.alloc(), 1);
    let mut mods = Mods::new(rt.alloc()).expect(&rt, "memory");
    writes_at_the_start(&rt, &mut order, &mut mods);
    drop(mods);
    drop(order);
}

fn writes_over_a_base<R: Abort>(rt: &R, order: &mut Order, mods: &mut Mods)
    requires room { 1 ≤ order.old.spare }
    requires untouched { IsUntouched mods.old }
    requires follows { (stamps : List ℕ) → Follows stamps mods.old }
{
    let first = order.first();
    let second = order.insert_after(first);
    mods.set_base(COUNTER, Word::Num(1)).expect(rt, "memory");
    mods.add_write(order, COUNTER, first, Word::Num(2))
        .expect(rt, "memory");
    mods.remove_write(order, COUNTER, first);
    equal(
        rt,
        mods.value_at(order, &Twos, COUNTER, second),
        Word::Num(1),
    );
}

#[test]
fn a_removed_write_uncovers_the_base(rt: HostRuntime) {
    let mut order = order_with_room(&rt, rt.alloc(), 1);
    let mut mods = Mods::new(rt.alloc()).expect(&rt, "memory");
    writes_over_a_base(&rt, &mut order, &mut mods);
    drop(mods);
    drop(order);
}

fn reads_behind_a_write<R: Abort>(rt: &R, order: &mut Order, mods: &mut Mods)
    requires room { 2 ≤ order.old.spare }
    requires untouched { IsUntouched mods.old }
    requires follows { (stamps : List ℕ) → Follows stamps mods.old }
{
    let first = order.first();
    let third = order.insert_after(first);
    let second = order.insert_after(first);
    mods.add_read(order, COUNTER, third).expect(rt, "memory");
    equal(rt, mods.affected(order, COUNTER, first), Some(third));
    mods.add_write(order, COUNTER, second, Word::Num(2))
        .expect(rt, "memory");
    equal(rt, mods.affected(order, COUNTER, first), None);
    equal(rt, mods.affected(order, COUNTER, second), Some(third));
    mods.remove_read(order, COUNTER, third);
    equal(rt, mods.affected(order, COUNTER, second), None);
}

#[test]
fn a_write_parts_a_read_from_what_stands_before(rt: HostRuntime) {
    let mut order = order_with_room(&rt, rt.alloc(), 2);
    let mut mods = Mods::new(rt.alloc()).expect(&rt, "memory");
    reads_behind_a_write(&rt, &mut order, &mut mods);
    drop(mods);
    drop(order);
}

// Puts in a read of a place at a new stamp, directly after another one.
fn read_behind<R: Abort>(
    rt: &R,
    order: &mut Order,
    mods: &mut Mods,
    place: Place,
    after: Stamp,
) -> Stamp
    requires here { IsTrue (is_in after.0 order.old.stamps) }
    requires room { 0 < order.old.spare }
    requires follows { Follows order.old.stamps mods.old }
    ensures here { IsTrue (is_in result.0 order.new.stamps) }
    ensures others { (s : ℕ) → IsTrue (is_in s order.old.stamps)
        → IsTrue (is_in s order.new.stamps) }
    ensures room { order.new.spare + 1 ≡ order.old.spare }
    ensures follows { Follows order.new.stamps mods.new }
    ensures writes { (cell_of mods.new place).writes ≡ (cell_of mods.old place).writes }
{
    let stamp = order.insert_after(after);
    follows_still();
    mods.add_read(order, place, stamp).expect(rt, "memory");
    stamp
}

// Puts in a write of 2 to a place at a new stamp, directly after another one.
fn write_behind<R: Abort>(
    rt: &R,
    order: &mut Order,
    mods: &mut Mods,
    place: Place,
    after: Stamp,
) -> Stamp
    requires here { IsTrue (is_in after.0 order.old.stamps) }
    requires room { 0 < order.old.spare }
    requires follows { Follows order.old.stamps mods.old }
    ensures here { IsTrue (is_in result.0 order.new.stamps) }
    ensures others { (s : ℕ) → IsTrue (is_in s order.old.stamps)
        → IsTrue (is_in s order.new.stamps) }
    ensures room { order.new.spare + 1 ≡ order.old.spare }
    ensures follows { Follows order.new.stamps mods.new }
    ensures written { IsTrue (is_in result.0 (stamps_of (cell_of mods.new place).writes)) }
    ensures twos { AreTold twos (cell_of mods.old place).writes
        → AreTold twos (cell_of mods.new place).writes }
{
    let stamp = order.insert_after(after);
    follows_still();
    mods.add_write(order, place, stamp, Word::Num(2))
        .expect(rt, "memory");
    stamp
}

// A place with a base, a read, a write after it, and two reads after that.
fn writes_between_reads<R: Abort>(rt: &R, order: &mut Order, mods: &mut Mods)
    requires room { 4 ≤ order.old.spare }
    requires untouched { IsUntouched mods.old }
    requires follows { (stamps : List ℕ) → Follows stamps mods.old }
{
    mods.set_base(COUNTER, Word::Num(1)).expect(rt, "memory");
    let start = order.first();
    let fourth = read_behind(rt, order, mods, COUNTER, start);
    let third = read_behind(rt, order, mods, COUNTER, start);
    let second = write_behind(rt, order, mods, COUNTER, start);
    let first = read_behind(rt, order, mods, COUNTER, start);
    equal(
        rt,
        mods.value_at(order, &Twos, COUNTER, first),
        Word::Num(1),
    );
    equal(
        rt,
        mods.value_at(order, &Twos, COUNTER, fourth),
        Word::Num(2),
    );
    equal(rt, mods.affected(order, COUNTER, second), Some(third));
    equal(rt, mods.affected(order, COUNTER, start), Some(first));
    equal(rt, mods.affected(order, COUNTER, first), None);
    mods.remove_write(order, COUNTER, second);
    equal(rt, mods.affected(order, COUNTER, first), Some(third));
    equal(rt, mods.last_value(&Twos, COUNTER), Word::Num(1));
}

#[test]
fn a_write_between_reads(rt: HostRuntime) {
    let mut order = order_with_room(&rt, rt.alloc(), 4);
    let mut mods = Mods::new(rt.alloc()).expect(&rt, "memory");
    writes_between_reads(&rt, &mut order, &mut mods);
    drop(mods);
    drop(order);
}
