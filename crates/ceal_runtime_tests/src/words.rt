// The slots of a region.

ghost use Rattle.std.specs.Prelude.{◌≤◌};
ghost use Rattle.ceal_words.specs.Region.{spare, KeepsAll, KeepsSpares};

use crate::asserts::equal;
use ceal_words::region::Region;
use std::process::Abort;

fn writes<R: Abort>(rt: &R, region: &mut Region) {
    region.reserve(3, 2).expect(rt, "memory");
    let a = region.take(3);
    let b = region.take(3);
    region.set(&a, 1, 7);
    region.set(&b, 1, 9);
    equal(rt, region.get(&a, 1), 7);
    region.give(a);
    region.reserve(3, 1).expect(rt, "memory");
    let c = region.take(3);
    equal(rt, region.get(&c, 0), 0);
    equal(rt, region.get(&c, 1), 0);
    equal(rt, region.get(&c, 2), 0);
    equal(rt, region.get(&b, 1), 9);
}

#[test]
fn writes_and_gives_back(rt: HostRuntime) {
    let mut region = Region::new(rt.alloc()).expect(&rt, "memory");
    writes(&rt, &mut region);
    drop(region);
}

// Takes `count` slots, writes to each, finds what was written, and gives them back.
fn nested<R: Abort>(rt: &R, region: &mut Region, len: u32, count: u32)
    requires length { (1 ≤ len) × (len ≤ 65536) }
    requires some { count ≤ spare region.old len }
    ensures words { KeepsAll region.old region.new }
    ensures spare { KeepsSpares region.old region.new }
{
    if count == 0 {
        return;
    }
    let slot = region.take(len);
    region.set(&slot, len - 1, count as u64);
    nested(rt, region, len, count - 1);
    equal(rt, region.get(&slot, len - 1), count as u64);
    region.give(slot);
}

fn twice<R: Abort>(rt: &R, region: &mut Region, len: u32)
    requires { (1 ≤ len) × (len ≤ 65536) }
{
    region.reserve(len, 200).expect(rt, "memory");
    nested(rt, region, len, 200);
    nested(rt, region, len, 200);
}

#[test]
fn a_thousand_slots(rt: HostRuntime) {
    let mut region = Region::new(rt.alloc()).expect(&rt, "memory");
    twice(&rt, &mut region, 1);
    twice(&rt, &mut region, 3);
    twice(&rt, &mut region, 8);
    twice(&rt, &mut region, 17);
    twice(&rt, &mut region, 100);
    drop(region);
}
