// Orders against plain lists, and a list of stamps by time.

ghost use Rattle.std.specs.Prelude.{◌≡◌, ◌<◌, ◌≤◌, [], IsTrue};
ghost use Rattle.ceal_order.specs.Stamps.{is_in};

use crate::asserts::{equal, holds};
use crate::orders::order_with_room;
use ceal_order::order::Order;
use ceal_order::rising::Rising;
use ceal_order::room::{ample, make_room};
use ceal_order::stamp::Stamp;
use std::alloc::Global;
use std::process::Abort;

const MANY: u32 = 100_000;

// All stamps, by `next` from the first on.
fn walked<R: Abort>(rt: &R, alloc: Global, order: &Order) -> Vec<Stamp> {
    let mut stamps = Vec::new(alloc);
    let mut at = order.first();
    stamps.push(at).expect(rt, "memory");
    while let Some(next) = order.next(at) {
        stamps.push(next).expect(rt, "memory");
        at = next;
    }
    stamps
}

// Whether `before` tells each stamp from the next one.
fn is_rising(order: &Order) -> bool {
    let mut at = order.first();
    while let Some(next) = order.next(at) {
        if !order.before(at, next) || order.before(next, at) || order.before(at, at) {
            return false;
        }
        at = next;
    }
    true
}

// The order has the stamps of a list, in its order.
fn is_as<R: Abort>(rt: &R, alloc: Global, order: &Order, list: &Vec<Stamp>) {
    let stamps = walked(rt, alloc, order);
    holds(rt, stamps == *list);
    drop(stamps);
    holds(rt, is_rising(order));
}

// The stamp `places` places after the first, or the last one.
fn stamp_at(order: &Order, places: u64) -> Stamp
    ensures { IsTrue (is_in result.0 order.now.stamps) }
{
    let mut at = order.first();
    for place in 0..places {
        match order.next(at) {
            Some(next) => at = next,
            None => return at,
        }
    }
    at
}

// A stamp after the first one.
fn put_second<R: Abort>(rt: &R, order: &mut Order) -> Stamp {
    order.reserve(1).expect(rt, "memory");
    let first = order.first();
    let new = order.insert_after(first);
    let first = order.first();
    equal(rt, order.next(first), Some(new));
    new
}

fn put_many_second<R: Abort>(rt: &R, order: &mut Order, made: &mut Vec<Stamp>) {
    for count in 0..MANY {
        let new = put_second(rt, order);
        made.push(new).expect(rt, "memory");
    }
    made.push(order.first()).expect(rt, "memory");
    made.reverse();
}

#[test]
fn each_after_the_first_comes_second(rt: HostRuntime) {
    let alloc = rt.alloc();
    let mut order = Order::new(alloc).expect(&rt, "memory");
    let mut made = Vec::new(alloc);
    put_many_second(&rt, &mut order, &mut made);
    is_as(&rt, alloc, &order, &made);
    drop(made);
    drop(order);
}

// A stamp after the last one.
fn put_last<R: Abort>(rt: &R, order: &mut Order, last: Stamp) -> Stamp
    requires here { IsTrue (is_in last.0 order.old.stamps) }
    ensures here { IsTrue (is_in result.0 order.new.stamps) }
{
    order.reserve(1).expect(rt, "memory");
    let new = order.insert_after(last);
    equal(rt, order.next(new), None);
    new
}

fn put_many_last<R: Abort>(rt: &R, order: &mut Order, made: &mut Vec<Stamp>) {
    let mut last = order.first();
    made.push(last).expect(rt, "memory");
    for count in 0..MANY {
        last = put_last(rt, order, last);
        made.push(last).expect(rt, "memory");
    }
}

#[test]
fn each_after_the_last_comes_last(rt: HostRuntime) {
    let alloc = rt.alloc();
    let mut order = Order::new(alloc).expect(&rt, "memory");
    let mut made = Vec::new(alloc);
    put_many_last(&rt, &mut order, &mut made);
    is_as(&rt, alloc, &order, &made);
    drop(made);
    drop(order);
}

// Puts a stamp after the one at a place, in the order and in the list, or takes that one out of both.
fn put_or_take<R: Abort>(
    rt: &R,
    order: &mut Order,
    list: &mut Vec<Stamp>,
    places: u64,
    puts: bool,
) {
    order.reserve(1).expect(rt, "memory");
    let stamp = stamp_at(order, places);
    let place = list
        .iter()
        .position(|s| *s == stamp)
        .expect(rt, "a stamp of the list");
    if puts {
        let new = order.insert_after(stamp);
        list.insert(place + 1, new).expect(rt, "memory");
    } else if stamp != order.first() {
        order.delete(stamp);
        list.remove(place);
    }
}

fn next_random(random: u64) -> u64 {
    let mut next = random;
    next ^= next.wrapping_shl(13);
    next ^= next >> 7;
    next ^= next.wrapping_shl(17);
    next
}

// Two insertions to one deletion at random, among `places` places.
fn change_at_random<R: Abort>(rt: &R, order: &mut Order, list: &mut Vec<Stamp>, places: u64)
    requires some { 0 < places }
{
    list.push(order.first()).expect(rt, "memory");
    let mut random = 88_172_645_463_325_252u64;
    for turn in 0..3000u64 {
        random = next_random(random);
        put_or_take(rt, order, list, random % places, turn % 3 < 2);
    }
}

fn at_random_among<R: Abort>(rt: &R, alloc: Global, places: u64)
    requires some { 0 < places }
{
    let mut order = Order::new(alloc).expect(rt, "memory");
    let mut list = Vec::new(alloc);
    change_at_random(rt, &mut order, &mut list, places);
    is_as(rt, alloc, &order, &list);
    drop(list);
    drop(order);
}

// Among all stamps, and among the first few, where labels are given again.
#[test]
fn at_random_as_a_list(rt: HostRuntime) {
    at_random_among(&rt, rt.alloc(), 5);
    at_random_among(&rt, rt.alloc(), 10_000);
}

fn in_and_out<R: Abort>(rt: &R, order: &mut Order, rising: &mut Rising)
    requires room { 2 ≤ order.old.spare }
    requires empty { rising.old ≡ [] }
{
    let first = order.first();
    let third = order.insert_after(first);
    let second = order.insert_after(first);
    equal(rt, rising.insert(order, third).expect(rt, "memory"), 0);
    equal(rt, rising.insert(order, first).expect(rt, "memory"), 0);
    equal(rt, rising.insert(order, second).expect(rt, "memory"), 1);
    equal(rt, rising.count_before(order, third), 2);
    equal(rt, rising.first_after(order, first), Some(second));
    equal(rt, rising.first_after(order, third), None);
    equal(rt, rising.remove(order, second), 1);
    rising.take_out(first);
    equal(rt, rising.first_after(order, first), Some(third));
    holds(rt, !rising.is_empty());
}

#[test]
fn in_and_out_by_time(rt: HostRuntime) {
    let alloc = rt.alloc();
    let mut order = order_with_room(&rt, alloc, 2);
    let mut rising = Rising::new(alloc);
    in_and_out(&rt, &mut order, &mut rising);
    drop(rising);
    drop(order);
}

#[test]
fn a_short_list_grows_fourfold(rt: HostRuntime) {
    equal(&rt, ample(10, 1), 30);
    equal(&rt, ample(10, 40), 40);
    equal(&rt, ample(1_000_000, 1), 196_608);
    let mut items = Vec::new(rt.alloc());
    items.push(7_u32).expect(&rt, "memory");
    holds(&rt, make_room(&mut items, 100).is_ok());
    holds(&rt, items.capacity() - items.len() >= 100);
    equal(&rt, items[0], 7);
    drop(items);
}
