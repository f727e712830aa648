// The queue against a plain list.

ghost use Rattle.std.specs.Prelude.{◌≡◌, ◌≤◌, ℕ, List, []};
ghost use Rattle.ceal_queue.specs.Queue.{Follows};

use crate::asserts::equal;
use crate::orders::order_with_room;
use ceal_order::order::Order;
use ceal_queue::stale::Stale;
use std::process::Abort;

fn pushes_and_pops<R: Abort>(rt: &R, order: &mut Order, queue: &mut Stale)
    requires room { 4 ≤ order.old.spare }
    requires empty { queue.old.stamps ≡ [] }
    requires follows { (stamps : List ℕ) → Follows stamps queue.old }
{
    let first = order.first();
    let fourth = order.insert_after(first);
    let third = order.insert_after(first);
    let second = order.insert_after(first);
    queue.reserve(3).expect(rt, "memory");
    queue.push(order, fourth);
    queue.push(order, second);
    queue.push(order, second);
    queue.push(order, third);
    equal(rt, queue.pop_before(order, Some(second)), None);
    equal(rt, queue.pop_before(order, Some(third)), Some(second));
    queue.remove(order, third);
    queue.remove(order, third);
    equal(rt, queue.pop_before(order, None), Some(fourth));
    equal(rt, queue.pop_before(order, None), None);
}

#[test]
fn the_earliest_before_a_limit(rt: HostRuntime) {
    let alloc = rt.alloc();
    let mut order = order_with_room(&rt, alloc, 4);
    let mut queue = Stale::new(alloc).expect(&rt, "memory");
    pushes_and_pops(&rt, &mut order, &mut queue);
    drop(queue);
    drop(order);
}
