// Orders for the other tests.

ghost use Rattle.std.specs.Prelude.{◌≤◌};

use ceal_order::order::Order;
use std::alloc::Global;
use std::process::Abort;

/// An order with room for `spare` stamps after the first one.
pub fn order_with_room<R: Abort>(rt: &R, alloc: Global, spare: u32) -> Order
    ensures room { spare ≤ result.spare }
{
    let mut order = Order::new(alloc).expect(rt, "memory");
    order.reserve(spare).expect(rt, "memory");
    order
}
