// What callers hold of an order.

/// One stamp of an order: the index of its link. Its number says nothing of its place.
#[derive(Clone, Copy, PartialEq, Eq, Hash, Debug)]
pub struct Stamp(pub u32);
