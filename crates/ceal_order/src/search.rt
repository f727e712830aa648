// Looking for a place among rising stamps.

ghost use Rattle.std.specs.Prelude.{◌≡◌, ◌<◌, ◌≤◌, length, slice_index_or, IsTrue};
ghost use Rattle.ceal_order.specs.Stamps.{is_in};
ghost use Rattle.ceal_order.specs.Rising.{numbers, count_before, IsRising};
ghost use Rattle.ceal_order.specs.Tree.{items_of, IsCounted, IsBalanced};
ghost use Rattle.ceal_order.specs.declared.stamp.Stamp.{Stamp as StampOf};

use crate::order::Order;
use crate::stamp::Stamp;
use crate::tree::{Tree, count};

/// The number of stamps of a tree before one. It goes into one tree of each fork at most, since each chunk has a stamp.
pub fn before_in_tree(order: &Order, tree: &Tree<Stamp>, stamp: Stamp) -> usize
    requires here { IsTrue (is_in stamp.0 order.now.stamps) }
    requires rising { IsRising order.now.stamps (numbers (items_of tree.now)) }
    requires counted { IsCounted tree.now }
    requires balanced { IsBalanced tree.now }
    requires few { length (items_of tree.now) ≤ 18446744073709551615 }
    ensures { result ≡ count_before order.now.stamps stamp.0 (numbers (items_of tree.now)) }
{
    match tree {
        Tree::Empty => 0,
        Tree::Fork(fork) => {
            let here = before_in_chunk(order, &fork.items, stamp);
            if here == 0 {
                return before_in_tree(order, &fork.earlier, stamp);
            }
            let before = count(&fork.earlier) + here;
            if here < fork.items.len() {
                return before;
            }
            before + before_in_tree(order, &fork.later, stamp)
        }
    }
}

/// The number of stamps of a chunk before one, found by halves; at once where all are, or none.
pub fn before_in_chunk(order: &Order, stamps: &[Stamp], stamp: Stamp) -> usize
    requires here { IsTrue (is_in stamp.0 order.now.stamps) }
    requires rising { IsRising order.now.stamps (numbers stamps.now) }
    ensures count { result ≡ count_before order.now.stamps stamp.0 (numbers stamps.now) }
    ensures within { result ≤ length stamps.now }
{
    let mut low = 0;
    let mut high = stamps.len();
    if high > 0 && order.before(stamp_at(stamps, high - 1), stamp) {
        return high;
    }
    while low < high {
        let middle = low + (high - low) / 2;
        if order.before(stamp_at(stamps, middle), stamp) {
            low = middle + 1;
        } else {
            high = middle;
        }
    }
    low
}

// The stamp at an index.
fn stamp_at(stamps: &[Stamp], index: usize) -> Stamp
    requires { index < length stamps.now }
    ensures { (other : StampOf) → slice_index_or stamps.now index other ≡ result }
{
    stamps[index]
}
