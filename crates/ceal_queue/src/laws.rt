// The laws of the queue.

ghost use Rattle.std.specs.Prelude.{◌≡◌, ℕ, List, false};
ghost use Rattle.ceal_order.specs.Stamps.{is_in, OneMore};
ghost use Rattle.ceal_order.specs.Rising.{KeepsOrder};
ghost use Rattle.ceal_queue.specs.Queue.{Waiting, Follows};

use ceal_order::laws::rising_still;

/// A law: a queue follows each other order that has its stamps in the same order; so it does after an insertion into
/// the order, and after a deletion from it that takes no stamp of the queue.
pub fn follows_still()
    ensures law { (queue : Waiting) (old new : List ℕ) → Follows old queue
        → KeepsOrder queue.stamps old new → Follows new queue }
    ensures inserted { (s : ℕ) (queue : Waiting) (old new : List ℕ) → Follows old queue
        → OneMore s old new → Follows new queue }
    ensures deleted { (s : ℕ) (queue : Waiting) (old new : List ℕ) → Follows old queue
        → OneMore s new old
        → is_in s queue.stamps ≡ false → Follows new queue }
{
    rising_still();
}
