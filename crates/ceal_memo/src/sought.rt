// What is looked for among the stamps of a hash.

ghost use Rattle.std.specs.Prelude.{◌≡◌, ◌<◌, ◌↔◌, ℕ, true, IfSome, IfNone, IsTrue};
ghost use Rattle.ceal_order.specs.Stamps.{is_in, place};
ghost use Rattle.ceal_order.specs.Rising.{IsRising};
ghost use Rattle.ceal_memo.specs.Lists.{IsFirstOf, NoneOf};

use ceal_order::order::Order;
use ceal_order::rising::Rising;
use ceal_order::stamp::Stamp;

/// A key that entries are looked for with.
pub trait Sought {
    /// it is known which entry is at a stamp
    ghost knows: { Self → ℕ → Type 0 };

    /// the entry at a stamp has the key
    ghost is: { Self → ℕ → Type 0 };

    /// Whether the entry at a stamp has the key.
    fn has_key(&self, stamp: Stamp) -> bool
        requires known { knows self.now stamp.0 }
        ensures { IsTrue result ↔ is self.now stamp.0 };
}

/// The earliest stamp of a list with a key after one and before another. Those with another key are passed: of these
/// there are some only where two keys have one hash.
pub fn first_with_key<S: Sought>(
    list: &Rising,
    order: &Order,
    sought: &S,
    after: Stamp,
    until: Stamp,
) -> Option<Stamp>
    requires after { IsTrue (is_in after.0 order.now.stamps) }
    requires until { IsTrue (is_in until.0 order.now.stamps) }
    requires rising { IsRising order.now.stamps list.now }
    requires known { (s : ℕ) → is_in s list.now ≡ true → S.knows sought.now s }
    ensures first { IfSome result
        (λ s. IsFirstOf order.now.stamps list.now (S.is sought.now) after.0 s.0) }
    ensures before { IfSome result
        (λ s. place s.0 order.now.stamps < place until.0 order.now.stamps) }
    ensures here { IfSome result (λ s. IsTrue (is_in s.0 order.now.stamps)) }
    ensures none { IfNone result
        (NoneOf order.now.stamps list.now (S.is sought.now) after.0 until.0) }
{
    let mut passed = after;
    while let Some(next) = list.first_after(order, passed) {
        if !order.before(next, until) {
            return None;
        }
        if sought.has_key(next) {
            return Some(next);
        }
        passed = next;
    }
    None
}
