// The laws of rising stamps.

ghost use Rattle.std.specs.Prelude.{◌≡◌, ◌==◌, ◌∷◌, ℕ, List, false, insert, if◌then◌else◌};
ghost use Rattle.ceal_order.specs.Stamps.{is_in, without, OneMore};
ghost use Rattle.ceal_order.specs.Rising.{IsRising, KeepsOrder};

/// A law: stamps that rise along an order rise along each other one that has them in the same order; so they do after
/// an insertion into the order, and after a deletion from it that takes none of them.
pub fn rising_still()
    ensures law { (stamps old new : List ℕ) → IsRising old stamps → KeepsOrder stamps old new
        → IsRising new stamps }
    ensures inserted { (s : ℕ) (stamps old new : List ℕ) → IsRising old stamps → OneMore s old new
        → IsRising new stamps }
    ensures deleted { (s : ℕ) (stamps old new : List ℕ) → IsRising old stamps → OneMore s new old
        → is_in s stamps ≡ false
        → IsRising new stamps }
{}

/// Laws: which stamps there are after one is put in or taken out; and stamps that rise along one order and have the
/// same members are equal.
pub fn rising_members()
    ensures put { (t s at : ℕ) (stamps : List ℕ)
        → is_in t (insert stamps at s) ≡ is_in t (s ∷ stamps) }
    ensures taken { (order : List ℕ) (t s : ℕ) (stamps : List ℕ) → IsRising order stamps
        → is_in t (without s stamps) ≡ (if s == t then false else is_in t stamps) }
    ensures same { (order xs ys : List ℕ) → IsRising order xs → IsRising order ys
        → ((s : ℕ) → is_in s xs ≡ is_in s ys) → xs ≡ ys }
{}
