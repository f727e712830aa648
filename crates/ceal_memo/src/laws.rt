// The laws of the memo table.

ghost use Rattle.std.specs.Prelude.{◌≡◌, ◌<◌, ◌↔◌, ◌^◌, ℕ, List, Option, None};
ghost use Rattle.ceal_base.specs.Hashing.{mixed};
ghost use Rattle.ceal_order.specs.Stamps.{OneMore};
ghost use Rattle.ceal_memo.specs.Keys.{EntryKey};
ghost use Rattle.ceal_memo.specs.Memo.{Contents, Holds, Follows, HasNone, KeepsEntries};

use ceal_order::laws::rising_still;

/// A law: a memo follows each other order that has the stamps of its entries in the same order; so it does after an
/// insertion into the order, and after a deletion from it that takes no stamp with an entry.
pub fn follows_still()
    ensures law { (memo : Contents) (entries : ℕ → Option EntryKey) (old new : List ℕ)
        → Holds memo entries → Follows old memo → KeepsEntries entries old new
        → Follows new memo }
    ensures inserted { (s : ℕ) (memo : Contents) (old new : List ℕ) → Follows old memo
        → OneMore s old new → Follows new memo }
    ensures deleted { (s : ℕ) (memo : Contents) (old new : List ℕ) → Follows old memo
        → OneMore s new old → HasNone s memo
        → Follows new memo }
{
    rising_still();
}

/// A law: in a memo that has certain entries, a stamp has no entry exactly when it has none of these.
pub fn has_none()
    ensures law { (memo : Contents) (entries : ℕ → Option EntryKey) (s : ℕ) → Holds memo entries
        → (entries s ≡ None) ↔ HasNone s memo }
{}

/// A law: no two sums of 64 bits are scrambled into one, so keys with another sum stay apart until bits are dropped.
pub fn scrambled_apart()
    ensures law { (m n : ℕ) → m < 2 ^ 64 → n < 2 ^ 64 → mixed 0 m ≡ mixed 0 n → m ≡ n }
{}
