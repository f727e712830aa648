// Who tells the keys of entries.

ghost use Rattle.std.specs.Prelude.{◌≡◌, ◌≢◌, ◌↔◌, ℕ, Option, None, Some, IsTrue};
ghost use Rattle.ceal_memo.specs.Keys.{EntryKey, OfRead, OfAlloc};

use crate::key::ReadKey;
use crate::sought::Sought;
use ceal_base::forest::Key;
use ceal_order::stamp::Stamp;

/// Who tells the keys of entries. A memo keeps none, since they are in the trace: it asks where two may be the same.
pub trait Keys {
    /// the entries that it describes: the key of the one at each stamp
    ghost entries: { Self → ℕ → Option EntryKey };

    /// Whether the entry at a stamp is a read with this key.
    fn is_read(&self, stamp: Stamp, key: &ReadKey<'_>) -> bool
        requires there { entries self.now stamp.0 ≢ None }
        ensures { IsTrue result ↔ (entries self.now stamp.0 ≡ Some (OfRead key.now)) };

    /// Whether the entry at a stamp is an allocation with this key.
    fn is_alloc(&self, stamp: Stamp, key: &Key) -> bool
        requires there { entries self.now stamp.0 ≢ None }
        ensures { IsTrue result ↔ (entries self.now stamp.0 ≡ Some (OfAlloc key.now)) };
}

/// A read that is looked for.
#[derive(Clone, Copy)]
pub struct SoughtRead<'a, K> {
    pub keys: &'a K,
    pub key: &'a ReadKey<'a>,
}

impl<'a, K: Keys> Sought for SoughtRead<'a, K> {
    ghost knows = { λ s t. K.entries s.keys.now t ≢ None };

    ghost is = { λ s t. K.entries s.keys.now t ≡ Some (OfRead s.key.now) };

    fn has_key(&self, stamp: Stamp) -> bool {
        self.keys.is_read(stamp, self.key)
    }
}

/// An allocation that is looked for.
#[derive(Clone, Copy)]
pub struct SoughtAlloc<'a, K> {
    pub keys: &'a K,
    pub key: &'a Key,
}

impl<'a, K: Keys> Sought for SoughtAlloc<'a, K> {
    ghost knows = { λ s t. K.entries s.keys.now t ≢ None };

    ghost is = { λ s t. K.entries s.keys.now t ≡ Some (OfAlloc s.key.now) };

    fn has_key(&self, stamp: Stamp) -> bool {
        self.keys.is_alloc(stamp, self.key)
    }
}
