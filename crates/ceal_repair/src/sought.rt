// The keys of a trace's nodes.

ghost use Rattle.std.specs.Prelude.{◌≡◌, ◌↔◌, IsTrue};
ghost use Rattle.ceal_repair.specs.Lists.{entries_in};

use ceal_base::forest::{Key, UnitId};
use ceal_base::word::{Place, Word};
use ceal_base::words::Words;
use ceal_memo::key::ReadKey;
use ceal_memo::keys::Keys;
use ceal_order::stamp::Stamp;
use ceal_trace::node::Seen;
use ceal_trace::trace::Trace;

/// The keys of a trace's reads and allocations.
#[derive(Clone, Copy)]
pub struct KeysOf<'a> {
    pub trace: &'a Trace,
}

impl<'a> Keys for KeysOf<'a> {
    ghost entries = { λ k. entries_in k.trace.now.nodes };

    fn is_read(&self, stamp: Stamp, key: &ReadKey<'_>) -> bool {
        match self.trace.node(stamp) {
            Seen::Read {
                place,
                unit,
                var,
                args,
                ..
            } => is_key_of(key, place, unit, var, args),
            Seen::Root => false,
            Seen::Alloc { .. } => false,
            Seen::Write { .. } => false,
            Seen::End { .. } => false,
        }
    }

    fn is_alloc(&self, stamp: Stamp, key: &Key) -> bool {
        match self.trace.node(stamp) {
            Seen::Alloc { key: held, .. } => held.same_as(key),
            Seen::Root => false,
            Seen::Write { .. } => false,
            Seen::Read { .. } => false,
            Seen::End { .. } => false,
        }
    }
}

// Whether the words are these.
fn has_items(words: &Words, items: &[Word]) -> bool
    ensures same { IsTrue result ↔ (words.now ≡ items.now) }
{
    words.items() == items
}

// Whether a key is that of a read of this place with this unit, variable and arguments.
fn is_key_of(key: &ReadKey<'_>, place: Place, unit: UnitId, var: u32, args: &Words) -> bool
    ensures same { IsTrue result
        ↔ (key.now ≡ record { place = place; unit = unit; var = var; args = args.now }) }
{
    place == key.place && unit == key.unit && var == key.var && has_items(args, key.args)
}
