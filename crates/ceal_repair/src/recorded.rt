// What a node records.

ghost use Rattle.std.specs.Prelude.{◌≡◌, ◌≢◌, false, IsTrue};
ghost use Rattle.ceal_trace.specs.Nodes.{node_at, is_read};
ghost use Rattle.ceal_repair.specs.Kept.{Records};

use ceal_base::word::{Place, Word};
use ceal_order::stamp::Stamp;
use ceal_trace::trace::Trace;

/// The place and the value of a read.
#[inline]
pub fn recorded(trace: &Trace, read: Stamp) -> (Place, Word)
    requires read { IsTrue (is_read (node_at read.0 trace.now.nodes)) }
    ensures { Records result.0 result.1 (node_at read.0 trace.now.nodes) }
{
    let seen = trace.read_at(read);
    (seen.place, seen.value)
}

/// Whether both are the same word.
pub fn is_same(a: Word, b: Word) -> bool
    ensures same { IsTrue result → a ≡ b }
    ensures differ { result ≡ false → a ≢ b }
{
    a == b
}
