// The laws of the tables.

ghost use Rattle.std.specs.Prelude.{◌≡◌, ◌<◌, ◌≤◌, ℕ, List, true, false};
ghost use Rattle.ceal_code.specs.Program.{Code};
ghost use Rattle.ceal_code.specs.Replay.{Store};
ghost use Rattle.ceal_order.specs.Stamps.{is_in};
ghost use Rattle.ceal_repair.specs.AsItems.{nodes_of, StartsAll};
ghost use Rattle.ceal_repair.specs.Covered.{Queue, queue_of, Covers};
ghost use Rattle.ceal_repair.specs.Distance.{Reuses, revalued_reads};
ghost use Rattle.ceal_repair.specs.Kept.{Kept, CoveredBy, QueuedAfter, QueuedFrom, IsHonestRecord};
ghost use Rattle.ceal_repair.specs.declared.tables.Tables.{Tables};
ghost use Rattle.ceal_theory.specs.Cover.{Covered, none_waits};
ghost use Rattle.ceal_trace.specs.Nodes.{Entry, position};

/// Laws: a read up to a node has the content of its moment if all that is queued is after that node; so has a read
/// before a node if nothing before that node is queued; and so has every read if nothing is queued.
pub fn unqueued_reads_are_honest()
    ensures behind { (t : Tables) → Kept t → (s : ℕ) → QueuedAfter s t → (r : ℕ)
        → position r t.trace.nodes ≤ position s t.trace.nodes → IsHonestRecord r t }
    ensures from { (t : Tables) → Kept t → (s : ℕ) → QueuedFrom s t → (r : ℕ)
        → position r t.trace.nodes < position s t.trace.nodes → IsHonestRecord r t }
    ensures none { (t : Tables) → Kept t → ((s : ℕ) → is_in s t.stale.stamps ≡ false) → (r : ℕ)
        → IsHonestRecord r t }
{}

/// A law: wherever a read does not have the content of its moment, a queued read of its place is there or before it,
/// with no write of the place between.
pub fn stale_reads_are_covered()
    ensures { (t : Tables) → Kept t → CoveredBy (queue_of t.stale.stamps) t }
{}

/// A law: where nodes are so far from old ones, the reads of them that have another value are those that can be counted
/// by comparing both.
pub fn stale_reads_are_revalued()
    ensures law { (old new : List Entry) (fresh stale : ℕ)
        → Reuses old new fresh stale → stale ≤ revalued_reads old new }
{}

/// A law: what is covered is so in the words of the theory of repair, if each allocation is at a point where the
/// modifiables of its block hold their defaults. The lists of the modifiables know nothing of allocations.
pub fn covered_as_items()
    ensures law { (code : Code) (q : Queue) (s : Store) (nodes : List Entry)
        → StartsAll code s nodes → Covers q s (λ p. false) nodes
        → Covered code q s none_waits (nodes_of nodes) }
{}
