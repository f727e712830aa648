// The links whose labels lie in a range, and the smallest range round a link that holds few enough of them.

ghost use Rattle.std.specs.Prelude.{◌≡◌, ◌+◌, ◌*◌, ◌^◌, ◌<◌, ◌≤◌, ◌↔◌, length, IfSome, IfNone, IsTrue};
ghost use Rattle.ceal_order.specs.Stamps.{is_in, place};
ghost use Rattle.ceal_order.specs.Links.{stamps_of, label_of, IsLine};
ghost use Rattle.ceal_order.specs.Runs.{LowBefore, HighAfter, IsRun, Fills};

use crate::link::{FIRST, Link, NO_LINK, label_at, next_at, prev_at};

/// The smallest range that is looked at has 2^10 labels: in a smaller one they would soon be given again.
const FEWEST_BITS: u32 = 10;

/// The links whose labels lie among the 2^bits labels from `low` on.
#[derive(Clone, Copy)]
pub struct Run {
    pub low: u64,
    pub bits: u32,
    pub first: u32,
    pub last: u32,
    pub count: u32,
}

// The link before this one, unless there is none or its label is below low.
fn link_before(links: &[Link], at: u32, low: u64) -> Option<u32>
    requires line { IsLine links.now (stamps_of links.now) }
    requires here { IsTrue (is_in at (stamps_of links.now)) }
    ensures some_in { IfSome result (λ before. IsTrue (is_in before (stamps_of links.now))) }
    ensures some { IfSome result (λ before.
        place before (stamps_of links.now) + 1 ≡ place at (stamps_of links.now)) }
    ensures none { IfNone result (LowBefore links.now at low) }
{
    if at == FIRST {
        return None;
    }
    let before = prev_at(links, at);
    if label_at(links, before) < low {
        return None;
    }
    Some(before)
}

// The link after this one, unless there is none or its label is not below high.
fn link_after(links: &[Link], at: u32, high: u64) -> Option<u32>
    requires line { IsLine links.now (stamps_of links.now) }
    requires here { IsTrue (is_in at (stamps_of links.now)) }
    ensures some_in { IfSome result (λ after. IsTrue (is_in after (stamps_of links.now))) }
    ensures some { IfSome result (λ after.
        place after (stamps_of links.now) ≡ place at (stamps_of links.now) + 1) }
    ensures none { IfNone result (HighAfter links.now at high) }
{
    let after = next_at(links, at);
    if after == NO_LINK {
        return None;
    }
    if label_at(links, after) >= high {
        return None;
    }
    Some(after)
}

// The run with the links before it that are in its range. A link `at` is in both.
fn with_links_before(links: &[Link], at: u32, run: Run) -> Run
    requires line { IsLine links.now (stamps_of links.now) }
    requires run { IsRun links.now at run.first run.last run.count }
    ensures run { IsRun links.now at result.first result.last result.count }
    ensures before { LowBefore links.now result.first result.low }
    ensures same { result ≡ record run { first = result.first; count = result.count } }
{
    let mut first = run.first;
    let mut count = run.count;
    while let Some(before) = link_before(links, first, run.low) {
        first = before;
        count += 1;
    }
    Run {
        first,
        count,
        ..run
    }
}

// The run with the links after it that are in its range. A link `at` is in both.
fn with_links_after(links: &[Link], at: u32, run: Run, high: u64) -> Run
    requires line { IsLine links.now (stamps_of links.now) }
    requires run { IsRun links.now at run.first run.last run.count }
    ensures run { IsRun links.now at result.first result.last result.count }
    ensures after { HighAfter links.now result.last high }
    ensures same { result ≡ record run { last = result.last; count = result.count } }
{
    let mut last = run.last;
    let mut count = run.count;
    while let Some(after) = link_after(links, last, high) {
        last = after;
        count += 1;
    }
    Run { last, count, ..run }
}

// The run of all links in the aligned range of 2^bits labels that has the label of `at`, from a smaller run on.
fn widened(links: &[Link], at: u32, run: Run, bits: u32) -> Run
    requires line { IsLine links.now (stamps_of links.now) }
    requires run { IsRun links.now at run.first run.last run.count }
    requires fewest { 3 ≤ bits }
    requires most { bits ≤ 62 }
    ensures run { Fills links.now at result }
    ensures bits { result.bits ≡ bits }
{
    let low = range_start(label_at(links, at), bits);
    let high = low + (1 << bits);
    let run = with_links_before(links, at, Run { low, bits, ..run });
    with_links_after(links, at, run, high)
}

// The first label of the aligned range of 2^bits labels that has this one.
fn range_start(label: u64, bits: u32) -> u64
    requires label { label < 2 ^ 62 }
    requires bits { bits ≤ 62 }
    ensures { result + 2 ^ bits ≤ 2 ^ 62 }
{
    (label >> bits) << bits
}

// Whether `count` links are at most (3/2)^bits, and so leave room in a range of 2^bits labels.
fn is_sparse(count: u32, bits: u32) -> bool
    requires { bits ≤ 62 }
    ensures { IsTrue result ↔ (count * 2 ^ bits ≤ 3 ^ bits) }
{
    u128::from(count) * (1u128 << bits) <= 3u128.pow(bits)
}

/// The run of the smallest aligned range round a link's label that holds at most (3/2)^i links in its 2^i labels.
/// There is one: all 2^62 labels hold at most 2^32 links, which are fewer than (3/2)^62.
pub fn sparse_run(links: &[Link], at: u32) -> Run
    requires line { IsLine links.now (stamps_of links.now) }
    requires here { IsTrue (is_in at (stamps_of links.now)) }
    ensures run { Fills links.now at result }
    ensures sparse { result.count * 2 ^ result.bits ≤ 3 ^ result.bits }
{
    let alone = Run {
        low: 0,
        bits: 0,
        first: at,
        last: at,
        count: 1,
    };
    let mut run = widened(links, at, alone, FEWEST_BITS);
    while !is_sparse(run.count, run.bits) {
        let bits = run.bits + 1;
        run = widened(links, at, run, bits);
    }
    run
}
