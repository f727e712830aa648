// Labels for new links.

ghost use Rattle.std.specs.Prelude.{◌≡◌, ◌+◌, ◌*◌, ◌^◌, ◌<◌, ◌≤◌, length, IfSome, IsTrue};
ghost use Rattle.ceal_order.specs.Stamps.{is_in, place};
ghost use Rattle.ceal_order.specs.Links.{stamps_of, prev_of, label_of, IsLine, Rising, SameLinks, Between};
ghost use Rattle.ceal_order.specs.Runs.{Labelled, Spread};

use crate::link::{FIRST, Link, NO_LINK, label_at, next_at};
use crate::run::sparse_run;

/// How many labels there are.
const LABELS: u64 = 1 << 62;

/// Into how many shares the room between two links is parted. Only the first one is before the new link.
const SHARES: u64 = 1 << SHARE_BITS;

/// That number of shares is 2 to this.
const SHARE_BITS: u32 = 3;

/// A label that is free directly after a link; where there is none, labels are given again round it first.
#[inline(always)]
pub fn fresh_label(links: &mut Vec<Link>, at: u32) -> u64
    requires line { IsLine links.old.items (stamps_of links.old.items) }
    requires here { IsTrue (is_in at (stamps_of links.old.items)) }
    ensures same { SameLinks links.old.items links.new.items }
    ensures rising { Rising (prev_of links.new.items) (label_of links.new.items)
        (stamps_of links.old.items) }
    ensures between { Between links.new.items at result }
{
    fresh_label_in(links, at)
}

// The same in a slice.
#[inline(always)]
fn fresh_label_in(links: &mut [Link], at: u32) -> u64
    requires line { IsLine links.old (stamps_of links.old) }
    requires here { IsTrue (is_in at (stamps_of links.old)) }
    ensures same { SameLinks links.old links.new }
    ensures rising { Rising (prev_of links.new) (label_of links.new) (stamps_of links.old) }
    ensures between { Between links.new at result }
{
    match free_label(links, at) {
        Some(label) => label,
        None => relabel(links, at),
    }
}

// A label that is free directly after a link, where there is one: between two links a small share of the room after the
// first one, since what is put in next mostly comes directly after it. After the last link, and between the first and
// the second, the room is parted into at least as many shares as there are links, so that there is room for many there.
#[inline(always)]
fn free_label(links: &[Link], at: u32) -> Option<u64>
    requires line { IsLine links.now (stamps_of links.now) }
    requires here { IsTrue (is_in at (stamps_of links.now)) }
    ensures { IfSome result (Between links.now at) }
{
    let low = label_at(links, at);
    let next = next_at(links, at);
    if next == NO_LINK {
        let step = free_step(LABELS - low, bits_of(links.len()))?;
        return Some(low + step);
    }
    let high = label_at(links, next);
    let room = high - low;
    if at == FIRST {
        let step = free_step(room, bits_of(links.len()))?;
        return Some(high - step);
    }
    let step = free_step(room, SHARE_BITS)?;
    Some(low + step)
}

// How many bits a count has.
fn bits_of(count: usize) -> u32
    requires some { 0 < count }
    requires few { count < 2 ^ 32 }
    ensures some { 0 < result }
    ensures few { result ≤ 32 }
{
    64 - (count as u64).leading_zeros()
}

// A step into a room: one of its 2^bits shares, but at least 1 and less than the room. None where there is no such
// step.
fn free_step(room: u64, bits: u32) -> Option<u64>
    requires some { 0 < bits }
    requires few { bits ≤ 32 }
    ensures { IfSome result (λ step. (0 < step) × (step < room)) }
{
    if room < 2 {
        return None;
    }
    Some((room >> bits).max(1))
}

// Gives labels again round a link, and a label that is then free directly after it. It is called seldom, and is a
// separate function, so that the usual path is short.
#[inline(never)]
fn relabel(links: &mut [Link], at: u32) -> u64
    requires line { IsLine links.old (stamps_of links.old) }
    requires here { IsTrue (is_in at (stamps_of links.old)) }
    ensures same { SameLinks links.old links.new }
    ensures rising { Rising (prev_of links.new) (label_of links.new) (stamps_of links.old) }
    ensures between { Between links.new at result }
{
    let run = sparse_run(links, at);
    let gap = gap_in(run.count, run.bits);
    spread(links, run.first, run.count, run.low, gap);
    label_at(links, at) + share_of(gap)
}

// The first share of a room.
fn share_of(room: u64) -> u64
    requires { 2 ≤ room }
    ensures some { 0 < result }
    ensures less { result < room }
{
    (room / SHARES).max(1)
}

// How far apart `count` labels may lie in a range of 2^bits.
fn gap_in(count: u32, bits: u32) -> u64
    requires some { 0 < count }
    requires fewest { 3 ≤ bits }
    requires most { bits ≤ 62 }
    requires sparse { count * 2 ^ bits ≤ 3 ^ bits }
    ensures wide { 2 ≤ result }
    ensures fits { count * result ≤ 2 ^ bits }
{
    (1 << bits) / u64::from(count)
}

// Gives links one after another labels from low on, this far apart.
fn spread(links: &mut [Link], first: u32, count: u32, low: u64, gap: u64)
    requires line { IsLine links.old (stamps_of links.old) }
    requires first { IsTrue (is_in first (stamps_of links.old)) }
    requires there { place first (stamps_of links.old) + count ≤ length (stamps_of links.old) }
    requires room { low + count * gap ≤ 2 ^ 62 }
    ensures { Spread links.old links.new first count low gap }
{
    let mut at = first;
    for place in 0..count {
        set_label(links, at, low + u64::from(place) * gap);
        at = next_at(links, at);
    }
}

// Gives a link this label.
fn set_label(links: &mut [Link], at: u32, label: u64)
    requires { at < length links.old }
    ensures { Labelled links.old links.new at label }
{
    let link = &mut links[at as usize];
    link.label = label;
}
