// The links that stamps stand for: a doubly linked list in a slice, and its spare links in a separate list.

ghost use Rattle.std.specs.Prelude.{◌≡◌, ◌≢◌, ◌⊎◌, ◌+◌, ◌^◌, ◌<◌, length, IfOk, OnErr};
ghost use Rattle.ceal_order.specs.Links.{next_of, prev_of, label_of, no_link, Spliced, Unlinked, Grown};

use crate::room::make_room;
use ceal_base::no_memory::NoMemory;

/// The index that stands for no link.
pub const NO_LINK: u32 = u32::MAX;

/// The link of the first stamp.
pub const FIRST: u32 = 0;

/// One link: its label, which rises along the list, and its neighbours.
#[derive(Clone, Copy)]
pub struct Link {
    pub label: u64,
    pub prev: u32,
    pub next: u32,
}

/// The label of a stamp.
pub fn label_at(links: &[Link], at: u32) -> u64
    requires { at < length links.now }
    ensures { result ≡ label_of links.now at }
{
    links[at as usize].label
}

/// The stamp after it, or none.
pub fn next_at(links: &[Link], at: u32) -> u32
    requires { at < length links.now }
    ensures { result ≡ next_of links.now at }
{
    links[at as usize].next
}

/// The stamp before it, or none.
pub fn prev_at(links: &[Link], at: u32) -> u32
    requires { at < length links.now }
    ensures { result ≡ prev_of links.now at }
{
    links[at as usize].prev
}

// Puts a new link after another.
#[inline(always)]
fn splice_slice(links: &mut [Link], at: u32, new: u32, label: u64)
    requires at { at < length links.old }
    requires new { new < length links.old }
    requires apart { at ≢ new }
    requires next { next_of links.old at ≡ no_link ⊎ next_of links.old at < length links.old }
    requires next_apart { next_of links.old at ≢ new }
    ensures { Spliced links.old links.new at new label }
{
    let next = next_at(links, at);
    if next != NO_LINK {
        let behind = &mut links[next as usize];
        behind.prev = new;
    }
    let before = &mut links[at as usize];
    before.next = new;
    links[new as usize] = Link {
        label,
        prev: at,
        next,
    };
}

// Takes out a link that is after another, and puts it before a spare one.
fn unlink_slice(links: &mut [Link], at: u32, free: u32)
    requires at { at < length links.old }
    requires prev { prev_of links.old at < length links.old }
    requires apart { prev_of links.old at ≢ at }
    requires next { next_of links.old at ≡ no_link ⊎ next_of links.old at < length links.old }
    requires next_apart { next_of links.old at ≢ at }
    ensures { Unlinked links.old links.new at free }
{
    let next = next_at(links, at);
    let prev = prev_at(links, at);
    if next != NO_LINK {
        let behind = &mut links[next as usize];
        behind.prev = prev;
    }
    let before = &mut links[prev as usize];
    before.next = next;
    let gone = &mut links[at as usize];
    gone.next = free;
}

/// Puts a new link with this label after another.
#[inline(always)]
pub fn splice(links: &mut Vec<Link>, at: u32, new: u32, label: u64)
    requires at { at < length links.old.items }
    requires new { new < length links.old.items }
    requires apart { at ≢ new }
    requires next { next_of links.old.items at ≡ no_link
        ⊎ next_of links.old.items at < length links.old.items }
    requires next_apart { next_of links.old.items at ≢ new }
    ensures { Spliced links.old.items links.new.items at new label }
{
    splice_slice(links, at, new, label);
}

/// Takes out a link that is after another, and puts it before a spare one.
pub fn unlink(links: &mut Vec<Link>, at: u32, free: u32)
    requires at { at < length links.old.items }
    requires prev { prev_of links.old.items at < length links.old.items }
    requires apart { prev_of links.old.items at ≢ at }
    requires next { next_of links.old.items at ≡ no_link
        ⊎ next_of links.old.items at < length links.old.items }
    requires next_apart { next_of links.old.items at ≢ at }
    ensures { Unlinked links.old.items links.new.items at free }
{
    unlink_slice(links, at, free);
}

/// Adds `more` spare links, and gives the first of them, which leads to those that were there from `free` on. Where
/// there is no memory for all of them, none is added.
pub fn add_spares(links: &mut Vec<Link>, free: u32, more: usize) -> Result<u32, NoMemory>
    requires { length links.old.items + more < 2 ^ 32 }
    ensures ok { IfOk result (λ first. Grown links.old.items links.new.items free first more) }
    ensures err { OnErr result (links.new.items ≡ links.old.items) }
{
    make_room(links, more)?;
    let mut first = free;
    for added in 0..more {
        let at = links.len();
        links.push_reserved(Link {
            label: 0,
            prev: NO_LINK,
            next: first,
        });
        first = at as u32;
    }
    Ok(first)
}
