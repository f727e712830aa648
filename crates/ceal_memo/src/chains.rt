// Groups of stamps by hash, in chains.

ghost use Rattle.std.specs.Prelude.{◌≡◌, ◌≢◌, ◌<◌, ◌≤◌, ◌+◌, ◌*◌, ◌^◌, ℕ, suc, Bool, true, false, length, IfSome};
ghost use Rattle.std.specs.Prelude.{IfNone, OnOk, OnErr, IsTrue};
ghost use Rattle.ceal_memo.specs.Chains.{bucket, group_at, head_at, next_at, lists_of, with_one, stamped, IsBefore};
ghost use Rattle.ceal_memo.specs.Chains.{Chained, IsLinked, IsEmptyAt};

use ceal_base::no_memory::NoMemory;
use ceal_order::rising::Rising;

// The fewest buckets.
const FEWEST_BUCKETS: usize = 64;

/// The stamps under a hash. A group with stamps is in the chain of the bucket that its hash falls into: there those
/// with higher numbers are before it, and `next` is the link to the one after it. The link 0 leads nowhere, and n + 1
/// to the group n.
#[derive(Drop)]
pub struct Group {
    pub hash: u32,
    pub next: u32,
    pub list: Rising,
}

// The bucket that a hash falls into.
fn bucket(size: usize, hash: u32) -> usize
    requires some { 0 < size }
    ensures bucket { result ≡ bucket size hash }
    ensures within { result < size }
{
    (u128::from(hash) * size as u128 / 4_294_967_296) as usize
}

// The link to the first group in the bucket of a hash.
fn first(heads: &[u32], hash: u32) -> u32
    ensures { result ≡ head_at heads.now (bucket (length heads.now) hash) }
{
    if heads.is_empty() {
        return 0;
    }
    heads[bucket(heads.len(), hash)]
}

/// The group with stamps under a hash.
pub fn find(heads: &[u32], groups: &[Group], hash: u32) -> Option<u32>
    requires linked { IsLinked heads.now groups.now }
    ensures within { IfSome result (λ n. n < length groups.now) }
    ensures few { IfSome result (λ n. n < 4294967295) }
    ensures stamps { IfSome result (λ n. stamped groups.now n ≡ true) }
    ensures hash { IfSome result (λ n. (group_at groups.now n).hash ≡ hash) }
    ensures none { IfNone result ((n : ℕ) → stamped groups.now n ≡ true
        → (group_at groups.now n).hash ≢ hash) }
{
    let mut link = first(heads, hash);
    while link != 0 {
        let number = link - 1;
        let group = &groups[number as usize];
        if group.hash == hash {
            return Some(number);
        }
        link = group.next;
    }
    None
}

// The last group in a bucket before the place of one: a link, which is 0 where that place is the first.
fn before(heads: &[u32], groups: &[Group], bucket: usize, number: u32) -> u32
    requires bucket { bucket < length heads.now }
    requires chained { (chosen : ℕ → Bool)
        × Chained (length groups.now) chosen heads.now groups.now }
    ensures before { (chosen : ℕ → Bool) → Chained (length groups.now) chosen heads.now groups.now
        → IsBefore chosen heads.now groups.now bucket number result }
{
    let mut before = 0;
    let mut link = heads[bucket];
    while link.saturating_sub(1) > number {
        before = link;
        link = groups[link as usize - 1].next;
    }
    before
}

// The link from a place in a bucket: from the group there, or from the head.
fn link_after(heads: &[u32], groups: &[Group], bucket: usize, before: u32) -> u32
    requires bucket { bucket < length heads.now }
    requires before { before ≤ length groups.now }
    ensures head { before ≡ 0 → result ≡ head_at heads.now bucket }
    ensures group { (n : ℕ) → before ≡ suc n → result ≡ next_at groups.now n }
{
    if before == 0 {
        return heads[bucket];
    }
    groups[before as usize - 1].next
}

// Another link there.
fn lead(heads: &mut [u32], groups: &mut [Group], bucket: usize, before: u32, link: u32)
    requires bucket { bucket < length heads.old }
    requires before { before ≤ length groups.old }
    ensures size { length heads.new ≡ length heads.old }
    ensures lists { lists_of groups.new ≡ lists_of groups.old }
    ensures head { before ≡ 0 → head_at heads.new bucket ≡ link }
    ensures same { before ≡ 0 → groups.new ≡ groups.old }
    ensures heads { (b : ℕ) → b ≢ bucket → head_at heads.new b ≡ head_at heads.old b }
    ensures group { (n : ℕ) → before ≡ suc n → next_at groups.new n ≡ link }
    ensures unmoved { (n : ℕ) → before ≡ suc n → heads.new ≡ heads.old }
    ensures others { (n : ℕ) → before ≢ suc n → next_at groups.new n ≡ next_at groups.old n }
{
    if before == 0 {
        heads[bucket] = link;
        return;
    }
    let group = &mut groups[before as usize - 1];
    group.next = link;
}

/// Puts a group that is empty into the chain of its bucket.
pub fn chain(heads: &mut [u32], groups: &mut [Group], number: u32)
    requires number { number < length groups.old }
    requires few { number < 4294967295 }
    requires buckets { 0 < length heads.old }
    requires empty { stamped groups.old number ≡ false }
    requires chained { Chained (length groups.old) (stamped groups.old) heads.old groups.old }
    ensures size { length heads.new ≡ length heads.old }
    ensures lists { lists_of groups.new ≡ lists_of groups.old }
    ensures next { (n : ℕ) → n ≢ number → IsEmptyAt groups.old n
        → next_at groups.new n ≡ next_at groups.old n }
    ensures chained { Chained (length groups.new) (with_one number (stamped groups.new))
        heads.new groups.new }
{
    let bucket = bucket(heads.len(), groups[number as usize].hash);
    let before = before(heads, groups, bucket, number);
    let next = link_after(heads, groups, bucket, before);
    let group = &mut groups[number as usize];
    group.next = next;
    lead(heads, groups, bucket, before, number + 1);
}

/// Takes a group that is empty out of the chain of its bucket.
pub fn unchain(heads: &mut [u32], groups: &mut [Group], number: u32)
    requires number { number < length groups.old }
    requires buckets { 0 < length heads.old }
    requires empty { stamped groups.old number ≡ false }
    requires chained { Chained (length groups.old) (with_one number (stamped groups.old))
        heads.old groups.old }
    ensures size { length heads.new ≡ length heads.old }
    ensures lists { lists_of groups.new ≡ lists_of groups.old }
    ensures next { (n : ℕ) → n ≢ number → IsEmptyAt groups.old n
        → next_at groups.new n ≡ next_at groups.old n }
    ensures chained { Chained (length groups.new) (stamped groups.new) heads.new groups.new }
{
    let group = &groups[number as usize];
    let next = group.next;
    let bucket = bucket(heads.len(), group.hash);
    let before = before(heads, groups, bucket, number);
    lead(heads, groups, bucket, before, next);
}

/// Puts a group at the head of its bucket, where no group has a higher number.
pub fn chain_first(heads: &mut [u32], groups: &mut [Group], number: u32)
    requires number { number < length groups.old }
    requires few { number < 4294967295 }
    requires buckets { 0 < length heads.old }
    requires stamps { stamped groups.old number ≡ true }
    requires chained { Chained number (stamped groups.old) heads.old groups.old }
    ensures size { length heads.new ≡ length heads.old }
    ensures lists { lists_of groups.new ≡ lists_of groups.old }
    ensures next { (n : ℕ) → n ≢ number → next_at groups.new n ≡ next_at groups.old n }
    ensures chained { Chained (suc number) (stamped groups.new) heads.new groups.new }
{
    let group = &mut groups[number as usize];
    let bucket = bucket(heads.len(), group.hash);
    group.next = heads[bucket];
    heads[bucket] = number + 1;
}

// Puts all groups with stamps into buckets that are empty.
fn chain_all(heads: &mut [u32], groups: &mut [Group])
    requires few { length groups.old < 4294967296 }
    requires buckets { 0 < length heads.old }
    requires empty { (b : ℕ) → head_at heads.old b ≡ 0 }
    ensures size { length heads.new ≡ length heads.old }
    ensures lists { lists_of groups.new ≡ lists_of groups.old }
    ensures next { (n : ℕ) → IsEmptyAt groups.old n → next_at groups.new n ≡ next_at groups.old n }
    ensures chained { Chained (length groups.new) (stamped groups.new) heads.new groups.new }
{
    for number in 0..groups.len() {
        if !groups[number].list.is_empty() {
            chain_first(heads, groups, number as u32);
        }
    }
}

// Twice as many buckets. It is called seldom, and is a separate function, so that the usual path is short.
#[inline(never)]
fn widen(heads: &mut Vec<u32>, groups: &mut [Group]) -> Result<(), NoMemory>
    requires few { length groups.old < 4294967296 }
    requires linked { IsLinked heads.old.items groups.old }
    ensures linked { IsLinked heads.new.items groups.new }
    ensures lists { lists_of groups.new ≡ lists_of groups.old }
    ensures next { (n : ℕ) → IsEmptyAt groups.old n → next_at groups.new n ≡ next_at groups.old n }
    ensures room { OnOk result (length groups.new < length heads.new.items) }
{
    let size = heads.len().saturating_mul(2).max(FEWEST_BUCKETS);
    let mut wide = Vec::new(*heads.allocator());
    wide.resize(size, 0)?;
    chain_all(&mut wide, groups);
    *heads = wide;
    Ok(())
}

/// Makes as many buckets as one more group needs.
pub fn make_buckets(heads: &mut Vec<u32>, groups: &mut [Group]) -> Result<(), NoMemory>
    requires few { length groups.old < 4294967296 }
    requires linked { IsLinked heads.old.items groups.old }
    ensures linked { IsLinked heads.new.items groups.new }
    ensures lists { lists_of groups.new ≡ lists_of groups.old }
    ensures next { (n : ℕ) → IsEmptyAt groups.old n → next_at groups.new n ≡ next_at groups.old n }
    ensures room { OnOk result (length groups.new < length heads.new.items) }
{
    if groups.len() < heads.len() {
        return Ok(());
    }
    widen(heads, groups)
}
