// Sets of numbers as chunks of 64 bits, which ascend: where few numbers are near each other, a set takes little memory.

ghost use Rattle.std.specs.Prelude.{◌≡◌, ◌≢◌, ◌<◌, ◌≤◌, ◌^◌, ◌*◌, ◌+◌, ◌/◌, ◌==◌, ◌||◌, ◌&&◌, not, true, false, ℕ, []};
ghost use Rattle.std.specs.Prelude.{◌∷◌, ◌++◌, Some, slice_get, slice_set, length, bit_or, if◌then◌else◌, IfSome};
ghost use Rattle.std.specs.Prelude.{IfNone, IfOk, OnOk, OnErr};
ghost use Rattle.std.specs.Int.{bit_at};
ghost use Rattle.ceal_flow.specs.declared.bits.Chunk.{Chunk as ChunkOf};
ghost use Rattle.ceal_flow.specs.Bits.{bits_of, has_bit, inside, members, AreOrdered, AreBefore, IsNotBefore};
ghost use Rattle.ceal_flow.specs.Sets.{is_that};

use ceal_base::no_memory::NoMemory;
use std::alloc::Global;

/// The numbers of a set from `64 * at` on, a bit for each of 64.
#[derive(Clone, Copy, PartialEq, Eq, Debug)]
pub struct Chunk {
    pub at: u32,
    pub bits: u64,
}

/// The first index from `from` on whose chunk is not before `at`.
pub fn skip(chunks: &[Chunk], from: usize, at: u32) -> usize
    requires within { from ≤ length chunks.now }
    requires before { AreBefore chunks.now from at }
    ensures within { result ≤ length chunks.now }
    ensures before { AreBefore chunks.now result at }
    ensures place { IsNotBefore chunks.now result at }
{
    for i in from..chunks.len() {
        if chunks[i].at >= at {
            return i;
        }
    }
    chunks.len()
}

/// The bits of the chunk `at`, if it is at its place.
fn bits_there(chunks: &[Chunk], index: usize, at: u32) -> Option<u64>
    requires place { IsNotBefore chunks.now index at }
    ensures some { IfSome result (λ bits. slice_get chunks.now index
        ≡ Some (record { at = at; bits = bits })) }
    ensures none { IfNone result
        ((c : ChunkOf) → slice_get chunks.now index ≡ Some c → at < c.at) }
{
    match chunks.get(index) {
        Some(chunk) => {
            if chunk.at == at {
                Some(chunk.bits)
            } else {
                None
            }
        }
        None => None,
    }
}

/// The bits of the chunk `at`, whose place this is; none, where it is not there.
fn bits_at(chunks: &[Chunk], index: usize, at: u32) -> u64
    requires ordered { AreOrdered chunks.now }
    requires before { AreBefore chunks.now index at }
    requires place { IsNotBefore chunks.now index at }
    ensures value { result ≡ bits_of chunks.now at }
{
    bits_there(chunks, index, at).unwrap_or(0)
}

fn is_set(bits: u64, j: u32) -> bool
    requires small { j < 64 }
    ensures value { result ≡ (bit_at bits j == 1) }
{
    (bits >> j) & 1 == 1
}

/// Whether the number is in the set.
pub fn has(chunks: &[Chunk], v: u32) -> bool
    requires ordered { AreOrdered chunks.now }
    ensures value { result ≡ has_bit chunks.now v }
{
    let at = v / 64;
    is_set(bits_at(chunks, skip(chunks, 0, at), at), v % 64)
}

fn replace(chunks: &mut Vec<Chunk>, index: usize, chunk: Chunk)
    requires within { index < length chunks.old.items }
    ensures value { chunks.new.items ≡ slice_set chunks.old.items index chunk }
{
    chunks[index] = chunk;
}

fn joined(old: u64, bits: u64) -> u64
    ensures value { result ≡ bit_or old bits }
    ensures fits { result < 2 ^ 64 }
{
    old | bits
}

/// Adds bits to a chunk, whose place this is, and says whether any was added.
pub fn put(chunks: &mut Vec<Chunk>, index: usize, at: u32, bits: u64) -> Result<bool, NoMemory>
    requires ordered { AreOrdered chunks.old.items }
    requires within { index ≤ length chunks.old.items }
    requires before { AreBefore chunks.old.items index at }
    requires place { IsNotBefore chunks.old.items index at }
    requires small { at < 2 ^ 26 }
    ensures here { OnOk result
        (bits_of chunks.new.items at ≡ bit_or (bits_of chunks.old.items at) bits) }
    ensures others { OnOk result
        ((k : ℕ) → k ≢ at → bits_of chunks.new.items k ≡ bits_of chunks.old.items k) }
    ensures same { IfOk result
        (λ changed. changed ≡ false → chunks.new.items ≡ chunks.old.items) }
    ensures more { IfOk result
        (λ changed. changed ≡ true → (j : ℕ) × (j < 64)
        × (bit_at (bits_of chunks.old.items at) j ≢ bit_at (bits_of chunks.new.items at) j)) }
    ensures err { OnErr result (chunks.new.items ≡ chunks.old.items) }
    ensures ordered { AreOrdered chunks.new.items }
    ensures before { AreBefore chunks.new.items index at }
    ensures within { index ≤ length chunks.new.items }
{
    match bits_there(chunks.as_slice(), index, at) {
        Some(old) => {
            let bits = joined(old, bits);
            if bits == old {
                return Ok(false);
            }
            replace(chunks, index, Chunk { at, bits });
        }
        None => {
            if bits == 0 {
                return Ok(false);
            }
            chunks.insert(index, Chunk { at, bits })?;
        }
    }
    Ok(true)
}

/// The bits of a chunk, without that of a number.
fn but(chunk: Chunk, except: Option<u32>) -> u64
    ensures value { (j : ℕ) → j < 64 → bit_at result j
        ≡ (if is_that except (chunk.at * 64 + j) then 0 else bit_at chunk.bits j) }
{
    match except {
        None => chunk.bits,
        Some(v) => {
            if v / 64 == chunk.at {
                chunk.bits & !(1 << (v % 64))
            } else {
                chunk.bits
            }
        }
    }
}

/// A copy, with room for what a set of `others` chunks adds. Mostly two sets have no more chunks than the larger one by
/// itself, and a vector that grows by pushes would have up to twice that room.
pub fn copied(alloc: Global, chunks: &[Chunk], others: usize) -> Result<Vec<Chunk>, NoMemory>
    ensures equal { IfOk result (λ copy. copy.items ≡ chunks.now) }
{
    let room = chunks.len().max(others);
    let mut copy = Vec::with_capacity(alloc, room)?;
    copy.extend_from_slice(chunks)?;
    Ok(copy)
}

/// Adds the numbers of the other set but one, and says whether any was added.
pub fn add(chunks: &mut Vec<Chunk>, others: &[Chunk], except: Option<u32>) -> Result<bool, NoMemory>
    requires ordered { AreOrdered chunks.old.items }
    requires others { AreOrdered others.now }
    ensures joined { OnOk result ((w : ℕ)
        → has_bit chunks.new.items w
        ≡ (has_bit chunks.old.items w || (has_bit others.now w && not (is_that except w)))) }
    ensures same { IfOk result
        (λ changed. changed ≡ false → chunks.new.items ≡ chunks.old.items) }
    ensures more { IfOk result
        (λ changed. changed ≡ true → (w : ℕ)
        × (has_bit chunks.old.items w ≡ false) × (has_bit chunks.new.items w ≡ true)) }
    ensures ordered { AreOrdered chunks.new.items }
{
    let mut changed = false;
    let mut from = 0;
    for other in others {
        from = skip(chunks.as_slice(), from, other.at);
        let more = put(chunks, from, other.at, but(*other, except))?;
        changed = changed | more;
    }
    Ok(changed)
}

fn push_if(numbers: &mut Vec<u32>, is_there: bool, v: u32) -> Result<(), NoMemory>
    ensures { OnOk result
        (numbers.new.items ≡ numbers.old.items ++ (if is_there then v ∷ [] else [])) }
{
    if is_there {
        numbers.push(v)?;
    }
    Ok(())
}

/// The numbers of a chunk, ascending.
fn push_bits(numbers: &mut Vec<u32>, chunk: Chunk) -> Result<(), NoMemory>
    requires small { chunk.at < 2 ^ 26 }
    ensures value { OnOk result (numbers.new.items ≡ numbers.old.items ++ inside chunk 64) }
{
    let first = chunk.at * 64;
    for j in 0..64 {
        push_if(numbers, is_set(chunk.bits, j), first + j)?;
    }
    Ok(())
}

/// The numbers, ascending.
pub fn numbers(alloc: Global, chunks: &[Chunk]) -> Result<Vec<u32>, NoMemory>
    requires ordered { AreOrdered chunks.now }
    ensures value { IfOk result (λ vs. vs.items ≡ members chunks.now) }
{
    let mut numbers = Vec::new(alloc);
    for chunk in chunks {
        push_bits(&mut numbers, *chunk)?;
    }
    Ok(numbers)
}
