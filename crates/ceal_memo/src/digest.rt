// The hashes of keys.

ghost use Rattle.std.specs.Prelude.{◌≡◌, ◌<◌, ◌≤◌, ◌+◌, ◌*◌, ◌/◌, ◌%◌, ◌^◌, Some, length, slice_get};
ghost use Rattle.ceal_base.specs.Hashing.{mixed as one_more};
ghost use Rattle.ceal_memo.specs.Hashes.{word_number, seed_word, with_number, with_wide, with_words};
ghost use Rattle.ceal_memo.specs.Hashes.{empty, upper_bits, alloc_digest, hash_of};
ghost use Rattle.ceal_memo.specs.Keys.{OfRead, OfAlloc};

use crate::key::ReadKey;
use ceal_base::forest::Key;
use ceal_base::hashing::mixed;
use ceal_base::word::{Place, Word};

// Which word of a seed the scrambled sum of a key is multiplied by.
const ODD_WORD: usize = 64;

// A sum of numbers, each times a word of a seed, and how many words it has used.
#[derive(Clone, Copy)]
struct Digest {
    sum: u64,
    at: usize,
}

/// The hash that a read with a key is entered under.
#[tactic(auto, unfolding(crate::specs::Hashes::hash_of, crate::specs::Hashes::key_digest))]
#[inline(always)]
pub fn hash_of_read(seed: &[u64], key: &ReadKey<'_>) -> u32
    ensures { result ≡ hash_of seed.now (OfRead key.now) }
{
    let closure = key.unit.0 as u64 * 4_294_967_296 + key.var as u64;
    let sized = with_wide(seed, nothing(), key.args.len() as u128 * 4);
    let placed = with_wide(seed, sized, u128::from(key.place.number()));
    let closed = with_wide(seed, placed, u128::from(closure));
    upper_bits(seed, with_words(seed, closed, key.args).sum)
}

/// The hash that an allocation with a key is entered under.
#[tactic(auto, unfolding(crate::specs::Hashes::hash_of, crate::specs::Hashes::key_digest))]
#[inline(always)]
pub fn hash_of_alloc(seed: &[u64], key: &Key) -> u32
    ensures { result ≡ hash_of seed.now (OfAlloc key.now) }
{
    upper_bits(seed, digest_of_alloc(seed, key).sum)
}

#[tactic(auto, unfolding(crate::specs::Hashes::alloc_digest))]
fn digest_of_alloc(seed: &[u64], key: &Key) -> Digest
    ensures { result ≡ alloc_digest seed.now key.now }
{
    match key {
        Key::Init { function, args } => {
            let words = args.items();
            let sized = with_wide(seed, nothing(), words.len() as u128 * 4 + 1);
            let named = with_number(seed, sized, u64::from(*function));
            with_words(seed, named, words)
        }
        Key::ModInt => with_number(seed, nothing(), 2),
        Key::ModPtr(pointed) => {
            let tagged = with_number(seed, nothing(), 3);
            with_number(seed, tagged, u64::from(*pointed))
        }
    }
}

fn nothing() -> Digest
    ensures { result ≡ empty }
{
    Digest { sum: 0, at: 0 }
}

// What a hash is of a sum. The sums of keys of one progression are a progression themselves, so they are scrambled; the
// product with an odd word of the seed then brings no two of them together in more than one seed of 2^31.
#[inline]
fn upper_bits(seed: &[u64], sum: u64) -> u32
    ensures { result ≡ upper_bits seed.now sum }
{
    let odd = seed_word(seed, ODD_WORD) / 2 * 2 + 1;
    let product = odd.wrapping_mul(mixed(0, sum));
    (product >> 32) as u32
}

// A digest with words after it.
fn with_words(seed: &[u64], digest: Digest, words: &[Word]) -> Digest
    ensures { result ≡ with_words seed.now digest words.now }
{
    let mut all = digest;
    for word in words {
        all = with_word(seed, all, *word);
    }
    all
}

// A digest with a word after it.
#[inline]
fn with_word(seed: &[u64], digest: Digest, word: Word) -> Digest
    ensures { result ≡ with_wide seed.now digest (word_number word) }
{
    let halves = halves_of(word);
    with_halves(seed, digest, halves.low, halves.high)
}

// A number in two parts: its lower 32 bits and the others.
#[derive(Clone, Copy)]
struct Halves {
    low: u64,
    high: u64,
}

// A word as one number, which no other word has, in two parts.
#[inline]
fn halves_of(word: Word) -> Halves
    ensures low { result.low ≡ word_number word % 4294967296 }
    ensures high { result.high ≡ word_number word / 4294967296 }
{
    match word {
        Word::Num(number) => halves_above(0, number.cast_unsigned()),
        Word::Null => halves_above(1, 0),
        Word::Block(block) => halves_above(2, Place { block, field: 0 }.number()),
        Word::At(place) => halves_above(3, place.number()),
    }
}

// A number and a multiple of 2^64, in two parts.
#[inline]
fn halves_above(times: u64, number: u64) -> Halves
    requires { times ≤ 3 }
    ensures low { result.low ≡ (times * 2 ^ 64 + number) % 4294967296 }
    ensures high { result.high ≡ (times * 2 ^ 64 + number) / 4294967296 }
{
    Halves {
        low: number % 4_294_967_296,
        high: times * 4_294_967_296 + number / 4_294_967_296,
    }
}

// One more number, in two parts, each times another word of the seed.
fn with_wide(seed: &[u64], digest: Digest, number: u128) -> Digest
    requires { number < 2 ^ 96 }
    ensures { result ≡ with_wide seed.now digest number }
{
    let low = (number % 4_294_967_296) as u64;
    let high = (number / 4_294_967_296) as u64;
    with_halves(seed, digest, low, high)
}

// Two more numbers. Mostly two words of the seed are left for them, which is looked at once.
#[inline]
fn with_halves(seed: &[u64], digest: Digest, low: u64, high: u64) -> Digest
    ensures { result ≡ with_number seed.now (with_number seed.now digest low) high }
{
    let first = digest.at;
    if seed.len() >= 2 && first <= seed.len() - 2 {
        let one = with_next(seed, digest, low);
        return with_next(seed, one, high);
    }
    let one = with_number(seed, digest, low);
    with_number(seed, one, high)
}

// One more number, where a word of the seed is left.
#[inline]
fn with_next(seed: &[u64], digest: Digest, number: u64) -> Digest
    requires { digest.at < length seed.now }
    ensures value { result ≡ with_number seed.now digest number }
    ensures at { result.at ≡ digest.at + 1 }
{
    let word = word_at(seed, digest.at);
    Digest {
        sum: digest.sum.wrapping_add(word.wrapping_mul(number)),
        at: digest.at + 1,
    }
}

#[inline]
fn word_at(seed: &[u64], at: usize) -> u64
    requires { at < length seed.now }
    ensures { slice_get seed.now at ≡ Some result }
{
    seed[at]
}

// One more number, with the word of the seed that is next.
#[inline]
fn with_number(seed: &[u64], digest: Digest, number: u64) -> Digest
    ensures { result ≡ with_number seed.now digest number }
{
    match seed.get(digest.at) {
        Some(word) => Digest {
            sum: digest.sum.wrapping_add(word.wrapping_mul(number)),
            at: digest.at + 1,
        },
        None => Digest {
            sum: anew(seed, digest.sum, number),
            at: 2,
        },
    }
}

// The sum where no word of the seed is left: its words begin again, after what is there. It is a separate function, so
// that the usual path is short.
#[inline(never)]
fn anew(seed: &[u64], sum: u64, number: u64) -> u64
    ensures { result ≡ (seed_word seed.now 0 * (one_more 0 sum / 2 ^ 32)
        + seed_word seed.now 1 * number) % 2 ^ 64 }
{
    let before = mixed(0, sum) >> 32;
    let first = seed_word(seed, 0).wrapping_mul(before);
    let second = seed_word(seed, 1).wrapping_mul(number);
    first.wrapping_add(second)
}

// A word of a seed.
fn seed_word(seed: &[u64], at: usize) -> u64
    ensures { result ≡ seed_word seed.now at }
{
    match seed.get(at) {
        Some(word) => *word,
        None => 0,
    }
}
