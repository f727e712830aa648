// The words of a line.

ghost use Rattle.std.specs.Prelude.{◌≡◌, ◌≤◌, not, length, position, MatchOption, IfOk};
ghost use Rattle.std.specs.List.{prefix_len, position_or_len};
ghost use Rattle.ceal_script.specs.Characters as characters;
ghost use Rattle.ceal_script.specs.Words.{AreGaps, HasWord, HasWords, texts};

use crate::bytes::is_gap;
use ceal_base::no_memory::NoMemory;
use smallvec::SmallVec;
use std::alloc::Global;

/// The place of the first byte that is no gap.
fn gap_end(bytes: &[u8]) -> Option<usize>
    ensures { result ≡ position (λ b. not (characters.is_gap b)) bytes.now }
{
    bytes.iter().position(|byte| !is_gap(*byte))
}

/// The place of the first gap.
fn word_end(bytes: &[u8]) -> Option<usize>
    ensures { result ≡ position characters.is_gap bytes.now }
{
    bytes.iter().position(|byte| is_gap(*byte))
}

/// The number of gaps at the front.
pub fn gap_length(bytes: &[u8]) -> usize
    ensures within { result ≤ length bytes.now }
    ensures run { result ≡ prefix_len characters.is_gap bytes.now }
{
    gap_end(bytes).unwrap_or(bytes.len())
}

/// The number of bytes before the first gap.
pub fn word_length(bytes: &[u8]) -> usize
    ensures within { result ≤ length bytes.now }
    ensures run { result ≡ position_or_len characters.is_gap bytes.now }
{
    word_end(bytes).unwrap_or(bytes.len())
}

/// The first word and what follows it, if there is a word.
fn first_word(line: &[u8]) -> Option<(&[u8], &[u8])>
    ensures { MatchOption result (AreGaps line.now)
        (λ found. HasWord line.now found.0.now found.1.now) }
{
    let text = &line[gap_length(line)..];
    if text.is_empty() {
        return None;
    }
    Some(text.split_at(word_length(text)))
}

/// The words of a line. A few of them take no memory.
pub type LineWords<'a> = SmallVec<&'a [u8], 8>;

/// The words of a line.
pub fn split_words<'a>(alloc: Global, line: &'a [u8]) -> Result<LineWords<'a>, NoMemory>
    ensures { IfOk result (λ words. HasWords line.now (texts words.items)) }
{
    let mut words = SmallVec::new(alloc);
    let mut rest = line;
    loop {
        match first_word(rest) {
            Some((word, after)) => {
                words.push(word)?;
                rest = after;
            }
            None => return Ok(words),
        }
    }
}
