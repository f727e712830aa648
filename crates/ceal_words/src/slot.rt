// The name of a piece of memory that is taken.

/// What `Region::take` gives: a number of words of one chunk. It is neither copied nor cloned, so that it goes back at
/// most once. A slot that is dropped is not given back; its words are freed with the region.
#[derive(Drop)]
pub struct Slot {
    /// Which size class, and so which chunk.
    pub(crate) chunk: u32,
    /// Which piece of the chunk.
    pub(crate) at: u32,
    /// How many words.
    pub(crate) len: u32,
}
