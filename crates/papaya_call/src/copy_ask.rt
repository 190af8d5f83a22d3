//! The asks of a machine that resizes, and of each call that meets a resize.
use crate::ask::At;

/// The next ask of a copier: one atomic step on at most one word or hint.
#[derive(Clone, Copy, Debug)]
pub enum CopyAsk {
    /// Load this word.
    Load(At),
    /// Exchange the word for the second number if it is the first.
    Exchange(At, u64, u64),
    /// Load the hint of a slot: the table, and the slot's index in it, from 0.
    LoadHint(u64, usize),
    /// Write a hint for a slot that has none: the table, the slot's index, the hint.
    WriteHint(u64, usize, u8),
    /// Return the size of a table, which never changes.
    SizeOf(u64),
    /// Return the hash of the key of the pair with this number. The pair was loaded last and is
    /// carried from now on.
    HashOf(u64),
    /// Compare the keys of the pair that is carried and of the one loaded last, with these numbers.
    SamePair(u64, u64),
    /// Return how many pairs the map counts.
    Count,
    /// Make a table of `len` slots, all empty, that a search looks at in `limit + 1` places, and to
    /// which a table of `chunks` chunks is copied.
    MakeTable {
        len: usize,
        limit: usize,
        chunks: usize,
    },
}
