//! The asks of a call over a chain of tables to its backend, those of a scan, and the answers.

use crate::ask::{Answer as CallAnswer, Ask as CallAsk};
use crate::copy_ask::CopyAsk;

/// The next ask: one atomic step on at most one word or hint.
#[derive(Clone, Copy, Debug)]
pub enum Ask {
    /// The call asks, in a table that it has reached.
    Call(CallAsk),
    /// A table is made or copied.
    Copy(CopyAsk),
}

/// The answer to an ask.
#[derive(Clone, Copy, Debug)]
pub enum Answer {
    /// An answer to the call.
    Call(CallAnswer),
    /// The hash of the key of the pair that is carried.
    Hash(u64),
    /// How many pairs the map counts.
    Count(usize),
}

/// The next ask: one atomic step on at most one word.
#[derive(Clone, Copy, Debug)]
pub enum ScanAsk {
    /// Load or exchange a word of a table, or do what a copy needs.
    Copy(CopyAsk),
    /// Call the closure with the pair of this number; it returns whether the pair stays. Answered
    /// by `Yes`.
    Show(u64),
    /// Pass the pair of this number to the caller. Answered by `Ok`.
    Given(u64),
    /// Add to the count of pairs, in the caller's shard. Answered by `Ok`.
    AddToShard(i64),
}
