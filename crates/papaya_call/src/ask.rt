//! The asks of a machine to its backend, and the answers.
use crate::call::Reply;
use papaya_words::refused::Refused;

/// A word that callers share. Tables are named by number, from 1.
///
/// In 0.2.5 these are the map's atomic root pointer, and the atomics of a table and of its state.
#[derive(Clone, Copy, Debug, PartialEq)]
pub enum At {
    /// The number of the root table, or 0.
    Root,
    /// The number of the table after this one, or 0.
    Next(u64),
    /// 1 if this table was given up before it became the root.
    Aborted(u64),
    /// 1 if this chunk of the table before was copied to this table: the table, and the chunk, from
    /// 0.
    Done(u64, usize),
    /// A slot of a table: the table, and the slot's index in it, from 0.
    Slot(u64, usize),
    /// How many numbers were taken for pairs, in a map that has a limit on them.
    Made,
}

/// The next ask of a machine: one atomic step on at most one word or hint. Each kind of ask has its
/// own kinds of answer.
#[derive(Clone, Copy, Debug, PartialEq)]
pub enum Ask {
    /// Load this word. Answered by `Word`.
    Load(At),
    /// Exchange the word for the second number if it is the first. Answered by `Exchanged`, or by
    /// `Found` with the word that is there instead.
    Exchange(At, u64, u64),
    /// Load the hint of a slot: the table, and the slot's index in it, from 0. Answered by `Word`.
    LoadHint(u64, usize),
    /// Write a hint for a slot that has none: the table, the slot's index, the hint. Answered by
    /// `Ok`, also if the slot had a hint, which stays.
    WriteHint(u64, usize, u8),
    /// Compare the key of the pair with this number with the call's key. Answered by `Yes`.
    SameKey(u64),
    /// Call the closure without a pair, because the key is absent. Answered by `Op`.
    ShowNone,
    /// Call the closure with the pair of this number. Answered by `Yes` for a removal, and by `Op`
    /// for a compute.
    ShowPair(u64),
    /// Return the size of a table, which never changes. Answered by `Size`.
    SizeOf(u64),
    /// Store the call's key. Answered by `Made` or `Refused`, as are all asks that make something.
    MakeKey,
    /// Store the call's value, or the value that its closure returned last.
    MakeValue,
    /// Make a pair of the key and the value that the call stored last. Words name a pair only after
    /// this.
    MakePair,
    /// Make a pair of the key of the pair with this number and the value that the call stored last.
    MakePairOf(u64),
    /// Make a table of `len` slots, all empty, that a search looks at in `limit + 1` places, and to
    /// which a table of `chunks` chunks is copied.
    MakeTable {
        len: usize,
        limit: usize,
        chunks: usize,
    },
    /// Add to the count of pairs, in the caller's shard. Answered by `Ok`.
    AddToShard(i64),
    /// Nothing more: the call replies with this.
    Done(Reply),
}

/// The answer to an ask.
#[derive(Clone, Copy, Debug)]
pub enum Answer {
    /// The word or the hint that was loaded.
    Word(u64),
    /// The exchange was made.
    Exchanged,
    /// The exchange failed: this word is there.
    Found(u64),
    /// Whether the keys match, or whether the closure of a removal returned `true`.
    Yes(bool),
    /// The result of a compute's closure. The backend keeps the value of an insertion.
    Op(OpKind),
    /// The number of slots of a table, and how many places after the first a search looks at.
    Size { len: usize, limit: usize },
    /// The number of what was made.
    Made(u64),
    /// The count was added to, or a hint was written or found there.
    Ok,
    /// Nothing was made: memory ran out, or a limit of `papaya_words::limits` is reached.
    Refused(Refused),
}

/// The result of a closure that may insert, remove or abort, without the value.
#[derive(Clone, Copy, Debug, PartialEq)]
pub enum OpKind {
    /// Store a new value.
    Insert,
    /// Remove the pair with which the closure was called.
    Remove,
    /// End the call without a change, and reply with this.
    Abort(u64),
}

/// The kinds of exchange. The words alone do not show whether a claim or a copy fills an empty
/// slot, so a machine states the kind of its exchange.
#[derive(Clone, Copy, Debug, PartialEq)]
pub enum StepKind {
    /// The first table becomes the root.
    Open,
    /// A pair of an absent key is put into the map.
    Claim,
    /// A pair gives way to another with an equal key.
    Replace,
    /// A pair is removed.
    Bury,
    /// A table gets a next one.
    Link,
    /// A pair is marked, to be copied.
    Mark,
    /// An empty slot is sealed.
    Close,
    /// A copied pair is put into a table.
    Place,
    /// A pair was copied.
    Finish,
    /// A chunk was copied.
    Advance,
    /// The table to which everything was copied becomes the root.
    Promote,
    /// A table that is too small is given up.
    Abort,
    /// A number is taken for a pair that will be made.
    Take,
}
