//! Calls with their arguments, and their replies.
use papaya_words::refused::Refused;

/// A call that a caller begins, with its arguments. `A` gives the results of the closure if the
/// call takes one, as `crate::answers::Listed` does.
#[derive(Debug, Drop)]
pub enum Call<K, V, A> {
    /// Looks up a key: `get` of 0.2.5.
    Get(K),
    /// Stores an entry. If an equal key is present, its value is replaced and its key stays, as the
    /// documentation of `insert` in 0.2.5 says.
    Insert(K, V),
    /// Stores an entry if the key is absent: `try_insert` of 0.2.5.
    TryInsert(K, V),
    /// Removes the key's entry if the closure returns `true` for it: `remove_if` of 0.2.5.
    RemoveIf(K, A),
    /// Stores, removes or keeps the key's entry as the closure decides: `compute` of 0.2.5. Without
    /// an entry it is called with `None`, and a removal is refused; in 0.2.5 it panics.
    Compute(K, A),
    /// Makes room for this many entries more than the map counts: `reserve` of 0.2.5.
    Reserve(usize),
    /// Finishes the resize that is under way. In 0.2.5 no public call does only this.
    CopyAll,
    /// Removes each entry that it meets: `clear` of 0.2.5.
    Clear,
    /// Calls the closure with each entry that it meets, and removes the entry if the closure
    /// returns that it does not stay: `retain` of 0.2.5.
    Retain(A),
    /// Returns each entry that it meets, and changes nothing: `iter` of 0.2.5.
    Walk,
}

/// The work of a machine: the call without its arguments, which the backend keeps.
#[derive(Clone, Copy, Debug, PartialEq)]
pub enum Task {
    /// A lookup.
    Get,
    /// An insertion: `insert` of 0.2.5, or with `replace: false` its `try_insert`, which returns
    /// the pair that it finds.
    Insert { replace: bool },
    /// A removal of a pair that its closure agrees to: `remove_if` of 0.2.5.
    RemoveIf,
    /// A change that its closure decides, called with the key's pair or without one: `compute` of
    /// 0.2.5.
    Compute,
}

/// The reply of a call. Pairs are named by their numbers in the arena.
#[derive(Clone, Copy, Debug, PartialEq, Eq)]
pub enum Reply {
    /// The key is not in the map.
    Absent,
    /// The lookup found this pair.
    Found(u64),
    /// The key was absent, and got this pair.
    Inserted(u64),
    /// The key had the old pair, and got the new one.
    Replaced { old: u64, new: u64 },
    /// The key had this pair, and keeps it.
    Occupied(u64),
    /// The closure returned `true` for this pair, and it was removed.
    Removed(u64),
    /// The closure returned `false` for this pair, and it stays.
    Kept(u64),
    /// The closure ended the call with this, and nothing was changed.
    Aborted(u64),
    /// A call without a key has finished.
    Done,
    /// The call changed nothing. Memory ran out, there is no room, or the closure returned a
    /// removal without an entry.
    Refused(Refused),
}
