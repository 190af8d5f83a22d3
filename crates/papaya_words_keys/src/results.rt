//! The results of a compute, and the error of an insertion that does not replace.

/// The result of a compute: `Compute` of 0.2.5.
#[derive(Debug, PartialEq, Eq, Drop)]
pub enum Compute<'g, K, V, T> {
    /// The key was absent, and this entry was inserted.
    Inserted(&'g K, &'g V),
    /// The new entry replaced the old one.
    Updated {
        old: (&'g K, &'g V),
        new: (&'g K, &'g V),
    },
    /// This entry was removed.
    Removed(&'g K, &'g V),
    /// The closure ended the call with this, and nothing was changed.
    Aborted(T),
}

/// The result of a compute, with one value for each entry, such as its number.
#[derive(Debug, PartialEq, Eq, Drop)]
pub enum Computed<P, T> {
    /// The key was absent, and this entry was inserted.
    Inserted(P),
    /// The new entry replaced the old one.
    Updated { old: P, new: P },
    /// This entry was removed.
    Removed(P),
    /// The closure ended the call with this, and nothing was changed.
    Aborted(T),
}

/// The value that was not inserted.
///
/// In 0.2.5 this is the value itself, which can always be taken back because it was not stored.
#[derive(Debug, PartialEq, Eq, Drop)]
pub enum NotInserted<'a, V> {
    /// The value that was passed in. A map for one caller always returns it.
    Value(V),
    /// The value, in the arena: it was stored there before another insertion came first.
    Logged(&'a V),
}

/// The error if the key is in the map: `OccupiedError` of 0.2.5.
#[derive(Debug, PartialEq, Eq, Drop)]
pub struct OccupiedError<'a, V> {
    /// The value of the key's entry.
    pub current: &'a V,
    /// The value that was passed in.
    pub not_inserted: NotInserted<'a, V>,
}
