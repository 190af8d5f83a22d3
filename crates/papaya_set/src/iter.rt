//! Iterators over the set that threads share.
ghost use Rattle.std.specs.Prelude.{◌≡◌};
ghost use Rattle.std.specs.Iterator.{at_most};
ghost use Rattle.papaya_map_scan.specs.Walked.{GivesKey};

use papaya_map_scan::walk::Keys;
use std::hash::{BuildHasher, Hash};
use std::marker::Model;

/// An iterator over a set's keys, slot by slot of the root as it was taken: `set::Iter` of 0.2.5.
/// Contracts see the history at its start, and the one observed so far.
#[derive(Drop)]
pub struct Iter<'a, K: Hash + Eq, S: BuildHasher> {
    pub(crate) keys: Keys<'a, K, (), S>,
}

impl<'a, K: Hash + Eq, S: BuildHasher> Model for Iter<'a, K, S> {
    ghost use Rattle.papaya_map_scan.specs.Walked.{Walked};

    ghost Value = { Walked K (Unit {0}) };

    ghost view = { λ it. it.keys.pairs };
}

impl<'a, K: Hash + Eq, S: BuildHasher> Iter<'a, K, S> {
    /// Returns the iterator of a set over the keys of its map.
    pub(crate) fn of(keys: Keys<'a, K, (), S>) -> Iter<'a, K, S>
        ensures { result ≡ keys.entry.pairs }
    {
        Iter { keys }
    }
}

impl<'a, K: Hash + Eq, S: BuildHasher> Iterator for Iter<'a, K, S> {
    type Item = &'a K;

    ghost next_gives = { GivesKey K.eq };

    ghost remaining = { λ it. at_most it.left };

    /// Returns the next key. It only loads words: it never waits, locks or allocates.
    #[inline(always)]
    fn next(&mut self) -> Option<&'a K> {
        self.keys.next()
    }
}
