//! Iterators over a set, which return each key once.
ghost use Rattle.std.specs.Prelude.{◌≡◌};
ghost use Rattle.std.specs.Iterator.{YieldsFirstRef, item_count};
ghost use Rattle.papaya_set.specs.Sets.{keys_of};

use crate::seq::HashSet;
use papaya_seq::walks::Keys;
use std::hash::{BuildHasher, Hash};
use std::marker::Model;

impl<K: Hash + Eq, S: BuildHasher> HashSet<K, S> {
    /// Returns an iterator over the keys, each once. It never allocates, copies or fails.
    pub fn iter(&self) -> Iter<'_, K, S>
        ensures { result ≡ keys_of K.eq self.now.store }
    {
        Iter {
            keys: self.map.keys(),
        }
    }
}

impl<'a, K: Hash + Eq, S: BuildHasher> IntoIterator for &'a HashSet<K, S> {
    type Item = &'a K;

    type IntoIter = Iter<'a, K, S>;

    ghost into_iter_gives = { λ s r. r ≡ keys_of K.eq s.now.store };

    fn into_iter(self) -> Iter<'a, K, S> {
        self.iter()
    }
}

/// An iterator over the keys of a set for one caller: `set::Iter` of 0.2.5. Contracts see the list
/// of those that are left.
#[derive(Drop)]
pub struct Iter<'a, K: Hash + Eq, S: BuildHasher> {
    keys: Keys<'a, K, (), S>,
}

impl<'a, K: Hash + Eq, S: BuildHasher> Model for Iter<'a, K, S> {
    ghost use Rattle.std.specs.Prelude.{List};

    ghost Value = { List K };

    ghost view = { λ it. it.keys };
}

impl<'a, K: Hash + Eq, S: BuildHasher> Iterator for Iter<'a, K, S> {
    type Item = &'a K;

    ghost next_gives = { YieldsFirstRef (λ rest. rest) };

    ghost remaining = { item_count (λ rest. rest) };

    #[inline(always)]
    fn next(&mut self) -> Option<&'a K> {
        self.keys.next()
    }
}
