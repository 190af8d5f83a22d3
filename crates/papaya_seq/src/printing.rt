//! The output of `Debug` for a map and its iterators, as in 0.2.5.
use crate::seq::HashMap;
use crate::walks::{Iter, Keys, Values};
use std::fmt;
use std::hash::{BuildHasher, Hash};

impl<K: Hash + Eq + fmt::Debug, V: fmt::Debug, S: BuildHasher> fmt::Debug for HashMap<K, V, S> {
    fn fmt<W: fmt::Write>(&self, f: &mut fmt::Formatter<W>) -> fmt::Result {
        let mut out = f.debug_map();
        for (key, value) in self {
            out.entry(key, value);
        }
        out.finish()
    }
}

impl<'a, K: Hash + Eq + fmt::Debug, V: fmt::Debug, S: BuildHasher> fmt::Debug
    for Iter<'a, K, V, S> {
    /// Prints the entries that are left.
    fn fmt<W: fmt::Write>(&self, f: &mut fmt::Formatter<W>) -> fmt::Result {
        let mut out = f.debug_list();
        for pair in self.again() {
            out.entry(&pair);
        }
        out.finish()
    }
}

impl<'a, K: Hash + Eq + fmt::Debug, V: fmt::Debug, S: BuildHasher> fmt::Debug
    for Keys<'a, K, V, S> {
    fn fmt<W: fmt::Write>(&self, f: &mut fmt::Formatter<W>) -> fmt::Result {
        f.debug_tuple("Keys").field(&self.pairs).finish()
    }
}

impl<'a, K: Hash + Eq + fmt::Debug, V: fmt::Debug, S: BuildHasher> fmt::Debug
    for Values<'a, K, V, S> {
    fn fmt<W: fmt::Write>(&self, f: &mut fmt::Formatter<W>) -> fmt::Result {
        f.debug_tuple("Values").field(&self.pairs).finish()
    }
}
