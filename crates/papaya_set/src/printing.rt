//! `Debug` of sets and of their iterators prints as in 0.2.5.
use crate::iter::Iter;
use crate::seq;
use crate::set::{HashSet, HashSetRef};
use std::fmt;
use std::hash::{BuildHasher, Hash};

impl<K: Hash + Eq + fmt::Debug, S: BuildHasher> fmt::Debug for seq::HashSet<K, S> {
    fn fmt<W: fmt::Write>(&self, f: &mut fmt::Formatter<W>) -> fmt::Result {
        let mut out = f.debug_set();
        for key in self {
            out.entry(key);
        }
        out.finish()
    }
}

impl<K: Hash + Eq + fmt::Debug, S: BuildHasher> fmt::Debug for HashSet<K, S> {
    /// Prints the keys. It never waits, locks or allocates, and copies no table.
    fn fmt<W: fmt::Write>(&self, f: &mut fmt::Formatter<W>) -> fmt::Result {
        self.map.print_keys(f)
    }
}

impl<'a, K: Hash + Eq + fmt::Debug, S: BuildHasher> fmt::Debug for HashSetRef<'a, K, S> {
    fn fmt<W: fmt::Write>(&self, f: &mut fmt::Formatter<W>) -> fmt::Result {
        fmt::Debug::fmt(self.set(), f)
    }
}

impl<'a, K: Hash + Eq + fmt::Debug, S: BuildHasher> fmt::Debug for Iter<'a, K, S> {
    /// Prints the keys that are left.
    fn fmt<W: fmt::Write>(&self, f: &mut fmt::Formatter<W>) -> fmt::Result {
        let mut out = f.debug_list();
        for key in self.keys.again() {
            out.entry(key);
        }
        out.finish()
    }
}
