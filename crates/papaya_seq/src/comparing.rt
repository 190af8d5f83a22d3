//! Equality of maps.
ghost use Rattle.std.specs.Prelude.{◌↔◌, IsTrue};
ghost use Rattle.papaya_seq.specs.Clones.{AreEqual, HasEqual};

use crate::seq::HashMap;
use std::hash::{BuildHasher, Hash};

impl<K: Hash + Eq, V: PartialEq, S: BuildHasher> HashMap<K, V, S> {
    /// Returns whether the map has an equal value for this key.
    fn has_equal(&self, key: &K, value: &V) -> bool
        ensures { IsTrue result ↔ (HasEqual K.eq V.eq self.now.store (key.now, value.now)) }
    {
        match self.get(key) {
            Some(there) => *value == *there,
            None => false,
        }
    }

    /// Returns whether both maps have the same keys, with equal values: what `PartialEq` does in
    /// 0.2.5. It allocates nothing and never fails.
    pub fn eq(&self, other: &HashMap<K, V, S>) -> bool
        ensures { IsTrue result ↔ (AreEqual K.eq V.eq self.now.store other.now.store) }
    {
        let mine = self.len();
        let theirs = other.len();
        if mine != theirs {
            return false;
        }
        for (key, value) in self.iter() {
            if !other.has_equal(key, value) {
                return false;
            }
        }
        true
    }
}
