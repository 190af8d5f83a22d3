//! Collections that can be reclaimed.
ghost use Rattle.std.specs.Prelude.{◌≡◌, IfErr, IfOk};
ghost use Rattle.papaya_map.specs.Fixed.{HasFirstTable, HasSettingsOf};

use papaya_map::map::HashMap;
use papaya_set::set::HashSet;
use papaya_words::refused::Refused;
use std::hash::{BuildHasher, Hash};
use std::sync::Wait;

/// A collection that holds more than its entries, and can be rebuilt from clones of these.
pub trait Reclaim {
    // The second has the settings of the first, a clone of its hasher, and a first table for them.
    ghost keeps: { Self → Self → Type 0 };

    /// Returns the number of entries counted.
    fn entries(&self) -> usize;

    /// Returns the number of entries in its arena, including those replaced or removed.
    fn stored(&self) -> usize;

    /// Rebuilds the collection from clones of its entries, and frees all else. If it fails, the
    /// collection is as it was.
    fn reclaim<R: Wait>(&mut self, rt: &R) -> Result<(), Refused>
        ensures ok { IfOk result (λ _. keeps self.old self.new) }
        ensures err { IfErr result (λ _. self.new ≡ self.old) };
}

impl<K: Hash + Eq + Clone + Drop, V: Clone + Drop, S: BuildHasher + Clone + Drop> Reclaim
    for HashMap<K, V, S> {
    ghost keeps = { λ old new. HasSettingsOf old new × HasFirstTable new
        × S.is_clone old.begun.hasher new.begun.hasher };

    fn entries(&self) -> usize {
        self.len()
    }

    fn stored(&self) -> usize {
        HashMap::stored(self)
    }

    fn reclaim<R: Wait>(&mut self, rt: &R) -> Result<(), Refused> {
        HashMap::reclaim(self, rt)
    }
}

impl<K: Hash + Eq + Clone + Drop, S: BuildHasher + Clone + Drop> Reclaim for HashSet<K, S> {
    ghost keeps = { λ old new. HasSettingsOf old new × HasFirstTable new
        × S.is_clone old.begun.hasher new.begun.hasher };

    fn entries(&self) -> usize {
        self.len()
    }

    fn stored(&self) -> usize {
        HashSet::stored(self)
    }

    fn reclaim<R: Wait>(&mut self, rt: &R) -> Result<(), Refused> {
        HashSet::reclaim(self, rt)
    }
}
