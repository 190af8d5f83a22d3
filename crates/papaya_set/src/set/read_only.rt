//! A set that nobody changes any more.
ghost use Rattle.std.specs.Prelude.{◌≡◌, IfErr, IfOk, []};
ghost use mathlib.Core.List.{IsPrefix};
ghost use Rattle.papaya_map_change.specs.Writing.{IsMemoryOrCapacity};
ghost use Rattle.papaya_map_lookup.specs.History.{IsLegalHistory, key_of};
ghost use Rattle.papaya_map.specs.Fixed.{HasLearned};
ghost use Rattle.papaya_map.specs.Frozen.{FindsKey, FindsStored};

use crate::set::HashSet;
use papaya_map::map::read_only::ReadOnly;
use papaya_map::map::read_only::walks::Keys;
use papaya_words::refused::Refused;
use papaya_words_keys::guard::Equivalent;
use std::hash::{BuildHasher, BuildHasherDefault, FoldHasher, Hash};
use std::marker::Model;
use std::sync::Wait;

/// A set that nobody changes any more. [`HashSet::into_read_only`] returns it, and
/// [`ReadOnlySet::into_set`] opens it again. Any number of threads read it at once through a `&`.
/// Each result is exact, as those of [`ReadOnly`] are.
///
/// Contracts see it as the map of its keys to unit values.
pub struct ReadOnlySet<K: Hash + Eq, S: BuildHasher = BuildHasherDefault<FoldHasher>> {
    map: ReadOnly<K, (), S>,
}

impl<K: Hash + Eq, S: BuildHasher> Model for ReadOnlySet<K, S> {
    ghost use Rattle.papaya_map.specs.Frozen.{Frozen};

    ghost Value = { Frozen K (Unit {0}) S };

    ghost view = { λ s. s.map };
}

impl<K: Hash + Eq + Drop, S: BuildHasher + Drop> Drop for ReadOnlySet<K, S> {
    fn drop(self) {
        let Self { map: _ } = self;
    }
}

impl<K: Hash + Eq, S: BuildHasher> HashSet<K, S> {
    /// Returns the set as one that nobody changes any more. It works as
    /// [`HashMap::into_read_only`](papaya_map::map::HashMap::into_read_only) does.
    pub fn into_read_only(self) -> ReadOnlySet<K, S>
        ensures map { result.map ≡ self }
        ensures seen { IsPrefix self.seen result.history }
        ensures legal { IsLegalHistory K.eq key_of result.history }
    {
        let HashSet { map } = self;
        ReadOnlySet {
            map: map.into_read_only(),
        }
    }
}

impl<K: Hash + Eq, S: BuildHasher> ReadOnlySet<K, S> {
    /// Returns the set as one that threads share and change. It has observed the whole history.
    pub fn into_set(self) -> HashSet<K, S>
        ensures same { HasLearned self.map result }
        ensures seen { result.seen ≡ self.history }
    {
        let ReadOnlySet { map } = self;
        HashSet {
            map: map.into_map(),
        }
    }

    /// Returns whether the set has a key that matches. It only loads words: it waits for no thread,
    /// takes no lock and allocates nothing.
    #[inline]
    pub fn contains<Q: Equivalent<K>>(&self, key: &Q) -> bool
        ensures { FindsKey K.eq self.now.history (Q.matches key.now) result }
    {
        self.map.contains_key(key)
    }

    /// Returns the stored key that matches, or `None` if there is none. As
    /// [`ReadOnlySet::contains`], it never waits, locks or allocates.
    #[inline]
    pub fn get<Q: Equivalent<K>>(&self, key: &Q) -> Option<&K>
        ensures { FindsStored K.eq self.now.history (Q.matches key.now) result }
    {
        match self.map.get_key_value(key) {
            Some((stored, _)) => Some(stored),
            None => None,
        }
    }

    /// Returns an iterator over the keys. It returns each key of the set, and no other.
    ///
    /// # Errors
    ///
    /// Fails with `Refused::Memory` or `Refused::Capacity`, as [`ReadOnly::iter`] does.
    pub fn iter<R: Wait>(&self, rt: &R) -> Result<Keys<'_, K, (), S>, Refused>
        ensures began { IfOk result (λ keys. (keys.pairs.history ≡ self.now.history)
            × (keys.pairs.given ≡ [])) }
        ensures refused { IfErr result (λ refused. IsMemoryOrCapacity refused) }
    {
        self.map.keys(rt)
    }

    /// Returns the number of keys, as [`ReadOnly::len`] does.
    pub fn len(&self) -> usize {
        self.map.len()
    }

    /// Returns whether [`ReadOnlySet::len`] is 0.
    pub fn is_empty(&self) -> bool {
        self.map.is_empty()
    }
}
