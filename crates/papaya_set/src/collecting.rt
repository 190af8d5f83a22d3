//! Calls that take many keys, one after the other.
ghost use Rattle.std.specs.Prelude.{◌≡◌, ◌⊎◌, IfOk, IfErr};
ghost use Rattle.std.specs.Iterator.{IsFiniteIterable};
ghost use Rattle.std.specs.declared.hash.FoldHasher.{FoldHasher};
ghost use Rattle.std.specs.declared.hash.BuildHasherDefault.{BuildHasherDefault};
ghost use Rattle.papaya_words_keys.specs.Hashes.{hash_of};
ghost use Rattle.papaya_seq.specs.Entries.{AllCome, ComesNext, Extends, HasJust, IsCutNew};
ghost use Rattle.papaya_seq.specs.Entries.{IsCutIn};
ghost use Rattle.papaya_seq.specs.PutAlone.{ExtendsAlone, IsFilledAlone};
ghost use Rattle.papaya_set.specs.Sets.{entry_of_key, entry_of_ref};

use crate::seq::HashSet;
use papaya_words::refused::Refused;
use std::alloc::Global;
use std::hash::{BuildHasher, BuildHasherDefault, FoldHasher, Hash};

impl<K: Hash + Eq + Drop, S: BuildHasher> HashSet<K, S> {
    /// Inserts the keys of an iterator in its order: the trait `Extend` of 0.2.5. The earlier one
    /// of two equal keys stays. No room is reserved ahead, so an empty iterator changes nothing at
    /// all.
    ///
    /// # Errors
    ///
    /// Fails with `Refused::Memory`, `Refused::Capacity` or `Refused::Limit`, as
    /// [`HashSet::insert`] does for one of the keys. The keys before that one are then in the set,
    /// and those after it are not taken from the iterator.
    pub fn extend<U: IntoIterator<Item = K>>(&mut self, iter: U) -> Result<(), Refused>
    where
        U::IntoIter: Drop,
        requires { IsFiniteIterable U.into_iter_gives U.IntoIter.can_next U.IntoIter.remaining
            iter }
        ensures extends { Extends U.into_iter_gives U.IntoIter.next_gives K.eq entry_of_key iter
            self.old result self.new }
        ensures alone { ExtendsAlone K.eq
            (hash_of K.hash_input S.build_hasher S.Hasher.write S.Hasher.finish) entry_of_key
            U.into_iter_gives U.IntoIter.next_gives iter self.old result self.new }
    {
        for key in iter {
            match self.insert(key) {
                Ok(_) => {}
                Err(refused) => return Err(refused),
            }
        }
        Ok(())
    }
}

impl<K: Hash + Eq + Copy + Drop, S: BuildHasher> HashSet<K, S> {
    /// Inserts keys that are passed by reference and copied: `Extend<&K>` of 0.2.5.
    ///
    /// # Errors
    ///
    /// Fails with `Refused::Memory`, `Refused::Capacity` or `Refused::Limit`, as
    /// [`HashSet::extend`] does.
    pub fn extend_ref<'a, U: IntoIterator<Item = &'a K>>(&mut self, iter: U) -> Result<(), Refused>
    where
        K: 'a,
        U::IntoIter: Drop,
        requires { IsFiniteIterable U.into_iter_gives U.IntoIter.can_next U.IntoIter.remaining
            iter }
        ensures extends { Extends U.into_iter_gives U.IntoIter.next_gives K.eq entry_of_ref iter
            self.old result self.new }
        ensures alone { ExtendsAlone K.eq
            (hash_of K.hash_input S.build_hasher S.Hasher.write S.Hasher.finish) entry_of_ref
            U.into_iter_gives U.IntoIter.next_gives iter self.old result self.new }
    {
        for key in iter {
            match self.insert(*key) {
                Ok(_) => {}
                Err(refused) => return Err(refused),
            }
        }
        Ok(())
    }
}

impl<K: Hash + Eq + Drop, S: BuildHasher + Default + Drop> HashSet<K, S> {
    /// Creates a set of an iterator's keys: the trait `FromIterator` of 0.2.5. It has the earlier
    /// one of two equal keys, and no table if there are no keys.
    ///
    /// # Errors
    ///
    /// Fails with `Refused::Memory` if the set cannot be allocated, and otherwise as
    /// [`HashSet::extend`] does.
    pub fn from_iter<U: IntoIterator<Item = K>>(
        alloc: Global,
        iter: U,
    ) -> Result<HashSet<K, S>, Refused>
    where
        U: Drop,
        U::IntoIter: Drop,
        requires { IsFiniteIterable U.into_iter_gives U.IntoIter.can_next U.IntoIter.remaining
            iter }
        ensures ok { IfOk result (λ set. AllCome U.into_iter_gives U.IntoIter.next_gives iter
            (λ items. HasJust K.eq entry_of_key items set)) }
        ensures alone { IfOk result (λ set. AllCome U.into_iter_gives U.IntoIter.next_gives iter
            (λ items. IsFilledAlone K.eq
            (hash_of K.hash_input S.build_hasher S.Hasher.write S.Hasher.finish) entry_of_key items
            set)) }
        ensures hasher { IfOk result (λ set. S.is_default set.store.hasher) }
        ensures err { IfErr result (λ e. (e ≡ Refused.Memory)
            ⊎ ComesNext U.into_iter_gives U.IntoIter.next_gives iter
            (λ items item. IsCutNew S K.eq entry_of_key items item e)) }
    {
        let mut set = HashSet::with_hasher(alloc, S::default())?;
        match set.extend(iter) {
            Ok(()) => Ok(set),
            Err(refused) => Err(refused),
        }
    }
}

impl<K: Hash + Eq + Drop> HashSet<K, BuildHasherDefault<FoldHasher>> {
    /// Creates a set of an array's keys: `From<[K; N]>` of 0.2.5. It has the earlier one of two
    /// equal keys.
    ///
    /// # Errors
    ///
    /// Fails with `Refused::Memory` if there is no memory for the set or for the array, and
    /// otherwise as [`HashSet::extend`] does.
    pub fn from_array<const N: usize>(
        alloc: Global,
        keys: [K; N],
    ) -> Result<HashSet<K, BuildHasherDefault<FoldHasher>>, Refused>
        ensures ok { IfOk result (λ set. HasJust K.eq entry_of_key keys set) }
        ensures err { IfErr result (λ e. (e ≡ Refused.Memory)
            ⊎ IsCutIn (BuildHasherDefault FoldHasher) K.eq entry_of_key keys e) }
    {
        match Vec::from_array(alloc, keys) {
            Ok(keys) => HashSet::from_iter(alloc, keys),
            Err(_) => Err(Refused::Memory),
        }
    }
}
