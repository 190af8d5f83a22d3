//! Calls that insert many keys into the set that threads share, one after the other.
ghost use Rattle.std.specs.Prelude.{◌≡◌, [], IfErr, IfOk, None, map};
ghost use Rattle.std.specs.Iterator.{IsFiniteIterable};
ghost use mathlib.Core.List.{IsPrefix};
ghost use Rattle.papaya_words.specs.declared.limits.TheConstants.{DEFAULT_CHUNK, DEFAULT_SHARDS};
ghost use Rattle.papaya_map_change.specs.Writing.{IsMemoryOrCapacity};
ghost use Rattle.papaya_map.specs.Collected.{AreStored};
ghost use Rattle.papaya_map.specs.Fixed.{IsFor};
ghost use Rattle.papaya_map.specs.Limited.{IsPlainRefusal};
ghost use Rattle.papaya_seq.specs.Entries.{AllCome, ComesNext};
ghost use Rattle.papaya_set.specs.Sets.{entry_of_key, entry_of_ref};

use crate::set::HashSet;
use papaya_map::pass::Pass;
use papaya_words::refused::Refused;
use papaya_words::resize_mode::ResizeMode;
use std::alloc::Global;
use std::hash::{BuildHasher, BuildHasherDefault, FoldHasher, Hash};
use std::sync::Wait;

impl<K: Hash + Eq + Drop, S: BuildHasher> HashSet<K, S> {
    /// Inserts the keys of an iterator in its order: the trait `Extend` of 0.2.5. The earlier one
    /// of two equal keys stays. No room is reserved ahead, so an empty iterator changes nothing at
    /// all.
    ///
    /// # Errors
    ///
    /// Fails with `Refused::Memory`, `Refused::Capacity` or `Refused::Limit`, as
    /// [`HashSetRef::insert`](crate::set::HashSetRef::insert) does for one of the keys. The keys
    /// before that one are then in the set, and those after it are not taken from the iterator.
    pub fn extend<R: Wait, U: IntoIterator<Item = K>>(&self, rt: &R, iter: U) -> Result<(), Refused>
    where
        U::IntoIter: Drop,
        requires { IsFiniteIterable U.into_iter_gives U.IntoIter.can_next U.IntoIter.remaining
            iter }
        ensures { IfErr result (IsPlainRefusal self.now.begun.limit) }
    {
        let mut pass = self.map.pass();
        self.extend_as(rt, iter, &mut pass)
    }

    /// Performs [`HashSet::extend`] by a pass.
    fn extend_as<R: Wait, U: IntoIterator<Item = K>>(
        &self,
        rt: &R,
        iter: U,
        pass: &mut Pass<K, (), S>,
    ) -> Result<(), Refused>
    where
        U::IntoIter: Drop,
        requires iter { IsFiniteIterable U.into_iter_gives U.IntoIter.can_next U.IntoIter.remaining
            iter }
        requires book { pass.old.book ≡ self.now.book }
        ensures book { pass.new.book ≡ pass.old.book }
        ensures seen { IsPrefix pass.old.history pass.new.history }
        ensures stored { IfOk result (λ _. AllCome U.into_iter_gives U.IntoIter.next_gives iter
            (λ keys. AreStored K.eq (map entry_of_key keys) pass.old.history pass.new.history)) }
        ensures cut { IfErr result (λ _. ComesNext U.into_iter_gives U.IntoIter.next_gives iter
            (λ keys key. AreStored K.eq (map entry_of_key keys) pass.old.history
            pass.new.history)) }
        ensures refused { IfErr result (IsPlainRefusal self.now.begun.limit) }
    {
        for key in iter {
            match self.map.pin().insert_as(rt, key, (), pass) {
                Ok(_) => {}
                Err(refused) => return Err(refused),
            }
        }
        Ok(())
    }
}

impl<K: Hash + Eq + Copy + Drop, S: BuildHasher> HashSet<K, S> {
    /// Inserts keys that are passed by reference and copied: `Extend<&K>` of 0.2.5.
    ///
    /// # Errors
    ///
    /// Fails with `Refused::Memory`, `Refused::Capacity` or `Refused::Limit`, as
    /// [`HashSet::extend`] does.
    pub fn extend_ref<'a, R: Wait, U: IntoIterator<Item = &'a K>>(
        &self,
        rt: &R,
        iter: U,
    ) -> Result<(), Refused>
    where
        K: 'a,
        U::IntoIter: Drop,
        requires { IsFiniteIterable U.into_iter_gives U.IntoIter.can_next U.IntoIter.remaining
            iter }
        ensures { IfErr result (IsPlainRefusal self.now.begun.limit) }
    {
        let mut pass = self.map.pass();
        self.extend_ref_as(rt, iter, &mut pass)
    }

    /// Performs [`HashSet::extend_ref`] by a pass.
    fn extend_ref_as<'a, R: Wait, U: IntoIterator<Item = &'a K>>(
        &self,
        rt: &R,
        iter: U,
        pass: &mut Pass<K, (), S>,
    ) -> Result<(), Refused>
    where
        K: 'a,
        U::IntoIter: Drop,
        requires iter { IsFiniteIterable U.into_iter_gives U.IntoIter.can_next U.IntoIter.remaining
            iter }
        requires book { pass.old.book ≡ self.now.book }
        ensures book { pass.new.book ≡ pass.old.book }
        ensures seen { IsPrefix pass.old.history pass.new.history }
        ensures stored { IfOk result (λ _. AllCome U.into_iter_gives U.IntoIter.next_gives iter
            (λ keys. AreStored K.eq (map entry_of_ref keys) pass.old.history pass.new.history)) }
        ensures cut { IfErr result (λ _. ComesNext U.into_iter_gives U.IntoIter.next_gives iter
            (λ keys key. AreStored K.eq (map entry_of_ref keys) pass.old.history
            pass.new.history)) }
        ensures refused { IfErr result (IsPlainRefusal self.now.begun.limit) }
    {
        for key in iter {
            match self.map.pin().insert_as(rt, *key, (), pass) {
                Ok(_) => {}
                Err(refused) => return Err(refused),
            }
        }
        Ok(())
    }
}

impl<K: Hash + Eq + Drop, S: BuildHasher + Default + Drop> HashSet<K, S> {
    /// Creates a set of an iterator's keys: the trait `FromIterator` of 0.2.5. It has the earlier
    /// one of two equal keys, and no table if there are no keys.
    ///
    /// # Errors
    ///
    /// Fails with `Refused::Memory` or `Refused::Capacity`, as [`HashSet::extend`] does.
    pub fn from_iter<R: Wait, U: IntoIterator<Item = K>>(
        rt: &R,
        alloc: Global,
        iter: U,
    ) -> Result<HashSet<K, S>, Refused>
    where
        U: Drop,
        U::IntoIter: Drop,
        requires { IsFiniteIterable U.into_iter_gives U.IntoIter.can_next U.IntoIter.remaining
            iter }
        ensures made { IfOk result (IsFor (ResizeMode.Incremental DEFAULT_CHUNK) 0
            DEFAULT_SHARDS None) }
        ensures stored { IfOk result (λ set. AllCome U.into_iter_gives U.IntoIter.next_gives iter
            (λ keys. AreStored K.eq (map entry_of_key keys) [] set.seen)) }
        ensures err { IfErr result IsMemoryOrCapacity }
    {
        let mut set = HashSet::with_hasher(rt, alloc, S::default())?;
        let mut pass = set.map.pass();
        set.extend_as(rt, iter, &mut pass)?;
        set.learn(&pass);
        Ok(set)
    }
}

impl<K: Hash + Eq + Drop> HashSet<K, BuildHasherDefault<FoldHasher>> {
    /// Creates a set of an array's keys: `From<[K; N]>` of 0.2.5. It has the earlier one of two
    /// equal keys.
    ///
    /// # Errors
    ///
    /// Fails with `Refused::Memory` if there is no memory for the array, and otherwise as
    /// [`HashSet::extend`] does.
    pub fn from_array<R: Wait, const N: usize>(
        rt: &R,
        alloc: Global,
        keys: [K; N],
    ) -> Result<HashSet<K, BuildHasherDefault<FoldHasher>>, Refused>
        ensures made { IfOk result (IsFor (ResizeMode.Incremental DEFAULT_CHUNK) 0
            DEFAULT_SHARDS None) }
        ensures stored { IfOk result (λ set. AreStored K.eq (map entry_of_key keys) [] set.seen) }
        ensures err { IfErr result IsMemoryOrCapacity }
    {
        match Vec::from_array(alloc, keys) {
            Ok(keys) => HashSet::from_iter(rt, alloc, keys),
            Err(_) => Err(Refused::Memory),
        }
    }
}
