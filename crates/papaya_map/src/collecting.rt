//! Calls that take many entries, compare two maps, or rebuild a map from a map's entries.
//!
//! Each consists of calls for one entry, and other threads may change the maps between these. So
//! contracts describe the history: which entries were stored, and in which order.
ghost use Rattle.std.specs.Prelude.{◌≡◌, ℕ, [], IfOk, IfErr, None, map};
ghost use Rattle.std.specs.Iterator.{IsFiniteIterable};
ghost use mathlib.Core.List.{IsPrefix};
ghost use Rattle.papaya_words.specs.declared.limits.TheConstants.{DEFAULT_CHUNK, DEFAULT_SHARDS};
ghost use Rattle.papaya_map_change.specs.Writing.{IsMemoryOrCapacity};
ghost use Rattle.papaya_map.specs.Collected.{AreClonedBy, AreCopied, AreStored, AreYielded, Stores};
ghost use Rattle.papaya_map.specs.Fixed.{HasFirstTable, HasLearned, HasSettingsOf, IsFor};
ghost use Rattle.papaya_map.specs.Limited.{IsPlainRefusal};
ghost use Rattle.papaya_map.specs.Plain.{IsOfHistorySince, unpinned};
ghost use Rattle.papaya_seq.specs.Entries.{AllCome, ComesNext};
ghost use Rattle.papaya_seq.specs.Map.{deref_pair};

use crate::map::HashMap;
use crate::observed::Observed;
use crate::pass::Pass;
use papaya_map_scan::walk::Iter;
use papaya_words::refused::Refused;
use papaya_words::resize_mode::ResizeMode;
use std::alloc::Global;
use std::hash::{BuildHasher, BuildHasherDefault, FoldHasher, Hash};
use std::sync::Wait;

impl<K: Hash + Eq + Drop, V: Drop, S: BuildHasher> HashMap<K, V, S> {
    /// Inserts the entries of an iterator in their order: the trait `Extend` of 0.2.5. If two
    /// entries have equal keys, the first key and the later value are stored. No room is reserved
    /// ahead, so an empty iterator changes nothing. Changes of other threads may take effect
    /// between the insertions.
    ///
    /// # Errors
    ///
    /// Fails with `Refused::Memory`, `Refused::Capacity` or `Refused::Limit`, as
    /// [`HashMapRef::insert_as`](crate::map::HashMapRef::insert_as) does for one of the entries.
    /// The entries before that one have then been stored, and those after it are not taken from the
    /// iterator.
    pub fn extend<R: Wait, U: IntoIterator<Item = (K, V)>>(
        &self,
        rt: &R,
        iter: U,
    ) -> Result<(), Refused>
    where
        U::IntoIter: Drop,
        requires { IsFiniteIterable U.into_iter_gives U.IntoIter.can_next U.IntoIter.remaining
            iter }
        ensures stored { IsOfHistorySince (unpinned self.now) K.eq (λ h. Stores K.eq
            U.into_iter_gives U.IntoIter.next_gives (λ items. items) iter self.now.seen h result) }
        ensures refused { IfErr result (IsPlainRefusal self.now.begun.limit) }
    {
        let mut pass = self.begun(Some(self.number()));
        let answer = self.extend_as(rt, iter, &mut pass);
        let Observed {
            answer: _,
            marker: _,
        } = pass.tell(());
        answer
    }

    /// Performs [`HashMap::extend`] by a pass.
    fn extend_as<R: Wait, U: IntoIterator<Item = (K, V)>>(
        &self,
        rt: &R,
        iter: U,
        pass: &mut Pass<K, V, S>,
    ) -> Result<(), Refused>
    where
        U::IntoIter: Drop,
        requires iter { IsFiniteIterable U.into_iter_gives U.IntoIter.can_next U.IntoIter.remaining
            iter }
        requires book { pass.old.book ≡ self.now.book }
        ensures book { pass.new.book ≡ pass.old.book }
        ensures seen { IsPrefix pass.old.history pass.new.history }
        ensures stored { IfOk result (λ _. AllCome U.into_iter_gives U.IntoIter.next_gives iter
            (λ items. AreStored K.eq items pass.old.history pass.new.history)) }
        ensures cut { IfErr result (λ _. ComesNext U.into_iter_gives U.IntoIter.next_gives iter
            (λ items item. AreStored K.eq items pass.old.history pass.new.history)) }
        ensures refused { IfErr result (IsPlainRefusal self.now.begun.limit) }
    {
        for (key, value) in iter {
            match self.pin().insert_as(rt, key, value, pass) {
                Ok(_) => {}
                Err(refused) => return Err(refused),
            }
        }
        Ok(())
    }
}

impl<K: Hash + Eq + Copy + Drop, V: Copy + Drop, S: BuildHasher> HashMap<K, V, S> {
    /// Inserts entries that are passed by reference and copied: `Extend<(&K, &V)>` of 0.2.5. The
    /// entries of another map can be passed: `map.extend_ref(rt, other.pin().iter(rt)?)`.
    ///
    /// # Errors
    ///
    /// Fails with `Refused::Memory`, `Refused::Capacity` or `Refused::Limit`, as
    /// [`HashMap::extend`] does.
    pub fn extend_ref<'a, R: Wait, U: IntoIterator<Item = (&'a K, &'a V)>>(
        &self,
        rt: &R,
        iter: U,
    ) -> Result<(), Refused>
    where
        K: 'a,
        V: 'a,
        U::IntoIter: Drop,
        requires { IsFiniteIterable U.into_iter_gives U.IntoIter.can_next U.IntoIter.remaining
            iter }
        ensures stored { IsOfHistorySince (unpinned self.now) K.eq (λ h. Stores K.eq
            U.into_iter_gives U.IntoIter.next_gives (map deref_pair) iter self.now.seen h result) }
        ensures refused { IfErr result (IsPlainRefusal self.now.begun.limit) }
    {
        let mut pass = self.begun(Some(self.number()));
        let answer = self.extend_ref_as(rt, iter, &mut pass);
        let Observed {
            answer: _,
            marker: _,
        } = pass.tell(());
        answer
    }

    /// Performs [`HashMap::extend_ref`] by a pass.
    fn extend_ref_as<'a, R: Wait, U: IntoIterator<Item = (&'a K, &'a V)>>(
        &self,
        rt: &R,
        iter: U,
        pass: &mut Pass<K, V, S>,
    ) -> Result<(), Refused>
    where
        K: 'a,
        V: 'a,
        U::IntoIter: Drop,
        requires iter { IsFiniteIterable U.into_iter_gives U.IntoIter.can_next U.IntoIter.remaining
            iter }
        requires book { pass.old.book ≡ self.now.book }
        ensures book { pass.new.book ≡ pass.old.book }
        ensures seen { IsPrefix pass.old.history pass.new.history }
        ensures stored { IfOk result (λ _. AllCome U.into_iter_gives U.IntoIter.next_gives iter
            (λ items. AreStored K.eq (map deref_pair items) pass.old.history pass.new.history)) }
        ensures cut { IfErr result (λ _. ComesNext U.into_iter_gives U.IntoIter.next_gives iter
            (λ items item. AreStored K.eq (map deref_pair items) pass.old.history
            pass.new.history)) }
        ensures refused { IfErr result (IsPlainRefusal self.now.begun.limit) }
    {
        for (key, value) in iter {
            match self.pin().insert_as(rt, *key, *value, pass) {
                Ok(_) => {}
                Err(refused) => return Err(refused),
            }
        }
        Ok(())
    }
}

impl<K: Hash + Eq + Drop, V: Drop, S: BuildHasher + Default + Drop> HashMap<K, V, S> {
    /// Creates a map from the entries of an iterator: the trait `FromIterator` of 0.2.5. If two
    /// entries have equal keys, the map has the first key and the later value. Its settings are
    /// those of [`HashMap::with_hasher`]. It has no table if there are no entries.
    ///
    /// # Errors
    ///
    /// Fails with `Refused::Memory` if the map cannot be allocated, and otherwise as
    /// [`HashMap::extend`] does.
    pub fn from_iter<R: Wait, U: IntoIterator<Item = (K, V)>>(
        rt: &R,
        alloc: Global,
        iter: U,
    ) -> Result<HashMap<K, V, S>, Refused>
    where
        U: Drop,
        U::IntoIter: Drop,
        requires { IsFiniteIterable U.into_iter_gives U.IntoIter.can_next U.IntoIter.remaining
            iter }
        ensures made { IfOk result (IsFor (ResizeMode.Incremental DEFAULT_CHUNK) 0
            DEFAULT_SHARDS None) }
        ensures stored { IfOk result (λ map. AllCome U.into_iter_gives U.IntoIter.next_gives iter
            (λ items. AreStored K.eq items [] map.seen)) }
        ensures refused { IfErr result IsMemoryOrCapacity }
    {
        let mut map = HashMap::with_hasher(rt, alloc, S::default())?;
        let mut pass = map.pass();
        map.extend_as(rt, iter, &mut pass)?;
        map.learn(&pass);
        Ok(map)
    }
}

impl<K: Hash + Eq + Drop, V: Drop> HashMap<K, V, BuildHasherDefault<FoldHasher>> {
    /// Creates a map of an array's entries: `From<[(K, V); N]>` of 0.2.5. If two entries have equal
    /// keys, it has the first key and the later value.
    ///
    /// # Errors
    ///
    /// Fails with `Refused::Memory` if there is no memory for the map or for the array, and
    /// otherwise as [`HashMap::extend`] does.
    pub fn from_array<R: Wait, const N: usize>(
        rt: &R,
        alloc: Global,
        pairs: [(K, V); N],
    ) -> Result<HashMap<K, V, BuildHasherDefault<FoldHasher>>, Refused>
        ensures made { IfOk result (IsFor (ResizeMode.Incremental DEFAULT_CHUNK) 0
            DEFAULT_SHARDS None) }
        ensures stored { IfOk result (λ map. AreStored K.eq pairs [] map.seen) }
        ensures refused { IfErr result IsMemoryOrCapacity }
    {
        match Vec::from_array(alloc, pairs) {
            Ok(pairs) => HashMap::from_iter(rt, alloc, pairs),
            Err(_) => Err(Refused::Memory),
        }
    }
}

impl<K: Hash + Eq, V: PartialEq, S: BuildHasher> HashMap<K, V, S> {
    /// Returns whether the map has an equal value for this key.
    fn has_equal(&self, key: &K, value: &V) -> bool {
        match self.pin().get(key) {
            Some(there) => *value == *there,
            None => false,
        }
    }

    /// Returns whether both maps have the same keys with equal values: `PartialEq` of 0.2.5. It
    /// compares the counts, then iterates over this map and looks up each key in the other. If
    /// another thread changes one of the maps meanwhile, the result may be `true` or `false`.
    ///
    /// It holds no lock while it looks up keys in the other map. So two threads may compare two
    /// maps in opposite orders, and a map may be compared with itself.
    ///
    /// # Errors
    ///
    /// Fails with `Refused::Memory` or `Refused::Capacity`, as
    /// [`HashMapRef::iter_as`](crate::map::HashMapRef::iter_as) does, since the iteration may first
    /// copy what is left to copy.
    pub fn eq<R: Wait>(&self, rt: &R, other: &HashMap<K, V, S>) -> Result<bool, Refused>
        ensures { IfErr result IsMemoryOrCapacity }
    {
        if self.len() != other.len() {
            return Ok(false);
        }
        for (key, value) in self.pin().iter(rt)? {
            if !other.has_equal(key, value) {
                return Ok(false);
            }
        }
        Ok(true)
    }
}

impl<K: Hash + Eq + Clone + Drop, V: Clone + Drop, S: BuildHasher> HashMap<K, V, S> {
    /// Inserts clones of the entries that an iterator yields, in its order, by a pass. The iterator
    /// has not yielded any yet. Fails with `Refused::Memory` also if a clone is not made.
    fn insert_clones_as<R: Wait>(
        &self,
        rt: &R,
        pairs: &mut Iter<'_, K, V, S>,
        pass: &mut Pass<K, V, S>,
    ) -> Result<(), Refused>
        requires new { pairs.old.given ≡ [] }
        requires book { pass.old.book ≡ self.now.book }
        ensures book { pass.new.book ≡ pass.old.book }
        ensures walk { (pairs.new.book ≡ pairs.old.book)
            × IsPrefix pairs.old.history pairs.new.history }
        ensures yielded { IfOk result (λ _. AreYielded K.eq pairs.old.began pairs.new.history
            pairs.new.given) }
        ensures cloned { IfOk result (λ _. AreClonedBy K.eq K.is_clone V.is_clone pairs.new.given
            pass.old.history pass.new.history pass.old.made pass.new.made) }
        ensures refused { IfErr result (IsPlainRefusal self.now.begun.limit) }
    {
        while let Some((key, value)) = pairs.next() {
            let Ok(own_key) = key.clone() else {
                return Err(Refused::Memory);
            };
            let Ok(own_value) = value.clone() else {
                return Err(Refused::Memory);
            };
            match self.pin().insert_as(rt, own_key, own_value, pass) {
                Ok(_) => {}
                Err(refused) => return Err(refused),
            }
        }
        Ok(())
    }

    /// Stores clones of this map's entries in another one. The pass is of this map, and observes
    /// the iteration. Fails with `Refused::Memory` also if a clone is not made.
    fn copy_into<R: Wait>(
        &self,
        rt: &R,
        copy: &mut HashMap<K, V, S>,
        pass: &mut Pass<K, V, S>,
    ) -> Result<(), Refused>
        requires { pass.old.book ≡ self.now.book }
        ensures book { pass.new.book ≡ pass.old.book }
        ensures seen { IsPrefix pass.old.history pass.new.history }
        ensures tables { IsPrefix pass.old.tables pass.new.tables }
        ensures made { pass.new.made ≡ pass.old.made }
        ensures same { IfOk result (λ _. HasLearned copy.old copy.new) }
        ensures copied { IfOk result (λ _. AreCopied K.eq K.is_clone V.is_clone pass.old.history
            pass.new.history copy.new.seen) }
        ensures refused { IfErr result (IsPlainRefusal copy.old.begun.limit) }
    {
        let mut pairs = self.pin().iter_as(rt, pass)?;
        let mut own = copy.pass();
        copy.insert_clones_as(rt, &mut pairs, &mut own)?;
        copy.learn(&own);
        pass.learn_walk(&pairs);
        Ok(())
    }
}

impl<K: Hash + Eq + Clone + Drop, V: Clone + Drop, S: BuildHasher + Clone + Drop> HashMap<K, V, S> {
    /// Returns a map of clones of this map's entries: the trait `Clone` of 0.2.5. As there, the
    /// copy has a clone of the hasher, and room for as many entries as this map counts. Its other
    /// settings are those of [`HashMap::with_capacity_and_hasher`], not this map's mode, collector
    /// or limit. An entry that is stored, replaced or removed meanwhile may or may not be copied.
    ///
    /// A key's clone must be equal to the key. If one is not, the copy may have fewer entries.
    ///
    /// # Errors
    ///
    /// Fails with `Refused::Memory` if an allocation fails or a clone is not made. Fails with
    /// `Refused::Capacity` if there is no room, as [`HashMap::with_parts`] and [`HashMap::extend`]
    /// do. This map then keeps its entries.
    pub fn try_clone<R: Wait>(&self, rt: &R, alloc: Global) -> Result<HashMap<K, V, S>, Refused>
        ensures made { IfOk result (λ map. (pairs : ℕ)
            × IsFor (ResizeMode.Incremental DEFAULT_CHUNK) pairs DEFAULT_SHARDS None map) }
        ensures hasher { IfOk result (λ map. S.is_clone self.now.begun.hasher map.begun.hasher) }
        ensures refused { IfErr result IsMemoryOrCapacity }
    {
        let mut pass = self.begun(None);
        self.try_clone_as(rt, alloc, &mut pass)
    }

    /// Returns a map of clones of this map's entries, as [`HashMap::try_clone`] does, by a pass of
    /// this map. Each entry that the pass had observed in the map is copied, unless a change took it
    /// out meanwhile. Each entry that is copied was in the map at some point since. The pass then
    /// has observed the iteration over this map. Users call
    /// [`Session::try_clone`](crate::session::Session::try_clone).
    ///
    /// # Errors
    ///
    /// Fails with `Refused::Memory` or `Refused::Capacity`, as [`HashMap::try_clone`] does.
    pub fn try_clone_as<R: Wait>(
        &self,
        rt: &R,
        alloc: Global,
        pass: &mut Pass<K, V, S>,
    ) -> Result<HashMap<K, V, S>, Refused>
        requires { pass.old.book ≡ self.now.book }
        ensures book { pass.new.book ≡ pass.old.book }
        ensures seen { IsPrefix pass.old.history pass.new.history }
        ensures tables { IsPrefix pass.old.tables pass.new.tables }
        ensures own { pass.new.made ≡ pass.old.made }
        ensures made { IfOk result (λ map. (pairs : ℕ)
            × IsFor (ResizeMode.Incremental DEFAULT_CHUNK) pairs DEFAULT_SHARDS None map) }
        ensures hasher { IfOk result (λ map. S.is_clone self.now.begun.hasher map.begun.hasher) }
        ensures copied { IfOk result (λ map. AreCopied K.eq K.is_clone V.is_clone
            pass.old.history pass.new.history map.seen) }
        ensures refused { IfErr result IsMemoryOrCapacity }
    {
        let Ok(hasher) = self.book.parts.hasher.clone() else {
            return Err(Refused::Memory);
        };
        let mut copy = HashMap::with_capacity_and_hasher(rt, alloc, self.len(), hasher)?;
        self.copy_into(rt, &mut copy, pass)?;
        Ok(copy)
    }

    /// Rebuilds the map from clones of its entries, and frees everything that it held before,
    /// including the entries that were replaced or removed. 0.2.5 frees such entries while the map
    /// is shared, and has no such call.
    ///
    /// Mode, limit, initial capacity, collector and shards stay, and the hasher is a clone of the
    /// old one. The map opens a table with room for its entries, no shorter than the initial
    /// capacity. It opens none if it has no entries and was given no capacity. Only the entries
    /// that are kept count against the limit, so the call does not reach it: a test shows that, and
    /// no clause states it.
    ///
    /// The call takes `&mut self`, so no session, no pinned map and no reference to a key or a
    /// value outlives it. A [`Pass`](crate::map::Pass) from before can only be used again if the
    /// call fails, since it has observed the history of the old map.
    ///
    /// A key's clone must be equal to the key. If one is not, the map may have fewer entries then.
    ///
    /// # Errors
    ///
    /// Fails with `Refused::Memory` if an allocation fails or a clone is not made: there must be
    /// memory for the new map beside the old one. Fails with `Refused::Capacity` if there is no
    /// room, as [`HashMap::extend`] does. The map is then as it was.
    ///
    /// # Examples
    ///
    /// ```
    /// map.pin().insert(rt, 1, 10)?;
    /// map.pin().insert(rt, 1, 11)?;
    /// let before = map.stored(); // 2, since the old entry is still in memory
    /// map.reclaim(rt)?;
    /// let after = map.stored(); // 1
    /// ```
    pub fn reclaim<R: Wait>(&mut self, rt: &R) -> Result<(), Refused>
        ensures ok { IfOk result (λ _. HasSettingsOf self.old self.new) }
        ensures hasher { IfOk result (λ _. S.is_clone self.old.begun.hasher
            self.new.begun.hasher) }
        ensures opened { IfOk result (λ _. HasFirstTable self.new) }
        ensures err { IfErr result (λ refused. IsPlainRefusal self.old.begun.limit refused
            × (self.new ≡ self.old)) }
    {
        let mut pass = self.begun(None);
        self.reclaim_as(rt, &mut pass)
    }

    /// Rebuilds the map from clones of its entries, as [`HashMap::reclaim`] does, by a pass of this
    /// map. Each entry that the pass had observed in the map is kept, unless a change took it out
    /// meanwhile. Each entry that is kept was in the map at some point since. 0.2.5 has no such
    /// call.
    ///
    /// The pass has then observed the history of the old map to its end, and can no longer be used
    /// for calls.
    ///
    /// # Errors
    ///
    /// Fails with `Refused::Memory` or `Refused::Capacity`, as [`HashMap::reclaim`] does. The map is
    /// then as it was, and the pass can still be used.
    ///
    /// # Examples
    ///
    /// ```
    /// let mut pass = map.pass();
    /// map.pin().insert_as(rt, 1, 10, &mut pass)?;
    /// map.reclaim_as(rt, &mut pass)?;
    /// let value = map.pin().get(&1); // Some(&10)
    /// ```
    pub fn reclaim_as<R: Wait>(&mut self, rt: &R, pass: &mut Pass<K, V, S>) -> Result<(), Refused>
        requires { pass.old.book ≡ self.old.book }
        ensures book { pass.new.book ≡ pass.old.book }
        ensures seen { IsPrefix pass.old.history pass.new.history }
        ensures own { pass.new.made ≡ pass.old.made }
        ensures ok { IfOk result (λ _. HasSettingsOf self.old self.new) }
        ensures hasher { IfOk result (λ _. S.is_clone self.old.begun.hasher
            self.new.begun.hasher) }
        ensures opened { IfOk result (λ _. HasFirstTable self.new) }
        ensures copied { IfOk result (λ _. AreCopied K.eq K.is_clone V.is_clone pass.old.history
            pass.new.history self.new.seen) }
        ensures err { IfErr result (λ refused. IsPlainRefusal self.old.begun.limit refused
            × (self.new ≡ self.old)) }
    {
        let mut fresh = self.new_like(rt)?;
        self.copy_into(rt, &mut fresh, pass)?;
        *self = fresh;
        Ok(())
    }
}
