//! Calls that insert many entries, one after the other.
ghost use Rattle.std.specs.Prelude.{◌≡◌, ◌⊎◌, IfOk, IfErr};
ghost use Rattle.std.specs.Iterator.{IsFiniteIterable};
ghost use Rattle.std.specs.declared.hash.FoldHasher.{FoldHasher};
ghost use Rattle.std.specs.declared.hash.BuildHasherDefault.{BuildHasherDefault};
ghost use Rattle.papaya_seq.specs.Entries.{AllCome, ComesNext, Extends, HasJust, IsCutNew};
ghost use Rattle.papaya_seq.specs.Entries.{IsCutIn, IsPut};
ghost use Rattle.papaya_words_keys.specs.Hashes.{hash_of};
ghost use Rattle.papaya_seq.specs.MadeAlone.{IsDoneAlone};
ghost use Rattle.papaya_seq.specs.Map.{PushesOne, deref_pair};
ghost use Rattle.papaya_seq.specs.PutAlone.{ExtendsAlone, IsFilledAlone};

use crate::seq::HashMap;
use papaya_call::call::{Call, Reply};
use papaya_words::refused::Refused;
use std::alloc::Global;
use std::hash::{BuildHasher, BuildHasherDefault, FoldHasher, Hash};

impl<K: Hash + Eq + Drop, V: Drop, S: BuildHasher> HashMap<K, V, S> {
    /// Inserts an entry, and returns whether its key was absent. Unlike `insert` it does not return
    /// the replaced value, so it borrows nothing. Its contract states what the map is afterwards,
    /// and how long the tables are that it makes.
    ///
    /// # Errors
    ///
    /// Fails with `Refused::Memory`, `Refused::Capacity` or `Refused::Limit`, as
    /// [`HashMap::insert`] does.
    pub fn put(&mut self, key: K, value: V) -> Result<bool, Refused>
        ensures puts { IsPut K.eq key value self.old result self.new }
        ensures alone { IsDoneAlone K.eq
            (hash_of K.hash_input S.build_hasher S.Hasher.write S.Hasher.finish) self.old
            (Call.Insert key value) result self.new }
        ensures stores { PushesOne self.old.store self.new.store }
    {
        let (reply, _) = self.insert_by(key, value, true);
        match reply {
            Reply::Replaced { .. } => Ok(false),
            Reply::Refused(refused) => Err(refused),
            _ => Ok(true),
        }
    }

    /// Inserts entries in the order in which they come: what the trait `Extend` does in 0.2.5. If
    /// two entries have equal keys, the first one's key stays, with the later one's value. No room
    /// is reserved ahead, so an empty iterator has no effect.
    ///
    /// # Errors
    ///
    /// Fails with `Refused::Memory`, `Refused::Capacity` or `Refused::Limit`, as
    /// [`HashMap::insert`] does for one of the entries. The entries before that one are then in the
    /// map, and those after it are not taken from the iterator.
    pub fn extend<U: IntoIterator<Item = (K, V)>>(&mut self, iter: U) -> Result<(), Refused>
    where
        U::IntoIter: Drop,
        requires { IsFiniteIterable U.into_iter_gives U.IntoIter.can_next U.IntoIter.remaining
            iter }
        ensures extends { Extends U.into_iter_gives U.IntoIter.next_gives K.eq (λ p. p) iter
            self.old result self.new }
        ensures alone { ExtendsAlone K.eq
            (hash_of K.hash_input S.build_hasher S.Hasher.write S.Hasher.finish) (λ p. p)
            U.into_iter_gives U.IntoIter.next_gives iter self.old result self.new }
    {
        for (key, value) in iter {
            match self.put(key, value) {
                Ok(_) => {}
                Err(refused) => return Err(refused),
            }
        }
        Ok(())
    }
}

impl<K: Hash + Eq + Copy + Drop, V: Copy + Drop, S: BuildHasher> HashMap<K, V, S> {
    /// Inserts entries that it copies from references, as [`HashMap::extend`] does: what the trait
    /// `Extend` of such entries does in 0.2.5.
    ///
    /// # Errors
    ///
    /// Fails with `Refused::Memory`, `Refused::Capacity` or `Refused::Limit`, as
    /// [`HashMap::extend`] does.
    pub fn extend_ref<'a, U: IntoIterator<Item = (&'a K, &'a V)>>(
        &mut self,
        iter: U,
    ) -> Result<(), Refused>
    where
        K: 'a,
        V: 'a,
        U::IntoIter: Drop,
        requires { IsFiniteIterable U.into_iter_gives U.IntoIter.can_next U.IntoIter.remaining
            iter }
        ensures extends { Extends U.into_iter_gives U.IntoIter.next_gives K.eq deref_pair iter
            self.old result self.new }
        ensures alone { ExtendsAlone K.eq
            (hash_of K.hash_input S.build_hasher S.Hasher.write S.Hasher.finish) deref_pair
            U.into_iter_gives U.IntoIter.next_gives iter self.old result self.new }
    {
        for (key, value) in iter {
            match self.put(*key, *value) {
                Ok(_) => {}
                Err(refused) => return Err(refused),
            }
        }
        Ok(())
    }
}

impl<K: Hash + Eq + Drop, V: Drop, S: BuildHasher + Default + Drop> HashMap<K, V, S> {
    /// Returns a map of these entries: what the trait `FromIterator` makes in 0.2.5. If two entries
    /// have equal keys, it has the first one's key and the later one's value. For no entries it has
    /// no table.
    ///
    /// # Errors
    ///
    /// Fails with `Refused::Memory` if memory for the map runs out, and otherwise as
    /// [`HashMap::extend`].
    pub fn from_iter<U: IntoIterator<Item = (K, V)>>(
        alloc: Global,
        iter: U,
    ) -> Result<HashMap<K, V, S>, Refused>
    where
        U: Drop,
        U::IntoIter: Drop,
        requires { IsFiniteIterable U.into_iter_gives U.IntoIter.can_next U.IntoIter.remaining
            iter }
        ensures ok { IfOk result (λ map. AllCome U.into_iter_gives U.IntoIter.next_gives iter
            (λ items. HasJust K.eq (λ p. p) items map)) }
        ensures alone { IfOk result (λ map. AllCome U.into_iter_gives U.IntoIter.next_gives iter
            (λ items. IsFilledAlone K.eq
            (hash_of K.hash_input S.build_hasher S.Hasher.write S.Hasher.finish) (λ p. p) items
            map)) }
        ensures hasher { IfOk result (λ map. S.is_default map.store.hasher) }
        ensures err { IfErr result (λ e. (e ≡ Refused.Memory)
            ⊎ ComesNext U.into_iter_gives U.IntoIter.next_gives iter
            (λ items item. IsCutNew S K.eq (λ p. p) items item e)) }
    {
        let mut map = HashMap::with_hasher(alloc, S::default())?;
        match map.extend(iter) {
            Ok(()) => Ok(map),
            Err(refused) => Err(refused),
        }
    }
}

impl<K: Hash + Eq + Drop, V: Drop> HashMap<K, V, BuildHasherDefault<FoldHasher>> {
    /// Returns a map of the entries of an array: what `From<[(K, V); N]>` makes in 0.2.5. If two
    /// entries have equal keys, it has the first one's key and the later one's value.
    ///
    /// # Errors
    ///
    /// Fails with `Refused::Memory` if memory for the map or the array runs out, and otherwise as
    /// [`HashMap::extend`].
    pub fn from_array<const N: usize>(
        alloc: Global,
        pairs: [(K, V); N],
    ) -> Result<HashMap<K, V, BuildHasherDefault<FoldHasher>>, Refused>
        ensures ok { IfOk result (λ map. HasJust K.eq (λ p. p) pairs map) }
        ensures err { IfErr result (λ e. (e ≡ Refused.Memory)
            ⊎ IsCutIn (BuildHasherDefault FoldHasher) K.eq (λ p. p) pairs e) }
    {
        match Vec::from_array(alloc, pairs) {
            Ok(pairs) => HashMap::from_iter(alloc, pairs),
            Err(_) => Err(Refused::Memory),
        }
    }
}
