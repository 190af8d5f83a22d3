//! Computes, and the calls that are made of them.
ghost use Rattle.std.specs.Prelude.{◌≡◌, Some, None, IfOk, IfErr, MatchOption};
ghost use Rattle.std.specs.Borrow.{sem};
ghost use Rattle.std.specs.Fn.{FnReturnsAt};
ghost use Rattle.papaya_words_keys.specs.Hashes.{hash_of};
ghost use Rattle.papaya_core_timeline.specs.Content.{map_in};
ghost use Rattle.papaya_seq.specs.Answered.{IsParted, old_answered, value_answered};
ghost use Rattle.papaya_seq.specs.Computes.{ComputesBy, HasValueOf, IsTriedWith, IsUpdated};
ghost use Rattle.papaya_seq.specs.Computes.{IsUpdatedOrInserted, Says, Takes, compute_answered};
ghost use Rattle.papaya_seq.specs.Computes.{tried_answered};
ghost use Rattle.papaya_seq.specs.MadeAlone.{IsComputedAlone};
ghost use Rattle.papaya_seq.specs.Map.{IsStoreRefusal, MapState, entry_of};

use crate::seq::HashMap;
use papaya_call::answers::Operation;
use papaya_words::refused::Refused;
use papaya_words_keys::results::{Compute, Computed};
use std::hash::{BuildHasher, Hash};

impl<K: Hash + Eq + Drop, V: Drop, S: BuildHasher> HashMap<K, V, S> {
    ghost use Rattle.papaya_seq.specs.Ends.{ends_so};

    /// Computes the key's entry as [`HashMap::compute`] does, and returns numbers instead of
    /// references. Its contract states what the map is afterwards.
    ///
    /// The contract needs the closure to be callable only with what the map holds, since it is
    /// called once.
    ///
    /// # Errors
    ///
    /// Fails with `Refused::Memory`, `Refused::Capacity`, `Refused::Limit` or
    /// `Refused::RemoveNothing`, as [`HashMap::compute`] does.
    pub fn compute_numbered<T: Drop, F: FnMut(Option<(&K, &V)>) -> Operation<V, T>>(
        &mut self,
        key: K,
        f: F,
    ) -> Result<Computed<u64, T>, Refused>
        requires { Takes (F.pre f) (map_in K.eq self.old.store key) }
        ensures computes { ComputesBy K.eq key (λ p. p.number) (Says (F.post f)) self.old result
            self.new }
        ensures alone { IsComputedAlone K.eq
            (hash_of K.hash_input S.build_hasher S.Hasher.write S.Hasher.finish) self.old key result
            self.new }
    {
        self.compute_by(key, f).1
    }

    /// Inserts, replaces, removes or keeps the key's entry as the closure decides: `compute` of
    /// 0.2.5. The closure is called once, with the entry or with `None` if the key is absent. The
    /// references that it gets are valid for that call only.
    ///
    /// The contract does not describe the map afterwards, because the result may own a `T`. It
    /// describes the map that a run of the same call leaves. If your proof needs the map itself,
    /// use [`HashMap::compute_into`].
    ///
    /// # Errors
    ///
    /// Fails with `Refused::Memory`, `Refused::Capacity` or `Refused::Limit`, as
    /// [`HashMap::insert`] does, and with `Refused::RemoveNothing` if the closure returns
    /// [`Operation::Remove`] without an entry. During a resize it may fail before the closure is
    /// called.
    pub fn compute<T: Drop, F: FnMut(Option<(&K, &V)>) -> Operation<V, T>>(
        &mut self,
        key: K,
        f: F,
    ) -> Result<Compute<'_, K, V, T>, Refused>
        requires { Takes (F.pre f) (map_in K.eq self.old.store key) }
        ensures { (after : MapState _ _ _)
            × ComputesBy K.eq key entry_of (Says (F.post f)) self.old (compute_answered result)
            after × IsComputedAlone K.eq
            (hash_of K.hash_input S.build_hasher S.Hasher.write S.Hasher.finish) self.old key
            (compute_answered result) after }
    {
        let mut aborted = None;
        match self.compute_into(key, f, &mut aborted)? {
            Compute::Inserted(key, value) => Ok(Compute::Inserted(key, value)),
            Compute::Updated { old, new } => Ok(Compute::Updated { old, new }),
            Compute::Removed(key, value) => Ok(Compute::Removed(key, value)),
            Compute::Aborted(()) => match aborted {
                Some(with) => Ok(Compute::Aborted(with)),
                None => unreachable!(),
            },
        }
    }

    /// Computes the key's entry as [`HashMap::compute`] does, and writes the closure's abort value
    /// to `aborted`. So the result owns nothing, and the contract states what the map is
    /// afterwards.
    ///
    /// # Errors
    ///
    /// Fails with `Refused::Memory`, `Refused::Capacity`, `Refused::Limit` or
    /// `Refused::RemoveNothing`, as [`HashMap::compute`] does.
    pub fn compute_into<T: Drop, F: FnMut(Option<(&K, &V)>) -> Operation<V, T>>(
        &mut self,
        key: K,
        f: F,
        aborted: &mut Option<T>,
    ) -> Result<Compute<'_, K, V, ()>, Refused>
        requires { Takes (F.pre f) (map_in K.eq self.old.store key) }
        ensures* computes { sem 𝓛 (ends_so K.row V.row S.row S.Hasher.row K.Hash S.BuildHasher
            S.Hasher.Hasher self.entry (λ after. (answer : _)
            × ComputesBy K.eq key entry_of (Says (F.post f)) self.old answer after
            × IsComputedAlone K.eq
            (hash_of K.hash_input S.build_hasher S.Hasher.write S.Hasher.finish) self.old key answer
            after
            × IsParted answer (compute_answered result) aborted.old aborted.new)) }
        ensures parted { (answer : _) × (after : MapState _ _ _)
            × ComputesBy K.eq key entry_of (Says (F.post f)) self.old answer after
            × IsComputedAlone K.eq
            (hash_of K.hash_input S.build_hasher S.Hasher.write S.Hasher.finish) self.old key answer
            after
            × IsParted answer (compute_answered result) aborted.old aborted.new }
    {
        let computed = self.compute_numbered(key, f)?;
        match computed {
            Computed::Inserted(pair) => {
                let (key, value) = self.entry(pair);
                Ok(Compute::Inserted(key, value))
            }
            Computed::Updated { old, new } => {
                let map = &*self;
                Ok(Compute::Updated {
                    old: map.entry(old),
                    new: map.entry(new),
                })
            }
            Computed::Removed(pair) => {
                let (key, value) = self.entry(pair);
                Ok(Compute::Removed(key, value))
            }
            Computed::Aborted(with) => {
                *aborted = Some(with);
                Ok(Compute::Aborted(()))
            }
        }
    }

    /// Replaces the key's value by the one that the closure computes from it, and returns the new
    /// value: `update` of 0.2.5. Returns `Ok(None)` if the key is absent.
    ///
    /// # Errors
    ///
    /// Fails with `Refused::Memory`, `Refused::Capacity` or `Refused::Limit`, as
    /// [`HashMap::insert`] does, but only if the key is in the map or a resize is under way.
    pub fn update<F: Fn(&V) -> V>(&mut self, key: K, f: F) -> Result<Option<&V>, Refused>
        requires { F.IsAlwaysCallable f }
        ensures* updates { sem 𝓛 (ends_so K.row V.row S.row S.Hasher.row K.Hash S.BuildHasher
            S.Hasher.Hasher self.entry (λ after. IsUpdated K.eq key (FnReturnsAt F.Fn f) self.old
            (old_answered result) after
            × IsComputedAlone K.eq
            (hash_of K.hash_input S.build_hasher S.Hasher.write S.Hasher.finish) self.old key
            (old_answered result) after)) }
        ensures new { IfOk result (λ new. MatchOption new (map_in K.eq self.old.store key ≡ None)
            (λ v. (p : _) × (map_in K.eq self.old.store key ≡ Some p)
            × FnReturnsAt F.Fn f p.value v.now)) }
        ensures err { IfErr result (IsStoreRefusal self.old) }
    {
        let (_, computed) = self.compute_by(
            key,
            |shown|
                requires { F.IsAlwaysCallable f }
                ensures { MatchOption shown.entry (result ≡ Operation.Abort tt)
                    (λ p. (v : V) × FnReturnsAt F.Fn f p.1.now v × (result ≡ Operation.Insert v)) }
            {
                match shown {
                    Some((_, value)) => Operation::Insert(f(value)),
                    None => Operation::Abort(()),
                }
            },
        );
        match computed? {
            Computed::Updated { new, .. } => Ok(Some(self.stored_value(new))),
            Computed::Aborted(()) => Ok(None),
            _ => unreachable!(),
        }
    }

    /// Replaces the key's value by the one that the closure computes from it, or inserts `value` if
    /// the key is absent, and returns the key's new value: `update_or_insert` of 0.2.5.
    ///
    /// # Errors
    ///
    /// Fails with `Refused::Memory`, `Refused::Capacity` or `Refused::Limit`, as
    /// [`HashMap::insert`] does.
    pub fn update_or_insert<U: Fn(&V) -> V>(
        &mut self,
        key: K,
        update: U,
        value: V,
    ) -> Result<&V, Refused>
        requires { U.IsAlwaysCallable update }
        ensures* stores { sem 𝓛 (ends_so K.row V.row S.row S.Hasher.row K.Hash S.BuildHasher
            S.Hasher.Hasher self.entry (λ after.
            IsUpdatedOrInserted K.eq key (FnReturnsAt U.Fn update) (λ v. v ≡ value) self.old
            (value_answered result) after
            × IsComputedAlone K.eq
            (hash_of K.hash_input S.build_hasher S.Hasher.write S.Hasher.finish) self.old key
            (value_answered result) after)) }
        ensures value { IfOk result (λ v. MatchOption (map_in K.eq self.old.store key)
            (v.now ≡ value) (λ p. FnReturnsAt U.Fn update p.value v.now)) }
        ensures err { IfErr result (IsStoreRefusal self.old) }
    {
        self.update_or_insert_with(key, update, || value)
    }

    /// Updates as [`HashMap::update_or_insert`] does, with a closure that makes the value:
    /// `update_or_insert_with` of 0.2.5. `f` is called only if the key is absent.
    ///
    /// # Errors
    ///
    /// Fails with `Refused::Memory`, `Refused::Capacity` or `Refused::Limit`, as
    /// [`HashMap::insert`] does.
    pub fn update_or_insert_with<U: Fn(&V) -> V, F: FnOnce() -> V>(
        &mut self,
        key: K,
        update: U,
        f: F,
    ) -> Result<&V, Refused>
        requires update { U.IsAlwaysCallable update }
        requires absent { map_in K.eq self.old.store key ≡ None → F.pre f }
        ensures* stores { sem 𝓛 (ends_so K.row V.row S.row S.Hasher.row K.Hash S.BuildHasher
            S.Hasher.Hasher self.entry (λ after.
            IsUpdatedOrInserted K.eq key (FnReturnsAt U.Fn update) (F.post f) self.old
            (value_answered result) after
            × IsComputedAlone K.eq
            (hash_of K.hash_input S.build_hasher S.Hasher.write S.Hasher.finish) self.old key
            (value_answered result) after)) }
        ensures value { IfOk result (λ v. MatchOption (map_in K.eq self.old.store key)
            (F.post f v.now) (λ p. FnReturnsAt U.Fn update p.value v.now)) }
        ensures err { IfErr result (IsStoreRefusal self.old) }
    {
        let (_, computed) = self.compute_by(
            key,
            |shown|
                requires update { U.IsAlwaysCallable update }
                requires absent { shown ≡ None → F.pre f }
                ensures { MatchOption shown.entry
                    ((v : V) × F.post f v × (result ≡ Operation.Insert v))
                    (λ p. (v : V) × FnReturnsAt U.Fn update p.1.now v
                    × (result ≡ Operation.Insert v)) }
            {
                match shown {
                    Some((_, value)) => Operation::<V, ()>::Insert(update(value)),
                    None => Operation::Insert(f()),
                }
            },
        );
        match computed? {
            Computed::Inserted(pair) => Ok(self.stored_value(pair)),
            Computed::Updated { new, .. } => Ok(self.stored_value(new)),
            _ => unreachable!(),
        }
    }

    /// Inserts the value that the closure makes if the key is absent: `try_insert_with` of 0.2.5.
    /// Returns `Ok` with the new value, or `Err` with the key's present value. The closure is
    /// called only if the key is absent.
    ///
    /// # Errors
    ///
    /// Fails with `Refused::Memory`, `Refused::Capacity` or `Refused::Limit`, as
    /// [`HashMap::insert`] does, but only if the key is absent or a resize is under way.
    pub fn try_insert_with<F: FnOnce() -> V>(
        &mut self,
        key: K,
        f: F,
    ) -> Result<Result<&V, &V>, Refused>
        requires { map_in K.eq self.old.store key ≡ None → F.pre f }
        ensures* stores { sem 𝓛 (ends_so K.row V.row S.row S.Hasher.row K.Hash S.BuildHasher
            S.Hasher.Hasher self.entry (λ after. IsTriedWith K.eq key (F.post f) self.old
            (tried_answered result) after
            × IsComputedAlone K.eq
            (hash_of K.hash_input S.build_hasher S.Hasher.write S.Hasher.finish) self.old key
            (tried_answered result) after)) }
        ensures stored { IfOk result (λ tried. IfOk tried
            (λ v. F.post f v.now × (map_in K.eq self.old.store key ≡ None))) }
        ensures occupied { IfOk result (λ tried. IfErr tried
            (λ v. (p : _) × (map_in K.eq self.old.store key ≡ Some p) × (p.value ≡ v.now))) }
        ensures err { IfErr result (IsStoreRefusal self.old) }
    {
        let (shown, computed) = self.compute_by(
            key,
            |shown|
                requires { shown ≡ None → F.pre f }
                ensures { MatchOption shown.entry
                    ((v : V) × F.post f v × (result ≡ Operation.Insert v))
                    (λ _. result ≡ Operation.Abort tt) }
            {
                match shown {
                    Some(_) => Operation::Abort(()),
                    None => Operation::Insert(f()),
                }
            },
        );
        match (computed?, shown) {
            (Computed::Inserted(pair), _) => Ok(Ok(self.stored_value(pair))),
            (Computed::Aborted(()), Some(pair)) => Ok(Err(self.stored_value(pair))),
            _ => unreachable!(),
        }
    }

    /// Returns the value of a key, and first inserts the one that the closure makes if the key is
    /// absent: `get_or_insert_with` of 0.2.5. The closure is called only in that case.
    ///
    /// # Errors
    ///
    /// Fails with `Refused::Memory`, `Refused::Capacity` or `Refused::Limit`, as
    /// [`HashMap::insert`] does, but only if the key is absent or a resize is under way.
    pub fn get_or_insert_with<F: FnOnce() -> V>(&mut self, key: K, f: F) -> Result<&V, Refused>
        requires { map_in K.eq self.old.store key ≡ None → F.pre f }
        ensures* stores { sem 𝓛 (ends_so K.row V.row S.row S.Hasher.row K.Hash S.BuildHasher
            S.Hasher.Hasher self.entry (λ after. HasValueOf K.eq key (F.post f) self.old
            (value_answered result) after
            × IsComputedAlone K.eq
            (hash_of K.hash_input S.build_hasher S.Hasher.write S.Hasher.finish) self.old key
            (value_answered result) after)) }
        ensures value { IfOk result (λ v. MatchOption (map_in K.eq self.old.store key)
            (F.post f v.now) (λ p. p.value ≡ v.now)) }
        ensures err { IfErr result (IsStoreRefusal self.old) }
    {
        match self.try_insert_with(key, f)? {
            Ok(value) | Err(value) => Ok(value),
        }
    }
}
