//! The calls that store a value, always or only if the key has none: by a pass, without one, and
//! with a guard.
ghost use Rattle.std.specs.Prelude.{◌≡◌, Err, IfErr, IfOk, is_ok};
ghost use Rattle.std.specs.Borrow.{sem};
ghost use mathlib.Core.List.{IsPrefix};
ghost use Rattle.papaya_map_book.specs.Limits.{HasNoRoom};
ghost use Rattle.papaya_map_change.specs.Changes.{IsPut};
ghost use Rattle.papaya_map_lookup.specs.History.{Makes};
ghost use Rattle.papaya_map.specs.Limited.{IsPlainRefusal, IsWriteRefusal};
ghost use Rattle.papaya_map.specs.Plain.{IsOfHistorySince, of_its_history, rule_of, unpinned};
ghost use Rattle.papaya_map.specs.Storing.{IsThere, IsTried, IsTriedWith};
ghost use Rattle.papaya_map_book.specs.contracts.rule.entry.Event.{the_row as EventOf};

use crate::map::{HashMap, HashMapRef};
use crate::observed::Observed;
use crate::pass::Pass;
use logbook::Rule;
use papaya_map_book::rule::entry::{Event, Named};
use papaya_map_book::rule::law::Law;
use papaya_map_change::fast_path::insert;
use papaya_words::refused::Refused;
use papaya_words_keys::guard::Guard;
use papaya_words_keys::results::OccupiedError;
use std::hash::{BuildHasher, Hash};
use std::sync::Wait;

impl<'a, K: Hash + Eq + Drop, V: Drop, S: BuildHasher> HashMapRef<'a, K, V, S> {
    /// Inserts a key-value pair, and returns the key's old value, if any: `insert` of 0.2.5. As the
    /// documentation of 0.2.5 says, a stored key stays, and the key that was passed in is dropped.
    /// For this library's own calls: users call [`Session::insert`](crate::session::Session::insert).
    ///
    /// If the table has no place for the key, the call allocates the next table, to which the
    /// entries are copied. The pass records one change, or none if the call fails.
    ///
    /// # Errors
    ///
    /// - `Refused::Memory` if an allocation fails.
    /// - `Refused::Capacity` if the arena of tables is full, or if the next table would be too
    /// long. Contracts then see the cause: the number that the arena gave, or the length of an
    /// observed table and the sum of the count.
    /// - `Refused::Limit` if the map has a limit on entries, and that many numbers were taken for
    /// entries.
    #[inline(always)]
    pub fn insert_as<R: Wait>(
        &self,
        rt: &R,
        key: K,
        value: V,
        pass: &mut Pass<K, V, S>,
    ) -> Result<Option<&'a V>, Refused>
        requires { pass.old.book ≡ self.now.map.book }
        ensures book { pass.new.book ≡ pass.old.book }
        ensures seen { IsPrefix pass.old.history pass.new.history }
        ensures tables { IsPrefix pass.old.tables pass.new.tables }
        ensures made { Makes (is_ok result) pass.old.made pass.new.made pass.new.history }
        ensures put { IfOk result (λ answer. IsPut K.eq key value pass.old.history pass.new.history
            answer) }
        ensures refused { IfErr result (IsWriteRefusal self.now.map.begun.limit pass.new.taken) }
        ensures crowded { result ≡ Err Refused.Capacity → HasNoRoom self.now.map.initial
            pass.new.tables pass.new.given }
    {
        let map = self.map;
        let shard = map.count.shard(pass.number);
        let mut window = self.window(pass);
        let before = insert(
            rt,
            map.alloc,
            map.initial,
            &shard,
            &mut window,
            &mut pass.given,
            key,
            value,
        );
        pass.keep(window);
        before
    }

    /// Inserts a key-value pair, and returns the key's old value, or `None` if the key was absent:
    /// `insert` of 0.2.5. As the documentation of 0.2.5 says, a stored key stays, and the key that
    /// was passed in is dropped. The old entry stays in memory until [`HashMap::reclaim`].
    ///
    /// # Errors
    ///
    /// Fails with `Refused::Memory`, `Refused::Capacity` or `Refused::Limit`, as
    /// [`HashMapRef::insert_as`] does, and then changes no entry.
    ///
    /// # Examples
    ///
    /// ```
    /// let first = map.pin().insert(rt, 1, 10)?; // None
    /// let second = map.pin().insert(rt, 1, 11)?; // Some(&10)
    /// ```
    pub fn insert<R: Wait>(&self, rt: &R, key: K, value: V) -> Result<Option<&'a V>, Refused>
        ensures* own { sem 𝓛 (of_its_history (EventOf K.row V.row S.row).coded.code
            (rule_of ⟦<Law<K, V, S> as Rule<Event<K, V, S>, Named<K, V>>>⟧) self.now K.eq
            (λ h. IfOk result (IsPut K.eq key value self.now.seen h))) }
        ensures put { IsOfHistorySince self.now K.eq
            (λ h. IfOk result (IsPut K.eq key value self.now.seen h)) }
        ensures refused { IfErr result (IsPlainRefusal self.now.map.begun.limit) }
    {
        let Observed { answer, marker: _ } = self.insert_observed(rt, key, value);
        answer
    }

    /// Inserts an entry if the key is absent, and returns its value: `try_insert` of 0.2.5. If the
    /// key is present, its value stays, and the error has that value and the one that was passed
    /// in. The latter may be a reference into the arena, where 0.2.5 always returns the value
    /// itself.
    ///
    /// # Errors
    ///
    /// Fails with `Refused::Memory`, `Refused::Capacity` or `Refused::Limit`, as
    /// [`HashMapRef::insert_as`] does, and then changes no entry.
    ///
    /// # Examples
    ///
    /// ```
    /// map.pin().insert(rt, 1, 10)?;
    /// let value = match map.pin().try_insert(rt, 1, 11)? {
    ///     Ok(inserted) => inserted,
    ///     Err(error) => error.current, // &10, which stays in the map
    /// };
    /// ```
    pub fn try_insert<R: Wait>(
        &self,
        rt: &R,
        key: K,
        value: V,
    ) -> Result<Result<&'a V, OccupiedError<'a, V>>, Refused>
        ensures* own { sem 𝓛 (of_its_history (EventOf K.row V.row S.row).coded.code
            (rule_of ⟦<Law<K, V, S> as Rule<Event<K, V, S>, Named<K, V>>>⟧) self.now K.eq
            (λ h. IfOk result (IsTried K.eq key self.now.seen h value))) }
        ensures tried { IsOfHistorySince self.now K.eq
            (λ h. IfOk result (IsTried K.eq key self.now.seen h value)) }
        ensures refused { IfErr result (IsPlainRefusal self.now.map.begun.limit) }
    {
        let Observed { answer, marker: _ } = self.try_insert_observed(rt, key, value);
        answer
    }

    /// Inserts the value that a closure makes if the key is absent, and returns it:
    /// `try_insert_with` of 0.2.5. If the key is present, the error is its value. The closure is
    /// called at most once.
    ///
    /// # Errors
    ///
    /// Fails with `Refused::Memory`, `Refused::Capacity` or `Refused::Limit`, as
    /// [`HashMapRef::insert_as`] does, and then changes no entry.
    pub fn try_insert_with<R: Wait, F: FnOnce() -> V + Drop>(
        &self,
        rt: &R,
        key: K,
        f: F,
    ) -> Result<Result<&'a V, &'a V>, Refused>
        requires { F.IsAlwaysCallable f }
        ensures* own { sem 𝓛 (of_its_history (EventOf K.row V.row S.row).coded.code
            (rule_of ⟦<Law<K, V, S> as Rule<Event<K, V, S>, Named<K, V>>>⟧) self.now K.eq
            (λ h. IfOk result (IsTriedWith K.eq key self.now.seen h (F.post f)))) }
        ensures tried { IsOfHistorySince self.now K.eq
            (λ h. IfOk result (IsTriedWith K.eq key self.now.seen h (F.post f))) }
        ensures refused { IfErr result (IsPlainRefusal self.now.map.begun.limit) }
    {
        let Observed { answer, marker: _ } = self.try_insert_with_observed(rt, key, f);
        answer
    }

    /// Returns the key's value, and first inserts `value` if the key is absent: `get_or_insert` of
    /// 0.2.5.
    ///
    /// # Errors
    ///
    /// Fails with `Refused::Memory`, `Refused::Capacity` or `Refused::Limit`, as
    /// [`HashMapRef::insert_as`] does, and then changes no entry.
    pub fn get_or_insert<R: Wait>(&self, rt: &R, key: K, value: V) -> Result<&'a V, Refused>
        ensures* own { sem 𝓛 (of_its_history (EventOf K.row V.row S.row).coded.code
            (rule_of ⟦<Law<K, V, S> as Rule<Event<K, V, S>, Named<K, V>>>⟧) self.now K.eq
            (λ h. IfOk result (IsThere K.eq key self.now.seen h (λ w. w ≡ value)))) }
        ensures there { IsOfHistorySince self.now K.eq
            (λ h. IfOk result (IsThere K.eq key self.now.seen h (λ w. w ≡ value))) }
        ensures refused { IfErr result (IsPlainRefusal self.now.map.begun.limit) }
    {
        let Observed { answer, marker: _ } = self.get_or_insert_observed(rt, key, value);
        answer
    }

    /// Returns the key's value, and first inserts the one that a closure makes if the key is
    /// absent: `get_or_insert_with` of 0.2.5. The closure is called at most once.
    ///
    /// # Errors
    ///
    /// Fails with `Refused::Memory`, `Refused::Capacity` or `Refused::Limit`, as
    /// [`HashMapRef::insert_as`] does, and then changes no entry.
    ///
    /// # Examples
    ///
    /// ```
    /// let first = map.pin().get_or_insert_with(rt, 1, || 10)?; // &10
    /// let second = map.pin().get_or_insert_with(rt, 1, || 11)?; // &10
    /// ```
    pub fn get_or_insert_with<R: Wait, F: FnOnce() -> V + Drop>(
        &self,
        rt: &R,
        key: K,
        f: F,
    ) -> Result<&'a V, Refused>
        requires { F.IsAlwaysCallable f }
        ensures* own { sem 𝓛 (of_its_history (EventOf K.row V.row S.row).coded.code
            (rule_of ⟦<Law<K, V, S> as Rule<Event<K, V, S>, Named<K, V>>>⟧) self.now K.eq
            (λ h. IfOk result (IsThere K.eq key self.now.seen h (F.post f)))) }
        ensures there { IsOfHistorySince self.now K.eq
            (λ h. IfOk result (IsThere K.eq key self.now.seen h (F.post f))) }
        ensures refused { IfErr result (IsPlainRefusal self.now.map.begun.limit) }
    {
        let Observed { answer, marker: _ } = self.get_or_insert_with_observed(rt, key, f);
        answer
    }
}

impl<K: Hash + Eq + Drop, V: Drop, S: BuildHasher> HashMap<K, V, S> {
    /// Inserts a key-value pair, and returns the key's old value, or `None` if the key was absent:
    /// `insert` of 0.2.5. As the documentation of 0.2.5 says, a stored key stays, and the key that
    /// was passed in is dropped.
    ///
    /// # Errors
    ///
    /// Fails with `Refused::WrongGuard` if the guard is of another collector, and with
    /// `Refused::Memory`, `Refused::Capacity` or `Refused::Limit` as [`HashMapRef::insert_as`]
    /// does.
    pub fn insert<'g, R: Wait, G: Guard>(
        &'g self,
        rt: &R,
        key: K,
        value: V,
        guard: &'g G,
    ) -> Result<Option<&'g V>, Refused>
        ensures* own { sem 𝓛 (of_its_history (EventOf K.row V.row S.row).coded.code
            (rule_of ⟦<Law<K, V, S> as Rule<Event<K, V, S>, Named<K, V>>>⟧) (unpinned self.now) K.eq
            (λ h. IfOk result (IsPut K.eq key value self.now.seen h))) }
        ensures put { IsOfHistorySince (unpinned self.now) K.eq
            (λ h. IfOk result (IsPut K.eq key value self.now.seen h)) }
        ensures right { G.collector_number guard.now ≡ self.now.collector
            → IfErr result (IsPlainRefusal self.now.begun.limit) }
        ensures wrong { (G.collector_number guard.now ≡ self.now.collector → ⊥)
            → result ≡ Err Refused.WrongGuard }
    {
        let Observed { answer, marker: _ } = self.insert_observed(rt, key, value, guard);
        answer
    }

    /// Inserts an entry if the key is absent: `try_insert` of 0.2.5. Returns as
    /// [`HashMapRef::try_insert`].
    ///
    /// # Errors
    ///
    /// Fails with `Refused::WrongGuard` if the guard is of another collector, and with
    /// `Refused::Memory`, `Refused::Capacity` or `Refused::Limit` as [`HashMapRef::try_insert`]
    /// does.
    pub fn try_insert<'g, R: Wait, G: Guard>(
        &'g self,
        rt: &R,
        key: K,
        value: V,
        guard: &'g G,
    ) -> Result<Result<&'g V, OccupiedError<'g, V>>, Refused>
        ensures* own { sem 𝓛 (of_its_history (EventOf K.row V.row S.row).coded.code
            (rule_of ⟦<Law<K, V, S> as Rule<Event<K, V, S>, Named<K, V>>>⟧) (unpinned self.now) K.eq
            (λ h. IfOk result (λ tried. IsTried K.eq key self.now.seen h value tried))) }
        ensures tried { IsOfHistorySince (unpinned self.now) K.eq
            (λ h. IfOk result (λ tried. IsTried K.eq key self.now.seen h value tried)) }
        ensures right { G.collector_number guard.now ≡ self.now.collector
            → IfErr result (IsPlainRefusal self.now.begun.limit) }
        ensures wrong { (G.collector_number guard.now ≡ self.now.collector → ⊥)
            → result ≡ Err Refused.WrongGuard }
    {
        let Observed { answer, marker: _ } = self.try_insert_observed(rt, key, value, guard);
        answer
    }

    /// Inserts the value that a closure makes if the key is absent: `try_insert_with` of 0.2.5.
    /// Returns as [`HashMapRef::try_insert_with`].
    ///
    /// # Errors
    ///
    /// Fails with `Refused::WrongGuard`, `Refused::Memory`, `Refused::Capacity` or
    /// `Refused::Limit`, as [`HashMap::try_insert`] does.
    pub fn try_insert_with<'g, R: Wait, F: FnOnce() -> V + Drop, G: Guard>(
        &'g self,
        rt: &R,
        key: K,
        f: F,
        guard: &'g G,
    ) -> Result<Result<&'g V, &'g V>, Refused>
        requires { F.IsAlwaysCallable f }
        ensures* own { sem 𝓛 (of_its_history (EventOf K.row V.row S.row).coded.code
            (rule_of ⟦<Law<K, V, S> as Rule<Event<K, V, S>, Named<K, V>>>⟧) (unpinned self.now) K.eq
            (λ h. IfOk result (λ tried. IsTriedWith K.eq key self.now.seen h (F.post f) tried))) }
        ensures tried { IsOfHistorySince (unpinned self.now) K.eq
            (λ h. IfOk result (λ tried. IsTriedWith K.eq key self.now.seen h (F.post f) tried)) }
        ensures right { G.collector_number guard.now ≡ self.now.collector
            → IfErr result (IsPlainRefusal self.now.begun.limit) }
        ensures wrong { (G.collector_number guard.now ≡ self.now.collector → ⊥)
            → result ≡ Err Refused.WrongGuard }
    {
        let Observed { answer, marker: _ } = self.try_insert_with_observed(rt, key, f, guard);
        answer
    }

    /// Returns the key's value, and first inserts `value` if the key is absent: `get_or_insert` of
    /// 0.2.5.
    ///
    /// # Errors
    ///
    /// Fails with `Refused::WrongGuard`, `Refused::Memory`, `Refused::Capacity` or
    /// `Refused::Limit`, as [`HashMap::try_insert`] does.
    pub fn get_or_insert<'g, R: Wait, G: Guard>(
        &'g self,
        rt: &R,
        key: K,
        value: V,
        guard: &'g G,
    ) -> Result<&'g V, Refused>
        ensures* own { sem 𝓛 (of_its_history (EventOf K.row V.row S.row).coded.code
            (rule_of ⟦<Law<K, V, S> as Rule<Event<K, V, S>, Named<K, V>>>⟧) (unpinned self.now) K.eq
            (λ h. IfOk result (IsThere K.eq key self.now.seen h (λ w. w ≡ value)))) }
        ensures there { IsOfHistorySince (unpinned self.now) K.eq
            (λ h. IfOk result (IsThere K.eq key self.now.seen h (λ w. w ≡ value))) }
        ensures right { G.collector_number guard.now ≡ self.now.collector
            → IfErr result (IsPlainRefusal self.now.begun.limit) }
        ensures wrong { (G.collector_number guard.now ≡ self.now.collector → ⊥)
            → result ≡ Err Refused.WrongGuard }
    {
        let Observed { answer, marker: _ } = self.get_or_insert_observed(rt, key, value, guard);
        answer
    }

    /// Returns the key's value, and first inserts the one that a closure makes if the key is
    /// absent: `get_or_insert_with` of 0.2.5. The closure is called at most once.
    ///
    /// # Errors
    ///
    /// Fails with `Refused::WrongGuard`, `Refused::Memory`, `Refused::Capacity` or
    /// `Refused::Limit`, as [`HashMap::try_insert`] does.
    pub fn get_or_insert_with<'g, R: Wait, F: FnOnce() -> V + Drop, G: Guard>(
        &'g self,
        rt: &R,
        key: K,
        f: F,
        guard: &'g G,
    ) -> Result<&'g V, Refused>
        requires { F.IsAlwaysCallable f }
        ensures* own { sem 𝓛 (of_its_history (EventOf K.row V.row S.row).coded.code
            (rule_of ⟦<Law<K, V, S> as Rule<Event<K, V, S>, Named<K, V>>>⟧) (unpinned self.now) K.eq
            (λ h. IfOk result (IsThere K.eq key self.now.seen h (F.post f)))) }
        ensures there { IsOfHistorySince (unpinned self.now) K.eq
            (λ h. IfOk result (IsThere K.eq key self.now.seen h (F.post f))) }
        ensures right { G.collector_number guard.now ≡ self.now.collector
            → IfErr result (IsPlainRefusal self.now.begun.limit) }
        ensures wrong { (G.collector_number guard.now ≡ self.now.collector → ⊥)
            → result ≡ Err Refused.WrongGuard }
    {
        let Observed { answer, marker: _ } = self.get_or_insert_with_observed(rt, key, f, guard);
        answer
    }
}
