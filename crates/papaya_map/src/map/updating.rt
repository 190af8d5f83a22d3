//! The calls that replace a key's value by what a closure makes of it: without a pass, and with a
//! guard.
ghost use Rattle.std.specs.Prelude.{◌≡◌, Err, IfErr, IfOk};
ghost use Rattle.std.specs.Borrow.{sem};
ghost use Rattle.std.specs.Fn.{FnReturnsAt};
ghost use Rattle.papaya_map.specs.Limited.{IsPlainRefusal};
ghost use Rattle.papaya_map.specs.Plain.{IsOfHistorySince, of_its_history, rule_of, unpinned};
ghost use Rattle.papaya_map.specs.Storing.{IsUpdated, IsUpserted};
ghost use Rattle.papaya_map_book.specs.contracts.rule.entry.Event.{the_row as EventOf};

use crate::map::{HashMap, HashMapRef};
use crate::observed::Observed;
use logbook::Rule;
use papaya_map_book::rule::entry::{Event, Named};
use papaya_map_book::rule::law::Law;
use papaya_words::refused::Refused;
use papaya_words_keys::guard::Guard;
use std::hash::{BuildHasher, Hash};
use std::sync::Wait;

impl<'a, K: Hash + Eq + Drop, V: Drop, S: BuildHasher> HashMapRef<'a, K, V, S> {
    /// Replaces the key's value by the one that the closure computes from it, and returns the new
    /// value: `update` of 0.2.5. Returns `Ok(None)` if the key is absent. The closure may be called
    /// again if another call was first to replace the value.
    ///
    /// # Errors
    ///
    /// Fails with `Refused::Memory`, `Refused::Capacity` or `Refused::Limit`, as
    /// [`HashMapRef::insert_as`] does, and then changes no entry.
    ///
    /// # Examples
    ///
    /// ```
    /// map.pin().insert(rt, 1, 10)?;
    /// let value = map.pin().update(rt, 1, |old| old.saturating_add(1))?; // Some(&11)
    /// let absent = map.pin().update(rt, 2, |old| old.saturating_add(1))?; // None
    /// ```
    pub fn update<R: Wait, F: Fn(&V) -> V>(
        &self,
        rt: &R,
        key: K,
        f: F,
    ) -> Result<Option<&'a V>, Refused>
        requires { F.IsAlwaysCallable f }
        ensures* own { sem 𝓛 (of_its_history (EventOf K.row V.row S.row).coded.code
            (rule_of ⟦<Law<K, V, S> as Rule<Event<K, V, S>, Named<K, V>>>⟧) self.now K.eq
            (λ h. IfOk result (IsUpdated K.eq key self.now.seen h (FnReturnsAt F.Fn f)))) }
        ensures updated { IsOfHistorySince self.now K.eq
            (λ h. IfOk result (IsUpdated K.eq key self.now.seen h (FnReturnsAt F.Fn f))) }
        ensures refused { IfErr result (IsPlainRefusal self.now.map.begun.limit) }
    {
        let Observed { answer, marker: _ } = self.update_observed(rt, key, f);
        answer
    }

    /// Replaces the key's value by the one that the closure computes from it, or inserts `value` if
    /// the key is absent, and returns the key's new value: `update_or_insert` of 0.2.5. The closure
    /// may be called again if another call was first to replace the value.
    ///
    /// # Errors
    ///
    /// Fails with `Refused::Memory`, `Refused::Capacity` or `Refused::Limit`, as
    /// [`HashMapRef::insert_as`] does, and then changes no entry.
    ///
    /// # Examples
    ///
    /// ```
    /// let pinned = map.pin();
    /// let first = pinned.update_or_insert(rt, 1, |count| count.saturating_add(1), 1)?; // &1
    /// let second = pinned.update_or_insert(rt, 1, |count| count.saturating_add(1), 1)?; // &2
    /// ```
    pub fn update_or_insert<R: Wait, F: Fn(&V) -> V>(
        &self,
        rt: &R,
        key: K,
        update: F,
        value: V,
    ) -> Result<&'a V, Refused>
        requires { F.IsAlwaysCallable update }
        ensures* own { sem 𝓛 (of_its_history (EventOf K.row V.row S.row).coded.code
            (rule_of ⟦<Law<K, V, S> as Rule<Event<K, V, S>, Named<K, V>>>⟧) self.now K.eq
            (λ h. IfOk result (IsUpserted K.eq key self.now.seen h (FnReturnsAt F.Fn update)
            (λ w. w ≡ value)))) }
        ensures upserted { IsOfHistorySince self.now K.eq
            (λ h. IfOk result (IsUpserted K.eq key self.now.seen h (FnReturnsAt F.Fn update)
            (λ w. w ≡ value))) }
        ensures refused { IfErr result (IsPlainRefusal self.now.map.begun.limit) }
    {
        let Observed { answer, marker: _ } = self.update_or_insert_observed(rt, key, update, value);
        answer
    }

    /// Updates as [`HashMapRef::update_or_insert`] does, with a value that a second closure makes
    /// if the key is absent: `update_or_insert_with` of 0.2.5. That closure is called at most once.
    ///
    /// # Errors
    ///
    /// Fails with `Refused::Memory`, `Refused::Capacity` or `Refused::Limit`, as
    /// [`HashMapRef::insert_as`] does, and then changes no entry.
    pub fn update_or_insert_with<R: Wait, U: Fn(&V) -> V, F: FnOnce() -> V + Drop>(
        &self,
        rt: &R,
        key: K,
        update: U,
        f: F,
    ) -> Result<&'a V, Refused>
        requires update { U.IsAlwaysCallable update }
        requires make { F.IsAlwaysCallable f }
        ensures* own { sem 𝓛 (of_its_history (EventOf K.row V.row S.row).coded.code
            (rule_of ⟦<Law<K, V, S> as Rule<Event<K, V, S>, Named<K, V>>>⟧) self.now K.eq
            (λ h. IfOk result (IsUpserted K.eq key self.now.seen h (FnReturnsAt U.Fn update)
            (F.post f)))) }
        ensures upserted { IsOfHistorySince self.now K.eq
            (λ h. IfOk result (IsUpserted K.eq key self.now.seen h (FnReturnsAt U.Fn update)
            (F.post f))) }
        ensures refused { IfErr result (IsPlainRefusal self.now.map.begun.limit) }
    {
        let Observed { answer, marker: _ } = self.update_or_insert_with_observed(
            rt, key, update, f,
        );
        answer
    }
}

impl<K: Hash + Eq + Drop, V: Drop, S: BuildHasher> HashMap<K, V, S> {
    /// Replaces the key's value by the one that the closure computes from it: `update` of 0.2.5.
    /// Returns as [`HashMapRef::update`].
    ///
    /// # Errors
    ///
    /// Fails with `Refused::WrongGuard` if the guard is of another collector, and with
    /// `Refused::Memory`, `Refused::Capacity` or `Refused::Limit` as [`HashMapRef::update`] does.
    pub fn update<'g, R: Wait, F: Fn(&V) -> V, G: Guard>(
        &'g self,
        rt: &R,
        key: K,
        f: F,
        guard: &'g G,
    ) -> Result<Option<&'g V>, Refused>
        requires { F.IsAlwaysCallable f }
        ensures* own { sem 𝓛 (of_its_history (EventOf K.row V.row S.row).coded.code
            (rule_of ⟦<Law<K, V, S> as Rule<Event<K, V, S>, Named<K, V>>>⟧) (unpinned self.now) K.eq
            (λ h. IfOk result (IsUpdated K.eq key self.now.seen h (FnReturnsAt F.Fn f)))) }
        ensures updated { IsOfHistorySince (unpinned self.now) K.eq
            (λ h. IfOk result (IsUpdated K.eq key self.now.seen h (FnReturnsAt F.Fn f))) }
        ensures right { G.collector_number guard.now ≡ self.now.collector
            → IfErr result (IsPlainRefusal self.now.begun.limit) }
        ensures wrong { (G.collector_number guard.now ≡ self.now.collector → ⊥)
            → result ≡ Err Refused.WrongGuard }
    {
        let Observed { answer, marker: _ } = self.update_observed(rt, key, f, guard);
        answer
    }

    /// Updates the key's value, or inserts `value` if the key is absent: `update_or_insert` of
    /// 0.2.5. Returns as [`HashMapRef::update_or_insert`].
    ///
    /// # Errors
    ///
    /// Fails with `Refused::WrongGuard`, `Refused::Memory`, `Refused::Capacity` or
    /// `Refused::Limit`, as [`HashMap::update`] does.
    pub fn update_or_insert<'g, R: Wait, F: Fn(&V) -> V, G: Guard>(
        &'g self,
        rt: &R,
        key: K,
        update: F,
        value: V,
        guard: &'g G,
    ) -> Result<&'g V, Refused>
        requires { F.IsAlwaysCallable update }
        ensures* own { sem 𝓛 (of_its_history (EventOf K.row V.row S.row).coded.code
            (rule_of ⟦<Law<K, V, S> as Rule<Event<K, V, S>, Named<K, V>>>⟧) (unpinned self.now) K.eq
            (λ h. IfOk result (IsUpserted K.eq key self.now.seen h (FnReturnsAt F.Fn update)
            (λ w. w ≡ value)))) }
        ensures upserted { IsOfHistorySince (unpinned self.now) K.eq
            (λ h. IfOk result (IsUpserted K.eq key self.now.seen h (FnReturnsAt F.Fn update)
            (λ w. w ≡ value))) }
        ensures right { G.collector_number guard.now ≡ self.now.collector
            → IfErr result (IsPlainRefusal self.now.begun.limit) }
        ensures wrong { (G.collector_number guard.now ≡ self.now.collector → ⊥)
            → result ≡ Err Refused.WrongGuard }
    {
        let Observed { answer, marker: _ } = self.update_or_insert_observed(
            rt, key, update, value, guard,
        );
        answer
    }

    /// Updates as [`HashMap::update_or_insert`] does, with a value that a second closure makes if
    /// the key is absent: `update_or_insert_with` of 0.2.5. That closure is called at most once.
    ///
    /// # Errors
    ///
    /// Fails with `Refused::WrongGuard`, `Refused::Memory`, `Refused::Capacity` or
    /// `Refused::Limit`, as [`HashMap::update`] does.
    pub fn update_or_insert_with<'g, R: Wait, U: Fn(&V) -> V, F: FnOnce() -> V + Drop, G: Guard>(
        &'g self,
        rt: &R,
        key: K,
        update: U,
        f: F,
        guard: &'g G,
    ) -> Result<&'g V, Refused>
        requires update { U.IsAlwaysCallable update }
        requires make { F.IsAlwaysCallable f }
        ensures* own { sem 𝓛 (of_its_history (EventOf K.row V.row S.row).coded.code
            (rule_of ⟦<Law<K, V, S> as Rule<Event<K, V, S>, Named<K, V>>>⟧) (unpinned self.now) K.eq
            (λ h. IfOk result (IsUpserted K.eq key self.now.seen h (FnReturnsAt U.Fn update)
            (F.post f)))) }
        ensures upserted { IsOfHistorySince (unpinned self.now) K.eq
            (λ h. IfOk result (IsUpserted K.eq key self.now.seen h (FnReturnsAt U.Fn update)
            (F.post f))) }
        ensures right { G.collector_number guard.now ≡ self.now.collector
            → IfErr result (IsPlainRefusal self.now.begun.limit) }
        ensures wrong { (G.collector_number guard.now ≡ self.now.collector → ⊥)
            → result ≡ Err Refused.WrongGuard }
    {
        let Observed { answer, marker: _ } = self.update_or_insert_with_observed(
            rt, key, update, f, guard,
        );
        answer
    }
}
