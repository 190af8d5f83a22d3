//! The calls of a set with a guard. Each checks that the guard is of the set's collector, and then
//! works as the call of that name of [`HashSetRef`](crate::set::HashSetRef). Its contract begins
//! with the history observed up to the set's creation. With another guard it fails, and changes
//! nothing.
ghost use Rattle.std.specs.Prelude.{◌≡◌, [], true, Ok, Err, IfErr, IfOk, is_ok};
ghost use Rattle.std.specs.Borrow.{sem};
ghost use denote.Struct.Field.{unit-field};
ghost use mathlib.Core.List.{IsPrefix};
ghost use Rattle.papaya_map_book.specs.contracts.rule.entry.Event.{the_row as EventOf};
ghost use Rattle.papaya_map_change.specs.Writing.{IsMemoryOrCapacity};
ghost use Rattle.papaya_map_lookup.specs.History.{IsLegalHistory, Makes, history_of, key_of};
ghost use Rattle.papaya_map.specs.Limited.{IsPlainRefusal};
ghost use Rattle.papaya_map.specs.Plain.{IsOfHistorySince, of_its_history, rule_of, unpinned};
ghost use Rattle.papaya_map_scan.specs.Leaving.{HasDropped, HasKept, IsCleared};
ghost use Rattle.papaya_set.specs.Shared.{IsContainedBetween, IsInsertedBetween};
ghost use Rattle.papaya_set.specs.Shared.{IsKeyFoundBetween, IsRemovedKeyBetween, JudgesKey, was_taken};

use crate::iter::Iter;
use crate::set::HashSet;
use logbook::Rule;
use papaya_map::observed::{Observed, Saying};
use papaya_map_book::rule::entry::{Event, Named};
use papaya_map_book::rule::law::Law;
use papaya_words::refused::Refused;
use papaya_words_keys::guard::{Equivalent, Guard, LocalGuard, OwnedGuard};
use std::hash::{BuildHasher, Hash};
use std::sync::Wait;

impl<K: Hash + Eq, S: BuildHasher> HashSet<K, S> {
    /// Returns a guard of the set's collector: `guard` of 0.2.5.
    pub fn guard(&self) -> LocalGuard<'_>
        ensures { result.collector ≡ self.now.collector }
    {
        self.map.guard()
    }

    /// Returns a guard that may be sent to another thread: `owned_guard` of 0.2.5.
    pub fn owned_guard(&self) -> OwnedGuard<'_>
        ensures { result.collector ≡ self.now.collector }
    {
        self.map.owned_guard()
    }

    /// Checks that the guard is of the set's collector. In 0.2.5 a call with another guard panics.
    ///
    /// # Errors
    ///
    /// Fails with `Refused::WrongGuard` if the guard is of another collector.
    #[inline]
    pub fn verify<G: Guard>(&self, guard: &G) -> Result<(), Refused>
        ensures right { G.collector_number guard.now ≡ self.now.collector → result ≡ Ok tt }
        ensures wrong { (G.collector_number guard.now ≡ self.now.collector → ⊥)
            → result ≡ Err Refused.WrongGuard }
    {
        self.map.verify(guard)
    }

    /// Returns a refusal, with the history observed up to the set's creation, and no change.
    #[inline(always)]
    fn observe_refused<B>(&self, refused: Refused) -> Saying<Result<B, Refused>, K, (), S>
        ensures answer { result.answer ≡ Err refused }
        ensures book { result.book ≡ self.now.book }
        ensures legal { IsLegalHistory K.eq key_of (history_of result.log) }
        ensures seen { IsPrefix self.now.seen (history_of result.log) }
        ensures made { history_of result.made ≡ [] }
    {
        let pass = self.map.begun(None);
        pass.tell(Err(refused))
    }

    /// Performs [`HashSet::contains`], and returns the observed history as well.
    #[inline(always)]
    fn contains_observed<Q: Equivalent<K>, G: Guard>(
        &self,
        key: &Q,
        guard: &G,
    ) -> Saying<Result<bool, Refused>, K, (), S>
        ensures made { history_of result.made ≡ [] }
        ensures book { result.book ≡ self.now.book }
        ensures legal { IsLegalHistory K.eq key_of (history_of result.log) }
        ensures seen { IsPrefix self.now.seen (history_of result.log) }
        ensures contained { IfOk result.answer (IsContainedBetween K.eq (Q.matches key.now)
            self.now.seen (history_of result.log)) }
        ensures right { G.collector_number guard.now ≡ self.now.collector
            → is_ok result.answer ≡ true }
        ensures wrong { (G.collector_number guard.now ≡ self.now.collector → ⊥)
            → result.answer ≡ Err Refused.WrongGuard }
    {
        if let Err(refused) = self.verify(guard) {
            return self.observe_refused(refused);
        }
        let mut pass = self.map.begun(None);
        let found = self.map.pin().get_as(key, &mut pass).is_some();
        pass.tell(Ok(found))
    }

    /// Returns whether the key is in the set: `contains` of 0.2.5. It never waits, locks or
    /// allocates.
    ///
    /// # Errors
    ///
    /// Fails with `Refused::WrongGuard` if the guard is of another collector.
    #[inline]
    pub fn contains<Q: Equivalent<K>, G: Guard>(&self, key: &Q, guard: &G) -> Result<bool, Refused>
        ensures* own { sem 𝓛 (of_its_history (EventOf K.row unit-field.row S.row).coded.code
            (rule_of ⟦<Law<K, (), S> as Rule<Event<K, (), S>, Named<K, ()>>>⟧) (unpinned self.now)
            K.eq (λ h. IfOk result (IsContainedBetween K.eq (Q.matches key.now)
            self.now.seen h))) }
        ensures contained { IsOfHistorySince (unpinned self.now) K.eq
            (λ h. IfOk result (IsContainedBetween K.eq (Q.matches key.now) self.now.seen h)) }
        ensures right { G.collector_number guard.now ≡ self.now.collector
            → is_ok result ≡ true }
        ensures wrong { (G.collector_number guard.now ≡ self.now.collector → ⊥)
            → result ≡ Err Refused.WrongGuard }
    {
        let Observed { answer, marker: _ } = self.contains_observed(key, guard);
        answer
    }

    /// Performs [`HashSet::get`], and returns the observed history as well.
    #[inline(always)]
    fn get_observed<'g, Q: Equivalent<K>, G: Guard>(
        &'g self,
        key: &Q,
        guard: &'g G,
    ) -> Saying<Result<Option<&'g K>, Refused>, K, (), S>
        ensures made { history_of result.made ≡ [] }
        ensures book { result.book ≡ self.now.book }
        ensures legal { IsLegalHistory K.eq key_of (history_of result.log) }
        ensures seen { IsPrefix self.now.seen (history_of result.log) }
        ensures found { IfOk result.answer (IsKeyFoundBetween K.eq (Q.matches key.now)
            self.now.seen (history_of result.log)) }
        ensures right { G.collector_number guard.now ≡ self.now.collector
            → is_ok result.answer ≡ true }
        ensures wrong { (G.collector_number guard.now ≡ self.now.collector → ⊥)
            → result.answer ≡ Err Refused.WrongGuard }
    {
        if let Err(refused) = self.verify(guard) {
            return self.observe_refused(refused);
        }
        let mut session = self.map.begun_session(None);
        match session.get_key_value(key) {
            Some((stored, _)) => session.tell(Ok(Some(stored))),
            None => session.tell(Ok(None)),
        }
    }

    /// Returns the stored key that is equal to this one: `get` of 0.2.5. As [`HashSet::contains`],
    /// it never waits.
    ///
    /// # Errors
    ///
    /// Fails with `Refused::WrongGuard` if the guard is of another collector.
    #[inline]
    pub fn get<'g, Q: Equivalent<K>, G: Guard>(
        &'g self,
        key: &Q,
        guard: &'g G,
    ) -> Result<Option<&'g K>, Refused>
        ensures* own { sem 𝓛 (of_its_history (EventOf K.row unit-field.row S.row).coded.code
            (rule_of ⟦<Law<K, (), S> as Rule<Event<K, (), S>, Named<K, ()>>>⟧) (unpinned self.now)
            K.eq (λ h. IfOk result (IsKeyFoundBetween K.eq (Q.matches key.now)
            self.now.seen h))) }
        ensures found { IsOfHistorySince (unpinned self.now) K.eq
            (λ h. IfOk result (IsKeyFoundBetween K.eq (Q.matches key.now) self.now.seen h)) }
        ensures right { G.collector_number guard.now ≡ self.now.collector
            → is_ok result ≡ true }
        ensures wrong { (G.collector_number guard.now ≡ self.now.collector → ⊥)
            → result ≡ Err Refused.WrongGuard }
    {
        let Observed { answer, marker: _ } = self.get_observed(key, guard);
        answer
    }

    /// Performs [`HashSet::remove`], and returns the observed history as well.
    #[inline(always)]
    fn remove_observed<R: Wait, Q: Equivalent<K>, G: Guard>(
        &self,
        rt: &R,
        key: &Q,
        guard: &G,
    ) -> Saying<Result<bool, Refused>, K, (), S>
        ensures made { Makes (was_taken result.answer) [] (history_of result.made)
            (history_of result.log) }
        ensures book { result.book ≡ self.now.book }
        ensures legal { IsLegalHistory K.eq key_of (history_of result.log) }
        ensures seen { IsPrefix self.now.seen (history_of result.log) }
        ensures removed { IfOk result.answer (IsRemovedKeyBetween K.eq (Q.matches key.now)
            self.now.seen (history_of result.log)) }
        ensures right { G.collector_number guard.now ≡ self.now.collector
            → IfErr result.answer IsMemoryOrCapacity }
        ensures wrong { (G.collector_number guard.now ≡ self.now.collector → ⊥)
            → result.answer ≡ Err Refused.WrongGuard }
    {
        if let Err(refused) = self.verify(guard) {
            return self.observe_refused(refused);
        }
        let mut pass = self.map.begun(Some(guard.number()));
        match self.map.pin().remove_as(rt, key, &mut pass) {
            Ok(removed) => pass.tell(Ok(removed.is_some())),
            Err(refused) => pass.tell(Err(refused)),
        }
    }

    /// Removes a key, and returns whether it was present: `remove` of 0.2.5.
    ///
    /// # Errors
    ///
    /// Fails with `Refused::WrongGuard` if the guard is of another collector, and with
    /// `Refused::Memory` or `Refused::Capacity` as
    /// [`HashSetRef::remove`](crate::set::HashSetRef::remove) does.
    pub fn remove<R: Wait, Q: Equivalent<K>, G: Guard>(
        &self,
        rt: &R,
        key: &Q,
        guard: &G,
    ) -> Result<bool, Refused>
        ensures* own { sem 𝓛 (of_its_history (EventOf K.row unit-field.row S.row).coded.code
            (rule_of ⟦<Law<K, (), S> as Rule<Event<K, (), S>, Named<K, ()>>>⟧) (unpinned self.now)
            K.eq (λ h. IfOk result (IsRemovedKeyBetween K.eq (Q.matches key.now)
            self.now.seen h))) }
        ensures removed { IsOfHistorySince (unpinned self.now) K.eq
            (λ h. IfOk result (IsRemovedKeyBetween K.eq (Q.matches key.now) self.now.seen h)) }
        ensures right { G.collector_number guard.now ≡ self.now.collector
            → IfErr result IsMemoryOrCapacity }
        ensures wrong { (G.collector_number guard.now ≡ self.now.collector → ⊥)
            → result ≡ Err Refused.WrongGuard }
    {
        let Observed { answer, marker: _ } = self.remove_observed(rt, key, guard);
        answer
    }

    /// Reserves room for `additional` more keys than the set counts: `reserve` of 0.2.5.
    ///
    /// # Errors
    ///
    /// Fails with `Refused::WrongGuard` if the guard is of another collector, and with
    /// `Refused::Memory` or `Refused::Capacity` as
    /// [`HashSetRef::reserve`](crate::set::HashSetRef::reserve) does.
    pub fn reserve<R: Wait, G: Guard>(
        &self,
        rt: &R,
        additional: usize,
        guard: &G,
    ) -> Result<(), Refused>
        ensures right { G.collector_number guard.now ≡ self.now.collector
            → IfErr result IsMemoryOrCapacity }
        ensures wrong { (G.collector_number guard.now ≡ self.now.collector → ⊥)
            → result ≡ Err Refused.WrongGuard }
    {
        self.map.reserve(rt, additional, guard)
    }

    /// Performs [`HashSet::clear`], and returns the observed history as well.
    #[inline(always)]
    fn clear_observed<R: Wait, G: Guard>(
        &self,
        rt: &R,
        guard: &G,
    ) -> Saying<Result<(), Refused>, K, (), S>
        ensures made { (G.collector_number guard.now ≡ self.now.collector
            → HasDropped K.eq self.now.seen (history_of result.log) []
            (history_of result.made)) × ((G.collector_number guard.now ≡ self.now.collector
            → ⊥) → history_of result.made ≡ []) }
        ensures book { result.book ≡ self.now.book }
        ensures legal { IsLegalHistory K.eq key_of (history_of result.log) }
        ensures seen { IsPrefix self.now.seen (history_of result.log) }
        ensures cleared { IfOk result.answer (λ _. IsCleared K.eq self.now.seen
            (history_of result.log)) }
        ensures right { G.collector_number guard.now ≡ self.now.collector
            → IfErr result.answer IsMemoryOrCapacity }
        ensures wrong { (G.collector_number guard.now ≡ self.now.collector → ⊥)
            → result.answer ≡ Err Refused.WrongGuard }
    {
        if let Err(refused) = self.verify(guard) {
            return self.observe_refused(refused);
        }
        let mut session = self.map.begun_session(Some(guard.number()));
        let answer = session.clear(rt);
        session.tell(answer)
    }

    /// Removes all keys that are in the set as the call begins: `clear` of 0.2.5.
    ///
    /// # Errors
    ///
    /// Fails with `Refused::WrongGuard` if the guard is of another collector, and with
    /// `Refused::Memory` or `Refused::Capacity` as
    /// [`HashSetRef::clear`](crate::set::HashSetRef::clear) does.
    pub fn clear<R: Wait, G: Guard>(&self, rt: &R, guard: &G) -> Result<(), Refused>
        ensures* own { sem 𝓛 (of_its_history (EventOf K.row unit-field.row S.row).coded.code
            (rule_of ⟦<Law<K, (), S> as Rule<Event<K, (), S>, Named<K, ()>>>⟧) (unpinned self.now)
            K.eq (λ h. IfOk result (λ _. IsCleared K.eq self.now.seen h))) }
        ensures cleared { IsOfHistorySince (unpinned self.now) K.eq
            (λ h. IfOk result (λ _. IsCleared K.eq self.now.seen h)) }
        ensures right { G.collector_number guard.now ≡ self.now.collector
            → IfErr result IsMemoryOrCapacity }
        ensures wrong { (G.collector_number guard.now ≡ self.now.collector → ⊥)
            → result ≡ Err Refused.WrongGuard }
    {
        let Observed { answer, marker: _ } = self.clear_observed(rt, guard);
        answer
    }

    /// Performs [`HashSet::retain`], and returns the observed history as well.
    #[inline(always)]
    fn retain_observed<R: Wait, F: FnMut(&K) -> bool, G: Guard>(
        &self,
        rt: &R,
        mut stays: F,
        guard: &G,
    ) -> Saying<Result<(), Refused>, K, (), S>
        requires { F.IsAlwaysCallable stays }
        ensures made { (G.collector_number guard.now ≡ self.now.collector → ⊥)
            → history_of result.made ≡ [] }
        ensures book { result.book ≡ self.now.book }
        ensures legal { IsLegalHistory K.eq key_of (history_of result.log) }
        ensures seen { IsPrefix self.now.seen (history_of result.log) }
        ensures kept { G.collector_number guard.now ≡ self.now.collector
            → HasKept K.eq self.now.seen (history_of result.log) [] (history_of result.made)
            (JudgesKey F.FnMut) stays result.answer }
        ensures right { G.collector_number guard.now ≡ self.now.collector
            → IfErr result.answer IsMemoryOrCapacity }
        ensures wrong { (G.collector_number guard.now ≡ self.now.collector → ⊥)
            → result.answer ≡ Err Refused.WrongGuard }
    {
        if let Err(refused) = self.verify(guard) {
            return self.observe_refused(refused);
        }
        let mut session = self.map.begun_session(Some(guard.number()));
        let answer = session.retain(rt, move |key, _| stays(key));
        session.tell(answer)
    }

    /// Removes the keys for which the closure returns `false`: `retain` of 0.2.5.
    ///
    /// # Errors
    ///
    /// Fails with `Refused::WrongGuard` if the guard is of another collector, and with
    /// `Refused::Memory` or `Refused::Capacity` as
    /// [`HashSetRef::retain`](crate::set::HashSetRef::retain) does.
    pub fn retain<R: Wait, F: FnMut(&K) -> bool, G: Guard>(
        &self,
        rt: &R,
        stays: F,
        guard: &G,
    ) -> Result<(), Refused>
        requires { F.IsAlwaysCallable stays }
        ensures* own { sem 𝓛 (of_its_history (EventOf K.row unit-field.row S.row).coded.code
            (rule_of ⟦<Law<K, (), S> as Rule<Event<K, (), S>, Named<K, ()>>>⟧) (unpinned self.now)
            K.eq (λ h. G.collector_number guard.now ≡ self.now.collector
            → (made : _) × HasKept K.eq self.now.seen h [] made (JudgesKey F.FnMut) stays result)) }
        ensures kept { IsOfHistorySince (unpinned self.now) K.eq
            (λ h. G.collector_number guard.now ≡ self.now.collector → (made : _) × HasKept K.eq
            self.now.seen h [] made (JudgesKey F.FnMut) stays result) }
        ensures right { G.collector_number guard.now ≡ self.now.collector
            → IfErr result IsMemoryOrCapacity }
        ensures wrong { (G.collector_number guard.now ≡ self.now.collector → ⊥)
            → result ≡ Err Refused.WrongGuard }
    {
        let Observed { answer, marker: _ } = self.retain_observed(rt, stays, guard);
        answer
    }

    /// Returns an iterator over the keys: `iter` of 0.2.5.
    ///
    /// # Errors
    ///
    /// Fails with `Refused::WrongGuard` if the guard is of another collector, and with
    /// `Refused::Memory` or `Refused::Capacity` as
    /// [`HashSetRef::iter`](crate::set::HashSetRef::iter) does.
    pub fn iter<'g, R: Wait, G: Guard>(
        &'g self,
        rt: &R,
        guard: &'g G,
    ) -> Result<Iter<'g, K, S>, Refused>
        ensures walk { IfOk result (λ keys. keys.book ≡ self.now.book) }
        ensures began { IfOk result (λ keys. (keys.began ≡ self.now.seen) × (keys.given ≡ [])) }
        ensures right { G.collector_number guard.now ≡ self.now.collector
            → IfErr result IsMemoryOrCapacity }
        ensures wrong { (G.collector_number guard.now ≡ self.now.collector → ⊥)
            → result ≡ Err Refused.WrongGuard }
    {
        Ok(Iter::of(self.map.keys(rt, guard)?))
    }
}

impl<K: Hash + Eq + Drop, S: BuildHasher> HashSet<K, S> {
    /// Performs [`HashSet::insert`], and returns the observed history as well.
    #[inline(always)]
    fn insert_observed<R: Wait, G: Guard>(
        &self,
        rt: &R,
        key: K,
        guard: &G,
    ) -> Saying<Result<bool, Refused>, K, (), S>
        ensures made { Makes (is_ok result.answer) [] (history_of result.made)
            (history_of result.log) }
        ensures book { result.book ≡ self.now.book }
        ensures legal { IsLegalHistory K.eq key_of (history_of result.log) }
        ensures seen { IsPrefix self.now.seen (history_of result.log) }
        ensures put { IfOk result.answer (IsInsertedBetween K.eq key self.now.seen
            (history_of result.log)) }
        ensures right { G.collector_number guard.now ≡ self.now.collector
            → IfErr result.answer (IsPlainRefusal self.now.begun.limit) }
        ensures wrong { (G.collector_number guard.now ≡ self.now.collector → ⊥)
            → result.answer ≡ Err Refused.WrongGuard }
    {
        if let Err(refused) = self.verify(guard) {
            return self.observe_refused(refused);
        }
        let mut pass = self.map.begun(Some(guard.number()));
        match self.map.pin().insert_as(rt, key, (), &mut pass) {
            Ok(old) => pass.tell(Ok(old.is_none())),
            Err(refused) => pass.tell(Err(refused)),
        }
    }

    /// Inserts a key, and returns whether it was absent: `insert` of 0.2.5. As the documentation of
    /// 0.2.5 says, an equal key that is stored stays; its code stores the new one.
    ///
    /// # Errors
    ///
    /// Fails with `Refused::WrongGuard` if the guard is of another collector, and with
    /// `Refused::Memory`, `Refused::Capacity` or `Refused::Limit` as
    /// [`HashSetRef::insert`](crate::set::HashSetRef::insert) does.
    pub fn insert<R: Wait, G: Guard>(&self, rt: &R, key: K, guard: &G) -> Result<bool, Refused>
        ensures* own { sem 𝓛 (of_its_history (EventOf K.row unit-field.row S.row).coded.code
            (rule_of ⟦<Law<K, (), S> as Rule<Event<K, (), S>, Named<K, ()>>>⟧) (unpinned self.now)
            K.eq (λ h. IfOk result (IsInsertedBetween K.eq key self.now.seen h))) }
        ensures put { IsOfHistorySince (unpinned self.now) K.eq
            (λ h. IfOk result (IsInsertedBetween K.eq key self.now.seen h)) }
        ensures right { G.collector_number guard.now ≡ self.now.collector
            → IfErr result (IsPlainRefusal self.now.begun.limit) }
        ensures wrong { (G.collector_number guard.now ≡ self.now.collector → ⊥)
            → result ≡ Err Refused.WrongGuard }
    {
        let Observed { answer, marker: _ } = self.insert_observed(rt, key, guard);
        answer
    }
}
