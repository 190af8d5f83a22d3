//! The calls of a pinned set. The result of each is correct for this set's own history since the
//! pin, but no contract relates two such calls. A proof about several calls makes a
//! [`Session`](papaya_map::session::Session) of [`HashSet::map`], the map from the keys to `()`.
ghost use Rattle.std.specs.Prelude.{◌≡◌, [], IfErr, IfOk, is_ok};
ghost use Rattle.std.specs.Borrow.{sem};
ghost use denote.Struct.Field.{unit-field};
ghost use mathlib.Core.List.{IsPrefix};
ghost use Rattle.papaya_map_book.specs.contracts.rule.entry.Event.{the_row as EventOf};
ghost use Rattle.papaya_map_change.specs.Writing.{IsMemoryOrCapacity};
ghost use Rattle.papaya_map_lookup.specs.History.{IsLegalHistory, Makes, history_of, key_of};
ghost use Rattle.papaya_map.specs.Limited.{IsPlainRefusal};
ghost use Rattle.papaya_map.specs.Plain.{IsOfHistorySince, of_its_history, rule_of};
ghost use Rattle.papaya_map_scan.specs.Leaving.{HasDropped, HasKept, IsCleared};
ghost use Rattle.papaya_set.specs.Shared.{IsContainedBetween, IsInsertedBetween};
ghost use Rattle.papaya_set.specs.Shared.{IsKeyFoundBetween, IsRemovedKeyBetween, JudgesKey, was_taken};

use crate::iter::Iter;
use crate::set::{HashSet, HashSetRef};
use logbook::Rule;
use papaya_map::observed::{Observed, Saying};
use papaya_map_book::rule::entry::{Event, Named};
use papaya_map_book::rule::law::Law;
use papaya_words::refused::Refused;
use papaya_words_keys::guard::Equivalent;
use std::hash::{BuildHasher, Hash};
use std::sync::Wait;

impl<'a, K: Hash + Eq, S: BuildHasher> HashSetRef<'a, K, S> {
    /// Returns the set that was pinned: `set` of 0.2.5.
    pub fn set(&self) -> &'a HashSet<K, S>
        ensures { result.now ≡ self.now.map }
    {
        self.set
    }

    /// Returns the number of keys: `len` of 0.2.5. Each change is counted one step after it is
    /// made, so a change that another thread is making may be counted or not.
    pub fn len(&self) -> usize {
        self.set.len()
    }

    /// Returns whether [`HashSetRef::len`] is 0: `is_empty` of 0.2.5.
    pub fn is_empty(&self) -> bool {
        self.set.is_empty()
    }

    /// Returns the number of keys in the arena, as [`HashSet::stored`] counts them.
    pub fn stored(&self) -> usize {
        self.set.stored()
    }

    /// Returns the number of slots of the root table, or 0 if there is none yet.
    pub fn slots(&self) -> usize {
        self.keys.slots()
    }

    /// Returns whether keys are being moved to a next table.
    pub fn resizing(&self) -> bool {
        self.keys.resizing()
    }

    /// Performs [`HashSetRef::contains`], and returns the observed history as well.
    #[inline(always)]
    fn contains_observed<Q: Equivalent<K>>(&self, key: &Q) -> Saying<bool, K, (), S>
        ensures made { history_of result.made ≡ [] }
        ensures book { result.book ≡ self.now.map.book }
        ensures legal { IsLegalHistory K.eq key_of (history_of result.log) }
        ensures seen { IsPrefix self.now.seen (history_of result.log) }
        ensures contained { IsContainedBetween K.eq (Q.matches key.now) self.now.seen
            (history_of result.log) result.answer }
    {
        let mut pass = self.keys.begun(None);
        let answer = self.keys.get_as(key, &mut pass).is_some();
        pass.tell(answer)
    }

    /// Returns whether the key is in the set: `contains` of 0.2.5. It never waits, locks or
    /// allocates.
    ///
    /// # Examples
    ///
    /// ```
    /// set.pin().insert(rt, 1)?;
    /// let present = set.pin().contains(&1); // true
    /// let absent = set.pin().contains(&2); // false
    /// ```
    #[inline]
    pub fn contains<Q: Equivalent<K>>(&self, key: &Q) -> bool
        ensures* own { sem 𝓛 (of_its_history (EventOf K.row unit-field.row S.row).coded.code
            (rule_of ⟦<Law<K, (), S> as Rule<Event<K, (), S>, Named<K, ()>>>⟧) self.now K.eq
            (λ h. IsContainedBetween K.eq (Q.matches key.now) self.now.seen h result)) }
        ensures contained { IsOfHistorySince self.now K.eq
            (λ h. IsContainedBetween K.eq (Q.matches key.now) self.now.seen h result) }
    {
        let Observed { answer, marker: _ } = self.contains_observed(key);
        answer
    }

    /// Performs [`HashSetRef::get`], and returns the observed history as well.
    #[inline(always)]
    fn get_observed<Q: Equivalent<K>>(&self, key: &Q) -> Saying<Option<&'a K>, K, (), S>
        ensures made { history_of result.made ≡ [] }
        ensures book { result.book ≡ self.now.map.book }
        ensures legal { IsLegalHistory K.eq key_of (history_of result.log) }
        ensures seen { IsPrefix self.now.seen (history_of result.log) }
        ensures found { IsKeyFoundBetween K.eq (Q.matches key.now) self.now.seen
            (history_of result.log) result.answer }
    {
        let mut session = self.keys.begun_session(None);
        match session.get_key_value(key) {
            Some((stored, _)) => session.tell(Some(stored)),
            None => session.tell(None),
        }
    }

    /// Returns the stored key that is equal to this one, or `None` if there is none: `get` of
    /// 0.2.5. It never waits, locks or allocates.
    #[inline]
    pub fn get<Q: Equivalent<K>>(&self, key: &Q) -> Option<&'a K>
        ensures* own { sem 𝓛 (of_its_history (EventOf K.row unit-field.row S.row).coded.code
            (rule_of ⟦<Law<K, (), S> as Rule<Event<K, (), S>, Named<K, ()>>>⟧) self.now K.eq
            (λ h. IsKeyFoundBetween K.eq (Q.matches key.now) self.now.seen h result)) }
        ensures found { IsOfHistorySince self.now K.eq
            (λ h. IsKeyFoundBetween K.eq (Q.matches key.now) self.now.seen h result) }
    {
        let Observed { answer, marker: _ } = self.get_observed(key);
        answer
    }

    /// Performs [`HashSetRef::remove`], and returns the observed history as well.
    #[inline(always)]
    fn remove_observed<R: Wait, Q: Equivalent<K>>(
        &self,
        rt: &R,
        key: &Q,
    ) -> Saying<Result<bool, Refused>, K, (), S>
        ensures made { Makes (was_taken result.answer) [] (history_of result.made)
            (history_of result.log) }
        ensures book { result.book ≡ self.now.map.book }
        ensures legal { IsLegalHistory K.eq key_of (history_of result.log) }
        ensures seen { IsPrefix self.now.seen (history_of result.log) }
        ensures removed { IfOk result.answer (IsRemovedKeyBetween K.eq (Q.matches key.now)
            self.now.seen (history_of result.log)) }
        ensures refused { IfErr result.answer IsMemoryOrCapacity }
    {
        let mut pass = self.keys.begun(None);
        match self.keys.remove_as(rt, key, &mut pass) {
            Ok(removed) => pass.tell(Ok(removed.is_some())),
            Err(refused) => pass.tell(Err(refused)),
        }
    }

    /// Removes a key, and returns whether it was present: `remove` of 0.2.5.
    ///
    /// # Errors
    ///
    /// A removal allocates nothing for itself. If it helps to copy the table, it may fail with
    /// `Refused::Memory` or `Refused::Capacity`, and then changes nothing.
    pub fn remove<R: Wait, Q: Equivalent<K>>(&self, rt: &R, key: &Q) -> Result<bool, Refused>
        ensures* own { sem 𝓛 (of_its_history (EventOf K.row unit-field.row S.row).coded.code
            (rule_of ⟦<Law<K, (), S> as Rule<Event<K, (), S>, Named<K, ()>>>⟧) self.now K.eq
            (λ h. IfOk result (IsRemovedKeyBetween K.eq (Q.matches key.now) self.now.seen h))) }
        ensures removed { IsOfHistorySince self.now K.eq
            (λ h. IfOk result (IsRemovedKeyBetween K.eq (Q.matches key.now) self.now.seen h)) }
        ensures refused { IfErr result IsMemoryOrCapacity }
    {
        let Observed { answer, marker: _ } = self.remove_observed(rt, key);
        answer
    }

    /// Reserves room for `additional` more keys than the set counts: `reserve` of 0.2.5. No key of
    /// the set changes.
    ///
    /// # Errors
    ///
    /// Fails with `Refused::Memory` if an allocation fails, and with `Refused::Capacity` if such a
    /// table would be too long or one too many. 0.2.5 aborts or panics there.
    pub fn reserve<R: Wait>(&self, rt: &R, additional: usize) -> Result<(), Refused>
        ensures { IfErr result IsMemoryOrCapacity }
    {
        self.keys.reserve(rt, additional)
    }

    /// Performs [`HashSetRef::clear`], and returns the observed history as well.
    #[inline(always)]
    fn clear_observed<R: Wait>(&self, rt: &R) -> Saying<Result<(), Refused>, K, (), S>
        ensures made { HasDropped K.eq self.now.seen (history_of result.log) []
            (history_of result.made) }
        ensures book { result.book ≡ self.now.map.book }
        ensures legal { IsLegalHistory K.eq key_of (history_of result.log) }
        ensures seen { IsPrefix self.now.seen (history_of result.log) }
        ensures cleared { IfOk result.answer (λ _. IsCleared K.eq self.now.seen
            (history_of result.log)) }
        ensures refused { IfErr result.answer IsMemoryOrCapacity }
    {
        let mut session = self.keys.begun_session(None);
        let answer = session.clear(rt);
        session.tell(answer)
    }

    /// Removes all keys that are in the set as the call begins: `clear` of 0.2.5. A key that
    /// another thread inserts meanwhile may stay.
    ///
    /// # Errors
    ///
    /// Fails with `Refused::Memory` or `Refused::Capacity`, as [`HashSetRef::retain`] does.
    pub fn clear<R: Wait>(&self, rt: &R) -> Result<(), Refused>
        ensures* own { sem 𝓛 (of_its_history (EventOf K.row unit-field.row S.row).coded.code
            (rule_of ⟦<Law<K, (), S> as Rule<Event<K, (), S>, Named<K, ()>>>⟧) self.now K.eq
            (λ h. IfOk result (λ _. IsCleared K.eq self.now.seen h))) }
        ensures cleared { IsOfHistorySince self.now K.eq
            (λ h. IfOk result (λ _. IsCleared K.eq self.now.seen h)) }
        ensures refused { IfErr result IsMemoryOrCapacity }
    {
        let Observed { answer, marker: _ } = self.clear_observed(rt);
        answer
    }

    /// Performs [`HashSetRef::retain`], and returns the observed history as well.
    #[inline(always)]
    fn retain_observed<R: Wait, F: FnMut(&K) -> bool>(
        &self,
        rt: &R,
        mut stays: F,
    ) -> Saying<Result<(), Refused>, K, (), S>
        requires { F.IsAlwaysCallable stays }
        ensures book { result.book ≡ self.now.map.book }
        ensures legal { IsLegalHistory K.eq key_of (history_of result.log) }
        ensures seen { IsPrefix self.now.seen (history_of result.log) }
        ensures kept { HasKept K.eq self.now.seen (history_of result.log) []
            (history_of result.made) (JudgesKey F.FnMut) stays result.answer }
        ensures refused { IfErr result.answer IsMemoryOrCapacity }
    {
        let mut session = self.keys.begun_session(None);
        let answer = session.retain(rt, move |key, _| stays(key));
        session.tell(answer)
    }

    /// Removes the keys for which the closure returns `false`: `retain` of 0.2.5. The closure is
    /// called with each key. It may be called with a key again if another call replaces that key
    /// meanwhile, or if this call meets a copy to a next table: then it finishes the copy, and
    /// begins again.
    ///
    /// # Errors
    ///
    /// If the call meets a copy under way, it copies what is left to copy, and may need a table.
    /// Then it fails with `Refused::Memory` if an allocation fails, and with `Refused::Capacity` if
    /// there is no room. Removed keys stay removed.
    pub fn retain<R: Wait, F: FnMut(&K) -> bool>(&self, rt: &R, stays: F) -> Result<(), Refused>
        requires { F.IsAlwaysCallable stays }
        ensures* own { sem 𝓛 (of_its_history (EventOf K.row unit-field.row S.row).coded.code
            (rule_of ⟦<Law<K, (), S> as Rule<Event<K, (), S>, Named<K, ()>>>⟧) self.now K.eq
            (λ h. (made : _) × HasKept K.eq self.now.seen h [] made (JudgesKey F.FnMut)
            stays result)) }
        ensures kept { IsOfHistorySince self.now K.eq
            (λ h. (made : _) × HasKept K.eq self.now.seen h [] made (JudgesKey F.FnMut) stays
            result) }
        ensures refused { IfErr result IsMemoryOrCapacity }
    {
        let Observed { answer, marker: _ } = self.retain_observed(rt, stays);
        answer
    }

    /// Returns an iterator over the keys: `iter` of 0.2.5. It returns each key that is in the set
    /// as the call begins, if no call removes it meanwhile. A key that is stored or removed
    /// meanwhile may be returned or not.
    ///
    /// With `ResizeMode::Blocking` the iterator takes the root as it is. Otherwise the call first
    /// copies what is left to copy.
    ///
    /// # Errors
    ///
    /// Fails with `Refused::Memory` or `Refused::Capacity`, as [`HashSetRef::retain`] does, if that
    /// copy needs a table.
    pub fn iter<R: Wait>(&self, rt: &R) -> Result<Iter<'a, K, S>, Refused>
        ensures walk { IfOk result (λ keys. keys.book ≡ self.now.map.book) }
        ensures began { IfOk result (λ keys. (keys.began ≡ self.now.seen) × (keys.given ≡ [])) }
        ensures refused { IfErr result IsMemoryOrCapacity }
    {
        Ok(Iter::of(self.keys.keys(rt)?))
    }
}

impl<'a, K: Hash + Eq + Drop, S: BuildHasher> HashSetRef<'a, K, S> {
    /// Performs [`HashSetRef::insert`], and returns the observed history as well.
    #[inline(always)]
    fn insert_observed<R: Wait>(&self, rt: &R, key: K) -> Saying<Result<bool, Refused>, K, (), S>
        ensures made { Makes (is_ok result.answer) [] (history_of result.made)
            (history_of result.log) }
        ensures book { result.book ≡ self.now.map.book }
        ensures legal { IsLegalHistory K.eq key_of (history_of result.log) }
        ensures seen { IsPrefix self.now.seen (history_of result.log) }
        ensures put { IfOk result.answer (IsInsertedBetween K.eq key self.now.seen
            (history_of result.log)) }
        ensures refused { IfErr result.answer (IsPlainRefusal self.now.map.begun.limit) }
    {
        let mut pass = self.keys.begun(None);
        match self.keys.insert_as(rt, key, (), &mut pass) {
            Ok(old) => pass.tell(Ok(old.is_none())),
            Err(refused) => pass.tell(Err(refused)),
        }
    }

    /// Inserts a key, and returns whether it was absent: `insert` of 0.2.5. If an equal key is
    /// stored, that key stays, and the one that was passed in is dropped. If several threads insert
    /// equal keys at once, only one call returns `true`, unless the key is removed in between.
    ///
    /// # Errors
    ///
    /// Fails with `Refused::Memory` if an allocation fails, with `Refused::Capacity` if the arena
    /// of tables is full or a next table would be too long, and with `Refused::Limit` if the set's
    /// limit on keys is reached. The call then changes no key.
    ///
    /// # Examples
    ///
    /// ```
    /// let first = set.pin().insert(rt, 1)?; // true
    /// let second = set.pin().insert(rt, 1)?; // false
    /// ```
    pub fn insert<R: Wait>(&self, rt: &R, key: K) -> Result<bool, Refused>
        ensures* own { sem 𝓛 (of_its_history (EventOf K.row unit-field.row S.row).coded.code
            (rule_of ⟦<Law<K, (), S> as Rule<Event<K, (), S>, Named<K, ()>>>⟧) self.now K.eq
            (λ h. IfOk result (IsInsertedBetween K.eq key self.now.seen h))) }
        ensures put { IsOfHistorySince self.now K.eq
            (λ h. IfOk result (IsInsertedBetween K.eq key self.now.seen h)) }
        ensures refused { IfErr result (IsPlainRefusal self.now.map.begun.limit) }
    {
        let Observed { answer, marker: _ } = self.insert_observed(rt, key);
        answer
    }
}
