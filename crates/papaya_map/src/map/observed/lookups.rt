//! The first halves of lookups.
ghost use Rattle.std.specs.Prelude.{◌≡◌, Err, IfOk, [], is_ok, true};
ghost use mathlib.Core.List.{IsPrefix};
ghost use Rattle.papaya_map_lookup.specs.Answers.{IsAnsweredBetween, IsPairAnsweredBetween};
ghost use Rattle.papaya_map_lookup.specs.History.{IsLegalHistory, history_of, key_of};
ghost use Rattle.papaya_map.specs.Plain.{IsContained};

use crate::map::{HashMap, HashMapRef};
use crate::observed::Saying;
use papaya_words::refused::Refused;
use papaya_words_keys::guard::{Equivalent, Guard};
use std::hash::{BuildHasher, Hash};

impl<'a, K: Hash + Eq, V, S: BuildHasher> HashMapRef<'a, K, V, S> {
    /// Performs [`HashMapRef::get`], and returns the observed history as well.
    #[inline(always)]
    pub(crate) fn get_observed<Q: Equivalent<K>>(&self, key: &Q) -> Saying<Option<&'a V>, K, V, S>
        ensures made { history_of result.made ≡ [] }
        ensures book { result.book ≡ self.now.map.book }
        ensures legal { IsLegalHistory K.eq key_of (history_of result.log) }
        ensures seen { IsPrefix self.now.seen (history_of result.log) }
        ensures answered { IsAnsweredBetween K.eq (Q.matches key.now) self.now.seen
            (history_of result.log) result.answer }
    {
        let mut pass = self.begun(None);
        let found = self.get_as(key, &mut pass);
        pass.tell(found)
    }

    /// Performs [`HashMapRef::get_key_value`], and returns the observed history as well.
    #[inline(always)]
    pub(crate) fn get_key_value_observed<Q: Equivalent<K>>(
        &self,
        key: &Q,
    ) -> Saying<Option<(&'a K, &'a V)>, K, V, S>
        ensures made { history_of result.made ≡ [] }
        ensures book { result.book ≡ self.now.map.book }
        ensures legal { IsLegalHistory K.eq key_of (history_of result.log) }
        ensures seen { IsPrefix self.now.seen (history_of result.log) }
        ensures answered { IsPairAnsweredBetween K.eq (Q.matches key.now) self.now.seen (history_of
            result.log) result.answer }
    {
        let mut session = self.begun_session(None);
        let found = session.get_key_value(key);
        session.tell(found)
    }

    /// Performs [`HashMapRef::contains_key`], and returns the observed history as well.
    #[inline(always)]
    pub(crate) fn contains_key_observed<Q: Equivalent<K>>(&self, key: &Q) -> Saying<bool, K, V, S>
        ensures made { history_of result.made ≡ [] }
        ensures book { result.book ≡ self.now.map.book }
        ensures legal { IsLegalHistory K.eq key_of (history_of result.log) }
        ensures seen { IsPrefix self.now.seen (history_of result.log) }
        ensures answered { IsContained K.eq (Q.matches key.now) self.now.seen (history_of
            result.log) result.answer }
    {
        let mut pass = self.begun(None);
        let found = self.get_as(key, &mut pass).is_some();
        pass.tell(found)
    }
}

impl<K: Hash + Eq, V, S: BuildHasher> HashMap<K, V, S> {
    /// Performs [`HashMap::get`], and returns the observed history as well.
    #[inline(always)]
    pub(crate) fn get_observed<'g, Q: Equivalent<K>, G: Guard>(
        &'g self,
        key: &Q,
        guard: &'g G,
    ) -> Saying<Result<Option<&'g V>, Refused>, K, V, S>
        ensures made { history_of result.made ≡ [] }
        ensures book { result.book ≡ self.now.book }
        ensures legal { IsLegalHistory K.eq key_of (history_of result.log) }
        ensures seen { IsPrefix self.now.seen (history_of result.log) }
        ensures answered { IfOk result.answer (IsAnsweredBetween K.eq
            (Q.matches key.now) self.now.seen (history_of result.log)) }
        ensures right { G.collector_number guard.now ≡ self.now.collector
            → is_ok result.answer ≡ true }
        ensures wrong { (G.collector_number guard.now ≡ self.now.collector → ⊥)
            → result.answer ≡ Err Refused.WrongGuard }
    {
        match self.verify(guard) {
            Ok(()) => {
                let mut pass = self.begun(None);
                let answer = Ok(self.pin().get_as(key, &mut pass));
                pass.tell(answer)
            }
            Err(refused) => self.observe_refused(refused),
        }
    }

    /// Performs [`HashMap::get_key_value`], and returns the observed history as well.
    #[inline(always)]
    pub(crate) fn get_key_value_observed<'g, Q: Equivalent<K>, G: Guard>(
        &'g self,
        key: &Q,
        guard: &'g G,
    ) -> Saying<Result<Option<(&'g K, &'g V)>, Refused>, K, V, S>
        ensures made { history_of result.made ≡ [] }
        ensures book { result.book ≡ self.now.book }
        ensures legal { IsLegalHistory K.eq key_of (history_of result.log) }
        ensures seen { IsPrefix self.now.seen (history_of result.log) }
        ensures answered { IfOk result.answer (IsPairAnsweredBetween K.eq
            (Q.matches key.now) self.now.seen (history_of result.log)) }
        ensures right { G.collector_number guard.now ≡ self.now.collector
            → is_ok result.answer ≡ true }
        ensures wrong { (G.collector_number guard.now ≡ self.now.collector → ⊥)
            → result.answer ≡ Err Refused.WrongGuard }
    {
        match self.verify(guard) {
            Ok(()) => {
                let mut begun = self.begun_session(None);
                let answer = Ok(begun.get_key_value(key));
                begun.tell(answer)
            }
            Err(refused) => self.observe_refused(refused),
        }
    }

    /// Performs [`HashMap::contains_key`], and returns the observed history as well.
    #[inline(always)]
    pub(crate) fn contains_key_observed<Q: Equivalent<K>, G: Guard>(
        &self,
        key: &Q,
        guard: &G,
    ) -> Saying<Result<bool, Refused>, K, V, S>
        ensures made { history_of result.made ≡ [] }
        ensures book { result.book ≡ self.now.book }
        ensures legal { IsLegalHistory K.eq key_of (history_of result.log) }
        ensures seen { IsPrefix self.now.seen (history_of result.log) }
        ensures answered { IfOk result.answer (IsContained K.eq (Q.matches key.now) self.now.seen
            (history_of result.log)) }
        ensures right { G.collector_number guard.now ≡ self.now.collector
            → is_ok result.answer ≡ true }
        ensures wrong { (G.collector_number guard.now ≡ self.now.collector → ⊥)
            → result.answer ≡ Err Refused.WrongGuard }
    {
        match self.verify(guard) {
            Ok(()) => {
                let mut pass = self.begun(None);
                let answer = Ok(self.pin().get_as(key, &mut pass).is_some());
                pass.tell(answer)
            }
            Err(refused) => self.observe_refused(refused),
        }
    }
}
