//! The first halves of the calls that remove a key's entry.
ghost use Rattle.std.specs.Prelude.{◌≡◌, Err, []};
ghost use mathlib.Core.List.{IsPrefix};
ghost use Rattle.papaya_map_change.specs.RemovalAnswers.{IsEntryRemoved, IsRemovalBy, IsRemoved, gives_value, has_removed};
ghost use Rattle.papaya_map_change.specs.ClosureCalls.{Judges};
ghost use Rattle.papaya_map_lookup.specs.History.{IsLegalHistory, Makes, history_of, key_of};

use crate::map::{HashMap, HashMapRef};
use crate::observed::Saying;
use papaya_words::refused::Refused;
use papaya_words_keys::guard::{Equivalent, Guard};
use std::hash::{BuildHasher, Hash};
use std::sync::Wait;

impl<'a, K: Hash + Eq, V, S: BuildHasher> HashMapRef<'a, K, V, S> {
    /// Performs [`HashMapRef::remove_if`], and returns the observed history as well.
    #[inline(always)]
    pub(crate) fn remove_if_observed<R: Wait, Q: Equivalent<K>, F: FnMut(&K, &V) -> bool>(
        &self,
        rt: &R,
        key: &Q,
        should_remove: F,
    ) -> Saying<Result<Result<Option<(&'a K, &'a V)>, (&'a K, &'a V)>, Refused>, K, V, S>
        requires { F.IsAlwaysCallable should_remove }
        ensures made { Makes (has_removed result.answer) [] (history_of result.made)
            (history_of result.log) }
        ensures book { result.book ≡ self.now.map.book }
        ensures legal { IsLegalHistory K.eq key_of (history_of result.log) }
        ensures seen { IsPrefix self.now.seen (history_of result.log) }
        ensures removed { IsRemovalBy K.eq (Q.matches key.now) self.now.seen (history_of
            result.log) (Judges F.FnMut)
            should_remove result.answer }
    {
        let mut pass = self.begun(None);
        let answer = self.remove_if_as(rt, key, should_remove, &mut pass);
        pass.tell(answer)
    }

    /// Performs [`HashMapRef::remove`], and returns the observed history as well.
    #[inline(always)]
    pub(crate) fn remove_observed<R: Wait, Q: Equivalent<K>>(
        &self,
        rt: &R,
        key: &Q,
    ) -> Saying<Result<Option<&'a V>, Refused>, K, V, S>
        ensures made { Makes (gives_value result.answer) [] (history_of result.made)
            (history_of result.log) }
        ensures book { result.book ≡ self.now.map.book }
        ensures legal { IsLegalHistory K.eq key_of (history_of result.log) }
        ensures seen { IsPrefix self.now.seen (history_of result.log) }
        ensures removed { IsRemoved K.eq (Q.matches key.now) self.now.seen (history_of result.log)
            result.answer }
    {
        let mut pass = self.begun(None);
        let answer = self.remove_as(rt, key, &mut pass);
        pass.tell(answer)
    }

    /// Performs [`HashMapRef::remove_entry`], and returns the observed history as well.
    #[inline(always)]
    pub(crate) fn remove_entry_observed<R: Wait, Q: Equivalent<K>>(
        &self,
        rt: &R,
        key: &Q,
    ) -> Saying<Result<Option<(&'a K, &'a V)>, Refused>, K, V, S>
        ensures made { Makes (gives_value result.answer) [] (history_of result.made)
            (history_of result.log) }
        ensures book { result.book ≡ self.now.map.book }
        ensures legal { IsLegalHistory K.eq key_of (history_of result.log) }
        ensures seen { IsPrefix self.now.seen (history_of result.log) }
        ensures removed { IsEntryRemoved K.eq (Q.matches key.now) self.now.seen (history_of
            result.log) result.answer }
    {
        let mut session = self.begun_session(None);
        let answer = session.remove_entry(rt, key);
        session.tell(answer)
    }
}

impl<K: Hash + Eq, V, S: BuildHasher> HashMap<K, V, S> {
    /// Performs [`HashMap::remove_if`], and returns the observed history as well.
    #[inline(always)]
    pub(crate) fn remove_if_observed<
        'g,
        R: Wait,
        Q: Equivalent<K>,
        F: FnMut(&K, &V) -> bool,
        G: Guard,
    >(
        &'g self,
        rt: &R,
        key: &Q,
        should_remove: F,
        guard: &'g G,
    ) -> Saying<Result<Result<Option<(&'g K, &'g V)>, (&'g K, &'g V)>, Refused>, K, V, S>
        requires { F.IsAlwaysCallable should_remove }
        ensures made { Makes (has_removed result.answer) [] (history_of result.made)
            (history_of result.log) }
        ensures book { result.book ≡ self.now.book }
        ensures legal { IsLegalHistory K.eq key_of (history_of result.log) }
        ensures seen { IsPrefix self.now.seen (history_of result.log) }
        ensures right { G.collector_number guard.now ≡ self.now.collector
            → IsRemovalBy K.eq (Q.matches key.now) self.now.seen (history_of result.log)
            (Judges F.FnMut) should_remove result.answer }
        ensures wrong { (G.collector_number guard.now ≡ self.now.collector → ⊥)
            → result.answer ≡ Err Refused.WrongGuard }
    {
        match self.begun_by(guard) {
            Ok(mut pass) => {
                let answer = self.pin().remove_if_as(rt, key, should_remove, &mut pass);
                pass.tell(answer)
            }
            Err(refused) => self.observe_refused(refused),
        }
    }

    /// Performs [`HashMap::remove`], and returns the observed history as well.
    #[inline(always)]
    pub(crate) fn remove_observed<'g, R: Wait, Q: Equivalent<K>, G: Guard>(
        &'g self,
        rt: &R,
        key: &Q,
        guard: &'g G,
    ) -> Saying<Result<Option<&'g V>, Refused>, K, V, S>
        ensures made { Makes (gives_value result.answer) [] (history_of result.made)
            (history_of result.log) }
        ensures book { result.book ≡ self.now.book }
        ensures legal { IsLegalHistory K.eq key_of (history_of result.log) }
        ensures seen { IsPrefix self.now.seen (history_of result.log) }
        ensures right { G.collector_number guard.now ≡ self.now.collector
            → IsRemoved K.eq (Q.matches key.now) self.now.seen
            (history_of result.log) result.answer }
        ensures wrong { (G.collector_number guard.now ≡ self.now.collector → ⊥)
            → result.answer ≡ Err Refused.WrongGuard }
    {
        match self.begun_by(guard) {
            Ok(mut pass) => {
                let answer = self.pin().remove_as(rt, key, &mut pass);
                pass.tell(answer)
            }
            Err(refused) => self.observe_refused(refused),
        }
    }

    /// Performs [`HashMap::remove_entry`], and returns the observed history as well.
    #[inline(always)]
    pub(crate) fn remove_entry_observed<'g, R: Wait, Q: Equivalent<K>, G: Guard>(
        &'g self,
        rt: &R,
        key: &Q,
        guard: &'g G,
    ) -> Saying<Result<Option<(&'g K, &'g V)>, Refused>, K, V, S>
        ensures made { Makes (gives_value result.answer) [] (history_of result.made)
            (history_of result.log) }
        ensures book { result.book ≡ self.now.book }
        ensures legal { IsLegalHistory K.eq key_of (history_of result.log) }
        ensures seen { IsPrefix self.now.seen (history_of result.log) }
        ensures right { G.collector_number guard.now ≡ self.now.collector
            → IsEntryRemoved K.eq (Q.matches key.now) self.now.seen
            (history_of result.log) result.answer }
        ensures wrong { (G.collector_number guard.now ≡ self.now.collector → ⊥)
            → result.answer ≡ Err Refused.WrongGuard }
    {
        match self.session_by(guard) {
            Ok(mut begun) => {
                let answer = begun.remove_entry(rt, key);
                begun.tell(answer)
            }
            Err(refused) => self.observe_refused(refused),
        }
    }
}
