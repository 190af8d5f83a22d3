//! The first halves of the calls that store a value.
ghost use Rattle.std.specs.Prelude.{◌≡◌, Err, IfErr, IfOk, [], is_ok};
ghost use mathlib.Core.List.{IsPrefix};
ghost use Rattle.papaya_map_change.specs.Changes.{IsPut};
ghost use Rattle.papaya_map_lookup.specs.History.{IsLegalHistory, Makes, history_of, key_of};
ghost use Rattle.papaya_map.specs.Limited.{IsPlainRefusal};
ghost use Rattle.papaya_map.specs.Storing.{IsThereBy, IsTried, IsTriedWith, stored};

use crate::map::{HashMap, HashMapRef};
use crate::observed::Saying;
use papaya_words::refused::Refused;
use papaya_words_keys::guard::Guard;
use papaya_words_keys::results::OccupiedError;
use std::hash::{BuildHasher, Hash};
use std::sync::Wait;

impl<'a, K: Hash + Eq + Drop, V: Drop, S: BuildHasher> HashMapRef<'a, K, V, S> {
    /// Performs [`HashMapRef::insert`], and returns the observed history as well.
    #[inline(always)]
    pub(crate) fn insert_observed<R: Wait>(
        &self,
        rt: &R,
        key: K,
        value: V,
    ) -> Saying<Result<Option<&'a V>, Refused>, K, V, S>
        ensures made { Makes (is_ok result.answer) [] (history_of result.made)
            (history_of result.log) }
        ensures book { result.book ≡ self.now.map.book }
        ensures legal { IsLegalHistory K.eq key_of (history_of result.log) }
        ensures seen { IsPrefix self.now.seen (history_of result.log) }
        ensures put { IfOk result.answer (IsPut K.eq key value self.now.seen (history_of
            result.log)) }
        ensures refused { IfErr result.answer (IsPlainRefusal self.now.map.begun.limit) }
    {
        let mut pass = self.begun(None);
        let answer = self.insert_as(rt, key, value, &mut pass);
        pass.tell(answer)
    }

    /// Performs [`HashMapRef::try_insert`], and returns the observed history as well.
    #[inline(always)]
    pub(crate) fn try_insert_observed<R: Wait>(
        &self,
        rt: &R,
        key: K,
        value: V,
    ) -> Saying<Result<Result<&'a V, OccupiedError<'a, V>>, Refused>, K, V, S>
        ensures made { Makes (stored result.answer) [] (history_of result.made)
            (history_of result.log) }
        ensures book { result.book ≡ self.now.map.book }
        ensures legal { IsLegalHistory K.eq key_of (history_of result.log) }
        ensures seen { IsPrefix self.now.seen (history_of result.log) }
        ensures tried { IfOk result.answer (IsTried K.eq key self.now.seen (history_of result.log)
            value) }
        ensures refused { IfErr result.answer (IsPlainRefusal self.now.map.begun.limit) }
    {
        let mut session = self.begun_session(None);
        let answer = session.try_insert(rt, key, value);
        session.tell(answer)
    }

    /// Performs [`HashMapRef::try_insert_with`], and returns the observed history as well.
    #[inline(always)]
    pub(crate) fn try_insert_with_observed<R: Wait, F: FnOnce() -> V + Drop>(
        &self,
        rt: &R,
        key: K,
        f: F,
    ) -> Saying<Result<Result<&'a V, &'a V>, Refused>, K, V, S>
        requires { F.IsAlwaysCallable f }
        ensures made { Makes (stored result.answer) [] (history_of result.made)
            (history_of result.log) }
        ensures book { result.book ≡ self.now.map.book }
        ensures legal { IsLegalHistory K.eq key_of (history_of result.log) }
        ensures seen { IsPrefix self.now.seen (history_of result.log) }
        ensures tried { IfOk result.answer (IsTriedWith K.eq key self.now.seen (history_of
            result.log) (F.post f)) }
        ensures refused { IfErr result.answer (IsPlainRefusal self.now.map.begun.limit) }
    {
        let mut session = self.begun_session(None);
        let answer = session.try_insert_with(rt, key, f);
        session.tell(answer)
    }

    /// Performs [`HashMapRef::get_or_insert`], and returns the observed history as well.
    #[inline(always)]
    pub(crate) fn get_or_insert_observed<R: Wait>(
        &self,
        rt: &R,
        key: K,
        value: V,
    ) -> Saying<Result<&'a V, Refused>, K, V, S>
        ensures book { result.book ≡ self.now.map.book }
        ensures legal { IsLegalHistory K.eq key_of (history_of result.log) }
        ensures seen { IsPrefix self.now.seen (history_of result.log) }
        ensures there { IsThereBy K.eq key self.now.seen (history_of result.log) (λ w. w ≡ value)
            [] (history_of result.made) result.answer }
        ensures refused { IfErr result.answer (IsPlainRefusal self.now.map.begun.limit) }
    {
        let mut session = self.begun_session(None);
        let answer = session.get_or_insert(rt, key, value);
        session.tell(answer)
    }

    /// Performs [`HashMapRef::get_or_insert_with`], and returns the observed history as well.
    #[inline(always)]
    pub(crate) fn get_or_insert_with_observed<R: Wait, F: FnOnce() -> V + Drop>(
        &self,
        rt: &R,
        key: K,
        f: F,
    ) -> Saying<Result<&'a V, Refused>, K, V, S>
        requires { F.IsAlwaysCallable f }
        ensures book { result.book ≡ self.now.map.book }
        ensures legal { IsLegalHistory K.eq key_of (history_of result.log) }
        ensures seen { IsPrefix self.now.seen (history_of result.log) }
        ensures there { IsThereBy K.eq key self.now.seen (history_of result.log) (F.post f)
            [] (history_of result.made) result.answer }
        ensures refused { IfErr result.answer (IsPlainRefusal self.now.map.begun.limit) }
    {
        let mut session = self.begun_session(None);
        let answer = session.get_or_insert_with(rt, key, f);
        session.tell(answer)
    }
}

impl<K: Hash + Eq + Drop, V: Drop, S: BuildHasher> HashMap<K, V, S> {
    /// Performs [`HashMap::insert`], and returns the observed history as well.
    #[inline(always)]
    pub(crate) fn insert_observed<'g, R: Wait, G: Guard>(
        &'g self,
        rt: &R,
        key: K,
        value: V,
        guard: &'g G,
    ) -> Saying<Result<Option<&'g V>, Refused>, K, V, S>
        ensures made { Makes (is_ok result.answer) [] (history_of result.made)
            (history_of result.log) }
        ensures book { result.book ≡ self.now.book }
        ensures legal { IsLegalHistory K.eq key_of (history_of result.log) }
        ensures seen { IsPrefix self.now.seen (history_of result.log) }
        ensures put { IfOk result.answer (IsPut K.eq key value self.now.seen
            (history_of result.log)) }
        ensures right { G.collector_number guard.now ≡ self.now.collector
            → IfErr result.answer (IsPlainRefusal self.now.begun.limit) }
        ensures wrong { (G.collector_number guard.now ≡ self.now.collector → ⊥)
            → result.answer ≡ Err Refused.WrongGuard }
    {
        match self.begun_by(guard) {
            Ok(mut pass) => {
                let answer = self.pin().insert_as(rt, key, value, &mut pass);
                pass.tell(answer)
            }
            Err(refused) => self.observe_refused(refused),
        }
    }

    /// Performs [`HashMap::try_insert`], and returns the observed history as well.
    #[inline(always)]
    pub(crate) fn try_insert_observed<'g, R: Wait, G: Guard>(
        &'g self,
        rt: &R,
        key: K,
        value: V,
        guard: &'g G,
    ) -> Saying<Result<Result<&'g V, OccupiedError<'g, V>>, Refused>, K, V, S>
        ensures made { Makes (stored result.answer) [] (history_of result.made)
            (history_of result.log) }
        ensures book { result.book ≡ self.now.book }
        ensures legal { IsLegalHistory K.eq key_of (history_of result.log) }
        ensures seen { IsPrefix self.now.seen (history_of result.log) }
        ensures tried { IfOk result.answer (λ tried. IsTried K.eq key self.now.seen
            (history_of result.log) value tried) }
        ensures right { G.collector_number guard.now ≡ self.now.collector
            → IfErr result.answer (IsPlainRefusal self.now.begun.limit) }
        ensures wrong { (G.collector_number guard.now ≡ self.now.collector → ⊥)
            → result.answer ≡ Err Refused.WrongGuard }
    {
        match self.session_by(guard) {
            Ok(mut begun) => {
                let answer = begun.try_insert(rt, key, value);
                begun.tell(answer)
            }
            Err(refused) => self.observe_refused(refused),
        }
    }

    /// Performs [`HashMap::try_insert_with`], and returns the observed history as well.
    #[inline(always)]
    pub(crate) fn try_insert_with_observed<'g, R: Wait, F: FnOnce() -> V + Drop, G: Guard>(
        &'g self,
        rt: &R,
        key: K,
        f: F,
        guard: &'g G,
    ) -> Saying<Result<Result<&'g V, &'g V>, Refused>, K, V, S>
        requires { F.IsAlwaysCallable f }
        ensures made { Makes (stored result.answer) [] (history_of result.made)
            (history_of result.log) }
        ensures book { result.book ≡ self.now.book }
        ensures legal { IsLegalHistory K.eq key_of (history_of result.log) }
        ensures seen { IsPrefix self.now.seen (history_of result.log) }
        ensures tried { IfOk result.answer (λ tried. IsTriedWith K.eq key self.now.seen
            (history_of result.log) (F.post f) tried) }
        ensures right { G.collector_number guard.now ≡ self.now.collector
            → IfErr result.answer (IsPlainRefusal self.now.begun.limit) }
        ensures wrong { (G.collector_number guard.now ≡ self.now.collector → ⊥)
            → result.answer ≡ Err Refused.WrongGuard }
    {
        match self.session_by(guard) {
            Ok(mut begun) => {
                let answer = begun.try_insert_with(rt, key, f);
                begun.tell(answer)
            }
            Err(refused) => self.observe_refused(refused),
        }
    }

    /// Performs [`HashMap::get_or_insert`], and returns the observed history as well.
    #[inline(always)]
    pub(crate) fn get_or_insert_observed<'g, R: Wait, G: Guard>(
        &'g self,
        rt: &R,
        key: K,
        value: V,
        guard: &'g G,
    ) -> Saying<Result<&'g V, Refused>, K, V, S>
        ensures book { result.book ≡ self.now.book }
        ensures legal { IsLegalHistory K.eq key_of (history_of result.log) }
        ensures seen { IsPrefix self.now.seen (history_of result.log) }
        ensures there { IsThereBy K.eq key self.now.seen (history_of result.log) (λ w. w ≡ value)
            [] (history_of result.made) result.answer }
        ensures right { G.collector_number guard.now ≡ self.now.collector
            → IfErr result.answer (IsPlainRefusal self.now.begun.limit) }
        ensures wrong { (G.collector_number guard.now ≡ self.now.collector → ⊥)
            → result.answer ≡ Err Refused.WrongGuard }
    {
        match self.session_by(guard) {
            Ok(mut begun) => {
                let answer = begun.get_or_insert(rt, key, value);
                begun.tell(answer)
            }
            Err(refused) => self.observe_refused(refused),
        }
    }

    /// Performs [`HashMap::get_or_insert_with`], and returns the observed history as well.
    #[inline(always)]
    pub(crate) fn get_or_insert_with_observed<'g, R: Wait, F: FnOnce() -> V + Drop, G: Guard>(
        &'g self,
        rt: &R,
        key: K,
        f: F,
        guard: &'g G,
    ) -> Saying<Result<&'g V, Refused>, K, V, S>
        requires { F.IsAlwaysCallable f }
        ensures book { result.book ≡ self.now.book }
        ensures legal { IsLegalHistory K.eq key_of (history_of result.log) }
        ensures seen { IsPrefix self.now.seen (history_of result.log) }
        ensures there { IsThereBy K.eq key self.now.seen (history_of result.log) (F.post f)
            [] (history_of result.made) result.answer }
        ensures right { G.collector_number guard.now ≡ self.now.collector
            → IfErr result.answer (IsPlainRefusal self.now.begun.limit) }
        ensures wrong { (G.collector_number guard.now ≡ self.now.collector → ⊥)
            → result.answer ≡ Err Refused.WrongGuard }
    {
        match self.session_by(guard) {
            Ok(mut begun) => {
                let answer = begun.get_or_insert_with(rt, key, f);
                begun.tell(answer)
            }
            Err(refused) => self.observe_refused(refused),
        }
    }
}
