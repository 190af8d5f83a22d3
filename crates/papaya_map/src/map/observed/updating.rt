//! The first halves of the calls that replace a key's value by what a closure makes of it.
ghost use Rattle.std.specs.Prelude.{◌≡◌, Err, IfErr, IfOk, [], is_ok};
ghost use Rattle.std.specs.Fn.{FnReturnsAt};
ghost use mathlib.Core.List.{IsPrefix};
ghost use Rattle.papaya_map_change.specs.RemovalAnswers.{gives_value};
ghost use Rattle.papaya_map_lookup.specs.History.{IsLegalHistory, Makes, history_of, key_of};
ghost use Rattle.papaya_map.specs.Limited.{IsPlainRefusal};
ghost use Rattle.papaya_map.specs.Storing.{IsUpdated, IsUpserted};

use crate::map::{HashMap, HashMapRef};
use crate::observed::Saying;
use papaya_words::refused::Refused;
use papaya_words_keys::guard::Guard;
use std::hash::{BuildHasher, Hash};
use std::sync::Wait;

impl<'a, K: Hash + Eq + Drop, V: Drop, S: BuildHasher> HashMapRef<'a, K, V, S> {
    /// Performs [`HashMapRef::update`], and returns the observed history as well.
    #[inline(always)]
    pub(crate) fn update_observed<R: Wait, F: Fn(&V) -> V>(
        &self,
        rt: &R,
        key: K,
        f: F,
    ) -> Saying<Result<Option<&'a V>, Refused>, K, V, S>
        requires { F.IsAlwaysCallable f }
        ensures made { Makes (gives_value result.answer) [] (history_of result.made)
            (history_of result.log) }
        ensures book { result.book ≡ self.now.map.book }
        ensures legal { IsLegalHistory K.eq key_of (history_of result.log) }
        ensures seen { IsPrefix self.now.seen (history_of result.log) }
        ensures updated { IfOk result.answer (IsUpdated K.eq key self.now.seen (history_of
            result.log) (FnReturnsAt F.Fn f)) }
        ensures refused { IfErr result.answer (IsPlainRefusal self.now.map.begun.limit) }
    {
        let mut session = self.begun_session(None);
        let answer = session.update(rt, key, f);
        session.tell(answer)
    }

    /// Performs [`HashMapRef::update_or_insert`], and returns the observed history as well.
    #[inline(always)]
    pub(crate) fn update_or_insert_observed<R: Wait, F: Fn(&V) -> V>(
        &self,
        rt: &R,
        key: K,
        update: F,
        value: V,
    ) -> Saying<Result<&'a V, Refused>, K, V, S>
        requires { F.IsAlwaysCallable update }
        ensures made { Makes (is_ok result.answer) [] (history_of result.made)
            (history_of result.log) }
        ensures book { result.book ≡ self.now.map.book }
        ensures legal { IsLegalHistory K.eq key_of (history_of result.log) }
        ensures seen { IsPrefix self.now.seen (history_of result.log) }
        ensures upserted { IfOk result.answer (IsUpserted K.eq key self.now.seen (history_of
            result.log) (FnReturnsAt F.Fn update)
            (λ w. w ≡ value)) }
        ensures refused { IfErr result.answer (IsPlainRefusal self.now.map.begun.limit) }
    {
        let mut session = self.begun_session(None);
        let answer = session.update_or_insert(rt, key, update, value);
        session.tell(answer)
    }

    /// Performs [`HashMapRef::update_or_insert_with`], and returns the observed history as well.
    #[inline(always)]
    pub(crate) fn update_or_insert_with_observed<R: Wait, U: Fn(&V) -> V, F: FnOnce() -> V + Drop>(
        &self,
        rt: &R,
        key: K,
        update: U,
        f: F,
    ) -> Saying<Result<&'a V, Refused>, K, V, S>
        requires update { U.IsAlwaysCallable update }
        requires make { F.IsAlwaysCallable f }
        ensures made { Makes (is_ok result.answer) [] (history_of result.made)
            (history_of result.log) }
        ensures book { result.book ≡ self.now.map.book }
        ensures legal { IsLegalHistory K.eq key_of (history_of result.log) }
        ensures seen { IsPrefix self.now.seen (history_of result.log) }
        ensures upserted { IfOk result.answer (IsUpserted K.eq key self.now.seen (history_of
            result.log) (FnReturnsAt U.Fn update)
            (F.post f)) }
        ensures refused { IfErr result.answer (IsPlainRefusal self.now.map.begun.limit) }
    {
        let mut session = self.begun_session(None);
        let answer = session.update_or_insert_with(rt, key, update, f);
        session.tell(answer)
    }
}

impl<K: Hash + Eq + Drop, V: Drop, S: BuildHasher> HashMap<K, V, S> {
    /// Performs [`HashMap::update`], and returns the observed history as well.
    #[inline(always)]
    pub(crate) fn update_observed<'g, R: Wait, F: Fn(&V) -> V, G: Guard>(
        &'g self,
        rt: &R,
        key: K,
        f: F,
        guard: &'g G,
    ) -> Saying<Result<Option<&'g V>, Refused>, K, V, S>
        requires { F.IsAlwaysCallable f }
        ensures made { Makes (gives_value result.answer) [] (history_of result.made)
            (history_of result.log) }
        ensures book { result.book ≡ self.now.book }
        ensures legal { IsLegalHistory K.eq key_of (history_of result.log) }
        ensures seen { IsPrefix self.now.seen (history_of result.log) }
        ensures updated { IfOk result.answer (IsUpdated K.eq key self.now.seen
            (history_of result.log) (FnReturnsAt F.Fn f)) }
        ensures right { G.collector_number guard.now ≡ self.now.collector
            → IfErr result.answer (IsPlainRefusal self.now.begun.limit) }
        ensures wrong { (G.collector_number guard.now ≡ self.now.collector → ⊥)
            → result.answer ≡ Err Refused.WrongGuard }
    {
        match self.session_by(guard) {
            Ok(mut begun) => {
                let answer = begun.update(rt, key, f);
                begun.tell(answer)
            }
            Err(refused) => self.observe_refused(refused),
        }
    }

    /// Performs [`HashMap::update_or_insert`], and returns the observed history as well.
    #[inline(always)]
    pub(crate) fn update_or_insert_observed<'g, R: Wait, F: Fn(&V) -> V, G: Guard>(
        &'g self,
        rt: &R,
        key: K,
        update: F,
        value: V,
        guard: &'g G,
    ) -> Saying<Result<&'g V, Refused>, K, V, S>
        requires { F.IsAlwaysCallable update }
        ensures made { Makes (is_ok result.answer) [] (history_of result.made)
            (history_of result.log) }
        ensures book { result.book ≡ self.now.book }
        ensures legal { IsLegalHistory K.eq key_of (history_of result.log) }
        ensures seen { IsPrefix self.now.seen (history_of result.log) }
        ensures upserted { IfOk result.answer (IsUpserted K.eq key self.now.seen
            (history_of result.log) (FnReturnsAt F.Fn update) (λ w. w ≡ value)) }
        ensures right { G.collector_number guard.now ≡ self.now.collector
            → IfErr result.answer (IsPlainRefusal self.now.begun.limit) }
        ensures wrong { (G.collector_number guard.now ≡ self.now.collector → ⊥)
            → result.answer ≡ Err Refused.WrongGuard }
    {
        match self.session_by(guard) {
            Ok(mut begun) => {
                let answer = begun.update_or_insert(rt, key, update, value);
                begun.tell(answer)
            }
            Err(refused) => self.observe_refused(refused),
        }
    }

    /// Performs [`HashMap::update_or_insert_with`], and returns the observed history as well.
    #[inline(always)]
    pub(crate) fn update_or_insert_with_observed<
        'g,
        R: Wait,
        U: Fn(&V) -> V,
        F: FnOnce() -> V + Drop,
        G: Guard,
    >(
        &'g self,
        rt: &R,
        key: K,
        update: U,
        f: F,
        guard: &'g G,
    ) -> Saying<Result<&'g V, Refused>, K, V, S>
        requires update { U.IsAlwaysCallable update }
        requires make { F.IsAlwaysCallable f }
        ensures made { Makes (is_ok result.answer) [] (history_of result.made)
            (history_of result.log) }
        ensures book { result.book ≡ self.now.book }
        ensures legal { IsLegalHistory K.eq key_of (history_of result.log) }
        ensures seen { IsPrefix self.now.seen (history_of result.log) }
        ensures upserted { IfOk result.answer (IsUpserted K.eq key self.now.seen
            (history_of result.log) (FnReturnsAt U.Fn update) (F.post f)) }
        ensures right { G.collector_number guard.now ≡ self.now.collector
            → IfErr result.answer (IsPlainRefusal self.now.begun.limit) }
        ensures wrong { (G.collector_number guard.now ≡ self.now.collector → ⊥)
            → result.answer ≡ Err Refused.WrongGuard }
    {
        match self.session_by(guard) {
            Ok(mut begun) => {
                let answer = begun.update_or_insert_with(rt, key, update, f);
                begun.tell(answer)
            }
            Err(refused) => self.observe_refused(refused),
        }
    }
}
