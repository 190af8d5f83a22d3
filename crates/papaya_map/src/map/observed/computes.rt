//! The first halves of the calls whose closure returns what becomes of a key's entry.
ghost use Rattle.std.specs.Prelude.{◌≡◌, Err, IsSome, []};
ghost use mathlib.Core.List.{IsPrefix};
ghost use Rattle.papaya_map_change.specs.ClosureCalls.{Operates};
ghost use Rattle.papaya_map_compute.specs.ComputeAnswers.{IsComputeBy, changes};
ghost use Rattle.papaya_map_lookup.specs.History.{IsLegalHistory, Makes, history_of, key_of};

use crate::map::{HashMap, HashMapRef};
use crate::observed::Saying;
use papaya_call::answers::Operation;
use papaya_words::refused::Refused;
use papaya_words_keys::guard::Guard;
use papaya_words_keys::results::Compute;
use std::hash::{BuildHasher, Hash};
use std::sync::Wait;

impl<'a, K: Hash + Eq + Drop, V: Drop, S: BuildHasher> HashMapRef<'a, K, V, S> {
    /// Performs [`HashMapRef::compute`], and returns the observed history as well.
    #[inline(always)]
    pub(crate) fn compute_observed<
        R: Wait,
        T: Drop,
        F: FnMut(Option<(&'a K, &'a V)>) -> Operation<V, T>,
    >(&self, rt: &R, key: K, f: F) -> Saying<Result<Compute<'a, K, V, T>, Refused>, K, V, S>
        requires { F.IsAlwaysCallable f }
        ensures made { Makes (changes result.answer) [] (history_of result.made)
            (history_of result.log) }
        ensures book { result.book ≡ self.now.map.book }
        ensures legal { IsLegalHistory K.eq key_of (history_of result.log) }
        ensures seen { IsPrefix self.now.seen (history_of result.log) }
        ensures computed { IsComputeBy K.eq key self.now.seen (history_of result.log) (Operates
            F.FnMut) f result.answer }
        ensures limited { result.answer ≡ Err Refused.Limit → IsSome self.now.map.begun.limit }
    {
        let mut pass = self.begun(None);
        let answer = self.compute_as(rt, key, f, &mut pass);
        pass.tell(answer)
    }
}

impl<K: Hash + Eq + Drop, V: Drop, S: BuildHasher> HashMap<K, V, S> {
    /// Performs [`HashMap::compute`], and returns the observed history as well.
    #[inline(always)]
    pub(crate) fn compute_observed<
        'g,
        R: Wait,
        T: Drop,
        F: FnMut(Option<(&'g K, &'g V)>) -> Operation<V, T>,
        G: Guard,
    >(
        &'g self,
        rt: &R,
        key: K,
        f: F,
        guard: &'g G,
    ) -> Saying<Result<Compute<'g, K, V, T>, Refused>, K, V, S>
        requires { F.IsAlwaysCallable f }
        ensures made { Makes (changes result.answer) [] (history_of result.made)
            (history_of result.log) }
        ensures book { result.book ≡ self.now.book }
        ensures legal { IsLegalHistory K.eq key_of (history_of result.log) }
        ensures seen { IsPrefix self.now.seen (history_of result.log) }
        ensures right { G.collector_number guard.now ≡ self.now.collector
            → IsComputeBy K.eq key self.now.seen (history_of result.log)
            (Operates F.FnMut) f result.answer }
        ensures limited { result.answer ≡ Err Refused.Limit → IsSome self.now.begun.limit }
        ensures wrong { (G.collector_number guard.now ≡ self.now.collector → ⊥)
            → result.answer ≡ Err Refused.WrongGuard }
    {
        if let Err(refused) = self.verify(guard) {
            return self.observe_refused(refused);
        }
        let mut pass = self.begun(Some(guard.number()));
        let answer = self.pin().compute_as(rt, key, f, &mut pass);
        pass.tell(answer)
    }
}
