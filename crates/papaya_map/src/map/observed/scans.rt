//! The first halves of the calls that scan the whole map.
ghost use Rattle.std.specs.Prelude.{◌≡◌, Err, IfErr, IfOk, []};
ghost use mathlib.Core.List.{IsPrefix};
ghost use Rattle.papaya_map_change.specs.ClosureCalls.{Judges};
ghost use Rattle.papaya_map_change.specs.Writing.{IsMemoryOrCapacity};
ghost use Rattle.papaya_map_lookup.specs.History.{IsLegalHistory, history_of, key_of};
ghost use Rattle.papaya_map_scan.specs.Leaving.{HasDropped, HasKept, IsCleared};

use crate::map::{HashMap, HashMapRef};
use crate::observed::Saying;
use papaya_words::refused::Refused;
use papaya_words_keys::guard::Guard;
use std::hash::{BuildHasher, Hash};
use std::sync::Wait;

impl<'a, K: Hash + Eq, V, S: BuildHasher> HashMapRef<'a, K, V, S> {
    /// Performs [`HashMapRef::retain`], and returns the observed history as well.
    #[inline(always)]
    pub(crate) fn retain_observed<R: Wait, F: FnMut(&K, &V) -> bool>(
        &self,
        rt: &R,
        stays: F,
    ) -> Saying<Result<(), Refused>, K, V, S>
        requires { F.IsAlwaysCallable stays }
        ensures book { result.book ≡ self.now.map.book }
        ensures legal { IsLegalHistory K.eq key_of (history_of result.log) }
        ensures seen { IsPrefix self.now.seen (history_of result.log) }
        ensures kept { HasKept K.eq self.now.seen (history_of result.log) []
            (history_of result.made) (Judges F.FnMut) stays result.answer }
        ensures refused { IfErr result.answer IsMemoryOrCapacity }
    {
        let mut session = self.begun_session(None);
        let answer = session.retain(rt, stays);
        session.tell(answer)
    }

    /// Performs [`HashMapRef::clear`], and returns the observed history as well.
    #[inline(always)]
    pub(crate) fn clear_observed<R: Wait>(&self, rt: &R) -> Saying<Result<(), Refused>, K, V, S>
        ensures made { HasDropped K.eq self.now.seen (history_of result.log) []
            (history_of result.made) }
        ensures book { result.book ≡ self.now.map.book }
        ensures legal { IsLegalHistory K.eq key_of (history_of result.log) }
        ensures seen { IsPrefix self.now.seen (history_of result.log) }
        ensures cleared { IfOk result.answer (λ _. IsCleared K.eq self.now.seen (history_of
            result.log)) }
        ensures refused { IfErr result.answer IsMemoryOrCapacity }
    {
        let mut session = self.begun_session(None);
        let answer = session.clear(rt);
        session.tell(answer)
    }
}

impl<K: Hash + Eq, V, S: BuildHasher> HashMap<K, V, S> {
    /// Performs [`HashMap::retain`], and returns the observed history as well.
    #[inline(always)]
    pub(crate) fn retain_observed<R: Wait, F: FnMut(&K, &V) -> bool, G: Guard>(
        &self,
        rt: &R,
        stays: F,
        guard: &G,
    ) -> Saying<Result<(), Refused>, K, V, S>
        requires { F.IsAlwaysCallable stays }
        ensures made { (G.collector_number guard.now ≡ self.now.collector → ⊥)
            → history_of result.made ≡ [] }
        ensures book { result.book ≡ self.now.book }
        ensures legal { IsLegalHistory K.eq key_of (history_of result.log) }
        ensures seen { IsPrefix self.now.seen (history_of result.log) }
        ensures kept { G.collector_number guard.now ≡ self.now.collector
            → HasKept K.eq self.now.seen (history_of result.log) [] (history_of result.made)
            (Judges F.FnMut) stays result.answer }
        ensures right { G.collector_number guard.now ≡ self.now.collector
            → IfErr result.answer IsMemoryOrCapacity }
        ensures wrong { (G.collector_number guard.now ≡ self.now.collector → ⊥)
            → result.answer ≡ Err Refused.WrongGuard }
    {
        match self.session_by(guard) {
            Ok(mut begun) => {
                let answer = begun.retain(rt, stays);
                begun.tell(answer)
            }
            Err(refused) => self.observe_refused(refused),
        }
    }

    /// Performs [`HashMap::clear`], and returns the observed history as well.
    #[inline(always)]
    pub(crate) fn clear_observed<R: Wait, G: Guard>(
        &self,
        rt: &R,
        guard: &G,
    ) -> Saying<Result<(), Refused>, K, V, S>
        ensures made { (G.collector_number guard.now ≡ self.now.collector
            → HasDropped K.eq self.now.seen (history_of result.log) []
            (history_of result.made)) × ((G.collector_number guard.now ≡ self.now.collector
            → ⊥) → history_of result.made ≡ []) }
        ensures book { result.book ≡ self.now.book }
        ensures legal { IsLegalHistory K.eq key_of (history_of result.log) }
        ensures seen { IsPrefix self.now.seen (history_of result.log) }
        ensures cleared { IfOk result.answer (λ _. IsCleared K.eq self.now.seen
            (history_of result.log)) }
        ensures right { G.collector_number guard.now ≡ self.now.collector
            → IfErr result.answer IsMemoryOrCapacity }
        ensures wrong { (G.collector_number guard.now ≡ self.now.collector → ⊥)
            → result.answer ≡ Err Refused.WrongGuard }
    {
        match self.session_by(guard) {
            Ok(mut begun) => {
                let answer = begun.clear(rt);
                begun.tell(answer)
            }
            Err(refused) => self.observe_refused(refused),
        }
    }
}
