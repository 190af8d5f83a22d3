//! The first halves of the calls that reserve room. They return their session, since contracts see
//! in it which tables it has observed, and the sum of the count.
ghost use Rattle.std.specs.Prelude.{◌≡◌, Err, IfErr, IfOk, []};
ghost use mathlib.Core.List.{IsPrefix};
ghost use Rattle.papaya_map_change.specs.Resizing.{HasNoRoomAhead, HasRoomAhead};
ghost use Rattle.papaya_map_change.specs.Writing.{IsMemoryOrCapacity};

use crate::map::{HashMap, HashMapRef};
use crate::session::Session;
use papaya_words::refused::Refused;
use papaya_words_keys::guard::Guard;
use std::hash::{BuildHasher, Hash};
use std::sync::Wait;

impl<'a, K: Hash + Eq, V, S: BuildHasher> HashMapRef<'a, K, V, S> {
    /// Performs [`HashMapRef::reserve`], and returns the session that it was made by as well.
    pub(crate) fn reserve_observed<R: Wait>(
        &self,
        rt: &R,
        additional: usize,
    ) -> (Result<(), Refused>, Session<'a, K, V, S>)
        ensures map { result.1.map ≡ self.now.map }
        ensures seen { IsPrefix self.now.seen result.1.history }
        ensures made { result.1.made ≡ [] }
        ensures room { IfOk result.0 (λ _. HasRoomAhead additional result.1.tables
            result.1.given) }
        ensures refused { IfErr result.0 (λ refused. IsMemoryOrCapacity refused) }
        ensures crowded { result.0 ≡ Err Refused.Capacity → HasNoRoomAhead self.now.map.initial
            additional result.1.tables result.1.given }
    {
        let mut session = self.begun_session(Some(self.map.number()));
        let answer = session.reserve(rt, additional);
        (answer, session)
    }
}

impl<K: Hash + Eq, V, S: BuildHasher> HashMap<K, V, S> {
    /// Performs [`HashMap::reserve`], and returns the session that it was made by as well.
    pub(crate) fn reserve_observed<'g, R: Wait, G: Guard>(
        &'g self,
        rt: &R,
        additional: usize,
        guard: &G,
    ) -> (Result<(), Refused>, Session<'g, K, V, S>)
        ensures map { result.1.map ≡ self.now }
        ensures seen { IsPrefix self.now.seen result.1.history }
        ensures made { result.1.made ≡ [] }
        ensures room { IfOk result.0 (λ _. HasRoomAhead additional result.1.tables
            result.1.given) }
        ensures right { G.collector_number guard.now ≡ self.now.collector
            → IfErr result.0 (λ refused. IsMemoryOrCapacity refused) }
        ensures crowded { G.collector_number guard.now ≡ self.now.collector
            → result.0 ≡ Err Refused.Capacity → HasNoRoomAhead self.now.initial additional
            result.1.tables result.1.given }
        ensures wrong { (G.collector_number guard.now ≡ self.now.collector → ⊥)
            → result.0 ≡ Err Refused.WrongGuard }
    {
        let mut session = self.begun_session(Some(guard.number()));
        match self.verify(guard) {
            Ok(()) => {
                let reserved = session.reserve(rt, additional);
                (reserved, session)
            }
            Err(refused) => (Err(refused), session),
        }
    }
}
