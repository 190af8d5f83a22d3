//! The calls of a session that store a value, always or only if the key has none.
ghost use Rattle.std.specs.Prelude.{◌≡◌, Err, IfErr, IfOk, MatchOption, None, is_ok};
ghost use mathlib.Core.List.{IsPrefix};
ghost use Rattle.papaya_map_book.specs.Limits.{HasNoRoom};
ghost use Rattle.papaya_map_change.specs.Changes.{IsPut};
ghost use Rattle.papaya_words_keys.specs.declared.results.NotInserted.TheVariants.{Logged, Value};
ghost use Rattle.papaya_map_lookup.specs.History.{Makes};
ghost use Rattle.papaya_map.specs.Limited.{IsWriteRefusal};
ghost use Rattle.papaya_map.specs.Storing.{IsThereBy, IsTried, IsTriedWith, stored};

use crate::session::Session;
use papaya_map_compute::deciding::Decided;
use papaya_map_compute::rules::{Giving, MadeBy, Ready};
use papaya_words::refused::Refused;
use papaya_words_keys::results::{NotInserted, OccupiedError};
use std::hash::{BuildHasher, Hash};
use std::sync::Wait;

/// Returns a value that was not inserted: the value itself, or a reference to it in the arena.
fn not_inserted<V>(supply: Option<Ready<V>>, spare: Option<&V>) -> NotInserted<'_, V>
    requires { supply ≡ None → MatchOption spare ⊥ (λ r. Unit {0}) }
    ensures { MatchOption supply (MatchOption spare.entry ⊥ (λ r. result ≡ Logged r))
        (λ s. result ≡ Value s.value) }
{
    match (supply, spare) {
        (Some(supply), _) => NotInserted::Value(supply.value),
        (None, Some(logged)) => NotInserted::Logged(logged),
        (None, None) => unreachable!(),
    }
}

impl<'a, K: Hash + Eq + Drop, V: Drop, S: BuildHasher> Session<'a, K, V, S> {
    /// Inserts a key-value pair, and returns the key's old value, or `None` if the key was absent:
    /// `insert` of 0.2.5. As the documentation of 0.2.5 says, a stored key stays, and the key that
    /// was passed in is dropped. The old entry stays in memory until
    /// [`HashMap::reclaim`](crate::map::HashMap::reclaim).
    ///
    /// # Errors
    ///
    /// Fails with `Refused::Memory` if an allocation fails, with `Refused::Capacity` if the arena
    /// of tables is full or a next table would be too long, and with `Refused::Limit` if the map's
    /// limit on entries is reached. The call then changes no entry.
    #[inline(always)]
    pub fn insert<R: Wait>(&mut self, rt: &R, key: K, value: V) -> Result<Option<&'a V>, Refused>
        ensures map { self.new.map ≡ self.old.map }
        ensures seen { IsPrefix self.old.history self.new.history }
        ensures tables { IsPrefix self.old.tables self.new.tables }
        ensures made { Makes (is_ok result) self.old.made self.new.made self.new.history }
        ensures put { IfOk result (λ answer. IsPut K.eq key value self.old.history self.new.history
            answer) }
        ensures refused { IfErr result (IsWriteRefusal self.old.map.begun.limit self.new.taken) }
        ensures crowded { result ≡ Err Refused.Capacity → HasNoRoom self.old.map.initial
            self.new.tables self.new.given }
    {
        self.map.insert_as(rt, key, value, &mut self.pass)
    }

    /// Inserts an entry if the key is absent, and returns a reference to its value: `try_insert` of
    /// 0.2.5. If the key is present, its entry stays, and the error has the current value and the
    /// value that was not inserted. The second may be a reference into the arena; in 0.2.5 it is
    /// always the value itself.
    ///
    /// The session makes one change if the value was stored, and otherwise none.
    ///
    /// # Errors
    ///
    /// Fails with `Refused::Memory`, `Refused::Capacity` or `Refused::Limit`, as
    /// [`Session::insert`] does.
    pub fn try_insert<R: Wait>(
        &mut self,
        rt: &R,
        key: K,
        value: V,
    ) -> Result<Result<&'a V, OccupiedError<'a, V>>, Refused>
        ensures map { self.new.map ≡ self.old.map }
        ensures seen { IsPrefix self.old.history self.new.history }
        ensures tables { IsPrefix self.old.tables self.new.tables }
        ensures made { Makes (stored result) self.old.made self.new.made self.new.history }
        ensures tried { IfOk result (IsTried K.eq key self.old.history self.new.history value) }
        ensures refused { IfErr result (IsWriteRefusal self.old.map.begun.limit self.new.taken) }
        ensures crowded { result ≡ Err Refused.Capacity → HasNoRoom self.old.map.initial
            self.new.tables self.new.given }
    {
        let mut rule = Giving {
            supply: Some(Ready { value }),
        };
        match self.decide(rt, key, &mut rule) {
            Ok(Decided::Put(stored)) => Ok(Ok(stored)),
            Ok(
                Decided::Left {
                    current: Some(current),
                    spare,
                },
            ) => Ok(Err(OccupiedError {
                current,
                not_inserted: not_inserted(rule.supply, spare),
            })),
            Ok(Decided::Left { current: None, .. }) => unreachable!(),
            Ok(Decided::Replaced(_)) => unreachable!(),
            Err(refused) => Err(refused),
        }
    }

    /// Inserts the value that the closure returns if the key is absent, and returns a reference to
    /// it: `try_insert_with` of 0.2.5. If the key is present, the error is its value. The closure
    /// is called at most once.
    ///
    /// # Errors
    ///
    /// Fails with `Refused::Memory`, `Refused::Capacity` or `Refused::Limit`, as
    /// [`Session::insert`] does.
    pub fn try_insert_with<R: Wait, F: FnOnce() -> V + Drop>(
        &mut self,
        rt: &R,
        key: K,
        f: F,
    ) -> Result<Result<&'a V, &'a V>, Refused>
        requires { F.IsAlwaysCallable f }
        ensures map { self.new.map ≡ self.old.map }
        ensures seen { IsPrefix self.old.history self.new.history }
        ensures tables { IsPrefix self.old.tables self.new.tables }
        ensures made { Makes (stored result) self.old.made self.new.made self.new.history }
        ensures tried { IfOk result (IsTriedWith K.eq key self.old.history self.new.history
            (F.post f)) }
        ensures refused { IfErr result (IsWriteRefusal self.old.map.begun.limit self.new.taken) }
        ensures crowded { result ≡ Err Refused.Capacity → HasNoRoom self.old.map.initial
            self.new.tables self.new.given }
    {
        let mut rule = Giving {
            supply: Some(MadeBy { make: f }),
        };
        match self.decide(rt, key, &mut rule) {
            Ok(Decided::Put(stored)) => Ok(Ok(stored)),
            Ok(
                Decided::Left {
                    current: Some(current),
                    ..
                },
            ) => Ok(Err(current)),
            Ok(Decided::Left { current: None, .. }) => unreachable!(),
            Ok(Decided::Replaced(_)) => unreachable!(),
            Err(refused) => Err(refused),
        }
    }

    /// Returns the key's value. If the key is absent, inserts `value` first: `get_or_insert` of
    /// 0.2.5.
    ///
    /// The session makes one change if the value was stored, and otherwise none.
    ///
    /// # Errors
    ///
    /// Fails with `Refused::Memory`, `Refused::Capacity` or `Refused::Limit`, as
    /// [`Session::insert`] does.
    pub fn get_or_insert<R: Wait>(&mut self, rt: &R, key: K, value: V) -> Result<&'a V, Refused>
        ensures map { self.new.map ≡ self.old.map }
        ensures seen { IsPrefix self.old.history self.new.history }
        ensures tables { IsPrefix self.old.tables self.new.tables }
        ensures there { IsThereBy K.eq key self.old.history self.new.history (λ w. w ≡ value)
            self.old.made self.new.made result }
        ensures refused { IfErr result (IsWriteRefusal self.old.map.begun.limit self.new.taken) }
        ensures crowded { result ≡ Err Refused.Capacity → HasNoRoom self.old.map.initial
            self.new.tables self.new.given }
    {
        match self.try_insert(rt, key, value) {
            Ok(Ok(stored)) => Ok(stored),
            Ok(Err(occupied)) => Ok(occupied.current),
            Err(refused) => Err(refused),
        }
    }

    /// Returns the key's value. If the key is absent, inserts the value that the closure returns
    /// first: `get_or_insert_with` of 0.2.5. The closure is called at most once.
    ///
    /// # Errors
    ///
    /// Fails with `Refused::Memory`, `Refused::Capacity` or `Refused::Limit`, as
    /// [`Session::insert`] does.
    pub fn get_or_insert_with<R: Wait, F: FnOnce() -> V + Drop>(
        &mut self,
        rt: &R,
        key: K,
        f: F,
    ) -> Result<&'a V, Refused>
        requires { F.IsAlwaysCallable f }
        ensures map { self.new.map ≡ self.old.map }
        ensures seen { IsPrefix self.old.history self.new.history }
        ensures tables { IsPrefix self.old.tables self.new.tables }
        ensures there { IsThereBy K.eq key self.old.history self.new.history (F.post f)
            self.old.made self.new.made result }
        ensures refused { IfErr result (IsWriteRefusal self.old.map.begun.limit self.new.taken) }
        ensures crowded { result ≡ Err Refused.Capacity → HasNoRoom self.old.map.initial
            self.new.tables self.new.given }
    {
        match self.try_insert_with(rt, key, f) {
            Ok(Ok(stored)) => Ok(stored),
            Ok(Err(current)) => Ok(current),
            Err(refused) => Err(refused),
        }
    }
}
