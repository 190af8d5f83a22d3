//! The calls of a session that replace a key's value by what a closure makes of it.
ghost use Rattle.std.specs.Prelude.{◌≡◌, Err, IfErr, IfOk, is_ok};
ghost use Rattle.std.specs.Fn.{FnReturnsAt};
ghost use mathlib.Core.List.{IsPrefix};
ghost use Rattle.papaya_map_book.specs.Limits.{HasNoRoom};
ghost use Rattle.papaya_map_change.specs.RemovalAnswers.{gives_value};
ghost use Rattle.papaya_map_lookup.specs.History.{Makes};
ghost use Rattle.papaya_map.specs.Limited.{IsWriteRefusal};
ghost use Rattle.papaya_map.specs.Storing.{IsUpdated, IsUpserted};

use crate::session::Session;
use papaya_map_compute::deciding::Decided;
use papaya_map_compute::rules::{MadeBy, Ready, Supply, Updating, Upserting};
use papaya_words::refused::Refused;
use std::hash::{BuildHasher, Hash};
use std::sync::Wait;

impl<'a, K: Hash + Eq + Drop, V: Drop, S: BuildHasher> Session<'a, K, V, S> {
    /// Replaces the key's value with the result of calling the closure with it, and returns the new
    /// value: `update` of 0.2.5. Returns `Ok(None)` if the key is absent. The closure may be called
    /// again if another thread replaces or removes the value meanwhile.
    ///
    /// The session makes one change if a value was replaced, and otherwise none.
    ///
    /// # Errors
    ///
    /// Fails with `Refused::Memory`, `Refused::Capacity` or `Refused::Limit`, as
    /// [`Session::insert`] does.
    pub fn update<R: Wait, F: Fn(&V) -> V>(
        &mut self,
        rt: &R,
        key: K,
        f: F,
    ) -> Result<Option<&'a V>, Refused>
        requires { F.IsAlwaysCallable f }
        ensures map { self.new.map ≡ self.old.map }
        ensures seen { IsPrefix self.old.history self.new.history }
        ensures tables { IsPrefix self.old.tables self.new.tables }
        ensures made { Makes (gives_value result) self.old.made self.new.made self.new.history }
        ensures updated { IfOk result (IsUpdated K.eq key self.old.history self.new.history
            (FnReturnsAt F.Fn f)) }
        ensures refused { IfErr result (IsWriteRefusal self.old.map.begun.limit self.new.taken) }
        ensures crowded { result ≡ Err Refused.Capacity → HasNoRoom self.old.map.initial
            self.new.tables self.new.given }
    {
        let mut rule = Updating { update: f };
        match self.decide(rt, key, &mut rule) {
            Ok(Decided::Replaced(value)) => Ok(Some(value)),
            Ok(Decided::Left { .. }) => Ok(None),
            Ok(Decided::Put(_)) => unreachable!(),
            Err(refused) => Err(refused),
        }
    }

    /// Replaces the key's value by what the closure makes of it, or stores a value from the supply
    /// if the key has none.
    #[inline(always)]
    fn upsert<R: Wait, F: Fn(&V) -> V, G: Supply<V> + Drop>(
        &mut self,
        rt: &R,
        key: K,
        update: F,
        supply: G,
    ) -> Result<&'a V, Refused>
        requires callable { F.IsAlwaysCallable update }
        requires gives { G.can_give supply }
        ensures map { self.new.map ≡ self.old.map }
        ensures seen { IsPrefix self.old.history self.new.history }
        ensures tables { IsPrefix self.old.tables self.new.tables }
        ensures made { Makes (is_ok result) self.old.made self.new.made self.new.history }
        ensures upserted { IfOk result (IsUpserted K.eq key self.old.history self.new.history
            (FnReturnsAt F.Fn update) (G.gives supply)) }
        ensures refused { IfErr result (IsWriteRefusal self.old.map.begun.limit self.new.taken) }
        ensures crowded { result ≡ Err Refused.Capacity → HasNoRoom self.old.map.initial
            self.new.tables self.new.given }
    {
        let mut rule = Upserting {
            update,
            supply: Some(supply),
        };
        match self.decide(rt, key, &mut rule) {
            Ok(Decided::Replaced(value)) => Ok(value),
            Ok(Decided::Put(value)) => Ok(value),
            Ok(Decided::Left { .. }) => unreachable!(),
            Err(refused) => Err(refused),
        }
    }

    /// Replaces the key's value with the result of calling the closure with it, or inserts `value`
    /// if the key is absent: `update_or_insert` of 0.2.5. Returns the key's new value. The closure
    /// may be called again if another thread replaces or removes the value meanwhile.
    ///
    /// The session makes one change, or none if the call fails.
    ///
    /// # Errors
    ///
    /// Fails with `Refused::Memory`, `Refused::Capacity` or `Refused::Limit`, as
    /// [`Session::insert`] does.
    #[inline(always)]
    pub fn update_or_insert<R: Wait, F: Fn(&V) -> V>(
        &mut self,
        rt: &R,
        key: K,
        update: F,
        value: V,
    ) -> Result<&'a V, Refused>
        requires { F.IsAlwaysCallable update }
        ensures map { self.new.map ≡ self.old.map }
        ensures seen { IsPrefix self.old.history self.new.history }
        ensures tables { IsPrefix self.old.tables self.new.tables }
        ensures made { Makes (is_ok result) self.old.made self.new.made self.new.history }
        ensures upserted { IfOk result (IsUpserted K.eq key self.old.history self.new.history
            (FnReturnsAt F.Fn update) (λ w. w ≡ value)) }
        ensures refused { IfErr result (IsWriteRefusal self.old.map.begun.limit self.new.taken) }
        ensures crowded { result ≡ Err Refused.Capacity → HasNoRoom self.old.map.initial
            self.new.tables self.new.given }
    {
        self.upsert(rt, key, update, Ready { value })
    }

    /// Updates as [`Session::update_or_insert`] does, but inserts the result of a second closure if
    /// the key is absent: `update_or_insert_with` of 0.2.5. The second closure is called at most
    /// once.
    ///
    /// # Errors
    ///
    /// Fails with `Refused::Memory`, `Refused::Capacity` or `Refused::Limit`, as
    /// [`Session::insert`] does.
    pub fn update_or_insert_with<R: Wait, U: Fn(&V) -> V, F: FnOnce() -> V + Drop>(
        &mut self,
        rt: &R,
        key: K,
        update: U,
        f: F,
    ) -> Result<&'a V, Refused>
        requires update { U.IsAlwaysCallable update }
        requires make { F.IsAlwaysCallable f }
        ensures map { self.new.map ≡ self.old.map }
        ensures seen { IsPrefix self.old.history self.new.history }
        ensures tables { IsPrefix self.old.tables self.new.tables }
        ensures made { Makes (is_ok result) self.old.made self.new.made self.new.history }
        ensures upserted { IfOk result (IsUpserted K.eq key self.old.history self.new.history
            (FnReturnsAt U.Fn update) (F.post f)) }
        ensures refused { IfErr result (IsWriteRefusal self.old.map.begun.limit self.new.taken) }
        ensures crowded { result ≡ Err Refused.Capacity → HasNoRoom self.old.map.initial
            self.new.tables self.new.given }
    {
        self.upsert(rt, key, update, MadeBy { make: f })
    }
}
