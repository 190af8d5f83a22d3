//! The calls of a session that remove a key's entry.
ghost use Rattle.std.specs.Prelude.{◌≡◌, Err, true};
ghost use mathlib.Core.List.{IsPrefix};
ghost use Rattle.papaya_map_book.specs.Limits.{HasNoRoom};
ghost use Rattle.papaya_map_change.specs.RemovalAnswers.{IsEntryRemoved, IsRemovalBy, IsRemoved, gives_value, has_removed};
ghost use Rattle.papaya_map_change.specs.ClosureCalls.{Judges};
ghost use Rattle.papaya_map_lookup.specs.History.{Makes};

use crate::session::Session;
use papaya_words::refused::Refused;
use papaya_words_keys::guard::Equivalent;
use std::hash::{BuildHasher, Hash};
use std::sync::Wait;

impl<'a, K: Hash + Eq, V, S: BuildHasher> Session<'a, K, V, S> {
    /// Removes a key's entry if the closure returns `true` for it: `remove_if` of 0.2.5.
    ///
    /// Returns `Ok(None)` if the key is absent, `Ok(Some(entry))` if this entry was removed, and
    /// `Err(entry)` if the closure returned `false` for it. The closure may be called again if
    /// another thread replaces or removes the entry meanwhile.
    ///
    /// # Errors
    ///
    /// A removal allocates nothing for itself. If it helps to copy the table, it may fail with
    /// `Refused::Memory` or `Refused::Capacity` as [`Session::insert`] does, and then changes no
    /// entry.
    pub fn remove_if<R: Wait, Q: Equivalent<K>, F: FnMut(&K, &V) -> bool>(
        &mut self,
        rt: &R,
        key: &Q,
        should_remove: F,
    ) -> Result<Result<Option<(&'a K, &'a V)>, (&'a K, &'a V)>, Refused>
        requires { F.IsAlwaysCallable should_remove }
        ensures map { self.new.map ≡ self.old.map }
        ensures seen { IsPrefix self.old.history self.new.history }
        ensures tables { IsPrefix self.old.tables self.new.tables }
        ensures made { Makes (has_removed result) self.old.made self.new.made self.new.history }
        ensures removed { IsRemovalBy K.eq (Q.matches key.now) self.old.history self.new.history
            (Judges F.FnMut) should_remove result }
        ensures crowded { result ≡ Err Refused.Capacity → HasNoRoom self.old.map.initial
            self.new.tables self.new.given }
    {
        self.map
            .remove_if_as(rt, key, should_remove, &mut self.pass)
    }

    /// Removes a key's entry and returns its value, or returns `None` if the key is absent:
    /// `remove` of 0.2.5.
    ///
    /// # Errors
    ///
    /// Fails with `Refused::Memory` or `Refused::Capacity`, as [`Session::remove_if`] does.
    pub fn remove<R: Wait, Q: Equivalent<K>>(
        &mut self,
        rt: &R,
        key: &Q,
    ) -> Result<Option<&'a V>, Refused>
        ensures map { self.new.map ≡ self.old.map }
        ensures seen { IsPrefix self.old.history self.new.history }
        ensures tables { IsPrefix self.old.tables self.new.tables }
        ensures made { Makes (gives_value result) self.old.made self.new.made self.new.history }
        ensures removed { IsRemoved K.eq (Q.matches key.now) self.old.history self.new.history
            result }
        ensures crowded { result ≡ Err Refused.Capacity → HasNoRoom self.old.map.initial
            self.new.tables self.new.given }
    {
        self.map.remove_as(rt, key, &mut self.pass)
    }

    /// Removes a key's entry and returns it, or returns `None` if the key is absent: `remove_entry`
    /// of 0.2.5.
    ///
    /// # Errors
    ///
    /// Fails with `Refused::Memory` or `Refused::Capacity`, as [`Session::remove_if`] does.
    pub fn remove_entry<R: Wait, Q: Equivalent<K>>(
        &mut self,
        rt: &R,
        key: &Q,
    ) -> Result<Option<(&'a K, &'a V)>, Refused>
        ensures map { self.new.map ≡ self.old.map }
        ensures seen { IsPrefix self.old.history self.new.history }
        ensures tables { IsPrefix self.old.tables self.new.tables }
        ensures made { Makes (gives_value result) self.old.made self.new.made self.new.history }
        ensures removed { IsEntryRemoved K.eq (Q.matches key.now) self.old.history
            self.new.history result }
        ensures crowded { result ≡ Err Refused.Capacity → HasNoRoom self.old.map.initial
            self.new.tables self.new.given }
    {
        let removed = self.remove_if(
            rt,
            key,
            |_, _|
                ensures { result ≡ true }
            { true },
        );
        match removed {
            Ok(Ok(Some(entry))) => Ok(Some(entry)),
            Ok(Ok(None)) => Ok(None),
            Ok(Err(_)) => unreachable!(),
            Err(refused) => Err(refused),
        }
    }
}
