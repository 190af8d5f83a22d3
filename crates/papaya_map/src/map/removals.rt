//! The calls that remove a key's entry: by a pass, without one, and with a guard.
ghost use Rattle.std.specs.Prelude.{◌≡◌, Err, true};
ghost use Rattle.std.specs.Borrow.{sem};
ghost use mathlib.Core.List.{IsPrefix};
ghost use Rattle.papaya_map_book.specs.Limits.{HasNoRoom};
ghost use Rattle.papaya_map_change.specs.RemovalAnswers.{IsEntryRemoved, IsRemovalBy, IsRemoved, gives_value, has_removed};
ghost use Rattle.papaya_map_change.specs.ClosureCalls.{Judges};
ghost use Rattle.papaya_map_lookup.specs.History.{Makes};
ghost use Rattle.papaya_map.specs.Plain.{IsOfHistorySince, of_its_history, rule_of, unpinned};
ghost use Rattle.papaya_map_book.specs.contracts.rule.entry.Event.{the_row as EventOf};

use crate::map::{HashMap, HashMapRef};
use crate::observed::Observed;
use crate::pass::Pass;
use logbook::Rule;
use papaya_map_book::rule::entry::{Event, Named};
use papaya_map_book::rule::law::Law;
use papaya_map_change::removal::remove;
use papaya_words::refused::Refused;
use papaya_words_keys::guard::{Equivalent, Guard};
use std::hash::{BuildHasher, Hash};
use std::sync::Wait;

impl<'a, K: Hash + Eq, V, S: BuildHasher> HashMapRef<'a, K, V, S> {
    /// Removes a key's entry if the closure returns `true` for it: `remove_if` of 0.2.5. For this
    /// library's own calls: users call [`Session::remove_if`](crate::session::Session::remove_if).
    ///
    /// Returns `Ok(None)` if the key is absent, `Ok(Some(entry))` if that very entry was removed,
    /// and `Err(entry)` if the closure returned `false` for it. The closure may be called again if
    /// another call was first to replace or remove the entry. The pass makes one change if an entry
    /// was removed, and otherwise none.
    ///
    /// # Errors
    ///
    /// A removal allocates nothing for itself, but it may help to copy the table to a next one.
    /// Then it fails with `Refused::Memory` if an allocation fails, and with `Refused::Capacity` if
    /// the arena of tables is full or the next table would be too long. It then has changed no
    /// entry.
    pub fn remove_if_as<R: Wait, Q: Equivalent<K>, F: FnMut(&K, &V) -> bool>(
        &self,
        rt: &R,
        key: &Q,
        should_remove: F,
        pass: &mut Pass<K, V, S>,
    ) -> Result<Result<Option<(&'a K, &'a V)>, (&'a K, &'a V)>, Refused>
        requires book { pass.old.book ≡ self.now.map.book }
        requires callable { F.IsAlwaysCallable should_remove }
        ensures book { pass.new.book ≡ pass.old.book }
        ensures seen { IsPrefix pass.old.history pass.new.history }
        ensures tables { IsPrefix pass.old.tables pass.new.tables }
        ensures made { Makes (has_removed result) pass.old.made pass.new.made pass.new.history }
        ensures removed { IsRemovalBy K.eq (Q.matches key.now) pass.old.history pass.new.history
            (Judges F.FnMut) should_remove result }
        ensures crowded { result ≡ Err Refused.Capacity → HasNoRoom self.now.map.initial
            pass.new.tables pass.new.given }
    {
        let map = self.map;
        let shard = map.count.shard(pass.number);
        let mut window = self.window(pass);
        let removed = remove(
            rt,
            map.alloc,
            map.initial,
            &shard,
            &mut window,
            &mut pass.given,
            key,
            should_remove,
        );
        pass.keep(window);
        removed
    }

    /// Removes a key's entry if the closure returns `true` for it: `remove_if` of 0.2.5.
    ///
    /// Returns `Ok(None)` if the key is absent, `Ok(Some(entry))` if this entry was removed, and
    /// `Err(entry)` if the closure returned `false` for it. The closure may be called again if
    /// another call replaces or removes the entry meanwhile.
    ///
    /// # Errors
    ///
    /// Fails with `Refused::Memory` or `Refused::Capacity`, as [`HashMapRef::remove_if_as`] does,
    /// and then changes no entry.
    ///
    /// # Examples
    ///
    /// ```
    /// map.pin().insert(rt, 1, 10)?;
    /// let kept = map.pin().remove_if(rt, &1, |_, value| *value > 10)?; // Err((&1, &10))
    /// let removed = map.pin().remove_if(rt, &1, |_, value| *value == 10)?; // Ok(Some((&1, &10)))
    /// ```
    pub fn remove_if<R: Wait, Q: Equivalent<K>, F: FnMut(&K, &V) -> bool>(
        &self,
        rt: &R,
        key: &Q,
        should_remove: F,
    ) -> Result<Result<Option<(&'a K, &'a V)>, (&'a K, &'a V)>, Refused>
        requires { F.IsAlwaysCallable should_remove }
        ensures* own { sem 𝓛 (of_its_history (EventOf K.row V.row S.row).coded.code
            (rule_of ⟦<Law<K, V, S> as Rule<Event<K, V, S>, Named<K, V>>>⟧) self.now K.eq
            (λ h. IsRemovalBy K.eq (Q.matches key.now) self.now.seen h (Judges F.FnMut)
            should_remove result)) }
        ensures removed { IsOfHistorySince self.now K.eq
            (λ h. IsRemovalBy K.eq (Q.matches key.now) self.now.seen h (Judges F.FnMut)
            should_remove result) }
    {
        let Observed { answer, marker: _ } = self.remove_if_observed(rt, key, should_remove);
        answer
    }

    /// Removes a key's entry, and returns its value, if any: `remove` of 0.2.5. For this library's
    /// own calls: users call [`Session::remove`](crate::session::Session::remove).
    ///
    /// # Errors
    ///
    /// Fails with `Refused::Memory` or `Refused::Capacity`, as [`HashMapRef::remove_if_as`] does.
    pub fn remove_as<R: Wait, Q: Equivalent<K>>(
        &self,
        rt: &R,
        key: &Q,
        pass: &mut Pass<K, V, S>,
    ) -> Result<Option<&'a V>, Refused>
        requires { pass.old.book ≡ self.now.map.book }
        ensures book { pass.new.book ≡ pass.old.book }
        ensures seen { IsPrefix pass.old.history pass.new.history }
        ensures tables { IsPrefix pass.old.tables pass.new.tables }
        ensures made { Makes (gives_value result) pass.old.made pass.new.made pass.new.history }
        ensures removed { IsRemoved K.eq (Q.matches key.now) pass.old.history pass.new.history
            result }
        ensures crowded { result ≡ Err Refused.Capacity → HasNoRoom self.now.map.initial
            pass.new.tables pass.new.given }
    {
        let removed = self.remove_if_as(
            rt,
            key,
            |_, _|
                ensures { result ≡ true }
            { true },
            pass,
        );
        match removed {
            Ok(Ok(Some((_, value)))) => Ok(Some(value)),
            Ok(Ok(None)) => Ok(None),
            Ok(Err(_)) => unreachable!(),
            Err(refused) => Err(refused),
        }
    }

    /// Removes a key's entry, and returns its value, if any: `remove` of 0.2.5.
    ///
    /// # Errors
    ///
    /// Fails with `Refused::Memory` or `Refused::Capacity`, as [`HashMapRef::remove_if_as`] does,
    /// and then changes no entry.
    ///
    /// # Examples
    ///
    /// ```
    /// map.pin().insert(rt, 1, 10)?;
    /// let first = map.pin().remove(rt, &1)?; // Some(&10)
    /// let second = map.pin().remove(rt, &1)?; // None
    /// ```
    pub fn remove<R: Wait, Q: Equivalent<K>>(
        &self,
        rt: &R,
        key: &Q,
    ) -> Result<Option<&'a V>, Refused>
        ensures* own { sem 𝓛 (of_its_history (EventOf K.row V.row S.row).coded.code
            (rule_of ⟦<Law<K, V, S> as Rule<Event<K, V, S>, Named<K, V>>>⟧) self.now K.eq
            (λ h. IsRemoved K.eq (Q.matches key.now) self.now.seen h result)) }
        ensures removed { IsOfHistorySince self.now K.eq
            (λ h. IsRemoved K.eq (Q.matches key.now) self.now.seen h result) }
    {
        let Observed { answer, marker: _ } = self.remove_observed(rt, key);
        answer
    }

    /// Removes a key's entry, and returns it, if any: `remove_entry` of 0.2.5.
    ///
    /// # Errors
    ///
    /// Fails with `Refused::Memory` or `Refused::Capacity`, as [`HashMapRef::remove_if_as`] does,
    /// and then changes no entry.
    pub fn remove_entry<R: Wait, Q: Equivalent<K>>(
        &self,
        rt: &R,
        key: &Q,
    ) -> Result<Option<(&'a K, &'a V)>, Refused>
        ensures* own { sem 𝓛 (of_its_history (EventOf K.row V.row S.row).coded.code
            (rule_of ⟦<Law<K, V, S> as Rule<Event<K, V, S>, Named<K, V>>>⟧) self.now K.eq
            (λ h. IsEntryRemoved K.eq (Q.matches key.now) self.now.seen h result)) }
        ensures removed { IsOfHistorySince self.now K.eq
            (λ h. IsEntryRemoved K.eq (Q.matches key.now) self.now.seen h result) }
    {
        let Observed { answer, marker: _ } = self.remove_entry_observed(rt, key);
        answer
    }
}

impl<K: Hash + Eq, V, S: BuildHasher> HashMap<K, V, S> {
    /// Removes a key's entry if the closure returns `true` for it: `remove_if` of 0.2.5. Returns as
    /// [`HashMapRef::remove_if_as`].
    ///
    /// # Errors
    ///
    /// Fails with `Refused::WrongGuard`, `Refused::Memory` or `Refused::Capacity`, as
    /// [`HashMap::remove`] does.
    pub fn remove_if<'g, R: Wait, Q: Equivalent<K>, F: FnMut(&K, &V) -> bool, G: Guard>(
        &'g self,
        rt: &R,
        key: &Q,
        should_remove: F,
        guard: &'g G,
    ) -> Result<Result<Option<(&'g K, &'g V)>, (&'g K, &'g V)>, Refused>
        requires { F.IsAlwaysCallable should_remove }
        ensures* own { sem 𝓛 (of_its_history (EventOf K.row V.row S.row).coded.code
            (rule_of ⟦<Law<K, V, S> as Rule<Event<K, V, S>, Named<K, V>>>⟧) (unpinned self.now) K.eq
            (λ h. G.collector_number guard.now ≡ self.now.collector
            → IsRemovalBy K.eq (Q.matches key.now) self.now.seen h
            (Judges F.FnMut) should_remove result)) }
        ensures removed { IsOfHistorySince (unpinned self.now) K.eq
            (λ h. G.collector_number guard.now ≡ self.now.collector
            → IsRemovalBy K.eq (Q.matches key.now) self.now.seen h
            (Judges F.FnMut) should_remove result) }
        ensures wrong { (G.collector_number guard.now ≡ self.now.collector → ⊥)
            → result ≡ Err Refused.WrongGuard }
    {
        let Observed { answer, marker: _ } = self.remove_if_observed(rt, key, should_remove, guard);
        answer
    }

    /// Removes a key's entry, and returns its value, if any: `remove` of 0.2.5.
    ///
    /// # Errors
    ///
    /// Fails with `Refused::WrongGuard` if the guard is of another collector, and with
    /// `Refused::Memory` or `Refused::Capacity` as [`HashMapRef::remove_if_as`] does.
    pub fn remove<'g, R: Wait, Q: Equivalent<K>, G: Guard>(
        &'g self,
        rt: &R,
        key: &Q,
        guard: &'g G,
    ) -> Result<Option<&'g V>, Refused>
        ensures* own { sem 𝓛 (of_its_history (EventOf K.row V.row S.row).coded.code
            (rule_of ⟦<Law<K, V, S> as Rule<Event<K, V, S>, Named<K, V>>>⟧) (unpinned self.now) K.eq
            (λ h. G.collector_number guard.now ≡ self.now.collector
            → IsRemoved K.eq (Q.matches key.now) self.now.seen h result)) }
        ensures removed { IsOfHistorySince (unpinned self.now) K.eq
            (λ h. G.collector_number guard.now ≡ self.now.collector
            → IsRemoved K.eq (Q.matches key.now) self.now.seen h result) }
        ensures wrong { (G.collector_number guard.now ≡ self.now.collector → ⊥)
            → result ≡ Err Refused.WrongGuard }
    {
        let Observed { answer, marker: _ } = self.remove_observed(rt, key, guard);
        answer
    }

    /// Removes a key's entry, and returns it, if any: `remove_entry` of 0.2.5.
    ///
    /// # Errors
    ///
    /// Fails with `Refused::WrongGuard`, `Refused::Memory` or `Refused::Capacity`, as
    /// [`HashMap::remove`] does.
    pub fn remove_entry<'g, R: Wait, Q: Equivalent<K>, G: Guard>(
        &'g self,
        rt: &R,
        key: &Q,
        guard: &'g G,
    ) -> Result<Option<(&'g K, &'g V)>, Refused>
        ensures* own { sem 𝓛 (of_its_history (EventOf K.row V.row S.row).coded.code
            (rule_of ⟦<Law<K, V, S> as Rule<Event<K, V, S>, Named<K, V>>>⟧) (unpinned self.now) K.eq
            (λ h. G.collector_number guard.now ≡ self.now.collector
            → IsEntryRemoved K.eq (Q.matches key.now) self.now.seen h result)) }
        ensures removed { IsOfHistorySince (unpinned self.now) K.eq
            (λ h. G.collector_number guard.now ≡ self.now.collector
            → IsEntryRemoved K.eq (Q.matches key.now) self.now.seen h result) }
        ensures wrong { (G.collector_number guard.now ≡ self.now.collector → ⊥)
            → result ≡ Err Refused.WrongGuard }
    {
        let Observed { answer, marker: _ } = self.remove_entry_observed(rt, key, guard);
        answer
    }
}
