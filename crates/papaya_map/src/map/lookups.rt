//! Lookups: by a pass, without one, and with a guard.
ghost use Rattle.std.specs.Prelude.{◌≡◌, Err, IfOk, is_ok, true};
ghost use Rattle.std.specs.Borrow.{sem};
ghost use mathlib.Core.List.{IsPrefix};
ghost use Rattle.papaya_map_lookup.specs.Answers.{IsAnsweredBetween, IsPairAnsweredBetween};
ghost use Rattle.papaya_map.specs.Plain.{IsContained, IsOfHistorySince, of_its_history, rule_of, unpinned};
ghost use Rattle.papaya_map_book.specs.contracts.rule.entry.Event.{the_row as EventOf};

use crate::map::{HashMap, HashMapRef};
use crate::observed::Observed;
use crate::pass::Pass;
use logbook::Rule;
use papaya_map_book::rule::entry::{Event, Named};
use papaya_map_book::rule::law::Law;
use papaya_map_lookup::lookup::look_up;
use papaya_words::refused::Refused;
use papaya_words_keys::guard::{Equivalent, Guard};
use std::hash::{BuildHasher, Hash};

impl<'a, K: Hash + Eq, V, S: BuildHasher> HashMapRef<'a, K, V, S> {
    /// Returns the key's value, or `None` if there is none: `get` of 0.2.5. It only loads words: it
    /// waits for no thread, takes no lock and allocates nothing. For this library's own calls: users
    /// call [`Session::get`](crate::session::Session::get).
    #[inline(always)]
    pub fn get_as<Q: Equivalent<K>>(&self, key: &Q, pass: &mut Pass<K, V, S>) -> Option<&'a V>
        requires { pass.old.book ≡ self.now.map.book }
        ensures book { pass.new.book ≡ pass.old.book }
        ensures seen { IsPrefix pass.old.history pass.new.history }
        ensures tables { IsPrefix pass.old.tables pass.new.tables }
        ensures made { pass.new.made ≡ pass.old.made }
        ensures answered { IsAnsweredBetween K.eq (Q.matches key.now) pass.old.history
            pass.new.history result }
    {
        let mut window = self.window(pass);
        let found = look_up(&mut window, key);
        pass.keep(window);
        found
    }

    /// Returns the key's value, or `None` if the map has no entry of the key: `get` of 0.2.5. It
    /// only loads words: it waits for no thread, takes no lock and allocates nothing.
    ///
    /// # Examples
    ///
    /// ```
    /// map.pin().insert(rt, 1, 10)?;
    /// let value = map.pin().get(&1); // Some(&10)
    /// let absent = map.pin().get(&2); // None
    /// ```
    #[inline(always)]
    pub fn get<Q: Equivalent<K>>(&self, key: &Q) -> Option<&'a V>
        ensures* own { sem 𝓛 (of_its_history (EventOf K.row V.row S.row).coded.code
            (rule_of ⟦<Law<K, V, S> as Rule<Event<K, V, S>, Named<K, V>>>⟧) self.now K.eq
            (λ h. IsAnsweredBetween K.eq (Q.matches key.now) self.now.seen h result)) }
        ensures answered { IsOfHistorySince self.now K.eq
            (λ h. IsAnsweredBetween K.eq (Q.matches key.now) self.now.seen h result) }
    {
        let Observed { answer, marker: _ } = self.get_observed(key);
        answer
    }

    /// Returns the stored key and its value, or `None` if the map has no entry of the key:
    /// `get_key_value` of 0.2.5. As [`HashMapRef::get`], it never waits, locks or allocates.
    ///
    /// # Examples
    ///
    /// ```
    /// map.pin().insert(rt, 1, 10)?;
    /// let entry = map.pin().get_key_value(&1); // Some((&1, &10))
    /// ```
    #[inline(always)]
    pub fn get_key_value<Q: Equivalent<K>>(&self, key: &Q) -> Option<(&'a K, &'a V)>
        ensures* own { sem 𝓛 (of_its_history (EventOf K.row V.row S.row).coded.code
            (rule_of ⟦<Law<K, V, S> as Rule<Event<K, V, S>, Named<K, V>>>⟧) self.now K.eq
            (λ h. IsPairAnsweredBetween K.eq (Q.matches key.now) self.now.seen h result)) }
        ensures answered { IsOfHistorySince self.now K.eq
            (λ h. IsPairAnsweredBetween K.eq (Q.matches key.now) self.now.seen h result) }
    {
        let Observed { answer, marker: _ } = self.get_key_value_observed(key);
        answer
    }

    /// Returns whether the map has an entry of the key: `contains_key` of 0.2.5. It never waits,
    /// locks or allocates.
    ///
    /// # Examples
    ///
    /// ```
    /// map.pin().insert(rt, 1, 10)?;
    /// let present = map.pin().contains_key(&1); // true
    /// let absent = map.pin().contains_key(&2); // false
    /// ```
    #[inline(always)]
    pub fn contains_key<Q: Equivalent<K>>(&self, key: &Q) -> bool
        ensures* own { sem 𝓛 (of_its_history (EventOf K.row V.row S.row).coded.code
            (rule_of ⟦<Law<K, V, S> as Rule<Event<K, V, S>, Named<K, V>>>⟧) self.now K.eq
            (λ h. IsContained K.eq (Q.matches key.now) self.now.seen h result)) }
        ensures answered { IsOfHistorySince self.now K.eq
            (λ h. IsContained K.eq (Q.matches key.now) self.now.seen h result) }
    {
        let Observed { answer, marker: _ } = self.contains_key_observed(key);
        answer
    }
}

impl<K: Hash + Eq, V, S: BuildHasher> HashMap<K, V, S> {
    /// Returns the key's value, or `None` if the map has no entry of the key: `get` of 0.2.5. It
    /// only loads words: it waits for no thread, takes no lock and allocates nothing.
    ///
    /// # Errors
    ///
    /// Fails with `Refused::WrongGuard` if the guard is of another collector.
    #[inline]
    pub fn get<'g, Q: Equivalent<K>, G: Guard>(
        &'g self,
        key: &Q,
        guard: &'g G,
    ) -> Result<Option<&'g V>, Refused>
        ensures* own { sem 𝓛 (of_its_history (EventOf K.row V.row S.row).coded.code
            (rule_of ⟦<Law<K, V, S> as Rule<Event<K, V, S>, Named<K, V>>>⟧) (unpinned self.now) K.eq
            (λ h. IfOk result (IsAnsweredBetween K.eq (Q.matches key.now) self.now.seen h))) }
        ensures answered { IsOfHistorySince (unpinned self.now) K.eq
            (λ h. IfOk result (IsAnsweredBetween K.eq (Q.matches key.now) self.now.seen h)) }
        ensures right { G.collector_number guard.now ≡ self.now.collector
            → is_ok result ≡ true }
        ensures wrong { (G.collector_number guard.now ≡ self.now.collector → ⊥)
            → result ≡ Err Refused.WrongGuard }
    {
        let Observed { answer, marker: _ } = self.get_observed(key, guard);
        answer
    }

    /// Returns the stored key and its value, or `None` if the map has no entry of the key:
    /// `get_key_value` of 0.2.5. As [`HashMap::get`], it never waits, locks or allocates.
    ///
    /// # Errors
    ///
    /// Fails with `Refused::WrongGuard` if the guard is of another collector.
    #[inline]
    pub fn get_key_value<'g, Q: Equivalent<K>, G: Guard>(
        &'g self,
        key: &Q,
        guard: &'g G,
    ) -> Result<Option<(&'g K, &'g V)>, Refused>
        ensures* own { sem 𝓛 (of_its_history (EventOf K.row V.row S.row).coded.code
            (rule_of ⟦<Law<K, V, S> as Rule<Event<K, V, S>, Named<K, V>>>⟧) (unpinned self.now) K.eq
            (λ h. IfOk result (IsPairAnsweredBetween K.eq (Q.matches key.now) self.now.seen h))) }
        ensures answered { IsOfHistorySince (unpinned self.now) K.eq
            (λ h. IfOk result (IsPairAnsweredBetween K.eq (Q.matches key.now) self.now.seen h)) }
        ensures right { G.collector_number guard.now ≡ self.now.collector
            → is_ok result ≡ true }
        ensures wrong { (G.collector_number guard.now ≡ self.now.collector → ⊥)
            → result ≡ Err Refused.WrongGuard }
    {
        let Observed { answer, marker: _ } = self.get_key_value_observed(key, guard);
        answer
    }

    /// Returns whether the map has an entry of the key: `contains_key` of 0.2.5. It never waits,
    /// locks or allocates.
    ///
    /// # Errors
    ///
    /// Fails with `Refused::WrongGuard` if the guard is of another collector.
    #[inline]
    pub fn contains_key<Q: Equivalent<K>, G: Guard>(
        &self,
        key: &Q,
        guard: &G,
    ) -> Result<bool, Refused>
        ensures* own { sem 𝓛 (of_its_history (EventOf K.row V.row S.row).coded.code
            (rule_of ⟦<Law<K, V, S> as Rule<Event<K, V, S>, Named<K, V>>>⟧) (unpinned self.now) K.eq
            (λ h. IfOk result (IsContained K.eq (Q.matches key.now) self.now.seen h))) }
        ensures answered { IsOfHistorySince (unpinned self.now) K.eq
            (λ h. IfOk result (IsContained K.eq (Q.matches key.now) self.now.seen h)) }
        ensures right { G.collector_number guard.now ≡ self.now.collector
            → is_ok result ≡ true }
        ensures wrong { (G.collector_number guard.now ≡ self.now.collector → ⊥)
            → result ≡ Err Refused.WrongGuard }
    {
        let Observed { answer, marker: _ } = self.contains_key_observed(key, guard);
        answer
    }
}
