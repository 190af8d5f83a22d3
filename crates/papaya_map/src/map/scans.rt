//! The calls that scan the whole map: by a pass, without one, and with a guard.
ghost use Rattle.std.specs.Prelude.{◌≡◌, Err, IfErr, IfOk, []};
ghost use Rattle.std.specs.Borrow.{sem};
ghost use mathlib.Core.List.{IsPrefix};
ghost use Rattle.papaya_map_book.specs.Limits.{HasNoRoom};
ghost use Rattle.papaya_map_change.specs.ClosureCalls.{Judges};
ghost use Rattle.papaya_map_change.specs.Writing.{IsMemoryOrCapacity};
ghost use Rattle.papaya_map.specs.Plain.{IsOfHistorySince, of_its_history, rule_of, unpinned};
ghost use Rattle.papaya_map_scan.specs.Leaving.{HasKept, IsCleared};
ghost use Rattle.papaya_map_book.specs.contracts.rule.entry.Event.{the_row as EventOf};

use crate::map::{HashMap, HashMapRef};
use crate::observed::Observed;
use crate::pass::Pass;
use logbook::Rule;
use papaya_map_book::rule::entry::{Event, Named};
use papaya_map_book::rule::law::Law;
use papaya_map_change::driver::Means;
use papaya_map_scan::root::take_root;
use papaya_map_scan::walk::{Iter, Keys, Values};
use papaya_words::refused::Refused;
use papaya_words_keys::guard::Guard;
use std::hash::{BuildHasher, Hash};
use std::sync::Wait;

impl<'a, K: Hash + Eq, V, S: BuildHasher> HashMapRef<'a, K, V, S> {
    /// Removes the entries for which the closure returns `false`: `retain` of 0.2.5. The closure is
    /// called with each entry. It may be called again for a key if another call replaces the key's
    /// entry meanwhile, or if this call meets a resize: then it finishes the resize and begins
    /// again.
    ///
    /// # Errors
    ///
    /// If the call meets a copy under way, it copies what is left to copy, and may need a table.
    /// Then it fails with `Refused::Memory` if an allocation fails, and with `Refused::Capacity` if
    /// there is no room. Removed entries stay removed.
    ///
    /// # Examples
    ///
    /// ```
    /// map.pin().insert(rt, 1, 10)?;
    /// map.pin().insert(rt, 2, 20)?;
    /// map.pin().retain(rt, |_, value| *value > 10)?;
    /// let len = map.len(); // 1
    /// ```
    pub fn retain<R: Wait, F: FnMut(&K, &V) -> bool>(&self, rt: &R, stays: F) -> Result<(), Refused>
        requires { F.IsAlwaysCallable stays }
        ensures* own { sem 𝓛 (of_its_history (EventOf K.row V.row S.row).coded.code
            (rule_of ⟦<Law<K, V, S> as Rule<Event<K, V, S>, Named<K, V>>>⟧) self.now K.eq
            (λ h. (made : _) × HasKept K.eq self.now.seen h [] made (Judges F.FnMut) stays
            result)) }
        ensures kept { IsOfHistorySince self.now K.eq
            (λ h. (made : _) × HasKept K.eq self.now.seen h [] made (Judges F.FnMut) stays result) }
        ensures refused { IfErr result (λ refused. IsMemoryOrCapacity refused) }
    {
        let Observed { answer, marker: _ } = self.retain_observed(rt, stays);
        answer
    }

    /// Removes all entries that are in the map as the call begins: `clear` of 0.2.5. An entry that
    /// another thread stores meanwhile may stay.
    ///
    /// # Errors
    ///
    /// Fails with `Refused::Memory` or `Refused::Capacity`, as [`HashMapRef::retain`] does.
    ///
    /// # Examples
    ///
    /// ```
    /// map.pin().insert(rt, 1, 10)?;
    /// map.pin().clear(rt)?;
    /// let empty = map.is_empty(); // true
    /// ```
    pub fn clear<R: Wait>(&self, rt: &R) -> Result<(), Refused>
        ensures* own { sem 𝓛 (of_its_history (EventOf K.row V.row S.row).coded.code
            (rule_of ⟦<Law<K, V, S> as Rule<Event<K, V, S>, Named<K, V>>>⟧) self.now K.eq
            (λ h. IfOk result (λ _. IsCleared K.eq self.now.seen h))) }
        ensures cleared { IsOfHistorySince self.now K.eq
            (λ h. IfOk result (λ _. IsCleared K.eq self.now.seen h)) }
        ensures refused { IfErr result (λ refused. IsMemoryOrCapacity refused) }
    {
        let Observed { answer, marker: _ } = self.clear_observed(rt);
        answer
    }

    /// Returns an iterator over the map's entries: `iter` of 0.2.5. Each entry returned was in the
    /// map, in a history that begins with what the pass had observed. Each entry that the map had
    /// then is returned, if no call removes or replaces it meanwhile. An entry that is stored,
    /// replaced or removed meanwhile may be returned or not. The pass does not learn what the
    /// iterator observes later; a session does by
    /// [`Session::learn_walk`](crate::session::Session::learn_walk). For this library's own calls:
    /// users call [`Session::iter`](crate::session::Session::iter).
    ///
    /// With `ResizeMode::Blocking` the iterator takes the root as it is. Otherwise the call first
    /// copies what is left to copy.
    ///
    /// # Errors
    ///
    /// If that copy needs a table, the call fails with `Refused::Memory` if an allocation fails,
    /// and with `Refused::Capacity` if there is no room, as an insertion does.
    pub fn iter_as<R: Wait>(
        &self,
        rt: &R,
        pass: &mut Pass<K, V, S>,
    ) -> Result<Iter<'a, K, V, S>, Refused>
        requires { pass.old.book ≡ self.now.map.book }
        ensures book { pass.new.book ≡ pass.old.book }
        ensures seen { IsPrefix pass.old.history pass.new.history }
        ensures tables { IsPrefix pass.old.tables pass.new.tables }
        ensures made { pass.new.made ≡ pass.old.made }
        ensures walk { IfOk result (λ pairs. pairs.book ≡ self.now.map.book) }
        ensures began { IfOk result (λ pairs. (pairs.began ≡ pass.old.history)
            × (pairs.history ≡ pass.new.history) × (pairs.given ≡ [])) }
        ensures refused { IfErr result (λ refused. IsMemoryOrCapacity refused) }
        ensures crowded { result ≡ Err Refused.Capacity → HasNoRoom self.now.map.initial
            pass.new.tables pass.new.given }
    {
        let map = self.map;
        let shard = map.count.shard(pass.number);
        let means = Means {
            rt,
            alloc: map.alloc,
            initial: map.initial,
            shard: &shard,
        };
        let mut window = self.window(pass);
        let began = window.sight.again();
        let taken = take_root(&means, &mut window, &mut pass.given);
        let (book, seen) = (window.book, window.sight.again());
        pass.keep(window);
        match taken {
            Ok(root) => Ok(Iter::over(book, &self.kept, began, seen, root)),
            Err(refused) => Err(refused),
        }
    }

    /// Returns an iterator over the entries: `iter` of 0.2.5. It yields each entry that is in the
    /// map when the call begins, unless a call removes or replaces it meanwhile. It may or may not
    /// yield an entry that is stored, replaced or removed meanwhile. The call may first finish a
    /// resize, as [`HashMapRef::iter_as`] does.
    ///
    /// # Errors
    ///
    /// Fails with `Refused::Memory` or `Refused::Capacity`, as [`HashMapRef::iter_as`] does.
    ///
    /// # Examples
    ///
    /// ```
    /// map.pin().insert(rt, 1, 10)?;
    /// map.pin().insert(rt, 2, 20)?;
    /// let mut sum = 0u64;
    /// for (_, value) in map.pin().iter(rt)? {
    ///     sum = sum.saturating_add(*value);
    /// }
    /// // sum is 30
    /// ```
    pub fn iter<R: Wait>(&self, rt: &R) -> Result<Iter<'a, K, V, S>, Refused>
        ensures walk { IfOk result (λ pairs. pairs.book ≡ self.now.map.book) }
        ensures began { IfOk result (λ pairs. (pairs.began ≡ self.now.seen)
            × (pairs.given ≡ [])) }
        ensures refused { IfErr result (λ refused. IsMemoryOrCapacity refused) }
    {
        let mut pass = self.begun(None);
        self.iter_as(rt, &mut pass)
    }

    /// Returns an iterator over the keys: `keys` of 0.2.5.
    ///
    /// # Errors
    ///
    /// Fails with `Refused::Memory` or `Refused::Capacity`, as [`HashMapRef::iter_as`] does.
    pub fn keys<R: Wait>(&self, rt: &R) -> Result<Keys<'a, K, V, S>, Refused>
        ensures walk { IfOk result (λ keys. keys.pairs.book ≡ self.now.map.book) }
        ensures began { IfOk result (λ keys. (keys.pairs.began ≡ self.now.seen)
            × (keys.pairs.given ≡ [])) }
        ensures refused { IfErr result (λ refused. IsMemoryOrCapacity refused) }
    {
        Ok(Keys::of(self.iter(rt)?))
    }

    /// Returns an iterator over the values: `values` of 0.2.5.
    ///
    /// # Errors
    ///
    /// Fails with `Refused::Memory` or `Refused::Capacity`, as [`HashMapRef::iter_as`] does.
    pub fn values<R: Wait>(&self, rt: &R) -> Result<Values<'a, K, V, S>, Refused>
        ensures walk { IfOk result (λ values. values.pairs.book ≡ self.now.map.book) }
        ensures began { IfOk result (λ values. (values.pairs.began ≡ self.now.seen)
            × (values.pairs.given ≡ [])) }
        ensures refused { IfErr result (λ refused. IsMemoryOrCapacity refused) }
    {
        Ok(Values::of(self.iter(rt)?))
    }
}

impl<K: Hash + Eq, V, S: BuildHasher> HashMap<K, V, S> {
    /// Removes the entries for which the closure returns `false`: `retain` of 0.2.5.
    ///
    /// # Errors
    ///
    /// Fails with `Refused::WrongGuard` if the guard is of another collector, and with
    /// `Refused::Memory` or `Refused::Capacity` as [`HashMapRef::retain`] does.
    pub fn retain<R: Wait, F: FnMut(&K, &V) -> bool, G: Guard>(
        &self,
        rt: &R,
        stays: F,
        guard: &G,
    ) -> Result<(), Refused>
        requires { F.IsAlwaysCallable stays }
        ensures* own { sem 𝓛 (of_its_history (EventOf K.row V.row S.row).coded.code
            (rule_of ⟦<Law<K, V, S> as Rule<Event<K, V, S>, Named<K, V>>>⟧) (unpinned self.now) K.eq
            (λ h. G.collector_number guard.now ≡ self.now.collector
            → (made : _) × HasKept K.eq self.now.seen h [] made (Judges F.FnMut) stays result)) }
        ensures kept { IsOfHistorySince (unpinned self.now) K.eq
            (λ h. G.collector_number guard.now ≡ self.now.collector
            → (made : _) × HasKept K.eq self.now.seen h [] made (Judges F.FnMut) stays result) }
        ensures right { G.collector_number guard.now ≡ self.now.collector
            → IfErr result (λ refused. IsMemoryOrCapacity refused) }
        ensures wrong { (G.collector_number guard.now ≡ self.now.collector → ⊥)
            → result ≡ Err Refused.WrongGuard }
    {
        let Observed { answer, marker: _ } = self.retain_observed(rt, stays, guard);
        answer
    }

    /// Removes all entries that are in the map as the call begins: `clear` of 0.2.5.
    ///
    /// # Errors
    ///
    /// Fails with `Refused::WrongGuard` if the guard is of another collector, and with
    /// `Refused::Memory` or `Refused::Capacity` as [`HashMapRef::clear`] does.
    pub fn clear<R: Wait, G: Guard>(&self, rt: &R, guard: &G) -> Result<(), Refused>
        ensures* own { sem 𝓛 (of_its_history (EventOf K.row V.row S.row).coded.code
            (rule_of ⟦<Law<K, V, S> as Rule<Event<K, V, S>, Named<K, V>>>⟧) (unpinned self.now) K.eq
            (λ h. IfOk result (λ _. IsCleared K.eq self.now.seen h))) }
        ensures cleared { IsOfHistorySince (unpinned self.now) K.eq
            (λ h. IfOk result (λ _. IsCleared K.eq self.now.seen h)) }
        ensures right { G.collector_number guard.now ≡ self.now.collector
            → IfErr result (λ refused. IsMemoryOrCapacity refused) }
        ensures wrong { (G.collector_number guard.now ≡ self.now.collector → ⊥)
            → result ≡ Err Refused.WrongGuard }
    {
        let Observed { answer, marker: _ } = self.clear_observed(rt, guard);
        answer
    }

    /// Returns an iterator over the entries: `iter` of 0.2.5.
    ///
    /// # Errors
    ///
    /// Fails with `Refused::WrongGuard` if the guard is of another collector, and with
    /// `Refused::Memory` or `Refused::Capacity` as [`HashMapRef::iter_as`] does.
    pub fn iter<'g, R: Wait, G: Guard>(
        &'g self,
        rt: &R,
        guard: &'g G,
    ) -> Result<Iter<'g, K, V, S>, Refused>
        ensures walk { IfOk result (λ pairs. pairs.book ≡ self.now.book) }
        ensures began { IfOk result (λ pairs. (pairs.began ≡ self.now.seen)
            × (pairs.given ≡ [])) }
        ensures right { G.collector_number guard.now ≡ self.now.collector
            → IfErr result (λ refused. IsMemoryOrCapacity refused) }
        ensures wrong { (G.collector_number guard.now ≡ self.now.collector → ⊥)
            → result ≡ Err Refused.WrongGuard }
    {
        self.verify(guard)?;
        let mut pass = self.begun(Some(guard.number()));
        self.pin().iter_as(rt, &mut pass)
    }

    /// Returns an iterator over the keys: `keys` of 0.2.5.
    ///
    /// # Errors
    ///
    /// Fails with `Refused::WrongGuard`, `Refused::Memory` or `Refused::Capacity`, as
    /// [`HashMap::iter`] does.
    pub fn keys<'g, R: Wait, G: Guard>(
        &'g self,
        rt: &R,
        guard: &'g G,
    ) -> Result<Keys<'g, K, V, S>, Refused>
        ensures walk { IfOk result (λ keys. keys.pairs.book ≡ self.now.book) }
        ensures began { IfOk result (λ keys. (keys.pairs.began ≡ self.now.seen)
            × (keys.pairs.given ≡ [])) }
        ensures right { G.collector_number guard.now ≡ self.now.collector
            → IfErr result (λ refused. IsMemoryOrCapacity refused) }
        ensures wrong { (G.collector_number guard.now ≡ self.now.collector → ⊥)
            → result ≡ Err Refused.WrongGuard }
    {
        Ok(Keys::of(self.iter(rt, guard)?))
    }

    /// Returns an iterator over the values: `values` of 0.2.5.
    ///
    /// # Errors
    ///
    /// Fails with `Refused::WrongGuard`, `Refused::Memory` or `Refused::Capacity`, as
    /// [`HashMap::iter`] does.
    pub fn values<'g, R: Wait, G: Guard>(
        &'g self,
        rt: &R,
        guard: &'g G,
    ) -> Result<Values<'g, K, V, S>, Refused>
        ensures walk { IfOk result (λ values. values.pairs.book ≡ self.now.book) }
        ensures began { IfOk result (λ values. (values.pairs.began ≡ self.now.seen)
            × (values.pairs.given ≡ [])) }
        ensures right { G.collector_number guard.now ≡ self.now.collector
            → IfErr result (λ refused. IsMemoryOrCapacity refused) }
        ensures wrong { (G.collector_number guard.now ≡ self.now.collector → ⊥)
            → result ≡ Err Refused.WrongGuard }
    {
        Ok(Values::of(self.iter(rt, guard)?))
    }
}
