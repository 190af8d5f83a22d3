//! The calls whose closure returns what becomes of a key's entry: by a pass, without one, and with
//! a guard.
ghost use Rattle.std.specs.Prelude.{◌≡◌, Err, IsSome, Some};
ghost use Rattle.std.specs.Borrow.{sem};
ghost use mathlib.Core.List.{IsPrefix};
ghost use Rattle.papaya_map_book.specs.Limits.{HasNoRoom};
ghost use Rattle.papaya_map_change.specs.ClosureCalls.{Operates};
ghost use Rattle.papaya_map_compute.specs.ComputeAnswers.{IsComputeBy, changes};
ghost use Rattle.papaya_map_lookup.specs.History.{Makes};
ghost use Rattle.papaya_map.specs.Plain.{IsOfHistorySince, of_its_history, rule_of, unpinned};
ghost use Rattle.papaya_map_book.specs.contracts.rule.entry.Event.{the_row as EventOf};

use crate::keeping::compute;
use crate::map::{HashMap, HashMapRef};
use crate::observed::Observed;
use crate::pass::Pass;
use logbook::Rule;
use papaya_call::answers::Operation;
use papaya_map_book::rule::entry::{Event, Named};
use papaya_map_book::rule::law::Law;
use papaya_words::refused::Refused;
use papaya_words_keys::guard::Guard;
use papaya_words_keys::results::Compute;
use std::hash::{BuildHasher, Hash};
use std::sync::Wait;

impl<'a, K: Hash + Eq + Drop, V: Drop, S: BuildHasher> HashMapRef<'a, K, V, S> {
    /// Calls a closure with the key's entry, or `None`, and does what it returns: `compute` of
    /// 0.2.5. The closure returns what to store, that the entry is removed, or that nothing is
    /// changed. For this library's own calls: users call
    /// [`Session::compute`](crate::session::Session::compute).
    ///
    /// The closure may be called again if another call was first to replace or remove the entry:
    /// what it returned for one entry is done to that entry alone. With `None` it is called at most
    /// once; the value that it then returns is kept for retries.
    ///
    /// # Errors
    ///
    /// Fails with `Refused::Memory`, `Refused::Capacity` or `Refused::Limit`, as
    /// [`HashMapRef::insert_as`] does, and with `Refused::RemoveNothing` if the closure returns a
    /// removal and there is no entry. The pass records one change if the closure's operation
    /// changes the map, and none if the call fails or aborts.
    pub fn compute_as<R: Wait, T: Drop, F: FnMut(Option<(&'a K, &'a V)>) -> Operation<V, T>>(
        &self,
        rt: &R,
        key: K,
        f: F,
        pass: &mut Pass<K, V, S>,
    ) -> Result<Compute<'a, K, V, T>, Refused>
        requires book { pass.old.book ≡ self.now.map.book }
        requires callable { F.IsAlwaysCallable f }
        ensures book { pass.new.book ≡ pass.old.book }
        ensures seen { IsPrefix pass.old.history pass.new.history }
        ensures tables { IsPrefix pass.old.tables pass.new.tables }
        ensures made { Makes (changes result) pass.old.made pass.new.made pass.new.history }
        ensures crowded { result ≡ Err Refused.Capacity → HasNoRoom self.now.map.initial
            pass.new.tables pass.new.given }
        ensures spent { result ≡ Err Refused.Limit → self.now.map.begun.limit
            ≡ Some pass.new.taken }
        ensures computed { IsComputeBy K.eq key pass.old.history pass.new.history (Operates F.FnMut)
            f result }
    {
        let map = self.map;
        let shard = map.count.shard(pass.number);
        let mut window = self.window(pass);
        let computed = compute(
            rt,
            map.alloc,
            map.initial,
            &shard,
            &mut window,
            &mut pass.given,
            key,
            f,
        );
        pass.keep(window);
        computed
    }

    /// Calls a closure with the key's entry, or `None`, and does what it returns: `compute` of
    /// 0.2.5.
    ///
    /// Returns as [`HashMapRef::compute_as`] does.
    ///
    /// # Errors
    ///
    /// Fails with `Refused::Memory`, `Refused::Capacity`, `Refused::Limit` or
    /// `Refused::RemoveNothing`, as [`HashMapRef::compute_as`] does.
    ///
    /// # Examples
    ///
    /// ```
    /// map.pin().insert(rt, 1, 10)?;
    /// let computed = map.pin().compute(rt, 1, |entry| match entry {
    ///     Some((_, left)) if *left > 1 => Operation::Insert(left.saturating_sub(1)),
    ///     Some(_) => Operation::Remove,
    ///     None => Operation::Abort(()),
    /// })?; // Compute::Updated { old: (&1, &10), new: (&1, &9) }
    /// ```
    pub fn compute<R: Wait, T: Drop, F: FnMut(Option<(&'a K, &'a V)>) -> Operation<V, T>>(
        &self,
        rt: &R,
        key: K,
        f: F,
    ) -> Result<Compute<'a, K, V, T>, Refused>
        requires { F.IsAlwaysCallable f }
        ensures* own { sem 𝓛 (of_its_history (EventOf K.row V.row S.row).coded.code
            (rule_of ⟦<Law<K, V, S> as Rule<Event<K, V, S>, Named<K, V>>>⟧) self.now K.eq
            (λ h. IsComputeBy K.eq key self.now.seen h (Operates F.FnMut) f result)) }
        ensures computed { IsOfHistorySince self.now K.eq
            (λ h. IsComputeBy K.eq key self.now.seen h (Operates F.FnMut) f result) }
        ensures limited { result ≡ Err Refused.Limit → IsSome self.now.map.begun.limit }
    {
        let Observed { answer, marker: _ } = self.compute_observed(rt, key, f);
        answer
    }
}

impl<K: Hash + Eq + Drop, V: Drop, S: BuildHasher> HashMap<K, V, S> {
    /// Calls a closure with the key's entry, or `None`, and does what it returns: `compute` of
    /// 0.2.5. Returns as [`HashMapRef::compute_as`].
    ///
    /// # Errors
    ///
    /// Fails with `Refused::WrongGuard` if the guard is of another collector. Otherwise fails with
    /// `Refused::Memory`, `Refused::Capacity`, `Refused::Limit` or `Refused::RemoveNothing`, as
    /// [`HashMapRef::compute_as`] does.
    pub fn compute<
        'g,
        R: Wait,
        T: Drop,
        F: FnMut(Option<(&'g K, &'g V)>) -> Operation<V, T>,
        G: Guard,
    >(&'g self, rt: &R, key: K, f: F, guard: &'g G) -> Result<Compute<'g, K, V, T>, Refused>
        requires { F.IsAlwaysCallable f }
        ensures* own { sem 𝓛 (of_its_history (EventOf K.row V.row S.row).coded.code
            (rule_of ⟦<Law<K, V, S> as Rule<Event<K, V, S>, Named<K, V>>>⟧) (unpinned self.now) K.eq
            (λ h. G.collector_number guard.now ≡ self.now.collector
            → IsComputeBy K.eq key self.now.seen h (Operates F.FnMut) f result)) }
        ensures computed { IsOfHistorySince (unpinned self.now) K.eq
            (λ h. G.collector_number guard.now ≡ self.now.collector
            → IsComputeBy K.eq key self.now.seen h (Operates F.FnMut) f result) }
        ensures limited { result ≡ Err Refused.Limit → IsSome self.now.begun.limit }
        ensures wrong { (G.collector_number guard.now ≡ self.now.collector → ⊥)
            → result ≡ Err Refused.WrongGuard }
    {
        let Observed { answer, marker: _ } = self.compute_observed(rt, key, f, guard);
        answer
    }
}
