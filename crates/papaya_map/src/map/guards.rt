//! Guards of a map, and the check that each call with a guard begins with. With a guard of another
//! collector the call fails, and changes nothing.
ghost use Rattle.std.specs.Prelude.{◌≡◌, Err, IfOk, Ok, [], is_ok, true};
ghost use mathlib.Core.List.{IsPrefix};
ghost use Rattle.papaya_map_lookup.specs.History.{IsLegalHistory, history_of, key_of};

use crate::map::HashMap;
use crate::observed::Saying;
use crate::pass::Pass;
use papaya_words::refused::Refused;
use papaya_words_keys::guard::{Guard, LocalGuard, OwnedGuard};
use std::hash::{BuildHasher, Hash};

impl<K: Hash + Eq, V, S: BuildHasher> HashMap<K, V, S> {
    /// Returns a guard of the map's collector: `guard` of 0.2.5.
    ///
    /// # Examples
    ///
    /// ```
    /// let guard = map.guard();
    /// let old = map.insert(rt, 1, 10, &guard)?; // None
    /// let value = map.get(&1, &guard)?; // Some(&10)
    /// ```
    pub fn guard(&self) -> LocalGuard<'_>
        ensures { result.collector ≡ self.now.collector }
    {
        self.collector.enter()
    }

    /// Returns a guard that may be sent to another thread: `owned_guard` of 0.2.5.
    pub fn owned_guard(&self) -> OwnedGuard<'_>
        ensures { result.collector ≡ self.now.collector }
    {
        self.collector.enter_owned()
    }

    /// Checks that the guard is of the map's collector. In 0.2.5 a call with another guard panics.
    ///
    /// # Errors
    ///
    /// Fails with `Refused::WrongGuard` if the guard is of another collector.
    #[inline]
    pub fn verify<G: Guard>(&self, guard: &G) -> Result<(), Refused>
        ensures right { G.collector_number guard.now ≡ self.now.collector → result ≡ Ok tt }
        ensures wrong { (G.collector_number guard.now ≡ self.now.collector → ⊥)
            → result ≡ Err Refused.WrongGuard }
    {
        if guard.collector_number() == self.collector.number() {
            Ok(())
        } else {
            Err(Refused::WrongGuard)
        }
    }

    /// Returns a new pass for a call with this guard. It has observed the history up to the map's
    /// creation, and picks the count's shard by the guard's number. Fails as [`HashMap::verify`].
    #[inline(always)]
    pub(crate) fn begun_by<G: Guard>(&self, guard: &G) -> Result<Pass<K, V, S>, Refused>
        ensures book { IfOk result (λ pass. pass.book ≡ self.now.book) }
        ensures seen { IfOk result (λ pass. pass.history ≡ self.now.seen) }
        ensures made { IfOk result (λ pass. pass.made ≡ []) }
        ensures right { G.collector_number guard.now ≡ self.now.collector → is_ok result ≡ true }
        ensures wrong { (G.collector_number guard.now ≡ self.now.collector → ⊥)
            → result ≡ Err Refused.WrongGuard }
    {
        self.verify(guard)?;
        Ok(self.begun(Some(guard.number())))
    }

    /// Returns a refusal, with the history observed up to the map's creation, and no change.
    #[inline(always)]
    pub(crate) fn observe_refused<B>(&self, refused: Refused) -> Saying<Result<B, Refused>, K, V, S>
        ensures answer { result.answer ≡ Err refused }
        ensures book { result.book ≡ self.now.book }
        ensures legal { IsLegalHistory K.eq key_of (history_of result.log) }
        ensures seen { IsPrefix self.now.seen (history_of result.log) }
        ensures made { history_of result.made ≡ [] }
    {
        let pass = self.begun(None);
        pass.tell(Err(refused))
    }
}
