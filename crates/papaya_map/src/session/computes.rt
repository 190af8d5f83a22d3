//! The call of a session whose closure returns what becomes of a key's entry.
ghost use Rattle.std.specs.Prelude.{◌≡◌, Err, Some};
ghost use mathlib.Core.List.{IsPrefix};
ghost use Rattle.papaya_map_book.specs.Limits.{HasNoRoom};
ghost use Rattle.papaya_map_change.specs.ClosureCalls.{Operates};
ghost use Rattle.papaya_map_compute.specs.ComputeAnswers.{IsComputeBy, changes};
ghost use Rattle.papaya_map_lookup.specs.History.{Makes};

use crate::session::Session;
use papaya_call::answers::Operation;
use papaya_map_compute::lending::compute_lent;
use papaya_words::refused::Refused;
use papaya_words_keys::results::Compute;
use std::hash::{BuildHasher, Hash};
use std::sync::Wait;

impl<'a, K: Hash + Eq + Drop, V: Drop, S: BuildHasher> Session<'a, K, V, S> {
    /// Calls the closure with the key's entry, or with `None` if the key is absent, and performs
    /// the operation that it returns: `compute` of 0.2.5. The operation inserts a value, removes
    /// the entry or changes nothing. Its result may not borrow from the entry; in 0.2.5 it may.
    ///
    /// The closure may be called again if another thread replaces or removes the entry meanwhile:
    /// an operation that it returned for one entry is performed only on that entry. With `None` it
    /// is called at most once; the value that it then returns is kept for retries.
    ///
    /// # Errors
    ///
    /// Fails with `Refused::Memory`, `Refused::Capacity` or `Refused::Limit`, as
    /// [`Session::insert`] does, and with `Refused::RemoveNothing` if the closure returns a removal
    /// and there is no entry.
    #[inline(always)]
    pub fn compute<R: Wait, T: Drop, F: FnMut(Option<(&K, &V)>) -> Operation<V, T>>(
        &mut self,
        rt: &R,
        key: K,
        f: F,
    ) -> Result<Compute<'a, K, V, T>, Refused>
        requires { F.IsAlwaysCallable f }
        ensures map { self.new.map ≡ self.old.map }
        ensures seen { IsPrefix self.old.history self.new.history }
        ensures tables { IsPrefix self.old.tables self.new.tables }
        ensures made { Makes (changes result) self.old.made self.new.made self.new.history }
        ensures crowded { result ≡ Err Refused.Capacity → HasNoRoom self.old.map.initial
            self.new.tables self.new.given }
        ensures spent { result ≡ Err Refused.Limit → self.old.map.begun.limit
            ≡ Some self.new.taken }
        ensures computed { IsComputeBy K.eq key self.old.history self.new.history
            (Operates F.FnMut) f result }
    {
        let Session { map: pinned, pass } = self;
        let map = pinned.map;
        let shard = map.count.shard(pass.number);
        let mut window = pinned.window(pass);
        let computed = compute_lent(
            rt,
            map.alloc,
            map.initial,
            &shard,
            &mut window,
            &mut pass.given,
            key,
            f,
        );
        pass.keep(window);
        computed
    }
}
