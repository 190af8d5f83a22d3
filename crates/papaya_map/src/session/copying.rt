//! The calls of a session that copy the map.
ghost use Rattle.std.specs.Prelude.{◌≡◌, ℕ, IfErr, IfOk, None};
ghost use mathlib.Core.List.{IsPrefix};
ghost use Rattle.papaya_words.specs.declared.limits.TheConstants.{DEFAULT_CHUNK, DEFAULT_SHARDS};
ghost use Rattle.papaya_map_change.specs.Writing.{IsMemoryOrCapacity};
ghost use Rattle.papaya_map.specs.Collected.{AreCopied};
ghost use Rattle.papaya_map.specs.Fixed.{IsFor};

use crate::map::HashMap;
use crate::session::Session;
use papaya_words::refused::Refused;
use papaya_words::resize_mode::ResizeMode;
use std::alloc::Global;
use std::hash::{BuildHasher, Hash};
use std::sync::Wait;

impl<'a, K: Hash + Eq + Clone + Drop, V: Clone + Drop, S: BuildHasher + Clone + Drop> Session<
    'a,
    K,
    V,
    S,
> {
    /// Returns a map of clones of the map's entries, as [`HashMap::try_clone`] does. Each entry that
    /// the session had observed in the map is copied, unless a change took it out meanwhile. Each
    /// entry that is copied was in the map at some point since. The session then has observed the
    /// iteration over the map.
    ///
    /// # Errors
    ///
    /// Fails with `Refused::Memory` or `Refused::Capacity`, as [`HashMap::try_clone`] does.
    ///
    /// # Examples
    ///
    /// ```
    /// let mut session = Session::new(map);
    /// session.insert(rt, 1, 10)?;
    /// let copy = session.try_clone(rt, alloc)?;
    /// let value = copy.pin().get(&1); // Some(&10)
    /// ```
    pub fn try_clone<R: Wait>(&mut self, rt: &R, alloc: Global) -> Result<HashMap<K, V, S>, Refused>
        ensures map { self.new.map ≡ self.old.map }
        ensures seen { IsPrefix self.old.history self.new.history }
        ensures tables { IsPrefix self.old.tables self.new.tables }
        ensures own { self.new.made ≡ self.old.made }
        ensures made { IfOk result (λ map. (pairs : ℕ)
            × IsFor (ResizeMode.Incremental DEFAULT_CHUNK) pairs DEFAULT_SHARDS None map) }
        ensures hasher { IfOk result (λ map. S.is_clone self.old.map.begun.hasher
            map.begun.hasher) }
        ensures copied { IfOk result (λ map. AreCopied K.eq K.is_clone V.is_clone
            self.old.history self.new.history map.seen) }
        ensures refused { IfErr result IsMemoryOrCapacity }
    {
        let Session { map: pinned, pass } = self;
        pinned.map.try_clone_as(rt, alloc, pass)
    }
}
