//! The calls that reserve room, and change no entry.
ghost use Rattle.std.specs.Prelude.{◌≡◌, Err, IfErr};
ghost use Rattle.papaya_map_change.specs.Writing.{IsMemoryOrCapacity};

use crate::map::{HashMap, HashMapRef};
use papaya_words::refused::Refused;
use papaya_words_keys::guard::Guard;
use std::hash::{BuildHasher, Hash};
use std::sync::Wait;

impl<'a, K: Hash + Eq, V, S: BuildHasher> HashMapRef<'a, K, V, S> {
    /// Reserves room for `additional` more entries than the map counts: `reserve` of 0.2.5.
    ///
    /// # Errors
    ///
    /// Fails with `Refused::Memory` or `Refused::Capacity`, as
    /// [`Session::reserve`](crate::session::Session::reserve) does.
    ///
    /// # Examples
    ///
    /// ```
    /// map.pin().reserve(rt, 1000)?;
    /// let slots = map.slots(); // 2048
    /// ```
    pub fn reserve<R: Wait>(&self, rt: &R, additional: usize) -> Result<(), Refused>
        ensures { IfErr result (λ refused. IsMemoryOrCapacity refused) }
    {
        let (answer, _) = self.reserve_observed(rt, additional);
        answer
    }
}

impl<K: Hash + Eq, V, S: BuildHasher> HashMap<K, V, S> {
    /// Reserves room for `additional` more entries than the map counts: `reserve` of 0.2.5.
    ///
    /// # Errors
    ///
    /// Fails with `Refused::WrongGuard` if the guard is of another collector, and with
    /// `Refused::Memory` or `Refused::Capacity` as [`HashMapRef::reserve`] does.
    pub fn reserve<R: Wait, G: Guard>(
        &self,
        rt: &R,
        additional: usize,
        guard: &G,
    ) -> Result<(), Refused>
        ensures right { G.collector_number guard.now ≡ self.now.collector
            → IfErr result (λ refused. IsMemoryOrCapacity refused) }
        ensures wrong { (G.collector_number guard.now ≡ self.now.collector → ⊥)
            → result ≡ Err Refused.WrongGuard }
    {
        let (answer, _) = self.reserve_observed(rt, additional, guard);
        answer
    }
}
