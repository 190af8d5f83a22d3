//! The calls of a session that scan the whole map.
ghost use Rattle.std.specs.Prelude.{◌≡◌, Err, IfErr, IfOk, false, []};
ghost use mathlib.Core.List.{IsPrefix};
ghost use Rattle.papaya_map_book.specs.Limits.{HasNoRoom};
ghost use Rattle.papaya_map_change.specs.ClosureCalls.{Judges};
ghost use Rattle.papaya_map_change.specs.Writing.{IsMemoryOrCapacity};
ghost use Rattle.papaya_map_scan.specs.Leaving.{HasDropped, HasKept, IsCleared};

use crate::session::Session;
use papaya_map_change::driver::Means;
use papaya_map_scan::retain::retain;
use papaya_map_scan::walk::{Iter, Keys, Values};
use papaya_words::refused::Refused;
use std::hash::{BuildHasher, Hash};
use std::sync::Wait;

impl<'a, K: Hash + Eq, V, S: BuildHasher> Session<'a, K, V, S> {
    /// Removes the entries for which the closure returns `false`: `retain` of 0.2.5. Each entry
    /// with which the closure is called was in the map at some state between what the session had
    /// observed before the call and what it has observed afterwards. The closure may be called
    /// again for a key if another thread replaces the key's entry meanwhile, or if the call meets a
    /// resize: then it finishes the resize and begins again.
    ///
    /// If the call succeeds, each entry that the session had observed in the map was removed since,
    /// by this call or another, or the closure last returned `true` for it. The closure may or may
    /// not be called with an entry that is stored meanwhile. Whether the call succeeds or fails,
    /// the session has made one change for each entry that this call removed, right after the
    /// closure returned `false` for it.
    ///
    /// # Errors
    ///
    /// If a resize is under way, the call finishes it first and may need another table. It then
    /// fails with `Refused::Memory` if an allocation fails, and with `Refused::Capacity` if there
    /// is no room, as [`Session::insert`] does. Entries that it has removed stay removed.
    pub fn retain<R: Wait, F: FnMut(&K, &V) -> bool>(
        &mut self,
        rt: &R,
        stays: F,
    ) -> Result<(), Refused>
        requires { F.IsAlwaysCallable stays }
        ensures map { self.new.map ≡ self.old.map }
        ensures seen { IsPrefix self.old.history self.new.history }
        ensures tables { IsPrefix self.old.tables self.new.tables }
        ensures kept { HasKept K.eq self.old.history self.new.history self.old.made self.new.made
            (Judges F.FnMut) stays result }
        ensures refused { IfErr result (λ refused. IsMemoryOrCapacity refused) }
        ensures crowded { result ≡ Err Refused.Capacity → HasNoRoom self.old.map.initial
            self.new.tables self.new.given }
    {
        let Session { map: pinned, pass } = self;
        let map = pinned.map;
        let shard = map.count.shard(pass.number);
        let means = Means {
            rt,
            alloc: map.alloc,
            initial: map.initial,
            shard: &shard,
        };
        let mut window = pinned.window(pass);
        let retained = retain(&means, &mut window, &mut pass.given, stays);
        pass.keep(window);
        retained
    }

    /// Removes all entries that are in the map when the call begins: `clear` of 0.2.5. If it
    /// succeeds, each entry that the session had observed in the map was removed since, by this
    /// call or another. An entry that is stored meanwhile may stay. The session makes one change
    /// for each entry that this call removes, and no other.
    ///
    /// # Errors
    ///
    /// Fails with `Refused::Memory` or `Refused::Capacity`, as [`Session::retain`] does.
    pub fn clear<R: Wait>(&mut self, rt: &R) -> Result<(), Refused>
        ensures map { self.new.map ≡ self.old.map }
        ensures seen { IsPrefix self.old.history self.new.history }
        ensures tables { IsPrefix self.old.tables self.new.tables }
        ensures made { HasDropped K.eq self.old.history self.new.history self.old.made
            self.new.made }
        ensures cleared { IfOk result (λ _. IsCleared K.eq self.old.history self.new.history) }
        ensures refused { IfErr result (λ refused. IsMemoryOrCapacity refused) }
        ensures crowded { result ≡ Err Refused.Capacity → HasNoRoom self.old.map.initial
            self.new.tables self.new.given }
    {
        self.retain(
            rt,
            |_, _|
                ensures { result ≡ false }
            { false },
        )
    }

    /// Returns an iterator over the map's entries: `iter` of 0.2.5. The session can make other
    /// calls meanwhile, and takes over what the iterator has observed by [`Session::learn_walk`].
    /// The iterator yields each entry that this session has observed in the map, unless a call
    /// removes or replaces it meanwhile. It may or may not yield an entry that is stored, replaced
    /// or removed meanwhile.
    ///
    /// With `ResizeMode::Incremental` the call first finishes a resize that is under way. With
    /// `ResizeMode::Blocking` it does not.
    ///
    /// # Errors
    ///
    /// Fails with `Refused::Memory` or `Refused::Capacity`, as [`Session::retain`] does, if that
    /// copy needs a table.
    pub fn iter<R: Wait>(&mut self, rt: &R) -> Result<Iter<'a, K, V, S>, Refused>
        ensures map { self.new.map ≡ self.old.map }
        ensures seen { IsPrefix self.old.history self.new.history }
        ensures tables { IsPrefix self.old.tables self.new.tables }
        ensures made { self.new.made ≡ self.old.made }
        ensures walk { IfOk result (λ pairs. pairs.book ≡ self.old.map.book) }
        ensures began { IfOk result (λ pairs. (pairs.began ≡ self.old.history)
            × (pairs.history ≡ self.new.history) × (pairs.given ≡ [])) }
        ensures refused { IfErr result (λ refused. IsMemoryOrCapacity refused) }
        ensures crowded { result ≡ Err Refused.Capacity → HasNoRoom self.old.map.initial
            self.new.tables self.new.given }
    {
        self.map.iter_as(rt, &mut self.pass)
    }

    /// Returns an iterator over the keys: `keys` of 0.2.5.
    ///
    /// # Errors
    ///
    /// Fails with `Refused::Memory` or `Refused::Capacity`, as [`Session::iter`] does.
    pub fn keys<R: Wait>(&mut self, rt: &R) -> Result<Keys<'a, K, V, S>, Refused>
        ensures map { self.new.map ≡ self.old.map }
        ensures seen { IsPrefix self.old.history self.new.history }
        ensures tables { IsPrefix self.old.tables self.new.tables }
        ensures made { self.new.made ≡ self.old.made }
        ensures walk { IfOk result (λ keys. keys.pairs.book ≡ self.old.map.book) }
        ensures began { IfOk result (λ keys. (keys.pairs.began ≡ self.old.history)
            × (keys.pairs.history ≡ self.new.history) × (keys.pairs.given ≡ [])) }
        ensures refused { IfErr result (λ refused. IsMemoryOrCapacity refused) }
        ensures crowded { result ≡ Err Refused.Capacity → HasNoRoom self.old.map.initial
            self.new.tables self.new.given }
    {
        Ok(Keys::of(self.iter(rt)?))
    }

    /// Returns an iterator over the values: `values` of 0.2.5.
    ///
    /// # Errors
    ///
    /// Fails with `Refused::Memory` or `Refused::Capacity`, as [`Session::iter`] does.
    pub fn values<R: Wait>(&mut self, rt: &R) -> Result<Values<'a, K, V, S>, Refused>
        ensures map { self.new.map ≡ self.old.map }
        ensures seen { IsPrefix self.old.history self.new.history }
        ensures tables { IsPrefix self.old.tables self.new.tables }
        ensures made { self.new.made ≡ self.old.made }
        ensures walk { IfOk result (λ values. values.pairs.book ≡ self.old.map.book) }
        ensures began { IfOk result (λ values. (values.pairs.began ≡ self.old.history)
            × (values.pairs.history ≡ self.new.history) × (values.pairs.given ≡ [])) }
        ensures refused { IfErr result (λ refused. IsMemoryOrCapacity refused) }
        ensures crowded { result ≡ Err Refused.Capacity → HasNoRoom self.old.map.initial
            self.new.tables self.new.given }
    {
        Ok(Values::of(self.iter(rt)?))
    }
}
