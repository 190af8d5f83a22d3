//! The call of a session that reserves room.
ghost use Rattle.std.specs.Prelude.{◌≡◌, Err, IfErr, IfOk};
ghost use mathlib.Core.List.{IsPrefix};
ghost use Rattle.papaya_map_change.specs.Resizing.{HasNoRoomAhead, HasRoomAhead};
ghost use Rattle.papaya_map_change.specs.Writing.{IsMemoryOrCapacity};

use crate::session::Session;
use papaya_call::chain::resizer::Resize;
use papaya_map_change::driver::Means;
use papaya_map_change::resizing::resize;
use papaya_words::refused::Refused;
use std::hash::{BuildHasher, Hash};
use std::sync::Wait;

impl<'a, K: Hash + Eq, V, S: BuildHasher> Session<'a, K, V, S> {
    /// Reserves room for `additional` more entries: `reserve` of 0.2.5. If it succeeds, the session
    /// has observed a table with slots for them and for the entries that the map counts. If no
    /// other call changes the map meanwhile, this is the map's root table. Other calls are not
    /// blocked.
    ///
    /// # Errors
    ///
    /// Fails with `Refused::Memory` if an allocation fails. Fails with `Refused::Capacity` if the
    /// arena of tables is full, or a table would be longer than
    /// [`papaya_words::limits::MAX_TABLE_LEN`] slots: the one for these entries, or one that a copy
    /// needs. 0.2.5 aborts or panics there. The session makes no change, whether the call fails or
    /// not.
    pub fn reserve<R: Wait>(&mut self, rt: &R, additional: usize) -> Result<(), Refused>
        ensures map { self.new.map ≡ self.old.map }
        ensures seen { IsPrefix self.old.history self.new.history }
        ensures tables { IsPrefix self.old.tables self.new.tables }
        ensures made { self.new.made ≡ self.old.made }
        ensures room { IfOk result (λ _. HasRoomAhead additional self.new.tables self.new.given) }
        ensures refused { IfErr result (λ refused. IsMemoryOrCapacity refused) }
        ensures crowded { result ≡ Err Refused.Capacity → HasNoRoomAhead self.old.map.initial
            additional self.new.tables self.new.given }
    {
        let Session { map: pinned, pass } = self;
        let map = pinned.map;
        let shard = map.count.shard(pass.number);
        let means = Means {
            rt,
            alloc: map.alloc,
            initial: map.initial,
            shard: &shard,
        };
        let mut window = pinned.window(pass);
        let resize_to = Resize::Reserve(additional);
        let reserved = resize(&means, &mut window, &mut pass.given, resize_to);
        pass.keep(window);
        reserved
    }
}
