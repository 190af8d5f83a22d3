//! `clear`: a `retain` that keeps no entry.
ghost use Rattle.std.specs.Prelude.{◌≡◌, IfErr, IsOk, OnOk, []};
ghost use Rattle.papaya_core_timeline.specs.Content.{content};
ghost use Rattle.papaya_seq.specs.Map.{Keeps, KeepsSlots, Unchanged, next_of};
ghost use Rattle.papaya_seq.specs.Resizes.{IsCopyCause};

use crate::seq::HashMap;
use papaya_words::refused::Refused;
use std::hash::{BuildHasher, Hash};

impl<K: Hash + Eq + Drop, V: Drop, S: BuildHasher> HashMap<K, V, S> {
    /// Removes all entries: `clear` of 0.2.5. The root keeps its slots, and the arena what it
    /// stores: no number is used again. A resize that is under way is finished first.
    ///
    /// # Errors
    ///
    /// Fails with `Refused::Memory` or `Refused::Capacity`, as [`HashMap::copy_all`] does, and then
    /// has removed no entry.
    pub fn clear(&mut self) -> Result<(), Refused>
        ensures ok { OnOk result (content K.eq self.new.store ≡ []) }
        ensures last { OnOk result (next_of self.new.store ≡ 0) }
        ensures err { IfErr result (λ e. IsCopyCause self.old e self.new
            × Unchanged K.eq self.old.store self.new.store) }
        ensures never { next_of self.old.store ≡ 0 → IsOk result }
        ensures slots { KeepsSlots self.old self.new }
        ensures keeps { Keeps self.old self.new }
    {
        self.retain(|_, _| false)
    }
}
