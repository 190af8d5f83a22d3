//! Calls that resize the map: their machine, answered by the words of the tables.
ghost use Rattle.std.specs.Prelude.{◌≡◌, ◌≢◌, Err, IfErr, Ok, OnOk};
ghost use Rattle.papaya_words_keys.specs.Sizes.{IsTooMuch};
ghost use Rattle.papaya_words_keys.specs.Hashes.{hash_of};
ghost use Rattle.papaya_seq.specs.MadeAlone.{IsDoneAlone, IsResizedAlone};
ghost use Rattle.papaya_seq.specs.Map.{Keeps, Unchanged, next_of};
ghost use Rattle.papaya_seq.specs.Resizes.{HasRoomAlready, HasRoomFor, IsCopyCause, IsPastLimit};
ghost use Rattle.papaya_seq.specs.Resizes.{IsReserveCause, IsResizeRefusal, IsResizedTo, IsRoomThere, pairs_with};

use crate::chunk::copy_for_resizer;
use crate::seq::HashMap;
use papaya_call::ask::At;
use papaya_call::call::Call;
use papaya_call::chain::resizer::{Resize, Resizer, ResizerState};
use papaya_core_store::store::Store;
use papaya_words::refused::Refused;
use std::hash::{BuildHasher, Hash};

impl<K: Hash + Eq + Drop, V: Drop, S: BuildHasher> HashMap<K, V, S> {
    /// Resizes the map as requested. No entry of it changes. No call requests a single chunk.
    fn resize_by(&mut self, resize: Resize) -> Result<(), Refused>
        requires { resize ≢ Resize.Chunk }
        ensures done { OnOk result (IsResizedTo K.eq resize self.old.store self.new.store) }
        ensures err { IfErr result (λ e. IsResizeRefusal K.eq resize self.old e self.new) }
        ensures too_much { IsPastLimit K.eq resize self.old.store
            → (result ≡ Err Refused.Capacity) × (self.new ≡ self.old) }
        ensures there { IsRoomThere K.eq resize self.old.store
            → (result ≡ Ok tt) × (self.new ≡ self.old) }
        ensures map { Unchanged K.eq self.old.store self.new.store }
        ensures alone { IsResizedAlone K.eq
            (hash_of K.hash_input S.build_hasher S.Hasher.write S.Hasher.finish) resize
            self.old result self.new }
        ensures words { self.new.store ≡ record self.old.store { words = self.new.store.words } }
        ensures keeps { Keeps self.old self.new }
    {
        // This read gives the proof that the count fits in 64 bits.
        let _count = self.store.count();
        let number = copies_from(&self.store);
        let mut resizer = Resizer::new(resize, self.mode.resize, self.initial, number);
        while let Some(ask) = resizer.ask() {
            let answer = self.store.perform_copy(self.alloc, ask, false);
            resizer.answer(answer);
            copy_for_resizer(&mut self.store, &mut resizer);
        }
        match resizer.state {
            ResizerState::Refused(refused) => Err(refused),
            _ => Ok(()),
        }
    }

    /// Makes room for this many more entries: `reserve` of 0.2.5. No entry of the map changes.
    ///
    /// If the root has too few slots, the resize that is under way is finished, and then all
    /// entries are moved to a next table, in either mode. If it has enough slots nothing is done.
    ///
    /// # Errors
    ///
    /// Fails with `Refused::Capacity` if no table of at most
    /// [`papaya_words::limits::MAX_TABLE_LEN`] slots has room for the entries. The map is then as
    /// it was. Otherwise fails with `Refused::Memory` or `Refused::Capacity`, as an
    /// [`HashMap::insert`] that needs a next table does. Moved entries then stay moved.
    pub fn reserve(&mut self, additional: usize) -> Result<(), Refused>
        ensures ok { OnOk result (HasRoomFor K.eq self.old.store additional self.new.store) }
        ensures err { IfErr result (λ e. IsReserveCause K.eq self.old additional e self.new) }
        ensures too_much { IsTooMuch (pairs_with K.eq self.old.store additional)
            → (result ≡ Err Refused.Capacity) × (self.new ≡ self.old) }
        ensures there { HasRoomAlready K.eq self.old.store additional
            → (result ≡ Ok tt) × (self.new ≡ self.old) }
        ensures map { Unchanged K.eq self.old.store self.new.store }
        ensures alone { IsDoneAlone K.eq
            (hash_of K.hash_input S.build_hasher S.Hasher.write S.Hasher.finish) self.old
            (Call.Reserve additional) result self.new }
        ensures words { self.new.store ≡ record self.old.store { words = self.new.store.words } }
        ensures keeps { Keeps self.old self.new }
    {
        self.resize_by(Resize::Reserve(additional))
    }

    /// Finishes the resize that is under way: all entries are moved to the next table. Without a
    /// resize it does nothing and never fails. No entry of the map changes.
    ///
    /// # Errors
    ///
    /// Fails with `Refused::Memory` or `Refused::Capacity`, as an [`HashMap::insert`] that needs a
    /// next table does. Moved entries then stay moved.
    pub fn copy_all(&mut self) -> Result<(), Refused>
        ensures ok { OnOk result (next_of self.new.store ≡ 0) }
        ensures err { IfErr result (λ e. IsCopyCause self.old e self.new) }
        ensures map { Unchanged K.eq self.old.store self.new.store }
        ensures alone { IsDoneAlone K.eq
            (hash_of K.hash_input S.build_hasher S.Hasher.write S.Hasher.finish) self.old
            Call.CopyAll result self.new }
        ensures keeps { Keeps self.old self.new }
    {
        self.resize_by(Resize::CopyAll)
    }
}

/// Returns the number of a call: the chunk at which its copies to the table after the root begin.
/// Another number is right too, but then it loads the words of chunks that are already copied.
#[inline]
pub(crate) fn copies_from<K: Hash + Eq, V, S: BuildHasher>(store: &Store<K, V, S>) -> u64 {
    let root = store.word(At::Root);
    store.begin(store.word(At::Next(root))) as u64
}
