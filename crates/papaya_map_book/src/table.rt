//! Tables of atomic words.
ghost use Rattle.std.specs.Prelude.{◌≡◌, ◌<◌, ℕ, Some, length, map, slice_get};
ghost use Rattle.papaya_call.specs.Search.{IsSize};
ghost use Rattle.papaya_map_book.specs.Sheets.{Sheet, sheet_coded, AllOf, HoldHints, HoldsHint, word_named};

use crate::cell::{Cell, HintCell};
use crate::count::Count;
use crate::fresh::FreshSlots;
use crate::rule::offer::Seen;
use papaya_map_arena::brief::brief_lock;
use papaya_words::table::next_len;
use std::hash::{BuildHasher, Hash};
use std::marker::Model;
use std::sync::{Mutex, MutexGuard, Wait};

/// A table: the words of its slots, their hints, how far a search of it goes, and which chunks of
/// the previous table were copied to it. Contracts see it as the keys of its words. The maker of
/// its next table holds `making`, so that not each thread that needs one pays for it. Slots of that
/// table are written ahead while this one fills up; `ahead` has none once they were taken.
pub struct Table<K: Hash + Eq, V, S: BuildHasher> {
    pub limit: usize,
    pub next: Cell<K, V, S>,
    pub aborted: Cell<K, V, S>,
    pub done: Vec<Cell<K, V, S>>,
    pub slots: Vec<Cell<K, V, S>>,
    pub hints: Vec<HintCell<K, V, S>>,
    pub making: Mutex<()>,
    pub ahead: Mutex<Option<FreshSlots<K, V, S>>>,
}

impl<K: Hash + Eq, V, S: BuildHasher> Model for Table<K, V, S> {
    ghost Value = { Sheet };

    ghost coded = { sheet_coded };

    ghost view = { λ t. record {
      book = t.aborted.book;
      limit = t.limit;
      next = t.next.key;
      seal = t.aborted.key;
      done = map (λ w. w.key) t.done.items;
      slots = map (λ w. w.key) t.slots.items;
    } };

    ghost invariant = { λ t. (t.next ≡ word_named t.aborted.book t.next.key)
        × (t.aborted ≡ word_named t.aborted.book t.aborted.key)
        × AllOf t.aborted.book t.done.items × AllOf t.aborted.book t.slots.items
        × IsSize (length t.slots.items) t.limit
        × HoldHints t.aborted.book (map (λ w. w.key) t.slots.items) t.hints.items };
}

impl<K: Hash + Eq, V, S: BuildHasher> Drop for Table<K, V, S> {
    fn drop(self) {
        let Self {
            limit: _,
            next: _,
            aborted: _,
            done: _,
            slots: _,
            hints: _,
            making: _,
            ahead: _,
        } = self;
    }
}

impl<K: Hash + Eq, V, S: BuildHasher> Table<K, V, S> {
    /// Returns the number of slots.
    pub fn len(&self) -> usize
        ensures { result ≡ length self.now.slots }
    {
        self.slots.len()
    }

    /// Returns how many places a search looks at after the first.
    pub fn limit(&self) -> usize
        ensures { result ≡ self.now.limit }
    {
        self.limit
    }

    /// Returns the number of slots, and how many places a search looks at after the first.
    pub fn size(&self) -> (usize, usize)
        ensures len { result.0 ≡ length self.now.slots }
        ensures limit { result.1 ≡ self.now.limit }
        ensures size { IsSize result.0 result.1 }
    {
        (self.slots.len(), self.limit)
    }

    /// Returns the word of a slot.
    pub fn slot(&self, place: usize) -> &Cell<K, V, S>
        requires { place < length self.now.slots }
        ensures { (k : ℕ) × (slice_get self.now.slots place ≡ Some k)
            × (result.now ≡ word_named self.now.book k) }
    {
        &self.slots[place]
    }

    /// Returns the number that has the hint of a slot.
    #[inline(always)]
    pub fn hint(&self, place: usize) -> &HintCell<K, V, S>
        requires { place < length self.now.slots }
        ensures { HoldsHint self.now.book self.now.slots place result.now }
    {
        &self.hints[place / 8]
    }

    /// Returns the word with the number of the next table.
    pub fn next(&self) -> &Cell<K, V, S>
        ensures { result.now ≡ word_named self.now.book self.now.next }
    {
        &self.next
    }

    /// Waits until no other thread makes the next table, and keeps others waiting until the guard
    /// is dropped. No lookup takes it, and no contract relies on it.
    pub fn lock_next<R: Wait>(&self, rt: &R) -> MutexGuard<'_, ()> {
        self.making.lock(rt)
    }

    /// Writes some slots of the next table ahead, which is as long as the count now requires. It
    /// never waits: if another thread writes them, or they were taken, it writes none.
    #[cold]
    #[inline(never)]
    pub fn write_ahead(&self, sight: &Seen<K, V, S>, count: &Count) {
        // Maps seldom shrink, so no slots are written for a shorter table.
        let len = self.slots.len();
        let Ok(next) = next_len(len, count.sum(), len, false) else {
            return;
        };
        let Some(mut ahead) = self.ahead.try_lock() else {
            return;
        };
        let Some(room) = ahead.take() else {
            return;
        };
        *ahead = Some(room.with_more(next, sight));
    }

    /// Takes the slots of the next table that were written ahead. There are none while a thread
    /// writes some, since that one may be stopped: the caller then writes all of them, and waits
    /// for nobody.
    pub fn take_room(&self) -> Option<FreshSlots<K, V, S>> {
        let mut ahead = brief_lock(&self.ahead)?;
        ahead.take()
    }

    /// Returns the word that says whether the table was given up.
    pub fn aborted(&self) -> &Cell<K, V, S>
        ensures { result.now ≡ word_named self.now.book self.now.seal }
    {
        &self.aborted
    }

    /// Returns the word that says whether a chunk was copied to this table.
    pub fn done(&self, chunk: usize) -> &Cell<K, V, S>
        requires { chunk < length self.now.done }
        ensures { (k : ℕ) × (slice_get self.now.done chunk ≡ Some k)
            × (result.now ≡ word_named self.now.book k) }
    {
        &self.done[chunk]
    }
}
