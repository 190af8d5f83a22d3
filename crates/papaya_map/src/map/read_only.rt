//! The read-only map: its lookups, and the conversions from and to the shared map.
ghost use Rattle.std.specs.Prelude.{◌≡◌, filter};
ghost use Rattle.std.specs.Int.{IsPowerOfTwo};
ghost use mathlib.Core.List.{IsPrefix};
ghost use Rattle.papaya_gate.specs.Eras.{IsOnly, own_of};
ghost use Rattle.papaya_map_book.specs.Changes.{is_change};
ghost use Rattle.papaya_map_book.specs.Limits.{tables_of};
ghost use Rattle.papaya_map_book.specs.Parts.{begun_of};
ghost use Rattle.papaya_map_lookup.specs.History.{IsLegalHistory, history_of, key_of};
ghost use Rattle.papaya_map.specs.Fixed.{HasLearned};
ghost use Rattle.papaya_map.specs.Frozen.{FindsEntry, FindsKey, FindsValue, Frozen};
ghost use Rattle.papaya_map.specs.Powers.{IsPowerOfTwo-prop};

pub mod walks;

use crate::map::HashMap;
use papaya_gate::gate::Writer;
use papaya_gate::rule::align;
use papaya_map_book::book::Book;
use papaya_map_book::count::Count;
use papaya_map_book::rule::entry::Event;
use papaya_map_book::rule::offer::Seen;
use papaya_map_book::window::Window;
use papaya_map_lookup::lookup::{look_up, look_up_pair};
use papaya_words_keys::guard::{Collector, Equivalent};
use std::alloc::Global;
use std::hash::{BuildHasher, BuildHasherDefault, FoldHasher, Hash};
use std::marker::Model;

/// A map that can only be read. [`HashMap::into_read_only`] returns it, and [`ReadOnly::into_map`]
/// returns the map that threads change. Any number of threads can read it at once through a `&`,
/// without a session, a pin or a guard. 0.2.5 has no such type.
///
/// No call can change the map, so each result is exact. It is correct for the map's whole history,
/// and not only for some state in between.
///
/// Contracts see what is fixed when the map is created, and the map's whole history.
pub struct ReadOnly<K: Hash + Eq, V, S: BuildHasher = BuildHasherDefault<FoldHasher>> {
    alloc: Global,
    initial: usize,
    count: Count,
    collector: Collector,
    book: Book<K, V, S>,
    opened: Seen<K, V, S>,
    sight: Seen<K, V, S>,
    writer: Writer<Event<K, V, S>>,
    ghost power: { IsPowerOfTwo initial } by { IsPowerOfTwo-prop initial },
    ghost opened_book: { opened.book ≡ book.begun.book },
    ghost sight_book: { sight.book ≡ book.begun.book },
}

impl<K: Hash + Eq, V, S: BuildHasher> Model for ReadOnly<K, V, S> {
    ghost Value = { Frozen K V S };

    ghost view = { λ m. record {
      map = record {
        book = m.book.begun.book;
        begun = begun_of m.book.parts;
        initial = m.initial;
        shards = m.count;
        collector = m.collector;
        opened = tables_of m.opened.log;
        seen = history_of m.opened.log;
      };
      history = history_of m.sight.log;
    } };

    ghost invariant = { λ m. IsOnly m.book.gate.era m.writer.author
        × (own_of m.writer.author ≡ filter is_change m.sight.log)
        × IsPrefix m.opened.log m.sight.log
        × IsLegalHistory K.eq key_of (history_of m.sight.log) };
}

impl<K: Hash + Eq + Drop, V: Drop, S: BuildHasher + Drop> Drop for ReadOnly<K, V, S> {
    fn drop(self) {
        let Self {
            alloc: _,
            initial: _,
            count: _,
            collector: _,
            book: _,
            opened: _,
            sight: _,
            writer: _,
        } = self;
    }
}

impl<K: Hash + Eq, V, S: BuildHasher> HashMap<K, V, S> {
    /// Returns the map as one that can only be read. The map is passed in by value, so no other
    /// thread can still change it: the result's history has every change that was ever made to the
    /// map. The call copies and allocates nothing. 0.2.5 has no such call.
    ///
    /// # Examples
    ///
    /// ```
    /// map.pin().insert(rt, 1, 10)?;
    /// let fixed = map.into_read_only();
    /// let value = fixed.get(&1); // Some(&10)
    /// let absent = fixed.get(&2); // None
    /// ```
    pub fn into_read_only(self) -> ReadOnly<K, V, S>
        ensures map { result.map ≡ self }
        ensures seen { IsPrefix self.seen result.history }
        ensures legal { IsLegalHistory K.eq key_of result.history }
    {
        let HashMap {
            alloc,
            initial,
            count,
            collector,
            mut book,
            opened,
        } = self;
        let mut sight = opened.again();
        align(&mut sight, &book.begun);
        let writer = book.gate.freeze(&mut sight);
        sight.learn(&book.begun);
        let mut all = sight.again();
        book.gate.whole(&writer, &mut all);
        ReadOnly {
            alloc,
            initial,
            count,
            collector,
            book,
            opened,
            sight: all,
            writer,
        }
    }
}

impl<K: Hash + Eq, V, S: BuildHasher> ReadOnly<K, V, S> {
    /// Returns the map as one that threads can change. It has observed the whole history, so each
    /// later pin has as well. The call copies and allocates nothing.
    ///
    /// # Examples
    ///
    /// ```
    /// map.pin().insert(rt, 1, 10)?;
    /// let fixed = map.into_read_only();
    /// let map = fixed.into_map();
    /// let old = map.pin().insert(rt, 1, 11)?; // Some(&10)
    /// ```
    pub fn into_map(self) -> HashMap<K, V, S>
        ensures same { HasLearned self.map result }
        ensures seen { result.seen ≡ self.history }
    {
        let ReadOnly {
            alloc,
            initial,
            count,
            collector,
            mut book,
            opened: _,
            mut sight,
            writer: _,
        } = self;
        align(&mut sight, &book.begun);
        book.gate.thaw(&sight);
        HashMap {
            alloc,
            initial,
            count,
            collector,
            book,
            opened: sight,
        }
    }

    /// Observes the whole history. Does nothing at run time.
    #[inline(always)]
    fn see_all(&self, sight: &mut Seen<K, V, S>)
        requires { sight.old.book ≡ self.now.map.book }
        ensures book { sight.new.book ≡ sight.old.book }
        ensures seen { IsPrefix sight.old.log sight.new.log }
        ensures all { history_of sight.new.log ≡ self.now.history }
    {
        align(sight, &self.book.begun);
        self.book.gate.whole(&self.writer, sight);
    }

    /// Returns the key's value, or `None` if the map has no entry of the key. It only loads words:
    /// it waits for no thread, takes no lock and allocates nothing.
    #[inline]
    pub fn get<Q: Equivalent<K>>(&self, key: &Q) -> Option<&V>
        ensures { FindsValue K.eq self.now.history (Q.matches key.now) result }
    {
        let kept = self.book.keep_root();
        let mut window = Window::new(&self.book, &kept, &self.sight);
        let found = look_up(&mut window, key);
        self.see_all(&mut window.sight);
        found
    }

    /// Returns the stored key and its value, or `None` if the map has no entry of the key. As
    /// [`ReadOnly::get`], it never waits, locks or allocates.
    #[inline]
    pub fn get_key_value<Q: Equivalent<K>>(&self, key: &Q) -> Option<(&K, &V)>
        ensures { FindsEntry K.eq self.now.history (Q.matches key.now) result }
    {
        let kept = self.book.keep_root();
        let mut window = Window::new(&self.book, &kept, &self.sight);
        let found = look_up_pair(&mut window, key);
        self.see_all(&mut window.sight);
        found
    }

    /// Returns whether the map has an entry of the key. As [`ReadOnly::get`], it never waits, locks
    /// or allocates.
    #[inline]
    pub fn contains_key<Q: Equivalent<K>>(&self, key: &Q) -> bool
        ensures { FindsKey K.eq self.now.history (Q.matches key.now) result }
    {
        self.get(key).is_some()
    }

    /// Returns the number of entries, as [`HashMap::len`] counts them. Each call counted its change
    /// before it returned, so the number is exact. Tests cover this, and no contract states it.
    pub fn len(&self) -> usize {
        self.count.sum()
    }

    /// Returns whether [`ReadOnly::len`] is 0.
    pub fn is_empty(&self) -> bool {
        self.len() == 0
    }
}
