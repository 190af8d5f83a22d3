//! Iterators over the entries of a map.
ghost use Rattle.std.specs.Prelude.{◌≡◌, ◌<◌, ◌≤◌, ◌-◌, MatchOption, [], length};
ghost use Rattle.std.specs.Iterator.{at_most};
ghost use mathlib.Core.List.{IsPrefix};
ghost use Rattle.papaya_words.specs.Word.{kind_of};
ghost use Rattle.papaya_map_book.specs.Books.{IsLawfulLog};
ghost use Rattle.papaya_map_book.specs.Parts.{begun_of};
ghost use Rattle.papaya_map_book.specs.Windows.{IsLawful, Sees};
ghost use Rattle.papaya_map_lookup.specs.Drivers.{IsSlotAt, past};
ghost use Rattle.papaya_map_lookup.specs.History.{history_of};
ghost use Rattle.papaya_map_scan.specs.Meeting.{has_pair};
ghost use Rattle.papaya_map_scan.specs.TableScans.{IsTaken, IsTakenAt};
ghost use Rattle.papaya_map_scan.specs.Walked.{AreLast, ArePassed, Gives, GivesKey, GivesValue, HadEntry, IsLeft, IsPassed, IsRootOf, Walked, with_found};

use crate::yielded::Yielded;
use papaya_map_book::book::Book;
use papaya_map_book::book::gains::named_pair;
use papaya_map_book::book::kept::KeptRoot;
use papaya_map_book::cell::Cell;
use papaya_map_book::keyed::Keyed;
use papaya_map_book::rule::offer::Seen;
use papaya_map_book::table::Table;
use papaya_map_book::window::Window;
use papaya_map_lookup::near::{slots_of, word_of};
use papaya_words::word::{Kind, Word};
use std::hash::{BuildHasher, Hash};
use std::marker::Model;

/// An iterator over the entries of a map, slot by slot of the root that it took: `Iter` of 0.2.5.
/// It keeps the root's number, its slots, and how many of them were passed. Contracts see the book,
/// the history observed when the iteration began, the history observed by now, and what was
/// returned. It returns each entry that stays in the map while it goes on.
#[derive(Drop)]
pub struct Iter<'a, K: Hash + Eq, V, S: BuildHasher> {
    book: &'a Book<K, V, S>,
    kept: KeptRoot<'a, K, V, S>,
    began: Seen<K, V, S>,
    sight: Seen<K, V, S>,
    number: u64,
    slots: &'a [Cell<K, V, S>],
    at: usize,
    yielded: Yielded<K, V>,
}

impl<'a, K: Hash + Eq, V, S: BuildHasher> Model for Iter<'a, K, V, S> {
    ghost Value = { Walked K V };

    ghost view = { λ i. record {
      book = i.book.now.begun.book;
      began = history_of i.began.log;
      history = history_of i.sight.log;
      given = i.yielded.entries;
      left = length i.slots.now - i.at;
    } };

    ghost invariant = { λ i. (i.kept ≡ i.book.now.begun.book)
        × (i.sight.book ≡ i.book.now.begun.book)
        × IsLeft K.eq (begun_of i.book.now.parts) i.began.log i.sight.log i.number i.slots.now i.at
        i.yielded.entries };
}

impl<'a, K: Hash + Eq, V, S: BuildHasher> Iter<'a, K, V, S> {
    /// Creates an iterator over a root that was taken, from its first slot. `began` is the history
    /// observed before. A map's `iter` uses this; other callers do not need it.
    pub fn over(
        book: &'a Book<K, V, S>,
        kept: &KeptRoot<'a, K, V, S>,
        began: Seen<K, V, S>,
        sight: Seen<K, V, S>,
        root: Option<(u64, &'a Table<K, V, S>)>,
    ) -> Iter<'a, K, V, S>
        requires kept { kept.now ≡ book.now.begun.book }
        requires seen { sight.book ≡ book.now.begun.book }
        requires since { IsPrefix began.log sight.log }
        requires lawful { IsLawfulLog ⟦<S as Keyed<K>>⟧.keys book.now sight.log }
        requires root { IsRootOf (begun_of book.now.parts) began.log sight.log root }
        ensures book { result.book ≡ book.now.begun.book }
        ensures began { result.began ≡ history_of began.log }
        ensures history { result.history ≡ history_of sight.log }
        ensures given { result.given ≡ [] }
    {
        let (number, slots) = match root {
            Some((number, table)) => (number, slots_of(table)),
            None => (0, &[] as &[Cell<K, V, S>]),
        };
        Iter {
            book,
            kept: kept.again(),
            began,
            sight,
            number,
            slots,
            at: 0,
            yielded: Yielded::nothing(),
        }
    }

    /// Returns what the iteration has observed, so that a pass can learn it.
    pub fn seen(&self) -> Seen<K, V, S>
        ensures book { result.book ≡ self.now.book }
        ensures history { history_of result.log ≡ self.now.history }
    {
        self.sight.again()
    }

    /// Returns the same iterator, at the same slot.
    pub(crate) fn again(&self) -> Iter<'a, K, V, S>
        ensures { result ≡ self.now }
    {
        Iter {
            book: self.book,
            kept: self.kept.again(),
            began: self.began.again(),
            sight: self.sight.again(),
            number: self.number,
            slots: self.slots,
            at: self.at,
            yielded: self.yielded.again(),
        }
    }
}

/// Returns whether this word names a pair that the map has, or had until it was copied. Most other
/// words are those of empty slots, so that is checked first.
#[inline(always)]
fn names_pair(word: u64) -> bool
    ensures { result ≡ has_pair (kind_of word) }
{
    word != Word::EMPTY.0
        && match Word(word).kind() {
            Kind::Live | Kind::Marked | Kind::Copied => true,
            Kind::Empty | Kind::Buried | Kind::Closed => false,
        }
}

/// Loads the word of a slot, and returns the key and the value of its pair, if it names one.
#[inline(always)]
fn entry_at<'a, K: Hash + Eq, V, S: BuildHasher>(
    window: &mut Window<'a, K, V, S>,
    slot: &Cell<K, V, S>,
    number: u64,
    place: usize,
) -> Option<(&'a K, &'a V)>
    requires slot { IsSlotAt window.old number place slot.now }
    ensures sees { Sees window.old window.new }
    ensures lawful { IsLawful window.new }
    ensures had { (began : _) → IsTaken began window.old number → MatchOption result Unit
        (λ entry. HadEntry K.eq (history_of began) (past window.new) entry) }
    ensures passed { (began at : _) → IsTakenAt began window.old number at
        → IsPassed at window.new.sight.log number place result }
{
    let (word, offer) = word_of(window, slot, number, place);
    if !names_pair(word) {
        return None;
    }
    let book = window.book;
    Some(book.entry(book.pair(&named_pair(word, offer))))
}

/// Returns the next entry in the slots of a table from this place on, and the place after it.
#[inline(always)]
fn next_pair<'a, K: Hash + Eq, V, S: BuildHasher>(
    number: u64,
    slots: &'a [Cell<K, V, S>],
    from: usize,
    window: &mut Window<'a, K, V, S>,
) -> (usize, Option<(&'a K, &'a V)>)
    requires slots { AreLast window.old.sight.log number (length slots.now) slots.now }
    ensures sees { Sees window.old window.new }
    ensures lawful { MatchOption result.1 Unit (λ entry. IsLawful window.new) }
    ensures slots { AreLast window.new.sight.log number (length slots.now) slots.now }
    ensures fewer { length slots.now - result.0 ≤ length slots.now - from }
    ensures after { MatchOption result.1 Unit (λ entry.
        length slots.now - result.0 < length slots.now - from) }
    ensures had { (began : _) → (0 < length slots.now → IsTaken began window.old number)
        → MatchOption result.1 Unit (λ entry. HadEntry K.eq (history_of began) (past window.new)
        entry) }
    ensures passed { (began given : _)
        → ArePassed K.eq (begun_of window.old.book.now.parts) began window.old.sight.log number
        from (length slots.now) given
        → ArePassed K.eq (begun_of window.old.book.now.parts) began window.new.sight.log number
        result.0 (length slots.now) (with_found given result.1) }
    ensures over { MatchOption result.1 (length slots.now ≤ result.0) (λ entry. Unit) }
{
    let mut at = from;
    while at < slots.len() {
        let found = entry_at(window, &slots[at], number, at);
        at += 1;
        if found.is_some() {
            return (at, found);
        }
    }
    (at, None)
}

impl<'a, K: Hash + Eq, V, S: BuildHasher> Iterator for Iter<'a, K, V, S> {
    type Item = (&'a K, &'a V);

    ghost next_gives = { Gives K.eq };

    ghost remaining = { λ i. at_most i.left };

    /// It only loads words: it never waits, takes no lock and allocates nothing.
    #[inline(always)]
    fn next(&mut self) -> Option<(&'a K, &'a V)> {
        let mut window = Window::new(self.book, &self.kept, &self.sight);
        let (at, found) = next_pair(self.number, self.slots, self.at, &mut window);
        self.sight = window.sight;
        self.at = at;
        self.yielded = self.yielded.with(found);
        found
    }
}

/// An iterator over the keys of a map: `Keys` of 0.2.5.
#[derive(Drop)]
pub struct Keys<'a, K: Hash + Eq, V, S: BuildHasher> {
    pub(crate) pairs: Iter<'a, K, V, S>,
}

impl<'a, K: Hash + Eq, V, S: BuildHasher> Keys<'a, K, V, S> {
    /// Creates an iterator over the keys of these entries.
    pub fn of(pairs: Iter<'a, K, V, S>) -> Keys<'a, K, V, S>
        ensures { result.pairs ≡ pairs.entry }
    {
        Keys { pairs }
    }

    /// Returns an iterator over the same keys, at the same slot.
    pub fn again(&self) -> Keys<'a, K, V, S>
        ensures { result ≡ self.now }
    {
        Keys {
            pairs: self.pairs.again(),
        }
    }
}

impl<'a, K: Hash + Eq, V, S: BuildHasher> Iterator for Keys<'a, K, V, S> {
    type Item = &'a K;

    ghost next_gives = { λ s key t. GivesKey K.eq s.pairs key t.pairs };

    ghost remaining = { λ s. at_most s.pairs.left };

    #[inline(always)]
    fn next(&mut self) -> Option<&'a K> {
        match self.pairs.next() {
            Some((key, _)) => Some(key),
            None => None,
        }
    }
}

/// An iterator over the values of a map: `Values` of 0.2.5.
#[derive(Drop)]
pub struct Values<'a, K: Hash + Eq, V, S: BuildHasher> {
    pub(crate) pairs: Iter<'a, K, V, S>,
}

impl<'a, K: Hash + Eq, V, S: BuildHasher> Values<'a, K, V, S> {
    /// Creates an iterator over the values of these entries.
    pub fn of(pairs: Iter<'a, K, V, S>) -> Values<'a, K, V, S>
        ensures { result.pairs ≡ pairs.entry }
    {
        Values { pairs }
    }
}

impl<'a, K: Hash + Eq, V, S: BuildHasher> Iterator for Values<'a, K, V, S> {
    type Item = &'a V;

    ghost next_gives = { λ s value t. GivesValue K.eq s.pairs value t.pairs };

    ghost remaining = { λ s. at_most s.pairs.left };

    #[inline(always)]
    fn next(&mut self) -> Option<&'a V> {
        match self.pairs.next() {
            Some((_, value)) => Some(value),
            None => None,
        }
    }
}
