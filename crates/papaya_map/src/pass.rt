//! The pass, by which a map's calls record what they observed, and which changes they made.
//!
//! Only this module can read or write the list of a pass's changes, and no code outside of
//! `papaya_map_book` can copy such a list. A call takes it by [`Pass::window`], which leaves a list
//! that no contract names. [`Pass::keep`] puts it back, with the exchanges made through the window.
ghost use Rattle.std.specs.Prelude.{◌≡◌, []};
ghost use mathlib.Core.List.{IsPrefix};
ghost use Rattle.papaya_map_book.specs.Limits.{tables_of};
ghost use Rattle.papaya_map_book.specs.Logs.{state_of};
ghost use Rattle.papaya_map_book.specs.Windows.{IsLawful};
ghost use Rattle.papaya_map_lookup.specs.Drivers.{own, past};
ghost use Rattle.papaya_map_lookup.specs.History.{IsLegalHistory, Past, changes_by, history_of, key_of};

use crate::observed::{Observed, tell};
use papaya_map_book::book::Book;
use papaya_map_book::book::kept::KeptRoot;
use papaya_map_book::rule::entry::{Event, Named, Step};
use papaya_map_book::rule::law::Law;
use papaya_map_book::rule::offer::Seen;
use papaya_map_book::rule::own::{CapacityCause, OwnSteps};
use papaya_map_book::window::Window;
use papaya_map_scan::walk::Iter;
use std::hash::{BuildHasher, Hash};
use std::marker::Model;

/// The part of a map's history that a caller has observed, and the caller's own changes. 0.2.5 has
/// no such type. At run time it holds only a number, by which its calls pick a shard of the map's
/// count.
///
/// Each call by a pass takes effect after all that the pass had observed before. Afterwards the
/// pass has observed the call's own point in time. A call that changes the map makes one change by
/// its pass, and any other call makes none.
///
/// Contracts see the history, which is legal, the changes made by this pass, oldest first, and the
/// book of both. They see the number of slots of each table that the pass has observed, oldest
/// first. If its last change failed with `Refused::Capacity`, they see the number that a full arena
/// of tables gave. Or they see the sum of the map's count by which the table after one of those
/// would be too long. For a map with a limit on entries they see how many numbers were taken for
/// entries.
pub struct Pass<K: Hash + Eq, V, S: BuildHasher> {
    pub(crate) number: Option<u64>,
    pub(crate) sight: Seen<K, V, S>,
    own: OwnSteps<Step<K, V>>,
    pub(crate) given: OwnSteps<CapacityCause>,
}

impl<K: Hash + Eq, V, S: BuildHasher> Model for Pass<K, V, S> {
    ghost Value = { Past K V };

    ghost view = { λ p. record {
      book = p.sight.book;
      history = history_of p.sight.log;
      made = changes_by p.own.done;
      tables = tables_of p.sight.log;
      given = p.given.done;
      taken = (state_of p.sight.log).made;
    } };

    ghost invariant = { λ p. IsLegalHistory K.eq key_of (history_of p.sight.log) };
}

impl<K: Hash + Eq, V, S: BuildHasher> Drop for Pass<K, V, S> {
    #[inline(always)]
    fn drop(self) {
        let Self {
            number: _,
            sight: _,
            own: _,
            given: _,
        } = self;
    }
}

impl<K: Hash + Eq, V, S: BuildHasher> Pass<K, V, S> {
    /// Returns a new pass, which has made no change and has observed this.
    #[inline(always)]
    pub(crate) fn new(number: Option<u64>, sight: Seen<K, V, S>) -> Pass<K, V, S>
        requires { IsLegalHistory K.eq key_of (history_of sight.log) }
        ensures book { result.book ≡ sight.book }
        ensures history { result.history ≡ history_of sight.log }
        ensures made { result.made ≡ [] }
        ensures tables { result.tables ≡ tables_of sight.log }
        ensures given { result.given ≡ [] }
    {
        Pass {
            number,
            sight,
            own: OwnSteps::nothing(),
            given: OwnSteps::nothing(),
        }
    }

    /// For this library's own calls. Returns a result, with evidence of the history that the pass has
    /// observed, and with the changes made by it. A call that creates its own pass shows by this which history its result
    /// is of, and which changes it made: see [`Observed`].
    #[inline(always)]
    pub fn tell<B>(&self, answer: B) -> Observed<B, Event<K, V, S>, Named<K, V>, Law<K, V, S>>
        ensures answer { result.answer ≡ answer }
        ensures book { result.book ≡ self.now.book }
        ensures history { history_of result.log ≡ self.now.history }
        ensures legal { IsLegalHistory K.eq key_of (history_of result.log) }
        ensures made { history_of result.made ≡ self.now.made }
    {
        tell(answer, &self.sight, &self.own)
    }

    /// Adds what an iterator of the same map has observed to what the pass has observed. Does nothing
    /// at run time, and never fails.
    pub fn learn_walk(&mut self, walk: &Iter<'_, K, V, S>)
        requires { walk.now.book ≡ self.old.book }
        ensures book { self.new.book ≡ self.old.book }
        ensures seen { IsPrefix self.old.history self.new.history }
        ensures walked { IsPrefix walk.now.history self.new.history }
        ensures tables { IsPrefix self.old.tables self.new.tables }
        ensures made { self.new.made ≡ self.old.made }
        ensures given { self.new.given ≡ self.old.given }
    {
        self.sight.learn(&walk.seen());
    }

    /// Returns a window for a call by this pass, which has observed what the pass has. It takes the
    /// list of the pass's changes: no contract states what is left in its place.
    #[inline(always)]
    pub(crate) fn window<'a>(
        &mut self,
        book: &'a Book<K, V, S>,
        kept: &KeptRoot<'a, K, V, S>,
    ) -> Window<'a, K, V, S>
        requires kept { kept.now ≡ book.now.begun.book }
        requires seen { self.old.book ≡ book.now.begun.book }
        ensures book { result.book ≡ book.entry }
        ensures history { past result ≡ self.old.history }
        ensures made { own result ≡ self.old.made }
        ensures tables { tables_of result.sight.log ≡ self.old.tables }
        ensures rest { (self.new.book ≡ self.old.book) × (self.new.history ≡ self.old.history)
            × (self.new.tables ≡ self.old.tables) × (self.new.given ≡ self.old.given) }
    {
        Window::taking(book, kept, &self.sight, &mut self.own)
    }

    /// Takes over what a call observed and did through its window. Does nothing at run time.
    #[inline(always)]
    pub(crate) fn keep(&mut self, window: Window<'_, K, V, S>)
        requires { IsLawful window }
        ensures book { self.new.book ≡ window.entry.book.now.begun.book }
        ensures history { self.new.history ≡ past window.entry }
        ensures made { self.new.made ≡ own window.entry }
        ensures tables { self.new.tables ≡ tables_of window.entry.sight.log }
        ensures taken { self.new.taken ≡ (state_of window.entry.sight.log).made }
        ensures given { self.new.given ≡ self.old.given }
    {
        let (sight, own) = window.into_parts();
        self.sight = sight;
        self.own = own;
    }
}
