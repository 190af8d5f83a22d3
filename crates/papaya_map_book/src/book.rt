//! The book of a map: its own words, and what the steps on words share.
ghost use Rattle.std.specs.Prelude.{◌≡◌, [], ◌∷◌, None, Some};
ghost use mathlib.Core.List.{IsPrefix};
ghost use Rattle.papaya_words.specs.Mode.{IsChunked};
ghost use Rattle.papaya_map_book.specs.Modes.{IsChunked-prop};
ghost use Rattle.papaya_map_book.specs.Logs.{first_in, key_at, name_in, steps_of};
ghost use Rattle.papaya_map_book.specs.Parts.{begun_of};
ghost use Rattle.papaya_map_book.specs.Sheets.{word_named};
ghost use Rattle.papaya_map_book.specs.declared.rule.entry.Event.TheVariants.{Begin};
ghost use Rattle.papaya_map_book.specs.declared.rule.entry.Named.TheVariants.{Pair as PairNamed};

pub mod gains;
pub mod kept;
pub mod layer;
pub mod maker;
pub mod opening;
pub mod pairs;
pub mod parts;

use crate::book::parts::Parts;
use crate::cell::Cell;
use crate::keyed::Keyed;
use crate::rule::law::Found;
use crate::rule::offer;
use crate::rule::offer::{Offer, Seen};
use crate::rule::steps::{LoadStep, PutWish, Sought, Try, Wish};
use crate::rule::token::token;
use crate::table::Table;
use papaya_call::ask::At;
use papaya_gate::gate::{Gate, Writer};
use papaya_gate::rule::align;
use papaya_gate::steps::{load, paid, unpaid};
use papaya_map_arena::token::witness;
use std::hash::{BuildHasher, Hash};

/// The state that all callers of a map share: its parts, the root, the word that only makers of
/// tables use, and the word that counts numbers for pairs. `origin` has observed the first entry of
/// the log alone, and `begun` also the book's name. While the gate is open, anyone may change the map;
/// when it is closed, nobody does, and all else goes on.
pub struct Book<K: Hash + Eq, V, S: BuildHasher> {
    pub parts: Parts<K, V, S>,
    pub root: Cell<K, V, S>,
    pub maker: Cell<K, V, S>,
    pub made: Cell<K, V, S>,
    pub begun: Seen<K, V, S>,
    pub origin: Seen<K, V, S>,
    pub gate: Gate,
    ghost chunked: { IsChunked parts.mode } by { IsChunked-prop parts.mode },
    ghost root_is: { root ≡ word_named begun.book 0 },
    ghost maker_is: { maker ≡ word_named begun.book 1 },
    ghost made_is: { made ≡ word_named begun.book 2 },
    ghost begins: { first_in begun.log ≡ Some (Begin (begun_of parts)) },
    ghost called: { name_in begun.log ≡ Some begun.book },
    ghost gate_is: { gate.names ≡ begun.names },
    ghost origin_book: { origin.book ≡ begun.book },
    ghost origin_log: { origin.log ≡ Begin (begun_of parts) ∷ [] },
}

impl<K: Hash + Eq + Drop, V: Drop, S: BuildHasher + Drop> Drop for Book<K, V, S> {
    fn drop(self) {
        let Self {
            parts: _,
            root: _,
            maker: _,
            made: _,
            begun: _,
            origin: _,
            gate: _,
        } = self;
    }
}

impl<K: Hash + Eq, V, S: BuildHasher> Book<K, V, S> {
    ghost use Rattle.papaya_map_book.specs.Books.{CanPut, CanTry, IsIn, IsRead, IsRoot, Puts, Tries};
    ghost use Rattle.papaya_map_book.specs.Changes.{ChangesNothing};

    /// Loads the word, in one atomic step. The offer gains what the word names.
    pub fn read(
        &self,
        word: &Cell<K, V, S>,
        sought: &Sought,
        sight: &mut Seen<K, V, S>,
    ) -> (u64, Offer<K, V, S>)
        requires book { sight.old.book ≡ self.now.begun.book }
        requires word { word.now ≡ word_named self.now.begun.book word.now.key }
        requires key { key_at (steps_of sight.old.log) sought.now.at ≡ Some word.now.key }
        ensures book { sight.new.book ≡ sight.old.book }
        ensures seen { IsPrefix sight.old.log sight.new.log }
        ensures read { IsRead ⟦<S as Keyed<K>>⟧.keys self.now sought.now.at result.0 sight.new.log
            result.1.state }
    {
        sight.learn(&self.begun);
        let mut offer = offer::bare::<K, V, S, Sought, LoadStep>(sight, sought);
        let found = load::<_, _, _, LoadStep, Found<K, V>>(word, sight, &mut offer);
        (found, offer)
    }

    /// Exchanges a word for a call or a copy, without passing anything in; returns the word found.
    /// The exchange changes nothing of the map.
    pub(crate) fn exchange(
        &self,
        word: &Cell<K, V, S>,
        wish: &Wish<K, V>,
        old: u64,
        new: u64,
        sight: &mut Seen<K, V, S>,
    ) -> (u64, Offer<K, V, S>)
        requires book { sight.old.book ≡ self.now.begun.book }
        requires word { word.now ≡ word_named self.now.begun.book word.now.key }
        requires key { key_at (steps_of sight.old.log) wish.now.at ≡ Some word.now.key }
        requires leaves { ChangesNothing wish.now.at wish.now.kind }
        requires can { CanTry ⟦<S as Keyed<K>>⟧.keys self.now wish.now old new sight.old.log }
        ensures book { sight.new.book ≡ sight.old.book }
        ensures seen { IsPrefix sight.old.log sight.new.log }
        ensures tried { Tries ⟦<S as Keyed<K>>⟧.keys self.now wish.now old new sight.old.log
            result.0 sight.new.log result.1.state }
    {
        sight.learn(&self.begun);
        let mut offer = offer::bare::<K, V, S, Wish<K, V>, Try>(sight, wish);
        let mut pen = sight.no_pen();
        let found = unpaid::<_, _, _, Try, Found<K, V>>(
            word, old, new, sight, &mut offer, &mut pen,
        );
        (found, offer)
    }

    /// Exchanges a word without passing anything in; returns the word found. The exchange may remove
    /// a pair, so it pays with the gate.
    pub(crate) fn remove(
        &self,
        word: &Cell<K, V, S>,
        wish: &Wish<K, V>,
        old: u64,
        new: u64,
        sight: &mut Seen<K, V, S>,
    ) -> (u64, Offer<K, V, S>)
        requires book { sight.old.book ≡ self.now.begun.book }
        requires open { self.now.gate.era ≡ None }
        requires word { word.now ≡ word_named self.now.begun.book word.now.key }
        requires key { key_at (steps_of sight.old.log) wish.now.at ≡ Some word.now.key }
        requires can { CanTry ⟦<S as Keyed<K>>⟧.keys self.now wish.now old new sight.old.log }
        ensures book { sight.new.book ≡ sight.old.book }
        ensures seen { IsPrefix sight.old.log sight.new.log }
        ensures tried { Tries ⟦<S as Keyed<K>>⟧.keys self.now wish.now old new sight.old.log
            result.0 sight.new.log result.1.state }
    {
        sight.learn(&self.begun);
        align(sight, &self.begun);
        let mut offer = offer::bare::<K, V, S, Wish<K, V>, Try>(sight, wish);
        let mut writer = Writer::nobody();
        let found = paid::<_, _, _, Try, Found<K, V>>(
            &self.gate,
            &mut writer,
            word,
            sight,
            &mut offer,
            old,
            new,
        );
        (found, offer)
    }

    /// Exchanges a word for one that names the pair that the call has made; returns the word found.
    /// It pays with the gate.
    pub(crate) fn put(
        &self,
        word: &Cell<K, V, S>,
        wish: &PutWish<K, V>,
        old: u64,
        new: u64,
        sight: &mut Seen<K, V, S>,
    ) -> (u64, Offer<K, V, S>)
        requires book { sight.old.book ≡ self.now.begun.book }
        requires open { self.now.gate.era ≡ None }
        requires word { word.now ≡ word_named self.now.begun.book word.now.key }
        requires key { key_at (steps_of sight.old.log) wish.now.at ≡ Some word.now.key }
        requires placed { IsIn self.now (PairNamed wish.now.made.now) }
        requires can { CanPut ⟦<S as Keyed<K>>⟧.keys self.now wish.now old new sight.old.log }
        ensures book { sight.new.book ≡ sight.old.book }
        ensures seen { IsPrefix sight.old.log sight.new.log }
        ensures tried { Puts ⟦<S as Keyed<K>>⟧.keys self.now wish.now old new sight.old.log result.0
            sight.new.log result.1.state }
    {
        sight.learn(&self.begun);
        align(sight, &self.begun);
        let mut offer = offer::with_pair::<K, V, S, PutWish<K, V>, Try>(
            sight,
            wish,
            witness(wish.made),
        );
        let mut writer = Writer::nobody();
        let found = paid::<_, _, _, Try, Found<K, V>>(
            &self.gate,
            &mut writer,
            word,
            sight,
            &mut offer,
            old,
            new,
        );
        (found, offer)
    }

    /// Loads the root in one atomic step; returns its number and its table, whose token it gains.
    pub(crate) fn root<'a>(&'a self, sight: &mut Seen<K, V, S>) -> (u64, Option<&'a Table<K, V, S>>)
        requires book { sight.old.book ≡ self.now.begun.book }
        ensures book { sight.new.book ≡ sight.old.book }
        ensures seen { IsPrefix sight.old.log sight.new.log }
        ensures root { IsRoot ⟦<S as Keyed<K>>⟧.keys self.now result.0 sight.new.log result.1 }
    {
        sight.learn(&self.begun);
        let sought = Sought { at: At::Root };
        let (found, offer) = self.read(&self.root, &sought, sight);
        if found == 0 {
            return (0, None);
        }
        let known = offer::table_known(offer.into_gain());
        let token = token(known, (found - 1) as usize);
        (found, Some(self.parts.tables.value(&token)))
    }
}
