//! The search that most lookups make: a loop over the places of the root alone. It gives up if it
//! meets a copier's work, a pair whose value another pair brought, or the probe limit. Then the
//! whole search is made.
ghost use Rattle.std.specs.Prelude.{◌≡◌, ◌<◌, ◌%◌, IsTrue, MatchOption, map};
ghost use Rattle.papaya_words.specs.Word.{kind_of, may_hold};
ghost use Rattle.papaya_words.specs.declared.word.Kind.TheVariants.{Live};
ghost use Rattle.papaya_call.specs.Search.{IsWithin};
ghost use Rattle.papaya_call.specs.declared.machine.State.TheVariants.{Searching};
ghost use Rattle.papaya_call.specs.declared.search.Search.TheVariants.{Looking, Reading};
ghost use Rattle.papaya_map_book.specs.Sheets.{HoldHints, word_named};
ghost use Rattle.papaya_map_book.specs.Windows.{IsHint, IsLawful, IsSlotWord, Observes};
ghost use Rattle.papaya_map_lookup.specs.Answers.{IsAnsweredBetween};
ghost use Rattle.papaya_map_lookup.specs.Drivers.{HoldsHintAt, IsRootHit, IsReadingAt, IsSlotAt, Reads, past};
ghost use Rattle.papaya_map_lookup.specs.declared.near.RootHit.TheVariants.{On};

use crate::lookup::{Met, hash};
use papaya_call::ask::At;
use papaya_call::search::Place;
use papaya_map_book::book::gains::named_pair;
use papaya_map_book::cell::{Cell, HintCell, hint_in};
use papaya_map_book::keyed::Asked;
use papaya_map_book::rule::offer::Offer;
use papaya_map_book::rule::steps::Sought;
use papaya_map_book::table::Table;
use papaya_map_book::window::Window;
use papaya_words::word::{Kind, Word, hint};
use papaya_words_keys::guard::Equivalent;
use std::hash::{BuildHasher, Hash};

/// Returns the words of a table's slots. A loop over them keeps their address.
#[inline(always)]
pub fn slots_of<K: Hash + Eq, V, S: BuildHasher>(table: &Table<K, V, S>) -> &[Cell<K, V, S>]
    ensures { result.now ≡ map (word_named table.now.book) table.now.slots }
{
    table.slots.as_slice()
}

/// Returns the numbers with the hints of a table's slots, eight in each.
#[inline(always)]
fn hints_of<K: Hash + Eq, V, S: BuildHasher>(table: &Table<K, V, S>) -> &[HintCell<K, V, S>]
    ensures { HoldHints table.now.book table.now.slots result.now }
{
    table.hints.as_slice()
}

/// Loads the hint of a slot atomically, as [`Window::hint`] does.
#[inline(always)]
fn hint_of<K: Hash + Eq, V, S: BuildHasher>(
    window: &mut Window<'_, K, V, S>,
    hints: &HintCell<K, V, S>,
    number: u64,
    place: usize,
) -> u8
    requires hints { HoldsHintAt window.old number place hints.now }
    ensures sees { Observes window.old window.new }
    ensures hint { IsHint window.old window.new number place result }
{
    window.sight.learn(&window.book.begun);
    let found = hints.load(&mut window.sight);
    window.sight.learn(&window.book.begun);
    hint_in(found, place) as u8
}

/// Loads the word of a slot atomically, as [`Window::slot_word`] does.
#[inline(always)]
pub fn word_of<K: Hash + Eq, V, S: BuildHasher>(
    window: &mut Window<'_, K, V, S>,
    slot: &Cell<K, V, S>,
    number: u64,
    place: usize,
) -> (u64, Offer<K, V, S>)
    requires slot { IsSlotAt window.old number place slot.now }
    ensures sees { Observes window.old window.new }
    ensures slot { IsSlotWord window.old window.new number place result.0 result.1.state }
{
    window.sight.learn(&window.book.begun);
    let sought = Sought {
        at: At::Slot(number, place),
    };
    window.book.read(slot, &sought, &mut window.sight)
}

/// The outcome of one place of a search of the root.
#[derive(Drop)]
pub(crate) enum RootHit<M, E> {
    /// The key is not at this place.
    On,
    /// This entry has a matching key: where it was met, and its key and its value.
    Found(M, E),
    /// No entry has a matching key.
    Absent,
    /// A copier was there, or another pair brought the pair's value, so the whole search is needed.
    Aside,
}

/// Returns whether the word beside this hint must be loaded, as [`may_hold`] does. Most searches
/// that find their entry end with the first comparison.
#[inline(always)]
fn holds(found: u8, hash: u64) -> bool
    ensures { result ≡ may_hold found hash }
{
    found == hint(hash) || found == 0
}

/// Returns whether the word of a slot is `Live`. Bits 3 to 9 of such a word are zero, so its lowest
/// byte says it.
#[inline(always)]
fn is_live(word: u64) -> bool
    requires { word % 1024 < 8 }
    ensures { IsTrue result → kind_of word ≡ Live }
{
    word % 256 == 1
}

/// Loads the word of a slot, and compares the key of the pair that the word names, if it is `Live`.
#[inline(always)]
fn read_slot<'a, K: Hash + Eq, V, S: BuildHasher, Q: Equivalent<K>>(
    window: &mut Window<'a, K, V, S>,
    key: &Q,
    slot: &Cell<K, V, S>,
    at: Place,
) -> RootHit<Met<K, V>, (&'a K, &'a V)>
    requires within { IsWithin at }
    requires slot { IsSlotAt window.old at.table at.probe.i slot.now }
    ensures sees { Observes window.old window.new }
    ensures near { (began : _) (hash : _) (table : _)
        → IsReadingAt (⟦<S as Asked<K, Q>>⟧.query key.now) began window.old hash
        (Searching (Reading at)) table
        → IsRootHit (⟦<S as Asked<K, Q>>⟧.query key.now) began window.new hash table at result }
{
    let (word, offer) = word_of(window, slot, at.table, at.probe.i);
    if is_live(word) {
        let book = window.book;
        let stored = named_pair(word, offer);
        let pair = book.pair(&stored);
        let Some(entry) = book.near_entry(pair) else {
            return RootHit::Aside;
        };
        if !key.equivalent(entry.0) {
            return RootHit::On;
        }
        let met = Met {
            place: at,
            word,
            stored,
        };
        return RootHit::Found(met, entry);
    }
    match Word(word).kind() {
        Kind::Empty => RootHit::Absent,
        Kind::Buried | Kind::Closed => RootHit::On,
        Kind::Live | Kind::Marked | Kind::Copied => RootHit::Aside,
    }
}

/// Looks at one slot: loads its hint, and its word if the hint is 0 or the key's.
#[inline(always)]
fn probe_slot<'a, K: Hash + Eq, V, S: BuildHasher, Q: Equivalent<K>>(
    window: &mut Window<'a, K, V, S>,
    key: &Q,
    hash: u64,
    slot: &Cell<K, V, S>,
    hints: &HintCell<K, V, S>,
    at: Place,
) -> RootHit<Met<K, V>, (&'a K, &'a V)>
    requires within { IsWithin at }
    requires slot { IsSlotAt window.old at.table at.probe.i slot.now }
    requires hints { HoldsHintAt window.old at.table at.probe.i hints.now }
    ensures sees { Observes window.old window.new }
    ensures near { (began : _) (table : _)
        → IsReadingAt (⟦<S as Asked<K, Q>>⟧.query key.now) began window.old hash
        (Searching (Looking at)) table
        → IsRootHit (⟦<S as Asked<K, Q>>⟧.query key.now) began window.new hash table at result }
{
    let found = hint_of(window, hints, at.table, at.probe.i);
    if !holds(found, hash) {
        return RootHit::On;
    }
    read_slot(window, key, slot, at)
}

/// Looks at one place of a table, whose words and hints were taken.
#[inline(always)]
fn probe_place<'a, K: Hash + Eq, V, S: BuildHasher, Q: Equivalent<K>>(
    window: &mut Window<'a, K, V, S>,
    key: &Q,
    hash: u64,
    table: &Table<K, V, S>,
    slots: &[Cell<K, V, S>],
    hints: &[HintCell<K, V, S>],
    at: Place,
) -> RootHit<Met<K, V>, (&'a K, &'a V)>
    requires within { IsWithin at }
    requires slots { slots.now ≡ map (word_named table.now.book) table.now.slots }
    requires hints { HoldHints table.now.book table.now.slots hints.now }
    requires reads { Reads (⟦<S as Asked<K, Q>>⟧.query key.now) window.old hash
        (Searching (Looking at)) table.now }
    ensures sees { Observes window.old window.new }
    ensures near { (began : _) → IsReadingAt (⟦<S as Asked<K, Q>>⟧.query key.now) began window.old
        hash (Searching (Looking at)) table.now
        → IsRootHit (⟦<S as Asked<K, Q>>⟧.query key.now) began window.new hash table.now at result }
{
    let slot = &slots[at.probe.i];
    let beside = &hints[at.probe.i / 8];
    probe_slot(window, key, hash, slot, beside, at)
}

/// Searches a table from this place on, until it meets a copier's work or the probe limit.
#[inline(always)]
fn search_slots<'a, K: Hash + Eq, V, S: BuildHasher, Q: Equivalent<K>>(
    window: &mut Window<'a, K, V, S>,
    key: &Q,
    hash: u64,
    table: &Table<K, V, S>,
    slots: &[Cell<K, V, S>],
    hints: &[HintCell<K, V, S>],
    at: Place,
) -> RootHit<Met<K, V>, (&'a K, &'a V)>
    requires within { IsWithin at }
    requires limit { at.limit ≡ table.now.limit }
    requires slots { slots.now ≡ map (word_named table.now.book) table.now.slots }
    requires hints { HoldHints table.now.book table.now.slots hints.now }
    requires reads { Reads (⟦<S as Asked<K, Q>>⟧.query key.now) window.old hash
        (Searching (Looking at)) table.now }
    ensures sees { Observes window.old window.new }
    ensures ends { result ≡ On → ⊥ }
    ensures near { (began : _) → IsReadingAt (⟦<S as Asked<K, Q>>⟧.query key.now) began window.old
        hash (Searching (Looking at)) table.now
        → (last : _) × IsRootHit (⟦<S as Asked<K, Q>>⟧.query key.now) began window.new hash table.now
        last result }
{
    let mut place = at;
    loop {
        match probe_place(window, key, hash, table, slots, hints, place) {
            RootHit::On => {}
            turned => return turned,
        }
        if place.probe.len >= table.limit() {
            return RootHit::Aside;
        }
        place.probe.next(place.len - 1);
    }
}

/// Searches a table as [`search_slots`] does. Most searches end at their first place, which is
/// looked at before the loop.
#[inline(always)]
fn search_table<'a, K: Hash + Eq, V, S: BuildHasher, Q: Equivalent<K>>(
    window: &mut Window<'a, K, V, S>,
    key: &Q,
    hash: u64,
    table: &Table<K, V, S>,
    at: Place,
) -> RootHit<Met<K, V>, (&'a K, &'a V)>
    requires within { IsWithin at }
    requires limit { at.limit ≡ table.now.limit }
    requires reads { Reads (⟦<S as Asked<K, Q>>⟧.query key.now) window.old hash
        (Searching (Looking at)) table.now }
    ensures sees { Observes window.old window.new }
    ensures ends { result ≡ On → ⊥ }
    ensures near { (began : _) → IsReadingAt (⟦<S as Asked<K, Q>>⟧.query key.now) began window.old
        hash (Searching (Looking at)) table.now
        → (last : _) × IsRootHit (⟦<S as Asked<K, Q>>⟧.query key.now) began window.new hash table.now
        last result }
{
    let slots = slots_of(table);
    let hints = hints_of(table);
    match probe_place(window, key, hash, table, slots, hints, at) {
        RootHit::On => {}
        turned => return turned,
    }
    if at.probe.len >= table.limit() {
        return RootHit::Aside;
    }
    let mut next = at;
    next.probe.next(at.len - 1);
    search_slots(window, key, hash, table, slots, hints, next)
}

/// Returns the result of a lookup, or `None` if the root alone does not decide it.
#[inline(always)]
pub(crate) fn search_near<'a, K: Hash + Eq, V, S: BuildHasher, Q: Equivalent<K>>(
    window: &mut Window<'a, K, V, S>,
    key: &Q,
) -> Option<Option<&'a V>>
    ensures sees { Observes window.old window.new }
    ensures lawful { IsLawful window.new }
    ensures answered { MatchOption result (Unit {0}) (IsAnsweredBetween K.eq (Q.matches key.now)
        (past window.old) (past window.new)) }
{
    window.learn();
    let hash = hash(&window.book.parts.hasher, key);
    let (number, held) = window.root();
    let Some(table) = held else {
        return None;
    };
    let (len, limit) = table.size();
    let first = Place::first(hash, number, len, limit);
    match search_table(window, key, hash, table, first) {
        RootHit::Found(_met, entry) => Some(Some(entry.1)),
        RootHit::Absent => Some(None),
        _ => {
            window.learn();
            None
        }
    }
}
