//! Lookups, which only load words atomically. The machine of a lookup exists in the proof alone:
//! the loaded words answer it.
ghost use Rattle.std.specs.Prelude.{◌≡◌, ◌<◌, ◌≤◌, MatchOption, Some};
ghost use mathlib.Core.List.{IsPrefix};
ghost use Rattle.papaya_call.specs.Search.{IsWithin};
ghost use Rattle.papaya_call.specs.declared.machine.State.TheVariants.{Searching};
ghost use Rattle.papaya_call.specs.declared.search.Search.TheVariants.{Looking, Reading};
ghost use Rattle.papaya_map_book.specs.Books.{IsLawfulLog};
ghost use Rattle.papaya_map_book.specs.Windows.{IsLawful, Observes};
ghost use Rattle.papaya_map_lookup.specs.Answers.{IsAnsweredBetween, IsHitAnsweredBetween};
ghost use Rattle.papaya_map_lookup.specs.Answers.{IsPairAnsweredBetween};
ghost use Rattle.papaya_map_lookup.specs.History.{history_of};
ghost use Rattle.papaya_map_lookup.specs.Drivers.{Hits, AdvancesTo, Reads, left_after, past};
ghost use Rattle.papaya_map_lookup.specs.Lookups.{left_of, hit_of};
ghost use Rattle.papaya_map_lookup.specs.declared.lookup.ProbeHit.TheVariants.{Next};

use crate::near::search_near;
use papaya_call::search::{Place, ProbeStep, Search};
use papaya_map_book::book::Book;
use papaya_map_book::book::gains::named_pair;
use papaya_map_book::keyed::{Asked, Hashed, Keyed};
use papaya_map_book::rule::entry::Stored;
use papaya_map_book::rule::offer::Seen;
use papaya_map_book::table::Table;
use papaya_map_book::window::Window;
use papaya_words::resize_mode::ResizeMode;
use papaya_words_keys::guard::Equivalent;
use std::hash::{BuildHasher, Hash, Hasher};

/// The place and word that a search has met, and the pair that the word names.
#[derive(Drop)]
pub struct Met<K, V> {
    pub place: Place,
    pub word: u64,
    pub stored: Stored<K, V>,
}

/// An entry that was found: its key and its value, and where the search met it. A caller that wants
/// only the entry pays nothing for the rest.
#[derive(Drop)]
pub struct Hit<'a, K: Hash + Eq, V, S: BuildHasher> {
    pub table: &'a Table<K, V, S>,
    pub met: Met<K, V>,
    pub key: &'a K,
    pub value: &'a V,
}

/// The end of a lookup's search: the pair that it found, if any.
#[derive(Drop)]
pub struct LookupEnd<'a, K: Hash + Eq, V, S: BuildHasher> {
    pub hit: Option<Hit<'a, K, V, S>>,
    /// Whether the search went on past the root, to a table to which pairs are moved.
    pub later: bool,
}

/// The outcome of one place of a search.
#[derive(Drop)]
enum ProbeHit<M, E> {
    /// The search looks at this place next.
    Next(Place),
    /// This entry has a matching key: where it was met, and its key and its value.
    Found(M, E),
    /// No entry has a matching key.
    Absent,
    /// The key is not in this table, but may be in the next.
    Over(u64),
}

/// Continues a search that has found no entry.
#[inline(always)]
fn without<M, E>(seen: ProbeStep) -> ProbeHit<M, E>
    ensures { result ≡ hit_of seen }
{
    match seen {
        ProbeStep::On(Search::Looking(at)) => ProbeHit::Next(at),
        ProbeStep::Over(table) => ProbeHit::Over(table),
        _ => ProbeHit::Absent,
    }
}

/// Loads the word at one place of a table, and compares the key of the pair that the word names, if
/// it names one.
#[inline(always)]
fn read_at<'a, K: Hash + Eq, V, S: BuildHasher, Q: Equivalent<K>>(
    window: &mut Window<'a, K, V, S>,
    key: &Q,
    table: &Table<K, V, S>,
    at: Place,
) -> ProbeHit<Met<K, V>, (&'a K, &'a V)>
    requires within { IsWithin at }
    requires reads { (hash : _) × Reads (⟦<S as Asked<K, Q>>⟧.query key.now) window.old hash
        (Searching (Reading at)) table.now }
    ensures sees { Observes window.old window.new }
    ensures leads { (hash : _) → AdvancesTo (⟦<S as Asked<K, Q>>⟧.query key.now) window.old window.new
        hash (Searching (Reading at)) table.now result }
    ensures fewer { left_after window.old result < left_of (Searching (Reading at)) }
{
    let (word, offer) = window.slot_word(table, at.table, at.probe.i);
    let seen = at.look(word);
    match seen {
        ProbeStep::On(Search::Comparing(..)) => {
            let book = window.book;
            let stored = named_pair(word, offer);
            let pair = book.pair(&stored);
            let (stored_key, value) = book.entry(pair);
            let same = key.equivalent(stored_key);
            let compared = Search::Comparing(at, word).at_yes(same);
            match compared {
                ProbeStep::Here(..) => {
                    let entry = (stored_key, value);
                    let met = Met {
                        place: at,
                        word,
                        stored,
                    };
                    ProbeHit::Found(met, entry)
                }
                _ => without(compared),
            }
        }
        _ => without(seen),
    }
}

/// Looks at one place of a table: loads its hint, and its word if the hint is 0 or the key's.
#[inline(always)]
fn probe_at<'a, K: Hash + Eq, V, S: BuildHasher, Q: Equivalent<K>>(
    window: &mut Window<'a, K, V, S>,
    key: &Q,
    hash: u64,
    table: &Table<K, V, S>,
    at: Place,
) -> ProbeHit<Met<K, V>, (&'a K, &'a V)>
    requires within { IsWithin at }
    requires reads { Reads (⟦<S as Asked<K, Q>>⟧.query key.now) window.old hash
        (Searching (Looking at)) table.now }
    ensures sees { Observes window.old window.new }
    ensures leads { AdvancesTo (⟦<S as Asked<K, Q>>⟧.query key.now) window.old window.new hash
        (Searching (Looking at)) table.now result }
    ensures fewer { left_after window.old result < left_of (Searching (Looking at)) }
{
    let hint = window.hint(table, at.table, at.probe.i);
    let seen = at.hinted(hash, hint);
    let ProbeStep::On(Search::Reading(_)) = seen else {
        return without(seen);
    };
    read_at(window, key, table, at)
}

/// Searches one table from this place on.
#[inline(always)]
fn search<'a, K: Hash + Eq, V, S: BuildHasher, Q: Equivalent<K>>(
    window: &mut Window<'a, K, V, S>,
    key: &Q,
    hash: u64,
    table: &Table<K, V, S>,
    at: Place,
) -> ProbeHit<Met<K, V>, (&'a K, &'a V)>
    requires within { IsWithin at }
    requires reads { Reads (⟦<S as Asked<K, Q>>⟧.query key.now) window.old hash
        (Searching (Looking at)) table.now }
    ensures sees { Observes window.old window.new }
    ensures leads { AdvancesTo (⟦<S as Asked<K, Q>>⟧.query key.now) window.old window.new hash
        (Searching (Looking at)) table.now result }
    ensures over { (at : _) → result ≡ Next at → ⊥ }
    ensures fewer { left_after window.old result ≤ left_of (Searching (Looking at)) }
{
    let mut place = at;
    loop {
        match probe_at(window, key, hash, table, place) {
            ProbeHit::Next(next) => place = next,
            turned => return turned,
        }
    }
}

/// Looks up the entry whose key matches `key`. Returns where it was met, and whether the search
/// went on past the root. It only loads words atomically: it never waits and allocates nothing.
///
/// The result is right for one of the map's histories between the last one that this window
/// observed before and the one that it has observed afterwards. It has the stored key and its
/// value. A removal continues from there.
#[inline(always)]
pub fn find<'a, K: Hash + Eq, V, S: BuildHasher, Q: Equivalent<K>>(
    window: &mut Window<'a, K, V, S>,
    key: &Q,
) -> LookupEnd<'a, K, V, S>
    ensures sees { Observes window.old window.new }
    ensures lawful { IsLawful window.new }
    ensures answered { IsHitAnsweredBetween K.eq (Q.matches key.now) (past window.old)
        (past window.new) result.hit }
    ensures hits { (hit : _) → result.hit ≡ Some hit → Hits (⟦<S as Asked<K, Q>>⟧.query key.now)
        window.old window.new hit }
{
    // The root is searched first, then each table to which pairs are moved from the one before: a
    // pair that left the earlier table is in the next. A search ends at the key's pair, at a slot
    // to which nothing was ever written, or at the probe limit. With `Blocking` nobody reads a next
    // table before it is the root. The result is the map's at one of these loads.
    window.learn();
    let hash = hash(&window.book.parts.hasher, key);
    let (root, first) = window.root();
    let (mut number, mut held) = (root, first);
    while let Some(table) = held {
        let later = number != root;
        let (len, limit) = table.size();
        let first = Place::first(hash, number, len, limit);
        match search(window, key, hash, table, first) {
            ProbeHit::Found(met, entry) => {
                let hit = Some(Hit {
                    table,
                    met,
                    key: entry.0,
                    value: entry.1,
                });
                return LookupEnd { hit, later };
            }
            ProbeHit::Over(passed) => match window.book.parts.mode {
                ResizeMode::Incremental(_) => {
                    let (next, table) = window.next(table, passed);
                    number = next;
                    held = table;
                }
                ResizeMode::Blocking => return LookupEnd { hit: None, later },
            },
            _ => return LookupEnd { hit: None, later },
        }
    }
    let later = number != root;
    LookupEnd { hit: None, later }
}

/// Looks up an entry whose key matches `key`, as [`find`] does. Returns only its key and value.
#[inline(always)]
pub fn look_up_pair<'a, K: Hash + Eq, V, S: BuildHasher, Q: Equivalent<K>>(
    window: &mut Window<'a, K, V, S>,
    key: &Q,
) -> Option<(&'a K, &'a V)>
    ensures sees { Observes window.old window.new }
    ensures lawful { IsLawful window.new }
    ensures answered { IsPairAnsweredBetween K.eq (Q.matches key.now) (past window.old)
        (past window.new) result }
{
    let LookupEnd { hit, later: _ } = find(window, key);
    match hit {
        Some(hit) => Some((hit.key, hit.value)),
        None => None,
    }
}

/// Returns the value of the entry whose key matches `key`, by the whole search from the present
/// root. It takes no window, so that its callers keep theirs in registers.
#[cold]
#[inline(never)]
fn restart_lookup<'a, K: Hash + Eq, V, S: BuildHasher, Q: Equivalent<K>>(
    book: &'a Book<K, V, S>,
    key: &Q,
    sight: &mut Seen<K, V, S>,
) -> Option<&'a V>
    requires { sight.old.book ≡ book.now.begun.book }
    ensures book { sight.new.book ≡ sight.old.book }
    ensures seen { IsPrefix sight.old.log sight.new.log }
    ensures lawful { IsLawfulLog ⟦<S as Keyed<K>>⟧.keys book.now sight.new.log }
    ensures answered { IsAnsweredBetween K.eq (Q.matches key.now) (history_of sight.old.log)
        (history_of sight.new.log) result }
{
    let kept = book.keep_root();
    let mut window = Window::new(book, &kept, sight);
    let found = look_up_pair(&mut window, key);
    *sight = window.sight;
    match found {
        Some((_, value)) => Some(value),
        None => None,
    }
}

/// Looks up the entry whose key matches `key`, as [`find`] does, and returns only its value.
#[inline(always)]
pub fn look_up<'a, K: Hash + Eq, V, S: BuildHasher, Q: Equivalent<K>>(
    window: &mut Window<'a, K, V, S>,
    key: &Q,
) -> Option<&'a V>
    ensures sees { Observes window.old window.new }
    ensures lawful { IsLawful window.new }
    ensures answered { IsAnsweredBetween K.eq (Q.matches key.now) (past window.old)
        (past window.new) result }
{
    match search_near(window, key) {
        Some(found) => found,
        None => {
            let mut sight = window.sight.again();
            let found = restart_lookup(window.book, key, &mut sight);
            window.sight = sight;
            found
        }
    }
}

/// Returns the hash of a value by which a key is looked up.
pub fn hash<S: BuildHasher, Q: Hash>(hasher: &S, key: &Q) -> u64
    ensures { result ≡ ⟦<S as Hashed<Q>>⟧.hash hasher.now key.now }
{
    let mut state = hasher.build_hasher();
    key.hash(&mut state);
    state.finish()
}
