//! The search of one table for a key, by the table's words: one loop for every call.
ghost use Rattle.std.specs.Prelude.{◌≡◌, ◌+◌, ◌<◌, ℕ, None, Some, length};
ghost use Rattle.papaya_call.specs.Search.{IsSize, IsWithin};
ghost use Rattle.papaya_core_store.specs.Tables.{table_of};
ghost use Rattle.papaya_seq.specs.Searches.{IsPassed, IsReadHit, IsRootHit, IsThere, IsProbeHit, HasStopped};
ghost use Rattle.papaya_seq.specs.Searches.{left_at, left_to, seen_by};
ghost use Rattle.papaya_seq.specs.declared.search.ProbeHit.TheVariants.{Next};

use crate::lookup::matches;
use papaya_call::ask::At;
use papaya_call::search::{Place, ProbeStep, Search};
use papaya_core_store::store::Store;
use papaya_words::word::Word;
use papaya_words_keys::guard::Equivalent;
use std::hash::{BuildHasher, Hash};

/// The outcome of one place of a search.
#[derive(Clone, Copy)]
pub(crate) enum ProbeHit {
    /// The search looks at this place next.
    Next(Place),
    /// Nothing was ever written at this place, so the key is not here.
    Empty(Place),
    /// The word at this place names a pair with a matching key.
    Here(Place, u64),
    /// The key is not in this table, but may be in the next.
    Over(u64),
}

/// Returns the outcome of a step that leaves no word to load and no key to compare.
#[inline(always)]
fn hit_of(seen: ProbeStep) -> ProbeHit
    requires { HasStopped seen }
    ensures { seen_by result ≡ seen }
{
    match seen {
        ProbeStep::On(Search::Looking(at)) => ProbeHit::Next(at),
        ProbeStep::Empty(at) => ProbeHit::Empty(at),
        ProbeStep::Here(at, word) => ProbeHit::Here(at, word),
        ProbeStep::Over(table) => ProbeHit::Over(table),
        ProbeStep::On(_) => unreachable!(),
    }
}

/// Loads the word at one place of a table, and compares the key of the pair that the word names.
#[inline(always)]
fn read_at<K: Hash + Eq, V, S: BuildHasher, Q: Equivalent<K>>(
    store: &Store<K, V, S>,
    key: &Q,
    at: Place,
) -> ProbeHit
    requires within { IsWithin at }
    requires there { IsThere store.now at.table at.len }
    ensures turn { (hash : ℕ) → IsReadHit (Q.matches key.now) store.now hash at result }
    ensures fewer { left_to result + 1 < left_at at }
{
    let Some(table) = store.table(at.table) else {
        unreachable!()
    };
    let word = table.slot(at.probe.i);
    let seen = at.look(word);
    match seen {
        ProbeStep::On(Search::Comparing(place, named)) => {
            let same = matches(store, Word(named).pair(), key);
            hit_of(Search::Comparing(place, named).at_yes(same))
        }
        _ => hit_of(seen),
    }
}

/// Passes the places that hold other keys, as their hints say, from this one on. This loop calls
/// nothing, so the address of the hints stays in a register.
#[inline(always)]
pub(crate) fn pass_by<K: Hash + Eq, V, S: BuildHasher>(
    store: &Store<K, V, S>,
    hash: u64,
    at: Place,
) -> ProbeStep
    requires within { IsWithin at }
    requires there { IsThere store.now at.table at.len }
    ensures { IsPassed store.now hash at result }
{
    let Some(table) = store.table(at.table) else {
        unreachable!()
    };
    let mut place = at;
    loop {
        match place.hinted(hash, table.hint(place.probe.i) as u64) {
            ProbeStep::On(Search::Looking(next)) => place = next,
            seen => return seen,
        }
    }
}

/// Passes places, up to one whose hint is 0 or the key's, and looks at its word.
#[inline(always)]
fn probe_at<K: Hash + Eq, V, S: BuildHasher, Q: Equivalent<K>>(
    store: &Store<K, V, S>,
    key: &Q,
    hash: u64,
    at: Place,
) -> ProbeHit
    requires within { IsWithin at }
    requires there { IsThere store.now at.table at.len }
    ensures turn { IsProbeHit (Q.matches key.now) store.now hash at result }
    ensures fewer { left_to result < left_at at }
{
    let seen = pass_by(store, hash, at);
    match seen {
        ProbeStep::On(Search::Reading(place)) => read_at(store, key, place),
        _ => hit_of(seen),
    }
}

/// Searches one table from this place on.
#[inline(always)]
pub(crate) fn search<K: Hash + Eq, V, S: BuildHasher, Q: Equivalent<K>>(
    store: &Store<K, V, S>,
    key: &Q,
    hash: u64,
    at: Place,
) -> ProbeHit
    requires within { IsWithin at }
    requires there { IsThere store.now at.table at.len }
    ensures turn { IsProbeHit (Q.matches key.now) store.now hash at result }
    ensures over { (place : _) → result ≡ Next place → ⊥ }
{
    let mut place = at;
    loop {
        match probe_at(store, key, hash, place) {
            ProbeHit::Next(next) => place = next,
            turn => return turn,
        }
    }
}

/// Searches the root, if there is one.
#[inline(always)]
pub(crate) fn search_root<K: Hash + Eq, V, S: BuildHasher, Q: Equivalent<K>>(
    store: &Store<K, V, S>,
    key: &Q,
    hash: u64,
) -> Option<ProbeHit>
    requires { (n : ℕ) (t : _) → table_of store.now.words.tables n ≡ Some t
        → IsSize (length t.slots) t.limit }
    ensures turn { (turn : _) → result ≡ Some turn
        → IsRootHit (Q.matches key.now) store.now hash turn }
    ensures over { (place : _) → result ≡ Some (Next place) → ⊥ }
    ensures none { result ≡ None → table_of store.now.words.tables store.now.words.root ≡ None }
{
    let number = store.word(At::Root);
    let table = store.table(number)?;
    let first = Place::first(hash, number, table.len(), table.limit());
    Some(search(store, key, hash, first))
}
