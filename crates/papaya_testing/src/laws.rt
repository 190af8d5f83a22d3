//! The laws of queries and guards, by calls through their bounds.
ghost use Rattle.std.specs.Prelude.{◌≡◌, true, fold};
ghost use Rattle.std.specs.Hash.DefaultHasher as sip;

use papaya_words_keys::guard::{Collector, Equivalent, Guard};
use std::hash::{DefaultHasher, Hash, Hasher};

fn hash_of<T: Hash>(value: &T) -> u64
    ensures { result ≡ sip.finish (fold sip.write sip.initial (T.hash_input value.now)) }
{
    let mut state = DefaultHasher::new();
    value.hash(&mut state);
    state.finish()
}

/// Returns whether the query hashes as the key if it matches it, which it always does.
pub fn hashes_as<K: Hash + Eq, Q: Equivalent<K>>(query: &Q, key: &K) -> bool
    ensures { result ≡ true }
{
    !query.equivalent(key) || hash_of(query) == hash_of(key)
}

/// Returns whether a query that matches `key` matches exactly its equals, which is always so.
pub fn matches_equals<K: Hash + Eq, Q: Equivalent<K>>(query: &Q, key: &K, other: &K) -> bool
    ensures { result ≡ true }
{
    !query.equivalent(key) || query.equivalent(other) == (*key == *other)
}

/// Returns the number of the guard's collector, through the bound.
pub fn collector_of<G: Guard>(guard: &G) -> u64
    ensures { result ≡ G.collector_number guard.now }
{
    guard.collector_number()
}

/// Returns the number of the collector, as each kind of its guards gives it.
pub fn number_by_guards(collector: &Collector) -> (u64, u64)
    ensures { result ≡ (collector.now, collector.now) }
{
    let owned = collector.enter_owned();
    (collector_of(&collector.enter()), collector_of(&owned))
}
