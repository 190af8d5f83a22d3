//! Computes whose search of the root ends at an empty place or at a live pair: they do at once what
//! their closure returned. If another call was first, they return in a few words where their
//! machine starts. A machine is large, so no fast path makes one.
ghost use Rattle.std.specs.Prelude.{◌≡◌, Some, IfSome, List, Option};
ghost use Rattle.std.specs.Int.{IsPowerOfTwo};
ghost use Rattle.papaya_call.specs.declared.answers.Operation.{Operation};
ghost use Rattle.papaya_map_book.specs.Books.{IsStoredAs};
ghost use Rattle.papaya_map_book.specs.Logs.{Stored};
ghost use Rattle.papaya_map_book.specs.PairParts.{IsKeyPartIn, key_in};
ghost use Rattle.papaya_map_book.specs.Windows.{IsLawful, IsOpen, Observes};
ghost use Rattle.papaya_map_change.specs.ClosureCalls.{AreOf};
ghost use Rattle.papaya_map_change.specs.declared.fast_path.ProbeHit.TheVariants.{Empty, Met as MetPair};
ghost use Rattle.papaya_map_compute.specs.FastPath.{DoesAtOnce, CanStartSince, IsSearchEnd, StartsAt};

use crate::slow_path::Computing;
use papaya_call::answers::Operation;
use papaya_call::search::Place;
use papaya_map_book::book::Book;
use papaya_map_book::book::pairs::{KeyPart, ValuePart};
use papaya_map_book::keyed::Hashed;
use papaya_map_book::rule::entry::Stored;
use papaya_map_book::table::Table;
use papaya_map_book::window::Window;
use papaya_map_change::driver::Means;
use papaya_map_change::fast_path::{Live, SearchEnd, Tried, bury, claim, find_place, replace};
use papaya_map_change::removal::{entry, value_of};
use papaya_map_lookup::lookup::Met;
use papaya_words::refused::Refused;
use papaya_words_keys::results::Compute;
use std::hash::{BuildHasher, Hash};
use std::sync::Wait;

/// The result of a first look at the root.
#[derive(Drop)]
pub enum Attempt<C, A> {
    /// The call is over, and returns this.
    Over(A),
    /// Its machine goes on from here.
    On(C),
}

/// The start of a compute's machine after its fast path gave up.
#[derive(Drop)]
pub enum Start<K, V> {
    /// From the beginning: its closure was not called yet.
    Beginning(K),
    /// With this pair, made after its closure was called with `None`.
    Filled {
        hash: u64,
        pair: Stored<K, V>,
    },
    /// With this pair, made after its closure was called with the pair that was met.
    Replaced {
        key: K,
        hash: u64,
        met: Met<K, V>,
        pair: Stored<K, V>,
    },
    /// With the removal of this pair, which its closure was called with.
    Removing {
        key: K,
        hash: u64,
        shown: Stored<K, V>,
    },
}

/// Searches the root for a compute. Returns `None` if there is no root, or if there is a limit:
/// there each pair needs a number, which the machine takes.
#[inline(always)]
pub fn search_root<'a, K: Hash + Eq, V, S: BuildHasher>(
    window: &mut Window<'a, K, V, S>,
    key: &K,
    hash: u64,
) -> Option<SearchEnd<'a, K, V, S>>
    requires lawful { IsLawful window.old }
    requires hashed { hash ≡ ⟦<S as Hashed<K>>⟧.hash window.old.book.now.parts.hasher key.now }
    ensures looked { Observes window.old window.new }
    ensures led { (spot : _) → result ≡ Some spot → IsSearchEnd window.new key.now hash
        window.old.sight.log spot.table.now spot.turn }
{
    if window.book.parts.limit.is_some() {
        return None;
    }
    find_place(window, key, hash)
}

/// Returns the machine of a compute that starts so.
pub fn machine_of<'a, K: Hash + Eq + Drop, V: Drop, S: BuildHasher, T: Drop>(
    window: &mut Window<'a, K, V, S>,
    initial: usize,
    start: Start<K, V>,
) -> Computing<'a, K, V, S, T>
    requires initial { IsPowerOfTwo initial }
    requires can { (key : K) × (begun : _) × (heard : List (Option (Stored K V) × Operation V T))
        × CanStartSince window.old key begun start heard }
    ensures looked { Observes window.old window.new }
    ensures starts { StartsAt initial window.old start window.new result }
{
    match start {
        Start::Beginning(key) => {
            window.learn();
            Computing::new(window, initial, key)
        }
        Start::Filled { hash, pair } => Computing::filled(window, initial, hash, pair),
        Start::Replaced {
            key,
            hash,
            met,
            pair,
        } => Computing::replaced(window, initial, key, hash, met, pair),
        Start::Removing { key, hash, shown } => {
            Computing::removing(window, initial, key, hash, shown)
        }
    }
}

/// Stores a pair of this key and value, for which the arena had no free slot. Returns `None` if
/// memory runs out.
#[cold]
#[inline(never)]
pub(crate) fn store_by_waiting<R: Wait, K: Hash + Eq + Drop, V: Drop, S: BuildHasher>(
    rt: &R,
    book: &Book<K, V, S>,
    lane: u64,
    key: KeyPart<K, V>,
    value: V,
) -> Option<Stored<K, V>>
    requires { IsKeyPartIn book.now key }
    ensures { IfSome result (IsStoredAs book.now (key_in key) value) }
{
    book.store_pair(rt, lane, key, ValuePart::Own(value)).ok()
}

/// Does what the closure returned for an absent key, at the empty place that a search has found.
#[inline(always)]
pub fn fill<'a, R: Wait, K: Hash + Eq + Drop, V: Drop, S: BuildHasher, T: Drop>(
    means: &Means<'_, '_, R>,
    window: &mut Window<'a, K, V, S>,
    key: K,
    hash: u64,
    table: &Table<K, V, S>,
    at: Place,
    operation: Operation<V, T>,
) -> Attempt<Start<K, V>, Result<Compute<'a, K, V, T>, Refused>>
    requires open { IsOpen window.old }
    requires led { (begun : _) × IsSearchEnd window.old key hash begun table.now (Empty at) }
    ensures does { DoesAtOnce window.old window.new key table.now (Empty at) operation result }
{
    match operation {
        Operation::Insert(value) => {
            match claim(means.shard, window, key, value, hash, table, at) {
                Tried::Put(pair) => {
                    let (key, value) = entry(window.book, &pair);
                    Attempt::Over(Ok(Compute::Inserted(key, value)))
                }
                Tried::Lost(pair) => Attempt::On(Start::Filled { hash, pair }),
                Tried::Back((key, value)) => {
                    match store_by_waiting(means.rt, window.book, hash, KeyPart::Own(key), value) {
                        Some(pair) => Attempt::On(Start::Filled { hash, pair }),
                        None => Attempt::Over(Err(Refused::Memory)),
                    }
                }
            }
        }
        Operation::Remove => Attempt::Over(Err(Refused::RemoveNothing)),
        Operation::Abort(with) => Attempt::Over(Ok(Compute::Aborted(with))),
    }
}

/// Does what the closure returned for the live pair that a search has met. The new pair has the
/// same key, so that is not read again.
#[inline(always)]
pub fn renew<'a, R: Wait, K: Hash + Eq + Drop, V: Drop, S: BuildHasher, T: Drop>(
    means: &Means<'_, '_, R>,
    window: &mut Window<'a, K, V, S>,
    key: K,
    hash: u64,
    table: &Table<K, V, S>,
    live: Live<'a, K, V>,
    old: (&'a K, &'a V),
    operation: Operation<V, T>,
) -> Attempt<Start<K, V>, Result<Compute<'a, K, V, T>, Refused>>
    requires open { IsOpen window.old }
    requires led { (begun : _) × IsSearchEnd window.old key hash begun table.now (MetPair live) }
    requires shown { AreOf old live.stored }
    ensures does { DoesAtOnce window.old window.new key table.now (MetPair live.entry) operation
        result }
{
    match operation {
        Operation::Insert(value) => {
            match replace(window, value, table, &live) {
                Tried::Put(pair) => {
                    let new = (old.0, value_of(window.book, &pair));
                    Attempt::Over(Ok(Compute::Updated { old, new }))
                }
                Tried::Lost(pair) => Attempt::On(Start::Replaced {
                    key,
                    hash,
                    met: live.into_met(),
                    pair,
                }),
                Tried::Back(value) => {
                    let by = &live.met().stored;
                    let (lane, of) = (by.index() as u64, KeyPart::Of(by.again()));
                    match store_by_waiting(means.rt, window.book, lane, of, value) {
                        Some(pair) => Attempt::On(Start::Replaced {
                            key,
                            hash,
                            met: live.into_met(),
                            pair,
                        }),
                        None => Attempt::Over(Err(Refused::Memory)),
                    }
                }
            }
        }
        Operation::Remove => {
            if !bury(means.shard, window, table, live.met()) {
                let shown = live.into_met().stored;
                return Attempt::On(Start::Removing { key, hash, shown });
            }
            Attempt::Over(Ok(Compute::Removed(old.0, old.1)))
        }
        Operation::Abort(with) => Attempt::Over(Ok(Compute::Aborted(with))),
    }
}
