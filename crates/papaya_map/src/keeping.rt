//! Computes whose closure may keep the entry that it is called with: their fast path, and the loop
//! of the slow one. The compute of `papaya_map_compute` cannot call such a closure, whose bound
//! names a lifetime. No call that needs an impl with that bound is proved, nor one of another
//! crate's function.
ghost use Rattle.std.specs.Prelude.{◌≡◌, None, Err};
ghost use Rattle.std.specs.Int.{IsPowerOfTwo};
ghost use Rattle.papaya_map_book.specs.Books.{IsIn};
ghost use Rattle.papaya_map_book.specs.Logs.{pair_named};
ghost use Rattle.papaya_map_book.specs.Windows.{IsLawful, IsOpen};
ghost use Rattle.papaya_map_change.specs.ClosureCalls.{Operates};
ghost use Rattle.papaya_map_change.specs.Window.Ends.{Ends, HasCause};
ghost use Rattle.papaya_map_compute.specs.FastPath.{ComesTo, IsOnItsWay};
ghost use Rattle.papaya_map_compute.specs.ComputeAnswers.{IsComputeBy, changes};
ghost use Rattle.papaya_map_lookup.specs.Drivers.{past};

use papaya_call::answers::Operation;
use papaya_map_book::book::Book;
use papaya_map_book::count::Shard;
use papaya_map_book::rule::entry::Stored;
use papaya_map_book::rule::own::{CapacityCause, OwnSteps};
use papaya_map_book::window::Window;
use papaya_map_change::driver::Means;
use papaya_map_change::fast_path::ProbeHit;
use papaya_map_change::removal::entry;
use papaya_map_compute::fast_path::{Attempt, Start, fill, machine_of, renew, search_root};
use papaya_map_compute::slow_path::ComputeStep as Next;
use papaya_map_lookup::lookup::hash;
use papaya_words::refused::Refused;
use papaya_words_keys::results::Compute;
use std::alloc::Global;
use std::hash::{BuildHasher, Hash};
use std::sync::Wait;

/// Returns `None`, the argument of a closure for an absent key, with the lifetime of the book.
fn no_entry<K: Hash + Eq, V, S: BuildHasher>(_book: &Book<K, V, S>) -> Option<(&K, &V)>
    ensures { result ≡ None }
{
    None
}

/// Calls the closure with this entry, or with `None`, and returns what it returns.
fn operate<
    'a,
    K: Hash + Eq,
    V,
    S: BuildHasher,
    T,
    F: FnMut(Option<(&'a K, &'a V)>) -> Operation<V, T>,
>(book: &'a Book<K, V, S>, shown: &Option<Stored<K, V>>, f: &mut F) -> Operation<V, T>
    requires callable { F.IsAlwaysCallable f.old }
    requires placed { IsIn book.now (pair_named shown.now) }
    ensures callable { F.IsAlwaysCallable f.new }
    ensures operates { Operates F.FnMut f.old shown.now result f.new }
{
    match shown {
        None => f(no_entry(book)),
        Some(pair) => f(Some(entry(book, pair))),
    }
}

/// Looks for the key in the root table. If the search ends at an empty slot or at a live entry, it
/// does at once what the closure returns. Otherwise, and if another call was first, it returns
/// where the machine starts.
#[inline(always)]
fn compute_fast<
    'a,
    R: Wait,
    K: Hash + Eq + Drop,
    V: Drop,
    S: BuildHasher,
    T: Drop,
    F: FnMut(Option<(&'a K, &'a V)>) -> Operation<V, T>,
>(
    means: &Means<'_, '_, R>,
    window: &mut Window<'a, K, V, S>,
    key: K,
    f: &mut F,
) -> Attempt<Start<K, V>, Result<Compute<'a, K, V, T>, Refused>>
    requires callable { F.IsAlwaysCallable f.old }
    requires lawful { IsLawful window.old }
    requires open { IsOpen window.old }
    ensures callable { F.IsAlwaysCallable f.new }
    ensures comes { ComesTo changes (IsComputeBy K.eq key (past window.old) (past window.new)
        (Operates F.FnMut) f.old) (IsOnItsWay window.old window.new key (Operates F.FnMut) f.old
        f.new) window.old window.new result }
{
    let book = window.book;
    let hash = hash(&book.parts.hasher, &key);
    let Some(spot) = search_root(window, &key, hash) else {
        return Attempt::On(Start::Beginning(key));
    };
    let table = spot.table;
    match spot.turn {
        ProbeHit::Empty(at) => {
            let operation = operate(book, &None, f);
            fill(means, window, key, hash, table, at, operation)
        }
        ProbeHit::Met(live) => {
            let old = book.entry(live.pair());
            let again = f(Some(old));
            renew(means, window, key, hash, table, live, old, again)
        }
        _ => Attempt::On(Start::Beginning(key)),
    }
}

/// Runs the machine from this start to its end. It is a call of its own, since no frame of a fast
/// path may hold a machine.
#[inline(never)]
fn compute_slow<
    'a,
    R: Wait,
    K: Hash + Eq + Drop,
    V: Drop,
    S: BuildHasher,
    T: Drop,
    F: FnMut(Option<(&'a K, &'a V)>) -> Operation<V, T>,
>(
    means: &Means<'_, '_, R>,
    window: &mut Window<'a, K, V, S>,
    given: &mut OwnSteps<CapacityCause>,
    start: Start<K, V>,
    f: &mut F,
) -> Result<Compute<'a, K, V, T>, Refused>
    requires callable { F.IsAlwaysCallable f.old }
    requires open { IsOpen window.old }
    requires initial { IsPowerOfTwo means.now.initial }
    requires can { (since : _) × (key : K) × (first : F) × IsOnItsWay since window.old key
        (Operates F.FnMut) first f.old start }
    ensures ends { Ends (changes result) window.old window.new }
    ensures tells { HasCause means.now.initial window.new given.new.done
        (λ cause. result ≡ Err cause) }
    ensures computed { (since : _) (key : K) (first : F) → IsOnItsWay since window.old key
        (Operates F.FnMut) first f.old start → IsComputeBy K.eq key (past since)
        (past window.new) (Operates F.FnMut) first result }
{
    let book = window.book;
    let mut computing = machine_of(window, means.initial, start);
    for _ in means.rt.forever() {
        match computing.turn(means, window) {
            Next::Answered(answer) => computing.advance(means, answer, window),
            Next::CallsClosure(shown) => {
                let operation = operate(book, &shown, f);
                let answer = computing.record_result(shown, operation);
                computing.advance(means, answer, window);
            }
            Next::Replied => {
                *given = computing.writer.call.copier.given.again();
                return computing.replied(window);
            }
        }
    }
    unreachable!()
}

/// Calls the closure with the key's entry, or with `None`, and does what it returns. If it fails
/// with `Refused::Capacity`, `given` records the number that a full arena of tables gave, or the
/// sum of the count that makes a next table too long.
pub fn compute<
    'a,
    R: Wait,
    K: Hash + Eq + Drop,
    V: Drop,
    S: BuildHasher,
    T: Drop,
    F: FnMut(Option<(&'a K, &'a V)>) -> Operation<V, T>,
>(
    rt: &R,
    alloc: Global,
    initial: usize,
    shard: &Shard<'_>,
    window: &mut Window<'a, K, V, S>,
    given: &mut OwnSteps<CapacityCause>,
    key: K,
    mut f: F,
) -> Result<Compute<'a, K, V, T>, Refused>
    requires callable { F.IsAlwaysCallable f }
    requires open { IsOpen window.old }
    requires initial { IsPowerOfTwo initial }
    ensures ends { Ends (changes result) window.old window.new }
    ensures tells { HasCause initial window.new given.new.done (λ cause. result ≡ Err cause) }
    ensures computed { IsComputeBy K.eq key (past window.old) (past window.new) (Operates F.FnMut) f
        result }
{
    window.learn();
    let means = Means {
        rt,
        alloc,
        initial,
        shard,
    };
    match compute_fast(&means, window, key, &mut f) {
        Attempt::Over(answer) => answer,
        Attempt::On(start) => compute_slow(&means, window, given, start, &mut f),
    }
}
