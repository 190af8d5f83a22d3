//! The one compute: its fast path, the loop of its slow one, and the trait by which it calls a
//! closure that borrows the pair (`lending`) or a rule (`deciding`).
ghost use Rattle.std.specs.Prelude.{◌≡◌, Option, Err};
ghost use Rattle.std.specs.Int.{IsPowerOfTwo};
ghost use denote.Bor.{Bor};
ghost use Rattle.papaya_map_book.specs.Books.{IsIn};
ghost use Rattle.papaya_map_book.specs.Logs.{pair_named};
ghost use Rattle.papaya_map_book.specs.Windows.{IsLawful, IsOpen};
ghost use Rattle.papaya_call.specs.declared.answers.Operation.{Operation};
ghost use Rattle.papaya_map_change.specs.Window.Ends.{Ends, HasCause};
ghost use Rattle.papaya_map_compute.specs.ComputeAnswers.{changes};
ghost use Rattle.papaya_map_compute.specs.FastPath.{ComesTo, IsOnItsWay};
ghost use Rattle.papaya_map_compute.specs.Operating.{HasEnded, CallsClosure, at_once};
ghost use Rattle.papaya_map_lookup.specs.Drivers.{past};

use crate::fast_path::{Attempt, Start, fill, machine_of, renew, search_root};
use crate::slow_path::ComputeStep as Next;
use papaya_call::answers::Operation;
use papaya_map_book::book::Book;
use papaya_map_book::count::Shard;
use papaya_map_book::rule::entry::Stored;
use papaya_map_book::rule::own::{CapacityCause, OwnSteps};
use papaya_map_book::window::Window;
use papaya_map_change::driver::Means;
use papaya_map_change::fast_path::ProbeHit;
use papaya_map_change::removal::entry;
use papaya_map_lookup::lookup::hash;
use papaya_words::refused::Refused;
use papaya_words_keys::results::Compute;
use std::alloc::Global;
use std::hash::{BuildHasher, Hash};
use std::sync::Wait;

/// A way to call an `O` for what becomes of a key's pair. It may be called again if another call
/// was first to change that pair.
///
/// An operator states for contracts what each call may return, and the state of the `O` then.
pub trait Operator<'a, K, V, T, O> {
    ghost callable: { O → Type 0 };

    ghost operates: { O → Option (Bor K × Bor V) → Operation V T → O → Type 0 };

    /// Returns what becomes of the pair, or, for `None`, what is stored.
    fn operate(op: &mut O, shown: Option<(&'a K, &'a V)>) -> Operation<V, T>
        requires callable { callable op.old }
        ensures callable { callable op.new }
        ensures operates { operates op.old shown.entry result op.new };
}

/// The result of a compute, and the values of the pairs that it was called with and that it stored.
#[derive(Drop)]
pub struct Ended<'a, K, V, T> {
    pub answer: Result<Compute<'a, K, V, T>, Refused>,
    /// The value of the pair that `O` was called with last.
    pub current: Option<&'a V>,
    /// The value of the pair that was stored in the arena for an absent key.
    pub spare: Option<&'a V>,
}

/// Calls the operator with the pair of this token, or with `None`, and returns what it returns.
fn call_closure<'a, A: Operator<'a, K, V, T, O>, K: Hash + Eq, V, S: BuildHasher, T, O>(
    book: &'a Book<K, V, S>,
    shown: &Option<Stored<K, V>>,
    op: &mut O,
) -> Operation<V, T>
    requires callable { A.callable op.old }
    requires placed { IsIn book.now (pair_named shown.now) }
    ensures callable { A.callable op.new }
    ensures shows { CallsClosure A.operates op.old shown.now result op.new }
{
    match shown {
        None => A::operate(op, None),
        Some(pair) => A::operate(op, Some(entry(book, pair))),
    }
}

/// Looks for the key in the root. If the search ends at an empty place or at a live pair, it does
/// at once what the operator returns. Otherwise, and if another call was first, it returns where
/// the machine starts.
#[inline(always)]
fn fast<
    'a,
    A: Operator<'a, K, V, T, O>,
    R: Wait,
    K: Hash + Eq + Drop,
    V: Drop,
    S: BuildHasher,
    T: Drop,
    O,
>(
    means: &Means<'_, '_, R>,
    window: &mut Window<'a, K, V, S>,
    key: K,
    op: &mut O,
) -> (
    Attempt<Start<K, V>, Result<Compute<'a, K, V, T>, Refused>>,
    Option<&'a V>,
)
    requires callable { A.callable op.old }
    requires open { IsOpen window.old }
    requires lawful { IsLawful window.old }
    ensures callable { A.callable op.new }
    ensures comes { ComesTo changes (λ answer. HasEnded K.eq key (past window.old) (past window.new)
        (CallsClosure A.operates) op.old op.new (at_once answer result.1)) (IsOnItsWay window.old
        window.new key (CallsClosure A.operates) op.old op.new) window.old window.new result.0 }
{
    let book = window.book;
    let hash = hash(&book.parts.hasher, &key);
    let Some(spot) = search_root(window, &key, hash) else {
        return (Attempt::On(Start::Beginning(key)), None);
    };
    let table = spot.table;
    match spot.turn {
        ProbeHit::Empty(at) => {
            let operation = A::operate(op, None);
            let filled = fill(means, window, key, hash, table, at, operation);
            (filled, None)
        }
        ProbeHit::Met(live) => {
            let old = book.entry(live.pair());
            let again = A::operate(op, Some(old));
            let renewed = renew(means, window, key, hash, table, live, old, again);
            (renewed, Some(old.1))
        }
        _ => (Attempt::On(Start::Beginning(key)), None),
    }
}

/// Runs the machine from this start to its end. It is a call of its own, since no frame of a fast
/// path may hold a machine.
#[inline(never)]
pub(crate) fn slow<
    'a,
    A: Operator<'a, K, V, T, O>,
    R: Wait,
    K: Hash + Eq + Drop,
    V: Drop,
    S: BuildHasher,
    T: Drop,
    O,
>(
    means: &Means<'_, '_, R>,
    window: &mut Window<'a, K, V, S>,
    given: &mut OwnSteps<CapacityCause>,
    start: Start<K, V>,
    op: &mut O,
) -> Ended<'a, K, V, T>
    requires callable { A.callable op.old }
    requires initial { IsPowerOfTwo means.now.initial }
    requires open { IsOpen window.old }
    requires can { (since : _) × (key : K) × (first : O) × IsOnItsWay since window.old key
        (CallsClosure A.operates) first op.old start }
    ensures ends { Ends (changes result.answer) window.old window.new }
    ensures tells { HasCause means.now.initial window.new given.new.done
        (λ cause. result.answer ≡ Err cause) }
    ensures ended { (since : _) (key : K) (first : O) → IsOnItsWay since window.old key
        (CallsClosure A.operates) first op.old start → HasEnded K.eq key (past since) (past window.new)
        (CallsClosure A.operates) first op.new result }
{
    let book = window.book;
    let mut computing = machine_of(window, means.initial, start);
    for _ in means.rt.forever() {
        match computing.turn(means, window) {
            Next::Answered(answer) => computing.advance(means, answer, window),
            Next::CallsClosure(shown) => {
                let operation = call_closure::<A, K, V, S, T, O>(book, &shown, op);
                let answer = computing.record_result(shown, operation);
                computing.advance(means, answer, window);
            }
            Next::Replied => {
                *given = computing.writer.call.copier.given.again();
                let (current, spare) = computing.left(window);
                let answer = computing.replied(window);
                return Ended {
                    answer,
                    current,
                    spare,
                };
            }
        }
    }
    unreachable!()
}

/// Calls the operator with the key's pair, or with `None`, and does what it returns. If it fails
/// with `Refused::Capacity`, `given` records the number that a full arena of tables gave, or the
/// sum of the count that makes a next table too long.
#[inline(always)]
pub(crate) fn compute<
    'a,
    A: Operator<'a, K, V, T, O>,
    R: Wait,
    K: Hash + Eq + Drop,
    V: Drop,
    S: BuildHasher,
    T: Drop,
    O,
>(
    rt: &R,
    alloc: Global,
    initial: usize,
    shard: &Shard<'_>,
    window: &mut Window<'a, K, V, S>,
    given: &mut OwnSteps<CapacityCause>,
    key: K,
    op: &mut O,
) -> Ended<'a, K, V, T>
    requires callable { A.callable op.old }
    requires initial { IsPowerOfTwo initial }
    requires open { IsOpen window.old }
    ensures ends { Ends (changes result.answer) window.old window.new }
    ensures tells { HasCause initial window.new given.new.done
        (λ cause. result.answer ≡ Err cause) }
    ensures ended { HasEnded K.eq key (past window.old) (past window.new) (CallsClosure A.operates) op.old
        op.new result }
{
    window.learn();
    let means = Means {
        rt,
        alloc,
        initial,
        shard,
    };
    let (first, current) = fast::<A, R, K, V, S, T, O>(&means, window, key, op);
    match first {
        Attempt::Over(answer) => Ended {
            answer,
            current,
            spare: None,
        },
        Attempt::On(start) => {
            // Taken apart, so that a fast path's result is in no memory that a call writes.
            let Ended {
                answer,
                current,
                spare,
            } = slow::<A, R, K, V, S, T, O>(&means, window, given, start, op);
            Ended {
                answer,
                current,
                spare,
            }
        }
    }
}
