//! Computes whose closure borrows the pair only for the time of its call. So the closure's type
//! names no lifetime, and other crates can make such a call for keys of any type.
ghost use Rattle.papaya_map_change.specs.Window.Ends.{Ends, HasCause};
ghost use Rattle.std.specs.Prelude.{◌≡◌, Err};
ghost use Rattle.std.specs.Fn.{Called};
ghost use Rattle.std.specs.Int.{IsPowerOfTwo};
ghost use Rattle.papaya_map_book.specs.Windows.{IsOpen};
ghost use Rattle.papaya_map_change.specs.ClosureCalls.{Operates};
ghost use Rattle.papaya_map_compute.specs.ComputeAnswers.{IsComputeBy, changes};
ghost use Rattle.papaya_map_lookup.specs.Drivers.{past};

use crate::operating::{Operator, compute};
use papaya_call::answers::Operation;
use papaya_map_book::count::Shard;
use papaya_map_book::rule::own::{CapacityCause, OwnSteps};
use papaya_map_book::window::Window;
use papaya_words::refused::Refused;
use papaya_words_keys::results::Compute;
use std::alloc::Global;
use std::hash::{BuildHasher, Hash};
use std::sync::Wait;

/// Calls a closure that borrows the pair.
struct Lending;

impl<'a, K, V, T, F: FnMut(Option<(&K, &V)>) -> Operation<V, T>> Operator<'a, K, V, T, F>
    for Lending {
    ghost callable = { F.IsAlwaysCallable };

    ghost operates = { λ f shown done g. Called F.FnMut f (shown, tt) done g };

    #[inline(always)]
    fn operate(f: &mut F, shown: Option<(&'a K, &'a V)>) -> Operation<V, T> {
        f(shown)
    }
}

/// Calls a closure with the key's pair, or with `None`, and does what it returns. If it fails with
/// `Refused::Capacity`, `given` records the number that a full arena of tables gave, or the sum of
/// the count that makes a next table too long.
#[inline(always)]
pub fn compute_lent<
    'a,
    R: Wait,
    K: Hash + Eq + Drop,
    V: Drop,
    S: BuildHasher,
    T: Drop,
    F: FnMut(Option<(&K, &V)>) -> Operation<V, T>,
>(
    rt: &R,
    alloc: Global,
    initial: usize,
    shard: &Shard<'_>,
    window: &mut Window<'a, K, V, S>,
    given: &mut OwnSteps<CapacityCause>,
    key: K,
    mut f: F,
) -> Result<Compute<'a, K, V, T>, Refused>
    requires callable { F.IsAlwaysCallable f }
    requires initial { IsPowerOfTwo initial }
    requires open { IsOpen window.old }
    ensures ends { Ends (changes result) window.old window.new }
    ensures tells { HasCause initial window.new given.new.done (λ cause. result ≡ Err cause) }
    ensures computed { IsComputeBy K.eq key (past window.old) (past window.new) (Operates F.FnMut) f
        result }
{
    compute::<Lending, R, K, V, S, T, F>(
        rt, alloc, initial, shard, window, given, key, &mut f,
    ).answer
}
