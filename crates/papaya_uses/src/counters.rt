//! A registry of counters: threads add to them, and each addition is one step.
ghost use Rattle.std.specs.Prelude.{◌≡◌, IfOk, is_ok, option_map};
ghost use mathlib.Core.List.{IsPrefix};
ghost use Rattle.papaya.specs.Threads.{Makes};
ghost use Rattle.papaya_uses.specs.Counters.{HasAdded, next_count};

use papaya::{Compute, HashMap, Operation, Refused, Session};
use std::hash::{BuildHasherDefault, FoldHasher};
use std::sync::Wait;

/// The counters, by their numbers. A thread makes its session by `Session::new(&counters)`.
pub type Counters = HashMap<u64, u64, BuildHasherDefault<FoldHasher>>;

/// Adds to a counter, which begins at 0, and returns its new value. The closure may run again if
/// another thread was first to change the counter; only its last sum is stored.
///
/// # Errors
///
/// Fails with `Refused::Memory`, `Refused::Capacity` or `Refused::Limit`, as [`Session::compute`]
/// does, and then changes nothing.
pub fn add<R: Wait>(
    rt: &R,
    counters: &mut Session<'_, u64, u64>,
    counter: u64,
    by: u64,
) -> Result<u64, Refused>
    ensures seen { IsPrefix counters.old.history counters.new.history }
    ensures added { IfOk result (HasAdded counter by counters.old.history counters.new.history) }
    ensures made { Makes (is_ok result) counters.old.made counters.new.made
        counters.new.history }
{
    let computed = counters.compute(
        rt,
        counter,
        |shown|
            ensures { result ≡ Operation.Insert
                (next_count by (option_map (λ p. p.1.now) shown.entry)) }
        {
            let before = match shown {
                Some((_, count)) => *count,
                None => 0,
            };
            Operation::<u64, ()>::Insert(before.wrapping_add(by))
        },
    );
    counters.legal();
    match computed {
        Ok(Compute::Inserted(_, count)) => Ok(*count),
        Ok(
            Compute::Updated {
                new: (_, count),
                ..
            },
        ) => Ok(*count),
        Ok(Compute::Removed(..)) => unreachable!(),
        Ok(Compute::Aborted(_)) => unreachable!(),
        Err(refused) => Err(refused),
    }
}
