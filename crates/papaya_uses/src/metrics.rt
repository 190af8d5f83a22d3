//! A registry of metrics: a counter for each name, to which threads add at once. A name gets its
//! counter once. An addition is one atomic step on that counter: it replaces no entry of the map,
//! so none is left in its arena.
ghost use Rattle.std.specs.Prelude.{IfErr};
ghost use mathlib.Core.List.{IsPrefix};
ghost use Rattle.papaya.specs.Threads.{IsWriteRefusal};
ghost use Rattle.papaya_uses.specs.Metrics.{BeginsOrFinds};

use papaya::{HashMap, Refused, Session, TextKey};
use std::alloc::Global;
use std::hash::{BuildHasherDefault, FoldHasher};
use std::sync::Wait;
use std::sync::atomic::{AtomicU64, Ordering};

/// The counters, by their names. A thread makes its session by `Session::new(&metrics)`.
pub type Metrics = HashMap<String, AtomicU64, BuildHasherDefault<FoldHasher>>;

/// Adds to the counter of a name, which begins at 0, and returns its old value. If the name has a
/// counter, the name is not copied, and the call never waits. Otherwise it inserts one, unless
/// another thread is first; it changes nothing else in the map.
///
/// # Errors
///
/// Fails with `Refused::Memory`, `Refused::Capacity` or `Refused::Limit` if the counter cannot be
/// inserted, and then adds nothing.
#[tactic(auto, using(crate::proofs::MetricLemmas::seen_on))]
pub fn add<R: Wait>(
    rt: &R,
    alloc: Global,
    metrics: &mut Session<'_, String, AtomicU64>,
    name: &str,
    by: u64,
) -> Result<u64, Refused>
    ensures seen { IsPrefix metrics.old.history metrics.new.history }
    ensures made { BeginsOrFinds name.now metrics.old.history metrics.new.history
        metrics.old.made metrics.new.made result }
    ensures refused { IfErr result (IsWriteRefusal metrics.old.map.begun.limit metrics.new.taken) }
{
    if let Some(counter) = metrics.get(&TextKey(name)) {
        return Ok(counter.fetch_add(by, Ordering::SeqCst));
    }
    let Ok(name) = name.to_string(alloc) else {
        return Err(Refused::Memory);
    };
    match metrics.get_or_insert_with(rt, name, || AtomicU64::new(0)) {
        Ok(counter) => Ok(counter.fetch_add(by, Ordering::SeqCst)),
        Err(refused) => Err(refused),
    }
}

/// Returns the value of a name's counter, if there is one. It never waits.
pub fn read(metrics: &mut Session<'_, String, AtomicU64>, name: &str) -> Option<u64>
    ensures { IsPrefix metrics.old.history metrics.new.history }
{
    match metrics.get(&TextKey(name)) {
        Some(counter) => Some(counter.load(Ordering::SeqCst)),
        None => None,
    }
}
