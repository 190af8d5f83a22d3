//! The outcomes of jobs: a worker's thread reports an outcome, and another thread reads it.
//!
//! The worker's thread passes on the session by which it reported, and the reader's session meets
//! this one. So the reader has observed the report, and its lookup is proved to find the reported
//! outcome, unless a later change took it out.
ghost use Rattle.std.specs.Prelude.{◌≡◌, IfErr, IfOk, true};
ghost use mathlib.Core.List.{IsPrefix};
ghost use Rattle.papaya.specs.Threads.{IsPlainRefusal, Makes};
ghost use Rattle.papaya_uses.specs.Jobs.{HasReported, IsReadAfter};

use papaya::{HashMap, Refused, Session};
use std::hash::{BuildHasherDefault, FoldHasher};
use std::sync::Wait;

/// The outcome of each job, by the jobs' numbers.
pub type Outcomes = HashMap<u64, u64, BuildHasherDefault<FoldHasher>>;

/// Reports the outcome of a job by the worker's session. Returns the session, so that the session
/// of another thread can meet it.
///
/// # Errors
///
/// Fails with `Refused::Memory`, `Refused::Capacity` or `Refused::Limit`, as [`Session::insert`]
/// does, and then reports nothing.
pub fn report<'a, R: Wait>(
    rt: &R,
    mut worker: Session<'a, u64, u64>,
    job: u64,
    outcome: u64,
) -> Result<Session<'a, u64, u64>, Refused>
    ensures map { IfOk result (λ after. after.map ≡ worker.entry.map) }
    ensures reported { IfOk result (λ after. HasReported job outcome worker.entry.history
        after.history) }
    ensures made { IfOk result (λ after. Makes true worker.entry.made after.made after.history) }
    ensures refused { IfErr result (IsPlainRefusal worker.entry.map.begun.limit) }
{
    worker.insert(rt, job, outcome)?;
    Ok(worker)
}

/// Returns the outcome of a job, or `None` if it has none, after the reader's session has met the
/// worker's. If the worker has observed an outcome of the job, the result is this outcome, unless a
/// change took it out since. It never waits.
pub fn outcome_after(
    reader: &mut Session<'_, u64, u64>,
    worker: &mut Session<'_, u64, u64>,
    job: u64,
) -> Option<u64>
    requires { worker.old.map.book ≡ reader.old.map.book }
    ensures map { (reader.new.map ≡ reader.old.map) × (worker.new.map ≡ worker.old.map) }
    ensures first { IsPrefix reader.old.history reader.new.history }
    ensures second { IsPrefix worker.old.history worker.new.history }
    ensures read { IsReadAfter job worker.old.history reader.old.history reader.new.history result }
    ensures made { (reader.new.made ≡ reader.old.made) × (worker.new.made ≡ worker.old.made) }
{
    reader.meet(worker);
    let found = reader.get(&job);
    reader.legal();
    found.copied()
}
