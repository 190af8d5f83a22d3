//! The common interface of the maps and sets that are measured.
use crate::draw::Draw;
use crate::plan::{Plan, THREADS, TurnRange};
use crate::steps::ThreadWork;
use papaya_run_shell::failure::Failure;
use papaya_words::resize_mode::ResizeMode;
use std::alloc::Global;
use std::sync::Wait;
use std::thread;
use std::thread::Threads;

/// A map, a set, or a lock around a map.
pub(crate) trait Collection: Drop {
    /// Returns an empty one, with room for this many keys.
    fn empty<R: Wait>(rt: &R, alloc: Global, capacity: usize) -> Result<Self, Failure>;

    /// Does the work of the one thread that owns it.
    fn alone<R: Wait>(&mut self, rt: &R, work: ThreadWork) -> Result<u64, Failure>;
}

/// A map that grows in either resize mode.
pub(crate) trait Growing: Collection {
    /// Returns an empty one, which makes its first table at its first insertion.
    fn empty_in<R: Wait>(rt: &R, alloc: Global, mode: ResizeMode) -> Result<Self, Failure>;
}

/// A map that threads share, and that is pinned again for each of these calls.
pub(crate) trait Pinned: Growing {
    fn put_in_once<R: Wait>(&self, rt: &R, key: u64, value: u64) -> Result<u64, Failure>;

    fn look_up_once<R: Wait>(&self, rt: &R, key: u64) -> u64;
}

/// A collection that threads share.
pub(crate) trait Shared {
    /// Does the work of one of the threads.
    fn beside<R: Wait>(&self, rt: &R, work: ThreadWork) -> Result<u64, Failure>;
}

/// Returns a collection as it is before the first round.
fn made<R: Wait, C: Collection>(rt: &R, alloc: Global, plan: Plan) -> Result<C, Failure> {
    let mut made = C::empty(rt, alloc, plan.capacity())?;
    for _ in 0..plan.fills() {
        made.alone(rt, ThreadWork::Fill(plan.keys))?;
    }
    Ok(made)
}

/// Returns the collections of a plan.
pub(crate) fn all<R: Wait, C: Collection>(
    rt: &R,
    alloc: Global,
    plan: Plan,
) -> Result<Vec<C>, Failure> {
    let mut all = Vec::new(alloc);
    let (count, _) = plan.maps();
    for _ in 0..count {
        all.push(made(rt, alloc, plan)?)?;
    }
    Ok(all)
}

/// Runs the rounds of all by one thread; returns the sum of their steps' results.
pub(crate) fn run<R: Wait, C: Collection>(
    rt: &R,
    all: &mut [C],
    plan: Plan,
    draws: &[Draw],
) -> Result<u64, Failure> {
    let work = ThreadWork::Rounds(plan, draws, TurnRange::whole(plan.keys));
    let mut sum: u64 = 0;
    for one in all {
        sum = sum.wrapping_add(one.alone(rt, work)?);
    }
    Ok(sum)
}

/// Runs the work of one thread on all; returns the sum of its steps' results.
fn run_part<R: Wait, C: Shared>(rt: &R, all: &[C], work: ThreadWork) -> Result<u64, Failure> {
    let mut sum: u64 = 0;
    for one in all {
        sum = sum.wrapping_add(one.beside(rt, work)?);
    }
    Ok(sum)
}

/// Runs the rounds of all by several threads, each on its part of the keys.
pub(crate) fn run_in_threads<R: Threads + Wait + Sync, C: Shared + Sync>(
    rt: &R,
    alloc: Global,
    all: &[C],
    plan: Plan,
    draws: &[Draw],
) -> Result<u64, Failure> {
    let sums = thread::map_indices(
        rt,
        alloc,
        THREADS as usize,
        &|thread| {
            let part = TurnRange::of_thread(plan.keys, thread as u32);
            run_part(rt, all, ThreadWork::Rounds(plan, draws, part))
        },
    )?;
    let mut sum: u64 = 0;
    for part in &sums {
        sum = sum.wrapping_add((*part)?);
    }
    Ok(sum)
}
