//! The shared map while it grows: the time of its insertions, by one thread and by several, and of
//! gets beside them.
use crate::backends::{elapsed, now};
use crate::collections::Pinned;
use crate::growth::name_of;
use crate::lines::print_line;
use crate::percentile::place_of;
use crate::plan::{Plan, THREADS, TurnRange, Workload, key_of};
use crate::shared::Map;
use papaya_run_shell::failure::Failure;
use papaya_words::resize_mode::ResizeMode;
use std::alloc::Global;
use std::io::Write;
use std::rt::Clock;
use std::sync::Wait;
use std::sync::atomic::{AtomicBool, AtomicU64, Ordering};
use std::thread;
use std::thread::Threads;

/// The number of threads that read while one writes.
const READERS: u64 = THREADS - 1;

/// The most times that a writer checks whether the readers have begun.
const LOOKS: u32 = 100_000;

/// Returns the plan whose parts the threads insert.
fn plan_of(keys: u32) -> Plan {
    Plan {
        workload: Workload::InsertFresh,
        keys,
        rounds: 1,
    }
}

/// Inserts a key, and returns the nanoseconds that this took. It pins the map for this, as a caller
/// that inserts now and then would.
#[inline(always)]
fn insert<R: Clock + Wait, C: Pinned>(rt: &R, map: &C, number: u64) -> Result<u128, Failure> {
    let start = now(rt)?;
    map.put_in_once(rt, key_of(number), number)?;
    elapsed(rt, start)
}

/// Inserts the keys of a part, and returns the nanoseconds of each insertion.
fn insert_part<R: Clock + Wait, C: Pinned>(
    rt: &R,
    alloc: Global,
    map: &C,
    part: TurnRange,
) -> Result<Vec<u128>, Failure> {
    let room = part.end.saturating_sub(part.start);
    let mut times = Vec::with_capacity(alloc, room as usize)?;
    for number in part.start..part.end {
        times.push(insert(rt, map, number)?)?;
    }
    Ok(times)
}

/// Joins the times of all threads, one after the other.
fn joined(alloc: Global, parts: &[Result<Vec<u128>, Failure>]) -> Result<Vec<u128>, Failure> {
    let mut times = Vec::new(alloc);
    for part in parts {
        match part {
            Ok(part) => {
                for time in part.iter() {
                    times.push(*time)?;
                }
            }
            Err(failure) => return Err(*failure),
        }
    }
    Ok(times)
}

/// Inserts this many keys by several threads, each its part, and returns the nanoseconds of each
/// insertion.
fn insert_in_threads<R: Clock + Threads + Wait + Sync, C: Pinned + Sync>(
    rt: &R,
    alloc: Global,
    map: &C,
    plan: Plan,
) -> Result<Vec<u128>, Failure> {
    let parts = thread::map_indices(
        rt,
        alloc,
        THREADS as usize,
        &|thread| {
            insert_part(
                rt,
                alloc,
                map,
                TurnRange::of_thread(plan.keys, thread as u32),
            )
        },
    )?;
    joined(alloc, parts.as_slice())
}

/// Returns the time at a percentile, or 0 if there is none.
fn at(sorted: &[u128], keys: u32, thousandths: u16) -> u128 {
    sorted
        .get(place_of(keys, thousandths))
        .copied()
        .unwrap_or(0)
}

/// Prints a line of insertions: how many, the nanoseconds of all and of the longest one, and those
/// at p50, p99 and p99.9.
fn print_times<W: Write>(
    mode: ResizeMode,
    backend: &str,
    keys: u32,
    nanoseconds: u128,
    times: Vec<u128>,
    output: &mut W,
) -> Result<(), Failure> {
    let mut times = times;
    times.sort_unstable();
    let sorted = times.as_slice();
    let numbers = [
        u128::from(keys),
        nanoseconds,
        at(sorted, keys, 1000),
        at(sorted, keys, 500),
        at(sorted, keys, 990),
        at(sorted, keys, 999),
    ];
    print_line(name_of(mode), backend, keys, &numbers, output)
}

/// Returns the nanoseconds of each insertion by one thread, and of all.
fn timed_by_one<R: Clock + Wait, C: Pinned>(
    rt: &R,
    alloc: Global,
    map: &C,
    keys: u32,
) -> Result<(Vec<u128>, u128), Failure> {
    let start = now(rt)?;
    let times = insert_part(rt, alloc, map, TurnRange::whole(keys))?;
    let nanoseconds = elapsed(rt, start)?;
    Ok((times, nanoseconds))
}

/// Returns the nanoseconds of each insertion by several threads, and of all.
fn timed_by_threads<R: Clock + Threads + Wait + Sync, C: Pinned + Sync>(
    rt: &R,
    alloc: Global,
    map: &C,
    keys: u32,
) -> Result<(Vec<u128>, u128), Failure> {
    let start = now(rt)?;
    let times = insert_in_threads(rt, alloc, map, plan_of(keys))?;
    let nanoseconds = elapsed(rt, start)?;
    Ok((times, nanoseconds))
}

/// Measures the growth of a map by one thread.
fn by_one<R: Clock + Wait, C: Pinned, W: Write>(
    rt: &R,
    alloc: Global,
    mode: ResizeMode,
    keys: u32,
    output: &mut W,
) -> Result<(), Failure> {
    let map = C::empty_in(rt, alloc, mode)?;
    let (times, nanoseconds) = timed_by_one(rt, alloc, &map, keys)?;
    print_times(mode, "shared", keys, nanoseconds, times, output)
}

/// Measures the growth of a map by several threads.
fn by_threads<R: Clock + Threads + Wait + Sync, C: Pinned + Sync, W: Write>(
    rt: &R,
    alloc: Global,
    mode: ResizeMode,
    keys: u32,
    output: &mut W,
) -> Result<(), Failure> {
    let map = C::empty_in(rt, alloc, mode)?;
    let (times, nanoseconds) = timed_by_threads(rt, alloc, &map, keys)?;
    print_times(mode, "threads", keys, nanoseconds, times, output)
}

/// The state that a writer and its readers share.
#[derive(Drop)]
struct GrowthGate {
    /// The number of readers that have begun.
    ready: AtomicU64,
    /// Whether the writer has ended.
    done: AtomicBool,
}

/// The gets of one thread beside the others; the writer makes none.
#[derive(Clone, Copy, Drop)]
struct Gets {
    count: u64,
    /// The nanoseconds of the longest get, or of the writer's whole work.
    greatest: u128,
}

/// Inserts all keys once the readers have begun, or after that many checks. It does not wait for
/// readers that could not be started.
fn write<R: Clock + Wait, C: Pinned>(
    rt: &R,
    map: &C,
    gate: &GrowthGate,
    keys: u32,
) -> Result<Gets, Failure> {
    for _ in 0..LOOKS {
        if gate.ready.load(Ordering::SeqCst) >= READERS {
            break;
        }
        thread::yield_now();
    }
    let start = now(rt)?;
    for number in 0..u64::from(keys) {
        map.put_in_once(rt, key_of(number), number)?;
    }
    Ok(Gets {
        count: 0,
        greatest: elapsed(rt, start)?,
    })
}

/// Looks up keys until the writer has ended.
fn read<R: Clock + Wait, C: Pinned>(
    rt: &R,
    map: &C,
    gate: &GrowthGate,
    plan: Plan,
) -> Result<Gets, Failure> {
    gate.ready.fetch_add(1, Ordering::SeqCst);
    let mut count: u64 = 0;
    let mut greatest: u128 = 0;
    for _ in rt.forever() {
        if gate.done.load(Ordering::SeqCst) {
            break;
        }
        let key = key_of(plan.number_at(count));
        let start = now(rt)?;
        let _weight = map.look_up_once(rt, key);
        greatest = greatest.max(elapsed(rt, start)?);
        count = count.wrapping_add(1);
    }
    Ok(Gets { count, greatest })
}

/// Does the part of one thread: the first writes, and the others read.
fn write_or_read<R: Clock + Wait, C: Pinned>(
    rt: &R,
    map: &C,
    gate: &GrowthGate,
    plan: Plan,
    thread: usize,
) -> Result<Gets, Failure> {
    if thread > 0 {
        return read(rt, map, gate, plan);
    }
    let written = write(rt, map, gate, plan.keys);
    gate.done.store(true, Ordering::SeqCst);
    written
}

/// Returns how many gets all readers made, the longest of them, and the writer's time.
fn sum_of(parts: &[Result<Gets, Failure>]) -> Result<(Gets, u128), Failure> {
    let mut sum = Gets {
        count: 0,
        greatest: 0,
    };
    let mut written: u128 = 0;
    for (thread, part) in parts.iter().enumerate() {
        let part = (*part)?;
        if thread == 0 {
            written = part.greatest;
        } else {
            sum.count = sum.count.wrapping_add(part.count);
            sum.greatest = sum.greatest.max(part.greatest);
        }
    }
    Ok((sum, written))
}

/// Lets three threads read while the fourth makes a map grow.
fn read_beside<R: Clock + Threads + Wait + Sync, C: Pinned + Sync>(
    rt: &R,
    alloc: Global,
    mode: ResizeMode,
    keys: u32,
) -> Result<(Gets, u128), Failure> {
    let map = C::empty_in(rt, alloc, mode)?;
    let gate = GrowthGate {
        ready: AtomicU64::new(0),
        done: AtomicBool::new(false),
    };
    let plan = plan_of(keys);
    let parts = thread::map_indices(
        rt,
        alloc,
        THREADS as usize,
        &|thread| { write_or_read(rt, &map, &gate, plan, thread) },
    )?;
    sum_of(parts.as_slice())
}

/// Prints a line of gets beside growth: its name, the gets of three threads, the nanoseconds in
/// which the fourth made the map grow, and those of the longest get.
fn beside_gets<R: Clock + Threads + Wait + Sync, C: Pinned + Sync, W: Write>(
    rt: &R,
    alloc: Global,
    mode: ResizeMode,
    keys: u32,
    output: &mut W,
) -> Result<(), Failure> {
    let (sum, written) = read_beside::<R, C>(rt, alloc, mode, keys)?;
    let numbers = [u128::from(sum.count), written, sum.greatest];
    print_line(name_of(mode), "gets", keys, &numbers, output)
}

/// Prints the lines of a shared map that grows from empty to this many keys: by one thread, by
/// several, and with gets beside it.
pub fn time_shared_growth<R: Clock + Threads + Wait + Sync, W: Write>(
    rt: &R,
    alloc: Global,
    mode: ResizeMode,
    keys: u32,
    output: &mut W,
) -> Result<(), Failure> {
    by_one::<R, Map, W>(rt, alloc, mode, keys, output)?;
    by_threads::<R, Map, W>(rt, alloc, mode, keys, output)?;
    beside_gets::<R, Map, W>(rt, alloc, mode, keys, output)
}
