//! Maps that are filled from empty, or with room and then reclaimed: the time that each takes.
use crate::backends::{BenchBackend, elapsed, now};
use crate::collections::{Collection, Growing};
use crate::lines::print_line;
use crate::steps::ThreadWork;
use crate::{rivals, seq, shared};
use papaya_run_shell::failure::Failure;
use papaya_words::resize_mode::ResizeMode;
use std::alloc::Global;
use std::io::Write;
use std::rt::Clock;
use std::sync::Wait;
use std::time::Instant;

/// A map that frees replaced and removed entries when it is reclaimed.
pub(crate) trait Reclaimed: Collection {
    fn give_back<R: Wait>(&mut self, rt: &R) -> Result<(), Failure>;
}

/// Fills the map that was made since this time; returns it, and the nanoseconds since then.
fn fill_since<R: Clock + Wait, C: Collection>(
    rt: &R,
    start: Instant,
    made: Result<C, Failure>,
    keys: u32,
) -> Result<(C, u128), Failure> {
    let mut map = made?;
    map.alone(rt, ThreadWork::Fill(keys))?;
    let took = elapsed(rt, start)?;
    Ok((map, took))
}

/// Makes a map without room, and fills it with this many keys, for which it grows. It is dropped
/// after its line is printed, so that `tools/bytes` finds what it holds.
fn time_growing<R: Clock + Wait, C: Collection, W: Write>(
    rt: &R,
    alloc: Global,
    backend: BenchBackend,
    keys: u32,
    output: &mut W,
) -> Result<(), Failure> {
    let start = now(rt)?;
    let (_map, took) = fill_since(rt, start, C::empty(rt, alloc, 0), keys)?;
    let numbers = [u128::from(keys), took];
    print_line("from-empty", backend.name(), keys, &numbers, output)
}

/// Makes a map in `Blocking` without room, and fills it in the same way.
fn time_blocking<R: Clock + Wait, M: Growing, W: Write>(
    rt: &R,
    alloc: Global,
    backend: BenchBackend,
    keys: u32,
    output: &mut W,
) -> Result<(), Failure> {
    let start = now(rt)?;
    let made = M::empty_in(rt, alloc, ResizeMode::Blocking);
    let (_map, took) = fill_since(rt, start, made, keys)?;
    let numbers = [u128::from(keys), took];
    print_line(
        "from-empty-blocking",
        backend.name(),
        keys,
        &numbers,
        output,
    )
}

/// Prints the time that it takes to fill a map from empty with this many keys: a map for one
/// caller, a shared one, and the kit's.
pub fn time_grown<R: Clock + Wait, W: Write>(
    rt: &R,
    alloc: Global,
    keys: u32,
    output: &mut W,
) -> Result<(), Failure> {
    time_growing::<R, seq::Map, W>(rt, alloc, BenchBackend::Seq, keys, output)?;
    time_growing::<R, shared::Map, W>(rt, alloc, BenchBackend::Shared, keys, output)?;
    time_growing::<R, rivals::Map, W>(rt, alloc, BenchBackend::Std, keys, output)
}

/// Prints the same, and the time of a shared map by other calls, and of maps in `Blocking`.
pub fn time_from_empty<R: Clock + Wait, W: Write>(
    rt: &R,
    alloc: Global,
    keys: u32,
    output: &mut W,
) -> Result<(), Failure> {
    time_grown(rt, alloc, keys, output)?;
    time_growing::<R, shared::BySession, W>(rt, alloc, BenchBackend::Session, keys, output)?;
    time_growing::<R, shared::PinACall, W>(rt, alloc, BenchBackend::PinACall, keys, output)?;
    time_blocking::<R, seq::Map, W>(rt, alloc, BenchBackend::Seq, keys, output)?;
    time_blocking::<R, shared::Map, W>(rt, alloc, BenchBackend::Shared, keys, output)
}

/// Returns a map, made for this many keys and filled with these keys in this many rounds, and the
/// nanoseconds that this took.
fn filled<R: Clock + Wait, M: Reclaimed>(
    rt: &R,
    alloc: Global,
    (keys, rounds): (u32, u32),
) -> Result<(M, u128), Failure> {
    let start = now(rt)?;
    let mut map = M::empty(rt, alloc, keys as usize)?;
    for _ in 0..rounds {
        map.alone(rt, ThreadWork::Fill(keys))?;
    }
    let took = elapsed(rt, start)?;
    Ok((map, took))
}

/// Returns the nanoseconds that it takes to reclaim a map.
fn give_back<R: Clock + Wait, M: Reclaimed>(rt: &R, map: &mut M) -> Result<u128, Failure> {
    let start = now(rt)?;
    map.give_back(rt)?;
    elapsed(rt, start)
}

/// Fills a map, made for this many keys, with these keys in several rounds. Then reclaims it.
fn time_map<R: Clock + Wait, M: Reclaimed, W: Write>(
    rt: &R,
    alloc: Global,
    backend: BenchBackend,
    plan: (u32, u32),
    output: &mut W,
) -> Result<(), Failure> {
    let (keys, rounds) = plan;
    let (mut map, took) = filled::<R, M>(rt, alloc, plan)?;
    let stored = u64::from(keys) * u64::from(rounds);
    let numbers = [u128::from(stored), took];
    print_line("fill", backend.name(), keys, &numbers, output)?;
    let numbers = [u128::from(keys), give_back(rt, &mut map)?];
    print_line("reclaim", backend.name(), keys, &numbers, output)
}

/// Prints lines of a map for one caller and of a shared one, each made for this many keys. They
/// have the time to insert these in this many rounds, and then to reclaim the map.
pub fn time_reclaim<R: Clock + Wait, W: Write>(
    rt: &R,
    alloc: Global,
    plan: (u32, u32),
    output: &mut W,
) -> Result<(), Failure> {
    time_map::<R, seq::Map, W>(rt, alloc, BenchBackend::Seq, plan, output)?;
    time_map::<R, shared::Map, W>(rt, alloc, BenchBackend::Shared, plan, output)
}
