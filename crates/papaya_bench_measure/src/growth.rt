//! The map for one caller while it grows: the time of its insertions, and of the longest of them.
use crate::backends::{elapsed, now};
use crate::collections::Growing;
use crate::lines::print_line;
use crate::plan::key_of;
use crate::seq::Map;
use crate::steps::Target;
use papaya_run_shell::failure::Failure;
use papaya_words::resize_mode::ResizeMode;
use std::alloc::Global;
use std::io::Write;
use std::rt::Clock;
use std::sync::Wait;

/// The time of the insertions that made a map grow.
#[derive(Drop)]
struct Growth {
    /// The time of all insertions, including the readings of the clock in between.
    nanoseconds: u128,
    /// The time of the longest insertion.
    greatest: u128,
    /// The number of slots at the end.
    slots: usize,
}

/// Inserts this many keys, and reads the clock before and after each; returns the longest time.
fn fill<R: Clock + Wait>(rt: &R, map: &mut Map, keys: u32) -> Result<u128, Failure> {
    let mut greatest: u128 = 0;
    for number in 0..u64::from(keys) {
        let start = now(rt)?;
        map.put_in(rt, key_of(number), number)?;
        greatest = greatest.max(elapsed(rt, start)?);
    }
    Ok(greatest)
}

/// Inserts this many keys into an empty map of this mode, and reads the clock around each.
fn grow<R: Clock + Wait>(
    rt: &R,
    alloc: Global,
    mode: ResizeMode,
    keys: u32,
) -> Result<Growth, Failure> {
    let mut map = Map::empty_in(rt, alloc, mode)?;
    let first = now(rt)?;
    let greatest = fill(rt, &mut map, keys)?;
    Ok(Growth {
        nanoseconds: elapsed(rt, first)?,
        greatest,
        slots: map.slots(),
    })
}

/// Returns the name of growth in this mode, in what is printed.
pub(crate) fn name_of(mode: ResizeMode) -> &'static str {
    match mode {
        ResizeMode::Incremental(_) => "grow-incremental",
        ResizeMode::Blocking => "grow-blocking",
    }
}

/// Prints a line for a map that grows by this many keys: their number, the time of all insertions,
/// that of the longest, and the slots at the end.
pub fn time_growth<R: Clock + Wait, W: Write>(
    rt: &R,
    alloc: Global,
    mode: ResizeMode,
    keys: u32,
    output: &mut W,
) -> Result<(), Failure> {
    let growth = grow(rt, alloc, mode, keys)?;
    let numbers = [
        u128::from(keys),
        growth.nanoseconds,
        growth.greatest,
        growth.slots as u128,
    ];
    print_line(name_of(mode), "seq", keys, &numbers, output)
}
