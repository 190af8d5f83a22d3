//! Maps that four threads keep at work: reclaimed between their calls, or never.
use crate::backends::{elapsed, now};
use crate::collections::{Collection, Pinned};
use crate::lines::print_line;
use crate::memory::resident;
use crate::plan::{THREADS, TurnRange};
use crate::soak_plan::Soak;
use crate::steps::{ThreadWork, step};
use crate::{entered, shared};
use papaya_reclaiming::reclaiming::Handle;
use papaya_run_shell::failure::Failure;
use std::alloc::Global;
use std::io::Write;
use std::rt::{Clock, Files};
use std::sync::Wait;
use std::thread;
use std::thread::Threads;

/// The number of calls of a thread between two readings of the clock.
const BLOCK: u32 = 64;

/// The number of blocks after which a thread checks whether the map is to be reclaimed.
const TIDY: u64 = 64;

/// The number of calls of all threads between two readings of the process's memory, and of one.
const SLICE: u32 = 1_000_000;

const SHARE_OF_SLICE: u32 = SLICE / THREADS as u32;

/// How many times its entries a map stores at most before it is reclaimed.
const SHARE: usize = 2;

/// The least number of entries that are copied to time a reclaim.
const COPIED: u32 = 0x4000;

/// The way in which a thread is in the map.
#[derive(Clone, Copy)]
enum Manner {
    /// Always, since the map is never reclaimed.
    Bare,
    /// It enters for each call.
    Enter,
    /// It enters for a block of calls, and leaves between two of them if another thread waits.
    Refresh,
}

impl Manner {
    /// Returns the name in what is printed.
    fn name(self) -> &'static str {
        match self {
            Manner::Bare => "bare",
            Manner::Enter => "enter",
            Manner::Refresh => "refresh",
        }
    }
}

/// A thread's access to the map.
trait Way {
    /// Makes the calls of a block; returns the sum of their results.
    fn work<R: Wait>(
        &mut self,
        rt: &R,
        soak: Soak,
        manner: Manner,
        block: TurnRange,
    ) -> Result<u64, Failure>;

    /// Reclaims the map if it is due; returns whether it was reclaimed.
    fn tidy<R: Wait>(&mut self, rt: &R) -> Result<bool, Failure>;
}

/// A collection that the threads share.
trait Soaked: Collection {
    /// Does the work of one thread.
    fn serve<R: Clock + Wait>(
        &self,
        rt: &R,
        soak: Soak,
        manner: Manner,
        part: TurnRange,
    ) -> Result<SoakRecord, Failure>;

    /// Reclaims the map once all threads have ended.
    fn give_back<R: Wait>(&mut self, rt: &R) -> Result<(), Failure>;
}

/// The record of a thread's work, or of all threads'.
#[derive(Clone, Copy, Drop)]
struct SoakRecord {
    /// The sum of the results.
    sum: u64,
    /// The nanoseconds of the block that took longest.
    longest: u128,
    /// The number of times that the map was reclaimed.
    reclaims: u64,
}

impl SoakRecord {
    /// The empty record.
    const NONE: SoakRecord = SoakRecord {
        sum: 0,
        longest: 0,
        reclaims: 0,
    };

    /// Returns both records as one.
    fn and(self, other: SoakRecord) -> SoakRecord {
        SoakRecord {
            sum: self.sum.wrapping_add(other.sum),
            longest: self.longest.max(other.longest),
            reclaims: self.reclaims.wrapping_add(other.reclaims),
        }
    }
}

impl Way for &shared::Map {
    fn work<R: Wait>(
        &mut self,
        rt: &R,
        soak: Soak,
        _manner: Manner,
        block: TurnRange,
    ) -> Result<u64, Failure> {
        let mut sum: u64 = 0;
        let mut map = self.pin();
        for turn in block.start..block.end {
            sum = sum.wrapping_add(step(rt, &mut map, soak.action_at(turn))?);
        }
        Ok(sum)
    }

    fn tidy<R: Wait>(&mut self, _rt: &R) -> Result<bool, Failure> {
        Ok(false)
    }
}

impl Way for Handle<'_, shared::Map> {
    fn work<R: Wait>(
        &mut self,
        rt: &R,
        soak: Soak,
        manner: Manner,
        block: TurnRange,
    ) -> Result<u64, Failure> {
        match manner {
            Manner::Bare | Manner::Enter => enter_each(rt, self, soak, block),
            Manner::Refresh => stay(rt, self, soak, block),
        }
    }

    fn tidy<R: Wait>(&mut self, rt: &R) -> Result<bool, Failure> {
        Ok(self.reclaim_if(rt, SHARE)?)
    }
}

/// Makes the calls of a block, and enters the map for each.
fn enter_each<R: Wait>(
    rt: &R,
    handle: &mut Handle<'_, shared::Map>,
    soak: Soak,
    block: TurnRange,
) -> Result<u64, Failure> {
    let mut sum: u64 = 0;
    for turn in block.start..block.end {
        let entered = handle.enter(rt);
        sum = sum.wrapping_add(step(rt, &mut entered.pin(), soak.action_at(turn))?);
    }
    Ok(sum)
}

/// Makes the calls of a block, and enters the map once for all.
fn stay<R: Wait>(
    rt: &R,
    handle: &mut Handle<'_, shared::Map>,
    soak: Soak,
    block: TurnRange,
) -> Result<u64, Failure> {
    let mut sum: u64 = 0;
    let mut entered = handle.enter(rt);
    for turn in block.start..block.end {
        sum = sum.wrapping_add(step(rt, &mut entered.pin(), soak.action_at(turn))?);
        entered = entered.refresh(rt);
    }
    Ok(sum)
}

/// Does the work of one thread, block by block.
fn serve<R: Clock + Wait, W: Way>(
    rt: &R,
    way: &mut W,
    soak: Soak,
    manner: Manner,
    part: TurnRange,
) -> Result<SoakRecord, Failure> {
    let mut told = SoakRecord::NONE;
    for number in 0..part.blocks(BLOCK) {
        let start = now(rt)?;
        let sum = way.work(rt, soak, manner, part.block(BLOCK, number))?;
        let longest = elapsed(rt, start)?;
        let reclaims = u64::from(number % TIDY == TIDY - 1 && way.tidy(rt)?);
        told = told.and(SoakRecord {
            sum,
            longest,
            reclaims,
        });
    }
    Ok(told)
}

impl Soaked for shared::Map {
    fn serve<R: Clock + Wait>(
        &self,
        rt: &R,
        soak: Soak,
        manner: Manner,
        part: TurnRange,
    ) -> Result<SoakRecord, Failure> {
        let mut map: &shared::Map = self;
        serve(rt, &mut map, soak, manner, part)
    }

    fn give_back<R: Wait>(&mut self, rt: &R) -> Result<(), Failure> {
        Ok(self.reclaim(rt)?)
    }
}

impl Soaked for entered::Map {
    fn serve<R: Clock + Wait>(
        &self,
        rt: &R,
        soak: Soak,
        manner: Manner,
        part: TurnRange,
    ) -> Result<SoakRecord, Failure> {
        serve(rt, &mut self.handle(), soak, manner, part)
    }

    fn give_back<R: Wait>(&mut self, rt: &R) -> Result<(), Failure> {
        Ok(self.handle().reclaim(rt)?)
    }
}

/// Returns the record of all threads in a slice.
fn serve_in_threads<R: Clock + Threads + Wait + Sync, C: Soaked + Sync>(
    rt: &R,
    alloc: Global,
    map: &C,
    soak: Soak,
    manner: Manner,
    slice: u64,
) -> Result<SoakRecord, Failure> {
    let parts = thread::map_indices(
        rt,
        alloc,
        THREADS as usize,
        &|thread| {
            let part = TurnRange::of_thread(soak.operations, thread as u32);
            map.serve(rt, soak, manner, part.block(SHARE_OF_SLICE, slice))
        },
    )?;
    let mut told = SoakRecord::NONE;
    for part in &parts {
        told = told.and((*part)?);
    }
    Ok(told)
}

/// Returns the mean of the nanoseconds that it takes to reclaim a map of this many keys, several
/// times.
fn pause_of<R: Clock + Wait, C: Soaked>(rt: &R, map: &mut C, keys: u32) -> Result<u128, Failure> {
    // replaced entries are dropped first
    map.give_back(rt)?;
    let times = COPIED.checked_div(keys).unwrap_or(0).max(1);
    let start = now(rt)?;
    for _ in 0..times {
        map.give_back(rt)?;
    }
    Ok(elapsed(rt, start)? / u128::from(times))
}

/// The result of a soak.
#[derive(Clone, Copy, Drop)]
struct Soaking {
    /// The record of its threads.
    told: SoakRecord,
    /// The nanoseconds of all calls.
    nanoseconds: u128,
    /// The bytes that the process held before, at most, and at the end.
    before: u64,
    most: u64,
    end: u64,
    /// The nanoseconds of one reclaim.
    pause: u128,
}

/// Returns the record of all threads, slice by slice, the most memory of the process meanwhile, and
/// the nanoseconds.
fn serve_slices<R: Clock + Files + Threads + Wait + Sync, C: Soaked + Sync>(
    rt: &R,
    alloc: Global,
    map: &C,
    soak: Soak,
    manner: Manner,
) -> Result<(SoakRecord, u64, u128), Failure> {
    let mut told = SoakRecord::NONE;
    let mut most = resident(rt)?;
    let start = now(rt)?;
    for slice in 0..TurnRange::whole(soak.operations).blocks(SLICE) {
        told = told.and(serve_in_threads(rt, alloc, map, soak, manner, slice)?);
        most = most.max(resident(rt)?);
    }
    Ok((told, most, elapsed(rt, start)?))
}

/// Returns a map of this many keys.
fn filled<R: Wait, C: Collection>(rt: &R, alloc: Global, keys: u32) -> Result<C, Failure> {
    let mut map = C::empty(rt, alloc, keys as usize)?;
    map.alone(rt, ThreadWork::Fill(keys))?;
    Ok(map)
}

/// Fills a map, keeps it at work, and reclaims it.
fn keep_at_work<R: Clock + Files + Threads + Wait + Sync, C: Soaked + Sync>(
    rt: &R,
    alloc: Global,
    soak: Soak,
    manner: Manner,
) -> Result<Soaking, Failure> {
    let before = resident(rt)?;
    let mut map: C = filled(rt, alloc, soak.keys)?;
    let (told, most, nanoseconds) = serve_slices(rt, alloc, &map, soak, manner)?;
    let end = resident(rt)?;
    let pause = pause_of(rt, &mut map, soak.keys)?;
    Ok(Soaking {
        told,
        nanoseconds,
        before,
        most,
        end,
        pause,
    })
}

/// Prints the line of a soak. It has its name, its calls and their nanoseconds; and the bytes that
/// the process held more than before, at most and at the end. Then how often the map was reclaimed,
/// the nanoseconds of the longest block, and those of one reclaim.
fn time_manner<R: Clock + Files + Threads + Wait + Sync, C: Soaked + Sync, W: Write>(
    rt: &R,
    alloc: Global,
    soak: Soak,
    manner: Manner,
    output: &mut W,
) -> Result<(), Failure> {
    let soaking = keep_at_work::<R, C>(rt, alloc, soak, manner)?;
    let Soaking {
        before,
        most,
        end,
        ..
    } = soaking;
    let numbers = [
        u128::from(soak.operations),
        soaking.nanoseconds,
        u128::from(most.max(end).saturating_sub(before)),
        u128::from(end.saturating_sub(before)),
        u128::from(soaking.told.reclaims),
        soaking.told.longest,
        soaking.pause,
    ];
    print_line(soak.name(), manner.name(), soak.keys, &numbers, output)
}

/// Prints the lines of a soak: of a map that threads enter for each call, of one that they stay in,
/// and of one that is never reclaimed.
pub fn time_soak<R: Clock + Files + Threads + Wait + Sync, W: Write>(
    rt: &R,
    alloc: Global,
    soak: Soak,
    output: &mut W,
) -> Result<(), Failure> {
    time_manner::<R, entered::Map, W>(rt, alloc, soak, Manner::Enter, output)?;
    time_manner::<R, entered::Map, W>(rt, alloc, soak, Manner::Refresh, output)?;
    time_manner::<R, shared::Map, W>(rt, alloc, soak, Manner::Bare, output)
}
