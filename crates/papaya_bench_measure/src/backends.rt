//! The maps and sets on which the workloads are run.
use crate::collections::{Collection, Shared, all, run, run_in_threads};
use crate::idle::Idle;
use crate::plan::{Plan, Workload};
use crate::{entered, rivals, seq, shared, texts};
use papaya_run_shell::failure::Failure;
use std::alloc::Global;
use std::rt::Clock;
use std::sync::{Mutex, RwLock, Wait};
use std::thread::Threads;
use std::time::Instant;

/// The object on which a workload is run.
#[derive(Clone, Copy)]
pub enum BenchBackend {
    /// None: the loop alone.
    Loop,
    /// The map for one caller.
    Seq,
    /// The shared map, pinned by one thread.
    Shared,
    /// The shared map, pinned by several threads.
    Threads,
    /// The shared map, by a session of one thread.
    Session,
    /// The shared map, pinned by one thread for each call.
    PinACall,
    /// The shared map that is reclaimed in between, which one thread enters for each call.
    Entered,
    /// The shared map that is reclaimed in between, which several threads enter for each call.
    EnteredThreads,
    /// The kit's hash map.
    Std,
    /// The kit's map behind a readers-writer lock, by one thread.
    RwLock,
    /// The kit's map behind a readers-writer lock, by several threads.
    RwLockThreads,
    /// The kit's map behind a mutex, by one thread.
    Mutex,
    /// The kit's map behind a mutex, by several threads.
    MutexThreads,
    /// The set for one caller.
    SeqSet,
    /// The shared set, pinned by one thread.
    Set,
}

/// The result of a run of a plan: how long its rounds took, and the sum of its results.
#[derive(Clone, Copy)]
pub struct Measure {
    pub nanoseconds: u128,
    pub checksum: u64,
}

impl BenchBackend {
    /// The loop, which is timed before the maps.
    pub const LOOP: &'static [BenchBackend] = &[BenchBackend::Loop];

    /// The maps, in the order in which they are run.
    pub const MAPS: &'static [BenchBackend] = &[
        BenchBackend::Seq,
        BenchBackend::Shared,
        BenchBackend::Threads,
        BenchBackend::Session,
        BenchBackend::PinACall,
        BenchBackend::Entered,
        BenchBackend::EnteredThreads,
        BenchBackend::Std,
        BenchBackend::RwLock,
        BenchBackend::RwLockThreads,
        BenchBackend::Mutex,
        BenchBackend::MutexThreads,
    ];

    /// The sets, which are run behind the maps.
    pub const SETS: &'static [BenchBackend] = &[BenchBackend::SeqSet, BenchBackend::Set];

    /// The backends that are run at many keys, where it takes long to fill a map.
    pub const FEW: &'static [BenchBackend] = &[
        BenchBackend::Loop,
        BenchBackend::Seq,
        BenchBackend::Threads,
        BenchBackend::Session,
        BenchBackend::PinACall,
        BenchBackend::Std,
    ];

    /// Returns the name in what is printed.
    pub fn name(self) -> &'static str {
        match self {
            BenchBackend::Loop => "loop",
            BenchBackend::Seq => "seq",
            BenchBackend::Shared => "shared",
            BenchBackend::Threads => "threads",
            BenchBackend::Session => "session",
            BenchBackend::PinACall => "pin-a-call",
            BenchBackend::Entered => "entered",
            BenchBackend::EnteredThreads => "entered-threads",
            BenchBackend::Std => "std",
            BenchBackend::RwLock => "rwlock",
            BenchBackend::RwLockThreads => "rwlock-threads",
            BenchBackend::Mutex => "mutex",
            BenchBackend::MutexThreads => "mutex-threads",
            BenchBackend::SeqSet => "seq-set",
            BenchBackend::Set => "set",
        }
    }

    /// Returns whether it is a set.
    fn is_set(self) -> bool {
        matches!(self, BenchBackend::SeqSet | BenchBackend::Set)
    }

    /// Returns whether it is the kit's map, alone or behind a lock.
    fn is_of_kit(self) -> bool {
        matches!(
            self,
            BenchBackend::Std
                | BenchBackend::RwLock
                | BenchBackend::RwLockThreads
                | BenchBackend::Mutex
                | BenchBackend::MutexThreads
        )
    }

    /// Returns whether one thread makes calls on it, in a way that no other backend stands for.
    fn is_single(self) -> bool {
        matches!(
            self,
            BenchBackend::Loop
                | BenchBackend::Seq
                | BenchBackend::Session
                | BenchBackend::PinACall
                | BenchBackend::Std
        )
    }

    /// Returns whether this workload is run on it.
    pub fn does(self, workload: Workload) -> bool {
        match workload {
            // a set has no values
            Workload::UpdateOrInsert | Workload::Zipf => !self.is_set(),
            // nor has the kit's map this call
            Workload::Compute => !self.is_set() && !self.is_of_kit(),
            // an iteration is one thread's, and needs one pin
            Workload::Iterate => matches!(
                self,
                BenchBackend::Seq
                    | BenchBackend::Shared
                    | BenchBackend::Session
                    | BenchBackend::Std
                    | BenchBackend::SeqSet
                    | BenchBackend::Set
            ),
            // only a map that is reclaimed in between is entered
            Workload::Enter => matches!(
                self,
                BenchBackend::Loop | BenchBackend::Entered | BenchBackend::EnteredThreads
            ),
            Workload::WornHit | Workload::WornMiss | Workload::TextHit | Workload::TextMiss => {
                self.is_single()
            }
            // threads add to counters at once
            Workload::Registry => {
                self.is_single()
                    || matches!(
                        self,
                        BenchBackend::Threads | BenchBackend::RwLock | BenchBackend::RwLockThreads
                    )
            }
            _ => true,
        }
    }

    /// Makes the maps or sets of a plan, and then measures only its rounds.
    pub fn measure<R: Clock + Threads + Wait + Sync>(
        self,
        rt: &R,
        alloc: Global,
        plan: Plan,
    ) -> Result<Measure, Failure> {
        match plan.workload {
            Workload::TextHit | Workload::TextMiss | Workload::Registry => {
                self.measure_texts(rt, alloc, plan)
            }
            _ => self.measure_numbers(rt, alloc, plan),
        }
    }

    /// Measures a plan on maps whose keys are texts.
    fn measure_texts<R: Clock + Threads + Wait + Sync>(
        self,
        rt: &R,
        alloc: Global,
        plan: Plan,
    ) -> Result<Measure, Failure> {
        match self {
            BenchBackend::Loop => by_one::<R, Idle>(rt, alloc, plan),
            BenchBackend::Seq => by_one::<R, texts::Seq>(rt, alloc, plan),
            BenchBackend::Threads => by_several::<R, texts::Pinned>(rt, alloc, plan),
            BenchBackend::Session => by_one::<R, texts::BySession>(rt, alloc, plan),
            BenchBackend::PinACall => by_one::<R, texts::PinACall>(rt, alloc, plan),
            BenchBackend::Std => by_one::<R, texts::Std>(rt, alloc, plan),
            BenchBackend::RwLock => by_one::<R, texts::Locked>(rt, alloc, plan),
            BenchBackend::RwLockThreads => by_several::<R, texts::Locked>(rt, alloc, plan),
            _ => Err(Failure::Arguments),
        }
    }

    /// Measures a plan on maps and sets whose keys are numbers.
    fn measure_numbers<R: Clock + Threads + Wait + Sync>(
        self,
        rt: &R,
        alloc: Global,
        plan: Plan,
    ) -> Result<Measure, Failure> {
        match self {
            BenchBackend::Loop => by_one::<R, Idle>(rt, alloc, plan),
            BenchBackend::Seq => by_one::<R, seq::Map>(rt, alloc, plan),
            BenchBackend::Shared => by_one::<R, shared::Map>(rt, alloc, plan),
            BenchBackend::Threads => by_several::<R, shared::Map>(rt, alloc, plan),
            BenchBackend::Session => by_one::<R, shared::BySession>(rt, alloc, plan),
            BenchBackend::PinACall => by_one::<R, shared::PinACall>(rt, alloc, plan),
            BenchBackend::Entered => by_one::<R, entered::Map>(rt, alloc, plan),
            BenchBackend::EnteredThreads => by_several::<R, entered::Map>(rt, alloc, plan),
            BenchBackend::Std => by_one::<R, rivals::Map>(rt, alloc, plan),
            BenchBackend::RwLock => by_one::<R, RwLock<rivals::Map>>(rt, alloc, plan),
            BenchBackend::RwLockThreads => by_several::<R, RwLock<rivals::Map>>(rt, alloc, plan),
            BenchBackend::Mutex => by_one::<R, Mutex<rivals::Map>>(rt, alloc, plan),
            BenchBackend::MutexThreads => by_several::<R, Mutex<rivals::Map>>(rt, alloc, plan),
            BenchBackend::SeqSet => by_one::<R, seq::Set>(rt, alloc, plan),
            BenchBackend::Set => by_one::<R, shared::Set>(rt, alloc, plan),
        }
    }
}

/// Measures collections by one thread.
fn by_one<R: Clock + Wait, C: Collection>(
    rt: &R,
    alloc: Global,
    plan: Plan,
) -> Result<Measure, Failure> {
    let draws = plan.draws(alloc)?;
    let mut all = all::<R, C>(rt, alloc, plan)?;
    let start = now(rt)?;
    let sum = run(rt, all.as_mut_slice(), plan, draws.as_slice());
    ended(rt, start, sum)
}

/// Measures collections by several threads.
fn by_several<R: Clock + Threads + Wait + Sync, C: Collection + Shared + Sync>(
    rt: &R,
    alloc: Global,
    plan: Plan,
) -> Result<Measure, Failure> {
    let draws = plan.draws(alloc)?;
    let all = all::<R, C>(rt, alloc, plan)?;
    let start = now(rt)?;
    let sum = run_in_threads(rt, alloc, all.as_slice(), plan, draws.as_slice());
    ended(rt, start, sum)
}

/// Returns the current time.
pub(crate) fn now<R: Clock>(rt: &R) -> Result<Instant, Failure> {
    Instant::now(rt).map_err(|_| Failure::Clock)
}

/// Returns the nanoseconds since this time.
pub(crate) fn elapsed<R: Clock>(rt: &R, start: Instant) -> Result<u128, Failure> {
    let elapsed = start.elapsed(rt).map_err(|_| Failure::Clock)?;
    Ok(elapsed.as_nanos())
}

/// Returns the measure of a run that began at `start` and has ended with this sum.
fn ended<R: Clock>(rt: &R, start: Instant, sum: Result<u64, Failure>) -> Result<Measure, Failure> {
    Ok(Measure {
        nanoseconds: elapsed(rt, start)?,
        checksum: sum?,
    })
}
