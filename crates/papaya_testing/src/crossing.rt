//! A place where threads start at once, and where one waits until the others have ended.
use crate::gate::{FEW_TURNS, Gate, TURNS};
use std::sync::atomic::{AtomicU64, Ordering};
use std::thread::yield_now;

/// A place where threads start at once. Its gate is opened when some of them have ended.
#[derive(Drop)]
pub struct Crossing {
    pub gate: Gate,
    /// How many start at once, and how many arrivals there were.
    threads: u64,
    here: AtomicU64,
    /// How many must end before the gate is opened, or 0, and how many have ended.
    others: u64,
    ended: AtomicU64,
}

impl Crossing {
    /// Creates a crossing for `threads` threads. Its gate is opened when `others` threads have
    /// ended, or, if that is 0, by a thread. If one thread does everything, nobody opens the gate,
    /// and it waits for few turns.
    pub fn new(threads: u64, others: u64) -> Crossing {
        let turns = if threads > 1 { TURNS } else { FEW_TURNS };
        Crossing {
            gate: Gate::closed(turns),
            threads,
            here: AtomicU64::new(0),
            others,
            ended: AtomicU64::new(0),
        }
    }

    /// Waits until all threads have come here `times` times, and returns whether they have.
    pub fn meets(&self, times: u64) -> bool {
        self.here.fetch_add(1, Ordering::SeqCst);
        for _ in 0..TURNS {
            if self.here.load(Ordering::SeqCst) >= self.threads.wrapping_mul(times) {
                return true;
            }
            yield_now();
        }
        false
    }

    /// Waits until all threads are here and, if a thread at the gate awaits this one, until that
    /// thread is there. Returns whether they came.
    pub fn begins(&self, is_awaited: bool) -> bool {
        let met = self.meets(1);
        if self.others == 0 || !is_awaited {
            return met;
        }
        self.gate.turn_until(&self.gate.reached) && met
    }

    /// Records that a thread has ended. The last one for which the gate waits opens it.
    pub fn ends(&self) {
        let before = self.ended.fetch_add(1, Ordering::SeqCst);
        if before.wrapping_add(1) == self.others {
            self.gate.open.store(true, Ordering::SeqCst);
        }
    }
}
