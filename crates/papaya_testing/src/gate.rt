//! A gate at which a closure of a call waits for other threads.
use std::sync::atomic::{AtomicBool, Ordering};
use std::thread::yield_now;

/// How often a thread checks at most whether another one has come. No test waits by a clock.
pub const TURNS: u64 = 100_000_000;

/// How often it checks if the other one will not come.
pub const FEW_TURNS: u64 = 100;

/// A gate at which a closure waits for other threads.
#[derive(Drop)]
pub struct Gate {
    /// Whether a closure has come to the gate.
    pub reached: AtomicBool,
    /// Whether the closure may continue.
    pub open: AtomicBool,
    /// Whether a closure continued before the gate was open.
    late: AtomicBool,
    turns: u64,
}

impl Gate {
    /// Creates a gate at which a closure waits, for at most `turns` turns.
    pub fn closed(turns: u64) -> Gate {
        Gate {
            reached: AtomicBool::new(false),
            open: AtomicBool::new(false),
            late: AtomicBool::new(false),
            turns,
        }
    }

    /// Creates a gate at which no closure waits.
    pub fn open() -> Gate {
        let gate = Gate::closed(0);
        gate.open.store(true, Ordering::SeqCst);
        gate
    }

    /// Waits until the flag is set, for at most `turns` turns, and returns whether it is.
    pub fn turn_until(&self, flag: &AtomicBool) -> bool {
        for _ in 0..self.turns {
            if flag.load(Ordering::SeqCst) {
                return true;
            }
            yield_now();
        }
        flag.load(Ordering::SeqCst)
    }

    /// Lets a closure wait here, unless one has waited in vain before.
    pub fn wait(&self) {
        self.reached.store(true, Ordering::SeqCst);
        if !self.late.load(Ordering::SeqCst) && !self.turn_until(&self.open) {
            self.late.store(true, Ordering::SeqCst);
        }
    }

    /// Returns whether a closure was here, and none continued before the gate was open.
    pub fn was_passed(&self) -> bool {
        self.reached.load(Ordering::SeqCst) && !self.late.load(Ordering::SeqCst)
    }

    /// Returns whether the state observed stays the same until the gate is open, and once after.
    pub fn stays<L: Peek>(&self, look: &mut L) -> bool {
        self.reached.store(true, Ordering::SeqCst);
        for _ in 0..self.turns {
            let is_last = self.open.load(Ordering::SeqCst);
            if !look.is_same() {
                return false;
            }
            if is_last {
                return true;
            }
            yield_now();
        }
        false
    }
}

/// A state that a thread observes while others change a map or set.
pub trait Peek {
    /// Returns whether the state is as it was.
    fn is_same(&mut self) -> bool;
}
