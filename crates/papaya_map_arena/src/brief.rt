//! Locks that threads hold for microseconds.
use std::hint::spin_loop;
use std::sync::{Mutex, MutexGuard};
use std::thread::yield_now;

/// How many times a thread yields to another one before it continues without the lock.
const YIELDS: usize = 10;

/// How many times it tries the lock before each yield.
const TRIES: usize = 100;

/// Tries a lock for some microseconds, and returns its guard. Returns `None` if another thread
/// holds the lock for longer, as a stopped thread does, so that nobody waits for that thread.
pub fn brief_lock<T>(lock: &Mutex<T>) -> Option<MutexGuard<'_, T>> {
    for _ in 0..YIELDS {
        for _ in 0..TRIES {
            if let Some(guard) = lock.try_lock() {
                return Some(guard);
            }
            spin_loop();
        }
        yield_now();
    }
    None
}
