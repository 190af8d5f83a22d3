//! Maps and sets that give back memory while threads go on.
//! It uses `papaya_map` and `papaya_set`.
//! `papaya` and `papaya_bench_measure` build on it.
//!
//! A map keeps each entry that was replaced or removed until it is reclaimed, and reclaiming takes
//! `&mut`. [`reclaiming::Reclaiming`] lends a map to any number of threads, and reclaims it as soon
//! as each of them has come back once.
//!
//! ```
//! let map: ReclaimingMap<u64, u64> = Reclaiming::new(alloc, HashMap::new(rt, alloc)?)?;
//! let mut handle = map.handle(); // one for each thread
//! handle.enter(rt).pin().insert(rt, 1, 10)?;
//! let reclaimed = handle.reclaim_if(rt, 2)?; // false, since only one entry is stored
//! ```
#![tactic(auto)]

pub mod reclaim;
pub mod reclaiming;
