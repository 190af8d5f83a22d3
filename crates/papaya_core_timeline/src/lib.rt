//! Runs of many callers' steps: schedules, traces, and the law that a run has a timeline of maps.
//! It uses `papaya_core_store` and the laws of calls. It has no code that changes a map.
//! `papaya_core` proves its schedules by it, and `papaya_seq` proves the calls of one caller.
#![tactic(auto)]

pub mod once;
pub mod outcome;
pub mod scans;
pub mod seat;
pub mod solo;
pub mod trace;
