//! `Core`, a map on plain words: any number of callers make their steps in any order.
//! It uses `papaya_core_store` and the law of `papaya_core_timeline`.
//! `papaya` re-exports it. `papaya_core_tests` and `papaya_run_lines` run calls by it.
#![tactic(auto)]

pub mod callers;
mod entries;
mod scans;
pub mod schedule;
