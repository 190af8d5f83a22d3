//! The library of `papaya-bench`: plans of workloads, comparisons of the maps' results, and times.
//! It uses `papaya_seq`, `papaya_map`, `papaya_set` and `papaya_reclaiming`.
//! `papaya_bench` is the program, and `papaya_run_tests` tests it.
#![tactic(auto)]

pub mod action;
pub mod answers;
pub mod arguments;
mod backends;
mod collections;
pub mod draw;
mod entered;
pub mod growth;
mod idle;
mod lines;
mod memory;
pub mod percentile;
pub mod plan;
pub mod reclaim;
mod rivals;
pub mod run;
mod seq;
mod shared;
pub mod shared_growth;
pub mod soak;
pub mod soak_plan;
mod steps;
mod texts;
