//! The library of `papaya-run`: it reads lines from any reader, and runs them on a map.
//! It uses `papaya_core`, `papaya_seq`, `papaya_map` and `papaya_run_shell`.
//! `papaya_run` is the program, and `papaya_run_tests` tests it.
#![tactic(auto)]

pub mod arguments;
pub mod closures;
pub mod commands;
pub mod hashers;
mod line_by_line;
pub mod lines;
pub mod numbers;
pub mod printed;
pub mod replies;
pub mod run;
mod schedule;
pub mod script;
mod seq;
mod shared;
pub mod turns;
pub mod walk;
