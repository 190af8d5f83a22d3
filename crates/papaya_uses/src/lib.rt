//! Fourteen small callers of `papaya`, proved and run, to copy from.
//! It uses `papaya` alone, as a caller does.
//! Only its tests build on it.
//!
//! For one owner: a word count, and a cache with a limit. By sessions: settings and hits that
//! threads share, a table of who is signed in, and registries of counters and of metrics. Also
//! texts by numbers, a table of routes, and a set of items that were met. Across threads: outcomes
//! of jobs, which one thread reports and another one reads, and prices that threads record and then
//! only read. For a server that runs for months: logins that end at a time, and a cache with a limit
//! that threads share. `reached` has no caller to copy: it names what the others do not need.
#![tactic(auto)]

pub mod cache;
pub mod counters;
pub mod hits;
pub mod interner;
pub mod jobs;
pub mod logins;
pub mod metrics;
pub mod pages;
pub mod prices;
pub mod reached;
pub mod routes;
pub mod seen;
pub mod sessions;
pub mod settings;
pub mod words;
