//! The calls of the map, as machines that ask for one atomic step at a time.
//! It uses `papaya_words` alone.
//! `papaya_core`, `papaya_seq` and `papaya_map` run its machines; `papaya_call_law` has their laws.
//!
//! A machine is plain data and accesses no word and no memory: a backend answers what it asks. So
//! the same machines run for one caller, for any schedule of callers, and on threads.
//!
//! [`ask`] has asks and answers, and [`search`] the search of one table. [`machine`] is a call on
//! one table, [`copy`] the copy of a table to the next one, and [`chain`] a call over many tables.
#![tactic(auto)]

pub mod answers;
pub mod ask;
pub mod call;
pub mod chain;
pub mod compute;
pub mod copy;
pub mod copy_ask;
pub mod machine;
pub mod made;
pub mod need;
pub mod remove;
pub mod search;
pub mod write;
