//! Helpers that tests share: hashers, places where threads meet, and calls that run out of memory.
//! It uses `papaya_words` and `papaya_words_keys`.
//! Crates of tests build on it, except `papaya_run_tests` and `papaya_uses_tests`.
//!
//! [`same`] and [`times`] have hashers, [`labels`] keys with a part that comparisons ignore, and
//! [`laws`] the laws of queries and guards. [`gate`] and [`crossing`] have places where threads wait
//! for each other, and [`heap`] and [`tries`] calls that run out of memory. `tests/refused.py` puts a
//! heap below the tests that refuses requests, or holds up a thread, at their command. Without it
//! nothing is refused or held up, and each call succeeds at once.
#![tactic(auto)]

pub mod crossing;
pub mod gate;
pub mod heap;
pub mod labels;
pub mod laws;
pub mod same;
pub mod times;
pub mod tries;
