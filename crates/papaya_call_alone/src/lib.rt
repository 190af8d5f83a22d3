//! The law that a call over a chain of tables ends if there is no other caller.
//! It uses the laws of `papaya_call_law`.
//! `papaya_core_timeline` and `papaya_seq` build on it; the map that threads share does not.
//!
//! A measure falls at each of its steps. It combines how many tables and exchanges there may still
//! be, which the backend counts, and how much work is left between two of them.
#![tactic(auto)]

pub mod alone;
pub mod chunks;
pub mod limits;
pub mod scanners;
