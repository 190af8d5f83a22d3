//! Calls on the shared map that visit each slot of a table: clear, retain and iterations.
//! It uses `papaya_map_change`.
//! `papaya_map` and `papaya_set` have the public calls.
//!
//! Each first takes a root ([`root`]) and then visits its slots ([`slot`]). Clear and retain
//! ([`retain`]) delete pairs by exchanges that the book's rule allows. An iteration ([`walk`]) only
//! loads words, and so does `Debug` ([`printing`]).
#![tactic(auto)]

pub mod printing;
pub mod retain;
pub mod root;
pub mod slot;
pub mod walk;
pub mod yielded;
