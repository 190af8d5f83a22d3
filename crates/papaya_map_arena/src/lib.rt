//! An arena that threads share: it only grows, and values never move.
//! It uses the slots and counters of `papaya_map_cells`.
//! `papaya_map_book` stores the entries of a shared map in it.
//!
//! Begin with [`arena`]. A value's location follows from its number by a shift and a mask, without
//! a search for the highest bit. A row is made when its first slot is needed. Pushes write the
//! counters of several lanes, on other cache lines than the words that lookups read.
#![tactic(auto)]

pub mod arena;
pub mod brief;
pub(crate) mod lanes;
pub mod row;
pub mod token;
