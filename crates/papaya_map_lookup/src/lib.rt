//! Lookups on the shared map, and the histories that the contracts of all its calls speak of.
//! It uses `papaya_map_book`.
//! `papaya_map_change` builds on it, and `papaya_map` has the public lookups.
#![tactic(auto)]

pub mod history;
pub mod lookup;
pub mod near;
