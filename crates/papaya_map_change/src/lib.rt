//! Insertions, removals and resizes on the shared map: fast paths, and drivers of machines.
//! It uses `papaya_map_lookup` and `papaya_map_book`.
//! `papaya_map_compute` and `papaya_map_scan` build on it, and `papaya_map` has the public calls.
#![tactic(auto)]

mod chunks;
pub mod copier;
pub mod driver;
pub mod fast_path;
pub mod fast_removal;
pub mod helping;
pub mod insertion;
pub mod removal;
pub mod resizing;
mod settling;
pub mod writer;
