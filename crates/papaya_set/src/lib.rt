//! Sets: maps of keys to unit values, both the one that threads share and the one for one caller.
//! It uses `papaya_map` and `papaya_seq`.
//! `papaya_json` and `papaya_reclaiming` build on it, and `papaya` re-exports it.
//!
//! [`set`] has the set that threads share, [`pinned`] its calls, and [`guarded`] those with a
//! guard; [`builder`] has its builder, and [`set::read_only`] the set that nobody changes.
//! [`seq`] is the set for one caller. Each call passes on to the map's.
#![tactic(auto)]

pub mod builder;
mod cloning;
mod collecting;
mod filling;
pub mod guarded;
pub mod iter;
pub mod pinned;
mod printing;
pub mod seq;
pub mod set;
pub mod walks;
