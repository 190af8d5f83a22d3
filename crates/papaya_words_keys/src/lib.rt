//! Types in the signatures of calls: keys, guards and results. Checks of the sizes of new maps.
//! It uses `papaya_words` and `papaya_call`.
//! `papaya_core_store` and `papaya_map_book`, which store all maps, build on it.
#![tactic(auto)]

pub mod guard;
pub mod results;
pub mod sizes;
