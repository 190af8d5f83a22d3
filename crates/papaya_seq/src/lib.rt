//! The map for one caller: changes take `&mut self`, and contracts are exact.
//! It uses `papaya_core_store`, and the laws of `papaya_core_timeline` and `papaya_call_alone`.
//! The set for one caller, `papaya_json` and `build_seq` of `papaya_map` build on it.
#![tactic(auto)]

mod chunk;
mod clearing;
mod cloning;
mod collecting;
mod comparing;
mod computes;
mod insertion;
pub mod laws;
mod lookup;
mod operating;
mod printing;
mod removal;
mod resizing;
mod retaining;
mod search;
pub mod seq;
pub mod walks;
mod writing;
