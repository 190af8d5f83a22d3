//! Maps and sets as JSON values of `serde_json`, and back.
//! It uses `papaya_seq`, `papaya_map` and `papaya_set`.
//! Only `papaya` and tests build on it.
#![tactic(auto)]

pub mod from_value;
pub mod laws;
pub mod shared;
pub mod to_value;
