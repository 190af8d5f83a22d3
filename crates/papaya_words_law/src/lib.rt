//! The law of exchanges: after any list of allowed exchanges, all tables represent one finite map.
//! It uses `papaya_words` alone, and so speaks of no machine and no backend.
//! `papaya_call_law` applies it to machines, and the proofs of both maps cite it.
//!
//! Start with [`exchanges::one_map`].
#![tactic(auto)]

pub mod exchanges;
