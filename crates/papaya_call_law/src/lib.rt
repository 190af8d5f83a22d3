//! The laws of machines: what each relies on while others exchange words, and what it replies.
//! It uses `papaya_call` and the law of exchanges in `papaya_words_law`.
//! The proofs of all three backends build on it: of schedules, of one caller and of threads.
//!
//! A backend that answers truly needs only these laws and never looks into a machine: [`relies`]
//! for a call on one table under any schedule, [`chain`] for a call over many, [`alone`] for a call
//! whose words nobody else changes, and [`loads`] for how much a lookup loads. [`copies`],
//! [`resizers`] and [`scanners`] are the laws of the other machines.
#![tactic(auto)]

pub mod alone;
pub mod chain;
pub mod copies;
pub mod loads;
pub mod relies;
pub mod resizers;
pub mod scanners;
