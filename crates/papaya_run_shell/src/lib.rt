//! The common part of the programs: failures, arguments, and readers for their tests.
//! It uses `papaya_words`.
//! All programs but `shop` build on it.
#![tactic(auto)]

pub mod failure;
pub mod fakes;
pub mod start;
