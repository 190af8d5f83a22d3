//! The store of a map on plain words: its tables, the arena of entries, and the count.
//! It performs the steps that the machines of `papaya_call` ask for, and uses `papaya_words_keys`.
//! `papaya_core` and `papaya_seq` keep their maps in it.
#![tactic(auto)]

pub mod arena;
pub mod asks;
pub mod copy_asks;
pub mod pairs;
pub mod performs;
pub mod scans;
pub mod store;
pub mod tables;
