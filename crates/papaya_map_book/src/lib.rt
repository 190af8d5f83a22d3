//! The book of a shared map: atomic words, with a ghost log that records every exchange.
//! It uses `papaya_map_arena`, `papaya_map_cells`, `papaya_gate` and the laws of `papaya_call_law`.
//! All calls of the shared map load and exchange words through it.
//!
//! Read [`rule`] first: what the log says ([`rule::entry`]), when an exchange is allowed
//! ([`rule::law`]), and how the tokens of pairs and tables pass between a step and the book. Then
//! [`book`]: its words, the arena of pairs, and tables that are made while other threads act. The
//! methods of [`window::Window`] are loads and exchanges as calls make them.
//!
//! Two steps try exchanges of all kinds: one brings nothing or a pair, and the other a table. A
//! caller proves that its exchange is allowed whenever the word still holds the expected value; the
//! machines' laws state just that.
#![tactic(auto)]

pub mod book;
pub mod cell;
pub mod copy_steps;
pub mod count;
pub mod fresh;
pub mod keyed;
pub mod rule;
pub mod table;
pub mod window;
