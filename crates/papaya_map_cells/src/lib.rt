//! Atomic words that no log records: arena slots, which are written once, their counter, hints.
//! It uses the kit's `logbook`, `boxcar` and `atomic_table`, and no crate of this repository.
//! `papaya_map_arena` is made of the arena slots, and `papaya_map_book` stores hints in its tables.
//!
//! [`tickets::TicketCounter`] gives each number to one caller, with a [`arena_slot::Right`] of no
//! bytes. An [`arena_slot::ArenaSlot`] belongs to a counter and a number. It holds a blank until
//! the value is written. To read the value, a caller needs an [`arena_slot::Written`], which has no
//! bytes either.
//!
//! [`hint::Hint`] is a number beside a word of a book, which states something lasting about it. The
//! book does not track the number. A word and its hint can be written ahead, while no book tracks
//! the word. Then both are fresh, and hold 0. [`hint::track`] and [`hint::Hint::stand_beside`] let
//! a book track them in place.
#![tactic(auto)]

pub mod arena_slot;
pub mod hint;
pub mod tickets;
