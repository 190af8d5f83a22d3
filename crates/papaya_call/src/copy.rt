//! The copy of a table to the next one, as machines that ask for one atomic step at a time.
//!
//! Each is small and is used by the one after it. A table is linked, a pair is carried to a table,
//! a slot is settled, a chunk of slots is copied, and a call copies what it needs.

pub mod carry;
pub mod copying;
pub mod link;
pub mod settle;
pub mod step;
