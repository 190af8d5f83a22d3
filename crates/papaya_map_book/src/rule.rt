//! The rule of the book. Only contracts see the log, so most of this is never built.

pub mod entry;
pub mod law;
pub mod offer;
pub mod own;
pub mod pair;
pub mod steps;
pub mod token;
