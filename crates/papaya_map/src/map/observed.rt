//! The first halves of the calls without a pass, and of those with a guard. Each creates a pass or
//! a session for itself, and returns an [`Observed`](crate::observed::Observed), or that session.
mod computes;
mod inserting;
mod lookups;
mod removals;
mod resizing;
mod scans;
mod updating;
