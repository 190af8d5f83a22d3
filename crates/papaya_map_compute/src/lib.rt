//! Computes on the shared map: calls whose closure or rule decides what becomes of an entry.
//! It uses `papaya_map_change`.
//! `papaya_map` has the public computes, updates and upserts.
//!
//! [`operating`] has the one compute, generic over how it calls either: its fast path, and the loop
//! of its slow one. [`lending`] calls it with a closure that borrows the pair. [`deciding`] runs
//! its slow path with one of the [`rules`], and has a fast path of its own. The steps of both paths
//! name neither: [`fast_path`] has those that are done at once, and [`slow_path`] those of the
//! machine. So `papaya_map` has both paths for a closure that may keep its argument.
#![tactic(auto)]

pub mod deciding;
pub mod fast_path;
pub mod lending;
pub mod operating;
pub mod rules;
pub mod slow_path;
