//! The map that threads share: sessions, pinned maps, calls with a guard, and the builder.
//! It uses `papaya_map_lookup`, `papaya_map_change`, `papaya_map_scan` and `papaya_map_compute`.
//! `papaya_set`, `papaya_json` and `papaya_reclaiming` build on it.
//!
//! ```
//! let map: HashMap<u64, u64> = HashMap::new(rt, alloc)?;
//! let mut session = Session::new(&map);
//! session.insert(rt, 1, 10)?;
//! let value = session.get(&1); // Some(&10)
//! ```
//!
//! - [`map`] has the map, and the calls of a pinned map or with a guard, a file for each kind.
//!   [`map::making`] has the constructors, and [`pass`] the pass.
//! - [`session`] has the session, one thread's access to the map, and its calls. A call of a pinned
//!   map or with a guard creates a pass or a session for itself. Eight calls take a pass of their
//!   caller (`get_as` and its like), and a session calls these.
//! - [`collecting`] has the calls that take many entries or copy a map, and [`builder`] the builder
//!   of a map.
//! - [`observed`] has what a call returns beside its result: the evidence of the history that the
//!   result is of.
//!
//! Each call runs its machine by a driver: `papaya_map_lookup` has that of lookups,
//! `papaya_map_change` those of insertions and removals, `papaya_map_compute` that of computes. All
//! build on `papaya_map_book`, whose log records every exchange.
#![tactic(auto)]

pub mod builder;
pub mod collecting;
mod keeping;
pub mod map;
pub mod observed;
pub mod pass;
mod printing;
pub mod session;
