//! A hash map that threads share, and the same map for one caller: `papaya` 0.2.5, proved.
//!
//! This crate re-exports the public items of the crates below, and has no code of its own. Its
//! `specs/` re-export the definitions that a caller's contracts and proofs cite: `Threads`, `Seq`,
//! `Sets`, `Sizes`, `Json` and `Schedule`, and in `Types` the types with their variants. So a
//! caller's line of `crates.txt` names only `papaya`.
//!
//! - [`HashMap`] is the map that threads share, and a [`Session`] is one thread's access to it.
//! - [`HashMap::pin`] returns a [`HashMapRef`], which has all calls. [`HashMap::pass`] returns a
//!   [`Pass`], the record of what one thread has observed.
//! - [`HashMap::builder`] returns a [`HashMapBuilder`], which has a method for each setting of a
//!   map.
//! - [`HashMap::into_read_only`] returns a [`ReadOnly`], which threads can only read, and
//!   [`HashSet::into_read_only`] a [`ReadOnlySet`].
//! - [`ReclaimingMap`] and [`ReclaimingSet`] give back memory while threads go on.
//! - [`HashSet`] is the set that threads share, with its [`HashSetRef`] and its [`HashSetBuilder`].
//! - [`seq::HashMap`] is the map for one caller: changes take `&mut self`. [`seq::HashSet`] is the
//!   set.
//! - [`json`] converts maps and sets to JSON, and reads them from it.
//! - [`schedule`] runs the calls of many callers step by step, in any order that a test chooses.
//! - [`laws`] states facts about the maps that no single call states.
//! - [`raw`] has the words, tables and machines of which the maps and [`schedule::Core`] consist.
//!   [`raw::Machine`] is a call on one table, and [`raw::chain`] has the machines that go on to
//!   further tables.
#![tactic(auto)]

pub use papaya_call::answers::Operation;
pub use papaya_map::builder::HashMapBuilder;
pub use papaya_map::map::read_only::ReadOnly;
pub use papaya_map::map::{HashMap, HashMapRef};
pub use papaya_map::pass::Pass;
pub use papaya_map::session::Session;
pub use papaya_map_scan::walk::{Iter, Keys, Values};
pub use papaya_reclaiming::reclaiming::{Reclaiming, ReclaimingMap, ReclaimingSet};
pub use papaya_set::builder::HashSetBuilder;
pub use papaya_set::set::read_only::ReadOnlySet;
pub use papaya_set::set::{HashSet, HashSetRef};
pub use papaya_words::refused::Refused;
pub use papaya_words::resize_mode::ResizeMode;
pub use papaya_words_keys::guard::{Collector, Equivalent, Guard, LocalGuard, OwnedGuard, TextKey};
pub use papaya_words_keys::results::{Compute, NotInserted, OccupiedError};

/// The handles by which threads enter a map or set that is reclaimed while they go on.
pub mod reclaiming {
    pub use papaya_reclaiming::reclaim::Reclaim;
    pub use papaya_reclaiming::reclaiming::{Entered, Handle, LEAST_STORED};
}

/// The iterators of a read-only map.
pub mod read_only {
    pub use papaya_map::map::read_only::walks::{Iter, Keys, Values};
}

/// The iterator of the set that threads share.
pub mod set {
    pub use papaya_set::iter::Iter;
}

/// The map and the set for one caller.
pub mod seq {
    pub use papaya_core_timeline::outcome::Outcome;
    pub use papaya_seq::seq::HashMap;
    pub use papaya_seq::walks::{Iter, Keys, Values};
    pub use papaya_set::seq::HashSet;
    pub use papaya_words_keys::results::Computed;

    /// The iterator of the set.
    pub mod set {
        pub use papaya_set::walks::Iter;
    }
}

/// Conversion of maps and sets to JSON, and back.
pub mod json {
    pub use papaya_json::from_value::{map_from_value, set_from_value};
    pub use papaya_json::shared::{
        shared_map_from_value, shared_map_to_value, shared_set_from_value, shared_set_to_value,
    };
    pub use papaya_json::to_value::{map_to_value, set_to_value};
}

/// Any number of callers under any schedule of their steps.
pub mod schedule {
    pub use papaya_call::answers::{Answers, Listed};
    pub use papaya_call::ask::{OpKind, StepKind};
    pub use papaya_call::call::{Call, Reply};
    pub use papaya_core::schedule::Core;
    pub use papaya_core_timeline::outcome::Outcome;
    pub use papaya_core_timeline::trace::{Entry, Event, Trace, Turn};
}

/// Results of a shared map with evidence of the history that a session has observed.
pub mod observed {
    pub use papaya_map::observed::{Observed, Saying};
}

/// Laws: functions with an empty body, whose contracts a caller's proof may rely on.
pub mod laws {
    pub use papaya_core_timeline::once::pairs_enter_once;
    pub use papaya_core_timeline::solo::{one_call, one_call_ends};
    pub use papaya_json::laws::{maps_read_back, sets_read_back};
    pub use papaya_seq::laws::{changes_are_found, clones_are_equal};
    pub use papaya_words::probe::places_differ;
    pub use papaya_words::word::words_read_back;
}

/// The parts of the maps: words, places, tables and counts, and the calls on one table as machines.
pub mod raw {
    pub use papaya_call::ask::{Answer, Ask, At, OpKind, StepKind};
    pub use papaya_call::call::{Reply, Task};
    pub use papaya_call::machine::{Machine, State};
    pub use papaya_call::search::{Place, ProbeStep, Search};
    pub use papaya_words::chunks::{chunk_count, chunk_len};
    pub use papaya_words::counter::Counter;
    pub use papaya_words::fresh::FreshWords;
    pub use papaya_words::limits;
    pub use papaya_words::probe::{Probe, entries_for, limit};
    pub use papaya_words::table::{Table, next_len, next_limit, table_len};
    pub use papaya_words::word::{Kind, SHUT, Word, h1, h2, hint, legal, may_hold};

    /// The parts of a [`State`]: what a call is to write, and what it has asked for so far.
    pub mod parts {
        pub use papaya_call::compute::{Gap, Purpose, Put, Remembered};
        pub use papaya_call::made::{Made, Number, Of};
        pub use papaya_call::need::Need;
        pub use papaya_call::remove::Removal;
        pub use papaya_call::write::{Claimed, Write};
    }

    /// The machines that [`super::schedule::Core`] and the maps run, over any number of tables: a
    /// call on a key, a resize and a scan, each with its asks and answers.
    pub mod chain {
        pub use papaya_call::chain::ask::{Answer, Ask, ScanAsk};
        pub use papaya_call::chain::machine::{Machine, Phase};
        pub use papaya_call::chain::resizer::{Resize, Resizer, ResizerState};
        pub use papaya_call::chain::scanner::{Scan, Scanner, ScannerState};
        pub use papaya_call::copy_ask::CopyAsk;
    }
}
