//! The parts of a map that its book is opened with.
use crate::rule::entry::Event;
use crate::rule::pair::Pair;
use crate::table::Table;
use logbook::Opening;
use papaya_map_arena::arena::Arena;
use papaya_words::resize_mode::ResizeMode;
use std::hash::{BuildHasher, Hash};

/// The hasher, the resize mode, the limit on pairs if there is one, and the arenas of pairs and of
/// tables. A pair or a table stays where it was stored.
pub struct Parts<K: Hash + Eq, V, S: BuildHasher> {
    pub hasher: S,
    pub mode: ResizeMode,
    pub limit: Option<u64>,
    pub pairs: Arena<Pair<K, V>>,
    pub tables: boxcar::Vec<Table<K, V, S>>,
}

impl<K: Hash + Eq + Drop, V: Drop, S: BuildHasher + Drop> Drop for Parts<K, V, S> {
    fn drop(self) {
        let Self {
            hasher: _,
            mode: _,
            limit: _,
            pairs: _,
            tables: _,
        } = self;
    }
}

/// The first log has what the book was opened with.
pub struct OpeningLog;

impl<K: Hash + Eq, V, S: BuildHasher> Opening<Parts<K, V, S>, Event<K, V, S>> for OpeningLog {
    ghost use Rattle.std.specs.Prelude.{[], ◌∷◌};
    ghost use Rattle.papaya_map_book.specs.declared.rule.entry.Event.TheVariants.{Begin};
    ghost use Rattle.papaya_map_book.specs.Parts.{begun_of};

    ghost log = { λ n p. Begin (begun_of p) ∷ [] };
}
