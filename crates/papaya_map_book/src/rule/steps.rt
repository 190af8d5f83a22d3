//! The steps on words: what they request, and what they return.
use crate::rule::entry::{Event, Named, Stored};
use crate::table::Table;
use boxcar::Pushed;
use logbook::{Plain, Play};
use papaya_call::ask::{At, StepKind};
use papaya_gate::steps::PaidPlay;
use std::hash::{BuildHasher, Hash};

/// A word that is to be loaded.
#[derive(Clone, Copy)]
pub struct Sought {
    pub at: At,
}

/// An exchange with which nothing comes: the word and the kind, and the pair that a copy moves, if
/// it moves one.
#[derive(Clone, Copy)]
pub struct Wish<'a, K, V> {
    pub at: At,
    pub kind: Option<StepKind>,
    pub kept: &'a Option<Stored<K, V>>,
}

/// An exchange with which the pair comes that the call has made.
#[derive(Clone, Copy)]
pub struct PutWish<'a, K, V> {
    pub at: At,
    pub kind: Option<StepKind>,
    pub made: &'a Stored<K, V>,
}

/// A load.
pub struct LoadStep;

impl<K, V, S> Plain<Sought, Event<K, V, S>, Named<K, V>> for LoadStep {
    ghost use Rattle.std.specs.Prelude.{None};
    ghost use Rattle.papaya_map_book.specs.declared.rule.entry.Named.TheVariants.{Nothing};
    ghost use Rattle.papaya_map_book.specs.declared.rule.entry.Event.TheVariants.{Wish};

    ghost ask = { λ x. Wish x.at None None Nothing };

    ghost state = { λ x. None };
}

impl<K: Hash + Eq, V, S: BuildHasher> Play<Event<K, V, S>, Named<K, V>> for LoadStep {
    ghost use Rattle.papaya_map_book.specs.Hashes.{hash_of};
    ghost use Rattle.papaya_map_book.specs.Plays.{Looks};

    ghost then = { Looks K.eq (hash_of K.hash_input S.build_hasher S.Hasher.write
        S.Hasher.finish) };
}

/// A table that has come, and is looked up by its number.
#[derive(Clone, Copy)]
pub struct Wanted {
    pub number: u64,
}

/// A load that finds the table of a number, whatever the word holds.
pub struct Fetch;

impl<K, V, S> Plain<Wanted, Event<K, V, S>, Named<K, V>> for Fetch {
    ghost use Rattle.std.specs.Prelude.{None};
    ghost use Rattle.papaya_call.specs.declared.ask.At.TheVariants.{Next};
    ghost use Rattle.papaya_map_book.specs.declared.rule.entry.Named.TheVariants.{Nothing};
    ghost use Rattle.papaya_map_book.specs.declared.rule.entry.Event.TheVariants.{Wish};

    ghost ask = { λ x. Wish (Next x.number) None None Nothing };

    ghost state = { λ x. None };
}

impl<K: Hash + Eq, V, S: BuildHasher> Play<Event<K, V, S>, Named<K, V>> for Fetch {
    ghost use Rattle.papaya_map_book.specs.Hashes.{hash_of};
    ghost use Rattle.papaya_map_book.specs.Fetches.{Fetches};

    ghost then = { Fetches K.eq (hash_of K.hash_input S.build_hasher S.Hasher.write
        S.Hasher.finish) };
}

/// An exchange.
pub struct Try;

impl<'a, K, V, S> Plain<Wish<'a, K, V>, Event<K, V, S>, Named<K, V>> for Try {
    ghost use Rattle.std.specs.Prelude.{None};
    ghost use Rattle.papaya_map_book.specs.declared.rule.entry.Named.TheVariants.{Nothing};
    ghost use Rattle.papaya_map_book.specs.declared.rule.entry.Event.TheVariants.{Wish};

    ghost ask = { λ x. Wish x.at x.kind x.kept.now Nothing };

    ghost state = { λ x. None };
}

impl<'a, K, V, S> Plain<PutWish<'a, K, V>, Event<K, V, S>, Named<K, V>> for Try {
    ghost use Rattle.std.specs.Prelude.{None, Some};
    ghost use Rattle.papaya_map_book.specs.declared.rule.entry.Named.TheVariants.{Pair};
    ghost use Rattle.papaya_map_book.specs.declared.rule.entry.Event.TheVariants.{Wish};

    ghost ask = { λ x. Wish x.at x.kind (Some x.made.now) (Pair x.made.now) };

    ghost state = { λ x. None };
}

impl<K: Hash + Eq, V, S: BuildHasher> Play<Event<K, V, S>, Named<K, V>> for Try {
    ghost use Rattle.papaya_map_book.specs.Hashes.{hash_of};
    ghost use Rattle.papaya_map_book.specs.Plays.{Tries};

    ghost then = { Tries K.eq (hash_of K.hash_input S.build_hasher S.Hasher.write
        S.Hasher.finish) };
}

/// The same for an exchange that pays with the gate.
impl<K: Hash + Eq, V, S: BuildHasher> PaidPlay<Event<K, V, S>, Named<K, V>> for Try {
    ghost use Rattle.papaya_map_book.specs.Hashes.{hash_of};
    ghost use Rattle.papaya_map_book.specs.Plays.{TriesPaid};

    ghost then = { TriesPaid K.eq (hash_of K.hash_input S.build_hasher S.Hasher.write
        S.Hasher.finish) };
}

/// A step that adds the seal of a table, and deals words of the row for it.
pub struct Deal;

/// A step that gives the book its own name.
pub struct NameStep;

/// A step with which a table comes: it is opened or linked.
pub struct Bring;

/// An exchange with which the table comes that the token shows.
#[derive(Clone, Copy)]
pub struct Laying<'a, K: Hash + Eq, V, S: BuildHasher> {
    pub at: At,
    pub kind: Option<StepKind>,
    pub table: &'a Pushed<Table<K, V, S>>,
}

impl<'a, K: Hash + Eq, V, S: BuildHasher> Plain<Laying<'a, K, V, S>, Event<K, V, S>, Named<K, V>>
    for Bring {
    ghost use Rattle.std.specs.Prelude.{None};
    ghost use Rattle.papaya_map_book.specs.declared.rule.entry.Named.TheVariants.{Table};
    ghost use Rattle.papaya_map_book.specs.declared.rule.entry.Event.TheVariants.{Wish};

    ghost ask = { λ x. Wish x.at x.kind None (Table x.table.now) };

    ghost state = { λ x. None };
}

impl<K, V, S> Play<Event<K, V, S>, Named<K, V>> for Deal {
    ghost use Rattle.papaya_map_book.specs.Makers.{Deals};

    ghost then = { Deals };
}

impl<K, V, S> Play<Event<K, V, S>, Named<K, V>> for NameStep {
    ghost use Rattle.papaya_map_book.specs.Makers.{Calls};

    ghost then = { Calls };
}

impl<K: Hash + Eq, V, S: BuildHasher> Play<Event<K, V, S>, Named<K, V>> for Bring {
    ghost use Rattle.papaya_map_book.specs.Hashes.{hash_of};
    ghost use Rattle.papaya_map_book.specs.Makers.{Brings};

    ghost then = { Brings K.eq (hash_of K.hash_input S.build_hasher S.Hasher.write
        S.Hasher.finish) };
}
