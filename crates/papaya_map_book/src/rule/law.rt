//! The rule of the book.
use crate::rule::entry::{Event, Named};
use logbook::{Gain, Rule};
use papaya_gate::rule::{Gated, Tracking};
use papaya_map_cells::hint::Hinting;
use std::hash::{BuildHasher, Hash};
use std::marker::PhantomData;

/// The rule of the book, with a gate beside it for the exchanges that change the map.
pub type Law<K, V, S> = Gated<LogLaw<K, V, S>>;

/// The rule of the book without its gate. The log's exchanges are allowed, the words are those that
/// they leave, and each hint was one of its slot. The book keeps the tokens of all pairs and tables
/// that came, and the rights to make words for tables. Hints are beside words of slots, eight beside
/// one word; a word of a fresh slot, which the book does not track, is 0.
pub struct LogLaw<K, V, S> {
    of: PhantomData<(K, V, S)>,
}

impl<K: Hash + Eq, V, S: BuildHasher> Rule<Event<K, V, S>, Named<K, V>> for LogLaw<K, V, S> {
    ghost use Rattle.std.specs.Prelude.{◌≡◌, []};
    ghost use Rattle.papaya_map_book.specs.Hashes.{hash_of};
    ghost use Rattle.papaya_map_book.specs.Rule.{AreCodes};
    ghost use Rattle.papaya_map_arena.specs.Tokens.{stands as pair_stands};
    ghost use Rattle.papaya_map_book.specs.Tokens.{stands};
    ghost use Rattle.papaya_map_book.specs.Offer.{held, Moved};
    ghost use Rattle.papaya_map_book.specs.contracts.rule.pair.Pair.{the_row as PairOf};
    ghost use Rattle.papaya_map_book.specs.contracts.rule.entry.Sheet.{the_row as SheetRow};

    ghost holds = { λ cells log. AreCodes K.eq (hash_of K.hash_input S.build_hasher S.Hasher.write
        S.Hasher.finish) cells log };

    ghost first = { [] };

    ghost hinted = { λ number log. number ≡ 0 };

    ghost shows = { λ log. log };

    ghost keeps = { λ names log. held (pair_stands (PairOf K.row V.row)) (stands SheetRow) log };

    ghost moves = { λ ask before after answer. Moved ask before after answer };
}

/// The gate is about the exchanges that put a pair in or take one out.
impl<K, V, S> Tracking<Event<K, V, S>> for LogLaw<K, V, S> {
    ghost use Rattle.papaya_map_book.specs.Changes.{is_change};

    ghost tracks = { is_change };
}

impl<K: Hash + Eq, V, S: BuildHasher> Hinting<Event<K, V, S>> for Gated<LogLaw<K, V, S>> {
    ghost use Rattle.papaya_map_book.specs.Hashes.{hash_of};
    ghost use Rattle.papaya_map_book.specs.Hinted.{AreHinted};

    ghost hinted_beside = { AreHinted K.eq (hash_of K.hash_input S.build_hasher S.Hasher.write
        S.Hasher.finish) };
}

/// A gain: the client has the token of what the step found.
pub struct Found<K, V> {
    of: PhantomData<(K, V)>,
}

impl<K, V, S> Gain<Event<K, V, S>, Named<K, V>> for Found<K, V> {
    ghost use Rattle.papaya_map_arena.specs.Tokens.{stands as pair_stands};
    ghost use Rattle.papaya_map_book.specs.Tokens.{stands};
    ghost use Rattle.papaya_map_book.specs.Offer.{shown};
    ghost use Rattle.papaya_map_book.specs.contracts.rule.pair.Pair.{the_row as PairOf};
    ghost use Rattle.papaya_map_book.specs.contracts.rule.entry.Sheet.{the_row as SheetRow};

    ghost after = { λ names about answer. shown (pair_stands (PairOf K.row V.row)) (stands SheetRow)
        answer };
}

/// A gain: the client has the rights to make the words that it requested.
pub struct Drawn;

impl<K, V, S> Gain<Event<K, V, S>, Named<K, V>> for Drawn {
    ghost use Rattle.papaya_map_book.specs.Offer.{drawn};

    ghost after = { λ names about answer. drawn about };
}
