//! The exchange of tokens between a step and the book. A token goes to the book with what comes,
//! and a step that finds a name in a word gains its token.
ghost use Rattle.std.specs.Prelude.{◌≡◌, [], ◌∷◌, None};
ghost use Rattle.papaya_map_book.specs.declared.rule.entry.Named.TheVariants.{Nothing, Pair as PairNamed, Table as TableNamed};
ghost use Rattle.papaya_map_book.specs.declared.rule.entry.Event.TheVariants.{Begin, Called, Draw};
ghost use Rattle.papaya_map_book.specs.Logs.{brought};
ghost use Rattle.papaya_map_book.specs.Parts.{begun_of};
ghost use Rattle.papaya_map_book.specs.Rows.{row_len};
ghost use Rattle.papaya_map_book.specs.Offer.{LeavesRow};
ghost use Rattle.papaya_gate.specs.Kept.{inner_names};

use crate::book::parts::Parts;
use crate::rule::entry::{Event, Named};
use crate::rule::law::{Drawn, Found, Law, LogLaw};
use crate::rule::pair::Pair;
use crate::rule::token::Known;
use crate::table::Table;
use logbook::{Gained, Pens, Plain, Start};
use papaya_map_arena::token::Known as KnownPair;
use std::hash::{BuildHasher, Hash};
use std::marker::PhantomData;

/// The part of the log that a thread has observed.
pub type Seen<K, V, S> = logbook::Seen<Event<K, V, S>, Named<K, V>, Law<K, V, S>>;

/// A client's update of the book. It is over the rule without the gate, which a step adds.
pub type Offer<K, V, S> = logbook::Offer<Event<K, V, S>, Named<K, V>, LogLaw<K, V, S>, Found<K, V>>;

/// A client's update that draws words of the row.
pub type Drawing<K, V, S> = logbook::Offer<Event<K, V, S>, Named<K, V>, LogLaw<K, V, S>, Drawn>;

/// Returns an update with which nothing comes. It gains the token of what the word names.
pub fn bare<K: Hash + Eq, V, S: BuildHasher, X, M: Plain<X, Event<K, V, S>, Named<K, V>>>(
    seen: &Seen<K, V, S>,
    about: &X,
) -> Offer<K, V, S>
    requires { (brought (M.ask about.now) ≡ Nothing) × LeavesRow (M.ask about.now) }
    ensures { (result.names ≡ inner_names seen.now.names) × (result.ask ≡ M.ask about.now) × (result.about ≡ [])
        × (result.state ≡ None) }
{
    logbook::Offer {
        marker: PhantomData,
    }
}

/// Returns an update with which the pair of the token comes.
pub fn with_pair<K: Hash + Eq, V, S: BuildHasher, X, M: Plain<X, Event<K, V, S>, Named<K, V>>>(
    seen: &Seen<K, V, S>,
    about: &X,
    known: KnownPair<Pair<K, V>>,
) -> Offer<K, V, S>
    requires { brought (M.ask about.now) ≡ PairNamed known.at }
    ensures { (result.names ≡ inner_names seen.now.names) × (result.ask ≡ M.ask about.now) × (result.about ≡ [])
        × (result.state ≡ None) }
{
    let KnownPair { marker: _ } = known;
    logbook::Offer {
        marker: PhantomData,
    }
}

/// Returns an update with which the table of the token comes.
pub fn with_table<K: Hash + Eq, V, S: BuildHasher, X, M: Plain<X, Event<K, V, S>, Named<K, V>>>(
    seen: &Seen<K, V, S>,
    about: &X,
    known: Known<Table<K, V, S>>,
) -> Offer<K, V, S>
    requires { brought (M.ask about.now) ≡ TableNamed known.at }
    ensures { (result.names ≡ inner_names seen.now.names) × (result.ask ≡ M.ask about.now) × (result.about ≡ [])
        × (result.state ≡ None) }
{
    let Known { marker: _ } = known;
    logbook::Offer {
        marker: PhantomData,
    }
}

/// Returns the evidence of the pair that the step's word named.
pub fn pair_known<K, V, S>(
    gained: Gained<Event<K, V, S>, Named<K, V>, Found<K, V>>,
) -> KnownPair<Pair<K, V>>
    requires { (p : _) × (gained.answer ≡ PairNamed p) }
    ensures { gained.answer ≡ PairNamed result.at }
{
    let Gained { marker: _ } = gained;
    KnownPair {
        marker: PhantomData,
    }
}

/// Returns the evidence of the table that the step's word named.
pub fn table_known<K: Hash + Eq, V, S: BuildHasher>(
    gained: Gained<Event<K, V, S>, Named<K, V>, Found<K, V>>,
) -> Known<Table<K, V, S>>
    requires { (w : _) × (gained.answer ≡ TableNamed w) }
    ensures { gained.answer ≡ TableNamed result.at }
{
    let Gained { marker: _ } = gained;
    Known {
        marker: PhantomData,
    }
}

/// Returns an update that gives a new book its name and the row of words.
pub fn with_row<K: Hash + Eq, V, S: BuildHasher>(
    seen: &Seen<K, V, S>,
    row: &mut Pens,
) -> Offer<K, V, S>
    requires { (row.old.next ≡ 3) × (row.old.left ≡ row_len) }
    ensures { (result.names ≡ inner_names seen.now.names) × (result.ask ≡ Called row.old.book)
        × (result.about ≡ []) × (result.state ≡ None) }
{
    logbook::Offer {
        marker: PhantomData,
    }
}

/// Returns an update that draws this many words of the row, from this one on.
pub fn drawing<K: Hash + Eq, V, S: BuildHasher>(
    seen: &Seen<K, V, S>,
    first: u64,
    count: u64,
) -> Drawing<K, V, S>
    ensures { (result.names ≡ inner_names seen.now.names) × (result.ask ≡ Draw seen.now.book first count)
        × (result.about ≡ Draw seen.now.book first count ∷ []) × (result.state ≡ None) }
{
    logbook::Offer {
        marker: PhantomData,
    }
}

/// Returns what clients keep of the first log: nothing.
pub fn begin<K: Hash + Eq, V, S: BuildHasher>(
    begun: &Parts<K, V, S>,
) -> Start<Event<K, V, S>, Named<K, V>, LogLaw<K, V, S>>
    ensures { (result.names ≡ []) × (result.shown ≡ Begin (begun_of begun.now) ∷ []) }
{
    Start {
        marker: PhantomData,
    }
}
