//! The search of one table for a key.
ghost use Rattle.std.specs.Prelude.{◌≡◌, ◌<◌, ◌^◌};
ghost use Rattle.papaya_call.specs.Search.{IsSize, IsWithin, IsSearching, IsProbed, first_place, go_on, hinted, look, ask_of, at_size, at_word, at_yes};

use crate::ask::{Ask, At};
use papaya_words::probe::Probe;
use papaya_words::word::{Kind, Word, h1, may_hold};

/// A place of a key in a table. A search carries its table's size with it, so that it asks for the
/// size once a table. The size never changes.
#[derive(Clone, Copy)]
pub struct Place {
    /// The table's number.
    pub table: u64,
    /// The number of slots of the table, a power of two.
    pub len: usize,
    /// The probe limit: how many places after the first a search looks at.
    pub limit: usize,
    /// The slot, and how many places came before it.
    pub probe: Probe,
}

/// A search of one table, between two answers.
#[derive(Clone, Copy)]
pub enum Search {
    /// Asks for the size of this table.
    Sizing(u64),
    /// Loads the hint of this place.
    Looking(Place),
    /// The hint is 0 or the key's: loads the word at this place.
    Reading(Place),
    /// Compares the key of the pair that this word names, which was loaded at this place.
    Comparing(Place, u64),
}

/// The outcome of an answer to a search.
#[derive(Clone, Copy)]
pub enum ProbeStep {
    /// The search continues.
    On(Search),
    /// Nothing was ever written at this place, so the key is not here.
    Empty(Place),
    /// The word at this place names a pair with a matching key.
    Here(Place, u64),
    /// The key is not in this table, but may be in the next.
    Over(u64),
}

impl Place {
    /// Returns the first place of a key with this hash.
    #[inline(always)]
    pub fn first(hash: u64, table: u64, len: usize, limit: usize) -> Place
        requires { IsSize len limit }
        ensures value { result ≡ first_place hash table len limit }
        ensures within { IsWithin result }
    {
        Place {
            table,
            len,
            limit,
            probe: Probe::start(h1(hash), len - 1),
        }
    }

    /// Returns whether the search passed more than a quarter of the places that it may look at. The
    /// table then has few empty places left, and will soon get a next one.
    #[inline(always)]
    pub fn is_crowded(&self) -> bool {
        self.probe.len > self.limit / 4
    }

    /// Moves to the next place, if there is one.
    #[inline(always)]
    fn go_on(mut self) -> ProbeStep
        requires { IsWithin self }
        ensures value { result ≡ go_on self }
        ensures seen { IsProbed result }
    {
        if self.probe.len < self.limit {
            self.probe.next(self.len - 1);
            ProbeStep::On(Search::Looking(self))
        } else {
            ProbeStep::Over(self.table)
        }
    }

    /// Continues with the hint of the place. The hint of another key, or of a sealed slot, saves
    /// loading the word.
    #[inline(always)]
    pub fn hinted(self, hash: u64, found: u64) -> ProbeStep
        requires { IsWithin self }
        ensures value { result ≡ hinted self hash found }
        ensures seen { IsProbed result }
    {
        if may_hold(found, hash) {
            ProbeStep::On(Search::Reading(self))
        } else {
            self.go_on()
        }
    }

    /// Continues with the word at the place.
    #[inline(always)]
    pub fn look(self, word: u64) -> ProbeStep
        requires { IsWithin self }
        ensures value { result ≡ look self word }
        ensures seen { IsProbed result }
    {
        match Word(word).kind() {
            Kind::Empty => ProbeStep::Empty(self),
            Kind::Live | Kind::Marked | Kind::Copied => ProbeStep::On(Search::Comparing(
                self, word,
            )),
            Kind::Buried | Kind::Closed => self.go_on(),
        }
    }
}

impl Search {
    /// Returns the next ask of the search.
    #[inline(always)]
    pub fn ask(self) -> Ask
        ensures { result ≡ ask_of self }
    {
        match self {
            Search::Sizing(table) => Ask::SizeOf(table),
            Search::Looking(place) => Ask::LoadHint(place.table, place.probe.i),
            Search::Reading(place) => Ask::Load(At::Slot(place.table, place.probe.i)),
            Search::Comparing(_, word) => Ask::SameKey(Word(word).pair()),
        }
    }

    /// Continues with the size of the table.
    #[inline(always)]
    pub fn at_size(self, hash: u64, len: usize, limit: usize) -> Search
        requires searching { IsSearching self }
        requires size { IsSize len limit }
        ensures value { result ≡ at_size self hash len limit }
        ensures searching { IsSearching result }
    {
        match self {
            Search::Sizing(table) => Search::Looking(Place::first(hash, table, len, limit)),
            search => search,
        }
    }

    /// Continues with the word or the hint that was loaded.
    #[inline(always)]
    pub fn at_word(self, hash: u64, word: u64) -> ProbeStep
        requires { IsSearching self }
        ensures value { result ≡ at_word self hash word }
        ensures seen { IsProbed result }
    {
        match self {
            Search::Looking(place) => place.hinted(hash, word),
            Search::Reading(place) => place.look(word),
            search => ProbeStep::On(search),
        }
    }

    /// Continues with whether the keys match. A pair that was copied is found in a later table.
    #[inline(always)]
    pub fn at_yes(self, yes: bool) -> ProbeStep
        requires { IsSearching self }
        ensures value { result ≡ at_yes self yes }
        ensures seen { IsProbed result }
    {
        match self {
            Search::Comparing(place, word) => {
                if !yes {
                    place.go_on()
                } else if Word(word).kind() == Kind::Copied {
                    ProbeStep::Over(place.table)
                } else {
                    ProbeStep::Here(place, word)
                }
            }
            search => ProbeStep::On(search),
        }
    }
}
