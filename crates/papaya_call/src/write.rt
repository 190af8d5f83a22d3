//! The write of an insertion at one place.
ghost use Rattle.std.specs.Prelude.{◌≡◌, ◌<◌, ◌^◌};
ghost use Rattle.papaya_call.specs.Made.{IsMade, IsOwn};
ghost use Rattle.papaya_call.specs.Write.{made_of, note_ask, put_ask, serves, with_pair_at, write_ask, write_grown, write_kind};

use crate::ask::{Ask, At, StepKind};
use crate::made::{Grown, Made, Of};
use crate::search::Place;
use papaya_words::word::{Word, hint};

/// A write of a pair at this place, over the word that was found there.
#[derive(Clone, Copy)]
pub struct Write {
    /// The place where the pair will be.
    pub place: Place,
    /// 0, or a word that names a pair with a matching key.
    pub old: u64,
}

impl Write {
    /// Returns the pair that an insertion made and that may be written here, if there is one. If
    /// the place is empty its key is the call's own, and otherwise the key that is there.
    #[inline(always)]
    pub fn served(self, made: Made) -> Option<u64>
        ensures value { result ≡ serves made self }
        ensures served { IsMade made → IsOwn result }
    {
        if self.old == 0 {
            return made.own;
        }
        match made.of {
            Some(of) if of.serves(self.place) => Some(of.pair),
            _ => None,
        }
    }

    /// Returns the exchange that writes the pair of this number here.
    #[inline(always)]
    pub fn put(self, pair: u64) -> Ask
        requires { pair < 2 ^ 48 }
        ensures { result ≡ put_ask self pair }
    {
        Ask::Exchange(
            At::Slot(self.place.table, self.place.probe.i),
            self.old,
            Word::live(pair).0,
        )
    }

    /// Returns the next ask of an insertion: for a part that its pair needs, or the exchange.
    #[inline(always)]
    pub fn ask(self, made: Made) -> Ask
        requires { IsMade made }
        ensures { result ≡ write_ask self made }
    {
        match self.served(made) {
            None => made.ask(self.old),
            Some(pair) => self.put(pair),
        }
    }

    /// Continues after the pair of this number was made for this place.
    #[inline(always)]
    pub fn with_pair(self, made: Made, pair: u64) -> Made
        requires made { IsMade made }
        requires pair { pair < 2 ^ 48 }
        ensures value { result ≡ with_pair_at made self pair }
        ensures made { IsMade result }
    {
        if self.old == 0 {
            return Made {
                own: Some(pair),
                ..made
            };
        }
        Made {
            of: Some(self.of(pair)),
            ..made
        }
    }

    /// Returns the pair of this number, as one that was made with the key that is here.
    #[inline]
    pub fn of(self, pair: u64) -> Of
        ensures { result ≡ made_of self pair }
    {
        Of {
            pair,
            table: self.place.table,
            index: self.place.probe.i,
        }
    }

    /// Continues with the answer to an ask that makes a part of a pair, or the pair. `number` is the
    /// pair's if the pair was made.
    #[inline]
    pub fn grown(self, made: Made, number: u64) -> Made
        requires made { IsMade made }
        requires number { number < 2 ^ 48 }
        ensures value { result ≡ write_grown (serves made self) made self number }
        ensures made { IsMade result }
    {
        if self.served(made).is_some() {
            return made;
        }
        match made.grown(self.old) {
            Grown::On(made) => made,
            Grown::Pair(made) => self.with_pair(made, number),
        }
    }

    /// Returns the kind of the exchange, which decides under what conditions it is allowed.
    #[inline]
    pub fn kind(self) -> StepKind
        ensures { result ≡ write_kind self }
    {
        if self.old == 0 {
            StepKind::Claim
        } else {
            StepKind::Replace
        }
    }
}

/// A pair that was claimed, and its place.
#[derive(Clone, Copy)]
pub struct Claimed {
    pub place: Place,
    /// The pair's number.
    pub pair: u64,
}

impl Claimed {
    /// Returns the ask that writes the hint of the pair's key, which has this hash. It comes after
    /// the pair, so that no hint names a key that the slot may not hold.
    #[inline(always)]
    pub fn note(self, hash: u64) -> Ask
        ensures { result ≡ note_ask self hash }
    {
        Ask::WriteHint(self.place.table, self.place.probe.i, hint(hash))
    }
}
