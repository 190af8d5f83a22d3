//! The parts that a call has stored for its pairs, and those that the next pair still needs.
ghost use Rattle.std.specs.Prelude.{◌≡◌, ◌<◌, ◌^◌};
ghost use Rattle.papaya_call.specs.Made.{IsGrown, IsMade, IsMadeOrNone, answered, grown, nothing_made, number_kind, pair_ask, serves_at, taken, told, wanted};

use crate::ask::{Ask, At, OpKind, StepKind};
use crate::search::Place;
use papaya_words::word::Word;

/// The progress of a call towards a number for its next pair, in a map that limits them.
#[derive(Clone, Copy)]
pub enum Number {
    /// Loads how many were taken.
    Wanted,
    /// This many were taken, which is below the limit: takes the next.
    Free(u64),
    /// The call has taken a number, or needs none.
    Taken,
}

/// A pair that was made with the key of a pair in a slot. It serves in that slot only, because a
/// slot's key never changes and no other slot is known to have just this key.
#[derive(Clone, Copy)]
pub struct Of {
    /// The number of the pair that was made.
    pub pair: u64,
    /// The table of the slot.
    pub table: u64,
    /// The slot's index in it.
    pub index: usize,
}

impl Of {
    /// Returns whether the pair was made for this place.
    #[inline]
    pub fn serves(self, place: Place) -> bool
        ensures { result ≡ serves_at self place.table place.probe.i }
    {
        self.table == place.table && self.index == place.probe.i
    }
}

/// What a call has asked for so far. It asks for its key once, and for each value once, before the
/// first pair that has it. A pair is made before the first word that names it. It serves every
/// attempt at an exchange for which its key is the right one.
#[derive(Clone, Copy)]
pub struct Made {
    /// How many pairs may be stored, if there is a limit.
    pub limit: Option<u64>,
    /// The number of the next pair.
    pub number: Number,
    /// Whether the backend has answered `MakeKey`.
    pub keyed: bool,
    /// Whether the backend has answered `MakeValue` for the next pair.
    pub valued: bool,
    /// The pair of the call's own key that an insertion made, for an empty place.
    pub own: Option<u64>,
    /// The last pair that an insertion made with a key that it met.
    pub of: Option<Of>,
}

/// The outcome of one thing that was made for a pair.
#[derive(Clone, Copy)]
pub enum Grown {
    /// More must be made before the pair.
    On(Made),
    /// The pair was made.
    Pair(Made),
}

impl Number {
    /// Returns the first state: a number is needed if there is a limit.
    #[inline(always)]
    pub fn wanted(limit: Option<u64>) -> Number
        ensures { result ≡ wanted limit }
    {
        match limit {
            None => Number::Taken,
            Some(_) => Number::Wanted,
        }
    }
}

impl Made {
    /// Returns a state in which nothing is stored yet.
    #[inline(always)]
    pub fn nothing(limit: Option<u64>) -> Made
        ensures value { result ≡ nothing_made limit }
        ensures made { IsMade result }
    {
        Made {
            limit,
            number: Number::wanted(limit),
            keyed: false,
            valued: false,
            own: None,
            of: None,
        }
    }

    /// Returns the next ask for a pair that is to replace this word: a number, then the key if the
    /// word is empty, then the value, then the pair.
    #[inline(always)]
    pub fn ask(self, old: u64) -> Ask
        requires { IsMade self }
        ensures { result ≡ pair_ask self old }
    {
        match self.number {
            Number::Wanted => Ask::Load(At::Made),
            Number::Free(count) => Ask::Exchange(At::Made, count, count + 1),
            Number::Taken if old == 0 && !self.keyed => Ask::MakeKey,
            Number::Taken if !self.valued => Ask::MakeValue,
            Number::Taken if old == 0 => Ask::MakePair,
            Number::Taken => Ask::MakePairOf(Word(old).pair()),
        }
    }

    /// Returns the exchange's kind, if the next ask is an exchange.
    #[inline]
    pub fn kind(self) -> Option<StepKind>
        ensures { result ≡ number_kind self.number }
    {
        match self.number {
            Number::Free(_) => Some(StepKind::Take),
            Number::Wanted | Number::Taken => None,
        }
    }

    /// Continues with the count of numbers taken. Returns `None` if the limit is reached.
    #[inline]
    pub fn told(self, count: u64) -> Option<Made>
        requires { IsMade self }
        ensures value { result ≡ told self count }
        ensures made { IsMadeOrNone result }
    {
        if let Number::Taken = self.number {
            return Some(self);
        }
        match self.limit {
            None => Some(Made {
                number: Number::Taken,
                ..self
            }),
            Some(limit) if count < limit => Some(Made {
                number: Number::Free(count),
                ..self
            }),
            Some(_) => None,
        }
    }

    /// Continues after the number was taken.
    #[inline]
    pub fn taken(self) -> Made
        requires { IsMade self }
        ensures value { result ≡ taken self }
        ensures made { IsMade result }
    {
        match self.number {
            Number::Free(_) => Made {
                number: Number::Taken,
                ..self
            },
            Number::Wanted | Number::Taken => self,
        }
    }

    /// Continues after the thing asked for was stored, for a pair that is to replace this word.
    #[inline(always)]
    pub fn grown(self, old: u64) -> Grown
        requires { IsMade self }
        ensures value { result ≡ grown self old }
        ensures grown { IsGrown result }
    {
        match self.number {
            Number::Wanted | Number::Free(_) => Grown::On(self),
            Number::Taken if old == 0 && !self.keyed => Grown::On(Made {
                keyed: true,
                ..self
            }),
            Number::Taken if !self.valued => Grown::On(Made {
                valued: true,
                ..self
            }),
            Number::Taken => Grown::Pair(Made {
                number: Number::wanted(self.limit),
                ..self
            }),
        }
    }

    /// Continues with the result of a compute's closure. Its value, if any, is yet to be stored.
    #[inline]
    pub fn answered(self, kind: OpKind) -> Made
        requires { IsMade self }
        ensures value { result ≡ answered kind self }
        ensures made { IsMade result }
    {
        match kind {
            OpKind::Insert => Made {
                valued: false,
                ..self
            },
            OpKind::Remove | OpKind::Abort(_) => self,
        }
    }
}
