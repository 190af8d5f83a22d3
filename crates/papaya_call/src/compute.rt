//! The data of a compute between its closure's result and its change.
ghost use Rattle.std.specs.Prelude.{◌≡◌, ◌<◌, ◌^◌};
ghost use Rattle.papaya_call.specs.declared.call.Task.{Task};
ghost use Rattle.papaya_call.specs.declared.call.Task.TheVariants.{Compute};
ghost use Rattle.papaya_call.specs.Compute.{IsGap, IsPurpose, IsRemembered, chosen, fills};
ghost use Rattle.papaya_call.specs.Compute.{in_place_of, meets, nothing, offered, provides};
ghost use Rattle.papaya_call.specs.Compute.{recalled, with_choice, with_pair};
ghost use Rattle.papaya_call.specs.Machine.{IsValidState};
ghost use Rattle.papaya_call.specs.Search.{IsWithin};

use crate::ask::OpKind;
use crate::call::Reply;
use crate::machine::State;
use crate::made::Of;
use crate::need::Need;
use crate::remove::Removal;
use crate::search::Place;
use crate::write::Write;
use papaya_words::refused::Refused;
use papaya_words::word::Word;

/// The place where the key was found to be absent, and so where its pair will be.
#[derive(Clone, Copy)]
pub enum Gap {
    /// There is no root.
    NoRoot,
    /// This place is empty.
    At(Place),
    /// The key is in no place of this table, which has no next one.
    After(u64),
}

/// The purpose of a pair that is made with a value that the closure returned.
#[derive(Clone, Copy)]
pub enum Purpose {
    /// The closure was called without a pair, because the key is absent.
    Fill(Gap),
    /// The closure was called with the pair that the old word of this write names.
    Replace(Write),
    /// As for `Replace`, but a pair was already made with the returned value, for another slot.
    Again(Write),
}

/// A pair that was made, and where it will be.
#[derive(Clone, Copy)]
pub struct Put {
    pub write: Write,
    /// The pair's number.
    pub pair: u64,
}

/// The closure's result for a pair.
#[derive(Clone, Copy)]
pub enum Choice {
    /// The new pair, made with the returned value, is to replace the old one.
    Replace { old: u64, new: Of },
    /// This pair is to be removed.
    Remove(u64),
}

/// The results of its closure that a compute remembers. If another call's change comes first, the
/// closure is not called again with the same pair.
#[derive(Clone, Copy)]
pub struct Remembered {
    /// The pair to store if the key is absent.
    pub fill: Option<u64>,
    /// The closure's result for the pair with which it was called last.
    pub choice: Option<Choice>,
}

impl Remembered {
    /// Returns no results: the closure was not called yet.
    #[inline(always)]
    pub fn nothing() -> Remembered
        ensures value { result ≡ nothing }
        ensures remembered { IsRemembered result }
    {
        Remembered {
            fill: None,
            choice: None,
        }
    }

    /// Continues at a `Live` word that names a pair with the key. The closure is called with the
    /// pair, unless its result for it is remembered.
    pub fn meets(self, place: Place, word: u64) -> State
        requires within { IsWithin place }
        requires remembered { IsRemembered self }
        ensures value { result ≡ meets self.choice place word }
        ensures valid { IsValidState Compute result }
    {
        let pair = Word(word).pair();
        match self.choice {
            Some(Choice::Replace { old, new }) if old == pair => State::recalled(new, place, word),
            Some(Choice::Remove(old)) if old == pair => State::Burying(Removal { place, word }),
            _ => State::Showing(Removal { place, word }),
        }
    }

    /// Returns the remembered results after the closure was called with a pair. An insertion is
    /// remembered only once its pair is made.
    pub fn with_choice(self, shown: Removal, kind: OpKind) -> Remembered
        requires { IsRemembered self }
        ensures value { result ≡ with_choice self shown kind }
        ensures remembered { IsRemembered result }
    {
        match kind {
            OpKind::Remove => Remembered {
                choice: Some(Choice::Remove(shown.pair())),
                ..self
            },
            OpKind::Insert | OpKind::Abort(_) => self,
        }
    }

    /// Returns the remembered results after the pair of this number was made. If it is for an
    /// absent key, no pair with which the closure was called before comes again.
    pub fn with_pair(self, purpose: Purpose, pair: u64) -> Remembered
        requires remembered { IsRemembered self }
        requires pair { pair < 2 ^ 48 }
        ensures value { result ≡ with_pair self purpose pair }
        ensures remembered { IsRemembered result }
    {
        match purpose {
            Purpose::Fill(_) => Remembered {
                fill: Some(pair),
                choice: None,
            },
            Purpose::Replace(write) | Purpose::Again(write) => {
                let old = Word(write.old).pair();
                let new = write.of(pair);
                Remembered {
                    choice: Some(Choice::Replace { old, new }),
                    ..self
                }
            }
        }
    }
}

impl Purpose {
    /// Returns the word that the pair is to replace.
    #[inline(always)]
    pub fn in_place_of(self) -> u64
        ensures { result ≡ in_place_of self }
    {
        match self {
            Purpose::Fill(_) => 0,
            Purpose::Replace(write) | Purpose::Again(write) => write.old,
        }
    }
}

impl State {
    /// Continues with a pair that was made with the closure's result for the pair that this word
    /// names. If that is in another slot now, a new pair of the value is made.
    pub(crate) fn recalled(new: Of, place: Place, word: u64) -> State
        requires within { IsWithin place }
        requires pair { new.pair < 2 ^ 48 }
        ensures value { result ≡ recalled new place word }
        ensures valid { IsValidState Compute result }
    {
        let write = Write { place, old: word };
        if new.serves(place) {
            State::Putting(Put {
                write,
                pair: new.pair,
            })
        } else {
            State::Pairing(Purpose::Again(write))
        }
    }

    /// Continues by storing the pair of this number where its key is absent.
    pub(crate) fn fills(gap: Gap, pair: u64) -> State
        requires gap { IsGap gap }
        requires pair { pair < 2 ^ 48 }
        ensures value { result ≡ fills gap pair }
        ensures valid { IsValidState Compute result }
    {
        match gap {
            Gap::NoRoot => State::Making,
            Gap::At(place) => {
                let write = Write { place, old: 0 };
                State::Putting(Put { write, pair })
            }
            Gap::After(table) => State::Growing(Need::Room(table)),
        }
    }

    /// Continues with the closure's result for an absent key.
    pub(crate) fn offered(gap: Gap, kind: OpKind) -> State
        requires { IsGap gap }
        ensures value { result ≡ offered gap kind }
        ensures valid { IsValidState Compute result }
    {
        match kind {
            OpKind::Insert => State::Pairing(Purpose::Fill(gap)),
            OpKind::Remove => State::Ended(Reply::Refused(Refused::RemoveNothing)),
            OpKind::Abort(with) => State::Ended(Reply::Aborted(with)),
        }
    }

    /// Continues with the closure's result for a pair.
    pub(crate) fn chosen(shown: Removal, kind: OpKind) -> State
        requires { IsWithin shown.place }
        ensures value { result ≡ chosen shown kind }
        ensures valid { IsValidState Compute result }
    {
        match kind {
            OpKind::Insert => {
                let write = Write {
                    place: shown.place,
                    old: shown.word,
                };
                State::Pairing(Purpose::Replace(write))
            }
            OpKind::Remove => State::Burying(shown),
            OpKind::Abort(with) => State::Ended(Reply::Aborted(with)),
        }
    }

    /// Continues after a pair was made with the value that the closure returned.
    pub(crate) fn provides(purpose: Purpose, pair: u64) -> State
        requires purpose { IsPurpose purpose }
        requires pair { pair < 2 ^ 48 }
        ensures value { result ≡ provides purpose pair }
        ensures valid { IsValidState Compute result }
    {
        match purpose {
            Purpose::Fill(gap) => State::fills(gap, pair),
            Purpose::Replace(write) | Purpose::Again(write) => State::Putting(Put { write, pair }),
        }
    }
}
