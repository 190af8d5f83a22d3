//! The carry: a copier moves the pair of a marked word into a later table.
ghost use Rattle.std.specs.Prelude.{◌≡◌};
ghost use Rattle.std.specs.Int.{IsPowerOfTwo};
ghost use Rattle.papaya_call.specs.Carry.{IsValidCarry, IsValidCarried, at_count, at_exchanged, at_found, at_hash, at_ok};
ghost use Rattle.papaya_call.specs.Carry.{at_made, at_refused, at_size, at_word, at_yes, carried_on};
ghost use Rattle.papaya_call.specs.Carry.{carry_ask, carry_follows, carry_kind, goes_on, hinted, look, passed};
ghost use Rattle.papaya_call.specs.Link.{IsFitCopyAsk, IsValidLinked};
ghost use Rattle.papaya_call.specs.Search.{IsSize, IsWithin};

use crate::ask::{At, StepKind};
use crate::copy::link::{Link, Linked};
use crate::copy_ask::CopyAsk;
use crate::search::Place;
use papaya_words::refused::Refused;
use papaya_words::resize_mode::ResizeMode;
use papaya_words::word::{Kind, Word, hint, may_hold};

/// The state of a carry, between two answers.
///
/// In 0.2.5 this is `insert_copy`.
#[derive(Clone, Copy)]
pub enum Carry {
    /// Asks for the hash of the pair's key, to carry the pair to this table.
    Hashing(u64),
    /// Asks for the size of this table.
    Sizing { hash: u64, table: u64 },
    /// Loads the hint of this place.
    Looking { hash: u64, place: Place },
    /// The hint is 0 or the key's: loads the word at this place.
    Reading { hash: u64, place: Place },
    /// Compares the key of the pair that this word names, which was loaded at this place.
    Comparing { hash: u64, place: Place, word: u64 },
    /// Puts the pair into this place.
    Placing { hash: u64, place: Place },
    /// The pair is in this place: writes the hint of its key.
    Placed { hash: u64, place: Place },
    /// This table has no place left: loads the number of the next one.
    Passing { hash: u64, table: u64 },
    /// Makes the next table.
    Linking { hash: u64, link: Link },
    /// This table has no place left: gives the table up.
    Aborting(u64),
}

/// The outcome of an answer to a carry.
#[derive(Clone, Copy)]
pub enum Carried {
    /// The carry continues.
    On(Carry),
    /// A word of the pair's key is in a table that takes the pair.
    Carried,
    /// This table was given up.
    Unfit(u64),
    /// A next table could not be made.
    Refused(Refused),
}

impl Carry {
    /// Returns the next ask, for the pair of this marked word.
    #[inline]
    pub fn ask(self, marked: u64) -> CopyAsk
        requires { IsValidCarry self }
        ensures value { result ≡ carry_ask self marked }
        ensures size { IsFitCopyAsk result }
    {
        let pair = Word(marked).pair();
        match self {
            Carry::Hashing(_) => CopyAsk::HashOf(pair),
            Carry::Sizing { table, .. } => CopyAsk::SizeOf(table),
            Carry::Looking { place, .. } => CopyAsk::LoadHint(place.table, place.probe.i),
            Carry::Reading { place, .. } => CopyAsk::Load(At::Slot(place.table, place.probe.i)),
            Carry::Comparing { word, .. } => CopyAsk::SamePair(pair, Word(word).pair()),
            Carry::Placing { place, .. } => CopyAsk::Exchange(
                At::Slot(place.table, place.probe.i),
                0,
                Word::live(pair).0,
            ),
            Carry::Placed { hash, place } => {
                CopyAsk::WriteHint(place.table, place.probe.i, hint(hash))
            }
            Carry::Passing { table, .. } => CopyAsk::Load(At::Next(table)),
            Carry::Linking { link, .. } => link.ask(),
            Carry::Aborting(table) => CopyAsk::Exchange(At::Aborted(table), 0, 1),
        }
    }

    /// Returns the exchange's kind, if the next ask is an exchange.
    #[inline]
    pub fn kind(self) -> Option<StepKind>
        ensures { result ≡ carry_kind self }
    {
        match self {
            Carry::Placing { .. } => Some(StepKind::Place),
            Carry::Linking { link, .. } => link.kind(),
            Carry::Aborting(_) => Some(StepKind::Abort),
            _ => None,
        }
    }

    /// Returns the table that a table in the making will follow, or 0 if none is made.
    #[inline]
    pub fn follows(self) -> u64
        ensures { result ≡ carry_follows self }
    {
        match self {
            Carry::Linking { link, .. } => link.follows(),
            _ => 0,
        }
    }

    /// Continues with the hash of the pair's key.
    #[inline]
    pub fn at_hash(self, hash: u64) -> Carry
        requires { IsValidCarry self }
        ensures value { result ≡ at_hash self hash }
        ensures valid { IsValidCarry result }
    {
        match self {
            Carry::Hashing(table) => Carry::Sizing { hash, table },
            carry => carry,
        }
    }

    /// Continues with the size of the table.
    #[inline]
    pub fn at_size(self, len: usize, limit: usize) -> Carry
        requires valid { IsValidCarry self }
        requires size { IsSize len limit }
        ensures value { result ≡ at_size self len limit }
        ensures valid { IsValidCarry result }
    {
        match self {
            Carry::Sizing { hash, table } => Carry::Looking {
                hash,
                place: Place::first(hash, table, len, limit),
            },
            Carry::Linking { hash, link } => Carry::Linking {
                hash,
                link: link.at_size(len, limit),
            },
            carry => carry,
        }
    }

    /// Continues with the word or the hint that was loaded.
    #[inline]
    pub fn at_word(self, mode: ResizeMode, word: u64) -> Carried
        requires { IsValidCarry self }
        ensures value { result ≡ at_word self mode word }
        ensures valid { IsValidCarried result }
    {
        match self {
            Carry::Looking { hash, place } => Carry::hinted(hash, place, mode, word),
            Carry::Reading { hash, place } => Carry::look(hash, place, mode, word),
            Carry::Passing { hash, table } => Carried::On(Carry::passed(hash, table, word)),
            carry => Carried::On(carry),
        }
    }

    /// Continues with whether the keys match.
    #[inline]
    pub fn at_yes(self, mode: ResizeMode, yes: bool) -> Carried
        requires { IsValidCarry self }
        ensures value { result ≡ at_yes self mode yes }
        ensures valid { IsValidCarried result }
    {
        match self {
            Carry::Comparing { hash, place, .. } => {
                if yes {
                    Carried::Carried
                } else {
                    Carry::goes_on(hash, place, mode)
                }
            }
            carry => Carried::On(carry),
        }
    }

    /// Continues after the exchange was made.
    #[inline]
    pub fn at_exchanged(self) -> Carried
        requires { IsValidCarry self }
        ensures value { result ≡ at_exchanged self }
        ensures valid { IsValidCarried result }
    {
        match self {
            Carry::Placing { hash, place } => Carried::On(Carry::Placed { hash, place }),
            Carry::Linking { hash, link } => Carry::linked(hash, link.at_exchanged()),
            Carry::Aborting(table) => Carried::Unfit(table),
            carry => Carried::On(carry),
        }
    }

    /// Continues after the hint was written, or another was found there.
    #[inline]
    pub fn at_ok(self) -> Carried
        requires { IsValidCarry self }
        ensures value { result ≡ at_ok self }
        ensures valid { IsValidCarried result }
    {
        match self {
            Carry::Placed { .. } => Carried::Carried,
            carry => Carried::On(carry),
        }
    }

    /// Continues after the exchange failed because `word` is there.
    #[inline]
    pub fn at_found(self, mode: ResizeMode, word: u64) -> Carried
        requires { IsValidCarry self }
        ensures value { result ≡ at_found self mode word }
        ensures valid { IsValidCarried result }
    {
        match self {
            Carry::Placing { hash, place } => Carry::look(hash, place, mode, word),
            Carry::Linking { hash, link } => Carry::linked(hash, link.at_found(word)),
            Carry::Aborting(table) => Carried::Unfit(table),
            carry => Carried::On(carry),
        }
    }

    /// Continues with the map's count of pairs and its initial capacity.
    #[inline]
    pub fn at_count(self, mode: ResizeMode, count: usize, initial: usize) -> Carried
        requires valid { IsValidCarry self }
        requires initial { IsPowerOfTwo initial }
        ensures value { result ≡ at_count self mode count initial }
        ensures valid { IsValidCarried result }
    {
        match self {
            Carry::Linking { hash, link } => {
                Carry::linked(hash, link.at_count(mode, count, initial))
            }
            carry => Carried::On(carry),
        }
    }

    /// Continues with the number of the table that was made.
    #[inline]
    pub fn at_made(self, number: u64) -> Carry
        requires { IsValidCarry self }
        ensures value { result ≡ at_made self number }
        ensures valid { IsValidCarry result }
    {
        match self {
            Carry::Linking { hash, link } => Carry::Linking {
                hash,
                link: link.at_made(number),
            },
            carry => carry,
        }
    }

    /// Ends because a table could not be made.
    #[inline]
    pub fn at_refused(self, refused: Refused) -> Carried
        requires { IsValidCarry self }
        ensures value { result ≡ at_refused self refused }
        ensures valid { IsValidCarried result }
    {
        match self {
            Carry::Linking { hash, link } => Carry::linked(hash, link.at_refused(refused)),
            carry => Carried::On(carry),
        }
    }
}

impl Carry {
    /// Continues with the hint of the place. A buried slot keeps its key's hint, so it is met too.
    #[inline]
    fn hinted(hash: u64, place: Place, mode: ResizeMode, found: u64) -> Carried
        requires { IsWithin place }
        ensures value { result ≡ hinted hash place mode found }
        ensures valid { IsValidCarried result }
    {
        if may_hold(found, hash) {
            Carried::On(Carry::Reading { hash, place })
        } else {
            Carry::goes_on(hash, place, mode)
        }
    }

    /// Continues with the word at the place. A word of the pair's key shows that the pair was
    /// already copied, even if it was removed since.
    #[inline]
    fn look(hash: u64, place: Place, mode: ResizeMode, word: u64) -> Carried
        requires { IsWithin place }
        ensures value { result ≡ look hash place mode word }
        ensures valid { IsValidCarried result }
    {
        match Word(word).kind() {
            Kind::Empty => Carried::On(Carry::Placing { hash, place }),
            Kind::Closed => Carry::goes_on(hash, place, mode),
            Kind::Live | Kind::Marked | Kind::Copied | Kind::Buried => {
                Carried::On(Carry::Comparing { hash, place, word })
            }
        }
    }

    /// Moves to the next place, if there is one. With `Blocking`, a table into which a pair does
    /// not fit is given up.
    #[inline]
    fn goes_on(hash: u64, mut place: Place, mode: ResizeMode) -> Carried
        requires { IsWithin place }
        ensures value { result ≡ goes_on hash place mode }
        ensures valid { IsValidCarried result }
    {
        if place.probe.len < place.limit {
            place.probe.next(place.len - 1);
            return Carried::On(Carry::Looking { hash, place });
        }
        match mode {
            ResizeMode::Incremental(_) => Carried::On(Carry::Passing {
                hash,
                table: place.table,
            }),
            ResizeMode::Blocking => Carried::On(Carry::Aborting(place.table)),
        }
    }

    /// Continues with the number of the next table, or 0 if there is none.
    #[inline]
    fn passed(hash: u64, table: u64, next: u64) -> Carry
        ensures value { result ≡ passed hash table next }
        ensures valid { IsValidCarry result }
    {
        if next == 0 {
            Carry::Linking {
                hash,
                link: Link::Sizing {
                    after: table,
                    copied: table,
                    unfit: true,
                },
            }
        } else {
            Carry::Sizing { hash, table: next }
        }
    }

    /// Continues with the outcome of making the next table.
    #[inline]
    fn linked(hash: u64, linked: Linked) -> Carried
        requires { IsValidLinked linked }
        ensures value { result ≡ carried_on hash linked }
        ensures valid { IsValidCarried result }
    {
        match linked {
            Linked::On(link) => Carried::On(Carry::Linking { hash, link }),
            Linked::Table(table) => Carried::On(Carry::Sizing { hash, table }),
            Linked::Refused(refused) => Carried::Refused(refused),
        }
    }
}
