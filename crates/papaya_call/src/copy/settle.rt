//! The copy of one slot.
ghost use Rattle.std.specs.Prelude.{◌≡◌};
ghost use Rattle.std.specs.Int.{IsPowerOfTwo};
ghost use Rattle.papaya_call.specs.Carry.{IsValidCarried};
ghost use Rattle.papaya_call.specs.Link.{IsFitCopyAsk};
ghost use Rattle.papaya_call.specs.Search.{IsSize};
ghost use Rattle.papaya_call.specs.Settle.{IsValidSettle, IsValidSettled, at_count, at_exchanged, at_found, at_hash, at_ok};
ghost use Rattle.papaya_call.specs.Settle.{at_made, at_refused, at_size, at_word, at_yes, look};
ghost use Rattle.papaya_call.specs.Settle.{marked_as, settle_ask, settle_follows, settle_kind, settled_by};

use crate::ask::{At, StepKind};
use crate::copy::carry::{Carried, Carry};
use crate::copy_ask::CopyAsk;
use papaya_words::refused::Refused;
use papaya_words::resize_mode::ResizeMode;
use papaya_words::word::{Kind, SHUT, Word};

/// A slot that is copied.
#[derive(Clone, Copy)]
pub struct SlotToCopy {
    /// The slot's table.
    pub from: u64,
    /// The slot's index in that table, from 0.
    pub index: usize,
    /// The first table in which its pair is to be placed.
    pub to: u64,
}

/// The state of a slot's copy, between two answers.
///
/// In 0.2.5 this is `copy_at_incremental` and `copy_at_blocking`. There a caller that meets a mark
/// waits for the one that set it; here each continues the copy.
#[derive(Clone, Copy)]
pub enum Settle {
    /// Loads the slot's word.
    Looking,
    /// Seals the slot, which is empty.
    Closing,
    /// The slot is sealed: writes the hint that says so.
    Shutting,
    /// Marks this word.
    Marking(u64),
    /// Carries the pair of this word, which is marked, to another table.
    Carrying(u64, Carry),
    /// The pair of this word is in a later table: marks the word as copied.
    Finishing(u64),
}

/// The outcome of an answer to a slot's copy.
#[derive(Clone, Copy)]
pub enum Settled {
    /// The copy continues.
    On(Settle),
    /// The slot is settled: a search for its pair finds it in a later table.
    Settled,
    /// This table, to which pairs are copied, was given up.
    Unfit(u64),
    /// A next table could not be made.
    Refused(Refused),
}

impl Settle {
    /// Returns the next ask.
    #[inline]
    pub fn ask(self, slot: SlotToCopy) -> CopyAsk
        requires { IsValidSettle self }
        ensures value { result ≡ settle_ask self slot }
        ensures size { IsFitCopyAsk result }
    {
        let at = At::Slot(slot.from, slot.index);
        match self {
            Settle::Looking => CopyAsk::Load(at),
            Settle::Closing => CopyAsk::Exchange(at, 0, Word::CLOSED.0),
            Settle::Shutting => CopyAsk::WriteHint(slot.from, slot.index, SHUT),
            Settle::Marking(word) => CopyAsk::Exchange(at, word, Settle::marked(word)),
            Settle::Carrying(word, carry) => carry.ask(word),
            Settle::Finishing(word) => {
                CopyAsk::Exchange(at, word, Word::copied(Word(word).pair()).0)
            }
        }
    }

    /// Returns the exchange's kind, if the next ask is an exchange.
    #[inline]
    pub fn kind(self) -> Option<StepKind>
        ensures { result ≡ settle_kind self }
    {
        match self {
            Settle::Closing => Some(StepKind::Close),
            Settle::Marking(_) => Some(StepKind::Mark),
            Settle::Carrying(_, carry) => carry.kind(),
            Settle::Finishing(_) => Some(StepKind::Finish),
            Settle::Looking | Settle::Shutting => None,
        }
    }

    /// Returns the table that a table in the making will follow, or 0 if none is made.
    #[inline]
    pub fn follows(self) -> u64
        ensures { result ≡ settle_follows self }
    {
        match self {
            Settle::Carrying(_, carry) => carry.follows(),
            _ => 0,
        }
    }

    /// Continues with the hash of the key of the pair that is carried.
    #[inline]
    pub fn at_hash(self, hash: u64) -> Settle
        requires { IsValidSettle self }
        ensures value { result ≡ at_hash self hash }
        ensures valid { IsValidSettle result }
    {
        match self {
            Settle::Carrying(word, carry) => Settle::Carrying(word, carry.at_hash(hash)),
            settle => settle,
        }
    }

    /// Continues with the size of a table.
    #[inline]
    pub fn at_size(self, len: usize, limit: usize) -> Settle
        requires valid { IsValidSettle self }
        requires size { IsSize len limit }
        ensures value { result ≡ at_size self len limit }
        ensures valid { IsValidSettle result }
    {
        match self {
            Settle::Carrying(word, carry) => Settle::Carrying(word, carry.at_size(len, limit)),
            settle => settle,
        }
    }

    /// Continues with the word or the hint that was loaded.
    #[inline]
    pub fn at_word(self, slot: SlotToCopy, mode: ResizeMode, word: u64) -> Settled
        requires { IsValidSettle self }
        ensures value { result ≡ at_word self slot mode word }
        ensures valid { IsValidSettled result }
    {
        match self {
            Settle::Looking => Settle::look(slot, word),
            Settle::Carrying(marked, carry) => {
                Settle::carried(marked, mode, carry.at_word(mode, word))
            }
            settle => Settled::On(settle),
        }
    }

    /// Continues with whether the keys match.
    #[inline]
    pub fn at_yes(self, mode: ResizeMode, yes: bool) -> Settled
        requires { IsValidSettle self }
        ensures value { result ≡ at_yes self mode yes }
        ensures valid { IsValidSettled result }
    {
        match self {
            Settle::Carrying(marked, carry) => {
                Settle::carried(marked, mode, carry.at_yes(mode, yes))
            }
            settle => Settled::On(settle),
        }
    }

    /// Continues after the exchange was made. The caller that marked a pair carries it on.
    #[inline]
    pub fn at_exchanged(self, slot: SlotToCopy, mode: ResizeMode) -> Settled
        requires { IsValidSettle self }
        ensures value { result ≡ at_exchanged self slot mode }
        ensures valid { IsValidSettled result }
    {
        match self {
            Settle::Looking => Settled::On(Settle::Looking),
            Settle::Closing => Settled::On(Settle::Shutting),
            Settle::Shutting => Settled::On(Settle::Shutting),
            Settle::Finishing(_) => Settled::Settled,
            Settle::Marking(word) => Settled::On(Settle::Carrying(
                Settle::marked(word),
                Carry::Hashing(slot.to),
            )),
            Settle::Carrying(marked, carry) => Settle::carried(marked, mode, carry.at_exchanged()),
        }
    }

    /// Continues after the hint was written, or another was found there.
    #[inline]
    pub fn at_ok(self, mode: ResizeMode) -> Settled
        requires { IsValidSettle self }
        ensures value { result ≡ at_ok self mode }
        ensures valid { IsValidSettled result }
    {
        match self {
            Settle::Shutting => Settled::Settled,
            Settle::Carrying(marked, carry) => Settle::carried(marked, mode, carry.at_ok()),
            settle => Settled::On(settle),
        }
    }

    /// Continues after the exchange failed because `word` is there.
    #[inline]
    pub fn at_found(self, slot: SlotToCopy, mode: ResizeMode, word: u64) -> Settled
        requires { IsValidSettle self }
        ensures value { result ≡ at_found self slot mode word }
        ensures valid { IsValidSettled result }
    {
        match self {
            Settle::Looking => Settled::On(Settle::Looking),
            Settle::Closing | Settle::Marking(_) => Settle::look(slot, word),
            Settle::Shutting => Settled::On(Settle::Shutting),
            Settle::Carrying(marked, carry) => {
                Settle::carried(marked, mode, carry.at_found(mode, word))
            }
            Settle::Finishing(_) => Settled::Settled,
        }
    }

    /// Continues with the map's count of pairs and its initial capacity.
    #[inline]
    pub fn at_count(self, mode: ResizeMode, count: usize, initial: usize) -> Settled
        requires valid { IsValidSettle self }
        requires initial { IsPowerOfTwo initial }
        ensures value { result ≡ at_count self mode count initial }
        ensures valid { IsValidSettled result }
    {
        match self {
            Settle::Carrying(marked, carry) => {
                Settle::carried(marked, mode, carry.at_count(mode, count, initial))
            }
            settle => Settled::On(settle),
        }
    }

    /// Continues with the number of the table that was made.
    #[inline]
    pub fn at_made(self, number: u64) -> Settle
        requires { IsValidSettle self }
        ensures value { result ≡ at_made self number }
        ensures valid { IsValidSettle result }
    {
        match self {
            Settle::Carrying(marked, carry) => Settle::Carrying(marked, carry.at_made(number)),
            settle => settle,
        }
    }

    /// Ends because a table could not be made.
    #[inline]
    pub fn at_refused(self, mode: ResizeMode, refused: Refused) -> Settled
        requires { IsValidSettle self }
        ensures value { result ≡ at_refused self mode refused }
        ensures valid { IsValidSettled result }
    {
        match self {
            Settle::Carrying(marked, carry) => {
                Settle::carried(marked, mode, carry.at_refused(refused))
            }
            settle => Settled::On(settle),
        }
    }
}

impl Settle {
    /// Continues with the slot's word.
    #[inline]
    fn look(slot: SlotToCopy, word: u64) -> Settled
        ensures value { result ≡ look slot word }
        ensures valid { IsValidSettled result }
    {
        match Word(word).kind() {
            Kind::Empty => Settled::On(Settle::Closing),
            Kind::Live => Settled::On(Settle::Marking(word)),
            Kind::Marked => Settled::On(Settle::Carrying(word, Carry::Hashing(slot.to))),
            Kind::Copied | Kind::Buried | Kind::Closed => Settled::Settled,
        }
    }

    /// Returns this word with its pair marked.
    #[inline]
    fn marked(word: u64) -> u64
        ensures { result ≡ marked_as word }
    {
        Word::marked(Word(word).pair()).0
    }

    /// Continues with the outcome of carrying this marked word's pair.
    #[inline]
    fn carried(marked: u64, mode: ResizeMode, carried: Carried) -> Settled
        requires { IsValidCarried carried }
        ensures value { result ≡ settled_by marked mode carried }
        ensures valid { IsValidSettled result }
    {
        match carried {
            Carried::On(carry) => Settled::On(Settle::Carrying(marked, carry)),
            Carried::Carried => match mode {
                ResizeMode::Incremental(_) => Settled::On(Settle::Finishing(marked)),
                ResizeMode::Blocking => Settled::Settled,
            },
            Carried::Unfit(table) => Settled::Unfit(table),
            Carried::Refused(refused) => Settled::Refused(refused),
        }
    }
}
