//! The copy of the root, as far as a call needs it.
ghost use Rattle.std.specs.Prelude.{◌≡◌};
ghost use Rattle.std.specs.Int.{IsPowerOfTwo};
ghost use Rattle.papaya_call.specs.Copying.{IsValidCopying, IsValidCopied, at_count, at_exchanged, at_found, at_hash, at_made, at_ok};
ghost use Rattle.papaya_call.specs.Copying.{at_refused, at_root, at_size, at_word, at_yes, copying_ask, copying_follows};
ghost use Rattle.papaya_call.specs.Copying.{copying_kind, further, last, leads, lone, over};
ghost use Rattle.papaya_call.specs.Link.{IsFitCopyAsk};
ghost use Rattle.papaya_call.specs.Search.{IsSize};
ghost use Rattle.papaya_call.specs.Settle.{IsValidSettled};
ghost use Rattle.papaya_call.specs.Step.{IsValidChunk, IsValidStepped};

use crate::ask::StepKind;
use crate::copy::settle::{Settle, Settled, SlotToCopy};
use crate::copy::step::{Chunk, Step, Stepped};
use crate::copy_ask::CopyAsk;
use papaya_words::refused::Refused;
use papaya_words::resize_mode::ResizeMode;

/// How much a call copies, and where it continues.
#[derive(Clone, Copy)]
pub enum Aim {
    /// Copies a chunk, then searches this table for the key.
    Search(u64),
    /// Copies a chunk, then this slot, then searches the table that took its pair for the key.
    Settle(SlotToCopy),
    /// Copies a chunk.
    Chunk,
    /// Copies everything, then the call takes the root as it is. With `Blocking`, copies all of
    /// this root, where 0 is the first root that the call meets.
    All(u64),
}

/// The state of a call that copies, between two answers.
///
/// In 0.2.5 this is `help_copy`, and the loop around it in calls that copy everything.
#[derive(Clone, Copy)]
pub enum Copying {
    /// Copies a chunk.
    Stepping(Aim, Step),
    /// Copies one more slot, in which the call met its key's pair.
    Lone(SlotToCopy, Settle),
}

/// The outcome of an answer to a call that copies.
#[derive(Clone, Copy)]
pub enum Copied {
    /// The copy continues.
    On(Copying),
    /// The call searches this table for its key.
    Search(u64),
    /// The call starts again at this root, or with no root if it is 0.
    Root(u64),
    /// The chunk that the call was to copy is copied.
    Chunk,
    /// A next table could not be made.
    Refused(Refused),
}

impl Copying {
    /// Returns the next ask.
    #[inline(always)]
    pub fn ask(self) -> CopyAsk
        requires { IsValidCopying self }
        ensures value { result ≡ copying_ask self }
        ensures size { IsFitCopyAsk result }
    {
        match self {
            Copying::Stepping(_, step) => step.ask(),
            Copying::Lone(slot, settle) => settle.ask(slot),
        }
    }

    /// Returns the exchange's kind, if the next ask is an exchange.
    #[inline(always)]
    pub fn kind(self) -> Option<StepKind>
        ensures { result ≡ copying_kind self }
    {
        match self {
            Copying::Stepping(_, step) => step.kind(),
            Copying::Lone(_, settle) => settle.kind(),
        }
    }

    /// Returns the table that a table in the making will follow, or 0 if none is made.
    #[inline(always)]
    pub fn follows(self) -> u64
        ensures { result ≡ copying_follows self }
    {
        match self {
            Copying::Stepping(_, step) => step.follows(),
            Copying::Lone(_, settle) => settle.follows(),
        }
    }

    /// Continues with the hash of the key of the pair that is carried.
    #[inline]
    pub fn at_hash(self, hash: u64) -> Copying
        requires valid { IsValidCopying self }
        ensures value { result ≡ at_hash self hash }
        ensures valid { IsValidCopying result }
    {
        match self {
            Copying::Stepping(aim, step) => Copying::Stepping(aim, step.at_hash(hash)),
            Copying::Lone(slot, settle) => Copying::Lone(slot, settle.at_hash(hash)),
        }
    }

    /// Continues with the size of a table. `number` decides at which chunk the copy starts.
    #[inline]
    pub fn at_size(self, mode: ResizeMode, number: u64, len: usize, limit: usize) -> Copying
        requires valid { IsValidCopying self }
        requires size { IsSize len limit }
        ensures value { result ≡ at_size self mode number len limit }
        ensures valid { IsValidCopying result }
    {
        match self {
            Copying::Stepping(aim, step) => {
                Copying::Stepping(aim, step.at_size(mode, number, len, limit))
            }
            Copying::Lone(slot, settle) => Copying::Lone(slot, settle.at_size(len, limit)),
        }
    }

    /// Continues with the word or the hint that was loaded.
    #[inline]
    pub fn at_word(self, mode: ResizeMode, word: u64) -> Copied
        requires valid { IsValidCopying self }
        ensures value { result ≡ at_word self mode word }
        ensures valid { IsValidCopied result }
    {
        match self {
            Copying::Stepping(aim, step) => aim.leads(mode, step.at_word(mode, word)),
            Copying::Lone(slot, settle) => Copying::lone(slot, settle.at_word(slot, mode, word)),
        }
    }

    /// Continues with whether the keys match.
    #[inline]
    pub fn at_yes(self, mode: ResizeMode, yes: bool) -> Copied
        requires valid { IsValidCopying self }
        ensures value { result ≡ at_yes self mode yes }
        ensures valid { IsValidCopied result }
    {
        match self {
            Copying::Stepping(aim, step) => aim.leads(mode, step.at_yes(mode, yes)),
            Copying::Lone(slot, settle) => Copying::lone(slot, settle.at_yes(mode, yes)),
        }
    }

    /// Continues after the exchange was made.
    #[inline]
    pub fn at_exchanged(self, mode: ResizeMode) -> Copied
        requires valid { IsValidCopying self }
        ensures value { result ≡ at_exchanged self mode }
        ensures valid { IsValidCopied result }
    {
        match self {
            Copying::Stepping(aim, step) => aim.leads(mode, step.at_exchanged(mode)),
            Copying::Lone(slot, settle) => Copying::lone(slot, settle.at_exchanged(slot, mode)),
        }
    }

    /// Continues after a hint was written, or another was found there.
    #[inline]
    pub fn at_ok(self, mode: ResizeMode) -> Copied
        requires valid { IsValidCopying self }
        ensures value { result ≡ at_ok self mode }
        ensures valid { IsValidCopied result }
    {
        match self {
            Copying::Stepping(aim, step) => aim.leads(mode, step.at_ok(mode)),
            Copying::Lone(slot, settle) => Copying::lone(slot, settle.at_ok(mode)),
        }
    }

    /// Continues after the exchange failed because `word` is there.
    #[inline]
    pub fn at_found(self, mode: ResizeMode, word: u64) -> Copied
        requires valid { IsValidCopying self }
        ensures value { result ≡ at_found self mode word }
        ensures valid { IsValidCopied result }
    {
        match self {
            Copying::Stepping(aim, step) => aim.leads(mode, step.at_found(mode, word)),
            Copying::Lone(slot, settle) => Copying::lone(slot, settle.at_found(slot, mode, word)),
        }
    }

    /// Continues with the map's count of pairs and its initial capacity.
    #[inline]
    pub fn at_count(self, mode: ResizeMode, count: usize, initial: usize) -> Copied
        requires valid { IsValidCopying self }
        requires initial { IsPowerOfTwo initial }
        ensures value { result ≡ at_count self mode count initial }
        ensures valid { IsValidCopied result }
    {
        match self {
            Copying::Stepping(aim, step) => aim.leads(mode, step.at_count(mode, count, initial)),
            Copying::Lone(slot, settle) => Copying::lone(
                slot,
                settle.at_count(mode, count, initial),
            ),
        }
    }

    /// Continues with the number of the table that was made.
    #[inline]
    pub fn at_made(self, number: u64) -> Copying
        requires valid { IsValidCopying self }
        ensures value { result ≡ at_made self number }
        ensures valid { IsValidCopying result }
    {
        match self {
            Copying::Stepping(aim, step) => Copying::Stepping(aim, step.at_made(number)),
            Copying::Lone(slot, settle) => Copying::Lone(slot, settle.at_made(number)),
        }
    }

    /// Ends because a table could not be made.
    #[inline]
    pub fn at_refused(self, mode: ResizeMode, refused: Refused) -> Copied
        requires valid { IsValidCopying self }
        ensures value { result ≡ at_refused self mode refused }
        ensures valid { IsValidCopied result }
    {
        match self {
            Copying::Stepping(aim, step) => aim.leads(mode, step.at_refused(mode, refused)),
            Copying::Lone(slot, settle) => Copying::lone(slot, settle.at_refused(mode, refused)),
        }
    }

    /// Continues with the outcome of copying the one slot.
    #[inline]
    fn lone(slot: SlotToCopy, settled: Settled) -> Copied
        requires { IsValidSettled settled }
        ensures value { result ≡ lone slot settled }
        ensures valid { IsValidCopied result }
    {
        match settled {
            Settled::On(settle) => Copied::On(Copying::Lone(slot, settle)),
            Settled::Settled | Settled::Unfit(_) => Copied::Search(slot.to),
            Settled::Refused(refused) => Copied::Refused(refused),
        }
    }
}

impl Aim {
    /// Continues with the outcome of copying a chunk.
    #[inline]
    fn leads(self, mode: ResizeMode, stepped: Stepped) -> Copied
        requires { IsValidStepped stepped }
        ensures value { result ≡ leads self mode stepped }
        ensures valid { IsValidCopied result }
    {
        match stepped {
            Stepped::On(step) => Copied::On(Copying::Stepping(self, step)),
            Stepped::Root(root) => self.at_root(mode, root),
            Stepped::Last(table) => self.last(table),
            Stepped::Further(chunk) => self.further(chunk),
            Stepped::Over => self.over(),
            Stepped::Refused(refused) => Copied::Refused(refused),
        }
    }

    /// Continues with the number of the root, or 0. With `Blocking`, the copy is finished once
    /// another table is the root.
    #[inline]
    fn at_root(self, mode: ResizeMode, root: u64) -> Copied
        ensures value { result ≡ at_root self mode root }
        ensures valid { IsValidCopied result }
    {
        let step = Step::Aiming {
            from: root,
            after: root,
        };
        match self {
            Aim::All(met) => {
                if root == 0 {
                    return Copied::Root(0);
                }
                match mode {
                    ResizeMode::Incremental(_) => Copied::On(Copying::Stepping(self, step)),
                    ResizeMode::Blocking => {
                        if met == 0 || met == root {
                            Copied::On(Copying::Stepping(Aim::All(root), step))
                        } else {
                            Copied::Root(root)
                        }
                    }
                }
            }
            _ => {
                if root == 0 {
                    self.over()
                } else {
                    Copied::On(Copying::Stepping(self, step))
                }
            }
        }
    }

    /// Continues at this root, which has no next table, so that nothing is left to copy.
    #[inline]
    fn last(self, root: u64) -> Copied
        ensures value { result ≡ last self root }
        ensures valid { IsValidCopied result }
    {
        match self {
            Aim::All(_) => Copied::Root(root),
            _ => self.over(),
        }
    }

    /// Continues after a chunk was copied. Only a call that copies everything copies the next one.
    #[inline]
    fn further(self, chunk: Chunk) -> Copied
        requires { IsValidChunk chunk }
        ensures value { result ≡ further self chunk }
        ensures valid { IsValidCopied result }
    {
        match self {
            Aim::All(_) => {
                Copied::On(Copying::Stepping(self, Step::Settling(chunk, Settle::Looking)))
            }
            _ => self.over(),
        }
    }

    /// Continues after a copy: with the search, the slot, or, to copy everything, at the root.
    #[inline]
    fn over(self) -> Copied
        ensures value { result ≡ over self }
        ensures valid { IsValidCopied result }
    {
        match self {
            Aim::Search(table) => Copied::Search(table),
            Aim::Settle(slot) => Copied::On(Copying::Lone(slot, Settle::Looking)),
            Aim::Chunk => Copied::Chunk,
            Aim::All(_) => Copied::On(Copying::Stepping(self, Step::AtRoot)),
        }
    }
}
