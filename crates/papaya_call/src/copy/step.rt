//! One chunk of the copy of the root: neighbouring slots that are copied one after another.
ghost use Rattle.std.specs.Prelude.{◌≡◌, ◌≤◌, ◌^◌};
ghost use Rattle.std.specs.Int.{IsPowerOfTwo};
ghost use Rattle.papaya_call.specs.Link.{IsFitCopyAsk, IsValidLink, IsValidLinked};
ghost use Rattle.papaya_call.specs.Search.{IsSize};
ghost use Rattle.papaya_call.specs.Settle.{IsValidSettled};
ghost use Rattle.papaya_call.specs.Step.{IsValidChunk, IsValidCursor, IsValidStep};
ghost use Rattle.papaya_call.specs.Step.{IsValidStepped, advanced, aimed, at_count};
ghost use Rattle.papaya_call.specs.Step.{at_exchanged, at_found};
ghost use Rattle.papaya_call.specs.Step.{at_hash, at_made, at_ok, at_refused, at_size, at_word, at_yes, chunk_at};
ghost use Rattle.papaya_call.specs.Step.{chunk_read, first_cursor, judged, linked_to, next_cursor, settled_to, slot_of, step_ask, step_follows};
ghost use Rattle.papaya_call.specs.Step.{step_kind};

use crate::ask::{At, StepKind};
use crate::copy::link::{Link, Linked};
use crate::copy::settle::{Settle, Settled, SlotToCopy};
use crate::copy_ask::CopyAsk;
use papaya_words::chunks::{chunk_count, chunk_len};
use papaya_words::refused::Refused;
use papaya_words::resize_mode::ResizeMode;

/// A cursor over the words of a table's chunks. It loads them from one chunk to the last, and then
/// from the first on. Each word that it has passed says that its chunk is copied.
#[derive(Clone, Copy)]
pub struct Cursor {
    /// The table that is copied.
    pub from: u64,
    /// The first table in which its pairs are to be placed.
    pub to: u64,
    /// The number of slots of the table that is copied.
    pub len: usize,
    /// The length of a chunk in slots.
    pub slots: usize,
    /// The chunk whose word was loaded first.
    pub start: usize,
    /// The chunk whose word is loaded now.
    pub at: usize,
    /// The first slot of that chunk.
    pub begun: usize,
    /// Whether the cursor has passed the last chunk.
    pub wrapped: bool,
    /// Whether this caller has copied a chunk.
    pub copied: bool,
}

/// A chunk that is being copied.
#[derive(Clone, Copy)]
pub struct Chunk {
    /// The cursor, at this chunk.
    pub cursor: Cursor,
    /// The slot that is copied now.
    pub at: usize,
    /// The slot after the last.
    pub end: usize,
}

/// The state of a chunk's copy, between two answers.
///
/// In 0.2.5 this is `help_copy` with `help_copy_incremental` and `help_copy_blocking`, and its end
/// `try_promote`.
#[derive(Clone, Copy)]
pub enum Step {
    /// Loads the root, which is the table to copy.
    AtRoot,
    /// Loads the number of the table after this one, to which the root may be copied.
    Aiming { from: u64, after: u64 },
    /// There is no next table: makes it.
    Linking { from: u64, link: Link },
    /// Loads whether this table was given up.
    Judging { from: u64, to: u64 },
    /// Asks for the size of the table that is copied.
    Sizing { from: u64, to: u64 },
    /// Loads the word of a chunk.
    AtChunk(Cursor),
    /// Copies a slot.
    Settling(Chunk, Settle),
    /// The chunk is copied: writes that into its word.
    Advancing(Cursor),
    /// All chunks are copied: makes the other table the root.
    Promoting { from: u64, to: u64 },
}

/// The outcome of an answer to a chunk's copy.
#[derive(Clone, Copy)]
pub enum Stepped {
    /// The copy continues.
    On(Step),
    /// This is the root, or 0.
    Root(u64),
    /// This root has no next table, so there is nothing to copy.
    Last(u64),
    /// A chunk was copied, and this one is not yet.
    Further(Chunk),
    /// The copy is finished, or another table is the root now.
    Over,
    /// A next table could not be made.
    Refused(Refused),
}

impl Cursor {
    /// Returns a cursor that starts at the chunk of this number, taken modulo the number of chunks.
    #[inline]
    #[tactic(auto, using(crate::proofs::Starts::start_within, crate::proofs::Starts::start_low))]
    fn new(from: u64, to: u64, len: usize, mode: ResizeMode, number: u64) -> Cursor
        requires power { IsPowerOfTwo len }
        requires most { len ≤ 2 ^ 32 }
        ensures value { result ≡ first_cursor from to len mode number }
        ensures valid { IsValidCursor result }
    {
        let slots = chunk_len(mode);
        let start = (number % chunk_count(len, mode) as u64) as usize;
        Cursor {
            from,
            to,
            len,
            slots,
            start,
            at: start,
            begun: start * slots,
            wrapped: false,
            copied: false,
        }
    }

    /// Passes this chunk, which is copied: loads the next chunk's word, or promotes once all were
    /// loaded.
    #[inline]
    pub fn next(mut self) -> Step
        requires { IsValidCursor self }
        ensures value { result ≡ next_cursor self }
        ensures valid { IsValidStep result }
    {
        let further = self.slots < self.len - self.begun;
        if further && !(self.wrapped && self.at + 1 >= self.start) {
            self.at += 1;
            self.begun += self.slots;
            Step::AtChunk(self)
        } else if !self.wrapped && self.start > 0 {
            self.at = 0;
            self.begun = 0;
            self.wrapped = true;
            Step::AtChunk(self)
        } else {
            Step::Promoting {
                from: self.from,
                to: self.to,
            }
        }
    }

    /// Returns the chunk whose word is loaded now.
    #[inline]
    fn chunk(self) -> Chunk
        requires { IsValidCursor self }
        ensures value { result ≡ chunk_at self }
        ensures valid { IsValidChunk result }
    {
        // A chunk's length may be any 64-bit number.
        let end = if self.slots < self.len - self.begun {
            self.begun + self.slots
        } else {
            self.len
        };
        Chunk {
            cursor: self,
            at: self.begun,
            end,
        }
    }

    /// Continues with the chunk's word, which says whether the chunk is copied.
    #[inline]
    fn word(self, done: u64) -> Stepped
        requires { IsValidCursor self }
        ensures value { result ≡ chunk_read self done }
        ensures valid { IsValidStepped result }
    {
        if done != 0 {
            Stepped::On(self.next())
        } else if self.copied {
            Stepped::Further(self.chunk())
        } else {
            Stepped::On(Step::Settling(self.chunk(), Settle::Looking))
        }
    }

    /// Continues after this caller copied the chunk and wrote its word.
    #[inline]
    fn advanced(mut self) -> Stepped
        requires { IsValidCursor self }
        ensures value { result ≡ advanced self }
        ensures valid { IsValidStepped result }
    {
        self.copied = true;
        Stepped::On(self.next())
    }
}

impl Chunk {
    /// Returns the slot that is copied now.
    #[inline]
    pub fn slot(self) -> SlotToCopy
        ensures { result ≡ slot_of self }
    {
        SlotToCopy {
            from: self.cursor.from,
            index: self.at,
            to: self.cursor.to,
        }
    }
}

impl Step {
    /// Returns the next ask.
    #[inline]
    pub fn ask(self) -> CopyAsk
        requires { IsValidStep self }
        ensures value { result ≡ step_ask self }
        ensures size { IsFitCopyAsk result }
    {
        match self {
            Step::AtRoot => CopyAsk::Load(At::Root),
            Step::Aiming { after, .. } => CopyAsk::Load(At::Next(after)),
            Step::Linking { link, .. } => link.ask(),
            Step::Judging { to, .. } => CopyAsk::Load(At::Aborted(to)),
            Step::Sizing { from, .. } => CopyAsk::SizeOf(from),
            Step::AtChunk(cursor) => CopyAsk::Load(At::Done(cursor.to, cursor.at)),
            Step::Settling(chunk, settle) => settle.ask(chunk.slot()),
            Step::Advancing(cursor) => CopyAsk::Exchange(At::Done(cursor.to, cursor.at), 0, 1),
            Step::Promoting { from, to } => CopyAsk::Exchange(At::Root, from, to),
        }
    }

    /// Returns the exchange's kind, if the next ask is an exchange.
    #[inline]
    pub fn kind(self) -> Option<StepKind>
        ensures { result ≡ step_kind self }
    {
        match self {
            Step::Linking { link, .. } => link.kind(),
            Step::Settling(_, settle) => settle.kind(),
            Step::Advancing(_) => Some(StepKind::Advance),
            Step::Promoting { .. } => Some(StepKind::Promote),
            _ => None,
        }
    }

    /// Returns the table that a table in the making will follow, or 0 if none is made.
    #[inline]
    pub fn follows(self) -> u64
        ensures { result ≡ step_follows self }
    {
        match self {
            Step::Linking { link, .. } => link.follows(),
            Step::Settling(_, settle) => settle.follows(),
            _ => 0,
        }
    }

    /// Continues with the hash of the key of the pair that is carried.
    #[inline]
    pub fn at_hash(self, hash: u64) -> Step
        requires { IsValidStep self }
        ensures value { result ≡ at_hash self hash }
        ensures valid { IsValidStep result }
    {
        match self {
            Step::Settling(chunk, settle) => Step::Settling(chunk, settle.at_hash(hash)),
            step => step,
        }
    }

    /// Continues with the size of a table. `number` decides at which chunk its copy starts.
    #[inline]
    pub fn at_size(self, mode: ResizeMode, number: u64, len: usize, limit: usize) -> Step
        requires valid { IsValidStep self }
        requires size { IsSize len limit }
        ensures value { result ≡ at_size self mode number len limit }
        ensures valid { IsValidStep result }
    {
        match self {
            Step::Linking { from, link } => Step::Linking {
                from,
                link: link.at_size(len, limit),
            },
            Step::Sizing { from, to } => Step::AtChunk(Cursor::new(from, to, len, mode, number)),
            Step::Settling(chunk, settle) => Step::Settling(chunk, settle.at_size(len, limit)),
            step => step,
        }
    }

    /// Continues with the word or the hint that was loaded.
    #[inline]
    pub fn at_word(self, mode: ResizeMode, word: u64) -> Stepped
        requires valid { IsValidStep self }
        ensures value { result ≡ at_word self mode word }
        ensures valid { IsValidStepped result }
    {
        match self {
            Step::AtRoot => Stepped::Root(word),
            Step::Aiming { from, after } => Step::aimed(from, after, mode, word),
            Step::Judging { from, to } => Stepped::On(Step::judged(from, to, word)),
            Step::AtChunk(cursor) => cursor.word(word),
            Step::Settling(chunk, settle) => {
                Step::settled(chunk, settle.at_word(chunk.slot(), mode, word))
            }
            step => Stepped::On(step),
        }
    }

    /// Continues with whether the keys match.
    #[inline]
    pub fn at_yes(self, mode: ResizeMode, yes: bool) -> Stepped
        requires { IsValidStep self }
        ensures value { result ≡ at_yes self mode yes }
        ensures valid { IsValidStepped result }
    {
        match self {
            Step::Settling(chunk, settle) => Step::settled(chunk, settle.at_yes(mode, yes)),
            step => Stepped::On(step),
        }
    }

    /// Continues after the exchange was made.
    #[inline]
    pub fn at_exchanged(self, mode: ResizeMode) -> Stepped
        requires { IsValidStep self }
        ensures value { result ≡ at_exchanged self mode }
        ensures valid { IsValidStepped result }
    {
        match self {
            Step::Linking { from, link } => Step::linked(from, link.at_exchanged()),
            Step::Settling(chunk, settle) => {
                Step::settled(chunk, settle.at_exchanged(chunk.slot(), mode))
            }
            Step::Advancing(cursor) => cursor.advanced(),
            Step::Promoting { .. } => Stepped::Over,
            step => Stepped::On(step),
        }
    }

    /// Continues after a hint was written, or another was found there.
    #[inline]
    pub fn at_ok(self, mode: ResizeMode) -> Stepped
        requires { IsValidStep self }
        ensures value { result ≡ at_ok self mode }
        ensures valid { IsValidStepped result }
    {
        match self {
            Step::Settling(chunk, settle) => Step::settled(chunk, settle.at_ok(mode)),
            step => Stepped::On(step),
        }
    }

    /// Continues after the exchange failed because `word` is there.
    #[inline]
    pub fn at_found(self, mode: ResizeMode, word: u64) -> Stepped
        requires { IsValidStep self }
        ensures value { result ≡ at_found self mode word }
        ensures valid { IsValidStepped result }
    {
        match self {
            Step::Linking { from, link } => Step::linked(from, link.at_found(word)),
            Step::Settling(chunk, settle) => {
                Step::settled(chunk, settle.at_found(chunk.slot(), mode, word))
            }
            Step::Advancing(cursor) => cursor.advanced(),
            Step::Promoting { .. } => Stepped::Over,
            step => Stepped::On(step),
        }
    }

    /// Continues with the map's count of pairs and its initial capacity.
    #[inline]
    pub fn at_count(self, mode: ResizeMode, count: usize, initial: usize) -> Stepped
        requires valid { IsValidStep self }
        requires initial { IsPowerOfTwo initial }
        ensures value { result ≡ at_count self mode count initial }
        ensures valid { IsValidStepped result }
    {
        match self {
            Step::Linking { from, link } => {
                Step::linked(from, link.at_count(mode, count, initial))
            }
            Step::Settling(chunk, settle) => {
                Step::settled(chunk, settle.at_count(mode, count, initial))
            }
            step => Stepped::On(step),
        }
    }

    /// Continues with the number of the table that was made.
    #[inline]
    pub fn at_made(self, number: u64) -> Step
        requires { IsValidStep self }
        ensures value { result ≡ at_made self number }
        ensures valid { IsValidStep result }
    {
        match self {
            Step::Linking { from, link } => Step::Linking {
                from,
                link: link.at_made(number),
            },
            Step::Settling(chunk, settle) => Step::Settling(chunk, settle.at_made(number)),
            step => step,
        }
    }

    /// Ends because a table could not be made.
    #[inline]
    pub fn at_refused(self, mode: ResizeMode, refused: Refused) -> Stepped
        requires { IsValidStep self }
        ensures value { result ≡ at_refused self mode refused }
        ensures valid { IsValidStepped result }
    {
        match self {
            Step::Linking { from, link } => Step::linked(from, link.at_refused(refused)),
            Step::Settling(chunk, settle) => Step::settled(chunk, settle.at_refused(mode, refused)),
            step => Stepped::On(step),
        }
    }
}

impl Step {
    /// Continues with the number of the table after `after`, or 0. Without `Blocking`, pairs are
    /// copied to the next table only, and without a next table there is nothing to copy.
    #[inline]
    fn aimed(from: u64, after: u64, mode: ResizeMode, next: u64) -> Stepped
        ensures value { result ≡ aimed from after mode next }
        ensures valid { IsValidStepped result }
    {
        match mode {
            ResizeMode::Incremental(_) => {
                if next == 0 {
                    Stepped::Last(from)
                } else {
                    Stepped::On(Step::Sizing { from, to: next })
                }
            }
            ResizeMode::Blocking => {
                if next == 0 {
                    Stepped::On(Step::Linking {
                        from,
                        link: Link::Sizing {
                            after,
                            copied: from,
                            unfit: after != from,
                        },
                    })
                } else {
                    Stepped::On(Step::Judging { from, to: next })
                }
            }
        }
    }

    /// Continues with whether the table was given up.
    #[inline]
    fn judged(from: u64, to: u64, aborted: u64) -> Step
        ensures value { result ≡ judged from to aborted }
        ensures valid { IsValidStep result }
    {
        if aborted == 0 {
            Step::Sizing { from, to }
        } else {
            Step::Aiming { from, after: to }
        }
    }

    /// Continues with the outcome of copying a slot.
    #[inline]
    fn settled(mut chunk: Chunk, settled: Settled) -> Stepped
        requires chunk { IsValidChunk chunk }
        requires settled { IsValidSettled settled }
        ensures value { result ≡ settled_to chunk settled }
        ensures valid { IsValidStepped result }
    {
        match settled {
            Settled::On(settle) => Stepped::On(Step::Settling(chunk, settle)),
            Settled::Settled => {
                chunk.at += 1;
                if chunk.at < chunk.end {
                    Stepped::On(Step::Settling(chunk, Settle::Looking))
                } else {
                    Stepped::On(Step::Advancing(chunk.cursor))
                }
            }
            Settled::Unfit(table) => Stepped::On(Step::Aiming {
                from: chunk.cursor.from,
                after: table,
            }),
            Settled::Refused(refused) => Stepped::Refused(refused),
        }
    }

    /// Continues with the outcome of making a table.
    #[inline]
    fn linked(from: u64, linked: Linked) -> Stepped
        requires { IsValidLinked linked }
        ensures value { result ≡ linked_to from linked }
        ensures valid { IsValidStepped result }
    {
        match linked {
            Linked::On(link) => Stepped::On(Step::Linking { from, link }),
            Linked::Table(table) => Stepped::On(Step::Judging { from, to: table }),
            Linked::Refused(refused) => Stepped::Refused(refused),
        }
    }
}
