//! Calls that resize the map and change none of its pairs: they copy a chunk or everything, or make
//! room ahead.
ghost use Rattle.std.specs.Prelude.{◌≡◌, ◌+◌};
ghost use Rattle.std.specs.Int.{IsPowerOfTwo};
ghost use Rattle.papaya_words.specs.Mode.{IsChunked};
ghost use Rattle.papaya_call.specs.Search.{IsSize};
ghost use Rattle.papaya_call.specs.Link.{IsFitCopyAsk, IsValidLink, IsValidLinked};
ghost use Rattle.papaya_call.specs.Copying.{IsValidCopied, IsValidCopying};
ghost use Rattle.papaya_call.specs.ChainMachine.{IsFit};
ghost use Rattle.papaya_call.specs.Resizer.{IsValidIn, IsValidResizer, after, ask_of, at_count};
ghost use Rattle.papaya_call.specs.Resizer.{at_next, at_root, begun, called, copied, follows_of};
ghost use Rattle.papaya_call.specs.Resizer.{kind_of_ask, linked, makes, over, reply_of};
ghost use Rattle.papaya_call.specs.TableSize.{IsValidRoom, room_of};

use crate::ask::{Answer as CallAnswer, At, StepKind};
use crate::call::Reply;
use crate::chain::ask::Answer;
use crate::chain::machine::{copying_after, link_after};
use crate::copy::copying::{Aim, Copied, Copying};
use crate::copy::link::{Link, Linked};
use crate::copy::step::Step;
use crate::copy_ask::CopyAsk;
use papaya_words::chunks::chunk_count;
use papaya_words::limits::MAX_TABLE_LEN;
use papaya_words::probe::{entries_for, limit};
use papaya_words::refused::Refused;
use papaya_words::resize_mode::ResizeMode;
use papaya_words::table::table_len;

/// The resize that is wanted.
#[derive(Clone, Copy)]
pub enum Resize {
    /// A copy of one chunk of the root, if the root is being copied.
    Chunk,
    /// The end of the resize that is under way. The root has no next table then.
    CopyAll,
    /// A root with slots for this many pairs more than the map counts: `reserve` of 0.2.5.
    Reserve(usize),
}

/// The size of a table that is made for a number of pairs.
#[derive(Clone, Copy)]
pub struct TableSize {
    /// The number of slots.
    pub len: usize,
    /// The probe limit: how many places after the first a search looks at.
    pub limit: usize,
}

/// The state of a resizer, between two answers.
#[derive(Clone, Copy)]
pub enum ResizerState {
    /// Loads the root.
    AtRoot,
    /// There is no root: makes one of this size.
    Making(TableSize),
    /// Opens this table, which the resizer made.
    Opening(u64),
    /// Asks for the size of this root.
    Sizing(u64),
    /// Asks for the count of pairs.
    Counting {
        root: u64,
        /// The number of slots of the root.
        len: usize,
    },
    /// Loads the number of the table after this root.
    Looking {
        root: u64,
        /// The number of slots of the root, or 0 if no table is to be made.
        len: usize,
        /// The size of the next table, if one is to be made in case there is none.
        room: Option<TableSize>,
    },
    /// Makes the next table.
    Linking(Link),
    /// Copies.
    Copying {
        /// The table that was the root when the copy of everything began, or 0 for a chunk.
        from: u64,
        copying: Copying,
    },
    /// The resize is finished.
    Done,
    /// A table could not be made. Marked words stay marked, and the next copier continues.
    Refused(Refused),
}

/// Returns the size of a table for `more` pairs more than `count`, if a table may be that large.
#[tactic(auto, using(crate::proofs::TableSizes::too_many, crate::proofs::TableSizes::too_long, crate::proofs::TableSizes::fits, crate::proofs::TableSizes::fits_size))]
fn room_for(count: usize, more: usize) -> Option<TableSize>
    ensures value { result ≡ room_of (count + more) }
    ensures valid { IsValidRoom result }
{
    let pairs = count.checked_add(more)?;
    match entries_for(pairs) {
        Ok(entries) if entries <= MAX_TABLE_LEN => {
            let len = table_len(entries);
            Some(TableSize {
                len,
                limit: limit(len),
            })
        }
        _ => None,
    }
}

impl ResizerState {
    /// Makes the first table, for this many pairs.
    fn making(more: usize) -> ResizerState
        ensures value { result ≡ makes (room_of more) }
        ensures valid { IsValidIn result }
    {
        match room_for(0, more) {
            Some(room) => ResizerState::Making(room),
            None => ResizerState::Refused(Refused::Capacity),
        }
    }

    /// Copies all of this root.
    fn copying(root: u64) -> ResizerState
        ensures value { result ≡ Rattle.papaya_call.specs.Resizer.copies root }
        ensures valid { IsValidIn result }
    {
        ResizerState::Copying {
            from: root,
            copying: Copying::Stepping(Aim::All(root), Step::AtRoot),
        }
    }
}

impl Resize {
    /// Continues with the number of the root, or 0.
    fn at_root(self, root: u64) -> ResizerState
        ensures value { result ≡ at_root self root }
        ensures valid { IsValidIn result }
    {
        match self {
            Resize::Reserve(more) if root == 0 => ResizerState::making(more),
            Resize::Reserve(_) => ResizerState::Sizing(root),
            Resize::Chunk | Resize::CopyAll if root == 0 => ResizerState::Done,
            Resize::Chunk | Resize::CopyAll => ResizerState::Looking {
                root,
                len: 0,
                room: None,
            },
        }
    }

    /// Continues with the count of pairs; the root has `len` slots.
    fn at_count(self, root: u64, len: usize, count: usize) -> ResizerState
        ensures value { result ≡ at_count self root len count }
        ensures valid { IsValidIn result }
    {
        match self {
            Resize::Reserve(more) => match room_for(count, more) {
                None => ResizerState::Refused(Refused::Capacity),
                Some(room) if room.len <= len => ResizerState::Done,
                room => ResizerState::Looking { root, len, room },
            },
            Resize::Chunk | Resize::CopyAll => ResizerState::Done,
        }
    }

    /// Continues after the copy of a chunk, or of a whole root, is finished.
    fn over(self) -> ResizerState
        ensures value { result ≡ over self }
        ensures valid { IsValidIn result }
    {
        match self {
            Resize::Chunk => ResizerState::Done,
            Resize::CopyAll | Resize::Reserve(_) => ResizerState::AtRoot,
        }
    }

    /// Continues with the outcome of copying, which began when `from` was the root.
    fn copied(self, from: u64, copied: Copied) -> ResizerState
        requires { IsValidCopied copied }
        ensures value { result ≡ Rattle.papaya_call.specs.Resizer.copied self from copied }
        ensures valid { IsValidIn result }
    {
        match copied {
            Copied::On(copying) => ResizerState::Copying { from, copying },
            Copied::Search(_) | Copied::Root(_) | Copied::Chunk => self.over(),
            Copied::Refused(refused) => ResizerState::Refused(refused),
        }
    }
}

/// Continues with the number of the table after the root, or 0. The root has `before` slots.
fn at_next(
    mode: ResizeMode,
    root: u64,
    before: usize,
    room: Option<TableSize>,
    next: u64,
) -> ResizerState
    requires { IsValidRoom room }
    ensures value { result ≡ at_next mode root before room next }
    ensures valid { IsValidIn result }
{
    if next != 0 {
        return ResizerState::copying(root);
    }
    match room {
        None => ResizerState::Done,
        Some(TableSize { len, limit }) => ResizerState::Linking(Link::Making {
            after: root,
            len,
            limit,
            chunks: chunk_count(before, mode),
        }),
    }
}

/// Continues with the outcome of making the table after this root.
fn linked(root: u64, linked: Linked) -> ResizerState
    requires { IsValidLinked linked }
    ensures value { result ≡ Rattle.papaya_call.specs.Resizer.linked root linked }
    ensures valid { IsValidIn result }
{
    match linked {
        Linked::On(link) => ResizerState::Linking(link),
        Linked::Table(_) => ResizerState::copying(root),
        Linked::Refused(refused) => ResizerState::Refused(refused),
    }
}

/// A resizer under way. It is plain data, as a call is.
///
/// In 0.2.5 these are `reserve`, and the copy of everything with which `clear`, `retain` and the
/// iterators begin.
#[derive(Clone, Copy)]
pub struct Resizer {
    /// How the map's tables are copied.
    pub mode: ResizeMode,
    /// The initial capacity of the map in slots. No table is made shorter.
    pub initial: usize,
    /// The resize that is wanted.
    pub resize: Resize,
    /// Decides at which chunk it starts to copy a table, modulo the number of chunks.
    pub number: u64,
    /// The resizer's state.
    pub state: ResizerState,
}

impl Resizer {
    /// Begins a resize. Calls with different numbers start to copy a table at different chunks.
    pub fn new(resize: Resize, mode: ResizeMode, initial: usize, number: u64) -> Resizer
        requires chunked { IsChunked mode }
        requires initial { IsPowerOfTwo initial }
        ensures value { result ≡ begun resize mode initial number }
        ensures valid { IsValidResizer result }
    {
        let state = match resize {
            Resize::Chunk => ResizerState::Copying {
                from: 0,
                copying: Copying::Stepping(Aim::Chunk, Step::AtRoot),
            },
            Resize::CopyAll | Resize::Reserve(_) => ResizerState::AtRoot,
        };
        Resizer {
            mode,
            initial,
            resize,
            number,
            state,
        }
    }

    /// Returns the next ask, or `None` if the resizer has ended.
    pub fn ask(&self) -> Option<CopyAsk>
        requires { IsValidResizer self.now }
        ensures { result ≡ ask_of self.now }
    {
        match self.state {
            ResizerState::AtRoot => Some(CopyAsk::Load(At::Root)),
            ResizerState::Making(TableSize { len, limit }) => Some(CopyAsk::MakeTable {
                len,
                limit,
                chunks: 0,
            }),
            ResizerState::Opening(table) => Some(CopyAsk::Exchange(At::Root, 0, table)),
            ResizerState::Sizing(root) => Some(CopyAsk::SizeOf(root)),
            ResizerState::Counting { .. } => Some(CopyAsk::Count),
            ResizerState::Looking { root, .. } => Some(CopyAsk::Load(At::Next(root))),
            ResizerState::Linking(link) => Some(link.ask()),
            ResizerState::Copying { copying, .. } => Some(copying.ask()),
            ResizerState::Done | ResizerState::Refused(_) => None,
        }
    }

    /// Returns the reply if the resizer has ended.
    pub fn reply(&self) -> Option<Reply>
        ensures { result ≡ reply_of self.now }
    {
        match self.state {
            ResizerState::Done => Some(Reply::Done),
            ResizerState::Refused(refused) => Some(Reply::Refused(refused)),
            _ => None,
        }
    }

    /// Returns the exchange's kind, if the next ask is an exchange.
    pub fn kind(&self) -> Option<StepKind>
        ensures { result ≡ kind_of_ask self.now }
    {
        match self.state {
            ResizerState::Opening(_) => Some(StepKind::Open),
            ResizerState::Linking(link) => link.kind(),
            ResizerState::Copying { copying, .. } => copying.kind(),
            _ => None,
        }
    }

    /// Returns the table that a table in the making will follow, or 0 for a first one or none.
    pub fn follows(&self) -> u64
        ensures { result ≡ follows_of self.now }
    {
        match self.state {
            ResizerState::Linking(link) => link.follows(),
            ResizerState::Copying { copying, .. } => copying.follows(),
            _ => 0,
        }
    }

    /// Returns the state after an answer while nothing is linked or copied. Ignores an answer to
    /// another ask.
    fn called(&self, answer: Answer) -> ResizerState
        requires valid { IsValidIn self.now.state }
        requires fit { IsFit answer }
        ensures value { result ≡ called self.now.resize self.now.mode self.now.state answer }
        ensures valid { IsValidIn result }
    {
        match (self.state, answer) {
            (ResizerState::AtRoot, Answer::Call(CallAnswer::Word(root))) => self
                .resize
                .at_root(root),
            (ResizerState::Making(_), Answer::Call(CallAnswer::Made(table))) =>
                ResizerState::Opening(table),
            (ResizerState::Making(_), Answer::Call(CallAnswer::Refused(refused))) => {
                ResizerState::Refused(refused)
            }
            (
                ResizerState::Opening(_),
                Answer::Call(CallAnswer::Exchanged | CallAnswer::Found(_)),
            ) => { ResizerState::AtRoot }
            (ResizerState::Sizing(root), Answer::Call(CallAnswer::Size { len, .. })) => {
                ResizerState::Counting { root, len }
            }
            (ResizerState::Counting { root, len }, Answer::Count(count)) => {
                self.resize.at_count(root, len, count)
            }
            (ResizerState::Looking { root, len, room }, Answer::Call(CallAnswer::Word(next))) => {
                at_next(self.mode, root, len, room, next)
            }
            (state, _) => state,
        }
    }

    /// Continues after an answer to the last ask.
    pub fn answer(&mut self, answer: Answer)
        requires valid { IsValidResizer self.old }
        requires fit { IsFit answer }
        ensures after { self.new ≡ after self.old answer }
        ensures valid { IsValidResizer self.new }
    {
        self.state = match self.state {
            ResizerState::Linking(link) => {
                let linked_to = link_after(link, answer, self.mode, self.initial);
                linked(link.follows(), linked_to)
            }
            ResizerState::Copying { from, copying } => {
                let copied = copying_after(copying, answer, self.mode, self.initial, self.number);
                self.resize.copied(from, copied)
            }
            ResizerState::AtRoot
            | ResizerState::Making(_)
            | ResizerState::Opening(_)
            | ResizerState::Sizing(_)
            | ResizerState::Counting { .. }
            | ResizerState::Looking { .. }
            | ResizerState::Done
            | ResizerState::Refused(_) => self.called(answer),
        };
    }
}
