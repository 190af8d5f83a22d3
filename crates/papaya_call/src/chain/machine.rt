//! The machine of a call over a chain of tables.
ghost use Rattle.std.specs.Prelude.{◌≡◌};
ghost use Rattle.std.specs.Int.{IsPowerOfTwo};
ghost use Rattle.papaya_words.specs.Mode.{IsChunked};
ghost use Rattle.papaya_call.specs.Machine.{IsFit as IsCallFit};
ghost use Rattle.papaya_call.specs.Copying.{IsValidCopied, IsValidCopying};
ghost use Rattle.papaya_call.specs.Link.{IsValidLink, IsValidLinked};
ghost use Rattle.papaya_call.specs.ChainMachine.{IsFit, IsFitAsk, IsValid, after, after_copied, after_linked, ask_of};
ghost use Rattle.papaya_call.specs.ChainMachine.{restarted, called, copying_after, enters, follows_of, grows, kind_of_ask};
ghost use Rattle.papaya_call.specs.ChainMachine.{link_after, onward, refuses, started, stepped};

use crate::ask::{Answer as CallAnswer, StepKind};
use crate::call::{Reply, Task};
use crate::chain::ask::{Answer, Ask};
use crate::copy::copying::{Aim, Copied, Copying};
use crate::copy::link::{Link, Linked};
use crate::copy::settle::{Settle, SlotToCopy};
use crate::copy::step::Step;
use crate::machine::{Machine as CallMachine, State};
use crate::need::Need;
use crate::search::Search;
use papaya_words::refused::Refused;
use papaya_words::resize_mode::ResizeMode;

/// The part of the machine that asks, between two answers.
#[derive(Clone, Copy)]
pub enum Phase {
    /// The call itself.
    Calling,
    /// The call needs the table after one: makes it.
    Linking(Link),
    /// Copies the root before the call continues in the next table.
    Copying(Copying),
}

/// Returns the outcome of an answer while a table is made. Ignores an answer to another ask.
#[inline]
pub(crate) fn link_after(link: Link, answer: Answer, mode: ResizeMode, initial: usize) -> Linked
    requires valid { IsValidLink link }
    requires initial { IsPowerOfTwo initial }
    requires fit { IsFit answer }
    ensures value { result ≡ link_after link mode initial answer }
    ensures valid { IsValidLinked result }
{
    match answer {
        Answer::Call(CallAnswer::Size { len, limit }) => Linked::On(link.at_size(len, limit)),
        Answer::Call(CallAnswer::Made(number)) => Linked::On(link.at_made(number)),
        Answer::Call(CallAnswer::Refused(refused)) => link.at_refused(refused),
        Answer::Call(CallAnswer::Exchanged) => link.at_exchanged(),
        Answer::Call(CallAnswer::Found(word)) => link.at_found(word),
        Answer::Count(count) => link.at_count(mode, count, initial),
        _ => Linked::On(link),
    }
}

/// Returns the outcome of an answer while the root is copied. Ignores an answer to another ask.
#[inline]
pub(crate) fn copying_after(
    copying: Copying,
    answer: Answer,
    mode: ResizeMode,
    initial: usize,
    number: u64,
) -> Copied
    requires valid { IsValidCopying copying }
    requires initial { IsPowerOfTwo initial }
    requires fit { IsFit answer }
    ensures value { result ≡ copying_after copying mode initial number answer }
    ensures valid { IsValidCopied result }
{
    match answer {
        Answer::Call(CallAnswer::Word(word)) => copying.at_word(mode, word),
        Answer::Call(CallAnswer::Exchanged) => copying.at_exchanged(mode),
        Answer::Call(CallAnswer::Found(word)) => copying.at_found(mode, word),
        Answer::Call(CallAnswer::Yes(yes)) => copying.at_yes(mode, yes),
        Answer::Call(CallAnswer::Size { len, limit }) => {
            Copied::On(copying.at_size(mode, number, len, limit))
        }
        Answer::Call(CallAnswer::Made(number)) => Copied::On(copying.at_made(number)),
        Answer::Call(CallAnswer::Ok) => copying.at_ok(mode),
        Answer::Call(CallAnswer::Refused(refused)) => copying.at_refused(mode, refused),
        Answer::Hash(hash) => Copied::On(copying.at_hash(hash)),
        Answer::Count(count) => copying.at_count(mode, count, initial),
        Answer::Call(CallAnswer::Op(_)) => Copied::On(copying),
    }
}

/// A call under way, over any number of tables. It is plain data and holds no key, value or memory.
/// A backend does nothing for it but what it asks.
///
/// In 0.2.5 these are the loops of `get`, `insert_with`, `remove_if` and `compute_with`, with
/// `prepare_retry_insert` and `help_copy` between two tables.
#[derive(Clone, Copy)]
pub struct Machine {
    /// The call, set aside while the next table is made or the root is copied.
    pub call: CallMachine,
    /// Decides at which chunk the call starts to copy a table, modulo the number of chunks.
    pub number: u64,
    /// Whether the call has already begun to copy its chunk. A call copies one chunk at most.
    pub helped: bool,
    /// The part of the machine that asks.
    pub phase: Phase,
}

impl Machine {
    /// Begins a call. Calls with different numbers start to copy a table at different chunks. If
    /// there is a limit on pairs, the call stores no pair once that many are stored.
    #[inline(always)]
    pub fn new(
        task: Task,
        hash: u64,
        mode: ResizeMode,
        initial: usize,
        number: u64,
        limit: Option<u64>,
    ) -> Machine
        requires chunked { IsChunked mode }
        requires initial { IsPowerOfTwo initial }
        ensures value { result ≡ started task hash mode initial number limit }
        ensures valid { IsValid result }
    {
        Machine {
            call: CallMachine::new(task, hash, mode, initial, limit),
            number,
            helped: false,
            phase: Phase::Calling,
        }
    }

    /// Returns the next ask: the same until it is answered.
    #[inline(always)]
    pub fn ask(&self) -> Ask
        requires { IsValid self.now }
        ensures value { result ≡ ask_of self.now }
        ensures size { IsFitAsk result }
    {
        match self.phase {
            Phase::Calling => Ask::Call(self.call.ask()),
            Phase::Linking(link) => Ask::Copy(link.ask()),
            Phase::Copying(copying) => Ask::Copy(copying.ask()),
        }
    }

    /// Returns the exchange's kind, if the next ask is an exchange. The words alone do not show it.
    #[inline(always)]
    pub fn kind(&self) -> Option<StepKind>
        ensures { result ≡ kind_of_ask self.now }
    {
        match self.phase {
            Phase::Calling => self.call.kind(),
            Phase::Linking(link) => link.kind(),
            Phase::Copying(copying) => copying.kind(),
        }
    }

    /// Returns the table that a table in the making will follow, or 0 for a first one or none.
    #[inline(always)]
    pub fn follows(&self) -> u64
        ensures { result ≡ follows_of self.now }
    {
        match self.phase {
            Phase::Calling => 0,
            Phase::Linking(link) => link.follows(),
            Phase::Copying(copying) => copying.follows(),
        }
    }

    /// Continues after an answer to the last ask. A call that has replied does not change.
    #[inline(always)]
    pub fn answer(&mut self, answer: Answer)
        requires valid { IsValid self.old }
        requires fit { IsFit answer }
        ensures after { self.new ≡ after self.old answer }
        ensures valid { IsValid self.new }
    {
        match self.phase {
            Phase::Calling => {
                if let Answer::Call(answer) = answer {
                    self.called(answer);
                }
            }
            Phase::Linking(link) => {
                let linked = link_after(link, answer, self.call.mode, self.call.initial);
                self.linked(linked);
            }
            Phase::Copying(copying) => {
                let copied = copying_after(
                    copying,
                    answer,
                    self.call.mode,
                    self.call.initial,
                    self.number,
                );
                self.copied(copied);
            }
        }
    }
}

impl Machine {
    /// Passes an answer to the call.
    #[inline(always)]
    #[tactic(auto, using(crate::proofs::Settings::settings_stable))]
    fn step(&mut self, answer: CallAnswer)
        requires valid { IsValid self.old }
        requires fit { IsCallFit answer }
        ensures after { self.new ≡ stepped self.old answer }
        ensures valid { IsValid self.new }
    {
        self.call.answer(answer);
    }

    /// Continues after an answer to the call, which the next table's number sets aside.
    #[inline(always)]
    fn called(&mut self, answer: CallAnswer)
        requires valid { IsValid self.old }
        requires fit { IsCallFit answer }
        ensures after { self.new ≡ called self.old answer }
        ensures valid { IsValid self.new }
    {
        match (self.call.state, answer) {
            (State::Leaving(_), CallAnswer::Word(next)) if self.call.task != Task::Get => {
                if next == 0 {
                    self.step(answer);
                } else {
                    self.onward(next);
                }
            }
            (State::Growing(need), CallAnswer::Word(next)) => self.grows(need, next),
            _ => self.step(answer),
        }
    }

    /// Continues with the number of the next table that the call needs, or 0. With `Blocking`, all
    /// of this table is copied first, to whichever table takes it.
    #[inline]
    fn grows(&mut self, need: Need, next: u64)
        requires valid { IsValid self.old }
        ensures after { self.new ≡ grows self.old need next }
        ensures valid { IsValid self.new }
    {
        match self.call.mode {
            ResizeMode::Blocking => {
                let aim = Aim::All(need.table());
                self.phase = Phase::Copying(Copying::Stepping(aim, Step::AtRoot));
            }
            ResizeMode::Incremental(_) if next == 0 => {
                let after = need.table();
                self.phase = Phase::Linking(Link::Sizing {
                    after,
                    copied: after,
                    unfit: false,
                });
            }
            ResizeMode::Incremental(_) => self.onward(next),
        }
    }

    /// Continues the call in the next table, which has this number. Before that it copies a chunk,
    /// once a call, and the slot in which it met its key's pair.
    #[inline]
    fn onward(&mut self, next: u64)
        requires valid { IsValid self.old }
        ensures after { self.new ≡ onward self.old next }
        ensures valid { IsValid self.new }
    {
        let aim = match self.call.state {
            State::Growing(Need::Pair(from, index)) => Aim::Settle(SlotToCopy {
                from,
                index,
                to: next,
            }),
            _ => Aim::Search(next),
        };
        if !self.helped {
            self.helped = true;
            self.phase = Phase::Copying(Copying::Stepping(aim, Step::AtRoot));
            return;
        }
        match aim {
            Aim::Settle(slot) => self.phase = Phase::Copying(Copying::Lone(slot, Settle::Looking)),
            _ => self.enter(next),
        }
    }

    /// Continues the call with a search of this table.
    #[inline]
    fn enter(&mut self, table: u64)
        requires valid { IsValid self.old }
        ensures after { self.new ≡ enters self.old table }
        ensures valid { IsValid self.new }
    {
        self.call.state = State::Searching(Search::Sizing(table));
        self.phase = Phase::Calling;
    }

    /// Continues the call at the root, as one that begins.
    #[inline]
    fn restart(&mut self, root: u64)
        requires valid { IsValid self.old }
        ensures after { self.new ≡ restarted self.old root }
        ensures valid { IsValid self.new }
    {
        self.call.state = State::AtRoot;
        self.phase = Phase::Calling;
        self.step(CallAnswer::Word(root));
    }

    /// Ends the call because a table could not be made.
    #[inline]
    fn refuse(&mut self, refused: Refused)
        requires valid { IsValid self.old }
        ensures after { self.new ≡ refuses self.old refused }
        ensures valid { IsValid self.new }
    {
        self.call.state = State::Ended(Reply::Refused(refused));
        self.phase = Phase::Calling;
    }

    /// Continues with the outcome of making the next table.
    #[inline]
    fn linked(&mut self, linked: Linked)
        requires valid { IsValid self.old }
        requires link { IsValidLinked linked }
        ensures after { self.new ≡ after_linked self.old linked }
        ensures valid { IsValid self.new }
    {
        match linked {
            Linked::On(link) => self.phase = Phase::Linking(link),
            Linked::Table(table) => self.onward(table),
            Linked::Refused(refused) => self.refuse(refused),
        }
    }

    /// Continues with the outcome of copying the root: in a next table, or with `Blocking` from the
    /// start, at the present root. No call copies only a chunk.
    #[inline]
    fn copied(&mut self, copied: Copied)
        requires valid { IsValid self.old }
        requires copying { IsValidCopied copied }
        ensures after { self.new ≡ after_copied self.old copied }
        ensures valid { IsValid self.new }
    {
        match copied {
            Copied::On(copying) => self.phase = Phase::Copying(copying),
            Copied::Search(table) => self.enter(table),
            Copied::Root(root) => self.restart(root),
            Copied::Chunk => self.phase = Phase::Calling,
            Copied::Refused(refused) => self.refuse(refused),
        }
    }
}
