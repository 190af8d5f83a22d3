//! Copies the slots of a chunk one after another, as long as no other caller is met. Only the proof
//! has the machine.
ghost use Rattle.std.specs.Prelude.{◌≡◌, List, None};
ghost use mathlib.Core.List.{IsPrefix};
ghost use Rattle.papaya_call.specs.ChainMachine.{IsFit};
ghost use Rattle.papaya_call.specs.Copying.{IsValidCopying};
ghost use Rattle.papaya_call.specs.Settle.{copied_as, marked_as};
ghost use Rattle.papaya_call.specs.Step.{IsValidChunk};
ghost use Rattle.papaya_call.specs.declared.copy.carry.Carry.TheVariants as carries;
ghost use Rattle.papaya_call.specs.declared.copy.settle.Settle.TheVariants as settles;
ghost use Rattle.papaya_words.specs.Word.{live_word, pair_of};
ghost use Rattle.papaya_map_book.specs.declared.rule.entry.Event.{Event};
ghost use Rattle.papaya_map_book.specs.Windows.{Observes};
ghost use Rattle.papaya_map_change.specs.Settling.{at_slot};
ghost use Rattle.papaya_map_change.specs.Window.Settling.{CanStep, CanStepAt, Ends, IsAt, IsPlacedAt, Leaves, LeavesFrom};
ghost use Rattle.papaya_map_change.specs.Window.Settling.{ProbesOn, WaitsAt, looking, placing, reading, stop_in, stop_seen};

use crate::copier::{Copier, load_hint_at, size_at, write_hint_at};
use papaya_call::ask::{Answer as CallAnswer, At, StepKind};
use papaya_call::chain::ask::Answer;
use papaya_call::copy::carry::Carry;
use papaya_call::copy::copying::{Aim, Copying};
use papaya_call::copy::settle::Settle;
use papaya_call::copy::step::{Chunk, Step};
use papaya_call::search::{Place, ProbeStep, Search};
use papaya_map_book::table::Table;
use papaya_map_book::window::Window;
use papaya_words::resize_mode::ResizeMode;
use papaya_words::word::{Kind, SHUT, Word, hint};
use std::hash::{BuildHasher, Hash};

/// The point where the copy of a slot stopped, with the answer to its ask there.
#[derive(Drop)]
pub struct Halt {
    pub settle: Settle,
    pub answer: Answer,
}

/// The result of looking at a place of the next table.
#[derive(Drop)]
pub enum MoveStep {
    /// The search looks at this place next.
    Next(Place),
    /// The slot is migrated, or its copy stopped.
    Left(Option<Halt>),
}

/// A slot that is copied, with the table that it is in.
#[derive(Drop)]
pub struct Site<'a, K: Hash + Eq, V, S: BuildHasher> {
    pub table: &'a Table<K, V, S>,
    pub aim: Aim,
    pub chunk: Chunk,
    pub mode: ResizeMode,
}

/// A pair that moves to the next table: the marked word that names it, the hash of its key, and the
/// place that it is tried at.
#[derive(Drop)]
pub struct Moving<'a, K: Hash + Eq, V, S: BuildHasher> {
    pub to: &'a Table<K, V, S>,
    pub marked: u64,
    pub hash: u64,
    pub place: Place,
}

/// Returns this word, with its pair marked.
#[inline(always)]
fn with_mark(word: u64) -> u64
    ensures { result ≡ marked_as word }
{
    Word::marked(Word(word).pair()).0
}

/// Returns this word, which is marked, with its pair copied.
#[inline(always)]
fn with_copy(marked: u64) -> u64
    ensures { result ≡ copied_as marked }
{
    Word::copied(Word(marked).pair()).0
}

/// Returns the word of the pair that this one names, as it is put into the next table.
#[inline(always)]
fn with_life(marked: u64) -> u64
    ensures { result ≡ live_word (pair_of marked) }
{
    Word::live(Word(marked).pair()).0
}

impl<K: Hash + Eq, V, S: BuildHasher> Copier<K, V, S> {
    /// Sets the slot's word to copied, after its pair was put into a next table. If another word is
    /// there, another caller did it.
    #[inline(always)]
    fn finish<'a>(
        &mut self,
        site: &Site<'a, K, V, S>,
        marked: u64,
        window: &mut Window<'a, K, V, S>,
    ) -> Option<Halt>
        requires placed { IsPlacedAt window.old site.now }
        requires can { CanStepAt window.old site.now (settles.Finishing marked) self.old }
        ensures sees { Observes window.old window.new }
        ensures leaves { Leaves window.old site.now (settles.Finishing marked) self.old window.new
            self.new result }
    {
        let kind = Some(StepKind::Finish);
        let copied = with_copy(marked);
        let words = (marked, copied);
        self.exchange_slot(
            site.table,
            site.chunk.cursor.from,
            site.chunk.at,
            kind,
            words,
            window,
        );
        None
    }

    /// Puts the pair that moves into this place, which is empty, and writes its hint last.
    #[inline(always)]
    fn fill<'a>(
        &mut self,
        site: &Site<'a, K, V, S>,
        moving: &Moving<'a, K, V, S>,
        window: &mut Window<'a, K, V, S>,
    ) -> Option<Halt>
        requires placed { IsPlacedAt window.old site.now }
        requires at { IsAt window.old moving.now }
        requires can { CanStepAt window.old site.now (placing moving.now) self.old }
        ensures sees { Observes window.old window.new }
        ensures leaves { Leaves window.old site.now (placing moving.now) self.old window.new self.new
            result }
    {
        let kind = Some(StepKind::Place);
        let (hash, place) = (moving.hash, moving.place);
        let live = with_life(moving.marked);
        let words = (0, live);
        let found = self.exchange_slot(moving.to, place.table, place.probe.i, kind, words, window);
        if found != 0 {
            return Some(Halt {
                settle: Settle::Carrying(moving.marked, Carry::Placing { hash, place }),
                answer: Answer::Call(CallAnswer::Found(found)),
            });
        }
        let byte = hint(hash);
        write_hint_at(moving.to, place.table, place.probe.i, byte, window);
        match site.mode {
            ResizeMode::Incremental(_) => self.finish(site, moving.marked, window),
            ResizeMode::Blocking => None,
        }
    }

    /// Puts the pair that moves into this place, if it is empty.
    #[inline(always)]
    fn put<'a>(
        &mut self,
        site: &Site<'a, K, V, S>,
        moving: &Moving<'a, K, V, S>,
        window: &mut Window<'a, K, V, S>,
    ) -> Option<Halt>
        requires placed { IsPlacedAt window.old site.now }
        requires at { IsAt window.old moving.now }
        requires can { CanStepAt window.old site.now (reading moving.now) self.old }
        ensures sees { Observes window.old window.new }
        ensures leaves { Leaves window.old site.now (reading moving.now) self.old window.new self.new
            result }
    {
        let (hash, place) = (moving.hash, moving.place);
        let word = self.load_slot(moving.to, place.table, place.probe.i, window);
        if word != 0 {
            return Some(Halt {
                settle: Settle::Carrying(moving.marked, Carry::Reading { hash, place }),
                answer: Answer::Call(CallAnswer::Word(word)),
            });
        }
        self.fill(site, moving, window)
    }

    /// Looks at one place of the next table for the pair that moves.
    #[inline(always)]
    fn probe_place<'a>(
        &mut self,
        site: &Site<'a, K, V, S>,
        moving: &Moving<'a, K, V, S>,
        window: &mut Window<'a, K, V, S>,
    ) -> MoveStep
        requires placed { IsPlacedAt window.old site.now }
        requires at { IsAt window.old moving.now }
        requires can { CanStepAt window.old site.now (looking moving.now) self.old }
        ensures sees { Observes window.old window.new }
        ensures looks { ProbesOn window.old site.now moving.now self.old window.new self.new result }
    {
        let (hash, place) = (moving.hash, moving.place);
        let found = load_hint_at(moving.to, place.table, place.probe.i, window);
        match place.hinted(hash, found) {
            ProbeStep::On(Search::Looking(next)) => MoveStep::Next(next),
            ProbeStep::On(Search::Reading(_)) => {
                let left = self.put(site, moving, window);
                MoveStep::Left(left)
            }
            _ => MoveStep::Left(Some(Halt {
                settle: Settle::Carrying(moving.marked, Carry::Looking { hash, place }),
                answer: Answer::Call(CallAnswer::Word(found)),
            })),
        }
    }

    /// Searches the next table for an empty place for the pair that moves, from its place on.
    #[inline(always)]
    fn seek<'a>(
        &mut self,
        site: &Site<'a, K, V, S>,
        first: Moving<'a, K, V, S>,
        window: &mut Window<'a, K, V, S>,
    ) -> Option<Halt>
        requires placed { IsPlacedAt window.old site.now }
        requires at { IsAt window.old first }
        requires can { CanStepAt window.old site.now (looking first) self.old }
        ensures sees { Observes window.old window.new }
        ensures leaves { Leaves window.old site.now (looking first.entry) self.old window.new
            self.new result }
    {
        let mut moving = first;
        loop {
            match self.probe_place(site, &moving, window) {
                MoveStep::Next(next) => moving.place = next,
                MoveStep::Left(left) => return left,
            }
        }
    }

    /// Moves the pair of the slot, which is marked, to the next table.
    #[inline(always)]
    fn transfer<'a>(
        &mut self,
        site: &Site<'a, K, V, S>,
        marked: u64,
        window: &mut Window<'a, K, V, S>,
    ) -> Option<Halt>
        requires placed { IsPlacedAt window.old site.now }
        requires can { CanStepAt window.old site.now
            (settles.Carrying marked (carries.Hashing site.now.chunk.cursor.to)) self.old }
        ensures sees { Observes window.old window.new }
        ensures leaves { Leaves window.old site.now
            (settles.Carrying marked (carries.Hashing site.now.chunk.cursor.to)) self.old window.new
            self.new result }
    {
        let hash = self.carry(window);
        let to = window.table(site.chunk.cursor.to);
        let (len, limit) = size_at(to, site.chunk.cursor.to, window);
        let place = Place::first(hash, site.chunk.cursor.to, len, limit);
        let first = Moving {
            to,
            marked,
            hash,
            place,
        };
        self.seek(site, first, window)
    }

    /// Marks the pair of the slot, which this word names, and moves it to the next table.
    #[inline(always)]
    fn mark<'a>(
        &mut self,
        site: &Site<'a, K, V, S>,
        word: u64,
        window: &mut Window<'a, K, V, S>,
    ) -> Option<Halt>
        requires placed { IsPlacedAt window.old site.now }
        requires can { CanStepAt window.old site.now (settles.Marking word) self.old }
        ensures sees { Observes window.old window.new }
        ensures leaves { Leaves window.old site.now (settles.Marking word) self.old window.new
            self.new result }
    {
        let kind = Some(StepKind::Mark);
        let marked = with_mark(word);
        let words = (word, marked);
        let found = self.exchange_slot(
            site.table,
            site.chunk.cursor.from,
            site.chunk.at,
            kind,
            words,
            window,
        );
        if found != word {
            return Some(Halt {
                settle: Settle::Marking(word),
                answer: Answer::Call(CallAnswer::Found(found)),
            });
        }
        self.transfer(site, marked, window)
    }

    /// Closes the slot, which is empty, and writes its hint last.
    #[inline(always)]
    fn seal_empty<'a>(
        &mut self,
        site: &Site<'a, K, V, S>,
        window: &mut Window<'a, K, V, S>,
    ) -> Option<Halt>
        requires placed { IsPlacedAt window.old site.now }
        requires can { CanStepAt window.old site.now settles.Closing self.old }
        ensures sees { Observes window.old window.new }
        ensures leaves { Leaves window.old site.now settles.Closing self.old window.new self.new
            result }
    {
        let kind = Some(StepKind::Close);
        let words = (0, Word::CLOSED.0);
        let found = self.exchange_slot(
            site.table,
            site.chunk.cursor.from,
            site.chunk.at,
            kind,
            words,
            window,
        );
        if found != 0 {
            return Some(Halt {
                settle: Settle::Closing,
                answer: Answer::Call(CallAnswer::Found(found)),
            });
        }
        write_hint_at(
            site.table,
            site.chunk.cursor.from,
            site.chunk.at,
            SHUT,
            window,
        );
        None
    }

    /// Copies a slot. The caller may know already that its copy is at this step.
    #[inline(always)]
    fn settle<'a>(
        &mut self,
        site: &Site<'a, K, V, S>,
        window: &mut Window<'a, K, V, S>,
    ) -> Option<Halt>
        requires placed { IsPlacedAt window.old site.now }
        requires waits { WaitsAt window.old site.now self.old }
        ensures sees { Observes window.old window.new }
        ensures leaves { (seen : List (Event _ _ _)) → IsPrefix seen window.old.sight.log
            → LeavesFrom (stop_seen seen site.now self.old) window.new site.now self.new result }
    {
        let word = self.load_slot(site.table, site.chunk.cursor.from, site.chunk.at, window);
        match Word(word).kind() {
            Kind::Empty => self.seal_empty(site, window),
            Kind::Live => self.mark(site, word, window),
            Kind::Marked => Some(Halt {
                settle: Settle::Looking,
                answer: Answer::Call(CallAnswer::Word(word)),
            }),
            _ => None,
        }
    }

    /// Copies the slots of a chunk from this one on, as long as no other caller is met and the
    /// pairs find a place in the next table. Returns where the copy is then, and the answer that it
    /// got there.
    pub(crate) fn copy_slots<'a>(
        &mut self,
        aim: Aim,
        chunk: Chunk,
        mode: ResizeMode,
        window: &mut Window<'a, K, V, S>,
    ) -> (Copying, Answer)
        requires valid { IsValidChunk chunk }
        requires can { CanStep window.old mode
            (stop_in window.old (at_slot aim chunk settles.Looking) self.old) }
        ensures sees { Observes window.old window.new }
        ensures valid { IsValidCopying result.0 }
        ensures fit { IsFit result.1 }
        ensures ends { Ends window.old mode (at_slot aim chunk settles.Looking) self.old window.new
            self.new result }
    {
        // An empty slot is closed, so that no pair enters it. A live one is marked, so that no call
        // changes its pair; the pair is put into the next table, and the slot is set to copied. The
        // chunk's word comes last: a reader of 1 there need not look at its slots. Others may copy
        // the chunk at the same time, and of each two exchanges one is lost.
        let table = window.table(chunk.cursor.from);
        let mut site = Site {
            table,
            aim,
            chunk,
            mode,
        };
        loop {
            if let Some(halt) = self.settle(&site, window) {
                let step = Step::Settling(site.chunk, halt.settle);
                return (Copying::Stepping(site.aim, step), halt.answer);
            }
            site.chunk.at += 1;
            if site.chunk.at >= site.chunk.end {
                return self.close_chunk(&site, window);
            }
        }
    }
}
