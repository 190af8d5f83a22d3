//! The way of a copy to the chunk that it takes, and past it, as long as few answers lead it there.
//! Only the proof has the machine.
ghost use Rattle.std.specs.Prelude.{◌≡◌};
ghost use Rattle.papaya_call.specs.ChainMachine.{IsFit};
ghost use Rattle.papaya_call.specs.Copying.{IsValidCopying};
ghost use Rattle.papaya_call.specs.Step.{IsValidChunk, IsValidCursor, chunk_at};
ghost use Rattle.papaya_call.specs.declared.copy.copying.Copying.TheVariants.{Stepping};
ghost use Rattle.papaya_call.specs.declared.copy.step.Step.TheVariants as steps;
ghost use Rattle.papaya_map_book.specs.Windows.{Observes};
ghost use Rattle.papaya_map_change.specs.Window.Settling.{CanStep, Ends, stop_in};

use crate::copier::{Copier, size};
use crate::settling::Site;
use papaya_call::ask::{Answer as CallAnswer, At, StepKind};
use papaya_call::chain::ask::Answer;
use papaya_call::copy::copying::{Aim, Copying};
use papaya_call::copy::step::{Chunk, Cursor, Step};
use papaya_map_book::window::Window;
use papaya_words::resize_mode::ResizeMode;
use std::hash::{BuildHasher, Hash};

/// Returns the chunk whose word is loaded now.
#[inline(always)]
fn chunk_of(cursor: Cursor) -> Chunk
    requires { IsValidCursor cursor }
    ensures value { result ≡ chunk_at cursor }
    ensures valid { IsValidChunk result }
{
    // A chunk's length may be any 64-bit number.
    let end = if cursor.slots < cursor.len - cursor.begun {
        cursor.begun + cursor.slots
    } else {
        cursor.len
    };
    Chunk {
        cursor,
        at: cursor.begun,
        end,
    }
}

impl<K: Hash + Eq, V, S: BuildHasher> Copier<K, V, S> {
    /// Finds the root, the table after it and the root's length, as long as there are both. Returns
    /// where the copy is then, and the answer that it got there.
    pub(crate) fn find_tables<'a>(
        &mut self,
        aim: Aim,
        mode: ResizeMode,
        window: &mut Window<'a, K, V, S>,
    ) -> (Copying, Answer)
        requires can { CanStep window.old mode
            (stop_in window.old (Stepping aim steps.AtRoot) self.old) }
        ensures sees { Observes window.old window.new }
        ensures valid { IsValidCopying result.0 }
        ensures fit { IsFit result.1 }
        ensures ends { Ends window.old mode (Stepping aim steps.AtRoot) self.old window.new self.new
            result }
    {
        let from = self.load(At::Root, window);
        if let Aim::All(_) = aim {
            let answer = Answer::Call(CallAnswer::Word(from));
            return (Copying::Stepping(aim, Step::AtRoot), answer);
        }
        if from == 0 {
            let answer = Answer::Call(CallAnswer::Word(from));
            return (Copying::Stepping(aim, Step::AtRoot), answer);
        }
        let to = self.load(At::Next(from), window);
        let answer = Answer::Call(CallAnswer::Word(to));
        let aiming = Step::Aiming { from, after: from };
        if to == 0 {
            return (Copying::Stepping(aim, aiming), answer);
        }
        let ResizeMode::Incremental(_) = mode else {
            return (Copying::Stepping(aim, aiming), answer);
        };
        let (len, limit) = size(from, window);
        let answer = Answer::Call(CallAnswer::Size { len, limit });
        (Copying::Stepping(aim, Step::Sizing { from, to }), answer)
    }

    /// Takes the chunk at the cursor, and copies its slots, if it is not copied yet and this caller
    /// has copied none. Returns where the copy is then, and the answer that it got there.
    pub(crate) fn take_chunk<'a>(
        &mut self,
        aim: Aim,
        cursor: Cursor,
        mode: ResizeMode,
        window: &mut Window<'a, K, V, S>,
    ) -> (Copying, Answer)
        requires valid { IsValidCursor cursor }
        requires can { CanStep window.old mode
            (stop_in window.old (Stepping aim (steps.AtChunk cursor)) self.old) }
        ensures sees { Observes window.old window.new }
        ensures valid { IsValidCopying result.0 }
        ensures fit { IsFit result.1 }
        ensures ends { Ends window.old mode (Stepping aim (steps.AtChunk cursor)) self.old
            window.new self.new result }
    {
        let done = self.load(At::Done(cursor.to, cursor.at), window);
        if done != 0 || cursor.copied {
            let answer = Answer::Call(CallAnswer::Word(done));
            return (Copying::Stepping(aim, Step::AtChunk(cursor)), answer);
        }
        let chunk = chunk_of(cursor);
        self.copy_slots(aim, chunk, mode, window)
    }

    /// Writes into the word of a chunk that its slots are copied, and loads the next chunk's word.
    /// Returns where the copy is then, and the answer that it got there.
    #[inline(always)]
    pub(crate) fn close_chunk<'a>(
        &mut self,
        site: &Site<'a, K, V, S>,
        window: &mut Window<'a, K, V, S>,
    ) -> (Copying, Answer)
        requires valid { IsValidCursor site.now.chunk.cursor }
        requires can { CanStep window.old site.now.mode
            (stop_in window.old (Stepping site.now.aim (steps.Advancing site.now.chunk.cursor))
            self.old) }
        ensures sees { Observes window.old window.new }
        ensures valid { IsValidCopying result.0 }
        ensures fit { IsFit result.1 }
        ensures ends { Ends window.old site.now.mode
            (Stepping site.now.aim (steps.Advancing site.now.chunk.cursor)) self.old window.new
            self.new result }
    {
        let (aim, cursor) = (site.aim, site.chunk.cursor);
        let at = At::Done(cursor.to, cursor.at);
        let closed = self.exchange(at, Some(StepKind::Advance), (0, 1), window);
        let passed = Cursor {
            copied: true,
            ..cursor
        };
        let Step::AtChunk(next) = passed.next() else {
            return (Copying::Stepping(aim, Step::Advancing(cursor)), closed);
        };
        let done = self.load(At::Done(next.to, next.at), window);
        let answer = Answer::Call(CallAnswer::Word(done));
        (Copying::Stepping(aim, Step::AtChunk(next)), answer)
    }
}
