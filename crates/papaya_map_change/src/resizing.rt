//! Calls that resize the map and change no pair of it: their machine, whose copier acts for it.
ghost use Rattle.std.specs.Prelude.{◌≡◌, ℕ, IfErr, IfOk, Some, None, Err};
ghost use Rattle.std.specs.Int.{IsPowerOfTwo};
ghost use Rattle.papaya_call.specs.ChainMachine.{IsFit};
ghost use Rattle.papaya_call.specs.Resizer.{IsValidResizer, ask_of, reply_of};
ghost use Rattle.papaya_call.specs.declared.call.Reply.TheVariants.{Refused as ReplyRefused};
ghost use Rattle.papaya_call.specs.declared.chain.resizer.ResizerState.TheVariants.{Opening, Done};
ghost use Rattle.papaya_call.specs.declared.chain.resizer.ResizerState.TheVariants as stages;
ghost use Rattle.papaya_call.specs.declared.copy.settle.Settle.TheVariants.{Looking};
ghost use Rattle.papaya_map_book.specs.Limits.{tables_of};
ghost use Rattle.papaya_map_book.specs.Windows.{IsLawful, Observes};
ghost use Rattle.papaya_map_change.specs.Window.Resizing.{CanResize, ContinuesAfter};
ghost use Rattle.papaya_map_change.specs.Resizing.{HasNoRoomFor, HasRoomFor};
ghost use Rattle.papaya_map_change.specs.Settling.{at_slot};
ghost use Rattle.papaya_map_change.specs.Writing.{IsMemoryOrCapacity};

use crate::copier::{Copier, CopyRequest, tried};
use crate::driver::Means;
use papaya_call::call::Reply;
use papaya_call::chain::ask::Answer;
use papaya_call::chain::resizer::{Resize, Resizer, ResizerState};
use papaya_call::copy::copying::{Aim, Copying};
use papaya_call::copy::settle::Settle;
use papaya_call::copy::step::{Chunk, Step};
use papaya_call::copy_ask::CopyAsk;
use papaya_map_book::book::Book;
use papaya_map_book::rule::own::{CapacityCause, OwnSteps};
use papaya_map_book::window::Window;
use papaya_words::refused::Refused;
use std::hash::{BuildHasher, Hash};
use std::sync::{MutexGuard, Wait};

/// A call that resizes the map, under way.
#[derive(Drop)]
pub struct Resizing<K: Hash + Eq, V, S: BuildHasher> {
    machine: Resizer,
    copier: Copier<K, V, S>,
}

impl<K: Hash + Eq, V, S: BuildHasher> Resizing<K, V, S> {
    /// Performs what the machine asks for, and returns the answer.
    fn answer<'a, R: Wait>(
        &mut self,
        means: &Means<'_, '_, R>,
        ask: CopyAsk,
        making: &mut Option<MutexGuard<'a, ()>>,
        window: &mut Window<'a, K, V, S>,
    ) -> Answer
        requires valid { IsValidResizer self.old.machine }
        requires can { CanResize window.old self.old }
        requires asks { ask_of self.old.machine ≡ Some ask }
        ensures sees { Observes window.old window.new }
        ensures fit { IsFit result }
        ensures valid { IsValidResizer self.new.machine }
        ensures machine { self.new.machine ≡ record self.old.machine {
          state = self.new.machine.state;
        } }
        ensures goes_on { ContinuesAfter window.new self.new result }
    {
        match self.machine.state {
            ResizerState::Opening(_) => self.open(window),
            ResizerState::Copying {
                from,
                copying: Copying::Stepping(aim, Step::Settling(chunk, Settle::Looking)),
            } => self.copy_slots(from, aim, chunk, window),
            _ => self.copy(means, ask, making, window),
        }
    }

    /// Performs what it asks for, if no table is opened, and returns the answer.
    fn copy<'a, R: Wait>(
        &mut self,
        means: &Means<'_, '_, R>,
        ask: CopyAsk,
        making: &mut Option<MutexGuard<'a, ()>>,
        window: &mut Window<'a, K, V, S>,
    ) -> Answer
        requires valid { IsValidResizer self.old.machine }
        requires can { CanResize window.old self.old }
        requires asks { ask_of self.old.machine ≡ Some ask }
        requires closed { (n : ℕ) → self.old.machine.state ≡ Opening n → ⊥ }
        ensures sees { Observes window.old window.new }
        ensures fit { IsFit result }
        ensures machine { self.new.machine ≡ self.old.machine }
        ensures goes_on { ContinuesAfter window.new self.new result }
    {
        let asked = CopyRequest {
            ask,
            kind: self.machine.kind(),
            follows: self.machine.follows(),
        };
        self.copier.answer(means, asked, making, window)
    }

    /// Copies slots of the chunk, from the current one on; returns the answer to the ask after
    /// them.
    fn copy_slots<'a>(
        &mut self,
        from: u64,
        aim: Aim,
        chunk: Chunk,
        window: &mut Window<'a, K, V, S>,
    ) -> Answer
        requires valid { IsValidResizer self.old.machine }
        requires can { CanResize window.old self.old }
        requires state { self.old.machine.state ≡ stages.Copying from (at_slot aim chunk Looking) }
        ensures sees { Observes window.old window.new }
        ensures fit { IsFit result }
        ensures valid { IsValidResizer self.new.machine }
        ensures machine { self.new.machine ≡ record self.old.machine {
          state = self.new.machine.state;
        } }
        ensures goes_on { ContinuesAfter window.new self.new result }
    {
        let mode = self.machine.mode;
        let (copying, answer) = self.copier.copy_slots(aim, chunk, mode, window);
        self.machine.state = ResizerState::Copying { from, copying };
        answer
    }

    /// Tries to make the new table the root.
    fn open<'a>(&mut self, window: &mut Window<'a, K, V, S>) -> Answer
        requires valid { IsValidResizer self.old.machine }
        requires can { CanResize window.old self.old }
        requires opens { (n : _) × (self.old.machine.state ≡ Opening n) }
        ensures sees { Observes window.old window.new }
        ensures fit { IsFit result }
        ensures machine { self.new.machine ≡ self.old.machine }
        ensures goes_on { ContinuesAfter window.new self.new result }
    {
        let Some((table, mut seal)) = self.copier.fresh.take() else {
            unreachable!()
        };
        let (found, _) = window.open_root(&table, &mut seal);
        tried(found, 0)
    }

    /// Returns the result of a call that has replied.
    fn replied(&self) -> Result<(), Refused>
        requires { ask_of self.now.machine ≡ None }
        ensures done { IfOk result (λ _. self.now.machine.state ≡ Done) }
        ensures refused { IfErr result (λ refused. reply_of self.now.machine
            ≡ Some (ReplyRefused refused)) }
    {
        match self.machine.reply() {
            Some(Reply::Refused(refused)) => Err(refused),
            _ => Ok(()),
        }
    }
}

/// Resizes the map, and changes no pair. `given` then records the sum of the count beside which
/// there is room. If it fails with `Refused::Capacity`, `given` records the number that a full
/// arena of tables gave, or the sum that makes a table too long.
pub fn resize<'a, R: Wait, K: Hash + Eq, V, S: BuildHasher>(
    means: &Means<'_, '_, R>,
    window: &mut Window<'a, K, V, S>,
    given: &mut OwnSteps<CapacityCause>,
    resize: Resize,
) -> Result<(), Refused>
    requires initial { IsPowerOfTwo means.now.initial }
    ensures sees { Observes window.old window.new }
    ensures lawful { IsLawful window.new }
    ensures done { IfOk result (λ _. HasRoomFor resize (tables_of window.new.sight.log)
        given.new.done) }
    ensures refused { IfErr result (λ refused. IsMemoryOrCapacity refused) }
    ensures crowded { result ≡ Err Refused.Capacity → HasNoRoomFor means.now.initial resize
        (tables_of window.new.sight.log) given.new.done }
{
    window.learn();
    let start = means.shard.count().next_start();
    let machine = Resizer::new(resize, window.book.parts.mode, means.initial, start);
    let mut resizing = Resizing {
        machine,
        copier: Copier::new(),
    };
    let mut making: Option<MutexGuard<'a, ()>> = None;
    for _ in means.rt.forever() {
        let Some(ask) = resizing.machine.ask() else {
            *given = resizing.copier.given.again();
            return resizing.replied();
        };
        let answer = resizing.answer(means, ask, &mut making, window);
        resizing.machine.answer(answer);
    }
    unreachable!()
}

/// Copies a chunk of the root, if the root is being copied. A caller helps so after its own call.
/// If that fails, the copy is left to the next caller.
#[cold]
#[inline(never)]
pub(crate) fn copy_chunk<R: Wait, K: Hash + Eq, V, S: BuildHasher>(
    means: &Means<'_, '_, R>,
    book: &Book<K, V, S>,
)
    requires initial { IsPowerOfTwo means.now.initial }
{
    let kept = book.keep_root();
    let mut window = Window::new(book, &kept, &book.pass());
    let mut given = OwnSteps::nothing();
    let _ = resize(means, &mut window, &mut given, Resize::Chunk);
}
