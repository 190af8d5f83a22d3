//! A call that is set aside makes a next table or copies the root, and then continues. A copier
//! performs what it asks for in between.
ghost use Rattle.std.specs.Prelude.{◌≡◌, ◌≢◌, ℕ, MatchOption};
ghost use Rattle.papaya_call.specs.ChainMachine.{IsFit, IsValid, ask_of};
ghost use Rattle.papaya_call.specs.declared.chain.ask.Ask.TheVariants.{Copy};
ghost use Rattle.papaya_call.specs.declared.chain.machine.Phase.TheVariants as phases;
ghost use Rattle.papaya_call.specs.declared.chain.machine.Phase.TheVariants.{Calling};
ghost use Rattle.papaya_call.specs.declared.copy.settle.Settle.TheVariants.{Looking};
ghost use Rattle.papaya_call.specs.declared.copy.copying.Copying.TheVariants.{Stepping};
ghost use Rattle.papaya_call.specs.declared.copy.step.Step.TheVariants as steps;
ghost use Rattle.papaya_call.specs.Link.{IsFitCopyAsk};
ghost use Rattle.papaya_map_book.specs.Windows.{HasCome, IsLawful, IsTable, Observes};
ghost use Rattle.papaya_map_change.specs.Window.Driver.{CanGoOn, Copies, Continues, Helps};
ghost use Rattle.papaya_map_change.specs.Window.Going.{ContinuesTo};
ghost use Rattle.papaya_map_change.specs.Helping.{IsEntering};
ghost use Rattle.papaya_map_change.specs.Settling.{at_slot};

use crate::copier::CopyRequest;
use crate::driver::{Driver, Means};
use papaya_call::chain::ask::{Answer, Ask};
use papaya_call::chain::machine::Phase;
use papaya_call::copy::copying::{Aim, Copying};
use papaya_call::copy::settle::Settle;
use papaya_call::copy::step::{Chunk, Cursor, Step};
use papaya_call::copy_ask::CopyAsk;
use papaya_call::machine::State;
use papaya_call::search::Search;
use papaya_map_book::window::Window;
use std::hash::{BuildHasher, Hash};
use std::sync::{MutexGuard, Wait};

impl<'a, K: Hash + Eq, V, S: BuildHasher> Driver<'a, K, V, S> {
    /// Copies for a call that is set aside, until it continues for itself. It does so in a next
    /// table, at the root, or at its end if a table could not be made. A call that is not set aside
    /// stays as it is.
    #[inline(always)]
    pub fn help<R: Wait>(&mut self, means: &Means<'_, '_, R>, window: &mut Window<'a, K, V, S>)
        requires valid { IsValid self.old.machine }
        requires can { CanGoOn window.old self.old }
        ensures helps { Helps window.old self.old.machine window.new self.new }
        ensures goes_on { Continues window.old self.old window.new self.new }
        ensures rest { (self.new.taken ≡ self.old.taken) × (self.new.put ≡ self.old.put) }
        ensures still { self.old.machine.phase ≡ Calling
            → (self.new ≡ self.old) × (window.new ≡ window.old) }
    {
        if let Phase::Calling = self.machine.phase {
            return;
        }
        self.help_set_aside(means, window);
    }

    /// Copies until the call continues for itself. It is a function of its own, so that a call that
    /// is not set aside pays nothing for it.
    #[inline(never)]
    fn help_set_aside<R: Wait>(
        &mut self,
        means: &Means<'_, '_, R>,
        window: &mut Window<'a, K, V, S>,
    )
        requires valid { IsValid self.old.machine }
        requires can { CanGoOn window.old self.old }
        requires aside { self.old.machine.phase ≢ Calling }
        ensures helps { Helps window.old self.old.machine window.new self.new }
        ensures goes_on { Continues window.old self.old window.new self.new }
        ensures rest { (self.new.taken ≡ self.old.taken) × (self.new.put ≡ self.old.put) }
    {
        self.machine.number = means.shard.count().next_start();
        // Keeps the turn to make a next table, until that is linked. If it fails, the copy ends,
        // and the turn with it.
        let mut making: Option<MutexGuard<'a, ()>> = None;
        for _ in means.rt.forever() {
            let Ask::Copy(ask) = self.machine.ask() else {
                return;
            };
            let answer = self.copy_on(means, ask, &mut making, window);
            self.machine.answer(answer);
            self.arrive(window);
        }
        unreachable!()
    }

    /// Holds the table in which the call is to search for its key, if a copy has led it to one.
    #[inline(always)]
    fn arrive(&mut self, window: &mut Window<'a, K, V, S>)
        requires lawful { IsLawful window.old }
        requires come { (n : ℕ) → IsEntering self.old.machine n → HasCome window.old n }
        ensures sees { Observes window.old window.new }
        ensures lawful { IsLawful window.new }
        ensures held { (n : ℕ) → IsEntering self.old.machine n
            → MatchOption self.new.table ⊥ (λ r. IsTable window.new n r.now) }
        ensures still { ((n : ℕ) → IsEntering self.old.machine n → ⊥)
            → self.new.table ≡ self.old.table }
        ensures rest { self.new ≡ record self.old { table = self.new.table } }
    {
        if let Phase::Calling = self.machine.phase {
            if let State::Searching(Search::Sizing(number)) = self.machine.call.state {
                self.table = Some(window.table(number));
                window.learn();
            }
        }
    }

    /// Copies slots of a chunk one after another if the first of them is next, and else takes one
    /// step; returns the answer to the next ask.
    #[inline(always)]
    fn copy_on<R: Wait>(
        &mut self,
        means: &Means<'_, '_, R>,
        ask: CopyAsk,
        making: &mut Option<MutexGuard<'a, ()>>,
        window: &mut Window<'a, K, V, S>,
    ) -> Answer
        requires valid { IsValid self.old.machine }
        requires can { CanGoOn window.old self.old }
        requires asks { ask_of self.old.machine ≡ Copy ask }
        requires fit { IsFitCopyAsk ask }
        ensures sees { Observes window.old window.new }
        ensures valid { IsValid self.new.machine }
        ensures fit { IsFit result }
        ensures goes { ContinuesTo window.old self.old window.new self.new result }
        ensures rest { self.new ≡ record self.old {
          machine = self.new.machine;
          copier = self.new.copier;
        } }
    {
        match self.machine.phase {
            Phase::Copying(Copying::Stepping(aim, Step::AtRoot)) => self.find_tables(aim, window),
            Phase::Copying(Copying::Stepping(aim, Step::AtChunk(cursor))) => {
                self.take_chunk(aim, cursor, window)
            }
            Phase::Copying(Copying::Stepping(aim, Step::Settling(chunk, Settle::Looking))) => {
                self.copy_slots(aim, chunk, window)
            }
            _ => self.copy(means, ask, making, window),
        }
    }

    /// Finds the tables of the copy; returns the answer to the ask after them.
    fn find_tables(&mut self, aim: Aim, window: &mut Window<'a, K, V, S>) -> Answer
        requires valid { IsValid self.old.machine }
        requires can { CanGoOn window.old self.old }
        requires phase { self.old.machine.phase ≡ phases.Copying (Stepping aim steps.AtRoot) }
        ensures sees { Observes window.old window.new }
        ensures valid { IsValid self.new.machine }
        ensures fit { IsFit result }
        ensures goes { ContinuesTo window.old self.old window.new self.new result }
        ensures rest { self.new ≡ record self.old {
          machine = self.new.machine;
          copier = self.new.copier;
        } }
    {
        let mode = self.machine.call.mode;
        let (copying, answer) = self.copier.find_tables(aim, mode, window);
        self.machine.phase = Phase::Copying(copying);
        answer
    }

    /// Copies slots of the chunk at the cursor; returns the answer to the ask after them.
    fn take_chunk(&mut self, aim: Aim, cursor: Cursor, window: &mut Window<'a, K, V, S>) -> Answer
        requires valid { IsValid self.old.machine }
        requires can { CanGoOn window.old self.old }
        requires phase { self.old.machine.phase
            ≡ phases.Copying (Stepping aim (steps.AtChunk cursor)) }
        ensures sees { Observes window.old window.new }
        ensures valid { IsValid self.new.machine }
        ensures fit { IsFit result }
        ensures goes { ContinuesTo window.old self.old window.new self.new result }
        ensures rest { self.new ≡ record self.old {
          machine = self.new.machine;
          copier = self.new.copier;
        } }
    {
        let mode = self.machine.call.mode;
        let (copying, answer) = self.copier.take_chunk(aim, cursor, mode, window);
        self.machine.phase = Phase::Copying(copying);
        answer
    }

    /// Copies slots of the chunk, from the current one on; returns the answer to the ask after
    /// them.
    fn copy_slots(&mut self, aim: Aim, chunk: Chunk, window: &mut Window<'a, K, V, S>) -> Answer
        requires valid { IsValid self.old.machine }
        requires can { CanGoOn window.old self.old }
        requires phase { self.old.machine.phase ≡ phases.Copying (at_slot aim chunk Looking) }
        ensures sees { Observes window.old window.new }
        ensures valid { IsValid self.new.machine }
        ensures fit { IsFit result }
        ensures goes { ContinuesTo window.old self.old window.new self.new result }
        ensures rest { self.new ≡ record self.old {
          machine = self.new.machine;
          copier = self.new.copier;
        } }
    {
        let mode = self.machine.call.mode;
        let (copying, answer) = self.copier.copy_slots(aim, chunk, mode, window);
        self.machine.phase = Phase::Copying(copying);
        answer
    }

    /// Performs an ask of a copy, and returns the answer.
    #[inline(always)]
    fn copy<R: Wait>(
        &mut self,
        means: &Means<'_, '_, R>,
        ask: CopyAsk,
        making: &mut Option<MutexGuard<'a, ()>>,
        window: &mut Window<'a, K, V, S>,
    ) -> Answer
        requires valid { IsValid self.old.machine }
        requires can { CanGoOn window.old self.old }
        requires asks { ask_of self.old.machine ≡ Copy ask }
        requires fit { IsFitCopyAsk ask }
        ensures sees { Observes window.old window.new }
        ensures fit { IsFit result }
        ensures copies { Copies window.old self.old window.new self.new result }
        ensures rest { self.new ≡ record self.old { copier = self.new.copier } }
    {
        let asked = CopyRequest {
            ask,
            kind: self.machine.kind(),
            follows: self.machine.follows(),
        };
        self.copier.answer(means, asked, making, window)
    }
}
