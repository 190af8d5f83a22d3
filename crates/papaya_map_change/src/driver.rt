//! A changing call under way, for any task: its state, and its loads.
ghost use Rattle.papaya_map_change.specs.Driver.{HoldsNothing};
ghost use Rattle.std.specs.Prelude.{◌≡◌, None};
ghost use Rattle.std.specs.Int.{IsPowerOfTwo};
ghost use Rattle.papaya_words.specs.Mode.{IsChunked};
ghost use Rattle.papaya_call.specs.Machine.{IsFit as IsCallFit};
ghost use Rattle.papaya_call.specs.declared.ask.At.TheVariants.{Slot};
ghost use Rattle.papaya_call.specs.ChainMachine.{IsValid, after, kind_of_ask, started};
ghost use Rattle.papaya_call.specs.declared.chain.ask.Answer.TheVariants.{Call};
ghost use Rattle.papaya_call.specs.declared.chain.machine.Phase.TheVariants.{Calling};
ghost use Rattle.papaya_call_law.specs.TrueAnswers.{or_last};
ghost use Rattle.papaya_map_book.specs.Windows.{CanTrySlot, Does, IsHint, IsOpen, MayHint, Observes, Sees};
ghost use Rattle.papaya_map_change.specs.Doing.{was_made};
ghost use Rattle.papaya_map_change.specs.Window.Driver.{Holds, Loads};
ghost use Rattle.papaya_map_change.specs.Window.ProbingOn.{CanProbeOn, HasPassedOver, ProbesOn};
ghost use Rattle.papaya_map_change.specs.Window.Steps.{CanTake, Buries, HasTried, IsSizeOf, Takes};

use crate::copier::Copier;
use crate::fast_path::pass_over;
use papaya_call::ask::{Answer as CallAnswer, At};
use papaya_call::call::Task;
use papaya_call::chain::ask::Answer;
use papaya_call::chain::machine::Machine;
use papaya_call::machine::State;
use papaya_call::made::Made;
use papaya_call::search::Search;
use papaya_map_book::count::Shard;
use papaya_map_book::rule::entry::Stored;
use papaya_map_book::table::Table;
use papaya_map_book::window::Window;
use papaya_words::resize_mode::ResizeMode;
use std::alloc::Global;
use std::hash::{BuildHasher, Hash};
use std::sync::Wait;

/// A changing call under way: its machine, the table that it loaded last, and the pairs that its
/// change took out and put in. Its copier holds the pair loaded last, and acts for the call while
/// it is set aside for a copy. A new table is opened or linked by the copier's next step.
#[derive(Drop)]
pub struct Driver<'a, K: Hash + Eq, V, S: BuildHasher> {
    pub machine: Machine,
    pub table: Option<&'a Table<K, V, S>>,
    pub copier: Copier<K, V, S>,
    pub taken: Option<Stored<K, V>>,
    pub put: Option<Stored<K, V>>,
}

impl<'a, K: Hash + Eq, V, S: BuildHasher> Driver<'a, K, V, S> {
    /// Begins a call. The chunk that it copies first is chosen once it is set aside.
    #[inline(always)]
    pub fn new(
        task: Task,
        hash: u64,
        mode: ResizeMode,
        initial: usize,
        limit: Option<u64>,
    ) -> Driver<'a, K, V, S>
        requires chunked { IsChunked mode }
        requires initial { IsPowerOfTwo initial }
        ensures machine { result.machine ≡ started task hash mode initial 0 limit }
        ensures valid { IsValid result.machine }
        ensures empty { HoldsNothing result }
    {
        Driver {
            machine: Machine::new(task, hash, mode, initial, 0, limit),
            table: None,
            copier: Copier::new(),
            taken: None,
            put: None,
        }
    }

    /// Sets the call's state, and the table that it holds.
    #[inline(always)]
    pub fn enter_state(&mut self, state: State, table: &'a Table<K, V, S>)
        ensures { self.new ≡ record self.old {
          machine = record self.old.machine {
            call = record self.old.machine.call { state = state };
          };
          table = Some table.entry;
        } }
    {
        self.machine.call.state = state;
        self.table = Some(table);
    }

    /// Sets the pairs that the call has made.
    #[inline(always)]
    pub fn set_made(&mut self, made: Made)
        ensures { self.new ≡ record self.old {
          machine = record self.old.machine {
            call = record self.old.machine.call { made = made };
          };
        } }
    {
        self.machine.call.made = made;
    }

    /// Moves a call that searches the table which it holds past the places with other keys. Its
    /// machine would ask for each of them.
    #[inline(always)]
    pub fn probe_on(&mut self, key: &K, window: &mut Window<'a, K, V, S>)
        requires valid { IsValid self.old.machine }
        requires calling { self.old.machine.phase ≡ Calling }
        requires can { CanProbeOn window.old key.now self.old }
        ensures over { HasPassedOver window.old self.old window.new self.new }
        ensures looks { ProbesOn window.old key.now self.old window.new self.new }
    {
        let (State::Searching(Search::Looking(at)), Some(table)) = (
            self.machine.call.state,
            self.table,
        ) else {
            return;
        };
        let to = pass_over(window, key, self.machine.call.hash, table, at);
        self.enter_state(State::Searching(Search::Looking(to)), table);
    }

    /// Continues after an answer to what the call asked for itself.
    #[inline(always)]
    pub fn answer(&mut self, answer: CallAnswer)
        requires valid { IsValid self.old.machine }
        requires fit { IsCallFit answer }
        ensures after { self.new ≡ record self.old {
          machine = after self.old.machine (Call answer);
        } }
        ensures valid { IsValid self.new.machine }
    {
        self.machine.answer(Answer::Call(answer));
    }

    /// Loads a word in one atomic step.
    #[inline(always)]
    pub fn load(&mut self, at: At, window: &mut Window<'a, K, V, S>) -> u64
        requires held { Holds at window.old self.old }
        ensures sees { Observes window.old window.new }
        ensures as_loaded { Loads at result window.old self.old window.new self.new }
        ensures rest { self.new ≡ record self.old {
          table = self.new.table;
          copier = record self.old.copier { last = self.new.copier.last };
        } }
    {
        match (at, self.table) {
            (At::Root, _) => {
                let (word, root) = window.root();
                self.enter(root);
                word
            }
            (At::Next(number), Some(table)) => {
                let (word, next) = window.next(table, number);
                self.enter(next);
                word
            }
            (At::Slot(number, place), Some(table)) => {
                let (word, pair) = window.slot(table, number, place);
                self.copier.remember(pair);
                word
            }
            (At::Made, _) => window.made(),
            _ => unreachable!(),
        }
    }

    /// Loads a slot's hint in one atomic step.
    #[inline(always)]
    pub fn hint(&self, number: u64, place: usize, window: &mut Window<'a, K, V, S>) -> u64
        requires { Holds (Slot number place) window.old self.now }
        ensures sees { Observes window.old window.new }
        ensures hint { IsHint window.old window.new number place result }
    {
        let Some(table) = self.table else {
            unreachable!()
        };
        window.hint(table, number, place)
    }

    /// Writes a slot's hint, if it has none. Observes nothing further.
    #[inline(always)]
    pub fn write_hint(&self, number: u64, place: usize, hint: u8, window: &Window<'a, K, V, S>)
        requires held { Holds (Slot number place) window.now self.now }
        requires hint { MayHint window.now number place hint }
    {
        let Some(table) = self.table else {
            unreachable!()
        };
        window.write_hint(table, number, place, hint);
    }

    /// Returns the size of the table that is held.
    pub fn size(&self) -> CallAnswer
        requires held { self.now.table ≡ None → ⊥ }
        ensures size { IsSizeOf self.now.table result }
    {
        let Some(table) = self.table else {
            unreachable!()
        };
        let (len, limit) = table.size();
        CallAnswer::Size { len, limit }
    }

    /// Tries to take the number of a further pair.
    pub fn take(&self, words: (u64, u64), window: &mut Window<'a, K, V, S>) -> CallAnswer
        requires can { CanTake window.old self.now words }
        ensures sees { Observes window.old window.new }
        ensures takes { Takes window.old self.now words window.new result }
    {
        let kind = self.machine.kind();
        let found = window.take(kind, words);
        if found == words.0 {
            CallAnswer::Exchanged
        } else {
            CallAnswer::Found(found)
        }
    }

    /// Tries to remove the pair that a slot holds.
    pub fn bury(
        &mut self,
        number: u64,
        place: usize,
        words: (u64, u64),
        window: &mut Window<'a, K, V, S>,
    ) -> CallAnswer
        requires held { Holds (Slot number place) window.old self.old }
        requires open { IsOpen window.old }
        requires can { CanTrySlot window.old number place (kind_of_ask self.old.machine) words }
        ensures sees { Sees window.old window.new }
        ensures does { Does (was_made result) window.old window.new }
        ensures machine { self.new.machine ≡ self.old.machine }
        ensures buries { Buries number place words window.old self.old window.new self.new
            result }
    {
        let Some(table) = self.table else {
            unreachable!()
        };
        let kind = self.machine.kind();
        let (found, pair) = window.exchange_slot(table, number, place, kind, words);
        self.tried(words.0, found, pair, None)
    }

    /// Keeps the table that was loaded, if one was.
    #[inline(always)]
    fn enter(&mut self, table: Option<&'a Table<K, V, S>>)
        ensures { self.new ≡ record self.old { table = or_last table.entry self.old.table } }
    {
        if table.is_some() {
            self.table = table;
        }
    }

    /// Records a tried exchange, with the pair that it puts in, if any, and the word and the pair
    /// that it found.
    #[inline(always)]
    pub fn tried(
        &mut self,
        old: u64,
        found: u64,
        pair: Option<Stored<K, V>>,
        put: Option<Stored<K, V>>,
    ) -> CallAnswer
        ensures { HasTried found old pair put self.old self.new result }
    {
        if found == old {
            self.taken = pair;
            self.put = put;
            CallAnswer::Exchanged
        } else {
            self.copier.remember(pair);
            CallAnswer::Found(found)
        }
    }
}

/// The means of a changing call: the runtime that it waits by, its allocator, the first table's
/// length, and the shard of the count that it adds to.
#[derive(Drop)]
pub struct Means<'m, 's, R: Wait> {
    pub rt: &'m R,
    pub alloc: Global,
    pub initial: usize,
    pub shard: &'m Shard<'s>,
}
