//! Performs the steps of a copy on the book. All tables are copied here, by a call that is set
//! aside or by one that resizes the map.
ghost use Rattle.std.specs.Prelude.{◌≡◌, ◌≢◌, ◌⊎◌, ◌<◌, ◌+◌, ℕ, [], ◌∷◌, IfErr, IfOk, None, Some, length};
ghost use Rattle.papaya_call.specs.Search.{IsSize};
ghost use Rattle.papaya_call.specs.declared.ask.At.TheVariants.{Next, Slot};
ghost use Rattle.papaya_call.specs.ChainMachine.{IsFit};
ghost use Rattle.papaya_call_law.specs.TrueAnswers.{or_last};
ghost use Rattle.papaya_map_book.specs.Limits.{IsFull};
ghost use Rattle.papaya_map_book.specs.Logs.{pair_named};
ghost use Rattle.papaya_map_book.specs.Windows.{HasCome, IsHint, IsIn, IsLawful, IsTable, MayHint, Observes};
ghost use Rattle.papaya_map_change.specs.Copier.{tried_answer};
ghost use Rattle.papaya_map_book.specs.declared.rule.own.CapacityCause.TheVariants.{Sum};
ghost use Rattle.papaya_map_change.specs.Window.Copier.{CanAnswer, CanExchange, CanJoin, CanReach, CanTryFor, Answers, Carries};
ghost use Rattle.papaya_map_change.specs.Window.Copier.{Exchanges, HasMade, HasTried, IsSizeOf, Joins, Loads, TriesFor};

use crate::driver::Means;
use boxcar::Pushed;
use logbook::Pen;
use papaya_call::ask::{Answer as CallAnswer, At, StepKind};
use papaya_call::chain::ask::Answer;
use papaya_call::copy_ask::CopyAsk;
use papaya_map_book::count::Count;
use papaya_map_book::fresh::FreshSlots;
use papaya_map_book::rule::entry::Stored;
use papaya_map_book::rule::own::{CapacityCause, OwnSteps};
use papaya_map_book::table::Table;
use papaya_map_book::window::Window;
use papaya_map_lookup::lookup::hash;
use papaya_words::refused::Refused;
use std::hash::{BuildHasher, Hash};
use std::sync::{MutexGuard, Wait};

/// A machine's request for a copy.
#[derive(Clone, Copy)]
pub struct CopyRequest {
    pub ask: CopyAsk,
    /// The kind of the requested exchange, if one is requested.
    pub kind: Option<StepKind>,
    /// The table that the new table is to follow.
    pub follows: u64,
}

/// The state of a caller that copies: the pair loaded last, the pair that moves, and a new table
/// until the call tries to open or link it. If a number was given past a limit, or the sum of the
/// count, contracts see that number.
#[derive(Drop)]
pub struct Copier<K: Hash + Eq, V, S: BuildHasher> {
    pub last: Option<Stored<K, V>>,
    pub kept: Option<Stored<K, V>>,
    pub fresh: Option<(Pushed<Table<K, V, S>>, Pen)>,
    pub given: OwnSteps<CapacityCause>,
}

/// Returns the answer to an exchange that found this word.
pub(crate) fn tried(found: u64, old: u64) -> Answer
    ensures value { result ≡ tried_answer found old }
    ensures fit { IsFit result }
{
    if found == old {
        Answer::Call(CallAnswer::Exchanged)
    } else {
        Answer::Call(CallAnswer::Found(found))
    }
}

impl<K: Hash + Eq, V, S: BuildHasher> Copier<K, V, S> {
    /// Returns a copier that holds nothing.
    #[inline(always)]
    pub fn new() -> Copier<K, V, S>
        ensures { (result.last ≡ None) × (result.kept ≡ None) × (result.fresh ≡ None)
            × (result.given.done ≡ []) }
    {
        Copier {
            last: None,
            kept: None,
            fresh: None,
            given: OwnSteps::nothing(),
        }
    }

    /// Performs what is requested for a copy, and returns the answer. `making` keeps the turn to
    /// make a next table, until the try to link it.
    #[inline(always)]
    pub fn answer<'a, R: Wait>(
        &mut self,
        means: &Means<'_, '_, R>,
        asked: CopyRequest,
        making: &mut Option<MutexGuard<'a, ()>>,
        window: &mut Window<'a, K, V, S>,
    ) -> Answer
        requires can { CanAnswer window.old asked self.old }
        ensures sees { Observes window.old window.new }
        ensures fit { IsFit result }
        ensures answers { Answers asked window.old self.old window.new self.new result }
    {
        match asked.ask {
            CopyAsk::Load(at) => Answer::Call(CallAnswer::Word(self.load(at, window))),
            CopyAsk::Exchange(at, old, new) => {
                let answer = self.exchange(at, asked.kind, (old, new), window);
                if let At::Next(_) = at {
                    *making = None;
                }
                answer
            }
            CopyAsk::LoadHint(number, place) => {
                Answer::Call(CallAnswer::Word(load_hint(number, place, window)))
            }
            CopyAsk::WriteHint(number, place, hint) => {
                write_hint(number, place, hint, window);
                Answer::Call(CallAnswer::Ok)
            }
            CopyAsk::SizeOf(number) => {
                let (len, limit) = size(number, window);
                Answer::Call(CallAnswer::Size { len, limit })
            }
            CopyAsk::HashOf(_) => Answer::Hash(self.carry(window)),
            CopyAsk::SamePair(_, _) => Answer::Call(CallAnswer::Yes(self.same_pair(window))),
            CopyAsk::Count => Answer::Count(self.sum(means.shard.count())),
            CopyAsk::MakeTable { len, limit, chunks } => {
                let size = (len, limit);
                match self.make_next(means, asked.follows, size, chunks, making, window) {
                    Ok(number) => Answer::Call(CallAnswer::Made(number)),
                    Err(refused) => Answer::Call(CallAnswer::Refused(refused)),
                }
            }
        }
    }

    /// Keeps the pair that was loaded, if one was.
    #[inline(always)]
    pub(crate) fn remember(&mut self, pair: Option<Stored<K, V>>)
        ensures { self.new ≡ record self.old { last = or_last pair self.old.last } }
    {
        if pair.is_some() {
            self.last = pair;
        }
    }

    /// Loads the word of a place, and keeps the pair that it names.
    pub(crate) fn load<'a>(&mut self, at: At, window: &mut Window<'a, K, V, S>) -> u64
        requires reach { CanReach window.old at }
        ensures sees { Observes window.old window.new }
        ensures as_loaded { Loads at result window.old self.old window.new self.new }
        ensures rest { self.new ≡ record self.old { last = self.new.last } }
    {
        match at {
            At::Root => window.root().0,
            At::Next(number) => {
                let table = window.table(number);
                window.next(table, number).0
            }
            At::Aborted(number) => {
                let table = window.table(number);
                window.aborted(table, number)
            }
            At::Done(number, chunk) => {
                let table = window.table(number);
                window.done(table, number, chunk)
            }
            At::Slot(number, place) => {
                let table = window.table(number);
                let (word, pair) = window.slot(table, number, place);
                self.remember(pair);
                word
            }
            At::Made => unreachable!(),
        }
    }

    /// Loads the word of a table's slot, and keeps the pair that it names.
    #[inline(always)]
    pub(crate) fn load_slot<'a>(
        &mut self,
        table: &Table<K, V, S>,
        number: u64,
        place: usize,
        window: &mut Window<'a, K, V, S>,
    ) -> u64
        requires table { IsTable window.old number table.now }
        requires place { place < length table.now.slots }
        ensures sees { Observes window.old window.new }
        ensures as_loaded { Loads (Slot number place) result window.old self.old window.new
            self.new }
        ensures rest { self.new ≡ record self.old { last = self.new.last } }
    {
        let (word, pair) = window.slot(table, number, place);
        self.remember(pair);
        word
    }

    /// Tries to link the new table after another one; returns the number found.
    fn link<'a>(&mut self, number: u64, window: &mut Window<'a, K, V, S>) -> u64
        requires can { (new : ℕ) × CanJoin window.old number new self.old }
        ensures sees { Observes window.old window.new }
        ensures joins { (new : ℕ) → CanJoin window.old number new self.old → Joins number new
            window.old self.old window.new result }
        ensures rest { self.new ≡ record self.old { fresh = self.new.fresh } }
    {
        let Some((table, mut seal)) = self.fresh.take() else {
            unreachable!()
        };
        let after = window.table(number);
        window.link(after, number, &table, &mut seal)
    }

    /// Tries an exchange.
    pub(crate) fn exchange<'a>(
        &mut self,
        at: At,
        kind: Option<StepKind>,
        words: (u64, u64),
        window: &mut Window<'a, K, V, S>,
    ) -> Answer
        requires can { CanExchange window.old at kind words self.old }
        ensures sees { Observes window.old window.new }
        ensures fit { IsFit result }
        ensures answers { Exchanges at kind words window.old self.old window.new self.new result }
    {
        match at {
            At::Root => tried(window.copy_root(kind, &self.kept, words), words.0),
            At::Next(number) => tried(self.link(number, window), words.0),
            At::Aborted(number) => {
                let table = window.table(number);
                let found = window.copy_aborted(table, number, kind, &self.kept, words);
                tried(found, words.0)
            }
            At::Done(number, chunk) => {
                let table = window.table(number);
                let found = window.copy_done(table, number, chunk, kind, &self.kept, words);
                tried(found, words.0)
            }
            At::Slot(number, place) => {
                let table = window.table(number);
                let found = self.exchange_slot(table, number, place, kind, words, window);
                tried(found, words.0)
            }
            At::Made => unreachable!(),
        }
    }

    /// Tries to exchange the word of a table's slot; returns the word found, and the pair that it
    /// names.
    #[inline(always)]
    fn try_slot<'a>(
        &self,
        table: &Table<K, V, S>,
        number: u64,
        place: usize,
        kind: Option<StepKind>,
        words: (u64, u64),
        window: &mut Window<'a, K, V, S>,
    ) -> (u64, Option<Stored<K, V>>)
        requires table { IsTable window.old number table.now }
        requires place { place < length table.now.slots }
        requires can { CanTryFor window.old (Slot number place) kind words self.now }
        ensures sees { Observes window.old window.new }
        ensures tried { TriesFor (Slot number place) kind words window.old self.now window.new
            result }
    {
        window.copy_slot(table, number, place, kind, &self.kept, words)
    }

    /// Tries to exchange the word of a table's slot; returns the word found. The pair kept
    /// afterwards is the slot's if it is marked now, and the one found if the exchange failed.
    #[inline(always)]
    pub(crate) fn exchange_slot<'a>(
        &mut self,
        table: &Table<K, V, S>,
        number: u64,
        place: usize,
        kind: Option<StepKind>,
        words: (u64, u64),
        window: &mut Window<'a, K, V, S>,
    ) -> u64
        requires table { IsTable window.old number table.now }
        requires place { place < length table.now.slots }
        requires can { CanTryFor window.old (Slot number place) kind words self.old }
        ensures sees { Observes window.old window.new }
        ensures tried { HasTried (Slot number place) kind words window.old self.old window.new
            self.new result }
        ensures rest { self.new ≡ record self.old { last = self.new.last } }
    {
        let (found, pair) = self.try_slot(table, number, place, kind, words, window);
        if found != words.0 {
            self.remember(pair);
        } else if let Some(StepKind::Mark) = kind {
            self.last = pair;
        }
        found
    }

    /// Takes the pair kept last as the one to move; returns the hash of its key.
    #[inline(always)]
    pub(crate) fn carry<'a>(&mut self, window: &Window<'a, K, V, S>) -> u64
        requires some { (p : _) × (self.old.last ≡ Some p) }
        requires placed { IsIn window.now (pair_named self.old.last) }
        ensures carries { Carries window.now self.old self.new result }
        ensures rest { self.new ≡ record self.old { kept = self.new.kept } }
    {
        let Some(last) = &self.last else {
            unreachable!()
        };
        let book = window.book;
        let hash = hash(&book.parts.hasher, book.key(book.pair(last)));
        let kept = last.again();
        self.kept = Some(kept);
        hash
    }

    /// Returns whether the pair that moves and the one kept last have equal keys.
    fn same_pair<'a>(&self, window: &Window<'a, K, V, S>) -> bool
        requires kept { (p : _) × (self.now.kept ≡ Some p) }
        requires last { (q : _) × (self.now.last ≡ Some q) }
        requires placed { IsIn window.now (pair_named self.now.kept)
            × IsIn window.now (pair_named self.now.last) }
        ensures { (p q : _) → self.now.kept ≡ Some p → self.now.last ≡ Some q
            → result ≡ K.eq p.value.key.value q.value.key.value }
    {
        let (Some(kept), Some(last)) = (&self.kept, &self.last) else {
            unreachable!()
        };
        let book = window.book;
        *book.key(book.pair(kept)) == *book.key(book.pair(last))
    }

    /// Returns how many pairs the map counts.
    fn sum(&mut self, count: &Count) -> usize
        ensures given { self.new.given.done ≡ Sum result ∷ [] }
        ensures rest { self.new ≡ record self.old { given = self.new.given } }
    {
        let (sum, given) = count.given_sum();
        self.given = given;
        sum
    }

    /// Makes a table that is to follow another, with this many words for chunks, once it is this
    /// thread's turn. Keeps it with its seal until it is tried to be linked; returns its number.
    fn make_next<'a, R: Wait>(
        &mut self,
        means: &Means<'_, '_, R>,
        follows: u64,
        size: (usize, usize),
        chunks: usize,
        making: &mut Option<MutexGuard<'a, ()>>,
        window: &mut Window<'a, K, V, S>,
    ) -> Result<u64, Refused>
        requires come { follows ≢ 0 → HasCome window.old follows }
        requires size { IsSize size.0 size.1 }
        ensures sees { Observes window.old window.new }
        ensures lawful { IsLawful window.new }
        ensures made { IfOk result (λ number. HasMade number follows chunks window.new
            self.new) }
        ensures refused { IfErr result (λ refused. ((refused ≡ Refused.Memory)
            ⊎ ((refused ≡ Refused.Capacity) × IsFull self.new.given.done))
            × (self.new.fresh ≡ self.old.fresh)) }
        ensures rest { self.new ≡ record self.old {
          fresh = self.new.fresh;
          given = self.new.given;
        } }
    {
        let (size, room) = turn(means.rt, follows, size, making, window);
        let made = window.make_table_after(
            means.rt,
            means.alloc,
            follows,
            size,
            chunks,
            room,
            &mut self.given,
        );
        window.learn();
        let (table, seal) = made?;
        let number = table.index() as u64 + 1;
        self.fresh = Some((table, seal));
        Ok(number)
    }
}

/// Loads the hint of a table's slot.
#[inline(always)]
pub(crate) fn load_hint_at<'a, K: Hash + Eq, V, S: BuildHasher>(
    table: &Table<K, V, S>,
    number: u64,
    place: usize,
    window: &mut Window<'a, K, V, S>,
) -> u64
    requires table { IsTable window.old number table.now }
    requires place { place < length table.now.slots }
    ensures sees { Observes window.old window.new }
    ensures hint { IsHint window.old window.new number place result }
{
    window.hint(table, number, place)
}

/// Loads the hint of a slot of a table that has come.
fn load_hint<'a, K: Hash + Eq, V, S: BuildHasher>(
    number: u64,
    place: usize,
    window: &mut Window<'a, K, V, S>,
) -> u64
    requires reach { CanReach window.old (Slot number place) }
    ensures sees { Observes window.old window.new }
    ensures hint { IsHint window.old window.new number place result }
{
    let table = window.table(number);
    window.hint(table, number, place)
}

/// Writes the hint of a table's slot, if it has none.
#[inline(always)]
pub(crate) fn write_hint_at<'a, K: Hash + Eq, V, S: BuildHasher>(
    table: &Table<K, V, S>,
    number: u64,
    place: usize,
    hint: u8,
    window: &mut Window<'a, K, V, S>,
)
    requires table { IsTable window.old number table.now }
    requires place { place < length table.now.slots }
    requires hint { MayHint window.old number place hint }
    ensures sees { Observes window.old window.new }
    ensures lawful { IsLawful window.new }
{
    window.learn();
    window.write_hint(table, number, place, hint);
}

/// Writes the hint of a slot of a table that has come, if it has none.
fn write_hint<'a, K: Hash + Eq, V, S: BuildHasher>(
    number: u64,
    place: usize,
    hint: u8,
    window: &mut Window<'a, K, V, S>,
)
    requires reach { CanReach window.old (Slot number place) }
    requires hint { MayHint window.old number place hint }
    ensures sees { Observes window.old window.new }
    ensures lawful { IsLawful window.new }
{
    let table = window.table(number);
    window.learn();
    window.write_hint(table, number, place, hint);
}

/// Returns the size of a table: its number of slots, and how many places a search looks at after
/// the first.
#[inline(always)]
pub(crate) fn size_at<'a, K: Hash + Eq, V, S: BuildHasher>(
    table: &Table<K, V, S>,
    number: u64,
    window: &mut Window<'a, K, V, S>,
) -> (usize, usize)
    requires table { IsTable window.old number table.now }
    ensures sees { Observes window.old window.new }
    ensures size { IsSizeOf number window.old window.new result }
    ensures fit { IsSize result.0 result.1 }
{
    let size = table.size();
    window.learn();
    size
}

/// Returns the size of a table that has come: its number of slots, and how many places a search
/// looks at after the first.
pub(crate) fn size<'a, K: Hash + Eq, V, S: BuildHasher>(
    number: u64,
    window: &mut Window<'a, K, V, S>,
) -> (usize, usize)
    requires come { HasCome window.old number }
    ensures sees { Observes window.old window.new }
    ensures size { IsSizeOf number window.old window.new result }
    ensures fit { IsSize result.0 result.1 }
{
    let size = window.table(number).size();
    window.learn();
    size
}

/// Waits for the turn to make the table after this one. Returns how large a table to make, and the
/// slots that were written ahead of it. If another thread was first, that is a small table, since
/// it will not be linked. Nobody waits to make a first table, which follows none.
///
/// A thread has one turn at most, as it gives back its turn before it waits. It waits for nothing
/// else until it has tried to link the table, so two threads never wait for each other.
fn turn<'a, K: Hash + Eq, V, S: BuildHasher, R: Wait>(
    rt: &R,
    follows: u64,
    size: (usize, usize),
    making: &mut Option<MutexGuard<'a, ()>>,
    window: &mut Window<'a, K, V, S>,
) -> ((usize, usize), Option<FreshSlots<K, V, S>>)
    requires come { follows ≢ 0 → HasCome window.old follows }
    requires size { IsSize size.0 size.1 }
    ensures sees { Observes window.old window.new }
    ensures size { IsSize result.0.0 result.0.1 }
{
    if follows == 0 {
        return (size, None);
    }
    *making = None;
    let table = window.table(follows);
    *making = Some(table.lock_next(rt));
    let (next, _) = window.next(table, follows);
    if next == 0 {
        return (size, table.take_room());
    }
    ((8, 15), None)
}
