//! Any number of callers, and any schedule of their steps.
//!
//! A call is on one key, or it resizes the map or scans a table. A resize makes room ahead or
//! finishes the copy, and leaves every pair as it is. A scan clears the map, retains what its
//! closure accepts, or iterates over the pairs. The steps of all calls mix in any order.
//!
//! The map grows. A call that finds no place for its pair makes the next table, and continues in
//! it. Calls that may change the map copy pairs on their way: each a chunk of the root if the core
//! is `Incremental`, and all of the root if it is `Blocking`. A caller that stops in the middle of
//! a copy stops no other caller.
ghost use Rattle.std.specs.Prelude.{◌≡◌, ℕ, ◌<◌, ◌^◌, length, IfOk, IfErr, OnOk, IsSome};
ghost use Rattle.std.specs.Prelude.{Some, None, is_some, MatchOption, reverse, ◌+◌, ◌*◌, ◌≤◌, []};
ghost use Rattle.std.specs.Int.{IsPowerOfTwo};
ghost use Rattle.papaya_words_law.specs.Content.{AreApart};
ghost use Rattle.papaya_words.specs.Mode.{IsChunked};
ghost use Rattle.papaya_call.specs.Made.{IsLimit};
ghost use Rattle.papaya_call.specs.ChainMachine.{IsValid};
ghost use Rattle.papaya_words.specs.Table.{TableWords};
ghost use Rattle.papaya_call.specs.Search.{IsSize};
ghost use Rattle.papaya_call.specs.Resizer.{IsValidResizer, reply_of as reply_of_resizer};
ghost use Rattle.papaya_core_store.specs.Tables.{table_of};
ghost use Rattle.papaya_core_timeline.specs.Callers.{scanner_in, scanning, working};
ghost use Rattle.papaya_core_timeline.specs.Maps.{key_of};
ghost use Rattle.papaya_core.specs.Goes.{CallGoes, IsValidWork, ResizerGoes, WorkGoes};
ghost use Rattle.papaya_core.specs.Limits.{IsSpent, IsWithin, NeedsNumber};
ghost use Rattle.papaya_core_timeline.specs.Outcomes.{AnswersWalk, as_reply};
ghost use Rattle.papaya_core_store.specs.Store.{KeepsPairs, pair_of};
ghost use Rattle.papaya_words_keys.specs.Hashes.{hash_of};
ghost use Rattle.papaya_core_timeline.specs.Core.{work_of};
ghost use Rattle.papaya_core_timeline.specs.Content.{content};
ghost use Rattle.papaya_core_timeline.specs.Counted.{IsCounted};
ghost use Rattle.papaya_core_timeline.specs.Begins.{Begins, begun, begun_work, handed, scanner_begun};
ghost use Rattle.papaya_core_timeline.specs.Advances.{AddsToShard, event_of, reply_in};
ghost use Rattle.papaya_core_timeline.specs.Headline.{HasTimeline};
ghost use Rattle.papaya_core_timeline.specs.Intends.{IntendsHanded, KeepsIntents};
ghost use Rattle.papaya_core_timeline.specs.Moves.{MovesMap};
ghost use Rattle.papaya_core_timeline.specs.New.{IsNew, IsNewLimited};
ghost use Rattle.papaya_words_keys.specs.Sizes.{IsSizeRefusal};
ghost use Rattle.papaya_words_keys.specs.Sizes.{IsAllowed};
ghost use Rattle.papaya_core_timeline.specs.Runs.{Steps, TurnsRun, StopsEarly, TurnRuns, IsCutShort, BeginRuns, StepRuns, StepsRun};

use crate::callers::Callers;
use crate::entries::{event_of, push_entry, push_step, reply_of, reserve_entries};
use crate::scans::advance_scan;
use papaya_call::answers::Answers;
use papaya_call::ask::Ask as CallAsk;
use papaya_call::call::{Call, Reply, Task};
use papaya_call::chain::ask::Ask;
use papaya_call::chain::machine::Machine;
use papaya_call::chain::resizer::{Resize, Resizer};
use papaya_call::chain::scanner::{Scan, Scanner};
use papaya_core_store::pairs::{Part, Running};
use papaya_core_store::scans::{Numbers, Scanning};
use papaya_core_store::store::{Mode, Store};
use papaya_core_timeline::outcome::Outcome;
use papaya_core_timeline::seat::Work;
use papaya_core_timeline::trace::{Entry, Event, Trace, Turn};
use papaya_words::refused::Refused;
use papaya_words::resize_mode::ResizeMode;
use std::alloc::Global;
use std::hash::{BuildHasher, Hash};
use std::marker::Model;

/// A map on plain words, whose callers' steps come in any order that its user chooses.
///
/// `A` gives the results of the closures of calls: [`papaya_call::answers::Listed`], or a type of
/// the user's own.
///
/// Contracts see the words, the arena of pairs, and the calls under way.
pub struct Core<K: Hash + Eq, V, S: BuildHasher, A> {
    alloc: Global,
    store: Store<K, V, S>,
    callers: Callers<K, V, A>,
    mode: Mode,
    initial: usize,
}

impl<K: Hash + Eq, V, S: BuildHasher, A> Model for Core<K, V, S, A> {
    ghost use Rattle.std.specs.Int.{IsPowerOfTwo};
    ghost use Rattle.papaya_core_timeline.specs.Core.{CoreState};
    ghost use Rattle.papaya_core_timeline.specs.Counted.{IsCounted};
    ghost use Rattle.papaya_core_timeline.specs.Kept.{IsLawfulCore};
    ghost use Rattle.papaya_words_keys.specs.Hashes.{hash_of};

    ghost Value = { CoreState K V S A };

    ghost view = { λ c. record {
      store = c.store;
      callers = c.callers;
      mode = c.mode;
      initial = c.initial;
    } };

    ghost invariant = { λ c. IsLawfulCore K.eq
        (hash_of K.hash_input S.build_hasher S.Hasher.write S.Hasher.finish c.store.hasher) c.store
        c.callers c.mode × IsCounted K.eq c.store c.callers × IsPowerOfTwo c.initial };
}

impl<K: Hash + Eq + Drop, V: Drop, S: BuildHasher + Drop, A: Drop> Drop for Core<K, V, S, A> {
    fn drop(self) {
        let Self {
            alloc: _,
            store: _,
            callers: _,
            mode: _,
            initial: _,
        } = self;
    }
}

/// Returns a value that was passed in as the call's own.
fn handed_in<V>(value: Option<V>) -> Option<Part<V>>
    ensures { result ≡ handed value }
{
    match value {
        Some(value) => Some(Part::Own(value)),
        None => None,
    }
}

/// Begins a call on one key, with its task, the key, and its other arguments.
fn call_on<K: Hash + Eq, V: Drop, S: BuildHasher, A>(
    store: &Store<K, V, S>,
    mode: Mode,
    initial: usize,
    number: u64,
    task: Task,
    key: K,
    handed: (Option<V>, Option<A>),
) -> Work<K, V, A>
    requires chunked { IsChunked mode.resize }
    requires initial { IsPowerOfTwo initial }
    ensures begun { result ≡ Work.Call (begun (hash_of K.hash_input S.build_hasher S.Hasher.write
        S.Hasher.finish store.now.hasher) mode initial number task key handed.0 handed.1) }
    ensures fits { hash_of K.hash_input S.build_hasher S.Hasher.write S.Hasher.finish
        store.now.hasher key < 2 ^ 64 }
{
    let (value, answers) = handed;
    Work::Call(Running {
        machine: Machine::new(
            task,
            store.hash(&key),
            mode.resize,
            initial,
            number,
            mode.limit,
        ),
        key: Part::Own(key),
        value: handed_in(value),
        answers,
    })
}

/// Begins a call that scans a table.
fn scan_on<K, V, A>(
    alloc: Global,
    mode: ResizeMode,
    initial: usize,
    number: u64,
    scan: Scan,
    answers: Option<A>,
) -> Work<K, V, A>
    requires chunked { IsChunked mode }
    requires initial { IsPowerOfTwo initial }
    ensures { result ≡ Work.Scan (scanner_begun mode initial number scan answers) }
{
    Work::Scan(Scanning {
        scanner: Scanner::new(scan, mode, initial, number),
        answers,
        given: Numbers::new(alloc),
    })
}

/// Begins a call. Calls with different numbers start to copy a table at different chunks.
fn begin_call<K: Hash + Eq, V: Drop, S: BuildHasher, A>(
    alloc: Global,
    store: &Store<K, V, S>,
    mode: Mode,
    initial: usize,
    number: u64,
    call: Call<K, V, A>,
) -> Work<K, V, A>
    requires chunked { IsChunked mode.resize }
    requires initial { IsPowerOfTwo initial }
    ensures begun { result ≡ begun_work (hash_of K.hash_input S.build_hasher S.Hasher.write
        S.Hasher.finish store.now.hasher) mode initial number call }
    ensures fits { (k : K) → key_of call ≡ Some k → hash_of K.hash_input S.build_hasher
        S.Hasher.write S.Hasher.finish store.now.hasher k < 2 ^ 64 }
{
    let (task, key, handed) = match call {
        Call::Get(key) => (Task::Get, key, (None, None)),
        Call::Insert(key, value) => (Task::Insert { replace: true }, key, (Some(value), None)),
        Call::TryInsert(key, value) => (Task::Insert { replace: false }, key, (Some(value), None)),
        Call::RemoveIf(key, answers) => (Task::RemoveIf, key, (None, Some(answers))),
        Call::Compute(key, answers) => (Task::Compute, key, (None, Some(answers))),
        Call::Reserve(more) => {
            return Work::Resize(Resizer::new(Resize::Reserve(more), mode.resize, initial, number));
        }
        Call::CopyAll => {
            return Work::Resize(Resizer::new(Resize::CopyAll, mode.resize, initial, number));
        }
        Call::Clear => return scan_on(alloc, mode.resize, initial, number, Scan::Clear, None),
        Call::Retain(answers) => {
            let answers = Some(answers);
            return scan_on(alloc, mode.resize, initial, number, Scan::Retain, answers);
        }
        Call::Walk => return scan_on(alloc, mode.resize, initial, number, Scan::Walk, None),
    };
    call_on(store, mode, initial, number, task, key, handed)
}

/// Returns the reply of a machine that asks nothing more.
fn reply_in(ask: Ask) -> Option<Reply>
    ensures { result ≡ reply_in ask }
{
    match ask {
        Ask::Call(CallAsk::Done(reply)) => Some(reply),
        _ => None,
    }
}

/// Performs one ask of a call on one key. Returns the event, the outcome if the call ended, and the
/// call if it continues.
fn advance_call<K: Hash + Eq + Drop, V: Drop, S: BuildHasher, A: Answers<K, V> + Drop>(
    alloc: Global,
    store: &mut Store<K, V, S>,
    caller: usize,
    mut running: Running<K, V, A>,
    refuse: bool,
) -> (Event, Option<Outcome>, Option<Work<K, V, A>>)
    requires sizes { (n : ℕ) (t : TableWords) → table_of store.old.words.tables n ≡ Some t
        → IsSize (length t.slots) t.limit }
    requires valid { IsValid running.machine }
    ensures goes { CallGoes K.eq (record { op = A.op_gives; yes = A.yes_gives })
        (hash_of K.hash_input S.build_hasher S.Hasher.write S.Hasher.finish) refuse store.old caller
        store.new result.0 (as_reply result.1) result.2 running }
    ensures walked { AnswersWalk {A = A} None result.1 }
{
    let kind = running.machine.kind();
    let ask = running.machine.ask();
    let answer = store.perform_ask(alloc, caller, &mut running, ask, refuse);
    running.machine.answer(answer);
    let event = event_of(kind, ask, answer);
    match reply_in(running.machine.ask()) {
        Some(reply) => (event, Some(Outcome::Replied(reply)), None),
        None => (event, None, Some(Work::Call(running))),
    }
}

/// Performs one ask of a call that resizes the map. Returns the event, the outcome if the call
/// ended, and the call if it continues.
fn advance_resizer<K: Hash + Eq + Drop, V: Drop, S: BuildHasher, A>(
    alloc: Global,
    store: &mut Store<K, V, S>,
    mut resizer: Resizer,
    refuse: bool,
) -> (Event, Option<Outcome>, Option<Work<K, V, A>>)
    requires sizes { (n : ℕ) (t : TableWords) → table_of store.old.words.tables n ≡ Some t
        → IsSize (length t.slots) t.limit }
    requires valid { IsValidResizer resizer }
    requires going { reply_of_resizer resizer ≡ None }
    ensures goes { ResizerGoes K.eq
        (hash_of K.hash_input S.build_hasher S.Hasher.write S.Hasher.finish) refuse store.old
        store.new result.0 (as_reply result.1) result.2 resizer }
    ensures walked { AnswersWalk {A = A} None result.1 }
{
    let kind = resizer.kind();
    let ask = match resizer.ask() {
        Some(ask) => ask,
        None => unreachable!(),
    };
    let answer = store.perform_copy(alloc, ask, refuse);
    resizer.answer(answer);
    let event = event_of(kind, Ask::Copy(ask), answer);
    match resizer.reply() {
        Some(reply) => (event, Some(Outcome::Replied(reply)), None),
        None => (event, None, Some(Work::Resize(resizer))),
    }
}

/// Performs one ask of a call. Returns the event, the outcome if the call ended, and the call if it
/// continues.
fn advance_work<K: Hash + Eq + Drop, V: Drop, S: BuildHasher, A: Answers<K, V> + Drop>(
    alloc: Global,
    store: &mut Store<K, V, S>,
    caller: usize,
    work: Work<K, V, A>,
    refuse: bool,
) -> (Event, Option<Outcome>, Option<Work<K, V, A>>)
    requires sizes { (n : ℕ) (t : TableWords) → table_of store.old.words.tables n ≡ Some t
        → IsSize (length t.slots) t.limit }
    requires valid { IsValidWork work }
    ensures goes { WorkGoes K.eq (record { op = A.op_gives; yes = A.yes_gives })
        (hash_of K.hash_input S.build_hasher S.Hasher.write S.Hasher.finish) refuse store.old caller
        store.new result.0 (as_reply result.1) result.2 work }
    ensures walked { AnswersWalk (scanner_in (Some work)) result.1 }
{
    match work {
        Work::Call(running) => advance_call(alloc, store, caller, running, refuse),
        Work::Resize(resizer) => advance_resizer(alloc, store, resizer, refuse),
        Work::Scan(scanning) => advance_scan(alloc, store, caller, scanning, refuse),
    }
}

impl<K: Hash + Eq, V, S: BuildHasher, A> Core<K, V, S, A> {
    /// Returns whether this caller is in a call.
    ///
    /// The contract also states two facts of any core, whatever calls are under way. Its count,
    /// with what the calls have yet to add, is the number of pairs. And no more numbers were taken
    /// for pairs than its limit allows, if it has one.
    pub fn running(&self, caller: usize) -> bool
        ensures running { result ≡ is_some (work_of self.now caller) }
        ensures apart { AreApart K.eq (λ p. p.key) (content K.eq self.now.store) }
        ensures counted { IsCounted K.eq self.now.store self.now.callers }
        ensures limit { IsWithin self.now }
    {
        self.callers.is_running(caller)
    }

    /// Returns the key and the value of a pair, by its number.
    pub fn pair(&self, n: u64) -> Option<(&K, &V)>
        ensures { MatchOption result (pair_of self.now.store n ≡ None)
            (λ p. pair_of self.now.store n ≡ Some (record
            { number = n; key = p.0.now; value = p.1.now })) }
    {
        self.store.pair(n)
    }
}

impl<K: Hash + Eq + Drop, V: Drop, S: BuildHasher + Drop, A> Core<K, V, S, A> {
    /// Creates a core with no pairs, no limit on them, and no callers. Its first table has room for
    /// `capacity` pairs; with 0 the first change makes one.
    ///
    /// # Errors
    ///
    /// Fails with `Refused::ZeroChunk` for chunks of no slots. Fails with `Refused::Capacity` for
    /// more shards than [`papaya_words::limits::MAX_SHARDS`], or for a table longer than
    /// [`papaya_words::limits::MAX_TABLE_LEN`] slots. Fails with `Refused::Memory` if memory runs
    /// out.
    pub fn new(
        alloc: Global,
        mode: ResizeMode,
        capacity: usize,
        shards: usize,
        hasher: S,
    ) -> Result<Core<K, V, S, A>, Refused>
        ensures ok { IfOk result (λ core. IsAllowed mode capacity shards
            × IsNew mode capacity shards hasher core) }
        ensures err { IfErr result (λ e. IsSizeRefusal mode capacity shards e) }
        ensures content { IfOk result (λ core. content K.eq core.store ≡ []) }
        ensures counted { IfOk result (λ core. IsCounted K.eq core.store core.callers) }
    {
        Core::of(alloc, mode, capacity, shards, hasher, None)
    }

    /// Creates a core as [`Core::new`] does, which stores at most `n` pairs. A call that needs one
    /// more fails with `Refused::Limit`. A call that took a number for its pair, and then ran out
    /// of memory, has used the number up.
    ///
    /// # Errors
    ///
    /// Fails with `Refused::ZeroChunk`, `Refused::Capacity` or `Refused::Memory`, as [`Core::new`]
    /// does.
    pub fn with_pair_limit(
        alloc: Global,
        mode: ResizeMode,
        capacity: usize,
        shards: usize,
        hasher: S,
        n: u64,
    ) -> Result<Core<K, V, S, A>, Refused>
        ensures ok { IfOk result (λ core. IsAllowed mode capacity shards
            × IsNewLimited mode capacity shards hasher (Some n) core) }
        ensures err { IfErr result (λ e. IsSizeRefusal mode capacity shards e) }
        ensures content { IfOk result (λ core. content K.eq core.store ≡ []) }
        ensures counted { IfOk result (λ core. IsCounted K.eq core.store core.callers) }
    {
        Core::of(alloc, mode, capacity, shards, hasher, Some(n))
    }

    /// Creates a core with no pairs and no callers, and with this limit, if there is one.
    fn of(
        alloc: Global,
        mode: ResizeMode,
        capacity: usize,
        shards: usize,
        hasher: S,
        limit: Option<u64>,
    ) -> Result<Core<K, V, S, A>, Refused>
        requires { IsLimit limit }
        ensures ok { IfOk result (λ core. IsAllowed mode capacity shards
            × IsNewLimited mode capacity shards hasher limit core) }
        ensures err { IfErr result (λ e. IsSizeRefusal mode capacity shards e) }
        ensures content { IfOk result (λ core. content K.eq core.store ≡ []) }
        ensures counted { IfOk result (λ core. IsCounted K.eq core.store core.callers) }
    {
        let (store, initial) = Store::with_parts(alloc, mode, capacity, shards, hasher)?;
        let resize = mode;
        Ok(Core {
            alloc,
            store,
            callers: Callers::new(alloc),
            mode: Mode { resize, limit },
            initial,
        })
    }
}

impl<K: Hash + Eq + Drop, V: Drop, S: BuildHasher, A: Answers<K, V> + Drop> Core<K, V, S, A> {
    /// Begins a call of a caller that is in none. The caller's number decides at which chunk the
    /// call starts to copy a table.
    ///
    /// # Errors
    ///
    /// Fails with `Refused::Memory` if memory runs out, and then has dropped the call and its
    /// arguments.
    pub fn begin(&mut self, caller: usize, call: Call<K, V, A>) -> Result<(), Refused>
        requires { work_of self.old caller ≡ None }
        ensures ok { OnOk result (Begins (hash_of K.hash_input S.build_hasher S.Hasher.write
            S.Hasher.finish self.old.store.hasher) self.old caller call self.new) }
        ensures number { OnOk result ((begins : Begins (hash_of K.hash_input S.build_hasher
            S.Hasher.write S.Hasher.finish self.old.store.hasher) self.old caller call self.new)
            × (begins.number ≡ caller)) }
        ensures err { IfErr result (λ e. (e ≡ Refused.Memory) × (self.new ≡ self.old)) }
        ensures handed { OnOk result ((work : _) → work_of self.new caller ≡ Some work
            → IntendsHanded self.new.store call work) }
        ensures counted { IsCounted K.eq self.new.store self.new.callers }
    {
        self.callers.seat(caller)?;
        let number = caller as u64;
        let work = begin_call(
            self.alloc,
            &self.store,
            self.mode,
            self.initial,
            number,
            call,
        );
        self.callers.put(caller, Some(work));
        Ok(())
    }

    /// Makes one step of a caller. Returns the event, and the outcome if its call ended.
    fn advance(&mut self, caller: usize, refuse: bool) -> (Event, Option<Outcome>)
        requires { IsSome (work_of self.old caller) }
        ensures steps { Steps K.eq (record { op = A.op_gives; yes = A.yes_gives })
            (hash_of K.hash_input S.build_hasher S.Hasher.write S.Hasher.finish) refuse self.old
            caller self.new result.0 (as_reply result.1) }
        ensures walked { AnswersWalk (scanning self.old.callers caller) result.1 }
        ensures moves { MovesMap K.eq self.old caller self.new result.0 }
        ensures intents { KeepsIntents (record { op = A.op_gives; yes = A.yes_gives }) self.old
            caller self.new result.0 }
        ensures keeps { KeepsPairs self.old.store self.new.store }
        ensures shard { AddsToShard self.old caller self.new }
        ensures counted { IsCounted K.eq self.new.store self.new.callers }
        ensures limit { as_reply result.1 ≡ Some (Reply.Refused Refused.Limit) → IsSpent self.old }
        ensures spent { NeedsNumber self.old caller → IsSpent self.old
            → as_reply result.1 ≡ Some (Reply.Refused Refused.Limit) }
    {
        let work = self.callers.take(caller);
        let (event, outcome, rest) = advance_work(
            self.alloc,
            &mut self.store,
            caller,
            work,
            refuse,
        );
        self.callers.put(caller, rest);
        (event, outcome)
    }

    /// Makes one step of a caller that is in a call, and returns the outcome if the call ended. A
    /// finished iteration returns the numbers of the pairs that it passed to its caller.
    ///
    /// A step changes the map only as the call under way intends: with the value that was passed
    /// in, or as its closure returned when called with exactly the pair taken out. The contracts of
    /// `begin` and of each step state where intents come from.
    ///
    /// With `refuse_memory` a step that would store a key, a value or a pair, or make a table, ends
    /// with `Refused::Memory`; any other step is an ordinary one.
    ///
    /// A call ends with `Refused::Limit` if and only if it needs one more number for a pair and the
    /// limit is reached.
    pub fn step(&mut self, caller: usize, refuse_memory: bool) -> Option<Outcome>
        requires { IsSome (work_of self.old caller) }
        ensures steps { (event : _) × Steps K.eq (record { op = A.op_gives; yes = A.yes_gives })
            (hash_of K.hash_input S.build_hasher S.Hasher.write S.Hasher.finish) refuse_memory
            self.old caller self.new event (as_reply result)
            × MovesMap K.eq self.old caller self.new event
            × KeepsIntents (record { op = A.op_gives; yes = A.yes_gives }) self.old caller
            self.new event }
        ensures walked { AnswersWalk (scanning self.old.callers caller) result }
        ensures keeps { KeepsPairs self.old.store self.new.store }
        ensures shard { AddsToShard self.old caller self.new }
        ensures counted { IsCounted K.eq self.new.store self.new.callers }
        ensures limit { as_reply result ≡ Some (Reply.Refused Refused.Limit) → IsSpent self.old }
        ensures spent { NeedsNumber self.old caller → IsSpent self.old
            → as_reply result ≡ Some (Reply.Refused Refused.Limit) }
    {
        let (_, outcome) = self.advance(caller, refuse_memory);
        outcome
    }

    /// Runs the turns of a schedule, one after the other. A `Begin` of a caller that is in a call
    /// is skipped, and so is a `Step` or `Finish` of one that is in none.
    ///
    /// # Errors
    ///
    /// Fails with `Refused::Memory` if memory for a `Begin` or for the trace runs out. It has then
    /// made the turns before, and perhaps some steps of a `Finish`.
    pub fn run(&mut self, schedule: Vec<Turn<K, V, A>>) -> Result<Trace, Refused>
        ensures ok { IfOk result (λ trace. TurnsRun K.eq
            (record { op = A.op_gives; yes = A.yes_gives })
            (hash_of K.hash_input S.build_hasher S.Hasher.write S.Hasher.finish) schedule.items
            (length schedule.items) self.old self.new (reverse trace.entries.items)) }
        ensures timeline { IfOk result (λ trace. HasTimeline K.eq
            (record { op = A.op_gives; yes = A.yes_gives }) schedule.items self.old
            (reverse trace.entries.items) self.new) }
        ensures err { IfErr result (λ e. (e ≡ Refused.Memory)
            × StopsEarly K.eq (record { op = A.op_gives; yes = A.yes_gives })
            (hash_of K.hash_input S.build_hasher S.Hasher.write S.Hasher.finish) schedule.items
            self.old self.new) }
        ensures keeps { KeepsPairs self.old.store self.new.store }
        ensures counted { IsCounted K.eq self.new.store self.new.callers }
    {
        let mut entries = Vec::new(self.alloc);
        for (turn, what) in schedule.into_iter().enumerate() {
            self.turn_into(&mut entries, turn, what)?;
        }
        Ok(Trace { entries })
    }

    /// Runs one turn of a schedule, and adds its entries.
    fn turn_into(
        &mut self,
        entries: &mut Vec<Entry>,
        turn: usize,
        what: Turn<K, V, A>,
    ) -> Result<(), Refused>
        ensures ok { OnOk result (TurnRuns K.eq (record { op = A.op_gives; yes = A.yes_gives })
            (hash_of K.hash_input S.build_hasher S.Hasher.write S.Hasher.finish) turn what self.old
            (reverse entries.old.items) self.new (reverse entries.new.items)) }
        ensures err { IfErr result (λ e. (e ≡ Refused.Memory)
            × IsCutShort K.eq (record { op = A.op_gives; yes = A.yes_gives })
            (hash_of K.hash_input S.build_hasher S.Hasher.write S.Hasher.finish) turn what self.old
            (reverse entries.old.items) self.new) }
        ensures counted { IsCounted K.eq self.old.store self.old.callers
            → IsCounted K.eq self.new.store self.new.callers }
    {
        match what {
            Turn::Begin(caller, call) => {
                if !self.running(caller) {
                    self.begin_into(entries, turn, caller, call)?;
                }
            }
            Turn::Step(caller, refuse_memory) => {
                if self.running(caller) {
                    self.step_into(entries, turn, caller, refuse_memory)?;
                }
            }
            Turn::Finish(caller, steps) => self.finish_into(entries, turn, caller, steps)?,
        }
        Ok(())
    }

    /// Begins a call, and adds its entry.
    fn begin_into(
        &mut self,
        entries: &mut Vec<Entry>,
        turn: usize,
        caller: usize,
        call: Call<K, V, A>,
    ) -> Result<(), Refused>
        requires { work_of self.old caller ≡ None }
        ensures ok { OnOk result (BeginRuns K.eq (record { op = A.op_gives; yes = A.yes_gives })
            (hash_of K.hash_input S.build_hasher S.Hasher.write S.Hasher.finish) turn caller call
            self.old (reverse entries.old.items) self.new (reverse entries.new.items)) }
        ensures err { IfErr result (λ e. (e ≡ Refused.Memory) × (self.new ≡ self.old)) }
        ensures counted { IsCounted K.eq self.old.store self.old.callers
            → IsCounted K.eq self.new.store self.new.callers }
    {
        reserve_entries(entries, 1)?;
        self.begin(caller, call)?;
        let event = Event::Begun;
        push_entry(
            entries,
            Entry {
                turn,
                caller,
                event,
            },
        );
        Ok(())
    }

    /// Makes one step of a caller, and adds its entries.
    fn step_into(
        &mut self,
        entries: &mut Vec<Entry>,
        turn: usize,
        caller: usize,
        refuse_memory: bool,
    ) -> Result<(), Refused>
        requires { IsSome (work_of self.old caller) }
        ensures ok { OnOk result (StepRuns K.eq (record { op = A.op_gives; yes = A.yes_gives })
            (hash_of K.hash_input S.build_hasher S.Hasher.write S.Hasher.finish) turn caller
            refuse_memory self.old (reverse entries.old.items) self.new
            (reverse entries.new.items)) }
        ensures err { IfErr result (λ e. (e ≡ Refused.Memory) × (self.new ≡ self.old)) }
        ensures counted { IsCounted K.eq self.old.store self.old.callers
            → IsCounted K.eq self.new.store self.new.callers }
    {
        // The room is reserved before the step, so that every step is recorded.
        reserve_entries(entries, 2)?;
        let (event, outcome) = self.advance(caller, refuse_memory);
        push_step(entries, turn, caller, event, reply_of(&outcome));
        Ok(())
    }

    /// Makes up to `steps` steps of a caller, while its call continues, and adds their entries.
    fn finish_into(
        &mut self,
        entries: &mut Vec<Entry>,
        turn: usize,
        caller: usize,
        steps: usize,
    ) -> Result<(), Refused>
        ensures ok { OnOk result (StepsRun K.eq (record { op = A.op_gives; yes = A.yes_gives })
            (hash_of K.hash_input S.build_hasher S.Hasher.write S.Hasher.finish) turn caller steps
            self.old (reverse entries.old.items) self.new (reverse entries.new.items)) }
        ensures err { IfErr result (λ e. (e ≡ Refused.Memory)
            × ((made : _) × (made < steps) × (after : _)
            × StepsRun K.eq (record { op = A.op_gives; yes = A.yes_gives })
            (hash_of K.hash_input S.build_hasher S.Hasher.write S.Hasher.finish) turn caller made
            self.old (reverse entries.old.items) self.new after)) }
        ensures counted { IsCounted K.eq self.old.store self.old.callers
            → IsCounted K.eq self.new.store self.new.callers }
    {
        for _made in 0..steps {
            if !self.running(caller) {
                return Ok(());
            }
            self.step_into(entries, turn, caller, false)?;
        }
        Ok(())
    }
}
