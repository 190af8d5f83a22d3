//! Computes: their machine, whose asks are performed by steps on the book and by a closure.
ghost use Rattle.papaya_map_compute.specs.FastPath.{IsAhead};
ghost use Rattle.papaya_map_book.specs.declared.rule.entry.Named.TheVariants.{Pair as PairNamed};
ghost use Rattle.papaya_map_book.specs.Windows.{Does, IsIn as IsInWindow, IsLawful, IsOpen, Observes, Sees};
ghost use Rattle.papaya_map_book.specs.Books.{IsIn};
ghost use Rattle.papaya_map_book.specs.Logs.{pair_named};
ghost use Rattle.papaya_map_compute.specs.Computes.{CanCompute, CanTake, Computes, HasReplied, HasStepped, RecordsResult, IsAnyCompute, IsBegun, HasAnswered, Replies};
ghost use Rattle.std.specs.Prelude.{◌≡◌, ◌⊎◌, ℕ, ◌<◌, ◌^◌, true, None, Some, Ok, option_map};
ghost use Rattle.std.specs.Int.{IsPowerOfTwo};
ghost use Rattle.papaya_call.specs.Compute.{IsRemembered};
ghost use Rattle.papaya_call.specs.Machine.{IsFitAsk};
ghost use Rattle.papaya_call.specs.ChainMachine.{IsValid, ask_of, kind_of_ask};
ghost use Rattle.papaya_call.specs.declared.chain.ask.Ask.TheVariants.{Call};
ghost use Rattle.papaya_call.specs.declared.chain.machine.Phase.TheVariants.{Calling};
ghost use Rattle.papaya_call.specs.declared.ask.StepKind.TheVariants.{Claim, Replace};
ghost use Rattle.papaya_call.specs.declared.call.Reply.TheVariants.{Inserted, Removed, Replaced};
ghost use Rattle.papaya_call.specs.declared.ask.Ask.TheVariants.{Done, Exchange, MakePair, MakePairOf, ShowPair};
ghost use Rattle.papaya_call.specs.declared.ask.At.TheVariants.{Slot};
ghost use Rattle.papaya_map_compute.specs.Computing.{IsKept, IsToCall, IsWriters, chosen_after, pair_for, value_in};
ghost use Rattle.papaya_map_compute.specs.ComputeAnswers.{changes};
ghost use Rattle.papaya_map_change.specs.Doing.{has_changed, was_made};
ghost use Rattle.papaya_map_change.specs.Writing.{HasKeyAt};
ghost use Rattle.papaya_map_compute.specs.Resuming.{IsResumed, resumed_at};
ghost use Rattle.papaya_map_lookup.specs.History.{key_of};

use papaya_call::answers::Operation;
use papaya_call::ask::{Answer, Ask as CallAsk, At, OpKind, StepKind};
use papaya_call::call::{Reply, Task};
use papaya_call::chain::ask::Ask;
use papaya_call::compute::{Choice, Remembered};
use papaya_call::write::Write;
use papaya_map_book::book::Book;
use papaya_map_book::book::pairs::{KeyPart, ValuePart};
use papaya_map_book::keyed::{Hashed, Keyed};
use papaya_map_book::rule::entry::Stored;
use papaya_map_book::window::Window;
use papaya_map_change::driver::{Driver, Means};
use papaya_map_change::removal::{entry, value_of};
use papaya_map_change::writer::Writer;
use papaya_map_lookup::lookup::{Met, hash};
use papaya_words::refused::Refused;
use papaya_words_keys::results::Compute;
use std::hash::{BuildHasher, Hash};
use std::sync::Wait;

/// A compute under way. It holds the pair that its closure was called with last, and the pair that
/// it would put in if there is none. It also holds the pair chosen to be replaced or removed, the
/// one that is to take its place, with its key, and the closure's final result.
#[derive(Drop)]
pub struct Computing<'a, K: Hash + Eq, V, S: BuildHasher, T> {
    pub writer: Writer<'a, K, V, S>,
    pub shown: Option<Stored<K, V>>,
    pub fill: Option<Stored<K, V>>,
    pub chosen: Option<Stored<K, V>>,
    pub made: Option<Stored<K, V>>,
    pub aborted: Option<T>,
}

/// The next step of a compute.
#[derive(Drop)]
pub enum ComputeStep<K, V> {
    /// Its machine asked for something, and has this answer.
    Answered(Answer),
    /// Its closure is to be called with this pair, or with `None`.
    CallsClosure(Option<Stored<K, V>>),
    /// It has replied.
    Replied,
}

/// Returns the pair that was chosen to be removed or replaced, or the previous one.
fn chosen_after<K, V, T>(
    shown: &Option<Stored<K, V>>,
    operation: &Operation<V, T>,
    before: Option<Stored<K, V>>,
) -> Option<Stored<K, V>>
    ensures { result ≡ chosen_after shown.now operation.now before }
{
    match (shown, operation) {
        (Some(pair), Operation::Remove) => Some(pair.again()),
        (None, Operation::Remove) => before,
        (_, Operation::Insert(_) | Operation::Abort(_)) => before,
    }
}

/// Returns the pair that an exchange of this kind puts in: for a claim the one that fills.
fn pair_for<K, V>(
    kind: Option<StepKind>,
    fill: &Option<Stored<K, V>>,
    made: &Option<Stored<K, V>>,
) -> Option<Stored<K, V>>
    ensures { result ≡ pair_for kind fill.now made.now }
{
    match (kind, fill, made) {
        (Some(StepKind::Claim), Some(pair), _) => Some(pair.again()),
        (Some(StepKind::Claim), None, _) => None,
        (_, _, Some(pair)) => Some(pair.again()),
        (_, _, None) => None,
    }
}

/// Begins the call of a compute at the root, with what it remembers.
fn resume<'a, K: Hash + Eq, V, S: BuildHasher>(
    book: &Book<K, V, S>,
    initial: usize,
    hash: u64,
    remembered: Remembered,
) -> Driver<'a, K, V, S>
    requires initial { IsPowerOfTwo initial }
    requires remembered { IsRemembered remembered }
    ensures machine { result.machine ≡ resumed_at hash book.now.parts.mode initial
        book.now.parts.limit remembered }
    ensures valid { IsValid result.machine }
    ensures table { (result.table ≡ None) × (result.copier.fresh ≡ None) }
    ensures pairs { (result.copier.last ≡ None) × (result.copier.kept ≡ None)
        × (result.taken ≡ None) × (result.put ≡ None) }
{
    let parts = &book.parts;
    let mut call = Driver::new(Task::Compute, hash, parts.mode, initial, parts.limit);
    let mut machine = call.machine;
    machine.call.remembered = remembered;
    call.machine = machine;
    call
}

impl<'a, K: Hash + Eq + Drop, V: Drop, S: BuildHasher, T: Drop> Computing<'a, K, V, S, T> {
    /// Keeps what the closure returned, and passes it on to the machine.
    fn keep(&mut self, operation: Operation<V, T>) -> Answer
        ensures { IsKept operation result self.old self.new }
    {
        match operation {
            Operation::Insert(value) => {
                self.writer.value = Some(ValuePart::Own(value));
                Answer::Op(OpKind::Insert)
            }
            Operation::Remove => Answer::Op(OpKind::Remove),
            Operation::Abort(with) => {
                self.aborted = Some(with);
                Answer::Op(OpKind::Abort(0))
            }
        }
    }

    /// Begins a compute.
    pub fn new(window: &Window<'a, K, V, S>, initial: usize, key: K) -> Computing<'a, K, V, S, T>
        requires lawful { IsLawful window.now }
        requires initial { IsPowerOfTwo initial }
        ensures ahead { IsAhead initial result }
        ensures begins { IsBegun window.now key result }
    {
        let book = window.book;
        let hash = hash(&book.parts.hasher, &key);
        Computing {
            writer: Writer {
                call: Driver::new(
                    Task::Compute,
                    hash,
                    book.parts.mode,
                    initial,
                    book.parts.limit,
                ),
                key: Some(KeyPart::Own(key)),
                value: None,
            },
            shown: None,
            fill: None,
            chosen: None,
            made: None,
            aborted: None,
        }
    }

    /// Continues a compute with this pair, made after its closure was called with `None`.
    pub(crate) fn filled(
        window: &Window<'a, K, V, S>,
        initial: usize,
        hash: u64,
        pair: Stored<K, V>,
    ) -> Computing<'a, K, V, S, T>
        requires lawful { IsLawful window.now }
        requires initial { IsPowerOfTwo initial }
        requires hashed { hash ≡ ⟦<S as Hashed<K>>⟧.hash window.now.book.now.parts.hasher
            (key_of pair) }
        requires placed { IsInWindow window.now (PairNamed pair) }
        requires number { pair.index < 2 ^ 48 }
        ensures ahead { IsAhead initial result }
        ensures resumes { IsResumed window.now (key_of pair) None
            (Operation.Insert pair.value.value) result }
    {
        let remembered = Remembered {
            fill: Some(pair.index() as u64),
            choice: None,
        };
        Computing {
            writer: Writer {
                call: resume(window.book, initial, hash, remembered),
                key: Some(KeyPart::Of(pair.again())),
                value: None,
            },
            shown: None,
            fill: Some(pair),
            chosen: None,
            made: None,
            aborted: None,
        }
    }

    /// Continues a compute with this pair, made after its closure was called with the pair met.
    pub(crate) fn replaced(
        window: &Window<'a, K, V, S>,
        initial: usize,
        key: K,
        hash: u64,
        met: Met<K, V>,
        pair: Stored<K, V>,
    ) -> Computing<'a, K, V, S, T>
        requires lawful { IsLawful window.now }
        requires initial { IsPowerOfTwo initial }
        requires hashed { hash ≡ ⟦<S as Hashed<K>>⟧.hash window.now.book.now.parts.hasher key }
        requires shown { IsInWindow window.now (PairNamed met.stored) }
        requires placed { IsInWindow window.now (PairNamed pair) }
        requires number { pair.index < 2 ^ 48 }
        requires kept { key_of pair ≡ key_of met.stored }
        requires same { K.eq key (key_of pair) ≡ true }
        requires there { HasKeyAt window.now.sight.log met.place.table met.place.probe.i
            (key_of pair) }
        ensures ahead { IsAhead initial result }
        ensures resumes { IsResumed window.now key (Some met.stored)
            (Operation.Insert pair.value.value) result }
    {
        let Met {
            place,
            word,
            stored,
        } = met;
        let write = Write { place, old: word };
        let choice = Choice::Replace {
            old: stored.index() as u64,
            new: write.of(pair.index() as u64),
        };
        let remembered = Remembered {
            fill: None,
            choice: Some(choice),
        };
        Computing {
            writer: Writer {
                call: resume(window.book, initial, hash, remembered),
                key: Some(KeyPart::Own(key)),
                value: Some(ValuePart::Of(pair.again())),
            },
            shown: Some(stored.again()),
            fill: None,
            chosen: Some(stored),
            made: Some(pair),
            aborted: None,
        }
    }

    /// Continues a compute that removes the pair which its closure was called with.
    pub(crate) fn removing(
        window: &Window<'a, K, V, S>,
        initial: usize,
        key: K,
        hash: u64,
        shown: Stored<K, V>,
    ) -> Computing<'a, K, V, S, T>
        requires lawful { IsLawful window.now }
        requires initial { IsPowerOfTwo initial }
        requires hashed { hash ≡ ⟦<S as Hashed<K>>⟧.hash window.now.book.now.parts.hasher key }
        requires shown { IsInWindow window.now (PairNamed shown) }
        ensures ahead { IsAhead initial result }
        ensures resumes { IsResumed window.now key (Some shown) Operation.Remove result }
    {
        let remembered = Remembered {
            fill: None,
            choice: Some(Choice::Remove(shown.index() as u64)),
        };
        Computing {
            writer: Writer {
                call: resume(window.book, initial, hash, remembered),
                key: Some(KeyPart::Own(key)),
                value: None,
            },
            shown: Some(shown.again()),
            fill: None,
            chosen: Some(shown),
            made: None,
            aborted: None,
        }
    }

    /// Returns the pair that the closure is to be called with: the one last loaded.
    fn to_show(&self) -> Stored<K, V>
        requires can { IsAnyCompute ⟦<S as Keyed<K>>⟧.keys self.now }
        requires asks { (n : ℕ) × (ask_of self.now.writer.call.machine ≡ Call (ShowPair n)) }
        ensures asks { ask_of self.now.writer.call.machine ≡ Call (ShowPair result.index) }
        ensures last { self.now.writer.call.copier.last ≡ Some result }
    {
        let Some(last) = &self.writer.call.copier.last else {
            unreachable!()
        };
        last.again()
    }

    /// Records that the closure was called with this, and returned this operation.
    pub fn record_result(
        &mut self,
        shown: Option<Stored<K, V>>,
        operation: Operation<V, T>,
    ) -> Answer
        requires valid { IsValid self.old.writer.call.machine }
        requires shows { IsToCall self.old shown }
        ensures machine { self.new.writer.call.machine ≡ self.old.writer.call.machine }
        ensures hears { RecordsResult ⟦<S as Keyed<K>>⟧.keys self.old shown operation self.new result }
    {
        self.chosen = chosen_after(&shown, &operation, self.chosen.take());
        self.shown = shown;
        self.keep(operation)
    }

    /// Passes an answer on to its machine, and copies if the call is set aside for that.
    pub fn advance<R: Wait>(
        &mut self,
        means: &Means<'_, '_, R>,
        answer: Answer,
        window: &mut Window<'a, K, V, S>,
    )
        requires valid { IsValid self.old.writer.call.machine }
        requires can { CanTake window.old self.old answer }
        ensures told { HasAnswered window.old self.old answer window.new self.new }
    {
        self.writer.call.answer(answer);
        self.writer.call.help(means, window);
    }

    /// Stores the pair for an absent key: of the call's key and of the value that the closure
    /// returned last.
    fn make_pair<R: Wait>(&mut self, rt: &R, window: &Window<'a, K, V, S>) -> Answer
        requires can { CanCompute window.now self.old }
        requires valid { IsValid self.old.writer.call.machine }
        requires asks { ask_of self.old.writer.call.machine ≡ Call MakePair }
        ensures machine { self.new.writer.call.machine ≡ self.old.writer.call.machine }
        ensures computes { Computes window.now self.old window.now self.new (Some result) }
    {
        match self.writer.store_pair(rt, window) {
            Ok(pair) => {
                let number = pair.index() as u64;
                self.fill = Some(pair);
                Answer::Made(number)
            }
            Err(answer) => answer,
        }
    }

    /// Stores a pair with the key of the pair that the closure was called with last, and with the
    /// value that the closure returned.
    fn make_pair_of<R: Wait>(&mut self, rt: &R, window: &Window<'a, K, V, S>) -> Answer
        requires can { CanCompute window.now self.old }
        requires valid { IsValid self.old.writer.call.machine }
        requires asks { (n : ℕ) × (ask_of self.old.writer.call.machine ≡ Call (MakePairOf n)) }
        ensures machine { self.new.writer.call.machine ≡ self.old.writer.call.machine }
        ensures computes { Computes window.now self.old window.now self.new (Some result) }
    {
        let (Some(shown), Some(last)) = (&self.shown, &self.writer.call.copier.last) else {
            unreachable!()
        };
        window.book.parts.pairs.agrees(shown, last);
        let chosen = shown.again();
        match self.writer.store_pair_of(rt, window) {
            Ok(pair) => {
                let number = pair.index() as u64;
                self.chosen = Some(chosen);
                self.made = Some(pair);
                Answer::Made(number)
            }
            Err(answer) => answer,
        }
    }

    /// Tries to put the pair that was made for a slot into that slot.
    fn put(
        &mut self,
        number: u64,
        place: usize,
        words: (u64, u64),
        window: &mut Window<'a, K, V, S>,
    ) -> Answer
        requires open { IsOpen window.old }
        requires can { CanCompute window.old self.old }
        requires valid { IsValid self.old.writer.call.machine }
        requires asks { ask_of self.old.writer.call.machine ≡ Call (Exchange
            (Slot number place) words.0 words.1) }
        requires kind { (kind_of_ask self.old.writer.call.machine ≡ Some Claim)
            ⊎ (kind_of_ask self.old.writer.call.machine ≡ Some Replace) }
        ensures sees { Sees window.old window.new }
        ensures does { Does (was_made result) window.old window.new }
        ensures machine { self.new.writer.call.machine ≡ self.old.writer.call.machine }
        ensures computes { Computes window.old self.old window.new self.new (Some result) }
    {
        let kind = self.writer.call.machine.kind();
        let Some(pair) = pair_for(kind, &self.fill, &self.made) else {
            unreachable!()
        };
        self.writer.put(number, place, words, &pair, window)
    }

    /// Tries an exchange of a slot.
    fn exchange(
        &mut self,
        number: u64,
        place: usize,
        words: (u64, u64),
        window: &mut Window<'a, K, V, S>,
    ) -> Answer
        requires open { IsOpen window.old }
        requires can { CanCompute window.old self.old }
        requires valid { IsValid self.old.writer.call.machine }
        requires asks { ask_of self.old.writer.call.machine ≡ Call (Exchange
            (Slot number place) words.0 words.1) }
        ensures sees { Sees window.old window.new }
        ensures does { Does (was_made result) window.old window.new }
        ensures machine { self.new.writer.call.machine ≡ self.old.writer.call.machine }
        ensures computes { Computes window.old self.old window.new self.new (Some result) }
    {
        match self.writer.call.machine.kind() {
            Some(StepKind::Bury) => self.writer.bury(number, place, words, window),
            _ => self.put(number, place, words, window),
        }
    }

    /// Performs an ask that all inserting calls make, and returns the answer.
    fn write<R: Wait>(
        &mut self,
        means: &Means<'_, '_, R>,
        ask: CallAsk,
        window: &mut Window<'a, K, V, S>,
    ) -> Answer
        requires can { CanCompute window.old self.old }
        requires valid { IsValid self.old.writer.call.machine }
        requires asks { (ask_of self.old.writer.call.machine ≡ Call ask) × IsWriters ask }
        requires fit { IsFitAsk ask }
        ensures sees { Observes window.old window.new }
        ensures machine { self.new.writer.call.machine ≡ self.old.writer.call.machine }
        ensures computes { Computes window.old self.old window.new self.new (Some result) }
    {
        match ask {
            CallAsk::Load(at) => self.writer.load(at, window),
            CallAsk::LoadHint(number, place) => self.writer.hint(number, place, window),
            CallAsk::SizeOf(_) => self.writer.size(window),
            CallAsk::SameKey(_) => self.writer.same(window),
            CallAsk::MakeKey | CallAsk::MakeValue => self.writer.make_part(),
            CallAsk::MakeTable { len, limit, chunks } => self
                .writer
                .make_table(means.rt, means.alloc, len, limit, chunks, window),
            CallAsk::Exchange(At::Root, _, _) => self.writer.open(window),
            CallAsk::Exchange(At::Made, old, new) => self.writer.take((old, new), window),
            _ => unreachable!(),
        }
    }

    /// Performs what the machine asks for, except what only the closure can.
    pub fn turn<R: Wait>(
        &mut self,
        means: &Means<'_, '_, R>,
        window: &mut Window<'a, K, V, S>,
    ) -> ComputeStep<K, V>
        requires open { IsOpen window.old }
        requires can { CanCompute window.old self.old }
        requires valid { IsValid self.old.writer.call.machine }
        requires calling { self.old.writer.call.machine.phase ≡ Calling }
        ensures turned { HasStepped window.old self.old window.new self.new result }
    {
        let Ask::Call(ask) = self.writer.call.machine.ask() else {
            unreachable!()
        };
        match ask {
            CallAsk::ShowNone => ComputeStep::CallsClosure(None),
            CallAsk::ShowPair(_) => ComputeStep::CallsClosure(Some(self.to_show())),
            CallAsk::MakePair => ComputeStep::Answered(self.make_pair(means.rt, window)),
            CallAsk::MakePairOf(_) => ComputeStep::Answered(self.make_pair_of(means.rt, window)),
            CallAsk::Exchange(At::Slot(number, place), old, new) => {
                ComputeStep::Answered(self.exchange(number, place, (old, new), window))
            }
            CallAsk::WriteHint(number, place, hint) => {
                ComputeStep::Answered(self.writer.write_hint(number, place, hint, window))
            }
            CallAsk::AddToShard(by) => {
                means.shard.add(self.writer.call.machine.call.hash, by);
                ComputeStep::Answered(Answer::Ok)
            }
            CallAsk::Done(_) => ComputeStep::Replied,
            _ => ComputeStep::Answered(self.write(means, ask, window)),
        }
    }

    /// Returns the result of a compute that put a pair in.
    fn inserted(&self, window: &Window<'a, K, V, S>) -> Compute<'a, K, V, T>
        requires valid { IsValid self.now.writer.call.machine }
        requires can { CanCompute window.now self.now }
        requires done { (n : ℕ) × (ask_of self.now.writer.call.machine
            ≡ Call (Done (Inserted n))) }
        ensures changed { changes (Ok result) ≡ has_changed self.now.writer.call.machine }
        ensures replies { Replies window.now self.now (Ok result) }
    {
        let book = window.book;
        match (&self.fill, &self.writer.call.put) {
            (Some(fill), Some(put)) => {
                book.parts.pairs.agrees(fill, put);
                let (key, value) = entry(book, put);
                Compute::Inserted(key, value)
            }
            _ => unreachable!(),
        }
    }

    /// Returns the result of a compute that replaced a pair.
    fn updated(&self, window: &Window<'a, K, V, S>) -> Compute<'a, K, V, T>
        requires valid { IsValid self.now.writer.call.machine }
        requires can { CanCompute window.now self.now }
        requires done { (m : ℕ) × (n : ℕ) × (ask_of self.now.writer.call.machine
            ≡ Call (Done (Replaced m n))) }
        ensures changed { changes (Ok result) ≡ has_changed self.now.writer.call.machine }
        ensures replies { Replies window.now self.now (Ok result) }
    {
        let (Some(chosen), Some(taken)) = (&self.chosen, &self.writer.call.taken) else {
            unreachable!()
        };
        let (Some(made), Some(put)) = (&self.made, &self.writer.call.put) else {
            unreachable!()
        };
        let book = window.book;
        book.parts.pairs.agrees(chosen, taken);
        book.parts.pairs.agrees(made, put);
        Compute::Updated {
            old: entry(book, taken),
            new: entry(book, put),
        }
    }

    /// Returns the result of a compute that removed a pair.
    fn removed(&self, window: &Window<'a, K, V, S>) -> Compute<'a, K, V, T>
        requires valid { IsValid self.now.writer.call.machine }
        requires can { CanCompute window.now self.now }
        requires done { (n : ℕ) × (ask_of self.now.writer.call.machine
            ≡ Call (Done (Removed n))) }
        ensures changed { changes (Ok result) ≡ has_changed self.now.writer.call.machine }
        ensures replies { Replies window.now self.now (Ok result) }
    {
        let book = window.book;
        match (&self.chosen, &self.writer.call.taken) {
            (Some(chosen), Some(taken)) => {
                book.parts.pairs.agrees(chosen, taken);
                let (key, value) = entry(book, taken);
                Compute::Removed(key, value)
            }
            _ => unreachable!(),
        }
    }

    /// Returns the value that its closure had last, and that of the pair that would fill.
    pub(crate) fn left(&self, window: &Window<'a, K, V, S>) -> (Option<&'a V>, Option<&'a V>)
        requires can { CanCompute window.now self.now }
        ensures current { option_map (λ v. v.now) result.0 ≡ value_in self.now.shown }
        ensures spare { option_map (λ v. v.now) result.1 ≡ value_in self.now.fill }
    {
        let book = window.book;
        (value_in(book, &self.shown), value_in(book, &self.fill))
    }

    /// Returns the result of a compute that has replied.
    pub fn replied(&mut self, window: &Window<'a, K, V, S>) -> Result<Compute<'a, K, V, T>, Refused>
        requires valid { IsValid self.old.writer.call.machine }
        requires can { CanCompute window.now self.old }
        requires done { (reply : _) × (ask_of self.old.writer.call.machine
            ≡ Call (Done reply)) }
        ensures replied { HasReplied window.now self.old result }
    {
        match self.writer.call.machine.ask() {
            Ask::Call(CallAsk::Done(Reply::Inserted(_))) => Ok(self.inserted(window)),
            Ask::Call(CallAsk::Done(Reply::Replaced { .. })) => Ok(self.updated(window)),
            Ask::Call(CallAsk::Done(Reply::Removed(_))) => Ok(self.removed(window)),
            Ask::Call(CallAsk::Done(Reply::Aborted(_))) => match self.aborted.take() {
                Some(with) => Ok(Compute::Aborted(with)),
                None => unreachable!(),
            },
            Ask::Call(CallAsk::Done(Reply::Refused(refused))) => Err(refused),
            _ => unreachable!(),
        }
    }
}

/// Returns the value of a pair, if there is one.
pub(crate) fn value_in<'a, K: Hash + Eq, V, S: BuildHasher>(
    book: &'a Book<K, V, S>,
    pair: &Option<Stored<K, V>>,
) -> Option<&'a V>
    requires { IsIn book.now (pair_named pair.now) }
    ensures { option_map (λ v. v.now) result ≡ value_in pair.now }
{
    match pair {
        Some(pair) => Some(value_of(book, pair)),
        None => None,
    }
}
