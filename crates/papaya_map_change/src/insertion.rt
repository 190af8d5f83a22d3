//! Insertions: their machine, whose asks are performed by steps on the book.
ghost use Rattle.papaya_map_change.specs.Window.Ends.{Ends, HasCause};
ghost use Rattle.papaya_map_lookup.specs.Drivers.{past};
ghost use Rattle.papaya_map_lookup.specs.History.{key_of};
ghost use Rattle.papaya_map_book.specs.Windows.{Does, IsIn, IsOpen, Sees};
ghost use Rattle.papaya_map_book.specs.declared.rule.entry.Named.TheVariants.{Pair as PairNamed};
ghost use Rattle.papaya_map_change.specs.Doing.{Answers, has_changed, was_made};
ghost use Rattle.papaya_map_change.specs.Window.Inserting.{CanInsert, HasPut, HasPutSince, Inserts};
ghost use Rattle.std.specs.Prelude.{◌≡◌, ℕ, ◌<◌, ◌^◌, false, true, is_ok, None, Some, Err, IfErr, IfOk};
ghost use Rattle.std.specs.Int.{IsPowerOfTwo};
ghost use Rattle.papaya_call.specs.Machine.{ask_of as call_ask_of};
ghost use Rattle.papaya_call.specs.ChainMachine.{IsValid, ask_of, started};
ghost use Rattle.papaya_call.specs.declared.chain.ask.Ask.TheVariants.{Call};
ghost use Rattle.papaya_call.specs.declared.chain.machine.Phase.TheVariants.{Calling};
ghost use Rattle.papaya_call.specs.declared.ask.Ask.TheVariants.{Done, Exchange, MakePair, MakePairOf};
ghost use Rattle.papaya_call.specs.declared.ask.At.TheVariants.{Slot};
ghost use Rattle.papaya_call.specs.declared.call.Reply.TheVariants.{Refused as ReplyRefused};
ghost use Rattle.papaya_call.specs.declared.call.Task.TheVariants.{Insert};
ghost use Rattle.papaya_map_change.specs.Changes.{IsPut};
ghost use Rattle.papaya_map_change.specs.Driver.{HoldsNothing};
ghost use Rattle.papaya_map_change.specs.Window.Seeking.{HasWritten, IsStateAfter};
ghost use Rattle.papaya_map_change.specs.declared.fast_path.ProbeHit.TheVariants.{Over};
ghost use Rattle.papaya_map_change.specs.Writing.{HasKeyAt, IsMemoryCapacityOrLimit};

use crate::driver::{Driver, Means};
use crate::writer::Writer;
use papaya_call::ask::{Answer, Ask as CallAsk, At};
use papaya_call::call::{Reply, Task};
use papaya_call::chain::ask::Ask;
use papaya_call::machine::State;
use papaya_call::made::Made;
use papaya_call::need::Need;
use papaya_call::write::Write;
use papaya_map_book::book::Book;
use papaya_map_book::book::pairs::{KeyPart, ValuePart};
use papaya_map_book::keyed::Hashed;
use papaya_map_book::rule::entry::Stored;
use papaya_map_book::rule::own::{CapacityCause, OwnSteps};
use papaya_map_book::table::Table;
use papaya_map_book::window::Window;
use papaya_map_lookup::lookup::hash;
use papaya_words::refused::Refused;
use std::hash::{BuildHasher, Hash};
use std::sync::Wait;

/// An insertion under way, with the pair of its own key that it made, and the last pair that it
/// made with a key that it met.
#[derive(Drop)]
pub struct Insertion<'a, K: Hash + Eq, V, S: BuildHasher> {
    writer: Writer<'a, K, V, S>,
    own: Option<Stored<K, V>>,
    of: Option<Stored<K, V>>,
}

impl<'a, K: Hash + Eq + Drop, V: Drop, S: BuildHasher> Insertion<'a, K, V, S> {
    /// Begins an insertion of this key and value at the root; it has made no pair.
    #[inline(always)]
    fn begin<R: Wait>(
        means: &Means<'_, '_, R>,
        book: &Book<K, V, S>,
        hash: u64,
        key: KeyPart<K, V>,
        value: ValuePart<K, V>,
    ) -> Insertion<'a, K, V, S>
        requires initial { IsPowerOfTwo means.now.initial }
        ensures machine { result.writer.call.machine ≡ started (Insert true) hash
            book.now.parts.mode means.now.initial 0 book.now.parts.limit }
        ensures valid { IsValid result.writer.call.machine }
        ensures empty { HoldsNothing result.writer.call }
        ensures parts { (result.writer.key ≡ Some key) × (result.writer.value ≡ Some value) }
        ensures made { (result.own ≡ None) × (result.of ≡ None) }
    {
        let task = Task::Insert { replace: true };
        let parts = &book.parts;
        Insertion {
            writer: Writer {
                call: Driver::new(task, hash, parts.mode, means.initial, parts.limit),
                key: Some(key),
                value: Some(value),
            },
            own: None,
            of: None,
        }
    }

    /// Stores the pair of the call's key and the value.
    fn make_pair<R: Wait>(&mut self, rt: &R, window: &Window<'a, K, V, S>) -> Answer
        requires valid { IsValid self.old.writer.call.machine }
        requires can { CanInsert window.now self.old }
        requires asks { ask_of self.old.writer.call.machine ≡ Call MakePair }
        ensures machine { self.new.writer.call.machine ≡ self.old.writer.call.machine }
        ensures inserts { Inserts window.now self.old window.now self.new (Some result) }
    {
        match self.writer.store_pair(rt, window) {
            Ok(pair) => {
                let number = pair.index();
                self.own = Some(pair);
                Answer::Made(number as u64)
            }
            Err(answer) => answer,
        }
    }

    /// Stores the pair of the value and the key that was met.
    fn make_pair_of<R: Wait>(&mut self, rt: &R, window: &Window<'a, K, V, S>) -> Answer
        requires valid { IsValid self.old.writer.call.machine }
        requires can { CanInsert window.now self.old }
        requires asks { (n : ℕ) × (ask_of self.old.writer.call.machine ≡ Call (MakePairOf n)) }
        ensures machine { self.new.writer.call.machine ≡ self.old.writer.call.machine }
        ensures inserts { Inserts window.now self.old window.now self.new (Some result) }
    {
        match self.writer.store_pair_of(rt, window) {
            Ok(pair) => {
                let number = pair.index();
                self.of = Some(pair);
                Answer::Made(number as u64)
            }
            Err(answer) => answer,
        }
    }

    /// Tries to put a pair into a slot: of the call's own key if it is empty, and otherwise of the
    /// key that is there.
    fn put(
        &mut self,
        number: u64,
        place: usize,
        words: (u64, u64),
        window: &mut Window<'a, K, V, S>,
    ) -> Answer
        requires valid { IsValid self.old.writer.call.machine }
        requires open { IsOpen window.old }
        requires can { CanInsert window.old self.old }
        requires asks { ask_of self.old.writer.call.machine ≡ Call (Exchange
            (Slot number place) words.0 words.1) }
        ensures sees { Sees window.old window.new }
        ensures does { Does (was_made result) window.old window.new }
        ensures machine { self.new.writer.call.machine ≡ self.old.writer.call.machine }
        ensures inserts { Inserts window.old self.old window.new self.new (Some result) }
    {
        if words.0 == 0 {
            let Some(own) = &self.own else { unreachable!() };
            return self.writer.put(number, place, words, own, window);
        }
        let Some(of) = &self.of else { unreachable!() };
        self.writer.put(number, place, words, of, window)
    }

    /// Performs what the machine asks for. Returns `None` once it has replied.
    fn answer<R: Wait>(
        &mut self,
        means: &Means<'_, '_, R>,
        window: &mut Window<'a, K, V, S>,
    ) -> Option<Answer>
        requires valid { IsValid self.old.writer.call.machine }
        requires calling { self.old.writer.call.machine.phase ≡ Calling }
        requires open { IsOpen window.old }
        requires can { CanInsert window.old self.old }
        ensures sees { Sees window.old window.new }
        ensures answers { Answers (call_ask_of self.old.writer.call.machine.call) result window.old
            window.new }
        ensures machine { self.new.writer.call.machine ≡ self.old.writer.call.machine }
        ensures inserts { Inserts window.old self.old window.new self.new result }
    {
        let Ask::Call(ask) = self.writer.call.machine.ask() else {
            unreachable!()
        };
        match ask {
            CallAsk::Load(at) => Some(self.writer.load(at, window)),
            CallAsk::LoadHint(number, place) => Some(self.writer.hint(number, place, window)),
            CallAsk::WriteHint(number, place, hint) => {
                Some(self.writer.write_hint(number, place, hint, window))
            }
            CallAsk::SizeOf(_) => Some(self.writer.size(window)),
            CallAsk::SameKey(_) => Some(self.writer.same(window)),
            CallAsk::MakeKey | CallAsk::MakeValue => Some(self.writer.make_part()),
            CallAsk::MakePair => Some(self.make_pair(means.rt, window)),
            CallAsk::MakePairOf(_) => Some(self.make_pair_of(means.rt, window)),
            CallAsk::MakeTable { len, limit, chunks } => Some(
                self.writer
                    .make_table(means.rt, means.alloc, len, limit, chunks, window),
            ),
            CallAsk::Exchange(At::Root, _, _) => Some(self.writer.open(window)),
            CallAsk::Exchange(At::Made, old, new) => Some(self.writer.take((old, new), window)),
            CallAsk::Exchange(At::Slot(number, place), old, new) => {
                Some(self.put(number, place, (old, new), window))
            }
            CallAsk::AddToShard(by) => {
                means.shard.add(self.writer.call.machine.call.hash, by);
                Some(Answer::Ok)
            }
            CallAsk::Done(_) => None,
            CallAsk::ShowNone | CallAsk::ShowPair(_) | CallAsk::Exchange(_, _, _) => {
                unreachable!()
            }
        }
    }

    /// Returns the result of an insertion that has replied: the value that its key had.
    fn replied(&self, window: &Window<'a, K, V, S>) -> Result<Option<&'a V>, Refused>
        requires valid { IsValid self.now.writer.call.machine }
        requires can { CanInsert window.now self.now }
        requires done { (reply : _) × (ask_of self.now.writer.call.machine
            ≡ Call (Done reply)) }
        ensures put { IfOk result (λ answer. HasPut window.now self.now answer) }
        ensures refused { IfErr result (λ refused. IsMemoryCapacityOrLimit refused) }
        ensures refusal { IfErr result (λ refused. ask_of self.now.writer.call.machine ≡ Call (Done
            (ReplyRefused refused))) }
        ensures changed { is_ok result ≡ has_changed self.now.writer.call.machine }
    {
        if let Ask::Call(CallAsk::Done(Reply::Refused(refused))) = self.writer.call.machine.ask() {
            return Err(refused);
        }
        let book = window.book;
        match &self.writer.call.taken {
            Some(taken) => Ok(Some(book.value(book.pair(taken)))),
            None => Ok(None),
        }
    }
}

/// Runs an insertion to its end that has not changed the map yet; returns the value that its key
/// had.
fn drive<'a, R: Wait, K: Hash + Eq + Drop, V: Drop, S: BuildHasher>(
    means: &Means<'_, '_, R>,
    window: &mut Window<'a, K, V, S>,
    given: &mut OwnSteps<CapacityCause>,
    begun: Insertion<'a, K, V, S>,
) -> Result<Option<&'a V>, Refused>
    requires valid { IsValid begun.writer.call.machine }
    requires calling { begun.writer.call.machine.phase ≡ Calling }
    requires open { IsOpen window.old }
    requires can { CanInsert window.old begun }
    requires unchanged { has_changed begun.writer.call.machine ≡ false }
    ensures ends { Ends (is_ok result) window.old window.new }
    ensures put { IfOk result (λ answer. HasPutSince window.old begun.entry window.new
        answer) }
    ensures refused { IfErr result (λ refused. IsMemoryCapacityOrLimit refused) }
    ensures tells { HasCause begun.entry.writer.call.machine.call.initial window.new given.new.done
        (λ cause. result ≡ Err cause) }
{
    let mut insertion = begun;
    for _ in means.rt.forever() {
        match insertion.answer(means, window) {
            Some(answer) => {
                insertion.writer.call.answer(answer);
                insertion.writer.call.help(means, window);
                insertion.writer.probe_on(window);
            }
            None => {
                *given = insertion.writer.call.copier.given.again();
                return insertion.replied(window);
            }
        }
    }
    unreachable!()
}

/// Inserts a pair by its machine; returns the value that its key had. If it fails with
/// `Refused::Capacity`, `given` records the number that a full arena of tables gave, or the sum of
/// the count that makes a next table too long.
pub(crate) fn insert_slow<'a, R: Wait, K: Hash + Eq + Drop, V: Drop, S: BuildHasher>(
    means: &Means<'_, '_, R>,
    window: &mut Window<'a, K, V, S>,
    given: &mut OwnSteps<CapacityCause>,
    key: K,
    value: V,
) -> Result<Option<&'a V>, Refused>
    requires initial { IsPowerOfTwo means.now.initial }
    requires open { IsOpen window.old }
    ensures ends { Ends (is_ok result) window.old window.new }
    ensures put { IfOk result (λ answer. IsPut K.eq key value
        (past window.old) (past window.new) answer) }
    ensures refused { IfErr result (λ refused. IsMemoryCapacityOrLimit refused) }
    ensures tells { HasCause means.now.initial window.new given.new.done
        (λ cause. result ≡ Err cause) }
{
    window.learn();
    let book = window.book;
    let hash = hash(&book.parts.hasher, &key);
    let (key, value) = (KeyPart::Own(key), ValuePart::Own(value));
    let insertion = Insertion::begin(means, book, hash, key, value);
    drive(means, window, given, insertion)
}

/// Inserts a pair by its machine, whose search of this table has found no place for the key;
/// returns the value that its key had.
pub(crate) fn insert_onward<'a, R: Wait, K: Hash + Eq + Drop, V: Drop, S: BuildHasher>(
    means: &Means<'_, '_, R>,
    window: &mut Window<'a, K, V, S>,
    given: &mut OwnSteps<CapacityCause>,
    key: K,
    value: V,
    hash: u64,
    table: &'a Table<K, V, S>,
    number: u64,
) -> Result<Option<&'a V>, Refused>
    requires initial { IsPowerOfTwo means.now.initial }
    requires open { IsOpen window.old }
    requires hashed { hash ≡ ⟦<S as Hashed<K>>⟧.hash window.old.book.now.parts.hasher key }
    requires stands { IsStateAfter window.old key table.now (Over number) }
    ensures ends { Ends (is_ok result) window.old window.new }
    ensures put { IfOk result (λ answer. HasWritten window.old window.new key value
        table.now (Over number) answer) }
    ensures refused { IfErr result (λ refused. IsMemoryCapacityOrLimit refused) }
    ensures tells { HasCause means.now.initial window.new given.new.done
        (λ cause. result ≡ Err cause) }
{
    let (key, value) = (KeyPart::Own(key), ValuePart::Own(value));
    let mut insertion = Insertion::begin(means, window.book, hash, key, value);
    insertion
        .writer
        .call
        .enter_state(State::Growing(Need::Room(number)), table);
    drive(means, window, given, insertion)
}

/// Inserts a pair that is in the arena, with its key, by its machine; returns the key's old value.
pub(crate) fn insert_stored<'a, R: Wait, K: Hash + Eq + Drop, V: Drop, S: BuildHasher>(
    means: &Means<'_, '_, R>,
    window: &mut Window<'a, K, V, S>,
    given: &mut OwnSteps<CapacityCause>,
    hash: u64,
    pair: Stored<K, V>,
) -> Result<Option<&'a V>, Refused>
    requires initial { IsPowerOfTwo means.now.initial }
    requires open { IsOpen window.old }
    requires hashed { hash ≡ ⟦<S as Hashed<K>>⟧.hash window.old.book.now.parts.hasher (key_of pair) }
    requires placed { IsIn window.old (PairNamed pair) }
    requires number { pair.index < 2 ^ 48 }
    ensures ends { Ends (is_ok result) window.old window.new }
    ensures put { IfOk result (λ answer. IsPut K.eq (key_of pair) pair.value.value
        (past window.old) (past window.new) answer) }
    ensures refused { IfErr result (λ refused. IsMemoryCapacityOrLimit refused) }
    ensures tells { HasCause means.now.initial window.new given.new.done
        (λ cause. result ≡ Err cause) }
{
    window.learn();
    let (key, value) = (KeyPart::Of(pair.again()), ValuePart::Of(pair.again()));
    let mut insertion = Insertion::begin(means, window.book, hash, key, value);
    let made = insertion.writer.call.machine.call.made;
    insertion.writer.call.set_made(Made {
        own: Some(pair.index() as u64),
        ..made
    });
    insertion.own = Some(pair);
    drive(means, window, given, insertion)
}

/// Inserts by its machine the value of a pair that is in the arena. The key that stays is that of
/// the pair in the slot of this write. Returns the value that the call's key had.
pub(crate) fn insert_met<'a, R: Wait, K: Hash + Eq + Drop, V: Drop, S: BuildHasher>(
    means: &Means<'_, '_, R>,
    window: &mut Window<'a, K, V, S>,
    given: &mut OwnSteps<CapacityCause>,
    key: K,
    hash: u64,
    write: Write,
    pair: Stored<K, V>,
) -> Result<Option<&'a V>, Refused>
    requires initial { IsPowerOfTwo means.now.initial }
    requires open { IsOpen window.old }
    requires hashed { hash ≡ ⟦<S as Hashed<K>>⟧.hash window.old.book.now.parts.hasher key }
    requires placed { IsIn window.old (PairNamed pair) }
    requires number { pair.index < 2 ^ 48 }
    requires met { HasKeyAt window.old.sight.log write.place.table write.place.probe.i (key_of pair) }
    requires same { K.eq key (key_of pair) ≡ true }
    ensures ends { Ends (is_ok result) window.old window.new }
    ensures put { IfOk result (λ answer. IsPut K.eq key pair.value.value
        (past window.old) (past window.new) answer) }
    ensures refused { IfErr result (λ refused. IsMemoryCapacityOrLimit refused) }
    ensures tells { HasCause means.now.initial window.new given.new.done
        (λ cause. result ≡ Err cause) }
{
    window.learn();
    let (key, value) = (KeyPart::Own(key), ValuePart::Of(pair.again()));
    let mut insertion = Insertion::begin(means, window.book, hash, key, value);
    let made = insertion.writer.call.machine.call.made;
    insertion.writer.call.set_made(Made {
        of: Some(write.of(pair.index() as u64)),
        ..made
    });
    insertion.of = Some(pair);
    drive(means, window, given, insertion)
}
