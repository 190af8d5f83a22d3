//! Removals: by a lookup's search if it finds their pair live. Otherwise by their machine, whose
//! asks are performed by steps on the book and by a closure.
ghost use Rattle.papaya_map_change.specs.Window.Ends.{Ends};
ghost use Rattle.papaya_map_lookup.specs.Drivers.{past};
ghost use Rattle.papaya_map_lookup.specs.History.{key_of};
ghost use Rattle.papaya_map_book.specs.Windows.{IsOpen, Sees};
ghost use Rattle.papaya_map_book.specs.Books.{IsIn};
ghost use Rattle.papaya_map_change.specs.Doing.{Answers};
ghost use Rattle.papaya_map_change.specs.Window.Removing.{CanRemove, HoldsResult, Removes};
ghost use Rattle.papaya_map_change.specs.Removing.{CallsClosure, IsRemovalResult};
ghost use Rattle.papaya_map_change.specs.Window.Steps.{HasLast};
ghost use Rattle.std.specs.Prelude.{◌≡◌, Some, Err};
ghost use Rattle.std.specs.Int.{IsPowerOfTwo};
ghost use Rattle.papaya_map_book.specs.Limits.{HasNoRoom, tables_of};
ghost use Rattle.papaya_call.specs.Machine.{ask_of as call_ask_of};
ghost use Rattle.papaya_call.specs.ChainMachine.{IsValid, ask_of};
ghost use Rattle.papaya_call.specs.declared.chain.ask.Ask.TheVariants.{Call};
ghost use Rattle.papaya_call.specs.declared.chain.machine.Phase.TheVariants.{Calling};
ghost use Rattle.papaya_call.specs.declared.ask.Ask.TheVariants.{Done};
ghost use Rattle.papaya_map_book.specs.Logs.{pair_named};
ghost use Rattle.papaya_map_change.specs.RemovalAnswers.{IsRemovalBy, has_removed};
ghost use Rattle.papaya_map_change.specs.ClosureCalls.{AreOf, Judges};

use crate::driver::{Driver, Means};
use crate::fast_removal::remove_fast;
use papaya_call::ask::{Answer, Ask as CallAsk, At};
use papaya_call::call::{Reply, Task};
use papaya_call::chain::ask::Ask;
use papaya_map_book::book::Book;
use papaya_map_book::count::Shard;
use papaya_map_book::keyed::Asked;
use papaya_map_book::rule::entry::Stored;
use papaya_map_book::rule::own::{CapacityCause, OwnSteps};
use papaya_map_book::window::Window;
use papaya_map_lookup::lookup::hash;
use papaya_words::refused::Refused;
use papaya_words_keys::guard::Equivalent;
use std::alloc::Global;
use std::hash::{BuildHasher, Hash};
use std::sync::Wait;

/// A removal under way, with the pair that its closure was called with last.
#[derive(Drop)]
pub struct Removal<'a, K: Hash + Eq, V, S: BuildHasher> {
    call: Driver<'a, K, V, S>,
    shown: Option<Stored<K, V>>,
}

/// Returns the key and the value of a pair.
#[inline(always)]
pub fn entry<'a, K: Hash + Eq, V, S: BuildHasher>(
    book: &'a Book<K, V, S>,
    stored: &Stored<K, V>,
) -> (&'a K, &'a V)
    requires { IsIn book.now (pair_named (Some stored.now)) }
    ensures { AreOf result stored.now }
{
    book.entry(book.pair(stored))
}

/// Returns the value of a pair.
#[inline(always)]
pub fn value_of<'a, K: Hash + Eq, V, S: BuildHasher>(
    book: &'a Book<K, V, S>,
    stored: &Stored<K, V>,
) -> &'a V
    requires { IsIn book.now (pair_named (Some stored.now)) }
    ensures { result.now ≡ stored.now.value.value }
{
    book.value(book.pair(stored))
}

impl<'a, K: Hash + Eq, V, S: BuildHasher> Removal<'a, K, V, S> {
    /// Returns whether the key matches that of the pair last loaded.
    fn same<Q: Equivalent<K>>(&self, key: &Q, window: &Window<'a, K, V, S>) -> Answer
        requires last { HasLast window.now self.now.call }
        ensures same { (p : _) → self.now.call.copier.last ≡ Some p
            → result ≡ Answer.Yes (Q.matches key.now (key_of p)) }
    {
        let Some(last) = &self.call.copier.last else {
            unreachable!()
        };
        let book = window.book;
        Answer::Yes(key.equivalent(book.key(book.pair(last))))
    }

    /// Calls the closure with the pair last loaded, and keeps that pair.
    fn call_closure<F: FnMut(&K, &V) -> bool>(
        &mut self,
        agrees: &mut F,
        window: &Window<'a, K, V, S>,
    ) -> Answer
        requires callable { F.IsAlwaysCallable agrees.old }
        requires last { HasLast window.now self.old.call }
        ensures callable { F.IsAlwaysCallable agrees.new }
        ensures shows { CallsClosure (Judges F.FnMut) self.old agrees.old self.new agrees.new result }
    {
        let Some(last) = &self.call.copier.last else {
            unreachable!()
        };
        let (stored, value) = entry(window.book, last);
        let agreed = agrees(stored, value);
        self.shown = Some(last.again());
        Answer::Yes(agreed)
    }

    /// Performs what the machine asks for. Returns `None` once it has replied.
    fn answer<Q: Equivalent<K>, F: FnMut(&K, &V) -> bool>(
        &mut self,
        shard: &Shard<'_>,
        key: &Q,
        agrees: &mut F,
        window: &mut Window<'a, K, V, S>,
    ) -> Option<Answer>
        requires callable { F.IsAlwaysCallable agrees.old }
        requires open { IsOpen window.old }
        requires can { CanRemove (⟦<S as Asked<K, Q>>⟧.query key.now) (Judges F.FnMut) window.old
            self.old agrees.old }
        requires valid { IsValid self.old.call.machine }
        requires calling { self.old.call.machine.phase ≡ Calling }
        ensures sees { Sees window.old window.new }
        ensures answers { Answers (call_ask_of self.old.call.machine.call) result window.old
            window.new }
        ensures machine { self.new.call.machine ≡ self.old.call.machine }
        ensures callable { F.IsAlwaysCallable agrees.new }
        ensures removes { Removes (⟦<S as Asked<K, Q>>⟧.query key.now) (Judges F.FnMut) window.old
            self.old agrees.old window.new self.new agrees.new result }
    {
        let Ask::Call(ask) = self.call.machine.ask() else {
            unreachable!()
        };
        match ask {
            CallAsk::Load(at) => Some(Answer::Word(self.call.load(at, window))),
            CallAsk::LoadHint(number, place) => {
                Some(Answer::Word(self.call.hint(number, place, window)))
            }
            CallAsk::SizeOf(_) => Some(self.call.size()),
            CallAsk::SameKey(_) => Some(self.same(key, window)),
            CallAsk::ShowPair(_) => Some(self.call_closure(agrees, window)),
            CallAsk::Exchange(At::Slot(number, place), old, new) => {
                Some(self.call.bury(number, place, (old, new), window))
            }
            CallAsk::AddToShard(by) => {
                shard.add(self.call.machine.call.hash, by);
                Some(Answer::Ok)
            }
            CallAsk::Done(_) => None,
            // A removal only shows a pair to its closure: it makes no key and no pair, fills no
            // slot and opens no table.
            CallAsk::ShowNone
            | CallAsk::WriteHint(_, _, _)
            | CallAsk::Exchange(_, _, _)
            | CallAsk::MakeKey
            | CallAsk::MakeValue
            | CallAsk::MakePair
            | CallAsk::MakePairOf(_)
            | CallAsk::MakeTable { .. } => unreachable!(),
        }
    }

    /// Returns the result of a removal that has replied.
    fn replied(
        &self,
        window: &Window<'a, K, V, S>,
    ) -> Result<Result<Option<(&'a K, &'a V)>, (&'a K, &'a V)>, Refused>
        requires valid { IsValid self.now.call.machine }
        requires done { (reply : _) × (ask_of self.now.call.machine ≡ Call (Done reply)) }
        requires can { (reply : _) → ask_of self.now.call.machine ≡ Call (Done reply)
            → HoldsResult window.now self.now reply }
        ensures tells { (reply : _) × (ask_of self.now.call.machine ≡ Call (Done reply))
            × IsRemovalResult self.now reply result }
    {
        let book = window.book;
        match (self.call.machine.ask(), &self.shown, &self.call.taken) {
            (Ask::Call(CallAsk::Done(Reply::Removed(_))), Some(shown), Some(taken)) => {
                book.parts.pairs.agrees(shown, taken);
                Ok(Ok(Some(entry(book, taken))))
            }
            (Ask::Call(CallAsk::Done(Reply::Kept(_))), Some(shown), _) => {
                Ok(Err(entry(book, shown)))
            }
            (Ask::Call(CallAsk::Done(Reply::Absent)), _, _) => Ok(Ok(None)),
            (Ask::Call(CallAsk::Done(Reply::Refused(refused))), _, _) => Err(refused),
            _ => unreachable!(),
        }
    }
}

/// Removes a key's pair if the closure returns true, as the removal's machine asks.
#[inline(never)]
pub fn remove_slow<
    'a,
    R: Wait,
    K: Hash + Eq,
    V,
    S: BuildHasher,
    Q: Equivalent<K>,
    F: FnMut(&K, &V) -> bool,
>(
    means: &Means<'_, '_, R>,
    window: &mut Window<'a, K, V, S>,
    given: &mut OwnSteps<CapacityCause>,
    key: &Q,
    mut agrees: F,
) -> Result<Result<Option<(&'a K, &'a V)>, (&'a K, &'a V)>, Refused>
    requires callable { F.IsAlwaysCallable agrees }
    requires initial { IsPowerOfTwo means.now.initial }
    requires open { IsOpen window.old }
    ensures ends { Ends (has_removed result) window.old window.new }
    ensures removed { IsRemovalBy K.eq (Q.matches key.now) (past window.old) (past window.new)
        (Judges F.FnMut) agrees result }
    ensures crowded { result ≡ Err Refused.Capacity → HasNoRoom means.now.initial
        (tables_of window.new.sight.log) given.new.done }
{
    window.learn();
    let book = window.book;
    let mut removal = Removal {
        call: Driver::new(
            Task::RemoveIf,
            hash(&book.parts.hasher, key),
            book.parts.mode,
            means.initial,
            book.parts.limit,
        ),
        shown: None,
    };
    for _ in means.rt.forever() {
        match removal.answer(means.shard, key, &mut agrees, window) {
            Some(answer) => {
                removal.call.answer(answer);
                removal.call.help(means, window);
            }
            None => {
                *given = removal.call.copier.given.again();
                return removal.replied(window);
            }
        }
    }
    unreachable!()
}

/// Removes a key's pair if the closure returns true. A lookup's search finds the pair, which is
/// removed at once if it is live. Otherwise, or if another call was first, the removal's machine
/// begins. It may fail with `Refused::Capacity` as it helps to copy. Then `given` records the
/// number that a full arena of tables gave, or the sum of the count that makes a next table too
/// long.
pub fn remove<
    'a,
    R: Wait,
    K: Hash + Eq,
    V,
    S: BuildHasher,
    Q: Equivalent<K>,
    F: FnMut(&K, &V) -> bool,
>(
    rt: &R,
    alloc: Global,
    initial: usize,
    shard: &Shard<'_>,
    window: &mut Window<'a, K, V, S>,
    given: &mut OwnSteps<CapacityCause>,
    key: &Q,
    mut agrees: F,
) -> Result<Result<Option<(&'a K, &'a V)>, (&'a K, &'a V)>, Refused>
    requires callable { F.IsAlwaysCallable agrees }
    requires initial { IsPowerOfTwo initial }
    requires open { IsOpen window.old }
    ensures ends { Ends (has_removed result) window.old window.new }
    ensures removed { IsRemovalBy K.eq (Q.matches key.now) (past window.old) (past window.new)
        (Judges F.FnMut) agrees result }
    ensures crowded { result ≡ Err Refused.Capacity → HasNoRoom initial
        (tables_of window.new.sight.log) given.new.done }
{
    let means = Means {
        rt,
        alloc,
        initial,
        shard,
    };
    match remove_fast(&means, window, key, &mut agrees) {
        Some(answer) => Ok(answer),
        None => remove_slow(&means, window, given, key, agrees),
    }
}
