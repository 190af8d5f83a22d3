//! Computes: at once if possible, and otherwise by their machine, answered by the store and by one
//! call of a closure.
ghost use Rattle.std.specs.Prelude.{◌≡◌, ◌≢◌, ℕ, IfOk, IfErr, IsSome, Some, None, length, option_map};
ghost use Rattle.papaya_words.specs.Word.{kind_of, pair_of as number_of};
ghost use Rattle.papaya_words.specs.declared.word.Kind.TheVariants.{Live};
ghost use Rattle.papaya_call.specs.Search.{IsSize};
ghost use Rattle.papaya_words_keys.specs.Hashes.{hash_of};
ghost use Rattle.papaya_call_law.specs.Alone.{IsBare};
ghost use Rattle.papaya_core_store.specs.Store.{pair_of};
ghost use Rattle.papaya_core_store.specs.Tables.{table_of, word_at};
ghost use Rattle.papaya_core_timeline.specs.Content.{map_in};
ghost use Rattle.papaya_seq.specs.ComputeRuns.{IsComputedFast, IsOperated, TakesAt};
ghost use Rattle.papaya_seq.specs.Computes.{ComputesBy, Says, Takes};
ghost use Rattle.papaya_seq.specs.Computing.{IsComputed, IsKept, Replies};
ghost use Rattle.papaya_seq.specs.MadeAlone.{IsComputedAlone};
ghost use Rattle.papaya_seq.specs.Searches.{IsRootHit};
ghost use Rattle.papaya_seq.specs.Writes.{slot_of};
ghost use Rattle.papaya_seq.specs.declared.search.ProbeHit.{ProbeHit};

use crate::chunk::copy_for_call;
use crate::removal::take_out;
use crate::resizing::copies_from;
use crate::search::{ProbeHit, search_root};
use crate::seq::HashMap;
use crate::writing::write;
use papaya_call::answers::{Listed, Operation};
use papaya_call::ask::{Answer as CallAnswer, Ask as CallAsk, OpKind};
use papaya_call::call::{Reply, Task};
use papaya_call::chain::ask::{Answer, Ask};
use papaya_call::chain::machine::Machine;
use papaya_call::remove::Removal;
use papaya_call::write::Write;
use papaya_core_store::pairs::{Part, Running};
use papaya_core_store::store::Store;
use papaya_words::refused::Refused;
use papaya_words::word::{Kind, Word};
use papaya_words_keys::results::Computed;
use std::alloc::Global;
use std::hash::{BuildHasher, Hash};

/// Returns `None`, which borrows the store like an entry, to call a closure without an entry.
#[inline(always)]
fn no_pair<K: Hash + Eq, V, S: BuildHasher>(_store: &Store<K, V, S>) -> Option<(&K, &V)>
    ensures { result ≡ None }
{
    None
}

/// Returns the result of the closure, called with this.
#[inline(always)]
fn decide<K, V, T, F: FnOnce(Option<(&K, &V)>) -> Operation<V, T>>(
    shown: Option<(&K, &V)>,
    f: F,
) -> Operation<V, T>
    requires { F.pre f shown }
    ensures { F.post f shown.entry result }
{
    f(shown)
}

/// Calls the closure, which was not called yet, with the entry or without one. Keeps its result.
fn call_closure<K, V: Drop, T: Drop, F: FnOnce(Option<(&K, &V)>) -> Operation<V, T>>(
    shown: Option<(&K, &V)>,
    closure: &mut Option<F>,
    value: &mut Option<Part<V>>,
    aborted: &mut Option<T>,
) -> CallAnswer
    requires { (f : F) × (closure.old ≡ Some f) × F.pre f shown }
    ensures { (f : F) × (operation : Operation V T) × (closure.old ≡ Some f) × (closure.new ≡ None)
        × F.post f shown.entry operation × IsKept operation result value.old value.new aborted.old
        aborted.new }
{
    let Some(f) = closure.take() else {
        unreachable!()
    };
    CallAnswer::Op(match f(shown) {
        Operation::Insert(made) => {
            *value = Some(Part::Own(made));
            OpKind::Insert
        }
        Operation::Remove => OpKind::Remove,
        Operation::Abort(with) => {
            *aborted = Some(with);
            OpKind::Abort(0)
        }
    })
}

/// Returns the result of a compute: the machine's reply, with the closure's abort value.
#[inline(always)]
fn computed<T: Drop>(reply: Reply, aborted: Option<T>) -> Result<Computed<u64, T>, Refused>
    requires { Replies reply aborted }
    ensures { IsComputed reply aborted result }
{
    match (reply, aborted) {
        (Reply::Inserted(pair), _) => Ok(Computed::Inserted(pair)),
        (Reply::Replaced { old, new }, _) => Ok(Computed::Updated { old, new }),
        (Reply::Removed(pair), _) => Ok(Computed::Removed(pair)),
        (Reply::Aborted(_), Some(with)) => Ok(Computed::Aborted(with)),
        (Reply::Refused(refused), _) => Err(refused),
        _ => unreachable!(),
    }
}

/// Performs the closure's result at the place of this word's pair, or of no pair.
#[inline(always)]
fn operate<K: Hash + Eq + Drop, V: Drop, S: BuildHasher, T: Drop>(
    store: &mut Store<K, V, S>,
    alloc: Global,
    key: K,
    hash: u64,
    at: Write,
    operation: Operation<V, T>,
) -> Result<Computed<u64, T>, Refused>
    requires stands { word_at store.old.words (slot_of at.place) ≡ at.old }
    requires pair { at.old ≢ 0 → IsSome (pair_of store.old (number_of at.old)) }
    ensures { IsOperated store.old hash at key operation result store.new }
{
    match operation {
        Operation::Insert(value) => {
            let (reply, _) = write(store, alloc, key, value, hash, at);
            computed(reply, None)
        }
        Operation::Remove if at.old == 0 => Err(Refused::RemoveNothing),
        Operation::Remove => {
            let Write { place, old: word } = at;
            let removal = Removal { place, word };
            take_out(store, removal);
            Ok(Computed::Removed(removal.pair()))
        }
        Operation::Abort(with) => Ok(Computed::Aborted(with)),
    }
}

/// Runs a compute at once. Returns key and closure if there is no root, if the root has no place
/// for the key, or if the key's pair is being moved.
#[inline(always)]
fn compute_fast<
    K: Hash + Eq + Drop,
    V: Drop,
    S: BuildHasher,
    T: Drop,
    F: FnOnce(Option<(&K, &V)>) -> Operation<V, T>,
>(
    store: &mut Store<K, V, S>,
    alloc: Global,
    key: K,
    f: F,
    hash: u64,
) -> Result<(Option<u64>, Result<Computed<u64, T>, Refused>), (K, F)>
    requires sized { (n : ℕ) (t : _) → table_of store.old.words.tables n ≡ Some t
        → IsSize (length t.slots) t.limit }
    requires bare { IsBare (λ at. word_at store.old.words at) }
    requires takes { (turn : _) → IsRootHit (K.eq key) store.old hash turn
        → TakesAt (F.pre f) store.old turn }
    ensures ok { IfOk result (λ done. IsComputedFast K.eq
        (hash_of K.hash_input S.build_hasher S.Hasher.write S.Hasher.finish) key (Says (F.post f))
        hash store.old done store.new) }
    ensures err { IfErr result (λ back. (back ≡ (key, f)) × (store.new ≡ store.old)) }
{
    match search_root(store, &key, hash) {
        Some(ProbeHit::Empty(place)) => {
            let operation = decide(no_pair(store), f);
            let at = Write { place, old: 0 };
            Ok((None, operate(store, alloc, key, hash, at, operation)))
        }
        Some(ProbeHit::Here(place, word)) if Word(word).kind() == Kind::Live => {
            let pair = Word(word).pair();
            let operation = decide(Some(store.stored_entry(pair)), f);
            let at = Write { place, old: word };
            Ok((Some(pair), operate(store, alloc, key, hash, at, operation)))
        }
        _ => Err((key, f)),
    }
}

impl<K: Hash + Eq + Drop, V: Drop, S: BuildHasher> HashMap<K, V, S> {
    /// Runs a compute. Returns the number of the pair with which its closure was called, if any,
    /// and its result. Most computes end with the root's search, and run no machine.
    #[inline]
    pub(crate) fn compute_by<T: Drop, F: FnOnce(Option<(&K, &V)>) -> Operation<V, T>>(
        &mut self,
        key: K,
        f: F,
    ) -> (Option<u64>, Result<Computed<u64, T>, Refused>)
        requires { Takes (F.pre f) (map_in K.eq self.old.store key) }
        ensures shown { IfOk result.1 (λ _. result.0 ≡ option_map (λ p. p.number)
            (map_in K.eq self.old.store key)) }
        ensures computes { ComputesBy K.eq key (λ p. p.number) (Says (F.post f)) self.old result.1
            self.new }
        ensures alone { IsComputedAlone K.eq
            (hash_of K.hash_input S.build_hasher S.Hasher.write S.Hasher.finish) self.old key
            result.1 self.new }
    {
        // A call that takes a number for its pair runs the machine.
        if self.mode.limit.is_some() {
            return self.compute_slow(key, f);
        }
        let hash = self.store.hash(&key);
        match compute_fast(&mut self.store, self.alloc, key, f, hash) {
            Ok(done) => done,
            Err((key, f)) => self.compute_slow(key, f),
        }
    }

    /// Runs a compute by the machine, step by step.
    #[inline(never)]
    fn compute_slow<T: Drop, F: FnOnce(Option<(&K, &V)>) -> Operation<V, T>>(
        &mut self,
        key: K,
        f: F,
    ) -> (Option<u64>, Result<Computed<u64, T>, Refused>)
        requires { Takes (F.pre f) (map_in K.eq self.old.store key) }
        ensures shown { IfOk result.1 (λ _. result.0 ≡ option_map (λ p. p.number)
            (map_in K.eq self.old.store key)) }
        ensures computes { ComputesBy K.eq key (λ p. p.number) (Says (F.post f)) self.old result.1
            self.new }
        ensures alone { IsComputedAlone K.eq
            (hash_of K.hash_input S.build_hasher S.Hasher.write S.Hasher.finish) self.old key
            result.1 self.new }
    {
        let hash = self.store.hash(&key);
        let number = copies_from(&self.store);
        let mut running: Running<K, V, Listed<V>> = Running {
            machine: Machine::new(
                Task::Compute,
                hash,
                self.mode.resize,
                self.initial,
                number,
                self.mode.limit,
            ),
            key: Part::Own(key),
            value: None,
            answers: None,
        };
        let mut closure = Some(f);
        let mut shown = None;
        let mut aborted = None;
        loop {
            let ask = running.machine.ask();
            let answer = match ask {
                Ask::Call(CallAsk::ShowNone) => {
                    let entry = no_pair(&self.store);
                    Answer::Call(call_closure(
                        entry,
                        &mut closure,
                        &mut running.value,
                        &mut aborted,
                    ))
                }
                Ask::Call(CallAsk::ShowPair(pair)) => {
                    shown = Some(pair);
                    let entry = self.store.pair(pair);
                    Answer::Call(call_closure(
                        entry,
                        &mut closure,
                        &mut running.value,
                        &mut aborted,
                    ))
                }
                Ask::Call(CallAsk::Done(reply)) => return (shown, computed(reply, aborted)),
                _ => self
                    .store
                    .perform_ask(self.alloc, 0, &mut running, ask, false),
            };
            running.machine.answer(answer);
            copy_for_call(&mut self.store, &mut running.machine);
        }
    }
}
