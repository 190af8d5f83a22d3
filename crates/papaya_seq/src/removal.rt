//! Removals: their machine, answered by the words of the tables and by a closure.
ghost use Rattle.std.specs.Prelude.{◌≡◌, ℕ, Bool, IsSome, MatchOption, Some, length};
ghost use Rattle.papaya_words.specs.Word.{pair_of as number_of};
ghost use Rattle.papaya_call.specs.Search.{IsSize};
ghost use Rattle.papaya_core_store.specs.Tables.{table_of, word_at};
ghost use Rattle.papaya_seq.specs.Buries.{IsBuried, IsRemovedFast};
ghost use Rattle.papaya_words.specs.declared.refused.Refused.{Refused};
ghost use Rattle.papaya_core_store.specs.Store.{pair_of};
ghost use Rattle.papaya_words_keys.specs.Hashes.{hash_of};
ghost use Rattle.papaya_seq.specs.MadeAlone.{IsRemovalMade};
ghost use Rattle.papaya_seq.specs.Map.{KeepsRemoving};
ghost use Rattle.papaya_seq.specs.Resizes.{IsCopyCause};
ghost use Rattle.papaya_seq.specs.Removes.{IsCalledFor, IsRemovalAnswer, IsRemovalAsk};
ghost use Rattle.papaya_seq.specs.Removes.{IsRemovalBy, IsShown, Judges};
ghost use Rattle.papaya_seq.specs.Writes.{burying, slot_of};

use crate::chunk::copy_for_call;
use crate::lookup::matches;
use crate::resizing::copies_from;
use crate::search::{ProbeHit, search_root};
use crate::seq::HashMap;
use papaya_call::ask::{Answer as CallAnswer, Ask as CallAsk, At};
use papaya_call::call::{Reply, Task};
use papaya_call::chain::ask::{Answer, Ask};
use papaya_call::chain::machine::Machine;
use papaya_call::remove::Removal;
use papaya_core_store::store::Store;
use papaya_words::word::{Kind, Word};
use papaya_words_keys::guard::Equivalent;
use std::hash::{BuildHasher, Hash};

/// Calls the closure of a removal with a pair.
#[inline]
pub(crate) fn call_closure<K: Hash + Eq, V, S: BuildHasher, F: FnMut(&K, &V) -> bool>(
    store: &Store<K, V, S>,
    pair: u64,
    agrees: &mut F,
) -> CallAnswer
    requires { (k : _) (v : _) → F.pre agrees.old k v }
    ensures callable { F.IsAlwaysCallable agrees.old → F.IsAlwaysCallable agrees.new }
    ensures shown { IsShown F.FnMut (pair_of store.now pair) agrees.old result agrees.new }
{
    match store.pair(pair) {
        Some((key, value)) => CallAnswer::Yes(agrees(key, value)),
        None => CallAnswer::Ok,
    }
}

/// Performs an ask of a removal: by the words of the tables, and by its closure.
#[inline]
fn answer_removal<K: Hash + Eq, V, S: BuildHasher, Q: Equivalent<K>, F: FnMut(&K, &V) -> bool>(
    store: &mut Store<K, V, S>,
    ask: CallAsk,
    key: &Q,
    agrees: &mut F,
) -> CallAnswer
    requires callable { (n : ℕ) → ask ≡ CallAsk.ShowPair n
        → (k : _) (v : _) → F.pre agrees.old k v }
    requires asked { IsRemovalAsk ask }
    ensures answers { IsRemovalAnswer F.FnMut (Q.matches key.now) ask store.old agrees.old result
        store.new agrees.new }
{
    match ask {
        CallAsk::Load(at) => CallAnswer::Word(store.word(at)),
        CallAsk::Exchange(at, old, new) => store.exchange(at, old, new),
        CallAsk::LoadHint(table, slot) => CallAnswer::Word(store.hint(table, slot)),
        CallAsk::SameKey(pair) => CallAnswer::Yes(matches(store, pair, key)),
        CallAsk::ShowPair(pair) => call_closure(store, pair, agrees),
        CallAsk::SizeOf(table) => store.size_of(table),
        CallAsk::AddToShard(by) => {
            store.add_to_shard(0, by);
            CallAnswer::Ok
        }
        // A removal calls its closure only with a pair, makes nothing and writes no hint.
        CallAsk::WriteHint(..)
        | CallAsk::ShowNone
        | CallAsk::MakeKey
        | CallAsk::MakeValue
        | CallAsk::MakePair
        | CallAsk::MakePairOf(_)
        | CallAsk::MakeTable { .. }
        | CallAsk::Done(_) => unreachable!(),
    }
}

/// Deletes a pair, and counts it out.
#[inline(always)]
pub(crate) fn take_out<K: Hash + Eq, V, S: BuildHasher>(
    store: &mut Store<K, V, S>,
    removal: Removal,
)
    requires { word_at store.old.words (slot_of removal.place) ≡ removal.word }
    ensures { store.new ≡ burying store.old removal }
{
    let at = At::Slot(removal.place.table, removal.place.probe.i);
    let _ = store.exchange(at, removal.word, Word::buried(removal.pair()).0);
    store.add_to_shard(0, -1);
}

/// Calls the closure of a removal with the pair, and deletes the pair if the closure agrees.
#[inline(always)]
fn bury<K: Hash + Eq, V, S: BuildHasher, F: FnMut(&K, &V) -> bool>(
    store: &mut Store<K, V, S>,
    removal: Removal,
    agrees: &mut F,
) -> Reply
    requires callable { (k : _) (v : _) → F.pre agrees.old k v }
    requires stands { word_at store.old.words (slot_of removal.place) ≡ removal.word }
    requires logged { IsSome (pair_of store.old (number_of removal.word)) }
    ensures { (matches : K → Bool)
        → IsBuried F.FnMut matches removal store.old agrees.old
        result store.new agrees.new }
{
    let pair = removal.pair();
    match call_closure(store, pair, agrees) {
        CallAnswer::Yes(true) => {}
        CallAnswer::Yes(false) => return Reply::Kept(pair),
        _ => unreachable!(),
    }
    take_out(store, removal);
    Reply::Removed(pair)
}

/// Removes a key's pair at once. Does nothing if there is no root, if all places of the root are
/// filled, or if the pair is being moved.
#[inline(always)]
fn remove_fast<K: Hash + Eq, V, S: BuildHasher, Q: Equivalent<K>, F: FnMut(&K, &V) -> bool>(
    store: &mut Store<K, V, S>,
    key: &Q,
    hash: u64,
    agrees: &mut F,
) -> Option<Reply>
    requires callable { (k : _) (v : _) → F.pre agrees.old k v }
    requires sized { (n : ℕ) (t : _) → table_of store.old.words.tables n ≡ Some t
        → IsSize (length t.slots) t.limit }
    ensures { MatchOption result ((store.new ≡ store.old) × (agrees.new ≡ agrees.old))
        (λ reply. IsRemovedFast F.FnMut (Q.matches key.now) hash store.old agrees.old reply
        store.new agrees.new) }
{
    match search_root(store, key, hash) {
        Some(ProbeHit::Empty(_)) => Some(Reply::Absent),
        Some(ProbeHit::Here(place, word)) if Word(word).kind() == Kind::Live => {
            Some(bury(store, Removal { place, word }, agrees))
        }
        _ => None,
    }
}

impl<K: Hash + Eq + Drop, V: Drop, S: BuildHasher> HashMap<K, V, S> {
    /// Removes a key's pair if the closure agrees. Returns the machine's reply. Most removals end
    /// with the root's search, and run no machine. The closure is called with the pair, and is not
    /// called again.
    #[inline]
    pub(crate) fn remove_by<Q: Equivalent<K>, F: FnMut(&K, &V) -> bool>(
        &mut self,
        key: &Q,
        agrees: &mut F,
    ) -> Reply
        requires { (k : _) (v : _) → F.pre agrees.old k v }
        ensures whole { IsRemovalBy K.eq (Q.matches key.now) (Judges F.FnMut agrees.old)
            self.old.store result self.new.store }
        ensures called { IsCalledFor F.FnMut self.old.store result agrees.old agrees.new }
        ensures cause { (refused : Refused) → result ≡ Reply.Refused refused
            → IsCopyCause self.old refused self.new }
        ensures alone { IsRemovalMade K.eq
            (hash_of K.hash_input S.build_hasher S.Hasher.write S.Hasher.finish)
            (Q.matches key.now) self.old result self.new }
        ensures keeps { KeepsRemoving self.old self.new }
    {
        let hash = self.store.hash(key);
        match remove_fast(&mut self.store, key, hash, agrees) {
            Some(reply) => reply,
            None => self.remove_slow(key, agrees),
        }
    }

    /// Removes a key's pair by the machine, step by step.
    #[inline(never)]
    fn remove_slow<Q: Equivalent<K>, F: FnMut(&K, &V) -> bool>(
        &mut self,
        key: &Q,
        agrees: &mut F,
    ) -> Reply
        requires { (k : _) (v : _) → F.pre agrees.old k v }
        ensures whole { IsRemovalBy K.eq (Q.matches key.now) (Judges F.FnMut agrees.old)
            self.old.store result self.new.store }
        ensures called { IsCalledFor F.FnMut self.old.store result agrees.old agrees.new }
        ensures cause { (refused : Refused) → result ≡ Reply.Refused refused
            → IsCopyCause self.old refused self.new }
        ensures alone { IsRemovalMade K.eq
            (hash_of K.hash_input S.build_hasher S.Hasher.write S.Hasher.finish)
            (Q.matches key.now) self.old result self.new }
        ensures keeps { KeepsRemoving self.old self.new }
    {
        let hash = self.store.hash(key);
        let number = copies_from(&self.store);
        let mut machine = Machine::new(
            Task::RemoveIf,
            hash,
            self.mode.resize,
            self.initial,
            number,
            self.mode.limit,
        );
        loop {
            let answer = match machine.ask() {
                Ask::Call(ask) => match ask {
                    CallAsk::Done(reply) => return reply,
                    _ => Answer::Call(answer_removal(&mut self.store, ask, key, agrees)),
                },
                Ask::Copy(ask) => self.store.perform_copy(self.alloc, ask, false),
            };
            machine.answer(answer);
            copy_for_call(&mut self.store, &mut machine);
        }
    }
}
