//! Insertions: at once if possible, and otherwise by their machine, answered by the store.
ghost use Rattle.std.specs.Prelude.{◌≡◌, ℕ, false, Some, None};
ghost use Rattle.papaya_words.specs.declared.refused.Refused.{Refused};
ghost use Rattle.papaya_words_keys.specs.Hashes.{hash_of};
ghost use Rattle.papaya_core_timeline.specs.Content.{map_in};
ghost use Rattle.papaya_core_timeline.specs.Solo.{IsAnswered, IsNewIn};
ghost use Rattle.papaya_seq.specs.Drives.{IsLedTo, led_state, value_left};
ghost use Rattle.papaya_seq.specs.MadeAlone.{IsMadeAlone};
ghost use Rattle.papaya_seq.specs.Map.{IsTryCause, IsWriteCauseAt, KeepsAndGrows, PushesOne, insertion};

use crate::chunk::copy_for_call;
use crate::resizing::copies_from;
use crate::seq::HashMap;
use crate::writing::insert_fast;
use papaya_call::answers::Listed;
use papaya_call::ask::Ask as CallAsk;
use papaya_call::call::{Reply, Task};
use papaya_call::chain::ask::Ask;
use papaya_call::chain::machine::Machine;
use papaya_call::machine::State;
use papaya_call::need::Need;
use papaya_core_store::pairs::{Part, Running};
use std::hash::{BuildHasher, Hash};

/// Returns the value that was passed to a call and that the call has not stored.
#[inline(always)]
pub(crate) fn value_left<K: Drop, V, A: Drop>(running: Running<K, V, A>) -> Option<V>
    ensures { result ≡ value_left running.value }
{
    let Running { value, .. } = running;
    match value {
        Some(Part::Own(value)) => Some(value),
        _ => None,
    }
}

/// Returns the state in which an insertion continues: it needs room after the table of this number,
/// or begins at the root if the number is 0.
fn led(full: u64) -> State
    ensures { result ≡ led_state full }
{
    if full == 0 {
        return State::AtRoot;
    }
    State::Growing(Need::Room(full))
}

impl<K: Hash + Eq + Drop, V: Drop, S: BuildHasher> HashMap<K, V, S> {
    /// Inserts a pair. Returns the machine's reply, and the value if it was not stored. Most
    /// insertions end with the root's search, and run no machine.
    #[inline]
    pub(crate) fn insert_by(&mut self, key: K, value: V, replace: bool) -> (Reply, Option<V>)
        ensures answers { IsAnswered K.eq (insertion replace key value) (map_in K.eq self.old.store)
            result.0 (map_in K.eq self.new.store) }
        ensures fresh { IsNewIn self.old.store result.0 }
        ensures cause { (refused : Refused) → result.0 ≡ Reply.Refused refused
            → IsWriteCauseAt self.old (map_in K.eq self.old.store key) refused self.new }
        ensures absent { replace ≡ false → (refused : Refused) → result.0 ≡ Reply.Refused refused
            → IsTryCause self.old (map_in K.eq self.old.store key) refused self.new }
        ensures left { (n : ℕ) → result.0 ≡ Reply.Occupied n → result.1 ≡ Some value }
        ensures alone { IsMadeAlone K.eq
            (hash_of K.hash_input S.build_hasher S.Hasher.write S.Hasher.finish) self.old
            (insertion replace key value) result.0 self.new }
        ensures keeps { KeepsAndGrows self.old self.new }
        ensures stores { PushesOne self.old.store self.new.store }
    {
        // A call that takes a number for its pair runs the machine.
        if self.mode.limit.is_some() {
            return self.insert_slow(key, value, replace, 0);
        }
        let hash = self.store.hash(&key);
        match insert_fast(&mut self.store, self.alloc, key, value, hash, replace) {
            Ok(done) => done,
            Err((key, value, full)) => self.insert_slow(key, value, replace, full),
        }
    }

    /// Inserts a pair by the machine, step by step, after the search of a full root if there was
    /// one.
    #[inline(never)]
    fn insert_slow(&mut self, key: K, value: V, replace: bool, full: u64) -> (Reply, Option<V>)
        requires { IsLedTo (K.eq key) self.old.store
            (hash_of K.hash_input S.build_hasher S.Hasher.write S.Hasher.finish
            self.old.store.hasher key) replace (led_state full) }
        ensures answers { IsAnswered K.eq (insertion replace key value) (map_in K.eq self.old.store)
            result.0 (map_in K.eq self.new.store) }
        ensures fresh { IsNewIn self.old.store result.0 }
        ensures cause { (refused : Refused) → result.0 ≡ Reply.Refused refused
            → IsWriteCauseAt self.old (map_in K.eq self.old.store key) refused self.new }
        ensures absent { replace ≡ false → (refused : Refused) → result.0 ≡ Reply.Refused refused
            → IsTryCause self.old (map_in K.eq self.old.store key) refused self.new }
        ensures left { (n : ℕ) → result.0 ≡ Reply.Occupied n → result.1 ≡ Some value }
        ensures alone { IsMadeAlone K.eq
            (hash_of K.hash_input S.build_hasher S.Hasher.write S.Hasher.finish) self.old
            (insertion replace key value) result.0 self.new }
        ensures keeps { KeepsAndGrows self.old self.new }
        ensures stores { PushesOne self.old.store self.new.store }
    {
        let hash = self.store.hash(&key);
        let number = copies_from(&self.store);
        let mut machine = Machine::new(
            Task::Insert { replace },
            hash,
            self.mode.resize,
            self.initial,
            number,
            self.mode.limit,
        );
        machine.call.state = led(full);
        let mut running: Running<K, V, Listed<V>> = Running {
            machine,
            key: Part::Own(key),
            value: Some(Part::Own(value)),
            answers: None,
        };
        loop {
            let ask = running.machine.ask();
            if let Ask::Call(CallAsk::Done(reply)) = ask {
                return (reply, value_left(running));
            }
            let answer = self
                .store
                .perform_ask(self.alloc, 0, &mut running, ask, false);
            running.machine.answer(answer);
            copy_for_call(&mut self.store, &mut running.machine);
        }
    }
}
