//! Performs the asks of a machine over a chain of tables.
ghost use Rattle.std.specs.Prelude.{◌≡◌, ℤ};
ghost use Rattle.papaya_words.specs.Counter.{added};
ghost use Rattle.papaya_words_keys.specs.Hashes.{hash_of};
ghost use Rattle.papaya_core_store.specs.Asks.{PerformsAsk};

use crate::pairs::Running;
use crate::store::Store;
use papaya_call::answers::Answers;
use papaya_call::ask::Ask as CallAsk;
use papaya_call::chain::ask::{Answer, Ask};
use std::alloc::Global;
use std::hash::{BuildHasher, Hash};

impl<K: Hash + Eq + Drop, V: Drop, S: BuildHasher> Store<K, V, S> {
    /// Performs one ask of this caller's machine: of the call itself, or of the copy for which the
    /// call is set aside.
    #[inline]
    pub fn perform_ask<A: Answers<K, V>>(
        &mut self,
        alloc: Global,
        caller: usize,
        running: &mut Running<K, V, A>,
        ask: Ask,
        refuse: bool,
    ) -> Answer
        ensures machine { running.new.machine ≡ running.old.machine }
        ensures performs { PerformsAsk K.eq (record { op = A.op_gives; yes = A.yes_gives })
            (hash_of K.hash_input S.build_hasher S.Hasher.write S.Hasher.finish) refuse ask self.old
            running.old result self.new running.new }
        ensures shard { (by : ℤ) → ask ≡ Ask.Call (CallAsk.AddToShard by)
            → self.new.count ≡ added self.old.count caller by }
    {
        match ask {
            Ask::Call(ask) => Answer::Call(self.perform(alloc, caller, running, ask, refuse)),
            Ask::Copy(ask) => self.perform_copy(alloc, ask, refuse),
        }
    }
}
