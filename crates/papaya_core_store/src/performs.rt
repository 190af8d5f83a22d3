//! What the machine of one call asks.
ghost use Rattle.std.specs.Prelude.{◌≡◌, ℤ, ◌⊎◌, length, None};
ghost use Rattle.papaya_words.specs.Counter.{added};
ghost use Rattle.papaya_call.specs.Answers.{op_kind};
ghost use Rattle.papaya_core_store.specs.Pairs.{key_in};
ghost use Rattle.papaya_core_store.specs.Store.{pair_of};
ghost use Rattle.papaya_core_store.specs.Performs.{Performs, IsMake, Judges, DecidesPair, DecidesNone};
ghost use Rattle.papaya_core_store.specs.Performs.{ShowsPair, value_answered, Stays, Refuses, PushesOf};
ghost use Rattle.papaya_core_store.specs.Performs.{PushesOwn, HasNoPair, HasNoPairOf, same};

use crate::pairs::{Part, Running};
use crate::store::Store;
use papaya_call::answers::{Answers, Operation};
use papaya_call::ask::{Answer, Ask, OpKind};
use papaya_call::call::Task;
use papaya_words::limits::MAX_LOG_LEN;
use papaya_words::refused::Refused;
use std::alloc::Global;
use std::hash::{BuildHasher, Hash};

/// Keeps the value of an insertion that a closure returned, until a pair is made of it.
fn keep_value<V: Drop>(operation: Operation<V, u64>, value: &mut Option<Part<V>>) -> Answer
    ensures answer { result ≡ Answer.Op (op_kind operation) }
    ensures value { value.new ≡ value_answered operation value.old }
{
    match operation {
        Operation::Insert(answered) => {
            *value = Some(Part::Own(answered));
            Answer::Op(OpKind::Insert)
        }
        Operation::Remove => Answer::Op(OpKind::Remove),
        Operation::Abort(with) => Answer::Op(OpKind::Abort(with)),
    }
}

impl<K: Hash + Eq, V, S: BuildHasher> Store<K, V, S> {
    /// Returns whether pair `n` has a key that equals the call's.
    #[inline(always)]
    fn same_key(&self, n: u64, key: &Part<K>) -> bool
        ensures { result ≡ same K.eq (key_in self.now.pairs key.now) (pair_of self.now n) }
    {
        let found = match self.pair(n) {
            Some((found, _)) => found,
            None => return false,
        };
        match key {
            Part::Own(key) => *key == *found,
            Part::Logged(first) => match self.key_brought(*first) {
                Some(key) => *key == *found,
                None => false,
            },
        }
    }

    /// Returns `None`, which borrows the store like a pair, to call a closure without a pair.
    fn no_pair(&self) -> Option<(&K, &V)>
        ensures { result ≡ None }
    {
        None
    }
}

impl<K: Hash + Eq + Drop, V: Drop, S: BuildHasher> Store<K, V, S> {
    /// Stores a pair of the call's key and its value. Each of them is stored once.
    #[inline(always)]
    fn make_pair<A>(&mut self, running: &mut Running<K, V, A>) -> Answer
        ensures machine { running.new.machine ≡ running.old.machine }
        ensures makes { (Refuses MAX_LOG_LEN (length self.old.pairs) result
            × Stays self.old running.old self.new running.new)
            ⊎ (HasNoPair result running.old × Stays self.old running.old self.new running.new)
            ⊎ PushesOwn result self.old running.old self.new running.new }
    {
        let Some(mut value) = running.value.take() else {
            return Answer::Ok;
        };
        let logged = self.store_pair(&mut running.key, &mut value);
        running.value = Some(value);
        match logged {
            Ok(n) => Answer::Made(n),
            Err(refused) => Answer::Refused(refused),
        }
    }

    /// Stores a pair of the key of pair `of` and the call's value. The pair names the one that
    /// brought that key, so that a lookup follows one number however often the entry was replaced.
    #[inline(always)]
    fn make_pair_of<A>(&mut self, of: u64, running: &mut Running<K, V, A>) -> Answer
        ensures machine { running.new.machine ≡ running.old.machine }
        ensures makes { (Refuses MAX_LOG_LEN (length self.old.pairs) result
            × Stays self.old running.old self.new running.new)
            ⊎ (HasNoPairOf of result self.old running.old
            × Stays self.old running.old self.new running.new)
            ⊎ PushesOf of result self.old running.old self.new running.new }
    {
        let Some(first) = self.key_from(of) else {
            return Answer::Ok;
        };
        let Some(mut value) = running.value.take() else {
            return Answer::Ok;
        };
        let logged = self.store_pair(&mut Part::Logged(first), &mut value);
        running.value = Some(value);
        match logged {
            Ok(n) => Answer::Made(n),
            Err(refused) => Answer::Refused(refused),
        }
    }

    /// Calls the closure of a removal with pair `n`.
    fn judge<A: Answers<K, V>>(&self, n: u64, running: &mut Running<K, V, A>) -> Answer
        ensures machine { running.new.machine ≡ running.old.machine }
        ensures judges { Judges (record { op = A.op_gives; yes = A.yes_gives }) n self.now
            running.old result self.now running.new }
    {
        let Some(answers) = running.answers.as_mut() else {
            return Answer::Ok;
        };
        match self.pair(n) {
            Some((key, value)) => Answer::Yes(answers.yes(key, value)),
            None => Answer::Ok,
        }
    }

    /// Calls the closure of a compute with pair `n`.
    fn decide<A: Answers<K, V>>(&self, n: u64, running: &mut Running<K, V, A>) -> Answer
        ensures machine { running.new.machine ≡ running.old.machine }
        ensures decides { DecidesPair (record { op = A.op_gives; yes = A.yes_gives }) n self.now
            running.old result self.now running.new }
    {
        let Some(answers) = running.answers.as_mut() else {
            return Answer::Ok;
        };
        match self.pair(n) {
            Some(pair) => {
                let operation = answers.op(Some(pair));
                keep_value(operation, &mut running.value)
            }
            None => Answer::Ok,
        }
    }

    /// Calls the closure of a compute without a pair, because its key is absent.
    fn decide_none<A: Answers<K, V>>(&self, running: &mut Running<K, V, A>) -> Answer
        ensures machine { running.new.machine ≡ running.old.machine }
        ensures decides { DecidesNone (record { op = A.op_gives; yes = A.yes_gives }) self.now
            running.old result self.now running.new }
    {
        match running.answers.as_mut() {
            Some(answers) => {
                let operation = answers.op(self.no_pair());
                keep_value(operation, &mut running.value)
            }
            None => Answer::Ok,
        }
    }

    /// Calls the closure of a call with pair `n`.
    fn call_closure<A: Answers<K, V>>(&self, n: u64, running: &mut Running<K, V, A>) -> Answer
        ensures machine { running.new.machine ≡ running.old.machine }
        ensures shows { ShowsPair running.old.machine.call.task
            (record { op = A.op_gives; yes = A.yes_gives }) n self.now running.old result self.now
            running.new }
    {
        match running.machine.call.task {
            Task::RemoveIf => self.judge(n, running),
            Task::Compute => self.decide(n, running),
            Task::Get | Task::Insert { .. } => Answer::Ok,
        }
    }

    /// Performs the asks that make something, or refuses them with `Refused::Memory` if `refuse`.
    #[inline(always)]
    fn make<A: Answers<K, V>>(
        &mut self,
        alloc: Global,
        running: &mut Running<K, V, A>,
        ask: Ask,
        refuse: bool,
    ) -> Answer
        requires { IsMake ask }
        ensures machine { running.new.machine ≡ running.old.machine }
        ensures performs { Performs K.eq (record { op = A.op_gives; yes = A.yes_gives }) refuse ask
            self.old running.old result self.new running.new }
    {
        if refuse {
            return Answer::Refused(Refused::Memory);
        }
        match ask {
            // The call's key and value are stored with its first pair.
            Ask::MakeKey | Ask::MakeValue => Answer::Made(0),
            Ask::MakePair => self.make_pair(running),
            Ask::MakePairOf(n) => self.make_pair_of(n, running),
            Ask::MakeTable { len, limit, chunks } => self.make_table(alloc, len, limit, chunks),
            _ => unreachable!(),
        }
    }

    /// Performs one ask of this caller's machine.
    #[inline(always)]
    pub fn perform<A: Answers<K, V>>(
        &mut self,
        alloc: Global,
        caller: usize,
        running: &mut Running<K, V, A>,
        ask: Ask,
        refuse: bool,
    ) -> Answer
        ensures machine { running.new.machine ≡ running.old.machine }
        ensures performs { Performs K.eq (record { op = A.op_gives; yes = A.yes_gives }) refuse ask
            self.old running.old result self.new running.new }
        ensures shard { (by : ℤ) → ask ≡ Ask.AddToShard by
            → self.new.count ≡ added self.old.count caller by }
    {
        match ask {
            Ask::Load(at) => Answer::Word(self.word(at)),
            Ask::Exchange(at, old, new) => self.exchange(at, old, new),
            Ask::LoadHint(n, i) => Answer::Word(self.hint(n, i)),
            Ask::WriteHint(n, i, hint) => {
                self.write_hint(n, i, hint);
                Answer::Ok
            }
            Ask::SameKey(n) => Answer::Yes(self.same_key(n, &running.key)),
            Ask::ShowNone => self.decide_none(running),
            Ask::ShowPair(n) => self.call_closure(n, running),
            Ask::SizeOf(n) => self.size_of(n),
            Ask::MakeKey
            | Ask::MakeValue
            | Ask::MakePair
            | Ask::MakePairOf(_)
            | Ask::MakeTable { .. } => self.make(alloc, running, ask, refuse),
            Ask::AddToShard(by) => {
                self.add_to_shard(caller, by);
                Answer::Ok
            }
            Ask::Done(_) => Answer::Ok,
        }
    }
}
