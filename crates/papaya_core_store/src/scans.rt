//! Performs the asks of a machine that scans a table.
ghost use Rattle.std.specs.Prelude.{◌≡◌, ℤ, ◌⊎◌, ◌++◌, ◌∷◌, [], None, IfErr, OnOk};
ghost use Rattle.papaya_words.specs.Counter.{added};
ghost use Rattle.papaya_words_keys.specs.Hashes.{hash_of};
ghost use Rattle.papaya_core_store.specs.Scans.{Gives, PerformsScan, CallsClosure};

use crate::store::Store;
use papaya_call::answers::Answers;
use papaya_call::ask::Answer as CallAnswer;
use papaya_call::chain::ask::{Answer, ScanAsk};
use papaya_call::chain::scanner::Scanner;
use papaya_words::refused::Refused;
use std::alloc::Global;
use std::hash::{BuildHasher, Hash};
use std::marker::Model;

/// A call that scans a table, under way.
#[derive(Drop)]
pub struct Scanning<A> {
    pub scanner: Scanner,
    /// The closure's results that are yet to come.
    pub answers: Option<A>,
    /// The numbers of the pairs that it passed to the caller, in order.
    pub given: Numbers,
}

/// Numbers of pairs, in the order in which they came. Contracts see them as a list.
pub struct Numbers {
    listed: Vec<u64>,
}

impl Model for Numbers {
    ghost use Rattle.std.specs.Prelude.{List, ℕ};

    ghost Value = { List ℕ };

    ghost view = { λ n. n.listed.items };
}

impl Drop for Numbers {
    fn drop(self) {
        let Self { listed: _ } = self;
    }
}

impl Numbers {
    /// Creates an empty list.
    pub fn new(alloc: Global) -> Numbers
        ensures { result ≡ [] }
    {
        Numbers {
            listed: Vec::new(alloc),
        }
    }

    /// Adds a number. Fails with `Refused::Memory` if memory runs out.
    fn push(&mut self, n: u64) -> Result<(), Refused>
        ensures ok { OnOk result (self.new ≡ self.old ++ n ∷ []) }
        ensures err { IfErr result (λ e. (e ≡ Refused.Memory) × (self.new ≡ self.old)) }
    {
        match self.listed.push(n) {
            Ok(()) => Ok(()),
            Err(_) => Err(Refused::Memory),
        }
    }

    /// Returns the numbers.
    pub fn into_vec(self) -> Vec<u64>
        ensures { result.items ≡ self }
    {
        let Self { listed } = self;
        listed
    }
}

impl<A> Scanning<A> {
    /// Calls the closure with pair `n`, and returns whether the pair stays.
    fn call_closure<K: Hash + Eq, V, S: BuildHasher>(
        &mut self,
        store: &Store<K, V, S>,
        n: u64,
    ) -> CallAnswer
    where
        A: Answers<K, V>,
        ensures { CallsClosure (record { op = A.op_gives; yes = A.yes_gives }) n store.now self.old result
            self.new }
    {
        let Some(answers) = self.answers.as_mut() else {
            return CallAnswer::Ok;
        };
        match store.pair(n) {
            Some((key, value)) => CallAnswer::Yes(answers.yes(key, value)),
            None => CallAnswer::Ok,
        }
    }

    /// Passes pair `n` to the caller, or refuses if memory for one more number runs out.
    fn give(&mut self, n: u64) -> CallAnswer
        ensures { Gives n self.old result self.new }
    {
        match self.given.push(n) {
            Ok(()) => CallAnswer::Ok,
            Err(refused) => CallAnswer::Refused(refused),
        }
    }
}

/// Performs one ask of this caller's machine. Asks for the copy of everything are performed as
/// those of a copier are.
pub fn perform_scan<K: Hash + Eq + Drop, V: Drop, S: BuildHasher, A: Answers<K, V>>(
    store: &mut Store<K, V, S>,
    alloc: Global,
    caller: usize,
    scanning: &mut Scanning<A>,
    ask: ScanAsk,
    refuse: bool,
) -> Answer
    ensures scanner { scanning.new.scanner ≡ scanning.old.scanner }
    ensures performs { PerformsScan K.eq (record { op = A.op_gives; yes = A.yes_gives })
        (hash_of K.hash_input S.build_hasher S.Hasher.write S.Hasher.finish) refuse ask store.old
        scanning.old result store.new scanning.new }
    ensures shard { (by : ℤ) → ask ≡ ScanAsk.AddToShard by
        → store.new.count ≡ added store.old.count caller by }
{
    match ask {
        ScanAsk::Copy(ask) => store.perform_copy(alloc, ask, refuse),
        ScanAsk::Show(n) => Answer::Call(scanning.call_closure(store, n)),
        ScanAsk::Given(n) => Answer::Call(scanning.give(n)),
        ScanAsk::AddToShard(by) => {
            store.add_to_shard(caller, by);
            Answer::Call(CallAnswer::Ok)
        }
    }
}
