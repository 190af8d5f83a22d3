//! Performs the asks of a machine that resizes.
ghost use Rattle.std.specs.Prelude.{◌≡◌};
ghost use Rattle.papaya_words_keys.specs.Hashes.{hash_of};
ghost use Rattle.papaya_core_store.specs.CopyAsks.{IsHash, PerformsCopy, hash_in, same_keys};
ghost use Rattle.papaya_core_store.specs.Store.{pair_of};

use crate::store::Store;
use papaya_call::ask::Answer as CallAnswer;
use papaya_call::chain::ask::Answer;
use papaya_call::copy_ask::CopyAsk;
use papaya_words::refused::Refused;
use std::alloc::Global;
use std::hash::{BuildHasher, Hash, Hasher};

impl<K: Hash + Eq + Drop, V: Drop, S: BuildHasher> Store<K, V, S> {
    /// Returns whether the pairs of these numbers have equal keys.
    fn same_pair(&self, first: u64, second: u64) -> bool
        ensures { result ≡ same_keys K.eq (pair_of self.now first) (pair_of self.now second) }
    {
        match (self.pair(first), self.pair(second)) {
            (Some((key, _)), Some((other, _))) => *key == *other,
            _ => false,
        }
    }

    /// Returns the hash of the key of the pair with this number.
    fn hash_of_pair(&self, n: u64) -> Answer
        ensures value { result ≡ hash_in (hash_of K.hash_input S.build_hasher S.Hasher.write
            S.Hasher.finish self.now.hasher) (pair_of self.now n) }
        ensures fits { IsHash result }
    {
        match self.pair(n) {
            Some((key, _)) => Answer::Hash(self.hash(key)),
            None => Answer::Call(CallAnswer::Ok),
        }
    }

    /// Performs one ask of a copier.
    pub fn perform_copy(&mut self, alloc: Global, ask: CopyAsk, refuse: bool) -> Answer
        ensures { PerformsCopy K.eq (hash_of K.hash_input S.build_hasher S.Hasher.write
            S.Hasher.finish) refuse ask self.old result self.new }
    {
        match ask {
            CopyAsk::Load(at) => Answer::Call(CallAnswer::Word(self.word(at))),
            CopyAsk::Exchange(at, old, new) => Answer::Call(self.exchange(at, old, new)),
            CopyAsk::LoadHint(n, i) => Answer::Call(CallAnswer::Word(self.hint(n, i))),
            CopyAsk::WriteHint(n, i, hint) => {
                self.write_hint(n, i, hint);
                Answer::Call(CallAnswer::Ok)
            }
            CopyAsk::SizeOf(n) => Answer::Call(self.size_of(n)),
            CopyAsk::HashOf(n) => self.hash_of_pair(n),
            CopyAsk::SamePair(first, second) => {
                Answer::Call(CallAnswer::Yes(self.same_pair(first, second)))
            }
            CopyAsk::Count => Answer::Count(self.count()),
            CopyAsk::MakeTable { .. } if refuse => {
                Answer::Call(CallAnswer::Refused(Refused::Memory))
            }
            CopyAsk::MakeTable { len, limit, chunks } => {
                Answer::Call(self.make_table(alloc, len, limit, chunks))
            }
        }
    }
}
