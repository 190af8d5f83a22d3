//! Lookups, which read the words of the tables. The machine of a lookup exists in the proof alone.
ghost use Rattle.std.specs.Prelude.{◌≡◌, option_map};
ghost use Rattle.papaya_call.specs.Machine.{started};
ghost use Rattle.papaya_call.specs.declared.call.Task.TheVariants.{Get};
ghost use Rattle.papaya_words_law.specs.Content.{AreApart};
ghost use Rattle.papaya_core_timeline.specs.Content.{content};
ghost use Rattle.papaya_core_store.specs.Store.{pair_of};
ghost use Rattle.papaya_words_keys.specs.Hashes.{hash_of};
ghost use Rattle.papaya_seq.specs.Looks.{LooksUp, matches_in};
ghost use Rattle.papaya_seq.specs.Searches.{IsRootHit};
ghost use Rattle.papaya_seq.specs.declared.search.ProbeHit.TheVariants.{Over};

use crate::search::{ProbeHit, search, search_root};
use crate::seq::HashMap;
use papaya_call::ask::At;
use papaya_call::search::Place;
use papaya_core_store::store::Store;
use papaya_words::resize_mode::ResizeMode;
use papaya_words::word::Word;
use papaya_words_keys::guard::Equivalent;
use std::hash::{BuildHasher, Hash};

/// Returns whether the key of this pair matches.
#[inline(always)]
pub(crate) fn matches<K: Hash + Eq, V, S: BuildHasher, Q: Equivalent<K>>(
    store: &Store<K, V, S>,
    pair: u64,
    key: &Q,
) -> bool
    ensures { result ≡ matches_in (Q.matches key.now) (pair_of store.now pair) }
{
    match store.pair(pair) {
        Some((stored, _)) => key.equivalent(stored),
        None => false,
    }
}

impl<K: Hash + Eq, V, S: BuildHasher> HashMap<K, V, S> {
    /// Returns the number of a key's pair. Most lookups end in the root.
    #[inline(always)]
    pub(crate) fn look_up<Q: Equivalent<K>>(&self, key: &Q) -> Option<u64>
        ensures found { (found : _) × LooksUp K.eq (Q.matches key.now) self.now.store
            (started Get (hash_of Q.hash_input S.build_hasher S.Hasher.write S.Hasher.finish
            self.now.store.hasher key.now) self.now.mode.resize self.now.initial
            self.now.mode.limit) found
            × (result ≡ option_map (λ p. p.number) found) }
        ensures apart { AreApart K.eq (λ p. p.key) (content K.eq self.now.store) }
    {
        let hash = self.store.hash(key);
        let turn = search_root(&self.store, key, hash)?;
        match turn {
            ProbeHit::Here(_, word) => Some(Word(word).pair()),
            ProbeHit::Over(root) => self.look_up_far(key, hash, root),
            _ => None,
        }
    }

    /// Returns the number of a key's pair, whichever table after the root has it. The root's search
    /// has passed the whole root. It is a call of its own, so that the search of the root keeps its
    /// registers.
    #[cold]
    #[inline(never)]
    fn look_up_far<Q: Equivalent<K>>(&self, key: &Q, hash: u64, root: u64) -> Option<u64>
        requires hash { hash ≡ hash_of Q.hash_input S.build_hasher S.Hasher.write S.Hasher.finish
            self.now.store.hasher key.now }
        requires led { IsRootHit (Q.matches key.now) self.now.store hash (Over root) }
        ensures { (found : _) × LooksUp K.eq (Q.matches key.now) self.now.store
            (started Get (hash_of Q.hash_input S.build_hasher S.Hasher.write S.Hasher.finish
            self.now.store.hasher key.now) self.now.mode.resize self.now.initial
            self.now.mode.limit) found
            × (result ≡ option_map (λ p. p.number) found) }
    {
        let ResizeMode::Incremental(_) = self.mode.resize else {
            return None;
        };
        let mut number = self.store.word(At::Next(root));
        while let Some(table) = self.store.table(number) {
            let first = Place::first(hash, number, table.len(), table.limit());
            match search(&self.store, key, hash, first) {
                ProbeHit::Here(_, word) => return Some(Word(word).pair()),
                ProbeHit::Over(passed) => number = self.store.word(At::Next(passed)),
                _ => return None,
            }
        }
        None
    }
}
