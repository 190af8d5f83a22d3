//! Maps of clones: copies of a map, and a map rebuilt without its removed entries.
ghost use Rattle.std.specs.Prelude.{◌≡◌, ◌≢◌, ◌⊎◌, ◌≤◌, ℕ, true, Some, None, IfOk, IfErr, OnOk, length, map};
ghost use Rattle.std.specs.Int.{IsPowerOfTwo};
ghost use Rattle.papaya_words.specs.Probe.{IsEntriesFor};
ghost use Rattle.papaya_words.specs.declared.limits.TheConstants.{DEFAULT_CHUNK};
ghost use Rattle.papaya_core_timeline.specs.Content.{content};
ghost use Rattle.papaya_core_timeline.specs.Core.{unlimited};
ghost use Rattle.papaya_seq.specs.Clones.{HasFreeParts, HasParts, IsCloneRefusal, IsCopied, IsCopyCut};
ghost use Rattle.papaya_seq.specs.Lengths.{IsAskedFor};
ghost use Rattle.papaya_seq.specs.Clones.{IsRebuildRefusal, IsRebuilt};
ghost use Rattle.papaya_seq.specs.Map.{Keeps, Unchanged, entry_of};
ghost use Rattle.papaya_words_keys.specs.Hashes.{hash_of};
ghost use Rattle.papaya_seq.specs.PutAlone.{AreClonedAlone, IsClonedAlone, IsMadeRoomy, IsRebuiltAlone};
ghost use Rattle.papaya_seq.specs.Resizes.{IsReserveCause};

use crate::seq::HashMap;
use papaya_call::ask::At;
use papaya_words::limits::LEAST_TABLE_LEN;
use papaya_words::refused::Refused;
use papaya_words::resize_mode::ResizeMode;
use std::alloc::Global;
use std::hash::{BuildHasher, Hash};

/// Returns for how many entries a first table must be made so that it has `initial` slots. Returns
/// 0 if the least table has that many.
#[tactic(auto, using(crate::proofs::Rebuilt::asks_for))]
fn pairs_for(initial: usize) -> usize
    requires { IsPowerOfTwo initial }
    ensures { IsAskedFor initial result }
{
    if initial <= LEAST_TABLE_LEN {
        return 0;
    }
    initial / 4 * 3
}

impl<K: Hash + Eq + Clone + Drop, V: Clone + Drop, S: BuildHasher> HashMap<K, V, S> {
    /// Inserts clones of another map's entries, in the order of an iteration.
    fn copy_from(&mut self, from: &HashMap<K, V, S>) -> Result<(), Refused>
        ensures ok { OnOk result (IsCopied K.eq K.is_clone V.is_clone self.old
            (map entry_of (content K.eq from.now.store)) self.new) }
        ensures alone { OnOk result (AreClonedAlone K.eq
            (hash_of K.hash_input S.build_hasher S.Hasher.write S.Hasher.finish) K.is_clone
            V.is_clone self.old (map entry_of (content K.eq from.now.store)) self.new) }
        ensures err { IfErr result (λ e. (e ≡ Refused.Memory)
            ⊎ IsCopyCut K.eq K.is_clone V.is_clone from.now.store self.old e self.new) }
    {
        for (key, value) in from.iter() {
            let Ok(own_key) = key.clone() else {
                return Err(Refused::Memory);
            };
            let Ok(own_value) = value.clone() else {
                return Err(Refused::Memory);
            };
            match self.put(own_key, own_value) {
                Ok(_) => {}
                Err(refused) => return Err(refused),
            }
        }
        Ok(())
    }
}

impl<K: Hash + Eq + Clone + Drop, V: Clone + Drop, S: BuildHasher + Clone + Drop> HashMap<K, V, S> {
    /// Returns a map of clones: what `Clone` makes in 0.2.5. It is made for as many entries as this
    /// map has, with [`ResizeMode::default`], no limit, one shard and a clone of the hasher.
    ///
    /// A clone of a key must be equal to it.
    ///
    /// # Errors
    ///
    /// Fails with `Refused::Memory` if a clone fails, and otherwise as
    /// [`HashMap::with_capacity_and_hasher`] does, or [`HashMap::insert`] of a clone.
    pub fn try_clone(&self, alloc: Global) -> Result<HashMap<K, V, S>, Refused>
        requires { (k l : K) → K.is_clone k l → K.eq k l ≡ true }
        ensures clones { IfOk result (λ made. IsRebuilt K.eq K.is_clone V.is_clone S.is_clone
            self.now made) }
        ensures parts { IfOk result (λ made.
            (made.mode ≡ unlimited (ResizeMode.Incremental DEFAULT_CHUNK))
            × IsEntriesFor (length (content K.eq self.now.store)) made.initial
            × (made.store.count.shards ≡ 1)) }
        ensures alone { IfOk result (IsClonedAlone K.eq
            (hash_of K.hash_input S.build_hasher S.Hasher.write S.Hasher.finish) K.is_clone
            V.is_clone self.now) }
        ensures err { IfErr result (λ e. IsCloneRefusal K.eq K.is_clone V.is_clone self.now.store
            e) }
        ensures below { IfErr result (λ e. e ≢ Refused.Limit) }
    {
        let Ok(hasher) = self.store.hasher().clone() else {
            return Err(Refused::Memory);
        };
        let mut made = HashMap::with_capacity_and_hasher(alloc, self.len(), hasher)?;
        match made.copy_from(self) {
            Ok(()) => Ok(made),
            Err(refused) => Err(refused),
        }
    }

    /// Gives a map without a limit this limit, with `made` numbers taken.
    fn number(&mut self, limit: Option<u64>, made: u64)
        requires free { self.old.mode.limit ≡ None }
        requires most { (n : ℕ) → limit ≡ Some n → made ≤ n }
        requires each { length self.old.store.pairs ≤ made }
        ensures store { self.new.store ≡ record self.old.store {
          words = record self.old.store.words { made = made };
        } }
        ensures mode { self.new.mode ≡ record self.old.mode { limit = limit } }
        ensures initial { self.new.initial ≡ self.old.initial }
    {
        let taken = self.store.word(At::Made);
        let _ = self.store.exchange(At::Made, taken, made);
        self.mode.limit = limit;
    }

    /// Makes room for this many entries, but no table for none if the map was built without a
    /// capacity.
    #[tactic(auto, using(crate::proofs::Filled::keeps_itself, crate::proofs::PutAlone::made_roomy))]
    fn make_room(&mut self, pairs: usize) -> Result<(), Refused>
        ensures alone { OnOk result (IsMadeRoomy K.eq
            (hash_of K.hash_input S.build_hasher S.Hasher.write S.Hasher.finish) self.old pairs
            self.new) }
        ensures err { IfErr result (λ e. IsReserveCause K.eq self.old pairs e self.new) }
        ensures map { Unchanged K.eq self.old.store self.new.store }
        ensures words { self.new.store ≡ record self.old.store { words = self.new.store.words } }
        ensures keeps { Keeps self.old self.new }
    {
        if pairs == 0 && self.initial <= 1 {
            return Ok(());
        }
        self.reserve(pairs)
    }

    /// Returns a map of clones with the settings of this one. It gets its limit once it has its
    /// entries, so no call that fills it takes a number.
    fn rebuilt(&self) -> Result<HashMap<K, V, S>, Refused>
        requires { (k l : K) → K.is_clone k l → K.eq k l ≡ true }
        ensures clones { IfOk result (λ made. IsRebuilt K.eq K.is_clone V.is_clone S.is_clone
            self.now made) }
        ensures parts { IfOk result (λ made. HasParts self.now made) }
        ensures numbers { IfOk result (λ made. made.store.words.made
            ≡ length (content K.eq self.now.store)) }
        ensures alone { IfOk result (IsRebuiltAlone K.eq
            (hash_of K.hash_input S.build_hasher S.Hasher.write S.Hasher.finish) K.is_clone
            V.is_clone self.now) }
        ensures err { IfErr result (λ e. IsRebuildRefusal K.eq K.is_clone V.is_clone self.now e) }
        ensures below { IfErr result (λ e. e ≢ Refused.Limit) }
    {
        let Ok(hasher) = self.store.hasher().clone() else {
            return Err(Refused::Memory);
        };
        let shards = self.store.shards();
        let capacity = pairs_for(self.initial);
        let mut fresh = HashMap::with_parts(
            self.alloc,
            self.mode.resize,
            capacity,
            shards,
            hasher,
            None,
        )?;
        fresh.initial = self.initial;
        let pairs = self.len();
        match fresh.make_room(pairs) {
            Ok(()) => {}
            Err(refused) => return Err(refused),
        }
        match fresh.copy_from(self) {
            Ok(()) => {
                fresh.number(self.mode.limit, pairs as u64);
                Ok(fresh)
            }
            Err(refused) => Err(refused),
        }
    }

    /// Rebuilds the map from clones of its entries, and frees the memory of those that were
    /// replaced or removed. Entries get new numbers: afterwards only as many numbers are taken as
    /// there are entries. Mode, limit, initial capacity and number of shards stay, and there is
    /// room for the entries. A map built without a capacity has no table afterwards if it has no
    /// entries. 0.2.5 frees entries while the map is in use, and has no such call.
    ///
    /// A clone of a key must be equal to the key. Until the new map is filled, there must be memory
    /// for both maps.
    ///
    /// # Errors
    ///
    /// Fails with `Refused::Memory` or `Refused::Capacity`, as [`HashMap::try_clone`] does, never
    /// for the limit, and then leaves the map as it was.
    pub fn reclaim(&mut self) -> Result<(), Refused>
        requires { (k l : K) → K.is_clone k l → K.eq k l ≡ true }
        ensures clones { OnOk result (IsRebuilt K.eq K.is_clone V.is_clone S.is_clone self.old
            self.new) }
        ensures parts { OnOk result (HasParts self.old self.new) }
        ensures numbers { OnOk result (self.new.store.words.made
            ≡ length (content K.eq self.old.store)) }
        ensures alone { OnOk result (IsRebuiltAlone K.eq
            (hash_of K.hash_input S.build_hasher S.Hasher.write S.Hasher.finish) K.is_clone
            V.is_clone self.old self.new) }
        ensures err { IfErr result (λ e. (self.new ≡ self.old)
            × IsRebuildRefusal K.eq K.is_clone V.is_clone self.old e) }
        ensures below { IfErr result (λ e. e ≢ Refused.Limit) }
    {
        match self.rebuilt() {
            Ok(fresh) => {
                *self = fresh;
                Ok(())
            }
            Err(refused) => Err(refused),
        }
    }
}
