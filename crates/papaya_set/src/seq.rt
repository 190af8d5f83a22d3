//! The set for one caller.
ghost use Rattle.std.specs.Prelude.{◌≡◌, ◌≢◌, ◌↔◌, ℕ, ◌≤◌, IsTrue, true, Some, Ok, Err, IfErr, IfOk, IsOk};
ghost use Rattle.std.specs.Prelude.{OnOk, [], MatchBool, MatchOption, length, option_map, is_some};
ghost use Rattle.papaya_words.specs.declared.limits.TheConstants.{DEFAULT_CHUNK};
ghost use Rattle.papaya_call.specs.Machine.{started};
ghost use Rattle.papaya_call.specs.declared.call.Task.TheVariants.{Get};
ghost use Rattle.papaya_words_law.specs.Content.{AreApart};
ghost use Rattle.papaya_core_timeline.specs.Content.{content};
ghost use Rattle.papaya_core_timeline.specs.New.{IsNew, IsNewLimited};
ghost use Rattle.papaya_words_keys.specs.Hashes.{hash_of};
ghost use Rattle.papaya_words_keys.specs.Sizes.{IsAllowed, IsSizeRefusal, IsTooMuch};
ghost use Rattle.papaya_seq.specs.Entries.{IsPut};
ghost use Rattle.papaya_seq.specs.Looks.{LooksUp};
ghost use Rattle.papaya_seq.specs.MadeAlone.{IsDoneAlone, IsRemovalAlone};
ghost use Rattle.papaya_seq.specs.Map.{HasNone, Holds, Keeps, KeepsSlots, PushesOne, Unchanged};
ghost use Rattle.papaya_seq.specs.Map.{core_of, next_of, slots_of};
ghost use Rattle.papaya_seq.specs.Resizes.{HasRoomAlready, HasRoomFor, IsCopyCause, IsReserveCause};
ghost use Rattle.papaya_seq.specs.Resizes.{pairs_with};
ghost use Rattle.papaya_set.specs.Sets.{AreKept, HaveSameKeys, IsTaken, key_in};

use papaya_call::call::Call;
use papaya_seq::seq::HashMap;
use papaya_words::refused::Refused;
use papaya_words::resize_mode::ResizeMode;
use papaya_words_keys::guard::Equivalent;
use std::alloc::Global;
use std::hash::{BuildHasher, BuildHasherDefault, FoldHasher, Hash};
use std::marker::Model;

/// A hash set for one caller: changes take `&mut self`. It ports `papaya::HashSet` as
/// [`papaya_seq::seq::HashMap`] ports the map.
///
/// Contracts see it as the map of its keys to unit values, so its clauses are the map's. The
/// arena keeps removed keys, and keys that were inserted while an equal one was stored, until
/// [`HashSet::reclaim`] or until the set is dropped.
pub struct HashSet<K: Hash + Eq, S: BuildHasher = BuildHasherDefault<FoldHasher>> {
    pub(crate) map: HashMap<K, (), S>,
}

impl<K: Hash + Eq, S: BuildHasher> Model for HashSet<K, S> {
    ghost use Rattle.papaya_seq.specs.Map.{MapState};

    ghost Value = { MapState K (Unit {0}) S };

    ghost view = { λ s. s.map };
}

impl<K: Hash + Eq + Drop, S: BuildHasher + Drop> Drop for HashSet<K, S> {
    fn drop(self) {
        let Self { map: _ } = self;
    }
}

impl<K: Hash + Eq + Drop, S: BuildHasher + Drop> HashSet<K, S> {
    /// Creates a set from all its settings.
    ///
    /// # Errors
    ///
    /// Fails with `Refused::ZeroChunk`, `Refused::Capacity` or `Refused::Memory`, as
    /// [`HashMap::with_parts`] does.
    pub fn with_parts(
        alloc: Global,
        mode: ResizeMode,
        capacity: usize,
        shards: usize,
        hasher: S,
        limit: Option<u64>,
    ) -> Result<HashSet<K, S>, Refused>
        ensures ok { IfOk result (λ set. IsAllowed mode capacity shards
            × IsNewLimited {A = Unit {0}} mode capacity shards hasher limit (core_of set)) }
        ensures empty { IfOk result (λ set. content K.eq set.store ≡ []) }
        ensures err { IfErr result (λ e. IsSizeRefusal mode capacity shards e) }
    {
        Ok(HashSet {
            map: HashMap::with_parts(alloc, mode, capacity, shards, hasher, limit)?,
        })
    }

    /// Creates a set for `capacity` keys with this hasher: `with_capacity_and_hasher` of 0.2.5.
    ///
    /// # Errors
    ///
    /// Fails with `Refused::Capacity` if the first table would be longer than
    /// [`papaya_words::limits::MAX_TABLE_LEN`] slots, and with `Refused::Memory` if an allocation
    /// fails.
    pub fn with_capacity_and_hasher(
        alloc: Global,
        capacity: usize,
        hasher: S,
    ) -> Result<HashSet<K, S>, Refused>
        ensures ok { IfOk result (λ set. IsNew {A = Unit {0}} (ResizeMode.Incremental DEFAULT_CHUNK)
            capacity 1 hasher (core_of set)) }
        ensures empty { IfOk result (λ set. content K.eq set.store ≡ []) }
        ensures err { IfErr result (λ e. IsSizeRefusal (ResizeMode.Incremental DEFAULT_CHUNK)
            capacity 1
            e) }
    {
        Ok(HashSet {
            map: HashMap::with_capacity_and_hasher(alloc, capacity, hasher)?,
        })
    }

    /// Creates a set with this hasher: `with_hasher` of 0.2.5. The first change makes a table.
    ///
    /// # Errors
    ///
    /// Fails with `Refused::Memory` if an allocation fails.
    pub fn with_hasher(alloc: Global, hasher: S) -> Result<HashSet<K, S>, Refused>
        ensures ok { IfOk result (λ set. IsNew {A = Unit {0}}
            (ResizeMode.Incremental DEFAULT_CHUNK) 0 1 hasher (core_of set)) }
        ensures empty { IfOk result (λ set. content K.eq set.store ≡ []) }
        ensures err { IfErr result (λ e. e ≡ Refused.Memory) }
    {
        Ok(HashSet {
            map: HashMap::with_hasher(alloc, hasher)?,
        })
    }
}

impl<K: Hash + Eq + Drop> HashSet<K, BuildHasherDefault<FoldHasher>> {
    /// Creates an empty set: `new` of 0.2.5. Its first change allocates the first table, of 32
    /// slots. The hasher has a fixed seed, where that of 0.2.5 has a random one. If attackers pick
    /// the keys, pass a `RandomState` to [`HashSet::with_hasher`].
    ///
    /// # Errors
    ///
    /// Fails with `Refused::Memory` if an allocation fails.
    pub fn new(alloc: Global) -> Result<HashSet<K, BuildHasherDefault<FoldHasher>>, Refused>
        ensures new { IfOk result (λ set. IsNew {A = Unit {0}}
            (ResizeMode.Incremental DEFAULT_CHUNK) 0 1 set.store.hasher (core_of set)) }
        ensures empty { IfOk result (λ set. (content K.eq set.store ≡ [])
            × (slots_of set.store ≡ 0)) }
        ensures err { IfErr result (λ e. e ≡ Refused.Memory) }
    {
        Ok(HashSet {
            map: HashMap::new(alloc)?,
        })
    }

    /// Creates a set for `capacity` keys: `with_capacity` of 0.2.5.
    ///
    /// # Errors
    ///
    /// Fails with `Refused::Capacity` if the first table would be longer than
    /// [`papaya_words::limits::MAX_TABLE_LEN`] slots, and with `Refused::Memory` if an allocation
    /// fails.
    pub fn with_capacity(
        alloc: Global,
        capacity: usize,
    ) -> Result<HashSet<K, BuildHasherDefault<FoldHasher>>, Refused>
        ensures new { IfOk result (λ set. IsNew {A = Unit {0}}
            (ResizeMode.Incremental DEFAULT_CHUNK) capacity 1 set.store.hasher (core_of set)) }
        ensures empty { IfOk result (λ set. content K.eq set.store ≡ []) }
        ensures err { IfErr result (λ e. IsSizeRefusal (ResizeMode.Incremental DEFAULT_CHUNK)
            capacity 1
            e) }
    {
        Ok(HashSet {
            map: HashMap::with_capacity(alloc, capacity)?,
        })
    }
}

impl<K: Hash + Eq + Drop, S: BuildHasher + Default + Drop> HashSet<K, S> {
    /// Creates an empty set with a default hasher, as [`HashSet::with_hasher`] does: the trait
    /// `Default` of 0.2.5.
    ///
    /// # Errors
    ///
    /// Fails with `Refused::Memory` if an allocation fails.
    pub fn default(alloc: Global) -> Result<HashSet<K, S>, Refused>
        ensures new { IfOk result (λ set. IsNew {A = Unit {0}}
            (ResizeMode.Incremental DEFAULT_CHUNK) 0 1 set.store.hasher (core_of set)) }
        ensures empty { IfOk result (λ set. (content K.eq set.store ≡ [])
            × (slots_of set.store ≡ 0)) }
        ensures hasher { IfOk result (λ set. S.is_default set.store.hasher) }
        ensures err { IfErr result (λ e. e ≡ Refused.Memory) }
    {
        HashSet::with_hasher(alloc, S::default())
    }
}

impl<K: Hash + Eq, S: BuildHasher> HashSet<K, S> {
    /// Returns the map of the set's keys to unit values. It has calls that the set lacks, such as
    /// `slots` and `resizing`.
    pub fn map(&self) -> &HashMap<K, (), S>
        ensures { result.now ≡ self.now }
    {
        &self.map
    }

    /// Returns the number of keys in the set.
    ///
    /// The contract also states that the arena of a set with a limit has no more keys than the
    /// limit.
    pub fn len(&self) -> usize
        ensures count { result ≡ length (content K.eq self.now.store) }
        ensures apart { AreApart K.eq (λ p. p.key) (content K.eq self.now.store) }
        ensures limit { (n : ℕ) → self.now.mode.limit ≡ Some n
            → length self.now.store.pairs ≤ n }
    {
        self.map.len()
    }

    /// Returns whether the set has no keys.
    pub fn is_empty(&self) -> bool
        ensures { MatchBool result (content K.eq self.now.store ≡ [])
            (content K.eq self.now.store ≢ []) }
    {
        self.map.is_empty()
    }

    /// Returns whether the key is in the set: `contains` of 0.2.5. It never allocates or fails.
    pub fn contains<Q: Equivalent<K>>(&self, key: &Q) -> bool
        ensures map { (k : _) → Q.matches key.now k ≡ true
            → result ≡ is_some (key_in K.eq self.now.store k) }
        ensures answer { MatchBool result
            ((p : _) × Holds K.eq (Q.matches key.now) self.now.store p)
            (HasNone K.eq (Q.matches key.now) self.now.store) }
        ensures machine { (found : _) × LooksUp K.eq (Q.matches key.now) self.now.store
            (started Get (hash_of Q.hash_input S.build_hasher S.Hasher.write S.Hasher.finish
            self.now.store.hasher key.now) self.now.mode.resize self.now.initial
            self.now.mode.limit) found
            × (result ≡ is_some found) }
    {
        self.map.contains_key(key)
    }

    /// Returns the stored key that is equal to this one: `get` of 0.2.5. It never allocates or
    /// fails.
    pub fn get<Q: Equivalent<K>>(&self, key: &Q) -> Option<&K>
        ensures map { (k : _) → Q.matches key.now k ≡ true
            → option_map (λ stored. stored.now) result ≡ key_in K.eq self.now.store k }
        ensures answer { MatchOption result (HasNone K.eq (Q.matches key.now) self.now.store)
            (λ stored. (p : _) × Holds K.eq (Q.matches key.now) self.now.store p
            × (p.key ≡ stored.now)) }
        ensures machine { (found : _) × LooksUp K.eq (Q.matches key.now) self.now.store
            (started Get (hash_of Q.hash_input S.build_hasher S.Hasher.write S.Hasher.finish
            self.now.store.hasher key.now) self.now.mode.resize self.now.initial
            self.now.mode.limit) found
            × (option_map (λ stored. stored.now) result ≡ option_map (λ p. p.key) found) }
    {
        match self.map.get_key_value(key) {
            Some((stored, _)) => Some(stored),
            None => None,
        }
    }

    /// Returns whether both sets have the same keys: `PartialEq` of 0.2.5. It never allocates or
    /// fails.
    pub fn eq(&self, other: &HashSet<K, S>) -> bool
        ensures { IsTrue result ↔ (HaveSameKeys K.eq self.now.store other.now.store) }
    {
        self.map.eq(&other.map)
    }
}

impl<K: Hash + Eq + Drop, S: BuildHasher> HashSet<K, S> {
    /// Inserts a key, and returns whether it was absent: `insert` of 0.2.5. As the documentation of
    /// 0.2.5 says, an equal key that is stored stays; its code stores the new one.
    ///
    /// # Errors
    ///
    /// Fails with `Refused::Memory`, `Refused::Capacity` or `Refused::Limit`, as
    /// [`HashMap::insert`] does. The set is then as it was, and the key is dropped, at once or with
    /// the set.
    pub fn insert(&mut self, key: K) -> Result<bool, Refused>
        ensures puts { IsPut K.eq key tt self.old result self.new }
        ensures alone { IsDoneAlone K.eq
            (hash_of K.hash_input S.build_hasher S.Hasher.write S.Hasher.finish) self.old
            (Call.Insert key tt) result self.new }
        ensures stores { PushesOne self.old.store self.new.store }
    {
        self.map.put(key, ())
    }

    /// Removes a key, and returns whether it was present: `remove` of 0.2.5.
    ///
    /// # Errors
    ///
    /// Fails with `Refused::Memory` or `Refused::Capacity`, as [`HashMap::remove`] does: only while
    /// keys are being moved to a next table.
    pub fn remove<Q: Equivalent<K>>(&mut self, key: &Q) -> Result<bool, Refused>
        ensures taken { IsTaken K.eq (Q.matches key.now) self.old result self.new }
        ensures alone { IsRemovalAlone K.eq
            (hash_of K.hash_input S.build_hasher S.Hasher.write S.Hasher.finish)
            (Q.matches key.now) self.old result self.new }
        ensures never { next_of self.old.store ≡ 0 → IsOk result }
    {
        let was = match self.map.remove(key) {
            Ok(removed) => removed.is_some(),
            Err(refused) => return Err(refused),
        };
        Ok(was)
    }

    /// Reserves room for `additional` more keys: `reserve` of 0.2.5. No key of the set changes.
    ///
    /// # Errors
    ///
    /// Fails with `Refused::Memory` or `Refused::Capacity`, as [`HashMap::reserve`] does.
    pub fn reserve(&mut self, additional: usize) -> Result<(), Refused>
        ensures ok { OnOk result (HasRoomFor K.eq self.old.store additional self.new.store) }
        ensures err { IfErr result (λ e. IsReserveCause K.eq self.old additional e self.new) }
        ensures too_much { IsTooMuch (pairs_with K.eq self.old.store additional)
            → (result ≡ Err Refused.Capacity) × (self.new ≡ self.old) }
        ensures there { HasRoomAlready K.eq self.old.store additional
            → (result ≡ Ok tt) × (self.new ≡ self.old) }
        ensures map { Unchanged K.eq self.old.store self.new.store }
        ensures alone { IsDoneAlone K.eq
            (hash_of K.hash_input S.build_hasher S.Hasher.write S.Hasher.finish) self.old
            (Call.Reserve additional) result self.new }
        ensures words { self.new.store ≡ record self.old.store { words = self.new.store.words } }
        ensures keeps { Keeps self.old self.new }
    {
        self.map.reserve(additional)
    }

    /// Removes all keys: `clear` of 0.2.5. The root keeps its slots.
    ///
    /// # Errors
    ///
    /// Fails with `Refused::Memory` or `Refused::Capacity`, as [`HashMap::clear`] does, and then
    /// has removed no key.
    pub fn clear(&mut self) -> Result<(), Refused>
        ensures ok { OnOk result (content K.eq self.new.store ≡ []) }
        ensures last { OnOk result (next_of self.new.store ≡ 0) }
        ensures err { IfErr result (λ e. IsCopyCause self.old e self.new
            × Unchanged K.eq self.old.store self.new.store) }
        ensures never { next_of self.old.store ≡ 0 → IsOk result }
        ensures slots { KeepsSlots self.old self.new }
        ensures keeps { Keeps self.old self.new }
    {
        self.map.clear()
    }

    /// Removes the keys for which the closure returns `false`: `retain` of 0.2.5. The closure is
    /// called once for each key.
    ///
    /// # Errors
    ///
    /// Fails with `Refused::Memory` or `Refused::Capacity`, as [`HashMap::retain`] does. Then it
    /// has not called the closure and has removed no key.
    pub fn retain<F: FnMut(&K) -> bool>(&mut self, mut agrees: F) -> Result<(), Refused>
        requires { F.IsAlwaysCallable agrees }
        ensures ok { OnOk result (AreKept F.FnMut K.eq agrees self.old.store self.new.store) }
        ensures err { IfErr result (λ e. IsCopyCause self.old e self.new
            × Unchanged K.eq self.old.store self.new.store) }
        ensures last { OnOk result (next_of self.new.store ≡ 0) }
        ensures never { next_of self.old.store ≡ 0 → IsOk result }
        ensures slots { KeepsSlots self.old self.new }
        ensures keeps { Keeps self.old self.new }
    {
        self.map.retain(move |key, _| agrees(key))
    }
}
