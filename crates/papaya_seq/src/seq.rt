//! The map for one caller.
ghost use Rattle.std.specs.Prelude.{◌≡◌, ◌≢◌, ◌⊎◌, ℕ, ◌<◌, ◌≤◌, true, false, Some, None};
ghost use Rattle.std.specs.Prelude.{[], ◌∷◌, ◌++◌};
ghost use Rattle.std.specs.Prelude.{IfOk, IfErr, IsOk, IsSome, MatchOption, MatchResult, MatchBool, is_some};
ghost use Rattle.std.specs.Prelude.{length, option_map};
ghost use Rattle.std.specs.Borrow.{sem};
ghost use Rattle.papaya_words.specs.declared.limits.TheConstants.{DEFAULT_CHUNK};
ghost use Rattle.papaya_call.specs.Machine.{started};
ghost use Rattle.papaya_call.specs.declared.call.Task.TheVariants.{Get};
ghost use Rattle.papaya_words_law.specs.Content.{AreApart};
ghost use Rattle.papaya_core_timeline.specs.Content.{content, map_in};
ghost use Rattle.papaya_core_timeline.specs.New.{IsNew, IsNewLimited};
ghost use Rattle.papaya_core_timeline.specs.Outcomes.{reply_told};
ghost use Rattle.papaya_words_keys.specs.Sizes.{IsSizeRefusal};
ghost use Rattle.papaya_words_keys.specs.Sizes.{IsAllowed};
ghost use Rattle.papaya_core_store.specs.Store.{pair_of};
ghost use Rattle.papaya_words_keys.specs.Hashes.{hash_of};
ghost use Rattle.papaya_seq.specs.Answered.{entry_answered, judged_answered, old_answered, value_answered};
ghost use Rattle.papaya_seq.specs.Calls.{AreCalled, IsCalled, IsLeftAlone, IsListed};
ghost use Rattle.papaya_seq.specs.Computes.{tried_answered};
ghost use Rattle.papaya_seq.specs.Computing.{reply_of};
ghost use Rattle.papaya_seq.specs.Looks.{LooksUp};
ghost use Rattle.papaya_seq.specs.MadeAlone.{IsDoneAlone, IsRefusedAlone, IsRemovalAlone};
ghost use Rattle.papaya_seq.specs.Removes.{IsJudged, IsRemoved, Judges};
ghost use Rattle.papaya_seq.specs.Map.{HasNone, HasValue, Holds, IsInserted, IsMakeRefusal};
ghost use Rattle.papaya_seq.specs.Map.{IsStoreRefusal};
ghost use Rattle.papaya_seq.specs.Map.{IsResizing, IsTried, IsTriedInto, IsTryCause, core_of};
ghost use Rattle.papaya_seq.specs.Map.{deref_pair, entry_of, next_of, slots_of, value_of};

use papaya_call::answers::Answers;
use papaya_call::call::{Call, Reply};
use papaya_core_store::store::{Mode, Store};
use papaya_core_timeline::outcome::Outcome;
use papaya_words::refused::Refused;
use papaya_words::resize_mode::ResizeMode;
use papaya_words_keys::guard::Equivalent;
use papaya_words_keys::results::{Computed, NotInserted, OccupiedError};
use std::alloc::Global;
use std::hash::{BuildHasher, BuildHasherDefault, FoldHasher, Hash};
use std::marker::Model;

/// Returns the result of a compute as a reply.
fn replied(computed: Result<Computed<u64, u64>, Refused>) -> Reply
    ensures { result ≡ reply_of computed }
{
    match computed {
        Ok(Computed::Inserted(pair)) => Reply::Inserted(pair),
        Ok(Computed::Updated { old, new }) => Reply::Replaced { old, new },
        Ok(Computed::Removed(pair)) => Reply::Removed(pair),
        Ok(Computed::Aborted(with)) => Reply::Aborted(with),
        Err(refused) => Reply::Refused(refused),
    }
}

/// Returns the result of a call that resizes the map as a reply.
fn resized(done: Result<(), Refused>) -> Reply
    ensures { MatchResult done (λ _. result ≡ Reply.Done) (λ e. result ≡ Reply.Refused e) }
{
    match done {
        Ok(()) => Reply::Done,
        Err(refused) => Reply::Refused(refused),
    }
}

/// A hash map for one caller: changes take `&mut self`. It ports `papaya::HashMap` for code that
/// owns its map, and runs the same algorithm on plain words. It needs no guard and no atomics, and
/// results borrow the map.
///
/// A replaced or removed entry stays in the arena until [`HashMap::reclaim`], or until the map is
/// dropped. An entry of two `u64`s takes 24 bytes. The arena's length doubles, so an entry keeps 24
/// to 48 bytes of memory.
///
/// In the examples of its calls, `map` is an empty `HashMap<u64, u64>`.
///
/// Contracts see its words and its arena, which represent the finite map that `map_in` computes.
pub struct HashMap<K: Hash + Eq, V, S: BuildHasher = BuildHasherDefault<FoldHasher>> {
    pub(crate) alloc: Global,
    pub(crate) store: Store<K, V, S>,
    pub(crate) mode: Mode,
    pub(crate) initial: usize,
}

impl<K: Hash + Eq, V, S: BuildHasher> Model for HashMap<K, V, S> {
    ghost use Rattle.papaya_words_keys.specs.Hashes.{hash_of};
    ghost use Rattle.papaya_seq.specs.Map.{IsLawfulMap, MapState};

    ghost Value = { MapState K V S };

    ghost view = { λ m. record { store = m.store; mode = m.mode; initial = m.initial } };

    ghost invariant = { λ m. IsLawfulMap K.eq
        (hash_of K.hash_input S.build_hasher S.Hasher.write S.Hasher.finish m.store.hasher) m.store
        m.mode m.initial };
}

impl<K: Hash + Eq + Drop, V: Drop, S: BuildHasher + Drop> Drop for HashMap<K, V, S> {
    fn drop(self) {
        let Self {
            alloc: _,
            store: _,
            mode: _,
            initial: _,
        } = self;
    }
}

impl<K: Hash + Eq + Drop, V: Drop, S: BuildHasher + Drop> HashMap<K, V, S> {
    /// Creates a map from all its settings. The first table has room for `capacity` entries; with 0
    /// the first change makes it. `shards` is rounded up to a power of two. With a `limit` the map
    /// stores at most that many entries: a call that would store one more fails with
    /// `Refused::Limit`. If memory runs out after a call has taken a number for its entry, the
    /// number counts against the limit.
    ///
    /// # Errors
    ///
    /// Fails with `Refused::ZeroChunk` for chunks of no slots, and with `Refused::Memory` if memory
    /// runs out. Fails with `Refused::Capacity` for more than [`papaya_words::limits::MAX_SHARDS`]
    /// shards, or a table longer than [`papaya_words::limits::MAX_TABLE_LEN`] slots.
    pub fn with_parts(
        alloc: Global,
        mode: ResizeMode,
        capacity: usize,
        shards: usize,
        hasher: S,
        limit: Option<u64>,
    ) -> Result<HashMap<K, V, S>, Refused>
        ensures ok { IfOk result (λ map. IsAllowed mode capacity shards
            × IsNewLimited {A = Unit {0}} mode capacity shards hasher limit (core_of map)) }
        ensures empty { IfOk result (λ map. content K.eq map.store ≡ []) }
        ensures err { IfErr result (λ e. IsSizeRefusal mode capacity shards e) }
    {
        let (store, initial) = Store::with_parts(alloc, mode, capacity, shards, hasher)?;
        let resize = mode;
        Ok(HashMap {
            alloc,
            store,
            mode: Mode { resize, limit },
            initial,
        })
    }

    /// Creates an empty map with this hasher, whose first table has room for `capacity` entries:
    /// `with_capacity_and_hasher` of 0.2.5.
    ///
    /// # Errors
    ///
    /// Fails with `Refused::Capacity` for a table longer than
    /// [`papaya_words::limits::MAX_TABLE_LEN`] slots, and with `Refused::Memory` if memory runs
    /// out.
    pub fn with_capacity_and_hasher(
        alloc: Global,
        capacity: usize,
        hasher: S,
    ) -> Result<HashMap<K, V, S>, Refused>
        ensures ok { IfOk result (λ map. IsNew {A = Unit {0}} (ResizeMode.Incremental DEFAULT_CHUNK)
            capacity 1 hasher (core_of map)) }
        ensures empty { IfOk result (λ map. content K.eq map.store ≡ []) }
        ensures err { IfErr result (λ e. IsSizeRefusal (ResizeMode.Incremental DEFAULT_CHUNK)
            capacity 1
            e) }
    {
        HashMap::with_parts(alloc, ResizeMode::default(), capacity, 1, hasher, None)
    }

    /// Creates an empty map with this hasher: `with_hasher` of 0.2.5. Its first change allocates
    /// the first table, of 32 slots.
    ///
    /// # Errors
    ///
    /// Fails with `Refused::Memory` if memory runs out.
    pub fn with_hasher(alloc: Global, hasher: S) -> Result<HashMap<K, V, S>, Refused>
        ensures ok { IfOk result (λ map. IsNew {A = Unit {0}}
            (ResizeMode.Incremental DEFAULT_CHUNK) 0 1 hasher (core_of map)) }
        ensures empty { IfOk result (λ map. content K.eq map.store ≡ []) }
        ensures err { IfErr result (λ e. e ≡ Refused.Memory) }
    {
        HashMap::with_capacity_and_hasher(alloc, 0, hasher)
    }
}

impl<K: Hash + Eq + Drop, V: Drop> HashMap<K, V, BuildHasherDefault<FoldHasher>> {
    /// Creates an empty map: `new` of 0.2.5. Its first change allocates the first table, of 32
    /// slots. The hasher has a fixed seed, where that of 0.2.5 has a random one. If attackers pick
    /// the keys, pass a `RandomState` to [`HashMap::with_hasher`].
    ///
    /// # Errors
    ///
    /// Fails with `Refused::Memory` if memory runs out.
    pub fn new(alloc: Global) -> Result<HashMap<K, V, BuildHasherDefault<FoldHasher>>, Refused>
        ensures new { IfOk result (λ map. IsNew {A = Unit {0}}
            (ResizeMode.Incremental DEFAULT_CHUNK) 0 1 map.store.hasher (core_of map)) }
        ensures empty { IfOk result (λ map. (content K.eq map.store ≡ [])
            × (slots_of map.store ≡ 0)) }
        ensures err { IfErr result (λ e. e ≡ Refused.Memory) }
    {
        HashMap::with_hasher(alloc, BuildHasherDefault::new())
    }

    /// Creates an empty map whose first table has room for `capacity` entries: `with_capacity` of
    /// 0.2.5. The hasher has a fixed seed, where that of 0.2.5 has a random one. If attackers pick
    /// the keys, pass a `RandomState` to [`HashMap::with_capacity_and_hasher`].
    ///
    /// # Errors
    ///
    /// Fails with `Refused::Memory` or `Refused::Capacity`, as
    /// [`HashMap::with_capacity_and_hasher`] does.
    pub fn with_capacity(
        alloc: Global,
        capacity: usize,
    ) -> Result<HashMap<K, V, BuildHasherDefault<FoldHasher>>, Refused>
        ensures new { IfOk result (λ map. IsNew {A = Unit {0}}
            (ResizeMode.Incremental DEFAULT_CHUNK) capacity 1 map.store.hasher (core_of map)) }
        ensures empty { IfOk result (λ map. content K.eq map.store ≡ []) }
        ensures err { IfErr result (λ e. IsSizeRefusal (ResizeMode.Incremental DEFAULT_CHUNK)
            capacity 1
            e) }
    {
        HashMap::with_capacity_and_hasher(alloc, capacity, BuildHasherDefault::new())
    }
}

impl<K: Hash + Eq + Drop, V: Drop, S: BuildHasher + Default + Drop> HashMap<K, V, S> {
    /// Creates an empty map with a default hasher, as [`HashMap::with_hasher`] does: what the trait
    /// `Default` gives in 0.2.5.
    ///
    /// # Errors
    ///
    /// Fails with `Refused::Memory` if memory runs out.
    pub fn default(alloc: Global) -> Result<HashMap<K, V, S>, Refused>
        ensures new { IfOk result (λ map. IsNew {A = Unit {0}}
            (ResizeMode.Incremental DEFAULT_CHUNK) 0 1 map.store.hasher (core_of map)) }
        ensures empty { IfOk result (λ map. (content K.eq map.store ≡ [])
            × (slots_of map.store ≡ 0)) }
        ensures hasher { IfOk result (λ map. S.is_default map.store.hasher) }
        ensures err { IfErr result (λ e. e ≡ Refused.Memory) }
    {
        HashMap::with_hasher(alloc, S::default())
    }
}

impl<K: Hash + Eq, V, S: BuildHasher> HashMap<K, V, S> {
    /// Returns the number of entries: `len` of 0.2.5.
    ///
    /// The contract also states that the arena of a map with a limit has no more entries than the
    /// limit.
    pub fn len(&self) -> usize
        ensures count { result ≡ length (content K.eq self.now.store) }
        ensures apart { AreApart K.eq (λ p. p.key) (content K.eq self.now.store) }
        ensures limit { (n : ℕ) → self.now.mode.limit ≡ Some n
            → length self.now.store.pairs ≤ n }
    {
        self.store.count()
    }

    /// Returns whether the map has no entries: `is_empty` of 0.2.5.
    pub fn is_empty(&self) -> bool
        ensures { MatchBool result (content K.eq self.now.store ≡ [])
            (content K.eq self.now.store ≢ []) }
    {
        self.len() == 0
    }

    /// Returns how many entries the arena holds: those of the map, and those that were replaced or
    /// removed since the map was made or reclaimed. An entry of two `u64`s takes 24 bytes.
    pub fn stored(&self) -> usize
        ensures { result ≡ length self.now.store.pairs }
    {
        self.store.stored()
    }

    /// Returns the number of slots of the root table, or 0 if there is no table yet. It is at least
    /// the initial capacity.
    pub fn slots(&self) -> usize
        ensures slots { result ≡ slots_of self.now.store }
        ensures long { (slots_of self.now.store ≡ 0)
            ⊎ (self.now.initial ≤ slots_of self.now.store) }
    {
        self.store.root().map_or(0, |table| table.len())
    }

    /// Returns whether entries are being moved to a next table. If not, a removal allocates nothing
    /// and cannot fail.
    pub fn resizing(&self) -> bool
        ensures { MatchBool result (next_of self.now.store ≢ 0) (next_of self.now.store ≡ 0) }
    {
        self.store.root().map_or(0, |table| table.next()) != 0
    }

    /// Returns the key and the value of an entry by its number in the arena, also if the entry was
    /// replaced or removed.
    pub fn pair(&self, n: u64) -> Option<(&K, &V)>
        ensures { MatchOption result (pair_of self.now.store n ≡ None)
            (λ p. pair_of self.now.store n ≡ Some (record
            { number = n; key = p.0.now; value = p.1.now })) }
    {
        self.store.pair(n)
    }

    /// Returns the key's value, or `None` if the map has no entry of the key: `get` of 0.2.5. It
    /// allocates nothing and never fails.
    ///
    /// The contract also states that the result is what the machine of a lookup replies when each
    /// of its loads returns the word in the tables.
    ///
    /// # Examples
    ///
    /// ```
    /// map.insert(1, 10)?;
    /// let value = map.get(&1); // Some(&10)
    /// let absent = map.get(&2); // None
    /// ```
    #[inline(always)]
    pub fn get<Q: Equivalent<K>>(&self, key: &Q) -> Option<&V>
        ensures map { (k : _) → Q.matches key.now k ≡ true
            → option_map (λ v. v.now) result ≡ value_of (map_in K.eq self.now.store k) }
        ensures answer { MatchOption result (HasNone K.eq (Q.matches key.now) self.now.store)
            (λ v. (p : _) × Holds K.eq (Q.matches key.now) self.now.store p × (p.value ≡ v.now)) }
        ensures machine { (found : _) × LooksUp K.eq (Q.matches key.now) self.now.store
            (started Get (hash_of Q.hash_input S.build_hasher S.Hasher.write S.Hasher.finish
            self.now.store.hasher key.now) self.now.mode.resize self.now.initial
            self.now.mode.limit) found
            × (option_map (λ v. v.now) result ≡ value_of found) }
    {
        match self.look_up(key) {
            Some(pair) => Some(self.store.stored_value(pair)),
            None => None,
        }
    }

    /// Returns the stored key and its value, or `None` if the map has no entry of the key:
    /// `get_key_value` of 0.2.5. It allocates nothing and never fails.
    #[inline(always)]
    pub fn get_key_value<Q: Equivalent<K>>(&self, key: &Q) -> Option<(&K, &V)>
        ensures map { (k : _) → Q.matches key.now k ≡ true
            → option_map deref_pair result ≡ option_map entry_of (map_in K.eq self.now.store k) }
        ensures answer { MatchOption result (HasNone K.eq (Q.matches key.now) self.now.store)
            (λ found. (p : _) × Holds K.eq (Q.matches key.now) self.now.store p
            × (p.key ≡ found.0.now) × (p.value ≡ found.1.now)) }
        ensures machine { (found : _) × LooksUp K.eq (Q.matches key.now) self.now.store
            (started Get (hash_of Q.hash_input S.build_hasher S.Hasher.write S.Hasher.finish
            self.now.store.hasher key.now) self.now.mode.resize self.now.initial
            self.now.mode.limit) found
            × (option_map deref_pair result ≡ option_map entry_of found) }
    {
        match self.look_up(key) {
            Some(pair) => Some(self.store.stored_entry(pair)),
            None => None,
        }
    }

    /// Returns whether the map has an entry of the key: `contains_key` of 0.2.5. It allocates
    /// nothing and never fails.
    #[inline(always)]
    pub fn contains_key<Q: Equivalent<K>>(&self, key: &Q) -> bool
        ensures map { (k : _) → Q.matches key.now k ≡ true
            → result ≡ is_some (map_in K.eq self.now.store k) }
        ensures answer { MatchBool result
            ((p : _) × Holds K.eq (Q.matches key.now) self.now.store p)
            (HasNone K.eq (Q.matches key.now) self.now.store) }
        ensures machine { (found : _) × LooksUp K.eq (Q.matches key.now) self.now.store
            (started Get (hash_of Q.hash_input S.build_hasher S.Hasher.write S.Hasher.finish
            self.now.store.hasher key.now) self.now.mode.resize self.now.initial
            self.now.mode.limit) found
            × (result ≡ is_some found) }
    {
        self.look_up(key).is_some()
    }
}

impl<K: Hash + Eq, V, S: BuildHasher> HashMap<K, V, S> {
    /// Returns the key and the value of a pair that is in the arena.
    #[inline(always)]
    pub(crate) fn entry(&self, n: u64) -> (&K, &V)
        requires { IsSome (pair_of self.now.store n) }
        ensures { pair_of self.now.store n ≡ Some
            (record { number = n; key = result.0.now; value = result.1.now }) }
    {
        self.store.stored_entry(n)
    }

    /// Returns the value of a pair that is in the arena.
    #[inline(always)]
    pub(crate) fn stored_value(&self, n: u64) -> &V
        requires { IsSome (pair_of self.now.store n) }
        ensures { (p : _) → pair_of self.now.store n ≡ Some p → result.now ≡ p.value }
    {
        self.store.stored_value(n)
    }
}

impl<K: Hash + Eq + Drop, V: Drop, S: BuildHasher> HashMap<K, V, S> {
    ghost use Rattle.papaya_seq.specs.Ends.{ends_so};

    /// Inserts a key-value pair, and returns the key's old value, or `None` if the key was absent:
    /// `insert` of 0.2.5. As the documentation of 0.2.5 says, a stored key stays, and the key that
    /// was passed in is dropped.
    ///
    /// When a table has no place for a key, the map makes a next table. While entries are being
    /// moved to it, each call that may change the map moves a chunk of them, or all of them with
    /// `Blocking`.
    ///
    /// # Errors
    ///
    /// The map is then as it was, and the arguments are dropped, at once or with the map.
    ///
    /// - `Refused::Memory` if memory runs out.
    /// - `Refused::Capacity` if the arena is full, or if a next table is needed and would be one
    ///   too many or longer than [`papaya_words::limits::MAX_TABLE_LEN`] slots.
    /// - `Refused::Limit` if the map has a limit and that many numbers were taken for entries.
    ///
    /// # Examples
    ///
    /// ```
    /// let first = map.insert(1, 10)?.copied(); // None
    /// let second = map.insert(1, 11)?.copied(); // Some(10)
    /// ```
    pub fn insert(&mut self, key: K, value: V) -> Result<Option<&V>, Refused>
        ensures* inserts { sem 𝓛 (ends_so K.row V.row S.row S.Hasher.row K.Hash S.BuildHasher
            S.Hasher.Hasher self.entry (λ after.
            IsInserted K.eq key value self.old (old_answered result) after
            × IsDoneAlone K.eq
            (hash_of K.hash_input S.build_hasher S.Hasher.write S.Hasher.finish) self.old
            (Call.Insert key value) (old_answered result) after)) }
        ensures old { IfOk result (λ old. option_map (λ v. v.now) old ≡ value_of
            (map_in K.eq self.old.store key)) }
        ensures err { IfErr result (IsStoreRefusal self.old) }
    {
        let (reply, _) = self.insert_by(key, value, true);
        match reply {
            Reply::Replaced { old, .. } => Ok(Some(self.stored_value(old))),
            Reply::Refused(refused) => Err(refused),
            _ => Ok(None),
        }
    }

    /// Inserts an entry if the key is absent. Returns the number of the key's entry, and gives the
    /// value back if the key was in the map.
    ///
    /// Works as [`HashMap::try_insert`], with a number instead of a reference.
    ///
    /// # Errors
    ///
    /// Fails with `Refused::Memory`, `Refused::Capacity` or `Refused::Limit`, as
    /// [`HashMap::insert`] does, but only if the key is absent or a resize is under way.
    pub fn insert_absent(&mut self, key: K, value: V) -> Result<(u64, Option<V>), Refused>
        ensures tried { IsTried K.eq key value self.old result self.new }
        ensures alone { IsDoneAlone K.eq
            (hash_of K.hash_input S.build_hasher S.Hasher.write S.Hasher.finish) self.old
            (Call.TryInsert key value) result self.new }
    {
        let (reply, left) = self.insert_by(key, value, false);
        match reply {
            Reply::Inserted(pair) => Ok((pair, None)),
            Reply::Occupied(pair) => Ok((pair, left)),
            Reply::Refused(refused) => Err(refused),
            _ => unreachable!(),
        }
    }

    /// Inserts an entry as `try_insert` does, and writes the passed-in value to `left` if the key
    /// is in the map. So the result owns nothing, and the contract states what the map is
    /// afterwards.
    ///
    /// # Errors
    ///
    /// Fails with `Refused::Memory`, `Refused::Capacity` or `Refused::Limit`, as
    /// [`HashMap::try_insert`] does.
    pub fn try_insert_into(
        &mut self,
        key: K,
        value: V,
        left: &mut Option<V>,
    ) -> Result<Result<&V, &V>, Refused>
        ensures* tries { sem 𝓛 (ends_so K.row V.row S.row S.Hasher.row K.Hash S.BuildHasher
            S.Hasher.Hasher self.entry (λ after. IsTriedInto K.eq key value self.old
            (tried_answered result) left.old left.new after
            × IsDoneAlone K.eq
            (hash_of K.hash_input S.build_hasher S.Hasher.write S.Hasher.finish) self.old
            (Call.TryInsert key value) (tried_answered result) after)) }
        ensures stored { IfOk result (λ tried. IfOk tried
            (λ v. (v.now ≡ value) × (map_in K.eq self.old.store key ≡ None))) }
        ensures occupied { IfOk result (λ tried. IfErr tried
            (λ v. (value_of (map_in K.eq self.old.store key) ≡ Some v.now)
            × (left.new ≡ Some value))) }
        ensures err { IfErr result (λ refused. IsRefusedAlone K.eq
            (hash_of K.hash_input S.build_hasher S.Hasher.write S.Hasher.finish) self.old
            (Call.TryInsert key value) refused
            (IsTryCause self.old (map_in K.eq self.old.store key) refused)) }
    {
        let (pair, unstored) = self.insert_absent(key, value)?;
        match unstored {
            None => Ok(Ok(self.stored_value(pair))),
            Some(value) => {
                *left = Some(value);
                Ok(Err(self.stored_value(pair)))
            }
        }
    }

    /// Inserts an entry if the key is absent, and returns its value: `try_insert` of 0.2.5. If the
    /// key is in the map, its entry stays, and the passed-in value is returned in the error.
    ///
    /// The contract does not describe the map afterwards, because the result may own a value:
    /// [`HashMap::try_insert_into`] describes it and its tables.
    ///
    /// # Errors
    ///
    /// Fails with `Refused::Memory`, `Refused::Capacity` or `Refused::Limit`, as
    /// [`HashMap::insert`] does, but only if the key is absent or a resize is under way. `err`
    /// states this by a run of the call on the map before.
    pub fn try_insert(
        &mut self,
        key: K,
        value: V,
    ) -> Result<Result<&V, OccupiedError<'_, V>>, Refused>
        ensures stored { IfOk result (λ tried. IfOk tried
            (λ v. (v.now ≡ value) × (map_in K.eq self.old.store key ≡ None))) }
        ensures occupied { IfOk result (λ tried. IfErr tried
            (λ e. (value_of (map_in K.eq self.old.store key) ≡ Some e.current.now)
            × (e.not_inserted ≡ NotInserted.Value value))) }
        ensures err { IfErr result (λ refused. IsRefusedAlone K.eq
            (hash_of K.hash_input S.build_hasher S.Hasher.write S.Hasher.finish) self.old
            (Call.TryInsert key value) refused
            (IsTryCause self.old (map_in K.eq self.old.store key) refused)) }
    {
        let mut left = None;
        match self.try_insert_into(key, value, &mut left)? {
            Ok(stored) => Ok(Ok(stored)),
            Err(current) => match left {
                Some(value) => Ok(Err(OccupiedError {
                    current,
                    not_inserted: NotInserted::Value(value),
                })),
                None => unreachable!(),
            },
        }
    }

    /// Returns the value of a key, and first inserts `value` if the key is absent: `get_or_insert`
    /// of 0.2.5.
    ///
    /// # Errors
    ///
    /// Fails with `Refused::Memory`, `Refused::Capacity` or `Refused::Limit`, as
    /// [`HashMap::insert`] does, but only if the key is absent or a resize is under way.
    pub fn get_or_insert(&mut self, key: K, value: V) -> Result<&V, Refused>
        ensures* inserts { sem 𝓛 (ends_so K.row V.row S.row S.Hasher.row K.Hash S.BuildHasher
            S.Hasher.Hasher self.entry (λ after.
            HasValue K.eq key value self.old (value_answered result) after
            × IsDoneAlone K.eq
            (hash_of K.hash_input S.build_hasher S.Hasher.write S.Hasher.finish) self.old
            (Call.TryInsert key value) (value_answered result) after)) }
        ensures value { IfOk result (λ v. MatchOption (value_of (map_in K.eq self.old.store key))
            (v.now ≡ value) (λ current. v.now ≡ current)) }
        ensures err { IfErr result (λ refused. IsStoreRefusal self.old refused
            × ((map_in K.eq self.old.store key ≡ None) ⊎ IsResizing self.old)) }
    {
        let (pair, _) = self.insert_absent(key, value)?;
        Ok(self.stored_value(pair))
    }

    /// Removes a key's entry, and returns its value: `remove` of 0.2.5. Without a resize under way
    /// ([`HashMap::resizing`]) it allocates nothing and never fails.
    ///
    /// # Errors
    ///
    /// Fails only during a resize: with `Refused::Memory` or `Refused::Capacity`, as an
    /// [`HashMap::insert`] that needs a next table does.
    pub fn remove<Q: Equivalent<K>>(&mut self, key: &Q) -> Result<Option<&V>, Refused>
        ensures* removes { sem 𝓛 (ends_so K.row V.row S.row S.Hasher.row K.Hash S.BuildHasher
            S.Hasher.Hasher self.entry (λ after. IsRemoved K.eq (Q.matches key.now) (λ p. p.value)
            self.old (old_answered result) after
            × IsRemovalAlone K.eq
            (hash_of K.hash_input S.build_hasher S.Hasher.write S.Hasher.finish)
            (Q.matches key.now) self.old (old_answered result) after)) }
        ensures removed { IfOk result (λ removed. MatchOption removed
            (HasNone K.eq (Q.matches key.now) self.old.store)
            (λ v. (p : _) × Holds K.eq (Q.matches key.now) self.old.store p × (p.value ≡ v.now))) }
        ensures err { IfErr result IsMakeRefusal }
        ensures never { next_of self.old.store ≡ 0 → IsOk result }
    {
        match self.remove_entry(key)? {
            Some((_, value)) => Ok(Some(value)),
            None => Ok(None),
        }
    }

    /// Removes a key's entry, and returns the stored key and the value: `remove_entry` of 0.2.5.
    ///
    /// # Errors
    ///
    /// Fails with `Refused::Memory` or `Refused::Capacity`, as [`HashMap::remove`] does.
    pub fn remove_entry<Q: Equivalent<K>>(&mut self, key: &Q) -> Result<Option<(&K, &V)>, Refused>
        ensures* removes { sem 𝓛 (ends_so K.row V.row S.row S.Hasher.row K.Hash S.BuildHasher
            S.Hasher.Hasher self.entry (λ after. IsRemoved K.eq (Q.matches key.now) entry_of self.old
            (entry_answered result) after
            × IsRemovalAlone K.eq
            (hash_of K.hash_input S.build_hasher S.Hasher.write S.Hasher.finish)
            (Q.matches key.now) self.old (entry_answered result) after)) }
        ensures removed { IfOk result (λ removed. MatchOption removed
            (HasNone K.eq (Q.matches key.now) self.old.store)
            (λ found. (p : _) × Holds K.eq (Q.matches key.now) self.old.store p
            × (p.key ≡ found.0.now) × (p.value ≡ found.1.now))) }
        ensures err { IfErr result IsMakeRefusal }
        ensures never { next_of self.old.store ≡ 0 → IsOk result }
    {
        match self.remove_by(key, &mut |_, _| true) {
            Reply::Removed(pair) => Ok(self.pair(pair)),
            Reply::Refused(refused) => Err(refused),
            _ => Ok(None),
        }
    }

    /// Removes a key's entry if the closure returns `true` for it: `remove_if` of 0.2.5.
    ///
    /// Returns `Ok(None)` if the key is absent, `Ok(Some(entry))` if that very entry was removed,
    /// and `Err(entry)` if the closure returned `false` for it.
    ///
    /// The contract requires only that the closure can be called once, since it is called at most
    /// once.
    ///
    /// # Errors
    ///
    /// Fails with `Refused::Memory` or `Refused::Capacity`, as [`HashMap::remove`] does.
    pub fn remove_if<Q: Equivalent<K>, F: FnMut(&K, &V) -> bool>(
        &mut self,
        key: &Q,
        mut agrees: F,
    ) -> Result<Result<Option<(&K, &V)>, (&K, &V)>, Refused>
        requires { (k : _) (v : _) → F.pre agrees k v }
        ensures* removes { sem 𝓛 (ends_so K.row V.row S.row S.Hasher.row K.Hash S.BuildHasher
            S.Hasher.Hasher self.entry (λ after. IsJudged K.eq (Q.matches key.now)
            (Judges F.FnMut agrees) self.old (judged_answered result) after
            × IsRemovalAlone K.eq
            (hash_of K.hash_input S.build_hasher S.Hasher.write S.Hasher.finish)
            (Q.matches key.now) self.old (judged_answered result) after)) }
        ensures removed { IfOk result (λ answered. IfOk answered
            (λ removed. MatchOption removed (HasNone K.eq (Q.matches key.now) self.old.store)
            (λ found. (p : _) × Holds K.eq (Q.matches key.now) self.old.store p
            × Judges F.FnMut agrees p true × (p.key ≡ found.0.now) × (p.value ≡ found.1.now)))) }
        ensures kept { IfOk result (λ answered. IfErr answered
            (λ found. (p : _) × Holds K.eq (Q.matches key.now) self.old.store p
            × Judges F.FnMut agrees p false × (p.key ≡ found.0.now) × (p.value ≡ found.1.now))) }
        ensures err { IfErr result IsMakeRefusal }
        ensures never { next_of self.old.store ≡ 0 → IsOk result }
    {
        match self.remove_by(key, &mut agrees) {
            Reply::Removed(pair) => Ok(Ok(self.pair(pair))),
            Reply::Kept(pair) => match self.pair(pair) {
                Some(kept) => Ok(Err(kept)),
                None => unreachable!(),
            },
            Reply::Refused(refused) => Err(refused),
            _ => Ok(Ok(None)),
        }
    }

    /// Runs one call that is given as a value.
    fn call<A: Answers<K, V> + Drop>(&mut self, call: Call<K, V, A>) -> Outcome
        ensures called { IsCalled K.eq (record { op = A.op_gives; yes = A.yes_gives }) self.old call
            (reply_told result) self.new }
        ensures alone { IsLeftAlone K.eq
            (hash_of K.hash_input S.build_hasher S.Hasher.write S.Hasher.finish) self.old call
            (reply_told result) self.new }
        ensures lists { IsListed K.eq call self.old.store result }
    {
        // The proof reads the map's invariant here.
        let _ = &self.store;
        match call {
            Call::Get(key) => match self.look_up(&key) {
                Some(pair) => Outcome::Replied(Reply::Found(pair)),
                None => Outcome::Replied(Reply::Absent),
            },
            Call::Insert(key, value) => Outcome::Replied(self.insert_by(key, value, true).0),
            Call::TryInsert(key, value) => Outcome::Replied(self.insert_by(key, value, false).0),
            Call::RemoveIf(key, mut answers) => {
                Outcome::Replied(self.remove_by(&key, &mut |key, value| answers.yes(key, value)))
            }
            Call::Compute(key, mut answers) => {
                Outcome::Replied(replied(self.compute_by(key, |shown| answers.op(shown)).1))
            }
            Call::Reserve(more) => Outcome::Replied(resized(self.reserve(more))),
            Call::CopyAll => Outcome::Replied(resized(self.copy_all())),
            Call::Clear => Outcome::Replied(resized(self.clear())),
            Call::Retain(mut answers) => {
                Outcome::Replied(resized(self.retain(|key, value| answers.yes(key, value))))
            }
            Call::Walk => match self.numbers() {
                Ok(list) => Outcome::Walked(list),
                Err(refused) => Outcome::Replied(Reply::Refused(refused)),
            },
        }
    }

    /// Runs calls, one after the other, and returns the outcome of each: its reply, or for an
    /// iteration the numbers of the map's entries in the order of [`HashMap::iter`]. A call that
    /// fails has its refusal as its reply, and the next one is made.
    ///
    /// # Errors
    ///
    /// Fails with `Refused::Memory` if memory for the outcomes runs out, and then has made no call.
    pub fn run<A: Answers<K, V> + Drop>(
        &mut self,
        calls: Vec<Call<K, V, A>>,
    ) -> Result<Vec<Outcome>, Refused>
        ensures ok { IfOk result (λ outcomes. AreCalled K.eq
            (hash_of K.hash_input S.build_hasher S.Hasher.write S.Hasher.finish)
            (record { op = A.op_gives; yes = A.yes_gives }) self.old calls.items outcomes.items
            self.new) }
        ensures err { IfErr result (λ e. (e ≡ Refused.Memory) × (self.new ≡ self.old)) }
    {
        let mut outcomes = Vec::with_capacity(self.alloc, calls.len()).map_err(
            |_| Refused::Memory,
        )?;
        for call in calls {
            let outcome = self.call(call);
            outcomes.push_reserved(outcome);
        }
        Ok(outcomes)
    }
}
