//! The set that threads share.
ghost use Rattle.std.specs.Prelude.{◌≡◌, IfErr, IfOk, None};
ghost use Rattle.papaya_words.specs.declared.limits.TheConstants.{DEFAULT_CHUNK, DEFAULT_SHARDS};
ghost use Rattle.papaya_words_keys.specs.Sizes.{IsAllowed, IsSizeRefusal};
ghost use Rattle.papaya_map.specs.Fixed.{HasLearned, IsFor};
ghost use mathlib.Core.List.{IsPrefix};

pub mod read_only;

use papaya_map::map::{HashMap, HashMapRef};
use papaya_map::pass::Pass;
use papaya_words::refused::Refused;
use papaya_words::resize_mode::ResizeMode;
use std::alloc::Global;
use std::hash::{BuildHasher, BuildHasherDefault, FoldHasher, Hash};
use std::marker::Model;
use std::sync::Wait;

/// A hash set that threads share: `HashSet` of 0.2.5. Threads call it through a pinned set
/// ([`HashSet::pin`]), with a guard ([`HashSet::guard`]), or through a session of [`HashSet::map`].
///
/// A removed key stays in memory until [`HashSet::reclaim`], or until the set is dropped. So does a
/// key that was inserted while an equal one was stored. In the examples of its calls, `set` is an
/// empty `HashSet<u64>` that no other thread changes, and `rt` is the runtime.
///
/// Contracts see the set as the map of its keys to unit values, and of that map what is fixed when
/// it is made. So its clauses are those of the map.
pub struct HashSet<K: Hash + Eq, S: BuildHasher = BuildHasherDefault<FoldHasher>> {
    pub(crate) map: HashMap<K, (), S>,
}

impl<K: Hash + Eq, S: BuildHasher> Model for HashSet<K, S> {
    ghost use Rattle.papaya_map.specs.Fixed.{Fixed};

    ghost Value = { Fixed K (Unit {0}) S };

    ghost view = { λ s. s.map };
}

impl<K: Hash + Eq + Drop, S: BuildHasher + Drop> Drop for HashSet<K, S> {
    fn drop(self) {
        let Self { map: _ } = self;
    }
}

/// A pinned set, on which calls are made: `HashSetRef` of 0.2.5, but without a guard. References
/// that it returns live as long as the set. Contracts see what they see of the set, and the
/// history that had been observed at the pin.
pub struct HashSetRef<'a, K: Hash + Eq, S: BuildHasher> {
    pub(crate) set: &'a HashSet<K, S>,
    pub(crate) keys: HashMapRef<'a, K, (), S>,
    ghost of_set: { keys.map ≡ set.now },
}

impl<'a, K: Hash + Eq, S: BuildHasher> Model for HashSetRef<'a, K, S> {
    ghost use Rattle.papaya_map.specs.Fixed.{Pinned};

    ghost Value = { Pinned K (Unit {0}) S };

    ghost view = { λ r. r.keys };
}

impl<'a, K: Hash + Eq, S: BuildHasher> Drop for HashSetRef<'a, K, S> {
    fn drop(self) {
        let Self { set: _, keys: _ } = self;
    }
}

impl<K: Hash + Eq + Drop, S: BuildHasher + Drop> HashSet<K, S> {
    /// Creates a set from all its settings. Its collector has number 0. It works as
    /// [`HashMap::with_parts`] does for a map.
    ///
    /// # Errors
    ///
    /// Fails with `Refused::ZeroChunk`, `Refused::Capacity` or `Refused::Memory`, as
    /// [`HashMap::with_parts`] does.
    pub fn with_parts<R: Wait>(
        rt: &R,
        alloc: Global,
        mode: ResizeMode,
        capacity: usize,
        shards: usize,
        hasher: S,
        limit: Option<u64>,
    ) -> Result<HashSet<K, S>, Refused>
        ensures ok { IfOk result (λ set. IsAllowed mode capacity shards) }
        ensures made { IfOk result (IsFor mode capacity shards limit) }
        ensures hasher { IfOk result (λ set. set.begun.hasher ≡ hasher) }
        ensures collector { IfOk result (λ set. set.collector ≡ 0) }
        ensures err { IfErr result (λ e. IsSizeRefusal mode capacity shards e) }
    {
        Ok(HashSet {
            map: HashMap::with_parts(rt, alloc, mode, capacity, shards, hasher, limit)?,
        })
    }

    /// Creates an empty set with this hasher, whose first table has room for `capacity` keys:
    /// `with_capacity_and_hasher` of 0.2.5. It resizes by [`ResizeMode::default`], and counts over
    /// [`papaya_words::limits::DEFAULT_SHARDS`] shards.
    ///
    /// # Errors
    ///
    /// Fails with `Refused::Capacity` if the first table would be longer than
    /// [`papaya_words::limits::MAX_TABLE_LEN`] slots, and with `Refused::Memory` if an allocation
    /// fails.
    pub fn with_capacity_and_hasher<R: Wait>(
        rt: &R,
        alloc: Global,
        capacity: usize,
        hasher: S,
    ) -> Result<HashSet<K, S>, Refused>
        ensures ok { IfOk result (λ set. IsAllowed (ResizeMode.Incremental DEFAULT_CHUNK) capacity
            DEFAULT_SHARDS) }
        ensures made { IfOk result (IsFor (ResizeMode.Incremental DEFAULT_CHUNK) capacity
            DEFAULT_SHARDS None) }
        ensures hasher { IfOk result (λ set. set.begun.hasher ≡ hasher) }
        ensures err { IfErr result (λ e. IsSizeRefusal (ResizeMode.Incremental DEFAULT_CHUNK)
            capacity
            DEFAULT_SHARDS e) }
    {
        Ok(HashSet {
            map: HashMap::with_capacity_and_hasher(rt, alloc, capacity, hasher)?,
        })
    }

    /// Creates an empty set with this hasher: `with_hasher` of 0.2.5. Its first change allocates
    /// the first table, of 32 slots.
    ///
    /// # Errors
    ///
    /// Fails with `Refused::Memory` if an allocation fails.
    pub fn with_hasher<R: Wait>(rt: &R, alloc: Global, hasher: S) -> Result<HashSet<K, S>, Refused>
        ensures made { IfOk result (IsFor (ResizeMode.Incremental DEFAULT_CHUNK) 0
            DEFAULT_SHARDS None) }
        ensures hasher { IfOk result (λ set. set.begun.hasher ≡ hasher) }
        ensures err { IfErr result (λ e. e ≡ Refused.Memory) }
    {
        Ok(HashSet {
            map: HashMap::with_hasher(rt, alloc, hasher)?,
        })
    }
}

impl<K: Hash + Eq + Drop> HashSet<K, BuildHasherDefault<FoldHasher>> {
    /// Creates an empty set: `new` of 0.2.5. Its first change allocates the first table, of 32
    /// slots. The hasher has a fixed seed, where that of 0.2.5 has a random one. If attackers pick
    /// the keys, pass a `RandomState` to [`HashSet::with_hasher`].
    ///
    /// # Errors
    ///
    /// Fails with `Refused::Memory` if an allocation fails.
    pub fn new<R: Wait>(
        rt: &R,
        alloc: Global,
    ) -> Result<HashSet<K, BuildHasherDefault<FoldHasher>>, Refused>
        ensures made { IfOk result (IsFor (ResizeMode.Incremental DEFAULT_CHUNK) 0
            DEFAULT_SHARDS None) }
        ensures err { IfErr result (λ e. e ≡ Refused.Memory) }
    {
        Ok(HashSet {
            map: HashMap::new(rt, alloc)?,
        })
    }

    /// Creates an empty set whose first table has room for `capacity` keys: `with_capacity` of
    /// 0.2.5. The hasher has a fixed seed, where that of 0.2.5 has a random one. If attackers pick
    /// the keys, pass a `RandomState` to [`HashSet::with_capacity_and_hasher`].
    ///
    /// # Errors
    ///
    /// Fails with `Refused::Capacity` if the first table would be longer than
    /// [`papaya_words::limits::MAX_TABLE_LEN`] slots, and with `Refused::Memory` if an allocation
    /// fails.
    pub fn with_capacity<R: Wait>(
        rt: &R,
        alloc: Global,
        capacity: usize,
    ) -> Result<HashSet<K, BuildHasherDefault<FoldHasher>>, Refused>
        ensures ok { IfOk result (λ set. IsAllowed (ResizeMode.Incremental DEFAULT_CHUNK) capacity
            DEFAULT_SHARDS) }
        ensures made { IfOk result (IsFor (ResizeMode.Incremental DEFAULT_CHUNK) capacity
            DEFAULT_SHARDS None) }
        ensures err { IfErr result (λ e. IsSizeRefusal (ResizeMode.Incremental DEFAULT_CHUNK)
            capacity
            DEFAULT_SHARDS e) }
    {
        Ok(HashSet {
            map: HashMap::with_capacity(rt, alloc, capacity)?,
        })
    }
}

impl<K: Hash + Eq + Drop, S: BuildHasher + Default + Drop> HashSet<K, S> {
    /// Creates an empty set with a default hasher, as [`HashSet::with_hasher`] does: the trait
    /// `Default` of 0.2.5.
    ///
    /// # Errors
    ///
    /// Fails with `Refused::Memory` if an allocation fails.
    pub fn default<R: Wait>(rt: &R, alloc: Global) -> Result<HashSet<K, S>, Refused>
        ensures made { IfOk result (IsFor (ResizeMode.Incremental DEFAULT_CHUNK) 0
            DEFAULT_SHARDS None) }
        ensures hasher { IfOk result (λ set. S.is_default set.begun.hasher) }
        ensures err { IfErr result (λ e. e ≡ Refused.Memory) }
    {
        HashSet::with_hasher(rt, alloc, S::default())
    }
}

impl<K: Hash + Eq, S: BuildHasher> HashSet<K, S> {
    /// Returns the map of the set's keys to unit values. It has calls that the set lacks: sessions,
    /// passes, computes, and removals whose closure decides. 0.2.5 has no such call.
    ///
    /// # Examples
    ///
    /// ```
    /// let mut session = Session::new(set.map());
    /// let removed = session.remove(rt, &1)?; // Some(&()) if the key was in the set
    /// ```
    pub fn map(&self) -> &HashMap<K, (), S>
        ensures { result.now ≡ self.now }
    {
        &self.map
    }

    /// For this library's own calls. Records in the set what a pass has observed, as
    /// [`HashMap::learn`] does in a map. A call that fills a new set uses this. Does nothing at run
    /// time.
    pub fn learn(&mut self, pass: &Pass<K, (), S>)
        requires { pass.now.book ≡ self.old.book }
        ensures same { HasLearned self.old self.new }
        ensures passed { IsPrefix pass.now.history self.new.seen }
    {
        self.map.learn(pass);
    }

    /// Pins the set, and returns a reference for its calls: `pin` of 0.2.5. It writes no word.
    #[inline]
    pub fn pin(&self) -> HashSetRef<'_, K, S>
        ensures map { result.map ≡ self.now }
        ensures seen { IsPrefix self.now.seen result.seen }
    {
        HashSetRef {
            set: self,
            keys: self.map.pin(),
        }
    }

    /// Pins the set as [`HashSet::pin`] does: `pin_owned` of 0.2.5, whose reference may be sent to
    /// another thread. Here every pinned set may, as it holds no guard.
    pub fn pin_owned(&self) -> HashSetRef<'_, K, S>
        ensures map { result.map ≡ self.now }
        ensures seen { IsPrefix self.now.seen result.seen }
    {
        self.pin()
    }

    /// Returns the number of keys: `len` of 0.2.5. Each change is counted one step after it is
    /// made, so a change that another thread is making may be counted or not.
    pub fn len(&self) -> usize {
        self.map.len()
    }

    /// Returns whether [`HashSet::len`] is 0: `is_empty` of 0.2.5.
    pub fn is_empty(&self) -> bool {
        self.map.is_empty()
    }

    /// Returns the number of keys in the arena, including those removed or inserted again, as
    /// [`HashMap::stored`] counts them.
    pub fn stored(&self) -> usize {
        self.map.stored()
    }

    /// Returns the number of slots of the root table, or 0 if there is none yet.
    pub fn slots(&self) -> usize {
        self.map.slots()
    }

    /// Returns whether keys are being moved to a next table.
    pub fn resizing(&self) -> bool {
        self.map.resizing()
    }
}
