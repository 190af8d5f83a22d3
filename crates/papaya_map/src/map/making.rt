//! The constructors of a map that threads share.
ghost use Rattle.std.specs.Prelude.{◌≡◌, ◌<◌, ◌≤◌, IfErr, IfOk, None};
ghost use Rattle.papaya_words.specs.Probe.{IsEntriesFor};
ghost use Rattle.papaya_words.specs.declared.limits.TheConstants.{DEFAULT_CHUNK, DEFAULT_SHARDS, MAX_TABLE_LEN};
ghost use Rattle.papaya_words_keys.specs.Sizes.{IsAllowed, IsSizeRefusal};
ghost use Rattle.papaya_map_book.specs.Limits.{HasTableFrom, tables_of};
ghost use Rattle.papaya_map_change.specs.Writing.{IsMemoryOrCapacity};
ghost use Rattle.papaya_map_lookup.specs.History.{IsLegalHistory, history_of, key_of};
ghost use Rattle.papaya_map.specs.Fixed.{HasFirstTable, HasSettingsOf, IsFor, IsForInitial};

use crate::map::HashMap;
use papaya_map_book::book::Book;
use papaya_map_book::book::parts::Parts;
use papaya_map_book::count::Count;
use papaya_map_book::rule::offer::Seen;
use papaya_words::limits::DEFAULT_SHARDS;
use papaya_words::refused::Refused;
use papaya_words::resize_mode::ResizeMode;
use papaya_words_keys::guard::Collector;
use papaya_words_keys::sizes::{check_chunk, initial_len};
use std::alloc::Global;
use std::hash::{BuildHasher, BuildHasherDefault, FoldHasher, Hash};
use std::sync::Wait;

/// Returns what is observed of a new map's book. It already has its first table if the capacity is
/// not 0.
fn first_table<R: Wait, K: Hash + Eq, V, S: BuildHasher>(
    rt: &R,
    alloc: Global,
    book: &Book<K, V, S>,
    capacity: usize,
    initial: usize,
) -> Result<Seen<K, V, S>, Refused>
    requires { IsEntriesFor capacity initial × (initial ≤ MAX_TABLE_LEN) }
    ensures book { IfOk result (λ sight. sight.book ≡ book.now.begun.book) }
    ensures came { IfOk result (λ sight. 0 < capacity → HasTableFrom initial
        (tables_of sight.log)) }
    ensures legal { IfOk result (λ sight. IsLegalHistory K.eq key_of (history_of sight.log)) }
    ensures err { IfErr result (λ e. e ≡ Refused.Memory) }
{
    if capacity == 0 {
        return Ok(book.unseen());
    }
    book.open_first(rt, alloc, capacity, initial)
}

/// Returns the number of entries for which `reclaim` sizes the first table: those of the map, and
/// at least those that its initial capacity is for. Returns 0 if the map has no entries and was
/// given no capacity.
#[tactic(auto, using(crate::proofs::FirstTable::none_asked, crate::proofs::FirstTable::long_enough))]
fn pairs_for(initial: usize, pairs: usize) -> usize
    ensures { IsForInitial initial result }
{
    if initial <= 1 {
        return pairs;
    }
    pairs.max(initial - initial / 4)
}

impl<K: Hash + Eq + Drop, V: Drop, S: BuildHasher + Drop> HashMap<K, V, S> {
    /// Creates an empty map with all settings passed in. The first table has room for `capacity`
    /// entries. If `capacity` is 0, the first change creates the table, with 32 slots. `shards` is
    /// rounded up to a power of two. With a `limit` the map stores at most that many entries,
    /// including those replaced or removed. Its collector has number 0.
    ///
    /// # Errors
    ///
    /// Fails with `Refused::ZeroChunk` if chunks have no slots. Fails with `Refused::Capacity` if
    /// there are more shards than [`papaya_words::limits::MAX_SHARDS`], or the first table would be
    /// longer than [`papaya_words::limits::MAX_TABLE_LEN`] slots. Fails with `Refused::Memory` if
    /// an allocation fails.
    pub fn with_parts<R: Wait>(
        rt: &R,
        alloc: Global,
        mode: ResizeMode,
        capacity: usize,
        shards: usize,
        hasher: S,
        limit: Option<u64>,
    ) -> Result<HashMap<K, V, S>, Refused>
        ensures ok { IfOk result (λ map. IsAllowed mode capacity shards) }
        ensures made { IfOk result (IsFor mode capacity shards limit) }
        ensures hasher { IfOk result (λ map. map.begun.hasher ≡ hasher) }
        ensures collector { IfOk result (λ map. map.collector ≡ 0) }
        ensures err { IfErr result (λ e. IsSizeRefusal mode capacity shards e) }
    {
        HashMap::with_collector(
            rt,
            alloc,
            mode,
            capacity,
            shards,
            hasher,
            limit,
            Collector::new(0),
        )
    }

    /// Creates a map as [`HashMap::with_parts`] does, with this collector.
    pub(crate) fn with_collector<R: Wait>(
        rt: &R,
        alloc: Global,
        mode: ResizeMode,
        capacity: usize,
        shards: usize,
        hasher: S,
        limit: Option<u64>,
        collector: Collector,
    ) -> Result<HashMap<K, V, S>, Refused>
        ensures ok { IfOk result (λ map. IsAllowed mode capacity shards) }
        ensures made { IfOk result (IsFor mode capacity shards limit) }
        ensures hasher { IfOk result (λ map. map.begun.hasher ≡ hasher) }
        ensures collector { IfOk result (λ map. map.collector ≡ collector) }
        ensures err { IfErr result (λ e. IsSizeRefusal mode capacity shards e) }
    {
        check_chunk(mode)?;
        let initial = initial_len(capacity)?;
        let count = Count::new(alloc, shards)?;
        let Ok(parts) = Parts::new(alloc, mode, limit, capacity, hasher) else {
            return Err(Refused::Memory);
        };
        let book = Book::opened(rt, parts);
        let opened = first_table(rt, alloc, &book, capacity, initial)?;
        Ok(HashMap {
            alloc,
            initial,
            count,
            collector,
            book,
            opened,
        })
    }

    /// Creates an empty map with this hasher, whose first table has room for `capacity` entries:
    /// `with_capacity_and_hasher` of 0.2.5. It resizes by [`ResizeMode::default`], and counts over
    /// [`DEFAULT_SHARDS`] shards.
    ///
    /// # Errors
    ///
    /// Fails with `Refused::Capacity` if the first table would be longer than
    /// [`papaya_words::limits::MAX_TABLE_LEN`] slots, and with `Refused::Memory` if an allocation
    /// fails.
    pub fn with_capacity_and_hasher<R: Wait>(
        rt: &R,
        alloc: Global,
        capacity: usize,
        hasher: S,
    ) -> Result<HashMap<K, V, S>, Refused>
        ensures ok { IfOk result (λ map. IsAllowed (ResizeMode.Incremental DEFAULT_CHUNK) capacity
            DEFAULT_SHARDS) }
        ensures made { IfOk result (IsFor (ResizeMode.Incremental DEFAULT_CHUNK) capacity
            DEFAULT_SHARDS None) }
        ensures hasher { IfOk result (λ map. map.begun.hasher ≡ hasher) }
        ensures err { IfErr result (λ e. IsSizeRefusal (ResizeMode.Incremental DEFAULT_CHUNK)
            capacity
            DEFAULT_SHARDS e) }
    {
        HashMap::with_parts(
            rt,
            alloc,
            ResizeMode::default(),
            capacity,
            DEFAULT_SHARDS,
            hasher,
            None,
        )
    }

    /// Creates an empty map with this hasher: `with_hasher` of 0.2.5. Its first change allocates
    /// the first table, of 32 slots.
    ///
    /// # Errors
    ///
    /// Fails with `Refused::Memory` if an allocation fails.
    pub fn with_hasher<R: Wait>(
        rt: &R,
        alloc: Global,
        hasher: S,
    ) -> Result<HashMap<K, V, S>, Refused>
        ensures made { IfOk result (IsFor (ResizeMode.Incremental DEFAULT_CHUNK) 0
            DEFAULT_SHARDS None) }
        ensures hasher { IfOk result (λ map. map.begun.hasher ≡ hasher) }
        ensures err { IfErr result (λ e. e ≡ Refused.Memory) }
    {
        HashMap::with_capacity_and_hasher(rt, alloc, 0, hasher)
    }
}

impl<K: Hash + Eq + Drop, V: Drop, S: BuildHasher + Clone + Drop> HashMap<K, V, S> {
    /// Creates an empty map with the settings of this one: its mode, limit, initial capacity,
    /// collector number and number of shards, and a clone of its hasher. Its first table has room
    /// for as many entries as this one counts, and is no shorter than the initial capacity. It has
    /// no table if this map has no entries and was given no capacity.
    pub(crate) fn new_like<R: Wait>(&self, rt: &R) -> Result<HashMap<K, V, S>, Refused>
        ensures settings { IfOk result (HasSettingsOf self.now) }
        ensures hasher { IfOk result (λ map. S.is_clone self.now.begun.hasher map.begun.hasher) }
        ensures opened { IfOk result HasFirstTable }
        ensures refused { IfErr result IsMemoryOrCapacity }
    {
        let pairs = self.len();
        let capacity = pairs_for(self.initial, pairs);
        let initial = initial_len(capacity)?;
        let Ok(hasher) = self.book.parts.hasher.clone() else {
            return Err(Refused::Memory);
        };
        let count = self.count.new_like(self.alloc)?;
        let Ok(parts) = Parts::new(
            self.alloc,
            self.book.parts.mode,
            self.book.parts.limit,
            pairs,
            hasher,
        ) else {
            return Err(Refused::Memory);
        };
        let book = Book::opened(rt, parts);
        let opened = first_table(rt, self.alloc, &book, capacity, initial)?;
        Ok(HashMap {
            alloc: self.alloc,
            initial: self.initial,
            count,
            collector: Collector::new(self.collector.number()),
            book,
            opened,
        })
    }
}

impl<K: Hash + Eq + Drop, V: Drop> HashMap<K, V, BuildHasherDefault<FoldHasher>> {
    /// Creates an empty map: `new` of 0.2.5. Its first change allocates the first table, of 32
    /// slots. The hasher has a fixed seed; in 0.2.5 the seed is random. If attackers pick the keys,
    /// pass a `RandomState` to [`HashMap::with_hasher`].
    ///
    /// # Errors
    ///
    /// Fails with `Refused::Memory` if an allocation fails.
    ///
    /// # Examples
    ///
    /// ```
    /// let map: HashMap<u64, u64> = HashMap::new(rt, alloc)?;
    /// map.pin().insert(rt, 1, 10)?;
    /// let len = map.len(); // 1
    /// ```
    pub fn new<R: Wait>(
        rt: &R,
        alloc: Global,
    ) -> Result<HashMap<K, V, BuildHasherDefault<FoldHasher>>, Refused>
        ensures made { IfOk result (IsFor (ResizeMode.Incremental DEFAULT_CHUNK) 0
            DEFAULT_SHARDS None) }
        ensures err { IfErr result (λ e. e ≡ Refused.Memory) }
    {
        HashMap::with_capacity(rt, alloc, 0)
    }

    /// Creates an empty map whose first table has room for `capacity` entries: `with_capacity` of
    /// 0.2.5. It resizes by [`ResizeMode::default`], and counts over [`DEFAULT_SHARDS`] shards. The
    /// hasher has a fixed seed, where that of 0.2.5 has a random one. If attackers pick the keys,
    /// pass a `RandomState` to [`HashMap::with_capacity_and_hasher`].
    ///
    /// # Errors
    ///
    /// Fails with `Refused::Capacity` if the first table would be longer than
    /// [`papaya_words::limits::MAX_TABLE_LEN`] slots, and with `Refused::Memory` if an allocation
    /// fails.
    pub fn with_capacity<R: Wait>(
        rt: &R,
        alloc: Global,
        capacity: usize,
    ) -> Result<HashMap<K, V, BuildHasherDefault<FoldHasher>>, Refused>
        ensures ok { IfOk result (λ map. IsAllowed (ResizeMode.Incremental DEFAULT_CHUNK) capacity
            DEFAULT_SHARDS) }
        ensures made { IfOk result (IsFor (ResizeMode.Incremental DEFAULT_CHUNK) capacity
            DEFAULT_SHARDS None) }
        ensures err { IfErr result (λ e. IsSizeRefusal (ResizeMode.Incremental DEFAULT_CHUNK)
            capacity
            DEFAULT_SHARDS e) }
    {
        HashMap::with_parts(
            rt,
            alloc,
            ResizeMode::default(),
            capacity,
            DEFAULT_SHARDS,
            BuildHasherDefault::new(),
            None,
        )
    }
}

impl<K: Hash + Eq + Drop, V: Drop, S: BuildHasher + Default + Drop> HashMap<K, V, S> {
    /// Creates an empty map with a default hasher, as [`HashMap::with_hasher`] does: the trait
    /// `Default` of 0.2.5.
    ///
    /// # Errors
    ///
    /// Fails with `Refused::Memory` if an allocation fails.
    pub fn default<R: Wait>(rt: &R, alloc: Global) -> Result<HashMap<K, V, S>, Refused>
        ensures made { IfOk result (IsFor (ResizeMode.Incremental DEFAULT_CHUNK) 0
            DEFAULT_SHARDS None) }
        ensures hasher { IfOk result (λ map. S.is_default map.begun.hasher) }
        ensures err { IfErr result (λ e. e ≡ Refused.Memory) }
    {
        HashMap::with_hasher(rt, alloc, S::default())
    }
}
