//! The builder of a set, with a method for each setting.
ghost use Rattle.std.specs.Prelude.{◌≡◌, [], IfErr, IfOk, None, Some};
ghost use Rattle.std.specs.Arc.{arc_value};
ghost use Rattle.papaya_words.specs.declared.limits.TheConstants.{DEFAULT_CHUNK, DEFAULT_SHARDS};
ghost use Rattle.papaya_words_keys.specs.Sizes.{IsAllowed, IsSizeRefusal};
ghost use Rattle.papaya_core_timeline.specs.Content.{content};
ghost use Rattle.papaya_core_timeline.specs.New.{IsNewLimited};
ghost use Rattle.papaya_seq.specs.Map.{core_of};
ghost use Rattle.papaya_map.specs.Fixed.{IsFor};

use crate::seq;
use crate::set::HashSet;
use papaya_map::builder::HashMapBuilder;
use papaya_map::map::HashMap;
use papaya_words::limits::DEFAULT_SHARDS;
use papaya_words::refused::Refused;
use papaya_words::resize_mode::ResizeMode;
use papaya_words_keys::guard::Collector;
use std::alloc::Global;
use std::fmt;
use std::hash::{BuildHasher, BuildHasherDefault, FoldHasher, Hash};
use std::marker::{Model, PhantomData};
use std::sync::{Arc, Wait};

/// The settings of a set that is to be built: `HashSetBuilder` of 0.2.5. Contracts see each
/// setting. A setting that is out of range is refused when the set is built.
#[derive(Drop)]
pub struct HashSetBuilder<K, S = BuildHasherDefault<FoldHasher>> {
    hasher: S,
    collector: Collector,
    capacity: usize,
    mode: ResizeMode,
    shards: usize,
    limit: Option<u64>,
    keys: PhantomData<K>,
}

impl<K, S> Model for HashSetBuilder<K, S> {
    ghost use Rattle.papaya_map.specs.Wanted.{Wanted};

    ghost Value = { Wanted S };

    ghost view = { λ b. record {
      hasher = b.hasher;
      collector = b.collector;
      capacity = b.capacity;
      mode = b.mode;
      shards = b.shards;
      limit = b.limit;
    } };
}

impl<K: Hash + Eq> HashSet<K, BuildHasherDefault<FoldHasher>> {
    /// Returns a builder with the default settings: `builder` of 0.2.5. The set has no initial
    /// capacity, resizes by [`ResizeMode::default`] and counts over [`DEFAULT_SHARDS`] shards. It
    /// has no limit on stored keys, and its collector has number 0.
    pub fn builder() -> HashSetBuilder<K, BuildHasherDefault<FoldHasher>>
        ensures collector { result.collector ≡ 0 }
        ensures capacity { result.capacity ≡ 0 }
        ensures mode { result.mode ≡ ResizeMode.Incremental DEFAULT_CHUNK }
        ensures shards { result.shards ≡ DEFAULT_SHARDS }
        ensures limit { result.limit ≡ None }
    {
        HashSetBuilder {
            hasher: BuildHasherDefault::new(),
            collector: Collector::new(0),
            capacity: 0,
            mode: ResizeMode::default(),
            shards: DEFAULT_SHARDS,
            limit: None,
            keys: PhantomData,
        }
    }
}

impl<K, S: Drop> HashSetBuilder<K, S> {
    /// Sets the hasher, by default a `FoldHasher` with a fixed seed: `hasher` of 0.2.5.
    pub fn hasher<T>(self, hasher: T) -> HashSetBuilder<K, T>
        ensures { result ≡ record {
          hasher = hasher;
          collector = self.collector;
          capacity = self.capacity;
          mode = self.mode;
          shards = self.shards;
          limit = self.limit;
        } }
    {
        let HashSetBuilder {
            hasher: _,
            collector,
            capacity,
            mode,
            shards,
            limit,
            keys,
        } = self;
        HashSetBuilder {
            hasher,
            collector,
            capacity,
            mode,
            shards,
            limit,
            keys,
        }
    }
}

impl<K, S> HashSetBuilder<K, S> {
    /// Sets the collector: `collector` of 0.2.5. The set accepts guards of that collector's number.
    pub fn collector(self, collector: Collector) -> HashSetBuilder<K, S>
        ensures { result ≡ record {
          hasher = self.hasher;
          collector = collector;
          capacity = self.capacity;
          mode = self.mode;
          shards = self.shards;
          limit = self.limit;
        } }
    {
        HashSetBuilder { collector, ..self }
    }

    /// Sets a collector that other sets and maps may have too: `shared_collector` of 0.2.5. The set
    /// keeps its number, as a map does by
    /// [`papaya_map::builder::HashMapBuilder::shared_collector`].
    pub fn shared_collector(self, collector: Arc<Collector>) -> HashSetBuilder<K, S>
        ensures { result ≡ record {
          hasher = self.hasher;
          collector = arc_value collector;
          capacity = self.capacity;
          mode = self.mode;
          shards = self.shards;
          limit = self.limit;
        } }
    {
        let number = collector.number();
        self.collector(Collector::new(number))
    }

    /// Sets the number of keys that the first table has room for, by default 0: `capacity` of
    /// 0.2.5. With 0 the first change allocates a table of 32 slots.
    pub fn capacity(self, capacity: usize) -> HashSetBuilder<K, S>
        ensures { result ≡ record {
          hasher = self.hasher;
          collector = self.collector;
          capacity = capacity;
          mode = self.mode;
          shards = self.shards;
          limit = self.limit;
        } }
    {
        HashSetBuilder { capacity, ..self }
    }

    /// Sets how the set resizes, by default `Incremental(64)`: `resize_mode` of 0.2.5.
    pub fn resize_mode(self, mode: ResizeMode) -> HashSetBuilder<K, S>
        ensures { result ≡ record {
          hasher = self.hasher;
          collector = self.collector;
          capacity = self.capacity;
          mode = mode;
          shards = self.shards;
          limit = self.limit;
        } }
    {
        HashSetBuilder { mode, ..self }
    }

    /// Sets the number of shards of the count, by default 16. It is rounded up to a power of two.
    /// 0.2.5 derives it from the number of processors.
    pub fn shards(self, shards: usize) -> HashSetBuilder<K, S>
        ensures { result ≡ record {
          hasher = self.hasher;
          collector = self.collector;
          capacity = self.capacity;
          mode = self.mode;
          shards = shards;
          limit = self.limit;
        } }
    {
        HashSetBuilder { shards, ..self }
    }

    /// Limits how many keys the set may store, as
    /// [`papaya_map::builder::HashMapBuilder::pair_limit`] does for a map. A removed key counts
    /// until `reclaim`, and so does one that was inserted while an equal one was stored.
    pub fn pair_limit(self, keys: u64) -> HashSetBuilder<K, S>
        ensures { result ≡ record {
          hasher = self.hasher;
          collector = self.collector;
          capacity = self.capacity;
          mode = self.mode;
          shards = self.shards;
          limit = Some keys;
        } }
    {
        HashSetBuilder {
            limit: Some(keys),
            ..self
        }
    }
}

/// Sets this limit, if there is one, in a map's builder that has none.
fn limited<K, S>(builder: HashMapBuilder<K, (), S>, limit: Option<u64>) -> HashMapBuilder<K, (), S>
    requires { builder.limit ≡ None }
    ensures { result ≡ record {
      hasher = builder.hasher;
      collector = builder.collector;
      capacity = builder.capacity;
      mode = builder.mode;
      shards = builder.shards;
      limit = limit;
    } }
{
    match limit {
        Some(keys) => builder.pair_limit(keys),
        None => builder,
    }
}

impl<K: Hash + Eq + Drop, S: BuildHasher + Drop> HashSetBuilder<K, S> {
    /// Builds the set: `build` of 0.2.5.
    ///
    /// # Errors
    ///
    /// Fails with `Refused::ZeroChunk`, `Refused::Capacity` or `Refused::Memory`, as
    /// [`HashSet::with_parts`] does.
    pub fn build<R: Wait>(self, rt: &R, alloc: Global) -> Result<HashSet<K, S>, Refused>
        ensures ok { IfOk result (λ set. IsAllowed self.mode self.capacity self.shards) }
        ensures made { IfOk result (IsFor self.mode self.capacity self.shards self.limit) }
        ensures hasher { IfOk result (λ set. set.begun.hasher ≡ self.hasher) }
        ensures collector { IfOk result (λ set. set.collector ≡ self.collector) }
        ensures err { IfErr result (λ e. IsSizeRefusal self.mode self.capacity self.shards e) }
    {
        let HashSetBuilder {
            hasher,
            collector,
            capacity,
            mode,
            shards,
            limit,
            keys: _,
        } = self;
        let builder = HashMap::builder()
            .hasher(hasher)
            .collector(collector)
            .capacity(capacity)
            .resize_mode(mode)
            .shards(shards);
        let map = limited(builder, limit).build(rt, alloc)?;
        Ok(HashSet { map })
    }

    /// Builds a set of the same settings for one caller; it needs no collector. 0.2.5 has no such
    /// set.
    ///
    /// # Errors
    ///
    /// Fails with `Refused::ZeroChunk`, `Refused::Capacity` or `Refused::Memory`, as
    /// [`seq::HashSet::with_parts`] does.
    pub fn build_seq(self, alloc: Global) -> Result<seq::HashSet<K, S>, Refused>
        ensures ok { IfOk result (λ set. IsAllowed self.mode self.capacity self.shards
            × IsNewLimited {A = Unit {0}} self.mode self.capacity self.shards self.hasher self.limit
            (core_of set)) }
        ensures empty { IfOk result (λ set. content K.eq set.store ≡ []) }
        ensures err { IfErr result (IsSizeRefusal self.mode self.capacity self.shards) }
    {
        let HashSetBuilder {
            hasher,
            capacity,
            mode,
            shards,
            limit,
            ..
        } = self;
        seq::HashSet::with_parts(alloc, mode, capacity, shards, hasher, limit)
    }
}

impl<K, S> fmt::Debug for HashSetBuilder<K, S> {
    fn fmt<W: fmt::Write>(&self, f: &mut fmt::Formatter<W>) -> fmt::Result {
        f.debug_struct("HashSetBuilder")
            .field("capacity", &self.capacity)
            .field("collector", &self.collector.number())
            .field("resize_mode", &self.mode)
            .finish()
    }
}
