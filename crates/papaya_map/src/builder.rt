//! The builder of a map, with a method for each setting.
ghost use Rattle.std.specs.Prelude.{◌≡◌, [], IfErr, IfOk, None, Some};
ghost use Rattle.std.specs.Arc.{arc_value};
ghost use Rattle.papaya_words.specs.declared.limits.TheConstants.{DEFAULT_CHUNK, DEFAULT_SHARDS};
ghost use Rattle.papaya_words_keys.specs.Sizes.{IsAllowed, IsSizeRefusal};
ghost use Rattle.papaya_core_timeline.specs.Content.{content};
ghost use Rattle.papaya_core_timeline.specs.New.{IsNewLimited};
ghost use Rattle.papaya_seq.specs.Map.{core_of};
ghost use Rattle.papaya_map.specs.Fixed.{IsFor};

use crate::map::HashMap;
use papaya_seq::seq;
use papaya_words::limits::DEFAULT_SHARDS;
use papaya_words::refused::Refused;
use papaya_words::resize_mode::ResizeMode;
use papaya_words_keys::guard::Collector;
use std::alloc::Global;
use std::fmt;
use std::hash::{BuildHasher, BuildHasherDefault, FoldHasher, Hash};
use std::marker::{Model, PhantomData};
use std::sync::{Arc, Wait};

/// A builder of maps, which holds their settings: `HashMapBuilder` of 0.2.5. Contracts see each
/// setting. If a setting is out of range, the call that builds the map fails.
#[derive(Drop)]
pub struct HashMapBuilder<K, V, S = BuildHasherDefault<FoldHasher>> {
    hasher: S,
    collector: Collector,
    capacity: usize,
    mode: ResizeMode,
    shards: usize,
    limit: Option<u64>,
    pairs: PhantomData<(K, V)>,
}

impl<K, V, S> Model for HashMapBuilder<K, V, S> {
    ghost use Rattle.papaya_map.specs.Wanted.{Wanted};

    ghost Value = { Wanted S };

    ghost view = { λ b. record {
      hasher = b.hasher;
      collector = b.collector;
      capacity = b.capacity;
      mode = b.mode;
      shards = b.shards;
      limit = b.limit;
    } };
}

impl<K: Hash + Eq, V> HashMap<K, V, BuildHasherDefault<FoldHasher>> {
    /// Returns a builder with the default settings: `builder` of 0.2.5. The map has no initial
    /// capacity, resizes by [`ResizeMode::default`], copying 64 slots at a time, and counts over
    /// [`DEFAULT_SHARDS`] shards, 16. It has no limit on stored entries, and its collector has
    /// number 0.
    ///
    /// # Examples
    ///
    /// ```
    /// let map: HashMap<u64, u64> = HashMap::builder()
    ///     .capacity(1000)
    ///     .resize_mode(ResizeMode::Blocking)
    ///     .build(rt, alloc)?;
    /// ```
    pub fn builder() -> HashMapBuilder<K, V, BuildHasherDefault<FoldHasher>>
        ensures collector { result.collector ≡ 0 }
        ensures capacity { result.capacity ≡ 0 }
        ensures mode { result.mode ≡ ResizeMode.Incremental DEFAULT_CHUNK }
        ensures shards { result.shards ≡ DEFAULT_SHARDS }
        ensures limit { result.limit ≡ None }
    {
        HashMapBuilder {
            hasher: BuildHasherDefault::new(),
            collector: Collector::new(0),
            capacity: 0,
            mode: ResizeMode::default(),
            shards: DEFAULT_SHARDS,
            limit: None,
            pairs: PhantomData,
        }
    }
}

impl<K, V, S: Drop> HashMapBuilder<K, V, S> {
    /// Sets the hasher, by default a `FoldHasher` with a fixed seed: `hasher` of 0.2.5.
    pub fn hasher<T>(self, hasher: T) -> HashMapBuilder<K, V, T>
        ensures { result ≡ record {
          hasher = hasher;
          collector = self.collector;
          capacity = self.capacity;
          mode = self.mode;
          shards = self.shards;
          limit = self.limit;
        } }
    {
        let HashMapBuilder {
            hasher: _,
            collector,
            capacity,
            mode,
            shards,
            limit,
            pairs,
        } = self;
        HashMapBuilder {
            hasher,
            collector,
            capacity,
            mode,
            shards,
            limit,
            pairs,
        }
    }
}

impl<K, V, S> HashMapBuilder<K, V, S> {
    /// Sets the collector: `collector` of 0.2.5. The map accepts guards of that collector's number.
    pub fn collector(self, collector: Collector) -> HashMapBuilder<K, V, S>
        ensures { result ≡ record {
          hasher = self.hasher;
          collector = collector;
          capacity = self.capacity;
          mode = self.mode;
          shards = self.shards;
          limit = self.limit;
        } }
    {
        HashMapBuilder { collector, ..self }
    }

    /// Sets a collector that several maps share: `shared_collector` of 0.2.5. Only the collector's
    /// number identifies it. So each of these maps accepts a guard of any of them, or of the
    /// collector itself. The map stores the number, and numbers the guards that it creates itself.
    pub fn shared_collector(self, collector: Arc<Collector>) -> HashMapBuilder<K, V, S>
        ensures { result ≡ record {
          hasher = self.hasher;
          collector = arc_value collector;
          capacity = self.capacity;
          mode = self.mode;
          shards = self.shards;
          limit = self.limit;
        } }
    {
        let number = collector.number();
        self.collector(Collector::new(number))
    }

    /// Sets for how many entries the first table has room: `capacity` of 0.2.5. The default is 0:
    /// then the first change allocates a table of 32 slots.
    pub fn capacity(self, capacity: usize) -> HashMapBuilder<K, V, S>
        ensures { result ≡ record {
          hasher = self.hasher;
          collector = self.collector;
          capacity = capacity;
          mode = self.mode;
          shards = self.shards;
          limit = self.limit;
        } }
    {
        HashMapBuilder { capacity, ..self }
    }

    /// Sets how the map resizes, by default `Incremental(64)`: `resize_mode` of 0.2.5.
    pub fn resize_mode(self, mode: ResizeMode) -> HashMapBuilder<K, V, S>
        ensures { result ≡ record {
          hasher = self.hasher;
          collector = self.collector;
          capacity = self.capacity;
          mode = mode;
          shards = self.shards;
          limit = self.limit;
        } }
    {
        HashMapBuilder { mode, ..self }
    }

    /// Sets the number of shards of the count, by default 16. It is rounded up to a power of two.
    /// 0.2.5 derives it from the number of processors.
    pub fn shards(self, shards: usize) -> HashMapBuilder<K, V, S>
        ensures { result ≡ record {
          hasher = self.hasher;
          collector = self.collector;
          capacity = self.capacity;
          mode = self.mode;
          shards = shards;
          limit = self.limit;
        } }
    {
        HashMapBuilder { shards, ..self }
    }

    /// Sets how many entries the map may store at most, including those that were replaced or
    /// removed. A call that would store one more fails with `Refused::Limit`. After `reclaim`, only
    /// the entries that are in the map count. With a limit of 0 no entry can be stored. 0.2.5 has
    /// no such limit.
    pub fn pair_limit(self, pairs: u64) -> HashMapBuilder<K, V, S>
        ensures { result ≡ record {
          hasher = self.hasher;
          collector = self.collector;
          capacity = self.capacity;
          mode = self.mode;
          shards = self.shards;
          limit = Some pairs;
        } }
    {
        HashMapBuilder {
            limit: Some(pairs),
            ..self
        }
    }
}

impl<K: Hash + Eq + Drop, V: Drop, S: BuildHasher + Drop> HashMapBuilder<K, V, S> {
    /// Builds the map: `build` of 0.2.5.
    ///
    /// # Errors
    ///
    /// Fails with `Refused::ZeroChunk`, `Refused::Capacity` or `Refused::Memory`, as
    /// [`HashMap::with_parts`] does.
    pub fn build<R: Wait>(self, rt: &R, alloc: Global) -> Result<HashMap<K, V, S>, Refused>
        ensures ok { IfOk result (λ map. IsAllowed self.mode self.capacity self.shards) }
        ensures made { IfOk result (IsFor self.mode self.capacity self.shards self.limit) }
        ensures hasher { IfOk result (λ map. map.begun.hasher ≡ self.hasher) }
        ensures collector { IfOk result (λ map. map.collector ≡ self.collector) }
        ensures err { IfErr result (λ e. IsSizeRefusal self.mode self.capacity self.shards e) }
    {
        let HashMapBuilder {
            hasher,
            collector,
            capacity,
            mode,
            shards,
            limit,
            pairs: _,
        } = self;
        HashMap::with_collector(rt, alloc, mode, capacity, shards, hasher, limit, collector)
    }

    /// Builds a map for one caller with the same settings, except the collector. 0.2.5 has no such
    /// map.
    ///
    /// # Errors
    ///
    /// Fails with `Refused::ZeroChunk`, `Refused::Capacity` or `Refused::Memory`, as
    /// [`seq::HashMap::with_parts`] does.
    pub fn build_seq(self, alloc: Global) -> Result<seq::HashMap<K, V, S>, Refused>
        ensures ok { IfOk result (λ map. IsAllowed self.mode self.capacity self.shards
            × IsNewLimited {A = Unit {0}} self.mode self.capacity self.shards self.hasher self.limit
            (core_of map)) }
        ensures empty { IfOk result (λ map. content K.eq map.store ≡ []) }
        ensures err { IfErr result (IsSizeRefusal self.mode self.capacity self.shards) }
    {
        let HashMapBuilder {
            hasher,
            capacity,
            mode,
            shards,
            limit,
            ..
        } = self;
        seq::HashMap::with_parts(alloc, mode, capacity, shards, hasher, limit)
    }
}

impl<K, V, S> fmt::Debug for HashMapBuilder<K, V, S> {
    fn fmt<W: fmt::Write>(&self, f: &mut fmt::Formatter<W>) -> fmt::Result {
        f.debug_struct("HashMapBuilder")
            .field("capacity", &self.capacity)
            .field("collector", &self.collector.number())
            .field("resize_mode", &self.mode)
            .finish()
    }
}
