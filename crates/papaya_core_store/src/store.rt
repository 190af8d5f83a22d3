//! The words of the tables, the arena of pairs, how many numbers were taken, and the count.
ghost use Rattle.std.specs.Prelude.{◌≡◌, ◌<◌, ◌^◌, [], FitsSigned, OnOk, IfOk, IfErr, ◌≤◌};
ghost use Rattle.std.specs.Int.{w64, IsPowerOfTwo};
ghost use Rattle.papaya_words.specs.Counter.{added, count_of};
ghost use Rattle.papaya_words.specs.declared.limits.TheConstants.{MAX_TABLE_LEN};
ghost use Rattle.papaya_core_store.specs.New.{HasCapacity, IsNewStore};
ghost use Rattle.papaya_words_keys.specs.Sizes.{IsSizeRefusal, IsAllowed};
ghost use Rattle.papaya_words_keys.specs.Hashes.{hash_of};

use crate::pairs::Pair;
use papaya_words::counter::Counter;
use papaya_words::fresh::FreshWords;
use papaya_words::limits::MAX_TABLE_LEN;
use papaya_words::probe::limit;
use papaya_words::refused::Refused;
use papaya_words::resize_mode::ResizeMode;
use papaya_words::table::{Table, table_len};
use papaya_words_keys::sizes::{check_chunk, initial_len};
use std::alloc::Global;
use std::hash::{BuildHasher, Hash, Hasher};
use std::marker::Model;

/// The words, the arena, the count, and the words written ahead of the next table.
pub struct Store<K: Hash + Eq, V, S: BuildHasher> {
    pub(crate) root: u64,
    pub(crate) tables: Vec<Table>,
    pub(crate) pairs: Vec<Pair<K, V>>,
    pub(crate) made: u64,
    counter: Counter,
    hasher: S,
    pub(crate) ahead: FreshWords,
}

impl<K: Hash + Eq, V, S: BuildHasher> Model for Store<K, V, S> {
    ghost use Rattle.papaya_core_store.specs.Store.{StoreState};

    ghost Value = { StoreState K V S };

    ghost view = { λ s. record {
      words = record { root = s.root; tables = s.tables.items; made = s.made };
      pairs = s.pairs.items;
      count = s.counter;
      hasher = s.hasher;
    } };
}

impl<K: Hash + Eq + Drop, V: Drop, S: BuildHasher + Drop> Drop for Store<K, V, S> {
    fn drop(self) {
        let Self {
            root: _,
            tables: _,
            pairs: _,
            made: _,
            counter: _,
            hasher: _,
            ahead: _,
        } = self;
    }
}

impl<K: Hash + Eq, V, S: BuildHasher> Store<K, V, S> {
    /// Creates a store without words and pairs.
    fn new(alloc: Global, counter: Counter, hasher: S) -> Store<K, V, S>
        ensures { result ≡ record {
          words = record { root = 0; tables = []; made = 0 };
          pairs = [];
          count = counter;
          hasher = hasher;
        } }
    {
        Store {
            root: 0,
            tables: Vec::new(alloc),
            pairs: Vec::new(alloc),
            made: 0,
            counter,
            hasher,
            ahead: FreshWords::new(alloc),
        }
    }

    /// Returns the hash of a key, or of a value by which a key is looked up.
    #[inline(always)]
    pub fn hash<Q: Hash>(&self, key: &Q) -> u64
        ensures value { result ≡ hash_of Q.hash_input S.build_hasher S.Hasher.write S.Hasher.finish
            self.now.hasher key.now }
        ensures fits { result < 2 ^ 64 }
    {
        let mut state = self.hasher.build_hasher();
        key.hash(&mut state);
        state.finish()
    }

    /// Returns the count of pairs.
    pub fn count(&self) -> usize
        ensures value { result ≡ count_of self.now.count.sum }
        ensures fits { FitsSigned w64 self.now.count.sum }
    {
        self.counter.sum()
    }

    /// Returns the number of shards of the count, a power of two.
    pub fn shards(&self) -> usize
        ensures count { result ≡ self.now.count.shards }
        ensures power { IsPowerOfTwo result }
    {
        self.counter.shards()
    }

    /// Returns the hasher.
    pub fn hasher(&self) -> &S
        ensures { result.now ≡ self.now.hasher }
    {
        &self.hasher
    }

    /// Adds to the shard that the caller's number selects.
    #[inline(always)]
    pub fn add_to_shard(&mut self, caller: usize, by: i64)
        ensures { self.new ≡ record self.old { count = added self.old.count caller by } }
    {
        let place = self.counter.get(caller as u64);
        self.counter.add(place, by);
    }
}

impl<K: Hash + Eq + Drop, V: Drop, S: BuildHasher + Drop> Store<K, V, S> {
    /// Creates a store without pairs, with a first table unless `capacity` is 0. Returns it with
    /// its initial capacity in slots.
    ///
    /// # Errors
    ///
    /// Fails with `Refused::ZeroChunk` for chunks of no slots. Fails with `Refused::Capacity` for
    /// more shards than [`papaya_words::limits::MAX_SHARDS`], or for a table longer than
    /// [`MAX_TABLE_LEN`]. Fails with `Refused::Memory` if memory runs out.
    pub fn with_parts(
        alloc: Global,
        mode: ResizeMode,
        capacity: usize,
        shards: usize,
        hasher: S,
    ) -> Result<(Store<K, V, S>, usize), Refused>
        ensures ok { IfOk result (λ made. IsAllowed mode capacity shards
            × IsNewStore capacity shards hasher made.1 made.0 × (made.1 ≤ MAX_TABLE_LEN)) }
        ensures err { IfErr result (λ e. IsSizeRefusal mode capacity shards e) }
    {
        check_chunk(mode)?;
        let initial = initial_len(capacity)?;
        let counter = Counter::new(alloc, shards)?;
        let mut store = Store::new(alloc, counter, hasher);
        store.open(alloc, capacity, initial)?;
        Ok((store, initial))
    }

    /// Makes the first table, for this length, and opens it, unless `capacity` is 0.
    fn open(&mut self, alloc: Global, capacity: usize, initial: usize) -> Result<(), Refused>
        requires { self.old.words ≡ record { root = 0; tables = []; made = 0 } }
        ensures ok { OnOk result (HasCapacity capacity initial self.new.words
            × (self.new ≡ record self.old { words = self.new.words })) }
        ensures err { IfErr result (λ e. e ≡ Refused.Memory) }
    {
        if capacity == 0 {
            return Ok(());
        }
        let len = table_len(initial);
        let table = Table::new(alloc, FreshWords::new(alloc), 1, len, limit(len), 0)?;
        if self.tables.push(table).is_err() {
            return Err(Refused::Memory);
        }
        self.root = 1;
        Ok(())
    }
}

impl<K: Hash + Eq + Drop, V: Drop, S: BuildHasher> Store<K, V, S> {
    /// Drops all tables and all pairs. The count stays as it is.
    pub fn clear(&mut self, alloc: Global)
        ensures words { self.new.words ≡ record { root = 0; tables = []; made = 0 } }
        ensures pairs { self.new.pairs ≡ [] }
        ensures hasher { self.new.hasher ≡ self.old.hasher }
        ensures count { self.new.count ≡ self.old.count }
    {
        self.root = 0;
        self.tables = Vec::new(alloc);
        self.pairs = Vec::new(alloc);
        self.made = 0;
        self.ahead = FreshWords::new(alloc);
    }
}

/// How a map resizes, and how many pairs it may store, if there is a limit.
#[derive(Clone, Copy)]
pub struct Mode {
    pub resize: ResizeMode,
    pub limit: Option<u64>,
}
