//! The map that threads share, and how it is pinned.
ghost use Rattle.std.specs.Prelude.{◌≡◌, None, []};
ghost use Rattle.std.specs.Int.{IsPowerOfTwo};
ghost use mathlib.Core.List.{IsPrefix};
ghost use Rattle.papaya_map_book.specs.Limits.{tables_of};
ghost use Rattle.papaya_map_book.specs.Parts.{begun_of};
ghost use Rattle.papaya_map_book.specs.Windows.{IsOpen};
ghost use Rattle.papaya_map_lookup.specs.Drivers.{own, past};
ghost use Rattle.papaya_map_lookup.specs.History.{IsLegalHistory, history_of, key_of};
ghost use Rattle.papaya_map.specs.Fixed.{Fixed, HasLearned, Pinned};
ghost use Rattle.papaya_map.specs.Powers.{IsPowerOfTwo-prop};

mod computes;
mod guards;
mod inserting;
mod lookups;
pub mod making;
mod observed;
pub mod read_only;
mod removals;
mod resizing;
mod scans;
mod sizes;
mod updating;

pub use crate::pass::Pass;
use papaya_map_book::book::Book;
use papaya_map_book::book::kept::KeptRoot;
use papaya_map_book::count::Count;
use papaya_map_book::rule::offer::Seen;
use papaya_map_book::window::Window;
use papaya_words_keys::guard::{Collector, Guard};
use std::alloc::Global;
use std::hash::{BuildHasher, BuildHasherDefault, FoldHasher, Hash};
use std::marker::Model;

/// A hash map that threads share: `HashMap` of 0.2.5. Threads call it through a
/// [`Session`](crate::session::Session), through a pinned map ([`HashMap::pin`]), or with a guard
/// ([`HashMap::guard`]).
///
/// A replaced or removed entry stays in memory until [`HashMap::reclaim`] or until the map is
/// dropped. An entry of two `u64`s takes 24 bytes. The arena's rows double, so an entry keeps 24 to
/// 48 bytes of memory resident.
///
/// In the examples of its calls, `map` is an empty `HashMap<u64, u64>` that no other thread changes.
/// `rt` is the runtime that `main` gets, and `alloc` is the allocator, `rt.alloc()`.
///
/// Contracts see what is fixed when the map is created: its book, hasher, resize mode and arenas,
/// its initial capacity, and its number of shards. They also see the tables that it had from the
/// start, and the history observed at that point.
pub struct HashMap<K: Hash + Eq, V, S: BuildHasher = BuildHasherDefault<FoldHasher>> {
    pub(crate) alloc: Global,
    pub(crate) initial: usize,
    pub(crate) count: Count,
    pub(crate) collector: Collector,
    pub(crate) book: Book<K, V, S>,
    opened: Seen<K, V, S>,
    ghost power: { IsPowerOfTwo initial } by { IsPowerOfTwo-prop initial },
    ghost opened_book: { opened.book ≡ book.begun.book },
    ghost open: { book.gate.era ≡ None },
}

impl<K: Hash + Eq, V, S: BuildHasher> Model for HashMap<K, V, S> {
    ghost Value = { Fixed K V S };

    ghost view = { λ m. record {
      book = m.book.begun.book;
      begun = begun_of m.book.parts;
      initial = m.initial;
      shards = m.count;
      collector = m.collector;
      opened = tables_of m.opened.log;
      seen = history_of m.opened.log;
    } };

    ghost invariant = { λ m. IsLegalHistory K.eq key_of (history_of m.opened.log) };
}

impl<K: Hash + Eq + Drop, V: Drop, S: BuildHasher + Drop> Drop for HashMap<K, V, S> {
    fn drop(self) {
        let Self {
            alloc: _,
            initial: _,
            count: _,
            collector: _,
            book: _,
            opened: _,
        } = self;
    }
}

/// A pinned map: `HashMapRef` of 0.2.5, but without a guard. Its calls take no guard and record no
/// history. References that they return live as long as the borrow of the map; in 0.2.5 they live
/// only as long as the pin. A pinned map remembers the root table at the time of the pin, so that
/// calls need not look it up again.
///
/// Contracts see what they see of the map, and the history that the pinned map has observed.
pub struct HashMapRef<'a, K: Hash + Eq, V, S: BuildHasher> {
    pub(crate) map: &'a HashMap<K, V, S>,
    kept: KeptRoot<'a, K, V, S>,
    seen: Seen<K, V, S>,
    ghost seen_book: { seen.book ≡ map.now.book },
}

impl<'a, K: Hash + Eq, V, S: BuildHasher> Model for HashMapRef<'a, K, V, S> {
    ghost Value = { Pinned K V S };

    ghost view = { λ r. record { map = r.map.now; seen = history_of r.seen.log } };

    ghost invariant = { λ r. (r.kept ≡ r.map.now.book)
        × IsLegalHistory K.eq key_of (history_of r.seen.log) };
}

// By hand, so that a caller's proof knows the whole value to its end.
impl<'a, K: Hash + Eq, V, S: BuildHasher> Drop for HashMapRef<'a, K, V, S> {
    fn drop(self) {
        let Self { map: _, kept, seen } = self;
        drop(seen);
        drop(kept);
    }
}

impl<K: Hash + Eq, V, S: BuildHasher> HashMap<K, V, S> {
    /// Pins the map: `pin` of 0.2.5. Returns a pinned map, on which calls are made without a guard.
    /// The call writes no word. The pinned map has observed the history up to the map's creation;
    /// [`HashMapRef::after`] returns one that has observed more.
    ///
    /// # Examples
    ///
    /// ```
    /// let pinned = map.pin();
    /// let old = pinned.insert(rt, 1, 10)?; // None
    /// let value = pinned.get(&1); // Some(&10)
    /// ```
    #[inline]
    pub fn pin(&self) -> HashMapRef<'_, K, V, S>
        ensures map { result.map ≡ self.now }
        ensures seen { IsPrefix self.now.seen result.seen }
    {
        let kept = self.book.keep_root();
        let mut seen = self.book.unseen();
        seen.learn(&self.opened);
        HashMapRef {
            map: self,
            kept,
            seen,
        }
    }

    /// Pins the map as [`HashMap::pin`] does: `pin_owned` of 0.2.5. There only this pinned map may
    /// be sent to another thread. Here every pinned map may, since it holds no guard.
    pub fn pin_owned(&self) -> HashMapRef<'_, K, V, S>
        ensures map { result.map ≡ self.now }
        ensures seen { IsPrefix self.now.seen result.seen }
    {
        self.pin()
    }

    /// Returns the number of entries: `len` of 0.2.5. It adds up the shards of the count. Each
    /// change is counted one step after it is made, so a change that another thread is making may
    /// be counted or not.
    ///
    /// # Examples
    ///
    /// ```
    /// map.pin().insert(rt, 1, 10)?;
    /// map.pin().insert(rt, 1, 11)?;
    /// let len = map.len(); // 1
    /// ```
    pub fn len(&self) -> usize {
        self.count.sum()
    }

    /// Returns whether [`HashMap::len`] is 0: `is_empty` of 0.2.5.
    pub fn is_empty(&self) -> bool {
        self.len() == 0
    }

    /// Returns a new pass of this map, which has observed no change yet. Users call
    /// [`Session::new`](crate::session::Session::new).
    pub fn pass(&self) -> Pass<K, V, S>
        ensures book { result.book ≡ self.now.book }
        ensures new { result.history ≡ [] }
        ensures made { result.made ≡ [] }
        ensures tables { result.tables ≡ [] }
        ensures given { result.given ≡ [] }
    {
        self.numbered(self.number())
    }

    /// For this library's own calls. Draws the number by which a pass picks a shard of the count, if
    /// no guard gives one.
    pub fn number(&self) -> u64 {
        self.collector.enter().number()
    }

    /// For this library's own calls. Records in a pass which table the map was created with, if it
    /// was created with a capacity. Does nothing at run time.
    pub fn learn_opened(&self, pass: &mut Pass<K, V, S>)
        requires { pass.old.book ≡ self.now.book }
        ensures book { pass.new.book ≡ pass.old.book }
        ensures seen { IsPrefix pass.old.history pass.new.history }
        ensures opened { IsPrefix self.now.opened pass.new.tables }
        ensures tables { IsPrefix pass.old.tables pass.new.tables }
        ensures made { pass.new.made ≡ pass.old.made }
        ensures given { pass.new.given ≡ pass.old.given }
    {
        pass.sight.learn(&self.opened);
    }

    /// For this library's own calls. Records in the map what a pass has observed, so that each later
    /// pin has observed it too. A call that fills a new map uses this. Does nothing at run time.
    pub fn learn(&mut self, pass: &Pass<K, V, S>)
        requires { pass.now.book ≡ self.old.book }
        ensures same { HasLearned self.old self.new }
        ensures passed { IsPrefix pass.now.history self.new.seen }
    {
        self.opened.learn(&pass.sight);
    }

    /// For this library's own calls. Returns a new pass of this map, whose calls pick the count's
    /// shard by this number, such as a guard's.
    pub fn numbered(&self, number: u64) -> Pass<K, V, S>
        ensures book { result.book ≡ self.now.book }
        ensures new { result.history ≡ [] }
        ensures made { result.made ≡ [] }
        ensures tables { result.tables ≡ [] }
        ensures given { result.given ≡ [] }
    {
        let sight = self.book.unseen();
        Pass::new(Some(number), sight)
    }

    /// For this library's own calls. Returns a new pass of this map, which has observed the history
    /// up to the map's creation. Its calls pick the count's shard by this number if there is one,
    /// and otherwise by the key.
    #[inline(always)]
    pub fn begun(&self, number: Option<u64>) -> Pass<K, V, S>
        ensures book { result.book ≡ self.now.book }
        ensures seen { result.history ≡ self.now.seen }
        ensures made { result.made ≡ [] }
        ensures given { result.given ≡ [] }
    {
        Pass::new(number, self.opened.again())
    }
}

impl<'a, K: Hash + Eq, V, S: BuildHasher> HashMapRef<'a, K, V, S> {
    /// Returns the map that was pinned: `map` of 0.2.5.
    pub fn map(&self) -> &'a HashMap<K, V, S>
        ensures { result.now ≡ self.now.map }
    {
        self.map
    }

    /// Returns the same pinned map again.
    #[inline(always)]
    pub(crate) fn again(&self) -> HashMapRef<'a, K, V, S>
        ensures { result ≡ self.now }
    {
        HashMapRef {
            map: self.map,
            kept: self.kept.again(),
            seen: self.seen.again(),
        }
    }

    /// Returns the same pinned map, which has observed what this pass has as well. So a result of
    /// its calls is correct for a state after all that the pass had observed. Does nothing at run
    /// time.
    pub fn after(&self, pass: &Pass<K, V, S>) -> HashMapRef<'a, K, V, S>
        requires { pass.now.book ≡ self.now.map.book }
        ensures map { result.map ≡ self.now.map }
        ensures seen { IsPrefix self.now.seen result.seen }
        ensures passed { IsPrefix pass.now.history result.seen }
    {
        let mut seen = self.seen.again();
        seen.learn(&pass.sight);
        HashMapRef {
            map: self.map,
            kept: self.kept.again(),
            seen,
        }
    }

    /// Returns the number of entries: `len` of 0.2.5. It adds up the shards of the count. Each
    /// change is counted one step after it is made, so a change that another thread is making may
    /// be counted or not.
    pub fn len(&self) -> usize {
        self.map.len()
    }

    /// Returns whether [`HashMap::len`] is 0: `is_empty` of 0.2.5.
    pub fn is_empty(&self) -> bool {
        self.map.is_empty()
    }

    /// For this library's own calls. Returns a new pass of this map, which has observed the history
    /// up to the pin. Its calls pick the count's shard by this number if there is one, and otherwise
    /// by the key.
    #[inline(always)]
    pub fn begun(&self, number: Option<u64>) -> Pass<K, V, S>
        ensures book { result.book ≡ self.now.map.book }
        ensures seen { result.history ≡ self.now.seen }
        ensures made { result.made ≡ [] }
        ensures given { result.given ≡ [] }
    {
        Pass::new(number, self.seen.again())
    }

    /// Returns a window for a call by this pass, which has observed what the pass has. It takes the
    /// list of the pass's changes, which [`Pass::keep`] puts back.
    #[inline(always)]
    pub(crate) fn window(&self, pass: &mut Pass<K, V, S>) -> Window<'a, K, V, S>
        requires { pass.old.book ≡ self.now.map.book }
        ensures book { result.book.now.begun.book ≡ pass.old.book }
        ensures begun { begun_of result.book.now.parts ≡ self.now.map.begun }
        ensures history { past result ≡ pass.old.history }
        ensures made { own result ≡ pass.old.made }
        ensures tables { tables_of result.sight.log ≡ pass.old.tables }
        ensures open { IsOpen result }
        ensures rest { (pass.new.book ≡ pass.old.book) × (pass.new.history ≡ pass.old.history)
            × (pass.new.tables ≡ pass.old.tables) × (pass.new.given ≡ pass.old.given) }
    {
        let map = self.map;
        pass.window(&map.book, &self.kept)
    }

    /// Shares what two passes of this map have observed. Afterwards both have observed one history,
    /// which begins with what each had observed. Does nothing at run time, and never fails.
    pub fn meet(&self, a: &mut Pass<K, V, S>, b: &mut Pass<K, V, S>)
        requires first { a.old.book ≡ self.now.map.book }
        requires second { b.old.book ≡ self.now.map.book }
        ensures books { (a.new.book ≡ a.old.book) × (b.new.book ≡ b.old.book) }
        ensures made { (a.new.made ≡ a.old.made) × (b.new.made ≡ b.old.made) }
        ensures one { (a.new.history ≡ b.new.history) × (a.new.tables ≡ b.new.tables) }
        ensures first { IsPrefix a.old.history a.new.history × IsPrefix a.old.tables a.new.tables }
        ensures second { IsPrefix b.old.history b.new.history × IsPrefix b.old.tables b.new.tables }
    {
        a.sight.learn(&b.sight);
        b.sight = a.sight.again();
    }
}
