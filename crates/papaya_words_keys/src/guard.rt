//! Collectors and their guards, and the types by which a key is looked up.
ghost use Rattle.std.specs.Prelude.{◌≡◌, ℕ, Bool, IsTrue, bytes_eq, string_bytes};
ghost use Rattle.std.proofs.Common.{ap};
ghost use Rattle.std.specs.Cmp.Lexicographic.{bytes_decides, nat_list_eq_equiv};
ghost use Rattle.std.specs.Hash as fed;

use std::alloc::Allocator;
use std::fmt;
use std::hash::Hash;
use std::marker::{Model, PhantomData};
use std::sync::atomic::{AtomicU64, Ordering};

/// A type by which keys of type `K` can be looked up: 0.2.5's trait of that name, which it takes
/// from the crate `equivalent`.
///
/// There the author of an impl promises the trait's law. Here each impl proves it: a query hashes
/// as the keys that it matches, and it matches either no key or exactly the keys equal to one key.
pub trait Equivalent<K: Hash + Eq>: Hash {
    ghost matches: { Self → K → Bool };

    /// Returns whether the query matches this key.
    fn equivalent(&self, key: &K) -> bool
        ensures { result ≡ matches self.now key.now };

    // A query hashes as a key that it matches.
    ghost hashes_as_key: { (query : Self) (key : K) → IsTrue (matches query key)
        → Self.hash_input query ≡ K.hash_input key };

    // A query that matches a key matches the keys that equal it, and no other.
    ghost matches_equal_keys: { (query : Self) (key other : K) → IsTrue (matches query key)
        → matches query other ≡ K.eq key other };
}

/// A key matches the keys that equal it.
impl<K: Hash + Eq> Equivalent<K> for K {
    ghost matches = { λ query. K.eq query };

    ghost hashes_as_key = { λ query. K.respects_eq query };

    ghost matches_equal_keys = { λ query. K.Eq.laws.congr query };

    fn equivalent(&self, key: &K) -> bool {
        *self == *key
    }
}

/// A text by which a `String` key is looked up. It replaces `str` of 0.2.5, because a `str` that is
/// not a reference is no type here.
#[derive(Clone, Copy, PartialEq, Eq, Hash, Debug)]
pub struct TextKey<'a>(pub &'a str);

impl<A: Allocator> Equivalent<String<A>> for TextKey<'_> {
    ghost matches = { λ query key. bytes_eq query.0.now (string_bytes key) };

    ghost hashes_as_key = { λ query key same. ap fed.str
        ((bytes_decides query.0.now (string_bytes key)).0 same) };

    ghost matches_equal_keys = { λ query key other. nat_list_eq_equiv.congr query.0.now
        (string_bytes key) (string_bytes other) };

    fn equivalent(&self, key: &String<A>) -> bool {
        self.0 == key.as_str()
    }
}

/// The source of guards. It replaces the type of that name of the crate `seize`, by which 0.2.5
/// frees memory. Contracts see its number.
///
/// Here it frees nothing, and only gives its guards their numbers. Collectors are compared by the
/// number that their maker gave them, and not by address.
pub struct Collector {
    number: u64,
    guards: AtomicU64,
}

impl Model for Collector {
    ghost use Rattle.std.specs.Prelude.{ℕ};

    ghost Value = { ℕ };

    ghost view = { λ collector. collector.number };
}

impl Drop for Collector {
    fn drop(self) {
        let Self {
            number: _,
            guards: _,
        } = self;
    }
}

/// Prints the collector with its number.
impl fmt::Debug for Collector {
    fn fmt<W: fmt::Write>(&self, f: &mut fmt::Formatter<W>) -> fmt::Result {
        f.debug_struct("Collector")
            .field("number", &self.number)
            .finish_non_exhaustive()
    }
}

impl Collector {
    /// Creates a collector with this number. A second collector with the same number is not
    /// prevented: its guards count as this one's.
    pub fn new(number: u64) -> Collector
        ensures { result ≡ number }
    {
        let guards = AtomicU64::new(0);
        Collector { number, guards }
    }

    /// Returns the number with which the collector was created.
    pub fn number(&self) -> u64
        ensures { result ≡ self.now }
    {
        self.number
    }

    /// Returns a guard for a sequence of calls. Any number of guards may be alive at the same time.
    pub fn enter(&self) -> LocalGuard<'_>
        ensures { result.collector ≡ self.now }
    {
        LocalGuard {
            collector: self.number,
            own: self.guards.fetch_add(1, Ordering::SeqCst),
            borrowed: PhantomData,
        }
    }

    /// Returns a guard of the other type.
    pub fn enter_owned(&self) -> OwnedGuard<'_>
        ensures { result.collector ≡ self.now }
    {
        OwnedGuard {
            guard: self.enter(),
        }
    }
}

/// A sequence of calls: `seize`'s trait of that name.
///
/// There a guard keeps what was loaded under it from being freed. Here it has two numbers, on
/// which no safety depends. It has `collector_number` instead of `collector`, and its own `number`
/// instead of `thread_id`.
pub trait Guard {
    ghost collector_number: { Self → ℕ };

    ghost number: { Self → ℕ };

    /// Returns the number of the collector that the guard came from.
    fn collector_number(&self) -> u64
        ensures { result ≡ collector_number self.now };

    /// Returns the guard's own number, the same at each call. It selects the shard of the count to
    /// which the calls under this guard add. The guards of one collector usually have different
    /// numbers, but this is not guaranteed.
    fn number(&self) -> u64
        ensures { result ≡ number self.now };
}

/// Prints a guard by this name, with its two numbers.
fn print<G: Guard, W: fmt::Write>(name: &str, guard: &G, f: &mut fmt::Formatter<W>) -> fmt::Result {
    f.debug_struct(name)
        .field("collector", &guard.collector_number())
        .field("number", &guard.number())
        .finish()
}

/// A guard of [`Collector::enter`]: `seize`'s type of that name.
#[derive(Drop)]
pub struct LocalGuard<'a> {
    collector: u64,
    own: u64,
    borrowed: PhantomData<&'a ()>,
}

impl<'a> Model for LocalGuard<'a> {
    ghost use Rattle.papaya_words_keys.specs.Guards.{GuardNumbers};

    ghost Value = { GuardNumbers };

    ghost view = { λ guard. record { collector = guard.collector; own = guard.own } };
}

impl fmt::Debug for LocalGuard<'_> {
    fn fmt<W: fmt::Write>(&self, f: &mut fmt::Formatter<W>) -> fmt::Result {
        print("LocalGuard", self, f)
    }
}

impl Guard for LocalGuard<'_> {
    ghost collector_number = { λ guard. guard.collector };

    ghost number = { λ guard. guard.own };

    fn collector_number(&self) -> u64 {
        self.collector
    }

    fn number(&self) -> u64 {
        self.own
    }
}

/// A guard of [`Collector::enter_owned`]: `seize`'s type of that name.
///
/// There it may be sent to another thread, and a local guard may not. Here only the names differ.
#[derive(Drop)]
pub struct OwnedGuard<'a> {
    guard: LocalGuard<'a>,
}

impl<'a> Model for OwnedGuard<'a> {
    ghost use Rattle.papaya_words_keys.specs.Guards.{GuardNumbers};

    ghost Value = { GuardNumbers };

    ghost view = { λ owned. owned.guard };
}

impl fmt::Debug for OwnedGuard<'_> {
    fn fmt<W: fmt::Write>(&self, f: &mut fmt::Formatter<W>) -> fmt::Result {
        print("OwnedGuard", self, f)
    }
}

impl Guard for OwnedGuard<'_> {
    ghost collector_number = { λ guard. guard.collector };

    ghost number = { λ guard. guard.own };

    fn collector_number(&self) -> u64 {
        self.guard.collector_number()
    }

    fn number(&self) -> u64 {
        self.guard.number()
    }
}
