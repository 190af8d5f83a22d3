//! Pairs as they are stored, and calls under way.
ghost use Rattle.std.specs.Prelude.{◌≡◌, ℕ, List, ◌++◌, length, Some};
ghost use Rattle.papaya_call.specs.declared.ask.Answer.{Answer};
ghost use Rattle.papaya_core_store.specs.Pairs.{brought_by, key_part, owned, pair_with};
ghost use Rattle.papaya_core_store.specs.Performs.{PushesOf, PushesOwn, own_key, own_value};
ghost use Rattle.papaya_core_store.specs.Store.{StoreState, Stored, pair_of};

use papaya_call::chain::machine::Machine;

/// A pair as it is stored. A key or a value that an earlier pair brought is not stored again: the
/// pair names that earlier one, which has it itself.
///
/// It is one enum of the four cases instead of two parts, so that it takes one tag.
pub enum Pair<K, V> {
    /// The pair brought its key and its value.
    Own(K, V),
    /// The pair brought its value. The pair of this number brought its key.
    Keyed(usize, V),
    /// The pair brought its key. The pair of this number brought its value.
    Lent(K, usize),
    /// The pair of the first number brought its key, and that of the second its value.
    Both(usize, usize),
}

impl<K: Drop, V: Drop> Drop for Pair<K, V> {
    fn drop(self) {
        match self {
            Pair::Own(_, _) => {}
            Pair::Keyed(_, _) => {}
            Pair::Lent(_, _) => {}
            Pair::Both(_, _) => {}
        }
    }
}

/// The key or the value of a call: as it was passed in or returned, or, once it is stored, the
/// number of the pair that brought it.
#[derive(Drop)]
pub enum Part<T> {
    Own(T),
    Logged(usize),
}

/// A call under way: its machine, and the key and the value of which it makes pairs.
#[derive(Drop)]
pub struct Running<K, V, A> {
    pub machine: Machine,
    pub key: Part<K>,
    pub value: Option<Part<V>>,
    /// The closure's results that are yet to come.
    pub answers: Option<A>,
}

impl<T> Part<T> {
    /// Returns the value, if it is not stored in the arena yet.
    #[inline(always)]
    pub fn own(self) -> Option<T>
        ensures { result ≡ owned self }
    {
        match self {
            Part::Own(part) => Some(part),
            Part::Logged(_) => None,
        }
    }

    /// Returns the part that pair `n` is stored with, and the part that the call then has.
    #[inline(always)]
    pub(crate) fn lend(self, n: usize) -> (Part<T>, Part<T>)
        ensures { result ≡ (self, Part.Logged (brought_by n self)) }
    {
        match self {
            Part::Own(part) => (Part::Own(part), Part::Logged(n)),
            Part::Logged(first) => (Part::Logged(first), Part::Logged(first)),
        }
    }
}

impl<K, V> Pair<K, V> {
    /// Returns a pair of this key and this value.
    #[inline(always)]
    pub(crate) fn of(key: Part<K>, value: Part<V>) -> Pair<K, V>
        ensures { result ≡ pair_with key value }
    {
        match (key, value) {
            (Part::Own(key), Part::Own(value)) => Pair::Own(key, value),
            (Part::Logged(first), Part::Own(value)) => Pair::Keyed(first, value),
            (Part::Own(key), Part::Logged(first)) => Pair::Lent(key, first),
            (Part::Logged(first), Part::Logged(second)) => Pair::Both(first, second),
        }
    }

    /// Returns the number of the pair that brought the key, if this is pair `n`.
    #[inline(always)]
    pub(crate) fn key_from(&self, n: usize) -> usize
        ensures { result ≡ brought_by n (key_part self.now) }
    {
        match self {
            Pair::Own(..) | Pair::Lent(..) => n,
            Pair::Keyed(first, _) | Pair::Both(first, _) => *first,
        }
    }
}

/// States what the numbers of pairs mean. A pair that is stored for a call has the call's key, or
/// that of the pair named, and the call's value. The call has both from then on. A number means the
/// same after more pairs are stored.
pub fn numbers_mean<K, V, S, A>()
    ensures stays { (s : StoreState K V S) (more : List (Pair K V)) (n : ℕ) (p : Stored K V)
        → pair_of s n ≡ Some p → pair_of (record s { pairs = s.pairs ++ more }) n ≡ Some p }
    ensures own { (s s' : StoreState K V S) (r r' : Running K V A) (a : Answer) (k : K) (v : V)
        → own_key s r ≡ Some k → own_value s r ≡ Some v → PushesOwn a s r s' r'
        → (pair_of s' (length s.pairs)
        ≡ Some (record { number = length s.pairs; key = k; value = v }))
        × (own_key s' r' ≡ Some k) × (own_value s' r' ≡ Some v) }
    ensures of { (s s' : StoreState K V S) (r r' : Running K V A) (a : Answer) (k : K) (n : ℕ)
        (p : Stored K V) (v : V) → own_key s r ≡ Some k → pair_of s n ≡ Some p
        → own_value s r ≡ Some v → PushesOf n a s r s' r' → (pair_of s' (length s.pairs)
        ≡ Some (record { number = length s.pairs; key = p.key; value = v }))
        × (own_key s' r' ≡ Some k) × (own_value s' r' ≡ Some v) }
{}
