//! The arena of pairs: each is logged once, and read by its number.
ghost use Rattle.std.specs.Prelude.{◌≡◌, ◌<◌, length, vec_len, vec_capacity, Some, None};
ghost use Rattle.std.specs.Prelude.{MatchOption, OnOk, IfOk, IfErr, IsSome, slice_get};
ghost use Rattle.papaya_core_store.specs.Pairs.{brought_by, key_brought, key_from, value_brought};
ghost use Rattle.papaya_core_store.specs.Store.{pair_of, stored_in};
ghost use Rattle.papaya_core_store.specs.Performs.{IsPushed, Refuses};

use crate::pairs::{Pair, Part};
use crate::store::Store;
use papaya_call::ask::Answer;
use papaya_words::limits::MAX_LOG_LEN;
use papaya_words::refused::Refused;
use std::hash::{BuildHasher, Hash};
use std::mem;

/// Makes room for one more item of a full list. Apart from the push, which is then straight code.
#[cold]
#[inline(never)]
fn reserve_one<T>(items: &mut Vec<T>) -> Result<(), Refused>
    ensures same { items.new.items ≡ items.old.items }
    ensures room { OnOk result (vec_len items.new < vec_capacity items.new) }
    ensures err { IfErr result (λ e. e ≡ Refused.Memory) }
{
    match items.reserve(1) {
        Ok(()) => Ok(()),
        Err(_) => Err(Refused::Memory),
    }
}

/// Returns the number of the next item of a list, and makes room for it.
#[inline(always)]
fn next_in<T>(items: &mut Vec<T>) -> Result<usize, Refused>
    ensures same { items.new.items ≡ items.old.items }
    ensures ok { IfOk result (λ n. (n ≡ length items.old.items) × (n < MAX_LOG_LEN)) }
    ensures room { OnOk result (vec_len items.new < vec_capacity items.new) }
    ensures err { IfErr result (λ e. Refuses MAX_LOG_LEN (length items.old.items)
        (Answer.Refused e)) }
{
    let n = items.len();
    if n >= MAX_LOG_LEN {
        return Err(Refused::Capacity);
    }
    if n >= items.capacity() {
        reserve_one(items)?;
    }
    Ok(n)
}

impl<K: Hash + Eq, V, S: BuildHasher> Store<K, V, S> {
    /// Returns how many pairs are stored.
    pub fn stored(&self) -> usize
        ensures { result ≡ length self.now.pairs }
    {
        self.pairs.len()
    }

    /// Returns a pair by its number.
    #[inline(always)]
    pub fn pair(&self, n: u64) -> Option<(&K, &V)>
        ensures { MatchOption result (pair_of self.now n ≡ None)
            (λ p. pair_of self.now n ≡ Some (record {
              number = n;
              key = p.0.now;
              value = p.1.now;
            })) }
    {
        match self.pairs.get(n as usize)? {
            Pair::Own(key, value) => Some((key, value)),
            Pair::Keyed(first, value) => Some((self.key_brought(*first)?, value)),
            pair => self.named(n as usize, pair),
        }
    }

    /// Returns the key and the value of a pair that is stored.
    #[inline(always)]
    pub fn stored_entry(&self, n: u64) -> (&K, &V)
        requires { IsSome (pair_of self.now n) }
        ensures { pair_of self.now n ≡ Some (record {
          number = n;
          key = result.0.now;
          value = result.1.now;
        }) }
    {
        match &self.pairs[n as usize] {
            Pair::Own(key, value) => (key, value),
            Pair::Keyed(first, value) => (self.stored_key(*first), value),
            pair => self.stored_apart(n as usize, pair),
        }
    }

    /// Returns the value of a pair that is stored, and reads nothing of a key of another pair.
    #[inline(always)]
    pub fn stored_value(&self, n: u64) -> &V
        requires { IsSome (pair_of self.now n) }
        ensures { (p : _) → pair_of self.now n ≡ Some p → result.now ≡ p.value }
    {
        match &self.pairs[n as usize] {
            Pair::Own(_, value) | Pair::Keyed(_, value) => value,
            pair => self.stored_apart(n as usize, pair).1,
        }
    }

    /// Returns the key of pair `n`, which brought one.
    #[inline(always)]
    fn stored_key(&self, n: usize) -> &K
        requires { IsSome (key_brought (slice_get self.now.pairs n)) }
        ensures { key_brought (slice_get self.now.pairs n) ≡ Some result.now }
    {
        match &self.pairs[n] {
            Pair::Own(key, _) | Pair::Lent(key, _) => key,
            Pair::Keyed(..) | Pair::Both(..) => unreachable!(),
        }
    }

    /// Returns the key and the value of pair `n`, whose value another pair brought.
    #[cold]
    #[inline(never)]
    fn stored_apart<'a>(&'a self, n: usize, pair: &'a Pair<K, V>) -> (&'a K, &'a V)
        requires { IsSome (stored_in self.now.pairs n (Some pair.now)) }
        ensures { stored_in self.now.pairs n (Some pair.now) ≡ Some (record {
          number = n;
          key = result.0.now;
          value = result.1.now;
        }) }
    {
        match self.named(n, pair) {
            Some(entry) => entry,
            None => unreachable!(),
        }
    }

    /// Returns the key and the value of pair `n`, which does not have both itself.
    #[cold]
    #[inline(never)]
    fn named<'a>(&'a self, n: usize, pair: &'a Pair<K, V>) -> Option<(&'a K, &'a V)>
        ensures { MatchOption result (stored_in self.now.pairs n (Some pair.now) ≡ None)
            (λ p. stored_in self.now.pairs n (Some pair.now) ≡ Some (record {
              number = n;
              key = p.0.now;
              value = p.1.now;
            })) }
    {
        match pair {
            Pair::Own(key, value) => Some((key, value)),
            Pair::Keyed(first, value) => Some((self.key_brought(*first)?, value)),
            Pair::Lent(key, first) => Some((key, self.value_brought(*first)?)),
            Pair::Both(first, second) => {
                let key = self.key_brought(*first)?;
                Some((key, self.value_brought(*second)?))
            }
        }
    }

    /// Returns the key of pair `n`, if it brought one.
    #[inline(always)]
    pub(crate) fn key_brought(&self, n: usize) -> Option<&K>
        ensures { MatchOption result (key_brought (slice_get self.now.pairs n) ≡ None)
            (λ key. key_brought (slice_get self.now.pairs n) ≡ Some key.now) }
    {
        match self.pairs.get(n)? {
            Pair::Own(key, _) | Pair::Lent(key, _) => Some(key),
            Pair::Keyed(..) | Pair::Both(..) => None,
        }
    }

    /// Returns the value of pair `n`, if it brought one.
    fn value_brought(&self, n: usize) -> Option<&V>
        ensures { MatchOption result (value_brought (slice_get self.now.pairs n) ≡ None)
            (λ value. value_brought (slice_get self.now.pairs n) ≡ Some value.now) }
    {
        match self.pairs.get(n)? {
            Pair::Own(_, value) | Pair::Keyed(_, value) => Some(value),
            Pair::Lent(..) | Pair::Both(..) => None,
        }
    }

    /// Returns the number of the pair that brought the key of pair `n`, if there is that pair.
    #[inline(always)]
    pub fn key_from(&self, n: u64) -> Option<usize>
        ensures { result ≡ key_from n (slice_get self.now.pairs n) }
    {
        match self.pairs.get(n as usize) {
            Some(pair) => Some(pair.key_from(n as usize)),
            None => None,
        }
    }
}

impl<K: Hash + Eq + Drop, V: Drop, S: BuildHasher> Store<K, V, S> {
    /// Stores a pair of this key and this value in the arena, and returns its number. Afterwards
    /// both name the pairs that brought them.
    ///
    /// # Errors
    ///
    /// Fails with `Refused::Memory` or `Refused::Capacity`, and then leaves both as they are.
    #[inline(always)]
    pub fn store_pair(&mut self, key: &mut Part<K>, value: &mut Part<V>) -> Result<u64, Refused>
        ensures ok { IfOk result (λ n. IsPushed n key.old value.old self.old self.new
            × (key.new ≡ Part.Logged (brought_by n key.old))
            × (value.new ≡ Part.Logged (brought_by n value.old))) }
        ensures err { IfErr result (λ e. Refuses MAX_LOG_LEN (length self.old.pairs)
            (Answer.Refused e) × (self.new ≡ self.old) × (key.new ≡ key.old)
            × (value.new ≡ value.old)) }
    {
        let n = next_in(&mut self.pairs)?;
        let (own_key, key_left) = mem::replace(key, Part::Logged(n)).lend(n);
        let (own_value, value_left) = mem::replace(value, Part::Logged(n)).lend(n);
        *key = key_left;
        *value = value_left;
        self.pairs.push_reserved(Pair::of(own_key, own_value));
        Ok(n as u64)
    }
}
