//! Iterators over a read-only map.
ghost use Rattle.std.specs.Prelude.{◌≡◌, IfErr, IfOk, []};
ghost use Rattle.std.specs.Iterator.{at_most};
ghost use Rattle.papaya_map_change.specs.Writing.{IsMemoryOrCapacity};
ghost use Rattle.papaya_map.specs.FrozenWalks.{FrozenWalk, Yields, YieldsKey, YieldsValue};

use crate::map::read_only::ReadOnly;
use papaya_map_book::rule::own::OwnSteps;
use papaya_map_book::window::Window;
use papaya_map_change::driver::Means;
use papaya_map_scan::root::take_root;
use papaya_map_scan::walk;
use papaya_words::refused::Refused;
use std::hash::{BuildHasher, Hash};
use std::marker::Model;
use std::sync::Wait;

/// An iterator over the entries of a read-only map, which [`ReadOnly::iter`] returns. It yields each
/// entry of the map, and no other. It yields none twice: tests cover this, and no contract states
/// it.
///
/// Contracts see the map's whole history, and the entries that were yielded.
#[derive(Drop)]
pub struct Iter<'a, K: Hash + Eq, V, S: BuildHasher> {
    map: &'a ReadOnly<K, V, S>,
    pairs: walk::Iter<'a, K, V, S>,
}

impl<'a, K: Hash + Eq, V, S: BuildHasher> Model for Iter<'a, K, V, S> {
    ghost Value = { FrozenWalk K V };

    ghost view = { λ i. record {
      history = i.map.now.history;
      given = i.pairs.given;
      left = i.pairs.left;
    } };

    ghost invariant = { λ i. (i.pairs.book ≡ i.map.now.map.book)
        × (i.pairs.began ≡ i.map.now.history) × (i.pairs.history ≡ i.map.now.history) };
}

impl<'a, K: Hash + Eq, V, S: BuildHasher> Iterator for Iter<'a, K, V, S> {
    type Item = (&'a K, &'a V);

    ghost next_gives = { Yields K.eq };

    ghost remaining = { λ i. at_most i.left };

    /// It only loads words: it never waits, takes no lock and allocates nothing.
    #[inline(always)]
    fn next(&mut self) -> Option<(&'a K, &'a V)> {
        let found = self.pairs.next();
        let mut sight = self.pairs.seen();
        self.map.see_all(&mut sight);
        found
    }
}

/// An iterator over the keys of a read-only map, which [`ReadOnly::keys`] returns.
#[derive(Drop)]
pub struct Keys<'a, K: Hash + Eq, V, S: BuildHasher> {
    pairs: Iter<'a, K, V, S>,
}

impl<'a, K: Hash + Eq, V, S: BuildHasher> Iterator for Keys<'a, K, V, S> {
    type Item = &'a K;

    ghost next_gives = { λ s key t. YieldsKey K.eq s.pairs key t.pairs };

    ghost remaining = { λ s. at_most s.pairs.left };

    #[inline(always)]
    fn next(&mut self) -> Option<&'a K> {
        match self.pairs.next() {
            Some((key, _)) => Some(key),
            None => None,
        }
    }
}

/// An iterator over the values of a read-only map, which [`ReadOnly::values`] returns.
#[derive(Drop)]
pub struct Values<'a, K: Hash + Eq, V, S: BuildHasher> {
    pairs: Iter<'a, K, V, S>,
}

impl<'a, K: Hash + Eq, V, S: BuildHasher> Iterator for Values<'a, K, V, S> {
    type Item = &'a V;

    ghost next_gives = { λ s value t. YieldsValue K.eq s.pairs value t.pairs };

    ghost remaining = { λ s. at_most s.pairs.left };

    #[inline(always)]
    fn next(&mut self) -> Option<&'a V> {
        match self.pairs.next() {
            Some((_, value)) => Some(value),
            None => None,
        }
    }
}

impl<K: Hash + Eq, V, S: BuildHasher> ReadOnly<K, V, S> {
    /// Returns an iterator as a map that threads change has it. It has observed the whole history.
    pub(crate) fn walk<R: Wait>(&self, rt: &R) -> Result<walk::Iter<'_, K, V, S>, Refused>
        ensures book { IfOk result (λ pairs. pairs.book ≡ self.now.map.book) }
        ensures history { IfOk result (λ pairs. (pairs.began ≡ self.now.history)
            × (pairs.history ≡ self.now.history)) }
        ensures given { IfOk result (λ pairs. pairs.given ≡ []) }
        ensures refused { IfErr result (λ refused. IsMemoryOrCapacity refused) }
    {
        let shard = self.count.shard(None);
        let means = Means {
            rt,
            alloc: self.alloc,
            initial: self.initial,
            shard: &shard,
        };
        let kept = self.book.keep_root();
        let mut window = Window::new(&self.book, &kept, &self.sight);
        let mut given = OwnSteps::nothing();
        match take_root(&means, &mut window, &mut given) {
            Ok(root) => {
                let (began, seen) = (self.sight.again(), window.sight.again());
                let mut all = window.sight.again();
                self.see_all(&mut all);
                Ok(walk::Iter::over(&self.book, &kept, began, seen, root))
            }
            Err(refused) => Err(refused),
        }
    }

    /// Returns an iterator over the entries. It yields each entry of the map, and no other.
    ///
    /// The map may have become read-only while a resize was under way. With
    /// `ResizeMode::Incremental` the first iteration finishes that resize, and it may wait for
    /// another thread that does so too. With `ResizeMode::Blocking` no iteration does.
    ///
    /// # Errors
    ///
    /// The resize may need another table. The call then fails with `Refused::Memory` if an
    /// allocation fails, and with `Refused::Capacity` if there is no room, as an insertion does.
    ///
    /// # Examples
    ///
    /// ```
    /// map.pin().insert(rt, 1, 10)?;
    /// map.pin().insert(rt, 2, 20)?;
    /// let fixed = map.into_read_only();
    /// let mut sum = 0u64;
    /// for (_, value) in fixed.iter(rt)? {
    ///     sum = sum.saturating_add(*value);
    /// }
    /// // sum is 30
    /// ```
    pub fn iter<R: Wait>(&self, rt: &R) -> Result<Iter<'_, K, V, S>, Refused>
        ensures began { IfOk result (λ pairs. (pairs.history ≡ self.now.history)
            × (pairs.given ≡ [])) }
        ensures refused { IfErr result (λ refused. IsMemoryOrCapacity refused) }
    {
        match self.walk(rt) {
            Ok(pairs) => Ok(Iter { map: self, pairs }),
            Err(refused) => Err(refused),
        }
    }

    /// Returns an iterator over the keys. It yields the key of each entry, and no other.
    ///
    /// # Errors
    ///
    /// Fails with `Refused::Memory` or `Refused::Capacity`, as [`ReadOnly::iter`] does.
    pub fn keys<R: Wait>(&self, rt: &R) -> Result<Keys<'_, K, V, S>, Refused>
        ensures began { IfOk result (λ keys. (keys.pairs.history ≡ self.now.history)
            × (keys.pairs.given ≡ [])) }
        ensures refused { IfErr result (λ refused. IsMemoryOrCapacity refused) }
    {
        Ok(Keys {
            pairs: self.iter(rt)?,
        })
    }

    /// Returns an iterator over the values. It yields the value of each entry, and no other.
    ///
    /// # Errors
    ///
    /// Fails with `Refused::Memory` or `Refused::Capacity`, as [`ReadOnly::iter`] does.
    pub fn values<R: Wait>(&self, rt: &R) -> Result<Values<'_, K, V, S>, Refused>
        ensures began { IfOk result (λ values. (values.pairs.history ≡ self.now.history)
            × (values.pairs.given ≡ [])) }
        ensures refused { IfErr result (λ refused. IsMemoryOrCapacity refused) }
    {
        Ok(Values {
            pairs: self.iter(rt)?,
        })
    }
}
