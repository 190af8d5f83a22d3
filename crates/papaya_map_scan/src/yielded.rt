//! The entries that an iteration has returned. Only contracts see them: they have no bytes, and no
//! code runs for them.
ghost use Rattle.std.specs.Prelude.{◌≡◌, List, [], ◌∷◌, ◌++◌};
ghost use base.Fml.{ftrue};
ghost use base.Stored.{coded_list, coded×};
ghost use Rattle.papaya_map_scan.specs.Walked.{with_found};

use std::marker::{Model, PhantomData};

/// The entries that an iteration has returned, in their order.
pub struct Yielded<K, V> {
    marker: PhantomData<(K, V)>,
    pub ghost entries: { List (K × V) } by { coded_list (coded× K.code V.code) },
}

impl<K, V> Model for Yielded<K, V> {
    ghost also_owns = { λ yielded. ftrue };
}

// It owns nothing.
unsafe impl<K, V> Send for Yielded<K, V> {}

impl<K, V> Drop for Yielded<K, V> {
    fn drop(self) {
        let Self { marker: _ } = self;
    }
}

impl<K, V> Yielded<K, V> {
    /// Returns an empty list.
    #[inline(always)]
    pub(crate) fn nothing() -> Yielded<K, V>
        ensures { result.entries ≡ [] }
    {
        Yielded {
            marker: PhantomData,
        }
    }

    /// Returns this list, with one entry more at its end.
    #[inline(always)]
    fn and(&self, key: &K, value: &V) -> Yielded<K, V>
        ensures { result.entries ≡ self.now.entries ++ (key.now, value.now) ∷ [] }
    {
        Yielded {
            marker: PhantomData,
        }
    }

    /// Returns this list, with the entry at its end that the iteration now returns, if it does.
    #[inline(always)]
    pub(crate) fn with(&self, found: Option<(&K, &V)>) -> Yielded<K, V>
        ensures { result.entries ≡ with_found self.now.entries found.entry }
    {
        match found {
            Some((key, value)) => self.and(key, value),
            None => self.again(),
        }
    }

    /// Returns the same list.
    #[inline(always)]
    pub(crate) fn again(&self) -> Yielded<K, V>
        ensures { result.entries ≡ self.now.entries }
    {
        Yielded {
            marker: PhantomData,
        }
    }
}
