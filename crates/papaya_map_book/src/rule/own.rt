//! The steps that a caller made itself, and the numbers that it was given. Only contracts see
//! them: they have no bytes. Code outside of this crate can move a list of steps, and can't copy
//! one or add to it.
ghost use Rattle.std.specs.Prelude.{◌≡◌, List, [], ◌∷◌, ◌++◌};
ghost use base.Fml.{ftrue};
ghost use base.Stored.{coded_list};
ghost use Rattle.papaya_map_book.specs.Own.{last_step};

use crate::rule::entry::Step;
use crate::rule::offer::Seen;
use std::hash::{BuildHasher, Hash};
use std::marker::{Model, PhantomData};

/// A number that a map gave to a call: its arena of tables to a new table, or the sum of its count.
#[derive(Clone, Copy)]
pub enum CapacityCause {
    Table(usize),
    Sum(usize),
}

/// Steps that a caller made, or numbers that it was given, oldest first.
pub struct OwnSteps<T> {
    marker: PhantomData<T>,
    pub ghost done: { List T } by { coded_list T.code },
}

impl<T> Model for OwnSteps<T> {
    ghost also_owns = { λ own. ftrue };
}

// It owns nothing.
unsafe impl<T> Send for OwnSteps<T> {}

impl<T> Drop for OwnSteps<T> {
    fn drop(self) {
        let Self { marker: _ } = self;
    }
}

impl<T> OwnSteps<T> {
    /// Returns an empty list of steps.
    pub fn nothing() -> OwnSteps<T>
        ensures { result.done ≡ [] }
    {
        OwnSteps {
            marker: PhantomData,
        }
    }

    /// Returns a list of this alone. Only code that may vouch for it calls it.
    pub(crate) fn only(x: &T) -> OwnSteps<T>
        ensures { result.done ≡ x.now ∷ [] }
    {
        OwnSteps {
            marker: PhantomData,
        }
    }

    /// Returns a copy of the list.
    fn copied(&self) -> OwnSteps<T>
        ensures { result.done ≡ self.now.done }
    {
        OwnSteps {
            marker: PhantomData,
        }
    }
}

impl OwnSteps<CapacityCause> {
    /// Returns a copy of the numbers.
    pub fn again(&self) -> OwnSteps<CapacityCause>
        ensures { result.done ≡ self.now.done }
    {
        self.copied()
    }
}

/// Returns these steps, followed by the last one observed.
pub(crate) fn with_last<K: Hash + Eq, V, S: BuildHasher>(
    own: &OwnSteps<Step<K, V>>,
    sight: &Seen<K, V, S>,
) -> OwnSteps<Step<K, V>>
    ensures { result.done ≡ own.now.done ++ last_step sight.now.log }
{
    OwnSteps {
        marker: PhantomData,
    }
}
