//! The root as a caller keeps it from call to call.
ghost use Rattle.std.specs.Prelude.{◌≡◌};

use crate::book::Book;
use crate::rule::offer::Seen;
use crate::table::Table;
use std::hash::{BuildHasher, Hash};
use std::marker::Model;

/// The root's number and its table, as they were loaded once, with the history observed then.
/// Tables stay where they are, and a number belongs to one table. So a caller that loads the same
/// number again has its table. Contracts see which book it is of.
#[derive(Drop)]
pub struct KeptRoot<'a, K: Hash + Eq, V, S: BuildHasher> {
    pub(crate) number: u64,
    pub(crate) table: Option<&'a Table<K, V, S>>,
    pub(crate) sight: Seen<K, V, S>,
}

impl<'a, K: Hash + Eq, V, S: BuildHasher> Model for KeptRoot<'a, K, V, S> {
    ghost use Rattle.logbook.specs.Pages.{Book as Name, book_coded};
    ghost use Rattle.papaya_map_book.specs.Calls.{IsTableOf};

    ghost Value = { Name };

    ghost coded = { book_coded };

    ghost view = { λ k. k.sight.book };

    ghost invariant = { λ k. IsTableOf k.sight.book k.number k.sight.log k.table };
}

impl<'a, K: Hash + Eq, V, S: BuildHasher> KeptRoot<'a, K, V, S> {
    /// Returns a copy.
    #[inline(always)]
    pub fn again(&self) -> KeptRoot<'a, K, V, S>
        ensures { result ≡ self.now }
    {
        KeptRoot {
            number: self.number,
            table: self.table,
            sight: self.sight.again(),
        }
    }
}

impl<K: Hash + Eq, V, S: BuildHasher> Book<K, V, S> {
    /// Loads the root, so that the caller can keep it.
    #[inline]
    pub fn keep_root<'a>(&'a self) -> KeptRoot<'a, K, V, S>
        ensures { result ≡ self.now.begun.book }
    {
        let mut sight = self.pass();
        let (number, table) = self.root(&mut sight);
        KeptRoot {
            number,
            table,
            sight,
        }
    }
}
