//! The authors of an era, together.
ghost use Rattle.std.specs.Prelude.{◌≡◌, None, Some, List, [], ◌∷◌, ◌++◌};
ghost use base.Stored.{coded_list};
ghost use Rattle.papaya_gate.specs.Eras.{Author, author_coded};

use crate::gate::Writer;
use std::marker::{Model, PhantomData};

/// Several authors of an era, each with the list of all tracked entries that it added.
pub struct Team<E> {
    marker: PhantomData<E>,
    pub ghost authors: { List (Author E) } by { coded_list (author_coded E.code) },
}

impl<E> Model for Team<E> {
    ghost use Rattle.papaya_gate.specs.Kept.{team_owns};

    ghost also_owns = { λ t. team_owns E.row.coded.code t.authors };
}

impl<E> Team<E> {
    /// Returns a team of no authors.
    #[inline(always)]
    pub fn new() -> Team<E>
        ensures { result.authors ≡ [] }
    {
        Team {
            marker: PhantomData,
        }
    }

    /// Adds an author at the end. The writer is nobody afterwards.
    #[inline(always)]
    pub fn join(&mut self, writer: &mut Writer<E>)
        requires { (author : Author E) × (writer.old.author ≡ Some author) }
        ensures { (author : Author E) × (writer.old.author ≡ Some author)
            × (self.new.authors ≡ self.old.authors ++ author ∷ []) × (writer.new.author ≡ None) }
    {}
}

impl<E> Drop for Team<E> {
    fn drop(self) {
        let Self { marker: _ } = self;
    }
}

unsafe impl<E> Send for Team<E> {}
