//! The end of a gate.
ghost use Rattle.std.specs.Prelude.{◌≡◌, ℕ, List, filter};
ghost use mathlib.Core.List.{IsPrefix};
ghost use Rattle.papaya_gate.specs.Eras.{Author, author_coded};

use crate::rule::{Gated, Tracking};
use logbook::{Rule, Seen};
use std::marker::{Model, PhantomData};

/// The fact that the tracked entries of the log are those of this author's list, for good. It can
/// be copied.
pub struct Ended<E> {
    pub(crate) marker: PhantomData<E>,
    pub ghost names: { List ℕ },
    pub ghost eras: { List ℕ },
    pub ghost author: { Author E } by { author_coded E.code },
}

impl<E> Model for Ended<E> {
    ghost use denote.Sharing.{said};
    ghost use Rattle.papaya_gate.specs.Kept.{ended_owns};

    ghost also_owns = { λ e. ended_owns E.row.coded.code e.names e.eras e.author };

    ghost also_shares = { λ e _ κ. said (ended_owns E.row.coded.code e.names e.eras e.author) κ };
}

impl<E> Ended<E> {
    /// Returns a copy.
    #[inline(always)]
    pub fn again(&self) -> Ended<E>
        ensures { result ≡ self.now }
    {
        Ended {
            marker: PhantomData,
        }
    }

    /// Observes all tracked entries of the log.
    #[inline(always)]
    pub fn look<A, P: Rule<E, A> + Tracking<E>>(&self, seen: &mut Seen<E, A, Gated<P>>)
        requires { seen.old.names ≡ self.now.names }
        ensures { (filter P.tracks (P.shows seen.new.log) ≡ self.now.author.own)
            × (seen.new.book ≡ seen.old.book) × (seen.new.names ≡ seen.old.names)
            × IsPrefix seen.old.log seen.new.log }
    {}
}

impl<E> Drop for Ended<E> {
    fn drop(self) {
        let Self { marker: _ } = self;
    }
}

unsafe impl<E> Send for Ended<E> {}

unsafe impl<E> Sync for Ended<E> {}
