//! The result of a call, with evidence of the history observed for it.
//!
//! A call without a pass creates one for itself, or a session, and consists of two halves. Its
//! first half (in `map/observed`) returns an [`Observed`] by [`Pass::tell`](crate::map::Pass::tell) or
//! [`Session::tell`](crate::session::Session::tell). Its second half returns the same result. Its
//! contract states, by that evidence, that the result is of a history of that very map
//! (`of_its_history`).
ghost use Rattle.std.specs.Prelude.{◌≡◌, ℕ, List, map};
ghost use base.Stored.{coded_list};
ghost use Rattle.logbook.specs.Pages.{Book, book_coded};
ghost use Rattle.logbook.specs.Kept.{rules, seen_owns};

use logbook::{Rule, Seen};
use papaya_map_book::rule::entry::{Event, Named};
use papaya_map_book::rule::law::Law;
use papaya_map_book::rule::own::OwnSteps;
use std::marker::{Model, PhantomData};

/// A result, with evidence that a book has reached a log: contracts see that book and that log.
/// They also see the entries that the call's own pass made, oldest first. At run time it holds
/// only the result.
pub struct Observed<B, E, A, P: Rule<E, A>> {
    pub answer: B,
    pub marker: PhantomData<(E, A, P)>,
    pub ghost book: { Book } by { book_coded },
    pub ghost names: { List ℕ },
    pub ghost log: { List E } by { coded_list E.code },
    pub ghost made: { List E } by { coded_list E.code },
}

/// A result of a map, with evidence that the map's book has reached a log.
pub type Saying<B, K, V, S> = Observed<B, Event<K, V, S>, Named<K, V>, Law<K, V, S>>;

impl<B, E, A, P: Rule<E, A>> Model for Observed<B, E, A, P> {
    ghost also_owns = { λ t. seen_owns E.row.coded.code (rules P.holds P.shows P.keeps) t.book
        t.names t.log };
}

/// Returns the result, with what was observed, and with the steps of the call's own pass, each as
/// an entry of the log. Does nothing at run time.
pub(crate) fn tell<B, E, A, P: Rule<E, A>, T>(
    answer: B,
    seen: &Seen<E, A, P>,
    own: &OwnSteps<T>,
) -> Observed<B, E, A, P>
    ghost entry: { T → E }
    ensures { (result.answer ≡ answer) × (result.book ≡ seen.now.book)
        × (result.names ≡ seen.now.names) × (result.log ≡ seen.now.log)
        × (result.made ≡ map entry own.now.done) }
{
    let _ = seen;
    let _ = own;
    Observed {
        answer,
        marker: PhantomData,
    }
}
