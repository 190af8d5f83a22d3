//! The steps that add no tracked entry, and need no gate: one atomic compare-exchange or load. They
//! take offers over the inner rule.
ghost use Rattle.std.specs.Prelude.{◌≡◌, ℕ, ◌==◌, true};
ghost use mathlib.Core.List.{IsPrefix};
ghost use prog.Atomic.{either};
ghost use Rattle.logbook.specs.Pages.{Moves, Nib, no_nib, step};
ghost use Rattle.papaya_gate.specs.Kept.{inner_names};
ghost use Rattle.papaya_gate.specs.Paid.{Leaves};

use crate::rule::{Gated, Tracking};
use atomic_table::exchange;
use logbook::{Gain, Offer, Pen, Play, Rule, Seen, Word};
use std::marker::Brand;
use std::sync::atomic::Ordering::SeqCst;
use std::sync::atomic::raw;

/// Exchanges the word if it has the number `old`, and returns the number that it found. The step
/// adds no tracked entry.
#[inline(always)]
pub fn unpaid<E, A, P: Rule<E, A> + Tracking<E>, N: Play<E, A>, G: Gain<E, A>>(
    word: &Word<E, A, Gated<P>>,
    old: u64,
    new: u64,
    seen: &mut Seen<E, A, Gated<P>>,
    offer: &mut Offer<E, A, P, G>,
    pen: &mut Pen,
) -> u64
    requires { (word.now.tracked ≡ true) × (seen.old.book ≡ word.now.book)
        × (pen.old.book ≡ word.now.book) × (offer.old.names ≡ inner_names seen.old.names)
        × Moves P.holds P.shows (Leaves P.tracks (P.moves offer.old.ask)) word.now.key
        (seen.old.log, (pen.old.nib, offer.old.state)) (λ n. either (n == old) new n)
        (N.then (step word.now.key old new offer.old.ask)
        (seen.old.log, (pen.old.nib, offer.old.state))) }
    ensures { (seen.new.book ≡ seen.old.book) × (seen.new.names ≡ seen.old.names)
        × (offer.new.names ≡ offer.old.names) × (offer.new.ask ≡ offer.old.ask)
        × (offer.new.about ≡ offer.old.about) × (pen.new.book ≡ pen.old.book)
        × IsPrefix seen.old.log seen.new.log
        × N.then (step word.now.key old new offer.old.ask)
        (seen.old.log, (pen.old.nib, offer.old.state)) result
        (seen.new.log, (pen.new.nib, offer.new.state)) }
{
    unsafe { exchange::<Brand>(word as *const Word<E, A, Gated<P>> as *const u64, old, new) }
}

/// Loads the word. The step adds no tracked entry. It has no pen, so it should add no cell.
#[inline(always)]
pub fn load<E, A, P: Rule<E, A> + Tracking<E>, N: Play<E, A>, G: Gain<E, A>>(
    word: &Word<E, A, Gated<P>>,
    seen: &mut Seen<E, A, Gated<P>>,
    offer: &mut Offer<E, A, P, G>,
) -> u64
    requires { (word.now.tracked ≡ true) × (seen.old.book ≡ word.now.book)
        × (offer.old.names ≡ inner_names seen.old.names)
        × Moves P.holds P.shows (Leaves P.tracks (P.moves offer.old.ask)) word.now.key
        (seen.old.log, (no_nib, offer.old.state)) (λ n. n)
        (N.then (step word.now.key 0 0 offer.old.ask)
        (seen.old.log, (no_nib, offer.old.state))) }
    ensures { (seen.new.book ≡ seen.old.book) × (seen.new.names ≡ seen.old.names)
        × (offer.new.names ≡ offer.old.names) × (offer.new.ask ≡ offer.old.ask)
        × (offer.new.about ≡ offer.old.about) × IsPrefix seen.old.log seen.new.log
        × ((left : Nib) × N.then (step word.now.key 0 0 offer.old.ask)
        (seen.old.log, (no_nib, offer.old.state)) result (seen.new.log, (left, offer.new.state))) }
{
    unsafe { raw::load::<Brand>(word as *const Word<E, A, Gated<P>> as *const u64, SeqCst) }
}
