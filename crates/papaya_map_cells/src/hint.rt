//! Hints: numbers that no book tracks, each beside a word that a book tracks or will track.
ghost use Rattle.std.specs.Prelude.{◌≡◌, ℕ, true, false, List};
ghost use mathlib.Core.List.{IsPrefix};
ghost use base.Fml.{fsep, fex};
ghost use Rattle.logbook.specs.Pages.{Named, named_coded, Grows};
ghost use Rattle.logbook.specs.Kept.{inner, word_shares};
ghost use Rattle.papaya_map_cells.specs.Untracked.{untracked, Says};
ghost use Rattle.logbook.specs.Pages.{may_make_home, inked};

use atomic_table::exchange;
use logbook::{Pen, Rule, Seen, Word};
use std::marker::{Brand, Move, Owns, PhantomData};
use std::sync::atomic::Ordering::SeqCst;
use std::sync::atomic::raw;

/// The part of a rule that is about hints.
pub trait Hinting<E> {
    // The statement about the number of a hint beside the word with this key, at a log that was
    // reached.
    ghost hinted_beside: { ℕ → ℕ → List E → Type 0 };
}

/// A number beside a word of the book, which threads change in single atomic steps. Contracts see
/// the word beside it. While no book tracks that word, the hint is fresh and holds 0.
pub struct Hint<E, A, P: Rule<E, A> + Hinting<E>> {
    bits: u64,
    marker: PhantomData<(E, A, P)>,
}

impl<E, A, P: Rule<E, A> + Hinting<E>> Owns for Hint<E, A, P> {
    ghost Value = { Named };

    ghost coded = { named_coded };

    ghost shr_at = { λ w p κ. word_shares E.row.coded.code
        (Says P.hinted_beside w.tracked w.key) (untracked w) p κ };
}

impl<E, A, P: Rule<E, A> + Hinting<E>> Move for Hint<E, A, P> {
    ghost own_val = { λ w vs. fex ℕ (λ n. fsep
        (Fields.own_val (record { bits = n; marker = record {} }) vs)
        (inner E.row.coded.code (Says P.hinted_beside w.tracked w.key) (untracked w) n)) };
}

impl<E, A, P: Rule<E, A> + Hinting<E>> Hint<E, A, P> {
    /// Creates a fresh hint, beside a word that no book tracks yet. It holds 0.
    #[inline(always)]
    pub fn fresh(word: &Word<E, A, P>, seen: &Seen<E, A, P>) -> Hint<E, A, P>
        requires { (word.now.tracked ≡ false) × (seen.now.book ≡ word.now.book) }
        ensures { result ≡ word.now }
    {
        Hint {
            bits: 0,
            marker: PhantomData,
        }
    }

    /// Makes a fresh hint the hint of this word, which a book tracks. This runs no code.
    #[inline(always)]
    pub fn stand_beside(&mut self, word: &Word<E, A, P>, seen: &Seen<E, A, P>)
        requires fresh { self.old.tracked ≡ false }
        requires tracked { (word.now.tracked ≡ true) × (seen.now.book ≡ word.now.book) }
        requires nought { P.hinted_beside word.now.key 0 seen.now.log }
        ensures { self.new ≡ word.now }
    {}

    /// Returns the number. The rule's statement on it holds for the log that the caller then knows.
    #[inline(always)]
    pub fn load(&self, seen: &mut Seen<E, A, P>) -> u64
        requires { (self.now.tracked ≡ true) × (seen.old.book ≡ self.now.book)
            × Grows (P.hinted_beside self.now.key) }
        ensures { (seen.new.book ≡ seen.old.book) × (seen.new.names ≡ seen.old.names)
            × IsPrefix seen.old.log seen.new.log
            × P.hinted_beside self.now.key result seen.new.log }
    {
        unsafe { raw::load::<Brand>(self as *const Self as *const u64, SeqCst) }
    }

    /// Writes `new` if the number is `old`, and returns the number that it found.
    #[inline(always)]
    pub fn compare_exchange(&self, old: u64, new: u64, seen: &Seen<E, A, P>) -> u64
        requires { (self.now.tracked ≡ true) × (seen.now.book ≡ self.now.book)
            × P.hinted_beside self.now.key new seen.now.log }
    {
        unsafe { exchange::<Brand>(self as *const Self as *const u64, old, new) }
    }
}

impl<E, A, P: Rule<E, A> + Hinting<E>> Drop for Hint<E, A, P> {
    fn drop(self) {
        let Self { bits: _, marker: _ } = self;
    }
}

unsafe impl<E, A, P: Rule<E, A> + Hinting<E>> Send for Hint<E, A, P> {}

unsafe impl<E, A, P: Rule<E, A> + Hinting<E>> Sync for Hint<E, A, P> {}

/// Makes the book track the word, as the one that the pen permits to make. Until now no book
/// tracked it, and it held 0. This runs no code.
#[inline(always)]
pub fn track<E, A, P: Rule<E, A>>(word: &mut Word<E, A, P>, pen: &mut Pen)
    requires fresh { word.old.tracked ≡ false }
    requires nought { (number : ℕ) (log : List E) → P.hinted number log → number ≡ 0 }
    requires pen { (pen.old.nib.right ≡ may_make_home) × (pen.old.nib.value ≡ 0) }
    ensures word { word.new
        ≡ record { tracked = true; key = pen.old.nib.key; book = pen.old.book } }
    ensures pen { (pen.new.book ≡ pen.old.book) × (pen.new.nib ≡ inked pen.old.nib 0) }
{}
