//! Slots that are written once.
ghost use Rattle.std.specs.Prelude.{◌≡◌, ◌<◌, ◌^◌, ℕ};
ghost use base.Fml.{fsep, fex};
ghost use types.Keyed.{ticket};
ghost use denote.Sharing.{said};
ghost use Rattle.boxcar.specs.Slot.{written};
ghost use Rattle.papaya_map_cells.specs.Slots.{Named, named_coded, Rest, resting, shared};

use crate::tickets::TicketCounter;
use atomic_table::exchange;
use std::marker::{Brand, Model, Move, Owns, PhantomData};
use std::sync::atomic::Ordering::SeqCst;
use std::sync::atomic::raw;

/// The right to write a slot with this number of this counter. It has no bytes.
pub struct Right {
    pub(crate) marker: PhantomData<()>,
    pub ghost counter: { ℕ },
    pub ghost number: { ℕ },
}

impl Model for Right {
    ghost also_owns = { λ right. ticket right.counter right.number };
}

/// A place for a value, which holds a blank until it is written. Contracts see its `id`, its
/// `counter`, and its `number` there.
pub struct ArenaSlot<T> {
    value: T,
}

impl<T> Owns for ArenaSlot<T> {
    ghost Value = { Named };

    ghost coded = { named_coded };

    ghost shr_at = { λ l p κ. shared T.row l p κ };
}

impl<T> Move for ArenaSlot<T> {
    ghost own_val = { λ l vs. fex (Rest T.row.Denot) (λ s. fsep
        (Fields.own_val (record { value = s.0 }) vs)
        (resting T.row l s)) };
}

/// A proof that the slot `of` holds `value`. It has no bytes.
pub struct Written<T> {
    marker: PhantomData<T>,
    pub ghost of: { ℕ },
    pub ghost value: { T },
}

impl<T> Model for Written<T> {
    ghost also_owns = { λ w. written T.row w.of w.value };

    ghost also_shares = { λ w _ κ. said (written T.row w.of w.value) κ };
}

impl Right {
    // Lets the counter give the number out again, if it was the last that was given out.
    pub(crate) fn back(self, counter: &TicketCounter, number: u64)
        requires right { (self.counter ≡ counter.now) × (self.number ≡ number) }
        requires small { number < 2 ^ 63 }
    {
        let Self { marker: _ } = self;
        let word = counter as *const TicketCounter as *const u64;
        unsafe { exchange::<Brand>(word, number + 1, number) };
    }

    // Writes the value into the slot, and returns the blank.
    #[inline(always)]
    fn fill<T>(self, slot: &ArenaSlot<T>, value: T) -> (Written<T>, T)
        requires { (self.counter ≡ slot.now.counter) × (self.number ≡ slot.now.number) }
        ensures { (result.0.of ≡ slot.now.id) × (result.0.value ≡ value) }
    {
        let Self { marker: _ } = self;
        let slot = slot as *const ArenaSlot<T>;
        let step = 0;
        unsafe {
            // At this step the proof takes the blank.
            raw::load::<Brand>(&raw const step, SeqCst);
            let place = &raw const (*slot).value as *mut T;
            let blank = std::ptr::read(place);
            std::ptr::write(place, value);
            // At this step the proof shares the value.
            raw::load::<Brand>(&raw const step, SeqCst);
            (
                Written {
                    marker: PhantomData,
                },
                blank,
            )
        }
    }
}

impl<T> ArenaSlot<T> {
    /// Creates a slot that holds a blank, for the caller that has this number of the counter.
    #[inline(always)]
    pub fn new(blank: T, counter: &TicketCounter, number: u64) -> ArenaSlot<T>
        ensures { (result.counter ≡ counter.now) × (result.number ≡ number) }
    {
        let _ = counter;
        ArenaSlot { value: blank }
    }

    /// Writes the value, and returns the blank.
    #[inline(always)]
    pub fn write(&self, right: Right, value: T) -> (Written<T>, T)
        requires { (right.counter ≡ self.now.counter) × (right.number ≡ self.now.number) }
        ensures { (result.0.of ≡ self.now.id) × (result.0.value ≡ value) }
    {
        right.fill(self, value)
    }

    /// Returns the value, which the token proves to be written.
    #[inline(always)]
    pub fn value<'a>(&'a self, written: &Written<T>) -> &'a T
        requires { written.now.of ≡ self.now.id }
        ensures { result.now ≡ written.now.value }
    {
        let slot = self as *const ArenaSlot<T>;
        let step = 0;
        unsafe {
            // At this step the proof finds the shared value.
            raw::load::<Brand>(&raw const step, SeqCst);
            &(*slot).value
        }
    }

    /// Returns the value, or the blank if none is written.
    pub fn into_inner(self) -> T {
        let Self { value } = self;
        value
    }
}

impl<T> Written<T> {
    /// Returns the same token.
    #[inline(always)]
    pub fn again(&self) -> Written<T>
        ensures { (result.of ≡ self.now.of) × (result.value ≡ self.now.value) }
    {
        Written {
            marker: PhantomData,
        }
    }

    /// Proves that two tokens of one slot have the same value.
    pub fn agrees(&self, other: &Written<T>)
        requires { self.now.of ≡ other.now.of }
        ensures { self.now.value ≡ other.now.value }
    {}
}

impl Drop for Right {
    fn drop(self) {
        let Self { marker: _ } = self;
    }
}

impl<T: Drop> Drop for ArenaSlot<T> {
    fn drop(self) {
        drop(self.into_inner());
    }
}

impl<T> Drop for Written<T> {
    fn drop(self) {
        let Self { marker: _ } = self;
    }
}

unsafe impl Send for Right {}

unsafe impl<T: Send> Send for ArenaSlot<T> {}

unsafe impl<T: Send + Sync> Sync for ArenaSlot<T> {}

unsafe impl<T> Send for Written<T> {}

unsafe impl<T> Sync for Written<T> {}
