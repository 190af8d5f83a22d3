//! A counter that gives each number to one caller.
ghost use Rattle.std.specs.Prelude.{◌≡◌, ◌<◌, ◌^◌, ℕ, IfSome};
ghost use base.Fml.{fsep, fex};
ghost use base.Stored.{coded_ℕ};
ghost use Rattle.papaya_map_cells.specs.Counted.{left, counter_shares};

use crate::arena_slot::Right;
use std::marker::{Brand, Move, Owns, PhantomData};
use std::sync::atomic::Ordering::SeqCst;
use std::sync::atomic::raw;

/// How many numbers a counter has.
const NUMBERS: u64 = 0x7fff_ffff_ffff_ffff;

/// A counter that gives out the numbers from 0, each to one caller. Contracts see its name.
pub struct TicketCounter {
    next: u64,
}

impl Owns for TicketCounter {
    ghost Value = { ℕ };

    ghost coded = { coded_ℕ };

    ghost shr_at = { λ name p κ. counter_shares name p κ };
}

impl Move for TicketCounter {
    ghost own_val = { λ name vs. fex ℕ (λ n. fsep
        (Fields.own_val (record { next = n }) vs)
        (left name n)) };
}

impl TicketCounter {
    /// Creates a counter that has given out no number.
    pub fn new() -> TicketCounter {
        TicketCounter { next: 0 }
    }

    /// Returns the next number and the right to write a slot with it. `None` if no number is left.
    #[inline(always)]
    pub fn take(&self) -> Option<(u64, Right)>
        ensures right { IfSome result (λ taken. (taken.1.counter ≡ self.now)
            × (taken.1.number ≡ taken.0)) }
        ensures small { IfSome result (λ taken. taken.0 < 2 ^ 63) }
    {
        let word = self as *const Self as *const u64;
        // An unbounded increment would give out a number twice after 2^64 of them.
        let number = unsafe { raw::saturating_increment::<Brand>(word, SeqCst) };
        if number < NUMBERS {
            let right = Right {
                marker: PhantomData,
            };
            Some((number, right))
        } else {
            None
        }
    }

    /// Returns how many numbers the counter has given out, without those that came back.
    #[inline]
    pub fn given(&self) -> u64 {
        let word = self as *const Self as *const u64;
        unsafe { raw::load::<Brand>(word, SeqCst) }
    }

    /// Takes back the number that was given out last, for the next caller. If another number was
    /// given out since, this one is lost.
    #[cold]
    pub fn give_back(&self, right: Right, number: u64)
        requires right { (right.counter ≡ self.now) × (right.number ≡ number) }
        requires small { number < 2 ^ 63 }
    {
        right.back(self, number);
    }
}

impl Drop for TicketCounter {
    fn drop(self) {
        let Self { next: _ } = self;
    }
}

unsafe impl Send for TicketCounter {}

unsafe impl Sync for TicketCounter {}
