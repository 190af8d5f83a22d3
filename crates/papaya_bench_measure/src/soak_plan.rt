//! The work of threads that keep a map busy.
ghost use Rattle.std.specs.Prelude.{◌≡◌, ◌≢◌, ◌*◌, ◌/◌, ◌%◌, ◌^◌, ◌<◌};
ghost use Rattle.papaya_bench_measure.specs.declared.soak_plan.Writes.TheVariants.{OneInTen, All};
ghost use Rattle.papaya_bench_measure.specs.declared.action.Action.TheVariants.{Get, Insert};

use crate::action::{Action, MIXED};

/// The share of calls that write.
#[derive(Clone, Copy)]
pub enum Writes {
    OneInTen,
    All,
}

/// Threads look keys up that a map has, or store values at them, as often as this.
#[derive(Clone, Copy)]
pub struct Soak {
    pub writes: Writes,
    pub keys: u32,
    pub operations: u32,
}

impl Soak {
    /// Returns the name in what is printed.
    pub fn name(self) -> &'static str {
        match self.writes {
            Writes::OneInTen => "soak-mixed",
            Writes::All => "soak-replace",
        }
    }

    /// Returns the number of the key whose turn it is, below `keys`, in an order in which
    /// neighbours are far apart.
    #[inline(always)]
    pub fn number_at(self, turn: u64) -> u64
        ensures value { result ≡ (turn * 2654435761) % 2 ^ 32 * self.keys / 2 ^ 32 }
        ensures bound { 0 < self.keys → result < self.keys }
    {
        let spread = turn.wrapping_mul(2_654_435_761) % 0x1_0000_0000;
        spread * u64::from(self.keys) / 0x1_0000_0000
    }

    /// Returns the action of this turn.
    #[inline(always)]
    pub fn action_at(self, turn: u64) -> Action
        ensures read { self.writes ≡ OneInTen → turn % 10 ≢ 0
            → result ≡ Get ((turn * 2654435761) % 2 ^ 32 * self.keys / 2 ^ 32) }
        ensures write { self.writes ≡ OneInTen → turn % 10 ≡ 0
            → result ≡ Insert ((turn * 2654435761) % 2 ^ 32 * self.keys / 2 ^ 32) turn }
        ensures all { self.writes ≡ All
            → result ≡ Insert ((turn * 2654435761) % 2 ^ 32 * self.keys / 2 ^ 32) turn }
    {
        let number = self.number_at(turn);
        match self.writes {
            Writes::OneInTen if turn % MIXED != 0 => Action::Get(number),
            Writes::OneInTen | Writes::All => Action::Insert(number, turn),
        }
    }
}
