//! Draws of keys, of which few come often: by Zipf's law, of exponent 0.99.
ghost use Rattle.std.specs.Prelude.{◌≡◌, ◌<◌, true, false};
ghost use Rattle.papaya_bench_measure.specs.declared.action.Action.TheVariants.{Get, Insert};

use crate::action::Action;
use crate::plan::{Plan, Workload};
use std::alloc::{AllocError, Global};

/// The weight of the number that comes most often.
const GREATEST: u64 = 0x0100_0000_0000_0000;

/// The share of draws that write: one in twenty.
const WRITES: u64 = 20;

/// A step that was drawn.
#[derive(Clone, Copy)]
pub struct Draw {
    /// The number of its key.
    pub number: u32,
    /// Whether it inserts the key. Otherwise it looks it up.
    pub writes: bool,
}

impl Draw {
    /// Returns the action of the step. Each insertion of a key has the same value, so that results
    /// do not depend on which thread is first.
    #[inline(always)]
    pub fn action(self) -> Action
        ensures write { self.writes ≡ true → result ≡ Insert self.number self.number }
        ensures read { self.writes ≡ false → result ≡ Get self.number }
    {
        let number = u64::from(self.number);
        if self.writes {
            Action::Insert(number, number)
        } else {
            Action::Get(number)
        }
    }
}

/// Returns a number for each turn, which looks as if it were drawn at random: SplitMix64.
fn random_at(turn: u64) -> u64 {
    let mixed = turn.wrapping_add(1).wrapping_mul(0x9e37_79b9_7f4a_7c15);
    let mixed = (mixed ^ (mixed >> 30)).wrapping_mul(0xbf58_476d_1ce4_e5b9);
    let mixed = (mixed ^ (mixed >> 27)).wrapping_mul(0x94d0_49bb_1331_11eb);
    mixed ^ (mixed >> 31)
}

/// Returns the weight of a rank from that of the rank before: `(1 - 1 / rank)^0.99` of it, which is
/// about `1 - 0.99 / rank - 1 / (202 * rank^2) - 1 / (600 * rank^3)`. All weights up to rank 2^20
/// are within 1 part in 5000 of the law.
fn weight_after(weight: u64, rank: u64) -> u64
    requires { 0 < rank }
{
    let first = weight / rank;
    let second = first / rank;
    let third = second / rank;
    weight
        .saturating_sub(first.saturating_sub(first / 100))
        .saturating_sub(second / 202)
        .saturating_sub(third / 600)
}

/// Returns for each number below `keys` the sum of the weights of all numbers up to it.
fn weights(alloc: Global, keys: u32) -> Result<Vec<u64>, AllocError> {
    let mut sums = Vec::with_capacity(alloc, keys as usize)?;
    let mut sum: u64 = 0;
    let mut weight = GREATEST;
    for number in 0..u64::from(keys) {
        sum = sum.saturating_add(weight);
        sums.push(sum)?;
        weight = weight_after(weight, number + 2);
    }
    Ok(sums)
}

/// Returns the draw of a turn: each number is drawn as often as its weight says.
fn draw_at(sums: &[u64], turn: u64) -> Draw {
    let random = random_at(turn);
    let all = sums.last().copied().unwrap_or(0);
    let place = (u128::from(random) * u128::from(all)) >> 64;
    let number = sums.partition_point(|sum| u128::from(*sum) <= place);
    Draw {
        number: u32::try_from(number).unwrap_or(u32::MAX),
        writes: random % WRITES == 0,
    }
}

impl Plan {
    /// Returns a draw for each step, if the workload makes draws.
    pub fn draws(self, alloc: Global) -> Result<Vec<Draw>, AllocError> {
        let mut draws = Vec::new(alloc);
        if matches!(self.workload, Workload::Zipf) {
            let sums = weights(alloc, self.keys)?;
            for turn in 0..self.steps() {
                draws.push(draw_at(sums.as_slice(), turn))?;
            }
        }
        Ok(draws)
    }

    /// Returns the action of the step at this turn of a round, as it was drawn.
    #[inline(always)]
    pub fn drawn_at(self, draws: &[Draw], turn: u64, round: u32) -> Action {
        let before = u64::from(round) * u64::from(self.keys);
        match draws.get(before.wrapping_add(turn) as usize) {
            Some(draw) => draw.action(),
            None => Action::Get(turn),
        }
    }
}
