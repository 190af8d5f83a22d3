//! The action of one step.
ghost use Rattle.std.specs.Prelude.{◌≡◌, ◌≢◌, ◌+◌, ◌%◌, ◌^◌};
ghost use Rattle.papaya_bench_measure.specs.declared.plan.Workload.TheVariants as workload;
ghost use Rattle.papaya_bench_measure.specs.declared.action.Action.TheVariants.{Get, Insert, Renew};

use crate::plan::{Plan, Workload};

/// The share of insertions in a mixed round: one number in ten.
pub(crate) const MIXED: u64 = 10;

/// The action of one step, at the key of a number.
#[derive(Clone, Copy)]
pub enum Action {
    /// Looks the key up.
    Get(u64),
    /// Inserts the key with this value.
    Insert(u64, u64),
    /// Removes the key, and inserts it again with its number.
    Renew(u64),
}

impl Plan {
    /// Returns the action of the step at the key of this number in this round, by whichever call.
    /// Steps of `Zipf` that were drawn are those of [`Plan::drawn_at`].
    #[inline(always)]
    pub fn action_at(self, number: u64, round: u32) -> Action
        ensures hit { self.workload ≡ workload.GetHit → result ≡ Get number }
        ensures miss { self.workload ≡ workload.GetMiss
            → result ≡ Get ((number + self.keys) % 2 ^ 64) }
        ensures fresh { self.workload ≡ workload.InsertFresh → result ≡ Insert number number }
        ensures replace { self.workload ≡ workload.InsertReplace
            → result ≡ Insert number ((number + (round + 1)) % 2 ^ 64) }
        ensures renew { self.workload ≡ workload.RemoveInsert → result ≡ Renew number }
        ensures read { self.workload ≡ workload.Mixed → number % 10 ≢ 0 → result ≡ Get number }
        ensures write { self.workload ≡ workload.Mixed → number % 10 ≡ 0
            → result ≡ Insert number ((number + (round + 1)) % 2 ^ 64) }
        ensures count { self.workload ≡ workload.UpdateOrInsert
            → result ≡ Insert number ((number + (round + 1)) % 2 ^ 64) }
        ensures compute { self.workload ≡ workload.Compute
            → result ≡ Insert number ((number + (round + 1)) % 2 ^ 64) }
        ensures walk { self.workload ≡ workload.Iterate → result ≡ Get number }
        ensures enter { self.workload ≡ workload.Enter → result ≡ Get number }
        ensures worn_hit { self.workload ≡ workload.WornHit → result ≡ Get number }
        ensures worn_miss { self.workload ≡ workload.WornMiss
            → result ≡ Get ((number + self.keys) % 2 ^ 64) }
        ensures text_hit { self.workload ≡ workload.TextHit → result ≡ Get number }
        ensures text_miss { self.workload ≡ workload.TextMiss
            → result ≡ Get ((number + self.keys) % 2 ^ 64) }
        ensures registry { self.workload ≡ workload.Registry
            → result ≡ Insert number ((number + (round + 1)) % 2 ^ 64) }
        ensures zipf { self.workload ≡ workload.Zipf → result ≡ Get number }
    {
        match self.workload {
            Workload::GetHit
            | Workload::Iterate
            | Workload::Enter
            | Workload::WornHit
            | Workload::TextHit
            | Workload::Zipf => Action::Get(number),
            Workload::GetMiss | Workload::WornMiss | Workload::TextMiss => {
                Action::Get(number.wrapping_add(u64::from(self.keys)))
            }
            Workload::InsertFresh => Action::Insert(number, number),
            Workload::InsertReplace
            | Workload::UpdateOrInsert
            | Workload::Compute
            | Workload::Registry => Action::Insert(number, value_after(number, round)),
            Workload::RemoveInsert => Action::Renew(number),
            Workload::Mixed => {
                if number % MIXED == 0 {
                    Action::Insert(number, value_after(number, round))
                } else {
                    Action::Get(number)
                }
            }
        }
    }
}

/// Returns the value of a key that was inserted again in each round up to this one.
#[inline(always)]
fn value_after(number: u64, round: u32) -> u64
    ensures { result ≡ (number + (round + 1)) % 2 ^ 64 }
{
    number.wrapping_add(u64::from(round) + 1)
}
