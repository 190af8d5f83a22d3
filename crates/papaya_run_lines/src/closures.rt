//! The closures of a script's calls.
ghost use Rattle.std.specs.Prelude.{◌≡◌, ℕ, Option, Bool, true, option_map};
ghost use Rattle.papaya_call.specs.declared.answers.Operation.{Operation};
ghost use Rattle.papaya_run_lines.specs.Closures.{follower, operation_of};

use papaya_call::answers::{Answers, Operation};

/// Returns the number after this one; 0 follows the greatest.
pub fn follower(value: &u64) -> u64
    ensures { result ≡ follower value.now }
{
    value.wrapping_add(1)
}

/// The closures of a script: a removal's closure returns true for each entry, and an update's
/// returns the number after the value.
#[derive(Clone, Copy)]
pub struct Answering;

impl Answers<u64, u64> for Answering {
    ghost op_gives = { λ s shown answer t. answer ≡ operation_of shown };

    ghost yes_gives = { λ s key value answer t. answer ≡ true };

    fn op(&mut self, shown: Option<(&u64, &u64)>) -> Operation<u64, u64> {
        match shown {
            Some((_, value)) => Operation::Insert(follower(value)),
            None => Operation::Abort(0),
        }
    }

    fn yes(&mut self, _key: &u64, _value: &u64) -> bool {
        true
    }
}
