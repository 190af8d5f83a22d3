//! Sums of results, by which the backends are compared.
ghost use Rattle.std.specs.Prelude.{◌≡◌, All, MatchOption, MatchResult};
ghost use Rattle.papaya_run_shell.specs.declared.failure.Failure.TheVariants as Failure;

use papaya_run_shell::failure::Failure;

/// Returns what a result adds to a sum: the value, or 1 if there is none.
#[inline(always)]
pub fn weight(answer: Option<&u64>) -> u64
    ensures { MatchOption answer.entry (result ≡ 1) (λ value. result ≡ value.now) }
{
    match answer {
        Some(value) => *value,
        None => 1,
    }
}

/// Checks that the other sums are equal to the first.
///
/// # Errors
///
/// Fails with `Failure::Disagreement` if one of them is not.
pub fn compare(first: u64, others: &[u64]) -> Result<(), Failure>
    ensures { MatchResult result (λ _. All (λ sum. sum ≡ first) others.now)
        (λ failure. (failure ≡ Failure.Disagreement) × ¬ (All (λ sum. sum ≡ first) others.now)) }
{
    if others.iter().all(|sum| *sum == first) {
        Ok(())
    } else {
        Err(Failure::Disagreement)
    }
}
