//! Numbers, as arguments and scripts write them.
ghost use Rattle.std.specs.Prelude.{◌≡◌, ℕ, MatchOption};
ghost use Rattle.papaya_run_lines.specs.Numbers.{WritesNumber};

/// Returns the number of decimal digits, within 64 bits. Leading zeros are allowed. Returns `None`
/// for a sign, a space or an empty text.
pub fn number_of(text: &[u8]) -> Option<u64>
    ensures { MatchOption result ((n : ℕ) → ¬ (WritesNumber text.now n)) (WritesNumber text.now) }
{
    // `parse` also takes a plus before the digits.
    if text.first() == Some(&b'+') {
        return None;
    }
    match str::from_utf8(text) {
        Ok(digits) => digits.parse().ok(),
        Err(_) => None,
    }
}
