//! Checks of the sizes that a new map asks for, before anything is made.
ghost use Rattle.std.specs.Prelude.{◌≡◌, ◌*◌, ◌^◌, ◌<◌, ◌≤◌, IfErr, IfOk, OnOk};
ghost use Rattle.papaya_words.specs.Mode.{IsChunked};
ghost use Rattle.papaya_words_keys.specs.Sizes.{IsTooMuch};
ghost use Rattle.papaya_words.specs.Probe.{IsEntriesFor};
ghost use Rattle.papaya_words.specs.declared.limits.TheConstants.{MAX_TABLE_LEN};

use papaya_words::limits::MAX_TABLE_LEN;
use papaya_words::probe::entries_for;
use papaya_words::refused::Refused;
use papaya_words::resize_mode::ResizeMode;

/// Checks that the chunks of a resize mode have slots.
///
/// # Errors
///
/// Fails with `Refused::ZeroChunk` if `mode` has chunks of no slots.
pub fn check_chunk(mode: ResizeMode) -> Result<(), Refused>
    ensures ok { OnOk result (IsChunked mode) }
    ensures err { IfErr result (λ e. (e ≡ Refused.ZeroChunk) × (mode ≡ ResizeMode.Incremental 0)) }
{
    match mode {
        ResizeMode::Incremental(0) => Err(Refused::ZeroChunk),
        _ => Ok(()),
    }
}

/// Returns the initial capacity, in slots, of a map that is made for `capacity` entries.
///
/// # Errors
///
/// Fails with `Refused::Capacity` if eight times `capacity` exceeds 64 bits, or the result exceeds
/// [`MAX_TABLE_LEN`].
pub fn initial_len(capacity: usize) -> Result<usize, Refused>
    ensures ok { IfOk result (λ initial. (capacity * 8 < 2 ^ 64) × IsEntriesFor capacity initial
        × (initial ≤ MAX_TABLE_LEN)) }
    ensures err { IfErr result (λ e. (e ≡ Refused.Capacity) × IsTooMuch capacity) }
{
    let initial = entries_for(capacity)?;
    if initial > MAX_TABLE_LEN {
        return Err(Refused::Capacity);
    }
    Ok(initial)
}
