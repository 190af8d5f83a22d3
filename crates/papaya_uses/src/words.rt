//! The number of times that each word occurs in a text: the map for one caller.
ghost use Rattle.std.specs.Prelude.{◌≡◌, ◌+◌, ◌-◌, ◌^◌, min, IfOk};
ghost use Rattle.std.specs.List.{count_by};
ghost use Rattle.papaya_uses.specs.Words.{count_in};

use papaya::Refused;
use papaya::seq::HashMap;
use std::alloc::Global;
use std::hash::Hash;

/// Returns the count after one more.
pub(crate) fn one_more(count: &u64) -> u64
    ensures { result ≡ min (count.now + 1) (2 ^ 64 - 1) }
{
    count.saturating_add(1)
}

/// Counts the words. A word that is not in the map is not in the text.
///
/// # Errors
///
/// Fails with `Refused::Memory` or `Refused::Capacity` if the map cannot be made or has no room for
/// a word.
pub fn count_words<W: Hash + Eq + Copy + Drop>(
    alloc: Global,
    words: &[W],
) -> Result<HashMap<W, u64>, Refused>
    ensures { IfOk result (λ counts. (w : W) → count_in W.eq counts.store w ≡ count_by (W.eq w)
        words.now) }
{
    let mut counts = HashMap::new(alloc)?;
    for word in words {
        counts.update_or_insert(*word, one_more, 1u64)?;
    }
    Ok(counts)
}
