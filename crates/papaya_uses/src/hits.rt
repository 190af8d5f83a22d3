//! How often each page was read: threads count on one map, each by a session of its own.
//!
//! Functions that only read use plain calls: a pinned map has them, and the thread keeps no state
//! of its own. Their contracts state a result for some legal history, which the caller does not
//! observe. To prove that a lookup finds what was stored, or what a retain left, use a session, as
//! [`hit`] and [`crate::sessions`] do.
ghost use Rattle.std.specs.Prelude.{◌≡◌, IfErr, IfOk, is_ok};
ghost use mathlib.Core.List.{IsPrefix};
ghost use Rattle.papaya.specs.Threads.{IsMemoryOrCapacity, IsWriteRefusal, Makes};
ghost use Rattle.papaya_uses.specs.Hits.{HasCounted, IsCountOf};

use crate::words::one_more;
use papaya::{HashMap, Refused, Session};
use std::hash::{BuildHasherDefault, FoldHasher};
use std::sync::Wait;

/// The number of reads of each page, by the pages' numbers.
pub type Hits = HashMap<u64, u64, BuildHasherDefault<FoldHasher>>;

/// Counts a read of a page, and returns how often it was read so far. No read is lost if threads
/// count at once: the count goes up from just the one that it replaces.
pub fn hit<R: Wait>(rt: &R, hits: &mut Session<'_, u64, u64>, page: u64) -> Result<u64, Refused>
    ensures seen { IsPrefix hits.old.history hits.new.history }
    ensures counted { IfOk result (HasCounted page hits.old.history hits.new.history) }
    ensures made { Makes (is_ok result) hits.old.made hits.new.made hits.new.history }
    ensures refused { IfErr result (IsWriteRefusal hits.old.map.begun.limit hits.new.taken) }
{
    let count = hits.update_or_insert(rt, page, one_more, 1)?;
    hits.legal();
    Ok(*count)
}

#[tactic(auto, using(crate::proofs::HitLemmas::read_of))]
/// Returns how often a page was read, if it was. It never waits.
pub fn reads(hits: &Hits, page: u64) -> Option<u64>
    ensures { IsCountOf page result }
{
    hits.pin().get(&page).copied()
}

/// Removes the pages that were read less often than this.
///
/// # Errors
///
/// Fails with `Refused::Memory` or `Refused::Capacity`, as `retain` of a pinned map does. It may
/// then have removed some of the pages.
pub fn forget_below<R: Wait>(rt: &R, hits: &Hits, least: u64) -> Result<(), Refused>
    ensures { IfErr result IsMemoryOrCapacity }
{
    hits.pin().retain(rt, |_, count| *count >= least)
}

/// Returns the reads of all pages, up to the greatest number of 64 bits. Reads that are counted
/// meanwhile may be included or not.
///
/// # Errors
///
/// Fails with `Refused::Memory` or `Refused::Capacity`, as `values` of a pinned map does.
pub fn total<R: Wait>(rt: &R, hits: &Hits) -> Result<u64, Refused>
    ensures { IfErr result IsMemoryOrCapacity }
{
    let mut total = 0u64;
    for count in hits.pin().values(rt)? {
        total = total.saturating_add(*count);
    }
    Ok(total)
}
