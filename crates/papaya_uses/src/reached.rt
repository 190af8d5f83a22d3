//! One use of each part of `papaya` that the other callers do not need. They show that one line of
//! `crates.txt` is enough for each.
ghost use Rattle.std.specs.Prelude.{◌≡◌, ◌↔◌, IfErr, IsTrue};
ghost use Rattle.papaya.specs.Sets.{HaveSameKeys};
ghost use Rattle.papaya.specs.Sizes.{DEFAULT_CHUNK, IsSizeRefusal};
ghost use Rattle.papaya.specs.Types.ReplyVariants.{Absent};

use papaya::schedule::Reply;
use papaya::{NotInserted, Refused, ResizeMode, seq};
use std::alloc::Global;
use std::hash::{BuildHasher, Hash};

/// Returns a map with room for a dozen entries.
///
/// # Errors
///
/// Fails with `Refused::Memory` if an allocation fails.
pub fn dozen(alloc: Global) -> Result<seq::HashMap<u64, u64>, Refused>
    ensures { IfErr result (λ refused. IsSizeRefusal (ResizeMode.Incremental DEFAULT_CHUNK) 12 1
        refused) }
{
    seq::HashMap::with_capacity(alloc, 12)
}

/// Returns whether two sets have the same keys.
pub fn same_keys<K: Hash + Eq, S: BuildHasher>(
    one: &seq::HashSet<K, S>,
    other: &seq::HashSet<K, S>,
) -> bool
    ensures { IsTrue result ↔ (HaveSameKeys K.eq one.now.store other.now.store) }
{
    one.eq(other)
}

/// Returns whether a reply says that the key has no entry.
pub fn is_absent(reply: Reply) -> bool
    ensures { IsTrue result ↔ (reply ≡ Absent) }
{
    matches!(reply, Reply::Absent)
}

/// Returns the value that an insertion gave back.
pub fn value_back<V: Drop>(failed: NotInserted<'_, V>) -> Option<V> {
    match failed {
        NotInserted::Value(value) => Some(value),
        NotInserted::Logged(_) => None,
    }
}
