//! Words that are written before the table that will own them is made.
ghost use Rattle.std.specs.Prelude.{◌≡◌, ◌+◌, ◌≤◌, IfOk, length, replicate};
ghost use Rattle.std.specs.Vec.{vec_capacity};
ghost use Rattle.papaya_words.specs.Fresh.{AreAll};

use std::alloc::{AllocError, Global};

/// How many slots are written ahead at a time: a few pages.
const AHEAD_SLOTS: usize = 1024;

/// Empty slots with hints of 0, written a few at a time, so that no single call pays for a whole
/// table.
pub struct FreshWords {
    slots: Vec<u64>,
    hints: Vec<u8>,
    ghost empty: { AreAll 0 slots.items },
    ghost unwritten: { AreAll 0 hints.items },
}

impl Drop for FreshWords {
    fn drop(self) {
        let Self { slots: _, hints: _ } = self;
    }
}

impl FreshWords {
    /// Creates a room without slots. It allocates nothing.
    pub fn new(alloc: Global) -> FreshWords {
        FreshWords {
            slots: Vec::new(alloc),
            hints: Vec::new(alloc),
        }
    }

    /// Returns the room with up to 1024 more slots, at most `len`; as it was if memory runs out.
    pub fn with_more(self, len: usize) -> FreshWords {
        let Self {
            mut slots,
            mut hints,
        } = self;
        let left = len.saturating_sub(slots.len());
        if slots.reserve_exact(left).is_err() || hints.reserve_exact(left).is_err() {
            return FreshWords { slots, hints };
        }
        let more = AHEAD_SLOTS.min(left);
        FreshWords {
            slots: with_more(slots, more, 0),
            hints: with_more(hints, more, 0),
        }
    }

    /// Returns `len` slots and their hints: those of the room if it was reserved for exactly `len`.
    pub(crate) fn into_slots(
        self,
        alloc: Global,
        len: usize,
    ) -> Result<(Vec<u64>, Vec<u8>), AllocError>
        ensures { IfOk result (λ all. (all.0.items ≡ replicate len 0)
            × (all.1.items ≡ replicate len 0)) }
    {
        let Self { slots, hints } = self;
        Ok((filled(slots, alloc, len, 0)?, filled(hints, alloc, len, 0)?))
    }
}

/// Pushes `item` another `more` times, within the capacity.
fn with_more<T: Copy>(ahead: Vec<T>, more: usize, item: T) -> Vec<T>
    requires all { AreAll item ahead.items }
    requires room { length ahead.items + more ≤ vec_capacity ahead }
    ensures all { AreAll item result.items }
    ensures len { length result.items ≡ length ahead.items + more }
{
    let mut items = ahead;
    for _ in 0..more {
        items.push_reserved(item);
    }
    items
}

/// Returns `len` copies of `item`. Uses `ahead` if its capacity is exactly `len`.
fn filled<T: Copy>(ahead: Vec<T>, alloc: Global, len: usize, item: T) -> Result<Vec<T>, AllocError>
    requires { AreAll item ahead.items }
    ensures { IfOk result (λ items. items.items ≡ replicate len item) }
{
    let mut items = if ahead.capacity() == len {
        ahead
    } else {
        Vec::new(alloc)
    };
    let more = len - items.len();
    items.reserve_exact(more)?;
    Ok(with_more(items, more, item))
}
