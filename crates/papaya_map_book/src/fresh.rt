//! Slots, with their hints, that are written ahead of the table that will have them.
ghost use Rattle.std.specs.Prelude.{◌≡◌, ◌+◌, ◌≤◌, IfOk, IfSome, length};
ghost use Rattle.std.specs.Vec.{vec_capacity};
ghost use Rattle.papaya_map_book.specs.Sheets.{AreFresh};
ghost use Rattle.std.specs.Int.{div_ceil};

use crate::cell::{Cell, HintCell};
use crate::rule::offer::Seen;
use logbook::Word;
use papaya_map_cells::hint::Hint;
use std::alloc::{AllocError, Global};
use std::hash::{BuildHasher, Hash};

/// The number of slots that are written ahead at a time: a few pages.
const AHEAD_SLOTS: usize = 1024;

/// Fresh slots, written a few at a time, so that no call pays for a whole table. Their words and
/// the numbers with their hints hold 0, and no book tracks them.
pub struct FreshSlots<K: Hash + Eq, V, S: BuildHasher> {
    slots: Vec<Cell<K, V, S>>,
    hints: Vec<HintCell<K, V, S>>,
    ghost fresh: { AreFresh slots.items },
    ghost unsaid: { AreFresh hints.items },
}

impl<K: Hash + Eq, V, S: BuildHasher> Drop for FreshSlots<K, V, S> {
    fn drop(self) {
        let Self { slots: _, hints: _ } = self;
    }
}

impl<K: Hash + Eq, V, S: BuildHasher> FreshSlots<K, V, S> {
    /// Returns a room without slots.
    pub(crate) fn new(alloc: Global) -> FreshSlots<K, V, S> {
        FreshSlots {
            slots: Vec::new(alloc),
            hints: Vec::new(alloc),
        }
    }

    /// Adds some slots, until there are `len`. If memory runs out, the room has as many as before.
    pub(crate) fn with_more(self, len: usize, sight: &Seen<K, V, S>) -> Self {
        let Self {
            mut slots,
            mut hints,
        } = self;
        let left = len.saturating_sub(slots.len());
        let unsaid = len.div_ceil(8).saturating_sub(hints.len());
        if slots.reserve_exact(left).is_err() || hints.reserve_exact(unsaid).is_err() {
            return FreshSlots { slots, hints };
        }
        FreshSlots {
            slots: with_fresh(slots, AHEAD_SLOTS.min(left), sight),
            hints: with_fresh_hints(hints, (AHEAD_SLOTS / 8).min(unsaid), sight),
        }
    }

    /// Returns the slots and their hints if there is room for just this many.
    fn into_slots(self, len: usize) -> Option<(Vec<Cell<K, V, S>>, Vec<HintCell<K, V, S>>)>
        ensures slots { IfSome result (λ r. AreFresh r.0.items × (vec_capacity r.0 ≡ len)) }
        ensures hints { IfSome result (λ r. AreFresh r.1.items) }
    {
        let Self { slots, hints } = self;
        if slots.capacity() == len {
            Some((slots, hints))
        } else {
            None
        }
    }
}

/// Returns the words of slots with this many more fresh ones, for which there is room.
fn with_fresh<K: Hash + Eq, V, S: BuildHasher>(
    ahead: Vec<Cell<K, V, S>>,
    more: usize,
    sight: &Seen<K, V, S>,
) -> Vec<Cell<K, V, S>>
    requires fresh { AreFresh ahead.items }
    requires room { length ahead.items + more ≤ vec_capacity ahead }
    ensures fresh { AreFresh result.items }
    ensures len { length result.items ≡ length ahead.items + more }
{
    let mut slots = ahead;
    for _ in 0..more {
        slots.push_reserved(Word::hint(sight));
    }
    slots
}

/// Returns the numbers of hints with this many more fresh ones, for which there is room.
fn with_fresh_hints<K: Hash + Eq, V, S: BuildHasher>(
    ahead: Vec<HintCell<K, V, S>>,
    more: usize,
    sight: &Seen<K, V, S>,
) -> Vec<HintCell<K, V, S>>
    requires fresh { AreFresh ahead.items }
    requires room { length ahead.items + more ≤ vec_capacity ahead }
    ensures fresh { AreFresh result.items }
    ensures len { length result.items ≡ length ahead.items + more }
{
    let word = Word::hint(sight);
    let mut hints = ahead;
    for _ in 0..more {
        hints.push_reserved(Hint::fresh(&word, sight));
    }
    hints
}

/// Returns this many fresh slots with their hints: those of the room if it is for this many, and
/// others.
pub(crate) fn fresh_slots<K: Hash + Eq, V, S: BuildHasher>(
    room: Option<FreshSlots<K, V, S>>,
    alloc: Global,
    len: usize,
    sight: &Seen<K, V, S>,
) -> Result<(Vec<Cell<K, V, S>>, Vec<HintCell<K, V, S>>), AllocError>
    ensures slots { IfOk result (λ r. (length r.0.items ≡ len) × AreFresh r.0.items) }
    ensures hints { IfOk result (λ r. (div_ceil len 8 ≤ length r.1.items) × AreFresh r.1.items) }
{
    let ahead = match room {
        Some(room) => room.into_slots(len),
        None => None,
    };
    let (mut slots, mut hints) = ahead.unwrap_or((Vec::new(alloc), Vec::new(alloc)));
    let more = len - slots.len();
    slots.reserve_exact(more)?;
    let unsaid = len.div_ceil(8).saturating_sub(hints.len());
    hints.reserve_exact(unsaid)?;
    Ok((
        with_fresh(slots, more, sight),
        with_fresh_hints(hints, unsaid, sight),
    ))
}
