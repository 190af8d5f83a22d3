//! Rows of slots, each written once.
ghost use Rattle.std.specs.Prelude.{◌≡◌, ◌+◌, ◌<◌, ◌≤◌, ◌^◌, ◌∷◌, IfOk, IfSome};
ghost use Rattle.papaya_map_arena.specs.Rows.{AreSlots};

use crate::lanes::{LANES, Lanes};
use boxcar::slot::{OnceSlot, SlotRule};
use boxcar::tag::{Names, Tag};
use core::mem::replace_with;
use papaya_map_cells::arena_slot::{ArenaSlot, Written};
use papaya_map_cells::tickets::TicketCounter;
use std::alloc::{AllocError, Global};
use std::marker::Model;

/// A row of an arena.
pub type Row<T> = Vec<ArenaSlot<T>>;

/// The cell of an arena that holds a row once it is made, and no slots before. Contracts see the
/// name of the row's slot, and a tag.
///
/// Whoever has the row's token reads the row alone. `made` keeps that token for those who have
/// none, and `counter` lets one caller make the row. A cell has 64 bytes, so that it is found by a
/// shift.
#[derive(Drop)]
pub struct RowSlot<T> {
    row: ArenaSlot<Row<T>>,
    counter: TicketCounter,
    made: OnceSlot<Written<Row<T>>, Numbered>,
    apart: [u64; 2],
}

impl<T> Model for RowSlot<T> {
    ghost use Rattle.std.specs.Prelude.{◌≡◌, ◌∷◌};
    ghost use Rattle.boxcar.specs.Slot.{Named as RowNamed, named_coded};
    ghost use Rattle.boxcar.specs.Table.{others};

    ghost Value = { RowNamed };

    ghost coded = { named_coded };

    ghost view = { λ cell. record { id = cell.row.id; tag = others cell.made.tag } };

    ghost invariant = { λ cell. (cell.row.counter ≡ cell.counter) × (cell.row.number ≡ 0)
        × (cell.made.tag ≡ cell.row.id ∷ others cell.made.tag) };
}

/// A type whose values can fill a slot until its value is written.
pub trait Blank {
    /// Returns a value that nobody reads, made beside this one. It owns nothing.
    fn blank(&self) -> Self;
}

impl Blank for u64 {
    fn blank(&self) -> u64 {
        0
    }
}

/// The rule of the token in a row's cell: it is that of the cell's row, which has the slots that
/// the cell's tag says.
pub struct Numbered;

impl<T> SlotRule<Written<Row<T>>> for Numbered {
    ghost use Rattle.std.specs.Prelude.{◌≡◌};
    ghost use Rattle.boxcar.specs.Table.{first, others};
    ghost use Rattle.papaya_map_arena.specs.Rows.{AreSlots};

    ghost holds = { λ tag token. (token.of ≡ first tag)
        × AreSlots (others tag) token.value.items };
}

/// The slot of a row, the length of the row's parts, the number of its first slot, and the counters
/// of these numbers.
#[derive(Drop)]
pub(crate) struct Numbers<'a, T> {
    pub(crate) row: &'a ArenaSlot<Row<T>>,
    pub(crate) part: usize,
    pub(crate) first: usize,
    pub(crate) counters: Tag,
}

struct RowNames;

impl<'a, T> Names<Numbers<'a, T>> for RowNames {
    ghost use Rattle.std.specs.Prelude.{◌∷◌};

    ghost numbers = { λ row. row.row.now.id ∷ row.part ∷ row.first ∷ row.counters.numbers };
}

/// Returns the cell of a row that is not made yet.
pub(crate) fn no_row<T>(alloc: Global, lanes: &Lanes, first: usize, part: usize) -> RowSlot<T>
    ensures { result.tag ≡ part ∷ first ∷ lanes.now }
{
    let counter = TicketCounter::new();
    let row = ArenaSlot::new(Vec::new(alloc), &counter, 0);
    let made = OnceSlot::new(&Tag::of::<Numbers<'_, T>, RowNames>(&Numbers {
        row: &row,
        part,
        first,
        counters: lanes.tag(),
    }));
    RowSlot {
        row,
        counter,
        made,
        apart: [0; 2],
    }
}

impl<T> RowSlot<T> {
    /// Returns the token of the row if the row is made.
    #[inline(always)]
    pub(crate) fn witness(&self) -> Option<Written<Row<T>>>
        ensures row { IfSome result (λ row. row.of ≡ self.now.id) }
        ensures slots { IfSome result (λ row. AreSlots self.now.tag row.value.items) }
    {
        let made = self.made.get()?;
        Some(made.again())
    }

    /// Returns the row, which the token proves to be made.
    #[inline(always)]
    pub(crate) fn value<'a>(&'a self, written: &Written<Row<T>>) -> &'a Row<T>
        requires { written.now.of ≡ self.now.id }
        ensures { result.now ≡ written.now.value }
    {
        self.row.value(written)
    }
}

impl<T: Drop> RowSlot<T> {
    /// Makes this the row, and returns its token. Fails if there is a row already.
    pub(crate) fn set(&self, slots: Row<T>) -> Result<Written<Row<T>>, AllocError>
        requires { AreSlots self.now.tag slots.items }
        ensures row { IfOk result (λ row. row.of ≡ self.now.id) }
        ensures slots { IfOk result (λ row. AreSlots self.now.tag row.value.items) }
    {
        let Some((0, right)) = self.counter.take() else {
            return Err(AllocError);
        };
        let (written, _none) = self.row.write(right, slots);
        let token = written.again();
        match self.made.set_written(written) {
            Ok(_) => Ok(token),
            Err(_) => Err(AllocError),
        }
    }
}

// Returns the slot for the caller that has this number of the counter.
fn with_number<T>(slot: ArenaSlot<T>, right: (&TicketCounter, u64)) -> (ArenaSlot<T>, ())
    ensures { (result.0.counter ≡ right.entry.0.now) × (result.0.number ≡ right.entry.1) }
{
    let (counter, number) = right;
    (ArenaSlot::new(slot.into_inner(), counter, number), ())
}

/// Writes up to `more` further slots of a row of `len` slots, with blanks made beside a value. No
/// row has them yet, so nobody may write them. Returns the slots as they were if memory runs out.
pub(crate) fn write_some<T: Blank + Drop>(
    ahead: Vec<ArenaSlot<T>>,
    lanes: &Lanes,
    len: usize,
    more: usize,
    value: &T,
) -> Vec<ArenaSlot<T>> {
    let mut slots = ahead;
    let left = len.saturating_sub(slots.len());
    if slots.reserve_exact(left).is_ok() {
        for _ in 0..more.min(left) {
            slots.push_reserved(ArenaSlot::new(value.blank(), lanes.counter(0), 0));
        }
    }
    slots
}

/// Makes a row whose parts have `part` slots each, with the numbers from `first`. They hold blanks,
/// made beside a value. The slots that were written ahead become the row's own in place, which runs
/// no code.
pub(crate) fn new_row<T: Blank + Drop>(
    lanes: &Lanes,
    first: usize,
    part: usize,
    ahead: Vec<ArenaSlot<T>>,
    value: &T,
) -> Result<Row<T>, AllocError>
    requires part { (0 < part) × (part ≤ 2 ^ 38) }
    requires first { first ≤ 2 ^ 38 }
    ensures { IfOk result (λ row. AreSlots (part ∷ first ∷ lanes.now) row.items) }
{
    let mut row = ahead;
    let len = LANES * part;
    row.truncate(len);
    let written = row.len();
    row.reserve_exact(len - written)?;
    for place in 0..written {
        let number = first + place % part;
        replace_with(
            &mut row[place],
            (lanes.counter(place / part), number as u64),
            with_number,
        );
    }
    for place in written..len {
        let number = first + place % part;
        let counter = lanes.counter(place / part);
        row.push_reserved(ArenaSlot::new(value.blank(), counter, number as u64));
    }
    Ok(row)
}
