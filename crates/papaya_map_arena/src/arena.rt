//! The arena: its rows, and where the next push of each lane is stored.
ghost use Rattle.std.specs.Prelude.{[], ◌≡◌, ◌≤◌, ◌<◌, ◌^◌, ◌+◌, ◌*◌, ◌/◌, ◌%◌, IfOk, IfErr, IfSome};
ghost use Rattle.boxcar.specs.Table.{Shows, id_at};
ghost use Rattle.papaya_map_arena.specs.Rows.{AreRows, part_first, part_len, row_of, slot_of};
ghost use Rattle.papaya_map_arena.specs.Places.{IsMade, IsPlace, IsRow};

use crate::brief::brief_lock;
use crate::lanes::{LANES, Lanes};
use crate::row::{Blank, Row, RowSlot, new_row, no_row, write_some};
use crate::token::Pushed;
use papaya_map_cells::arena_slot::{ArenaSlot, Right, Written};
use std::alloc::{AllocError, Global};
use std::marker::Model;
use std::mem::{forget, replace};
use std::sync::{Mutex, Wait};

/// The distance between the numbers of two rows. No row is longer.
const ROW_SPAN: usize = 0x400_0000_0000;

/// How many numbers a lane's counter gives out.
const LANE_SPAN: usize = ROW_SPAN / LANES;

/// The most rows of an arena.
const ROWS: usize = 38;

/// The least length of a lane's part of the first row.
const LEAST_FIRST: usize = 4;

/// The base-2 logarithm of the greatest length of a part.
const LAST_BITS: u32 = 38;

/// Slots of a row are written ahead while the last of this many pieces of the row before is filled.
const AHEAD_PARTS: usize = 32;

/// During that time one push in this many writes slots ahead.
const AHEAD_PUSHES: usize = 8;

/// It writes this many, because a row has at most twice the slots of the one before.
const AHEAD_SLOTS: usize = 2 * AHEAD_PARTS * AHEAD_PUSHES;

/// A number of a lane's counter, and where its value is: a row, and a slot of the lane's part.
#[derive(Drop)]
pub(crate) struct Location {
    push: u64,
    right: Right,
    lane: usize,
    row: usize,
    slot: usize,
}

/// Values by number, which threads push and read without a lock. Row `r` has the numbers from
/// `r * 2^42`. The first row has the requested capacity, each further one as much as all before it.
///
/// A row has a part for each of eight lanes, whose pushes take numbers from a counter of their own.
/// The caller selects the lane by any number. The more these numbers differ, the more evenly the
/// parts fill.
///
/// A thread that makes a row holds `making`, so that one thread alone pays for it. Slots of a row
/// that is not made yet are written ahead, and wait in `ahead`.
pub struct Arena<T> {
    rows: Vec<RowSlot<T>>,
    first_bits: u32,
    making: Mutex<()>,
    ahead: Mutex<Vec<ArenaSlot<T>>>,
    alloc: Global,
    lanes: Lanes,
}

impl<T> Model for Arena<T> {
    ghost use Rattle.std.specs.Prelude.{[]};
    ghost use Rattle.boxcar.specs.Table.{Shelves, shelves_coded};
    ghost use Rattle.papaya_map_arena.specs.Rows.{AreRows};

    ghost Value = { Shelves };

    ghost coded = { shelves_coded };

    ghost view = { λ arena. record { tag = []; buckets = arena.rows.items } };

    ghost invariant = { λ arena. AreRows arena.first_bits arena.lanes arena.rows.items };
}

impl<T: Drop> Drop for Arena<T> {
    fn drop(self) {
        let Self {
            rows: _,
            first_bits: _,
            making: _,
            ahead: _,
            alloc: _,
            lanes: _,
        } = self;
    }
}

/// Returns how many bits an index in a part of the first row has, for this capacity.
fn first_bits(capacity: usize) -> u32
    ensures { (2 ≤ result) × (result ≤ 38) }
{
    let part = capacity.div_ceil(LANES).max(LEAST_FIRST).min(LANE_SPAN / 2);
    (part - 1).ilog2() + 1
}

fn power(bits: u32) -> usize
    requires { bits ≤ 38 }
    ensures { (result ≡ 2 ^ bits) × (0 < result) × (result ≤ 2 ^ 38) }
{
    1 << bits
}

/// Returns the length of a part of a row.
fn length_of(first_bits: u32, row: usize) -> usize
    requires { (first_bits ≤ 38) × (row < 38) }
    ensures { (result ≡ part_len first_bits row) × (0 < result) × (result ≤ 2 ^ 38) }
{
    if row == 0 {
        return power(first_bits);
    }
    power((first_bits + row as u32 - 1).min(LAST_BITS))
}

/// Returns the row and the slot in the lane's part for the lane's push with this index.
fn place_of(first_bits: u32, index: usize) -> (usize, usize)
    requires bits { (2 ≤ first_bits) × (first_bits ≤ 38) }
    requires index { index < 2 ^ 39 }
    ensures row { result.0 < 38 }
    ensures slot { result.1 < part_len first_bits result.0 }
    ensures push { part_first first_bits result.0 + result.1 ≡ index }
    ensures fits { part_len first_bits result.0 ≤ 2 ^ 38 }
{
    if index < power(first_bits) {
        return (0, index);
    }
    let top = index.ilog2();
    ((top - first_bits) as usize + 1, index - power(top))
}

/// Returns the index in its row of a slot of a lane's part.
#[inline(always)]
fn slot_in_row(lane: usize, part: usize, slot: usize) -> usize
    requires { (lane < 8) × (slot < part) × (part ≤ 2 ^ 38) }
    ensures part { (result / part ≡ lane) × (result % part ≡ slot) }
    ensures fits { result < 8 * part }
{
    lane * part + slot
}

/// Returns the number of a slot of a row.
fn number_of(row: usize, slot: usize) -> usize
    requires { (row < 38) × (slot < 2 ^ 42) }
    ensures places { (row_of result ≡ row) × (slot_of result ≡ slot) }
    ensures fits { result < 2 ^ 48 }
{
    row * ROW_SPAN + slot
}

/// Returns the index of the lane's push for which the first slot of its part of a row is.
fn first_of(first_bits: u32, row: usize) -> usize
    requires { (first_bits ≤ 38) × (row < 38) }
    ensures { (result ≡ part_first first_bits row) × (result ≤ 2 ^ 38) }
{
    if row == 0 {
        return 0;
    }
    length_of(first_bits, row)
}

/// Returns the slots for rows, none of which is made yet.
fn empty_rows<T: Drop>(
    alloc: Global,
    first_bits: u32,
    lanes: &Lanes,
) -> Result<Vec<RowSlot<T>>, AllocError>
    requires { (2 ≤ first_bits) × (first_bits ≤ 38) }
    ensures { IfOk result (λ rows. AreRows first_bits lanes.now rows.items) }
{
    let mut rows = Vec::with_capacity(alloc, ROWS)?;
    for row in 0..ROWS {
        let first = first_of(first_bits, row);
        rows.push(no_row(alloc, lanes, first, length_of(first_bits, row)))?;
    }
    Ok(rows)
}

impl<T: Drop> Arena<T> {
    /// Creates an empty arena. Its first row will have `capacity` slots, rounded up to a power of
    /// two and at least 32.
    pub fn new(alloc: Global, capacity: usize) -> Result<Arena<T>, AllocError>
        ensures { IfOk result (λ arena. arena.tag ≡ []) }
    {
        let first_bits = first_bits(capacity);
        let lanes = Lanes::new(alloc)?;
        Ok(Arena {
            rows: empty_rows(alloc, first_bits, &lanes)?,
            first_bits,
            making: Mutex::new(()),
            ahead: Mutex::new(Vec::new(alloc)),
            alloc,
            lanes,
        })
    }
}

impl<T: Blank + Drop> Arena<T> {
    /// Makes a row, unless it exists. If several threads need it, one makes it.
    #[cold]
    #[inline(never)]
    fn make_row<R: Wait>(
        &self,
        rt: &R,
        row: usize,
        value: &T,
    ) -> Result<Written<Row<T>>, AllocError>
        requires { row < 38 }
        ensures { IfOk result (λ made. IsRow self.now.buckets row made.of made.value.items) }
    {
        let making = self.making.lock(rt);
        if let Some(written) = self.rows[row].witness() {
            return Ok(written);
        }
        let (first, len) = (
            first_of(self.first_bits, row),
            length_of(self.first_bits, row),
        );
        let slots = new_row(&self.lanes, first, len, self.take_ahead(), value)?;
        let made = self.rows[row].set(slots);
        drop(making);
        made
    }

    /// Takes the slots that were written ahead. There are none while a thread writes some, since
    /// that one may be stopped: the caller then writes the whole row, and waits for nobody.
    fn take_ahead(&self) -> Vec<ArenaSlot<T>> {
        match brief_lock(&self.ahead) {
            Some(mut ahead) => replace(&mut *ahead, Vec::new(self.alloc)),
            None => Vec::new(self.alloc),
        }
    }

    /// Returns whether a lane has slots left in a row before its last piece (see `AHEAD_PARTS`).
    fn has_room(&self, lane: usize, row: usize) -> bool
        requires { (lane < 8) × (row < 38) }
    {
        let index = self.lanes.counter(lane).given() as usize;
        if index >= LANE_SPAN {
            return false;
        }
        let (found, slot) = place_of(self.first_bits, index);
        let part = length_of(self.first_bits, row);
        found == row && slot < part - part / AHEAD_PARTS
    }

    /// Writes some slots of a row that is not made yet, so that making it is cheaper. Does nothing
    /// while most lanes have room in the row before, since few keys may fill one lane.
    fn write_ahead(&self, row: usize, value: &T) {
        if row == 0 || row >= ROWS {
            return;
        }
        let mut roomy: usize = 0;
        for lane in 0..LANES {
            if self.has_room(lane, row - 1) {
                roomy = roomy.wrapping_add(1);
            }
        }
        if roomy > LANES / 2 {
            return;
        }
        let Some(mut ahead) = self.ahead.try_lock() else {
            return;
        };
        if self.rows[row].witness().is_some() {
            return;
        }
        let len = LANES * length_of(self.first_bits, row);
        let written = replace(&mut *ahead, Vec::new(self.alloc));
        *ahead = write_some(written, &self.lanes, len, AHEAD_SLOTS, value);
    }

    /// Returns the proof that a row exists. Makes the row if it does not.
    fn row<R: Wait>(&self, rt: &R, row: usize, value: &T) -> Result<Written<Row<T>>, AllocError>
        requires { row < 38 }
        ensures { IfOk result (λ made. IsRow self.now.buckets row made.of made.value.items) }
    {
        match self.rows[row].witness() {
            Some(written) => Ok(written),
            None => self.make_row(rt, row, value),
        }
    }

    /// Returns the next number of a lane with its location, or `None` if no number is left.
    #[inline(always)]
    fn next_place(&self, lane: u64) -> Option<Location>
        ensures { IfSome result (λ place. IsPlace self.now.buckets place) }
    {
        let lane = (lane % LANES as u64) as usize;
        let counter = self.lanes.counter(lane);
        let (push, right) = counter.take()?;
        let index = push as usize;
        if index >= LANE_SPAN {
            counter.give_back(right, push);
            return None;
        }
        let (row, slot) = place_of(self.first_bits, index);
        Some(Location {
            push,
            right,
            lane,
            row,
            slot,
        })
    }

    /// Returns the number to the lane's counter. It is lost if another push came between.
    #[cold]
    fn give_back(&self, place: Location)
        requires { IsPlace self.now.buckets place }
    {
        let counter = self.lanes.counter(place.lane);
        counter.give_back(place.right, place.push);
    }

    /// Returns the next place of a lane if its row is made.
    #[inline(always)]
    fn made_place(&self, lane: u64) -> Option<(Location, Written<Row<T>>)>
        ensures { IfSome result (λ made. IsMade self.now.buckets made.0 made.1.of made.1.value.items) }
    {
        let place = self.next_place(lane)?;
        match self.rows[place.row].witness() {
            Some(row) => Some((place, row)),
            None => {
                self.give_back(place);
                None
            }
        }
    }

    /// Returns the next place of another lane: the first that has one in a row that is made.
    #[cold]
    #[inline(never)]
    fn other_place(&self, lane: u64) -> Option<(Location, Written<Row<T>>)>
        ensures { IfSome result (λ made. IsMade self.now.buckets made.0 made.1.of made.1.value.items) }
    {
        for step in 1..LANES as u64 {
            let made = self.made_place(lane.wrapping_add(step));
            if made.is_some() {
                return made;
            }
        }
        None
    }

    /// Returns whether this push writes slots of the next row ahead. No push does so in the first
    /// row, so that an arena within its capacity has no other row.
    #[inline(always)]
    fn is_due(&self, place: &Location, row: &Written<Row<T>>) -> bool
        requires { IsMade self.now.buckets place.now row.now.of row.now.value.items }
    {
        if !place.slot.is_multiple_of(AHEAD_PUSHES) || place.row == 0 {
            return false;
        }
        let part = self.rows[place.row].value(row).len() / LANES;
        place.slot >= part - part / AHEAD_PARTS
    }

    /// Writes a value into its slot, and returns its token.
    #[inline(always)]
    fn write(&self, place: Location, row: Written<Row<T>>, value: T) -> Pushed<T>
        requires { IsMade self.now.buckets place row.of row.value.items }
        ensures shows { Shows self.now result × (result.value ≡ value) }
        ensures number { result.index < 2 ^ 48 }
    {
        let slots = self.rows[place.row].value(&row);
        let slot = slot_in_row(place.lane, slots.len() / LANES, place.slot);
        let (item, blank) = slots[slot].write(place.right, value);
        forget(blank);
        Pushed {
            number: number_of(place.row, slot),
            row,
            item,
        }
    }

    /// Pushes a value at a place whose row is made. Writes slots of the next row ahead if that is
    /// due.
    fn push_at(&self, place: Location, row: Written<Row<T>>, value: T) -> Pushed<T>
        requires { IsMade self.now.buckets place row.of row.value.items }
        ensures shows { Shows self.now result × (result.value ≡ value) }
        ensures number { result.index < 2 ^ 48 }
    {
        if self.is_due(&place, &row) {
            self.write_ahead(place.row + 1, &value);
        }
        self.write(place, row, value)
    }

    /// Pushes a value by a lane, and returns its token. If the lane has no slot in a row that is
    /// made, another lane's is used; if no lane has one, a row is made. Fails with the value if
    /// memory runs out or no number is left.
    pub fn push_shown<R: Wait>(&self, rt: &R, lane: u64, value: T) -> Result<Pushed<T>, T>
        ensures ok { IfOk result (λ p. Shows self.now p × (p.value ≡ value)) }
        ensures number { IfOk result (λ p. p.index < 2 ^ 48) }
        ensures err { IfErr result (λ back. back ≡ value) }
    {
        if let Some((place, row)) = self.made_place(lane) {
            return Ok(self.push_at(place, row, value));
        }
        if let Some((place, row)) = self.other_place(lane) {
            return Ok(self.push_at(place, row, value));
        }
        let Some(place) = self.next_place(lane) else {
            return Err(value);
        };
        let Ok(row) = self.row(rt, place.row, &value) else {
            self.give_back(place);
            return Err(value);
        };
        Ok(self.push_at(place, row, value))
    }

    /// Returns the place of a push that makes no row and writes no slots ahead.
    #[inline(always)]
    fn place_at_once(&self, lane: u64) -> Option<(Location, Written<Row<T>>)>
        ensures { IfSome result (λ made. IsMade self.now.buckets made.0 made.1.of made.1.value.items) }
    {
        let Some((place, row)) = self.made_place(lane) else {
            return self.other_place(lane);
        };
        if self.is_due(&place, &row) {
            self.give_back(place);
            return None;
        }
        Some((place, row))
    }

    /// Pushes a value by a lane if a made row has a slot for it and no slots are due to be written
    /// ahead. It never waits and allocates nothing. Otherwise it fails with the value, and
    /// [`Arena::push_shown`] does the rest.
    #[inline(always)]
    pub fn try_push(&self, lane: u64, value: T) -> Result<Pushed<T>, T>
        ensures ok { IfOk result (λ p. Shows self.now p × (p.value ≡ value)) }
        ensures number { IfOk result (λ p. p.index < 2 ^ 48) }
        ensures err { IfErr result (λ back. back ≡ value) }
    {
        match self.place_at_once(lane) {
            Some((place, row)) => Ok(self.write(place, row, value)),
            None => Err(value),
        }
    }
}

impl<T> Arena<T> {
    /// Returns how many numbers the arena has given out: for values that were pushed, for pushes
    /// under way, and for pushes that failed while another one took a number. It loads the lanes'
    /// counters one after the other, so it may miss pushes that other threads make meanwhile.
    pub fn stored(&self) -> usize {
        self.lanes.given() as usize
    }

    /// Returns the value that was pushed.
    #[inline(always)]
    pub fn value<'a>(&'a self, pushed: &Pushed<T>) -> &'a T
        requires { Shows self.now pushed.now }
        ensures { result.now ≡ pushed.now.value }
    {
        let (row, slot) = (pushed.number / ROW_SPAN, pushed.number % ROW_SPAN);
        self.rows[row].value(&pushed.row)[slot].value(&pushed.item)
    }

    /// Proves that an arena has no 39th row.
    pub fn has_no_more_rows(&self)
        ensures { id_at self.now.buckets 38 ≡ 0 }
    {
        let _ = &self.rows;
    }

    /// Proves that a number has one value.
    pub fn agrees(&self, a: &Pushed<T>, b: &Pushed<T>)
        requires { Shows self.now a.now × Shows self.now b.now × (a.now.index ≡ b.now.index) }
        ensures { a.now.value ≡ b.now.value }
    {
        a.row.agrees(&b.row);
        a.item.agrees(&b.item);
    }
}
