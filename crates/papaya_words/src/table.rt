//! One table of slots, and the lengths of tables.
ghost use Rattle.std.specs.Prelude.{◌≡◌, ℕ, Bool, ◌-◌, ◌^◌, ◌<◌, ◌≤◌, ◌⊎◌, true, false, max};
ghost use Rattle.std.specs.Prelude.{MatchResult, IfOk, IfErr, length, slice_get, Some, slice_set};
ghost use Rattle.papaya_words.specs.Probe.{IsLimit};
ghost use Rattle.std.specs.Int.{IsPowerOfTwo};
ghost use Rattle.papaya_words.specs.Table.{length_after, limit_after};

use crate::fresh::FreshWords;
use crate::limits::{LEAST_TABLE_LEN, MAX_TABLE_LEN};
use crate::probe::limit;
use crate::refused::Refused;
use std::alloc::Global;
use std::marker::Model;

/// A table: its slots with their hints, how far a search looks, and how far its resize is. Its
/// words are plain; the shared map keeps the same in atomic words.
///
/// It replaces `RawTable` of 0.2.5 and the `State` beside it.
pub struct Table {
    number: u64,
    limit: usize,
    slots: Vec<u64>,
    hints: Vec<u8>,
    next: u64,
    aborted: u64,
    done: Vec<u64>,
    begin: usize,
}

impl Model for Table {
    ghost use Rattle.std.specs.Prelude.{◌≡◌, length};
    ghost use Rattle.papaya_words.specs.Table.{TableWords};

    ghost Value = { TableWords };

    ghost view = { λ t. record {
      number = t.number;
      limit = t.limit;
      slots = t.slots.items;
      hints = t.hints.items;
      next = t.next;
      aborted = t.aborted;
      done = t.done.items;
    } };

    ghost invariant = { λ t. length t.hints.items ≡ length t.slots.items };
}

impl Drop for Table {
    fn drop(self) {
        let Self {
            number: _,
            limit: _,
            slots: _,
            hints: _,
            next: _,
            aborted: _,
            done: _,
            begin: _,
        } = self;
    }
}

impl Table {
    ghost use Rattle.papaya_words.specs.Table.{new_table, noted};

    /// Creates a table with `len` `Empty` slots, no hints and no next table, to which a table of
    /// `chunks` chunks is copied. It takes over the words of `room` if those are for `len` slots.
    ///
    /// # Errors
    ///
    /// Fails with `Refused::Memory` if memory runs out.
    pub fn new(
        alloc: Global,
        room: FreshWords,
        number: u64,
        len: usize,
        limit: usize,
        chunks: usize,
    ) -> Result<Table, Refused>
        ensures ok { IfOk result (λ table. table ≡ new_table number len limit chunks) }
        ensures err { IfErr result (λ refused. refused ≡ Refused.Memory) }
    {
        match (room.into_slots(alloc, len), vec![in alloc; 0; chunks]) {
            (Ok((slots, hints)), Ok(done)) => Ok(Table {
                number,
                limit,
                slots,
                hints,
                next: 0,
                aborted: 0,
                done,
                begin: 0,
            }),
            _ => Err(Refused::Memory),
        }
    }

    /// Returns the table's number in its map, from 1.
    pub fn number(&self) -> u64
        ensures { result ≡ self.now.number }
    {
        self.number
    }

    /// Returns the number of slots.
    #[inline(always)]
    pub fn len(&self) -> usize
        ensures { result ≡ length self.now.slots }
    {
        self.slots.len()
    }

    /// Returns the probe limit: how many places after the first a search looks at.
    #[inline(always)]
    pub fn limit(&self) -> usize
        ensures { result ≡ self.now.limit }
    {
        self.limit
    }

    /// Returns the number of the next table, or 0 if there is none yet.
    #[inline(always)]
    pub fn next(&self) -> u64
        ensures { result ≡ self.now.next }
    {
        self.next
    }

    /// Returns 1 if the copy to this table was given up because a pair of the table before found no
    /// place here, and 0 otherwise. The copy then continues with the next table.
    pub fn aborted(&self) -> u64
        ensures { result ≡ self.now.aborted }
    {
        self.aborted
    }

    /// Returns the number of chunks in which the table before is copied to this one.
    pub fn chunks(&self) -> usize
        ensures { result ≡ length self.now.done }
    {
        self.done.len()
    }

    /// Returns 1 if this chunk of the table before is copied, and 0 otherwise.
    pub fn done(&self, chunk: usize) -> u64
        requires { chunk < length self.now.done }
        ensures { slice_get self.now.done chunk ≡ Some result }
    {
        self.done[chunk]
    }

    /// Returns a chunk after the one whose word was written last. A copy by one caller finds the
    /// next word that is 0 there.
    pub fn begin(&self) -> usize {
        self.begin
    }

    /// Writes the number of the next table.
    pub fn set_next(&mut self, next: u64)
        ensures { self.new ≡ record self.old { next = next } }
    {
        self.next = next;
    }

    /// Writes whether the copy to this table was given up.
    pub fn set_aborted(&mut self, aborted: u64)
        ensures { self.new ≡ record self.old { aborted = aborted } }
    {
        self.aborted = aborted;
    }

    /// Writes whether a chunk of the table before is copied.
    pub fn set_chunk_copied(&mut self, chunk: usize, done: u64)
        requires { chunk < length self.old.done }
        ensures { self.new ≡ record self.old { done = slice_set self.old.done chunk done } }
    {
        self.done[chunk] = done;
        self.begin = chunk + 1;
    }

    /// Returns the word of a slot.
    #[inline(always)]
    pub fn slot(&self, i: usize) -> u64
        requires { i < length self.now.slots }
        ensures { slice_get self.now.slots i ≡ Some result }
    {
        self.slots[i]
    }

    /// Writes the word of a slot.
    #[inline(always)]
    pub fn put(&mut self, i: usize, word: u64)
        requires { i < length self.old.slots }
        ensures { self.new ≡ record self.old { slots = slice_set self.old.slots i word } }
    {
        self.slots[i] = word;
    }

    /// Returns the hint of a slot, or 0 if it has none.
    #[inline(always)]
    pub fn hint(&self, i: usize) -> u8
        requires { i < length self.now.slots }
        ensures { slice_get self.now.hints i ≡ Some result }
    {
        self.hints[i]
    }

    /// Writes the hint of a slot that has none. An existing hint stays.
    #[inline(always)]
    pub fn set_hint(&mut self, i: usize, hint: u8)
        requires { i < length self.old.slots }
        ensures { self.new ≡ record self.old { hints = noted self.old.hints i hint } }
    {
        if self.hints[i] == 0 {
            self.hints[i] = hint;
        }
    }
}

/// Returns the length of a table for which `asked` slots are requested: at least 8.
pub fn table_len(asked: usize) -> usize
    ensures { result ≡ max asked 8 }
{
    asked.max(LEAST_TABLE_LEN)
}

/// Returns the length to request for the table after one of `len` slots. `count` is the map's count
/// and `initial` its initial capacity. The length doubles if the table is at least half full. It
/// halves if at most an eighth is full, but not below `initial`.
///
/// With `did_not_fit`, a pair found no place or the table before was aborted. Then the length
/// doubles whatever the count, because the count may lag behind any number of stopped callers.
///
/// # Errors
///
/// Fails with `Refused::Capacity` if the length would exceed [`MAX_TABLE_LEN`].
pub fn next_len(
    len: usize,
    count: usize,
    initial: usize,
    did_not_fit: bool,
) -> Result<usize, Refused>
    ensures { let wanted = length_after len count initial did_not_fit in MatchResult result
        (λ next. (next ≡ wanted) × (wanted ≤ 2 ^ 32))
        (λ refused. (refused ≡ Refused.Capacity) × (2 ^ 32 < wanted)) }
{
    let next = if did_not_fit || count >= len / 2 {
        len.saturating_mul(2)
    } else if count <= len / 8 {
        initial.max(len / 2)
    } else {
        len
    };
    if next > MAX_TABLE_LEN {
        return Err(Refused::Capacity);
    }
    Ok(next)
}

/// Returns the probe limit of a table of `len` slots that follows one of `before` slots. The first
/// table has [`limit`].
///
/// If pairs have just found no place, or the table is no longer than the one before, a search
/// probes every slot.
pub fn next_limit(len: usize, before: usize, did_not_fit: bool) -> usize
    requires { 1 ≤ len }
    ensures value { result ≡ limit_after len before did_not_fit }
    ensures small { len ≤ 2 ^ 32 → result < 2 ^ 32 }
    ensures whole { (did_not_fit ≡ true) ⊎ (len ≤ before) → result ≡ len - 1 }
    ensures grown { did_not_fit ≡ false → before < len → IsLimit len result }
{
    if did_not_fit || len <= before {
        len - 1
    } else {
        limit(len)
    }
}

/// States that each table's length is a power of two if the length before is.
pub fn lengths_are_powers()
    ensures { (len count initial : ℕ) (did_not_fit : Bool) → IsPowerOfTwo len → IsPowerOfTwo initial
        → IsPowerOfTwo (max (length_after len count initial did_not_fit) 8) }
{}
