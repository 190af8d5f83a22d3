//! The tables and their words.
ghost use Rattle.std.specs.Prelude.{◌≡◌, ◌⊎◌, length, Some, None, MatchOption, slice_get};
ghost use Rattle.papaya_core_store.specs.Tables.{table_of, word_at, put, put_in, written, hint_at};
ghost use Rattle.papaya_core_store.specs.Tables.{hint_in, hinted, note};
ghost use Rattle.papaya_core_store.specs.Performs.{Exchanges, size_of, Refuses, MakesTable};

use crate::store::Store;
use papaya_call::ask::{Answer, At};
use papaya_words::fresh::FreshWords;
use papaya_words::limits::MAX_TABLES;
use papaya_words::refused::Refused;
use papaya_words::table::{Table, next_len};
use std::alloc::Global;
use std::hash::{BuildHasher, Hash};
use std::mem;

/// Writes a word of the table at index `k`, if there is one.
#[inline(always)]
fn put_in(tables: &mut Vec<Table>, k: usize, at: At, word: u64)
    ensures { tables.new.items ≡ put_in at (slice_get tables.old.items k) tables.old.items k word }
{
    if k < tables.len() {
        write_in(&mut tables[k], at, word);
    }
}

/// Writes a word of a table.
#[inline(always)]
fn write_in(table: &mut Table, at: At, word: u64)
    ensures { table.new ≡ written at table.old word }
{
    match at {
        At::Root | At::Made => {}
        At::Next(_) => table.set_next(word),
        At::Aborted(_) => table.set_aborted(word),
        At::Done(_, chunk) => {
            if chunk < table.chunks() {
                table.set_chunk_copied(chunk, word);
            }
        }
        At::Slot(_, i) => {
            if i < table.len() {
                table.put(i, word);
            }
        }
    }
}

/// Writes the hint of a slot of the table at index `k`, if there is one.
#[inline(always)]
fn note_in(tables: &mut Vec<Table>, k: usize, i: usize, hint: u8)
    ensures { tables.new.items ≡ hint_in (slice_get tables.old.items k) tables.old.items k i hint }
{
    if k < tables.len() {
        note_slot(&mut tables[k], i, hint);
    }
}

/// Writes the hint of a slot of a table, if there is such a slot.
#[inline(always)]
fn note_slot(table: &mut Table, i: usize, hint: u8)
    ensures { table.new ≡ hinted table.old i hint }
{
    if i < table.len() {
        table.set_hint(i, hint);
    }
}

impl<K: Hash + Eq, V, S: BuildHasher> Store<K, V, S> {
    /// Returns a table by its number.
    #[inline(always)]
    pub fn table(&self, n: u64) -> Option<&Table>
        ensures { MatchOption result (table_of self.now.words.tables n ≡ None)
            (λ t. table_of self.now.words.tables n ≡ Some t.now) }
    {
        if n == 0 {
            None
        } else {
            self.tables.get(n as usize - 1)
        }
    }

    /// Returns the size of a table, if there is one.
    #[inline(always)]
    pub fn size_of(&self, n: u64) -> Answer
        ensures { result ≡ size_of (table_of self.now.words.tables n) }
    {
        match self.table(n) {
            Some(table) => Answer::Size {
                len: table.len(),
                limit: table.limit(),
            },
            None => Answer::Ok,
        }
    }

    /// Returns the root table.
    pub fn root(&self) -> Option<&Table>
        ensures { MatchOption result (table_of self.now.words.tables self.now.words.root ≡ None)
            (λ t. table_of self.now.words.tables self.now.words.root ≡ Some t.now) }
    {
        self.table(self.root)
    }

    /// Returns the word at this address, or 0 if there is no such word.
    #[inline(always)]
    pub fn word(&self, at: At) -> u64
        ensures { result ≡ word_at self.now.words at }
    {
        match at {
            At::Root => self.root,
            At::Next(n) => self.table(n).map_or(0, |table| table.next()),
            At::Aborted(n) => self.table(n).map_or(0, |table| table.aborted()),
            At::Done(n, chunk) => match self.table(n) {
                Some(table) if chunk < table.chunks() => table.done(chunk),
                _ => 0,
            },
            At::Slot(n, i) => match self.table(n) {
                Some(table) if i < table.len() => table.slot(i),
                _ => 0,
            },
            At::Made => self.made,
        }
    }

    /// Returns the chunk at which the next copy to table `n` may begin, or 0 without such a table.
    pub fn begin(&self, n: u64) -> usize {
        match self.table(n) {
            Some(table) => table.begin(),
            None => 0,
        }
    }

    /// Writes the word at this address, if there is such a word.
    #[inline(always)]
    fn put(&mut self, at: At, word: u64)
        ensures { self.new ≡ record self.old { words = put self.old.words at word } }
    {
        let n = match at {
            At::Root => {
                self.root = word;
                return;
            }
            At::Made => {
                self.made = word;
                return;
            }
            At::Next(n) | At::Aborted(n) | At::Done(n, _) | At::Slot(n, _) => n,
        };
        if n != 0 {
            put_in(&mut self.tables, n as usize - 1, at, word);
        }
    }

    /// Returns the hint of a slot, or 0 if there is no such slot.
    #[inline(always)]
    pub fn hint(&self, n: u64, i: usize) -> u64
        ensures { result ≡ hint_at self.now.words n i }
    {
        match self.table(n) {
            Some(table) if i < table.len() => table.hint(i) as u64,
            _ => 0,
        }
    }

    /// Writes the hint of a slot that has none, if there is such a slot.
    #[inline(always)]
    pub fn write_hint(&mut self, n: u64, i: usize, hint: u8)
        ensures { self.new ≡ record self.old { words = note self.old.words n i hint } }
    {
        if n != 0 {
            note_in(&mut self.tables, n as usize - 1, i, hint);
        }
    }

    /// Exchanges the word for `new` if it is `old`.
    #[inline(always)]
    pub fn exchange(&mut self, at: At, old: u64, new: u64) -> Answer
        ensures { Exchanges (word_at self.old.words at) old (put self.old.words at new) result
            self.old self.new }
    {
        let found = self.word(at);
        if found == old {
            self.put(at, new);
            Answer::Exchanged
        } else {
            Answer::Found(found)
        }
    }
}

impl<K: Hash + Eq + Drop, V: Drop, S: BuildHasher> Store<K, V, S> {
    /// Makes a table of empty slots, to which a table of `chunks` chunks is copied.
    pub(crate) fn make_table(
        &mut self,
        alloc: Global,
        len: usize,
        limit: usize,
        chunks: usize,
    ) -> Answer
        ensures { (Refuses MAX_TABLES (length self.old.words.tables) result × (self.new ≡ self.old))
            ⊎ MakesTable result len limit chunks self.old self.new }
    {
        let n = self.tables.len() as u64;
        if n >= MAX_TABLES {
            return Answer::Refused(Refused::Capacity);
        }
        let room = mem::replace(&mut self.ahead, FreshWords::new(alloc));
        match Table::new(alloc, room, n + 1, len, limit, chunks) {
            Err(refused) => Answer::Refused(refused),
            Ok(table) => match self.tables.push(table) {
                Ok(()) => Answer::Made(n + 1),
                Err(_) => Answer::Refused(Refused::Memory),
            },
        }
    }

    /// Writes some words of the next table ahead, for the length that the count now asks for. So
    /// the call that makes it does not pay for all of it. No contract relies on them.
    #[cold]
    #[inline(never)]
    pub fn write_ahead(&mut self, alloc: Global)
        ensures { self.new ≡ self.old }
    {
        let Some(root) = self.root() else {
            return;
        };
        // Maps seldom shrink, so nothing is written for a shorter table.
        let len = root.len();
        let Ok(next) = next_len(len, self.count(), len, false) else {
            return;
        };
        let room = mem::replace(&mut self.ahead, FreshWords::new(alloc));
        self.ahead = room.with_more(next);
    }
}
