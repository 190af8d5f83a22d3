//! Making and opening tables.
ghost use Rattle.papaya_map_book.specs.Books.{IsIn, IsLawfulLog, IsLeft, Opens, Seals};
ghost use Rattle.std.specs.Prelude.{◌≡◌, ◌+◌, ◌-◌, ◌≤◌, ◌⊎◌, Some, None};
ghost use Rattle.std.specs.Prelude.{[], ◌∷◌, IfErr, IfOk, IfSome, length, map};
ghost use mathlib.Core.List.{IsPrefix};
ghost use Rattle.papaya_call.specs.Search.{IsSize};
ghost use Rattle.papaya_map_book.specs.Makers.{AreFrom, IsMade};
ghost use Rattle.boxcar.specs.Table.{Shows};
ghost use Rattle.papaya_map_book.specs.Limits.{HasTableFrom, IsFull, tables_of};
ghost use Rattle.papaya_map_book.specs.Sheets.{AllOf, AreBeside, AreFresh};
ghost use Rattle.std.specs.Int.{div_ceil};
ghost use Rattle.papaya_map_book.specs.declared.rule.entry.Named.TheVariants.{Table as TableNamed};
ghost use Rattle.papaya_map_book.specs.declared.rule.own.CapacityCause.TheVariants as numbers;
ghost use Rattle.papaya_words.specs.Probe.{IsEntriesFor};
ghost use Rattle.papaya_words.specs.declared.limits.TheConstants.{MAX_TABLE_LEN};

use crate::book::Book;
use crate::cell::{Cell, HintCell};
use crate::fresh::{FreshSlots, fresh_slots};
use crate::keyed::Keyed;
use crate::rule::offer::{Offer, Seen};
use crate::rule::own::{CapacityCause, OwnSteps};
use crate::rule::steps::Laying;
use crate::table::Table;
use boxcar::Pushed;
use logbook::{Pen, Pens};
use papaya_call::ask::{At, StepKind};
use papaya_map_cells::hint::track;
use papaya_words::limits::MAX_TABLES;
use papaya_words::probe::limit;
use papaya_words::refused::Refused;
use papaya_words::table::table_len;
use std::alloc::{AllocError, Global};
use std::hash::{BuildHasher, Hash};
use std::sync::{Mutex, Wait};

impl<K: Hash + Eq, V, S: BuildHasher> Book<K, V, S> {
    /// Returns the words of a new table's chunks: the next ones of the row.
    fn words(
        room: Vec<Cell<K, V, S>>,
        len: usize,
        row: &mut Pens,
    ) -> Result<Vec<Cell<K, V, S>>, AllocError>
        requires room { room.items ≡ [] }
        requires left { len ≤ row.old.left }
        ensures rest { IfOk result (λ v. (row.new.book ≡ row.old.book)
            × (row.new.next ≡ row.old.next + len) × (row.new.left ≡ row.old.left - len)) }
        ensures len { IfOk result (λ v. length v.items ≡ len) }
        ensures words { IfOk result (λ v. AllOf row.old.book v.items) }
        ensures keys { IfOk result (λ v. AreFrom (map (λ w. w.key) v.items) row.old.next) }
    {
        let mut words = room;
        for _ in 0..len {
            words.push(Self::word(row))?;
        }
        Ok(words)
    }

    /// Gives the next words of the row to fresh slots, in place: no code is left of this.
    fn give_words(slots: &mut Vec<Cell<K, V, S>>, row: &mut Pens)
        requires fresh { AreFresh slots.old.items }
        requires left { length slots.old.items ≤ row.old.left }
        ensures len { length slots.new.items ≡ length slots.old.items }
        ensures words { AllOf row.old.book slots.new.items }
        ensures keys { AreFrom (map (λ w. w.key) slots.new.items) row.old.next }
    {
        for place in 0..slots.len() {
            let mut pen = row.take();
            track(&mut slots[place], &mut pen);
        }
    }

    /// Puts each fresh number of hints beside the first of its eight words, in place: no code is
    /// left of this. The hints say nothing yet.
    fn place_hints(
        hints: &mut Vec<HintCell<K, V, S>>,
        slots: &[Cell<K, V, S>],
        sight: &Seen<K, V, S>,
    )
        requires fresh { AreFresh hints.old.items }
        requires words { AllOf sight.now.book slots.now }
        requires len { div_ceil (length slots.now) 8 ≤ length hints.old.items }
        ensures { AreBeside slots.now hints.new.items }
    {
        for group in 0..slots.len().div_ceil(8) {
            hints[group].stand_beside(&slots[8 * group], sight);
        }
    }

    /// Makes a table of `Empty` slots, to which a table of this many chunks is copied, with the pen
    /// of its seal. It draws its words once it has the slots; those of `room` come first.
    pub(crate) fn lay_table<R: Wait>(
        &self,
        rt: &R,
        alloc: Global,
        len: usize,
        limit: usize,
        chunks: usize,
        room: Option<FreshSlots<K, V, S>>,
        sight: &mut Seen<K, V, S>,
    ) -> Option<(Table<K, V, S>, Pen)>
        requires book { sight.old.book ≡ self.now.begun.book }
        requires size { IsSize len limit }
        ensures book { sight.new.book ≡ sight.old.book }
        ensures seen { IsPrefix sight.old.log sight.new.log }
        ensures size { IfSome result (λ r. (length r.0.slots ≡ len) × (r.0.limit ≡ limit)) }
        ensures chunks { IfSome result (λ r. length r.0.done ≡ chunks) }
        ensures named { IfSome result (λ r. r.0.book ≡ self.now.begun.book) }
        ensures made { IfSome result (λ r. IsMade r.0 sight.new.log) }
        ensures pen { IfSome result (λ r. Seals self.now r.1 r.0) }
    {
        let count = chunks.checked_add(len + 1)?;
        let done = Vec::with_capacity(alloc, chunks).ok()?;
        let (mut slots, mut hints) = fresh_slots(room, alloc, len, sight).ok()?;
        let (aborted, seal, mut row) = self.deal(rt, count as u64, sight)?;
        let next = Self::word(&mut row);
        let Ok(done) = Self::words(done, chunks, &mut row) else {
            return None;
        };
        Self::give_words(&mut slots, &mut row);
        Self::place_hints(&mut hints, &slots, sight);
        let table = Table {
            limit,
            next,
            aborted,
            done,
            slots,
            hints,
            making: Mutex::new(()),
            ahead: Mutex::new(Some(FreshSlots::new(alloc))),
        };
        Some((table, seal))
    }

    /// Returns the evidence that the arena of tables gave this number.
    fn gave_table(&self, table: &Pushed<Table<K, V, S>>) -> OwnSteps<CapacityCause>
        requires { Shows self.now.parts.tables table.now }
        ensures { result.done ≡ numbers.Table table.now.index ∷ [] }
    {
        let number = CapacityCause::Table(table.index());
        OwnSteps::only(&number)
    }

    /// Stores the table in the arena of tables.
    ///
    /// Fails with `Refused::Memory` if an allocation fails, and with `Refused::Capacity` if the
    /// arena gives a number that passes [`MAX_TABLES`]: then `given` records that number.
    pub(crate) fn push_table<R: Wait>(
        &self,
        rt: &R,
        table: Table<K, V, S>,
        given: &mut OwnSteps<CapacityCause>,
    ) -> Result<Pushed<Table<K, V, S>>, Refused>
        requires { table.book ≡ self.now.begun.book }
        ensures err { IfErr result (λ e. (e ≡ Refused.Memory)
            ⊎ ((e ≡ Refused.Capacity) × IsFull given.new.done)) }
        ensures ok { IfOk result (λ w. given.new.done ≡ given.old.done) }
        ensures table { IfOk result (λ w. w.value ≡ table) }
        ensures placed { IfOk result (λ w. IsIn self.now (TableNamed w)) }
    {
        let Ok(logged) = self.parts.tables.push_shown(rt, table) else {
            return Err(Refused::Memory);
        };
        if logged.index() as u64 >= MAX_TABLES {
            *given = self.gave_table(&logged);
            return Err(Refused::Capacity);
        }
        Ok(logged)
    }

    /// Makes the table the root if there is none, in one atomic exchange. Returns the number found,
    /// and the gain of the table that was first.
    pub(crate) fn open(
        &self,
        table: &Pushed<Table<K, V, S>>,
        seal: &mut Pen,
        sight: &mut Seen<K, V, S>,
    ) -> (u64, Offer<K, V, S>)
        requires book { sight.old.book ≡ self.now.begun.book }
        requires placed { IsIn self.now (TableNamed table.now) }
        requires made { IsMade table.now.value sight.old.log }
        requires pen { Seals self.now seal.old table.now.value }
        ensures book { sight.new.book ≡ sight.old.book }
        ensures seen { IsPrefix sight.old.log sight.new.log }
        ensures tried { Opens ⟦<S as Keyed<K>>⟧.keys self.now table.now sight.old.log result.0
            sight.new.log result.1.state }
        ensures pen { IsLeft seal.old seal.new result.0 0 }
    {
        let laying = Laying {
            at: At::Root,
            kind: Some(StepKind::Open),
            table,
        };
        let number = table.index() as u64 + 1;
        self.bring(&self.root, &laying, 0, number, seal, sight)
    }

    /// Makes the first table of a new map, for this many pairs, and opens it. Returns the observed
    /// history, in which the table has come.
    ///
    /// Fails with `Refused::Memory` if an allocation fails. It also does if the table gets a number
    /// past its limit, or another table was opened first. Neither occurs for a new map, though no
    /// clause states it.
    pub fn open_first<R: Wait>(
        &self,
        rt: &R,
        alloc: Global,
        capacity: usize,
        initial: usize,
    ) -> Result<Seen<K, V, S>, Refused>
        requires { IsEntriesFor capacity initial × (initial ≤ MAX_TABLE_LEN) }
        ensures book { IfOk result (λ sight. sight.book ≡ self.now.begun.book) }
        ensures lawful { IfOk result (λ sight. IsLawfulLog ⟦<S as Keyed<K>>⟧.keys self.now
            sight.log) }
        ensures came { IfOk result (λ sight. HasTableFrom initial (tables_of sight.log)) }
        ensures err { IfErr result (λ e. e ≡ Refused.Memory) }
    {
        let len = table_len(initial);
        let mut sight = self.pass();
        let mut given = OwnSteps::nothing();
        let Some((table, mut seal)) = self.lay_table(
            rt,
            alloc,
            len,
            limit(len),
            0,
            None,
            &mut sight,
        ) else {
            return Err(Refused::Memory);
        };
        let Ok(table) = self.push_table(rt, table, &mut given) else {
            return Err(Refused::Memory);
        };
        let (found, _) = self.open(&table, &mut seal, &mut sight);
        if found != 0 {
            return Err(Refused::Memory);
        }
        Ok(sight)
    }
}
