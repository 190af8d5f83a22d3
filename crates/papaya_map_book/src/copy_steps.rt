//! Steps on words for copies of tables. They make no change of the map.
ghost use Rattle.std.specs.Prelude.{◌≡◌, ◌<◌, ◌≤◌, ◌+◌, ◌⊎◌, Some, IfErr, IfOk, length};
ghost use Rattle.papaya_call.specs.Search.{IsSize};
ghost use Rattle.papaya_call.specs.declared.ask.At.TheVariants.{Aborted, Done, Root, Slot};
ghost use Rattle.papaya_map_book.specs.Books.{Seals};
ghost use Rattle.papaya_map_book.specs.Changes.{ChangesNothing};
ghost use Rattle.papaya_map_book.specs.Limits.{IsFull};
ghost use Rattle.papaya_map_book.specs.Windows.{CanCopy, CanLink, CopiesSlot, CopiesWord, HasCome, IsIn, IsMade, IsTable, IsWord, Links, Observes};
ghost use Rattle.papaya_map_book.specs.Logs.{pair_named};
ghost use Rattle.papaya_map_book.specs.declared.rule.entry.Named.TheVariants.{Table as TableNamed};

use crate::book::gains::pair_in;
use crate::fresh::FreshSlots;
use crate::rule::entry::Stored;
use crate::rule::law::Found;
use crate::rule::offer;
use crate::rule::own::{CapacityCause, OwnSteps};
use crate::rule::steps::{Fetch, Laying, Sought, Wanted, Wish};
use crate::rule::token::token;
use crate::table::Table;
use crate::window::Window;
use boxcar::Pushed;
use logbook::Pen;
use papaya_call::ask::{At, StepKind};
use papaya_gate::steps::load;
use papaya_words::refused::Refused;
use std::alloc::Global;
use std::hash::{BuildHasher, Hash};
use std::sync::Wait;

impl<'a, K: Hash + Eq, V, S: BuildHasher> Window<'a, K, V, S> {
    /// Returns the table of this number, which has come. It takes one atomic load for any number.
    #[inline]
    pub fn table(&mut self, number: u64) -> &'a Table<K, V, S>
        requires come { HasCome self.old number }
        ensures sees { Observes self.old self.new }
        ensures table { IsTable self.new number result.now }
    {
        self.sight.learn(&self.book.begun);
        let wanted = Wanted { number };
        let mut offer = offer::bare::<K, V, S, Wanted, Fetch>(&self.sight, &wanted);
        load::<_, _, _, Fetch, Found<K, V>>(&self.book.root, &mut self.sight, &mut offer);
        let known = offer::table_known(offer.into_gain());
        let token = token(known, (number - 1) as usize);
        self.book.parts.tables.value(&token)
    }

    /// Loads the word that says whether a table was given up, in one atomic step.
    pub fn aborted(&mut self, table: &Table<K, V, S>, number: u64) -> u64
        requires table { IsTable self.old number table.now }
        ensures sees { Observes self.old self.new }
        ensures word { IsWord self.old self.new (Aborted number) result }
    {
        self.sight.learn(&self.book.begun);
        let sought = Sought {
            at: At::Aborted(number),
        };
        let (found, _) = self.book.read(table.aborted(), &sought, &mut self.sight);
        found
    }

    /// Loads the word that says whether a chunk was copied to a table, in one atomic step.
    pub fn done(&mut self, table: &Table<K, V, S>, number: u64, chunk: usize) -> u64
        requires table { IsTable self.old number table.now }
        requires chunk { chunk < length table.now.done }
        ensures sees { Observes self.old self.new }
        ensures word { IsWord self.old self.new (Done number chunk) result }
    {
        self.sight.learn(&self.book.begun);
        let sought = Sought {
            at: At::Done(number, chunk),
        };
        let (found, _) = self.book.read(table.done(chunk), &sought, &mut self.sight);
        found
    }

    /// Exchanges a slot for a copy, in one atomic step; returns the word found, and the token of
    /// the pair that it names.
    pub fn copy_slot(
        &mut self,
        table: &Table<K, V, S>,
        number: u64,
        place: usize,
        kind: Option<StepKind>,
        kept: &Option<Stored<K, V>>,
        words: (u64, u64),
    ) -> (u64, Option<Stored<K, V>>)
        requires table { IsTable self.old number table.now }
        requires place { place < length table.now.slots }
        requires leaves { ChangesNothing (Slot number place) kind }
        requires can { CanCopy self.old (Slot number place) kind kept.now words }
        ensures sees { Observes self.old self.new }
        ensures tried { CopiesSlot self.old self.new number place kind kept.now words result.0
            result.1 }
    {
        self.sight.learn(&self.book.begun);
        let wish = Wish {
            at: At::Slot(number, place),
            kind,
            kept,
        };
        let (old, new) = words;
        let (found, offer) = self
            .book
            .exchange(table.slot(place), &wish, old, new, &mut self.sight);
        (found, pair_in(found, offer))
    }

    /// Exchanges the root for a copy, in one atomic step; returns the number found.
    pub fn copy_root(
        &mut self,
        kind: Option<StepKind>,
        kept: &Option<Stored<K, V>>,
        words: (u64, u64),
    ) -> u64
        requires can { CanCopy self.old Root kind kept.now words }
        ensures sees { Observes self.old self.new }
        ensures tried { CopiesWord self.old self.new Root kind kept.now words result }
    {
        let wish = Wish {
            at: At::Root,
            kind,
            kept,
        };
        let (old, new) = words;
        let (found, _) = self
            .book
            .exchange(&self.book.root, &wish, old, new, &mut self.sight);
        found
    }

    /// Exchanges the word that says whether a table was given up, in one atomic step; returns the
    /// word found.
    pub fn copy_aborted(
        &mut self,
        table: &Table<K, V, S>,
        number: u64,
        kind: Option<StepKind>,
        kept: &Option<Stored<K, V>>,
        words: (u64, u64),
    ) -> u64
        requires table { IsTable self.old number table.now }
        requires can { CanCopy self.old (Aborted number) kind kept.now words }
        ensures sees { Observes self.old self.new }
        ensures tried { CopiesWord self.old self.new (Aborted number) kind kept.now words result }
    {
        self.sight.learn(&self.book.begun);
        let wish = Wish {
            at: At::Aborted(number),
            kind,
            kept,
        };
        let (old, new) = words;
        let (found, _) = self
            .book
            .exchange(table.aborted(), &wish, old, new, &mut self.sight);
        found
    }

    /// Exchanges the word that says whether a chunk was copied to a table, in one atomic step;
    /// returns the word found.
    pub fn copy_done(
        &mut self,
        table: &Table<K, V, S>,
        number: u64,
        chunk: usize,
        kind: Option<StepKind>,
        kept: &Option<Stored<K, V>>,
        words: (u64, u64),
    ) -> u64
        requires table { IsTable self.old number table.now }
        requires chunk { chunk < length table.now.done }
        requires can { CanCopy self.old (Done number chunk) kind kept.now words }
        ensures sees { Observes self.old self.new }
        ensures tried { CopiesWord self.old self.new (Done number chunk) kind kept.now words
            result }
    {
        self.sight.learn(&self.book.begun);
        let wish = Wish {
            at: At::Done(number, chunk),
            kind,
            kept,
        };
        let (old, new) = words;
        let (found, _) = self
            .book
            .exchange(table.done(chunk), &wish, old, new, &mut self.sight);
        found
    }

    /// Makes a table as [`Window::make_table`] does, with a number past that of the table before
    /// it. A table whose number is not past it is left unused, and another one is made.
    pub fn make_table_after<R: Wait>(
        &mut self,
        rt: &R,
        alloc: Global,
        follows: u64,
        size: (usize, usize),
        chunks: usize,
        room: Option<FreshSlots<K, V, S>>,
        given: &mut OwnSteps<CapacityCause>,
    ) -> Result<(Pushed<Table<K, V, S>>, Pen), Refused>
        requires size { IsSize size.0 size.1 }
        ensures sees { Observes self.old self.new }
        ensures err { IfErr result (λ e. (e ≡ Refused.Memory)
            ⊎ ((e ≡ Refused.Capacity) × IsFull given.new.done)) }
        ensures ok { IfOk result (λ r. given.new.done ≡ given.old.done) }
        ensures past { IfOk result (λ r. follows < r.0.index + 1) }
        ensures chunks { IfOk result (λ r. length r.0.value.done ≡ chunks) }
        ensures made { IfOk result (λ r. IsMade self.new r.0.value) }
        ensures placed { IfOk result (λ r. IsIn self.old (TableNamed r.0)) }
        ensures pen { IfOk result (λ r. Seals self.old.book.now r.1 r.0.value) }
    {
        let mut room = room;
        for _ in rt.forever() {
            let ahead = room.take();
            let (table, seal) = self.make_table(rt, alloc, size.0, size.1, chunks, ahead, given)?;
            if table.index() as u64 + 1 > follows {
                return Ok((table, seal));
            }
        }
        unreachable!()
    }

    /// Makes the table the next one of another, if that has none, in one atomic exchange. Returns
    /// the number found.
    pub fn link(
        &mut self,
        after: &Table<K, V, S>,
        number: u64,
        table: &Pushed<Table<K, V, S>>,
        seal: &mut Pen,
    ) -> u64
        requires after { IsTable self.old number after.now }
        requires placed { IsIn self.old (TableNamed table.now) }
        requires made { IsMade self.old table.now.value }
        requires pen { Seals self.old.book.now seal.old table.now.value }
        requires can { CanLink self.old number table.now }
        ensures sees { Observes self.old self.new }
        ensures tried { Links self.old self.new number table.now result }
    {
        self.sight.learn(&self.book.begun);
        let laying = Laying {
            at: At::Next(number),
            kind: Some(StepKind::Link),
            table,
        };
        let linked = table.index() as u64 + 1;
        let (found, _) = self
            .book
            .bring(after.next(), &laying, 0, linked, seal, &mut self.sight);
        found
    }
}
