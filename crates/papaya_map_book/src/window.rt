//! A call's access to a map, with the laws of the map's keys.
ghost use Rattle.std.specs.Prelude.{◌≡◌};
ghost use Rattle.papaya_map_book.specs.Keys.{IsLawful as AreLawful};

use crate::book::Book;
use crate::book::gains::pair_in;
use crate::book::kept::KeptRoot;
use crate::cell::{hint_in, with_hint};
use crate::fresh::FreshSlots;
use crate::keyed::Keyed;
use crate::rule::entry::{Step, Stored};
use crate::rule::offer;
use crate::rule::offer::{Offer, Seen};
use crate::rule::own::{CapacityCause, OwnSteps, with_last};
use crate::rule::steps::{PutWish, Sought, Wish};
use crate::rule::token::token;
use crate::table::Table;
use boxcar::Pushed;
use logbook::Pen;
use papaya_call::ask::{At, StepKind};
use papaya_words::refused::Refused;
use std::alloc::Global;
use std::hash::{BuildHasher, Hash};
use std::mem;
use std::sync::Wait;

/// The book that a call works on, and the part of its log that the call has observed. It also has
/// the exchanges of slots made through this window, and the root as the caller keeps it.
#[derive(Drop)]
pub struct Window<'a, K: Hash + Eq, V, S: Keyed<K>> {
    pub book: &'a Book<K, V, S>,
    pub sight: Seen<K, V, S>,
    own: OwnSteps<Step<K, V>>,
    kept: KeptRoot<'a, K, V, S>,
    ghost same_book: { sight.book ≡ book.now.begun.book },
    ghost kept_book: { kept ≡ book.now.begun.book },
    ghost keyed: { AreLawful S.keys },
}

impl<'a, K: Hash + Eq, V, S: BuildHasher> Window<'a, K, V, S> {
    ghost use Rattle.std.specs.Prelude.{◌⊎◌, ◌<◌, ◌==◌, [], Bool, IfErr, IfOk, None, length};
    ghost use Rattle.papaya_call.specs.declared.ask.At.TheVariants.{Made};
    ghost use Rattle.papaya_call.specs.Search.{IsSize};
    ghost use Rattle.papaya_map_book.specs.Books.{IsLeft, Seals, root_then};
    ghost use Rattle.papaya_map_book.specs.Limits.{IsFull};
    ghost use Rattle.papaya_map_book.specs.Windows.{CanCopy, CanPutSlot, CanTrySlot, CopiesWord, Does, IsHint, IsIn, IsLawful, IsMade, IsNext, IsOpen, IsRoot};
    ghost use Rattle.papaya_map_book.specs.Windows.{IsSlot, IsSlotWord, IsTable, IsWord, MayHint, Observes, Opens, PutsSlot, Sees, TriesSlot};
    ghost use Rattle.papaya_map_book.specs.declared.rule.entry.Named.TheVariants.{Pair as PairNamed, Table as TableNamed};

    /// Returns a window onto the book with this observed history, through which no exchange was
    /// made. It is for calls whose exchanges no contract names.
    #[inline(always)]
    pub fn new(
        book: &'a Book<K, V, S>,
        kept: &KeptRoot<'a, K, V, S>,
        sight: &Seen<K, V, S>,
    ) -> Window<'a, K, V, S>
        requires kept { kept.now ≡ book.now.begun.book }
        requires seen { sight.now.book ≡ book.now.begun.book }
        ensures book { result.book ≡ book.entry }
        ensures sight { result.sight ≡ sight.now }
        ensures own { result.own.done ≡ [] }
    {
        Window::taking(book, kept, sight, &mut OwnSteps::nothing())
    }

    /// Returns a window onto the book with this observed history and these exchanges. It takes the
    /// list of them: no contract states what is left in its place.
    #[inline(always)]
    pub fn taking(
        book: &'a Book<K, V, S>,
        kept: &KeptRoot<'a, K, V, S>,
        sight: &Seen<K, V, S>,
        own: &mut OwnSteps<Step<K, V>>,
    ) -> Window<'a, K, V, S>
        requires kept { kept.now ≡ book.now.begun.book }
        requires seen { sight.now.book ≡ book.now.begun.book }
        ensures book { result.book ≡ book.entry }
        ensures sight { result.sight ≡ sight.now }
        ensures own { result.own.done ≡ own.old.done }
    {
        Window {
            book,
            sight: sight.again(),
            own: mem::replace(own, OwnSteps::nothing()),
            kept: kept.again(),
        }
    }

    /// Ends the call, and returns what it observed and its exchanges.
    #[inline(always)]
    pub fn into_parts(self) -> (Seen<K, V, S>, OwnSteps<Step<K, V>>)
        ensures { (result.0 ≡ self.entry.sight) × (result.1 ≡ self.entry.own) }
    {
        (self.sight, self.own)
    }

    /// Observes what the book was opened with, and what its log now has.
    #[inline(always)]
    pub fn learn(&mut self)
        ensures sees { Observes self.old self.new }
        ensures lawful { IsLawful self.new }
    {
        self.sight.learn(&self.book.begun);
    }

    /// Loads the root's number in one atomic step, and returns it with its table: the one kept if
    /// the number is the same. Otherwise it loads the root once more, with its table.
    #[inline(always)]
    pub fn root(&mut self) -> (u64, Option<&'a Table<K, V, S>>)
        ensures sees { Observes self.old self.new }
        ensures root { IsRoot self.old self.new result.0 result.1 }
    {
        let kept = &self.kept;
        self.sight.learn(&self.book.begun);
        self.sight.learn(&kept.sight);
        let sought = Sought { at: At::Root };
        let (found, _) = self.book.read(&self.book.root, &sought, &mut self.sight);
        if found == kept.number {
            return (found, kept.table);
        }
        self.book.root(&mut self.sight)
    }

    /// Loads the number of the next table in one atomic step, and returns it with that table.
    #[inline(always)]
    pub fn next(&mut self, table: &Table<K, V, S>, number: u64) -> (u64, Option<&'a Table<K, V, S>>)
        requires table { IsTable self.old number table.now }
        ensures sees { Observes self.old self.new }
        ensures next { IsNext self.old self.new number result.0 result.1 }
    {
        self.sight.learn(&self.book.begun);
        let sought = Sought {
            at: At::Next(number),
        };
        let (found, offer) = self.book.read(table.next(), &sought, &mut self.sight);
        if found == 0 {
            return (0, None);
        }
        let known = offer::table_known(offer.into_gain());
        let token = token(known, (found - 1) as usize);
        (found, Some(self.book.parts.tables.value(&token)))
    }

    /// Loads how many numbers were taken for pairs, in one atomic step.
    pub fn made(&mut self) -> u64
        ensures sees { Observes self.old self.new }
        ensures word { IsWord self.old self.new Made result }
    {
        let sought = Sought { at: At::Made };
        let (found, _) = self.book.read(&self.book.made, &sought, &mut self.sight);
        found
    }

    /// Exchanges that word in one atomic step; returns the count found.
    pub fn take(&mut self, kind: Option<StepKind>, words: (u64, u64)) -> u64
        requires can { CanCopy self.old Made kind None words }
        ensures sees { Observes self.old self.new }
        ensures tried { CopiesWord self.old self.new Made kind None words result }
    {
        let wish = Wish {
            at: At::Made,
            kind,
            kept: &None,
        };
        let (old, new) = words;
        let (found, _) = self
            .book
            .exchange(&self.book.made, &wish, old, new, &mut self.sight);
        found
    }

    /// Loads the hint of a table's slot in one atomic step. Returns 0, which says nothing, if none
    /// was written.
    #[inline(always)]
    pub fn hint(&mut self, table: &Table<K, V, S>, number: u64, place: usize) -> u64
        requires table { IsTable self.old number table.now }
        requires place { place < length table.now.slots }
        ensures sees { Observes self.old self.new }
        ensures hint { IsHint self.old self.new number place result }
    {
        self.sight.learn(&self.book.begun);
        let hints = table.hint(place).load(&mut self.sight);
        self.sight.learn(&self.book.begun);
        hint_in(hints, place)
    }

    /// Writes this hint to a slot that has none, by an atomic load and one atomic exchange. It does
    /// not return whether the hint was written, and observes nothing further. A hint of another of
    /// the eight slots that was written in between keeps it from being written.
    #[inline(always)]
    pub fn write_hint(&self, table: &Table<K, V, S>, number: u64, place: usize, hint: u8)
        requires table { IsTable self.now number table.now }
        requires place { place < length table.now.slots }
        requires hint { MayHint self.now number place hint }
    {
        let mut seen = self.sight.again();
        seen.learn(&self.book.begun);
        let hints = table.hint(place);
        let found = hints.load(&mut seen);
        if hint_in(found, place) == 0 {
            hints.compare_exchange(found, with_hint(found, place, hint), &seen);
        }
    }

    /// Loads a table's slot in one atomic step; returns the word, and the gain of the token of the
    /// pair that it names.
    #[inline(always)]
    pub fn slot_word(
        &mut self,
        table: &Table<K, V, S>,
        number: u64,
        place: usize,
    ) -> (u64, Offer<K, V, S>)
        requires table { IsTable self.old number table.now }
        requires place { place < length table.now.slots }
        ensures sees { Observes self.old self.new }
        ensures slot { IsSlotWord self.old self.new number place result.0 result.1.state }
    {
        self.sight.learn(&self.book.begun);
        let sought = Sought {
            at: At::Slot(number, place),
        };
        self.book.read(table.slot(place), &sought, &mut self.sight)
    }

    /// Loads a table's slot in one atomic step; returns the word, and the token of its pair.
    #[inline(always)]
    pub fn slot(
        &mut self,
        table: &Table<K, V, S>,
        number: u64,
        place: usize,
    ) -> (u64, Option<Stored<K, V>>)
        requires table { IsTable self.old number table.now }
        requires place { place < length table.now.slots }
        ensures sees { Observes self.old self.new }
        ensures slot { IsSlot self.old self.new number place result.0 result.1 }
    {
        let (found, offer) = self.slot_word(table, number, place);
        (found, pair_in(found, offer))
    }

    /// Exchanges a slot without passing anything in, in one atomic step; returns the word found,
    /// and the token of the pair that it names.
    pub fn exchange_slot(
        &mut self,
        table: &Table<K, V, S>,
        number: u64,
        place: usize,
        kind: Option<StepKind>,
        words: (u64, u64),
    ) -> (u64, Option<Stored<K, V>>)
        requires table { IsTable self.old number table.now }
        requires place { place < length table.now.slots }
        requires open { IsOpen self.old }
        requires can { CanTrySlot self.old number place kind words }
        ensures sees { Sees self.old self.new }
        ensures tried { TriesSlot self.old self.new number place kind words result.0 result.1 }
        ensures does { Does (result.0 == words.0) self.old self.new }
    {
        self.sight.learn(&self.book.begun);
        let wish = Wish {
            at: At::Slot(number, place),
            kind,
            kept: &None,
        };
        let (old, new) = words;
        let (found, offer) = self
            .book
            .remove(table.slot(place), &wish, old, new, &mut self.sight);
        self.keep(found == old);
        (found, pair_in(found, offer))
    }

    /// Exchanges a slot for the pair that the call has made, in one atomic step; returns the word
    /// found, and the token of the pair that it names.
    pub fn put_slot(
        &mut self,
        table: &Table<K, V, S>,
        number: u64,
        place: usize,
        kind: Option<StepKind>,
        made: &Stored<K, V>,
        words: (u64, u64),
    ) -> (u64, Option<Stored<K, V>>)
        requires table { IsTable self.old number table.now }
        requires place { place < length table.now.slots }
        requires open { IsOpen self.old }
        requires placed { IsIn self.old (PairNamed made.now) }
        requires can { CanPutSlot self.old number place kind made.now words }
        ensures sees { Sees self.old self.new }
        ensures tried { PutsSlot self.old self.new number place kind made.now words result.0
            result.1 }
        ensures does { Does (result.0 == words.0) self.old self.new }
    {
        self.sight.learn(&self.book.begun);
        let wish = PutWish {
            at: At::Slot(number, place),
            kind,
            made,
        };
        let (old, new) = words;
        let (found, offer) = self
            .book
            .put(table.slot(place), &wish, old, new, &mut self.sight);
        self.keep(found == old);
        (found, pair_in(found, offer))
    }

    /// Keeps the last exchange observed, if it is the caller's.
    #[inline(always)]
    fn keep(&mut self, exchanged: bool)
        ensures sight { (self.new.sight ≡ self.old.sight) × (self.new.book ≡ self.old.book) }
        ensures does { Does exchanged self.old self.new }
    {
        if exchanged {
            self.own = with_last(&self.own, &self.sight);
        }
    }

    /// Stores a table of `Empty` slots in the arena, to which a table of this many chunks is
    /// copied, and returns it with the pen of its seal. Its slots are those written ahead, and
    /// others. Fails as [`Book::push_table`] does.
    pub fn make_table<R: Wait>(
        &mut self,
        rt: &R,
        alloc: Global,
        len: usize,
        limit: usize,
        chunks: usize,
        room: Option<FreshSlots<K, V, S>>,
        given: &mut OwnSteps<CapacityCause>,
    ) -> Result<(Pushed<Table<K, V, S>>, Pen), Refused>
        requires size { IsSize len limit }
        ensures sees { Observes self.old self.new }
        ensures err { IfErr result (λ e. (e ≡ Refused.Memory)
            ⊎ ((e ≡ Refused.Capacity) × IsFull given.new.done)) }
        ensures ok { IfOk result (λ r. given.new.done ≡ given.old.done) }
        ensures chunks { IfOk result (λ r. length r.0.value.done ≡ chunks) }
        ensures made { IfOk result (λ r. IsMade self.new r.0.value) }
        ensures placed { IfOk result (λ r. IsIn self.old (TableNamed r.0)) }
        ensures pen { IfOk result (λ r. Seals self.old.book.now r.1 r.0.value) }
    {
        let Some((table, seal)) = self
            .book
            .lay_table(rt, alloc, len, limit, chunks, room, &mut self.sight)
        else {
            return Err(Refused::Memory);
        };
        let table = self.book.push_table(rt, table, given)?;
        Ok((table, seal))
    }

    /// Makes the table the root if there is none, in one atomic exchange. Returns the number found,
    /// and the root's table.
    pub fn open_root(
        &mut self,
        table: &Pushed<Table<K, V, S>>,
        seal: &mut Pen,
    ) -> (u64, &'a Table<K, V, S>)
        requires placed { IsIn self.old (TableNamed table.now) }
        requires made { IsMade self.old table.now.value }
        requires pen { Seals self.old.book.now seal.old table.now.value }
        ensures sees { Observes self.old self.new }
        ensures tried { Opens self.old self.new table.now result.0 }
        ensures held { IsTable self.new (root_then table.now result.0) result.1.now }
    {
        self.sight.learn(&self.book.begun);
        let (found, offer) = self.book.open(table, seal, &mut self.sight);
        if found == 0 {
            return (0, self.book.parts.tables.value(table));
        }
        let known = offer::table_known(offer.into_gain());
        let token = token(known, (found - 1) as usize);
        (found, self.book.parts.tables.value(&token))
    }
}
