//! Making a book, and the words of its tables.
//!
//! A book opens with a row of words that hold 0. A maker of a table draws as many as it needs, all
//! by one exchange of the makers' word, which counts them. The same exchange adds one more word,
//! the table's seal, which says whether the table was given up. Its pen is kept until the exchange
//! that opens or links the table. The log records the seal for which each word was dealt, so no two
//! tables that have come share a word.
ghost use Rattle.papaya_map_book.specs.Books.{Brings, CanBring, IsIn, IsLeft, Seals};
ghost use Rattle.std.specs.Prelude.{◌≡◌, ◌≢◌, ◌+◌, ◌-◌, ◌<◌, ◌==◌, false, None, Some, IfOk, IfErr, IfSome};
ghost use mathlib.Core.List.{IsPrefix};
ghost use Rattle.logbook.specs.Pages.{nib, may_write};
ghost use Rattle.papaya_words.specs.Mode.{IsChunked};
ghost use Rattle.papaya_map_book.specs.Logs.{key_at, steps_of};
ghost use Rattle.papaya_map_book.specs.Makers.{AreDealt, IsMade};
ghost use Rattle.papaya_map_book.specs.Sheets.{word_named};
ghost use Rattle.papaya_map_book.specs.declared.rule.entry.Named.TheVariants.{Table as TableNamed};

use crate::book::Book;
use crate::book::parts::{OpeningLog, Parts};
use crate::cell::Cell;
use crate::keyed::Keyed;
use crate::rule::law::{Drawn, Found};
use crate::rule::offer;
use crate::rule::offer::{Offer, Seen};
use crate::rule::steps::{Bring, Deal, Laying, NameStep};
use crate::rule::token::{drawn, witness};
use logbook::{Pen, Pens, Word};
use papaya_gate::gate::Gate;
use papaya_gate::steps::unpaid;
use std::hash::{BuildHasher, Hash};
use std::sync::Wait;

/// The number of words that a map can give to tables. Writing them all would take a century.
const ROW_LEN: u64 = 1 << 62;

impl<K: Hash + Eq, V, S: BuildHasher> Book<K, V, S> {
    /// Returns a new book. Returns the parts if the book got another name first, which no thread
    /// could give it.
    pub fn begin(parts: Parts<K, V, S>) -> Result<Book<K, V, S>, Parts<K, V, S>>
        requires { IsChunked parts.mode }
        ensures ok { IfOk result (λ book. (book.parts ≡ parts) × (book.gate.era ≡ None)) }
        ensures err { IfErr result (λ back. back ≡ parts) }
    {
        let (start, gate) = Gate::begin(offer::begin(&parts));
        let (mut begun, mut pens) = logbook::Seen::open_row::<Parts<K, V, S>, OpeningLog>(
            &parts,
            start,
            3 + ROW_LEN as usize,
        );
        let mut pen = pens.take();
        let root = Word::tracked(0, &mut pen);
        let mut pen = pens.take();
        let maker = Word::tracked(0, &mut pen);
        let mut pen = pens.take();
        let made = Word::tracked(0, &mut pen);
        let known = begun.again();
        let mut offer = offer::with_row(&known, &mut pens);
        let mut pen = begun.no_pen();
        let found = unpaid::<_, _, _, NameStep, Found<K, V>>(
            &maker, 0, 1, &mut begun, &mut offer, &mut pen,
        );
        if found != 0 {
            return Err(parts);
        }
        Ok(Book {
            parts,
            root,
            maker,
            made,
            begun,
            origin: known,
            gate,
        })
    }

    /// Returns the seal of a new table, with the pen that its opening takes, and the rights to make
    /// this many words of the row. Returns `None` if the row has fewer left.
    pub(crate) fn deal<R: Wait>(
        &self,
        rt: &R,
        count: u64,
        sight: &mut Seen<K, V, S>,
    ) -> Option<(Cell<K, V, S>, Pen, Pens)>
        requires { sight.old.book ≡ self.now.begun.book }
        ensures book { sight.new.book ≡ sight.old.book }
        ensures seen { IsPrefix sight.old.log sight.new.log }
        ensures seal { IfSome result (λ r. r.0 ≡ word_named self.now.begun.book r.0.key) }
        ensures pen { IfSome result (λ r. (r.1.book ≡ self.now.begun.book)
            × (r.1.nib ≡ nib may_write r.0.key 0)) }
        ensures row { IfSome result (λ r. (r.2.book ≡ self.now.begun.book)
            × (r.2.left ≡ count)) }
        ensures dealt { IfSome result (λ r. AreDealt r.2.next count r.0.key sight.new.log) }
    {
        sight.learn(&self.begun);
        let mut old = 1;
        for _ in rt.forever() {
            if count > ROW_LEN || old > ROW_LEN + 1 - count {
                return None;
            }
            let mut draw = offer::drawing(sight, old + 2, count);
            let mut pen = sight.no_pen();
            let found = unpaid::<_, _, _, Deal, Drawn>(
                &self.maker,
                old,
                old + count,
                sight,
                &mut draw,
                &mut pen,
            );
            if found == old {
                let seal = Word::tracked(0, &mut pen);
                return Some((seal, pen, drawn(draw.into_gain())));
            }
            old = found;
        }
        unreachable!()
    }

    /// Returns the next word of the row. It holds 0.
    pub(crate) fn word(row: &mut Pens) -> Cell<K, V, S>
        requires { 0 < row.old.left }
        ensures word { result ≡ word_named row.old.book row.old.next }
        ensures rest { (row.new.book ≡ row.old.book) × (row.new.next ≡ row.old.next + 1)
            × (row.new.left ≡ row.old.left - 1) }
    {
        let mut pen = row.take();
        Word::tracked(0, &mut pen)
    }

    /// Opens or links a table in one atomic exchange; returns the word found. It takes the pen of
    /// the table's seal, unless the exchange is lost.
    pub fn bring(
        &self,
        word: &Cell<K, V, S>,
        laying: &Laying<K, V, S>,
        old: u64,
        new: u64,
        seal: &mut Pen,
        sight: &mut Seen<K, V, S>,
    ) -> (u64, Offer<K, V, S>)
        requires book { sight.old.book ≡ self.now.begun.book }
        requires word { word.now ≡ word_named self.now.begun.book word.now.key }
        requires key { key_at (steps_of sight.old.log) laying.now.at ≡ Some word.now.key }
        requires placed { IsIn self.now (TableNamed laying.now.table.now) }
        requires made { IsMade laying.now.table.now.value sight.old.log }
        requires pen { Seals self.now seal.old laying.now.table.now.value }
        requires some { new ≢ 0 }
        requires can { CanBring ⟦<S as Keyed<K>>⟧.keys self.now laying.now old new sight.old.log }
        ensures book { sight.new.book ≡ sight.old.book }
        ensures seen { IsPrefix sight.old.log sight.new.log }
        ensures tried { Brings ⟦<S as Keyed<K>>⟧.keys self.now laying.now old new sight.old.log
            result.0 sight.new.log result.1.state }
        ensures pen { IsLeft seal.old seal.new result.0 old }
    {
        sight.learn(&self.begun);
        let mut offer = offer::with_table::<K, V, S, Laying<K, V, S>, Bring>(
            sight,
            laying,
            witness(laying.table),
        );
        let found = unpaid::<_, _, _, Bring, Found<K, V>>(word, old, new, sight, &mut offer, seal);
        (found, offer)
    }
}
