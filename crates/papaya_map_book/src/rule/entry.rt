//! The entries of the book's log.
//!
//! No code builds an entry: only contracts see the log. Its types are those of the tokens and
//! arenas that the rule of the book is about. They write their `Drop` out, since each crate that
//! drops a token of the book would otherwise prove destructors for all of them.
ghost use Rattle.logbook.specs.Pages.{Book, book_coded};
ghost use Rattle.papaya_map_book.specs.Sheets.{Sheet as SheetOf, sheet_coded};

use crate::rule::pair::Pair;
use boxcar::Pushed;
use papaya_call::ask::{At, StepKind};
use papaya_map_arena::arena::Arena;
use papaya_map_arena::token::Pushed as LoggedPair;
use papaya_words::resize_mode::ResizeMode;
use std::collections::LinkedList;
use std::marker::Model;

/// A pair as the log names it: its number, the row and the slot where the arena of pairs keeps it,
/// and the pair.
pub type Stored<K, V> = LoggedPair<Pair<K, V>>;

/// A table as the log describes it: its words' keys, and how far a search of it goes. A table's
/// words obey the rule of this very log, so the log cannot name the table's own type.
pub struct Sheet {
    book: Name,
    limit: u64,
    next: u64,
    seal: u64,
    done: LinkedList<u64>,
    slots: LinkedList<u64>,
}

impl Model for Sheet {
    ghost Value = { SheetOf };

    ghost coded = { sheet_coded };

    ghost view = { λ s. record {
      book = s.book;
      limit = s.limit;
      next = s.next;
      seal = s.seal;
      done = s.done;
      slots = s.slots;
    } };
}

impl Drop for Sheet {
    fn drop(self) {
        let Self {
            book: _,
            limit: _,
            next: _,
            seal: _,
            done: _,
            slots: _,
        } = self;
    }
}

/// A table as the log names it.
pub type Laid = Pushed<Sheet>;

/// The identity of a book.
#[derive(Drop)]
pub struct Name {
    number: u64,
    log: u64,
    cells: u64,
}

impl Model for Name {
    ghost Value = { Book };

    ghost coded = { book_coded };

    ghost view = { λ n. record { number = n.number; log_name = n.log; cells_name = n.cells } };
}

/// An exchange, of one of the thirteen kinds. It names tables by number, except one that comes.
pub enum Step<K, V> {
    Open(Laid),
    Claim(u64, u64, Stored<K, V>),
    Replace(u64, u64, Stored<K, V>, Stored<K, V>),
    Bury(u64, u64, Stored<K, V>),
    Link(u64, Laid),
    Mark(u64, u64, Stored<K, V>),
    Close(u64, u64),
    Place(u64, u64, Stored<K, V>),
    Finish(u64, u64, Stored<K, V>),
    Advance(u64, usize),
    Promote(u64, u64),
    Abort(u64),
    Take(u64),
}

impl<K, V> Drop for Step<K, V> {
    fn drop(self) {
        match self {
            Step::Open(_) | Step::Link(_, _) => {}
            Step::Claim(_, _, _) | Step::Bury(_, _, _) | Step::Mark(_, _, _) => {}
            Step::Place(_, _, _) | Step::Finish(_, _, _) | Step::Replace(_, _, _, _) => {}
            Step::Close(_, _) | Step::Advance(_, _) | Step::Promote(_, _) => {}
            Step::Abort(_) | Step::Take(_) => {}
        }
    }
}

/// What a word names: nothing, a pair or a table.
pub enum Named<K, V> {
    Nothing,
    Pair(Stored<K, V>),
    Table(Laid),
}

impl<K, V> Drop for Named<K, V> {
    fn drop(self) {
        match self {
            Named::Nothing => {}
            Named::Pair(_) => {}
            Named::Table(_) => {}
        }
    }
}

/// The state that the book was opened with: the hasher, the resize mode, the limit on pairs, and
/// the arenas of pairs and of tables.
pub struct Begun<K, V, S> {
    pub hasher: S,
    pub mode: ResizeMode,
    pub limit: Option<u64>,
    pub pairs: Arena<Pair<K, V>>,
    pub tables: boxcar::Vec<Sheet>,
}

impl<K: Drop, V: Drop, S: Drop> Drop for Begun<K, V, S> {
    fn drop(self) {
        let Self {
            hasher: _,
            mode: _,
            limit: _,
            pairs: _,
            tables: _,
        } = self;
    }
}

/// An entry of the log.
pub enum Event<K, V, S> {
    /// The request of a load or an exchange: a word, the kind of the exchange, the pair that the
    /// call has made, and what comes with the step. No log has it.
    Wish(At, Option<StepKind>, Option<Stored<K, V>>, Named<K, V>),
    /// The request of a table's maker: this many words of the book's row, from this one on. No log
    /// has it.
    Draw(Name, u64, u64),
    /// The book was opened.
    Begin(Begun<K, V, S>),
    /// The book was given its own name.
    Called(Name),
    /// A seal was added, and this many words of the row were dealt for the table that will have it.
    Dealt(u64, u64),
    /// A word was exchanged.
    Stepped(Step<K, V>),
}

impl<K: Drop, V: Drop, S: Drop> Drop for Event<K, V, S> {
    fn drop(self) {
        match self {
            Event::Wish(_, _, _, _) => {}
            Event::Draw(_, _, _) => {}
            Event::Begin(_) => {}
            Event::Called(_) => {}
            Event::Dealt(_, _) => {}
            Event::Stepped(_) => {}
        }
    }
}
