//! The output of `Debug` for a map and its iterators, as in 0.2.5.
ghost use Rattle.papaya_map_book.specs.Windows.{IsTable, Sees};

use crate::walk::{Iter, Keys, Values};
use papaya_map_book::table::Table;
use papaya_map_book::window::Window;
use papaya_map_change::removal::entry;
use papaya_words::resize_mode::ResizeMode;
use papaya_words::word::{Kind, Word};
use std::fmt;
use std::hash::{BuildHasher, Hash};

/// A list that is printed, to which entries are added.
trait Listing<K, V> {
    fn add(&mut self, key: &K, value: &V);
}

impl<'f, K: fmt::Debug, V: fmt::Debug, W: fmt::Write> Listing<K, V> for fmt::DebugMap<'f, W> {
    fn add(&mut self, key: &K, value: &V) {
        self.entry(key, value);
    }
}

/// Prints only the keys.
impl<'f, K: fmt::Debug, V, W: fmt::Write> Listing<K, V> for fmt::DebugSet<'f, W> {
    fn add(&mut self, key: &K, _value: &V) {
        self.entry(key);
    }
}

/// Adds the pairs that are in a table and in no later one.
fn add_table<'a, K: Hash + Eq, V, S: BuildHasher, L: Listing<K, V>>(
    window: &mut Window<'a, K, V, S>,
    table: &Table<K, V, S>,
    number: u64,
    out: &mut L,
)
    requires { IsTable window.old number table.now }
    ensures { Sees window.old window.new }
{
    for place in 0..table.len() {
        let (word, pair) = window.slot(table, number, place);
        match (Word(word).kind(), &pair) {
            (Kind::Live | Kind::Marked, Some(stored)) => {
                let (key, value) = entry(window.book, stored);
                out.add(key, value);
            }
            _ => {}
        }
    }
}

/// Adds the pairs of a map, table by table from the root. It only loads words: it never waits and
/// copies nothing. A pair that is in two tables is added twice: its copier is still under way, or
/// was refused.
fn add_all<'a, K: Hash + Eq, V, S: BuildHasher, L: Listing<K, V>>(
    window: &mut Window<'a, K, V, S>,
    out: &mut L,
) {
    let (mut number, mut held) = window.root();
    for _ in 0..u64::MAX {
        let Some(table) = held else {
            return;
        };
        add_table(window, table, number, out);
        (number, held) = match window.book.parts.mode {
            ResizeMode::Incremental(_) => window.next(table, number),
            ResizeMode::Blocking => (0, None),
        };
    }
}

/// Prints a map: `{key: value, ..}`.
pub fn print<'a, 'f, K: Hash + Eq + fmt::Debug, V: fmt::Debug, S: BuildHasher, W: fmt::Write>(
    window: &mut Window<'a, K, V, S>,
    f: &'f mut fmt::Formatter<W>,
) -> fmt::Result {
    let mut out = f.debug_map();
    add_all(window, &mut out);
    out.finish()
}

/// Prints the keys of a map: `{key, ..}`.
pub fn print_keys<'a, 'f, K: Hash + Eq + fmt::Debug, V, S: BuildHasher, W: fmt::Write>(
    window: &mut Window<'a, K, V, S>,
    f: &'f mut fmt::Formatter<W>,
) -> fmt::Result {
    let mut out = f.debug_set();
    add_all(window, &mut out);
    out.finish()
}

impl<'a, K: Hash + Eq + fmt::Debug, V: fmt::Debug, S: BuildHasher> fmt::Debug
    for Iter<'a, K, V, S> {
    /// Prints the entries that are left.
    fn fmt<W: fmt::Write>(&self, f: &mut fmt::Formatter<W>) -> fmt::Result {
        let mut out = f.debug_list();
        for pair in self.again() {
            out.entry(&pair);
        }
        out.finish()
    }
}

impl<'a, K: Hash + Eq + fmt::Debug, V: fmt::Debug, S: BuildHasher> fmt::Debug
    for Keys<'a, K, V, S> {
    fn fmt<W: fmt::Write>(&self, f: &mut fmt::Formatter<W>) -> fmt::Result {
        f.debug_tuple("Keys").field(&self.pairs).finish()
    }
}

impl<'a, K: Hash + Eq + fmt::Debug, V: fmt::Debug, S: BuildHasher> fmt::Debug
    for Values<'a, K, V, S> {
    fn fmt<W: fmt::Write>(&self, f: &mut fmt::Formatter<W>) -> fmt::Result {
        f.debug_tuple("Values").field(&self.pairs).finish()
    }
}
