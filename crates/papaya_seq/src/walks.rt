//! Iterations over the map: each entry once, by tables from the root, and by slots in each.
ghost use Rattle.std.specs.Prelude.{◌≡◌, ◌<◌, IfErr, IfOk, MatchBool, Some, length, map};
ghost use Rattle.std.specs.Iterator.{YieldsFirstBy, YieldsFirstRef, item_count};
ghost use Rattle.papaya_call.specs.Search.{IsSize};
ghost use Rattle.papaya_core_store.specs.Store.{pair_of};
ghost use Rattle.papaya_core_store.specs.Tables.{table_of};
ghost use Rattle.papaya_core_timeline.specs.Content.{content};
ghost use Rattle.papaya_words_keys.specs.Hashes.{hash_of};
ghost use Rattle.papaya_seq.specs.Map.{IsOrderly, deref_pair, entry_of};
ghost use Rattle.papaya_seq.specs.Walks.{HasMark, HasNoMark, IsHeld, IsNext, IsNextHere, IsPosition};
ghost use Rattle.papaya_seq.specs.Walks.{IsStepped, IsWord, has_in, left_to};

use crate::seq::HashMap;
use papaya_call::ask::{Answer, At};
use papaya_core_store::store::Store;
use papaya_words::probe::Probe;
use papaya_words::refused::Refused;
use papaya_words::resize_mode::ResizeMode;
use papaya_words::table::Table;
use papaya_words::word::{Kind, Word, h1};
use std::hash::{BuildHasher, Hash};
use std::marker::Model;

/// Returns whether a word of the table marks the pair, whose key has this hash, as being copied.
fn marks<K: Hash + Eq, V, S: BuildHasher>(
    store: &Store<K, V, S>,
    table: u64,
    hash: u64,
    pair: u64,
) -> bool
    requires { (n : _) (t : _) → table_of store.now.words.tables n ≡ Some t
        → IsSize (length t.slots) t.limit }
    ensures { MatchBool result (HasMark store.now table pair)
        (HasNoMark store.now hash table pair) }
{
    let Answer::Size { len, limit } = store.size_of(table) else {
        return false;
    };
    let mut probe = Probe::start(h1(hash), len - 1);
    while probe.len <= limit {
        let word = Word(store.word(At::Slot(table, probe.i)));
        match word.kind() {
            Kind::Empty => return false,
            Kind::Marked if word.pair() == pair => return true,
            _ => probe.next(len - 1),
        }
    }
    false
}

impl<K: Hash + Eq, V, S: BuildHasher> HashMap<K, V, S> {
    /// Returns whether one of the tables before has this pair too. Then the pair was being copied
    /// when a call was refused.
    #[cold]
    #[inline(never)]
    fn is_copy(&self, pair: u64, at: Position) -> bool
        requires stands { IsPosition self.now at }
        requires word { IsWord self.now.store at pair }
        ensures { (p : _) → pair_of self.now.store pair ≡ Some p
            → result ≡ has_in K.eq self.now.store at.passed self.now.store.words.root p.key }
    {
        let hash = match self.store.pair(pair) {
            Some((key, _)) => self.store.hash(key),
            None => return false,
        };
        let mut table = self.store.word(At::Root);
        let mut passed = at.passed;
        while passed > 0 {
            if marks(&self.store, table, hash, pair) {
                return true;
            }
            table = self.store.word(At::Next(table));
            passed -= 1;
        }
        false
    }

    /// Returns the pair of the word at this position, if it has one that was not returned before.
    #[inline(always)]
    fn given(&self, table: &Table, at: Position) -> Option<u64>
        requires orderly { IsOrderly K.eq
            (hash_of K.hash_input S.build_hasher S.Hasher.write S.Hasher.finish) self.now }
        requires stands { IsPosition self.now at }
        requires table { table_of self.now.store.words.tables at.table ≡ Some table.now }
        requires within { at.slot < length table.now.slots }
        ensures { IsStepped K.eq self.now.store at result }
    {
        let word = Word(table.slot(at.slot));
        // Most slots without a pair are empty, and one comparison finds those.
        if word == Word::EMPTY {
            return None;
        }
        match word.kind() {
            Kind::Live | Kind::Marked if at.passed == 0 || !self.is_copy(word.pair(), at) => {
                Some(word.pair())
            }
            _ => None,
        }
    }

    /// Returns the next pair of this table of `end` slots, from the iteration's position on.
    #[inline(always)]
    fn next_in(&self, table: &Table, end: usize, at: &mut Position) -> Option<u64>
        requires orderly { IsOrderly K.eq
            (hash_of K.hash_input S.build_hasher S.Hasher.write S.Hasher.finish) self.now }
        requires stands { IsPosition self.now at.old }
        requires table { table_of self.now.store.words.tables at.old.table ≡ Some table.now }
        requires end { end ≡ length table.now.slots }
        ensures same { (at.new.table ≡ at.old.table) × (at.new.passed ≡ at.old.passed) }
        ensures next { IsNextHere K.eq self.now.store at.old result at.new }
    {
        while at.slot < end {
            let given = self.given(table, *at);
            at.slot += 1;
            if given.is_some() {
                return given;
            }
        }
        None
    }

    /// Returns the next pair of the table at the iteration's position, if there is such a table.
    fn next_here(&self, at: &mut Position) -> Option<u64>
        requires { IsPosition self.now at.old }
        ensures same { (at.new.table ≡ at.old.table) × (at.new.passed ≡ at.old.passed) }
        ensures next { IsNextHere K.eq self.now.store at.old result at.new }
    {
        match self.store.table(at.table) {
            Some(table) => self.next_in(table, table.len(), at),
            None => None,
        }
    }

    /// Returns the next pair of the map. With blocking the root has all of them.
    #[inline(never)]
    fn next_pair(&self, at: &mut Position) -> Option<u64>
        requires { IsPosition self.now at.old }
        ensures stands { IsPosition self.now at.new }
        ensures next { IsNext K.eq self.now.store at.old result at.new }
    {
        loop {
            let pair = self.next_here(at);
            if pair.is_some() {
                return pair;
            }
            let next = match self.mode.resize {
                ResizeMode::Incremental(_) => self.store.word(At::Next(at.table)),
                ResizeMode::Blocking => 0,
            };
            if next == 0 {
                return None;
            }
            *at = Position {
                table: next,
                slot: 0,
                passed: at.passed + 1,
            };
        }
    }

    /// Returns the next pair of the map. The iterator holds the root, of `end` slots, to its end.
    #[inline(always)]
    fn next_held(&self, root: Option<&Table>, end: &mut usize, at: &mut Position) -> Option<u64>
        requires orderly { IsOrderly K.eq
            (hash_of K.hash_input S.build_hasher S.Hasher.write S.Hasher.finish) self.now }
        requires stands { IsPosition self.now at.old }
        requires held { IsHeld self.now.store at.old root end.old }
        ensures stands { IsPosition self.now at.new }
        ensures held { IsHeld self.now.store at.new root.entry end.new }
        ensures next { IsNext K.eq self.now.store at.old result at.new }
    {
        if at.slot < *end {
            let Some(table) = root else { unreachable!() };
            // It is 0 already. This write lets the compiler drop the test for copies.
            at.passed = 0;
            let pair = self.next_in(table, *end, at);
            if pair.is_some() {
                return pair;
            }
        }
        *end = 0;
        // A copy is passed on, so that the iteration's own position may stay in registers.
        let mut place = *at;
        let pair = self.next_pair(&mut place);
        *at = place;
        pair
    }

    /// Returns the position at which an iteration begins.
    #[inline]
    fn first(&self) -> Position
        ensures stands { IsPosition self.now result }
        ensures root { (result.table ≡ self.now.store.words.root) × (result.passed ≡ 0) }
        ensures whole { left_to K.eq self.now.store result ≡ content K.eq self.now.store }
    {
        Position {
            table: self.store.word(At::Root),
            slot: 0,
            passed: 0,
        }
    }

    /// Returns the numbers of the map's pairs, in the order of [`HashMap::iter`].
    ///
    /// Fails with `Refused::Memory` if memory for the list runs out.
    pub(crate) fn numbers(&self) -> Result<Vec<u64>, Refused>
        ensures ok { IfOk result (λ list. list.items
            ≡ map (λ p. p.number) (content K.eq self.now.store)) }
        ensures err { IfErr result (λ e. e ≡ Refused.Memory) }
    {
        let mut list = Vec::new(self.alloc);
        let mut at = self.first();
        while let Some(pair) = self.next_pair(&mut at) {
            match list.push(pair) {
                Ok(()) => {}
                Err(_) => return Err(Refused::Memory),
            }
        }
        Ok(list)
    }

    /// Returns an iterator over the entries, each once: `iter` of 0.2.5. It allocates nothing and
    /// never fails.
    pub fn iter(&self) -> Iter<'_, K, V, S>
        ensures { result ≡ map entry_of (content K.eq self.now.store) }
    {
        let root = self.store.root();
        Iter {
            map: self,
            root,
            end: root.map_or(0, |table| table.len()),
            at: self.first(),
        }
    }

    /// Returns an iterator over the keys, in the order of [`HashMap::iter`]: `keys` of 0.2.5.
    pub fn keys(&self) -> Keys<'_, K, V, S>
        ensures { result ≡ map (λ p. p.key) (content K.eq self.now.store) }
    {
        Keys { pairs: self.iter() }
    }

    /// Returns an iterator over the values, in the order of [`HashMap::iter`]: `values` of 0.2.5.
    pub fn values(&self) -> Values<'_, K, V, S>
        ensures { result ≡ map (λ p. p.value) (content K.eq self.now.store) }
    {
        Values { pairs: self.iter() }
    }
}

impl<'a, K: Hash + Eq, V, S: BuildHasher> IntoIterator for &'a HashMap<K, V, S> {
    type Item = (&'a K, &'a V);

    type IntoIter = Iter<'a, K, V, S>;

    ghost into_iter_gives = { λ m r. r ≡ map entry_of (content K.eq m.now.store) };

    fn into_iter(self) -> Iter<'a, K, V, S> {
        self.iter()
    }
}

/// An iterator over the entries of a map. Contracts see the list of those that are left.
#[derive(Drop)]
pub struct Iter<'a, K: Hash + Eq, V, S: BuildHasher> {
    map: &'a HashMap<K, V, S>,
    /// The root, if there is one.
    root: Option<&'a Table>,
    /// The number of slots of the root while the iteration is in it, and 0 afterwards.
    end: usize,
    at: Position,
}

impl<'a, K: Hash + Eq, V, S: BuildHasher> Model for Iter<'a, K, V, S> {
    ghost use Rattle.std.specs.Prelude.{List};
    ghost use Rattle.papaya_words_keys.specs.Hashes.{hash_of};
    ghost use Rattle.papaya_seq.specs.Map.{IsOrderly};
    ghost use Rattle.papaya_seq.specs.Walks.{IsHeld, IsPosition, entries_left};

    ghost Value = { List (K × V) };

    ghost view = { λ it. entries_left K.eq it.map.now.store it.at };

    ghost invariant = { λ it. IsPosition it.map.now it.at
        × IsHeld it.map.now.store it.at it.root it.end
        × IsOrderly K.eq
        (hash_of K.hash_input S.build_hasher S.Hasher.write S.Hasher.finish) it.map.now };
}

impl<'a, K: Hash + Eq, V, S: BuildHasher> Iter<'a, K, V, S> {
    /// Returns the same iterator, at the same position.
    pub(crate) fn again(&self) -> Iter<'a, K, V, S>
        ensures { result ≡ self.now }
    {
        Iter {
            map: self.map,
            root: self.root,
            end: self.end,
            at: self.at,
        }
    }
}

impl<'a, K: Hash + Eq, V, S: BuildHasher> Iterator for Iter<'a, K, V, S> {
    type Item = (&'a K, &'a V);

    ghost next_gives = { YieldsFirstBy deref_pair (λ rest. rest) };

    ghost remaining = { item_count (λ rest. rest) };

    #[inline(always)]
    fn next(&mut self) -> Option<(&'a K, &'a V)> {
        match self.map.next_held(self.root, &mut self.end, &mut self.at) {
            Some(pair) => Some(self.map.entry(pair)),
            None => None,
        }
    }
}

/// An iterator over the keys of a map. Contracts see the list of those that are left.
#[derive(Drop)]
pub struct Keys<'a, K: Hash + Eq, V, S: BuildHasher> {
    pub(crate) pairs: Iter<'a, K, V, S>,
}

impl<'a, K: Hash + Eq, V, S: BuildHasher> Model for Keys<'a, K, V, S> {
    ghost use Rattle.std.specs.Prelude.{List, map};

    ghost Value = { List K };

    ghost view = { λ it. map (λ entry. entry.0) it.pairs };
}

impl<'a, K: Hash + Eq, V, S: BuildHasher> Iterator for Keys<'a, K, V, S> {
    type Item = &'a K;

    ghost next_gives = { YieldsFirstRef (λ rest. rest) };

    ghost remaining = { item_count (λ rest. rest) };

    #[inline(always)]
    fn next(&mut self) -> Option<&'a K> {
        match self.pairs.next() {
            Some((key, _)) => Some(key),
            None => None,
        }
    }
}

/// An iterator over the values of a map. Contracts see the list of those that are left.
#[derive(Drop)]
pub struct Values<'a, K: Hash + Eq, V, S: BuildHasher> {
    pub(crate) pairs: Iter<'a, K, V, S>,
}

impl<'a, K: Hash + Eq, V, S: BuildHasher> Model for Values<'a, K, V, S> {
    ghost use Rattle.std.specs.Prelude.{List, map};

    ghost Value = { List V };

    ghost view = { λ it. map (λ entry. entry.1) it.pairs };
}

impl<'a, K: Hash + Eq, V, S: BuildHasher> Iterator for Values<'a, K, V, S> {
    type Item = &'a V;

    ghost next_gives = { YieldsFirstRef (λ rest. rest) };

    ghost remaining = { item_count (λ rest. rest) };

    #[inline(always)]
    fn next(&mut self) -> Option<&'a V> {
        match self.pairs.next() {
            Some((_, value)) => Some(value),
            None => None,
        }
    }
}

/// A position before this slot of this table. `passed` tables come before it, from the root.
#[derive(Clone, Copy)]
pub(crate) struct Position {
    pub(crate) table: u64,
    pub(crate) slot: usize,
    pub(crate) passed: usize,
}
