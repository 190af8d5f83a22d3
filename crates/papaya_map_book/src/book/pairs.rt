//! Pairs in the arena of pairs: what they hold, and storing what callers put into a map.
ghost use Rattle.papaya_map_book.specs.Books.{IsIn, IsStoredAs};
ghost use Rattle.std.specs.Prelude.{◌≡◌, ◌<◌, ◌^◌, None, Some, IfErr, IfOk};
ghost use Rattle.boxcar.specs.Table.{Shows, id_at};
ghost use Rattle.papaya_map_book.specs.Brought.{IsBrought, pair_held};
ghost use Rattle.papaya_map_book.specs.PairParts.{IsKeyPartIn, IsValuePartIn, key_in, value_in};
ghost use Rattle.papaya_map_book.specs.Pairs.{IsKeyIn, IsValueIn};
ghost use Rattle.papaya_map_book.specs.declared.rule.entry.Named.TheVariants.{Pair as PairNamed};

use crate::book::Book;
use crate::rule::entry::Stored;
use crate::rule::pair::{Held, Pair, Shown, first_of, shown_of};
use papaya_map_arena::token::Pushed;
use std::hash::{BuildHasher, Hash};
use std::sync::Wait;

/// A key of a pair that is to be stored: passed in with the pair, or that of a stored pair.
#[derive(Drop)]
pub enum KeyPart<K, V> {
    Own(K),
    Of(Stored<K, V>),
}

/// A value of a pair that is to be stored: passed in with the pair, or that of a stored pair.
#[derive(Drop)]
pub enum ValuePart<K, V> {
    Own(V),
    Of(Stored<K, V>),
}

impl<K: Hash + Eq, V, S: BuildHasher> Book<K, V, S> {
    /// Returns how many numbers the arena has given out for pairs, as
    /// [`papaya_map_arena::arena::Arena::stored`] counts them.
    pub fn stored(&self) -> usize {
        self.parts.pairs.stored()
    }

    /// Returns the pair that a token is for.
    pub fn pair<'a>(&'a self, stored: &Stored<K, V>) -> &'a Pair<K, V>
        requires { IsIn self.now (PairNamed stored.now) }
        ensures { result.now ≡ stored.now.value }
    {
        self.parts.pairs.value(stored)
    }

    /// Returns the pair's key and value. Fresh pairs and pairs that replaced another are told apart
    /// by a test each; the rare kinds are handled out of line.
    #[inline(always)]
    pub fn entry<'a>(&'a self, pair: &'a Pair<K, V>) -> (&'a K, &'a V)
        requires key { IsKeyIn self.now.parts.pairs pair.now.key }
        requires value { IsValueIn self.now.parts.pairs pair.now }
        ensures key { result.0.now ≡ pair.now.key.value }
        ensures value { result.1.now ≡ pair.now.value }
    {
        match &pair.held {
            Held::Own(key, value) => (key, value),
            Held::Keyed(first, value) => (self.key_of_first(first), value),
            _ => (self.key_apart(pair), self.value_apart(pair)),
        }
    }

    /// Returns the same for the first two kinds alone, so that a loop that uses it makes no call.
    #[inline(always)]
    pub fn near_entry<'a>(&'a self, pair: &'a Pair<K, V>) -> Option<(&'a K, &'a V)>
        requires key { IsKeyIn self.now.parts.pairs pair.now.key }
        ensures key { (entry : _) → result ≡ Some entry → entry.0.now ≡ pair.now.key.value }
        ensures value { (entry : _) → result ≡ Some entry → entry.1.now ≡ pair.now.value }
    {
        match &pair.held {
            Held::Own(key, value) => Some((key, value)),
            Held::Keyed(first, value) => Some((self.key_of_first(first), value)),
            _ => None,
        }
    }

    /// Returns the pair's key.
    #[inline(always)]
    pub fn key<'a>(&'a self, pair: &'a Pair<K, V>) -> &'a K
        requires { IsKeyIn self.now.parts.pairs pair.now.key }
        ensures { result.now ≡ pair.now.key.value }
    {
        match &pair.held {
            Held::Own(key, _) => key,
            Held::Keyed(first, _) => self.key_of_first(first),
            _ => self.key_apart(pair),
        }
    }

    /// Returns the pair's value.
    #[inline(always)]
    pub fn value<'a>(&'a self, pair: &'a Pair<K, V>) -> &'a V
        requires { IsValueIn self.now.parts.pairs pair.now }
        ensures { result.now ≡ pair.now.value }
    {
        match &pair.held {
            Held::Own(_, value) => value,
            Held::Keyed(_, value) => value,
            _ => self.value_apart(pair),
        }
    }

    /// Returns the key of the pair that brought it.
    #[inline(always)]
    fn key_of_first<'a>(&'a self, first: &'a Pushed<Shown<K, V>>) -> &'a K
        requires in_log { first.now.row ≡ id_at self.now.parts.pairs.buckets first.now.bucket }
        requires brought { first.now.value.key.at ≡ None }
        ensures { result.now ≡ first.now.value.key.value }
    {
        self.parts.pairs.value(&first_of(first)).brought_key()
    }

    /// Returns the pair's key, whatever kind of pair it is.
    #[cold]
    #[inline(never)]
    fn key_apart<'a>(&'a self, pair: &'a Pair<K, V>) -> &'a K
        requires { IsKeyIn self.now.parts.pairs pair.now.key }
        ensures { result.now ≡ pair.now.key.value }
    {
        match &pair.held {
            Held::Own(key, _) => key,
            Held::Lent(key, _) => key,
            Held::Keyed(first, _) => self.key_of_first(first),
            Held::Both(first, _) => self.key_of_first(first),
            Held::Blank(_) => {
                self.parts.pairs.has_no_more_rows();
                unreachable!()
            }
        }
    }

    /// Returns the pair's value, whatever kind of pair it is.
    #[cold]
    #[inline(never)]
    fn value_apart<'a>(&'a self, pair: &'a Pair<K, V>) -> &'a V
        requires { IsValueIn self.now.parts.pairs pair.now }
        ensures { result.now ≡ pair.now.value }
    {
        match &pair.held {
            Held::Own(_, value) => value,
            Held::Keyed(_, value) => value,
            Held::Lent(_, first) => self.parts.pairs.value(&first_of(first)).brought_value(),
            Held::Both(_, first) => self.parts.pairs.value(&first_of(first)).brought_value(),
            Held::Blank(_) => {
                self.parts.pairs.has_no_more_rows();
                unreachable!()
            }
        }
    }

    /// Returns the pair that brought the key of a stored pair.
    #[inline(always)]
    fn key_first(&self, stored: &Stored<K, V>, pair: &Pair<K, V>) -> Pushed<Shown<K, V>>
        requires shown { Shows self.now.parts.pairs stored.now }
        requires pair { pair.now ≡ stored.now.value }
        requires key { IsKeyIn self.now.parts.pairs stored.now.value.key }
        ensures shown { Shows self.now.parts.pairs result }
        ensures brought { result.value.key.at ≡ None }
        ensures key { result.value.key.value ≡ stored.now.value.key.value }
    {
        match &pair.held {
            Held::Own(_, _) => shown_of(stored),
            Held::Lent(_, _) => shown_of(stored),
            Held::Keyed(first, _) => first.again(),
            Held::Both(first, _) => first.again(),
            Held::Blank(_) => {
                self.parts.pairs.has_no_more_rows();
                unreachable!()
            }
        }
    }

    /// Returns the pair that brought the value of a stored pair.
    fn value_first(&self, stored: &Stored<K, V>) -> Pushed<Shown<K, V>>
        requires shown { Shows self.now.parts.pairs stored.now }
        requires value { IsValueIn self.now.parts.pairs stored.now.value }
        ensures shown { Shows self.now.parts.pairs result }
        ensures brought { result.value.value_at ≡ None }
        ensures value { result.value.value ≡ stored.now.value.value }
    {
        match &self.parts.pairs.value(stored).held {
            Held::Own(_, _) => shown_of(stored),
            Held::Keyed(_, _) => shown_of(stored),
            Held::Lent(_, first) => first.again(),
            Held::Both(_, first) => first.again(),
            Held::Blank(_) => {
                self.parts.pairs.has_no_more_rows();
                unreachable!()
            }
        }
    }
}

impl<K: Hash + Eq + Drop, V: Drop, S: BuildHasher> Book<K, V, S> {
    /// Stores a pair of this key and value if a lane of the arena has a free slot, and else returns
    /// both. Any number names a lane to begin with.
    #[inline(always)]
    pub fn store_fresh(&self, lane: u64, key: K, value: V) -> Result<Stored<K, V>, (K, V)>
        ensures ok { IfOk result (IsStoredAs self.now key value) }
        ensures err { IfErr result (λ back. (back.0 ≡ key) × (back.1 ≡ value)) }
    {
        let held = Held::Own(key, value);
        match self.parts.pairs.try_push(lane, Pair { held }) {
            Ok(pair) => Ok(pair),
            Err(back) => Err(back.into_both()),
        }
    }

    /// Stores a pair with the key of a stored pair if a lane of the arena has a free slot, and else
    /// returns the value.
    #[inline(always)]
    pub fn store_renewed(
        &self,
        lane: u64,
        stored: &Stored<K, V>,
        pair: &Pair<K, V>,
        value: V,
    ) -> Result<Stored<K, V>, V>
        requires placed { IsIn self.now (PairNamed stored.now) }
        requires pair { pair.now ≡ stored.now.value }
        ensures ok { IfOk result (IsStoredAs self.now stored.now.value.key.value value) }
        ensures err { IfErr result (λ back. back ≡ value) }
    {
        let first = self.key_first(stored, pair);
        let held = Held::Keyed(first, value);
        match self.parts.pairs.try_push(lane, Pair { held }) {
            Ok(pair) => Ok(pair),
            Err(back) => Err(back.into_value()),
        }
    }

    /// Stores what is held, or returns it if memory runs out.
    fn push<R: Wait>(&self, rt: &R, lane: u64, held: Held<K, V>) -> Result<Stored<K, V>, Pair<K, V>>
        requires brought { IsBrought held }
        ensures ok { IfOk result (λ p. Shows self.now.parts.pairs p × (p.value ≡ pair_held held)) }
        ensures number { IfOk result (λ p. p.index < 2 ^ 48) }
        ensures err { IfErr result (λ back. back ≡ pair_held held) }
    {
        self.parts.pairs.push_shown(rt, lane, Pair { held })
    }

    /// Stores the pair of this key and value, or returns both if memory runs out.
    pub fn store_pair<R: Wait>(
        &self,
        rt: &R,
        lane: u64,
        key: KeyPart<K, V>,
        value: ValuePart<K, V>,
    ) -> Result<Stored<K, V>, (KeyPart<K, V>, ValuePart<K, V>)>
        requires key { IsKeyPartIn self.now key }
        requires value { IsValuePartIn self.now value }
        ensures ok { IfOk result (IsStoredAs self.now (key_in key) (value_in value)) }
        ensures err { IfErr result (λ back. (back.0 ≡ key) × (back.1 ≡ value)) }
    {
        match (key, value) {
            (KeyPart::Own(key), ValuePart::Own(value)) => match self.push(
                rt,
                lane,
                Held::Own(key, value),
            ) {
                Ok(pair) => Ok(pair),
                Err(back) => {
                    let (key, value) = back.into_both();
                    Err((KeyPart::Own(key), ValuePart::Own(value)))
                }
            },
            (KeyPart::Of(by), ValuePart::Own(value)) => {
                let first = self.key_first(&by, self.parts.pairs.value(&by));
                match self.push(rt, lane, Held::Keyed(first, value)) {
                    Ok(pair) => Ok(pair),
                    Err(back) => Err((KeyPart::Of(by), ValuePart::Own(back.into_value()))),
                }
            }
            (KeyPart::Own(key), ValuePart::Of(of)) => {
                let first = self.value_first(&of);
                match self.push(rt, lane, Held::Lent(key, first)) {
                    Ok(pair) => Ok(pair),
                    Err(back) => Err((KeyPart::Own(back.into_key()), ValuePart::Of(of))),
                }
            }
            (KeyPart::Of(by), ValuePart::Of(of)) => {
                let first = self.key_first(&by, self.parts.pairs.value(&by));
                let second = self.value_first(&of);
                match self.push(rt, lane, Held::Both(first, second)) {
                    Ok(pair) => Ok(pair),
                    Err(_) => Err((KeyPart::Of(by), ValuePart::Of(of))),
                }
            }
        }
    }
}
