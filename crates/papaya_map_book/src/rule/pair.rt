//! Pairs, as the arena of pairs keeps them.
//!
//! A pair's key is beside its value, so that a lookup that has found the pair has its key at hand.
//! But keys and values are stored once: a pair that replaces another has that one's key, and a call
//! may make several pairs of one value. So a pair brings its key, or names the pair that brought
//! it, and likewise for its value. No name refers to another name.
ghost use Rattle.std.specs.Prelude.{◌≡◌, None, Some};
ghost use base.Fml.{ftrue};
ghost use Rattle.papaya_map_book.specs.Pairs.{Pair as PairSeen, pair_coded};

use papaya_map_arena::row::Blank;
use papaya_map_arena::token::{Known, Pushed, token};
use std::marker::{Model, PhantomData};

/// A pair as contracts see it. The arena of pairs cannot name the type of its own tokens.
pub struct Shown<K, V> {
    key: K,
    value: V,
}

impl<K, V> Model for Shown<K, V> {
    ghost Value = { PairSeen K V };

    ghost coded = { pair_coded K.code V.code };

    ghost view = { λ p. record {
      key = record { value = p.key; at = None };
      value = p.value;
      value_at = None;
    } };
}

impl<K: Drop, V: Drop> Drop for Shown<K, V> {
    fn drop(self) {
        let Self { key: _, value: _ } = self;
    }
}

/// A blank, in slots where no pair is stored yet. It has no bytes. Contracts see a key and a
/// value of it, as of a pair, but both are named as being where no arena has anything.
pub struct Nobody<K, V> {
    marker: PhantomData<(K, V)>,
    pub ghost key: { K },
    pub ghost value: { V },
}

impl<K, V> Model for Nobody<K, V> {
    ghost also_owns = { λ _. ftrue };
}

/// A pair's key and its value, or the pairs that brought them.
#[derive(Drop)]
pub(crate) enum Held<K, V> {
    Own(K, V),
    Keyed(Pushed<Shown<K, V>>, V),
    Lent(K, Pushed<Shown<K, V>>),
    Both(Pushed<Shown<K, V>>, Pushed<Shown<K, V>>),
    Blank(Nobody<K, V>),
}

/// A pair in the arena of pairs.
pub struct Pair<K, V> {
    pub(crate) held: Held<K, V>,
}

impl<K, V> Model for Pair<K, V> {
    ghost use Rattle.papaya_map_book.specs.Brought.{IsBrought, pair_held};
    ghost use Rattle.papaya_map_book.specs.Pairs.{Pair as PairSeen, pair_coded};

    ghost Value = { PairSeen K V };

    ghost coded = { pair_coded K.code V.code };

    ghost view = { λ p. pair_held p.held };

    ghost invariant = { λ p. IsBrought p.held };
}

impl<K: Drop, V: Drop> Drop for Pair<K, V> {
    fn drop(self) {
        let Self { held: _ } = self;
    }
}

impl<K, V> Pair<K, V> {
    /// Returns the key of a pair that brought it.
    pub(crate) fn brought_key(&self) -> &K
        requires { self.now.key.at ≡ None }
        ensures { result.now ≡ self.now.key.value }
    {
        match &self.held {
            Held::Own(key, _) => key,
            Held::Lent(key, _) => key,
            _ => unreachable!(),
        }
    }

    /// Returns the value of a pair that brought it.
    pub(crate) fn brought_value(&self) -> &V
        requires { self.now.value_at ≡ None }
        ensures { result.now ≡ self.now.value }
    {
        match &self.held {
            Held::Own(_, value) => value,
            Held::Keyed(_, value) => value,
            _ => unreachable!(),
        }
    }
}

impl<K: Drop, V: Drop> Pair<K, V> {
    /// Returns the key and the value of a pair that brought both.
    pub(crate) fn into_both(self) -> (K, V)
        requires key { self.key.at ≡ None }
        requires value { self.value_at ≡ None }
        ensures { (result.0 ≡ self.key.value) × (result.1 ≡ self.value) }
    {
        let Pair { held } = self;
        match held {
            Held::Own(key, value) => (key, value),
            Held::Keyed(_, _) => unreachable!(),
            Held::Lent(_, _) => unreachable!(),
            Held::Both(_, _) => unreachable!(),
            Held::Blank(_) => unreachable!(),
        }
    }

    /// Returns the key of a pair that brought it.
    pub(crate) fn into_key(self) -> K
        requires { self.key.at ≡ None }
        ensures { result ≡ self.key.value }
    {
        let Pair { held } = self;
        match held {
            Held::Own(key, _) => key,
            Held::Lent(key, _) => key,
            Held::Keyed(_, _) => unreachable!(),
            Held::Both(_, _) => unreachable!(),
            Held::Blank(_) => unreachable!(),
        }
    }

    /// Returns the value of a pair that brought it.
    pub(crate) fn into_value(self) -> V
        requires { self.value_at ≡ None }
        ensures { result ≡ self.value }
    {
        let Pair { held } = self;
        match held {
            Held::Own(_, value) => value,
            Held::Keyed(_, value) => value,
            Held::Lent(_, _) => unreachable!(),
            Held::Both(_, _) => unreachable!(),
            Held::Blank(_) => unreachable!(),
        }
    }
}

impl<K, V> Nobody<K, V> {
    // A pair gives the proof a key and a value to name.
    fn beside(_pair: &Pair<K, V>) -> Nobody<K, V> {
        Nobody {
            marker: PhantomData,
        }
    }
}

impl<K, V> Blank for Pair<K, V> {
    #[inline(always)]
    fn blank(&self) -> Pair<K, V> {
        Pair {
            held: Held::Blank(Nobody::beside(self)),
        }
    }
}

impl<K, V> Drop for Nobody<K, V> {
    fn drop(self) {
        let Self { marker: _ } = self;
    }
}

unsafe impl<K, V> Send for Nobody<K, V> {}

unsafe impl<K, V> Sync for Nobody<K, V> {}

/// Returns what the token of a pair shows, as a pair's row can name it.
fn known_shown<K, V>(token: &Pushed<Pair<K, V>>) -> Known<Shown<K, V>>
    ensures { result.at ≡ token.now }
{
    Known {
        marker: PhantomData,
    }
}

/// Returns what such a token shows, as that of a pair: the inverse of [`known_shown`].
fn known_pair<K, V>(token: &Pushed<Shown<K, V>>) -> Known<Pair<K, V>>
    ensures { result.at ≡ token.now }
{
    Known {
        marker: PhantomData,
    }
}

/// Returns the token of a pair, as another pair can hold it.
#[inline(always)]
pub(crate) fn shown_of<K, V>(pair: &Pushed<Pair<K, V>>) -> Pushed<Shown<K, V>>
    ensures { result ≡ pair.now }
{
    token(known_shown(pair), pair.index())
}

/// Returns the token of the pair that brought a key or a value.
#[inline(always)]
pub(crate) fn first_of<K, V>(shown: &Pushed<Shown<K, V>>) -> Pushed<Pair<K, V>>
    ensures { result ≡ shown.now }
{
    token(known_pair(shown), shown.index())
}
