//! Tokens, which prove the value that is stored at a number.
//!
//! A map's book keeps what a token proves, but not the token's bytes. A caller that finds the
//! number in a word gets the token back from it.
ghost use Rattle.std.specs.Prelude.{◌≡◌};
ghost use Rattle.boxcar.specs.Table.{Where, where_coded};

use crate::row::Row;
use papaya_map_cells::arena_slot::Written;
use std::marker::{Model, PhantomData};

/// A proof that an arena has a value at a number.
pub struct Pushed<T> {
    pub(crate) number: usize,
    pub(crate) row: Written<Row<T>>,
    pub(crate) item: Written<T>,
}

impl<T> Model for Pushed<T> {
    ghost use Rattle.boxcar.specs.Table.{Where, where_coded};
    ghost use Rattle.papaya_map_arena.specs.Rows.{IsAt, row_of};

    ghost Value = { Where T };

    ghost coded = { where_coded T.code };

    ghost view = { λ p. record {
      index = p.number;
      value = p.item.value;
      bucket = row_of p.number;
      row = p.row.of;
      item = p.item.of;
    } };

    ghost invariant = { λ p. IsAt p.number p.row.value.items p.item.of };
}

impl<T> Drop for Pushed<T> {
    #[inline(always)]
    fn drop(self) {
        let Self {
            number: _,
            row: _,
            item: _,
        } = self;
    }
}

/// The content of a token, with no bytes.
pub struct Known<T> {
    pub marker: PhantomData<T>,
    pub ghost at: { Where T } by { where_coded T.code },
}

impl<T> Model for Known<T> {
    ghost use Rattle.papaya_map_arena.specs.Tokens.{stands};

    ghost also_owns = { λ known. stands T.row known.at };
}

impl<T> Pushed<T> {
    /// Returns the number.
    #[inline(always)]
    pub fn index(&self) -> usize
        ensures { result ≡ self.now.index }
    {
        self.number
    }

    /// Returns the same token.
    pub fn again(&self) -> Pushed<T>
        ensures { result ≡ self.now }
    {
        Pushed {
            number: self.number,
            row: self.row.again(),
            item: self.item.again(),
        }
    }
}

/// Returns the content of the token.
pub fn witness<T>(token: &Pushed<T>) -> Known<T>
    ensures { result.at ≡ token.now }
{
    let _ = token;
    Known {
        marker: PhantomData,
    }
}

// The same layout in memory as a token of an arena.
#[derive(Drop)]
struct Bytes<T> {
    number: usize,
    row: Marker<T>,
    item: Marker<T>,
}

#[derive(Drop)]
struct Marker<T> {
    marker: PhantomData<T>,
}

/// Returns the token again, from its content and its number.
#[inline(always)]
pub fn token<T>(known: Known<T>, number: usize) -> Pushed<T>
    requires { number ≡ known.at.index }
    ensures { result ≡ known.at }
{
    let Known { marker: _ } = known;
    let held = Bytes::<T> {
        number,
        row: Marker {
            marker: PhantomData,
        },
        item: Marker {
            marker: PhantomData,
        },
    };
    unsafe { std::ptr::read(&raw const held as *const Pushed<T>) }
}
