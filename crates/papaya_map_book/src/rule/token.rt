//! Tokens of `boxcar` arenas, taken apart and put together again, and the rights to make words.
//!
//! The rule of the book keeps what a token shows, but not a token's bytes. A step passes on what
//! its token shows to the book, and a step that finds the number in a word rebuilds the token. The
//! rights to make words go to the book when it is opened; drawing some returns them.
ghost use Rattle.std.specs.Prelude.{◌≡◌, ℕ, ◌+◌, ◌^◌, ◌<◌, [], ◌∷◌};
ghost use Rattle.logbook.specs.Pages.{Book};
ghost use Rattle.boxcar.specs.Table.{Where, where_coded, IsAt, span};
ghost use Rattle.papaya_map_book.specs.Tokens.{stands};
ghost use Rattle.papaya_map_book.specs.declared.rule.entry.Event.TheVariants.{Draw};

use crate::rule::entry::{Event, Named};
use crate::rule::law::Drawn;
use boxcar::Pushed;
use logbook::{Gained, Pens};
use std::marker::{Model, PhantomData};

/// The fact that a token of an arena shows, without bytes.
pub struct Known<T> {
    pub marker: PhantomData<T>,
    pub ghost at: { Where T } by { where_coded T.code },
}

impl<T> Model for Known<T> {
    ghost also_owns = { λ k. stands T.row k.at };
}

/// Returns what the token shows.
pub fn witness<T>(token: &Pushed<T>) -> Known<T>
    ensures { result.at ≡ token.now }
{
    Known {
        marker: PhantomData,
    }
}

// It has the memory layout of an arena's token.
#[derive(Drop)]
struct Bytes<T> {
    index: usize,
    bucket: usize,
    slot: usize,
    row: Row<T>,
    item: Row<T>,
}

#[derive(Drop)]
struct Row<T> {
    marker: PhantomData<T>,
}

fn rebuild<T>(known: Known<T>, index: usize, bucket: usize, slot: usize) -> Pushed<T>
    requires { (index ≡ known.at.index) × IsAt index bucket slot }
    ensures { result ≡ known.at }
{
    let Known { marker: _ } = known;
    let held = Bytes::<T> {
        index,
        bucket,
        slot,
        row: Row {
            marker: PhantomData,
        },
        item: Row {
            marker: PhantomData,
        },
    };
    unsafe { std::ptr::read(&raw const held as *const Pushed<T>) }
}

fn bucket_len(bucket: usize) -> usize
    requires { bucket < 58 }
    ensures { (result ≡ span bucket) × (result + result < 2 ^ 64) }
{
    32 << bucket
}

// Returns where an arena keeps the value of this index.
fn locate(index: usize) -> (usize, usize)
    requires { index + 32 < 2 ^ 63 }
    ensures { IsAt index result.0 result.1 }
{
    let skewed = index + 32;
    let bucket = skewed.ilog2() as usize - 5;
    (bucket, skewed - bucket_len(bucket))
}

/// Rebuilds the token from its index. Nearly every table is in the first bucket, whose slots have
/// the numbers of their indices.
#[inline(always)]
pub fn token<T>(known: Known<T>, index: usize) -> Pushed<T>
    requires index { index ≡ known.at.index }
    requires fits { index + 32 < 2 ^ 63 }
    ensures { result ≡ known.at }
{
    if index < 32 {
        return rebuild(known, index, 0, index);
    }
    let (bucket, slot) = locate(index);
    rebuild(known, index, bucket, slot)
}

// It has the memory layout of the rights to make words.
#[derive(Drop)]
struct Rights {
    marker: PhantomData<()>,
}

/// Returns the rights to make the words that were drawn.
pub fn drawn<K, V, S>(gained: Gained<Event<K, V, S>, Named<K, V>, Drawn>) -> Pens
    requires { (b : Book) × (k : ℕ) × (n : ℕ) × (gained.about ≡ Draw b k n ∷ []) }
    ensures { gained.about ≡ Draw result.book result.next result.left ∷ [] }
{
    let Gained { marker: _ } = gained;
    let held = Rights {
        marker: PhantomData,
    };
    unsafe { std::ptr::read(&raw const held as *const Pens) }
}
