//! The words of slots, and their hints. Eight hints lie in a number, a byte each.
ghost use Rattle.std.specs.Prelude.{◌≡◌, ℕ, ◌+◌, ◌%◌, ◌<◌, ◌≢◌};
ghost use Rattle.papaya_map_book.specs.Hinted.{byte_of};

use crate::rule::entry::{Event, Named};
use crate::rule::law::Law;
use logbook::Word;
use papaya_map_cells::hint::Hint;

/// An atomic word of the map.
pub type Cell<K, V, S> = Word<Event<K, V, S>, Named<K, V>, Law<K, V, S>>;

/// A number that holds the hints of eight slots. It is beside the word of the first of them.
pub type HintCell<K, V, S> = Hint<Event<K, V, S>, Named<K, V>, Law<K, V, S>>;

/// Returns the hint of a slot from the number with its hint. The slots begin at a multiple of 8.
#[inline(always)]
pub fn hint_in(hints: u64, place: usize) -> u64
    ensures { result ≡ byte_of (place % 8) hints }
{
    (hints >> (place % 8 * 8)) % 256
}

/// Returns the number with this hint of a slot that has none. Other slots keep their hints.
#[inline(always)]
pub fn with_hint(hints: u64, place: usize, hint: u8) -> u64
    requires { byte_of (place % 8) hints ≡ 0 }
    ensures this { byte_of (place % 8) result ≡ hint }
    ensures others { (i : ℕ) → i < 8 → i ≢ place % 8 → byte_of i result ≡ byte_of i hints }
{
    hints + (u64::from(hint) << (place % 8 * 8))
}
