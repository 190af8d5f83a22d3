//! Why a call was refused: the error of all calls.
ghost use Rattle.std.specs.Prelude.{◌≡◌};
ghost use Rattle.papaya_words.specs.Refusals.{name_of, number_of};
ghost use Rattle.papaya_words.specs.declared.refused.Refused.TheVariants.{Memory};

use std::alloc::{AllocError, AllocFailed};
use std::error::Error;
use std::fmt;

/// Why a call failed: the error of all calls. A call ends at its first refusal. A refused call on a
/// key has changed no entry, and has dropped what was passed in.
///
/// In 0.2.5 these are panics, or an abort if memory runs out.
#[derive(Clone, Copy, Debug, PartialEq, Eq)]
pub enum Refused {
    /// An allocation failed. A map that threads share also fails with this once it has stored 2^42
    /// entries since it was made or last reclaimed.
    Memory,
    /// A size would exceed a limit of [`crate::limits`], or does not fit in 64 bits.
    Capacity,
    /// The guard belongs to another collector than the map's.
    WrongGuard,
    /// The closure of a `compute` returned `Operation::Remove`, and the key has no entry.
    RemoveNothing,
    /// A map was to be made with chunks of no slots: `ResizeMode::Incremental(0)`.
    ZeroChunk,
    /// The JSON value is not an object where a map is read, or not an array where a set is read.
    Shape,
    /// Two keys of a map have the same JSON text.
    KeyClash,
    /// A function that the caller passed in for JSON returned `None` for an item.
    Item,
    /// The map has stored as many entries as its `pair_limit` allows. Call its `reclaim`, which
    /// keeps only those that are in the map, or build it with a larger limit.
    Limit,
}

impl Refused {
    /// Returns the number by which programs report the refusal: 1 to 9, in the order above.
    ///
    /// Several of 1, 2, 3, 5 and 9 may apply at one point of a call. It then fails with the first
    /// of them in this order: `WrongGuard` (3), `ZeroChunk` (5), `Capacity` (2), `Limit` (9),
    /// `Memory` (1). The others have points of their own: `RemoveNothing` (4) comes after a closure
    /// has run, and 6 to 8 come from JSON alone.
    pub fn number(&self) -> u8
        ensures { result ≡ number_of self.now }
    {
        match *self {
            Refused::Memory => 1,
            Refused::Capacity => 2,
            Refused::WrongGuard => 3,
            Refused::RemoveNothing => 4,
            Refused::ZeroChunk => 5,
            Refused::Shape => 6,
            Refused::KeyClash => 7,
            Refused::Item => 8,
            Refused::Limit => 9,
        }
    }

    /// Returns the variant's name, by which programs report the refusal.
    pub fn name(&self) -> &'static str
        ensures { result.now ≡ name_of self.now }
    {
        match *self {
            Refused::Memory => "Memory",
            Refused::Capacity => "Capacity",
            Refused::WrongGuard => "WrongGuard",
            Refused::RemoveNothing => "RemoveNothing",
            Refused::ZeroChunk => "ZeroChunk",
            Refused::Shape => "Shape",
            Refused::KeyClash => "KeyClash",
            Refused::Item => "Item",
            Refused::Limit => "Limit",
        }
    }
}

/// Writes the reason in words.
impl fmt::Display for Refused {
    ghost use Rattle.std.specs.Prelude.{Some};
    ghost use Rattle.papaya_words.specs.Refusals.{reason_of};

    ghost output = { λ refused. Some (reason_of refused) };

    fn fmt<W: fmt::Write>(&self, f: &mut fmt::Formatter<W>) -> fmt::Result {
        match *self {
            Refused::Memory => f.write_str("out of memory"),
            Refused::Capacity => f.write_str("no capacity: a size would exceed a limit of the map"),
            Refused::WrongGuard => {
                f.write_str("wrong guard: it belongs to another collector than the map's")
            }
            Refused::RemoveNothing => f.write_str("nothing to remove: the key has no entry"),
            Refused::ZeroChunk => f.write_str("a chunk of a resize needs at least one slot"),
            Refused::Shape => {
                f.write_str("wrong JSON: a map is read from an object, and a set from an array")
            }
            Refused::KeyClash => f.write_str("two keys have the same JSON text"),
            Refused::Item => f.write_str("an item was not converted to JSON or from it"),
            Refused::Limit => {
                f.write_str("pair limit reached: reclaim the map, or build it with a larger limit")
            }
        }
    }
}

/// Lets `?` turn a refusal into a program's error.
impl Error for Refused {}

/// Lets `?` turn a failed allocation into a refusal.
impl From<AllocError> for Refused {
    ghost from_gives = { λ _ refused. refused ≡ Memory };

    fn from(_error: AllocError) -> Refused {
        Refused::Memory
    }
}

/// Lets `?` turn a failed allocation into a refusal, and drop the value that found no room.
impl<T: Drop> From<AllocFailed<T>> for Refused {
    ghost from_gives = { λ _ refused. refused ≡ Memory };

    fn from(_error: AllocFailed<T>) -> Refused {
        Refused::Memory
    }
}
