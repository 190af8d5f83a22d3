//! One slot of a table that is scanned.
ghost use Rattle.std.specs.Prelude.{◌≡◌, ◌<◌, ◌==◌, true, false, Some, length};
ghost use Rattle.papaya_words.specs.Word.{kind_of};
ghost use Rattle.papaya_words.specs.declared.word.Kind.TheVariants.{Live};
ghost use Rattle.papaya_map_book.specs.Windows.{Does, IsLawful, IsOpen, IsSlot, IsTable, Observes, Sees};
ghost use Rattle.papaya_map_scan.specs.TableScans.{IsBuried, IsMet, IsTaken};

use papaya_map_book::count::Shard;
use papaya_map_book::rule::entry::Stored;
use papaya_map_book::table::Table;
use papaya_map_book::window::Window;
use papaya_map_change::fast_path::bury_slot;
use std::hash::{BuildHasher, Hash};

/// Loads a slot's word, and the pair that it names.
#[inline(always)]
pub fn load<'a, K: Hash + Eq, V, S: BuildHasher>(
    table: &Table<K, V, S>,
    number: u64,
    place: usize,
    window: &mut Window<'a, K, V, S>,
) -> (u64, Option<Stored<K, V>>)
    requires table { IsTable window.old number table.now }
    requires place { place < length table.now.slots }
    ensures sees { Observes window.old window.new }
    ensures lawful { IsLawful window.new }
    ensures slot { IsSlot window.old window.new number place result.0 result.1 }
    ensures met { (began : _) → IsTaken began window.old number
        → IsMet began window.new result.0 result.1 }
{
    window.slot(table, number, place)
}

/// Tries to delete the pair that this word of a slot names. Returns the word that it found there,
/// which may be another one, and the pair that the word names.
pub fn bury<'a, K: Hash + Eq, V, S: BuildHasher>(
    shard: &Shard<'_>,
    table: &Table<K, V, S>,
    number: u64,
    place: usize,
    word: u64,
    shown: &Stored<K, V>,
    window: &mut Window<'a, K, V, S>,
) -> (u64, Option<Stored<K, V>>)
    requires table { IsTable window.old number table.now }
    requires taken { (began : _) × IsTaken began window.old number }
    requires place { place < length table.now.slots }
    requires open { IsOpen window.old }
    requires stood { IsSlot window.old window.old number place word (Some shown.now) }
    requires live { kind_of word ≡ Live }
    ensures sees { Sees window.old window.new }
    ensures lawful { IsLawful window.new }
    ensures does { Does (result.0 == word) window.old window.new }
    ensures buried { (result.0 == word) ≡ true → IsBuried window.new number place shown.now }
    ensures found { (result.0 == word) ≡ false → IsSlot window.old window.new number place result.0
        result.1 }
    ensures met { (began : _) → IsTaken began window.old number
        → IsMet began window.new result.0 result.1 }
{
    bury_slot(shard, window, table, number, place, word, shown)
}
