//! Clear and retain: a closure is called with each pair of a table, and decides which ones are
//! deleted.
ghost use Rattle.std.specs.Prelude.{◌≡◌, ◌<◌, suc, false, Err, IfErr, length};
ghost use Rattle.std.specs.Int.{IsPowerOfTwo};
ghost use Rattle.papaya_map_book.specs.Limits.{HasNoRoom, tables_of};
ghost use Rattle.papaya_map_book.specs.Windows.{IsIn, IsLawful, IsOpen, IsTable, Sees};
ghost use Rattle.papaya_map_book.specs.declared.rule.entry.Named.TheVariants.{Pair as PairNamed};
ghost use Rattle.papaya_map_lookup.specs.Drivers.{own, past};
ghost use Rattle.papaya_map_change.specs.ClosureCalls.{Judges};
ghost use Rattle.papaya_map_change.specs.Writing.{IsMemoryOrCapacity};
ghost use Rattle.papaya_map_scan.specs.Leaving.{HasKept};
ghost use Rattle.papaya_map_scan.specs.TableScans.{IsTaken, Scans};

use crate::root::take_root;
use crate::slot::{bury, load};
use papaya_call::chain::resizer::Resize;
use papaya_map_book::count::Shard;
use papaya_map_book::rule::entry::Stored;
use papaya_map_book::rule::own::{CapacityCause, OwnSteps};
use papaya_map_book::table::Table;
use papaya_map_book::window::Window;
use papaya_map_change::driver::Means;
use papaya_map_change::removal::entry;
use papaya_map_change::resizing::resize;
use papaya_words::refused::Refused;
use papaya_words::word::{Kind, Word};
use std::hash::{BuildHasher, Hash};
use std::sync::Wait;

/// Calls the closure with a pair, and returns whether the pair stays.
fn call_closure<'a, K: Hash + Eq, V, S: BuildHasher, F: FnMut(&K, &V) -> bool>(
    stored: &Stored<K, V>,
    stays: &mut F,
    window: &Window<'a, K, V, S>,
) -> bool
    requires callable { F.IsAlwaysCallable stays.old }
    requires placed { IsIn window.now (PairNamed stored.now) }
    ensures callable { F.IsAlwaysCallable stays.new }
    ensures shown { Judges F.FnMut stays.old stored.now result stays.new }
{
    let (key, value) = entry(window.book, stored);
    stays(key, value)
}

/// Scans a slot, and deletes its pair unless it stays. Returns `true` if a copier has been there.
fn scan_slot<'a, R: Wait, K: Hash + Eq, V, S: BuildHasher, F: FnMut(&K, &V) -> bool>(
    rt: &R,
    shard: &Shard<'_>,
    table: &Table<K, V, S>,
    number: u64,
    place: usize,
    stays: &mut F,
    window: &mut Window<'a, K, V, S>,
) -> bool
    requires callable { F.IsAlwaysCallable stays.old }
    requires table { IsTable window.old number table.now }
    requires taken { (began : _) × IsTaken began window.old number }
    requires place { place < length table.now.slots }
    requires open { IsOpen window.old }
    ensures sees { Sees window.old window.new }
    ensures callable { F.IsAlwaysCallable stays.new }
    ensures scans { (began : _) → IsTaken began window.old number
        → Scans began (Judges F.FnMut) window.old stays.old window.new stays.new number place
        (suc place) (result ≡ false) }
{
    let (mut word, mut pair) = load(table, number, place, window);
    for _ in rt.forever() {
        match Word(word).kind() {
            Kind::Live => {}
            Kind::Marked | Kind::Copied => return true,
            Kind::Empty | Kind::Buried | Kind::Closed => return false,
        }
        let Some(stored) = &pair else { unreachable!() };
        if call_closure(stored, stays, window) {
            return false;
        }
        let (found, other) = bury(shard, table, number, place, word, stored, window);
        if found == word {
            return false;
        }
        word = found;
        pair = other;
    }
    unreachable!()
}

/// Scans the slots of a table in turn. Returns `true` at the first slot where a copier has been;
/// the later ones are not scanned.
fn scan_table<'a, R: Wait, K: Hash + Eq, V, S: BuildHasher, F: FnMut(&K, &V) -> bool>(
    rt: &R,
    shard: &Shard<'_>,
    table: &Table<K, V, S>,
    number: u64,
    stays: &mut F,
    window: &mut Window<'a, K, V, S>,
) -> bool
    requires callable { F.IsAlwaysCallable stays.old }
    requires table { IsTable window.old number table.now }
    requires taken { (began : _) × IsTaken began window.old number }
    requires open { IsOpen window.old }
    ensures sees { Sees window.old window.new }
    ensures callable { F.IsAlwaysCallable stays.new }
    ensures scans { (began : _) → IsTaken began window.old number
        → Scans began (Judges F.FnMut) window.old stays.old window.new stays.new number 0
        (length table.now.slots) (result ≡ false) }
{
    for place in 0..table.len() {
        if scan_slot(rt, shard, table, number, place, stays, window) {
            return true;
        }
    }
    false
}

/// Calls the closure with each pair, and deletes those for which it returns `false`. If it meets a
/// copier's work, it copies what is left and takes the root again. If a table is refused during the
/// copy, deleted pairs stay deleted. If the reason is a lack of room, `given` records it.
pub fn retain<'a, R: Wait, K: Hash + Eq, V, S: BuildHasher, F: FnMut(&K, &V) -> bool>(
    means: &Means<'_, '_, R>,
    window: &mut Window<'a, K, V, S>,
    given: &mut OwnSteps<CapacityCause>,
    mut stays: F,
) -> Result<(), Refused>
    requires callable { F.IsAlwaysCallable stays }
    requires initial { IsPowerOfTwo means.now.initial }
    requires open { IsOpen window.old }
    ensures sees { Sees window.old window.new }
    ensures lawful { IsLawful window.new }
    ensures kept { HasKept K.eq (past window.old) (past window.new) (own window.old)
        (own window.new) (Judges F.FnMut) stays result }
    ensures refused { IfErr result (λ refused. IsMemoryOrCapacity refused) }
    ensures crowded { result ≡ Err Refused.Capacity → HasNoRoom means.now.initial
        (tables_of window.new.sight.log) given.new.done }
{
    for _ in means.rt.forever() {
        let Some((number, table)) = take_root(means, window, given)? else {
            return Ok(());
        };
        if !scan_table(means.rt, means.shard, table, number, &mut stays, window) {
            window.learn();
            return Ok(());
        }
        resize(means, window, given, Resize::CopyAll)?;
    }
    unreachable!()
}
