//! The table that a call scans.
ghost use Rattle.std.specs.Prelude.{◌≡◌, Err, IfErr, IfOk, MatchOption};
ghost use Rattle.std.specs.Int.{IsPowerOfTwo};
ghost use Rattle.papaya_map_book.specs.Limits.{HasNoRoom, tables_of};
ghost use Rattle.papaya_map_book.specs.Windows.{IsLawful, IsTable, Observes};
ghost use Rattle.papaya_map_change.specs.Writing.{IsMemoryOrCapacity};
ghost use Rattle.papaya_map_scan.specs.TableScans.{IsTaken, root_of};

use papaya_call::chain::resizer::Resize;
use papaya_map_book::rule::own::{CapacityCause, OwnSteps};
use papaya_map_book::table::Table;
use papaya_map_book::window::Window;
use papaya_map_change::driver::Means;
use papaya_map_change::resizing::resize;
use papaya_words::refused::Refused;
use papaya_words::resize_mode::ResizeMode;
use std::hash::{BuildHasher, Hash};
use std::sync::Wait;

/// Returns the root and its number, if there is one. Without blocking, it first copies everything,
/// and takes the root by the load that finds no table after it, so that the root has each pair of
/// the map. If it is refused for lack of room, `given` records why.
pub fn take_root<'a, R: Wait, K: Hash + Eq, V, S: BuildHasher>(
    means: &Means<'_, '_, R>,
    window: &mut Window<'a, K, V, S>,
    given: &mut OwnSteps<CapacityCause>,
) -> Result<Option<(u64, &'a Table<K, V, S>)>, Refused>
    requires initial { IsPowerOfTwo means.now.initial }
    ensures sees { Observes window.old window.new }
    ensures lawful { IsLawful window.new }
    ensures table { IfOk result (λ found. MatchOption found Unit (λ root. IsTable window.new root.0
        root.1.now)) }
    ensures taken { IfOk result (λ found. MatchOption found Unit (λ root. IsTaken
        window.old.sight.log window.new root.0)) }
    ensures rootless { IfOk result (λ found. MatchOption found (root_of window.new ≡ 0)
        (λ root. Unit)) }
    ensures refused { IfErr result (λ refused. IsMemoryOrCapacity refused) }
    ensures crowded { result ≡ Err Refused.Capacity → HasNoRoom means.now.initial
        (tables_of window.new.sight.log) given.new.done }
{
    for _ in means.rt.forever() {
        let (number, held) = window.root();
        let Some(table) = held else {
            return Ok(None);
        };
        if let ResizeMode::Blocking = window.book.parts.mode {
            return Ok(Some((number, table)));
        }
        let (next, _) = window.next(table, number);
        if next == 0 {
            return Ok(Some((number, table)));
        }
        resize(means, window, given, Resize::CopyAll)?;
    }
    unreachable!()
}
