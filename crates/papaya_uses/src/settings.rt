//! Settings that threads share, each by a session: a thread reads back what it wrote.
ghost use Rattle.std.specs.Prelude.{◌≡◌, IfErr, IfOk};
ghost use Rattle.papaya_uses.specs.Settings.{IsReadBack};

use papaya::{HashMap, Refused, Session};
use std::hash::{BuildHasherDefault, FoldHasher};
use std::sync::Wait;

/// The value of each setting, by their numbers. A thread makes its session by
/// `Session::new(&settings)`.
pub type Settings = HashMap<u64, u64, BuildHasherDefault<FoldHasher>>;

/// Gives a setting a value, and reads it back: at some point after this thread's own change, which
/// is the only one that it makes.
///
/// # Errors
///
/// Fails with `Refused::Memory`, `Refused::Capacity` or `Refused::Limit`, as [`Session::insert`]
/// does, and then changes nothing.
pub fn set_and_read<R: Wait>(
    rt: &R,
    settings: &mut Session<'_, u64, u64>,
    setting: u64,
    value: u64,
) -> Result<Option<u64>, Refused>
    ensures read { IfOk result (IsReadBack setting value settings.old settings.new) }
    ensures refused { IfErr result (λ _. settings.new.made ≡ settings.old.made) }
{
    settings.insert(rt, setting, value)?;
    Ok(settings.get(&setting).copied())
}
