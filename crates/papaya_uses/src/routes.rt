//! A table of routes: many threads look up paths, and now and then one adds a route or changes it.
//! A path is looked up as a text, without a copy of it.
ghost use Rattle.std.specs.Prelude.{IfErr, IfOk, is_ok};
ghost use mathlib.Core.List.{IsPrefix};
ghost use Rattle.papaya.specs.Threads.{IsWriteRefusal, Makes};
ghost use Rattle.papaya_uses.specs.Routes.{IsLed, IsLedBetween};

use papaya::{HashMap, Refused, Session, TextKey};
use std::hash::{BuildHasherDefault, FoldHasher};
use std::sync::Wait;

/// The number of each path's handler. A thread makes its session by `Session::new(&routes)`.
pub type Routes = HashMap<String, u64, BuildHasherDefault<FoldHasher>>;

/// Returns the handler of a path. It never waits.
pub fn handler(routes: &mut Session<'_, String, u64>, path: &str) -> Option<u64>
    ensures seen { IsPrefix routes.old.history routes.new.history }
    ensures led { IsLedBetween path.now routes.old.history routes.new.history result }
{
    routes.get(&TextKey(path)).copied()
}

/// Sets the handler of a path, and returns the old one. Threads that look it up meanwhile get
/// either.
///
/// # Errors
///
/// Fails with `Refused::Memory`, `Refused::Capacity` or `Refused::Limit`, as [`Session::insert`]
/// does, and then changes nothing.
pub fn lead<R: Wait>(
    rt: &R,
    routes: &mut Session<'_, String, u64>,
    path: String,
    handler: u64,
) -> Result<Option<u64>, Refused>
    ensures seen { IsPrefix routes.old.history routes.new.history }
    ensures led { IfOk result (IsLed path handler routes.old.history routes.new.history) }
    ensures made { Makes (is_ok result) routes.old.made routes.new.made routes.new.history }
    ensures refused { IfErr result (IsWriteRefusal routes.old.map.begun.limit routes.new.taken) }
{
    match routes.insert(rt, path, handler) {
        Ok(before) => Ok(before.copied()),
        Err(refused) => Err(refused),
    }
}
