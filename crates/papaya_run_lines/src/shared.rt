//! The lines on the map that threads share, by one session of it: each is read, performed and
//! printed before the next is read.
ghost use Rattle.std.specs.Prelude.{◌≡◌, ◌⊎◌, IfErr, IfOk, IfSome, None, []};
ghost use Rattle.std.specs.List.{All};
ghost use mathlib.Core.List.{IsPrefix};
ghost use Rattle.std.specs.Io.KnownBytes.{Appends};
ghost use Rattle.papaya_run_lines.specs.Lines.{lines_of};
ghost use Rattle.papaya_run_lines.specs.Program.{ShowsLine};
ghost use Rattle.papaya_run_lines.specs.Runs.{IsRun};
ghost use Rattle.papaya_run_lines.specs.declared.commands.Command.TheVariants as asked;
ghost use Rattle.papaya_run_shell.specs.Failure.{without_memory};
ghost use Rattle.papaya_run_lines.specs.Shared.{Had, IsBad, IsBegun, IsMissing, Obeys};

use crate::closures::follower;
use crate::commands::{Command, command_of};
use crate::line_by_line::{Obey, run_lines};
use crate::printed::Printed;
use crate::walk::Walk;
use papaya_map::map::HashMap;
use papaya_map::session::Session;
use papaya_map_scan::walk::Iter;
use papaya_run_shell::failure::Failure;
use papaya_words::resize_mode::ResizeMode;
use std::alloc::Global;
use std::hash::BuildHasher;
use std::io::{Read, Write};
use std::sync::Wait;

/// The number of shards over which the pairs are counted.
const SHARDS: usize = 16;

/// Returns the pairs that an iterator still gives.
fn listed<S: BuildHasher + Drop>(
    alloc: Global,
    pairs: &mut Iter<'_, u64, u64, S>,
) -> Result<Vec<(u64, u64)>, Failure>
    ensures book { pairs.new.book ≡ pairs.old.book }
    ensures seen { IsPrefix pairs.old.history pairs.new.history }
    ensures had { IfOk result (λ listed. All (Had pairs.old.began pairs.new.history)
        listed.items) }
    ensures failed { IfErr result (λ failure. failure ≡ without_memory) }
{
    let mut listed = Vec::new(alloc);
    while let Some((key, value)) = pairs.next() {
        listed.push((*key, *value))?;
    }
    Ok(listed)
}

/// The caller of the shared map, by one session for all lines. The map has no limit on its pairs.
#[derive(Drop)]
struct Caller<'a, H: Wait, S: BuildHasher> {
    rt: &'a H,
    session: Session<'a, u64, u64, S>,
    ghost unlimited: { session.map.begun.limit ≡ None },
}

impl<'a, H: Wait, S: BuildHasher + Drop> Caller<'a, H, S> {
    fn new(rt: &'a H, map: &'a HashMap<u64, u64, S>) -> Caller<'a, H, S>
        requires { map.now.begun.limit ≡ None }
        ensures { IsBegun result.session }
    {
        Caller {
            rt,
            session: Session::new(map),
        }
    }

    /// Stores a pair, and returns what is printed of it.
    fn insert(&mut self, key: u64, value: u64) -> Printed
        ensures seen { IsPrefix self.old.session.history self.new.session.history }
        ensures done { Obeys (asked.Insert key value) self.old.session result self.new.session }
    {
        match self.session.insert(self.rt, key, value) {
            Ok(Some(old)) => Printed::Old(*old),
            Ok(None) => Printed::Absent,
            Err(refused) => Printed::Refused(refused),
        }
    }

    /// Looks a key up, and returns what is printed of it.
    fn look_up(&mut self, key: u64) -> Printed
        ensures seen { IsPrefix self.old.session.history self.new.session.history }
        ensures done { Obeys (asked.Get key) self.old.session result self.new.session }
    {
        match self.session.get(&key) {
            Some(value) => Printed::Found(*value),
            None => Printed::Absent,
        }
    }

    /// Removes a key, and returns what is printed of it.
    fn remove(&mut self, key: u64) -> Printed
        ensures seen { IsPrefix self.old.session.history self.new.session.history }
        ensures done { Obeys (asked.Remove key) self.old.session result self.new.session }
    {
        match self.session.remove(self.rt, &key) {
            Ok(Some(value)) => Printed::Removed(*value),
            Ok(None) => Printed::Absent,
            Err(refused) => Printed::Refused(refused),
        }
    }

    /// Updates a key, and returns what is printed of it.
    fn update(&mut self, key: u64) -> Printed
        ensures seen { IsPrefix self.old.session.history self.new.session.history }
        ensures done { Obeys (asked.Update key) self.old.session result self.new.session }
    {
        match self.session.update(self.rt, key, follower) {
            Ok(Some(value)) => Printed::New(*value),
            Ok(None) => Printed::Absent,
            Err(refused) => Printed::Refused(refused),
        }
    }

    /// Removes all pairs, and returns what is printed of it.
    fn clear(&mut self) -> Printed
        ensures seen { IsPrefix self.old.session.history self.new.session.history }
        ensures done { Obeys asked.Clear self.old.session result self.new.session }
    {
        match self.session.clear(self.rt) {
            Ok(()) => Printed::Done,
            Err(refused) => Printed::Refused(refused),
        }
    }

    /// Iterates over the map, and returns what is printed of it. Fails if there is no memory for
    /// the pairs.
    fn walk(&mut self, alloc: Global) -> Result<Printed, Failure>
        ensures seen { IsPrefix self.old.session.history self.new.session.history }
        ensures done { IfOk result (λ text. Obeys asked.Walk self.old.session text
            self.new.session) }
        ensures failed { IfErr result (λ failure. failure ≡ without_memory) }
    {
        let mut pairs = match self.session.iter(self.rt) {
            Ok(pairs) => pairs,
            Err(refused) => return Ok(Printed::Refused(refused)),
        };
        let listed = listed(alloc, &mut pairs)?;
        self.session.learn_walk(&pairs);
        Ok(Printed::Walk(Walk::new(listed)))
    }

    /// Does what the command of the line of this number requests, and returns what is printed of
    /// it. Fails if the shared map has no such command, and if an iteration does.
    fn obey(&mut self, alloc: Global, number: u64, command: Command) -> Result<Printed, Failure>
        ensures seen { IsPrefix self.old.session.history self.new.session.history }
        ensures done { IfOk result (λ text. Obeys command self.old.session text
            self.new.session) }
        ensures failed { IfErr result (λ failure. (IsMissing command
            × (failure ≡ Failure.Line number) × (self.new ≡ self.old)) ⊎ ((command ≡ asked.Walk)
            × (failure ≡ without_memory))) }
    {
        match command {
            Command::Insert(key, value) => Ok(self.insert(key, value)),
            Command::Get(key) => Ok(self.look_up(key)),
            Command::Remove(key) => Ok(self.remove(key)),
            Command::Update(key) => Ok(self.update(key)),
            Command::Len => Ok(Printed::Length(self.session.len())),
            Command::Clear => Ok(self.clear()),
            Command::Walk => self.walk(alloc),
            Command::Slots => Err(Failure::Line(number)),
        }
    }
}

impl<H: Wait, S: BuildHasher + Drop> Obey for Caller<'_, H, S> {
    ghost does = { λ old line printed new. ShowsLine old.session line printed new.session };

    ghost is_bad = { IsBad };

    fn obey_line(&mut self, alloc: Global, number: u64, line: &[u8]) -> Result<Printed, Failure> {
        let Some(command) = command_of(line) else {
            return Err(Failure::Line(number));
        };
        let printed = self.obey(alloc, number, command)?;
        self.session.legal();
        Ok(printed)
    }
}

/// Runs the lines of the input one by one on a new map, and prints each reply at once. The first
/// bad line ends the run, and so does a command that the shared map has not.
pub(crate) fn run_shared<H: Wait, S: BuildHasher + Drop, R: Read, W: Write>(
    rt: &H,
    alloc: Global,
    mode: ResizeMode,
    hasher: S,
    input: &mut R,
    output: &mut W,
) -> Result<(), Failure>
    ensures { IfSome (R.remaining input.old) (λ text.
        IsRun (IsBegun {S = S}) ShowsLine IsBad (lines_of text)
        (Appends (W.contents output.old) (W.contents output.new)) result) }
{
    let map: HashMap<u64, u64, S> = HashMap::with_parts(
        rt, alloc, mode, 0, SHARDS, hasher, None,
    ).map_err(Failure::Refused)?;
    let mut caller = Caller::new(rt, &map);
    run_lines(alloc, &mut caller, input, output)
}
