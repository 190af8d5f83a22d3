//! The lines on a map for one caller: each is read, performed and printed before the next is read.
ghost use Rattle.std.specs.Prelude.{◌≡◌, IfErr, IfOk, IfSome};
ghost use Rattle.std.specs.Io.KnownBytes.{Appends};
ghost use Rattle.papaya_run_lines.specs.Lines.{lines_of};
ghost use Rattle.papaya_run_lines.specs.Program.{DoesLine, IsNewMap};
ghost use Rattle.papaya_run_lines.specs.Runs.{IsRun};
ghost use Rattle.papaya_run_lines.specs.Commands.{WritesNone};
ghost use Rattle.papaya_run_lines.specs.Walk.{IsByKey};
ghost use Rattle.papaya_run_shell.specs.Failure.{without_memory};
ghost use Rattle.papaya_run_lines.specs.Seq.{Obeys, ObeysLine, pairs_of};

use crate::closures::follower;
use crate::commands::{Command, command_of};
use crate::line_by_line::{Obey, run_lines};
use crate::printed::Printed;
use crate::walk::Walk;
use papaya_run_shell::failure::Failure;
use papaya_seq::seq::HashMap;
use papaya_words::resize_mode::ResizeMode;
use std::alloc::Global;
use std::hash::BuildHasher;
use std::io::{Read, Write};

/// Returns the pairs of the map.
fn walk<S: BuildHasher + Drop>(alloc: Global, map: &HashMap<u64, u64, S>) -> Result<Walk, Failure>
    ensures walked { IfOk result (IsByKey (pairs_of map.now)) }
    ensures failed { IfErr result (λ failure. failure ≡ without_memory) }
{
    let mut pairs = Vec::new(alloc);
    for (key, value) in map {
        pairs.push((*key, *value))?;
    }
    Ok(Walk::new(pairs))
}

/// Does what a command requests, and returns what is printed of it. An iteration fails if there is
/// no memory for its pairs.
fn obey<S: BuildHasher + Drop>(
    alloc: Global,
    map: &mut HashMap<u64, u64, S>,
    command: Command,
) -> Result<Printed, Failure>
    ensures done { IfOk result (λ printed. Obeys command map.old printed map.new) }
    ensures failed { IfErr result (λ failure. (command ≡ Command.Walk)
        × (failure ≡ without_memory)) }
{
    match command {
        Command::Insert(key, value) => match map.insert(key, value) {
            Ok(Some(old)) => Ok(Printed::Old(*old)),
            Ok(None) => Ok(Printed::Absent),
            Err(refused) => Ok(Printed::Refused(refused)),
        },
        Command::Get(key) => match map.get(&key) {
            Some(value) => Ok(Printed::Found(*value)),
            None => Ok(Printed::Absent),
        },
        Command::Remove(key) => match map.remove(&key) {
            Ok(Some(value)) => Ok(Printed::Removed(*value)),
            Ok(None) => Ok(Printed::Absent),
            Err(refused) => Ok(Printed::Refused(refused)),
        },
        Command::Update(key) => match map.update(key, follower) {
            Ok(Some(value)) => Ok(Printed::New(*value)),
            Ok(None) => Ok(Printed::Absent),
            Err(refused) => Ok(Printed::Refused(refused)),
        },
        Command::Len => Ok(Printed::Length(map.len())),
        Command::Slots => Ok(Printed::Slots(map.slots())),
        Command::Clear => match map.clear() {
            Ok(()) => Ok(Printed::Done),
            Err(refused) => Ok(Printed::Refused(refused)),
        },
        Command::Walk => Ok(Printed::Walk(walk(alloc, map)?)),
    }
}

impl<S: BuildHasher + Drop> Obey for HashMap<u64, u64, S> {
    ghost does = { λ old line printed new. ObeysLine line old printed new };

    ghost is_bad = { WritesNone };

    fn obey_line(&mut self, alloc: Global, number: u64, line: &[u8]) -> Result<Printed, Failure> {
        match command_of(line) {
            Some(command) => obey(alloc, self, command),
            None => Err(Failure::Line(number)),
        }
    }
}

/// Runs the lines of the input one by one on a new map, and prints each reply at once. The first
/// bad line ends the run.
pub(crate) fn run_seq<S: BuildHasher + Drop, R: Read, W: Write>(
    alloc: Global,
    mode: ResizeMode,
    hasher: S,
    input: &mut R,
    output: &mut W,
) -> Result<(), Failure>
    ensures { IfSome (R.remaining input.old) (λ text.
        IsRun (IsNewMap mode hasher) DoesLine WritesNone (lines_of text)
        (Appends (W.contents output.old) (W.contents output.new)) result) }
{
    let mut map: HashMap<u64, u64, S> = HashMap::with_parts(
        alloc, mode, 0, 1, hasher, None,
    ).map_err(Failure::Refused)?;
    run_lines(alloc, &mut map, input, output)
}
