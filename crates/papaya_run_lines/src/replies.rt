//! The text that the program prints of a core's trace.
ghost use Rattle.std.specs.Prelude.{◌≡◌, ℕ, List, [], ◌∷◌, ◌++◌, IfErr, IfOk, OnOk, reverse};
ghost use Rattle.std.specs.Io.KnownBytes.{Appends};
ghost use Rattle.papaya_run_lines.specs.Replies.{printed_of, value_in};
ghost use Rattle.papaya_run_lines.specs.LineOutput.{IsPrintFailure, IsLineOutput, Replies, PrintsLines, behind, call_of};
ghost use Rattle.papaya_run_lines.specs.LineOutput.{gave_to, no_calls, own_of, pairs_in, reply_among, reply_text};
ghost use Rattle.papaya_run_lines.specs.LineOutput.{unended_text, with_call};
ghost use Rattle.papaya_run_shell.specs.Failure.{without_memory};

use crate::closures::Answering;
use crate::printed::Printed;
use crate::script::{Line, LinePart};
use crate::turns::CALLERS;
use crate::walk::Walk;
use papaya_call::call::Reply;
use papaya_core::schedule::Core;
use papaya_core_timeline::trace::{Entry, Event, Trace};
use papaya_run_shell::failure::Failure;
use std::alloc::Global;
use std::hash::BuildHasher;
use std::io::Write;

/// Returns the value of a pair that was stored.
fn value_of<S: BuildHasher + Drop>(core: &Core<u64, u64, S, Answering>, pair: u64) -> Option<u64>
    ensures { result ≡ value_in core.now.store pair }
{
    let (_, value) = core.pair(pair)?;
    Some(*value)
}

/// Returns what is printed of a reply, of an update or of another call. A reply names a pair that
/// the core has stored, so there always is something.
fn printed_of<S: BuildHasher + Drop>(
    core: &Core<u64, u64, S, Answering>,
    is_update: bool,
    reply: Reply,
) -> Option<Printed>
    ensures { result ≡ printed_of core.now.store is_update reply }
{
    match reply {
        Reply::Absent | Reply::Inserted(_) | Reply::Kept(_) | Reply::Aborted(_) => {
            Some(Printed::Absent)
        }
        Reply::Found(pair) | Reply::Occupied(pair) => Some(Printed::Found(value_of(core, pair)?)),
        Reply::Replaced { new, .. } if is_update => Some(Printed::New(value_of(core, new)?)),
        Reply::Replaced { old, .. } => Some(Printed::Old(value_of(core, old)?)),
        Reply::Removed(pair) => Some(Printed::Removed(value_of(core, pair)?)),
        Reply::Refused(refused) => Some(Printed::Refused(refused)),
        Reply::Done => Some(Printed::Done),
    }
}

/// The last call of each caller, as far as the text depends on it.
#[derive(Drop)]
struct Calls([LinePart; CALLERS as usize]);

impl Calls {
    /// Notes what a line begins, and returns its caller's call.
    fn note(&mut self, line: Line) -> LinePart
        ensures calls { self.new.0 ≡ with_call self.old.0 line }
        ensures call { result ≡ call_of self.old.0 line }
    {
        if line.caller >= self.0.len() {
            return line.part;
        }
        if line.part.begins() {
            self.0[line.caller] = line.part;
        }
        self.0[line.caller]
    }
}

/// Adds the pair of this number, which the core has stored.
fn push_pair<S: BuildHasher + Drop>(
    core: &Core<u64, u64, S, Answering>,
    pair: u64,
    pairs: &mut Vec<(u64, u64)>,
) -> Result<(), Failure>
    ensures pushed { OnOk result (pairs.new.items
        ≡ pairs.old.items ++ pairs_in core.now.store (pair ∷ [])) }
    ensures failed { IfErr result (λ failure. failure ≡ without_memory) }
{
    if let Some((key, value)) = core.pair(pair) {
        pairs.push((*key, *value))?;
    }
    Ok(())
}

/// Returns the pairs that a caller's last call returned up to this turn, by these entries.
fn given<S: BuildHasher + Drop>(
    alloc: Global,
    core: &Core<u64, u64, S, Answering>,
    caller: usize,
    turn: usize,
    entries: &[Entry],
) -> Result<Vec<(u64, u64)>, Failure>
    ensures given { IfOk result (λ pairs. pairs.items
        ≡ pairs_in core.now.store (gave_to caller turn (reverse entries.now))) }
    ensures failed { IfErr result (λ failure. failure ≡ without_memory) }
{
    let mut pairs = Vec::new(alloc);
    let mut left = entries;
    while let [before @ .., entry] = left {
        left = before;
        if entry.turn > turn || entry.caller != caller {
            continue;
        }
        match entry.event {
            Event::Begun => return Ok(pairs),
            Event::Gave(pair) => push_pair(core, pair, &mut pairs)?,
            _ => {}
        }
    }
    Ok(pairs)
}

/// Returns the reply among these entries.
fn reply_of(entries: &[Entry]) -> Option<Reply>
    ensures { result ≡ reply_among entries.now }
{
    for entry in entries {
        if let Event::Replied(reply) = entry.event {
            return Some(reply);
        }
    }
    None
}

/// Returns the entries at the front that are of this turn, and those behind them.
fn split_turn(entries: &[Entry], turn: usize) -> (&[Entry], &[Entry])
    ensures own { result.0.now ≡ own_of turn entries.now }
    ensures behind { result.1.now ≡ behind turn entries.now }
{
    let mut count = 0;
    while count < entries.len() && entries[count].turn == turn {
        count += 1;
    }
    entries.split_at(count)
}

/// A line at its turn: its caller's call, and the turn's place in the schedule.
#[derive(Clone, Copy)]
struct Here {
    line: Line,
    call: LinePart,
    turn: usize,
}

/// Returns what is printed of the reply to a line's turn.
fn replied<S: BuildHasher + Drop>(
    alloc: Global,
    core: &Core<u64, u64, S, Answering>,
    here: Here,
    entries: &[Entry],
    reply: Reply,
) -> Result<Option<Printed>, Failure>
    ensures replied { IfOk result (Replies core.now.store here.call
        (gave_to here.line.caller here.turn (reverse entries.now)) reply) }
    ensures failed { IfErr result (λ failure. failure ≡ without_memory) }
{
    match (here.call, reply) {
        (LinePart::Walk, Reply::Done) => {
            let pairs = given(alloc, core, here.line.caller, here.turn, entries)?;
            Ok(Some(Printed::Walk(Walk::new(pairs))))
        }
        (LinePart::Update, reply) => Ok(printed_of(core, true, reply)),
        (_, reply) => Ok(printed_of(core, false, reply)),
    }
}

/// Prints the text of a reply to a caller. A reply names pairs that the core has stored, so there
/// always is one.
fn print_reply<W: Write>(
    caller: usize,
    printed: Option<Printed>,
    output: &mut W,
) -> Result<(), Failure>
    ensures printed { OnOk result (Appends (W.contents output.old) (W.contents output.new)
        (reply_text caller printed)) }
    ensures failed { IfErr result (λ failure. failure ≡ Failure.Output) }
{
    match printed {
        Some(printed) => { writeln!(output, "{caller}: {printed}").map_err(|_| Failure::Output) }
        None => Ok(()),
    }
}

/// Prints the text of a line whose turn got no reply.
fn print_unended<W: Write>(line: Line, output: &mut W) -> Result<(), Failure>
    ensures printed { OnOk result (Appends (W.contents output.old) (W.contents output.new)
        (unended_text line.caller line.part)) }
    ensures failed { IfErr result (λ failure. failure ≡ Failure.Output) }
{
    let caller = line.caller;
    match line.part {
        LinePart::Finish => writeln!(output, "{caller}: running").map_err(|_| Failure::Output),
        _ => Ok(()),
    }
}

/// Prints the text of a line, by the reply to its turn.
fn print_line<S: BuildHasher + Drop, W: Write>(
    alloc: Global,
    core: &Core<u64, u64, S, Answering>,
    here: Here,
    entries: &[Entry],
    reply: Option<Reply>,
    output: &mut W,
) -> Result<(), Failure>
    ensures told { OnOk result ((text : List ℕ) × IsLineOutput core.now.store here.call here.line
        (gave_to here.line.caller here.turn (reverse entries.now)) reply text
        × Appends (W.contents output.old) (W.contents output.new) text) }
    ensures failed { IfErr result IsPrintFailure }
{
    match reply {
        Some(reply) => {
            let printed = replied(alloc, core, here, entries, reply)?;
            print_reply(here.line.caller, printed, output)
        }
        None => print_unended(here.line, output),
    }
}

/// Prints what the lines print, and returns the number of the first line whose turn was skipped, if
/// there is one. Such a turn has no entry in the trace; no line behind it prints.
pub fn print_trace<S: BuildHasher + Drop, W: Write>(
    alloc: Global,
    core: &Core<u64, u64, S, Answering>,
    lines: &[Line],
    trace: &Trace,
    output: &mut W,
) -> Result<Option<u64>, Failure>
    ensures told { IfOk result (λ passed_over. (text : List ℕ)
        × PrintsLines core.now.store trace.now.entries.items no_calls lines.now 0
        trace.now.entries.items text passed_over
        × Appends (W.contents output.old) (W.contents output.new) text) }
    ensures failed { IfErr result IsPrintFailure }
{
    let entries = trace.entries.as_slice();
    let mut left = entries;
    let mut calls = Calls([LinePart::Call; CALLERS as usize]);
    for turn in 0..lines.len() {
        let line = lines[turn];
        let (own, rest) = split_turn(left, turn);
        if own.is_empty() {
            return Ok(Some(line.number));
        }
        let call = calls.note(line);
        let here = Here { line, call, turn };
        print_line(alloc, core, here, entries, reply_of(own), output)?;
        left = rest;
    }
    Ok(None)
}
