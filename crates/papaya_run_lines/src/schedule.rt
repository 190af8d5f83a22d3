//! The lines as one schedule of many callers on one map, one step at a time.
ghost use Rattle.std.specs.Prelude.{◌≡◌, IfErr, IfOk, IfSome};
ghost use Rattle.std.specs.Hash.{u64};
ghost use Rattle.std.specs.Io.KnownBytes.{Appends};
ghost use Rattle.papaya_words_keys.specs.Hashes.{hash_of};
ghost use Rattle.papaya_run_lines.specs.Lines.{IsReadFailure, lines_of};
ghost use Rattle.papaya_run_lines.specs.Script.{IsScript};
ghost use Rattle.papaya_core_timeline.specs.New.{IsNew};
ghost use Rattle.papaya_run_lines.specs.Core.{IsCoreRun};

use crate::closures::Answering;
use crate::replies::print_trace;
use crate::script::Script;
use papaya_core::schedule::Core;
use papaya_run_shell::failure::Failure;
use papaya_words::refused::Refused;
use papaya_words::resize_mode::ResizeMode;
use std::alloc::Global;
use std::hash::BuildHasher;
use std::io::{BufReader, Read, Write};

/// Reads the whole input.
fn script_of<R: Read>(alloc: Global, input: &mut R) -> Result<Script, Failure>
    ensures read { IfOk result (λ script. IfSome (R.remaining input.old)
        (λ text. IsScript (lines_of text) 1 script.turns.items script.lines.items
        script.bad_line)) }
    ensures failed { IfErr result IsReadFailure }
{
    let mut reader = BufReader::new(alloc, input).map_err(|_| Failure::Refused(Refused::Memory))?;
    Script::read(alloc, &mut reader)
}

/// Runs the lines of the input as one schedule of a new core, and prints the replies.
pub(crate) fn run_core<S: BuildHasher + Drop, R: Read, W: Write>(
    alloc: Global,
    mode: ResizeMode,
    hasher: S,
    input: &mut R,
    output: &mut W,
) -> Result<(), Failure>
    ensures { IfSome (R.remaining input.old) (λ text.
        IsCoreRun (hash_of u64 S.build_hasher S.Hasher.write S.Hasher.finish)
        (IsNew mode 0 1 hasher) (lines_of text)
        (Appends (W.contents output.old) (W.contents output.new)) result) }
{
    let mut core: Core<u64, u64, S, Answering> = Core::new(alloc, mode, 0, 1, hasher).map_err(
        Failure::Refused,
    )?;
    let Script {
        turns,
        lines,
        bad_line,
    } = script_of(alloc, input)?;
    let trace = core.run(turns).map_err(Failure::Refused)?;
    let passed_over = print_trace(alloc, &core, lines.as_slice(), &trace, output)?;
    output.flush().map_err(|_| Failure::Output)?;
    match passed_over.or(bad_line) {
        Some(number) => Err(Failure::Line(number)),
        None => Ok(()),
    }
}
