//! The whole program, over any reader and writers.
ghost use Rattle.std.specs.Prelude.{◌≡◌, ◌≤◌, IfErr, IfSome, map, string_bytes};
ghost use Rattle.std.specs.Hash.{u64};
ghost use Rattle.std.specs.Io.KnownBytes.{Appends};
ghost use Rattle.papaya_words_keys.specs.Hashes.{hash_of};
ghost use Rattle.papaya_run_lines.specs.Lines.{lines_of};
ghost use Rattle.papaya_run_shell.specs.Failure.{without_memory};
ghost use Rattle.papaya_run_lines.specs.Program.{IsProgramRun, RunsOn, RunsTo};
ghost use Rattle.papaya_run_lines.specs.declared.arguments.Arguments.{Arguments};
ghost use Rattle.papaya_run_lines.specs.Arguments.{WritesArguments};

use crate::arguments::{Arguments, Backend, Hashing};
use crate::hashers::{Identity, Zero};
use crate::schedule::run_core;
use crate::seq::run_seq;
use crate::shared::run_shared;
use papaya_run_shell::failure::{Failure, ended};
use papaya_words::refused::Refused;
use std::alloc::Global;
use std::hash::BuildHasher;
use std::io::{BufWriter, Read, Write};
use std::sync::Wait;

/// The name of the program in what it prints on standard error.
pub const PROGRAM: &str = "papaya-run";

/// Buffers the writer: what is printed reaches it where the program may wait for its input, and at
/// its end.
pub fn buffered<W: Write + Drop>(alloc: Global, output: W) -> Result<BufWriter<W>, Failure>
    ensures failed { IfErr result (λ failure. failure ≡ without_memory) }
{
    BufWriter::new(alloc, output).map_err(|_| Failure::Refused(Refused::Memory))
}

/// Runs the lines on the requested backend, with this hasher.
fn run_by<H: Wait, S: BuildHasher + Drop, R: Read, W: Write>(
    rt: &H,
    alloc: Global,
    arguments: Arguments,
    hasher: S,
    input: &mut R,
    output: &mut W,
) -> Result<(), Failure>
    ensures { IfSome (R.remaining input.old) (λ text.
        RunsOn (hash_of u64 S.build_hasher S.Hasher.write S.Hasher.finish) arguments.backend
        arguments.mode hasher (lines_of text)
        (Appends (W.contents output.old) (W.contents output.new)) result) }
{
    let mode = arguments.mode;
    match arguments.backend {
        Backend::Core => run_core(alloc, mode, hasher, input, output),
        Backend::Seq => run_seq(alloc, mode, hasher, input, output),
        Backend::Shared => run_shared(rt, alloc, mode, hasher, input, output),
    }
}

/// Runs what the arguments request.
fn run<H: Wait, R: Read, W: Write>(
    rt: &H,
    alloc: Global,
    args: &[String],
    input: &mut R,
    output: &mut W,
) -> Result<(), Failure>
    ensures bad_arguments { ((arguments : Arguments)
        → ¬ (WritesArguments (map string_bytes args.now) arguments))
        → result ≡ Err Failure.Arguments }
    ensures ran { IfSome (R.remaining input.old) (λ text.
        IsProgramRun (map string_bytes args.now) (lines_of text)
        (Appends (W.contents output.old) (W.contents output.new)) result) }
{
    let Some(arguments) = Arguments::from_words(args) else {
        return Err(Failure::Arguments);
    };
    match arguments.hashing {
        Hashing::Identity => run_by(rt, alloc, arguments, Identity, input, output),
        Hashing::Zero => run_by(rt, alloc, arguments, Zero, input, output),
    }
}

/// Runs the program on the arguments behind its name, and returns its exit status: 0, or that of
/// the failure that it has printed on `errors`. It first checks the arguments, then makes the map,
/// then reads lines. A line's number counts from 1.
///
/// If the bytes of the input are known, the contract states what was written for them: what their
/// lines print one after the other, up to the first bad one. It states nothing of a run with status
/// 1, which ends as memory runs out or as the input or the output fails.
///
/// The program writes to `output` line by line, so a caller buffers it.
pub fn run_on<H: Wait, R: Read, W: Write, E: Write>(
    rt: &H,
    alloc: Global,
    args: &[String],
    input: &mut R,
    output: &mut W,
    errors: &mut E,
) -> u8
    ensures bad_arguments { ((arguments : Arguments)
        → ¬ (WritesArguments (map string_bytes args.now) arguments)) → result ≡ 2 }
    ensures bound { result ≤ 2 }
    ensures written { IfSome (R.remaining input.old) (λ text.
        RunsTo result (map string_bytes args.now) (lines_of text)
        (Appends (W.contents output.old) (W.contents output.new))) }
{
    ended(run(rt, alloc, args, input, output), PROGRAM, errors)
}
