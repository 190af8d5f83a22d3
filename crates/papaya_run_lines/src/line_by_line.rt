//! The lines of an input one by one: each is read and performed, and its reply printed.
ghost use Rattle.std.specs.Prelude.{◌≡◌, ◌≢◌, ◌⊎◌, ℕ, List, [], ◌∷◌, ◌++◌, IfErr, IfOk, IfSome, OnOk};
ghost use Rattle.std.specs.Io.Buffered.{reader_remaining};
ghost use Rattle.std.specs.Io.KnownBytes.{Appends, Keeps};
ghost use Rattle.papaya_run_lines.specs.Lines.{lines_of};
ghost use Rattle.papaya_run_lines.specs.Printed.{text_of};
ghost use Rattle.papaya_run_lines.specs.Runs.{IsRun, Prints};
ghost use Rattle.papaya_run_lines.specs.Commands.{WritesCommand};
ghost use Rattle.papaya_run_lines.specs.declared.commands.Command.TheVariants as asked;
ghost use Rattle.papaya_run_lines.specs.declared.printed.Printed.{Printed};
ghost use Rattle.papaya_run_shell.specs.Failure.{without_memory};

use crate::lines::next_line;
use crate::printed::Printed;
use papaya_run_shell::failure::Failure;
use papaya_words::refused::Refused;
use std::alloc::Global;
use std::io::{BufReader, Read, Write};

/// An object that performs lines, one at a time.
///
/// Each states for contracts what is printed of a line that takes it from one state to another, and
/// which lines are bad.
pub trait Obey {
    ghost does: { Self → List ℕ → Printed → Self → Type 0 };

    ghost is_bad: { List ℕ → Type 0 };

    /// Does what the line of this number requests, and returns what is printed of it. A bad line
    /// does nothing. An iteration fails if there is no memory for its pairs.
    fn obey_line(&mut self, alloc: Global, number: u64, line: &[u8]) -> Result<Printed, Failure>
        ensures done { IfOk result (λ printed. does self.old line.now printed self.new) }
        ensures failed { IfErr result (λ failure. (is_bad line.now × (failure ≡ Failure.Line number)
            × (self.new ≡ self.old)) ⊎ (WritesCommand line.now asked.Walk
            × (failure ≡ without_memory))) };
}

/// Writes out what was printed, unless the reader has a whole line buffered: then it need not wait.
fn show<R: Read, W: Write>(reader: &BufReader<R>, output: &mut W) -> Result<(), Failure>
    ensures kept { OnOk result (Keeps (W.contents output.old) (W.contents output.new)) }
    ensures failed { IfErr result (λ failure. failure ≡ Failure.Output) }
{
    if !reader.buffer().contains(&b'\n') {
        output.flush().map_err(|_| Failure::Output)?;
    }
    Ok(())
}

/// Prints a reply, and a line end.
fn print<W: Write>(printed: &Printed, output: &mut W) -> Result<(), Failure>
    ensures printed { OnOk result (Appends (W.contents output.old) (W.contents output.new)
        (text_of printed.now ++ 10 ∷ [])) }
    ensures failed { IfErr result (λ failure. failure ≡ Failure.Output) }
{
    writeln!(output, "{printed}").map_err(|_| Failure::Output)
}

/// Performs a line, and prints its reply. An empty line is skipped.
fn answer<B: Obey, W: Write>(
    alloc: Global,
    backend: &mut B,
    number: u64,
    line: &[u8],
    output: &mut W,
) -> Result<(), Failure>
    ensures answered { OnOk result ((text : List ℕ)
        × Prints B.does backend.old (line.now ∷ []) text backend.new
        × Appends (W.contents output.old) (W.contents output.new) text) }
    ensures failed { IfErr result (λ failure. (failure ≡ Failure.Output)
        ⊎ ((failure ≡ without_memory) ⊎ ((failure ≡ Failure.Line number) × (line.now ≢ [])
        × B.is_bad line.now × (backend.new ≡ backend.old) × (output.new ≡ output.old)))) }
{
    if line.is_empty() {
        return Ok(());
    }
    let printed = backend.obey_line(alloc, number, line)?;
    print(&printed, output)
}

/// Performs the lines, and prints their replies. A reply is written out before the reader may have
/// to wait, so that a user who types a line sees its reply.
fn obey_lines<B: Obey, R: Read, W: Write>(
    alloc: Global,
    backend: &mut B,
    reader: &mut BufReader<R>,
    output: &mut W,
) -> Result<(), Failure>
    ensures { IfSome (reader_remaining R.remaining reader.old) (λ text.
        IsRun (λ s. s ≡ backend.old) B.does B.is_bad (lines_of text)
        (Appends (W.contents output.old) (W.contents output.new)) result) }
{
    let mut line = Vec::new(alloc);
    for number in 1..u64::MAX {
        show(reader, output)?;
        if !next_line(reader, &mut line)? {
            return Ok(());
        }
        answer(alloc, backend, number, &line, output)?;
    }
    Err(Failure::Input)
}

/// Performs each line of the input, and prints its reply. Lines count from 1, and empty ones are
/// skipped. The first line that fails ends the run; the replies to the lines before it are written
/// out first.
pub fn run_lines<B: Obey, R: Read, W: Write>(
    alloc: Global,
    backend: &mut B,
    input: &mut R,
    output: &mut W,
) -> Result<(), Failure>
    ensures { IfSome (R.remaining input.old) (λ text.
        IsRun (λ s. s ≡ backend.old) B.does B.is_bad (lines_of text)
        (Appends (W.contents output.old) (W.contents output.new)) result) }
{
    let mut reader = BufReader::new(alloc, input).map_err(|_| Failure::Refused(Refused::Memory))?;
    let done = obey_lines(alloc, backend, &mut reader, output);
    output.flush().map_err(|_| Failure::Output)?;
    done
}
