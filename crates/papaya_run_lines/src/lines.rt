//! The lines of a reader.
ghost use Rattle.std.specs.Prelude.{◌≡◌, IfOk, IfErr, IfSome};
ghost use Rattle.std.specs.Io.BufRead.{strip_last};
ghost use Rattle.papaya_run_lines.specs.Lines.{IsNextLine, IsReadFailure};

use papaya_run_shell::failure::Failure;
use papaya_words::refused::Refused;
use std::io;
use std::io::{BufRead, ErrorKind};

/// Removes the line end, if there is one.
fn cut_end(line: &mut Vec<u8>)
    ensures { line.new.items ≡ strip_last 10 line.old.items }
{
    if line.last() == Some(&b'\n') {
        line.pop();
    }
}

/// Returns the failure of a program whose reader fails so.
fn failure_of(error: io::Error) -> Failure
    ensures { IsReadFailure result }
{
    match error.kind() {
        ErrorKind::OutOfMemory => Failure::Refused(Refused::Memory),
        _ => Failure::Input,
    }
}

/// Reads a line into `line`, without its line end, or returns false at the input's end. The last
/// line may lack its line end.
pub fn next_line<R: BufRead>(input: &mut R, line: &mut Vec<u8>) -> Result<bool, Failure>
    ensures read { IfOk result (λ more. IfSome (R.Read.remaining input.old)
        (λ text. IsNextLine text more line.new.items (R.Read.remaining input.new))) }
    ensures failed { IfErr result IsReadFailure }
{
    line.clear();
    let count = input.read_until(b'\n', line).map_err(failure_of)?;
    cut_end(line);
    Ok(count != 0)
}
