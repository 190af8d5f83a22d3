//! The lines that are printed.
use papaya_run_shell::failure::Failure;
use std::io;
use std::io::Write;

/// Prints a line at once: the action, the map, the number of keys, and numbers.
pub(crate) fn print_line<W: Write>(
    done: &str,
    backend: &str,
    keys: u32,
    numbers: &[u128],
    output: &mut W,
) -> Result<(), Failure> {
    written(write!(output, "{done}/{backend}/{keys}"))?;
    for number in numbers {
        written(write!(output, " {number}"))?;
    }
    written(writeln!(output))?;
    written(output.flush())
}

/// Converts the result of a write into the failure of the writer.
pub(crate) fn written(write: io::Result<()>) -> Result<(), Failure> {
    match write {
        Ok(()) => Ok(()),
        Err(_) => Err(Failure::Output),
    }
}
