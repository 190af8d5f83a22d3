//! The failures of a program, which end it with another status than 0.
ghost use Rattle.std.specs.Prelude.{◌≡◌};
ghost use Rattle.papaya_run_shell.specs.Failure.{exit_status, status_of, without_memory};

use papaya_words::refused::Refused;
use std::alloc::{AllocError, AllocFailed};
use std::io::Write;
use thiserror::Error;

/// The reason for which a run ended early. The program prints its text on standard error, behind
/// its name.
#[derive(Clone, Copy, Debug, Error)]
pub enum Failure {
    /// The arguments are not of the documented form.
    #[error("bad arguments")]
    Arguments,
    /// The line of this number, counted from 1, is of bad form, or not for its caller at that time.
    #[error("line {0}: bad command")]
    Line(u64),
    /// A map could not be made, a call failed, or the program itself got no memory.
    #[error("refused {} {}", .0.number(), .0.name())]
    Refused(#[from] Refused),
    /// The backends had different results at one workload.
    #[error("answers differ")]
    Disagreement,
    /// The clock failed.
    #[error("clock failed")]
    Clock,
    /// The reader failed.
    #[error("input failed")]
    Input,
    /// The writer failed.
    #[error("output failed")]
    Output,
}

impl From<AllocError> for Failure {
    ghost from_gives = { λ _ failure. failure ≡ without_memory };

    fn from(_error: AllocError) -> Failure {
        Failure::Refused(Refused::Memory)
    }
}

impl<T: Drop> From<AllocFailed<T>> for Failure {
    ghost from_gives = { λ _ failure. failure ≡ without_memory };

    fn from(_error: AllocFailed<T>) -> Failure {
        Failure::Refused(Refused::Memory)
    }
}

impl Failure {
    /// Returns the exit status.
    pub fn status(self) -> u8
        ensures { result ≡ status_of self }
    {
        match self {
            Failure::Arguments | Failure::Line(_) => 2,
            Failure::Refused(_)
            | Failure::Disagreement
            | Failure::Clock
            | Failure::Input
            | Failure::Output => 1,
        }
    }

    /// Prints the failure behind the program's name and returns the exit status, even if the
    /// printing fails.
    pub fn report<E: Write>(self, program: &str, errors: &mut E) -> u8
        ensures { result ≡ status_of self }
    {
        // A failure of standard error can be reported nowhere else.
        let _ = writeln!(errors, "{program}: {self}");
        self.status()
    }
}

/// Returns the exit status of a run, and reports its failure.
pub fn ended<E: Write>(run: Result<(), Failure>, program: &str, errors: &mut E) -> u8
    ensures { result ≡ exit_status run }
{
    match run {
        Ok(()) => 0,
        Err(failure) => failure.report(program, errors),
    }
}
