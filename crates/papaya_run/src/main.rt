//! `papaya-run`: runs lines of commands on a map, and prints a line for each reply.
#![tactic(auto)]

use papaya_run_lines::run::{PROGRAM, buffered, run_on};
use papaya_run_shell::start::words;
use std::process::ExitCode;

fn main(rt: HostRuntime) -> ExitCode {
    let mut errors = rt.stderr();
    let status = match words(&rt) {
        Ok(words) => match buffered(rt.alloc(), rt.stdout()) {
            Ok(mut output) => run_on(
                &rt,
                rt.alloc(),
                words.as_slice(),
                &mut rt.stdin(),
                &mut output,
                &mut errors,
            ),
            Err(failure) => failure.report(PROGRAM, &mut errors),
        },
        Err(failure) => failure.report(PROGRAM, &mut errors),
    };
    ExitCode::from(status)
}
